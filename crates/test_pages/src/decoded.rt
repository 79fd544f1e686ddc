ghost use Rattle.std.specs.Prelude.{◌≡◌, chars, string_bytes, flat_map, IfOk, IfErr};
ghost use Rattle.page_decoding.specs.ReplacedText.{replaced_text};

use html2text::{ParseFault, Utf8LossyDecoder};
use std::alloc::Global;

/// The text of bytes that come in pieces: the replaced text of the pieces joined, however they were cut.
pub fn decoded_text(alloc: Global, pieces: &[Vec<u8>]) -> Result<String, ParseFault>
    ensures text { IfOk result (λ text. chars (string_bytes text)
        ≡ replaced_text (flat_map (λ piece. piece.items) pieces.now)) }
    ensures kinds { IfErr result (λ e. e ≡ ParseFault.Memory) }
{
    let mut decoder = Utf8LossyDecoder::new();
    let mut text = String::new(alloc);
    for piece in pieces {
        text.push_str(decoder.push(alloc, piece)?.as_str())?;
    }
    text.push_str(decoder.finish(alloc)?.as_str())?;
    Ok(text)
}
