ghost use Rattle.std.specs.Prelude.{◌≡◌, ◌≤◌, ◌++◌, [], ◌+◌, ◌∷◌, Err, IfErr, IfOk, IsTrue, List, OnErr, chars, drop};
ghost use Rattle.std.specs.Prelude.{false, is_err, length, string_bytes, take, true, ℕ};
ghost use Rattle.page_decoding.specs.ReplacedText.{replaced_text, is_unfinished};

use html_lexemes::ParseFault;
use std::alloc::{AllocError, Global};
use std::marker::Model;
use std::str;

/// How many bytes of an unfinished character are held back, at most.
const MOST_HELD: usize = 3;

/// Reads bytes that come in pieces as UTF-8: each well-formed sequence is its character, and each longest
/// ill-formed part (a beginning of some well-formed sequence, else one byte) is one U+FFFD, wherever the
/// pieces were cut (Unicode Standard, 3.9, "U+FFFD Substitution of Maximal Subparts").
///
/// Contracts see the bytes held back, and whether a call was refused.
#[derive(Drop)]
pub struct Utf8LossyDecoder {
    held: [u8; 3],
    held_len: usize,
    failed: bool,
}

impl Model for Utf8LossyDecoder {
    ghost use Rattle.std.specs.Prelude.{take, ◌≤◌, IsTrue};
    ghost use Rattle.page_decoding.specs.Decoding.{Decoding};
    ghost use Rattle.page_decoding.specs.ReplacedText.{is_unfinished};

    ghost Value = { Decoding };

    ghost view = { λ d. record { held = take d.held_len d.held; has_failed = d.failed } };

    ghost invariant = { λ d. (d.held_len ≤ 3) × IsTrue (is_unfinished (take d.held_len d.held)) };
}

impl Utf8LossyDecoder {
    /// A decoder of which nothing has come. It takes no memory.
    pub fn new() -> Utf8LossyDecoder
        ensures held { result.held ≡ [] }
        ensures works { result.has_failed ≡ false }
    {
        Utf8LossyDecoder {
            held: [0; 3],
            held_len: 0,
            failed: false,
        }
    }

    /// Takes the next piece, and gives the text of what is complete now; an unfinished character is held
    /// back. After a refusal every call is refused as `Failed`.
    pub fn push(&mut self, alloc: Global, piece: &[u8]) -> Result<String, ParseFault>
        ensures text { IfOk result (λ text. (rest : List ℕ) →
            replaced_text (self.old.held ++ piece.now ++ rest)
            ≡ chars (string_bytes text) ++ replaced_text (self.new.held ++ rest)) }
        ensures unfinished { IsTrue (is_unfinished self.new.held) }
        ensures at_most { length self.new.held ≤ 3 }
        ensures refused { is_err result ≡ self.new.has_failed }
        ensures failed { self.old.has_failed ≡ true → result ≡ Err ParseFault.Failed }
        ensures kinds { self.old.has_failed ≡ false → IfErr result (λ e. e ≡ ParseFault.Memory) }
    {
        if self.failed {
            return Err(ParseFault::Failed);
        }
        let mut text = String::new(alloc);
        match read_piece(&mut text, &mut self.held, self.held_len, piece) {
            Ok(held_len) => {
                self.held_len = held_len;
                Ok(text)
            }
            Err(_) => {
                self.failed = true;
                Err(ParseFault::Memory)
            }
        }
    }

    /// The text of what is held back, at the end of the bytes.
    pub fn finish(self, alloc: Global) -> Result<String, ParseFault>
        ensures text { IfOk result (λ text. chars (string_bytes text) ≡ replaced_text self.held) }
        ensures failed { self.has_failed ≡ true → result ≡ Err ParseFault.Failed }
        ensures kinds { self.has_failed ≡ false → IfErr result (λ e. e ≡ ParseFault.Memory) }
    {
        if self.failed {
            return Err(ParseFault::Failed);
        }
        let mut text = String::new(alloc);
        if self.held_len > 0 {
            text.push('\u{FFFD}')?;
        }
        Ok(text)
    }
}

/// Appends the text of the bytes, up to an unfinished character at their end, and gives how many bytes it has
/// taken.
fn read(text: &mut String, bytes: &[u8]) -> Result<usize, AllocError>
    ensures text { IfOk result (λ taken. (rest : List ℕ) →
        chars (string_bytes text.old) ++ replaced_text (bytes.now ++ rest)
        ≡ chars (string_bytes text.new) ++ replaced_text (drop taken bytes.now ++ rest)) }
    ensures unfinished { IfOk result (λ taken. IsTrue (is_unfinished (drop taken bytes.now))) }
    ensures within { IfOk result (λ taken. taken ≤ length bytes.now) }
    ensures at_most { IfOk result (λ taken. length bytes.now ≤ taken + 3) }
{
    let mut taken = 0;
    loop {
        let (_, left) = bytes.split_at(taken);
        let fault = match str::from_utf8(left) {
            Ok(run) => {
                text.push_str(run)?;
                return Ok(bytes.len());
            }
            Err(fault) => fault,
        };
        let (front, _) = left.split_at(fault.valid_up_to());
        // SAFETY: the bytes in front of the fault are well-formed.
        let run = unsafe { str::from_utf8_unchecked(front) };
        text.push_str(run)?;
        taken += front.len();
        let Some(wrong) = fault.error_len() else {
            return Ok(taken);
        };
        text.push('\u{FFFD}')?;
        taken += wrong;
    }
}

/// Writes the bytes into the buffer at a place.
fn put(buffer: &mut [u8], place: usize, bytes: &[u8])
    requires { place + length bytes.now ≤ length buffer.old }
    ensures { take (place + length bytes.now) buffer.new ≡ take place buffer.old ++ bytes.now }
{
    buffer[place..place + bytes.len()].copy_from_slice(bytes);
}

/// Reads a piece that follows the bytes held back, and holds back the unfinished character at its end:
/// gives how many bytes that is. A refused call leaves what is held.
fn read_piece(
    text: &mut String,
    held: &mut [u8; 3],
    held_len: usize,
    piece: &[u8],
) -> Result<usize, AllocError>
    requires { held_len ≤ 3 }
    ensures text { IfOk result (λ kept. (rest : List ℕ) →
        chars (string_bytes text.old) ++ replaced_text (take held_len held.old ++ piece.now ++ rest)
        ≡ chars (string_bytes text.new) ++ replaced_text (take kept held.new ++ rest)) }
    ensures unfinished { IfOk result (λ kept. IsTrue (is_unfinished (take kept held.new))) }
    ensures at_most { IfOk result (λ kept. kept ≤ 3) }
    ensures unchanged { OnErr result (held.new ≡ held.old) }
{
    text.reserve(piece.len())?;
    // A held character ends within three more bytes, so those after it are read with it, and then the piece
    // from where that came to.
    let mut seam = [0; 6];
    put(&mut seam, 0, held);
    let (first, _) = piece.split_at(piece.len().min(MOST_HELD));
    put(&mut seam, held_len, first);
    let (seam, _) = seam.split_at(held_len + first.len());
    let taken = read(text, seam)?;
    let left = if taken < held_len {
        let (_, left) = seam.split_at(taken);
        left
    } else {
        let (_, later) = piece.split_at(taken - held_len);
        let (_, left) = later.split_at(read(text, later)?);
        left
    };
    put(held, 0, left);
    Ok(left.len())
}

// The definition, computed on worked rows.
#[tactic(auto, unfolding(crate::specs::ReplacedText::replaced_text, crate::specs::ReplacedText::text_of_parts))]
fn replaced_text_of_rows()
    ensures cut_emoji { replaced_text (0xF0 ∷ 0x9F ∷ 0x98 ∷ []) ≡ 0xFFFD ∷ [] }
    ensures overlong { replaced_text (0xE0 ∷ 0x80 ∷ []) ≡ 0xFFFD ∷ 0xFFFD ∷ [] }
    ensures surrogate { replaced_text (0xED ∷ 0xA0 ∷ 0x80 ∷ []) ≡ 0xFFFD ∷ 0xFFFD ∷ 0xFFFD ∷ [] }
    ensures two_of_four { replaced_text (0xF0 ∷ 0x80 ∷ []) ≡ 0xFFFD ∷ 0xFFFD ∷ [] }
    ensures above_the_last { replaced_text (0xF4 ∷ 0x90 ∷ []) ≡ 0xFFFD ∷ 0xFFFD ∷ [] }
    ensures lone { replaced_text (0x61 ∷ 0xFF ∷ 0x62 ∷ []) ≡ 0x61 ∷ 0xFFFD ∷ 0x62 ∷ [] }
    ensures whole { replaced_text (0xC3 ∷ 0xA9 ∷ 0xE6 ∷ 0xBC ∷ 0xA2 ∷ 0xF0 ∷ 0x9F ∷ 0x98 ∷ 0x80 ∷ [])
        ≡ 0xE9 ∷ 0x6F22 ∷ 0x1F600 ∷ [] }
{}
