//! A page that a device gives.
ghost use Rattle.std.specs.Prelude.{◌≡◌, ◌+◌, ◌<◌, ◌≤◌, ◌⊎◌, [], true, false, length, Err, IfSome, IfOk, IfErr, OnOk};
ghost use Rattle.std.specs.Io.KnownBytes.{IsAtEnd};
ghost use Rattle.tree_forest.specs.Forest.{Forest};
ghost use Rattle.tree_forest.specs.declared.sink.QuirksMode.{QuirksMode as Quirks};
ghost use Rattle.page_reading.specs.PageTrees.{IsTreeOfBytes};
ghost use Rattle.page_reading.specs.Readers.{Comes};

use crate::fault::ReadFault;
use crate::reader::PageReader;
use html_lexemes::{ByteReader, ReferenceTable};
use html_render_dom::RcDom;
use html_tree_builder::ParseOpts;
use std::alloc::Global;

/// How many bytes are asked for at once.
const PIECE: usize = 8192;

/// Reads a page to its end, at most `max_bytes` bytes, and gives its tree: that of all the bytes that the device had.
/// It asks for one byte more at most. The error is `IoError` where the device failed, `TooLong` where more than
/// `max_bytes` bytes came, and else allocation failure.
pub fn read_page<R: ByteReader>(
    alloc: Global,
    input: &mut R,
    table: ReferenceTable,
    options: ParseOpts,
    max_bytes: usize,
) -> Result<RcDom, ReadFault>
    ensures at_most { R.count input.new ≤ R.count input.old + max_bytes + 1 }
    ensures io { result ≡ Err ReadFault.IoError → R.has_failed input.new ≡ true }
    ensures too_long { result ≡ Err ReadFault.TooLong → R.count input.old + max_bytes < R.count input.new }
    ensures long { result ≡ Err ReadFault.TooLong → IfSome (R.remaining input.old)
        (λ bytes. max_bytes < length bytes) }
    ensures kinds { IfErr result
        (λ e. (e ≡ ReadFault.IoError) ⊎ (e ≡ ReadFault.TooLong) ⊎ (e ≡ ReadFault.Memory)) }
    ensures tree { IfOk result (λ dom. IfSome (R.remaining input.old)
        (λ bytes. IsTreeOfBytes table options bytes dom.forest dom.quirks)) }
    ensures came { OnOk result (IfSome (R.remaining input.old)
        (λ bytes. R.count input.new ≡ R.count input.old + length bytes)) }
    ensures within { OnOk result (R.count input.new ≤ R.count input.old + max_bytes) }
    ensures stays { R.has_failed input.old ≡ true → R.has_failed input.new ≡ true }
    ensures works { OnOk result (R.has_failed input.new ≡ false) }
    ensures end { OnOk result (IsAtEnd (R.remaining input.new)) }
{
    let mut page = match PageReader::new(alloc, table, options, max_bytes) {
        Ok(page) => page,
        Err(fault) => return Err(ReadFault::of(fault)),
    };
    read_pieces(input, &mut page)?;
    match page.finish() {
        Ok(dom) => Ok(dom),
        Err(fault) => Err(ReadFault::of(fault)),
    }
}

// Reads what a device has left, as far as the page's reader takes it.
fn read_pieces<R: ByteReader>(input: &mut R, page: &mut PageReader) -> Result<(), ReadFault>
    requires { page.old.has_failed ≡ false }
    ensures at_most { R.count input.new ≤ R.count input.old + page.old.left + 1 }
    ensures io { result ≡ Err ReadFault.IoError → R.has_failed input.new ≡ true }
    ensures too_long { result ≡ Err ReadFault.TooLong → R.count input.old + page.old.left < R.count input.new }
    ensures long { result ≡ Err ReadFault.TooLong → IfSome (R.remaining input.old)
        (λ bytes. page.old.left < length bytes) }
    ensures kinds { IfErr result
        (λ e. (e ≡ ReadFault.IoError) ⊎ (e ≡ ReadFault.TooLong) ⊎ (e ≡ ReadFault.Memory)) }
    ensures reads { OnOk result (IfSome (R.remaining input.old) (λ bytes. (forest : Forest) (quirks : Quirks) →
        Comes page.new [] forest quirks → Comes page.old bytes forest quirks)) }
    ensures going { OnOk result (page.new.has_failed ≡ false) }
    ensures came { OnOk result (IfSome (R.remaining input.old)
        (λ bytes. R.count input.new ≡ R.count input.old + length bytes)) }
    ensures within { OnOk result (R.count input.new ≤ R.count input.old + page.old.left) }
    ensures stays { R.has_failed input.old ≡ true → R.has_failed input.new ≡ true }
    ensures works { OnOk result (R.has_failed input.new ≡ false) }
    ensures end { OnOk result (IsAtEnd (R.remaining input.new)) }
{
    let mut buffer = [0; PIECE];
    'pieces: loop {
        let most = page.left().saturating_add(1).min(PIECE);
        let count = input.read(&mut buffer[..most])?;
        if count == 0 {
            return Ok(());
        }
        if let Err(fault) = page.push(&buffer[..count]) {
            return Err(ReadFault::of(fault));
        }
    }
}
