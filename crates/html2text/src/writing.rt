//! A page's text, written.
ghost use Rattle.std.specs.Prelude.{◌≡◌, ◌+◌, ◌<◌, ◌≤◌, ◌⊎◌, true, false, length, Err, IfSome, OnErr, OnOk};
ghost use Rattle.std.specs.Io.KnownBytes.{Appends, IsAtEnd};
ghost use Rattle.lex_base.specs.KnownPart.{AppendsPart};
ghost use Rattle.html2text.specs.Written.{Gains, GainsPart};
ghost use Rattle.html2text.specs.LinesText.{line_bytes, lines_bytes};
ghost use Rattle.page_config.specs.Errors.{IsAnswer};
ghost use Rattle.page_config.specs.PageAnswers.{Answers, IsEmitted, fail, too_narrow};
ghost use Rattle.html_render_tree.specs.PageLaws.{IsTextWithin};
ghost use Rattle.page_config.specs.Settings.{max_bytes_of, page_setting};
ghost use Rattle.block_renderer.specs.Seen.{IsTagging};
ghost use Rattle.text_decorators.specs.Marks.{IsSteady};

use html_lexemes::{ByteReader, ByteWriter, DeviceFault};
use page_config::{Config, Error, a_text_keeps_its_width};
use std::alloc::Global;
use text_decorators::TextDecorator;
use text_lines::TaggedLine;

/// Reads a page, and writes the text of its lines, each with a newline. Nothing is written before the
/// layout has succeeded. No line passes the width, in columns, where no part of a page may (`within`). It doesn't flush
/// the writer.
pub fn run<R: ByteReader, W: ByteWriter, D: TextDecorator + Drop>(
    alloc: Global,
    reader: &mut R,
    writer: &mut W,
    config: Config<D>,
    width: usize,
) -> Result<(), Error>
    ensures at_most { R.count reader.new ≤ R.count reader.old + max_bytes_of config + 1 }
    ensures io { result ≡ Err Error.IoError → (R.has_failed reader.new ≡ true) ⊎ (W.has_failed writer.new ≡ true) }
    ensures too_long { result ≡ Err Error.TooLong → R.count reader.old + max_bytes_of config < R.count reader.new }
    ensures long { result ≡ Err Error.TooLong → IfSome (R.remaining reader.old)
        (λ bytes. max_bytes_of config < length bytes) }
    ensures reader_stays { R.has_failed reader.old ≡ true → R.has_failed reader.new ≡ true }
    ensures writer_stays { W.has_failed writer.old ≡ true → W.has_failed writer.new ≡ true }
    ensures works { IsAnswer result → R.has_failed reader.new ≡ false }
    ensures end { IsAnswer result → IsAtEnd (R.remaining reader.new) }

    // What was read is written as its lines' text.
    ensures written { OnOk result (IfSome (R.remaining reader.old)
        (λ bytes. Gains (IsEmitted D.Annotation.seen D.view (page_setting D.view config) width bytes)
        (W.contents writer.old) (W.contents writer.new))) }
    ensures narrow { result ≡ Err Error.TooNarrow → IfSome (R.remaining reader.old) (λ bytes. Answers D.Annotation.seen
        D.view (page_setting D.view config) width bytes too_narrow) }
    ensures fail { result ≡ Err Error.Fail → IfSome (R.remaining reader.old) (λ bytes. Answers D.Annotation.seen D.view
        (page_setting D.view config) width bytes fail) }
    ensures within { (tag : _) → IsTagging D.Annotation.seen D.view tag → IsSteady D.view.text
        → (page_setting D.view config).rendering.options.allow_width_overflow ≡ false
        → (page_setting D.view config).rendering.options.wrap_links ≡ true → 2 ≤ width → OnOk result
        (IfSome (R.remaining reader.old) (λ bytes. Gains (IsTextWithin width) (W.contents writer.old)
        (W.contents writer.new))) }
    ensures short { IsAnswer result → IfSome (R.remaining reader.old) (λ bytes. length bytes ≤ max_bytes_of config) }

    // Only a fault of the writer leaves anything written: a beginning of that text.
    ensures unwritten { OnErr result ((writer.new ≡ writer.old) ⊎ ((result ≡ Err Error.IoError)
        × (W.has_failed writer.new ≡ true) × IfSome (R.remaining reader.old)
        (λ bytes. GainsPart (IsEmitted D.Annotation.seen D.view (page_setting D.view config) width bytes)
        (W.contents writer.old) (W.contents writer.new)))) }
{
    a_text_keeps_its_width::<D>();
    let lines = config.text_lines_from_read(alloc, reader, width)?;
    write_lines(writer, &lines)?;
    Ok(())
}

fn write_lines<W: ByteWriter, T: Drop>(
    writer: &mut W,
    lines: &[TaggedLine<T>],
) -> Result<(), DeviceFault>
    ensures ok { OnOk result (Appends (W.contents writer.old) (W.contents writer.new) (lines_bytes lines.now)) }
    ensures part { OnErr result (AppendsPart (W.contents writer.old) (W.contents writer.new) (lines_bytes lines.now)) }
    ensures failed { OnErr result (W.has_failed writer.new ≡ true) }
    ensures stays { W.has_failed writer.old ≡ true → W.has_failed writer.new ≡ true }
{
    'lines: for line in lines {
        write_line(writer, line)?;
    }
    Ok(())
}

fn write_line<W: ByteWriter, T: Drop>(
    writer: &mut W,
    line: &TaggedLine<T>,
) -> Result<(), DeviceFault>
    ensures ok { OnOk result (Appends (W.contents writer.old) (W.contents writer.new) (line_bytes line.now)) }
    ensures part { OnErr result (AppendsPart (W.contents writer.old) (W.contents writer.new) (line_bytes line.now)) }
    ensures failed { OnErr result (W.has_failed writer.new ≡ true) }
    ensures stays { W.has_failed writer.old ≡ true → W.has_failed writer.new ≡ true }
{
    'elements: for element in line.iter() {
        write_all(writer, element.as_str().as_bytes())?;
    }
    write_all(writer, b"\n")
}

/// Writes all the bytes. A fault leaves a beginning of them.
pub(crate) fn write_all<W: ByteWriter>(writer: &mut W, bytes: &[u8]) -> Result<(), DeviceFault>
    ensures ok { OnOk result (Appends (W.contents writer.old) (W.contents writer.new) bytes.now) }
    ensures part { OnErr result (AppendsPart (W.contents writer.old) (W.contents writer.new) bytes.now) }
    ensures failed { OnErr result (W.has_failed writer.new ≡ true) }
    ensures stays { W.has_failed writer.old ≡ true → W.has_failed writer.new ≡ true }
{
    let mut rest = bytes;
    'bytes: while !rest.is_empty() {
        let count = writer.write(rest)?;
        let (_, after) = rest.split_at(count);
        rest = after;
    }
    Ok(())
}
