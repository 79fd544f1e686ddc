//! Writes of whole texts.
ghost use Rattle.std.specs.Prelude.{◌≡◌, true, chars, OnErr, OnOk};
ghost use Rattle.std.specs.Io.KnownBytes.{Appends};
ghost use Rattle.lex_base.specs.KnownPart.{AppendsPart};
ghost use Rattle.tree_serializer.specs.Writing.{Grows, GrowsPart};

use html_lexemes::{ByteWriter, DeviceFault};

// writes all the bytes; a fault leaves a beginning of them
fn write_all<W: ByteWriter>(writer: &mut W, bytes: &[u8]) -> Result<(), DeviceFault>
    ensures ok { OnOk result (Appends (W.contents writer.old) (W.contents writer.new) bytes.now) }
    ensures part { OnErr result (AppendsPart (W.contents writer.old) (W.contents writer.new) bytes.now) }
    ensures failed { OnErr result (W.has_failed writer.new ≡ true) }
    ensures stays { W.has_failed writer.old ≡ true → W.has_failed writer.new ≡ true }
{
    let mut rest = bytes;
    'bytes: while !rest.is_empty() {
        let count = writer.write(rest)?;
        let (_, after) = rest.split_at(count);
        rest = after;
    }
    Ok(())
}

// writes a text; a fault leaves a beginning of it
pub(crate) fn write_text<W: ByteWriter>(writer: &mut W, text: &str) -> Result<(), DeviceFault>
    ensures ok { OnOk result (Grows (chars text.now) (W.contents writer.old) (W.contents writer.new)) }
    ensures part { OnErr result (GrowsPart (chars text.now) (W.contents writer.old) (W.contents writer.new)) }
    ensures failed { OnErr result (W.has_failed writer.new ≡ true) }
    ensures stays { W.has_failed writer.old ≡ true → W.has_failed writer.new ≡ true }
{
    write_all(writer, text.as_bytes())
}
