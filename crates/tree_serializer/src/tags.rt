//! Tags, comments, doctypes and instructions, written (WHATWG HTML, 13.3).
ghost use Rattle.std.specs.Prelude.{◌≡◌, ◌++◌, true, chars, OnErr, OnOk};
ghost use Rattle.tree_serializer.specs.Escapes.{attribute_text, attributes_text, comment_text, doctype_text, end_text};
ghost use Rattle.tree_serializer.specs.Escapes.{instruction_text, start_text};
ghost use Rattle.tree_serializer.specs.Writing.{Grows, GrowsPart};

use crate::escape::write_escaped;
use crate::writes::write_text;
use html_lexemes::{Attribute, ByteWriter, DeviceFault, QualName};

// writes a text between two others
fn write_between<W: ByteWriter>(
    writer: &mut W,
    before: &str,
    text: &str,
    after: &str,
) -> Result<(), DeviceFault>
    ensures ok { OnOk result (Grows (chars before.now ++ chars text.now ++ chars after.now)
        (W.contents writer.old) (W.contents writer.new)) }
    ensures part { OnErr result (GrowsPart (chars before.now ++ chars text.now ++ chars after.now)
        (W.contents writer.old) (W.contents writer.new)) }
    ensures failed { OnErr result (W.has_failed writer.new ≡ true) }
    ensures stays { W.has_failed writer.old ≡ true → W.has_failed writer.new ≡ true }
{
    write_text(writer, before)?;
    write_text(writer, text)?;
    write_text(writer, after)
}

fn write_attribute<W: ByteWriter>(writer: &mut W, attribute: &Attribute) -> Result<(), DeviceFault>
    ensures ok { OnOk result (Grows (attribute_text attribute.now) (W.contents writer.old) (W.contents writer.new)) }
    ensures part { OnErr result
        (GrowsPart (attribute_text attribute.now) (W.contents writer.old) (W.contents writer.new)) }
    ensures failed { OnErr result (W.has_failed writer.new ≡ true) }
    ensures stays { W.has_failed writer.old ≡ true → W.has_failed writer.new ≡ true }
{
    write_between(writer, " ", attribute.name.local.as_str(), "=\"")?;
    write_escaped(writer, attribute.value.as_str(), true)?;
    write_text(writer, "\"")
}

fn write_attributes<W: ByteWriter>(
    writer: &mut W,
    attributes: &[Attribute],
) -> Result<(), DeviceFault>
    ensures ok { OnOk result
        (Grows (attributes_text attributes.now) (W.contents writer.old) (W.contents writer.new)) }
    ensures part { OnErr result
        (GrowsPart (attributes_text attributes.now) (W.contents writer.old) (W.contents writer.new)) }
    ensures failed { OnErr result (W.has_failed writer.new ≡ true) }
    ensures stays { W.has_failed writer.old ≡ true → W.has_failed writer.new ≡ true }
{
    'attributes: for attribute in attributes {
        write_attribute(writer, attribute)?;
    }
    Ok(())
}

pub(crate) fn write_start<W: ByteWriter>(
    writer: &mut W,
    name: &QualName,
    attributes: &[Attribute],
) -> Result<(), DeviceFault>
    ensures ok { OnOk result
        (Grows (start_text name.now attributes.now) (W.contents writer.old) (W.contents writer.new)) }
    ensures part { OnErr result
        (GrowsPart (start_text name.now attributes.now) (W.contents writer.old) (W.contents writer.new)) }
    ensures failed { OnErr result (W.has_failed writer.new ≡ true) }
    ensures stays { W.has_failed writer.old ≡ true → W.has_failed writer.new ≡ true }
{
    write_text(writer, "<")?;
    write_text(writer, name.local.as_str())?;
    write_attributes(writer, attributes)?;
    write_text(writer, ">")
}

pub(crate) fn write_end<W: ByteWriter>(writer: &mut W, name: &QualName) -> Result<(), DeviceFault>
    ensures ok { OnOk result (Grows (end_text name.now) (W.contents writer.old) (W.contents writer.new)) }
    ensures part { OnErr result (GrowsPart (end_text name.now) (W.contents writer.old) (W.contents writer.new)) }
    ensures failed { OnErr result (W.has_failed writer.new ≡ true) }
    ensures stays { W.has_failed writer.old ≡ true → W.has_failed writer.new ≡ true }
{
    write_between(writer, "</", name.local.as_str(), ">")
}

pub(crate) fn write_comment<W: ByteWriter>(writer: &mut W, text: &str) -> Result<(), DeviceFault>
    ensures ok { OnOk result
        (Grows (comment_text (chars text.now)) (W.contents writer.old) (W.contents writer.new)) }
    ensures part { OnErr result
        (GrowsPart (comment_text (chars text.now)) (W.contents writer.old) (W.contents writer.new)) }
    ensures failed { OnErr result (W.has_failed writer.new ≡ true) }
    ensures stays { W.has_failed writer.old ≡ true → W.has_failed writer.new ≡ true }
{
    write_between(writer, "<!--", text, "-->")
}

pub(crate) fn write_doctype<W: ByteWriter>(writer: &mut W, name: &str) -> Result<(), DeviceFault>
    ensures ok { OnOk result
        (Grows (doctype_text (chars name.now)) (W.contents writer.old) (W.contents writer.new)) }
    ensures part { OnErr result
        (GrowsPart (doctype_text (chars name.now)) (W.contents writer.old) (W.contents writer.new)) }
    ensures failed { OnErr result (W.has_failed writer.new ≡ true) }
    ensures stays { W.has_failed writer.old ≡ true → W.has_failed writer.new ≡ true }
{
    write_between(writer, "<!DOCTYPE ", name, ">")
}

pub(crate) fn write_instruction<W: ByteWriter>(
    writer: &mut W,
    target: &str,
    contents: &str,
) -> Result<(), DeviceFault>
    ensures ok { OnOk result (Grows (instruction_text (chars target.now) (chars contents.now))
        (W.contents writer.old) (W.contents writer.new)) }
    ensures part { OnErr result (GrowsPart (instruction_text (chars target.now) (chars contents.now))
        (W.contents writer.old) (W.contents writer.new)) }
    ensures failed { OnErr result (W.has_failed writer.new ≡ true) }
    ensures stays { W.has_failed writer.old ≡ true → W.has_failed writer.new ≡ true }
{
    write_between(writer, "<?", target, " ")?;
    write_text(writer, contents)?;
    write_text(writer, ">")
}
