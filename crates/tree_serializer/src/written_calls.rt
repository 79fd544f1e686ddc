//! What each call writes (WHATWG HTML, 13.3), over the parts of a serializer.
ghost use Rattle.std.specs.Prelude.{Bool, chars};
ghost use Rattle.tree_serializer.specs.Calls.{doctype_of, finish, instruction_of, remark, reply_of, start, text_run};
ghost use Rattle.tree_serializer.specs.Parts.{writing_in};
ghost use Rattle.tree_serializer.specs.Writing.{Means};

use crate::entries::{OpenEntry, close_entry, find_parent, is_silent, keeps_text, open_entry};
use crate::escape::write_escaped;
use crate::fault::SerializeFault;
use crate::tags::{write_comment, write_doctype, write_end, write_instruction, write_start};
use crate::writes::write_text;
use html_lexemes::{Attribute, ByteWriter, QualName};

pub(crate) fn start_element<W: ByteWriter>(
    writer: &mut W,
    entries: &mut Vec<OpenEntry>,
    makes_parents: bool,
    name: &QualName,
    attrs: &[Attribute],
) -> Result<(), SerializeFault>
    ensures { (scripting : Bool) → Means
        (writing_in W.contents W.has_failed scripting makes_parents entries.old.items writer.old)
        (start name.now attrs.now) (reply_of result)
        (writing_in W.contents W.has_failed scripting makes_parents entries.new.items writer.new) }
{
    let in_silence = open_entry(entries, makes_parents, name)?;
    if in_silence {
        return Ok(());
    }
    write_start(writer, name, attrs)?;
    Ok(())
}

pub(crate) fn end_element<W: ByteWriter>(
    writer: &mut W,
    entries: &mut Vec<OpenEntry>,
    makes_parents: bool,
    name: &QualName,
) -> Result<(), SerializeFault>
    ensures { (scripting : Bool) → Means
        (writing_in W.contents W.has_failed scripting makes_parents entries.old.items writer.old)
        (finish name.now) (reply_of result)
        (writing_in W.contents W.has_failed scripting makes_parents entries.new.items writer.new) }
{
    let in_silence = close_entry(entries, makes_parents)?;
    if in_silence {
        return Ok(());
    }
    write_end(writer, name)?;
    Ok(())
}

pub(crate) fn put_text<W: ByteWriter>(
    writer: &mut W,
    entries: &mut Vec<OpenEntry>,
    makes_parents: bool,
    scripting: bool,
    text: &str,
) -> Result<(), SerializeFault>
    ensures { Means
        (writing_in W.contents W.has_failed scripting makes_parents entries.old.items writer.old)
        (text_run (chars text.now)) (reply_of result)
        (writing_in W.contents W.has_failed scripting makes_parents entries.new.items writer.new) }
{
    find_parent(entries, makes_parents)?;
    if is_silent(entries.as_slice()) {
        return Ok(());
    }
    if keeps_text(entries.as_slice(), scripting) {
        write_text(writer, text)?;
        return Ok(());
    }
    write_escaped(writer, text, false)?;
    Ok(())
}

pub(crate) fn put_comment<W: ByteWriter>(
    writer: &mut W,
    entries: &[OpenEntry],
    text: &str,
) -> Result<(), SerializeFault>
    ensures { (scripting makes_parents : Bool) → Means
        (writing_in W.contents W.has_failed scripting makes_parents entries.now writer.old)
        (remark (chars text.now)) (reply_of result)
        (writing_in W.contents W.has_failed scripting makes_parents entries.now writer.new) }
{
    if is_silent(entries) {
        return Ok(());
    }
    write_comment(writer, text)?;
    Ok(())
}

pub(crate) fn put_doctype<W: ByteWriter>(
    writer: &mut W,
    entries: &[OpenEntry],
    name: &str,
) -> Result<(), SerializeFault>
    ensures { (scripting makes_parents : Bool) → Means
        (writing_in W.contents W.has_failed scripting makes_parents entries.now writer.old)
        (doctype_of (chars name.now)) (reply_of result)
        (writing_in W.contents W.has_failed scripting makes_parents entries.now writer.new) }
{
    if is_silent(entries) {
        return Ok(());
    }
    write_doctype(writer, name)?;
    Ok(())
}

pub(crate) fn put_instruction<W: ByteWriter>(
    writer: &mut W,
    entries: &[OpenEntry],
    target: &str,
    contents: &str,
) -> Result<(), SerializeFault>
    ensures { (scripting makes_parents : Bool) → Means
        (writing_in W.contents W.has_failed scripting makes_parents entries.now writer.old)
        (instruction_of (chars target.now) (chars contents.now)) (reply_of result)
        (writing_in W.contents W.has_failed scripting makes_parents entries.now writer.new) }
{
    if is_silent(entries) {
        return Ok(());
    }
    write_instruction(writer, target, contents)?;
    Ok(())
}
