//! The lines of single tokens, each as what it adds to others. The error is allocation failure.
ghost use Rattle.std.specs.Prelude.{◌≡◌, ◌∷◌, ◌++◌, OnOk, chars, string_bytes};
ghost use Rattle.std.specs.Fmt.{decimal};
ghost use Rattle.test_token_lines.specs.TokenLines.{attribute_line, comment_line, doctype_line, error_line};
ghost use Rattle.test_token_lines.specs.TokenLines.{field_if_given, flag, kind_word, null_line, tag_line, tag_lines};

use html_lexemes::{Attribute, Doctype, Tag, TagKind, Text};
use std::alloc::AllocError;
use test_fields::{NO_TEXT, end_line, push_field, push_line, push_word};

fn push_number(lines: &mut String, number: u64) -> Result<(), AllocError>
    ensures { OnOk result (chars (string_bytes lines.new)
        ≡ chars (string_bytes lines.old) ++ 9 ∷ decimal number) }
{
    write!(lines, "\t{number}")
}

// adds a word where a flag is set, and else `-`
fn push_flag(lines: &mut String, is_set: bool, word: &str) -> Result<(), AllocError>
    ensures { OnOk result (chars (string_bytes lines.new)
        ≡ chars (string_bytes lines.old) ++ flag is_set (chars word.now)) }
{
    if is_set {
        push_field(lines, word)
    } else {
        push_field(lines, "-")
    }
}

// adds a text to a line, or what stands for none
fn push_if_given(lines: &mut String, text: &Option<Text>) -> Result<(), AllocError>
    ensures { OnOk result (chars (string_bytes lines.new)
        ≡ chars (string_bytes lines.old) ++ field_if_given text.now) }
{
    match text {
        Some(text) => push_field(lines, text.as_str()),
        None => {
            push_word(lines, "\t")?;
            push_word(lines, NO_TEXT)
        }
    }
}

pub(crate) fn push_error(lines: &mut String, message: &str, line: u64) -> Result<(), AllocError>
    ensures { OnOk result (chars (string_bytes lines.new)
        ≡ chars (string_bytes lines.old) ++ error_line (chars message.now) line) }
{
    push_word(lines, "error")?;
    push_number(lines, line)?;
    push_field(lines, message)?;
    end_line(lines)
}

pub(crate) fn push_null(lines: &mut String) -> Result<(), AllocError>
    ensures { OnOk result (chars (string_bytes lines.new) ≡ chars (string_bytes lines.old) ++ null_line) }
{
    push_word(lines, "null\n")
}

pub(crate) fn push_comment(lines: &mut String, comment: &Text) -> Result<(), AllocError>
    ensures { OnOk result (chars (string_bytes lines.new)
        ≡ chars (string_bytes lines.old) ++ comment_line comment.now) }
{
    push_line(lines, "comment", comment.as_str())
}

pub(crate) fn push_tag(lines: &mut String, tag: &Tag) -> Result<(), AllocError>
    ensures { OnOk result (chars (string_bytes lines.new)
        ≡ chars (string_bytes lines.old) ++ tag_lines tag.now) }
{
    push_tag_line(lines, tag)?;
    for attribute in tag.attrs.as_slice() {
        push_attribute(lines, attribute)?;
    }
    Ok(())
}

fn push_tag_line(lines: &mut String, tag: &Tag) -> Result<(), AllocError>
    ensures { OnOk result (chars (string_bytes lines.new) ≡ chars (string_bytes lines.old) ++ tag_line tag.now) }
{
    push_word(lines, kind_word(tag.kind))?;
    push_field(lines, tag.name.as_str())?;
    push_flag(lines, tag.self_closing, "self-closing")?;
    push_flag(lines, tag.had_duplicate_attributes, "duplicates")?;
    end_line(lines)
}

fn kind_word(kind: TagKind) -> &'static str
    ensures { chars result.now ≡ kind_word kind }
{
    match kind {
        TagKind::StartTag => "start",
        TagKind::EndTag => "end",
    }
}

fn push_attribute(lines: &mut String, attribute: &Attribute) -> Result<(), AllocError>
    ensures { OnOk result (chars (string_bytes lines.new)
        ≡ chars (string_bytes lines.old) ++ attribute_line attribute.now) }
{
    push_word(lines, "attribute")?;
    push_field(lines, attribute.name.local.as_str())?;
    push_field(lines, attribute.value.as_str())?;
    end_line(lines)
}

pub(crate) fn push_doctype(lines: &mut String, doctype: &Doctype) -> Result<(), AllocError>
    ensures { OnOk result (chars (string_bytes lines.new)
        ≡ chars (string_bytes lines.old) ++ doctype_line doctype.now) }
{
    push_word(lines, "doctype")?;
    push_if_given(lines, &doctype.name)?;
    push_if_given(lines, &doctype.public_id)?;
    push_if_given(lines, &doctype.system_id)?;
    push_flag(lines, doctype.force_quirks, "quirks")?;
    end_line(lines)
}
