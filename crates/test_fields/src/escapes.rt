//! Texts in fields.
ghost use Rattle.std.specs.Prelude.{◌≡◌, ◌++◌, chars, string_bytes, OnOk};
ghost use Rattle.test_fields.specs.Escapes.{code_of, escape_of, field_of, is_unseen};

use crate::field_fault::FieldFault;
use std::alloc::{AllocError, Global};

/// What stands for no text.
pub const NO_TEXT: &str = "\\N";

/// The text that a field stands for.
pub fn unescaped(alloc: Global, field: &str) -> Result<String, FieldFault> {
    let mut text = String::new(alloc);
    // whether the next part is taken as it stands: it is the first, or follows `\\`
    let mut is_plain = true;
    for part in field.split('\\') {
        if is_plain {
            text.push_str(part)?;
            is_plain = false;
        } else if part.is_empty() {
            text.push('\\')?;
            is_plain = true;
        } else {
            let Some((c, rest)) = escaped_character(part) else {
                return Err(FieldFault::Escape);
            };
            text.push(c)?;
            text.push_str(rest)?;
        }
    }
    if is_plain {
        return Err(FieldFault::End);
    }
    Ok(text)
}

// the character that a text after a backslash begins with, and what follows it
fn escaped_character(text: &str) -> Option<(char, &str)> {
    if let Some(rest) = text.strip_prefix('n') {
        return Some(('\n', rest));
    }
    if let Some(rest) = text.strip_prefix('t') {
        return Some(('\t', rest));
    }
    if let Some(rest) = text.strip_prefix('r') {
        return Some(('\r', rest));
    }
    let (digits, rest) = text.strip_prefix("u{")?.split_once('}')?;
    Some((character_of(digits)?, rest))
}

// the character of some hexadecimal digits
fn character_of(digits: &str) -> Option<char> {
    if digits.is_empty() {
        return None;
    }
    let mut code = 0u32;
    for c in digits.chars() {
        let digit = c.to_digit(16)?;
        code = code.checked_mul(16)?.checked_add(digit)?;
    }
    char::from_u32(code)
}

/// Adds a text with its escapes to a line. The error is allocation failure; then a beginning of it was added.
pub fn push_escaped(line: &mut String, text: &str) -> Result<(), AllocError>
    ensures { OnOk result (chars (string_bytes line.new)
        ≡ chars (string_bytes line.old) ++ field_of (chars text.now)) }
{
    for c in text.chars() {
        push_character(line, c)?;
    }
    Ok(())
}

fn push_character(line: &mut String, c: char) -> Result<(), AllocError>
    ensures { OnOk result (chars (string_bytes line.new) ≡ chars (string_bytes line.old) ++ escape_of c) }
{
    match c {
        '\\' => line.push_str("\\\\"),
        '\n' => line.push_str("\\n"),
        '\t' => line.push_str("\\t"),
        '\r' => line.push_str("\\r"),
        c if is_unseen(c) => push_code(line, c),
        c => line.push(c),
    }
}

fn push_code(line: &mut String, c: char) -> Result<(), AllocError>
    ensures { OnOk result (chars (string_bytes line.new) ≡ chars (string_bytes line.old) ++ code_of c) }
{
    write!(line, "\\u{{{:X}}}", u32::from(c))
}

// whether a character does not show by itself: a control, a mark on what precedes it, or U+FEFF
fn is_unseen(c: char) -> bool
    ensures { result ≡ is_unseen c }
{
    c.is_control() || matches!(c, '\u{20d0}'..='\u{20ff}' | '\u{feff}')
}
