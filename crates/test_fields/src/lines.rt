//! Words and fields of lines, their ends, and lines of one field.
ghost use Rattle.std.specs.Prelude.{◌≡◌, ◌∷◌, [], ◌++◌, chars, string_bytes, OnOk};
ghost use Rattle.test_fields.specs.Escapes.{field_of};

use crate::escapes::push_escaped;
use std::alloc::AllocError;

/// Adds a word, as it is. The error is allocation failure.
pub fn push_word(lines: &mut String, word: &str) -> Result<(), AllocError>
    ensures { OnOk result (chars (string_bytes lines.new) ≡ chars (string_bytes lines.old) ++ chars word.now) }
{
    lines.push_str(word)
}

/// Adds a text to a line, after a tab. The error is allocation failure.
pub fn push_field(line: &mut String, text: &str) -> Result<(), AllocError>
    ensures { OnOk result (chars (string_bytes line.new)
        ≡ chars (string_bytes line.old) ++ 9 ∷ field_of (chars text.now)) }
{
    line.push('\t')?;
    push_escaped(line, text)
}

/// Ends a line. The error is allocation failure.
pub fn end_line(lines: &mut String) -> Result<(), AllocError>
    ensures { OnOk result (chars (string_bytes lines.new) ≡ chars (string_bytes lines.old) ++ 10 ∷ []) }
{
    lines.push('\n')
}

/// Adds a line of a word and a text, which is a field. The error is allocation failure.
pub fn push_line(lines: &mut String, word: &str, text: &str) -> Result<(), AllocError>
    ensures { OnOk result (chars (string_bytes lines.new) ≡ chars (string_bytes lines.old)
        ++ (chars word.now ++ 9 ∷ (field_of (chars text.now) ++ 10 ∷ []))) }
{
    push_word(lines, word)?;
    push_field(lines, text)?;
    end_line(lines)
}
