//! The characters of texts and lines.
ghost use Rattle.std.specs.Prelude.{◌≡◌, ◌<◌, ◌≤◌, ◌++◌, [], IfSome, IsNone, IsUtf8, List, chars, encode_utf8, length};
ghost use Rattle.std.specs.Prelude.{ℕ};
ghost use Rattle.std.specs.Char.{IsScalar};
ghost use Rattle.text_lines.specs.Columns.{width_of};
ghost use Rattle.text_lines.specs.Tagged.{line_items, line_text};
ghost use Rattle.text_pieces.specs.Sources.{is_break_point, is_white_space, is_filled};
ghost use Rattle.text_pieces.specs.Cuts.{Lacks, IsCutAt, IsAfter};
ghost use Rattle.text_pieces.specs.Items.{has_text};

use text_lines::{Columns, EqualCopy, TaggedLine, UnicodeColumns};

const ZERO_WIDTH_SPACE: char = '\u{200b}';

const NO_BREAK_SPACE: char = '\u{a0}';

/// The columns of a character, 0 where it has no width.
pub fn width_of(c: char) -> usize
    ensures { result ≡ width_of c }
{
    UnicodeColumns::columns(c).unwrap_or(0)
}

/// White space other than U+00A0.
pub fn is_white_space(c: char) -> bool
    ensures { result ≡ is_white_space c }
{
    c.is_whitespace() && c != NO_BREAK_SPACE
}

/// A character at which a line may break in normal text: U+200B, or white space other than U+00A0.
pub fn is_break_point(c: char) -> bool
    ensures { result ≡ is_break_point c }
{
    c == ZERO_WIDTH_SPACE || is_white_space(c)
}

/// The first character of a text, and what stands after it.
pub fn first_char(text: &str) -> Option<(char, &str)>
    ensures first { IfSome result (λ parts. text.now ≡ encode_utf8 parts.0 ++ parts.1.now) }
    ensures texts { IfSome result (λ parts. IsScalar parts.0 × IsUtf8 parts.1.now) }
    ensures shorter { IfSome result (λ parts. length parts.1.now < length text.now) }
    ensures none { IsNone result → text.now ≡ [] }
{
    let mut chars = text.chars();
    let c = chars.next()?;
    Some((c, chars.as_str()))
}

/// The last character of a text, and what stands before it.
pub fn last_char(text: &str) -> Option<(&str, char)>
    ensures last { IfSome result (λ parts. text.now ≡ parts.0.now ++ encode_utf8 parts.1) }
    ensures texts { IfSome result (λ parts. IsUtf8 parts.0.now × IsScalar parts.1) }
    ensures shorter { IfSome result (λ parts. length parts.0.now < length text.now) }
    ensures none { IsNone result → text.now ≡ [] }
{
    let mut chars = text.chars();
    let c = chars.next_back()?;
    Some((chars.as_str(), c))
}

/// What stands in front of the first such ASCII character, and after it.
pub fn cut_at(text: &str, mark: char) -> Option<(&str, &str)>
    requires { mark < 128 }
    ensures parts { IfSome result (λ parts. IsCutAt mark (chars text.now) (chars parts.0.now) (chars parts.1.now)) }
    ensures none { IsNone result → Lacks mark (chars text.now) }
    ensures texts { IfSome result (λ parts. IsUtf8 parts.0.now × IsUtf8 parts.1.now) }
    ensures shorter { IfSome result (λ parts. length parts.1.now < length text.now) }
{
    text.split_once(mark)
}

/// The text in front of a rest of it, and that rest.
pub fn split_before<'a>(text: &'a str, rest: &str) -> (&'a str, &'a str)
    requires { IsAfter text.now rest.now }
    ensures parts { chars text.now ≡ chars result.0.now ++ chars result.1.now }
    ensures front { (front : List ℕ) → text.now ≡ front ++ rest.now → result.0.now ≡ front }
    ensures rest { result.1.now ≡ rest.now }
    ensures text { IsUtf8 result.0.now }
    ensures no_longer { length result.1.now ≤ length text.now }
{
    text.split_at(text.len() - rest.len())
}

/// Whether the line has a character, also one of no column; markers are none.
pub fn has_text<T: EqualCopy + Drop>(line: &TaggedLine<T>) -> bool
    ensures { result ≡ has_text (line_items T.seen line.now) }
{
    holds_text(line)
}

fn holds_text<T>(line: &TaggedLine<T>) -> bool
    ensures { result ≡ is_filled (line_text line.now) }
{
    line.chars().next().is_some()
}
