//! Where words begin and end in a text.
ghost use Rattle.std.specs.Prelude.{◌≡◌, ◌<◌, chars};
ghost use Rattle.text_normal.specs.Riders.{is_carrier};
ghost use Rattle.text_normal.specs.MarkedStates.{LeavesWord, BeginsWord, in_word_after};

use text_lines::{Columns, UnicodeColumns};
use text_pieces::{first_char, is_break_point, last_char};

/// Whether markers ride on the character: it has a width, and is no break point.
fn is_carrier(c: char) -> bool
    ensures { result ≡ is_carrier c }
{
    !is_break_point(c) && UnicodeColumns::columns(c).is_some()
}

/// What follows the characters in front on which no markers ride.
pub(crate) fn from_word(text: &str) -> &str
    ensures leaves { LeavesWord text.now result.now }
    ensures begins { BeginsWord (chars result.now) }
{
    let mut rest = text;
    while let Some((c, after)) = first_char(rest) {
        if is_carrier(c) {
            return rest;
        }
        rest = after;
    }
    rest
}

/// Whether a marker after the text rides on its last word, or on that before the text.
pub(crate) fn ends_in_word(text: &str, width: usize, in_word: bool) -> bool
    ensures { result ≡ in_word_after width in_word (chars text.now) }
{
    let mut rest = text;
    while let Some((before, c)) = last_char(rest) {
        if is_break_point(c) {
            return false;
        }
        if let Some(columns) = UnicodeColumns::columns(c) {
            return columns <= width;
        }
        rest = before;
    }
    in_word
}
