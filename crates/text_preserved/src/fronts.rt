//! Fronts of texts, whose characters are taken at once.
ghost use Rattle.std.specs.Prelude.{◌≡◌, ◌≤◌, ◌==◌, ◌&&◌, ◌||◌, ◌++◌, if◌then◌else◌, IsTrue, IsUtf8, chars, length};
ghost use Rattle.std.specs.Prelude.{true};
ghost use Rattle.text_lines.specs.Columns.{text_columns};
ghost use Rattle.text_preserved.specs.Preserved.{kind_of, is_solid};
ghost use Rattle.text_preserved.specs.Fronts.{AreWordsOrNone, BeginsSolid, Fits, HasFront, JoinsBody, WordsFit};
ghost use Rattle.text_preserved.specs.Fronts.{goes_on_with, has_wider};

use crate::kinds::{CharacterKind, is_solid, kind_of};
use text_pieces::{first_char, split_before, width_of};

/// The characters in front that a body takes once it has begun, and what stands after them.
pub(crate) fn body_front(text: &str, width: usize, wraps: bool) -> (&str, &str)
    ensures parts { chars text.now ≡ chars result.0.now ++ chars result.1.now }
    ensures joins { JoinsBody width wraps (chars result.0.now) }
    ensures no_longer { length result.1.now ≤ length text.now }
{
    split_before(text, after_body(text, width, wraps))
}

fn after_body(text: &str, width: usize, wraps: bool) -> &str
    ensures { HasFront (JoinsBody width wraps) text.now result.now }
{
    let mut rest = text;
    while let Some((c, after)) = first_char(rest) {
        if !goes_on_with(c, width, wraps) {
            return rest;
        }
        rest = after;
    }
    rest
}

/// Whether the text begins with a character that is shown.
pub(crate) fn begins_solid(text: &str, width: usize, wraps: bool) -> bool
    ensures { IsTrue result → BeginsSolid width wraps (chars text.now) }
{
    match first_char(text) {
        Some((c, _)) => is_solid(c, width, wraps),
        None => false,
    }
}

/// Whether a body goes on with the character: white space ends it where lines break there, a tab always.
fn goes_on_with(c: char, width: usize, wraps: bool) -> bool
    ensures { result ≡ goes_on_with wraps (kind_of width wraps c) }
{
    match kind_of(c, width, wraps) {
        CharacterKind::Solid => true,
        CharacterKind::White => !wraps,
        CharacterKind::Tab | CharacterKind::Cut | CharacterKind::Nothing => false,
    }
}

/// The characters in front that go on a line after so many columns, and what stands after them.
pub(crate) fn fitting_front(text: &str, width: usize, taken: usize) -> (&str, &str)
    ensures parts { chars text.now ≡ chars result.0.now ++ chars result.1.now }
    ensures fits { Fits width taken (chars result.0.now) }
    ensures no_longer { length result.1.now ≤ length text.now }
{
    match width.checked_sub(taken) {
        Some(room) => split_before(text, after_fitting(text, room)),
        None => ("", text),
    }
}

fn after_fitting(text: &str, room: usize) -> &str
    ensures { HasFront (λ cs. text_columns cs ≤ room) text.now result.now }
{
    let mut left = room;
    let mut rest = text;
    while let Some((c, after)) = first_char(rest) {
        let columns = width_of(c);
        if columns > left {
            return rest;
        }
        left -= columns;
        rest = after;
    }
    rest
}

/// The words and spaces in front that go on a line after so many columns, up to a word's end before a space, and what
/// stands after them. Lines break at white space.
pub(crate) fn words_front(text: &str, width: usize, taken: usize) -> (&str, &str)
    ensures parts { chars text.now ≡ chars result.0.now ++ chars result.1.now }
    ensures words { WordsFit width taken (chars result.0.now) (chars result.1.now) }
    ensures text { IsUtf8 result.0.now }
    ensures no_longer { length result.1.now ≤ length text.now }
{
    match width.checked_sub(taken) {
        Some(room) => split_before(text, after_words(text, width, room)),
        None => ("", text),
    }
}

fn after_words(text: &str, width: usize, room: usize) -> &str
    ensures { HasFront (λ cs. AreWordsOrNone width room cs (chars result.now)) text.now result.now }
{
    let mut left = room;
    let mut rest = text;
    let mut trailing = text;
    let mut in_word = false;
    while let Some((c, after)) = first_char(rest) {
        trailing = rest_after_word(in_word, c, rest, trailing);
        let columns = width_of(c);
        if columns > left || !is_word_or_space(c, width) {
            return trailing;
        }
        left -= columns;
        in_word = c != ' ';
        rest = after;
    }
    trailing
}

/// What stands after the last word before the character, where `trailing` does for those that end before.
fn rest_after_word<'a>(in_word: bool, c: char, rest: &'a str, trailing: &'a str) -> &'a str
    ensures { result.now ≡ (if in_word && (c == 0x20) then rest.now else trailing.now) }
{
    if in_word && c == ' ' { rest } else { trailing }
}

fn is_word_or_space(c: char, width: usize) -> bool
    ensures { result ≡ ((c == 0x20) || is_solid (kind_of width true c)) }
{
    c == ' ' || is_solid(c, width, true)
}

/// Whether a character of the text is wider than the width.
pub(crate) fn has_wider(text: &str, width: usize) -> bool
    ensures { result ≡ has_wider width (chars text.now) }
{
    // No character has more than two columns.
    if width >= 2 {
        return false;
    }
    let mut rest = text;
    while let Some((c, after)) = first_char(rest) {
        if width_of(c) > width {
            return true;
        }
        rest = after;
    }
    false
}
