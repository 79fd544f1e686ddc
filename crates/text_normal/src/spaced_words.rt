//! Words of visible ASCII that stand after single spaces.
ghost use Rattle.std.specs.Prelude.{◌≡◌, ◌≢◌, ◌↔◌, ◌≤◌, [], ◌∷◌, ◌++◌, IfOk, IfSome, IsTrue, IsUtf8, List, chars};
ghost use Rattle.std.specs.Prelude.{string_bytes, ℕ};
ghost use Rattle.text_normal.specs.SpacedWords.{EndsVisibly, HasRun, HasWord, HasWords, IsEnded, IsLineAndSpace};
ghost use Rattle.text_normal.specs.SpacedWords.{IsWordsAndSpace};

use std::alloc::AllocError;
use text_pieces::{first_char, last_char};

/// The columns of the words in front of a text, each after a space, as many as `room` columns hold with their spaces,
/// and what follows them.
pub fn words_in_front(text: &str, room: usize) -> (usize, &str)
    ensures words { HasWords text.now result.1.now result.0 room }
    ensures text { IsUtf8 result.1.now }
{
    let mut columns = 0usize;
    let mut rest = text;
    while let Some((more, trailing)) = word_in_front(rest, room - columns) {
        columns += more;
        rest = trailing;
    }
    (columns, rest)
}

/// The columns of a text without the space at its end, where it is words of at most `room` columns, each after a
/// space, and that space.
pub fn words_before_space(text: &str, room: usize) -> Option<usize>
    ensures words { IfSome result (λ columns. IsWordsAndSpace (chars text.now) columns) }
    ensures fits { IfSome result (λ columns. (columns ≢ 0) × (columns ≤ room)) }
{
    // The common case of a long text.
    if text.len().saturating_sub(1) > room {
        return None;
    }
    let (columns, rest) = words_in_front(text, room);
    if columns > 0 && is_space(rest) {
        Some(columns)
    } else {
        None
    }
}

/// The columns of a text without the space at its end, where it is words of at most `room` columns, parted by single
/// spaces, and that space.
pub fn line_before_space(text: &str, room: usize) -> Option<usize>
    ensures line { IfSome result (λ columns. IsLineAndSpace (chars text.now) columns) }
    ensures fits { IfSome result (λ columns. columns ≤ room) }
{
    // The common case of a long text.
    if text.len().saturating_sub(1) > room {
        return None;
    }
    let (first, trailing) = run_in_front(text, room);
    let (more, rest) = words_in_front(trailing, room - first);
    if first > 0 && is_space(rest) {
        Some(first + more)
    } else {
        None
    }
}

/// Whether the text is one space.
fn is_space(text: &str) -> bool
    ensures { IsTrue result → chars text.now ≡ 0x20 ∷ [] }
{
    text == " "
}

/// The text, with a space after it where its last character is visible ASCII. The error is allocation failure alone.
pub fn ended(text: String) -> Result<String, AllocError>
    ensures { IfOk result (λ ended. IsEnded (chars (string_bytes text)) (chars (string_bytes ended))) }
{
    if !ends_visibly(text.as_str()) {
        return Ok(text);
    }
    let mut text = text;
    text.push(' ')?;
    Ok(text)
}

/// Whether the last character is visible ASCII.
fn ends_visibly(text: &str) -> bool
    ensures { IsTrue result → EndsVisibly (chars text.now) }
{
    match last_char(text) {
        Some((_, c)) => is_visible_ascii(c),
        None => false,
    }
}

/// The text without its last character.
pub fn without_last(text: String) -> String
    ensures { (front : List ℕ) (last : ℕ) → chars (string_bytes text) ≡ front ++ last ∷ []
        → chars (string_bytes result) ≡ front }
{
    let mut text = text;
    match text.pop() {
        Some(_last) => text,
        None => text,
    }
}

/// The columns of a space and the word after it in front of a text, which take at most `room`, and the space that
/// follows.
fn word_in_front(text: &str, room: usize) -> Option<(usize, &str)>
    ensures word { IfSome result (λ parts. HasWord text.now parts.1.now parts.0 room) }
    ensures text { IfSome result (λ parts. IsUtf8 parts.1.now) }
{
    if room == 0 {
        return None;
    }
    let (space, trailing) = first_char(text)?;
    let (columns, rest) = run_in_front(trailing, room - 1);
    let (next, _) = first_char(rest)?;
    if space != ' ' || columns == 0 || next != ' ' {
        return None;
    }
    Some((columns + 1, rest))
}

/// The columns of the visible ASCII in front of a text, at most `room`, and what follows.
fn run_in_front(text: &str, room: usize) -> (usize, &str)
    ensures run { HasRun text.now result.1.now result.0 room }
    ensures text { IsUtf8 result.1.now }
{
    let mut columns = 0usize;
    let mut rest = text;
    while let Some((c, trailing)) = first_char(rest) {
        if columns == room || !is_visible_ascii(c) {
            return (columns, rest);
        }
        columns += 1;
        rest = trailing;
    }
    (columns, rest)
}

/// Whether the character is visible ASCII, which takes one column and one byte.
pub fn is_visible_ascii(c: char) -> bool
    ensures { IsTrue result ↔ ((0x21 ≤ c) × (c ≤ 0x7E)) }
{
    matches!(c, '!'..='~')
}
