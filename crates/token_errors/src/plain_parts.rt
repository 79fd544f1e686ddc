//! The parts of a tag in which nothing is an error.

ghost use Rattle.std.specs.Prelude.{◌≤◌, ◌<◌, length, IfSome};
ghost use Rattle.std.specs.Str.{IsUtf8};

use html_lexemes::states::{AttrValueKind, State};

/// What of a tag is passed over.
#[derive(Clone, Copy)]
pub(crate) enum Passing {
    /// What is no error, whole attributes too.
    All,
    /// The same, but for the names of attributes.
    AllButNames,
    Nothing,
}

/// What follows the characters in front of a text that are no error in a state, and begin and end nothing.
pub(crate) fn after_run(passing: Passing, state: State, text: &str) -> &str
    ensures { length result.now ≤ length text.now }
{
    match (passing, state) {
        (Passing::Nothing, _) => text,
        (_, State::TagName) => after_tag_name(text),
        (Passing::All, State::AttributeName) => after_name(text),
        (_, State::AttributeValue(AttrValueKind::Unquoted)) => after_unquoted(text),
        (_, State::AttributeValue(AttrValueKind::SingleQuoted)) => after_single_quoted(text),
        (_, State::AttributeValue(AttrValueKind::DoubleQuoted)) => after_double_quoted(text),
        _ => text,
    }
}

/// What follows an attribute after a space, with a name and a value in double quotes, in which nothing is an error.
/// `None` is another text, or a state in which none may stand.
pub(crate) fn after_attribute(passing: Passing, state: State, text: &str) -> Option<&str>
    ensures shorter { IfSome result (λ r. length r.now < length text.now) }
    ensures utf8 { IfSome result (λ r. IsUtf8 r.now) }
{
    if !matches!(passing, Passing::All)
        || !matches!(state, State::TagName | State::AfterAttributeValueQuoted)
    {
        return None;
    }
    let name = text.strip_prefix(' ')?;
    let trailing = after_name(name);
    if trailing.len() == name.len() {
        return None;
    }
    let value = trailing.strip_prefix('=')?.strip_prefix('"')?;
    after_double_quoted(value).strip_prefix('"')
}

fn after_tag_name(text: &str) -> &str
    ensures { length result.now ≤ length text.now }
{
    let end = text.bytes().position(|b| matches!(b, b'\t' | b'\n' | 0xc | b' ' | b'/' | b'>' | 0));
    text_from(text, end)
}

fn after_name(text: &str) -> &str
    ensures { length result.now ≤ length text.now }
{
    let end = text.bytes().position(|b| {
        matches!(
            b,
            b'\t' | b'\n' | 0xc | b' ' | b'/' | b'>' | b'=' | 0 | b'"' | b'\'' | b'<'
        )
    });
    text_from(text, end)
}

fn after_unquoted(text: &str) -> &str
    ensures { length result.now ≤ length text.now }
{
    let end = text.bytes().position(|b| {
        matches!(
            b,
            b'\t' | b'\n' | 0xc | b' ' | b'>' | b'&' | b'=' | 0 | b'"' | b'\'' | b'<' | b'`'
        )
    });
    text_from(text, end)
}

fn after_single_quoted(text: &str) -> &str
    ensures { length result.now ≤ length text.now }
{
    let end = text
        .bytes()
        .position(|b| matches!(b, b'\'' | b'&' | b'\n' | 0));
    text_from(text, end)
}

fn after_double_quoted(text: &str) -> &str
    ensures { length result.now ≤ length text.now }
{
    let end = text
        .bytes()
        .position(|b| matches!(b, b'"' | b'&' | b'\n' | 0));
    text_from(text, end)
}

// a text from the place of a character on, and nothing of it from no place on
#[inline(always)]
fn text_from(text: &str, place: Option<usize>) -> &str
    ensures { length result.now ≤ length text.now }
{
    match place {
        Some(place) => text.get(place..).unwrap_or(""),
        None => "",
    }
}

/// The first character of a text, and what follows it.
pub(crate) fn first_and_rest(text: &str) -> Option<(char, &str)>
    ensures shorter { IfSome result (λ r. length r.1.now < length text.now) }
    ensures utf8 { IfSome result (λ r. IsUtf8 r.1.now) }
{
    let mut rest = text.chars();
    let first = rest.next()?;
    Some((first, rest.as_str()))
}
