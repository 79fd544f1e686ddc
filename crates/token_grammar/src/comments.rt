ghost use Rattle.std.specs.Prelude.{◌≡◌, chars, option_map, IfOk, IfSome};
ghost use Rattle.std.specs.Str.{IsUtf8};
ghost use Rattle.token_grammar.specs.Characters.{shown_text};
ghost use Rattle.token_grammar.specs.Comments.{bogus_comment_slice, comment_mark, comment_slice, without_begun_mark};
ghost use Rattle.token_grammar.specs.Edges.{before};
ghost use Rattle.token_grammar.specs.Read.{cut_of};
ghost use Rattle.token_grammar.specs.Slices.{cut};

use crate::characters::shown_character;
use crate::slices::{cut_at_character, first_and_rest, trailing};
use html_lexemes::Text;
use std::alloc::{AllocError, Global};

/// The slice of a comment after its `<!--`, and what follows its end mark (WHATWG HTML, 13.2.5.43 to 13.2.5.52).
pub fn comment_slice(text: &str) -> (&str, &str)
    ensures value { cut_of result ≡ comment_slice (chars text.now) }
    ensures slice_utf8 { IsUtf8 result.0.now }
    ensures rest_utf8 { IsUtf8 result.1.now }
{
    if let Some(rest) = trailing(text, ">").or(trailing(text, "->")) {
        return ("", rest);
    }
    match cut_at_mark(text) {
        Some(read) => read,
        None => (without_begun_mark(text), ""),
    }
}

/// The slice of a comment up to `>` or the end, and what follows it (WHATWG HTML, 13.2.5.41).
pub fn bogus_comment_slice(text: &str) -> (&str, &str)
    ensures value { cut_of result ≡ bogus_comment_slice (chars text.now) }
    ensures slice_utf8 { IsUtf8 result.0.now }
    ensures rest_utf8 { IsUtf8 result.1.now }
{
    cut_at_character(text, '>').unwrap_or((text, ""))
}

// the shortest slice before an end mark, and what follows the mark
fn cut_at_mark(text: &str) -> Option<(&str, &str)>
    ensures value { option_map cut_of result ≡ cut comment_mark (chars text.now) }
    ensures slice_utf8 { IfSome result (λ r. IsUtf8 r.0.now) }
    ensures rest_utf8 { IfSome result (λ r. IsUtf8 r.1.now) }
{
    let mut marked = text;
    'cut: while let Some((_, after_first)) = first_and_rest(marked) {
        if let Some(rest) = after_mark(marked) {
            let (slice, _) = text.split_at(text.len() - marked.len());
            return Some((slice, rest));
        }
        marked = after_first;
    }
    None
}

// what follows an end mark, where a text begins with one
fn after_mark(text: &str) -> Option<&str>
    ensures value { option_map (λ rest. chars rest.now) result ≡ comment_mark (chars text.now) }
    ensures utf8 { IfSome result (λ rest. IsUtf8 rest.now) }
{
    trailing(text, "-->").or(trailing(text, "--!>"))
}

// a comment that the end cuts off, without an end mark that has begun
fn without_begun_mark(text: &str) -> &str
    ensures { chars result.now ≡ without_begun_mark (chars text.now) }
{
    let begun = before(text, "--!").or(before(text, "--"));
    begun.or(before(text, "-")).unwrap_or(text)
}

// what stands before a mark, where a text ends with it
fn before<'t>(text: &'t str, mark: &str) -> Option<&'t str>
    ensures value { option_map (λ front. chars front.now) result ≡ before (chars mark.now) (chars text.now) }
    ensures utf8 { IfSome result (λ front. IsUtf8 front.now) }
{
    text.strip_suffix(mark)
}

/// A text with each NUL as U+FFFD. The error is allocation failure alone.
pub fn shown(alloc: Global, text: &str) -> Result<Text, AllocError>
    ensures { IfOk result (λ shown. shown ≡ shown_text (chars text.now)) }
{
    let mut shown = String::new(alloc);
    'shown: for c in text.chars() {
        shown.push(shown_character(c))?;
    }
    Ok(Text::from(shown))
}
