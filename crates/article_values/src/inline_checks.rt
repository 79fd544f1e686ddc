//! The first fault of inlines.
//!
//! The depth is asked before the check goes down, so it goes at most 257 deep into any value. It takes no memory.
ghost use Rattle.std.specs.Prelude.{◌≡◌, ◌≤◌, ◌<◌, ◌+◌, Bool, false, true, chars, None};
ghost use Rattle.std.specs.Option.{option_or};
ghost use Rattle.article_values.specs.Articles.{Inlines, Style, link, no_inlines, span, words};
ghost use Rattle.article_values.specs.Faults.{fault_of_inlines, fault_where, has_forbidden, is_forbidden, is_too_deep};
ghost use Rattle.article_values.specs.Outcomes.{fault_met, begins_with_text};
ghost use Rattle.article_values.specs.Views.{inline_view, inlines_view};

use crate::error::ArticleError;
use crate::values::Inline;

// a value may be this deep: so many in one another, itself among them
const DEEPEST: usize = 256;

pub(crate) fn check_depth(depth: usize) -> Result<(), ArticleError>
    ensures { fault_met result ≡ fault_where (is_too_deep depth) ArticleError.TooDeep None }
{
    if depth > DEEPEST {
        return Err(ArticleError::TooDeep);
    }
    Ok(())
}

// NUL and carriage return
fn is_forbidden(c: char) -> bool
    ensures { result ≡ Rattle.article_values.specs.Faults.is_forbidden c }
{
    c == '\0' || c == '\r'
}

pub(crate) fn has_forbidden(text: &str) -> bool
    ensures { result ≡ Rattle.article_values.specs.Faults.has_forbidden (chars text.now) }
{
    text.chars().any(|c| is_forbidden(c))
}

fn is_text(inline: &Inline) -> bool
    ensures { result ≡ begins_with_text (inline_view inline.now no_inlines) }
{
    matches!(inline, Inline::Text(_))
}

fn check_text(text: &str, depth: usize, after_text: bool) -> Result<(), ArticleError>
    ensures { (in_link : Bool) (rest : Inlines) →
        fault_of_inlines depth in_link after_text (words (chars text.now) rest)
        ≡ option_or (fault_met result) (fault_of_inlines depth in_link true rest) }
{
    if text.is_empty() {
        return Err(ArticleError::EmptyText);
    }
    if after_text {
        return Err(ArticleError::NeighbourTexts);
    }
    if has_forbidden(text) {
        return Err(ArticleError::ForbiddenCharacter);
    }
    check_depth(depth)
}

#[cycle(inlines)]
fn check_span(contents: &[Inline], depth: usize, in_link: bool) -> Result<(), ArticleError>
    requires { depth ≤ 257 }
    ensures { (after_text : Bool) (style : Style) (rest : Inlines) →
        fault_of_inlines depth in_link after_text (span style (inlines_view contents.now) rest)
        ≡ option_or (fault_met result) (fault_of_inlines depth in_link false rest) }
{
    check_depth(depth)?;
    check_inlines(contents, depth + 1, in_link)
}

#[cycle(inlines)]
fn check_link(
    target: &str,
    contents: &[Inline],
    depth: usize,
    in_link: bool,
) -> Result<(), ArticleError>
    requires { depth ≤ 257 }
    ensures { (after_text : Bool) (rest : Inlines) → fault_of_inlines depth in_link after_text
        (link (chars target.now) (inlines_view contents.now) rest)
        ≡ option_or (fault_met result) (fault_of_inlines depth in_link false rest) }
{
    if has_forbidden(target) {
        return Err(ArticleError::ForbiddenCharacter);
    }
    if in_link {
        return Err(ArticleError::LinkInLink);
    }
    check_depth(depth)?;
    check_inlines(contents, depth + 1, true)
}

#[cycle(inlines)]
fn check_inline(
    inline: &Inline,
    depth: usize,
    in_link: bool,
    after_text: bool,
) -> Result<(), ArticleError>
    requires { depth ≤ 257 }
    ensures { (rest : Inlines) → fault_of_inlines depth in_link after_text (inline_view inline.now rest)
        ≡ option_or (fault_met result) (fault_of_inlines depth in_link
        (begins_with_text (inline_view inline.now no_inlines)) rest) }
{
    match inline {
        Inline::Text(text) => check_text(text.as_str(), depth, after_text),
        Inline::Break => check_depth(depth),
        Inline::Bold(contents) => check_span(contents.as_slice(), depth, in_link),
        Inline::Italic(contents) => check_span(contents.as_slice(), depth, in_link),
        Inline::Emphasis(contents) => check_span(contents.as_slice(), depth, in_link),
        Inline::Code(contents) => check_span(contents.as_slice(), depth, in_link),
        Inline::Strong(contents) => check_span(contents.as_slice(), depth, in_link),
        Inline::Link(target, contents) => check_link(
            target.as_str(),
            contents.as_slice(),
            depth,
            in_link,
        ),
    }
}

#[cycle(inlines)]
pub(crate) fn check_inlines(
    inlines: &[Inline],
    depth: usize,
    in_link: bool,
) -> Result<(), ArticleError>
    requires { depth ≤ 257 }
    ensures { fault_met result ≡ fault_of_inlines depth in_link false (inlines_view inlines.now) }
{
    let mut after_text = false;
    'inlines: for inline in inlines {
        check_inline(inline, depth, in_link, after_text)?;
        after_text = is_text(inline);
    }
    Ok(())
}
