//! The answers of decorators that have none of their own.
ghost use Rattle.std.specs.Prelude.{◌≡◌, [], map, codes, chars, string_bytes, IfOk};
ghost use Rattle.text_lines.specs.Tagged.{line_items, tagged};
ghost use Rattle.text_decorators.specs.Texts.{footnote_lines, footnote_text};

use std::alloc::{AllocError, Global};
use std::fmt::Write;
use text_lines::{EqualCopy, TaggedLine};

/// The text before a superscript, as TeX writes it, under the annotation that is the default.
pub fn superscript_start<A: Default>(alloc: Global) -> Result<(String, A), AllocError>
    ensures text { IfOk result (λ r. chars (string_bytes r.0) ≡ codes "^{") }
    ensures annotation { IfOk result (λ r. A.is_default r.1) }
{
    let text = literal(alloc, "^{")?;
    Ok((text, A::default()))
}

/// The text after a superscript.
pub fn superscript_end(alloc: Global) -> Result<String, AllocError>
    ensures { IfOk result (λ s. chars (string_bytes s) ≡ codes "}") }
{
    literal(alloc, "}")
}

/// The lines of the links' targets, numbered from 1, under the annotation that is the default.
pub fn footnotes<A: EqualCopy + Default + Drop>(
    alloc: Global,
    urls: Vec<String>,
) -> Result<Vec<TaggedLine<A>>, AllocError>
    ensures { IfOk result (λ lines. (a : A) × A.is_default a × (map (line_items A.seen) lines.items
        ≡ footnote_lines (A.seen a) (map (λ url. chars (string_bytes url)) urls.items))) }
{
    let tag = A::default();
    let mut lines = Vec::new(alloc);
    for url in &urls {
        let line = footnote(alloc, lines.len() + 1, url.as_str(), &tag)?;
        lines.push(line)?;
    }
    Ok(lines)
}

// The footnote of that number.
fn footnote<A: EqualCopy + Drop>(
    alloc: Global,
    number: usize,
    url: &str,
    tag: &A,
) -> Result<TaggedLine<A>, AllocError>
    ensures { IfOk result (λ line. line_items A.seen line
        ≡ tagged (footnote_text number (chars url.now)) (A.seen tag.now)) }
{
    let text = footnote_text(alloc, number, url)?;
    TaggedLine::from_string(alloc, text, tag)
}

fn footnote_text(alloc: Global, number: usize, url: &str) -> Result<String, AllocError>
    ensures { IfOk result (λ s. chars (string_bytes s) ≡ footnote_text number (chars url.now)) }
{
    // Room for a number of eight digits, so that most footnotes are one request.
    let mut text = String::with_capacity(alloc, url.len().saturating_add(12))?;
    write!(&mut text, "[{number}]: {url}")?;
    Ok(text)
}

/// A text of the same characters.
pub(crate) fn literal(alloc: Global, text: &str) -> Result<String, AllocError>
    ensures { IfOk result (λ s. chars (string_bytes s) ≡ chars text.now) }
{
    String::from_str(alloc, text)
}

/// No text.
pub(crate) fn no_text(alloc: Global) -> String
    ensures { chars (string_bytes result) ≡ [] }
{
    String::new(alloc)
}
