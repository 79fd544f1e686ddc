//! The text of a paragraph, said to a block of lines.
//!
//! The calls go as deep as an article is nested, which is 256 at most.
ghost use Rattle.std.specs.Prelude.{◌≡◌, [], ◌++◌, ◌&&◌, if◌then◌else◌, Err, IfOk, None, OnOk, Some, chars, codes};
ghost use Rattle.std.specs.Prelude.{string_bytes};
ghost use Rattle.article_layout.specs.Lines.{tag_of};
ghost use Rattle.article_layout.specs.Seen.{said_of};
ghost use Rattle.article_layout.specs.Settings.{options_of};
ghost use Rattle.article_layout.specs.Walks.{adds, linked, numbered, said, spanned};
ghost use Rattle.article_definitions.specs.Calls.{measure};
ghost use Rattle.article_definitions.specs.Layouts.{all_shallow, has_none, style_mark, within};
ghost use Rattle.article_values.specs.Articles.{Inlines as SeenInlines, Style};
ghost use Rattle.article_values.specs.Views.{inline_view, inlines_view};
ghost use Rattle.std.specs.Fmt.{decimal};
ghost use Rattle.text_footnotes.specs.declared.link_targets.LinkTargets.{LinkTargets as SeenLinkTargets};
ghost use Rattle.text_pieces.specs.declared.fault.BlockError.TheVariants as errors;

use crate::options::{LineOptions, Room};
use article_values::Inline;
use block_layout::BlockLayout;
use render_values::is_white_space;
use std::alloc::{AllocError, Global};
use text_footnotes::LinkTargets;
use text_lines::EqualCopy;
use text_pieces::{BlockError, WhiteSpace};

/// Says inlines, one after another.
#[cycle(saying)]
pub(crate) fn say_inlines(
    alloc: Global,
    room: Room,
    block: &mut BlockLayout<Vec<()>>,
    targets: &mut LinkTargets,
    inlines: &[Inline],
    tag: &Vec<()>,
) -> Result<(), BlockError>
    ensures done { OnOk result (said (options_of room.options) (measure (options_of room.options) room.width)
        (tag_of tag.now) (inlines_view inlines.now) (said_of block.old targets.old)
        ≡ Some (said_of block.new targets.new)) }
    ensures narrow { result ≡ Err errors.TooNarrow → said (options_of room.options)
        (measure (options_of room.options) room.width) (tag_of tag.now) (inlines_view inlines.now)
        (said_of block.old targets.old) ≡ None }
    ensures failed { result ≡ Err errors.Failed → ⊥ }
{
    'inlines: for inline in inlines {
        say_inline(alloc, room, block, targets, inline, tag)?;
    }
    Ok(())
}

#[cycle(saying)]
fn say_inline(
    alloc: Global,
    room: Room,
    block: &mut BlockLayout<Vec<()>>,
    targets: &mut LinkTargets,
    inline: &Inline,
    tag: &Vec<()>,
) -> Result<(), BlockError>
    ensures done { OnOk result ((rest : SeenInlines) → said (options_of room.options)
        (measure (options_of room.options) room.width) (tag_of tag.now) (inline_view inline.now rest)
        (said_of block.old targets.old) ≡ said (options_of room.options)
        (measure (options_of room.options) room.width) (tag_of tag.now) rest (said_of block.new targets.new)) }
    ensures narrow { result ≡ Err errors.TooNarrow → (rest : SeenInlines) → said (options_of room.options)
        (measure (options_of room.options) room.width) (tag_of tag.now) (inline_view inline.now rest)
        (said_of block.old targets.old) ≡ None }
    ensures failed { result ≡ Err errors.Failed → ⊥ }
{
    match inline {
        Inline::Text(text) => say(room, block, text.as_str(), tag),
        Inline::Break => block.break_line(room.measure(), tag),
        Inline::Bold(contents) => {
            say_span(alloc, room, block, targets, "**", contents.as_slice(), tag)
        }
        Inline::Italic(contents) => {
            say_span(alloc, room, block, targets, "", contents.as_slice(), tag)
        }
        Inline::Emphasis(contents) => {
            say_span(alloc, room, block, targets, "*", contents.as_slice(), tag)
        }
        Inline::Code(contents) => {
            say_span(alloc, room, block, targets, "`", contents.as_slice(), tag)
        }
        Inline::Strong(contents) => {
            say_span(alloc, room, block, targets, "**", contents.as_slice(), tag)
        }
        Inline::Link(target, contents) => {
            say_link(
                alloc,
                room,
                block,
                targets,
                target.as_str(),
                contents.as_slice(),
                tag,
            )
        }
    }
}

/// Says a text under annotations.
fn say(
    room: Room,
    block: &mut BlockLayout<Vec<()>>,
    text: &str,
    tag: &Vec<()>,
) -> Result<(), BlockError>
    ensures done { (targets : SeenLinkTargets) → OnOk result
        (adds (measure (options_of room.options) room.width) (chars text.now) (tag_of tag.now)
        (said_of block.old targets) ≡ Some (said_of block.new targets)) }
    ensures narrow { (targets : SeenLinkTargets) → result ≡ Err errors.TooNarrow
        → adds (measure (options_of room.options) room.width) (chars text.now) (tag_of tag.now)
        (said_of block.old targets) ≡ None }
    ensures failed { result ≡ Err errors.Failed → ⊥ }
{
    block.add_text(room.measure(), tag, WhiteSpace::Normal, text, tag, tag)
}

/// Annotations with one more.
fn within(alloc: Global, tag: &Vec<()>) -> Result<Vec<()>, AllocError>
    ensures { IfOk result (λ inner. tag_of inner ≡ within (tag_of tag.now)) }
{
    let mut inner = tag.copy(alloc)?;
    inner.push(())?;
    Ok(inner)
}

/// Says a span: its mark, where spans are marked, its contents, and its mark again.
#[cycle(saying)]
fn say_span(
    alloc: Global,
    room: Room,
    block: &mut BlockLayout<Vec<()>>,
    targets: &mut LinkTargets,
    mark: &str,
    contents: &[Inline],
    tag: &Vec<()>,
) -> Result<(), BlockError>
    ensures done { OnOk result ((style : Style) → style_mark style ≡ chars mark.now → spanned (options_of room.options)
        (measure (options_of room.options) room.width) (tag_of tag.now) style (said (options_of room.options)
        (measure (options_of room.options) room.width) (within (tag_of tag.now)) (inlines_view contents.now))
        (said_of block.old targets.old) ≡ Some (said_of block.new targets.new)) }
    ensures narrow { result ≡ Err errors.TooNarrow → (style : Style) → style_mark style ≡ chars mark.now
        → spanned (options_of room.options)
        (measure (options_of room.options) room.width) (tag_of tag.now) style (said (options_of room.options)
        (measure (options_of room.options) room.width) (within (tag_of tag.now)) (inlines_view contents.now))
        (said_of block.old targets.old) ≡ None }
    ensures failed { result ≡ Err errors.Failed → ⊥ }
{
    let mark = shown_mark(room.options, mark);
    let inner = within(alloc, tag)?;
    say(room, block, mark, &inner)?;
    say_inlines(alloc, room, block, targets, contents, &inner)?;
    say(room, block, mark, &inner)
}

/// A mark, where spans are marked.
pub(crate) fn shown_mark(options: LineOptions, mark: &str) -> &str
    ensures { chars result.now ≡ (if options.decorates then chars mark.now else []) }
{
    if options.decorates { mark } else { "" }
}

/// Says a link, unless it shows nothing: its contents in brackets, and its footnote's number where targets stand after
/// the article.
#[cycle(saying)]
fn say_link(
    alloc: Global,
    room: Room,
    block: &mut BlockLayout<Vec<()>>,
    targets: &mut LinkTargets,
    target: &str,
    contents: &[Inline],
    tag: &Vec<()>,
) -> Result<(), BlockError>
    ensures done { OnOk result (linked (all_shallow (options_of room.options) (inlines_view contents.now))
        (options_of room.options) (measure (options_of room.options) room.width) (tag_of tag.now) (chars target.now)
        (said (options_of room.options) (measure (options_of room.options) room.width) (within (tag_of tag.now))
        (inlines_view contents.now)) (said_of block.old targets.old) ≡ Some (said_of block.new targets.new)) }
    ensures narrow { result ≡ Err errors.TooNarrow → linked
        (all_shallow (options_of room.options) (inlines_view contents.now))
        (options_of room.options) (measure (options_of room.options) room.width) (tag_of tag.now) (chars target.now)
        (said (options_of room.options) (measure (options_of room.options) room.width) (within (tag_of tag.now))
        (inlines_view contents.now)) (said_of block.old targets.old) ≡ None }
    ensures failed { result ≡ Err errors.Failed → ⊥ }
{
    if all_shallow(room.options, contents) {
        return Ok(());
    }
    targets.push(target)?;
    let inner = within(alloc, tag)?;
    say(room, block, "[", &inner)?;
    say_inlines(alloc, room, block, targets, contents, &inner)?;
    say(room, block, "]", &inner)?;
    say_number(alloc, room, block, targets, tag)
}

/// Says the number of the last link's footnote, where targets stand after the article.
fn say_number(
    alloc: Global,
    room: Room,
    block: &mut BlockLayout<Vec<()>>,
    targets: &mut LinkTargets,
    tag: &Vec<()>,
) -> Result<(), BlockError>
    ensures done { OnOk result (numbered (options_of room.options) (measure (options_of room.options) room.width)
        (tag_of tag.now) (said_of block.old targets.old) ≡ Some (said_of block.new targets.new)) }
    ensures narrow { result ≡ Err errors.TooNarrow → numbered (options_of room.options)
        (measure (options_of room.options) room.width) (tag_of tag.now) (said_of block.old targets.old) ≡ None }
    ensures failed { result ≡ Err errors.Failed → ⊥ }
{
    if !room.options.footnotes {
        return say(room, block, "", tag);
    }
    let number = targets.last_number(room.options.shares_footnotes)?;
    let mark = number_mark(alloc, number)?;
    say(room, block, mark.as_str(), tag)
}

fn number_mark(alloc: Global, number: usize) -> Result<String, AllocError>
    ensures { IfOk result (λ s. chars (string_bytes s) ≡ codes "[" ++ decimal number ++ codes "]") }
{
    format!(in alloc; "[{number}]")
}

/// Whether no inline shows anything by itself: texts of white space, breaks, and what holds none and has no mark.
pub(crate) fn all_shallow(options: LineOptions, inlines: &[Inline]) -> bool
    ensures { result ≡ all_shallow (options_of options) (inlines_view inlines.now) }
{
    'inlines: for inline in inlines {
        if !is_shallow(options, inline) {
            return false;
        }
    }
    true
}

fn is_shallow(options: LineOptions, inline: &Inline) -> bool
    ensures { (rest : SeenInlines) → all_shallow (options_of options) (inline_view inline.now rest)
        ≡ (result && all_shallow (options_of options) rest) }
{
    match inline {
        Inline::Text(text) => is_white_space(text.as_str()),
        Inline::Break => true,
        Inline::Bold(contents) => holds_none(contents.as_slice()) && !options.decorates,
        Inline::Italic(contents) => holds_none(contents.as_slice()),
        Inline::Emphasis(contents) => holds_none(contents.as_slice()) && !options.decorates,
        Inline::Code(contents) => holds_none(contents.as_slice()) && !options.decorates,
        Inline::Strong(contents) => holds_none(contents.as_slice()) && !options.decorates,
        Inline::Link(_, contents) => holds_none(contents.as_slice()),
    }
}

fn holds_none(contents: &[Inline]) -> bool
    ensures { result ≡ has_none (inlines_view contents.now) }
{
    contents.is_empty()
}
