//! What stands after a page's last value, and its lines.
ghost use Rattle.std.specs.Prelude.{◌≡◌, [], Err, IfOk, None, OnOk, Some, if◌then◌else◌, map};
ghost use Rattle.block_renderer.specs.Seen.{Comes, Fails, IsTagging, marking, sub_of, tags_seen};
ghost use Rattle.html_render_tree.specs.PageLines.{noted, renderer_lines, targets_after, with_notes, with_targets};
ghost use Rattle.text_footnotes.specs.Links.{all_targets};
ghost use Rattle.block_trait.specs.Renderers.{lines_of_sub};
ghost use Rattle.text_lines.specs.Tagged.{line_items};
ghost use Rattle.text_pieces.specs.Sources.{names};
ghost use Rattle.text_block_renderer.specs.Parts.{depth_of};
ghost use Rattle.text_block_renderer.specs.SeenParts.{parts_of};
ghost use Rattle.text_borders.specs.Lines.{line_shown, render_line_of};
ghost use Rattle.text_pieces.specs.declared.fault.BlockError.TheVariants as errors;

use block_renderer::SubRenderer;
use block_trait::{RenderOptions, Renderer};
use std::alloc::{AllocError, Global};
use text_block_renderer::TextRenderer;
use text_borders::RenderLine;
use text_decorators::TextDecorator;
use text_footnotes::{LinkTargets, shown_targets};
use text_lines::TaggedLine;
use text_pieces::BlockError;

// lines after the page, as a block of their own
fn add_notes<D: TextDecorator + Drop>(
    sub: &mut SubRenderer<D>,
    notes: Vec<TaggedLine<D::Annotation>>,
) -> Result<(), BlockError>
    ensures done { OnOk result (Comes D.Annotation.seen D.view
        (λ m s. with_notes (map (line_items D.Annotation.seen) notes.items) s) sub.old sub.new) }
    ensures narrow { result ≡ Err errors.TooNarrow → Fails D.Annotation.seen D.view
        (λ m s. with_notes (map (line_items D.Annotation.seen) notes.items) s) sub.old }
{
    if notes.is_empty() {
        return Ok(());
    }
    sub.start_block()?;
    sub.fmt_links(notes)
}

// lines as text
fn texts_of<D: TextDecorator + Drop>(
    alloc: Global,
    lines: Vec<RenderLine<Vec<D::Annotation>>>,
) -> Result<Vec<TaggedLine<Vec<D::Annotation>>>, AllocError>
    ensures { IfOk result (λ texts. map (line_items (tags_seen D.Annotation.seen)) texts.items
        ≡ map line_shown (map (render_line_of (tags_seen D.Annotation.seen)) lines.items)) }
{
    let mut texts = Vec::with_capacity(alloc, lines.len())?;
    'lines: for line in lines {
        texts.push(line.into_tagged_line()?)?;
    }
    Ok(texts)
}

// a renderer with what its decorator makes of the targets after the last value
fn with_targets<D: TextDecorator + Drop>(
    sub: SubRenderer<D>,
    targets: Vec<String>,
) -> Result<SubRenderer<D>, BlockError>
    ensures closed { IfOk result (λ s. (tag : _) → IsTagging D.Annotation.seen D.view tag → with_targets
        (marking D.view tag) D.Annotation.seen D.view.closes (names targets.items) (sub_of D.Annotation.seen
        D.view.held sub) ≡ Some (sub_of D.Annotation.seen D.view.held s)) }
    ensures narrow { result ≡ Err errors.TooNarrow → (tag : _) → IsTagging D.Annotation.seen D.view tag → with_targets
        (marking D.view tag) D.Annotation.seen D.view.closes (names targets.items) (sub_of D.Annotation.seen
        D.view.held sub) ≡ None }
{
    let mut sub = sub;
    let notes = sub.finalise(targets)?;
    add_notes(&mut sub, notes)?;
    Ok(sub)
}

// the targets that have footnotes after the page, where they stand there
fn targets_after(
    alloc: Global,
    options: RenderOptions,
    links: LinkTargets,
) -> Result<Vec<String>, AllocError>
    ensures { IfOk result (λ targets. names targets.items ≡ targets_after options (all_targets links)) }
{
    if !options.include_link_footnotes {
        return Ok(Vec::new(alloc));
    }
    let targets = links.into_noted(options.shared_footnotes)?;
    shown_targets(targets, options.printable_targets)
}

/// The page's own renderer after its last value, closed.
pub(crate) fn closed_page<D: TextDecorator + Drop>(
    alloc: Global,
    text: TextRenderer<D>,
) -> Result<SubRenderer<D>, BlockError>
    requires { depth_of (parts_of D.Annotation.seen D.view.held text) ≡ 1 }
    ensures closed { IfOk result (λ s. (tag : _) → IsTagging D.Annotation.seen D.view tag → with_targets
        (marking D.view tag) D.Annotation.seen D.view.closes (noted (parts_of D.Annotation.seen D.view.held text))
        (parts_of D.Annotation.seen D.view.held text).current ≡ Some (sub_of D.Annotation.seen D.view.held s)) }
    ensures narrow { result ≡ Err errors.TooNarrow → (tag : _) → IsTagging D.Annotation.seen D.view tag → with_targets
        (marking D.view tag) D.Annotation.seen D.view.closes (noted (parts_of D.Annotation.seen D.view.held text))
        (parts_of D.Annotation.seen D.view.held text).current ≡ None }
{
    let (sub, links) = text.into_inner();
    let targets = targets_after(alloc, sub.options, links)?;
    with_targets(sub, targets)
}

/// The lines of a closed page.
pub(crate) fn lines_of<D: TextDecorator + Drop>(
    alloc: Global,
    sub: SubRenderer<D>,
) -> Result<Vec<TaggedLine<Vec<D::Annotation>>>, BlockError>
    ensures lines { IfOk result (λ lines. renderer_lines (sub_of D.Annotation.seen D.view.held sub)
        ≡ Some (map (line_items (tags_seen D.Annotation.seen)) lines.items)) }
    ensures narrow { result ≡ Err errors.TooNarrow → lines_of_sub (sub_of D.Annotation.seen D.view.held sub) ≡ None }
{
    let lines = sub.into_lines()?;
    Ok(texts_of::<D>(alloc, lines)?)
}
