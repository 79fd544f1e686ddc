//! Lines of text: after markers, filled, and made of borders.
ghost use Rattle.std.specs.Prelude.{◌≡◌, ◌++◌, map, if◌then◌else◌, None, Some, chars, All, IfOk, OnOk};
ghost use Rattle.text_lines.specs.Tagged.{line_items, marker, IsJoined};
ghost use Rattle.text_pieces.specs.Sources.{is_filled, names};
ghost use Rattle.text_wrapping.specs.Blocks.{padded};
ghost use Rattle.text_borders.specs.Borders.{border_of};
ghost use Rattle.text_borders.specs.Lines.{render_line_of, border, IsJoinedText};
ghost use Rattle.text_cells.specs.Cells.{laid_line_of};
ghost use Rattle.block_layout.specs.Laid.{finished};
ghost use Rattle.block_layout.specs.Seen.{AreLinesJoined};

use crate::measure::Measure;
use std::alloc::{AllocError, Global};
use text_borders::{BorderHoriz, RenderLine};
use text_cells::LaidLine;
use text_lines::{EqualCopy, TaggedLine};
use text_wrapping::pad;

/// The line after markers.
pub(crate) fn after_names<T: EqualCopy + Drop>(
    waiting: &[String],
    line: TaggedLine<T>,
) -> Result<TaggedLine<T>, AllocError>
    ensures items { IfOk result (λ all. line_items T.seen all
        ≡ map (λ name. marker name) (names waiting.now) ++ line_items T.seen line) }
    ensures joined { IsJoined T.seen line → IfOk result (IsJoined T.seen) }
{
    match waiting.first() {
        Some(name) => with_names(*name.allocator(), waiting, &line),
        None => Ok(line),
    }
}

fn with_names<T: EqualCopy + Drop>(
    alloc: Global,
    waiting: &[String],
    line: &TaggedLine<T>,
) -> Result<TaggedLine<T>, AllocError>
    ensures items { IfOk result (λ all. line_items T.seen all
        ≡ map (λ name. marker name) (names waiting.now) ++ line_items T.seen line.now) }
    ensures joined { IfOk result (IsJoined T.seen) }
{
    let mut all = TaggedLine::new(alloc);
    push_names(&mut all, waiting)?;
    all.push_line(line)?;
    Ok(all)
}

fn push_names<T: EqualCopy + Drop>(
    line: &mut TaggedLine<T>,
    waiting: &[String],
) -> Result<(), AllocError>
    ensures items { OnOk result (line_items T.seen line.new
        ≡ line_items T.seen line.old ++ map (λ name. marker name) (names waiting.now)) }
    ensures joined { IsJoined T.seen line.old → IsJoined T.seen line.new }
{
    let mut rest = waiting;
    while let Some((name, others)) = rest.split_first() {
        line.push_marker(name.as_str())?;
        rest = others;
    }
    Ok(())
}

/// Fills the line with spaces up to the width, where lines are filled.
pub(crate) fn fill_line<T: EqualCopy + Drop>(
    line: &mut TaggedLine<T>,
    width: usize,
    pads: bool,
    tag: &T,
) -> Result<(), AllocError>
    ensures items { OnOk result (line_items T.seen line.new
        ≡ padded width (if pads then Some (T.seen tag.now) else None) (line_items T.seen line.old)) }
    ensures joined { IsJoined T.seen line.old → IsJoined T.seen line.new }
{
    if pads { pad(line, width, tag) } else { Ok(()) }
}

/// The line as it stands in the block, a border filled where lines are.
pub(crate) fn finished<T: EqualCopy + Drop>(
    measure: Measure,
    line: RenderLine<T>,
) -> Result<RenderLine<T>, AllocError>
    ensures line { IfOk result (λ done. render_line_of T.seen done ≡ finished measure (render_line_of T.seen line)) }
    ensures joined { IsJoinedText T.seen line → IfOk result (IsJoinedText T.seen) }
{
    match line {
        RenderLine::Text(line) => Ok(RenderLine::Text(line)),
        RenderLine::Line(border) => finished_border(measure, border),
    }
}

fn finished_border<T: EqualCopy + Drop>(
    measure: Measure,
    drawn: BorderHoriz<T>,
) -> Result<RenderLine<T>, AllocError>
    ensures line { IfOk result (λ done. render_line_of T.seen done
        ≡ finished measure (border (border_of T.seen drawn))) }
    ensures joined { IfOk result (IsJoinedText T.seen) }
{
    let mut filled = drawn;
    if measure.pads {
        filled.fill_to(measure.width)?;
    }
    Ok(RenderLine::Line(filled))
}

/// The lines as they stand in the block.
pub(crate) fn finished_lines<T: EqualCopy + Drop>(
    measure: Measure,
    lines: Vec<LaidLine<T>>,
) -> Result<Vec<RenderLine<T>>, AllocError>
    ensures lines { IfOk result (λ done. map (render_line_of T.seen) done.items
        ≡ map (λ l. finished measure l.line) (map (laid_line_of T.seen) lines.items)) }
    ensures joined { AreLinesJoined T.seen lines.items
        → IfOk result (λ done. All (IsJoinedText T.seen) done.items) }
{
    let mut done = Vec::with_capacity(*lines.allocator(), lines.len())?;
    for laid in lines {
        done.push(finished(measure, laid.line)?)?;
    }
    Ok(done)
}

/// Whether the text has characters.
pub(crate) fn holds_text(text: &str) -> bool
    ensures { result ≡ is_filled (chars text.now) }
{
    !text.is_empty()
}
