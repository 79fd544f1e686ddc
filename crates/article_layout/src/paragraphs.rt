//! The lines of a paragraph.
ghost use Rattle.std.specs.Prelude.{◌≡◌, ◌++◌, map, suc, Some, None, Err, IfOk, OnOk};
ghost use Rattle.article_layout.specs.Lines.{line_of, tag_of};
ghost use Rattle.article_layout.specs.Seen.{of_paragraph};
ghost use Rattle.article_layout.specs.Settings.{options_of};
ghost use Rattle.article_definitions.specs.Layouts.{paragraph_lines, targets_in};
ghost use Rattle.article_values.specs.Views.{inlines_view};
ghost use Rattle.text_footnotes.specs.Links.{all_targets};
ghost use Rattle.text_cells.specs.Cells.{laid_line_of};
ghost use Rattle.text_pieces.specs.declared.fault.BlockError.TheVariants as errors;

use crate::inlines::say_inlines;
use crate::line_list::Line;
use crate::options::Room;
use article_definitions::calls_of_a_paragraph;
use article_values::Inline;
use block_layout::BlockLayout;
use std::alloc::{AllocError, Global};
use text_cells::LaidLine;
use text_footnotes::LinkTargets;
use text_pieces::BlockError;

/// What came so far.
#[derive(Drop)]
pub(crate) struct After {
    /// How many paragraphs and headings.
    pub(crate) paragraphs: usize,
    /// The targets of links, in order.
    pub(crate) targets: LinkTargets,
}

/// Lines as those of a paragraph.
fn numbered(
    alloc: Global,
    lines: Vec<LaidLine<Vec<()>>>,
    paragraph: usize,
) -> Result<Vec<Line>, AllocError>
    ensures { IfOk result (λ all. map line_of all.items
        ≡ map (of_paragraph paragraph) (map (laid_line_of tag_of) lines.items)) }
{
    let mut all = Vec::with_capacity(alloc, lines.len())?;
    for LaidLine { line, content } in lines {
        let line = line.into_tagged_line()?;
        all.push(Line {
            line,
            content,
            paragraph: Some(paragraph),
        })?;
    }
    Ok(all)
}

/// The lines of a paragraph or a heading, whose number is that of those so far. Refused as `TooNarrow` where a
/// character is wider than lines, or as `Memory`.
pub(crate) fn paragraph_lines(
    alloc: Global,
    room: Room,
    contents: &[Inline],
    trailing: &mut After,
) -> Result<Vec<Line>, BlockError>
    ensures lines { IfOk result (λ lines. paragraph_lines (options_of room.options) room.width trailing.old.paragraphs
        (all_targets trailing.old.targets) (inlines_view contents.now) ≡ Some (map line_of lines.items)) }
    ensures narrow { result ≡ Err errors.TooNarrow → paragraph_lines (options_of room.options) room.width
        trailing.old.paragraphs (all_targets trailing.old.targets) (inlines_view contents.now) ≡ None }
    ensures paragraphs { OnOk result (trailing.new.paragraphs ≡ suc trailing.old.paragraphs) }
    ensures targets { OnOk result (all_targets trailing.new.targets
        ≡ all_targets trailing.old.targets ++ targets_in (options_of room.options) (inlines_view contents.now)) }
    ensures failed { result ≡ Err errors.Failed → ⊥ }
{
    calls_of_a_paragraph();
    let outermost = Vec::new(alloc);
    let mut block = BlockLayout::new(alloc);
    say_inlines(
        alloc,
        room,
        &mut block,
        &mut trailing.targets,
        contents,
        &outermost,
    )?;
    block.flush(room.measure(), &outermost)?;
    let number = trailing.paragraphs;
    trailing.paragraphs = one_more(number)?;
    let laid = block.into_laid_lines().into_vec(alloc)?;
    let lines = numbered(alloc, laid, number)?;
    Ok(lines)
}

/// No memory holds more paragraphs than a `usize` counts.
fn one_more(count: usize) -> Result<usize, AllocError>
    ensures { IfOk result (λ n. n ≡ suc count) }
{
    count.checked_add(1).ok_or(AllocError)
}
