//! The lines of an open cell, taken one by one.
ghost use Rattle.std.specs.Prelude.{◌≡◌, ◌++◌, IfOk, OnOk};
ghost use Rattle.text_lines.specs.Tagged.{IsJoined, line_items};
ghost use Rattle.text_borders.specs.Across.{spaces, widened};
ghost use Rattle.text_borders.specs.Borders.{border_of};
ghost use Rattle.text_borders.specs.Lines.{text, border};

use crate::block_lines::BlockLines;
use crate::cell::LineSet;
use crate::opening::OpenCell;
use std::alloc::{AllocError, Global};
use text_borders::{BorderHoriz, RenderLine};
use text_lines::{EqualCopy, TaggedLine};

/// A text of so many spaces. The error is allocation failure alone.
pub(crate) fn spaces<T: EqualCopy + Drop>(
    alloc: Global,
    count: usize,
    tag: &T,
) -> Result<TaggedLine<T>, AllocError>
    ensures { IfOk result (λ line. line_items T.seen line ≡ spaces count (T.seen tag.now)) }
{
    let mut line = TaggedLine::new(alloc);
    line.push_spaces(count, tag)?;
    Ok(line)
}

/// Moves a text to the end of a line, and fills it with spaces up to the width. `room` is the bytes that the whole line
/// is to hold; 0 asks for none. The error is allocation failure alone.
fn move_text<T: EqualCopy + Drop>(
    line: &mut TaggedLine<T>,
    next: TaggedLine<T>,
    width: usize,
    tag: &T,
    room: usize,
) -> Result<(), AllocError>
    ensures items { OnOk result (line_items T.seen line.new ≡ line_items T.seen line.old
        ++ widened width (T.seen tag.now) (text (line_items T.seen next))) }
    ensures joined { IsJoined T.seen line.old → IsJoined T.seen line.new }
{
    let mut next = next;
    let columns = next.width();
    line.append(&mut next)?;
    line.reserve(room.saturating_sub(columns))?;
    line.push_spaces(width.saturating_sub(columns), tag)
}

/// Moves a border to the end of a line, with `─` up to the width. The error is allocation failure alone.
fn move_border<T: EqualCopy + Drop>(
    line: &mut TaggedLine<T>,
    drawn: BorderHoriz<T>,
    alloc: Global,
    width: usize,
    tag: &T,
) -> Result<(), AllocError>
    ensures items { OnOk result (line_items T.seen line.new ≡ line_items T.seen line.old
        ++ widened width (T.seen tag.now) (border (border_of T.seen drawn))) }
    ensures joined { IsJoined T.seen line.old → IsJoined T.seen line.new }
{
    let mut text = RenderLine::Line(drawn).into_widened(alloc, width, tag)?;
    line.append(&mut text)
}

impl<T: EqualCopy + Drop> OpenCell<T> {
    ghost use Rattle.std.specs.Prelude.{◌-◌};
    ghost use Rattle.text_borders.specs.Across.{cell_height, cell_items, line_or};
    ghost use Rattle.text_cells.specs.Cells.{cell_of};
    ghost use Rattle.text_cells.specs.OpenCells.{open_cell_of, after, next_cell};

    /// The lines that the cell takes of its row: all where it ends there, else its share.
    pub(crate) fn height(&self) -> usize
        ensures { result ≡ cell_height (open_cell_of T.seen self.now) }
    {
        if self.rows <= 1 {
            self.lines.len()
        } else {
            self.lines.len() / self.rows
        }
    }

    /// Moves the next line to the end of a line, or what fills the cell. `room` is as of `move_text`. The error is
    /// allocation failure alone.
    pub(crate) fn move_line(
        &mut self,
        line: &mut TaggedLine<T>,
        alloc: Global,
        tag: &T,
        room: usize,
    ) -> Result<(), AllocError>
        ensures items { OnOk result (line_items T.seen line.new
            ≡ line_items T.seen line.old ++ cell_items (T.seen tag.now) 0 (open_cell_of T.seen self.old)) }
        ensures rest { open_cell_of T.seen self.new ≡ after 1 (open_cell_of T.seen self.old) }
        ensures joined { IsJoined T.seen line.old → IsJoined T.seen line.new }
    {
        match self.lines.pop_front() {
            Some(next) => match next.line {
                RenderLine::Text(text) => move_text(line, text, self.width, tag, room),
                RenderLine::Line(border) => move_border(line, border, alloc, self.width, tag),
            },
            None => self.fill(line),
        }
    }

    /// Adds what fills the cell. The error is allocation failure alone.
    fn fill(&self, line: &mut TaggedLine<T>) -> Result<(), AllocError>
        ensures items { OnOk result (line_items T.seen line.new
            ≡ line_items T.seen line.old ++ (open_cell_of T.seen self.now).filler) }
        ensures joined { IsJoined T.seen line.old → IsJoined T.seen line.new }
    {
        match &self.filler {
            Some(filler) => line.push_line(filler),
            None => line.push_spaces(self.width, &self.space_tag),
        }
    }

    /// The next line, or spaces: what stands in the border below. The error is allocation failure alone.
    pub(crate) fn take_hole(&mut self, alloc: Global, tag: &T) -> Result<TaggedLine<T>, AllocError>
        ensures items { IfOk result (λ l. line_items T.seen l ≡ line_or self.old.width (T.seen tag.now)
            (spaces self.old.width (T.seen tag.now)) (open_cell_of T.seen self.old).lines) }
        ensures rest { open_cell_of T.seen self.new ≡ after 1 (open_cell_of T.seen self.old) }
    {
        match self.lines.pop_front() {
            Some(next) => next.line.into_widened(alloc, self.width, tag),
            None => spaces(alloc, self.width, tag),
        }
    }

    /// The cell in the next row, with the lines that are left.
    pub(crate) fn into_next(self, alloc: Global) -> LineSet<T>
        ensures { cell_of T.seen result ≡ next_cell (open_cell_of T.seen self) }
    {
        LineSet {
            width: self.width,
            rows: self.rows.saturating_sub(1),
            lines: BlockLines::of_queue(alloc, self.lines),
        }
    }
}
