//! Cells whose borders are taken into those of the row.
ghost use Rattle.std.specs.Prelude.{◌≡◌, map, IfOk, OnOk};
ghost use Rattle.text_borders.specs.Across.{whole, opened};
ghost use Rattle.text_cells.specs.Cells.{cell_of};
ghost use Rattle.text_cells.specs.OpenCells.{open_cell_of};

use crate::cell::LineSet;
use crate::laid_line::LaidLine;
use crate::line_queue::LineQueue;
use std::alloc::{AllocError, Global};
use text_borders::{BorderHoriz, RenderLine};
use text_lines::{EqualCopy, TaggedLine};

/// A cell of a row, without the borders that were its first and its last line.
#[derive(Drop)]
pub(crate) struct OpenCell<T> {
    /// The columns of the cell.
    pub(crate) width: usize,
    /// The rows that the cell still takes, this one among them.
    pub(crate) rows: usize,
    /// The lines that the row has not taken yet.
    pub(crate) lines: LineQueue<T>,
    /// What stands in a line of the row for which the cell has none; where there is nothing, spaces with the next tag.
    pub(crate) filler: Option<TaggedLine<T>>,
    pub(crate) space_tag: T,
    /// The border that was the first line; the one above the row takes it in.
    pub(crate) top: Option<BorderHoriz<T>>,
    /// The border that was the last line, as wide as the cell; the one below the row takes it in.
    pub(crate) bottom: Option<BorderHoriz<T>>,
}

/// The cells without their borders, where they collapse with their table; the first line of a cell stays where no
/// border is above the row. The error is allocation failure alone.
pub(crate) fn opened_cells<T: EqualCopy + Drop>(
    alloc: Global,
    collapse: bool,
    above: bool,
    tag: &T,
    cells: Vec<LineSet<T>>,
) -> Result<Vec<OpenCell<T>>, AllocError>
    ensures { IfOk result (λ row. map (open_cell_of T.seen) row.items
        ≡ map (opened collapse above (T.seen tag.now)) (map (cell_of T.seen) cells.items)) }
{
    let mut row = Vec::with_capacity(alloc, cells.len())?;
    for cell in cells {
        row.push(opened(alloc, collapse, above, tag, cell)?)?;
    }
    Ok(row)
}

fn opened<T: EqualCopy + Drop>(
    alloc: Global,
    collapse: bool,
    above: bool,
    tag: &T,
    cell: LineSet<T>,
) -> Result<OpenCell<T>, AllocError>
    ensures { IfOk result (λ c. open_cell_of T.seen c
        ≡ opened collapse above (T.seen tag.now) (cell_of T.seen cell)) }
{
    let mut open = whole(alloc, tag.copy(alloc)?, cell)?;
    if !collapse {
        return Ok(open);
    }
    open.take_first(above)?;
    open.take_last(tag)?;
    Ok(open)
}

/// The cell with all of its lines. The error is allocation failure.
fn whole<T: EqualCopy + Drop>(
    alloc: Global,
    tag: T,
    cell: LineSet<T>,
) -> Result<OpenCell<T>, AllocError>
    ensures { IfOk result (λ c. open_cell_of T.seen c ≡ whole (T.seen tag) (cell_of T.seen cell)) }
{
    let lines = cell.lines.into_queue(alloc)?;
    Ok(OpenCell {
        width: cell.width,
        rows: cell.rows,
        lines,
        filler: None,
        space_tag: tag,
        top: None,
        bottom: None,
    })
}

impl<T: EqualCopy + Drop> OpenCell<T> {
    ghost use Rattle.std.specs.Prelude.{[], ◌∷◌, ◌++◌, if◌then◌else◌};
    ghost use Rattle.text_borders.specs.Borders.{border_of};
    ghost use Rattle.text_borders.specs.Lines.{render_line_of, border};
    ghost use Rattle.text_borders.specs.Across.{open_first, open_line, close_last, close_line};
    ghost use Rattle.text_cells.specs.Texts.{laid_line_of};
    ghost use Rattle.text_cells.specs.OpenCells.{with_lines};

    /// Takes the first line out where it is a border and one is above the row. The error is allocation failure alone.
    fn take_first(&mut self, above: bool) -> Result<(), AllocError>
        ensures { OnOk result (open_cell_of T.seen self.new ≡ (if above
            then open_first (open_cell_of T.seen self.old).lines (open_cell_of T.seen self.old)
            else open_cell_of T.seen self.old)) }
    {
        if !above {
            return Ok(());
        }
        match self.lines.pop_front() {
            Some(first) => self.open_line(first),
            None => Ok(()),
        }
    }

    /// A line that stood before the others: text goes back to its place.
    fn open_line(&mut self, first: LaidLine<T>) -> Result<(), AllocError>
        ensures { OnOk result (open_cell_of T.seen self.new
            ≡ open_line (render_line_of T.seen first.line) (open_cell_of T.seen self.old).lines (with_lines
            (laid_line_of T.seen first ∷ (open_cell_of T.seen self.old).lines) (open_cell_of T.seen self.old))) }
    {
        let LaidLine { line, content } = first;
        match line {
            RenderLine::Line(top) => {
                self.top = Some(top);
                Ok(())
            }
            RenderLine::Text(text) => {
                let line = RenderLine::Text(text);
                self.lines.push_front(LaidLine { line, content })
            }
        }
    }

    /// Takes the last line out where it is a border. The error is allocation failure alone.
    fn take_last(&mut self, tag: &T) -> Result<(), AllocError>
        ensures { OnOk result (open_cell_of T.seen self.new ≡ close_last (T.seen tag.now)
            (open_cell_of T.seen self.old).lines (open_cell_of T.seen self.old)) }
    {
        match self.lines.pop_back() {
            Some(last) => self.close_line(last, tag),
            None => Ok(()),
        }
    }

    /// A line that stood after the others: text goes back to its place.
    fn close_line(&mut self, last: LaidLine<T>, tag: &T) -> Result<(), AllocError>
        ensures { OnOk result (open_cell_of T.seen self.new
            ≡ close_line (T.seen tag.now) (render_line_of T.seen last.line) (open_cell_of T.seen self.old).lines
            (with_lines ((open_cell_of T.seen self.old).lines ++ laid_line_of T.seen last ∷ [])
            (open_cell_of T.seen self.old))) }
    {
        let LaidLine { line, content } = last;
        match line {
            RenderLine::Line(bottom) => self.close_with(bottom, tag),
            RenderLine::Text(text) => {
                let line = RenderLine::Text(text);
                self.lines.push_back(LaidLine { line, content })
            }
        }
    }

    /// Where the cell has no more lines, the vertical lines that come down to its last border go on.
    fn close_with(&mut self, bottom: BorderHoriz<T>, tag: &T) -> Result<(), AllocError>
        ensures { OnOk result (open_cell_of T.seen self.new
            ≡ close_line (T.seen tag.now) (border (border_of T.seen bottom)) (open_cell_of T.seen self.old).lines
            (open_cell_of T.seen self.old)) }
    {
        let mut stretched = bottom;
        stretched.stretch_to(self.width)?;
        self.filler = Some(stretched.lines_above(tag)?);
        self.bottom = Some(stretched);
        Ok(())
    }
}
