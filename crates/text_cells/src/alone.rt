//! A row of one cell with many lines.
ghost use Rattle.std.specs.Prelude.{◌≡◌, Bool, [], ◌∷◌, ◌++◌, map, None, ◌&&◌, if◌then◌else◌, IfOk, OnOk, IsTrue};
ghost use Rattle.std.specs.Option.{option_map};
ghost use Rattle.text_borders.specs.Borders.{border_of};
ghost use Rattle.text_borders.specs.Lines.{render_line_of};
ghost use Rattle.text_cells.specs.Texts.{laid_line_of};
ghost use Rattle.text_cells.specs.Ends.{border_line, first_border, last_border, rest_after, without_first};
ghost use Rattle.text_cells.specs.Ends.{without_last};
ghost use Rattle.text_cells.specs.Cells.{block_lines_of, cell_of, row_of, AreRowLines};
ghost use Rattle.text_cells.specs.OpenCells.{open_cell_of, seated_across, bare_cell, IsAlone};

use crate::block_lines::BlockLines;
use crate::cell::{LineSet, Row, RowLines};
use crate::columns::columns_of;
use crate::joining::{border_below, joined_above};
use crate::laid_line::LaidLine;
use crate::line_vec::LineVec;
use crate::opening::OpenCell;
use std::alloc::{AllocError, Global};
use text_borders::{BorderHoriz, RenderLine};
use text_lines::EqualCopy;

/// Whether there is one cell, which goes on into no other row and has many lines.
pub(crate) fn is_alone<T: EqualCopy + Drop>(cells: &[LineSet<T>]) -> bool
    ensures { IsTrue result → IsAlone (map (cell_of T.seen) cells.now) }
{
    match cells {
        [cell] => cell.rows <= 1 && cell.lines.are_many(),
        _ => false,
    }
}

/// A row of one cell, the lines of which stay as they are where they are known to be as wide as it. The error is
/// allocation failure.
pub(crate) fn lay_alone<T: EqualCopy + Drop>(
    alloc: Global,
    collapse: bool,
    tag: &T,
    above: Option<BorderHoriz<T>>,
    cells: Vec<LineSet<T>>,
) -> Result<Row<T>, AllocError>
    requires { IsAlone (map (cell_of T.seen) cells.items) }
    ensures row { IfOk result (λ row. (draws : Bool) → row_of T.seen row ≡ seated_across draws collapse
        (T.seen tag.now) (option_map (border_of T.seen) above) (map (cell_of T.seen) cells.items)) }
    ensures lines { IfOk result (λ row. AreRowLines T.seen row.lines) }
{
    let mut cells = cells;
    let Some(LineSet { width, rows, lines }) = cells.pop() else {
        return Err(AllocError);
    };
    let mut lines = lines;
    let top = take_top(&mut lines, collapse, above.is_some())?;
    let bottom = take_bottom(&mut lines, collapse)?;
    let row = bare_cell(alloc, tag, width, rows, top, bottom)?;
    let columns = columns_of(alloc, &row)?;
    let above = joined_above(above, &columns, &row)?;
    let below = border_below(alloc, tag, &columns, &row)?;
    let texts = lines.into_row(alloc, width, tag)?;
    Ok(Row {
        above,
        lines: RowLines::Wide(texts),
        below,
        hanging: Vec::new(alloc),
    })
}

/// The border that is the first line, which is taken off where the cell collapses and a border is above its row.
fn take_top<T: EqualCopy + Drop>(
    lines: &mut BlockLines<T>,
    collapse: bool,
    above: bool,
) -> Result<Option<BorderHoriz<T>>, AllocError>
    ensures top { IfOk result (λ top. option_map (border_of T.seen) top
        ≡ (if collapse && above then first_border (block_lines_of T.seen lines.old) else None)) }
    ensures rest { OnOk result (block_lines_of T.seen lines.new ≡ (if collapse && above
        then without_first (block_lines_of T.seen lines.old) else block_lines_of T.seen lines.old)) }
{
    if !collapse {
        return Ok(None);
    }
    if !above {
        return Ok(None);
    }
    lines.take_first_border()
}

/// The border that is the last line, which is taken off where the cell collapses.
fn take_bottom<T: EqualCopy + Drop>(
    lines: &mut BlockLines<T>,
    closes: bool,
) -> Result<Option<BorderHoriz<T>>, AllocError>
    ensures bottom { IfOk result (λ bottom. option_map (border_of T.seen) bottom
        ≡ (if closes then last_border (block_lines_of T.seen lines.old) else None)) }
    ensures rest { OnOk result (block_lines_of T.seen lines.new
        ≡ (if closes then without_last (block_lines_of T.seen lines.old) else block_lines_of T.seen lines.old)) }
{
    if closes {
        take_last_border(lines)
    } else {
        Ok(None)
    }
}

fn take_last_border<T: EqualCopy + Drop>(
    lines: &mut BlockLines<T>,
) -> Result<Option<BorderHoriz<T>>, AllocError>
    ensures bottom { IfOk result (λ bottom. option_map (border_of T.seen) bottom
        ≡ last_border (block_lines_of T.seen lines.old)) }
    ensures rest { OnOk result (block_lines_of T.seen lines.new
        ≡ without_last (block_lines_of T.seen lines.old)) }
{
    match lines.pop() {
        Some(last) => border_or_back(lines, last),
        None => Ok(None),
    }
}

/// The border that the line is; a text is put back.
fn border_or_back<T: EqualCopy + Drop>(
    lines: &mut BlockLines<T>,
    last: LaidLine<T>,
) -> Result<Option<BorderHoriz<T>>, AllocError>
    ensures bottom { IfOk result (λ bottom. option_map (border_of T.seen) bottom
        ≡ border_line (render_line_of T.seen last.line)) }
    ensures rest { OnOk result (block_lines_of T.seen lines.new ≡ block_lines_of T.seen lines.old
        ++ rest_after (render_line_of T.seen last.line) (laid_line_of T.seen last ∷ []) []) }
{
    let LaidLine { line, content } = last;
    match line {
        RenderLine::Line(border) => Ok(Some(border)),
        RenderLine::Text(text) => {
            let line = RenderLine::Text(text);
            lines.push(LaidLine { line, content })?;
            Ok(None)
        }
    }
}

/// A row of one cell without lines, between borders that were its first and its last line.
fn bare_cell<T: EqualCopy + Drop>(
    alloc: Global,
    tag: &T,
    width: usize,
    rows: usize,
    top: Option<BorderHoriz<T>>,
    bottom: Option<BorderHoriz<T>>,
) -> Result<Vec<OpenCell<T>>, AllocError>
    ensures { IfOk result (λ row. map (open_cell_of T.seen) row.items ≡ bare_cell width rows (T.seen tag.now)
        (option_map (border_of T.seen) top) (option_map (border_of T.seen) bottom) ∷ []) }
{
    let mut row = Vec::with_capacity(alloc, 1)?;
    row.push(OpenCell {
        width,
        rows,
        lines: LineVec::new(alloc).into_queue(),
        filler: None,
        space_tag: tag.copy(alloc)?,
        top,
        bottom,
    })?;
    Ok(row)
}
