//! A row of cells beside one another.
ghost use Rattle.std.specs.Prelude.{◌≡◌, map, IfOk};
ghost use Rattle.std.specs.Option.{option_map};
ghost use Rattle.text_borders.specs.Borders.{border_of};
ghost use Rattle.text_borders.specs.Across.{across};
ghost use Rattle.text_cells.specs.OpenCells.{seated_across};
ghost use Rattle.text_cells.specs.Cells.{cell_of, hanging_of, row_of, AreRowLines};

use crate::alone::{is_alone, lay_alone};
use crate::cell::{HangingCell, LineSet, Row, RowLines};
use crate::columns::columns_of;
use crate::going_on::going_on;
use crate::joining::{border_below, joined_above};
use crate::opening::opened_cells;
use crate::row_lines::{row_height, row_lines, sign_of};
use crate::seating::seated;
use std::alloc::{AllocError, Global};
use text_borders::BorderHoriz;
use text_lines::EqualCopy;

/// A row of cells beside one another, with the cells that go on from the row before among them: below a border, which
/// is joined to it, or below none. `draws` tells whether `│` or a space stands between cells, `collapse` whether
/// borders at the beginning and at the end of a cell are taken into those of the row. What is added is tagged `tag`.
/// Lines one by one are joined, whether those of the cells are or not. The error is allocation failure.
pub fn lay_across<T: EqualCopy + Drop>(
    alloc: Global,
    draws: bool,
    collapse: bool,
    tag: &T,
    above: Option<BorderHoriz<T>>,
    cells: Vec<LineSet<T>>,
    hanging: Vec<HangingCell<T>>,
) -> Result<Row<T>, AllocError>
    ensures row { IfOk result (λ row. row_of T.seen row ≡ across draws collapse (T.seen tag.now)
        (option_map (border_of T.seen) above) (map (cell_of T.seen) cells.items)
        (map (hanging_of T.seen) hanging.items)) }
    ensures lines { IfOk result (λ row. AreRowLines T.seen row.lines) }
{
    let seated = seated(alloc, cells, hanging)?;
    if is_alone(&seated) {
        return lay_alone(alloc, collapse, tag, above, seated);
    }
    lay_each(alloc, draws, collapse, tag, above, seated)
}

/// A row of seated cells, the lines of which are taken one by one.
fn lay_each<T: EqualCopy + Drop>(
    alloc: Global,
    draws: bool,
    collapse: bool,
    tag: &T,
    above: Option<BorderHoriz<T>>,
    seated: Vec<LineSet<T>>,
) -> Result<Row<T>, AllocError>
    ensures row { IfOk result (λ row. row_of T.seen row ≡ seated_across draws collapse (T.seen tag.now)
        (option_map (border_of T.seen) above) (map (cell_of T.seen) seated.items)) }
    ensures lines { IfOk result (λ row. AreRowLines T.seen row.lines) }
{
    let mut row = opened_cells(alloc, collapse, above.is_some(), tag, seated)?;
    let columns = columns_of(alloc, &row)?;
    let joined = joined_above(above, &columns, &row)?;
    let mut below = border_below(alloc, tag, &columns, &row)?;
    let height = row_height(&row);
    let lines = row_lines(alloc, sign_of(draws), tag, &mut row, height)?;
    let hanging = going_on(alloc, tag, &mut below, row)?;
    Ok(Row {
        above: joined,
        lines: RowLines::Each(lines),
        below,
        hanging,
    })
}
