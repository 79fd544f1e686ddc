//! Cells that go on into the next row.
ghost use Rattle.std.specs.Prelude.{◌≡◌, ◌++◌, map, if◌then◌else◌, IfOk, OnOk};
ghost use Rattle.text_borders.specs.Borders.{border_of, punched};
ghost use Rattle.text_borders.specs.Across.{goes_on, line_or, spaces, with_holes, hanging_of as left_of};
ghost use Rattle.text_cells.specs.Cells.{hanging_of};
ghost use Rattle.text_cells.specs.OpenCells.{open_cell_of, left_at};

use crate::cell::HangingCell;
use crate::columns::trailing;
use crate::opening::OpenCell;
use std::alloc::{AllocError, Global};
use text_borders::BorderHoriz;
use text_lines::EqualCopy;

/// The cells that go on, with the lines that are left: the next line of each makes a hole in the border below. The
/// error is allocation failure alone.
pub(crate) fn going_on<T: EqualCopy + Drop>(
    alloc: Global,
    tag: &T,
    below: &mut BorderHoriz<T>,
    cells: Vec<OpenCell<T>>,
) -> Result<Vec<HangingCell<T>>, AllocError>
    ensures below { OnOk result (border_of T.seen below.new
        ≡ with_holes (T.seen tag.now) 0 0 (map (open_cell_of T.seen) cells.items) (border_of T.seen below.old)) }
    ensures hanging { IfOk result (λ hanging. map (hanging_of T.seen) hanging.items
        ≡ left_of 0 0 (map (open_cell_of T.seen) cells.items)) }
{
    let mut hanging = Vec::new(alloc);
    let mut at = 0;
    for cell in cells {
        let next = trailing(at, cell.width)?;
        go_on(alloc, tag, below, &mut hanging, at, cell)?;
        at = next;
    }
    Ok(hanging)
}

/// A cell that stands at a column.
fn go_on<T: EqualCopy + Drop>(
    alloc: Global,
    tag: &T,
    below: &mut BorderHoriz<T>,
    hanging: &mut Vec<HangingCell<T>>,
    at: usize,
    cell: OpenCell<T>,
) -> Result<(), AllocError>
    ensures below { OnOk result (border_of T.seen below.new ≡ (if goes_on (open_cell_of T.seen cell)
        then punched at (line_or cell.width (T.seen tag.now) (spaces cell.width (T.seen tag.now))
        (open_cell_of T.seen cell).lines) (border_of T.seen below.old) else border_of T.seen below.old)) }
    ensures hanging { OnOk result (map (hanging_of T.seen) hanging.new.items
        ≡ map (hanging_of T.seen) hanging.old.items ++ left_at at (open_cell_of T.seen cell)) }
{
    if cell.rows <= 1 {
        return Ok(());
    }
    let mut going = cell;
    below.punch(at, going.take_hole(alloc, tag)?)?;
    hanging.push(HangingCell {
        place: at,
        cell: going.into_next(alloc),
    })?;
    Ok(())
}
