//! Cells and hanging cells in one row.
ghost use Rattle.std.specs.Prelude.{◌≡◌, ◌+◌, List, ◌∷◌, ◌++◌, map, IfOk, OnOk};
ghost use Rattle.text_borders.specs.Across.{Cell, seated, seated_after};
ghost use Rattle.text_cells.specs.Cells.{cell_of, hanging_of};
ghost use Rattle.text_cells.specs.OpenCells.{hangs_at, gap};

use crate::block_lines::BlockLines;
use crate::cell::{HangingCell, LineSet};
use crate::columns::trailing;
use std::alloc::{AllocError, Global};
use std::collections::VecDeque;
use text_lines::EqualCopy;

/// The cells of a row: each hanging cell stands in place of the first cell that begins at its place or after it, or
/// after the row. The error is allocation failure alone.
pub(crate) fn seated<T: EqualCopy + Drop>(
    alloc: Global,
    cells: Vec<LineSet<T>>,
    hanging: Vec<HangingCell<T>>,
) -> Result<Vec<LineSet<T>>, AllocError>
    ensures { IfOk result (λ row. map (cell_of T.seen) row.items
        ≡ seated 0 (map (cell_of T.seen) cells.items) (map (hanging_of T.seen) hanging.items)) }
{
    // The common case moves no cell.
    if hanging.is_empty() {
        return Ok(cells);
    }
    let mut row = Vec::with_capacity(alloc, cells.len())?;
    let mut waiting = VecDeque::from_vec(hanging);
    let mut at = 0;
    for cell in cells {
        let next = trailing(at, cell.width)?;
        row.push(seated_at(at, cell, &mut waiting))?;
        at = next;
    }
    push_after(alloc, &mut row, at, waiting)?;
    Ok(row)
}

/// The cell that stands at a column: the first of the hanging ones where its place is there or before, else the row's.
fn seated_at<T: EqualCopy + Drop>(
    at: usize,
    cell: LineSet<T>,
    waiting: &mut VecDeque<HangingCell<T>>,
) -> LineSet<T>
    ensures { (cells : List (Cell T.Seen)) → seated at (cell_of T.seen cell ∷ cells)
        (map (hanging_of T.seen) waiting.old.items)
        ≡ cell_of T.seen result ∷ seated (at + cell.width + 1) cells (map (hanging_of T.seen) waiting.new.items) }
{
    if !hangs_at(at, waiting) {
        return cell;
    }
    match waiting.pop_front() {
        Some(first) => first.cell,
        None => cell,
    }
}

fn hangs_at<T: EqualCopy + Drop>(at: usize, waiting: &VecDeque<HangingCell<T>>) -> bool
    ensures { result ≡ hangs_at at (map (hanging_of T.seen) waiting.now.items) }
{
    match waiting.front() {
        Some(first) => first.place <= at,
        None => false,
    }
}

/// Adds the hanging cells that stand after a row which ends before a column.
fn push_after<T: EqualCopy + Drop>(
    alloc: Global,
    row: &mut Vec<LineSet<T>>,
    at: usize,
    waiting: VecDeque<HangingCell<T>>,
) -> Result<(), AllocError>
    ensures { OnOk result (map (cell_of T.seen) row.new.items ≡ map (cell_of T.seen) row.old.items
        ++ seated_after at (map (hanging_of T.seen) waiting.items)) }
{
    let mut end = at;
    for last in waiting {
        push_gap(alloc, row, end, last.place)?;
        end = trailing(end.max(last.place), last.cell.width)?;
        row.push(last.cell)?;
    }
    Ok(())
}

/// Adds an empty cell where a gap is left before a place.
fn push_gap<T: EqualCopy + Drop>(
    alloc: Global,
    row: &mut Vec<LineSet<T>>,
    end: usize,
    place: usize,
) -> Result<(), AllocError>
    ensures { OnOk result (map (cell_of T.seen) row.new.items
        ≡ map (cell_of T.seen) row.old.items ++ gap end place) }
{
    if place <= end {
        return Ok(());
    }
    row.push(LineSet {
        width: place - end - 1,
        rows: 1,
        lines: BlockLines::new(alloc),
    })?;
    Ok(())
}
