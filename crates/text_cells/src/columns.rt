//! The columns of a row.
ghost use Rattle.std.specs.Prelude.{◌≡◌, ◌+◌, map, IfOk};
ghost use Rattle.text_borders.specs.Across.{row_width, signs};
ghost use Rattle.text_cells.specs.OpenCells.{open_cell_of, ends};

use crate::opening::OpenCell;
use smallvec::SmallVec;
use std::alloc::{AllocError, Global};
use text_lines::EqualCopy;

/// The signs of so many cells take no memory of their own.
const FEW: usize = 8;

/// The columns of a row.
#[derive(Drop)]
pub(crate) struct Columns {
    pub(crate) width: usize,
    /// The columns between cells.
    pub(crate) signs: SmallVec<usize, FEW>,
}

/// The error is allocation failure alone.
pub(crate) fn columns_of<T: EqualCopy + Drop>(
    alloc: Global,
    cells: &[OpenCell<T>],
) -> Result<Columns, AllocError>
    ensures width { IfOk result (λ columns. columns.width ≡ row_width (map (open_cell_of T.seen) cells.now)) }
    ensures signs { IfOk result (λ columns. columns.signs.items ≡ signs 0 (map (open_cell_of T.seen) cells.now)) }
{
    let mut ends = ends_of(alloc, cells)?;
    let width = ends.pop().unwrap_or(0);
    Ok(Columns { width, signs: ends })
}

/// The column after each cell.
fn ends_of<T: EqualCopy + Drop>(
    alloc: Global,
    cells: &[OpenCell<T>],
) -> Result<SmallVec<usize, FEW>, AllocError>
    ensures { IfOk result (λ all. all.items ≡ ends 0 (map (open_cell_of T.seen) cells.now)) }
{
    let mut ends = SmallVec::new(alloc);
    let mut at = 0;
    let mut rest = cells;
    while let Some((cell, others)) = rest.split_first() {
        let next = trailing(at, cell.width)?;
        ends.push(next - 1)?;
        at = next;
        rest = others;
    }
    Ok(ends)
}

/// The column at which the next cell begins. No memory holds a row of more columns than a `usize` counts.
pub(crate) fn trailing(at: usize, width: usize) -> Result<usize, AllocError>
    ensures { IfOk result (λ n. n ≡ at + width + 1) }
{
    let end = at.checked_add(width).ok_or(AllocError)?;
    end.checked_add(1).ok_or(AllocError)
}
