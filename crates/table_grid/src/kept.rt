//! What is left of a table without the columns of size 0.
ghost use Rattle.std.specs.Prelude.{◌≡◌, ◌<◌, ◌≤◌, All, IfOk, length, map};
ghost use Rattle.std.specs.List.Sorted.{IsStrictlyIncreasing};
ghost use Rattle.table_grid.specs.Grid.{gap_left, grid_cell, rank, rows_with_cells, span_left};

use crate::columns::{Column, counts_before};
use crate::edges::{SpannedCell, rank_in};
use crate::gaps::Gap;
use crate::grid::{GridCell, GridGap};
use std::alloc::{AllocError, Global};

/// The cells with their columns among those that are left.
pub(crate) fn spans_left(
    alloc: Global,
    cells: &[SpannedCell],
    columns: &[Column],
) -> Result<Vec<SpannedCell>, AllocError>
    requires some { All (λ s. s.first < s.last) cells.now }
    requires within { All (λ s. s.last ≤ length columns.now) cells.now }
    ensures { IfOk result (λ v. v.items ≡ map (span_left columns.now) cells.now) }
{
    let counts = counts_before(alloc, columns)?;
    let mut left = Vec::with_capacity(alloc, cells.len())?;
    for s in cells {
        left.push(SpannedCell {
            cell: s.cell,
            first: counts[s.first],
            last: counts[s.last],
        })?;
    }
    Ok(left)
}

/// The rows in which a cell begins that still has a column.
pub(crate) fn rows_left(alloc: Global, cells: &[SpannedCell]) -> Result<Vec<u128>, AllocError>
    ensures { IfOk result (λ v. v.items ≡ rows_with_cells cells.now) }
{
    let mut rows = Vec::new(alloc);
    for s in cells {
        if s.first < s.last {
            rows.push(s.cell.row as u128)?;
        }
    }
    rows.dedup();
    Ok(rows)
}

/// The cells with their columns and the number of rows that they reach.
pub(crate) fn grid_cells(
    alloc: Global,
    cells: &[SpannedCell],
    rows: &[u128],
) -> Result<Vec<GridCell>, AllocError>
    requires rising { IsStrictlyIncreasing rows.now }
    ensures { IfOk result (λ v. v.items ≡ map (grid_cell rows.now) cells.now) }
{
    let mut grid = Vec::with_capacity(alloc, cells.len())?;
    for s in cells {
        let row = s.cell.row as u128;
        let above = rank_in(rows, row);
        let bottom = rank_in(rows, row + s.cell.rowspan as u128);
        grid.push(GridCell {
            first: s.first,
            last: s.last,
            rows: bottom.saturating_sub(above),
        })?;
    }
    Ok(grid)
}

/// The gaps with their columns among those that are left.
pub(crate) fn gaps_left(
    alloc: Global,
    gaps: &[Gap],
    edges: &[u128],
    columns: &[Column],
) -> Result<Vec<GridGap>, AllocError>
    requires rising { IsStrictlyIncreasing edges.now }
    requires lefts { All (λ g. rank edges.now g.left ≤ length columns.now) gaps.now }
    requires rights { All (λ g. rank edges.now g.right ≤ length columns.now) gaps.now }
    ensures { IfOk result (λ v. v.items ≡ map (gap_left edges.now columns.now) gaps.now) }
{
    let counts = counts_before(alloc, columns)?;
    let mut left = Vec::new(alloc);
    for g in gaps {
        left.push(GridGap {
            row: g.row,
            first: counts[rank_in(edges, g.left)],
            last: counts[rank_in(edges, g.right)],
        })?;
    }
    Ok(left)
}
