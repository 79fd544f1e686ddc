//! The rows of a table are formed.
ghost use Rattle.std.specs.Prelude.{◌≡◌, ◌+◌, ◌<◌, ◌≤◌, All, IfOk, length, map};
ghost use Rattle.std.specs.List.{range_with_len, zip};
ghost use Rattle.std.specs.List.Sorted.{IsNonDecreasingBy};
ghost use Rattle.table_widths.specs.Shares.{AreSized};
ghost use Rattle.table_widths.specs.RowParts.{HasRowsFrom, cells_in, gaps_in, slots_in};
ghost use Rattle.table_widths.specs.Slots.{is_cell_of, is_gap_of, table};
ghost use Rattle.table_widths.specs.Tables.{rows_seen, table_seen};

use crate::merging::merged;
use crate::slot::Slot;
use crate::table::Table;
use std::alloc::{AllocError, Global};
use table_grid::{Cell, Grid, GridCell, GridGap, grid_of};

// the cells of a row, none of which stands before a place, and the place after them
fn cells_of_row(
    alloc: Global,
    cells: &[Cell],
    placed: &[GridCell],
    row: usize,
    from: usize,
) -> Result<(Vec<Slot>, usize), AllocError>
    requires same { length placed.now ≡ length cells.now }
    requires rows { IsNonDecreasingBy (λ c. c.row) cells.now }
    requires from { HasRowsFrom is_cell_of (zip cells.now placed.now) row from }
    ensures slots { IfOk result (λ r. r.0.items ≡ cells_in cells.now placed.now row) }
    ensures trailing { IfOk result (λ r. HasRowsFrom is_cell_of (zip cells.now placed.now) (row + 1) r.1) }
{
    let mut slots = Vec::new(alloc);
    let mut at = from;
    'earlier: while at < cells.len() && cells[at].row < row {
        at += 1;
    }
    'cells: while at < cells.len() && cells[at].row == row {
        slots.push(Slot {
            first: placed[at].first,
            last: placed[at].last,
            rows: placed[at].rows,
            is_cell: true,
        })?;
        at += 1;
    }
    Ok((slots, at))
}

// the gaps of a row, none of which stands before a place, and the place after them
fn gaps_of_row(
    alloc: Global,
    gaps: &[GridGap],
    row: usize,
    from: usize,
) -> Result<(Vec<Slot>, usize), AllocError>
    requires rows { IsNonDecreasingBy (λ g. g.row) gaps.now }
    requires from { HasRowsFrom is_gap_of gaps.now row from }
    ensures slots { IfOk result (λ r. r.0.items ≡ gaps_in gaps.now row) }
    ensures trailing { IfOk result (λ r. HasRowsFrom is_gap_of gaps.now (row + 1) r.1) }
{
    let mut slots = Vec::new(alloc);
    let mut at = from;
    'earlier: while at < gaps.len() && gaps[at].row < row {
        at += 1;
    }
    'gaps: while at < gaps.len() && gaps[at].row == row {
        if gaps[at].first < gaps[at].last {
            slots.push(Slot {
                first: gaps[at].first,
                last: gaps[at].last,
                rows: 1,
                is_cell: false,
            })?;
        }
        at += 1;
    }
    Ok((slots, at))
}

// the slots of so many rows, numbered from 1 on
fn rows_of(
    alloc: Global,
    cells: &[Cell],
    placed: &[GridCell],
    gaps: &[GridGap],
    count: usize,
) -> Result<Vec<Vec<Slot>>, AllocError>
    requires same { length placed.now ≡ length cells.now }
    requires rows { IsNonDecreasingBy (λ c. c.row) cells.now }
    requires gap_rows { IsNonDecreasingBy (λ g. g.row) gaps.now }
    ensures { IfOk result (λ v. rows_seen v.items
        ≡ map (slots_in cells.now placed.now gaps.now) (range_with_len 1 count)) }
{
    let mut rows = Vec::new(alloc);
    let mut cell = 0;
    let mut gap = 0;
    'rows: while rows.len() < count {
        let row = rows.len() + 1;
        let (own, trailing) = cells_of_row(alloc, cells, placed, row, cell)?;
        let (empty, after) = gaps_of_row(alloc, gaps, row, gap)?;
        cell = trailing;
        gap = after;
        rows.push(merged(alloc, own, empty.as_slice())?)?;
    }
    Ok(rows)
}

/// The table of so many rows, which are numbered from 1 on, with these cells, row by row. The error is allocation
/// failure alone.
pub fn table_of(alloc: Global, cells: &[Cell], count: usize) -> Result<Table, AllocError>
    requires rows { IsNonDecreasingBy (λ c. c.row) cells.now }
    requires some { All (λ c. 0 < c.colspan) cells.now }
    requires tall { All (λ c. 0 < c.rowspan) cells.now }
    requires content { All (λ c. c.least ≤ c.size) cells.now }
    ensures table { IfOk result (λ t. table_seen t ≡ table cells.now count) }
    ensures sized { IfOk result (λ t. AreSized t.columns.items) }
{
    let Grid {
        columns,
        cells: placed,
        gaps,
    } = grid_of(alloc, cells)?;
    let rows = rows_of(alloc, cells, placed.as_slice(), gaps.as_slice(), count)?;
    Ok(Table { columns, rows })
}
