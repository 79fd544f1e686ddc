//! The places of all cells of a table.
ghost use Rattle.std.specs.Prelude.{◌^◌, ◌<◌, All, IfOk};
ghost use Rattle.std.specs.List.Sorted.{IsNonDecreasingBy};
ghost use Rattle.table_grid.specs.Gaps.{AreGaps};
ghost use Rattle.table_grid.specs.Places.{ArePlaced, right_of};

use crate::cell::{Cell, PlacedCell};
use crate::ends::ends_of;
use crate::gaps::{Gap, row_gaps};
use crate::next_row::{Scratch, next_covers};
use crate::walk::place_row;
use std::alloc::{AllocError, Global};

/// Where the cells of a table stand, and the gaps of the rows in which a cell begins, in order.
#[derive(Debug, Drop)]
pub struct Places {
    pub cells: Vec<PlacedCell>,
    pub gaps: Vec<Gap>,
}

/// Where the cells of a table stand, which are given row by row: each at the first column of the grid, after the cells
/// before it in its row, from which on its whole column span is free of row spans from above. The error is allocation
/// failure alone.
pub fn place_cells(alloc: Global, cells: &[Cell]) -> Result<Places, AllocError>
    requires rows { IsNonDecreasingBy (λ c. c.row) cells.now }
    requires some { All (λ c. 0 < c.colspan) cells.now }
    requires tall { All (λ c. 0 < c.rowspan) cells.now }
    ensures placed { IfOk result (λ p. ArePlaced cells.now p.cells.items) }
    ensures small { IfOk result (λ p. All (λ c. right_of c < 2 ^ 128) p.cells.items) }
    ensures gaps { IfOk result (λ p. AreGaps p.cells.items p.gaps.items) }
{
    let ends = ends_of(alloc, cells)?;
    let mut placed = Vec::new(alloc);
    let mut gaps = Vec::new(alloc);
    let mut covers = Vec::new(alloc);
    let mut own = Vec::new(alloc);
    let mut scratch = Scratch::new(alloc);
    let mut over: usize = 0;
    'rows: while placed.len() < cells.len() {
        let row = cells[placed.len()].row;
        let (above, passed, emptied) = next_covers(
            alloc,
            cells,
            ends.as_slice(),
            over,
            covers.as_slice(),
            own.as_slice(),
            placed.as_slice(),
            row,
            scratch,
        )?;
        scratch = emptied;
        covers = above;
        over = passed;
        own = place_row(cells, row, covers.as_slice(), &mut placed, own)?;
        row_gaps(&mut gaps, row, covers.as_slice(), own.as_slice())?;
    }
    Ok(Places {
        cells: placed,
        gaps,
    })
}
