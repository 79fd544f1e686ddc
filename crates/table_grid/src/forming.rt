//! The grid of a table is formed.
ghost use Rattle.std.specs.Prelude.{◌≡◌, ◌<◌, ◌≤◌, All, IfOk};
ghost use Rattle.std.specs.List.Sorted.{IsNonDecreasingBy};
ghost use Rattle.table_grid.specs.Grid.{IsGrid};
ghost use Rattle.table_grid.specs.TheGrid.{grid as the_grid};

use crate::cell::Cell;
use crate::columns::{columns_left, columns_of};
use crate::edges::{edges_of, span_cells};
use crate::grid::Grid;
use crate::grid_laws::{cells_have_a_grid, one_grid};
use crate::kept::{gaps_left, grid_cells, rows_left, spans_left};
use crate::places::{Places, place_cells};
use std::alloc::{AllocError, Global};

/// The grid of the cells of a table, which are given row by row. A column lies between neighbouring distinct edges of
/// cells; its size is the greatest that its cells ask of each of their columns, its least the same of leasts. Columns
/// of size 0 are taken out. The error is allocation failure alone.
pub fn grid_of(alloc: Global, cells: &[Cell]) -> Result<Grid, AllocError>
    requires rows { IsNonDecreasingBy (λ c. c.row) cells.now }
    requires some { All (λ c. 0 < c.colspan) cells.now }
    requires tall { All (λ c. 0 < c.rowspan) cells.now }
    requires content { All (λ c. c.least ≤ c.size) cells.now }
    ensures grid { IfOk result (λ g. IsGrid cells.now g.columns.items g.cells.items g.gaps.items) }
    ensures exact { IfOk result (λ g. (g.columns.items ≡ (the_grid cells.now).columns)
        × ((g.cells.items ≡ (the_grid cells.now).cells) × (g.gaps.items ≡ (the_grid cells.now).gaps))) }
    ensures sized { IfOk result (λ g. All (λ c. 0 < c.size) g.columns.items
        × All (λ c. c.least ≤ c.size) g.columns.items) }
{
    let Places {
        cells: placed,
        gaps,
    } = place_cells(alloc, cells)?;
    let edges = edges_of(alloc, placed.as_slice())?;
    let spanned = span_cells(alloc, placed.as_slice(), edges.as_slice())?;
    let columns = columns_of(alloc, spanned.as_slice(), edges.len().saturating_sub(1))?;
    let spans = spans_left(alloc, spanned.as_slice(), columns.as_slice())?;
    let rows = rows_left(alloc, spans.as_slice())?;
    let cells = grid_cells(alloc, spans.as_slice(), rows.as_slice())?;
    let gaps = gaps_left(alloc, gaps.as_slice(), edges.as_slice(), columns.as_slice())?;
    let columns = columns_left(alloc, columns.as_slice())?;
    cells_have_a_grid();
    one_grid();
    Ok(Grid {
        columns,
        cells,
        gaps,
    })
}
