//! A law of grids: the contract of a function that does nothing.
ghost use Rattle.std.specs.Prelude.{◌≡◌, ◌<◌, ◌≤◌, All, List};
ghost use Rattle.std.specs.List.Sorted.{IsNonDecreasingBy};
ghost use Rattle.table_grid.specs.declared.cell.Cell.{Cell};
ghost use Rattle.table_grid.specs.declared.columns.Column.{Column};
ghost use Rattle.table_grid.specs.declared.grid.GridCell.{GridCell};
ghost use Rattle.table_grid.specs.declared.grid.GridGap.{GridGap};
ghost use Rattle.table_grid.specs.Grid.{IsGrid};
ghost use Rattle.table_grid.specs.TheGrid.{grid};

use crate::place_laws::{cells_have_one_place, cells_have_places};

/// Cells have one grid.
pub fn one_grid()
    ensures { (cells : List Cell) (columns others : List Column) (grid grid_too : List GridCell)
        (gaps gaps_too : List GridGap) → IsGrid cells columns grid gaps → IsGrid cells others grid_too gaps_too
        → (columns ≡ others) × (grid ≡ grid_too) × (gaps ≡ gaps_too) }
{
    cells_have_one_place();
}

/// Cells have a grid: that which a function gives.
pub fn cells_have_a_grid()
    ensures { (cells : List Cell) → IsNonDecreasingBy (λ c. c.row) cells
        → IsGrid cells (grid cells).columns (grid cells).cells (grid cells).gaps }
{
    cells_have_places();
}

/// The columns of a grid of cells that ask for no more at least than in all have a size, and ask so too.
pub fn columns_of_a_grid_are_sized()
    ensures { (cells : List Cell) → IsNonDecreasingBy (λ c. c.row) cells → All (λ c. 0 < c.colspan) cells
        → All (λ c. c.least ≤ c.size) cells
        → All (λ c. 0 < c.size) (grid cells).columns × All (λ c. c.least ≤ c.size) (grid cells).columns }
{
    cells_have_a_grid();
}
