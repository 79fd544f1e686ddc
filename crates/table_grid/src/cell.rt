//! Cells of a table.
ghost use Rattle.std.specs.Prelude.{◌≡◌, ◌+◌, ◌^◌, ◌<◌};
ghost use Rattle.table_grid.specs.Covers.{cover_of};

use crate::covers::Cover;

/// A cell as a page gives it.
#[derive(Clone, Copy, Debug, PartialEq, Eq)]
pub struct Cell {
    /// The number of the row in which it begins. A row without cells is a number that no cell has.
    pub row: usize,
    /// How many columns of the grid it takes, at least 1.
    pub colspan: usize,
    /// How many rows it takes, its own counted, at least 1; those after the table's last row with a cell count for
    /// nothing.
    pub rowspan: usize,
    /// The columns of text that its content takes on one line.
    pub size: usize,
    /// The columns of text that its content takes at least.
    pub least: usize,
}

/// A cell in its place: it takes the `colspan` columns of the grid from `left` on, in each of its rows.
#[derive(Clone, Copy, Debug, PartialEq, Eq)]
pub struct PlacedCell {
    pub cell: Cell,
    /// The first column of the grid that it takes, numbered from 0.
    pub left: u128,
}

impl PlacedCell {
    /// The columns that the cell takes.
    pub(crate) fn cover(&self) -> Cover
        requires small { self.now.left + self.now.cell.colspan < 2 ^ 128 }
        ensures { result ≡ cover_of self.now }
    {
        Cover {
            left: self.left,
            right: self.left + self.cell.colspan as u128,
        }
    }
}
