//! What a table's grid is.
use crate::columns::Column;

/// Where a cell stands in a grid. One whose `first` is its `last` has no column left, and is skipped.
#[derive(Clone, Copy, Debug, PartialEq, Eq)]
pub struct GridCell {
    /// Its first column, among the columns of the grid.
    pub first: usize,
    /// The column after its last one.
    pub last: usize,
    /// How many rows it reaches, of those in which a cell that is not skipped begins: its own counted.
    pub rows: usize,
}

/// A stretch of a row in which no cell stands, up to a place that a cell from above covers: an empty cell. One whose
/// `first` is its `last` has no column left, and is skipped.
#[derive(Clone, Copy, Debug, PartialEq, Eq)]
pub struct GridGap {
    /// The number of its row, as cells are given.
    pub row: usize,
    /// Its first column, among the columns of the grid.
    pub first: usize,
    /// The column after its last one.
    pub last: usize,
}

/// The grid of a table. A table without a column shows nothing.
#[derive(Debug, Drop)]
pub struct Grid {
    /// The columns that have a size.
    pub columns: Vec<Column>,
    /// Where each cell stands, in the order in which cells are given.
    pub cells: Vec<GridCell>,
    /// The gaps of the rows in which a cell begins, in order.
    pub gaps: Vec<GridGap>,
}
