//! What a table is.
ghost use Rattle.std.specs.Prelude.{◌≡◌, []};
ghost use Rattle.table_widths.specs.Slots.{across, no_table};
ghost use Rattle.table_widths.specs.Tables.{rows_left, table_seen};

use crate::left::RowsLeft;
use crate::slot::Slot;
use std::alloc::Global;
use table_grid::Column;

/// A table: its columns, and the slots of each of its rows in order. One without a column shows nothing.
#[derive(Debug, Drop)]
pub struct Table {
    /// Its columns.
    pub columns: Vec<Column>,
    /// The slots of each of its rows: its cells and its gaps.
    pub rows: Vec<Vec<Slot>>,
}

impl Table {
    /// A table without columns and rows.
    pub fn empty(alloc: Global) -> Table
        ensures { table_seen result ≡ no_table }
    {
        Table {
            columns: Vec::new(alloc),
            rows: Vec::new(alloc),
        }
    }

    /// Its rows, to be shown with cells below one another.
    pub fn rows_below(self, alloc: Global) -> RowsLeft
        ensures { rows_left result ≡ (table_seen self).rows }
    {
        RowsLeft::new(alloc, self.rows, false)
    }

    /// Its rows, to be shown with cells beside one another: each has an empty place where a cell from above goes on.
    pub fn rows_across(self, alloc: Global) -> RowsLeft
        ensures { rows_left result ≡ across [] (table_seen self).rows }
    {
        RowsLeft::new(alloc, self.rows, true)
    }
}
