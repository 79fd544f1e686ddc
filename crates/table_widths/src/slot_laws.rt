//! A law of rows: the contract of a function that does nothing.
ghost use Rattle.std.specs.Prelude.{ℕ, ◌<◌, ◌≤◌, List, All};
ghost use Rattle.std.specs.List.Sorted.{IsNonDecreasingBy};
ghost use Rattle.table_grid.specs.declared.cell.Cell.{Cell};
ghost use Rattle.table_widths.specs.RowLaws.{AreWholeRows};
ghost use Rattle.table_widths.specs.Slots.{table};

use table_grid::{
    cells_begin_after_cells, cells_have_a_grid, cells_share_no_slot, rows_have_no_hole,
};

/// In each row that is shown across, the slots of its cells, of its gaps and of cells from above take columns side by
/// side, from the first on.
pub fn rows_across_are_whole()
    ensures { (cells : List Cell) (count : ℕ) → IsNonDecreasingBy (λ c. c.row) cells → All (λ c. 0 < c.colspan) cells
        → All (λ c. 0 < c.rowspan) cells → All (λ c. 0 < c.row) cells → All (λ c. c.row ≤ count) cells
        → AreWholeRows (table cells count) }
{
    cells_have_a_grid();
    cells_share_no_slot();
    cells_begin_after_cells();
    rows_have_no_hole();
}
