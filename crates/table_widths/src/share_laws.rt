//! Laws of shares: each is the contract of a function that does nothing.
ghost use Rattle.std.specs.Prelude.{ℕ, ◌+◌, ◌-◌, ◌<◌, ◌≤◌, List, All, IfSome, length, sum};
ghost use Rattle.table_grid.specs.declared.columns.Column.{Column};
ghost use Rattle.table_widths.specs.Across.{FitAcross, widths_across};
ghost use Rattle.table_widths.specs.Shares.{AreSized, least_width, share_of, shares_of, table_asks, total_of};

use crate::width_laws::{columns_have_widths, widths_fit_the_width};

/// A column's share is at least its least and at most its size.
pub fn shares_stand_between_least_and_size()
    ensures { (columns : List Column) (width : ℕ) (column : Column) → column.least ≤ column.size
        → (column.least ≤ share_of width (total_of columns) column)
        × (share_of width (total_of columns) column ≤ column.size) }
{}

/// Where the leasts fit, the shares with separators pass the width by the width at most: no more columns of text are
/// taken off.
pub fn shares_pass_the_width_by_at_most_the_width()
    ensures { (columns : List Column) (width : ℕ) → 0 < length columns → AreSized columns
        → least_width columns ≤ width → sum (shares_of columns width) + (length columns - 1) ≤ width + width }
{}

/// A table asks for no more at least than in all, where its columns do not.
pub fn tables_ask_for_their_least()
    ensures { (columns : List Column) → All (λ c. c.least ≤ c.size) columns
        → (table_asks columns).least ≤ (table_asks columns).size }
{}

/// Where rows lie across, each column has a width, and these fit with separators between them.
pub fn widths_across_fit()
    ensures { (columns : List Column) (width : ℕ) → IfSome (widths_across columns width) (FitAcross columns width) }
{
    columns_have_widths();
    widths_fit_the_width();
}
