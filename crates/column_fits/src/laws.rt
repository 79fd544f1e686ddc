//! Laws of fitted columns: each is the contract of a function that does nothing.
ghost use Rattle.std.specs.Prelude.{ℕ, ◌≡◌, ◌≤◌, IfSome, List, length, map};
ghost use Rattle.column_fits.specs.Across.{AreFits, fitted_across};
ghost use Rattle.column_fits.specs.Fits.{AreWithin, fits_of, high_of, high_width, low_width};
ghost use Rattle.column_fits.specs.Laws.{AreAtLeast, HaveNarrowest, HaveWidest};
ghost use Rattle.column_fits.specs.declared.cell.CellWidths.{CellWidths};
ghost use Rattle.column_fits.specs.declared.fit.ColumnFit.{ColumnFit};
ghost use Rattle.table_grid.specs.declared.columns.Column.{Column};
ghost use Rattle.table_widths.specs.Across.{FitAcross};
ghost use Rattle.table_widths.specs.Shares.{leasts_of};

use table_widths::{
    columns_have_widths, widths_fit_the_width, widths_stand_between_least_and_share,
};

/// Each column asks for something: its least or more, and no more at the least than at the most.
pub fn columns_have_fits()
    ensures { (columns : List Column) (cells : List CellWidths) → AreWithin (length columns) cells
        → AreFits columns (fits_of columns cells) }
{}

/// Fitted widths, one for each column, are with separators at most the width, and no column has less than its least.
pub fn fitted_widths_fit()
    ensures fit { (columns : List Column) (fits : List ColumnFit) (width : ℕ) → AreFits columns fits
        → IfSome (fitted_across columns fits width) (FitAcross columns width) }
    ensures least { (columns : List Column) (fits : List ColumnFit) (width : ℕ) → AreFits columns fits
        → IfSome (fitted_across columns fits width) (AreAtLeast (leasts_of columns)) }
{
    columns_have_widths();
    widths_stand_between_least_and_share();
    widths_fit_the_width();
}

/// Where what columns ask for at the least fits, the columns of each cell have its narrowest width.
pub fn cells_have_their_narrowest()
    ensures { (columns : List Column) (cells : List CellWidths) (width : ℕ) → AreWithin (length columns) cells
        → low_width (fits_of columns cells) ≤ width
        → IfSome (fitted_across columns (fits_of columns cells) width) (HaveNarrowest cells) }
{
    columns_have_fits();
    columns_have_widths();
    widths_stand_between_least_and_share();
    widths_fit_the_width();
}

/// Where what columns ask for at the most fits, they have that, and the columns of each cell have its widest width.
pub fn cells_have_their_widest()
    ensures widths { (columns : List Column) (fits : List ColumnFit) (width : ℕ) → AreFits columns fits
        → high_width fits ≤ width
        → IfSome (fitted_across columns fits width) (λ widths. widths ≡ map high_of fits) }
    ensures cells { (columns : List Column) (cells : List CellWidths) (width : ℕ) → AreWithin (length columns) cells
        → high_width (fits_of columns cells) ≤ width
        → IfSome (fitted_across columns (fits_of columns cells) width) (HaveWidest cells) }
{
    columns_have_fits();
    columns_have_widths();
    widths_stand_between_least_and_share();
    widths_fit_the_width();
}
