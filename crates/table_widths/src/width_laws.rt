//! Laws of column widths: each is the contract of a function that does nothing.
ghost use Rattle.std.specs.Prelude.{◌≡◌, ℕ, ◌+◌, ◌<◌, ◌≤◌, List, All, length, get_or, sum, sum_by};
ghost use Rattle.table_widths.specs.declared.column.ColumnShare.{ColumnShare};
ghost use Rattle.table_widths.specs.OneByOne.{AreTurns, HasTurns, passed_by};
ghost use Rattle.table_widths.specs.Widths.{IsColumnWidths, column_at, least_of, separators, share_of};
ghost use Rattle.table_widths.specs.TheWidths.{widths_of};

/// Columns have one list of widths.
pub fn columns_have_one_list_of_widths()
    ensures { (columns : List ColumnShare) (width : ℕ) (first second : List ℕ)
        → IsColumnWidths columns width first → IsColumnWidths columns width second → first ≡ second }
{}

/// A column is at least as wide as its least and at most as wide as its share.
pub fn widths_stand_between_least_and_share()
    ensures { (columns : List ColumnShare) (width : ℕ) (widths : List ℕ) → All (λ c. c.least ≤ c.share) columns
        → IsColumnWidths columns width widths → (i : ℕ) → i < length columns
        → ((column_at columns i).least ≤ get_or widths i 0) × (get_or widths i 0 ≤ (column_at columns i).share) }
{}

/// Columns whose leasts fit take no more than the width, separators included, and all of it where their shares do not
/// fit.
pub fn widths_fit_the_width()
    ensures within { (columns : List ColumnShare) (width : ℕ) (widths : List ℕ)
        → sum_by least_of columns + separators columns ≤ width → IsColumnWidths columns width widths
        → sum widths + separators columns ≤ width }
    ensures filled { (columns : List ColumnShare) (width : ℕ) (widths : List ℕ)
        → sum_by least_of columns + separators columns ≤ width → IsColumnWidths columns width widths
        → width < sum_by share_of columns + separators columns → sum widths + separators columns ≡ width }
{}

/// One column of text can be taken at a time until the columns fit, from the column that exceeds its least most, of
/// such ones the widest, and of these the leftmost; and it comes to their widths.
pub fn one_at_a_time_comes_to_the_widths()
    ensures some { (columns : List ColumnShare) (width : ℕ)
        → sum_by least_of columns + separators columns ≤ width → HasTurns columns (passed_by columns width) }
    ensures same { (columns : List ColumnShare) (width : ℕ) (widths : List ℕ) (turns : ℕ → List ℕ)
        → All (λ c. c.least ≤ c.share) columns → sum_by least_of columns + separators columns ≤ width
        → IsColumnWidths columns width widths → AreTurns columns (passed_by columns width) turns
        → turns (passed_by columns width) ≡ widths }
{}

/// Columns whose leasts fit have widths: those that a function gives.
pub fn columns_have_widths()
    ensures { (columns : List ColumnShare) (width : ℕ) → sum_by least_of columns + separators columns ≤ width
        → IsColumnWidths columns width (widths_of columns width) }
{}
