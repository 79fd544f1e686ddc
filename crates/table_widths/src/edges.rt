//! Which of the columns at a level are the widest.
ghost use Rattle.std.specs.Prelude.{◌≡◌, ℕ, ◌<◌, ◌≤◌, length, get_or};
ghost use Rattle.table_widths.specs.declared.column.ColumnShare.{ColumnShare};
ghost use Rattle.table_widths.specs.Edges.{IsEdge};
ghost use Rattle.table_widths.specs.Widths.{wider};

use crate::column::ColumnShare;

/// How many columns at the level are wider than one with this least.
pub(crate) fn wider_than(columns: &[ColumnShare], level: usize, least: usize) -> usize
    ensures { result ≡ wider level least columns.now }
{
    let mut count: usize = 0;
    for column in columns {
        if level <= column.slack() && least < column.least {
            count += 1;
        }
    }
    count
}

// a number that no least passes
fn most_of(columns: &[ColumnShare]) -> usize
    ensures { (i : ℕ) (d : ColumnShare) → i < length columns.now → (get_or columns.now i d).least ≤ result }
{
    let mut most: usize = 0;
    for column in columns {
        most = most.max(column.least);
    }
    most
}

/// Of the leasts the least such that at most `less` columns at the level are wider.
pub(crate) fn edge_of(columns: &[ColumnShare], level: usize, less: u128) -> usize
    ensures { IsEdge columns.now level less result }
{
    let mut low: usize = 0;
    let mut high: usize = most_of(columns);
    while low < high {
        let middle = low + (high - low) / 2;
        if wider_than(columns, level, middle) as u128 <= less {
            high = middle;
        } else {
            low = middle + 1;
        }
    }
    low
}
