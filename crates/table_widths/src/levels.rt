//! The level to which columns are lowered.
ghost use Rattle.std.specs.Prelude.{◌≡◌, ◌≤◌, sum_by};
ghost use Rattle.table_widths.specs.Widths.{IsLevel, filled, slack_of};

use crate::column::ColumnShare;

/// What the columns take over their leasts at a level.
pub(crate) fn filled_at(columns: &[ColumnShare], level: usize) -> u128
    ensures { result ≡ filled level columns.now }
{
    let mut total: u128 = 0;
    for column in columns {
        total += column.slack().min(level) as u128;
    }
    total
}

/// What the columns take over their leasts with their shares.
pub(crate) fn slack_sum(columns: &[ColumnShare]) -> u128
    ensures { result ≡ sum_by slack_of columns.now }
{
    let mut total: u128 = 0;
    for column in columns {
        total += column.slack() as u128;
    }
    total
}

/// The least level at which the columns take up the room.
pub(crate) fn level_of(columns: &[ColumnShare], room: usize) -> usize
    requires { room ≤ sum_by slack_of columns.now }
    ensures { IsLevel columns.now room result }
{
    let mut low: usize = 0;
    let mut high: usize = room;
    while low < high {
        let middle = low + (high - low) / 2;
        if filled_at(columns, middle) >= room as u128 {
            high = middle;
        } else {
            low = middle + 1;
        }
    }
    low
}
