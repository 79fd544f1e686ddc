//! The widths of columns.
ghost use Rattle.std.specs.Prelude.{◌≡◌, ℕ, ◌+◌, ◌-◌, ◌<◌, ◌≤◌, All, IfOk, length, get_or, map, sum, sum_by};
ghost use Rattle.table_widths.specs.Widths.{IsColumnWidths, columns_of, least_of, room_of, separators, share_of};

use crate::column::ColumnShare;
use crate::levels::{filled_at, level_of, slack_sum};
use crate::lowering::lowered;
use std::alloc::{AllocError, Global};

// the shares of the columns
fn shares_of(alloc: Global, columns: &[ColumnShare]) -> Result<Vec<usize>, AllocError>
    ensures { IfOk result (λ w. w.items ≡ map share_of columns.now) }
{
    let mut widths = Vec::new(alloc);
    for column in columns {
        widths.push(column.share)?;
    }
    Ok(widths)
}

// what the width leaves to the slacks
fn room_in(columns: &[ColumnShare], width: usize) -> usize
    requires { sum_by least_of columns.now + separators columns.now ≤ width }
    ensures { result ≡ room_of columns.now width }
{
    let mut room = width - columns.len().saturating_sub(1);
    for column in columns {
        room -= column.least;
    }
    room
}

fn widths_of(alloc: Global, columns: &[ColumnShare], width: usize) -> Result<Vec<usize>, AllocError>
    requires within { All (λ c. c.least ≤ c.share) columns.now }
    requires fit { sum_by least_of columns.now + separators columns.now ≤ width }
    ensures { IfOk result (λ w. IsColumnWidths columns.now width w.items) }
{
    let room = room_in(columns, width);
    if slack_sum(columns) <= room as u128 {
        shares_of(alloc, columns)
    } else {
        let level = level_of(columns, room);
        lowered(
            alloc,
            columns,
            level,
            filled_at(columns, level) - room as u128,
        )
    }
}

// the columns with these least widths and shares
fn columns_in(
    alloc: Global,
    least: &[usize],
    shares: &[usize],
) -> Result<Vec<ColumnShare>, AllocError>
    requires { length least.now ≡ length shares.now }
    ensures { IfOk result (λ v. v.items ≡ columns_of least.now shares.now) }
{
    let mut columns = Vec::new(alloc);
    for i in 0..least.len() {
        columns.push(ColumnShare {
            least: least[i],
            share: shares[i],
        })?;
    }
    Ok(columns)
}

/// The widths of a table's columns in columns of text, by the least width and the share of each, where a separator of
/// one column stands between neighbours: the shares, if they fit in `width`; else those that exceed their leasts most
/// are lowered until the table fits, and it then takes exactly `width`. The error is allocation failure alone.
pub fn column_widths(
    alloc: Global,
    least: &[usize],
    shares: &[usize],
    width: usize,
) -> Result<Vec<usize>, AllocError>
    requires same { length least.now ≡ length shares.now }
    requires within { (i : ℕ) → i < length least.now → get_or least.now i 0 ≤ get_or shares.now i 0 }
    requires fit { sum least.now + (length least.now - 1) ≤ width }
    ensures widths { IfOk result (λ w. IsColumnWidths (columns_of least.now shares.now) width w.items) }
    ensures filled { IfOk result (λ w. width < sum shares.now + (length least.now - 1)
        → sum w.items + (length least.now - 1) ≡ width) }
{
    let columns = columns_in(alloc, least, shares)?;
    widths_of(alloc, columns.as_slice(), width)
}
