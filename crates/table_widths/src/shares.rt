//! Shares and widths of columns.
ghost use Rattle.std.specs.Prelude.{◌≡◌, ◌<◌, IfOk, MatchOption, option_map};
ghost use Rattle.table_widths.specs.Widths.{IsColumnWidths, columns_of as paired};
ghost use Rattle.table_widths.specs.Across.{widths_across as the_widths};
ghost use Rattle.table_widths.specs.Shares.{AreSized, least_width, leasts_of, share_of, shares_of, table_asks};
ghost use Rattle.table_widths.specs.Shares.{total_of};

use crate::sharing::column_widths;
use crate::width_laws::{columns_have_one_list_of_widths, columns_have_widths};
use std::alloc::{AllocError, Global};
use table_grid::Column;

// a column's share of a width, by what all columns ask for
fn share(column: Column, width: usize, total: u128) -> usize
    requires { 0 < total }
    ensures { result ≡ share_of width total column }
{
    let part = column.size as u128 * width as u128 / total;
    let share = part.max(column.least as u128).min(column.size as u128);
    share as usize
}

// what the columns ask for together
fn total_size(columns: &[Column]) -> u128
    ensures { result ≡ total_of columns.now }
{
    let mut total: u128 = 0;
    for column in columns {
        total += column.size as u128;
    }
    total
}

// what all leasts take, with the separators
fn total_least(columns: &[Column]) -> u128
    ensures { result ≡ least_width columns.now }
{
    let mut total: u128 = columns.len().saturating_sub(1) as u128;
    for column in columns {
        total += column.least as u128;
    }
    total
}

/// What a table asks for, in columns of text: what its columns ask for together, with a separator of one column between
/// neighbours. Sums stop at `usize::MAX`.
pub fn asked_by_table(columns: &[Column]) -> Column
    ensures { result ≡ table_asks columns.now }
{
    let separators = columns.len().saturating_sub(1) as u128;
    let size = total_size(columns)
        .saturating_add(separators)
        .min(usize::MAX as u128);
    let least = total_least(columns).min(usize::MAX as u128);
    Column {
        size: size as usize,
        least: least as usize,
    }
}

/// The widths of a table's columns in columns of text, where its rows lie across and a separator of one column stands
/// between neighbours: each has its share of `width`, by its size, but at least its least and at most its size, lowered
/// where these do not fit. None where not even the leasts fit, and cells are to lie below one another. The error is
/// allocation failure alone.
pub fn widths_across(
    alloc: Global,
    columns: &[Column],
    width: usize,
) -> Result<Option<Vec<usize>>, AllocError>
    requires sized { AreSized columns.now }
    ensures exact { IfOk result (λ r. option_map (λ w. w.items) r ≡ the_widths columns.now width) }
    ensures across { IfOk result (λ r. MatchOption r (width < least_width columns.now)
        (λ w. IsColumnWidths (paired (leasts_of columns.now) (shares_of columns.now width)) width w.items)) }
{
    if total_least(columns) > width as u128 {
        return Ok(None);
    }
    let total = total_size(columns);
    let mut leasts = Vec::new(alloc);
    let mut shares = Vec::new(alloc);
    for column in columns {
        leasts.push(column.least)?;
        shares.push(share(*column, width, total))?;
    }
    let widths = column_widths(alloc, leasts.as_slice(), shares.as_slice(), width)?;
    columns_have_widths();
    columns_have_one_list_of_widths();
    Ok(Some(widths))
}
