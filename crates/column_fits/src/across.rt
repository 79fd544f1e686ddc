//! The widths of fitted columns.
ghost use Rattle.std.specs.Prelude.{◌≡◌, ◌≤◌, IfOk, map, option_map};
ghost use Rattle.table_widths.specs.Shares.{least_width, leasts_of as column_leasts};
ghost use Rattle.table_widths.specs.TheWidths.{widths_of};
ghost use Rattle.column_fits.specs.Across.{AreFits, fitted_across, shares_of};
ghost use Rattle.column_fits.specs.Fits.{high_of, low_of};

use crate::fit::ColumnFit;
use crate::widening::taken_by;
use std::alloc::{AllocError, Global};
use table_grid::Column;
use table_widths::{column_widths, columns_have_one_list_of_widths, columns_have_widths};

// what all leasts take, with the separators
fn total_least(columns: &[Column]) -> u128
    ensures { result ≡ least_width columns.now }
{
    let mut total: u128 = columns.len().saturating_sub(1) as u128;
    for column in columns {
        total += column.least as u128;
    }
    total
}

fn leasts_of(alloc: Global, columns: &[Column]) -> Result<Vec<usize>, AllocError>
    ensures { IfOk result (λ v. v.items ≡ column_leasts columns.now) }
{
    let mut leasts = Vec::new(alloc);
    for column in columns {
        leasts.push(column.least)?;
    }
    Ok(leasts)
}

fn lows_of(alloc: Global, fits: &[ColumnFit]) -> Result<Vec<usize>, AllocError>
    ensures { IfOk result (λ v. v.items ≡ map low_of fits.now) }
{
    let mut lows = Vec::new(alloc);
    for fit in fits {
        lows.push(fit.low)?;
    }
    Ok(lows)
}

fn highs_of(alloc: Global, fits: &[ColumnFit]) -> Result<Vec<usize>, AllocError>
    ensures { IfOk result (λ v. v.items ≡ map high_of fits.now) }
{
    let mut highs = Vec::new(alloc);
    for fit in fits {
        highs.push(fit.high)?;
    }
    Ok(highs)
}

// the widths where the leasts fit
fn fitted(
    alloc: Global,
    columns: &[Column],
    fits: &[ColumnFit],
    width: usize,
) -> Result<Vec<usize>, AllocError>
    requires fit { AreFits columns.now fits.now }
    requires within { least_width columns.now ≤ width }
    ensures { IfOk result (λ w. w.items ≡ widths_of (shares_of columns.now fits.now width) width) }
{
    columns_have_widths();
    columns_have_one_list_of_widths();
    let lows = lows_of(alloc, fits)?;
    if taken_by(fits).low <= width as u128 {
        let highs = highs_of(alloc, fits)?;
        column_widths(alloc, lows.as_slice(), highs.as_slice(), width)
    } else {
        let leasts = leasts_of(alloc, columns)?;
        column_widths(alloc, leasts.as_slice(), lows.as_slice(), width)
    }
}

/// The widths of a table's columns in columns of text, where its rows lie across and a separator of one column stands
/// between neighbours, by what each column asks for. Where what they ask for at the least fits, none has less: where
/// what they ask for at the most fits, they have that, else those that pass their lows most are lowered first. Where it
/// does not fit, none has less than its least, and those that pass their leasts most are lowered first. None where not
/// even the leasts fit, and cells are to lie below one another. The error is allocation failure alone.
pub fn fitted_across(
    alloc: Global,
    columns: &[Column],
    fits: &[ColumnFit],
    width: usize,
) -> Result<Option<Vec<usize>>, AllocError>
    requires fit { AreFits columns.now fits.now }
    ensures { IfOk result (λ r. option_map (λ w. w.items) r ≡ fitted_across columns.now fits.now width) }
{
    if total_least(columns) > width as u128 {
        return Ok(None);
    }
    let widths = fitted(alloc, columns, fits, width)?;
    Ok(Some(widths))
}
