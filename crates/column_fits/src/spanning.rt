//! Cells over several columns.
ghost use Rattle.std.specs.Prelude.{◌≡◌, ℕ, ◌-◌, ◌≤◌, All, IfOk, OnOk, filter, flat_map};
ghost use Rattle.std.specs.List.{range_with_len};
ghost use Rattle.std.specs.Ordering.{nat_cmp};
ghost use Rattle.std.specs.List.Sorted.{IsNonDecreasingBy, IsPermutation, IsStableByKey};
ghost use Rattle.column_fits.specs.Fits.{is_over, span_of};

use crate::cell::CellWidths;
use std::alloc::{AllocError, Global};

fn sort_by_span(cells: &mut Vec<CellWidths>) -> Result<(), AllocError>
    ensures moved { IsPermutation cells.old.items cells.new.items }
    ensures stable { IsStableByKey span_of nat_cmp cells.old.items cells.new.items }
    ensures rising { OnOk result (IsNonDecreasingBy span_of cells.new.items) }
{
    cells.sort_by_key(|cell| cell.span())
}

/// The cells over several columns: those over fewer come first, and those over as many in their order.
pub(crate) fn spanning_cells(
    alloc: Global,
    cells: &[CellWidths],
) -> Result<Vec<CellWidths>, AllocError>
    ensures { IfOk result (λ v. (count : ℕ) → All (λ c. span_of c ≤ count) cells.now
        → v.items ≡ flat_map (λ n. filter (is_over n) cells.now) (range_with_len 2 (count - 1))) }
{
    let mut spanning = Vec::new(alloc);
    for cell in cells {
        if cell.span() > 1 {
            spanning.push(*cell)?;
        }
    }
    sort_by_span(&mut spanning)?;
    Ok(spanning)
}
