//! What the columns of a table ask for by what stands in them.
ghost use Rattle.std.specs.Prelude.{◌≡◌, IfOk, length, map};
ghost use Rattle.column_fits.specs.Fits.{AreWithin, asked_by, begun, fits_of, settled};

use crate::cell::CellWidths;
use crate::spanning::spanning_cells;
use crate::widening::{taken_by, widen_by_single, widen_in_turn};
use std::alloc::{AllocError, Global};
use table_grid::Column;

/// What a column of a table asks for, in columns of text.
#[derive(Clone, Copy, Debug, PartialEq, Eq)]
pub struct ColumnFit {
    /// With less a word of one of its cells is cut.
    pub low: usize,
    /// With these no line of its cells is wrapped.
    pub high: usize,
}

/// What a table asks for whose columns ask for these, with a separator of one column between neighbours. Sums stop at
/// `usize::MAX`.
pub fn asked_by_fits(fits: &[ColumnFit]) -> ColumnFit
    ensures { result ≡ asked_by fits.now }
{
    let taken = taken_by(fits);
    ColumnFit {
        low: taken.low.min(usize::MAX as u128) as usize,
        high: taken.high.min(usize::MAX as u128) as usize,
    }
}

// before any cell
fn begin(alloc: Global, columns: &[Column]) -> Result<Vec<ColumnFit>, AllocError>
    ensures { IfOk result (λ fits. fits.items ≡ map begun columns.now) }
{
    let mut fits = Vec::new(alloc);
    for column in columns {
        fits.push(ColumnFit {
            low: column.least.max(1),
            high: 1,
        })?;
    }
    Ok(fits)
}

// after all cells
fn settle(fits: &mut [ColumnFit])
    ensures { fits.new ≡ map settled fits.old }
{
    for fit in fits.iter_mut() {
        fit.high = fit.low.max(fit.high);
    }
}

/// What each column of a table asks for by its cells: its least at the least, and one at least. A cell widens its
/// columns where they do not have what it asks for: each gets its part of what is lacking, by what it takes at the
/// most, rounded down, and the last also what is left. Cells over fewer columns come first, and over as many in their
/// order; all sums count the separators between the columns of the cell. The error is allocation failure alone.
pub fn fits_of(
    alloc: Global,
    columns: &[Column],
    cells: &[CellWidths],
) -> Result<Vec<ColumnFit>, AllocError>
    requires within { AreWithin (length columns.now) cells.now }
    ensures { IfOk result (λ fits. fits.items ≡ fits_of columns.now cells.now) }
{
    let mut fits = begin(alloc, columns)?;
    let spanning = spanning_cells(alloc, cells)?;
    let slots = fits.as_mut_slice();
    widen_by_single(slots, cells);
    widen_in_turn(slots, spanning.as_slice());
    settle(slots);
    Ok(fits)
}
