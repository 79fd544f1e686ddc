//! Columns of a table.
ghost use Rattle.std.specs.Prelude.{◌≡◌, ℕ, ◌+◌, ◌^◌, ◌<◌, ◌≤◌, All, IfOk, filter, get_or, length};
ghost use Rattle.table_grid.specs.Grid.{columns_between, has_size, left_before};

use crate::asked_columns::greatest_parts;
use crate::edges::SpannedCell;
use crate::part::Part;
use std::alloc::{AllocError, Global};

/// What a column of a table asks for, in columns of text.
#[derive(Clone, Copy, Debug, PartialEq, Eq)]
pub struct Column {
    /// What its content takes on one line.
    pub size: usize,
    /// What its content takes at least.
    pub least: usize,
}

/// What the cells ask of each of `count` columns.
pub(crate) fn columns_of(
    alloc: Global,
    cells: &[SpannedCell],
    count: usize,
) -> Result<Vec<Column>, AllocError>
    requires some { All (λ s. s.first < s.last) cells.now }
    requires within { All (λ s. s.last ≤ count) cells.now }
    requires few { count < 2 ^ 63 }
    ensures { IfOk result (λ v. v.items ≡ columns_between cells.now count) }
{
    let mut size_parts = Vec::with_capacity(alloc, cells.len())?;
    let mut least_parts = Vec::with_capacity(alloc, cells.len())?;
    for s in cells {
        let span = s.last - s.first;
        size_parts.push(Part {
            first: s.first,
            last: s.last,
            value: s.cell.size / span,
        })?;
        least_parts.push(Part {
            first: s.first,
            last: s.last,
            value: s.cell.least / span,
        })?;
    }
    let sizes = greatest_parts(alloc, size_parts.as_slice(), count)?;
    let leasts = greatest_parts(alloc, least_parts.as_slice(), count)?;
    let mut columns = Vec::with_capacity(alloc, count)?;
    for at in 0..count {
        columns.push(Column {
            size: sizes[at],
            least: leasts[at],
        })?;
    }
    Ok(columns)
}

/// The columns that have a size.
pub(crate) fn columns_left(alloc: Global, columns: &[Column]) -> Result<Vec<Column>, AllocError>
    ensures { IfOk result (λ v. v.items ≡ filter has_size columns.now) }
{
    let mut left = Vec::new(alloc);
    for column in columns {
        if column.size > 0 {
            left.push(*column)?;
        }
    }
    Ok(left)
}

/// For each column, and for the end, how many that have a size stand before it.
pub(crate) fn counts_before(alloc: Global, columns: &[Column]) -> Result<Vec<usize>, AllocError>
    ensures same { IfOk result (λ v. length v.items ≡ length columns.now + 1) }
    ensures each { IfOk result (λ v. (c : ℕ) → c ≤ length columns.now
        → get_or v.items c 0 ≡ left_before columns.now c) }
{
    let mut counts = Vec::with_capacity(alloc, columns.len() + 1)?;
    let mut count: usize = 0;
    for column in columns {
        counts.push(count)?;
        count += (column.size > 0) as usize;
    }
    counts.push(count)?;
    Ok(counts)
}
