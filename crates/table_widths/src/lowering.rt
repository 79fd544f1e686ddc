//! Columns that are lowered to a level.
ghost use Rattle.std.specs.Prelude.{IfOk};
ghost use Rattle.table_widths.specs.Widths.{IsLowered};

use crate::column::ColumnShare;
use crate::edges::{edge_of, wider_than};
use std::alloc::{AllocError, Global};

/// The columns lowered to the level, of those that stand there the first `less` by one more: one at a time, in order.
pub(crate) fn lowered(
    alloc: Global,
    columns: &[ColumnShare],
    level: usize,
    less: u128,
) -> Result<Vec<usize>, AllocError>
    ensures { IfOk result (λ w. IsLowered columns.now level less w.items) }
{
    let edge = edge_of(columns, level, less);
    let mut left: u128 = less - wider_than(columns, level, edge) as u128;
    let mut widths = Vec::new(alloc);
    for column in columns {
        widths.push(column.width(level, column.loses(level, edge, left)))?;
        left = left.saturating_sub(column.is_at(level, edge) as u128);
    }
    Ok(widths)
}
