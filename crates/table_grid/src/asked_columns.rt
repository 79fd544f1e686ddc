//! The greatest of what cells ask.
ghost use Rattle.std.specs.Prelude.{◌≡◌, ◌^◌, ◌<◌, IfOk};
ghost use Rattle.table_grid.specs.Columns.{AreWithin, greatest_parts_of};

use crate::part::Part;
use crate::windows::{put_parts, split_windows};
use std::alloc::{AllocError, Global};

/// The greatest of what the cells that cover a column ask of it (0 where none does), for each of `count` columns: in
/// passes over the cells whose number is the logarithm of `count`. The error is allocation failure alone.
pub fn greatest_parts(alloc: Global, parts: &[Part], count: usize) -> Result<Vec<usize>, AllocError>
    requires within { AreWithin parts.now count }
    requires few { count < 2 ^ 63 }
    ensures { IfOk result (λ v. v.items ≡ greatest_parts_of parts.now count) }
{
    let mut windows = Vec::new(alloc);
    for _column in 0..count {
        windows.push(0usize)?;
    }
    let mut width = count + 1;
    while width > 1 {
        let small = width.div_ceil(2);
        split_windows(&mut windows, width - small);
        put_parts(&mut windows, parts, small, width);
        width = small;
    }
    Ok(windows)
}
