use crate::checks::passes;
use std::alloc::{AllocError, Global};
use table_widths::column_widths;

/// Columns share what is left after their least widths; where that is less than they ask for, the one that asks for
/// more, or the leftmost of those that ask for as much, gives up the first column.
#[test]
fn columns_share_a_width(rt: HostRuntime) {
    passes(&rt, are_shared(rt.alloc()), "columns of a table");
}

fn are_shared(alloc: Global) -> Result<bool, AllocError> {
    let two = column_widths(alloc, &[3, 3], &[10, 5], 12)?;
    let three = column_widths(alloc, &[1, 1, 1], &[5, 4, 5], 10)?;
    let uneven = column_widths(alloc, &[1, 3], &[3, 5], 8)?;
    Ok(
        two.as_slice() == [6, 5].as_slice()
            && three.as_slice() == [2, 3, 3].as_slice()
            && uneven.as_slice() == [3, 4].as_slice(),
    )
}
