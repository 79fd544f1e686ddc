//! Covers without the columns of others.
ghost use Rattle.std.specs.Prelude.{◌+◌, ◌<◌, All, IfOk, length};
ghost use Rattle.std.specs.List.Sorted.{IsNonDecreasingBy};
ghost use Rattle.table_grid.specs.Covers.{AreOrdered, EndBefore};
ghost use Rattle.table_grid.specs.Without.{IsKept, IsPartPut, IsWithout};

use crate::covers::{Cover, push_cover};
use std::alloc::{AllocError, Global};

// puts the columns from `left` to before `right` after the others, if there is one
fn push_part(kept: &mut Vec<Cover>, left: u128, right: u128) -> Result<(), AllocError>
    requires ordered { AreOrdered kept.old.items }
    requires trailing { EndBefore kept.old.items left }
    ensures { IfOk result (λ _. IsPartPut left right kept.old.items kept.new.items) }
{
    if left < right {
        push_cover(kept, Cover { left, right })?;
    }
    Ok(())
}

// puts the `i`-th cover after the others without the columns of those of `ended` from `at` on: how many of these are
// passed then, and where the last of them ends
fn push_without(
    kept: &mut Vec<Cover>,
    covers: &[Cover],
    i: usize,
    ended: &[Cover],
    at: usize,
    trailing: u128,
) -> Result<(usize, u128), AllocError>
    requires within { i < length covers.now }
    requires ordered { AreOrdered covers.now }
    requires rising { IsNonDecreasingBy (λ c. c.left) ended.now }
    requires some { All (λ c. c.left < c.right) ended.now }
    requires kept { IsKept covers.now ended.now i at trailing kept.old.items }
    ensures { IfOk result (λ r. IsKept covers.now ended.now (i + 1) r.0 r.1 kept.new.items) }
{
    let right = covers[i].right;
    let mut left = trailing.max(covers[i].left);
    let mut next = at;
    while next < ended.len() && ended[next].left < right {
        push_part(kept, left, ended[next].left)?;
        left = left.max(ended[next].right);
        next += 1;
    }
    push_part(kept, left, right)?;
    Ok((next, left))
}

/// The covers without the columns of `ended`.
pub(crate) fn covers_without(
    alloc: Global,
    covers: &[Cover],
    ended: &[Cover],
) -> Result<Vec<Cover>, AllocError>
    requires ordered { AreOrdered covers.now }
    requires rising { IsNonDecreasingBy (λ c. c.left) ended.now }
    requires some { All (λ c. c.left < c.right) ended.now }
    ensures { IfOk result (λ v. IsWithout covers.now ended.now v.items) }
{
    let mut kept = Vec::new(alloc);
    let mut at: usize = 0;
    let mut trailing: u128 = 0;
    for i in 0..covers.len() {
        let (next, end) = push_without(&mut kept, covers, i, ended, at, trailing)?;
        at = next;
        trailing = end;
    }
    Ok(kept)
}
