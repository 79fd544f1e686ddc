//! Covers: columns that cells take in a row.
ghost use Rattle.std.specs.Prelude.{ℕ, ◌-◌, ◌^◌, ◌<◌, ◌≤◌, All, IfOk, length};
ghost use Rattle.table_grid.specs.Covers.{AreApart, AreMerged, AreOrdered, ArePushed, EndBefore, IsMergedTo, Misses};
ghost use Rattle.table_grid.specs.Covers.{MissesOne, cover_at};

use std::alloc::AllocError;

/// Columns that cells take in a row: those from `left` to before `right`.
#[derive(Clone, Copy)]
pub(crate) struct Cover {
    pub(crate) left: u128,
    pub(crate) right: u128,
}

/// Puts a cover after the others, joined to the last one where it begins where that one ends.
pub(crate) fn push_cover(covers: &mut Vec<Cover>, next: Cover) -> Result<(), AllocError>
    requires ordered { AreOrdered covers.old.items }
    requires trailing { EndBefore covers.old.items next.left }
    requires some { next.left < next.right }
    ensures ordered { IfOk result (λ _. AreOrdered covers.new.items) }
    ensures trailing { IfOk result (λ _. EndBefore covers.new.items next.right) }
    ensures fewer { IfOk result (λ _. (column : ℕ) → Misses covers.old.items column → MissesOne next column
        → Misses covers.new.items column) }
    ensures more { IfOk result (λ _. (column : ℕ) → Misses covers.new.items column
        → Misses covers.old.items column × MissesOne next column) }
{
    let count = covers.len();
    if count > 0 && covers[count - 1].right == next.left {
        covers[count - 1].right = next.right;
        return Ok(());
    }
    covers.push(next)?;
    Ok(())
}

// puts those covers from `at` on that begin before `limit` after the others, and says how many are passed then
fn push_before(
    merged: &mut Vec<Cover>,
    covers: &[Cover],
    at: usize,
    limit: u128,
) -> Result<usize, AllocError>
    requires start { IsMergedTo covers.now at limit merged.old.items }
    requires ordered { AreOrdered covers.now }
    requires apart { All (λ c. c.left < limit → c.right ≤ limit) covers.now }
    ensures pushed { IfOk result (λ n. ArePushed covers.now at n limit merged.old.items merged.new.items) }
    ensures over { IfOk result (λ n. n < length covers.now → limit ≤ (cover_at covers.now n).left) }
{
    let mut next = at;
    while next < covers.len() && covers[next].left < limit {
        push_cover(merged, covers[next])?;
        next += 1;
    }
    Ok(next)
}

/// What the cells from above and those of a row take together, in the memory of `merged`.
pub(crate) fn merge_covers(
    covers: &[Cover],
    own: &[Cover],
    merged: Vec<Cover>,
) -> Result<Vec<Cover>, AllocError>
    requires ordered { AreOrdered covers.now }
    requires own { AreOrdered own.now }
    requires apart { All (λ c. All (AreApart c) own.now) covers.now }
    requires small { EndBefore covers.now (2 ^ 128 - 1) }
    requires small_own { EndBefore own.now (2 ^ 128 - 1) }
    ensures { IfOk result (λ v. AreMerged covers.now own.now v.items) }
{
    let mut merged = merged;
    merged.clear();
    let mut at: usize = 0;
    for cover in own {
        at = push_before(&mut merged, covers, at, cover.left)?;
        push_cover(&mut merged, *cover)?;
    }
    push_before(&mut merged, covers, at, u128::MAX)?;
    Ok(merged)
}
