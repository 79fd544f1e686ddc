//! Gaps of a row.
ghost use Rattle.std.specs.Prelude.{◌≡◌, ◌<◌, ◌≤◌, [], ◌∷◌, ◌++◌, All, IfOk, length};
ghost use Rattle.table_grid.specs.Covers.{AreApart, AreOrdered};
ghost use Rattle.table_grid.specs.Gaps.{gap_of};
ghost use Rattle.table_grid.specs.RowGaps.{AreGapsIn, ArePassedBefore};

use crate::covers::Cover;
use std::alloc::AllocError;

/// Columns of the grid, from `left` to before `right`, in which no cell stands in the row, up to one that a cell from
/// above takes.
#[derive(Clone, Copy, Debug, PartialEq, Eq)]
pub struct Gap {
    pub row: usize,
    pub left: u128,
    pub right: u128,
}

// puts a gap after the others, if it has a column
fn push_gap(gaps: &mut Vec<Gap>, row: usize, left: u128, right: u128) -> Result<(), AllocError>
    ensures some { IfOk result (λ _. left < right → gaps.new.items ≡ gaps.old.items ++ gap_of row left right ∷ []) }
    ensures none { IfOk result (λ _. right ≤ left → gaps.new.items ≡ gaps.old.items) }
{
    if left < right {
        gaps.push(Gap { row, left, right })?;
    }
    Ok(())
}

// passes the covers from `next` on that begin before `limit`: where the last of them ends (`before` where none does),
// and how many are passed then
fn pass_before(own: &[Cover], next: usize, before: u128, limit: u128) -> (u128, usize)
    requires within { next ≤ length own.now }
    ensures { ArePassedBefore own.now next before limit result.0 result.1 }
{
    let mut end = before;
    let mut at = next;
    while at < own.len() && own[at].left < limit {
        end = own[at].right;
        at += 1;
    }
    (end, at)
}

/// The gaps of a row, between the covers from above and those of its own cells.
pub(crate) fn row_gaps(
    gaps: &mut Vec<Gap>,
    row: usize,
    covers: &[Cover],
    own: &[Cover],
) -> Result<(), AllocError>
    requires ordered { AreOrdered covers.now }
    requires own { AreOrdered own.now }
    requires apart { All (λ c. All (AreApart c) own.now) covers.now }
    ensures { IfOk result (λ _. AreGapsIn row covers.now own.now gaps.old.items gaps.new.items) }
{
    let mut end: u128 = 0;
    let mut next: usize = 0;
    for cover in covers {
        let (before, passed) = pass_before(own, next, end, cover.left);
        push_gap(gaps, row, before, cover.left)?;
        end = cover.right;
        next = passed;
    }
    Ok(())
}
