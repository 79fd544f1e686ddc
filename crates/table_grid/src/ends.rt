//! Row spans that end.
ghost use Rattle.std.specs.Prelude.{◌^◌, ◌<◌, ◌≤◌, All, IfOk, length};
ghost use Rattle.std.specs.List.Sorted.{IsNonDecreasingBy, IsPermutation};
ghost use Rattle.table_grid.specs.Ends.{AreEnded, AreEnds};
ghost use Rattle.table_grid.specs.Places.{right_of};

use crate::cell::{Cell, PlacedCell};
use crate::covers::Cover;
use std::alloc::{AllocError, Global};

/// Where a cell's row span ends.
#[derive(Clone, Copy)]
pub(crate) struct RowEnd {
    /// Which cell.
    pub(crate) place: usize,
    /// The row after its last one.
    pub(crate) bottom: u128,
}

fn sort_ends(ends: &mut Vec<RowEnd>)
    ensures rising { IsNonDecreasingBy (λ e. e.bottom) ends.new.items }
    ensures moved { IsPermutation ends.old.items ends.new.items }
{
    ends.sort_unstable_by_key(|e| e.bottom);
}

fn sort_covers(covers: &mut Vec<Cover>)
    ensures rising { IsNonDecreasingBy (λ c. c.left) covers.new.items }
    ensures moved { IsPermutation covers.old.items covers.new.items }
{
    covers.sort_unstable_by_key(|c| c.left);
}

/// The ends of the cells, in the order of rows.
pub(crate) fn ends_of(alloc: Global, cells: &[Cell]) -> Result<Vec<RowEnd>, AllocError>
    ensures { IfOk result (λ v. AreEnds cells.now v.items) }
{
    let mut ends = Vec::new(alloc);
    for place in 0..cells.len() {
        let cell = cells[place];
        ends.push(RowEnd {
            place,
            bottom: cell.row as u128 + cell.rowspan as u128,
        })?;
    }
    sort_ends(&mut ends);
    Ok(ends)
}

/// What the cells take whose row spans end at `row` or above, of the ends from `over` on, in the memory of `ended`, and
/// how many ends are passed then.
pub(crate) fn ended_above(
    ends: &[RowEnd],
    over: usize,
    placed: &[PlacedCell],
    row: u128,
    ended: Vec<Cover>,
) -> Result<(Vec<Cover>, usize), AllocError>
    requires within { over ≤ length ends.now }
    requires placed { All (λ e. e.bottom ≤ row → e.place < length placed.now) ends.now }
    requires small { All (λ p. right_of p < 2 ^ 128) placed.now }
    ensures { IfOk result (λ r. AreEnded ends.now over r.1 placed.now row r.0.items) }
{
    let mut ended = ended;
    ended.clear();
    let mut at = over;
    while at < ends.len() && ends[at].bottom <= row {
        ended.push(placed[ends[at].place].cover())?;
        at += 1;
    }
    sort_covers(&mut ended);
    Ok((ended, at))
}
