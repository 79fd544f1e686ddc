//! From one row to the next.
ghost use Rattle.std.specs.Prelude.{◌≡◌, ◌<◌, All, IfOk, length, get_or};
ghost use Rattle.std.specs.List.Sorted.{IsNonDecreasingBy};
ghost use Rattle.table_grid.specs.declared.cell.Cell.{Cell};
ghost use Rattle.table_grid.specs.Ends.{AreEnds, IsUpTo, HasNextCovers};

use crate::cell::{Cell, PlacedCell};
use crate::covers::{Cover, merge_covers};
use crate::ends::{RowEnd, ended_above};
use crate::without::covers_without;
use std::alloc::{AllocError, Global};

/// Lists that are made anew for each row, in the memory of those of the row before.
#[derive(Drop)]
pub(crate) struct Scratch {
    taken: Vec<Cover>,
    ended: Vec<Cover>,
}

impl Scratch {
    pub(crate) fn new(alloc: Global) -> Scratch {
        Scratch {
            taken: Vec::new(alloc),
            ended: Vec::new(alloc),
        }
    }
}

/// What the cells so far take of the next row, by what they take of the last one (`covers` those from above, `own` its
/// own) without those whose row spans end, and how many ends are passed then.
pub(crate) fn next_covers(
    alloc: Global,
    cells: &[Cell],
    ends: &[RowEnd],
    over: usize,
    covers: &[Cover],
    own: &[Cover],
    placed: &[PlacedCell],
    row: usize,
    scratch: Scratch,
) -> Result<(Vec<Cover>, usize, Scratch), AllocError>
    requires rows { IsNonDecreasingBy (λ c. c.row) cells.now }
    requires some { All (λ c. 0 < c.colspan) cells.now }
    requires tall { All (λ c. 0 < c.rowspan) cells.now }
    requires ends { AreEnds cells.now ends.now }
    requires left { length placed.now < length cells.now }
    requires row { (d : Cell) → row ≡ (get_or cells.now (length placed.now) d).row }
    requires state { IsUpTo cells.now ends.now over covers.now own.now placed.now }
    ensures { IfOk result (λ r. HasNextCovers cells.now ends.now r.1 row r.0.items placed.now) }
{
    let Scratch { taken, ended } = scratch;
    let taken = merge_covers(covers, own, taken)?;
    let (ended, passed) = ended_above(ends, over, placed, row as u128, ended)?;
    let above = covers_without(alloc, taken.as_slice(), ended.as_slice())?;
    Ok((above, passed, Scratch { taken, ended }))
}
