//! The walk along a row.
ghost use Rattle.std.specs.Prelude.{◌+◌, ◌^◌, ◌<◌, All, IfOk};
ghost use Rattle.table_grid.specs.Covers.{AreOrdered, ArePassed, IsAfterRow, IsBetweenRows, IsFirstFree};

use crate::cell::{Cell, PlacedCell};
use crate::covers::Cover;
use std::alloc::AllocError;

// where a cell stands, and how many covers end there or before
fn place(covers: &[Cover], passed: usize, trailing: u128, span: u128) -> (u128, usize)
    requires ordered { AreOrdered covers.now }
    requires passed { ArePassed covers.now passed trailing }
    requires some { 0 < span }
    requires small { trailing + span < 2 ^ 128 }
    requires small_covers { All (λ c. c.right + span < 2 ^ 128) covers.now }
    ensures place { IsFirstFree covers.now trailing span result.0 }
    ensures passed { ArePassed covers.now result.1 result.0 }
{
    let mut at = passed;
    let mut start = trailing;
    while at < covers.len() && covers[at].left < start + span {
        start = start.max(covers[at].right);
        at += 1;
    }
    (start, at)
}

/// Places the cells of the next row, and gives what they cover, in the memory of `own`.
pub(crate) fn place_row(
    cells: &[Cell],
    row: usize,
    covers: &[Cover],
    placed: &mut Vec<PlacedCell>,
    own: Vec<Cover>,
) -> Result<Vec<Cover>, AllocError>
    requires start { IsBetweenRows cells.now row covers.now placed.old.items }
    requires some { All (λ c. 0 < c.colspan) cells.now }
    requires tall { All (λ c. 0 < c.rowspan) cells.now }
    ensures { IfOk result (λ own. IsAfterRow cells.now row covers.now own.items placed.old.items
        placed.new.items) }
{
    let mut own = own;
    own.clear();
    let mut passed: usize = 0;
    let mut trailing: u128 = 0;
    while placed.len() < cells.len() && cells[placed.len()].row == row {
        let cell = cells[placed.len()];
        let (left, next) = place(covers, passed, trailing, cell.colspan as u128);
        let here = PlacedCell { cell, left };
        placed.push(here)?;
        own.push(here.cover())?;
        trailing = left + cell.colspan as u128;
        passed = next;
    }
    Ok(own)
}
