//! The rows of a table that are still to come.
ghost use Rattle.std.specs.Prelude.{◌≡◌, [], ◌∷◌, ◌<◌, IfOk, drop, if◌then◌else◌, length};
ghost use Rattle.table_widths.specs.Slots.{across};
ghost use Rattle.table_widths.specs.Tables.{IsNext, rows_left, rows_seen};

use crate::merging::{covered_after, is_shown, merged};
use crate::slot::Slot;
use std::alloc::{AllocError, Global};

/// The rows of a table that are still to come.
#[derive(Debug, Drop)]
pub struct RowsLeft {
    rows: Vec<Vec<Slot>>,
    next: usize,
    // whether cells stand beside one another
    is_across: bool,
    // where cells of the rows before go on
    above: Vec<Slot>,
}

impl RowsLeft {
    pub(crate) fn new(alloc: Global, rows: Vec<Vec<Slot>>, is_across: bool) -> RowsLeft
        ensures { rows_left result ≡ (if is_across then across [] (rows_seen rows.items) else rows_seen rows.items) }
    {
        RowsLeft {
            rows,
            next: 0,
            is_across,
            above: Vec::new(alloc),
        }
    }

    // the slots of the next row, as the table has them
    fn take_row(&mut self, alloc: Global) -> Vec<Slot>
        requires { self.old.next < length self.old.rows.items }
        ensures row { rows_seen (drop self.old.next self.old.rows.items)
            ≡ result.items ∷ rows_seen (drop self.new.next self.new.rows.items) }
        ensures stays { self.new.is_across ≡ self.old.is_across }
        ensures above { self.new.above ≡ self.old.above }
    {
        let at = self.next;
        self.next += 1;
        std::mem::replace(&mut self.rows[at], Vec::new(alloc))
    }

    /// The slots of the next row, if there is one. The error is allocation failure alone.
    pub fn next_row(&mut self, alloc: Global) -> Result<Option<Vec<Slot>>, AllocError>
        ensures { IfOk result (λ row. IsNext row (rows_left self.old) (rows_left self.new)) }
    {
        if self.next >= self.rows.len() {
            return Ok(None);
        }
        let slots = self.take_row(alloc);
        if !self.is_across || !is_shown(slots.as_slice()) {
            return Ok(Some(slots));
        }
        let row = merged(alloc, slots, self.above.as_slice())?;
        self.above = covered_after(alloc, row.as_slice())?;
        Ok(Some(row))
    }
}
