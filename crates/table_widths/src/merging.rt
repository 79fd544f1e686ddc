//! Slots of a row in order.
ghost use Rattle.std.specs.Prelude.{◌≡◌, ◌++◌, IfOk, OnOk, drop};
ghost use Rattle.std.specs.List.{prefix_len, take_while};
ghost use Rattle.table_widths.specs.Slots.{begins_before, covered_after, is_shown, merged};

use crate::slot::Slot;
use std::alloc::{AllocError, Global};

// slots that begin before another, from a place on
fn push_before(
    row: &mut Vec<Slot>,
    slot: Slot,
    others: &[Slot],
    from: usize,
) -> Result<usize, AllocError>
    ensures pushed { OnOk result (row.new.items
        ≡ row.old.items ++ take_while (begins_before slot) (drop from others.now)) }
    ensures at { IfOk result (λ n. drop n others.now
        ≡ drop (prefix_len (begins_before slot) (drop from others.now)) (drop from others.now)) }
{
    let mut at = from;
    'others: while at < others.len() && others[at].first < slot.first {
        row.push(others[at])?;
        at += 1;
    }
    Ok(at)
}

/// Slots of a row, and others among them.
pub(crate) fn merged(
    alloc: Global,
    slots: Vec<Slot>,
    others: &[Slot],
) -> Result<Vec<Slot>, AllocError>
    ensures { IfOk result (λ v. v.items ≡ merged slots.items others.now) }
{
    if others.is_empty() {
        return Ok(slots);
    }
    let mut row = Vec::new(alloc);
    let mut from = 0;
    for slot in slots.as_slice() {
        from = push_before(&mut row, *slot, others, from)?;
        row.push(*slot)?;
    }
    'rest: while from < others.len() {
        row.push(others[from])?;
        from += 1;
    }
    Ok(row)
}

/// Whether a row with these slots is shown: it has a cell with a column.
pub fn is_shown(slots: &[Slot]) -> bool
    ensures { result ≡ is_shown slots.now }
{
    slots.iter().any(|slot| slot.is_cell && slot.has_columns())
}

/// Where cells of a row go on into the next.
pub(crate) fn covered_after(alloc: Global, slots: &[Slot]) -> Result<Vec<Slot>, AllocError>
    ensures { IfOk result (λ v. v.items ≡ covered_after slots.now) }
{
    let mut covered = Vec::new(alloc);
    for slot in slots {
        if slot.goes_on() {
            covered.push(slot.covered())?;
        }
    }
    Ok(covered)
}
