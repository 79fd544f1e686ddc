//! The slots of a row, and the renderers that stand in them.
ghost use Rattle.std.specs.Prelude.{◌≡◌, ◌++◌, ◌∷◌, [], IfErr, IfOk, OnOk, filter, map};
ghost use Rattle.block_renderer.specs.Seen.{marking, sub_of};
ghost use Rattle.layout_state.specs.Seen.{IsWorking, laying_of, made_of, slots_left, widths_seen};
ghost use Rattle.layout_tables.specs.Tables.{empties_before, empty_slots, from_cell, renderer_of, separated};
ghost use Rattle.layout_tables.specs.Tables.{slot_width};
ghost use Rattle.table_widths.specs.Slots.{has_columns};
ghost use Rattle.text_pieces.specs.declared.fault.BlockError.TheVariants as errors;

use block_renderer::SubRenderer;
use block_trait::Renderer;
use layout_state::{LayoutState, SlotsLeft};
use std::alloc::{AllocError, Global};
use table_widths::Slot;
use text_decorators::TextDecorator;
use text_pieces::BlockError;

/// Columns of these widths, with a separator between neighbours.
pub(crate) fn separated(widths: &[usize]) -> usize
    ensures { result ≡ separated widths.now }
{
    let mut columns = widths.len().saturating_sub(1);
    'widths: for width in widths {
        columns = columns.saturating_add(*width);
    }
    columns
}

/// The columns of text that a slot takes.
pub fn slot_width(widths: &Option<Vec<usize>>, whole: usize, slot: Slot) -> usize
    ensures { result ≡ slot_width (widths_seen widths.now) whole slot }
{
    match widths {
        None => whole,
        Some(widths) => {
            let from = slot.first.min(widths.len());
            let to = slot.last.min(widths.len()).max(from);
            separated(&widths[from..to])
        }
    }
}

// an empty renderer stands in a slot
fn push_empty<D: TextDecorator + Drop>(
    laying: &mut LayoutState<D>,
    widths: &Option<Vec<usize>>,
    slot: Slot,
    made: &mut Vec<(SubRenderer<D>, usize)>,
) -> Result<(), BlockError>
    requires { IsWorking D.Annotation.seen D.view.held laying.old }
    ensures made { OnOk result ((tag : _) → made_of D.Annotation.seen D.view.held made.new.items ≡ made_of
        D.Annotation.seen D.view.held made.old.items ++ empty_slots (marking D.view tag) (widths_seen widths.now)
        (laying_of D.Annotation.seen D.view.held laying.old).parts.current (slot ∷ [])) }
    ensures stays { OnOk result (laying_of D.Annotation.seen D.view.held laying.new ≡ laying_of D.Annotation.seen
        D.view.held laying.old) }
    ensures works { OnOk result (IsWorking D.Annotation.seen D.view.held laying.new) }
    ensures kinds { IfErr result (λ e. e ≡ errors.Memory) }
{
    let width = slot_width(widths, laying.text.current().width(), slot);
    let part = laying.text.current_mut().new_part_renderer(width)?;
    made.push((part, 1))?;
    Ok(())
}

// so one does where the slot has a column
fn push_kept<D: TextDecorator + Drop>(
    laying: &mut LayoutState<D>,
    widths: &Option<Vec<usize>>,
    slot: Slot,
    made: &mut Vec<(SubRenderer<D>, usize)>,
) -> Result<(), BlockError>
    requires { IsWorking D.Annotation.seen D.view.held laying.old }
    ensures made { OnOk result ((tag : _) → made_of D.Annotation.seen D.view.held made.new.items ≡ made_of
        D.Annotation.seen D.view.held made.old.items ++ empty_slots (marking D.view tag) (widths_seen widths.now)
        (laying_of D.Annotation.seen D.view.held laying.old).parts.current (filter has_columns (slot ∷ []))) }
    ensures stays { OnOk result (laying_of D.Annotation.seen D.view.held laying.new ≡ laying_of D.Annotation.seen
        D.view.held laying.old) }
    ensures works { OnOk result (IsWorking D.Annotation.seen D.view.held laying.new) }
    ensures kinds { IfErr result (λ e. e ≡ errors.Memory) }
{
    if slot.has_columns() {
        return push_empty(laying, widths, slot, made);
    }
    Ok(())
}

/// Empty renderers stand in all slots with columns that are left of a row.
pub(crate) fn push_rest<D: TextDecorator + Drop>(
    laying: &mut LayoutState<D>,
    widths: &Option<Vec<usize>>,
    slots: &SlotsLeft,
    made: &mut Vec<(SubRenderer<D>, usize)>,
) -> Result<(), BlockError>
    requires { IsWorking D.Annotation.seen D.view.held laying.old }
    ensures made { OnOk result ((tag : _) → made_of D.Annotation.seen D.view.held made.new.items ≡ made_of
        D.Annotation.seen D.view.held made.old.items ++ empty_slots (marking D.view tag) (widths_seen widths.now)
        (laying_of D.Annotation.seen D.view.held laying.old).parts.current
        (filter has_columns (slots_left slots.now))) }
    ensures stays { OnOk result (laying_of D.Annotation.seen D.view.held laying.new ≡ laying_of D.Annotation.seen
        D.view.held laying.old) }
    ensures works { OnOk result (IsWorking D.Annotation.seen D.view.held laying.new) }
    ensures kinds { IfErr result (λ e. e ≡ errors.Memory) }
{
    let mut at = slots.next;
    'slots: while at < slots.slots.len() {
        push_kept(laying, widths, slots.slots[at], made)?;
        at += 1;
    }
    Ok(())
}

/// Empty renderers stand in the slots before the next cell, which are taken. The error is allocation failure.
pub fn push_empties<D: TextDecorator + Drop>(
    laying: &mut LayoutState<D>,
    widths: &Option<Vec<usize>>,
    slots: &mut SlotsLeft,
    made: &mut Vec<(SubRenderer<D>, usize)>,
) -> Result<(), BlockError>
    requires { IsWorking D.Annotation.seen D.view.held laying.old }
    ensures made { OnOk result ((tag : _) → made_of D.Annotation.seen D.view.held made.new.items ≡ made_of
        D.Annotation.seen D.view.held made.old.items ++ empty_slots (marking D.view tag) (widths_seen widths.now)
        (laying_of D.Annotation.seen D.view.held laying.old).parts.current (empties_before (slots_left slots.old))) }
    ensures left { OnOk result (slots_left slots.new ≡ from_cell (slots_left slots.old)) }
    ensures stays { OnOk result (laying_of D.Annotation.seen D.view.held laying.new ≡ laying_of D.Annotation.seen
        D.view.held laying.old) }
    ensures works { OnOk result (IsWorking D.Annotation.seen D.view.held laying.new) }
    ensures kinds { IfErr result (λ e. e ≡ errors.Memory) }
{
    'slots: while slots.next < slots.slots.len() && !slots.slots[slots.next].is_cell {
        push_empty(laying, widths, slots.slots[slots.next], made)?;
        slots.next += 1;
    }
    Ok(())
}

/// The renderers alone.
pub(crate) fn renderers_of<D: TextDecorator + Drop>(
    alloc: Global,
    made: Vec<(SubRenderer<D>, usize)>,
) -> Result<Vec<SubRenderer<D>>, AllocError>
    ensures { IfOk result (λ renderers. map (sub_of D.Annotation.seen D.view.held) renderers.items ≡ map renderer_of
        (made_of D.Annotation.seen D.view.held made.items)) }
{
    let mut renderers = Vec::new(alloc);
    'made: for (renderer, _) in made {
        renderers.push(renderer)?;
    }
    Ok(renderers)
}
