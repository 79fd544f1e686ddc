//! Cells of tables.
ghost use Rattle.std.specs.Prelude.{◌≡◌, ◌⊎◌, Err, IfErr, IfOk, IfSome, List, OnOk, false};
ghost use Rattle.std.specs.Option.{is_some};
ghost use Rattle.layout_state.specs.LayoutState.{in_table};
ghost use Rattle.layout_state.specs.Seen.{IsWorking, made_of, place_of, slots_left, widths_seen};
ghost use Rattle.layout_state.specs.declared.place.TablePlace.TheVariants.{Cells};
ghost use Rattle.render_values.specs.declared.node.RenderNode.{RenderNode};
ghost use Rattle.layout_values.specs.Lay.{among_cells, in_its_slot};
ghost use Rattle.layout_values.specs.Seen.{IsOpened, NeverOpens, OpensWhere, WorksOutside, maybe};
ghost use Rattle.layout_tables.specs.Tables.{cell_laid, in_slot};
ghost use Rattle.table_widths.specs.Tables.{rows_left};
ghost use Rattle.text_pieces.specs.declared.fault.BlockError.TheVariants as errors;

use crate::looking::open_look;
use crate::values::push_some;
use crate::waiting::{Continuation, OpenCell};
use block_renderer::SubRenderer;
use block_trait::Renderer;
use layout_state::{LayoutState, SlotsLeft, TablePlace, TableRows};
use layout_tables::{begin_cell, push_empties, slot_width};
use render_values::{Head, RenderInfo};
use std::alloc::Global;
use std::mem;
use text_decorators::TextDecorator;
use text_pieces::BlockError;

// A cell begins in the first of the slots that are left, where it has a column.
fn open_slot<D: TextDecorator + Drop>(
    laying: &mut LayoutState<D>,
    alloc: Global,
    rows: TableRows,
    slots: SlotsLeft,
    made: Vec<(SubRenderer<D>, usize)>,
) -> Result<Option<Continuation<D>>, BlockError>
    requires { IsWorking D.Annotation.seen D.view.held laying.old }
    ensures opened { IfOk result (λ x. OpensWhere D.Annotation.seen D.view (λ m. in_slot m (widths_seen rows.widths)
        (rows_left rows.rows) rows.fragments.items (slots_left slots) (made_of D.Annotation.seen D.view.held
        made.items)) (is_some x) (maybe x) laying.old laying.new) }
    ensures works { OnOk result (IsWorking D.Annotation.seen D.view.held laying.new) }
    ensures ready { IfOk result (λ x. IfSome x WorksOutside) }
    ensures narrow { result ≡ Err errors.TooNarrow → NeverOpens D.Annotation.seen D.view
        (λ m. in_slot m (widths_seen rows.widths) (rows_left rows.rows) rows.fragments.items (slots_left slots)
        (made_of D.Annotation.seen D.view.held made.items)) laying.old }
    ensures kinds { IfErr result (λ e. (e ≡ errors.TooNarrow) ⊎ (e ≡ errors.Memory)) }
{
    let mut rows = rows;
    let mut slots = slots;
    let fragments = mem::replace(&mut rows.fragments, Vec::new(alloc));
    if slots.next >= slots.slots.len() {
        laying.table = TablePlace::Cells { rows, slots, made };
        return Ok(None);
    }
    let slot = slots.slots[slots.next];
    slots.next += 1;
    if !slot.has_columns() {
        laying.table = TablePlace::Cells { rows, slots, made };
        return Ok(None);
    }
    let width = slot_width(&rows.widths, laying.text.current().width(), slot);
    let outer = begin_cell(laying, width, fragments.as_slice())?;
    let cell = Box::new(
        alloc,
        OpenCell {
            outer,
            rows,
            slots,
            made,
            taken: slot.rows,
        },
    )?;
    Ok(Some(Continuation::CellEnds(cell)))
}

/// A cell begins after the empty slots before it; none where it has no column.
fn open_cell<D: TextDecorator + Drop>(
    laying: &mut LayoutState<D>,
    alloc: Global,
    rows: TableRows,
    slots: SlotsLeft,
    made: Vec<(SubRenderer<D>, usize)>,
) -> Result<Option<Continuation<D>>, BlockError>
    requires { IsWorking D.Annotation.seen D.view.held laying.old }
    ensures opened { IfOk result (λ x. OpensWhere D.Annotation.seen D.view (λ m. cell_laid m (widths_seen rows.widths)
        (rows_left rows.rows) rows.fragments.items (slots_left slots) (made_of D.Annotation.seen D.view.held
        made.items)) (is_some x) (maybe x) laying.old laying.new) }
    ensures works { OnOk result (IsWorking D.Annotation.seen D.view.held laying.new) }
    ensures ready { IfOk result (λ x. IfSome x WorksOutside) }
    ensures narrow { result ≡ Err errors.TooNarrow → NeverOpens D.Annotation.seen D.view
        (λ m. cell_laid m (widths_seen rows.widths) (rows_left rows.rows) rows.fragments.items (slots_left slots)
        (made_of D.Annotation.seen D.view.held made.items)) laying.old }
    ensures kinds { IfErr result (λ e. (e ≡ errors.TooNarrow) ⊎ (e ≡ errors.Memory)) }
{
    let mut slots = slots;
    let mut made = made;
    push_empties(laying, &rows.widths, &mut slots, &mut made)?;
    open_slot(laying, alloc, rows, slots, made)
}

// A cell begins, until it ends; whether what stands in it is laid out.
fn open_in_slot<D: TextDecorator + Drop>(
    laying: &mut LayoutState<D>,
    alloc: Global,
    head: &Head,
    rows: TableRows,
    slots: SlotsLeft,
    made: Vec<(SubRenderer<D>, usize)>,
    waiting: &mut Vec<Continuation<D>>,
) -> Result<bool, BlockError>
    requires { IsWorking D.Annotation.seen D.view.held laying.old }
    ensures opened { (nodes : List RenderNode) → IfOk result (λ entered. IsOpened D.Annotation.seen D.view 2 nodes
        entered (λ m. in_its_slot m head.now (place_of D.Annotation.seen D.view.held (Cells rows slots made)))
        waiting.old.items waiting.new.items laying.old laying.new) }
    ensures works { OnOk result (IsWorking D.Annotation.seen D.view.held laying.new) }
    ensures narrow { result ≡ Err errors.TooNarrow → NeverOpens D.Annotation.seen D.view
        (λ m. in_its_slot m head.now (place_of D.Annotation.seen D.view.held (Cells rows slots made))) laying.old }
    ensures kinds { IfErr result (λ e. (e ≡ errors.TooNarrow) ⊎ (e ≡ errors.Memory)) }
{
    let cell = open_cell(laying, alloc, rows, slots, made)?;
    let entered = cell.is_some();
    push_some(waiting, cell)?;
    if !entered {
        return Ok(false);
    }
    let look = open_look(laying, head.style)?;
    push_some(waiting, look)?;
    laying.mark(&head.fragment)?;
    Ok(true)
}

/// A value begins among cells; whether what stands in it is laid out.
pub(crate) fn open_among_cells<D: TextDecorator + Drop>(
    laying: &mut LayoutState<D>,
    alloc: Global,
    head: &Head,
    rows: TableRows,
    slots: SlotsLeft,
    made: Vec<(SubRenderer<D>, usize)>,
    waiting: &mut Vec<Continuation<D>>,
) -> Result<bool, BlockError>
    requires { IsWorking D.Annotation.seen D.view.held laying.old }
    ensures opened { (nodes : List RenderNode) → IfOk result (λ entered. IsOpened D.Annotation.seen D.view 2 nodes
        entered (λ m inside l. among_cells m head.now.info head.now (place_of D.Annotation.seen D.view.held
        (Cells rows slots made)) inside (in_table (place_of D.Annotation.seen D.view.held (Cells rows slots made)) l))
        waiting.old.items waiting.new.items laying.old laying.new) }
    ensures works { OnOk result (IsWorking D.Annotation.seen D.view.held laying.new) }
    ensures narrow { result ≡ Err errors.TooNarrow → NeverOpens D.Annotation.seen D.view
        (λ m inside l. among_cells m head.now.info head.now (place_of D.Annotation.seen D.view.held
        (Cells rows slots made)) inside (in_table (place_of D.Annotation.seen D.view.held (Cells rows slots made)) l))
        laying.old }
    ensures kinds { IfErr result (λ e. (e ≡ errors.TooNarrow) ⊎ (e ≡ errors.Memory)) }
{
    match &head.info {
        RenderInfo::TableCell { .. } => {
            open_in_slot(laying, alloc, head, rows, slots, made, waiting)
        }
        _ => {
            laying.table = TablePlace::Cells { rows, slots, made };
            Ok(false)
        }
    }
}
