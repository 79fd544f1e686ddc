//! Tables, their rows and cells.
ghost use Rattle.std.specs.Prelude.{◌≡◌, ◌⊎◌, Err, IfErr, IfOk, IfSome, List, None, OnOk, Option, false, true};
ghost use Rattle.std.specs.Option.{is_some};
ghost use Rattle.block_renderer.specs.Seen.{has_failed, sub_of};
ghost use Rattle.table_widths.specs.Shares.{AreSized};
ghost use Rattle.layout_tables.specs.Seen.{AreGivenAt, FitColumnsAt, all_fits_seen, fits_at};
ghost use Rattle.layout_state.specs.LayoutState.{Step, in_table, in_turn};
ghost use Rattle.layout_state.specs.Seen.{Comes, Fails, IsWorking, laying_of, made_of, place_of, slots_left};
ghost use Rattle.layout_state.specs.Seen.{widths_seen};
ghost use Rattle.layout_state.specs.declared.place.TablePlace.TheVariants.{Rows};
ghost use Rattle.render_values.specs.declared.node.RenderNode.{RenderNode};
ghost use Rattle.layout_values.specs.Lay.{Content, among_rows, in_its_group, in_its_row, laid, styled};
ghost use Rattle.layout_values.specs.Seen.{IsOpened, NeverOpens, OpensWhere, StandsOutside, WorksOutside, maybe};
ghost use Rattle.layout_values.specs.Seen.{where_entered};
ghost use Rattle.layout_tables.specs.Tables.{cell_ended, fence, is_fenced, row_ended, rows_of, table_ended, table_laid};
ghost use Rattle.layout_tables.specs.Tables.{table_widths, top_border};
ghost use Rattle.block_trait.specs.Renderers.{Marking};
ghost use Rattle.table_widths.specs.Tables.{rows_left, table_seen};
ghost use Rattle.text_pieces.specs.declared.fault.BlockError.TheVariants as errors;

use crate::cells::open_among_cells;
use crate::looking::open_look;
use crate::values::push_some;
use crate::waiting::{Continuation, OpenCell, OpenTable};
use block_trait::Renderer;
use column_fits::ColumnFit;
use layout_state::{LayoutState, SlotsLeft, TablePlace, TableRows};
use layout_tables::{fence, is_fenced, push_name, rows_of, table_widths, top_border};
use render_values::{Head, RenderInfo};
use std::alloc::{AllocError, Global};
use std::mem;
use table_widths::{Table, is_shown};
use text_decorators::TextDecorator;
use text_pieces::BlockError;

// ---- the table

/// A table begins; one without a column is left out.
pub(crate) fn hold_table<D: TextDecorator + Drop>(
    laying: &mut LayoutState<D>,
    alloc: Global,
    table: Table,
    fits: &Option<Vec<Vec<ColumnFit>>>,
    at: usize,
) -> Result<Option<Continuation<D>>, BlockError>
    requires works { IsWorking D.Annotation.seen D.view.held laying.old }
    requires sized { AreSized table.columns.items }
    requires given { AreGivenAt (all_fits_seen fits.now) at }
    requires fit { FitColumnsAt (all_fits_seen fits.now) at table.columns.items }
    ensures opened { IfOk result (λ x. OpensWhere D.Annotation.seen D.view
        (λ m. table_laid m (table_seen table) (fits_at (all_fits_seen fits.now) at)) (is_some x) (maybe x) laying.old
        laying.new) }
    ensures works { OnOk result (IsWorking D.Annotation.seen D.view.held laying.new) }
    ensures ready { IfOk result (λ x. IfSome x WorksOutside) }
    ensures narrow { result ≡ Err errors.TooNarrow → NeverOpens D.Annotation.seen D.view
        (λ m. table_laid m (table_seen table) (fits_at (all_fits_seen fits.now) at)) laying.old }
    ensures kinds { IfErr result (λ e. (e ≡ errors.TooNarrow) ⊎ (e ≡ errors.Memory)) }
{
    if table.columns.is_empty() {
        return Ok(None);
    }
    let options = laying.text.current().options();
    let width = laying.text.current().width();
    let fenced = is_fenced(&options, &laying.table);
    let widths = table_widths(alloc, &options, fits, at, width, table.columns.as_slice())?;
    laying.start_table()?;
    fence(laying, fenced)?;
    top_border(laying, &options, &widths)?;
    let rows = rows_of(alloc, &widths, table);
    let place = mem::replace(
        &mut laying.table,
        TablePlace::Rows(TableRows {
            widths,
            rows,
            fragments: Vec::new(alloc),
        }),
    );
    let waiting = Box::new(alloc, OpenTable { place, fenced })?;
    Ok(Some(Continuation::TableEnds(waiting)))
}

/// A table ends: its fence below it where it has one, and the next value stands where the table does. The error is
/// `TooNarrow` where the definition has no result, else `Memory`.
pub fn end_table<D: TextDecorator + Drop>(
    laying: &mut LayoutState<D>,
    table: Box<OpenTable<D>>,
) -> Result<(), BlockError>
    requires { IsWorking D.Annotation.seen D.view.held laying.old }
    ensures done { OnOk result (Comes D.Annotation.seen D.view (λ m. table_ended m table.value.fenced
        (place_of D.Annotation.seen D.view.held table.value.place)) laying.old laying.new) }
    ensures works { OnOk result (IsWorking D.Annotation.seen D.view.held laying.new) }
    ensures narrow { result ≡ Err errors.TooNarrow → Fails D.Annotation.seen D.view
        (λ m. table_ended m table.value.fenced (place_of D.Annotation.seen D.view.held table.value.place)) laying.old }
    ensures kinds { IfErr result (λ e. (e ≡ errors.TooNarrow) ⊎ (e ≡ errors.Memory)) }
{
    let OpenTable { place, fenced } = Box::into_inner(table);
    laying.table = place;
    fence(laying, fenced)
}

// ---- its rows

/// A group of rows begins.
fn begin_group<D: TextDecorator + Drop>(
    laying: &mut LayoutState<D>,
    head: &Head,
    rows: TableRows,
) -> Result<(), AllocError>
    ensures begun { OnOk result ((m : Marking _ _) (inside : Step _ _) → in_its_group m head.now
        (widths_seen rows.widths) (rows_left rows.rows) rows.fragments.items inside (laying_of D.Annotation.seen
        D.view.held laying.old) ≡ styled m head.now.style inside (laying_of D.Annotation.seen D.view.held laying.new)) }
    ensures works { OnOk result (laying.new.text ≡ laying.old.text) }
{
    let mut rows = rows;
    push_name(&mut rows.fragments, &head.fragment)?;
    laying.table = TablePlace::Rows(rows);
    Ok(())
}

// the same, until it ends
fn open_group<D: TextDecorator + Drop>(
    laying: &mut LayoutState<D>,
    head: &Head,
    rows: TableRows,
    waiting: &mut Vec<Continuation<D>>,
) -> Result<(), BlockError>
    requires { IsWorking D.Annotation.seen D.view.held laying.old }
    ensures opened { (nodes : List RenderNode) → OnOk result (IsOpened D.Annotation.seen D.view 2 nodes true
        (λ m. in_its_group m head.now (widths_seen rows.widths) (rows_left rows.rows) rows.fragments.items)
        waiting.old.items waiting.new.items laying.old laying.new) }
    ensures works { OnOk result (IsWorking D.Annotation.seen D.view.held laying.new) }
    ensures narrow { result ≡ Err errors.TooNarrow → NeverOpens D.Annotation.seen D.view
        (λ m. in_its_group m head.now (widths_seen rows.widths) (rows_left rows.rows) rows.fragments.items) laying.old }
    ensures kinds { IfErr result (λ e. (e ≡ errors.TooNarrow) ⊎ (e ≡ errors.Memory)) }
{
    begin_group(laying, head, rows)?;
    let look = open_look(laying, head.style)?;
    push_some(waiting, look)?;
    Ok(())
}

/// A row begins; whether it is shown.
fn begin_row<D: TextDecorator + Drop>(
    laying: &mut LayoutState<D>,
    alloc: Global,
    head: &Head,
    rows: TableRows,
) -> Result<bool, AllocError>
    ensures begun { IfOk result (λ shown. (m : Marking _ _) (inside : Step _ _) → in_its_row m head.now
        (widths_seen rows.widths) (rows_left rows.rows) rows.fragments.items inside
        (in_table (place_of D.Annotation.seen D.view.held (Rows rows)) (laying_of D.Annotation.seen D.view.held
        laying.old)) ≡ where_entered shown (styled m head.now.style (in_turn inside (row_ended m)))
        (laying_of D.Annotation.seen D.view.held laying.new)) }
    ensures works { OnOk result (laying.new.text ≡ laying.old.text) }
{
    let mut rows = rows;
    let Some(slots) = rows.rows.next_row(alloc)? else {
        laying.table = TablePlace::Rows(rows);
        return Ok(false);
    };
    push_name(&mut rows.fragments, &head.fragment)?;
    if !is_shown(slots.as_slice()) {
        laying.table = TablePlace::Rows(rows);
        return Ok(false);
    }
    laying.table = TablePlace::Cells {
        rows,
        slots: SlotsLeft { slots, next: 0 },
        made: Vec::new(alloc),
    };
    Ok(true)
}

// the same, until it ends
fn open_row<D: TextDecorator + Drop>(
    laying: &mut LayoutState<D>,
    alloc: Global,
    head: &Head,
    rows: TableRows,
    waiting: &mut Vec<Continuation<D>>,
) -> Result<bool, BlockError>
    requires { IsWorking D.Annotation.seen D.view.held laying.old }
    ensures opened { (nodes : List RenderNode) → IfOk result (λ entered. IsOpened D.Annotation.seen D.view 2 nodes
        entered (λ m inside l. in_its_row m head.now (widths_seen rows.widths) (rows_left rows.rows)
        rows.fragments.items inside (in_table (place_of D.Annotation.seen D.view.held (Rows rows)) l))
        waiting.old.items waiting.new.items laying.old laying.new) }
    ensures works { OnOk result (IsWorking D.Annotation.seen D.view.held laying.new) }
    ensures narrow { result ≡ Err errors.TooNarrow → NeverOpens D.Annotation.seen D.view
        (λ m inside l. in_its_row m head.now (widths_seen rows.widths) (rows_left rows.rows) rows.fragments.items
        inside (in_table (place_of D.Annotation.seen D.view.held (Rows rows)) l)) laying.old }
    ensures kinds { IfErr result (λ e. (e ≡ errors.TooNarrow) ⊎ (e ≡ errors.Memory)) }
{
    let shown = begin_row(laying, alloc, head, rows)?;
    if !shown {
        return Ok(false);
    }
    let look = open_look(laying, head.style)?;
    push_some(waiting, look)?;
    waiting.push(Continuation::RowEnds)?;
    Ok(true)
}

// ---- its cells

/// A cell ends: its renderer stands after those of its row, and the renderer outside goes on. The error is allocation
/// failure alone.
pub fn end_cell<D: TextDecorator + Drop>(
    laying: &mut LayoutState<D>,
    alloc: Global,
    cell: Box<OpenCell<D>>,
) -> Result<(), BlockError>
    requires works { IsWorking D.Annotation.seen D.view.held laying.old × (has_failed cell.value.outer ≡ false) }
    ensures done { OnOk result (Comes D.Annotation.seen D.view
        (λ m. cell_ended (sub_of D.Annotation.seen D.view.held cell.value.outer) (widths_seen cell.value.rows.widths)
        (rows_left cell.value.rows.rows) (slots_left cell.value.slots) (made_of D.Annotation.seen D.view.held
        cell.value.made.items) cell.value.taken) laying.old laying.new) }
    ensures works { OnOk result (IsWorking D.Annotation.seen D.view.held laying.new) }
    ensures narrow { result ≡ Err errors.TooNarrow → Fails D.Annotation.seen D.view
        (λ m. cell_ended (sub_of D.Annotation.seen D.view.held cell.value.outer) (widths_seen cell.value.rows.widths)
        (rows_left cell.value.rows.rows) (slots_left cell.value.slots) (made_of D.Annotation.seen D.view.held
        cell.value.made.items) cell.value.taken) laying.old }
    ensures kinds { IfErr result (λ e. (e ≡ errors.TooNarrow) ⊎ (e ≡ errors.Memory)) }
{
    let OpenCell {
        outer,
        rows,
        slots,
        made,
        taken,
    } = Box::into_inner(cell);
    let mut rows = rows;
    let mut made = made;
    let part = laying.text.replace_current(outer);
    made.push((part, taken))?;
    rows.fragments = Vec::new(alloc);
    laying.table = TablePlace::Cells { rows, slots, made };
    Ok(())
}

// A value begins among rows; whether what stands in it is laid out.
fn open_among_rows<D: TextDecorator + Drop>(
    laying: &mut LayoutState<D>,
    alloc: Global,
    head: &Head,
    rows: TableRows,
    waiting: &mut Vec<Continuation<D>>,
) -> Result<bool, BlockError>
    requires { IsWorking D.Annotation.seen D.view.held laying.old }
    ensures opened { (nodes : List RenderNode) → IfOk result (λ entered. IsOpened D.Annotation.seen D.view 2 nodes
        entered (λ m inside l. among_rows m head.now.info head.now (widths_seen rows.widths) (rows_left rows.rows)
        rows.fragments.items inside (in_table (place_of D.Annotation.seen D.view.held (Rows rows)) l))
        waiting.old.items waiting.new.items laying.old laying.new) }
    ensures works { OnOk result (IsWorking D.Annotation.seen D.view.held laying.new) }
    ensures narrow { result ≡ Err errors.TooNarrow → NeverOpens D.Annotation.seen D.view
        (λ m inside l. among_rows m head.now.info head.now (widths_seen rows.widths) (rows_left rows.rows)
        rows.fragments.items inside (in_table (place_of D.Annotation.seen D.view.held (Rows rows)) l)) laying.old }
    ensures kinds { IfErr result (λ e. (e ≡ errors.TooNarrow) ⊎ (e ≡ errors.Memory)) }
{
    match &head.info {
        RenderInfo::TableGroup => {
            open_group(laying, head, rows, waiting)?;
            Ok(true)
        }
        RenderInfo::TableRow => open_row(laying, alloc, head, rows, waiting),
        _ => {
            laying.table = TablePlace::Rows(rows);
            Ok(false)
        }
    }
}

/// A value begins among rows or cells of a table; whether what stands in it is laid out. None outside of them.
pub(crate) fn open_table_part<D: TextDecorator + Drop>(
    laying: &mut LayoutState<D>,
    alloc: Global,
    head: &Head,
    waiting: &mut Vec<Continuation<D>>,
) -> Result<Option<bool>, BlockError>
    requires { IsWorking D.Annotation.seen D.view.held laying.old }
    ensures outside { IfOk result (λ r. r ≡ None → StandsOutside D.Annotation.seen D.view.held head.now laying.old
        laying.new waiting.old.items waiting.new.items) }
    ensures opened { (content : Content) (nodes : List RenderNode) → IfOk result
        (λ r. IfSome r (λ entered. IsOpened D.Annotation.seen D.view 2 nodes entered (λ m. laid m head.now content)
        waiting.old.items waiting.new.items laying.old laying.new)) }
    ensures works { OnOk result (IsWorking D.Annotation.seen D.view.held laying.new) }
    ensures narrow { result ≡ Err errors.TooNarrow → (content : Content) → NeverOpens D.Annotation.seen D.view
        (λ m. laid m head.now content) laying.old }
    ensures kinds { IfErr result (λ e. (e ≡ errors.TooNarrow) ⊎ (e ≡ errors.Memory)) }
{
    match mem::replace(&mut laying.table, TablePlace::Outside { in_cell: true }) {
        TablePlace::Outside { in_cell } => {
            laying.table = TablePlace::Outside { in_cell };
            Ok(None)
        }
        TablePlace::Rows(rows) => Ok(Some(open_among_rows(laying, alloc, head, rows, waiting)?)),
        TablePlace::Cells { rows, slots, made } => Ok(Some(open_among_cells(
            laying, alloc, head, rows, slots, made, waiting,
        )?)),
    }
}
