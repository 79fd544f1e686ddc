//! Where a value begins and where it ends.
ghost use Rattle.std.specs.Prelude.{◌≡◌, ◌≤◌, ◌<◌, false, true, IfOk, List, OnOk, Option, Some, length};
ghost use Rattle.block_trait.specs.declared.options.RenderOptions.{RenderOptions as SeenOptions};
ghost use Rattle.content_widths.specs.Flows.{FlowItem};
ghost use Rattle.render_sizes.specs.Extents.{Measure};
ghost use Rattle.render_sizes.specs.Sound.{AreCells};
ghost use Rattle.table_grid.specs.TheGrid.{grid};
ghost use Rattle.table_fits.specs.Flowing.{after_prefix, fitting, standing, standing_flow, table_flow, widths_of};
ghost use Rattle.content_widths.specs.Reading.{Measures};
ghost use Rattle.table_fits.specs.Pass.{State, TableRead, added, closes, fits_read, flow_ended, inside_flow};
ghost use Rattle.table_fits.specs.Pass.{is_along, is_own, opens};
ghost use Rattle.table_fits.specs.Pass.{own_ended, own_flow, rows_begun, table_begun, table_ended, with_cell};
ghost use Rattle.table_fits.specs.Seen.{FlowIs, IsKept, IsPassing, table_seen};
ghost use Rattle.table_fits.specs.TableFits.{fits_in_grid, in_grid};
ghost use Rattle.table_fits.specs.declared.standing.Standing.TheVariants as stands_in;

use crate::reading::{OpenTable, Reading, add_block, lead, no_columns, trail};
use crate::standing::{
    Around, Standing, is_along, is_own, mode_in, prefix_of, rows_emitted, standing_of,
};
use block_trait::RenderOptions;
use column_fits::{CellWidths, ColumnFit, asked_by_fits, fits_of};
use content_widths::{ContentWidths, FlowWidths};
use render_sizes::{Extent, Prefixes};
use render_values::{Head, RenderInfo};
use std::alloc::{AllocError, Global};
use std::mem;
use table_grid::{Cell, GridCell, grid_of};

/// What is kept of what was around a value, until it ends.
#[derive(Drop)]
pub(crate) struct Kept {
    /// The flow, where the value has one of its own.
    pub(crate) flow: Option<FlowWidths>,
    /// The table, where the value is one.
    pub(crate) table: OpenTable,
}

// ---- a value begins

// the flow in a value that has one of its own; that around it is given back
fn begin_flow(
    flow: &mut Option<FlowWidths>,
    options: &RenderOptions,
    stands: Standing,
    own: bool,
) -> Option<FlowWidths>
    ensures now { (items : Option (List FlowItem)) → FlowIs options.now flow.old items
        → FlowIs options.now flow.new (own_flow stands own items) }
    ensures kept { (items : Option (List FlowItem)) → FlowIs options.now flow.old items → own ≡ true
        → FlowIs options.now result items }
{
    if !own {
        return None;
    }
    let is_measured = match stands {
        Standing::Cell => true,
        _ => flow.is_some(),
    };
    if is_measured {
        return mem::replace(flow, Some(FlowWidths::new(options.wrap_width)));
    }
    None
}

fn begin_table(table: &mut OpenTable, alloc: Global, stands: Standing) -> OpenTable
    ensures now { table_seen table.new ≡ table_begun stands (table_seen table.old) }
    ensures kept { stands ≡ stands_in.Table → table_seen result ≡ table_seen table.old }
{
    match stands {
        Standing::Table => mem::replace(table, OpenTable::new(alloc)),
        _ => OpenTable::new(alloc),
    }
}

fn begin_row(table: &mut OpenTable, among_rows: bool, info: &RenderInfo, passed: usize)
    requires { table.old.rows < passed }
    ensures { table_seen table.new ≡ rows_begun among_rows info.now (table_seen table.old) }
{
    if among_rows {
        prove!(table.rows < passed);
        table.rows += rows_emitted(info);
    }
}

/// A value begins: what is kept of what was around it. The error is allocation failure alone.
pub(crate) fn begin(
    reading: &mut Reading,
    alloc: Global,
    options: &RenderOptions,
    around: Around,
    head: &Head,
) -> Result<Kept, AllocError>
    requires { reading.old.table.rows ≤ length reading.old.fits.items }
    ensures passes { (s : State) (w : Measure) → IsPassing options.now reading.old s
        → OnOk result (IsPassing options.now reading.new (opens (fitting options.now w) around head.now s)) }
    ensures kept { (s : State) → IsPassing options.now reading.old s
        → IfOk result (λ kept. IsKept options.now around (standing head.now.info) kept s) }
{
    let stands = standing_of(&head.info);
    reading.fits.push(Vec::new(alloc))?;
    let table = begin_table(&mut reading.table, alloc, stands);
    let passed = reading.fits.len();
    begin_row(&mut reading.table, around.among_rows, &head.info, passed);
    let own = is_own(around.prefix, stands);
    let flow = begin_flow(&mut reading.flow, options, stands, own);
    let mode = mode_in(around.mode, head);
    lead(&mut reading.flow, options, mode, &head.info);
    Ok(Kept { flow, table })
}

// ---- a value ends

fn in_grid(
    alloc: Global,
    cells: &[GridCell],
    widths: &[ContentWidths],
) -> Result<Vec<CellWidths>, AllocError>
    ensures { IfOk result (λ v. v.items ≡ in_grid cells.now widths.now) }
{
    let mut placed = Vec::with_capacity(alloc, cells.len())?;
    let mut rest = cells;
    let mut left = widths;
    'cells: while let Some((cell, others)) = rest.split_first() {
        let Some((asked, more)) = left.split_first() else {
            return Ok(placed);
        };
        placed.push(CellWidths {
            first: cell.first,
            last: cell.last,
            narrowest: asked.narrowest,
            widest: asked.widest,
        })?;
        rest = others;
        left = more;
    }
    Ok(placed)
}

// what the columns of a table ask for that was read
fn fits_of_table(alloc: Global, table: &OpenTable) -> Result<Vec<ColumnFit>, AllocError>
    requires { AreCells 1 table.now.rows table.now.cells.items }
    ensures { IfOk result (λ fits. fits.items
        ≡ fits_in_grid (grid table.now.cells.items) table.now.widths.items) }
{
    let grid = grid_of(alloc, table.cells.as_slice())?;
    let cells = in_grid(alloc, grid.cells.as_slice(), table.widths.as_slice())?;
    fits_of(alloc, grid.columns.as_slice(), cells.as_slice())
}

fn fits_read(
    alloc: Global,
    stands: Standing,
    table: &OpenTable,
) -> Result<Vec<ColumnFit>, AllocError>
    requires { AreCells 1 table.now.rows table.now.cells.items }
    ensures { IfOk result (λ fits. fits.items ≡ fits_read stands (table_seen table.now)) }
{
    match stands {
        Standing::Table => fits_of_table(alloc, table),
        _ => Ok(Vec::new(alloc)),
    }
}

// what the flow in a value asks for, and nothing where it isn't measured
fn widths_inside(flow: &Option<FlowWidths>) -> ContentWidths
    ensures { (options : SeenOptions) (items : Option (List FlowItem)) → FlowIs options flow.now items
        → result ≡ widths_of options (inside_flow items) }
{
    match flow {
        Some(flow) => flow.widths(),
        None => no_columns(),
    }
}

fn end_cell(
    table: &mut OpenTable,
    among_rows: bool,
    info: &RenderInfo,
    extent: Extent,
    widths: ContentWidths,
) -> Result<(), AllocError>
    ensures { OnOk result (table_seen table.new ≡ with_cell among_rows info.now extent widths (table_seen table.old)) }
{
    if !among_rows || table.rows == 0 {
        return Ok(());
    }
    if let RenderInfo::TableCell { columns, rows } = info {
        table.cells.push(Cell {
            row: table.rows,
            colspan: (*columns).max(1),
            rowspan: (*rows).max(1),
            size: extent.size,
            least: extent.least,
        })?;
        table.widths.push(widths)?;
    }
    Ok(())
}

// the table around goes on, where it was `outer` before the value
fn end_table(
    table: &mut OpenTable,
    around: Around,
    stands: Standing,
    info: &RenderInfo,
    extent: Extent,
    inside: ContentWidths,
    outer: OpenTable,
) -> Result<(), AllocError>
    ensures { (options : SeenOptions) (before : TableRead) (within : List FlowItem)
        → inside ≡ widths_of options within → (stands ≡ stands_in.Table → table_seen outer ≡ before)
        → OnOk result (table_seen table.new
        ≡ table_ended options around stands info.now extent before within (table_seen table.old)) }
{
    match stands {
        Standing::Table => {
            *table = outer;
            Ok(())
        }
        Standing::Cell => end_cell(table, around.among_rows, info, extent, inside),
        _ => Ok(()),
    }
}

// after a prefix that takes `columns` columns
fn after_prefix(columns: usize, inside: ContentWidths) -> ContentWidths
    ensures { result ≡ after_prefix columns inside }
{
    ContentWidths {
        narrowest: inside.narrowest.max(1).saturating_add(columns),
        widest: inside.widest.max(1).saturating_add(columns),
    }
}

fn inside_or_new(inside: Option<FlowWidths>, options: &RenderOptions) -> FlowWidths
    ensures { (items : Option (List FlowItem)) → FlowIs options.now inside items
        → Measures result options.now.wrap_width (inside_flow items) }
{
    match inside {
        Some(flow) => flow,
        None => FlowWidths::new(options.wrap_width),
    }
}

fn add_table(flow: &mut Option<FlowWidths>, fits: &[ColumnFit])
    ensures { (options : SeenOptions) (items : Option (List FlowItem)) → FlowIs options flow.old items
        → FlowIs options flow.new (added (table_flow fits.now) items) }
{
    if fits.is_empty() {
        return;
    }
    let asked = asked_by_fits(fits);
    let widths = ContentWidths {
        narrowest: asked.low,
        widest: asked.high,
    };
    add_block(flow, widths);
}

// What a value that has a flow of its own adds to the one around it, if there is one.
fn stand<P: Prefixes>(
    flow: &mut Option<FlowWidths>,
    prefixes: &P,
    info: &RenderInfo,
    stands: Standing,
    inside: ContentWidths,
    fits: &[ColumnFit],
) -> Result<(), AllocError>
    ensures { (options : SeenOptions) (w : Measure) (items : Option (List FlowItem)) (within : List FlowItem)
        → w.prefixes ≡ P.columns prefixes.now → is_along stands ≡ false → inside ≡ widths_of options within
        → FlowIs options flow.old items → OnOk result (FlowIs options flow.new
        (added (standing_flow (fitting options w) info.now stands within fits.now) items)) }
{
    match stands {
        Standing::AfterPrefix => {
            let columns = prefix_of(prefixes, info)?;
            add_block(flow, after_prefix(columns, inside));
            Ok(())
        }
        Standing::Table => {
            add_table(flow, fits);
            Ok(())
        }
        _ => Ok(()),
    }
}

// the flow of an item of a list
fn item_flow<P: Prefixes>(
    inside: FlowWidths,
    options: &RenderOptions,
    prefixes: &P,
    info: &RenderInfo,
    stands: Standing,
    fits: &[ColumnFit],
) -> Result<Option<FlowWidths>, AllocError>
    ensures { (w : Measure) (within : List FlowItem) → w.prefixes ≡ P.columns prefixes.now
        → Measures inside options.now.wrap_width within → IfOk result (λ flow. FlowIs options.now flow
        (Some (standing_flow (fitting options.now w) info.now stands within fits.now))) }
{
    if is_along(stands) {
        return Ok(Some(inside));
    }
    let mut flow = Some(FlowWidths::new(options.wrap_width));
    stand(&mut flow, prefixes, info, stands, inside.widths(), fits)?;
    Ok(flow)
}

// A value that has a flow of its own ends: that around it goes on.
fn end_own<P: Prefixes>(
    flow: &mut Option<FlowWidths>,
    options: &RenderOptions,
    prefixes: &P,
    around: Around,
    head: &Head,
    fits: &[ColumnFit],
    inside: FlowWidths,
) -> Result<(), AllocError>
    ensures { (w : Measure) (items : Option (List FlowItem)) (within : List FlowItem)
        → w.prefixes ≡ P.columns prefixes.now → is_own around.prefix (standing head.now.info) ≡ true
        → Measures inside options.now.wrap_width within → FlowIs options.now flow.old items
        → OnOk result (FlowIs options.now flow.new
        (added (own_ended (fitting options.now w) around head.now fits.now within) items)) }
{
    let stands = standing_of(&head.info);
    let mode = mode_in(around.mode, head);
    match around.prefix {
        Some(columns) => {
            let mut item = item_flow(inside, options, prefixes, &head.info, stands, fits)?;
            trail(&mut item, options, mode, &head.info);
            add_block(flow, after_prefix(columns, widths_inside(&item)));
            Ok(())
        }
        None => {
            stand(flow, prefixes, &head.info, stands, inside.widths(), fits)?;
            trail(flow, options, mode, &head.info);
            Ok(())
        }
    }
}

fn end_flow<P: Prefixes>(
    flow: &mut Option<FlowWidths>,
    options: &RenderOptions,
    prefixes: &P,
    around: Around,
    head: &Head,
    fits: &[ColumnFit],
    outer: Option<FlowWidths>,
) -> Result<(), AllocError>
    ensures { (w : Measure) (items before : Option (List FlowItem)) → w.prefixes ≡ P.columns prefixes.now
        → FlowIs options.now flow.old items
        → (is_own around.prefix (standing head.now.info) ≡ true → FlowIs options.now outer before)
        → OnOk result (FlowIs options.now flow.new (flow_ended (fitting options.now w) around head.now
        (is_own around.prefix (standing head.now.info)) fits.now before items)) }
{
    let own = is_own(around.prefix, standing_of(&head.info));
    if !own {
        trail(flow, options, mode_in(around.mode, head), &head.info);
        return Ok(());
    }
    let inside = mem::replace(flow, outer);
    if flow.is_none() {
        return Ok(());
    }
    let inside = inside_or_new(inside, options);
    end_own(flow, options, prefixes, around, head, fits, inside)
}

/// The value at a place ends, of which so much was kept. The error is allocation failure alone.
pub(crate) fn end<P: Prefixes>(
    reading: &mut Reading,
    alloc: Global,
    options: &RenderOptions,
    prefixes: &P,
    around: Around,
    head: &Head,
    extent: Extent,
    at: usize,
    kept: Kept,
) -> Result<(), AllocError>
    requires at { at < length reading.old.fits.items }
    requires cells { AreCells 1 reading.old.table.rows reading.old.table.cells.items }
    ensures { (w : Measure) (s outer : State) → w.prefixes ≡ P.columns prefixes.now
        → IsPassing options.now reading.old s → IsKept options.now around (standing head.now.info) kept outer
        → at ≡ length outer.fits → length outer.fits ≤ length s.fits → extent.least ≤ extent.size
        → OnOk result (IsPassing options.now reading.new
        (closes (fitting options.now w) around head.now extent outer s)) }
{
    let stands = standing_of(&head.info);
    let fits = fits_read(alloc, stands, &reading.table)?;
    let Kept { flow, table } = kept;
    let asked = widths_inside(&reading.flow);
    let table_around = &mut reading.table;
    end_table(
        table_around,
        around,
        stands,
        &head.info,
        extent,
        asked,
        table,
    )?;
    end_flow(
        &mut reading.flow,
        options,
        prefixes,
        around,
        head,
        fits.as_slice(),
        flow,
    )?;
    reading.fits[at] = fits;
    Ok(())
}
