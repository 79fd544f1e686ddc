//! Tables among the nodes of a render tree.
ghost use Rattle.std.specs.Prelude.{◌≡◌, ◌+◌, ◌++◌, ◌≤◌, IfOk, OnOk, length};
ghost use Rattle.table_widths.specs.Shares.{AreSized};
ghost use Rattle.render_sizes.specs.Extents.{Measure, extents, in_rows, measure_of, measured, table_extent, table_in};
ghost use Rattle.render_sizes.specs.RowCells.{cells_emitted, rows_emitted, skipped};
ghost use Rattle.render_values.specs.Arena.{IsFlat, values_of};
ghost use Rattle.table_grid.specs.TheGrid.{grid};
ghost use Rattle.table_widths.specs.Tables.{table_seen};

use crate::extent::Extent;
use crate::laws::measured_is_sound;
use crate::prefixes::Prefixes;
use crate::sizes::{extents_after, nodes_after};
use render_values::{RenderInfo, RenderNode};
use std::alloc::{AllocError, Global};
use table_grid::{Cell, grid_of};
use table_widths::{Table, asked_by_table, table_of};

// The cells that stand in rows among nodes, each with the number of its row, from 1 on, and how many rows there are.
#[derive(Drop)]
struct RowCells {
    cells: Vec<Cell>,
    rows: usize,
}

// the rows that begin with a value
fn rows_emitted(info: &RenderInfo) -> usize
    ensures { result ≡ rows_emitted info.now }
{
    match info {
        RenderInfo::TableRow => 1,
        _ => 0,
    }
}

// how many of the nodes in a value are passed over: groups and rows are entered
fn skipped(info: &RenderInfo, below: usize) -> usize
    ensures { result ≡ skipped info.now below }
{
    match info {
        RenderInfo::TableGroup | RenderInfo::TableRow => 0,
        _ => below,
    }
}

// rows that begin after others, where there can't be more than so many
fn rows_on(rows: usize, begun: usize, most: usize) -> usize
    requires { rows + begun ≤ most }
    ensures { result ≡ rows + begun }
{
    prove!(rows + begun <= most);
    rows + begun
}

// a cell stands in the row that began last
fn push_emitted(
    cells: &mut Vec<Cell>,
    info: &RenderInfo,
    extent: Extent,
    rows: usize,
) -> Result<(), AllocError>
    ensures { OnOk result (cells.new.items ≡ cells.old.items ++ cells_emitted info.now extent rows) }
{
    match info {
        RenderInfo::TableCell {
            columns,
            rows: taken,
        } => {
            if rows == 0 {
                return Ok(());
            }
            cells.push(Cell {
                row: rows,
                colspan: (*columns).max(1),
                rowspan: (*taken).max(1),
                size: extent.size,
                least: extent.least,
            })?;
            Ok(())
        }
        _ => Ok(()),
    }
}

// Groups and rows are entered, and what stands in a cell is not: a table in it has rows of its own.
fn row_cells(alloc: Global, nodes: &[RenderNode], sizes: &[Extent]) -> Result<RowCells, AllocError>
    requires flat { IsFlat nodes.now }
    requires same { length sizes.now ≡ length nodes.now }
    ensures { IfOk result (λ r. (m : Measure) → sizes.now ≡ extents m (values_of nodes.now)
        → (r.cells.items ≡ in_rows (measured m (values_of nodes.now)))
        × (r.rows ≡ (measured m (values_of nodes.now)).rows)) }
{
    let most = nodes.len();
    let mut cells = Vec::new(alloc);
    let mut rows = 0;
    let mut rest = nodes;
    let mut left = sizes;
    'nodes: while let Some((first, others)) = rest.split_first() {
        rows = rows_on(rows, rows_emitted(&first.head.info), most);
        push_emitted(&mut cells, &first.head.info, left[0], rows)?;
        let count = skipped(&first.head.info, first.below);
        left = extents_after(extents_after(left, 1), count);
        rest = nodes_after(others, count);
    }
    Ok(RowCells { cells, rows })
}

/// What a table asks for, by the nodes that stand in it and what each of these asks for. The error is allocation
/// failure alone.
pub(crate) fn extent_of_table<P: Prefixes>(
    alloc: Global,
    prefixes: &P,
    min_wrap: usize,
    nodes: &[RenderNode],
    sizes: &[Extent],
) -> Result<Extent, AllocError>
    requires flat { IsFlat nodes.now }
    requires same { sizes.now ≡ extents (measure_of min_wrap (P.columns prefixes.now)) (values_of nodes.now) }
    ensures { IfOk result (λ e. e ≡ table_extent (grid
        (in_rows (measured (measure_of min_wrap (P.columns prefixes.now)) (values_of nodes.now)))).columns) }
{
    measured_is_sound();
    let RowCells { cells, .. } = row_cells(alloc, nodes, sizes)?;
    let grid = grid_of(alloc, cells.as_slice())?;
    let asked = asked_by_table(grid.columns.as_slice());
    Ok(Extent {
        size: asked.size,
        least: asked.least,
    })
}

/// The table that values are in which its rows stand: the cells of its rows, where they stand, and the columns. `sizes`
/// gives for each node how many columns of text its value asks for, as `w` measures them. The error is allocation
/// failure alone.
pub fn table_among(
    alloc: Global,
    nodes: &[RenderNode],
    sizes: &[Extent],
) -> Result<Table, AllocError>
    ghost w: { Measure }
    requires flat { IsFlat nodes.now }
    requires sized { sizes.now ≡ extents w (values_of nodes.now) }
    ensures table { IfOk result (λ t. table_seen t ≡ table_in w (values_of nodes.now)) }
    ensures sized { IfOk result (λ t. AreSized t.columns.items) }
{
    measured_is_sound();
    let RowCells { cells, rows } = row_cells(alloc, nodes, sizes)?;
    table_of(alloc, cells.as_slice(), rows)
}
