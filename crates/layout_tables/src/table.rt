//! A table before its first row and after its last.
ghost use Rattle.std.specs.Prelude.{◌≡◌, ◌⊎◌, Err, IfErr, IfOk, OnOk};
ghost use Rattle.table_widths.specs.Shares.{AreSized};
ghost use Rattle.layout_state.specs.Seen.{Comes, Fails, IsWorking, place_of, widths_seen};
ghost use Rattle.layout_tables.specs.Seen.{AreGivenAt, FitColumnsAt, all_fits_seen, fits_at};
ghost use Rattle.layout_tables.specs.Tables.{fence, is_fenced, rows_of, table_widths, top_border, widths_by};
ghost use Rattle.table_widths.specs.Tables.{rows_left, table_seen};
ghost use Rattle.text_pieces.specs.declared.fault.BlockError.TheVariants as errors;

use crate::slots::separated;
use block_trait::RenderOptions;
use column_fits::{ColumnFit, fitted_across};
use layout_state::{LayoutState, TablePlace};
use std::alloc::{AllocError, Global};
use table_grid::Column;
use table_widths::{RowsLeft, Table, widths_across};
use text_decorators::TextDecorator;
use text_pieces::BlockError;

// by what each column asks for, where that is known
fn widths_by(
    alloc: Global,
    fits: &Option<Vec<Vec<ColumnFit>>>,
    at: usize,
    width: usize,
    columns: &[Column],
) -> Result<Option<Vec<usize>>, AllocError>
    requires sized { AreSized columns.now }
    requires given { AreGivenAt (all_fits_seen fits.now) at }
    requires fit { FitColumnsAt (all_fits_seen fits.now) at columns.now }
    ensures { IfOk result (λ r. widths_seen r ≡ widths_by (fits_at (all_fits_seen fits.now) at) width columns.now) }
{
    match fits {
        None => widths_across(alloc, columns, width),
        Some(fits) => fitted_across(alloc, columns, fits[at].as_slice(), width),
    }
}

/// The widths of a table's columns in `width` columns of text, where its rows lie across; none where raw tables are
/// asked for, or the columns' leasts do not fit. Where `fits` says what the columns of each value ask for, they are
/// fitted by what those of the value at `at` ask for, the table. The error is allocation failure.
pub fn table_widths(
    alloc: Global,
    options: &RenderOptions,
    fits: &Option<Vec<Vec<ColumnFit>>>,
    at: usize,
    width: usize,
    columns: &[Column],
) -> Result<Option<Vec<usize>>, AllocError>
    requires sized { AreSized columns.now }
    requires given { AreGivenAt (all_fits_seen fits.now) at }
    requires fit { FitColumnsAt (all_fits_seen fits.now) at columns.now }
    ensures { IfOk result (λ r. widths_seen r
        ≡ table_widths options.now (fits_at (all_fits_seen fits.now) at) width columns.now) }
{
    if options.raw {
        return Ok(None);
    }
    widths_by(alloc, fits, at, width, columns)
}

/// The rows of a table: across where its columns have widths, else with cells below one another.
pub fn rows_of(alloc: Global, widths: &Option<Vec<usize>>, table: Table) -> RowsLeft
    ensures { rows_left result ≡ rows_of (widths_seen widths.now) (table_seen table) }
{
    match widths {
        None => table.rows_below(alloc),
        Some(_) => table.rows_across(alloc),
    }
}

/// Whether a table is fenced: where that is asked for, and it stands in no cell of another.
pub fn is_fenced<D: TextDecorator>(options: &RenderOptions, place: &TablePlace<D>) -> bool
    ensures { result ≡ is_fenced options.now (place_of D.Annotation.seen D.view.held place.now) }
{
    match place {
        TablePlace::Outside { in_cell } => options.fence_tables && !*in_cell,
        _ => false,
    }
}

/// The line above a table that is fenced, and the one below it. The error is `TooNarrow` where a character is wider
/// than its line and may not stand alone, else `Memory`.
pub fn fence<D: TextDecorator + Drop>(
    laying: &mut LayoutState<D>,
    fenced: bool,
) -> Result<(), BlockError>
    requires { IsWorking D.Annotation.seen D.view.held laying.old }
    ensures done { OnOk result (Comes D.Annotation.seen D.view (λ m. fence m fenced) laying.old laying.new) }
    ensures works { OnOk result (IsWorking D.Annotation.seen D.view.held laying.new) }
    ensures narrow { result ≡ Err errors.TooNarrow → Fails D.Annotation.seen D.view (λ m. fence m fenced) laying.old }
    ensures kinds { IfErr result (λ e. (e ≡ errors.TooNarrow) ⊎ (e ≡ errors.Memory)) }
{
    if !fenced {
        return Ok(());
    }
    laying.add_text("```")?;
    laying.end_line()
}

/// The border above the first row, where borders are drawn. The error is `TooNarrow` where there is no room for it,
/// else `Memory`.
pub fn top_border<D: TextDecorator + Drop>(
    laying: &mut LayoutState<D>,
    options: &RenderOptions,
    widths: &Option<Vec<usize>>,
) -> Result<(), BlockError>
    requires { IsWorking D.Annotation.seen D.view.held laying.old }
    ensures done { OnOk result (Comes D.Annotation.seen D.view (λ m. top_border m options.now (widths_seen widths.now))
        laying.old laying.new) }
    ensures works { OnOk result (IsWorking D.Annotation.seen D.view.held laying.new) }
    ensures narrow { result ≡ Err errors.TooNarrow → Fails D.Annotation.seen D.view
        (λ m. top_border m options.now (widths_seen widths.now)) laying.old }
    ensures kinds { IfErr result (λ e. (e ≡ errors.TooNarrow) ⊎ (e ≡ errors.Memory)) }
{
    if !options.draw_borders {
        return Ok(());
    }
    match widths {
        None => laying.add_border(),
        Some(widths) => laying.add_border_of(separated(widths.as_slice())),
    }
}
