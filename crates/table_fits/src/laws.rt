//! Laws of what columns ask for: each is the contract of a function that does nothing.
ghost use Rattle.std.specs.Prelude.{◌≡◌, List};
ghost use Rattle.column_fits.specs.Across.{AreFits};
ghost use Rattle.content_widths.specs.declared.widths.ContentWidths.{ContentWidths};
ghost use Rattle.render_sizes.specs.Extents.{Measure, in_rows, measured};
ghost use Rattle.render_values.specs.Values.{Values};
ghost use Rattle.table_fits.specs.Flowing.{Fitting};
ghost use Rattle.table_fits.specs.Pass.{nothing_passed, on_page, passed};
ghost use Rattle.table_fits.specs.TableFits.{fits_in_grid, table_fits};
ghost use Rattle.table_grid.specs.TheGrid.{grid};
ghost use Rattle.text_pieces.specs.declared.white_space.WhiteSpace.TheVariants.{Normal};

use column_fits::columns_have_fits;

/// Whatever stands in a table's cells, each column asks for something: its least or more, and no more at the least than
/// at the most.
pub fn tables_have_fits()
    ensures { (w : Measure) (inside : Values) (widths : List ContentWidths)
        → AreFits (grid (in_rows (measured w inside))).columns
        (fits_in_grid (grid (in_rows (measured w inside))) widths) }
{
    columns_have_fits();
}

// The pass over the values of a page gives what the columns of its tables ask for.
pub(crate) fn passes_give_fits()
    ensures { (f : Fitting) (values : Values)
        → (passed f on_page values nothing_passed).fits ≡ table_fits f Normal values }
{}
