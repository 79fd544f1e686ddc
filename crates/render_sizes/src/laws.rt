//! Laws of what values ask for: each is the contract of a function that does nothing.
ghost use Rattle.std.specs.Prelude.{◌≤◌};
ghost use Rattle.table_widths.specs.Shares.{AreSized};
ghost use Rattle.render_sizes.specs.Extents.{Measure, extent, in_rows, measured, table_in};
ghost use Rattle.render_sizes.specs.Sound.{AreTableCells, IsSound};
ghost use Rattle.render_values.specs.Values.{Values};
ghost use Rattle.table_widths.specs.RowLaws.{AreWholeRows};

use table_grid::columns_of_a_grid_are_sized;
use table_widths::{rows_across_are_whole, tables_ask_for_their_least};

// What is measured is sound, and the cells of rows are what the grid of a table asks for.
pub(crate) fn measured_is_sound()
    ensures sound { (m : Measure) (values : Values) → IsSound (measured m values) }
    ensures cells { (m : Measure) (values : Values)
        → AreTableCells (in_rows (measured m values)) (measured m values).rows }
{
    columns_of_a_grid_are_sized();
    tables_ask_for_their_least();
}

/// Values ask for no more columns at least than they take on one line.
pub fn values_ask_for_no_more_at_least()
    ensures { (m : Measure) (values : Values) → (extent m values).least ≤ (extent m values).size }
{
    measured_is_sound();
}

/// The rows of a table that are shown across take its columns side by side, and each column has a size and a least that
/// is no more.
pub fn tables_are_sound()
    ensures rows { (m : Measure) (values : Values) → AreWholeRows (table_in m values) }
    ensures sized { (m : Measure) (values : Values) → AreSized (table_in m values).columns }
{
    measured_is_sound();
    columns_of_a_grid_are_sized();
    rows_across_are_whole();
}
