//! A page that is laid out: its renderers, where the next value stands, and the calls that values make.
//!
//! # What is proved
//!
//! Of `layout_state`, `layout_tables`, `layout_values` and `layout_walk`.
//!
//! How the values of a render tree are laid out is one structural recursion, `lay` (layout_values,
//! `specs/Lay.antt`): what a value is begins, what stands in it is laid out, in a part of its own after a prefix
//! where its kind says so, and it ends; a value that stands in a list is an item. A table
//! (`layout_tables/specs/Tables.antt`) begins a block, has a border above its first row, and lies across where the
//! leasts of its columns fit; else its cells lie below one another, each at full width. A cell is laid out in a
//! renderer of its own; an empty renderer stands in each other slot of its row, and a cell from above goes on in
//! it. Outermost tables stand between fences where the options say so; a table without a column shows nothing; a
//! fragment of a row, or of a group of rows, starts in the first cell of the first row from there on that is shown.
//! A step has no result where a part lacks the columns that it asks for, at least one and as many as its value
//! measures, or where a character is wider than its line and may not stand alone.
//!
//! layout_state has the page that is laid out: its renderers, what a list around says of the next value, where in
//! a table that stands; and the calls that values make, each of which is a step of the definition, or refused where
//! that has no result. layout_tables has what a table makes of it, and layout_values what each value opens and
//! what then waits for its end (`specs/Continuation.antt`): what waits comes to the rest of the definition, the last
//! first.
//!
//! - `table_widths`, `rows_of`, `is_fenced`, `slot_width` (layout_tables): exactly the widths of a table's columns
//!   where its rows lie across, the rows, whether it is fenced, and the columns of a slot
//! - `fence`, `top_border`, `begin_cell`, `end_row`: the page after the call is the definition's step of that
//!   name; `TooNarrow` only where it has no result, else `Memory`
//! - `push_empties`: an empty renderer stands in each slot before the next cell, these slots are taken, and the
//!   page stays as it was; the error is allocation failure
//! - `push_name`: a name, if there is one, stands after the others; the error is allocation failure
//! - `open_value` (layout_values): with what it pushes the page comes to what the definition makes of the value
//!   and of what stands in it, whatever waits below, and at most four things wait more than before; whether what
//!   stands in it is laid out at all; `TooNarrow` only where the definition has no result, else `Memory`
//! - `end_table`, `end_cell`: the page after the call is the definition's end of the table or the cell;
//!   `TooNarrow` only where it has no result, else `Memory`
//! - `lay_tree`: over any decorator, given the extents of all values or those that a layout asks for
//!   (`AreMeasured`): the renderers of the page are exactly those to which `lay` comes (`laid`), and the error is
//!   `TooNarrow` exactly where it has no result (`narrow`), else `Memory` (`kinds`); no part is left standing
//!   (`whole`), and no renderer has failed (`works`). No stack grows with what the page nests: what waits stands in
//!   a vector
//!
//! What is not pinned: that memory is found, so a call that always reports its failure would be proved.
#![tactic(auto)]

mod around;
mod begins;
mod calls;
mod laying;
mod looks;
mod marks;
mod parts;
mod place;
mod rule;

pub use around::{Around, ItemMark};
pub use laying::LayoutState;
pub use parts::spaces;
pub use place::{SlotsLeft, TablePlace, TableRows};
