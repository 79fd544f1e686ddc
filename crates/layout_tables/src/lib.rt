//! What a table makes of a page that is laid out: its fence and its border, its rows, and the renderers that stand in
//! their slots; a part of `html_render_tree`.
#![tactic(auto)]

mod cells;
mod rows;
mod slots;
mod table;

pub use cells::begin_cell;
pub use rows::{end_row, push_name};
pub use slots::{push_empties, slot_width};
pub use table::{fence, is_fenced, rows_of, table_widths, top_border};
