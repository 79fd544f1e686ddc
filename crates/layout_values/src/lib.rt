//! What values of a render tree open in a page that is laid out: parts, lists, looks, tables with their rows and cells.
//! For each that is open it says what waits to be done.
#![tactic(auto)]

mod cells;
mod content;
mod lists;
mod looking;
mod parts;
mod tables;
mod values;
mod waiting;

pub use content::Content;
pub use tables::{end_cell, end_table};
pub use values::open_value;
pub use waiting::{Continuation, OpenCell, OpenItem, OpenPart, OpenTable};
