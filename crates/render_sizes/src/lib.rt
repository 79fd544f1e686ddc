//! How many columns the values of a render tree take.
//!
//! # What is proved
//!
//! `measured` says of each node's value, in the order of a tree's nodes, how many columns it takes on one line and
//! at least (`extents`), by the columns of prefixes, which the caller gives. The error is allocation failure. It
//! goes once from the last node to the first. A text's size is its columns with white space collapsed (std's white
//! space, U+00A0 too), a gap at its front one column and one at its end none; its least is that, or the narrowest
//! wrap if that is less; an image adds 2, a link 5, a description 2; side by side sizes add up and the greatest
//! least holds; a table asks for what the columns of its grid ask for, with a separator between neighbours; sums
//! stop at 2^64 - 1.
//!
//! A layout looks at few of these: at a value after a prefix (a heading, a quotation, a list, a description) and
//! at what stands in a table. `asked_extents` gives those, with all that stands in such a value, and no columns for
//! the others; a table itself is not measured where nothing around it is.
//!
//! - `measured`: exactly the extents of the tree's values
//! - `asked_extents`: exactly those that a layout asks for (`asked_extents` of `Asked.antt`)
//! - `table_among`: of nodes in which the rows of a table stand: its columns, and the slots of each row
//!   (`table_in`); each column has a size, and a least that is no more
//! - `number`: how many values stand side by side
//! - `values_ask_for_no_more_at_least`, `tables_are_sound`: laws: a least is no more than a size; of every table
//!   the slots of each row that is shown across take its columns side by side, from the first on
#![tactic(auto)]

mod asked;
mod extent;
mod laws;
mod prefixes;
mod sizes;
mod tables;
mod texts;

pub use asked::{Asked, asked_extents};
pub use extent::Extent;
pub use laws::{tables_are_sound, values_ask_for_no_more_at_least};
pub use prefixes::Prefixes;
pub use sizes::{measured, number};
pub use tables::table_among;
pub use texts::text_size;
