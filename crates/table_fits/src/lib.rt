//! What the columns of a page's tables ask for by what stands in them.
//!
//! # What is proved
//!
//! Of each table of a render tree, in the order of the tree's nodes, `table_fits` gives what each of its columns asks
//! for at the least and at the most (`column_fits`), by the flow in each of its cells: its texts, each in the mode of
//! white space in force, with the marks of links, images and superscripts; its blocks, lists and quotations after their
//! prefixes; and its tables, by what their columns ask for together.
//!
//! - `table_fits`: exactly these (`table_fits` of `TableFits.antt`), by any prefixes. The error is allocation failure.
//!   It goes once over the nodes, whatever tables stand in tables
//! - `mode_in`: the mode of white space in a value: its own, else that around it
//! - `tables_have_fits`: a law: each column of a table's grid asks for something: its least or more, and no more at the
//!   least than at the most
#![tactic(auto)]

mod laws;
mod pass;
mod reading;
mod standing;
mod values;

pub use laws::tables_have_fits;
pub use pass::table_fits;
pub use standing::{Around, Standing, mode_in};
