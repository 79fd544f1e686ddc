//! Trees in memory as lines that hold all of a tree: what programs and tests compare. (dom_writing writes what is to be
//! looked at.)
#![tactic(auto)]

mod coming;
mod laws;
mod lines;
mod tree_lines;

pub use tree_lines::{lines_below, lines_of};
