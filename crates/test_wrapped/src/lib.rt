//! The lines of some texts in one call, with one theorem, on lists of texts.
#![tactic(auto)]

mod wrapped;

pub use wrapped::wrapped_lines;
