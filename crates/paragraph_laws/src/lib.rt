//! Pages of paragraphs, as laws over definitions alone: their trees, and their lines.
//!
//! # Trees
//!
//! Pages of paragraphs have one tree, which is known, as laws over definitions alone (WHATWG HTML, 13.1 and 13.2).
//!
//! # Lines
//!
//! How pages of paragraphs are laid out: each text in its fullest layout, an empty line between what shows something.
#![tactic(auto)]

mod lines;
mod trees;

pub use lines::{paragraph_pages_are_laid, paragraphs_are_laid, paragraphs_have_their_values};
pub use trees::{one_list, paragraph_pages_have_their_trees};
