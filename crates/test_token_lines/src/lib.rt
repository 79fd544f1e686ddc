//! What a tokenizer emits, as lines: what programs and tests compare.
#![tactic(auto)]

mod fields;
mod listed;
mod token_lines;

pub use listed::{Listed, Listing};
pub use token_lines::{TokenLines, lines_of};
