//! The columns that text asks for.
//!
//! # What is proved
//!
//! A flow is texts that follow one another, each in a mode of white space, and blocks between them. Its `narrowest`
//! columns are those without which something must be cut that stands together, its `widest` those with which no line of
//! it is wrapped: each is the greatest of its stretches of text and of its blocks. Texts in one mode that follow one
//! another are one stretch. Normal text takes its words with the spaces between them, text whose white space stays the
//! longest of its lines, with a tab at each multiple of 8. No stretch asks for more than the columns at which text
//! wraps. Numbers stop at 2^64 - 1.
//!
//! - `FlowWidths::new`, `add_text`, `add_block`, `widths`: the columns of exactly the flow of what was added
//!   (`flow_widths` of `Flows.antt`)
#![tactic(auto)]

mod flow;
mod reading;
mod source_lines;
mod together;
mod widths;
mod words;

pub use flow::FlowWidths;
pub use widths::ContentWidths;
