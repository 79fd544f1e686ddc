//! Pages that come in bytes, read into their trees.
//!
//! # What is proved
//!
//! - `read_page`: of the bytes that a device had, all of which came, the tree: that of their replaced text, which
//!   the rule table builds from a document alone; at most `max_bytes` and one more are read; `IoError` only where
//!   the device failed, `TooLong` only where more than `max_bytes` bytes came, else allocation failure
//! - `PageReader::push`, `finish`: for every rest: what comes of the page then and the rest, comes of the page
//!   before, the piece and the rest; `finish` gives what comes of the page and nothing more; a piece with more
//!   bytes than may still come is `TooLong`, before any of it is read; after a refusal every call is `Failed`;
//!   else the error is allocation failure
//! - `PageReader::new`: what comes of the new reader and bytes is the tree of these bytes
//! - `a_page_has_one_tree_of_bytes`, `a_page_has_a_tree_of_bytes`: laws: bytes have at most one tree, and one
#![tactic(auto)]

mod fault;
mod feeding;
mod laws;
mod reader;
mod reading;

pub use fault::{PageFault, ReadFault};
pub use laws::{a_page_has_a_tree_of_bytes, a_page_has_one_tree_of_bytes};
pub use reader::PageReader;
pub use reading::read_page;
