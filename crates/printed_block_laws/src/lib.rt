//! That blocks of lines hold no control character, whatever text is laid out in them: a law, beside `block_layout`.
//!
//! # What is proved
//!
//! - `blocks_print_no_controls`: no line of a block holds a control of C0 or C1 (Unicode, 23.1), whatever text is added:
//!   a character without a width is left out. Only the prefixes before the lines of another block, these lines, those
//!   after a page, the cells of a row and the texts in a border are to hold none
#![tactic(auto)]

mod laws;

pub use laws::blocks_print_no_controls;
