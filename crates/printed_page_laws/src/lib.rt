//! That pages hold no control character where targets are made printable: a law, beside `html_render_tree`.
//!
//! # What is proved
//!
//! - `pages_print_no_controls`: where the prefixes of a decorator and its lines after a page hold no control of C0 or
//!   C1 (Unicode, 23.1) and `printable_targets` is on, no line of a page holds one, whatever stands in the page
//! - `decorators_print_no_controls`: the prefixes and the lines after a page of the plain, the rich and the trivial
//!   decorator hold none
#![tactic(auto)]

mod laws;

pub use laws::{decorators_print_no_controls, pages_print_no_controls};
