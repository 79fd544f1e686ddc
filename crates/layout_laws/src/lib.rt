//! What holds of all values that are laid out, said without what is done to each: laws, beside `layout_walk`.
//!
//! # What is proved
//!
//! - `values_keep_the_width`: where overflow is off in the renderers of a page, prefixes are steady and each list
//!   with numbers begins with one of 64 bits, whatever values are laid out, tables across with row spans and below
//!   one another among them: no line of a renderer passes its width
//! - `values_with_room_are_laid`: where overflow is on in each of them, all values are laid out, at any width
//! - `annotations_change_no_page`: in renderers that keep no annotations all values are laid out as in others, but
//!   for these, and refused where they are refused there
#![tactic(auto)]

mod laws;

pub use laws::{annotations_change_no_page, values_keep_the_width, values_with_room_are_laid};
