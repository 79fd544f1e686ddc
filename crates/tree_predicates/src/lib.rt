//! What names, tags and doctypes mean for tree construction (WHATWG HTML, 13.2.6): a part of html_tree_state.
//!
//! # What is proved
//!
//! Each call answers what its definition says: `own_mode` and `root_mode` (resetting the insertion mode),
//! `quirks_mode_of`, `takes_text_as_html`, `takes_start_as_html`, `breaks_out`, `stops_break_out`,
//! `closes_foreign`, `is_of_html` (foreign content), `element_flags`, `is_hidden`, `value_of` and
//! `is_in_lower_case` (what an attribute says). None takes memory. The definitions are computed on some 90 rows.
//! `rt plant`: 39 wrong bodies refused, none let through, before `closes_foreign` was there.
#![tactic(auto)]

mod attributes;
mod foreign;
mod modes;
mod quirks;
mod rows;
mod words;

pub use attributes::{element_flags, is_hidden, value_of};
pub use foreign::{
    breaks_out, closes_foreign, is_of_html, stops_break_out, takes_start_as_html,
    takes_text_as_html,
};
pub use modes::{InsertionMode, own_mode, root_mode};
pub use quirks::quirks_mode_of;
pub use words::is_in_lower_case;
