//! The grammar of a page's text, computed on worked rows: each function does nothing, and its contract is some rows.
#![tactic(auto)]

mod rows;
