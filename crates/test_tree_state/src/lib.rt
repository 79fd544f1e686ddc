//! The words of tree construction, computed on worked rows: each function does nothing, and its contract is a page.
#![tactic(auto)]

mod rows;
