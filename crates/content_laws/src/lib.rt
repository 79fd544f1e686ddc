//! Laws of texts that have the columns they ask for.
//!
//! # What is proved
//!
//! - `no_unit_is_cut`: normal text at its narrowest columns or more has each unit whole on a line
//! - `text_at_its_widest_is_not_wrapped`: text in any mode of white space has at its widest columns or more one line at
//!   most, the same at each width
#![tactic(auto)]

mod laws;

pub use laws::{no_unit_is_cut, text_at_its_widest_is_not_wrapped};
