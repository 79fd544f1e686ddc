//! A decorator whose answers change by what it holds, and the texts of links by any decorator.
#![tactic(auto)]

mod counted;
mod link_counter;
mod link_note;
mod linked;

pub use counted::counted_links;
pub use link_counter::LinkCounter;
pub use link_note::LinkNote;
pub use linked::{link, two_links};
