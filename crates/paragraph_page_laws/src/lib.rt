//! Pages of paragraphs and their answers, from bytes to lines, as a law over definitions.
#![tactic(auto)]

mod laws;

pub use laws::paragraph_pages;
