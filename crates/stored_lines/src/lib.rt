//! What the stored rows ask of blocks and pages: the lines that scripts of renderer calls give, and the lines of pages
//! by a configuration. Texts and pages come whole and in small pieces, and the lines must agree. Nothing here has a
//! contract: it drives calls that are proved and writes down what they answer, and the stored run judges it.
#![tactic(auto)]

mod block;
pub mod blocks;
mod calls;
mod elements;
mod options;
pub mod pages;
mod rules;

pub use elements::push_elements;
pub use pages::tree_of;
