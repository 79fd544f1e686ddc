//! Pages as render trees: what each node of a page becomes.
#![tactic(auto)]

mod complete_rows;
mod contents;
mod convert;
mod decorating;
mod element_names;
mod error;
mod fragments;
mod hiding;
mod inner;
mod kinds;
mod meaning;
mod numbers;
mod options;
mod place;
mod rows;
mod styles;
mod titles;
mod turns;
mod waiting;
mod walk;

pub use convert::dom_to_render_tree;
pub use decorating::decorating_rules;
pub use error::RenderError;
pub use options::{ConversionOptions, Pages};
