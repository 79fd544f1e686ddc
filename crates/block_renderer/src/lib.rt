//! Renderers of blocks of lines, over a decorator that marks their text.
#![tactic(auto)]

mod calls;
mod inline;
mod links;
mod marking;
mod parts;
mod printing;
mod sub_renderer;

pub use sub_renderer::SubRenderer;
