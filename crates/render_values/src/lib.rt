//! Render trees: what is laid out of a page's nodes.
//!
//! Values stand in order, each with what stands in it. A tree keeps its nodes in one vector, each before what stands in
//! it and with the number of those, so that no call needs a stack and a tree is dropped as its vector is.
//!
//! # What is proved
//!
//! Of `render_values` and `render_conversion`.
//!
//! A render tree is its values in order, each with what stands in it (`Values`); its nodes are those values in a
//! row.
//!
//! - `dom_to_render_tree`: the tree is exactly the values of the page's document by the table of conversion
//!   (docs/CONVERSION.md) and the given rules (`document_values`), for every forest; it is refused as `Fail`
//!   exactly where these are nothing, and else as `Memory`. No stack grows with what the page nests
//! - `decorating_rules`: the ten rules of the program, exactly
//! - `RenderTree::new`, `nodes`, `try_clone`: the values of nodes that are in a row; the nodes; an equal tree
//! - `RenderInfo`, `Head`, `RenderNode` and `RenderStyle`: `try_clone`, `Clone`: equal ones
//! - `all_shallow_empty`, `is_white_space`, `close`: by their definitions; a value whose children were read ends as
//!   `ended` says: it stays, is a superscript number, leaves its fragment, or goes
//! - `Display` of `RenderError`: the texts, exactly
//!
//! The rows of the table are computed on the definitions (`render_conversion/src/rows.rt`). No clause says how a
//! tree is written (`Display`).
#![tactic(auto)]

mod closing;
mod emptiness;
mod info;
mod node;
mod raising;
mod style;
mod title;
mod tree;

pub use closing::{Condition, Opened, Outcome, close};
pub use emptiness::{all_shallow_empty, is_white_space};
pub use info::{Head, RenderInfo};
pub use node::RenderNode;
pub use style::RenderStyle;
pub use title::Title;
pub use tree::RenderTree;
