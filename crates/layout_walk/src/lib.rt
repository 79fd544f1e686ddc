//! How the values of a render tree are laid out: `lay_tree` (see the head of layout_state), with columns of tables fitted
//! to what stands in them, where it is known what they ask for.
#![tactic(auto)]

mod walk;

pub use walk::lay_tree;
