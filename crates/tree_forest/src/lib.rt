//! The nodes of a page as a forest, the trait of tree sinks, and the trees of a forest.
//!
//! # Forests
//!
//! The nodes of a page: what a forest is, and what may be done to it.
//!
//! ## What is proved
//!
//! No function of this crate does anything: it has definitions, laws (public functions with empty bodies, whose
//! contracts are the laws) and the trait of tree sinks. A forest is a list of nodes, each with what it is and its
//! children by their numbers (specs/Forest.antt); `IsForest` (specs/Orders.antt) says that children and contents
//! stand in the list, that a node has one parent at most, once, that none is above itself, and that node 0 is the
//! page's document and nobody's child.
//!
//! - `a_page_alone_is_a_forest`, `making_keeps_a_forest`, `putting_keeps_a_forest`, `taking_out_keeps_a_forest`,
//!   `reparenting_keeps_a_forest`, `attributes_keep_a_forest`: each change keeps a forest one, where its condition
//!   (specs/Conditions.antt) holds; what was taken out is free to be put, and stands above nothing that it didn't
//!   stand above before
//! - `texts_side_by_side_are_one`: a text that is put after another is one with it
//! - `a_node_stands_where_it_was_put`, `a_node_taken_out_stands_nowhere`: after the last child, or right before
//!   the sibling, and nowhere else; siblings stay in their order
//! - `what_was_not_named_stays`, `attributes_are_added`: every other node keeps what it is and its children; an
//!   element keeps its name, contents and children
//! - `where_children_stand`, `what_a_parent_alone_is_changed_by`, `how_many_nodes_there_are`,
//!   `what_was_made_may_be_put`, `what_a_text_says`: which children and how many nodes there are after each change;
//!   `parent_of` is the one parent; a new node may be put wherever there is a place; what a text says that
//!   characters join
//! - `alikeness_is_an_equivalence`: to be equal up to the numbers of nodes is an equivalence of forests
//! - `what_stands_above_what`, `elements_stay`: a path after a change is one of before, or goes by the edges that
//!   the change has added; an element keeps its name and contents
//! - `TreeSink`: each changing call is one equation on the forest, each asking call exact; what a call asks of its
//!   caller is a condition on the forest; a call is refused only if allocation fails, and then changes neither
//!   forest nor quirks mode
//!
//! The changes are computed on small forests (`rows.rt`). Neither proved nor tested: that a sink takes note of what
//! reaches it beside the forest (errors, lines, forms, scripts).
//!
//! # Trees of a forest
//!
//! The trees of a forest: what a node is, with what stands in it, and no numbers.
//!
//! A forest names its nodes by numbers, and says of each what it is and which children it has. Whatever goes down one
//! is defined with as much fuel as there are nodes; that this is enough is proved here once, for all that goes down a
//! forest (`proofs/Depth.antt`). The trees are the plain data that such a walk sees; what is said of them is proved by
//! recursion.
//!
//! ## What is proved
//!
//! - `a_tree_goes_one_step_on`: a law: of the first of some nodes of a forest the tree is what that is, with its
//!   children's trees in it, and the others' after it; of no nodes there is none
//! - `trees_stand_in_order`: a law: the trees of nodes and of others after them are those of the one before those
//!   of the other
//! - `a_walk_takes_three_steps_a_node`: a law: a walk of trees takes three steps for each of their nodes
//!
//! No path of a forest is longer than it has nodes (`proofs/Depth.antt`): on this alone stand the laws that a walk
//! (`tree_serializer`) and a dump (`dom_writing`) go one step on. A template's contents are in no tree but their own.
#![tactic(auto)]

mod keeping;
mod laws;
mod paths;
mod rows;
mod sink;
mod standing;
mod tree_laws;

pub use keeping::{
    a_page_alone_is_a_forest, attributes_keep_a_forest, making_keeps_a_forest,
    putting_keeps_a_forest, reparenting_keeps_a_forest, taking_out_keeps_a_forest,
};
pub use laws::{
    a_node_stands_where_it_was_put, a_node_taken_out_stands_nowhere, alikeness_is_an_equivalence,
    attributes_are_added, texts_side_by_side_are_one, what_was_not_named_stays,
};
pub use paths::{elements_stay, what_stands_above_what};
pub use sink::{ElementFlags, NodeOrText, QuirksMode, TreeSink};
pub use standing::{
    how_many_nodes_there_are, what_a_parent_alone_is_changed_by, what_a_text_says,
    what_was_made_may_be_put, where_children_stand,
};
pub use tree_laws::{
    a_tree_goes_one_step_on, a_walk_takes_three_steps_a_node, trees_stand_in_order,
};
