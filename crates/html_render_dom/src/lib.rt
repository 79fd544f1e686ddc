//! The tree of a page: all its nodes in one vector, as a sink of trees.
//!
//! # What is proved
//!
//! - `RcDom::new`: the document alone, no errors, no quirks
//! - `document`, `errors`, `quirks_mode`, `data`: what the forest, the errors and the mode say; `document`: the
//!   nodes are a forest, whatever was called before; a handle whose number this tree has not has no data
//! - `children`, and `ChildNodes`: the children of a node, one by one from either end, and then none for good; of a
//!   handle whose number this tree has not there are none
//! - `get_parent`, `nth_child`, `get_node_by_path`, `element_name`, `attribute`: the parent in the forest; the
//!   child at an index, from 0; the node to which such steps lead from the document, or none; the name of an
//!   element; the value of an element's attribute of a name
//! - `computed_style`: of an element what `dom_styles` computes for its local name (`IsComputed`); of any other
//!   node, and of a handle whose number this tree has not, all is unset
//! - `attribute_by_word`: the value of an element's first attribute with a local name that is given as a word of
//!   ASCII, or none; it takes no memory
//! - each call of `TreeSink`: the one equation on the forest that the trait says, and a refused call changes
//!   neither forest nor quirks mode; the calls that this tree has no use for change nothing; every call but
//!   `parse_error` keeps the errors, whether it is refused or not, and `finish` gives the tree as it is
//! - `NodeData`, `Handle`: plain data
//!
//! `parse_error` keeps the message after those before, `attach_declarative_shadow` answers false, and each call is
//! refused only if allocation fails. `rt plant` has run on this crate, before that last clause: of 53 wrong bodies
//! that it could judge 31 were refused; it let through calls that refuse as `Failed`, which that clause refuses
//! now, and the right body of `get_document`.
//!
//! Tested (`test_trees`): generic functions over any `TreeSink` make each of its calls, and by contract leave a sink
//! that began as a page alone with a forest that is written down (`Pages.antt`): an outline, remarks, an element
//! moved before its own next sibling and another to the end, fostering with and without a parent, children given to
//! an element that has some and to one that has none, an only child taken out, attributes added twice, a template's
//! contents, texts side by side. In `RcDom` each is compared with lines written from the standard's words, and so
//! are errors, the quirks mode and a handle whose number the tree has not.
//!
//! An element that is given attributes by `add_attrs_if_missing` keeps the names of all that it has in a set, so an
//! attribute more is looked up there. What that comes to in a built program has not been measured. Neither proved
//! nor tested yet: the time that a call takes, and that memory is found. What characters do that are put between
//! two texts which a removal left side by side is proved alone (`texts_side_by_side_are_one`): no call of a sink
//! names a text. A call that puts a node or takes one out writes five links, and `reparent_children` five and a
//! parent at each child; none of them takes memory, but for a node that is made. No call copies a text or a name
//! that it is given. A tree has no more than 2^32 nodes: one more is refused, as where allocation fails.
#![tactic(auto)]

mod asking;
mod child_nodes;
mod content;
mod dom;
mod lent;
mod linked;
mod names;
mod node;
mod nodes;
mod sink;
mod styles;

pub use child_nodes::ChildNodes;
pub use dom::RcDom;
pub use dom_styles;
pub use node::{Handle, NodeData};
pub use tree_forest;
