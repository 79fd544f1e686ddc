//! Trees in memory, written: given to serializers (WHATWG HTML, 13.3), and as lines to be looked at.
//!
//! # To serializers
//!
//! Trees in memory, emitted to serializers (WHATWG HTML, 13.3).
//!
//! ## What is proved
//!
//! - `SerializableHandle::new`: the tree and the handle that it was given
//! - `serialize` of `Serialize`: the calls of the walk of that tree's forest from that node on; a handle that isn't
//!   of the tree stands for a document without children
//! - `SerializeDom::serialize` of `RcDom`: what `serialize` of tree_serializer does of the document, with the
//!   default options: the writer has grown by the walk's text, or by a beginning of it (`ok`, `part`, `stays`,
//!   `failed`, `kinds`)
//!
//! It takes no stack for a deep tree, and copies no name or text. Tested by the stored run of `html_serialize`: a
//! page of misnested lines, whose written form is that of another parser (html5lib 1.1) but for three places in
//! which that one follows older rules (`>` in a value, a no-break space by its name, templates); these were set by
//! the standard's words, once both were seen. `rt plant` ran on this crate before `SerializeDom` was there: the
//! three wrong bodies that it could judge are refused; it could judge none of `new`.
//!
//! # As lines
//!
//! Trees in memory as lines, to be looked at.
//!
//! ## What is proved
//!
//! - `as_dom_string`, `node_as_dom_string` of `RcDom`: exactly the lines of the tree, or of a node and what is
//!   below it; the error is allocation failure
//! - `a_dump_goes_one_step_on`: a law: a node's lines are its own and then its children's, one level further
//!
//! Neither descends by recursion. Tested (`test_trees`): trees of small pages. What is not pinned: that memory is
//! found, so a body that always reports its failure would be proved; the tests call each.
#![tactic(auto)]

mod coming;
mod dump;
mod emitting;
mod first;
mod handle;
mod inner;
mod laws;
mod lines;
mod shown;
mod turn;
mod visits;
mod whole_dom;

pub use dump::DomString;
pub use handle::SerializableHandle;
pub use laws::a_dump_goes_one_step_on;
pub use whole_dom::SerializeDom;
