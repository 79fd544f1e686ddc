//! What the rules of tree construction ask and do (WHATWG HTML, 13.2.4 and 13.2.6), over any sink of trees; a part of
//! `html_tree_builder`.
//!
//! # What is proved
//!
//! A page that is being parsed is seen as the rule table's state (`parsed`). Each call that changes it is exactly
//! the action of its name (`act`), over any sink, and keeps `Ready`; the error is allocation failure alone. Each
//! call that asks answers its definition in rules_table' specs/Asking.antt. Which form an element belongs to that is
//! inserted for a tag is its definition too (`form_owner`). Not pinned: that the sink is given that form, and of
//! scripts that must not run (those of a fragment, and one that the end of a page finds open), since neither
//! changes a node.
#![tactic(auto)]

mod asking;
mod changes;
mod elements;
mod flow;
mod foreign;
mod forms;
mod kept;
mod parse;
mod scripts;
mod stack;

pub use flow::Flow;
pub use kept::Kept;
pub use parse::Parse;
