//! Open elements, scopes, insertion and the list of active formatting elements (WHATWG HTML, 13.2.4 and 13.2.6.1), over
//! any sink of trees.
#![tactic(auto)]

mod adoption;
mod adoption_parts;
mod adoption_words;
mod comments;
mod construction;
mod elements;
mod ends;
mod foreign;
mod formatting;
mod insertion;
mod pops;
mod reconstruction;
mod resetting;
mod scopes;

pub use construction::Construction;
pub use resetting::html_elem;
pub use tree_forest;
pub use tree_forest::{ElementFlags, NodeOrText, QuirksMode, TreeSink};
pub use tree_formatting::{ActiveFormattingIter, FormatEntry, FormattingList};
pub use tree_model::{Held, InsertionPoint, PushFlag, words_keep_a_tree_sound};
pub use tree_names;
pub use tree_names::{ElementSet, Scope};
pub use tree_predicates;
pub use tree_serializer;
