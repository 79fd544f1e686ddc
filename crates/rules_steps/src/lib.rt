//! What an item of a page comes to in tree construction, over any sink of trees (WHATWG HTML, 13.2.6); a part of
//! `html_tree_builder`.
//!
//! # What is proved
//!
//! Of `rules_steps` and `html_tree_builder`.
//!
//! - `take_tag`, `take_comment`, `take_doctype`, `take_null`, `take_page_end`: the state and the answer are what
//!   the mark comes to by the rule table (`taken`): the rules of the modes that stand in turn, or those for foreign
//!   content, take it until one does not hand it on
//! - `take_text`: the state is that of all characters taken one by one (the code gives the sink a run that a mode
//!   treats alike at once, and gives it the text as it came where all of it is such a run; that is read in the code
//!   alone)
//! - `TreeBuilder::new`: the state before the first token; it is ready
//! - `TreeBuilder::new_for_fragment`: the state before the first token of a fragment (`begun_fragment`): the root
//!   is made and open, a template's mode is pushed for a context that is one, and the mode is reset by the context;
//!   it is ready; the error is allocation failure
//! - `TreeBuilder::is_fragment`, `tokenizer_state_for_context_elem`, `context_state`: whether there is a context;
//!   the state in which the text of a fragment begins, by its context and by whether scripts would run
//!   (`context_state`)
//! - `process_token`: the state is the table's step, the answer the table's (`state`, `reply`); what is welcome
//!   (anything before the end, and in the mode "text" what is emitted in an element's text) is refused only if
//!   allocation fails (`refused`); what is emitted out of place there is refused as `Failed` (`misplaced`); after
//!   the end every token is (`ended`), and after a refused call (`failed`). It has failed exactly where a call was
//!   refused (`works`, `over`), and may be called again whatever it answered (`fit`)
//! - `end`: the tree stays as it is; it is refused only if allocation fails, unless a call was refused before; then
//!   it answers `Failed`. It has failed exactly where a call was refused, and may be called again whatever it
//!   answered
//! - `has_failed`: whether a call was refused
//! - `emits_twice`, `ends_twice`: for every sink of trees: the call after a refused one can be made, and is
//!   refused as `Failed`
//! - `adjusted_current_node_present_but_not_in_html_namespace`: as the table says
//! - laws of `TreeBuilder` as a sink: `rules_table_laws`'s: texts joined, an empty text changes nothing, an error ends
//!   at most the rule of the line feed, what is welcome stays so
//!
//! Each is over any sink of trees, and so is every condition that the sink asks of its caller. Not pinned: that the
//! builder notifies its sink of popped elements and of lines, that it passes parse errors on, and that it passes on
//! none of its own.
#![tactic(auto)]

mod others;
mod rules;
mod runs;
mod settling;
mod tags;
mod text;
mod text_classes;
mod text_rules;

pub use settling::{take_comment, take_doctype, take_null, take_page_end, take_tag};
pub use text::take_text;
