//! Laws of the rule table of tree construction (WHATWG HTML, 13.2.6).
//!
//! # Marks are not handed on for ever
//!
//! A mark of a page is not handed on for ever in tree construction (WHATWG HTML, 13.2.6).
//!
//! ## What is proved
//!
//! - `the_rank_falls`: where the rule hands a mark on, its rank (16 for each open table or template, and the mode's
//!   place in the order in which modes hand such a mark on) falls: for every mark and every state that is ready
//! - `a_mark_comes_to_what_its_rule_gives`: what a mark comes to is what its rule gives, and where that hands it
//!   on, what it comes to there: the number of steps in the definition doesn't matter
//!
//! # A lawful sink of tokens
//!
//! What tree construction means to a tokenizer (WHATWG HTML, 13.2.6): the rule table is a lawful sink of tokens, and
//! hears all that it asks for.
//!
//! ## What is proved
//!
//! - `tree_construction_is_lawful`: the rule table is a lawful sink of tokens: texts joined, an empty text changes
//!   nothing, tags alone are answered, what is ready stays so, an error ends at most the rule of the line feed
//! - `tree_construction_hears`: what is welcome beside an item is welcome after it, and after a tag what is
//!   emitted in the text that it asked for: so nothing that a page emits is refused but where allocation fails
//!
//! # Runs of text
//!
//! Runs of text in tree construction: what characters come to that an insertion mode treats alike, as laws (WHATWG
//! HTML, 13.2.6.1 and 13.2.6.4).
//!
//! ## What is proved
//!
//! `runs_of_text`: a run of characters that a mode treats alike (ignores, inserts, inserts after a reconstruction,
//! keeps for a table, or takes as foreign content) comes, character by character, to what one action with the whole
//! run makes; and text that is handed on comes to the same in the mode that stands then.
#![tactic(auto)]

mod meaning;
mod ranks;
mod text_class;
mod texts;

pub use meaning::{tree_construction_hears, tree_construction_is_lawful};
pub use ranks::{a_mark_comes_to_what_its_rule_gives, the_rank_falls};
pub use text_class::TextClass;
pub use texts::runs_of_text;
