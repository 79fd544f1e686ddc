//! Laws of the trees of pages, of the rule table alone (WHATWG HTML, 13.2.6).
//!
//! # Text is kept
//!
//! The text of a page is kept in its tree (WHATWG HTML, 13.2.6): a law of the rule table.
//!
//! ## What is proved
//!
//! Laws that catch a rule table and a builder that misread a mode alike, since they speak of text alone.
//!
//! - `text_is_kept`: for any items of a page, before its end, among which no start tag is `template` or `frameset`:
//!   each character that is neither white space nor U+FFFD stands in the forest's text nodes, or among the pending
//!   characters of a table, as often as it was emitted
//! - `the_text_of_a_page_is_kept`: the same for the reading of a page, to its end, after which nothing is pending
//!
//! White space is dropped by some modes, and U+FFFD stands for NUL in foreign content. A template's columns and a
//! page of frames drop other text too, so that no start tag of theirs may be emitted.
//!
//! # The skeleton of a page
//!
//! The skeleton of a page's tree (WHATWG HTML, 13.2.6): a law of the rule table.
//!
//! ## What is proved
//!
//! - `a_page_has_its_skeleton`: of a page that is read from a document without elements, by the grammar and the
//!   rule table, to its end: the document has one child element, `html`, whose first two child elements are `head`
//!   and then `body`; where a start tag `frameset` was emitted, `body` or `frameset` (`IsSkeleton`)
//!
//! It holds for every text, with templates, framesets, tables, foreign content and misnested formatting in it, and
//! for any options that a page begins with. Which elements stand in `html` after those two is not said. The
//! definitions are computed on rows. No body stands after the law: its wrong bodies are edits of the definitions.
//! Of bugs that were planted in the rule table, a title after the head that is inserted at its place is refused
//! here, a head or a body of another name by the law on ranks already.
#![tactic(auto)]

mod rows;
mod skeleton;
mod text;

pub use skeleton::a_page_has_its_skeleton;
pub use text::{text_is_kept, the_text_of_a_page_is_kept};
