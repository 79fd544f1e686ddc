//! Laws of documents: their trees rebuild, and escaped text is read back.
//!
//! # Documents rebuild
//!
//! Documents rebuild: the rule table over the tokens of a document's tree gives that tree (WHATWG HTML, 13.2.6).
//!
//! ## What is proved
//!
//! Documents here are paragraphs, headings, divisions, lists with and without numbers, line breaks, `b`, `i`, `em`,
//! `code`, links and texts, nested as documents nest them (`IsBlocks`, `IsInlines`): no two texts side by side, no
//! link within a link, after a doctype, `html`, `head` with at most a `title`, and `body`.
//!
//! - `documents_rebuild`: the rule table over the tokens of such a document, from the beginning of a page on, gives
//!   the tree itself (`document_tree`)
//! - `inlines_rebuild`, `blocks_rebuild`: the same for parts in the body, after any tokens; after inline contents
//!   some of the active formatting elements are left, not always all: of four `<b>` in one another the first is no
//!   longer listed
//! - `a_planted_tree_is_at_once`: a tree that is planted node by node is the closed form: which nodes there are,
//!   and whose children
//! - `documents_ask`: along the tokens of a document tree construction asks the tokenizer to read the text of its
//!   title as RCDATA, and asks nothing else
//!
//! They are laws over definitions alone, and the edits change what a document is, its tree and what is asked; that
//! a document's written form has these tokens is `written_document_laws`' law.
//!
//! # Escaped text
//!
//! Escaped text is read back as the text, as laws over definitions alone (WHATWG HTML, 13.3 and 13.2.5).
//!
//! ## What is proved
//!
//! Laws over definitions alone, for a table of references that knows `amp;`, `lt;`, `gt;`, `quot;` and `nbsp;` and
//! has no name with a semicolon before its end (`KnowsEscapes`), and for texts without NUL.
//!
//! - `an_escaped_text_is_read_back`: in ordinary text and in RCDATA, for every lawful sink, whatever follows: the
//!   reading of an escaped text and a rest is the reading of the rest after the text itself, in both directions
//! - `an_escaped_value_is_read_back`: an escaped value between quotes ends at the second quote, whatever follows,
//!   and its reading is the value
//! - `the_basic_table_knows_escapes`: the table of the five basic references is such a table
//! - `a_table_of_these_names_knows_escapes`: so is every table of references (`ReferenceTable`) in which the five
//!   names stand for their characters
#![tactic(auto)]

mod escaped;
mod rebuilt;
mod rows;

pub use escaped::{
    a_table_of_these_names_knows_escapes, an_escaped_text_is_read_back,
    an_escaped_value_is_read_back, the_basic_table_knows_escapes,
};
pub use rebuilt::{
    a_planted_tree_is_at_once, blocks_rebuild, documents_ask, documents_rebuild, inlines_rebuild,
};
