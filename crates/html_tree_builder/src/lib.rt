//! The parser of pages and fragments: a tree builder that is fed by the tokenizer.
//!
//! # Parsers
//!
//! Whole pages into trees: the tree builder, fed by the tokenizer. What its calls name of the crates below it is
//! exported here too.
//!
//! ## What is proved
//!
//! Its public clauses speak of a parser by words that are whole for those who call it (`Parsers.antt`): whether a
//! call was refused (`has_failed`), whether it may be called (`IsFit`), and what it was fed with and a rest of the
//! page come to (`Completes`). No crate above is to unfold them.
//!
//! - `parse_pieces`: for every sink of trees whose nodes are a forest, and any list of pieces: where it isn't
//!   refused, the finished tree and its quirks mode are those of the page (`grown`, by `IsTreeOfPage`): what the
//!   rule table makes of the reading of the whole page's text; it is refused only if allocation fails (`memory`)
//! - `parse_document`: the parser has not failed, may be called, and whatever a page comes to from there is its
//!   reading by the rule table (`begins`)
//! - `Parser::process`: what the parser was before, the piece and any rest of the page come to is what the parser
//!   is then and that rest come to (`reads`). It is refused only if allocation fails, unless an earlier call was
//!   refused (`memory`); then it answers `Failed` (`failed`). It has failed exactly where a call was refused
//!   (`works`), and may be called again whatever it answered (`fit`)
//! - `Parser::process_all`: the same for pieces one after another; after a refused call it is refused without
//!   pieces too (`failed`, `works`)
//! - `Parser::has_failed`: whether a call was refused
//! - `Parser::error`: the same, with no piece: nothing but the sink's errors changes, and neither forest nor quirks
//!   mode
//! - `Parser::finish`, `Parser::one`: the finished tree is what the parser was fed with, and no more (`one`: and
//!   this piece), comes to; refused as the others
//! - a drop of a `Parser`: nothing: that the page isn't ended, and no memory is asked for, no clause says
//! - `parse_fragment_for_element`: the same as `parse_document`, for a context that is an element of the sink, with
//!   the form that it stands in: whatever a fragment's text comes to from there is its reading, begun as the
//!   context says, by the rule table (`FragmentReadsTo`); refused only if allocation fails
//! - `parse_fragment`, `parse_fragment_pieces`: the same for a context of a name and attributes, which is made for
//!   it; and, of a list of pieces, the finished tree and quirks mode (`IsTreeOfFragment`), however it is cut
//! - `ParseOpts::default`: the defaults of both parts
//! - `a_fragment_has_one_tree`: a law: the same as the next one, of fragments
//! - `a_page_has_one_tree`: a law: two trees of one page, for equal options and first nodes, are equal, and so are
//!   their quirks modes. So two parsers that are fed the same text in other pieces leave equal forests
//!
//! So a page never meets the builder's refusals: each of these calls is refused only if allocation fails, or after
//! such a refusal. Not pinned: that an error from outside reaches the sink, and a call that always answers
//! `Memory`.
//!
//! Tested (`test_trees`): a fragment whose context stands in a form, and each call of a parser once. stored_rows has
//! an independent model's 600 cases, 137 fragments among them, as that model has them, and 66 pages and fragments
//! worked out from the standard's words, each whole, a character at a time and, where it has at most 64 bytes, cut
//! in two everywhere, and ends with status 1 where they differ. An earlier program, of whole pages alone, wrote a
//! beginning of its output and said so with each request for memory refused in turn; stored_rows has not been run
//! so to its end. `rt plant` ran on html_tree_builder: the 24 wrong bodies that it tried are refused; it tries none
//! of `parse_document`, `finish` and `one`, of which the first and the last have wrong bodies of their own.
//!
//! # The tree builder
//!
//! The tree builder: a sink of tokens that builds the tree of a page in any sink of trees (WHATWG HTML, 13.2.6).
#![tactic(auto)]

mod builder;
mod fragment;
mod fragments;
mod items;
mod laws;
mod options;
mod pages;
mod parser;
mod refusals;
mod sink;

pub use builder::TreeBuilder;
pub use fragment::context_state;
pub use fragments::{parse_fragment, parse_fragment_for_element, parse_fragment_pieces};
pub use html_lexemes;
pub use html_tokenizer::{TokenSink, Tokenizer, TokenizerOpts, TokenizerResult};
pub use html_tree_state;
pub use laws::{a_fragment_has_one_tree, a_page_has_one_tree};
pub use options::ParseOpts;
pub use pages::{parse_document, parse_pieces};
pub use parser::Parser;
pub use refusals::{emits_twice, ends_twice};
pub use rules_table::TreeBuilderOpts;
pub use tree_forest::TreeSink;
