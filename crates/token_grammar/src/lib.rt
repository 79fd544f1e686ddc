//! The grammar of a page's text, and its reading: what a page emits to a sink of tokens.
//!
//! # What is proved
//!
//! - `TokenSink`: what a sink promises: the state after a token is its step, its answer its reply, by an item
//!   without wording and lines (`means`, of `Meaning.antt`); a token that it welcomes it refuses only if allocation
//!   fails, and so its end after an end that it welcomed; the laws `IsLawful` and `IsHearing`
//! - `TokenizerOpts::default`: the options that it gives (`default_options`)
//! - `read_plainly`: for every sink that keeps the laws, and is ready for the kind of text in which the page
//!   begins: where it isn't refused, the sink is left as the reading of the page's text leaves it, in the mode that
//!   the options name, and the end is emitted last; it is refused only if allocation fails (`memory`)
//! - `text_of_a_kind`: a law: in text that isn't ordinary only characters, errors, end tags and nothing are read,
//!   and only after a tag ordinary text follows it
//! - `first_of_each_name`: a law: the attributes that stay are the first of each name, in the order of the tag,
//!   none is lost, and there is one such list
//! - `value_in_turn`: a law: an attribute's value is its characters and references in turn, and nothing else is
//! - `tag_is_its_slice`: a law: a tag's name, its gaps, its attributes with their names, equals signs, quotes and
//!   values, and its `>`, put side by side, are its slice; and what has such a slice is read as that tag
//! - `one_reading`, `some_reading`: laws, for every sink: a text has at most one reading, and has one
//! - `cut_is_shortest`, `named_is_longest`: laws: a slice before a mark is the shortest, and where none is found
//!   there is no mark; a name that is found is the longest of the table
//!
//! Each part of the plain reader is proved to give what the grammar gives (`reference`, `value_of`, `tag_at`,
//! `comment_slice`, `bogus_comment_slice`, `doctype_at`, `lexeme_at`, each with an exact contract). `rt plant` has
//! run on this crate's public calls: of 141 wrong bodies that it could judge 139 are refused. It lets through
//! another line for the tokens that `emit_lexemes` and `emit_tokens` tell: lines are tested. What stands after a
//! refusal of the plain reader is not said. That it does read where memory is found is tested: a reader that always
//! answers `Memory` would be proved.
//!
//! Only tested: that the grammar is the standard's. This is shown by rows: those computed in `test_grammar`; a page
//! of test_tokens whose sink chooses the kind of text; the cases `tokens` of stored_rows, pages with what the
//! standard's rules say of them, and among them 600 vectors, which a model written apart from it made. The vectors
//! have no escaped part of a script and no public or system identifier: those rules stand on the rows.
//!
//! A tag's attributes are compared with those before it by a scan up to sixteen, and by a set of names from there
//! on, so that a tag with many takes time in step with n log n; no clause speaks of time.
#![tactic(auto)]

pub mod characters;
pub mod comments;
mod doctypes;
pub mod laws;
pub mod lexemes;
mod modes;
pub mod plain;
mod references;
mod sink;
pub mod slice_laws;
pub mod slices;
pub mod tag_laws;
pub mod tags;

pub use modes::{Mode, TextKind};
pub use plain::read_plainly;
pub use sink::{TokenSink, TokenizerOpts};
