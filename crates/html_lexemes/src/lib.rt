//! The lowest layer of the HTML parser: names, attributes and tokens, the queue that characters wait in, the faults of
//! a parser, and the definitions of line ends; with the texts, the tables of named character references and the
//! devices that it stands on.
//!
//! # What is proved
//!
//! - `LocalName`: made of a text and given back as the same list of code points; `try_clone` equals its source;
//!   `==`, `<` and the hash are those of that list, and the laws of `Eq`, `Ord` and `Hash` hold. The order of the
//!   bytes is shown to be that of the code points
//! - `LocalName::from_known`, `known`: the name that a known name is; the known name that a name is, or `None`
//! - `Namespace`, `QualName`, `Attribute`, `Attributes`: `try_clone` equals its source; `push` adds after;
//!   comparisons by their parts, with their laws; `equal_names_are_the_same` (names and attributes are found equal
//!   exactly where they are the same)
//! - `Tag::equiv_modulo_attr_order`: true exactly where kind and name are equal and the attributes a permutation;
//!   `tags_are_equivalent` (an equivalence)
//! - `Tag`, `Doctype`, `ErrorMessage`, `Token`, `TokenSinkResult`, `ProcessResult`: `try_clone` equals its source;
//!   the message lent; `==` by the parts
//! - `states`: `State`, `RawKind`, `ScriptEscapeKind`, `DoctypeIdKind`, `AttrValueKind`: equality, order and
//!   hashing with their laws
//! - `BufferQueue`: seen as one text and a count: `new`, `is_empty`, `peek`, `push_back`, `push_front` exactly;
//!   `next` and `pop_front` take a front and count it; `pop_except_from` takes a character of the set, or a run of
//!   others, at least one; `pop_run_into` takes a run of others, perhaps none, and puts it after a text; `eat`
//!   answers `None` exactly where the queue ends inside a match, `Some(true)` and the match is taken, or
//!   `Some(false)` at a character that differs, and nothing is taken; a refused call leaves the queue as it was
//! - `Attributes::truncate`, `Attributes::share`: the first attributes alone; the attributes as they were, refused
//!   or not (that copies then take no memory no clause says)
//!
//! That `peek`, `next`, `pop_front`, `is_empty` and `equiv_modulo_attr_order` take no memory is seen in their
//! signatures, which have no answer for want of it.
//!
//! What is not pinned, so that a wrong body would still be proved: a `pop_run_into` that takes less than the
//! longest run, or nothing; a `share` that shares nothing; a `push` that takes more room than the attribute needs.
//! They would be slower or take more memory, and emit the same. `rt plant` has not run on these two.
//!
//! Only tested (in `test_tokens`): the texts of the faults, and that calls succeed where memory is found, here and
//! in the three crates before this one. `rt plant` lets through: other texts of faults.
#![tactic(auto)]

mod attributes;
mod fault;
mod first_text;
pub mod laws;
mod names;
mod queue;
mod rows;
mod runs;
pub mod states;
mod token;

pub use attributes::Attributes;
pub use fault::ParseFault;
pub use lex_base::{
    ByteReader, ByteWriter, Device, DeviceFault, KnownName, NamedReference, ReferenceTable,
    TableError, Text, known_of,
};
pub use names::{Attribute, LocalName, Namespace, QualName};
pub use queue::{BufferQueue, SetResult};
pub use token::{Doctype, ErrorMessage, ProcessResult, Tag, TagKind, Token, TokenSinkResult};
