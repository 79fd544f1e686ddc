//! What is written of a tree (WHATWG HTML, 13.3): what a serializer is given, one that writes HTML, and the walk of a
//! tree.
//!
//! # What is proved
//!
//! A serializer is seen by an abstract state and by what each call may make of it (`means`); `IsEmitted` is a list of
//! calls, made one after the other up to the first that is refused.
//!
//! - `Serializer`: what each call, with its reply, makes of the state: `means`
//! - each call of `HtmlSerializer`: its `means` is `Means`: what is written (escaped text, tags, comments; nothing
//!   within a void element; text as it is in the elements of raw text, and in `noscript` where scripts are run),
//!   which entries are open then, that a call that is refused, since allocation fails or there is no parent,
//!   changes nothing, and that a fault of the writer leaves a beginning
//! - `HtmlSerializer::new`, `into_writer`: one open entry, the options, the writer; allocation failure is the one
//!   refusal; the writer given back
//! - `Serialize`: a node emits the calls of its walk (`calls_of`), in turn
//! - `serialize`: the writer has grown by the walk's text (`ok`), or by a beginning of it (`part`); `Write` comes
//!   only where the writer has failed (`failed`), a failed writer stays failed (`stays`), and a walk never wants a
//!   parent (`kinds`)
//! - `SerializeOpts::default`, `TraversalScope::try_clone`: scripts are run, what stands in the node alone is
//!   written, no parent is made up; an equal scope
//! - `an_escape_emits_its_text`, `an_escape_holds_no_markup`: laws: two texts with equal escapes are equal; an
//!   escape holds no `<` and no `>`, that of a value no `"`
//! - `a_walk_goes_one_step_on`: a law: what is written of a node is what its kind says, with what is written of
//!   what stands in it; the bound on the depth that the definition takes doesn't matter
//! - `what_a_walk_emits_is_written`: a law: what the calls of a walk make a serializer write is the walk's text
//!
//! Tested (`test_trees`): each call of an `HtmlSerializer`, with texts written down from the standard; a second end
//! tag without an entry, and a text and a start tag after it; a writer that fails at each of its first twelve
//! writes; and each request for memory refused in turn (`rt try --test --fail-alloc N`, tried for six of them).
//!
//! Not pinned: a `serialize` that always answers `Memory`. That what was written is read back as the same tree is
//! proved of documents (`written_document_laws`), and of escaped texts and values (`document_laws`); of comments,
//! doctypes and raw text it does not hold (the standard says so). `rt plant` ran on this crate: of the 42 wrong bodies
//! that it could judge 41 are refused; it lets through other words of the faults.
#![tactic(auto)]

mod entries;
mod escape;
mod fault;
mod html_serializer;
mod laws;
mod lent;
mod options;
mod serializer;
mod tags;
mod walk;
mod whole_walk;
mod writes;
mod written_calls;

pub use fault::SerializeFault;
pub use html_serializer::HtmlSerializer;
pub use laws::{
    a_walk_goes_one_step_on, an_escape_emits_its_text, an_escape_holds_no_markup,
    what_a_walk_emits_is_written,
};
pub use options::{SerializeOpts, TraversalScope};
pub use serializer::Serializer;
pub use walk::Serialize;
pub use whole_walk::serialize;
