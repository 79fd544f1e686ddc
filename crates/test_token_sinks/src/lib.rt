//! Two sinks of tokens that do something with what they are given: one keeps it, and one is a small model of a tree
//! builder. They show that a sink whose state moves can meet the laws of sinks, also where it says in which
//! states it may be called.
//!
//! # What is proved
//!
//! - `KeptTokens`: it has kept the tokens that it was given, in their order, texts that follow each other as one,
//!   an empty text and errors left out (its step, `kept_after`); `tokens` lends them; it meets the laws
//! - `PreformattedText`: a small model of a tree builder: the names of the open elements, and the text, in which a
//!   LF right after the start tag of `pre` is left out, but not after an error (its step, `page_after`); it may
//!   be called only where an element is open, which each token leaves so, and it meets the laws
//!
//! They show that the laws of sinks can be met by one that does something. With `KeptTokens` each row and each of
//! its vectors is an instance of `read_pieces`' theorem on what is kept; that the kept tokens are written as the
//! rows and vectors have them is tested. No sink of today refuses anything but where allocation fails, so each
//! welcomes every item, and no sink shows that one which welcomes less can meet the laws.
//!
//! What is not pinned: that memory is found; the rows call both sinks with ample memory. `rt plant` has run on this
//! crate's public calls: all 19 wrong bodies that it could judge are refused, and one of `PreformattedText` it
//! could not judge.
#![tactic(auto)]

mod kept_tokens;
mod preformatted_text;

pub use kept_tokens::KeptTokens;
pub use preformatted_text::PreformattedText;
