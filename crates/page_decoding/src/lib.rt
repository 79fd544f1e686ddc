//! Bytes that come in pieces, read as UTF-8.
//!
//! # What is proved
//!
//! - `Utf8LossyDecoder::push`, `finish`: for every rest: the replaced text of what was held, the piece and the rest
//!   is what `push` gives and the replaced text of what is held then and the rest; only an unfinished beginning is
//!   held, at most three bytes; after a refusal every call is `Failed`
//! - `decoded_text` (test_pages): the text of pieces is the replaced text of the pieces joined
#![tactic(auto)]

mod decoder;

pub use decoder::Utf8LossyDecoder;
