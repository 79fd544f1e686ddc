//! What a text is made of: characters with tags, and markers between them; modes of white space; why a block refuses.
//!
//! # What is proved
//!
//! - `WhiteSpace::preserve_whitespace`, `do_wrap`, `Default`, `==`: by the mode
//! - `is_white_space`, `is_break_point`, `width_of`, `first_char`, `last_char`, `cut_at`, `split_before`,
//!   `has_text`, `names_before`: what their names say of characters, texts and lines; the crates above use them
//! - `TextPiece::new`, `wrap_tag_or_main`, `try_clone`, `Piece::try_clone`, `push_text`, `extend_last`: a piece of a
//!   text under two tags, the second held only where it is another; that tag; an equal piece; a text after pieces,
//!   which joins the last where its tags are equal; more text of the last piece: each by the characters with their
//!   tags that the pieces stand for (`sources_of`)
//! - `Display` of `BlockError` and `TooNarrow`, `From` of allocation failure: the texts, exactly; `Memory`
#![tactic(auto)]

mod characters;
mod fault;
mod joining;
mod laid;
mod markers;
mod piece;
mod white_space;

pub use characters::{
    cut_at, first_char, has_text, is_break_point, is_white_space, last_char, split_before, width_of,
};
pub use fault::{BlockError, TooNarrow};
pub use joining::{extend_last, push_text};
pub use laid::LaidText;
pub use markers::names_before;
pub use piece::{Piece, TextPiece};
pub use white_space::WhiteSpace;
