//! Columns of characters, and tagged text: what a line of laid out text is made of.
//!
//! # What is proved
//!
//! - `UnicodeColumns::columns`: `unicode_width`'s columns, at most two; one for printable ASCII and the characters
//!   of borders; none where a character has no width. The laws of `Columns`
//! - `EqualCopy` for `()` and for a `Vec` of such; `copies`: a copy equals its source, and `==` tests just that;
//!   copies of a list's tags equal these, in order, in every `impl`
//! - `TaggedString`, `TaggedLineElement`: `width` is the sum of the characters' columns; `as_str`; `map_tag`
//!   changes the tag alone; `try_clone` equals its source
//! - `equal_strings_are_seen_alike`, `equal_elements_are_seen_alike`, `equal_lines_are_seen_alike`: laws: `==`
//!   finds two tagged strings equal exactly where their characters and tags are, two elements exactly where they
//!   are such texts or markers of one name; lines that are found equal have the same tagged characters and markers,
//!   and joined lines that have them are found equal
//! - `TaggedLine`: each call by the line's characters with their tags and its markers; what is pushed joins a text
//!   of an equal tag and no other (`joined`); `push_marker` and `append_marker` add a marker at the end,
//!   `push_front` a text in front; `reserve` changes nothing; `width`; `push_spaces` as so many spaces, `append` as
//!   what another line has, which is empty then; `into_only_text` gives the text and its tag, or the line as it
//!   was; `map_tag` changes tags alone; `try_clone`, which keeps a line joined; `is_joined`: where it answers yes,
//!   no text is empty and none stands next to one with an equal tag (that it does so wherever it may, no clause
//!   says); a refused `push_str`, `push_char`, `push_front`, `push_marker`, `append_marker`, `push_line` or
//!   `append` leaves the line as it was (`append` the other one too); the iterators `iter`, `chars`,
//!   `tagged_strings` and by value: what comes, and that they end
//!
//! `rt plant` ran on its public calls before `push_marker` was there: of 37 bodies that it could judge 36 were
//! refused, and the other, `copy` of `()` returning itself, is right. A line of more than 2^64 columns, which no
//! memory holds, is answered as allocation failure. `roomy_copy` gives an equal text. Not pinned: that this, and a
//! line after `reserve`, has room for more; that `into_only_text` finds a line of one text; and which of its spaces
//! a refused `push_spaces` leaves (it leaves some of them at the end, by its code).
#![tactic(auto)]

mod columns;
mod equal_copy;
mod joining;
pub mod laws;
mod line_iterators;
mod spaces;
mod tagged_line;
mod tagged_string;

pub use columns::{Columns, UnicodeColumns};
pub use equal_copy::EqualCopy;
pub use line_iterators::{LineChars, TaggedStrings};
pub use tagged_line::TaggedLine;
pub use tagged_string::{TaggedLineElement, TaggedString, columns_of, roomy_copy};
