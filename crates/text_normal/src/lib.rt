//! Normal text: words filled into lines, with markers on them.
//!
//! # Words after single spaces
//!
//! Words of visible ASCII after single spaces: how many columns such words take, where a text is no more than they.
//!
//! ## What is proved
//!
//! - `words_in_front`, `words_before_space`, `line_before_space`: that words of visible ASCII stand in front of a
//!   text, each after a space (of `line_before_space` all but the first), how many columns they take with their
//!   spaces, at most those there is room for, and what follows them, or that one more space ends the text. That
//!   they find any no clause says
//! - `ended`, `without_last`: the text as it is, or one that ends in visible ASCII with a space after it, refused
//!   only if allocation fails; a text without its last character
//! - `is_visible_ascii`: whether a character is between `!` and `~`
//!
//! Not pinned: that words are found. A `words_before_space` and a `line_before_space` that always answer none, and
//! a `words_in_front` that finds no word, would be proved; what stands on them would lay each word by itself, and
//! lay the same lines. `rt plant` has not run on it.
//!
//! # Lines of words
//!
//! Normal text: words filled into lines, with markers on them.
//!
//! ## What is proved
//!
//! - `lay_normal`, and `lay_owned`, which takes the text and moves what it can: exactly the lines of a normal text
//!   (`normal_lines`), each character with its tag, white space as one space with its first character's tag, and
//!   the names of the markers that wait after it; `TooNarrow` exactly where a character that a line is to show is
//!   wider than the width and overflow is off; joined as above
//!
//! Markers are placed by definition: each is a letter without columns that rides on a word.
#![tactic(auto)]

mod filling;
mod marked;
mod marked_tag;
mod normal;
mod normal_lines;
mod shown;
mod spaced_words;
mod word_ends;

pub use normal_lines::{lay_normal, lay_owned};
pub use spaced_words::{
    ended, is_visible_ascii, line_before_space, without_last, words_before_space, words_in_front,
};
