//! Source lines whose white space stays, on lines of at most a width.
//!
//! # What is proved
//!
//! A source line whose white space stays is cut into parts, which are laid one after another on lines of at most a
//! width: that is the definition (`preserved_lines`), with the markers that wait after it (`preserved_waiting`)
//! and when a character is too wide (`is_too_wide`), computed on rows.
//!
//! - `lay_preserved`: exactly those lines, each character with its tag, and the names of those markers; `TooNarrow`
//!   exactly where a character is too wide and overflow is off; no text of a line is empty, and none stands next to
//!   one with an equal tag. It reads the line once, whatever pieces it comes in
//! - `lay_line`: where it gives a line, that is the only one of the source line, whatever the further tag is: no
//!   marker waits, no character is too wide, and it is joined. Fails only if allocation fails. That it gives one
//!   where it may, no clause says
//! - `take_line`: the same of pieces, which are gone where it gives a line and stay where it gives none; what an
//!   error leaves of them no clause says
//!
//! - `preserved_lines_keep_the_width`: where no body has a character that is wider than the width, no line passes
//!   the width, whatever it is
//! - `preserved_lines_show_each_character`: white space aside, the characters of the lines are those of the source
//!   line that have a width, in order
//! - `preserved_lines_keep_markers`: each marker stands on a line or waits, in order
//! - `a_line_that_fits_is_itself`: a source line of shown characters and spaces that fits the width is one line,
//!   itself, under its first tags
//! - `preserved_lines_heed_no_tags`: the same source line under other tags has the same lines, with those tags, the
//!   same markers that wait, and is too wide where it was
//!
//! They are laws over definitions alone, each the contract of a function with an empty body, so there is no edit of
//! one.
#![tactic(auto)]

mod breaking;
mod fronts;
mod kinds;
mod laws;
mod laying;
mod plain_lines;
mod preserved;
mod reading;
mod rows;
mod source_line;

pub use laws::{
    a_line_that_fits_is_itself, preserved_lines_heed_no_tags, preserved_lines_keep_markers,
    preserved_lines_keep_the_width, preserved_lines_show_each_character,
};
pub use plain_lines::{lay_line, take_line};
pub use preserved::lay_preserved;
