//! What holds of every normal text laid on lines, said without what its calls do: laws, beside `text_normal`.
//!
//! # What is proved
//!
//! - `normal_lines_are_fullest`, `wide_text_never_fits`: the lines of a text without markers are those of its
//!   fullest legal layout (`AreLinesOf`); where a character is too wide, no text that holds its letters has a legal
//!   layout (`NeverFits`)
//! - `fewest_lines`, `one_fullest_layout`, `lines_keep_the_width`: over `AreLinesOf`: no legal layout has fewer
//!   lines; there is one list of lines at most; without overflow no line passes the width
//! - `letters_of_texts`: the letters of texts, one after the other
//! - `normal_lines_keep_the_width`: where no character that a line is to show is wider than the width, no line
//!   passes it, markers or not
//! - `normal_lines_keep_markers`: each marker stands on a line or waits, in order
//! - `normal_lines_show_each_character`: white space aside, the characters of the lines are those of the text that
//!   have a width, in order
//! - `markers_change_no_line`: where no character is too wide, the lines' characters are those of the text without
//!   its markers
//! - `normal_lines_heed_no_tags`: the same text under other tags has the same lines, with those tags, the same
//!   markers that wait, and is too wide where it was
//!
//! They are laws over definitions alone, each the contract of a function with an empty body; an edit of one changes
//! what it says.
#![tactic(auto)]

mod laws;
mod layout_laws;
mod marked_rows;
mod units_laws;
mod units_rows;

pub use laws::{
    letters_of_texts, markers_change_no_line, normal_lines_are_fullest, normal_lines_heed_no_tags,
    normal_lines_keep_markers, normal_lines_keep_the_width, normal_lines_show_each_character,
    wide_text_never_fits,
};
pub use layout_laws::{fewest_lines, lines_keep_the_width, one_fullest_layout};
