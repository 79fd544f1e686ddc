//! Rows of cells beside one another: lines and the borders above and below them, and what goes on into the next row.
//!
//! # What is proved
//!
//! `lay_across` makes of a border above, of cells and of the cells that go on from the row before just the row that
//! `across` (text_borders) says: the border above, joined; the lines; the border below, in which what goes on makes
//! holes; and what goes on. Its error is allocation failure. No text of a line is empty, and none stands next to
//! one with an equal tag, whatever stands in the cells, but for the lines of a single cell that has 32 or more
//! (`RowLines::Wide`).
//!
//! Those are wide texts (`WideTexts`): each is known to have at least so many columns, and each has content where
//! it has a character. A row of one cell of no more columns leaves them as they are, and two lists of them become
//! one in as many steps as the shorter has; so tables within one another take each line once, not once for each
//! level. What a list of lines holds (`BlockLines`, `WideTexts`) is a list to every contract, and each call one
//! equation on it: lines and texts at the end, the last line or the first text taken off, the lines one by one,
//! each joined (`into_vec`). That the shorter list is the one that is moved, and that a row leaves any text as it
//! is (`are_kept` may always say no, `are_many` anything), no clause says, nor that `BlockLines::pop` gives a text
//! that is the last line; `bench/hostile.py` counts it.
#![tactic(auto)]

mod across;
mod alone;
mod block_lines;
mod cell;
mod cell_lines;
mod columns;
mod going_on;
mod joining;
mod laid_line;
mod line_queue;
mod line_vec;
mod opening;
mod part;
mod row_lines;
mod seating;
mod wide_texts;

pub use across::lay_across;
pub use block_lines::{BlockLines, joined_line};
pub use cell::{HangingCell, LineSet, Row, RowLines};
pub use laid_line::{LaidLine, LaidText};
pub use part::Part;
pub use wide_texts::WideTexts;
