//! Blocks of lines: text that is wrapped, borders, prefixed blocks and rows of cells.
//!
//! # What is proved
//!
//! What a block of lines holds is a function of its fields (`laid_of`): its lines, each with whether it has
//! content; the text that runs, kept as data until it ends, and the tag of the spaces that are to fill its lines;
//! whether the next text starts a block; the markers that wait for a line of text; the cells that go on from the
//! last row. How wide lines are, and the tag of what is added, come with each call.
//!
//! - `flush`: the text that runs becomes lines, each after the markers that waited, and filled where lines are;
//!   the markers that found none wait
//! - `add_empty_line`, `start_block`, `start_table`, `end_block`, `start_awaited`: an empty line after what runs;
//!   one only where a line has content, by a number that is kept beside the lines, so that none is looked at again;
//!   no cells that go on; the next text starts a block
//! - `add_text`, `is_ignored`, `record_frag_start`: text after what runs, a text of another mode ending it unless
//!   one of the two is empty; after a block normal text of white space alone is none; a marker in the text that
//!   runs, which waits for the next word and gives it no mode
//! - `add_more`: text of one tag, added just as `add_text` adds it, whatever the measure and the tag that would
//!   fill lines, where a text runs that it does not end, and no block is awaited; whether it was, and where not,
//!   the block is as it was; refused only if allocation fails. That it does add where it may no clause says
//! - `break_line`: a line of text that has columns ends, else there is an empty line
//! - `add_horizontal_border`, `put_border`, `add_slashes`: a border of so many columns
//! - `begin_text`: what an empty text does, without its tags
//! - `add_block`: the lines of another block, each after its prefix, borders made text; where there is no prefix,
//!   no marker and no filling, 32 lines or more become wide texts, which are not looked at again
//! - `add_row`: the row that `across` makes of the cells: the last line, where it is a border, is the one above; a
//!   line has content where it has a character
//! - `into_lines`, `into_laid_lines`, `is_empty`: the lines, borders filled where lines are; those that are laid
//!   out; no line, and no running text that has a column
//! - all of them: the texts of lines and of what runs stay joined in each call (`HasJoinedTexts`), refused or not,
//!   and `into_lines` gives joined ones; so do the lines of `into_laid_lines`, once wide texts among them are taken
//!   one by one (`into_vec`)
//! - all that may be refused: each call is one equation on what the block holds; it is refused as `TooNarrow` only
//!   where the equation has no answer, and else as `Memory`
//!
//! A refused call leaves a part of what it was to add.
//!
//! `block_layout_laws` has what follows for lines: `calls_keep_the_width` (where overflow is off, each call keeps every
//! line within the block's width, if borders, cells and prefixed blocks that are added have room in it),
//! `overflow_never_refuses` (where it is on, no call is too narrow) and `cells_hang_until_a_row` (no call but a row
//! and the start of a table touches the cells that go on). The first two hold of lines of text that are added as
//! they stand too. `calls_heed_no_tags` says of sixteen words of a block's calls (what runs ends, text, markers,
//! breaks, borders, blocks, rows, and the lines at the end) that they make of a block under other tags what they
//! make of it, under those.
#![tactic(auto)]

mod block;
mod inline;
mod lines;
mod measure;
mod prefixed;
mod rows;
mod running;
mod texts;

pub use block::BlockLayout;
pub use measure::Measure;
