//! Text laid out in blocks: words wrapped into lines of at most the block's width, or source lines preserved.
//!
//! # What is proved
//!
//! What a block holds is a function of its fields (`block_of`): its width, whether overflow is allowed, the tag of
//! its padding, the lines that are done, and the mode and the text of what has not ended, one source line where
//! white space is preserved.
//!
//! - `TextBlock`: a block that has not been refused anything, with the calls below; what a refusal leaves of it is
//!   not stated
//! - `WrappedBlock::new`, `add_text`, `record_frag_start`: an empty block, which is a `TextBlock` and whether it
//!   has failed; the text after the text before it, each character with its tags, each LF of preserved text ending
//!   a line, a text in another mode ending the one before, and an empty text changing nothing (`added`); a marker
//!   after it
//! - `TextBlock::add_more`: text of one tag, added just as `add_text` adds it under that tag twice, where it is
//!   empty, or of the mode of the text so far and not preserved; whether it was, and where not, the block is as it
//!   was; refused only if allocation fails. That it does add where it may no clause says: one that never does would
//!   meet them
//! - `take_trailing_fragments`: the text so far ends, and the names of the markers after its last word are given
//!   (`fragments_taken`)
//! - `into_lines`: exactly the lines of the text (`ended_lines`), filled with spaces where asked for
//! - `break_text`, `has_columns`: the text so far ends, and whether its last line has columns is answered
//!   (`broken`); whether a line that has ended has columns, or a character is held that takes one wherever it
//!   stands
//! - `WrappedBlock::try_clone`: an equal block, its lines joined where this one's are; it has failed where this one
//!   has
//! - `pad`: a line filled with spaces up to a width, a wider one as it is
//! - all of them: `TooNarrow` exactly where a text or line that ends has a character that is wider than the width,
//!   and overflow is off; no text of a line is empty, and none stands next to one with an equal tag (`joined`)
//! - all of them: after a refusal every call is `Failed`; a call that adds is refused exactly where the block has
//!   failed when it returns
//! - `blocks_heed_no_tags`: a law: what each call makes of a block under other tags is what it makes of the block,
//!   under those
//! - `blocks_keep_the_width`: a law: where overflow is off, no line of a block passes its width, in any mode, with
//!   markers or not: an empty block has none, and each call keeps it so
//! - `text_may_be_cut_anywhere`: a law: a text that is added in two pieces is added as if it were whole
//! - `each_line_end_gives_a_line`: a law: each LF of preserved text gives a line at least
//! - `filled_lines_have_the_width`: a law: a line that is filled has just the width's columns, where it has no more
//! - `normal_lines_of_a_block`, `narrow_normal_text`, `normal_text_is_kept`: laws: the lines of a block of normal
//!   text without markers are those of its fullest legal layout; where it has none, no text that holds its letters
//!   has one; texts that are added one after another are one text
//!
//! `wrapped_lines` (test_wrapped) says of a list of tagged pieces that its lines are their fullest legal layout,
//! with no premise on a block's state; each line is within the width where overflow is off. The program does not
//! call it.
//!
//! `rt plant` ran on the crates when text_pieces was a part of preserved_text: of that 40 wrong bodies are refused,
//! and two that wrote no text of an error were let through, which clauses refuse since; of text_wrapping 43 are
//! refused and of text_normal 9, and none is let through. Since characters are taken all at once it ran again on
//! text_pieces (25 refused, none let through) and on what is new in preserved_text: 85 are refused, and eight are
//! let through that are right: they take no characters at once, or fewer (`read_front`, `read_word`, `read_body`
//! and `read_words` that leave the text, `begins_solid` that says no, `fitting_front` of width 0), so that each is
//! laid by itself. Since whole lines are laid at once it ran on functions of text_preserved whose names have `line`
//! in them, for three minutes (96 bodies were not reached): 37 are refused, and six are let through that are right,
//! since they find no whole line (`lay_line` that gives none and the four that it stands on) or add no front, so
//! that all is laid as before.
#![tactic(auto)]

mod block;
mod copies;
mod laws;
mod one_tag;
mod padding;
mod showing;
mod text_block;

pub use block::WrappedBlock;
pub use laws::{
    blocks_heed_no_tags, blocks_keep_the_width, each_line_end_gives_a_line,
    filled_lines_have_the_width, narrow_normal_text, normal_lines_of_a_block, normal_text_is_kept,
    text_may_be_cut_anywhere,
};
pub use padding::pad;
pub use text_block::TextBlock;
