//! Where in a lexeme, what is held of it there, and what a further character makes of it.
//!
//! # What is proved
//!
//! A place says where in a lexeme the reading stands, and stands for the grammar's own lexeme of what is held there
//! and any text after it (`place_lexeme`).
//!
//! - `first_of`: what a character is that stands first in text of a kind: text, as it is shown; a NUL of ordinary
//!   text; the opening of a place, with the same lexeme; or the first that is held of an element's text (`IsFirst`)
//! - `markup_turn`: a further character of markup or of a reference is held, and every text after it gives the
//!   lexeme that it gave before, which may still become something else (`IsTaken`, `IsGoing`); or it is held and
//!   the lexeme is over, or the lexeme was over before it: then no text after changes it (`IsOver`). `None` at a
//!   place in text, where nothing is changed
//! - `raw_turn`, `section_turn`: the same in the text of an element, where a front of what is held may be text and
//!   the kind of the text change (`RawTurns`), and in a CDATA section (`SectionTurns`)
//! - `lexeme_from`: the lexeme that a whole text is from a place on is that of the grammar, and what is left of the
//!   text with it
//! - `held_stops`: the characters at which a run of what is held at a place stops; none where each is read by
//!   itself
//! - `held_run_goes_on`: a law: a run without them is held as it is, at the same place, and the lexeme goes on; no
//!   CR is in it
//! - `going_is_no_lexeme`: a law: what is held of a lexeme that goes on is no lexeme yet, whatever follows
//! - `tag_ends_with_its_mark`: a law: a tag that stands at a place ends with its `>`, right before what follows it
//! - `place_of_a_kind`: a law: what stands at a place in text of a kind is of it (`IsPlaceOf`, `LexemeOf`);
//!   `first_of` and `markup_turn` lead only to such places (`kind`)
//!
//! What is not pinned, so that a wrong body would still be proved: a turn or a `lexeme_from` that always refuses.
//! After a refusal, which is allocation failure alone, what is held is not said.
//!
//! `rt plant` has run on this crate's public calls, before the clauses on kinds of text were added: all 26 wrong
//! bodies that it could judge are refused.
#![tactic(auto)]

mod comment_turns;
mod declarations;
mod doctype_turns;
mod first;
mod held_runs;
mod last;
pub mod laws;
mod markup_turns;
mod open_turns;
mod place;
mod raw_text_turns;
mod reference_places;
mod rows;
mod script_turns;
mod section_turns;
mod tag_places;
mod tag_turns;
mod turn;

pub use first::{First, first_of};
pub use held_runs::held_stops;
pub use last::lexeme_from;
pub use markup_turns::markup_turn;
pub use place::{LexemeState, RawPlace, ReferencePlace, TagPlace};
pub use raw_text_turns::raw_turn;
pub use section_turns::{SectionTurn, section_turn};
pub use turn::{RawTurn, Turn};
