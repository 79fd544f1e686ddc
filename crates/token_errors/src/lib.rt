//! The parse errors of a page (WHATWG HTML, 13.2.2), lexeme by lexeme: which there are in the characters of a
//! tag, a comment, a doctype, a reference or text, with their wording and their lines. Nothing but people read them.
//!
//! # What is proved
//!
//! - `ParseErrors::new`, `is_empty`, `take`: nothing is found before the first character; whether something is; all
//!   that was found is given out, in its order, and nothing is left
//! - `heeds`, `at_text`: a character of text matters just where it is NUL, or an unknown name is watched, or the
//!   wording is exact and it is a control or noncharacter; at any other `at_text` changes nothing and is not
//!   refused
//! - every other call: it only adds to what was found, after it, and keeps the wording, also where it is refused
//!   (`found`, by `GoesOn`)
//! - `in_tag`, `in_comment`, `in_bogus_comment`, `in_doctype`, `at_tag_open`, `at_end_tag_open`, `at_end`: no
//!   unknown name is watched after them (`unwatched`)
//! - `at_end_tag_open`, `at_tag_open` at the end of the page: just one error more, on the line that is given
//! - `at_end`: one error more in a CDATA section and in the text of a script within `<!--`, and none elsewhere
//!
//! Which errors are found in a lexeme, their wording and most lines are tested: rows for each kind of lexeme, in
//! both wordings. Nobody but people reads the errors.
//!
//! What is not pinned, so that a wrong body would still be proved: an `at_text` that always does nothing; an
//! `in_tag`, `in_comment`, `in_bogus_comment`, `in_doctype`, `in_reference` or `in_last_reference` that finds
//! nothing, or something else, or that always refuses; an `at_tag_open` that emits the end of the page for another
//! character; an `in_tag`, `in_comment`, `in_bogus_comment` or `in_doctype` that looks at another text, kind of
//! tag, state or line, and of the last three one that says that it succeeded where memory was refused; a `take`
//! that forgets that the next character was emitted. `is_error_at_end` lists the states that the code lists; rows
//! from the standard's states, computed on the definition, hold it. `rt plant` has run on this crate's public
//! calls: of 48 wrong bodies that it could judge 30 are refused. It lets through those of this list. Of `take` no
//! body that gives up could be judged, and one of `heeds` could not; there are wrong bodies for both calls.
#![tactic(auto)]

mod bogus;
mod characters;
mod comment;
mod definition_rows;
mod doctype;
mod errors;
mod names;
mod number;
mod opening;
mod plain_parts;
mod reference;
mod tag;
mod text;

pub use errors::{FoundError, ParseErrors};
