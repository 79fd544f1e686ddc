//! The tokenizer: resumable, and equal to the reading of the grammar however the text is cut. What its calls name of
//! the crates below it is exported here too.
//!
//! # What is proved
//!
//! Its public clauses speak of a tokenizer by words that are whole for those who call it (`Completes.antt`): what
//! it and a rest of the page do to its sink, whether it has failed, whether it may be called (`IsFit`), whether its
//! text is emitted, whether nothing is held, its table. No crate above is to unfold them.
//!
//! - `read_pieces`: for every sink that keeps the laws and is ready for the kind of text in which the page begins,
//!   and any list of pieces: where it isn't refused, the sink is left as the reading of the whole page's text
//!   leaves it, in the mode that the options name, and was then closed once (`emitted`, by `IsClosed`); it is refused
//!   only if allocation fails (`memory`). A list of pieces and any other cutting of it leave equal sinks, since a
//!   text has one reading (`one_reading`)
//! - `Tokenizer::new`: it has not failed, may be called (`fit`), has the sink, the table and the last start tag
//!   that it was given, all of the page is left (`left`), and whatever a page does to the sink from there is its
//!   reading (`begins`)
//! - `Tokenizer::feed`: what the tokenizer was before, the queue's text and any rest of the page do to the sink is
//!   what the tokenizer is then, what is left in the queue and that rest do (`reads`); the queue loses a front,
//!   each character taken once (`takes`). At `Done` the queue is empty, no text that was read waits to be emitted,
//!   and no lexeme stands where the tokenizer is whatever follows in the page; of a CDATA section at most a
//!   beginning of `]]>` is held back (`done`, by `IsUndecided`). It answers `Done` only where no item that it
//!   emitted was answered by asking for a pause, and a pause exactly where the last item emitted was a tag that was
//!   answered by asking for it, and no item before (`asks`); then the queue is shorter, nothing is held back and no
//!   text not emitted, and the state is one of text with nothing pending (`pauses`); and what was taken before the
//!   last character, which is the tag's `>`, leaves a tokenizer that was asked for no pause and stands where no
//!   lexeme is over (`trailing`): so the queue has just what follows the tag
//! - the same, refused: it is refused only if allocation fails, unless an earlier call was refused or the end has
//!   come (`memory`); then it answers `Failed` (`failed`) and leaves itself and the queue as they were (`kept`). It
//!   has failed exactly where a call was refused (`works`), may be called again whatever it answered (`fit`), and
//!   where it did not fail the sink is ready (`ready`)
//! - `Tokenizer::feed_on`: the same over pauses, until the queue is empty, refusals included
//! - `Tokenizer::end`: the sink is left as what the tokenizer was fed with, and no more, leaves it, one `EOFToken`
//!   last, and was then closed once (`completes`); it is refused only if allocation fails, unless an earlier call
//!   was refused; then every call is `Failed`
//! - `Tokenizer::is_text_state`, `nothing_pending`: exact, by where the tokenizer is and what it holds
//! - `a_sink_may_change_but_for_its_state`: a law: a tokenizer whose sink was changed from outside, but for its
//!   state, has failed where it had, may be called where it could be, and comes to the same
//! - `Tokenizer::set_plaintext_state`: in a state of text with nothing pending: whatever a rest of the page does
//!   then is its reading as plain text (`plain`)
//!
//! A struct can't hold the text that came nor the sink's first state, so the clauses relate the states before and
//! after each call, for every rest of the page and every final state; they compose, as `read_pieces` shows. After
//! them stands, for each place in a lexeme, what is held there (`IsSound`, a ghost field of `Pending`, and
//! `IsGoing`, by which it may still become something else, a ghost field of `Tokenizer`), and for each further
//! character a turn of token_states. Why a call is refused rests on the kind of the text: a place is one in text
//! of a kind (`IsPlaceOf`), a further character keeps it so, and what stands there is of that kind, which the sink
//! welcomes.
//!
//! Text is taken from the queue in runs, up to a character that may be more than text or ends a line. By contract a
//! run that is taken at once does what its characters do one by one (`take_run` of tokenizer.rt), and it is taken
//! only where no error waits to be reported and none is looked for at a character of text but NUL (`takes_runs` of
//! reader.rt). The same holds of a run of what is held of a lexeme (`hold_run` of tokenizer.rt), whose errors are
//! looked for when it is over.
//!
//! Parse errors are reported before the next thing that is emitted, unless that is text that begins with LF, which
//! an error could change; each sink's law `IsLawful` says that an error changes nothing else, and the contracts of
//! `emit_errors`, `emit_items` (emitting.rt) and `read_text` (reader.rt) that so nothing else changes.
//!
//! What is not pinned, so that a wrong body would still be proved: a `feed`, `feed_on`, `end` or `read_pieces` that
//! always answers `Memory`. Which parse errors are reported, their texts and lines, and the lines given with tokens
//! are tested. The place of an error among the tokens is tested alone: a sink's laws forget errors. That text is
//! taken in runs is not pinned either: a tokenizer that takes each character by itself does the same, and is
//! slower.
//!
//! `rt plant` has run on this crate's public calls, with the clauses of today: all 26 wrong bodies that it could
//! judge are refused, among them each that refuses as `Failed` where another error was the reason. Eight more it
//! could not judge, and none of `new`, `is_text_state` and `nothing_pending`, for which there are wrong bodies.
//! What of a page is left (`text_left`) is tied to the page by `new` alone: that a `feed` takes it on is said by
//! `reads`.
//!
//! Shown by the cases `tokens` of stored_rows: each row by the plain reader and by the tokenizer, whole, one
//! character at a time, and cut in two at every place, to a sink that keeps its tokens; pages with the errors that
//! are emitted, their lines and their place among the tokens, fed in the same ways. Tested (`test_tokens`): a pause
//! leaves what follows the tag; refusals last, also for a sink that is ready in some states alone; each line end
//! counts once, also cut. Two wrong readings were planted alike in token_grammar and token_states, and each fails a
//! row: a FF that ends no raw end tag's name, and `-->` that leaves a double escaped part for the escaped one. The
//! program ends with status 1 where two ways differ.
#![tactic(auto)]

mod emitting;
mod errors;
mod laws;
mod line_ends;
mod page_end;
mod pending;
mod pieces;
mod reader;
mod results;
mod runs;
mod tokenizer;

pub use html_lexemes;
pub use laws::a_sink_may_change_but_for_its_state;
pub use pieces::read_pieces;
pub use results::TokenizerResult;
pub use token_grammar::{TokenSink, TokenizerOpts, read_plainly};
pub use tokenizer::Tokenizer;
