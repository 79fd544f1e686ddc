ghost use Rattle.std.specs.Prelude.{◌≡◌, false};
ghost use Rattle.token_errors.specs.Found.{GoesOn, is_watching};

use crate::ParseErrors;
use crate::characters::{line_after, state_at_end};
use html_lexemes::states::State;
use std::alloc::AllocError;

impl ParseErrors {
    /// Finds the errors of a comment: the text after `<!--`, up to and with its `>`, or up to the end of the page. The
    /// error is allocation failure alone.
    #[tactic(auto, using(crate::proofs::GoesOnLemmas::goes_on_twice))]
    pub fn in_comment(&mut self, text: &str, mut line: u64) -> Result<(), AllocError>
        ensures found { GoesOn self.old self.new }
        ensures unwatched { is_watching self.new ≡ false }
    {
        self.leave_name();
        let mut state = State::CommentStart;
        'characters: for c in text.chars() {
            line = line_after(line, c);
            if matches!(state, State::Comment) && self.is_plain_in_comment(c) {
                continue;
            }
            let reading = self.read(state, c, line)?;
            let Some(next) = comment_state(reading, c) else {
                return Ok(());
            };
            state = next;
        }
        self.saw_end(state_at_end(state), line)
    }

    // Whether a character within a comment is no error, and begins nothing.
    fn is_plain_in_comment(&self, c: char) -> bool {
        !matches!(c, '\0' | '<' | '-') && !self.emits_character(c)
    }
}

// The state after a character that is read in a state. `None` is the end of the comment.
fn comment_state(state: State, c: char) -> Option<State> {
    match state {
        State::CommentStart => start_state(c, State::CommentStartDash),
        State::CommentStartDash => start_state(c, State::CommentEnd),
        State::CommentLessThanSign if c == '!' => Some(State::CommentLessThanSignBang),
        State::CommentLessThanSign => Some(State::CommentLessThanSign),
        State::CommentLessThanSignBang => Some(State::CommentLessThanSignBangDash),
        State::CommentLessThanSignBangDash => Some(State::CommentLessThanSignBangDashDash),
        State::CommentEndDash if c == '-' => Some(State::CommentEnd),
        State::CommentEnd => end_state(c),
        State::CommentEndBang => start_state(c, State::CommentEndDash),
        State::Comment if c == '<' => Some(State::CommentLessThanSign),
        State::Comment if c == '-' => Some(State::CommentEndDash),
        _ => Some(State::Comment),
    }
}

// The same where `>` ends the comment and a dash leads to a state.
fn start_state(c: char, after_dash: State) -> Option<State> {
    match c {
        '-' => Some(after_dash),
        '>' => None,
        _ => Some(State::Comment),
    }
}

// The same after two dashes.
fn end_state(c: char) -> Option<State> {
    match c {
        '>' => None,
        '!' => Some(State::CommentEndBang),
        '-' => Some(State::CommentEnd),
        _ => Some(State::Comment),
    }
}
