ghost use Rattle.std.specs.Prelude.{◌≡◌, false, MatchBool, Ok, OnOk, is_some};
ghost use Rattle.token_errors.specs.Found.{GoesOn, HasOneMore, found_of, heeds, is_error_at_end, is_watching};

use crate::ParseErrors;
use html_lexemes::states::{RawKind, ScriptEscapeKind, State};
use std::alloc::AllocError;

impl ParseErrors {
    /// Finds the errors at a character that is read in a state of text, on its line: `Data`, `Plaintext`, `RawData`, a
    /// state after dashes of a script, or `CdataSection`. A `<` or `&`, which may begin markup, is such a character
    /// too. The error is allocation failure alone.
    pub fn at_text(&mut self, state: State, c: char, line: u64) -> Result<(), AllocError>
        ensures found { GoesOn self.old self.new }
        ensures unheeded { heeds self.old c ≡ false → (self.new ≡ self.old) × (result ≡ Ok tt) }
    {
        if !self.heeds(c) {
            return Ok(());
        }
        self.at_heeded(state, c, line)
    }

    // The same at a character that matters.
    #[tactic(auto, using(crate::proofs::GoesOnLemmas::goes_on_twice))]
    #[inline(never)]
    fn at_heeded(&mut self, state: State, c: char, line: u64) -> Result<(), AllocError>
        ensures found { GoesOn self.old self.new }
    {
        self.name_goes_on_in(state, c, line)?;
        self.at_unread(c, line)?;
        self.look_at(state, c, line)
    }

    // Goes on with an unknown name in a state that has references, and leaves it in any other.
    fn name_goes_on_in(&mut self, state: State, c: char, line: u64) -> Result<(), AllocError>
        ensures found { GoesOn self.old self.new }
    {
        if has_references(state) {
            return self.name_goes_on(c, line);
        }
        self.leave_name();
        Ok(())
    }

    // Takes a character from the page, where it was not read before.
    fn at_unread(&mut self, c: char, line: u64) -> Result<(), AllocError>
        ensures found { GoesOn self.old self.new }
    {
        if self.was_read(c) {
            return Ok(());
        }
        self.at_character(c, line)
    }

    /// Finds the error of a page that ends on a line in a state: within a CDATA section, or in the text of a script
    /// within
    /// `<!--`. The error is allocation failure alone.
    pub fn at_end(&mut self, state: State, line: u64) -> Result<(), AllocError>
        ensures found { GoesOn self.old self.new }
        ensures unwatched { is_watching self.new ≡ false }
        ensures emitted { OnOk result (MatchBool (is_error_at_end state) (HasOneMore self.old line self.new) (found_of self.new
            ≡ found_of self.old)) }
    {
        self.leave_name();
        match state_of_text(state) {
            Some(state) => self.saw_end(state, line),
            None => Ok(()),
        }
    }
}

fn has_references(state: State) -> bool {
    matches!(state, State::Data | State::RawData(RawKind::Rcdata))
}

fn escaped_text(kind: ScriptEscapeKind) -> State {
    State::RawData(RawKind::ScriptDataEscaped(kind))
}

// The state of text that the end of the page is an error in, where there is one.
fn state_of_text(state: State) -> Option<State>
    ensures { is_some result ≡ is_error_at_end state }
{
    match state {
        State::CdataSection | State::CdataSectionBracket | State::CdataSectionEnd => {
            Some(State::CdataSection)
        }
        State::ScriptDataEscapedDash(_) | State::ScriptDataEscapedDashDash(_) => Some(state),
        State::ScriptDataEscapeStart(ScriptEscapeKind::DoubleEscaped) => {
            Some(escaped_text(ScriptEscapeKind::Escaped))
        }
        State::ScriptDataDoubleEscapeEnd => Some(escaped_text(ScriptEscapeKind::DoubleEscaped)),
        State::RawData(kind)
        | State::RawLessThanSign(kind)
        | State::RawEndTagOpen(kind)
        | State::RawEndTagName(kind) => match kind {
            RawKind::ScriptDataEscaped(_) => Some(State::RawData(kind)),
            _ => None,
        },
        _ => None,
    }
}
