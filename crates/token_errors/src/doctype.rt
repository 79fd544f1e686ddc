ghost use Rattle.std.specs.Prelude.{◌≡◌, false};
ghost use Rattle.token_errors.specs.Found.{GoesOn, is_watching};

use crate::ParseErrors;
use crate::characters::{is_space, line_after};
use html_lexemes::states::{DoctypeIdKind, State};
use std::alloc::AllocError;

// the length of `PUBLIC` and of `SYSTEM`
const KEYWORD_LENGTH: usize = 6;

impl ParseErrors {
    /// Finds the errors of a doctype: the text after `<!doctype`, up to and with its `>`, or up to the end of the
    /// page. The error is allocation failure alone.
    #[tactic(auto, using(crate::proofs::GoesOnLemmas::goes_on_twice))]
    pub fn in_doctype(&mut self, text: &str, mut line: u64) -> Result<(), AllocError>
        ensures found { GoesOn self.old self.new }
        ensures unwatched { is_watching self.new ≡ false }
    {
        self.leave_name();
        let mut state = State::Doctype;
        let mut keyword_end = 0;
        'characters: for (at, c) in text.char_indices() {
            line = line_after(line, c);
            if at < keyword_end {
                continue;
            }
            if let Some(kind) = keyword_at(state, text, at) {
                state = State::AfterDoctypeKeyword(kind);
                keyword_end = at.saturating_add(KEYWORD_LENGTH);
                continue;
            }
            let reading = self.read(state, c, line)?;
            let Some(next) = doctype_state(reading, c) else {
                return Ok(());
            };
            state = next;
        }
        if state == State::BogusDoctype {
            return Ok(());
        }
        self.saw_end(state, line)
    }
}

// The identifier that a keyword at a place announces, where a state heeds keywords.
fn keyword_at(state: State, text: &str, at: usize) -> Option<DoctypeIdKind> {
    if state != State::AfterDoctypeName {
        return None;
    }
    let word = text.get(at..)?.get(..KEYWORD_LENGTH)?;
    if word.eq_ignore_ascii_case("public") {
        Some(DoctypeIdKind::Public)
    } else if word.eq_ignore_ascii_case("system") {
        Some(DoctypeIdKind::System)
    } else {
        None
    }
}

// The state after a character that is read in a state. `None` is the end of the doctype.
fn doctype_state(state: State, c: char) -> Option<State> {
    if c == '>' {
        return None;
    }
    Some(match state {
        State::Doctype => State::BeforeDoctypeName,
        State::BeforeDoctypeName if is_space(c) => State::BeforeDoctypeName,
        State::DoctypeName if is_space(c) => State::AfterDoctypeName,
        State::BeforeDoctypeName | State::DoctypeName => State::DoctypeName,
        State::AfterDoctypeName if is_space(c) => State::AfterDoctypeName,
        State::AfterDoctypeKeyword(kind) | State::BeforeDoctypeIdentifier(kind) => {
            before_identifier(State::BeforeDoctypeIdentifier(kind), kind, c)
        }
        State::DoctypeIdentifierDoubleQuoted(kind) if c == '"' => State::AfterDoctypeIdentifier(
            kind,
        ),
        State::DoctypeIdentifierSingleQuoted(kind) if c == '\'' => State::AfterDoctypeIdentifier(
            kind,
        ),
        State::DoctypeIdentifierDoubleQuoted(_) | State::DoctypeIdentifierSingleQuoted(_) => state,
        State::AfterDoctypeIdentifier(DoctypeIdKind::System) if is_space(c) => state,
        State::AfterDoctypeIdentifier(DoctypeIdKind::Public)
        | State::BetweenDoctypePublicAndSystemIdentifiers => before_identifier(
            State::BetweenDoctypePublicAndSystemIdentifiers,
            DoctypeIdKind::System,
            c,
        ),
        _ => State::BogusDoctype,
    })
}

// The same where an identifier may begin, and white space leads to a state.
fn before_identifier(after_space: State, kind: DoctypeIdKind, c: char) -> State {
    match c {
        '"' => State::DoctypeIdentifierDoubleQuoted(kind),
        '\'' => State::DoctypeIdentifierSingleQuoted(kind),
        _ if is_space(c) => after_space,
        _ => State::BogusDoctype,
    }
}
