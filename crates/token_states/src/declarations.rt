ghost use Rattle.std.specs.Prelude.{◌≡◌, chars};
ghost use Rattle.token_states.specs.Openings.{IsOpening};
ghost use Rattle.token_states.specs.Spellings.{folded, spelled};

use crate::place::LexemeState;
use token_grammar::slices::first_and_rest;

/// How a text stands to a mark.
#[derive(Clone, Copy)]
pub(crate) enum Spelled {
    /// It is the mark.
    Whole,
    /// It is a beginning of the mark, and not all of it.
    Front,
    /// Neither.
    Apart,
}

/// What a text after `<!` is.
#[derive(Clone, Copy)]
pub(crate) enum Opening {
    /// A beginning of what opens a comment, a doctype or a section.
    Begun,
    /// What opens this place.
    Opens(LexemeState),
    /// Something else, which is a bogus comment.
    Other,
}

/// What a text after `<!` is (WHATWG HTML, 13.2.5.42); `foreign` says that the adjusted current node is foreign.
pub(crate) fn declared(foreign: bool, text: &str) -> Opening
    ensures { IsOpening foreign (chars text.now) result }
{
    match compared(text, "--", false) {
        Spelled::Whole => return Opening::Opens(LexemeState::Comment),
        Spelled::Front => return Opening::Begun,
        Spelled::Apart => {}
    }
    match compared(text, "doctype", true) {
        Spelled::Whole => return Opening::Opens(LexemeState::Doctype),
        Spelled::Front => return Opening::Begun,
        Spelled::Apart => {}
    }
    if !foreign {
        return Opening::Other;
    }
    match compared(text, "[CDATA[", false) {
        Spelled::Whole => Opening::Opens(LexemeState::CdataSection),
        Spelled::Front => Opening::Begun,
        Spelled::Apart => Opening::Other,
    }
}

// how a text stands to a mark; or, with `any_case`, to a word of lower case letters, ASCII case aside
fn compared(text: &str, mark: &str, any_case: bool) -> Spelled
    ensures { result ≡ spelled (folded any_case) (chars mark.now) (chars text.now) }
{
    let mut rest = text;
    'mark: for wanted in mark.chars() {
        let Some((found, trailing)) = first_and_rest(rest) else {
            return Spelled::Front;
        };
        if folded(found, any_case) != wanted {
            return Spelled::Apart;
        }
        rest = trailing;
    }
    match first_and_rest(rest) {
        None => Spelled::Whole,
        Some(_) => Spelled::Apart,
    }
}

// a character as it is compared
fn folded(c: char, any_case: bool) -> char
    ensures { result ≡ folded any_case c }
{
    if any_case { c.to_ascii_lowercase() } else { c }
}
