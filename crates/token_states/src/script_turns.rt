ghost use Rattle.std.specs.Prelude.{◌≡◌, Bool, IsTrue, chars};
ghost use Rattle.std.specs.Char.{to_ascii_lowercase};
ghost use Rattle.lex_base.specs.References.{References};
ghost use Rattle.token_grammar.specs.declared.modes.Mode.{Mode as SeenMode};
ghost use Rattle.token_states.specs.RawHeld.{held_after, is_at, other_part};
ghost use Rattle.token_states.specs.RawSound.{is_raw_held, word_of};
ghost use Rattle.token_states.specs.RawTurns.{RawTurns};
ghost use Rattle.token_states.specs.declared.place.RawPlace.TheVariants.{Dashes, EscapeStart, EscapeWord};

use crate::place::RawPlace;
use crate::turn::RawTurn;
use html_lexemes::states::{RawKind, ScriptEscapeKind};
use token_grammar::slices::CharacterClass;

/// At one or two dashes of an escaped part, which `-->` ends.
pub(crate) fn at_dashes(kind: RawKind, held: &str, c: char) -> RawTurn
    requires { IsTrue (is_raw_held kind Dashes (chars held.now)) }
    ensures { (table : References) (foreign : Bool) (mode : SeenMode) →
        RawTurns table foreign mode kind (chars held.now) c result (held_after result (chars held.now) c) }
{
    if held.len() == 1 {
        return match c {
            '-' => RawTurn::Goes(RawPlace::Dashes),
            _ => RawTurn::Before(kind),
        };
    }
    match c {
        '-' => RawTurn::Shifts("-", kind, RawPlace::Dashes),
        '>' => RawTurn::Before(RawKind::ScriptData),
        _ => RawTurn::Before(kind),
    }
}

/// At `<!` or `<!-` of script data, where `<!--` begins an escaped part.
pub(crate) fn at_escape_start(kind: RawKind, held: &str, c: char) -> RawTurn
    requires { IsTrue (is_raw_held kind EscapeStart (chars held.now)) }
    ensures { (table : References) (foreign : Bool) (mode : SeenMode) →
        RawTurns table foreign mode kind (chars held.now) c result (held_after result (chars held.now) c) }
{
    if c != '-' {
        return RawTurn::Before(kind);
    }
    if held.len() == 2 {
        return RawTurn::Goes(RawPlace::EscapeStart);
    }
    let escaped = RawKind::ScriptDataEscaped(ScriptEscapeKind::Escaped);
    RawTurn::Shifts("<!", escaped, RawPlace::Dashes)
}

/// In the word that begins the other escaped part, `<script` or `</script`.
pub(crate) fn at_escape_word(kind: RawKind, held: &str, c: char) -> RawTurn
    requires { IsTrue (is_raw_held kind EscapeWord (chars held.now)) }
    ensures { (table : References) (foreign : Bool) (mode : SeenMode) →
        RawTurns table foreign mode kind (chars held.now) c result (held_after result (chars held.now) c) }
{
    let word = word_of(kind);
    if goes_on(word, held.len(), c) {
        return RawTurn::Goes(RawPlace::EscapeWord);
    }
    if held.len() == word.len() && !CharacterClass::TagName.has(c) {
        return RawTurn::Before(other_part(kind));
    }
    RawTurn::Before(kind)
}

fn word_of(kind: RawKind) -> &'static str
    ensures { result.now ≡ word_of kind }
{
    match kind {
        RawKind::ScriptDataEscaped(ScriptEscapeKind::Escaped) => "<script",
        RawKind::ScriptDataEscaped(ScriptEscapeKind::DoubleEscaped) => "</script",
        _ => "",
    }
}

fn other_part(kind: RawKind) -> RawKind
    ensures { result ≡ other_part kind }
{
    match kind {
        RawKind::ScriptDataEscaped(ScriptEscapeKind::Escaped) => {
            RawKind::ScriptDataEscaped(ScriptEscapeKind::DoubleEscaped)
        }
        RawKind::ScriptDataEscaped(ScriptEscapeKind::DoubleEscaped) => {
            RawKind::ScriptDataEscaped(ScriptEscapeKind::Escaped)
        }
        _ => kind,
    }
}

/// Whether a character, in lower case, goes on with a word of which so many bytes are held.
pub(crate) fn goes_on(word: &str, length: usize, c: char) -> bool
    ensures { result ≡ is_at (to_ascii_lowercase c) word.now length }
{
    match word.as_bytes().get(length) {
        Some(b) => c.to_ascii_lowercase() == char::from(*b),
        None => false,
    }
}
