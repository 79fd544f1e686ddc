ghost use Rattle.std.specs.Prelude.{◌≡◌, ◌&&◌, ◌∷◌, [], Bool, IfOk, IsTrue, OnOk, chars, drop, length, nat_lt};
ghost use Rattle.std.specs.Prelude.{string_bytes};
ghost use Rattle.std.specs.List.{list_all};
ghost use Rattle.lex_base.specs.References.{References};
ghost use Rattle.token_grammar.specs.Characters.{is_letter, name_of};
ghost use Rattle.token_grammar.specs.Lexemes.{has_end_tags, is_last};
ghost use Rattle.token_grammar.specs.declared.modes.Mode.{Mode as SeenMode};
ghost use Rattle.token_states.specs.Goings.{is_end_tag_front, is_raw_going};
ghost use Rattle.token_states.specs.RawHeld.{held_after};
ghost use Rattle.token_states.specs.RawTurns.{RawTurns};
ghost use Rattle.token_states.specs.declared.place.RawPlace.TheVariants.{EndTagName};

use crate::first::has_end_tag;
use crate::place::RawPlace;
use crate::script_turns::{at_dashes, at_escape_start, at_escape_word, goes_on};
use crate::turn::RawTurn;
use html_lexemes::LocalName;
use html_lexemes::states::{RawKind, ScriptEscapeKind};
use std::alloc::{AllocError, Global};
use token_grammar::slices::{CharacterClass, trailing};
use token_grammar::tags::name_of;

/// What a further character does to what is held of the text of an element, of a kind, at a place; `last` is the name
/// of the last start tag. What is held is then what it is after that turn. The error is allocation failure alone.
pub fn raw_turn(
    alloc: Global,
    last: &Option<LocalName>,
    kind: RawKind,
    place: RawPlace,
    held: &mut String,
    c: char,
) -> Result<RawTurn, AllocError>
    requires { IsTrue (is_raw_going last.now kind place (chars (string_bytes held.old))) }
    ensures { IfOk result (λ turn. (table : References) (foreign : Bool) (mode : SeenMode) →
        mode.last_start_tag ≡ last.now →
        RawTurns table foreign mode kind (chars (string_bytes held.old)) c turn (chars (string_bytes held.new))) }
{
    let turn = turn_at(alloc, last, kind, place, held.as_str(), c)?;
    take(turn, held, c)?;
    Ok(turn)
}

// the turn, before what is held changes
fn turn_at(
    alloc: Global,
    last: &Option<LocalName>,
    kind: RawKind,
    place: RawPlace,
    held: &str,
    c: char,
) -> Result<RawTurn, AllocError>
    requires { IsTrue (is_raw_going last.now kind place (chars held.now)) }
    ensures { IfOk result (λ turn. (table : References) (foreign : Bool) (mode : SeenMode) →
        mode.last_start_tag ≡ last.now →
        RawTurns table foreign mode kind (chars held.now) c turn (held_after turn (chars held.now) c)) }
{
    match place {
        RawPlace::LessThanSign => Ok(at_less_than_sign(last, kind, c)),
        RawPlace::EndTagName => at_end_tag_name(alloc, last, kind, held, c),
        RawPlace::EscapeStart => Ok(at_escape_start(kind, held, c)),
        RawPlace::EscapeWord => Ok(at_escape_word(kind, held, c)),
        RawPlace::Dashes => Ok(at_dashes(kind, held, c)),
    }
}

// changes what is held to what it is after a turn
fn take(turn: RawTurn, held: &mut String, c: char) -> Result<(), AllocError>
    ensures { OnOk result (chars (string_bytes held.new) ≡ held_after turn (chars (string_bytes held.old)) c) }
{
    match turn {
        RawTurn::Goes(_) => held.push(c),
        RawTurn::Before(_) => Ok(()),
        RawTurn::Shifts(..) => {
            held.clear();
            held.push_str("--")
        }
        RawTurn::EndTag => {
            drop_first(held);
            drop_first(held);
            Ok(())
        }
    }
}

fn drop_first(held: &mut String)
    ensures { chars (string_bytes held.new) ≡ drop 1 (chars (string_bytes held.old)) }
{
    if held.is_empty() {
        return;
    }
    held.remove(0);
}

// at `<`
fn at_less_than_sign(last: &Option<LocalName>, kind: RawKind, c: char) -> RawTurn
    ensures { (table : References) (foreign : Bool) (mode : SeenMode) → mode.last_start_tag ≡ last.now →
        RawTurns table foreign mode kind (60 ∷ []) c result (held_after result (60 ∷ []) c) }
{
    match kind {
        RawKind::Rcdata | RawKind::Rawtext => match c {
            '/' => at_slash(last, kind),
            _ => RawTurn::Before(kind),
        },
        RawKind::ScriptData => match c {
            '/' => at_slash(last, kind),
            '!' => RawTurn::Goes(RawPlace::EscapeStart),
            _ => RawTurn::Before(kind),
        },
        RawKind::ScriptDataEscaped(ScriptEscapeKind::Escaped) => match c {
            '/' => at_slash(last, kind),
            's' | 'S' => RawTurn::Goes(RawPlace::EscapeWord),
            _ => RawTurn::Before(kind),
        },
        RawKind::ScriptDataEscaped(ScriptEscapeKind::DoubleEscaped) => match c {
            '/' => RawTurn::Goes(RawPlace::EscapeWord),
            _ => RawTurn::Before(kind),
        },
    }
}

// at `<`, before `/`
fn at_slash(last: &Option<LocalName>, kind: RawKind) -> RawTurn
    requires { IsTrue (has_end_tags kind) }
    ensures { (table : References) (foreign : Bool) (mode : SeenMode) → mode.last_start_tag ≡ last.now →
        RawTurns table foreign mode kind (60 ∷ []) 47 result (held_after result (60 ∷ []) 47) }
{
    if has_end_tag(last) {
        RawTurn::Goes(RawPlace::EndTagName)
    } else {
        RawTurn::Before(kind)
    }
}

// at `</` and letters
fn at_end_tag_name(
    alloc: Global,
    last: &Option<LocalName>,
    kind: RawKind,
    held: &str,
    c: char,
) -> Result<RawTurn, AllocError>
    requires { IsTrue (is_raw_going last.now kind EndTagName (chars held.now)) }
    ensures { IfOk result (λ turn. (table : References) (foreign : Bool) (mode : SeenMode) →
        mode.last_start_tag ≡ last.now →
        RawTurns table foreign mode kind (chars held.now) c turn (held_after turn (chars held.now) c)) }
{
    let Some(letters) = trailing(held, "</") else {
        return Ok(RawTurn::Before(kind));
    };
    if c.is_ascii_alphabetic() {
        return Ok(at_letter(last, kind, letters, c));
    }
    if CharacterClass::TagName.has(c) {
        return Ok(RawTurn::Before(kind));
    }
    if is_last_name(alloc, last, letters)? {
        return Ok(RawTurn::EndTag);
    }
    Ok(RawTurn::Before(kind))
}

// at `</` and letters, before another letter
fn at_letter(last: &Option<LocalName>, kind: RawKind, letters: &str, c: char) -> RawTurn
    requires kind { IsTrue (has_end_tags kind) }
    requires letters { IsTrue (list_all is_letter (chars letters.now)) }
    requires front { IsTrue (is_end_tag_front last.now (chars letters.now)) }
    requires letter { IsTrue (is_letter c) }
    ensures { (table : References) (foreign : Bool) (mode : SeenMode) → mode.last_start_tag ≡ last.now →
        RawTurns table foreign mode kind (60 ∷ 47 ∷ chars letters.now) c result
        (held_after result (60 ∷ 47 ∷ chars letters.now) c) }
{
    let Some(name) = last else {
        return RawTurn::Before(kind);
    };
    if goes_on(name.as_str(), letters.len(), c) {
        return RawTurn::Goes(RawPlace::EndTagName);
    }
    RawTurn::Before(kind)
}

// whether letters are the last start tag's name
fn is_last_name(alloc: Global, last: &Option<LocalName>, letters: &str) -> Result<bool, AllocError>
    ensures { IfOk result (λ b. b
        ≡ (nat_lt 0 (length (chars letters.now)) && is_last last.now (name_of (chars letters.now)))) }
{
    let Some(last) = last else {
        return Ok(false);
    };
    if letters.is_empty() {
        return Ok(false);
    }
    let name = LocalName::from(name_of(alloc, letters)?);
    Ok(*last == name)
}
