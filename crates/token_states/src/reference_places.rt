ghost use Rattle.std.specs.Prelude.{◌≡◌, ℕ, ◌≤◌, ◌∷◌, ◌++◌, Bool, IfOk, IsTrue, List, [], chars, string_bytes};
ghost use Rattle.token_grammar.specs.declared.modes.Mode.{Mode as SeenMode};
ghost use Rattle.token_states.specs.ReferenceSound.{is_reference_held};
ghost use Rattle.token_states.specs.ReferenceTurns.{ReferenceTurns, StaysInReference, digit_turn, goes};
ghost use Rattle.token_states.specs.ReferenceTurns.{hexadecimal_turn, number_turn};
ghost use Rattle.token_states.specs.Turns.{Turns};

use crate::place::{LexemeState, ReferencePlace};
use crate::turn::Turn;
use html_lexemes::ReferenceTable;
use std::alloc::AllocError;

/// What a further character does to a character reference.
pub(crate) fn reference_turn(
    table: &ReferenceTable,
    place: ReferencePlace,
    held: &mut String,
    c: char,
) -> Result<Turn, AllocError>
    requires { IsTrue (is_reference_held place (chars (string_bytes held.old))) }
    ensures turns { IfOk result (λ turn. (foreign : Bool) (mode : SeenMode)
        → Turns table.now foreign mode (LexemeState.CharacterReference place) (chars (string_bytes held.old)) c turn
        (chars (string_bytes held.new))) }
    ensures kind { IfOk result StaysInReference }
{
    let length = held.len();
    held.push(c)?;
    let turn = turn_after(table, place, held.as_str(), c);
    if let Turn::EndsBefore = turn {
        held.truncate(length);
    }
    Ok(turn)
}

// What the last character of a text does.
fn turn_after(table: &ReferenceTable, place: ReferencePlace, text: &str, c: char) -> Turn
    ensures turns { (held : List ℕ) → chars text.now ≡ held ++ c ∷ [] → IsTrue (is_reference_held place held)
        → ReferenceTurns table.now place held c result }
    ensures kind { StaysInReference result }
{
    match place {
        ReferencePlace::Named => name_turn(table, text),
        ReferencePlace::Numeric => number_turn(c),
        ReferencePlace::HexadecimalStart => hexadecimal_turn(c),
        ReferencePlace::Decimal => digit_turn(place, 10, c),
        ReferencePlace::Hexadecimal => digit_turn(place, 16, c),
    }
}

// What the last character of a name does.
fn name_turn(table: &ReferenceTable, text: &str) -> Turn
    ensures turns { (held : List ℕ) (c : ℕ) → chars text.now ≡ held ++ c ∷ [] →
        IsTrue (is_reference_held ReferencePlace.Named held)
        → ReferenceTurns table.now ReferencePlace.Named held c result }
    ensures kind { StaysInReference result }
{
    table.names_are_names();
    if text == "#" {
        goes(ReferencePlace::Numeric)
    } else if !table.has_name_beginning(text) {
        Turn::EndsBefore
    } else if table.has_longer_name(text) {
        goes(ReferencePlace::Named)
    } else {
        Turn::Ends(LexemeState::CharacterReference(ReferencePlace::Named))
    }
}

// What a character does after `#`.
fn number_turn(c: char) -> Turn
    ensures { result ≡ number_turn c }
{
    if c == 'x' || c == 'X' {
        goes(ReferencePlace::HexadecimalStart)
    } else if c.is_digit(10) {
        goes(ReferencePlace::Decimal)
    } else {
        Turn::EndsBefore
    }
}

// What a character does after `#x`.
fn hexadecimal_turn(c: char) -> Turn
    ensures { result ≡ hexadecimal_turn c }
{
    if c.is_digit(16) {
        goes(ReferencePlace::Hexadecimal)
    } else {
        Turn::EndsBefore
    }
}

// What a character does after digits.
fn digit_turn(place: ReferencePlace, radix: u32, c: char) -> Turn
    requires least { 2 ≤ radix }
    requires most { radix ≤ 36 }
    ensures { result ≡ digit_turn place radix c }
{
    if c.is_digit(radix) {
        goes(place)
    } else if c == ';' {
        Turn::Ends(LexemeState::CharacterReference(place))
    } else {
        Turn::EndsBefore
    }
}

fn goes(place: ReferencePlace) -> Turn
    ensures { result ≡ goes place }
{
    Turn::Goes(LexemeState::CharacterReference(place))
}
