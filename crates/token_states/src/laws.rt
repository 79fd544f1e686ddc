//! Laws of places: each is the contract of a function that does nothing.
ghost use Rattle.std.specs.Prelude.{◌≡◌, ◌++◌, ◌∷◌, ◌==◌, ℕ, Bool, not, List, Option, Some, IsTrue};
ghost use Rattle.std.specs.List.{list_all};
ghost use Rattle.html_lexemes.specs.Queue.{is_free_of};
ghost use Rattle.lex_base.specs.References.{References};
ghost use Rattle.html_lexemes.specs.declared.token.Tag.{Tag};
ghost use Rattle.token_grammar.specs.Kinds.{LexemeOf};
ghost use Rattle.token_grammar.specs.Lexemes.{tagged};
ghost use Rattle.token_grammar.specs.Tags.{greater};
ghost use Rattle.token_grammar.specs.declared.modes.Mode.{Mode};
ghost use Rattle.token_states.specs.Goings.{IsGoing};
ghost use Rattle.token_states.specs.HeldRuns.{held_stops};
ghost use Rattle.token_states.specs.OpenEnds.{IsOpenEnded};
ghost use Rattle.token_states.specs.PlaceKinds.{IsPlaceOf};
ghost use Rattle.token_states.specs.Places.{place_lexeme};
ghost use Rattle.token_states.specs.Sound.{IsSound};
ghost use Rattle.token_states.specs.declared.place.LexemeState.{LexemeState};

use html_lexemes::ReferenceTable;

/// What is held of a lexeme that goes on is no lexeme yet: none stands there whatever follows.
pub fn going_is_no_lexeme(table: &ReferenceTable)
    ensures { (foreign : Bool) (mode : Mode) (place : LexemeState) (held : List ℕ) →
        IsGoing table.now mode.last_start_tag place held → IsOpenEnded table.now foreign mode place held }
{
    // a longer name that is waited for is letters, digits and a semicolon
    table.names_are_names();
}

/// What stands at a place in text of a kind is of it.
pub fn place_of_a_kind()
    ensures { (table : References) (foreign : Bool) (mode : Mode) (place : LexemeState) (held : List ℕ) →
        IsPlaceOf mode.text place → LexemeOf mode.text (place_lexeme table foreign mode place held) }
{}

/// A tag that stands at a place ends with its `>`, right before what follows it.
pub fn tag_ends_with_its_mark()
    ensures { (table : References) (foreign : Bool) (mode : Mode) (place : LexemeState) (cs : List ℕ) (t : Tag)
        (rest : List ℕ) →
        place_lexeme table foreign mode place cs ≡ tagged t rest → (front : List ℕ) × (cs ≡ front ++ greater ∷ rest) }
{}

/// A run that is free of the stops of a place is held there as it is, and the place stays; no CR is in it.
pub fn held_run_goes_on()
    ensures sound { (place : LexemeState) (stops held run : List ℕ) → held_stops place ≡ Some stops →
        IsTrue (is_free_of stops run) → IsSound place held → IsSound place (held ++ run) }
    ensures going { (table : References) (last : Option (List ℕ)) (place : LexemeState) (stops held run : List ℕ) →
        held_stops place ≡ Some stops → IsTrue (is_free_of stops run) → IsGoing table last place held →
        IsGoing table last place (held ++ run) }
    ensures lines { (place : LexemeState) (stops run : List ℕ) → held_stops place ≡ Some stops →
        IsTrue (is_free_of stops run) → IsTrue (list_all (λ c. not (c == 13)) run) }
{}
