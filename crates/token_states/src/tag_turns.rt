ghost use Rattle.std.specs.Prelude.{Bool, chars, string_bytes, IfOk};
ghost use Rattle.lex_base.specs.References.{References};
ghost use Rattle.token_grammar.specs.declared.modes.Mode.{Mode as SeenMode};
ghost use Rattle.token_states.specs.PlaceKinds.{KeepsKind};
ghost use Rattle.token_states.specs.TagPlaces.{IsInTag};
ghost use Rattle.token_states.specs.Turns.{Turns};
ghost use Rattle.token_states.specs.declared.place.LexemeState.TheVariants.{Tag};

use crate::place::{LexemeState, TagPlace};
use crate::turn::Turn;
use html_lexemes::TagKind;
use std::alloc::AllocError;

/// What a further character does to a tag.
pub(crate) fn tag_turn(
    kind: TagKind,
    place: TagPlace,
    held: &mut String,
    c: char,
) -> Result<Turn, AllocError>
    requires { IsInTag kind place (chars (string_bytes held.old)) }
    ensures turns { IfOk result (λ turn. (table : References) (foreign : Bool) (mode : SeenMode) →
        Turns table foreign mode (Tag kind place) (chars (string_bytes held.old)) c turn
        (chars (string_bytes held.new))) }
    ensures kind { IfOk result (KeepsKind (Tag kind place)) }
{
    held.push(c)?;
    match place.next(c) {
        Some(next) => Ok(Turn::Goes(LexemeState::Tag(kind, next))),
        None => Ok(Turn::Ends(LexemeState::Tag(kind, place))),
    }
}
