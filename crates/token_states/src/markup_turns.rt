ghost use Rattle.std.specs.Prelude.{◌≡◌, Bool, chars, string_bytes, IfOk, IfSome, MatchOption};
ghost use Rattle.token_grammar.specs.declared.modes.Mode.{Mode as SeenMode};
ghost use Rattle.token_states.specs.PlaceKinds.{IsNoMarkup, KeepsKind};
ghost use Rattle.token_states.specs.Sound.{IsSound};
ghost use Rattle.token_states.specs.Turns.{Turns};
ghost use Rattle.token_states.specs.declared.place.LexemeState.TheVariants.{MarkupDeclarationOpen};

use crate::comment_turns::{bogus_comment_turn, comment_turn};
use crate::doctype_turns::doctype_turn;
use crate::open_turns::{declaration_turn, end_tag_open_turn, tag_open_turn};
use crate::place::LexemeState;
use crate::reference_places::reference_turn;
use crate::tag_turns::tag_turn;
use crate::turn::Turn;
use html_lexemes::ReferenceTable;
use std::alloc::AllocError;

/// What a further character does at a place in markup or in a character reference; `foreign` says that the adjusted
/// current node is foreign, which matters after `<!` alone. `None` is a place in text, where nothing is done.
pub fn markup_turn(
    table: &ReferenceTable,
    foreign: bool,
    place: LexemeState,
    held: &mut String,
    c: char,
) -> Result<Option<Turn>, AllocError>
    requires { IsSound place (chars (string_bytes held.old)) }
    ensures turns { IfOk result (λ done. MatchOption done (IsNoMarkup place × (held.new ≡ held.old))
        (λ turn. (asked : Bool) (mode : SeenMode) → (place ≡ MarkupDeclarationOpen → asked ≡ foreign) →
        Turns table.now asked mode place (chars (string_bytes held.old)) c turn (chars (string_bytes held.new)))) }
    ensures kind { IfOk result (λ done. IfSome done (KeepsKind place)) }
{
    let turn = match place {
        LexemeState::CharacterReference(place) => reference_turn(table, place, held, c)?,
        LexemeState::TagOpen => tag_open_turn(held, c)?,
        LexemeState::EndTagOpen => end_tag_open_turn(held, c)?,
        LexemeState::Tag(kind, place) => tag_turn(kind, place, held, c)?,
        LexemeState::MarkupDeclarationOpen => declaration_turn(foreign, held, c)?,
        LexemeState::BogusComment => bogus_comment_turn(held, c)?,
        LexemeState::Comment => comment_turn(held, c)?,
        LexemeState::Doctype => doctype_turn(held, c)?,
        LexemeState::Text | LexemeState::CdataSection | LexemeState::RawText(..) => return Ok(None),
    };
    Ok(Some(turn))
}
