ghost use Rattle.std.specs.Prelude.{◌≡◌, Bool, [], chars, string_bytes, IfOk, IsTrue};
ghost use Rattle.lex_base.specs.References.{References};
ghost use Rattle.token_grammar.specs.declared.modes.Mode.{Mode as SeenMode};
ghost use Rattle.token_states.specs.MarkupSound.{is_begun_declaration};
ghost use Rattle.token_states.specs.Turns.{Turns};
ghost use Rattle.token_states.specs.declared.place.LexemeState.TheVariants.{EndTagOpen, MarkupDeclarationOpen, TagOpen};

use crate::declarations::{Opening, declared};
use crate::place::{LexemeState, TagPlace};
use crate::turn::Turn;
use html_lexemes::TagKind;
use std::alloc::AllocError;

/// The character after `<`.
pub(crate) fn tag_open_turn(held: &mut String, c: char) -> Result<Turn, AllocError>
    requires { chars (string_bytes held.old) ≡ [] }
    ensures { IfOk result (λ turn. (table : References) (foreign : Bool) (mode : SeenMode) →
        Turns table foreign mode TagOpen (chars (string_bytes held.old)) c turn (chars (string_bytes held.new))) }
{
    if c.is_ascii_alphabetic() {
        held.push(c)?;
        return Ok(Turn::Goes(LexemeState::Tag(TagKind::StartTag, TagPlace::TagName)));
    }
    match c {
        '/' => Ok(Turn::Goes(LexemeState::EndTagOpen)),
        '!' => Ok(Turn::Goes(LexemeState::MarkupDeclarationOpen)),
        '?' => {
            held.push(c)?;
            Ok(Turn::Goes(LexemeState::BogusComment))
        }
        _ => Ok(Turn::EndsBefore),
    }
}

/// The character after `</`.
pub(crate) fn end_tag_open_turn(held: &mut String, c: char) -> Result<Turn, AllocError>
    requires { chars (string_bytes held.old) ≡ [] }
    ensures { IfOk result (λ turn. (table : References) (foreign : Bool) (mode : SeenMode) →
        Turns table foreign mode EndTagOpen (chars (string_bytes held.old)) c turn (chars (string_bytes held.new))) }
{
    held.push(c)?;
    if c.is_ascii_alphabetic() {
        return Ok(Turn::Goes(LexemeState::Tag(TagKind::EndTag, TagPlace::TagName)));
    }
    if c == '>' {
        return Ok(Turn::Ends(LexemeState::EndTagOpen));
    }
    Ok(Turn::Goes(LexemeState::BogusComment))
}

/// A further character after `<!`; `foreign` says that the adjusted current node is foreign.
pub(crate) fn declaration_turn(
    foreign: bool,
    held: &mut String,
    c: char,
) -> Result<Turn, AllocError>
    requires { IsTrue (is_begun_declaration (chars (string_bytes held.old))) }
    ensures { IfOk result (λ turn. (table : References) (mode : SeenMode) →
        Turns table foreign mode MarkupDeclarationOpen (chars (string_bytes held.old)) c turn
        (chars (string_bytes held.new))) }
{
    held.push(c)?;
    match declared(foreign, held) {
        Opening::Begun => Ok(Turn::Goes(LexemeState::MarkupDeclarationOpen)),
        Opening::Opens(place) => {
            held.clear();
            Ok(Turn::Goes(place))
        }
        Opening::Other if c == '>' => Ok(Turn::Ends(LexemeState::BogusComment)),
        Opening::Other => Ok(Turn::Goes(LexemeState::BogusComment)),
    }
}
