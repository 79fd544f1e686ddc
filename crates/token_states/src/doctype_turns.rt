ghost use Rattle.std.specs.Prelude.{Bool, chars, string_bytes, IfOk};
ghost use Rattle.lex_base.specs.References.{References};
ghost use Rattle.token_grammar.specs.declared.modes.Mode.{Mode as SeenMode};
ghost use Rattle.token_states.specs.MarkupSound.{HasNoGreater};
ghost use Rattle.token_states.specs.Turns.{Turns};
ghost use Rattle.token_states.specs.declared.place.LexemeState.TheVariants.{Doctype};

use crate::place::LexemeState;
use crate::turn::Turn;
use std::alloc::AllocError;

/// A further character of a doctype, which ends at its first `>`, also in an identifier.
pub(crate) fn doctype_turn(held: &mut String, c: char) -> Result<Turn, AllocError>
    requires { HasNoGreater (chars (string_bytes held.old)) }
    ensures { IfOk result (λ turn. (table : References) (foreign : Bool) (mode : SeenMode) →
        Turns table foreign mode Doctype (chars (string_bytes held.old)) c turn (chars (string_bytes held.new))) }
{
    held.push(c)?;
    if c == '>' {
        return Ok(Turn::Ends(LexemeState::Doctype));
    }
    Ok(Turn::Goes(LexemeState::Doctype))
}
