ghost use Rattle.std.specs.Prelude.{Bool, chars, string_bytes, IfOk, MatchBool};
ghost use Rattle.lex_base.specs.References.{References};
ghost use Rattle.token_grammar.specs.declared.modes.Mode.{Mode as SeenMode};
ghost use Rattle.token_states.specs.CommentEnds.{IsClosed, IsNotClosed};
ghost use Rattle.token_states.specs.MarkupSound.{HasNoGreater, IsOpenComment};
ghost use Rattle.token_states.specs.Turns.{Turns};
ghost use Rattle.token_states.specs.declared.place.LexemeState.TheVariants.{BogusComment, Comment};

use crate::place::LexemeState;
use crate::turn::Turn;
use std::alloc::AllocError;

/// A further character of a comment that `>` ends.
pub(crate) fn bogus_comment_turn(held: &mut String, c: char) -> Result<Turn, AllocError>
    requires { HasNoGreater (chars (string_bytes held.old)) }
    ensures { IfOk result (λ turn. (table : References) (foreign : Bool) (mode : SeenMode) →
        Turns table foreign mode BogusComment (chars (string_bytes held.old)) c turn (chars (string_bytes held.new))) }
{
    held.push(c)?;
    if c == '>' {
        return Ok(Turn::Ends(LexemeState::BogusComment));
    }
    Ok(Turn::Goes(LexemeState::BogusComment))
}

/// A further character of a comment after `<!--`.
pub(crate) fn comment_turn(held: &mut String, c: char) -> Result<Turn, AllocError>
    requires { IsOpenComment (chars (string_bytes held.old)) }
    ensures { IfOk result (λ turn. (table : References) (foreign : Bool) (mode : SeenMode) →
        Turns table foreign mode Comment (chars (string_bytes held.old)) c turn (chars (string_bytes held.new))) }
{
    held.push(c)?;
    if is_closed(held) {
        return Ok(Turn::Ends(LexemeState::Comment));
    }
    Ok(Turn::Goes(LexemeState::Comment))
}

// a comment that has come to its end
fn is_closed(comment: &str) -> bool
    ensures { MatchBool result (IsClosed (chars comment.now)) (IsNotClosed (chars comment.now)) }
{
    match comment {
        ">" | "->" => true,
        _ => comment.ends_with("-->") || comment.ends_with("--!>"),
    }
}
