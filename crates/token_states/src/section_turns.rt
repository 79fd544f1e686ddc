ghost use Rattle.std.specs.Prelude.{codes, chars, string_bytes, IfOk, IsTrue};
ghost use Rattle.token_grammar.specs.declared.modes.Mode.{Mode as SeenMode};
ghost use Rattle.token_states.specs.MarkupSound.{is_begun_section_end};
ghost use Rattle.token_states.specs.SectionTurns.{SectionTurns};

use std::alloc::AllocError;

/// What a further character does in a CDATA section, where a beginning of its end mark may be held back.
#[derive(Clone, Copy)]
pub enum SectionTurn {
    /// It is held: what is held may be the end mark.
    Goes,
    /// It ends the section with what is held.
    Ends,
    /// It is a `]` after two that are held: one of the three is text.
    Shifts,
    /// What is held is text, and so is it.
    Text,
}

/// What a further character does in a section where the beginning of an end mark is held.
pub fn section_turn(held: &mut String, c: char) -> Result<SectionTurn, AllocError>
    requires { IsTrue (is_begun_section_end (chars (string_bytes held.old))) }
    ensures { IfOk result (λ turn. (mode : SeenMode) →
        SectionTurns mode (chars (string_bytes held.old)) c turn (chars (string_bytes held.new))) }
{
    if held.as_str() == "]]" {
        return Ok(after_brackets(c));
    }
    if c != ']' {
        return Ok(SectionTurn::Text);
    }
    held.push(c)?;
    Ok(SectionTurn::Goes)
}

// what a character does after two brackets that are held
fn after_brackets(c: char) -> SectionTurn
    ensures { (mode : SeenMode) → SectionTurns mode (codes "]]") c result (codes "]]") }
{
    match c {
        '>' => SectionTurn::Ends,
        ']' => SectionTurn::Shifts,
        _ => SectionTurn::Text,
    }
}
