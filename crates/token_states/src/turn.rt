use crate::place::{LexemeState, RawPlace};
use html_lexemes::states::RawKind;

/// What a further character does to a lexeme that is not over.
#[derive(Clone, Copy)]
pub enum Turn {
    /// The character is held, and the lexeme goes on at this place.
    Goes(LexemeState),
    /// The character is held, and the lexeme, which is one of this place, ends with it.
    Ends(LexemeState),
    /// The lexeme was over before the character, which isn't held.
    EndsBefore,
}

/// What a further character does to what is held of the text of an element.
#[derive(Clone, Copy)]
pub enum RawTurn {
    /// The character is held, and more is needed.
    Goes(RawPlace),
    /// What was held is text, after which the text is of this kind; the character isn't held.
    Before(RawKind),
    /// The character is held. A front of what is held is text, after which the text is of this kind and the rest of
    /// what is held stands at this place.
    Shifts(&'static str, RawKind, RawPlace),
    /// What was held is `</` and the name of an end tag, which the character ends. The name alone stays held, and the
    /// character isn't.
    EndTag,
}
