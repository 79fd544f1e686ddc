ghost use Rattle.std.specs.Prelude.{MatchBool, chars, ◌≡◌, ◌≢◌, ℕ, false};
ghost use Rattle.token_grammar.specs.Items.{characters};
ghost use Rattle.token_grammar.specs.PlainRead.{items_of};
ghost use Rattle.token_grammar.specs.Reading.{IsAfterError};
ghost use Rattle.html_tokenizer.specs.Emits.{IsFirstAfterError};
ghost use Rattle.token_errors.specs.Found.{heeds};

use html_lexemes::states::State;
use html_lexemes::{ReferenceTable, Token};
use std::alloc::AllocError;
use token_errors::ParseErrors;
use token_grammar::TextKind;
use token_grammar::lexemes::Lexeme;
use token_grammar::slices::first_and_rest;
use token_states::LexemeState;

/// Finds the parse errors in a lexeme that is over: in what was held at its place. `line` is that on which a reference
/// stands. What the grammar emits as an item, a `</>` and a reference without its semicolon, is not among them. Where
/// `may_repeat` is false no two attributes of a tag have one name. The error is allocation failure alone.
pub(crate) fn find_errors(
    errors: &mut ParseErrors,
    table: &ReferenceTable,
    start: MarkupStart,
    place: LexemeState,
    held: &str,
    may_repeat: bool,
    line: u64,
) -> Result<(), AllocError> {
    match place {
        LexemeState::CharacterReference(_) => errors.in_reference(table, held, line),
        LexemeState::Tag(kind, _) => errors.in_tag(table, kind, held, may_repeat, start.line),
        LexemeState::BogusComment => errors.in_bogus_comment(start.state, held, start.line),
        LexemeState::Comment => errors.in_comment(held, start.line),
        LexemeState::Doctype => errors.in_doctype(held, start.line),
        _ => Ok(()),
    }
}

/// Whether two attributes of a lexeme that is a tag have one name.
pub(crate) fn may_repeat(lexeme: &Lexeme<'_>) -> bool {
    match lexeme {
        Lexeme::Tagged(tag, _) => tag.had_duplicate_attributes,
        _ => true,
    }
}

/// Finds the error of a `<` that is text, at the character after it; `line` is that of the `<`.
pub(crate) fn find_errors_before(
    errors: &mut ParseErrors,
    place: LexemeState,
    c: char,
    line: u64,
) -> Result<(), AllocError> {
    match place {
        LexemeState::TagOpen => errors.at_tag_open(Some(c), line),
        _ => Ok(()),
    }
}

/// The same in what is held at the end of the page.
pub(crate) fn find_last_errors(
    errors: &mut ParseErrors,
    table: &ReferenceTable,
    start: MarkupStart,
    place: LexemeState,
    held: &str,
    line: u64,
) -> Result<(), AllocError> {
    match place {
        LexemeState::CharacterReference(_) => errors.in_last_reference(table, held, line),
        LexemeState::TagOpen => errors.at_tag_open(None, line),
        LexemeState::EndTagOpen => errors.at_end_tag_open(line),
        LexemeState::MarkupDeclarationOpen => {
            errors.in_bogus_comment(State::MarkupDeclarationOpen, held, line)
        }
        // what is cut off is no token that says whether its attributes repeat a name
        _ => find_errors(errors, table, start, place, held, true, line),
    }
}

/// The state in which the page ends, at a place: one of text, or of a CDATA section. After markup, which the end of
/// the page cuts off, it is that of ordinary text.
pub(crate) fn last_state(text: TextKind, place: LexemeState) -> State {
    match place {
        LexemeState::Text => state_of(text),
        LexemeState::CdataSection => State::CdataSection,
        LexemeState::RawText(kind, _) => State::RawData(kind),
        _ => State::Data,
    }
}

/// Where markup began.
#[derive(Clone, Copy)]
pub(crate) struct MarkupStart {
    /// The state after its `<`, `</` or `<!`.
    pub(crate) state: State,
    /// The line of the character after that.
    pub(crate) line: u64,
}

impl MarkupStart {
    /// What is known after a further character of markup, on a line, that was read at a place.
    pub(crate) fn trailing(self, place: LexemeState, line: u64) -> MarkupStart {
        let state = match place {
            LexemeState::TagOpen => State::TagOpen,
            LexemeState::EndTagOpen => State::EndTagOpen,
            LexemeState::MarkupDeclarationOpen => State::MarkupDeclarationOpen,
            _ => return self,
        };
        MarkupStart { state, line }
    }
}

/// The state of text of a kind.
pub(crate) fn state_of(text: TextKind) -> State {
    match text {
        TextKind::Ordinary => State::Data,
        TextKind::Plain => State::Plaintext,
        TextKind::Raw(kind) => State::RawData(kind),
    }
}

/// Whether errors are looked for at characters of text other than NUL: a name after `&` may go on in them, or each is
/// to be reported that no page should have.
#[inline(always)]
pub(crate) fn looks_at_text(errors: &ParseErrors) -> bool
    ensures { result ≡ false → (c : ℕ) → c ≢ 0 → heeds errors.now c ≡ false }
{
    // a noncharacter, which is heeded wherever another character but NUL is
    errors.heeds('\u{fffe}')
}

/// Whether an error right before the first of some tokens changes nothing.
pub(crate) fn may_follow_error(tokens: &[Token]) -> bool
    ensures { MatchBool result (IsFirstAfterError (items_of tokens.now)) (IsFirstAfterError (items_of tokens.now) → ⊥) }
{
    match tokens.first() {
        Some(Token::CharacterTokens(text)) => is_other_than_line_feed(text.as_str()),
        Some(_) => true,
        None => false,
    }
}

// whether a text begins with another character than LF
fn is_other_than_line_feed(text: &str) -> bool
    ensures { MatchBool result (IsAfterError (characters (chars text.now)))
        (IsAfterError (characters (chars text.now)) → ⊥) }
{
    match first_and_rest(text) {
        Some((c, _)) => c != '\n',
        None => false,
    }
}
