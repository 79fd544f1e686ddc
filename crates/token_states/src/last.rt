ghost use Rattle.std.specs.Prelude.{◌≡◌, chars, IfOk};
ghost use Rattle.token_grammar.specs.Lexemes.{in_kind, lexeme};
ghost use Rattle.token_grammar.specs.PlainRead.{lexeme_of};
ghost use Rattle.token_grammar.specs.Emitted.{HasRest};
ghost use Rattle.token_states.specs.Places.{place_lexeme};

use crate::place::LexemeState;
use html_lexemes::states::RawKind;
use html_lexemes::{LocalName, ReferenceTable};
use std::alloc::{AllocError, Global};
use token_grammar::comments::{bogus_comment_slice, comment_slice};
use token_grammar::lexemes::{
    Lexeme, comment, declaration, doctype, end_tag, lexeme_at, markup, reference_or_sign, section,
    tag_or_nothing,
};
use token_grammar::{Mode, TextKind};

/// The lexeme that a whole text is from a place on, and what it leaves of the text. The error is allocation failure
/// alone.
pub fn lexeme_from<'t>(
    alloc: Global,
    table: &ReferenceTable,
    foreign: bool,
    mode: &Mode,
    place: LexemeState,
    text: &'t str,
) -> Result<Lexeme<'t>, AllocError>
    ensures value { IfOk result (λ l. lexeme_of mode.now l ≡ place_lexeme table.now foreign mode.now place (chars text.now)) }
    ensures utf8 { IfOk result HasRest }
{
    match place {
        LexemeState::Text => lexeme_at(alloc, table, foreign, mode, text),
        LexemeState::CharacterReference(_) => reference_or_sign(alloc, table, mode, text),
        LexemeState::TagOpen => markup(alloc, table, foreign, mode, text),
        LexemeState::EndTagOpen => end_tag(alloc, table, mode, text),
        LexemeState::Tag(kind, _) => tag_or_nothing(alloc, table, kind, text),
        LexemeState::MarkupDeclarationOpen => declaration(alloc, foreign, mode, text),
        LexemeState::BogusComment => comment(alloc, mode, bogus_comment_slice(text)),
        LexemeState::Comment => comment(alloc, mode, comment_slice(text)),
        LexemeState::Doctype => doctype(alloc, mode, text),
        LexemeState::CdataSection => section(alloc, mode, text),
        LexemeState::RawText(kind, _) => raw_lexeme(alloc, table, foreign, mode, kind, text),
    }
}

// what stands first in an element's text of a kind
fn raw_lexeme<'t>(
    alloc: Global,
    table: &ReferenceTable,
    foreign: bool,
    mode: &Mode,
    kind: RawKind,
    text: &'t str,
) -> Result<Lexeme<'t>, AllocError>
    ensures value { IfOk result (λ l. lexeme_of mode.now l ≡ lexeme table.now foreign (in_kind mode.now kind)
        (chars text.now)) }
    ensures utf8 { IfOk result HasRest }
{
    let raw = Mode {
        text: TextKind::Raw(kind),
        last_start_tag: copy_of(&mode.last_start_tag)?,
    };
    lexeme_at(alloc, table, foreign, &raw, text)
}

fn copy_of(name: &Option<LocalName>) -> Result<Option<LocalName>, AllocError>
    ensures { IfOk result (λ copy. copy ≡ name.now) }
{
    match name {
        Some(name) => Ok(Some(name.try_clone()?)),
        None => Ok(None),
    }
}
