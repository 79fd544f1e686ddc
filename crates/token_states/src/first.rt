ghost use Rattle.std.specs.Prelude.{◌≡◌, ◌==◌, ◌&&◌, chars};
ghost use Rattle.std.specs.Char.{IsScalar};
ghost use Rattle.token_grammar.specs.declared.modes.TextKind.TheVariants.{Raw};
ghost use Rattle.token_states.specs.Firsts.{IsFirst};
ghost use Rattle.token_states.specs.Goings.{has_end_tag, is_name_of_letters, may_begin};
ghost use Rattle.token_states.specs.PlaceKinds.{IsFirstOf};
ghost use Rattle.token_states.specs.RawSound.{is_escaped};

use crate::place::{LexemeState, RawPlace, ReferencePlace};
use html_lexemes::LocalName;
use html_lexemes::states::RawKind;
use token_grammar::TextKind;
use token_grammar::characters::shown_character;
use token_grammar::lexemes::may_be_reference;

/// What the first character of a lexeme is, before what follows it is known.
#[derive(Clone, Copy)]
pub enum First {
    /// Text, as this character.
    Text(char),
    /// A NUL of ordinary text.
    Null,
    /// The opening that this place names.
    Opens(LexemeState),
    /// A character of an element's text that more may follow that matters.
    OpensRaw(RawKind, RawPlace),
}

/// What a character is where it stands first in text of a kind (WHATWG HTML, 13.2.5.1 to 13.2.5.5, 13.2.5.20 and
/// 13.2.5.27); `last` is the name of the last start tag, without which `<` begins no end tag.
#[inline(always)]
pub fn first_of(last: &Option<LocalName>, text: TextKind, c: char) -> First
    requires { IsScalar c }
    ensures first { IsFirst last.now text c result }
    ensures kind { IsFirstOf text result }
{
    match text {
        TextKind::Ordinary => match c {
            '\0' => First::Null,
            '<' => First::Opens(LexemeState::TagOpen),
            '&' => First::Opens(LexemeState::CharacterReference(ReferencePlace::Named)),
            _ => First::Text(c),
        },
        TextKind::Plain => First::Text(shown_character(c)),
        TextKind::Raw(kind) => first_of_raw(last, kind, c),
    }
}

#[inline(never)]
fn first_of_raw(last: &Option<LocalName>, kind: RawKind, c: char) -> First
    requires { IsScalar c }
    ensures first { IsFirst last.now (Raw kind) c result }
    ensures kind { IsFirstOf (Raw kind) result }
{
    if c == '<' && may_begin(last, kind) {
        return First::OpensRaw(kind, RawPlace::LessThanSign);
    }
    if may_be_reference(kind, c) {
        return First::Opens(LexemeState::CharacterReference(ReferencePlace::Named));
    }
    if may_end_escape(kind, c) {
        return First::OpensRaw(kind, RawPlace::Dashes);
    }
    First::Text(shown_character(c))
}

// whether `<` may begin an end tag, or another part of script data
fn may_begin(last: &Option<LocalName>, kind: RawKind) -> bool
    ensures { result ≡ may_begin last.now kind }
{
    match kind {
        RawKind::Rcdata | RawKind::Rawtext => has_end_tag(last),
        RawKind::ScriptData | RawKind::ScriptDataEscaped(_) => true,
    }
}

/// Whether an end tag can have the name of the last start tag where it ends the text of an element: its letters alone
/// are compared.
pub(crate) fn has_end_tag(last: &Option<LocalName>) -> bool
    ensures { result ≡ has_end_tag last.now }
{
    match last {
        Some(name) => is_name_of_letters(name.as_str()),
        None => false,
    }
}

fn is_name_of_letters(name: &str) -> bool
    ensures { result ≡ is_name_of_letters (chars name.now) }
{
    !name.is_empty() && name.chars().all(|c| c.is_ascii_lowercase())
}

fn may_end_escape(kind: RawKind, c: char) -> bool
    ensures { result ≡ (c == 45 && is_escaped kind) }
{
    c == '-' && matches!(kind, RawKind::ScriptDataEscaped(_))
}
