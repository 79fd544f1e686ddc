//! Which characters are errors in which states (WHATWG HTML, 13.2.5, as html5ever reads it).

ghost use Rattle.std.specs.Prelude.{◌≡◌};
ghost use Rattle.token_errors.specs.Noncharacters.{is_noncharacter};

use html_lexemes::states::{AttrValueKind, State};

/// The line after a character.
pub(crate) fn line_after(line: u64, c: char) -> u64 {
    if c == '\n' {
        line.saturating_add(1)
    } else {
        line
    }
}

/// Whether a character is TAB, LF, FF or SPACE.
pub(crate) fn is_space(c: char) -> bool {
    matches!(c, '\t' | '\n' | '\u{c}' | ' ')
}

/// Whether a code point is a control other than white space and NUL, or stands for no character.
pub(crate) fn is_noncharacter(code: u32) -> bool
    ensures { result ≡ is_noncharacter code }
{
    matches!(code, 0x01..=0x08 | 0x0b | 0x0e..=0x1f | 0x7f..=0x9f | 0xfdd0..=0xfdef)
        || code % 0x10000 >= 0xfffe
}

/// Whether a character is an error in a state, be it read there or only looked at.
pub(crate) fn is_bad(state: State, c: char) -> bool {
    is_bad_in_text(state, c)
        || is_bad_in_tag(state, c)
        || is_bad_in_comment(state, c)
        || is_bad_in_doctype(state, c)
}

fn is_bad_in_text(state: State, c: char) -> bool {
    match state {
        State::Data
        | State::Plaintext
        | State::RawData(_)
        | State::ScriptDataEscapedDash(_)
        | State::ScriptDataEscapedDashDash(_) => c == '\0',
        State::TagOpen => !(c.is_ascii_alphabetic() || c == '!' || c == '/'),
        State::EndTagOpen => !c.is_ascii_alphabetic(),
        _ => false,
    }
}

fn is_bad_in_tag(state: State, c: char) -> bool {
    match state {
        State::TagName
        | State::AttributeValue(AttrValueKind::SingleQuoted)
        | State::AttributeValue(AttrValueKind::DoubleQuoted) => c == '\0',
        State::BeforeAttributeName => matches!(c, '\0' | '"' | '\'' | '<' | '='),
        State::AttributeName | State::AfterAttributeName => matches!(c, '\0' | '"' | '\'' | '<'),
        State::BeforeAttributeValue => c == '>',
        State::AttributeValue(AttrValueKind::Unquoted) => {
            matches!(c, '\0' | '"' | '\'' | '<' | '=' | '`')
        }
        State::AfterAttributeValueQuoted => !(is_space(c) || c == '/' || c == '>'),
        State::SelfClosingStartTag => c != '>',
        _ => false,
    }
}

fn is_bad_in_comment(state: State, c: char) -> bool {
    match state {
        State::CommentStart | State::CommentStartDash | State::CommentEndBang => {
            c == '\0' || c == '>'
        }
        State::Comment | State::CommentEndDash | State::CommentEnd => c == '\0',
        State::CommentLessThanSignBangDashDash => c != '>',
        _ => false,
    }
}

// A keyword after the name is taken out beforehand.
fn is_bad_in_doctype(state: State, c: char) -> bool {
    match state {
        State::Doctype | State::AfterDoctypeName | State::AfterDoctypeIdentifier(_) => {
            !(is_space(c) || c == '>')
        }
        State::BeforeDoctypeName
        | State::DoctypeIdentifierDoubleQuoted(_)
        | State::DoctypeIdentifierSingleQuoted(_) => c == '\0' || c == '>',
        State::DoctypeName | State::BogusDoctype => c == '\0',
        State::AfterDoctypeKeyword(_) => !is_space(c),
        State::BeforeDoctypeIdentifier(_) => !(is_space(c) || c == '"' || c == '\''),
        State::BetweenDoctypePublicAndSystemIdentifiers => {
            !(is_space(c) || c == '>' || c == '"' || c == '\'')
        }
        _ => false,
    }
}

/// The state that reads a character, where the state that comes to it only looks at it.
pub(crate) fn next_reader(state: State, c: char) -> Option<State> {
    match state {
        State::SelfClosingStartTag if c != '>' => Some(State::BeforeAttributeName),
        State::AfterAttributeValueQuoted if !(is_space(c) || c == '/' || c == '>') => {
            Some(State::BeforeAttributeName)
        }
        State::BeforeAttributeValue if !(is_space(c) || matches!(c, '"' | '\'' | '>')) => {
            Some(State::AttributeValue(AttrValueKind::Unquoted))
        }
        State::CommentLessThanSign if c != '!' && c != '<' => Some(State::Comment),
        State::CommentLessThanSignBang if c != '-' => Some(State::Comment),
        State::CommentLessThanSignBangDash if c != '-' => Some(State::CommentEndDash),
        State::CommentLessThanSignBangDashDash => Some(State::CommentEnd),
        State::Doctype if !is_space(c) => Some(State::BeforeDoctypeName),
        _ => None,
    }
}

/// The state that the end of the page is emitted in, where it comes in a state of a lexeme.
pub(crate) fn state_at_end(state: State) -> State {
    match state {
        State::BeforeAttributeValue => State::AttributeValue(AttrValueKind::Unquoted),
        State::CommentLessThanSign | State::CommentLessThanSignBang => State::Comment,
        State::CommentLessThanSignBangDash => State::CommentEndDash,
        State::CommentLessThanSignBangDashDash => State::CommentEnd,
        _ => state,
    }
}
