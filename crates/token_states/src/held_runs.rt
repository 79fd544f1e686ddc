ghost use Rattle.std.specs.Prelude.{◌≡◌, MatchOption, None, Some};
ghost use Rattle.token_states.specs.HeldRuns.{held_stops, tag_stops};

use crate::place::{LexemeState, TagPlace};
use html_lexemes::states::AttrValueKind;

/// The characters at which a run of what is held at a place stops: any other is held as it is, and the place stays.
/// `None` is a place at which each character is read by itself.
#[inline(always)]
pub fn held_stops(place: LexemeState) -> Option<&'static [char]>
    ensures { MatchOption result (held_stops place ≡ None) (λ stops. held_stops place ≡ Some stops.now) }
{
    match place {
        LexemeState::Tag(_, place) => tag_stops(place),
        LexemeState::BogusComment | LexemeState::Comment | LexemeState::Doctype => Some(&[
            '\n', '\r', '>',
        ]),
        _ => None,
    }
}

// the same in a tag
fn tag_stops(place: TagPlace) -> Option<&'static [char]>
    ensures { MatchOption result (tag_stops place ≡ None) (λ stops. tag_stops place ≡ Some stops.now) }
{
    match place {
        TagPlace::TagName => Some(&['\t', '\n', '\u{c}', '\r', ' ', '/', '>']),
        TagPlace::AttributeName => Some(&['\t', '\n', '\u{c}', '\r', ' ', '/', '=', '>']),
        TagPlace::AttributeValue(AttrValueKind::Unquoted) => {
            Some(&['\t', '\n', '\u{c}', '\r', ' ', '>'])
        }
        TagPlace::AttributeValue(AttrValueKind::SingleQuoted) => Some(&['\n', '\r', '\'']),
        TagPlace::AttributeValue(AttrValueKind::DoubleQuoted) => Some(&['\n', '\r', '"']),
        _ => None,
    }
}
