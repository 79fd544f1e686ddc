ghost use Rattle.std.specs.Prelude.{◌≡◌, ℕ, ◌∷◌, List, MatchOption, Some};
ghost use Rattle.lex_base.specs.References.{References};
ghost use Rattle.token_states.specs.TagPlaces.{rest_in};
ghost use Rattle.token_states.specs.declared.place.TagPlace.TheVariants.{AttributeValue};

use crate::place::TagPlace;
use html_lexemes::states::AttrValueKind;
use token_grammar::slices::CharacterClass;

impl TagPlace {
    /// The place after a further character of a tag. `None` is the end: the character is the tag's `>`.
    pub(crate) fn next(self, c: char) -> Option<TagPlace>
        ensures { MatchOption result ((table : References) (cs : List ℕ) → rest_in table self (c ∷ cs) ≡ Some cs)
            (λ place. (table : References) (cs : List ℕ) → rest_in table self (c ∷ cs) ≡ rest_in table place cs) }
    {
        match self {
            TagPlace::TagName => match c {
                '>' => None,
                '/' => Some(TagPlace::BeforeAttributeName),
                _ if CharacterClass::Space.has(c) => Some(TagPlace::BeforeAttributeName),
                _ => Some(TagPlace::TagName),
            },
            TagPlace::BeforeAttributeName => match c {
                '>' => None,
                '/' => Some(TagPlace::BeforeAttributeName),
                _ if CharacterClass::Space.has(c) => Some(TagPlace::BeforeAttributeName),
                _ => Some(TagPlace::AttributeName),
            },
            TagPlace::AttributeName | TagPlace::AfterAttributeName => match c {
                '>' => None,
                '/' => Some(TagPlace::BeforeAttributeName),
                '=' => Some(TagPlace::BeforeAttributeValue),
                _ if CharacterClass::Space.has(c) => Some(TagPlace::AfterAttributeName),
                _ => Some(TagPlace::AttributeName),
            },
            TagPlace::BeforeAttributeValue => match c {
                '>' => None,
                '"' => Some(TagPlace::AttributeValue(AttrValueKind::DoubleQuoted)),
                '\'' => Some(TagPlace::AttributeValue(AttrValueKind::SingleQuoted)),
                _ if CharacterClass::Space.has(c) => Some(TagPlace::BeforeAttributeValue),
                _ => Some(TagPlace::AttributeValue(AttrValueKind::Unquoted)),
            },
            TagPlace::AttributeValue(kind) => in_value(kind, c),
        }
    }
}

// the same in a value
fn in_value(kind: AttrValueKind, c: char) -> Option<TagPlace>
    ensures { MatchOption result ((table : References) (cs : List ℕ) → rest_in table (AttributeValue kind) (c ∷ cs)
        ≡ Some cs)
        (λ place. (table : References) (cs : List ℕ) → rest_in table (AttributeValue kind) (c ∷ cs)
        ≡ rest_in table place cs) }
{
    match kind {
        AttrValueKind::Unquoted => match c {
            '>' => None,
            _ if CharacterClass::Space.has(c) => Some(TagPlace::BeforeAttributeName),
            _ => Some(TagPlace::AttributeValue(kind)),
        },
        AttrValueKind::SingleQuoted => match c {
            '\'' => Some(TagPlace::BeforeAttributeName),
            _ => Some(TagPlace::AttributeValue(kind)),
        },
        AttrValueKind::DoubleQuoted => match c {
            '"' => Some(TagPlace::BeforeAttributeName),
            _ => Some(TagPlace::AttributeValue(kind)),
        },
    }
}
