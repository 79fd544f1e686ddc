//! The sets that are asked about at each step up the stack of open elements, or for each tag, as tables: which of the
//! known names a set has, in the order of their numbers.
ghost use Rattle.std.specs.Prelude.{◌≡◌, ℕ, List, map, true};
ghost use Rattle.std.specs.List.{list_all};
ghost use Rattle.lex_base.specs.Known.{all_known, is_known, known_text};
ghost use Rattle.tree_names.specs.Sets.{html_elements, is_element_of, is_one_of};

use html_lexemes::{LocalName, Namespace, QualName};

/// Whether a name is in the set of a table.
pub(crate) fn is_in(name: &LocalName, table: &[bool; 142]) -> bool
    ensures { (words : List (List ℕ)) → table.now ≡ map (λ known. is_one_of words (known_text known)) all_known →
        list_all is_known words ≡ true → result ≡ is_one_of words name.now }
{
    match name.known() {
        Some(known) => table[known as usize],
        None => false,
    }
}

/// Whether an element is one of HTML, and its name in the set of a table.
pub(crate) fn is_html_in(name: &QualName, table: &[bool; 142]) -> bool
    ensures { (words : List (List ℕ)) → table.now ≡ map (λ known. is_one_of words (known_text known)) all_known →
        list_all is_known words ≡ true → result ≡ is_element_of (html_elements words) name.now }
{
    match name.ns {
        Namespace::Html => is_in(&name.local, table),
        Namespace::MathMl | Namespace::Svg | Namespace::Other(_) => false,
    }
}

/// The barriers of scope.
pub(crate) static SCOPE_BARRIERS: [bool; 142] = [
    false, false, false, false, false, true, false, false, false, false, false, false, false,
    false, false, false, false, false, true, false, false, false, false, false, false, false,
    false, false, false, false, false, false, false, false, false, false, false, false, false,
    false, false, false, false, false, false, false, false, false, false, false, false, false,
    false, false, false, false, false, false, true, false, false, false, false, false, false,
    false, false, false, false, false, false, false, true, false, false, false, false, false,
    false, false, false, false, false, false, false, false, false, false, false, true, false,
    false, false, false, false, false, false, false, false, false, false, false, false, false,
    false, false, false, false, false, true, false, false, false, false, false, false, false,
    false, false, false, false, true, false, false, true, true, false, false, true, false, false,
    false, false, false, false, false, false, false, false, false, false, false,
];

/// The barriers of list item scope.
pub(crate) static LIST_ITEM_SCOPE_BARRIERS: [bool; 142] = [
    false, false, false, false, false, true, false, false, false, false, false, false, false,
    false, false, false, false, false, true, false, false, false, false, false, false, false,
    false, false, false, false, false, false, false, false, false, false, false, false, false,
    false, false, false, false, false, false, false, false, false, false, false, false, false,
    false, false, false, false, false, false, true, false, false, false, false, false, false,
    false, false, false, false, false, false, false, true, false, false, false, false, false,
    false, false, false, false, false, false, false, false, false, false, false, true, true, false,
    false, false, false, false, false, false, false, false, false, false, false, false, false,
    false, false, false, false, true, false, false, false, false, false, false, false, false,
    false, false, false, true, false, false, true, true, false, false, true, false, false, false,
    false, false, false, false, true, false, false, false, false, false,
];

/// The barriers of button scope.
pub(crate) static BUTTON_SCOPE_BARRIERS: [bool; 142] = [
    false, false, false, false, false, true, false, false, false, false, false, false, false,
    false, false, false, false, true, true, false, false, false, false, false, false, false, false,
    false, false, false, false, false, false, false, false, false, false, false, false, false,
    false, false, false, false, false, false, false, false, false, false, false, false, false,
    false, false, false, false, false, true, false, false, false, false, false, false, false,
    false, false, false, false, false, false, true, false, false, false, false, false, false,
    false, false, false, false, false, false, false, false, false, false, true, false, false,
    false, false, false, false, false, false, false, false, false, false, false, false, false,
    false, false, false, false, true, false, false, false, false, false, false, false, false,
    false, false, false, true, false, false, true, true, false, false, true, false, false, false,
    false, false, false, false, false, false, false, false, false, false,
];

/// Special elements.
pub(crate) static SPECIAL: [bool; 142] = [
    false, false, true, false, false, true, true, true, true, false, true, true, true, false, true,
    true, true, true, true, true, false, false, false, true, true, false, false, true, false, true,
    false, true, true, true, true, false, true, true, true, true, false, true, false, true, true,
    true, true, true, true, true, true, true, true, true, false, true, true, false, true, false,
    false, true, false, true, true, true, false, true, true, true, true, false, true, false, true,
    true, false, false, false, false, false, false, false, false, true, false, true, true, true,
    true, true, false, false, true, true, true, true, false, false, false, false, false, false,
    false, false, false, true, true, true, true, false, true, false, false, false, false, true,
    false, true, false, false, true, false, true, true, true, true, true, true, true, true, true,
    true, false, false, false, true, false, false, true, false, true,
];

/// Elements whose end tags are implied.
pub(crate) static IMPLIED_END_TAGS: [bool; 142] = [
    false, false, false, false, false, false, false, false, false, false, false, false, false,
    false, false, false, false, false, false, false, false, false, false, false, false, false,
    false, true, false, false, false, false, false, false, true, false, false, false, false, false,
    false, false, false, false, false, false, false, false, false, false, false, false, false,
    false, false, false, false, false, false, false, false, false, false, false, false, false,
    false, true, false, false, false, false, false, false, false, false, false, false, false,
    false, false, false, false, false, false, false, false, false, false, false, false, true, true,
    true, false, false, false, true, false, false, false, true, true, true, false, false, false,
    false, false, false, false, false, false, false, false, false, false, false, false, false,
    false, false, false, false, false, false, false, false, false, false, false, false, false,
    false, false, false, false, false, false, false, false, false,
];

/// `address`, `div` and `p`.
pub(crate) static ADDRESS_DIV_AND_P: [bool; 142] = [
    false, false, true, false, false, false, false, false, false, false, false, false, false,
    false, false, false, false, false, false, false, false, false, false, false, false, false,
    false, false, false, false, false, false, true, false, false, false, false, false, false,
    false, false, false, false, false, false, false, false, false, false, false, false, false,
    false, false, false, false, false, false, false, false, false, false, false, false, false,
    false, false, false, false, false, false, false, false, false, false, false, false, false,
    false, false, false, false, false, false, false, false, false, false, false, false, false,
    false, false, true, false, false, false, false, false, false, false, false, false, false,
    false, false, false, false, false, false, false, false, false, false, false, false, false,
    false, false, false, false, false, false, false, false, false, false, false, false, false,
    false, false, false, false, false, false, false, false, false, false, false, false,
];

/// Headings.
pub(crate) static HEADINGS: [bool; 142] = [
    false, false, false, false, false, false, false, false, false, false, false, false, false,
    false, false, false, false, false, false, false, false, false, false, false, false, false,
    false, false, false, false, false, false, false, false, false, false, false, false, false,
    false, false, false, false, false, false, false, true, true, true, true, true, true, false,
    false, false, false, false, false, false, false, false, false, false, false, false, false,
    false, false, false, false, false, false, false, false, false, false, false, false, false,
    false, false, false, false, false, false, false, false, false, false, false, false, false,
    false, false, false, false, false, false, false, false, false, false, false, false, false,
    false, false, false, false, false, false, false, false, false, false, false, false, false,
    false, false, false, false, false, false, false, false, false, false, false, false, false,
    false, false, false, false, false, false, false, false, false, false, false,
];

/// Where clearing back to a table stops, and the barriers of table scope.
pub(crate) static TABLE_CONTEXT: [bool; 142] = [
    false, false, false, false, false, false, false, false, false, false, false, false, false,
    false, false, false, false, false, false, false, false, false, false, false, false, false,
    false, false, false, false, false, false, false, false, false, false, false, false, false,
    false, false, false, false, false, false, false, false, false, false, false, false, false,
    false, false, false, false, false, false, true, false, false, false, false, false, false,
    false, false, false, false, false, false, false, false, false, false, false, false, false,
    false, false, false, false, false, false, false, false, false, false, false, false, false,
    false, false, false, false, false, false, false, false, false, false, false, false, false,
    false, false, false, false, false, false, false, false, false, false, false, false, false,
    false, false, false, false, true, false, false, false, true, false, false, false, false, false,
    false, false, false, false, false, false, false, false, false, false, false,
];

/// Where clearing back to a table body stops.
pub(crate) static TABLE_BODY_CONTEXT: [bool; 142] = [
    false, false, false, false, false, false, false, false, false, false, false, false, false,
    false, false, false, false, false, false, false, false, false, false, false, false, false,
    false, false, false, false, false, false, false, false, false, false, false, false, false,
    false, false, false, false, false, false, false, false, false, false, false, false, false,
    false, false, false, false, false, false, true, false, false, false, false, false, false,
    false, false, false, false, false, false, false, false, false, false, false, false, false,
    false, false, false, false, false, false, false, false, false, false, false, false, false,
    false, false, false, false, false, false, false, false, false, false, false, false, false,
    false, false, false, false, false, false, false, false, false, false, false, false, false,
    false, false, false, false, false, false, true, false, true, false, true, false, true, false,
    false, false, false, false, false, false, false, false, false, false, false,
];

/// Where clearing back to a table row stops.
pub(crate) static TABLE_ROW_CONTEXT: [bool; 142] = [
    false, false, false, false, false, false, false, false, false, false, false, false, false,
    false, false, false, false, false, false, false, false, false, false, false, false, false,
    false, false, false, false, false, false, false, false, false, false, false, false, false,
    false, false, false, false, false, false, false, false, false, false, false, false, false,
    false, false, false, false, false, false, true, false, false, false, false, false, false,
    false, false, false, false, false, false, false, false, false, false, false, false, false,
    false, false, false, false, false, false, false, false, false, false, false, false, false,
    false, false, false, false, false, false, false, false, false, false, false, false, false,
    false, false, false, false, false, false, false, false, false, false, false, false, false,
    false, false, false, false, false, false, false, false, true, false, false, false, false,
    false, true, false, false, false, false, false, false, false, false, false, false,
];

/// Parts of a table that foster.
pub(crate) static FOSTER_TARGETS: [bool; 142] = [
    false, false, false, false, false, false, false, false, false, false, false, false, false,
    false, false, false, false, false, false, false, false, false, false, false, false, false,
    false, false, false, false, false, false, false, false, false, false, false, false, false,
    false, false, false, false, false, false, false, false, false, false, false, false, false,
    false, false, false, false, false, false, false, false, false, false, false, false, false,
    false, false, false, false, false, false, false, false, false, false, false, false, false,
    false, false, false, false, false, false, false, false, false, false, false, false, false,
    false, false, false, false, false, false, false, false, false, false, false, false, false,
    false, false, false, false, false, false, false, false, false, false, false, false, false,
    false, false, false, false, true, false, true, false, false, false, true, false, true, false,
    true, false, false, false, false, false, false, false, false, false, false,
];

/// Where text in a table is collected.
pub(crate) static TABLE_TEXT_PLACES: [bool; 142] = [
    false, false, false, false, false, false, false, false, false, false, false, false, false,
    false, false, false, false, false, false, false, false, false, false, false, false, false,
    false, false, false, false, false, false, false, false, false, false, false, false, false,
    false, false, false, false, false, false, false, false, false, false, false, false, false,
    false, false, false, false, false, false, false, false, false, false, false, false, false,
    false, false, false, false, false, false, false, false, false, false, false, false, false,
    false, false, false, false, false, false, false, false, false, false, false, false, false,
    false, false, false, false, false, false, false, false, false, false, false, false, false,
    false, false, false, false, false, false, false, false, false, false, false, false, false,
    false, false, false, false, true, false, true, false, true, false, true, false, true, false,
    true, false, false, false, false, false, false, false, false, false, false,
];

/// Elements without contents.
pub(crate) static VOID: [bool; 142] = [
    false, false, false, false, false, false, true, false, false, false, true, true, true, false,
    false, false, true, false, false, false, false, false, false, true, false, false, false, false,
    false, false, false, false, false, false, false, false, true, false, false, false, false,
    false, false, false, true, false, false, false, false, false, false, false, false, false,
    false, false, true, false, false, false, false, false, false, true, true, true, false, false,
    true, false, false, false, false, false, false, true, false, false, false, false, false, false,
    false, false, false, false, false, false, false, false, false, false, false, false, true,
    false, false, false, false, false, false, false, false, false, false, false, false, false,
    false, false, false, true, false, false, false, false, false, false, false, false, false,
    false, false, false, false, false, false, false, false, false, false, false, true, false,
    false, false, false, false, false, true, false, false,
];

/// Elements with formatting.
pub(crate) static FORMATTING: [bool; 142] = [
    true, false, false, false, false, false, false, false, false, true, false, false, false, true,
    false, false, false, false, false, false, false, false, true, false, false, false, false,
    false, false, false, false, false, false, false, false, true, false, false, false, false, true,
    false, false, false, false, false, false, false, false, false, false, false, false, false,
    false, false, false, false, false, true, false, false, false, false, false, false, false,
    false, false, false, false, false, false, false, false, false, false, false, false, false,
    false, false, false, false, false, true, false, false, false, false, false, false, false,
    false, false, false, false, false, false, false, false, false, false, false, false, true,
    false, false, false, false, true, false, false, false, true, true, false, false, false, false,
    false, false, false, false, false, false, false, false, false, false, false, false, false,
    true, false, true, false, false, false, false, false, false,
];
