//! How many elements of each name are open.
ghost use Rattle.std.specs.Prelude.{◌≡◌, ℕ, ◌<◌, ◌++◌, true, false, List, [], ◌∷◌, chars, length, map};
ghost use Rattle.html_lexemes.specs.declared.names.QualName.{QualName as SeenQualName};
ghost use Rattle.html_lexemes.specs.declared.names.Namespace.TheVariants.{Html};
ghost use Rattle.lex_base.specs.Known.{all_known, known_text};
ghost use Rattle.tree_names.specs.Counts.{count_in, count_of, counts_of, has_counts, has_foreign, has_one};
ghost use Rattle.tree_names.specs.Counts.{shared_count};
ghost use Rattle.tree_names.specs.Sets.{html_elements};
ghost use Rattle.tree_names.specs.Wanted.{elements_of, one};

use crate::wanted::ElementSet;
use html_lexemes::{KnownName, LocalName, Namespace, QualName};
use std::marker::Model;

/// How many elements are open, by name (WHATWG HTML, 13.2.4.2): with it a test of scope needs no walk where no element
/// of the name is open. The names that tests of scope ask about have a count each; all others share 128, by a number
/// that is made of their letters.
#[derive(Drop)]
pub struct OpenCounts {
    counts: [usize; 188],
}

impl Model for OpenCounts {
    ghost use Rattle.std.specs.Prelude.{ℕ, List};

    ghost Value = { List ℕ };

    ghost view = { λ held. held.counts };
}

impl OpenCounts {
    /// No element is open. It takes no memory.
    pub fn new() -> OpenCounts
        ensures { result ≡ counts_of [] }
    {
        OpenCounts { counts: [0; 188] }
    }

    /// An element more is open, of so many that are open now.
    pub fn add(&mut self, name: &QualName, size: usize)
        requires { (names : List SeenQualName) × ((self.old ≡ counts_of names) × (length names < size)) }
        ensures { (front back : List SeenQualName) → self.old ≡ counts_of (front ++ back) →
            self.new ≡ counts_of (front ++ name.now ∷ back) }
    {
        let place = place_of(name);
        prove!(self.counts[place] < size);
        self.counts[place] += 1;
    }

    /// An element is open no longer.
    pub fn remove(&mut self, name: &QualName)
        requires { (front back : List SeenQualName) × (self.old ≡ counts_of (front ++ name.now ∷ back)) }
        ensures { (front back : List SeenQualName) → self.old ≡ counts_of (front ++ name.now ∷ back) →
            self.new ≡ counts_of (front ++ back) }
    {
        let place = place_of(name);
        self.counts[place] -= 1;
    }

    /// Whether it is known by the counts that no element of a set is open. Where each word of the set has a count of
    /// its own, they say it exactly; of another name, which shares its count with others, `false` says nothing.
    pub fn has_none(&self, wanted: ElementSet<'_>) -> bool
        ensures none { (names : List SeenQualName) → self.now ≡ counts_of names → result ≡ true →
            has_one (elements_of wanted.entry) names ≡ false }
        ensures some { (names : List SeenQualName) → self.now ≡ counts_of names → result ≡ false →
            has_counts (elements_of wanted.entry) ≡ true → has_one (elements_of wanted.entry) names ≡ true }
    {
        match wanted {
            ElementSet::Named(word) => self.has_no(word),
            ElementSet::Body => self.lacks(&[KnownName::Body]),
            ElementSet::Button => self.lacks(&[KnownName::Button]),
            ElementSet::Caption => self.lacks(&[KnownName::Caption]),
            ElementSet::ColumnGroup => self.lacks(&[KnownName::Colgroup]),
            ElementSet::Definition => self.lacks(&[KnownName::Dd, KnownName::Dt]),
            ElementSet::Form => self.lacks(&[KnownName::Form]),
            ElementSet::Heading => self.lacks(&[
                KnownName::H1,
                KnownName::H2,
                KnownName::H3,
                KnownName::H4,
                KnownName::H5,
                KnownName::H6,
            ]),
            ElementSet::Html => self.lacks(&[KnownName::Html]),
            ElementSet::ListItem => self.lacks(&[KnownName::Li]),
            ElementSet::NoBreak => self.lacks(&[KnownName::Nobr]),
            ElementSet::Nothing => self.lacks(&[]),
            ElementSet::OptionGroup => self.lacks(&[KnownName::Optgroup]),
            ElementSet::OptionItem => self.lacks(&[KnownName::Option]),
            ElementSet::Paragraph => self.lacks(&[KnownName::P]),
            ElementSet::Ruby => self.lacks(&[KnownName::Ruby]),
            ElementSet::RubyTextContainer => self.lacks(&[KnownName::Rtc]),
            ElementSet::Select => self.lacks(&[KnownName::Select]),
            ElementSet::Table => self.lacks(&[KnownName::Table]),
            ElementSet::TableBodyContext => {
                self.lacks(&[
                    KnownName::Tbody,
                    KnownName::Tfoot,
                    KnownName::Thead,
                    KnownName::Template,
                    KnownName::Html,
                ])
            }
            ElementSet::TableCell => self.lacks(&[KnownName::Td, KnownName::Th]),
            ElementSet::TableContext => self.lacks(&[
                KnownName::Table,
                KnownName::Template,
                KnownName::Html,
            ]),
            ElementSet::TableRow => self.lacks(&[KnownName::Tr]),
            ElementSet::TableRowContext => self.lacks(&[
                KnownName::Tr,
                KnownName::Template,
                KnownName::Html,
            ]),
            ElementSet::TableSection => self.lacks(&[
                KnownName::Tbody,
                KnownName::Tfoot,
                KnownName::Thead,
            ]),
            ElementSet::Template => self.lacks(&[KnownName::Template]),
        }
    }

    // no element of HTML is open whose name is one of these
    fn lacks(&self, wanted: &[KnownName]) -> bool
        ensures none { (names : List SeenQualName) → self.now ≡ counts_of names → result ≡ true →
            has_one (html_elements (map known_text wanted.now)) names ≡ false }
        ensures some { (names : List SeenQualName) → self.now ≡ counts_of names → result ≡ false →
            has_counts (html_elements (map known_text wanted.now)) ≡ true →
            has_one (html_elements (map known_text wanted.now)) names ≡ true }
    {
        for known in wanted {
            if !self.has_no_known(*known) {
                return false;
            }
        }
        true
    }

    /// Whether it is known by the counts that no element of this name is open. `false` says nothing.
    pub fn has_none_named(&self, name: &QualName) -> bool
        ensures { (front back : List SeenQualName) → self.now ≡ counts_of (front ++ name.now ∷ back) →
            result ≡ false }
    {
        self.counts[place_of(name)] == 0
    }

    /// Whether it is known by the counts that no element of another namespace than HTML is open whose name, in lower
    /// case, is this one (WHATWG HTML, 13.2.6.5). `false` says nothing.
    pub fn has_no_foreign(&self, name: &LocalName) -> bool
        ensures { (names : List SeenQualName) → self.now ≡ counts_of names → result ≡ true →
            has_foreign name.now names ≡ false }
    {
        self.counts[shared_place(name.as_str())] == 0
    }

    // no element of HTML is open that has this name
    fn has_no(&self, name: &LocalName) -> bool
        ensures none { (names : List SeenQualName) → self.now ≡ counts_of names → result ≡ true →
            has_one (one name.now) names ≡ false }
        ensures some { (names : List SeenQualName) → self.now ≡ counts_of names → result ≡ false →
            has_counts (one name.now) ≡ true → has_one (one name.now) names ≡ true }
    {
        self.counts[place_in_html(name)] == 0
    }

    // no element of HTML is open that has this known name
    fn has_no_known(&self, known: KnownName) -> bool
        ensures none { (names : List SeenQualName) → self.now ≡ counts_of names → result ≡ true →
            has_one (one (known_text known)) names ≡ false }
        ensures some { (names : List SeenQualName) → self.now ≡ counts_of names → result ≡ false →
            has_counts (one (known_text known)) ≡ true → has_one (one (known_text known)) names ≡ true }
    {
        self.counts[place_of_known(&PLACES, known)] == 0
    }
}

// which count an element has
fn place_of(name: &QualName) -> usize
    ensures { result ≡ count_of name.now }
{
    match name.ns {
        Namespace::Html => place_in_html(&name.local),
        Namespace::MathMl | Namespace::Svg | Namespace::Other(_) => {
            shared_place(name.local.as_str())
        }
    }
}

// which count elements of HTML of this name have
fn place_in_html(name: &LocalName) -> usize
    ensures { result ≡ count_in Html name.now }
{
    match name.known() {
        Some(known) => place_of_known(&PLACES, known),
        None => shared_place(name.as_str()),
    }
}

// which count elements of HTML of a known name have, in a table of all
fn place_of_known(places: &[u8; 142], known: KnownName) -> usize
    requires { places.now ≡ map (λ name. count_in Html (known_text name)) all_known }
    ensures { result ≡ count_in Html (known_text known) }
{
    usize::from(places[known as usize])
}

// which count a name has that has none of its own
fn shared_place(word: &str) -> usize
    ensures { result ≡ shared_count (chars word.now) }
{
    let mut share: u32 = 0;
    for c in word.chars() {
        share = (share * 31 + u32::from(c.to_ascii_lowercase())) % 128;
    }
    60 + share as usize
}

// the counts of the known names, by their numbers
static PLACES: [u8; 142] = [
    4, 114, 49, 101, 181, 57, 73, 36, 41, 158, 141, 92, 166, 60, 44, 17, 140, 5, 13, 50, 136, 180,
    169, 60, 34, 134, 181, 19, 77, 46, 53, 54, 1, 21, 20, 100, 149, 48, 43, 42, 139, 38, 79, 16,
    169, 145, 23, 24, 25, 26, 27, 28, 156, 37, 99, 52, 70, 103, 18, 165, 87, 96, 151, 127, 134, 77,
    170, 2, 182, 55, 40, 65, 58, 68, 51, 65, 157, 155, 88, 93, 94, 98, 86, 71, 39, 29, 116, 99,
    136, 59, 22, 32, 31, 0, 73, 179, 45, 108, 85, 178, 96, 122, 126, 33, 30, 175, 135, 56, 35, 15,
    67, 87, 134, 160, 110, 83, 109, 124, 47, 138, 160, 6, 77, 10, 7, 14, 118, 12, 8, 11, 148, 9,
    135, 60, 118, 177, 3, 173, 99, 67, 130, 87,
];
