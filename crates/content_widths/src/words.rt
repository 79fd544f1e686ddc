//! The columns of normal text on one line.
ghost use Rattle.std.specs.Prelude.{ℕ, ◌≡◌, [], ◌∷◌, ◌++◌, List};
ghost use Rattle.content_widths.specs.Flows.{capped};
ghost use Rattle.content_widths.specs.Reading.{AreWords, gap_before, place_after_break, place_after_mark, rest_at};
ghost use Rattle.content_widths.specs.Reading.{words_after_letter, words_columns};

use text_lines::{Columns, UnicodeColumns};
use text_pieces::{is_break_point, is_white_space};

/// Words are parted by break points; one without columns goes with the next.
#[derive(Clone, Copy)]
pub(crate) enum Place {
    /// Nothing with columns was read.
    Start,
    /// In a word with columns.
    Word,
    /// After such a word: whether white space stands since then, and whether letters without columns do.
    Between { space: bool, letters: bool },
}

impl Place {
    fn after_break(self, is_space: bool) -> Place
        ensures { result ≡ place_after_break self is_space }
    {
        match self {
            Place::Start => Place::Start,
            Place::Word => Place::Between {
                space: is_space,
                letters: false,
            },
            Place::Between { space, letters } => Place::Between {
                space: space || is_space,
                letters,
            },
        }
    }

    // after a letter that has no columns, but a width
    fn after_mark(self) -> Place
        ensures { result ≡ place_after_mark self }
    {
        match self {
            Place::Start => Place::Start,
            Place::Word => Place::Word,
            Place::Between { space, .. } => Place::Between {
                space,
                letters: true,
            },
        }
    }

    // the columns of the gap before a word that begins here
    fn gap(self) -> usize
        ensures { result ≡ gap_before self }
    {
        match self {
            Place::Between { space: true, .. } => 1,
            _ => 0,
        }
    }

    // the columns of the gap before letters that no word follows
    fn rest(self) -> usize
        ensures { result ≡ rest_at self }
    {
        match self {
            Place::Between {
                space: true,
                letters: true,
            } => 1,
            _ => 0,
        }
    }
}

/// The columns of words with the gaps between them, as far as a text was read.
#[derive(Clone, Copy)]
pub(crate) struct Words {
    columns: usize,
    place: Place,
}

impl Words {
    pub(crate) fn new() -> Words
        ensures { AreWords result [] }
    {
        Words {
            columns: 0,
            place: Place::Start,
        }
    }

    pub(crate) fn after(self, c: char) -> Words
        ensures { (cs : List ℕ) → AreWords self cs → AreWords result (cs ++ c ∷ []) }
    {
        if is_break_point(c) {
            return Words {
                place: self.place.after_break(is_white_space(c)),
                ..self
            };
        }
        match UnicodeColumns::columns(c) {
            Some(columns) => self.after_letter(columns),
            None => self,
        }
    }

    fn after_letter(self, columns: usize) -> Words
        ensures { result ≡ words_after_letter self columns }
    {
        if columns == 0 {
            return Words {
                place: self.place.after_mark(),
                ..self
            };
        }
        Words {
            columns: self
                .columns
                .saturating_add(self.place.gap())
                .saturating_add(columns),
            place: Place::Word,
        }
    }

    pub(crate) fn columns(self) -> usize
        ensures { result ≡ capped (words_columns self) }
    {
        self.columns.saturating_add(self.place.rest())
    }
}
