//! The columns of text whose white space stays.
ghost use Rattle.std.specs.Prelude.{ℕ, ◌≡◌, [], ◌∷◌, ◌++◌, List};
ghost use Rattle.content_widths.specs.Flows.{capped};
ghost use Rattle.content_widths.specs.Reading.{AreSourceLines};
ghost use Rattle.content_widths.specs.Texts.{column_after, is_shown};

use text_lines::{Columns, UnicodeColumns};
use text_pieces::{is_break_point, width_of};

const TAB_COLUMNS: usize = 8;

/// The columns of the longest source line, as far as a text was read.
#[derive(Clone, Copy)]
pub(crate) struct SourceLines {
    // where the last character that is shown ends, on the longest line
    longest: usize,
    // where the line that runs has come to
    at: usize,
}

impl SourceLines {
    pub(crate) fn new() -> SourceLines
        ensures { AreSourceLines result [] }
    {
        SourceLines { longest: 0, at: 0 }
    }

    pub(crate) fn after(self, c: char) -> SourceLines
        ensures { (cs : List ℕ) → AreSourceLines self cs → AreSourceLines result (cs ++ c ∷ []) }
    {
        if c == '\n' {
            return SourceLines { at: 0, ..self };
        }
        let at = column_after(self.at, c);
        if is_shown(c) {
            return SourceLines {
                longest: self.longest.max(at),
                at,
            };
        }
        SourceLines { at, ..self }
    }

    pub(crate) fn columns(self) -> usize
        ensures { result ≡ capped self.longest }
    {
        self.longest
    }
}

fn column_after(at: usize, c: char) -> usize
    ensures { result ≡ capped (column_after at c) }
{
    if c == '\t' {
        return at.saturating_add(TAB_COLUMNS - at % TAB_COLUMNS);
    }
    at.saturating_add(width_of(c))
}

fn is_shown(c: char) -> bool
    ensures { result ≡ is_shown c }
{
    !is_break_point(c) && UnicodeColumns::columns(c).is_some()
}
