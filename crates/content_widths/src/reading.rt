//! The columns of a stretch of text.
ghost use Rattle.std.specs.Prelude.{ℕ, ◌≡◌, [], ◌∷◌, ◌++◌, List, Option, chars};
ghost use Rattle.text_pieces.specs.Modes.{is_same_mode};
ghost use Rattle.content_widths.specs.Flows.{at_most};
ghost use Rattle.content_widths.specs.Reading.{IsOneLine, IsReading, one_line_columns, reading_widths};

use crate::source_lines::SourceLines;
use crate::together::Together;
use crate::widths::ContentWidths;
use crate::words::Words;
use text_pieces::WhiteSpace;

/// What a stretch of text takes where no line of it is wrapped, as far as it was read.
#[derive(Clone, Copy)]
pub(crate) enum OneLine {
    /// Normal text.
    Collapsed(Words),
    /// Text whose white space stays.
    Preserved(SourceLines),
}

impl OneLine {
    fn new(mode: WhiteSpace) -> OneLine
        ensures { IsOneLine result mode [] }
    {
        if mode.preserve_whitespace() {
            return OneLine::Preserved(SourceLines::new());
        }
        OneLine::Collapsed(Words::new())
    }

    fn after(self, c: char) -> OneLine
        ensures { (mode : WhiteSpace) (cs : List ℕ) → IsOneLine self mode cs → IsOneLine result mode (cs ++ c ∷ []) }
    {
        match self {
            OneLine::Collapsed(words) => OneLine::Collapsed(words.after(c)),
            OneLine::Preserved(lines) => OneLine::Preserved(lines.after(c)),
        }
    }

    fn columns(self) -> usize
        ensures { result ≡ one_line_columns self }
    {
        match self {
            OneLine::Collapsed(words) => words.columns(),
            OneLine::Preserved(lines) => lines.columns(),
        }
    }
}

/// What a stretch of text asks for, as far as it was read.
#[derive(Clone, Copy)]
pub(crate) struct Reading {
    mode: WhiteSpace,
    together: Together,
    one_line: OneLine,
}

impl Reading {
    pub(crate) fn new(mode: WhiteSpace) -> Reading
        ensures { IsReading result mode [] }
    {
        Reading {
            mode,
            together: Together::new(),
            one_line: OneLine::new(mode),
        }
    }

    pub(crate) fn is_in(&self, mode: WhiteSpace) -> bool
        ensures { result ≡ is_same_mode self.now.mode mode }
    {
        self.mode == mode
    }

    pub(crate) fn after_text(self, text: &str) -> Reading
        ensures { (mode : WhiteSpace) (cs : List ℕ) → IsReading self mode cs
            → IsReading result mode (cs ++ chars text.now) }
    {
        let mut reading = self;
        for c in text.chars() {
            reading = reading.after(c);
        }
        reading
    }

    fn after(self, c: char) -> Reading
        ensures { (mode : WhiteSpace) (cs : List ℕ) → IsReading self mode cs
            → IsReading result mode (cs ++ c ∷ []) }
    {
        Reading {
            together: self.together.after(c),
            one_line: self.one_line.after(c),
            ..self
        }
    }

    pub(crate) fn widths(&self, most: Option<usize>) -> ContentWidths
        ensures { result ≡ reading_widths most self.now }
    {
        ContentWidths {
            narrowest: at_most(most, self.together.columns()),
            widest: at_most(most, self.one_line.columns()),
        }
    }
}

fn at_most(most: Option<usize>, columns: usize) -> usize
    ensures { result ≡ at_most most columns }
{
    match most {
        Some(most) => columns.min(most),
        None => columns,
    }
}
