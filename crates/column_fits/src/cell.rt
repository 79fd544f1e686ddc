//! A cell by its columns, and what it asks of them.
ghost use Rattle.std.specs.Prelude.{◌≡◌};
ghost use Rattle.column_fits.specs.Fits.{span_of};

/// A cell of a table, with what it asks for in columns of text. One whose `first` is its `last` has no column.
#[derive(Clone, Copy, Debug, PartialEq, Eq)]
pub struct CellWidths {
    /// Its first column, among the columns of its table.
    pub first: usize,
    /// The column after its last one.
    pub last: usize,
    /// The columns of text without which a word of it is cut.
    pub narrowest: usize,
    /// The columns of text with which no line of it is wrapped.
    pub widest: usize,
}

impl CellWidths {
    /// How many columns it covers.
    pub(crate) fn span(self) -> usize
        ensures { result ≡ span_of self }
    {
        self.last.saturating_sub(self.first)
    }
}
