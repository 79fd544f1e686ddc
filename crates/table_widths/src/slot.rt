//! Slots of a row.
ghost use Rattle.std.specs.Prelude.{◌≡◌};
ghost use Rattle.table_widths.specs.Slots.{covered, goes_on, has_columns};

/// A place in a row of a table: of a cell that begins in the row, or an empty one.
#[derive(Clone, Copy, Debug, PartialEq, Eq)]
pub struct Slot {
    /// Its first column, among the columns of the table.
    pub first: usize,
    /// The column after its last one. A cell whose `first` is its `last` has no column left, and is skipped.
    pub last: usize,
    /// How many rows it reaches, of those that are shown: its own counted.
    pub rows: usize,
    /// Whether a cell begins here. Else nothing stands here, or a cell from above does.
    pub is_cell: bool,
}

impl Slot {
    /// Whether it has a column.
    pub fn has_columns(self) -> bool
        ensures { result ≡ has_columns self }
    {
        self.first < self.last
    }

    // whether it goes on into the next row
    pub(crate) fn goes_on(self) -> bool
        ensures { result ≡ goes_on self }
    {
        self.rows > 1 && self.has_columns()
    }

    // its place in the next row
    pub(crate) fn covered(self) -> Slot
        ensures { result ≡ covered self }
    {
        Slot {
            first: self.first,
            last: self.last,
            rows: self.rows.saturating_sub(1),
            is_cell: false,
        }
    }
}
