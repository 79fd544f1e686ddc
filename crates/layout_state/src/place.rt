//! Where in a table values stand.
use block_renderer::SubRenderer;
use html_lexemes::Text;
use table_widths::{RowsLeft, Slot};
use text_decorators::TextDecorator;

/// The rows of a table that are still to come.
pub struct TableRows {
    /// The widths of the table's columns, where its rows lie across.
    pub widths: Option<Vec<usize>>,
    /// Their slots.
    pub rows: RowsLeft,
    /// The fragments that start in the next of them, or in the next cell.
    pub fragments: Vec<Text>,
}

impl Drop for TableRows {
    // One call wherever rows are dropped.
    fn drop(self) {
        let TableRows {
            widths: _,
            rows: _,
            fragments: _,
        } = self;
    }
}

/// The slots of a row that are still to come: those from `next` on.
pub struct SlotsLeft {
    /// All of them.
    pub slots: Vec<Slot>,
    /// The place of the first that is to come.
    pub next: usize,
}

impl Drop for SlotsLeft {
    // One call wherever slots are dropped.
    fn drop(self) {
        let SlotsLeft { slots: _, next: _ } = self;
    }
}

/// Where in a table the next value stands.
#[derive(Drop)]
pub enum TablePlace<D: TextDecorator> {
    /// In none of its own.
    Outside {
        /// Whether it stands in a cell of one.
        in_cell: bool,
    },
    /// Among rows.
    Rows(TableRows),
    /// Among cells.
    Cells {
        /// The rows after this one.
        rows: TableRows,
        /// The slots of this row.
        slots: SlotsLeft,
        /// The renderers that stand in it, each with the rows that it takes.
        made: Vec<(SubRenderer<D>, usize)>,
    },
}
