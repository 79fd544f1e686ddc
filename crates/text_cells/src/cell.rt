//! Cells, and what a row of them comes to.

use crate::block_lines::BlockLines;
use crate::wide_texts::WideTexts;
use text_borders::BorderHoriz;
use text_lines::TaggedLine;

/// The lines of a cell.
#[derive(Drop)]
pub struct LineSet<T> {
    /// The columns of the cell.
    pub width: usize,
    /// The rows that the cell still takes, the one in which it stands among them.
    pub rows: usize,
    /// Its lines, in order.
    pub lines: BlockLines<T>,
}

/// A cell that goes on from the row before.
#[derive(Drop)]
pub struct HangingCell<T> {
    /// The column at which it stood there.
    pub place: usize,
    /// Its further lines.
    pub cell: LineSet<T>,
}

/// The lines of a row.
#[derive(Drop)]
pub enum RowLines<T> {
    /// Lines one by one.
    Each(Vec<TaggedLine<T>>),
    /// Those of a single cell with many lines.
    Wide(WideTexts<T>),
}

/// A row of cells.
#[derive(Drop)]
pub struct Row<T> {
    /// The border above, joined to the row.
    pub above: Option<BorderHoriz<T>>,
    /// The lines, from above to below.
    pub lines: RowLines<T>,
    /// The border below, in which what goes on makes holes.
    pub below: BorderHoriz<T>,
    /// The cells that go on into the next row.
    pub hanging: Vec<HangingCell<T>>,
}
