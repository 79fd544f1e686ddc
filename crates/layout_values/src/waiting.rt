use block_renderer::SubRenderer;
use layout_state::{Around, SlotsLeft, TablePlace, TableRows};
use render_values::RenderStyle;
use text_decorators::TextDecorator;
use text_pieces::WhiteSpace;

/// What is still to be done of a page that is laid out. One of these waits for each element that is open, so what is
/// large is in a box.
#[derive(Drop)]
pub enum Continuation<D: TextDecorator> {
    /// The values of nodes are to be laid out, where that mode of white space is in force around them.
    Rest {
        mode: WhiteSpace,
        from: usize,
        to: usize,
    },
    /// The value of a node ends.
    ValueEnds(usize),
    /// What a rule of style asks for ends.
    LookEnds(RenderStyle),
    /// A part ends.
    PartEnds(Box<OpenPart<D>>),
    /// An item of a list ends.
    ItemEnds(Box<OpenItem<D>>),
    /// A list ends.
    ListEnds,
    /// A table ends.
    TableEnds(Box<OpenTable<D>>),
    /// A row of a table ends.
    RowEnds,
    /// A cell of a table ends.
    CellEnds(Box<OpenCell<D>>),
}

/// A part, whose lines are to stand after prefixes in the renderer outside.
#[derive(Drop)]
pub struct OpenPart<D: TextDecorator> {
    /// The renderer outside.
    pub outer: SubRenderer<D>,
    /// The prefix of the part's first line.
    pub first: String,
    /// The prefix of its other lines.
    pub following: String,
}

/// An item's part, after which the list around says this.
#[derive(Drop)]
pub struct OpenItem<D: TextDecorator> {
    /// The renderer outside.
    pub outer: SubRenderer<D>,
    /// The prefix of the item's first line.
    pub first: String,
    /// The prefix of its other lines.
    pub following: String,
    /// What the list says of the next item.
    pub around: Around,
}

/// A table, which stands there.
#[derive(Drop)]
pub struct OpenTable<D: TextDecorator> {
    /// Where the table stands.
    pub place: TablePlace<D>,
    /// Whether it stands in a fence.
    pub fenced: bool,
}

/// A cell, whose renderer is to stand after others in its row.
#[derive(Drop)]
pub struct OpenCell<D: TextDecorator> {
    /// The renderer outside.
    pub outer: SubRenderer<D>,
    /// The rows after that of the cell.
    pub rows: TableRows,
    /// The slots of its row that are still to come.
    pub slots: SlotsLeft,
    /// The renderers that stand in its row before it, each with the rows that it takes.
    pub made: Vec<(SubRenderer<D>, usize)>,
    /// The rows that the cell takes.
    pub taken: usize,
}
