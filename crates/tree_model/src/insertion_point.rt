//! Where nodes and texts are inserted (WHATWG HTML, 13.2.6.1).

/// Where a node or a text is inserted.
#[derive(Clone, Copy)]
pub enum InsertionPoint<H> {
    /// After the children of a node.
    LastChild(H),
    /// Before a table that has a parent, else after the children of what stands above the table among the open
    /// elements.
    TableFosterParenting {
        /// The table.
        element: H,
        /// What stands above it.
        prev_element: H,
    },
}
