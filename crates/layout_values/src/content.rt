//! What is to be known of what stands in a value.
use table_widths::Table;

/// What is to be known of what stands in a value.
#[derive(Drop)]
pub struct Content {
    /// How many values it is.
    pub items: usize,
    /// How many columns the value asks for.
    pub least: usize,
    /// The table that they are where the value is one, else an empty one.
    pub table: Table,
}
