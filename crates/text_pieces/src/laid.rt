use text_lines::TaggedLine;

/// The lines of a text, and the names of the markers that wait for what comes after it.
#[derive(Drop)]
pub struct LaidText<T> {
    /// The lines, in order.
    pub lines: Vec<TaggedLine<T>>,
    /// The names, in order.
    pub waiting: Vec<String>,
}
