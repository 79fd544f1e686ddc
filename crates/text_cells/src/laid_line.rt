//! Lines of a block, each with whether it has content.

use text_borders::RenderLine;
use text_lines::TaggedLine;

/// A line of a block.
#[derive(Drop)]
pub struct LaidLine<T> {
    /// The line.
    pub line: RenderLine<T>,
    /// Whether it has content: an empty line has none, and what fills a line is none.
    pub content: bool,
}

/// A text of a block.
#[derive(Drop)]
pub struct LaidText<T> {
    /// The text.
    pub line: TaggedLine<T>,
    /// Whether it has content.
    pub content: bool,
}
