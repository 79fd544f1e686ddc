//! Lines of a block with wide texts after them.
ghost use Rattle.std.specs.Prelude.{◌<◌, length};

use crate::laid_line::LaidLine;
use crate::wide_texts::WideTexts;

/// Lines of a block, and wide texts after them, of which there is one at least.
#[derive(Drop)]
pub struct Part<T> {
    /// The lines.
    pub before: Vec<LaidLine<T>>,
    /// The texts after them.
    pub texts: WideTexts<T>,
    ghost some: { 0 < length texts.lines.items },
}
