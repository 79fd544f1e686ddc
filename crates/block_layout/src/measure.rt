/// How wide lines are.
#[derive(Clone, Copy)]
pub struct Measure {
    /// The columns of the block's lines.
    pub width: usize,
    /// The columns at which its text wraps.
    pub wrap_width: usize,
    /// Whether a character that is wider may stand alone on a line.
    pub overflow: bool,
    /// Whether lines are filled with spaces up to the width.
    pub pads: bool,
}
