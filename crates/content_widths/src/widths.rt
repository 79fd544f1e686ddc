//! The columns that text asks for.

/// The columns that something asks for.
#[derive(Clone, Copy, Debug, PartialEq, Eq)]
pub struct ContentWidths {
    /// With fewer something must be cut that stands together.
    pub narrowest: usize,
    /// With these no line is wrapped.
    pub widest: usize,
}
