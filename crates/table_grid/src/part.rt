//! What a cell asks of its columns.

/// What a cell asks of each of its columns: those from `first` to before `last`, numbered from 0.
#[derive(Clone, Copy, Debug, PartialEq, Eq)]
pub struct Part {
    pub first: usize,
    pub last: usize,
    /// In columns of text.
    pub value: usize,
}
