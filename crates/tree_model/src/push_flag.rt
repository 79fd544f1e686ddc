//! What becomes of an element that is inserted (WHATWG HTML, 13.2.6.1).

/// Whether an element that is inserted becomes the current node.
#[derive(Clone, Copy)]
pub enum PushFlag {
    /// It does.
    Push,
    /// It doesn't: it is popped at once, as one without contents is.
    NoPush,
}
