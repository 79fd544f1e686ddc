//! How a mode takes text (WHATWG HTML, 13.2.6.4).

/// How a mode takes characters that are all white space, or none of which is.
#[derive(Clone, Copy, PartialEq, Eq)]
pub enum TextClass {
    /// They are ignored.
    Dropped,
    /// They are inserted.
    Inserted,
    /// The active formatting elements are reconstructed, and they are inserted (13.2.6.4.7).
    InBody,
    /// They are kept until the table's text is over (13.2.6.4.10).
    Kept,
    /// Another mode takes them.
    HandedOn,
}
