//! Where elements are inserted.

/// Where the element of a tag is inserted.
#[derive(Clone, Copy)]
pub enum Target {
    /// At the appropriate place (WHATWG HTML, 13.2.6.1).
    AtPlace,
    /// Into the head, which is closed already (13.2.6.4.6).
    IntoHead,
}
