use html_lexemes::Tag;

/// An entry of the list of active formatting elements (WHATWG HTML, 13.2.4.3).
#[derive(Drop)]
pub enum FormatEntry<H> {
    /// An element, with the start tag that it was made for.
    Element(H, Tag),
    /// Where an `applet`, `object`, `marquee`, `template`, cell or caption began.
    Marker,
}
