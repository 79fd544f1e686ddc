use html_lexemes::LocalName;
use html_lexemes::states::RawKind;

/// How the text of a page is read.
#[derive(Clone, Copy)]
pub enum TextKind {
    /// Text with markup (WHATWG HTML, 13.2.5.1).
    Ordinary,
    /// Text to its end (WHATWG HTML, 13.2.5.5).
    Plain,
    /// The text of an element, which its end tag ends (WHATWG HTML, 13.2.5.2 to 13.2.5.4).
    Raw(RawKind),
}

/// The kind of text, and the name of the last start tag, whose end tag ends text of an element.
#[derive(Drop)]
pub struct Mode {
    /// The kind of text.
    pub text: TextKind,
    /// The name of the last start tag, if there was one.
    pub last_start_tag: Option<LocalName>,
}
