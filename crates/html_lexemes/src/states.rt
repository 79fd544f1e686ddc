//! The states of a tokenizer (WHATWG HTML, 13.2.5), in an order of their own. States that differ in the kind of
//! text, quote or identifier alone are one variant with that kind.

/// The kind of escaped part in script data (WHATWG HTML, 13.2.5.15 to 13.2.5.31).
#[derive(Clone, Copy, Debug, PartialEq, Eq, PartialOrd, Ord, Hash)]
pub enum ScriptEscapeKind {
    /// Within `<!--`.
    Escaped,
    /// Within `<!--` and `<script`, where no end tag counts.
    DoubleEscaped,
}

/// Which identifier of a doctype (WHATWG HTML, 13.2.5.56 to 13.2.5.67).
#[derive(Clone, Copy, Debug, PartialEq, Eq, PartialOrd, Ord, Hash)]
pub enum DoctypeIdKind {
    /// The public identifier.
    Public,
    /// The system identifier.
    System,
}

/// The kind of text that only the end tag of its element ends (WHATWG HTML, 13.2.5.2 to 13.2.5.4).
#[derive(Clone, Copy, Debug, PartialEq, Eq, PartialOrd, Ord, Hash)]
pub enum RawKind {
    /// Text with character references, as of `title`.
    Rcdata,
    /// Text without, as of `style`.
    Rawtext,
    /// Text of `script`.
    ScriptData,
    /// Text of `script` within an escaped part.
    ScriptDataEscaped(ScriptEscapeKind),
}

/// How an attribute's value is written (WHATWG HTML, 13.2.5.36 to 13.2.5.38).
#[derive(Clone, Copy, Debug, PartialEq, Eq, PartialOrd, Ord, Hash)]
pub enum AttrValueKind {
    /// Without quotes.
    Unquoted,
    /// In `'`.
    SingleQuoted,
    /// In `"`.
    DoubleQuoted,
}

/// A state of the tokenizer. Each name is that of the standard's state, with what the variant holds in place of
/// the words that distinguish it.
#[derive(Clone, Copy, Debug, PartialEq, Eq, PartialOrd, Ord, Hash)]
pub enum State {
    /// WHATWG HTML, 13.2.5.1.
    Data,
    /// WHATWG HTML, 13.2.5.5.
    Plaintext,
    /// WHATWG HTML, 13.2.5.6.
    TagOpen,
    /// WHATWG HTML, 13.2.5.7.
    EndTagOpen,
    /// WHATWG HTML, 13.2.5.8.
    TagName,
    /// WHATWG HTML, 13.2.5.2 to 13.2.5.4, 13.2.5.20 and 13.2.5.27.
    RawData(RawKind),
    /// WHATWG HTML, 13.2.5.9, 13.2.5.12, 13.2.5.15, 13.2.5.23 and 13.2.5.30.
    RawLessThanSign(RawKind),
    /// WHATWG HTML, 13.2.5.10, 13.2.5.13, 13.2.5.16 and 13.2.5.24.
    RawEndTagOpen(RawKind),
    /// WHATWG HTML, 13.2.5.11, 13.2.5.14, 13.2.5.17 and 13.2.5.25.
    RawEndTagName(RawKind),
    /// WHATWG HTML, 13.2.5.18 and 13.2.5.26.
    ScriptDataEscapeStart(ScriptEscapeKind),
    /// WHATWG HTML, 13.2.5.19.
    ScriptDataEscapeStartDash,
    /// WHATWG HTML, 13.2.5.21 and 13.2.5.28.
    ScriptDataEscapedDash(ScriptEscapeKind),
    /// WHATWG HTML, 13.2.5.22 and 13.2.5.29.
    ScriptDataEscapedDashDash(ScriptEscapeKind),
    /// WHATWG HTML, 13.2.5.31.
    ScriptDataDoubleEscapeEnd,
    /// WHATWG HTML, 13.2.5.32.
    BeforeAttributeName,
    /// WHATWG HTML, 13.2.5.33.
    AttributeName,
    /// WHATWG HTML, 13.2.5.34.
    AfterAttributeName,
    /// WHATWG HTML, 13.2.5.35.
    BeforeAttributeValue,
    /// WHATWG HTML, 13.2.5.36 to 13.2.5.38.
    AttributeValue(AttrValueKind),
    /// WHATWG HTML, 13.2.5.39.
    AfterAttributeValueQuoted,
    /// WHATWG HTML, 13.2.5.40.
    SelfClosingStartTag,
    /// WHATWG HTML, 13.2.5.41.
    BogusComment,
    /// WHATWG HTML, 13.2.5.42.
    MarkupDeclarationOpen,
    /// WHATWG HTML, 13.2.5.43.
    CommentStart,
    /// WHATWG HTML, 13.2.5.44.
    CommentStartDash,
    /// WHATWG HTML, 13.2.5.45.
    Comment,
    /// WHATWG HTML, 13.2.5.46.
    CommentLessThanSign,
    /// WHATWG HTML, 13.2.5.47.
    CommentLessThanSignBang,
    /// WHATWG HTML, 13.2.5.48.
    CommentLessThanSignBangDash,
    /// WHATWG HTML, 13.2.5.49.
    CommentLessThanSignBangDashDash,
    /// WHATWG HTML, 13.2.5.50.
    CommentEndDash,
    /// WHATWG HTML, 13.2.5.51.
    CommentEnd,
    /// WHATWG HTML, 13.2.5.52.
    CommentEndBang,
    /// WHATWG HTML, 13.2.5.53.
    Doctype,
    /// WHATWG HTML, 13.2.5.54.
    BeforeDoctypeName,
    /// WHATWG HTML, 13.2.5.55.
    DoctypeName,
    /// WHATWG HTML, 13.2.5.56.
    AfterDoctypeName,
    /// WHATWG HTML, 13.2.5.57 and 13.2.5.63.
    AfterDoctypeKeyword(DoctypeIdKind),
    /// WHATWG HTML, 13.2.5.58 and 13.2.5.64.
    BeforeDoctypeIdentifier(DoctypeIdKind),
    /// WHATWG HTML, 13.2.5.59 and 13.2.5.65.
    DoctypeIdentifierDoubleQuoted(DoctypeIdKind),
    /// WHATWG HTML, 13.2.5.60 and 13.2.5.66.
    DoctypeIdentifierSingleQuoted(DoctypeIdKind),
    /// WHATWG HTML, 13.2.5.61 and 13.2.5.67.
    AfterDoctypeIdentifier(DoctypeIdKind),
    /// WHATWG HTML, 13.2.5.62.
    BetweenDoctypePublicAndSystemIdentifiers,
    /// WHATWG HTML, 13.2.5.68.
    BogusDoctype,
    /// WHATWG HTML, 13.2.5.69.
    CdataSection,
    /// WHATWG HTML, 13.2.5.70.
    CdataSectionBracket,
    /// WHATWG HTML, 13.2.5.71.
    CdataSectionEnd,
}
