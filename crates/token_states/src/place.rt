use html_lexemes::TagKind;
use html_lexemes::states::{AttrValueKind, RawKind};

/// Where the tokenizer stands in a lexeme that is not over. What is held back is what stands after the
/// opening that the place names.
#[derive(Clone, Copy)]
pub enum LexemeState {
    /// Before a lexeme.
    Text,
    /// After `&` in text (WHATWG HTML, 13.2.5.72).
    CharacterReference(ReferencePlace),
    /// After `<` (WHATWG HTML, 13.2.5.6).
    TagOpen,
    /// After `</` (WHATWG HTML, 13.2.5.7).
    EndTagOpen,
    /// In a tag, from its name on (WHATWG HTML, 13.2.5.8 and 13.2.5.32 to 13.2.5.40).
    Tag(TagKind, TagPlace),
    /// After `<!` (WHATWG HTML, 13.2.5.42).
    MarkupDeclarationOpen,
    /// In a comment that `>` ends (WHATWG HTML, 13.2.5.41).
    BogusComment,
    /// After `<!--` (WHATWG HTML, 13.2.5.43 to 13.2.5.52).
    Comment,
    /// After `<!doctype` (WHATWG HTML, 13.2.5.53 to 13.2.5.68).
    Doctype,
    /// After `<![CDATA[` (WHATWG HTML, 13.2.5.69 to 13.2.5.71).
    CdataSection,
    /// In the text of an element, at a character that more may follow that matters; it is held too (WHATWG HTML,
    /// 13.2.5.9 to 13.2.5.31).
    RawText(RawKind, RawPlace),
}

/// Where in a character reference.
#[derive(Clone, Copy)]
pub enum ReferencePlace {
    /// After `&`, in a name (WHATWG HTML, 13.2.5.73).
    Named,
    /// After `#` (WHATWG HTML, 13.2.5.75).
    Numeric,
    /// After `#x` (WHATWG HTML, 13.2.5.76).
    HexadecimalStart,
    /// In digits (WHATWG HTML, 13.2.5.79).
    Decimal,
    /// In digits after `#x` (WHATWG HTML, 13.2.5.78).
    Hexadecimal,
}

/// Where in a tag.
#[derive(Clone, Copy)]
pub enum TagPlace {
    /// WHATWG HTML, 13.2.5.8.
    TagName,
    /// WHATWG HTML, 13.2.5.32, 13.2.5.39 and 13.2.5.40.
    BeforeAttributeName,
    /// WHATWG HTML, 13.2.5.33.
    AttributeName,
    /// WHATWG HTML, 13.2.5.34.
    AfterAttributeName,
    /// WHATWG HTML, 13.2.5.35.
    BeforeAttributeValue,
    /// WHATWG HTML, 13.2.5.36 to 13.2.5.38.
    AttributeValue(AttrValueKind),
}

/// Where in a beginning of something that ends the text of an element or changes its kind.
#[derive(Clone, Copy)]
pub enum RawPlace {
    /// At `<` (WHATWG HTML, 13.2.5.9, 13.2.5.12, 13.2.5.15, 13.2.5.23 and 13.2.5.30).
    LessThanSign,
    /// At `</` and letters (WHATWG HTML, 13.2.5.10, 13.2.5.11 and what is alike of other kinds).
    EndTagName,
    /// At `<!` and perhaps `-` (WHATWG HTML, 13.2.5.18 and 13.2.5.19).
    EscapeStart,
    /// At `<` and letters, or at `</` and letters in a double escaped part (WHATWG HTML, 13.2.5.26 and 13.2.5.31).
    EscapeWord,
    /// At one or two dashes (WHATWG HTML, 13.2.5.21, 13.2.5.22, 13.2.5.28 and 13.2.5.29).
    Dashes,
}
