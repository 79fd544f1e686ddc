//! Which elements have a row of their own in the table of conversion.
ghost use Rattle.std.specs.Prelude.{◌≡◌};
ghost use Rattle.render_conversion.specs.ElementNames.{block_name, element_name, heading_name, inline_name};

use html_lexemes::QualName;
use tree_names::{is_html, is_html_one_of};

/// The rows of the table for elements of HTML.
#[derive(Clone, Copy, Debug, PartialEq, Eq)]
pub enum ElementName {
    /// `head`, `script`, `style`, `link`, `meta` and `hr`.
    LeftOut,
    /// `a`.
    Anchor,
    /// `em`, `i` and `ins`.
    Emphasis,
    /// `strong` and `b`.
    Strong,
    /// `s` and `del`.
    Strikeout,
    /// `code`.
    Code,
    /// `sup`.
    Superscript,
    /// `img`.
    Image,
    /// `br`.
    Break,
    /// `wbr`.
    WordBreak,
    /// `p`.
    Paragraph,
    /// `div`.
    Division,
    /// `blockquote`.
    Quote,
    /// `pre`.
    Preformatted,
    /// `ul`.
    Bullets,
    /// `ol`.
    Numbers,
    /// `dl`.
    Descriptions,
    /// `dt`.
    Term,
    /// `dd`.
    Details,
    /// `table`.
    Table,
    /// `h1` to `h6`, by the level.
    Heading(u8),
    /// Any other, also one that isn't of HTML.
    Other,
}

fn heading_name(name: &QualName) -> ElementName
    ensures { result ≡ heading_name name.now }
{
    if is_html(name, "h1") {
        return ElementName::Heading(1);
    }
    if is_html(name, "h2") {
        return ElementName::Heading(2);
    }
    if is_html(name, "h3") {
        return ElementName::Heading(3);
    }
    if is_html(name, "h4") {
        return ElementName::Heading(4);
    }
    if is_html(name, "h5") {
        return ElementName::Heading(5);
    }
    if is_html(name, "h6") {
        return ElementName::Heading(6);
    }
    ElementName::Other
}

fn block_name(name: &QualName) -> ElementName
    ensures { result ≡ block_name name.now }
{
    if is_html(name, "p") {
        return ElementName::Paragraph;
    }
    if is_html(name, "div") {
        return ElementName::Division;
    }
    if is_html(name, "blockquote") {
        return ElementName::Quote;
    }
    if is_html(name, "pre") {
        return ElementName::Preformatted;
    }
    if is_html(name, "ul") {
        return ElementName::Bullets;
    }
    if is_html(name, "ol") {
        return ElementName::Numbers;
    }
    if is_html(name, "dl") {
        return ElementName::Descriptions;
    }
    if is_html(name, "dt") {
        return ElementName::Term;
    }
    if is_html(name, "dd") {
        return ElementName::Details;
    }
    if is_html(name, "table") {
        return ElementName::Table;
    }
    heading_name(name)
}

fn inline_name(name: &QualName) -> ElementName
    ensures { result ≡ inline_name name.now }
{
    if is_html(name, "a") {
        return ElementName::Anchor;
    }
    if is_html_one_of(name, &["em", "i", "ins"]) {
        return ElementName::Emphasis;
    }
    if is_html_one_of(name, &["strong", "b"]) {
        return ElementName::Strong;
    }
    if is_html_one_of(name, &["s", "del"]) {
        return ElementName::Strikeout;
    }
    if is_html(name, "code") {
        return ElementName::Code;
    }
    if is_html(name, "sup") {
        return ElementName::Superscript;
    }
    if is_html(name, "img") {
        return ElementName::Image;
    }
    if is_html(name, "br") {
        return ElementName::Break;
    }
    if is_html(name, "wbr") {
        return ElementName::WordBreak;
    }
    block_name(name)
}

/// The row of an element.
pub(crate) fn element_name(name: &QualName) -> ElementName
    ensures { result ≡ element_name name.now }
{
    if is_html_one_of(name, &["head", "script", "style", "link", "meta", "hr"]) {
        return ElementName::LeftOut;
    }
    inline_name(name)
}
