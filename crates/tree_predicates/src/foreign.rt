//! Which rules take a token in foreign content (WHATWG HTML, 13.2.6 and 13.2.6.5).
ghost use Rattle.std.specs.Prelude.{◌≡◌, chars};
ghost use Rattle.tree_names.specs.Sets.{is_one_of};
ghost use Rattle.tree_predicates.specs.Attributes.{has_attribute};
ghost use Rattle.tree_predicates.specs.Foreign.{breaks_out, is_annotation, is_closed_by, is_html_place, is_of_html};
ghost use Rattle.tree_predicates.specs.Foreign.{stops_break_out, styles, takes_start, takes_text};

use crate::words::{is_lower_case_of, is_word};
use html_lexemes::{Attributes, LocalName, Namespace, QualName, Tag, TagKind};

/// Whether text in an element is taken by the rules for HTML: in an element of HTML, in MathML text, and where an
/// element is an integration point. `is_point` says that it is an `annotation-xml` element whose contents are HTML.
pub fn takes_text_as_html(name: &QualName, is_point: bool) -> bool
    ensures { result ≡ takes_text name.now is_point }
{
    is_html_place(name, is_point) || tree_names::is_math_ml_text_integration_point(name)
}

/// Whether a start tag in an element is taken by the rules for HTML: where text is, but for `mglyph` and `malignmark`
/// in MathML text, and `svg` in `annotation-xml`.
pub fn takes_start_as_html(name: &QualName, is_point: bool, tag: &LocalName) -> bool
    ensures { result ≡ takes_start name.now is_point tag.now }
{
    is_html_place(name, is_point)
        || (tree_names::is_math_ml_text_integration_point(name)
            && !tree_names::is_math_ml_glyph_tag(tag))
        || (is_annotation(name) && is_word(tag.as_str(), "svg"))
}

/// Whether a tag breaks out of foreign content: the start tags that the standard lists, `font` with a `color`, `face`
/// or `size`, and the end tags of `br` and `p`.
pub fn breaks_out(tag: &Tag) -> bool
    ensures { result ≡ breaks_out tag.now }
{
    let name = &tag.name;
    match tag.kind {
        TagKind::StartTag => {
            tree_names::is_break_out_tag(name)
                || (is_word(name.as_str(), "font") && has_style(&tag.attrs))
        }
        TagKind::EndTag => is_word(name.as_str(), "br") || is_word(name.as_str(), "p"),
    }
}

/// Whether breaking out stops at an element: one of HTML, or an integration point.
pub fn stops_break_out(name: &QualName, is_point: bool) -> bool
    ensures { result ≡ stops_break_out name.now is_point }
{
    is_of_html(&name.ns) || tree_names::is_integration_point(name) || is_point
}

/// Whether an end tag of a name closes an element in foreign content: the element's name in lower case is the tag's.
pub fn closes_foreign(name: &QualName, tag: &LocalName) -> bool
    ensures { result ≡ is_closed_by tag.now name.now }
{
    is_lower_case_of(tag.as_str(), name.local.as_str())
}

// a `color`, a `face` or a `size` is among the attributes
fn has_style(attrs: &Attributes) -> bool
    ensures { result ≡ has_attribute styles attrs.now }
{
    for attribute in attrs.as_slice() {
        if is_style(attribute.name.local.as_str()) {
            return true;
        }
    }
    false
}

// a name of an attribute that gives `font` a style
fn is_style(name: &str) -> bool
    ensures { result ≡ is_one_of styles (chars name.now) }
{
    is_word(name, "color") || is_word(name, "face") || is_word(name, "size")
}

// where all start tags and texts are taken by the rules for HTML
fn is_html_place(name: &QualName, is_point: bool) -> bool
    ensures { result ≡ is_html_place name.now is_point }
{
    is_of_html(&name.ns) || tree_names::is_svg_html_integration_point(name) || is_point
}

/// Whether a namespace is that of HTML.
pub fn is_of_html(namespace: &Namespace) -> bool
    ensures { result ≡ is_of_html namespace.now }
{
    match namespace {
        Namespace::Html => true,
        Namespace::MathMl | Namespace::Svg | Namespace::Other(_) => false,
    }
}

/// Whether an element is an `annotation-xml` element of MathML.
pub(crate) fn is_annotation(name: &QualName) -> bool
    ensures { result ≡ is_annotation name.now }
{
    match name.ns {
        Namespace::MathMl => is_word(name.local.as_str(), "annotation-xml"),
        Namespace::Html | Namespace::Svg | Namespace::Other(_) => false,
    }
}
