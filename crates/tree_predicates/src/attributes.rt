//! What an element's attributes say.
ghost use Rattle.std.specs.Prelude.{◌≡◌, codes, option_map, IsTrue};
ghost use Rattle.tree_names.specs.Sets.{is_ascii_word, is_html};
ghost use Rattle.tree_predicates.specs.Attributes.{html_encodings, is_hidden, is_html_annotation, is_value_of};
ghost use Rattle.tree_predicates.specs.Attributes.{value_of};

use crate::foreign::is_annotation;
use crate::words::{is_in_lower_case, is_word};
use html_lexemes::{Attributes, QualName, Text};
use tree_forest::ElementFlags;

/// Whether an `input` with these attributes isn't shown: its `type` is `hidden`, in any ASCII case (WHATWG HTML,
/// 13.2.6.4.7 and 13.2.6.4.9).
pub fn is_hidden(attrs: &Attributes) -> bool
    ensures { result ≡ is_hidden attrs.now }
{
    match value_of(attrs, "type") {
        Some(value) => is_in_lower_case(value.as_str(), "hidden"),
        None => false,
    }
}

/// What else an element is made with: whether it is a template of HTML, and whether it is an `annotation-xml` element
/// of MathML whose `encoding` says, in any ASCII case, that its contents are HTML (WHATWG HTML, 13.2.6).
pub fn element_flags(name: &QualName, attrs: &Attributes) -> ElementFlags
    ensures template { result.template ≡ is_html (codes "template") name.now }
    ensures point { result.mathml_annotation_xml_integration_point ≡ is_html_annotation name.now attrs.now }
{
    ElementFlags {
        template: tree_names::is_html(name, "template"),
        mathml_annotation_xml_integration_point: is_html_annotation(name, attrs),
    }
}

// an `annotation-xml` element whose contents are HTML
fn is_html_annotation(name: &QualName, attrs: &Attributes) -> bool
    ensures { result ≡ is_html_annotation name.now attrs.now }
{
    is_annotation(name) && has_html_encoding(attrs)
}

// the `encoding` says that the contents are HTML
fn has_html_encoding(attrs: &Attributes) -> bool
    ensures { result ≡ is_value_of html_encodings (value_of (codes "encoding") attrs.now) }
{
    match value_of(attrs, "encoding") {
        Some(value) => {
            is_in_lower_case(value.as_str(), "text/html")
                || is_in_lower_case(value.as_str(), "application/xhtml+xml")
        }
        None => false,
    }
}

/// The value of the first attribute with this local name, a word of ASCII characters.
pub fn value_of<'a>(attrs: &'a Attributes, word: &str) -> Option<&'a Text>
    requires { IsTrue (is_ascii_word word.now) }
    ensures { option_map (λ value. value.now) result ≡ value_of word.now attrs.now }
{
    for attribute in attrs.as_slice() {
        if is_word(attribute.name.local.as_str(), word) {
            return Some(&attribute.value);
        }
    }
    None
}
