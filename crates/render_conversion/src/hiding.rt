//! Elements that hide themselves.
ghost use Rattle.std.specs.Prelude.{◌≡◌, IsTrue, chars, option_map};
ghost use Rattle.std.specs.List.{list_any};
ghost use Rattle.std.specs.Str.{IsUtf8};
ghost use Rattle.html_render_dom.specs.Numbers.{number_of};
ghost use Rattle.tree_forest.specs.Forest.{kind_at};
ghost use Rattle.tree_names.specs.Sets.{are_ascii, words_of};
ghost use Rattle.render_conversion.specs.Hiding.{consists_of, declarations, hides_by_attribute, hides_by_style};
ghost use Rattle.render_conversion.specs.Hiding.{hides_itself, is_blank, is_display_none, is_hidden, trimmed};

use html_lexemes::{Attributes, QualName, Text};
use html_render_dom::{Handle, NodeData, RcDom};
use token_grammar::slices::{cut_at_character, first_and_rest, rest_after_word};
use tree_names::is_html_one_of;
use tree_predicates::{is_in_lower_case, value_of};

// what follows the white space that a text begins with
fn trimmed(text: &str) -> &str
    ensures rest { chars result.now ≡ trimmed (chars text.now) }
    ensures utf8 { IsUtf8 result.now }
{
    let mut rest = text;
    'spaces: while let Some((c, later)) = first_and_rest(rest) {
        if !c.is_ascii_whitespace() {
            return rest;
        }
        rest = later;
    }
    rest
}

// whether a text is white space
fn is_blank(text: &str) -> bool
    ensures { result ≡ is_blank (chars text.now) }
{
    trimmed(text).is_empty()
}

// whether a text is these words and no more, white space and ASCII case aside
fn consists_of(text: &str, words: &[&str]) -> bool
    requires { IsTrue (are_ascii (words_of words.now)) }
    ensures { result ≡ consists_of (words_of words.now) (chars text.now) }
{
    let mut rest = text;
    for word in words {
        match rest_after_word(trimmed(rest), word) {
            Some(later) => rest = later,
            None => return false,
        }
    }
    is_blank(rest)
}

// `display: none`, also with `!important`
fn is_display_none(declaration: &str) -> bool
    ensures { result ≡ is_display_none (chars declaration.now) }
{
    consists_of(declaration, &["display", ":", "none"])
        || consists_of(declaration, &["display", ":", "none", "!", "important"])
}

// whether one of the declarations of a style hides
fn declares_display_none(style: &str) -> bool
    ensures { result ≡ list_any is_display_none (declarations (chars style.now)) }
{
    let mut rest = style;
    'declarations: while let Some((declaration, later)) = cut_at_character(rest, ';') {
        if is_display_none(declaration) {
            return true;
        }
        rest = later;
    }
    is_display_none(rest)
}

fn hides_by_style(style: Option<&Text>) -> bool
    ensures { result ≡ hides_by_style (option_map (λ t. t.now) style.entry) }
{
    match style {
        Some(style) => declares_display_none(style.as_str()),
        None => false,
    }
}

fn hides_by_attribute(hidden: Option<&Text>) -> bool
    ensures { result ≡ hides_by_attribute (option_map (λ t. t.now) hidden.entry) }
{
    match hidden {
        Some(value) => !is_in_lower_case(value.as_str(), "until-found"),
        None => false,
    }
}

fn hides_itself(name: &QualName, attrs: &Attributes) -> bool
    ensures { result ≡ hides_itself name.now attrs.now }
{
    !is_html_one_of(name, &["html", "body"])
        && (hides_by_attribute(value_of(attrs, "hidden"))
            || hides_by_style(value_of(attrs, "style")))
}

/// Whether a node is an element that hides itself.
pub(crate) fn is_hidden(dom: &RcDom, node: Handle) -> bool
    ensures { result ≡ is_hidden (kind_at (number_of node) dom.now.forest) }
{
    match dom.data(node) {
        Some(NodeData::Element { name, attrs, .. }) => hides_itself(name, attrs),
        Some(NodeData::Text { .. }) => false,
        Some(NodeData::Document) => false,
        Some(NodeData::Comment { .. }) => false,
        Some(NodeData::Doctype { .. }) => false,
        Some(NodeData::ProcessingInstruction { .. }) => false,
        None => false,
    }
}
