//! Fragments that start in elements.
ghost use Rattle.std.specs.Prelude.{◌≡◌, IfOk, option_map};
ghost use Rattle.tree_forest.specs.Forest.{kind_at};
ghost use Rattle.html_render_dom.specs.Numbers.{number_of};
ghost use Rattle.render_conversion.specs.Fragments.{fragment_name, fragment_of};

use html_lexemes::{Attributes, QualName, Text};
use html_render_dom::{Handle, NodeData, RcDom};
use std::alloc::AllocError;
use tree_names::is_html;
use tree_predicates::value_of;

fn fragment_name<'a>(name: &QualName, attrs: &'a Attributes) -> Option<&'a Text>
    ensures { option_map (λ t. t.now) result ≡ fragment_name name.now attrs.now }
{
    if let Some(id) = value_of(attrs, "id") {
        return Some(id);
    }
    if is_html(name, "a") {
        return value_of(attrs, "name");
    }
    None
}

// a copy of a text, where there is one
fn copied(text: Option<&Text>) -> Result<Option<Text>, AllocError>
    ensures { IfOk result (λ copy. copy ≡ option_map (λ t. t.now) text.entry) }
{
    match text {
        Some(text) => Ok(Some(text.try_clone()?)),
        None => Ok(None),
    }
}

/// The name of the fragment that starts in a node. The error is allocation failure alone.
pub(crate) fn fragment_of(dom: &RcDom, node: Handle) -> Result<Option<Text>, AllocError>
    ensures { IfOk result (λ name. name ≡ fragment_of (kind_at (number_of node) dom.now.forest)) }
{
    match dom.data(node) {
        Some(NodeData::Element { name, attrs, .. }) => copied(fragment_name(name, attrs)),
        Some(NodeData::Text { .. }) => Ok(None),
        Some(NodeData::Document) => Ok(None),
        Some(NodeData::Comment { .. }) => Ok(None),
        Some(NodeData::Doctype { .. }) => Ok(None),
        Some(NodeData::ProcessingInstruction { .. }) => Ok(None),
        None => Ok(None),
    }
}
