//! What stands in a node.
ghost use Rattle.std.specs.Prelude.{◌≡◌};
ghost use Rattle.dom_writing.specs.Turns.{is_document};
ghost use Rattle.tree_forest.specs.Forest.{contents_of, kind_at};
ghost use Rattle.html_render_dom.specs.ChildNodes.{children_left};
ghost use Rattle.html_render_dom.specs.Numbers.{number_of};
ghost use Rattle.tree_serializer.specs.Walks.{contents_or, inner_of};

use html_render_dom::{ChildNodes, Handle, NodeData, RcDom};

// what stands in a node: a template's contents, or its children
pub(crate) fn inner(dom: &RcDom, node: Handle) -> ChildNodes<'_>
    ensures { children_left result ≡ inner_of (number_of node) dom.now.forest }
{
    dom.children(holder(dom, node))
}

// what holds a template's contents, or the node itself
fn holder(dom: &RcDom, node: Handle) -> Handle
    ensures { number_of result ≡ contents_or (contents_of (number_of node) dom.now.forest) (number_of node) }
{
    match dom.data(node) {
        Some(
            NodeData::Element {
                template_contents,
                ..
            },
        ) => match template_contents {
            Some(contents) => *contents,
            None => node,
        },
        Some(NodeData::Document) => node,
        Some(NodeData::Doctype { .. }) => node,
        Some(NodeData::Text { .. }) => node,
        Some(NodeData::Comment { .. }) => node,
        Some(NodeData::ProcessingInstruction { .. }) => node,
        None => node,
    }
}

// whether a node is a document; a node that isn't there is taken for one
pub(crate) fn stands_for_document(dom: &RcDom, node: Handle) -> bool
    ensures { result ≡ is_document (kind_at (number_of node) dom.now.forest) }
{
    match dom.data(node) {
        Some(NodeData::Document) => true,
        Some(NodeData::Element { .. }) => false,
        Some(NodeData::Doctype { .. }) => false,
        Some(NodeData::Text { .. }) => false,
        Some(NodeData::Comment { .. }) => false,
        Some(NodeData::ProcessingInstruction { .. }) => false,
        None => true,
    }
}
