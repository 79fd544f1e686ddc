use html_render_dom::{ChildNodes, Handle};

/// What is still to be emitted: nodes, or the end of an element.
#[derive(Drop)]
pub(crate) enum Turn<'a> {
    /// A node, with what stands in it.
    Visit(Handle),
    /// A node, and then those after it, each with what stands in it.
    Row(Handle, ChildNodes<'a>),
    /// The end of an element.
    End(Handle),
}
