//! A node of a tree in memory.
ghost use Rattle.std.specs.Prelude.{◌≡◌};

use crate::emitting::emit_all;
use crate::first::first_turns;
use html_render_dom::{Handle, RcDom};
use std::alloc::Global;
use tree_serializer::{Serialize, SerializeFault, Serializer, TraversalScope};

/// A tree with one of its nodes, which can be emitted to a serializer (WHATWG HTML, 13.3).
#[derive(Drop)]
pub struct SerializableHandle<'a> {
    dom: &'a RcDom,
    node: Handle,
}

impl<'a> SerializableHandle<'a> {
    /// A node of a tree. A handle that isn't of the tree stands for a document without children.
    pub fn new(dom: &'a RcDom, node: Handle) -> SerializableHandle<'a>
        ensures dom { result.dom.now ≡ dom.now }
        ensures node { result.node ≡ node }
    {
        SerializableHandle { dom, node }
    }
}

impl Serialize for SerializableHandle<'_> {
    ghost use Rattle.html_render_dom.specs.Numbers.{number_of};

    ghost forest = { λ h. h.dom.now.forest };

    ghost node = { λ h. number_of h.node };

    fn serialize<S: Serializer>(
        &self,
        alloc: Global,
        serializer: &mut S,
        scope: &TraversalScope,
    ) -> Result<(), SerializeFault> {
        self.dom.document();
        let mut turns = first_turns(alloc, self.dom, self.node, scope)?;
        emit_all(self.dom, &mut turns, serializer)
    }
}
