//! A whole tree, written.
ghost use Rattle.std.specs.Prelude.{◌≡◌, ◌≢◌, true, None, Err, OnErr, OnOk};
ghost use Rattle.tree_forest.specs.Forest.{Forest};
ghost use Rattle.tree_serializer.specs.Walks.{walk_text};
ghost use Rattle.tree_serializer.specs.Writing.{Grows, GrowsPart};
ghost use Rattle.tree_serializer.specs.declared.options.TraversalScope.TheVariants.{ChildrenOnly};

use crate::handle::SerializableHandle;
use html_lexemes::ByteWriter;
use html_render_dom::RcDom;
use std::alloc::Global;
use tree_serializer::{SerializeFault, SerializeOpts, serialize};

/// Trees that are written whole.
pub trait SerializeDom {
    ghost nodes: { Self → Forest };

    /// Writes the tree as HTML (WHATWG HTML, 13.3), as `serialize` does what stands in its document, with the options
    /// of `SerializeOpts::default`. It doesn't flush the writer. The error is the writer's refusal or allocation
    /// failure; then a beginning is written.
    fn serialize<W: ByteWriter>(&self, alloc: Global, writer: &mut W) -> Result<(), SerializeFault>
        ensures ok { OnOk result (Grows (walk_text true (ChildrenOnly None) 0 (nodes self.now))
            (W.contents writer.old) (W.contents writer.new)) }
        ensures part { OnErr result (GrowsPart (walk_text true (ChildrenOnly None) 0 (nodes self.now))
            (W.contents writer.old) (W.contents writer.new)) }
        ensures stays { W.has_failed writer.old ≡ true → W.has_failed writer.new ≡ true }
        ensures failed { result ≡ Err SerializeFault.Write → W.has_failed writer.new ≡ true }
        ensures kinds { result ≢ Err SerializeFault.NoParent };
}

impl SerializeDom for RcDom {
    ghost nodes = { λ dom. dom.forest };

    fn serialize<W: ByteWriter>(
        &self,
        alloc: Global,
        writer: &mut W,
    ) -> Result<(), SerializeFault> {
        let document = SerializableHandle::new(self, self.document());
        serialize(alloc, writer, &document, SerializeOpts::default())
    }
}
