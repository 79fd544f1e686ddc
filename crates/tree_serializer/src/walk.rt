//! What emits a tree.
ghost use Rattle.std.specs.Prelude.{ℕ};
ghost use Rattle.tree_forest.specs.Forest.{Forest};
ghost use Rattle.tree_serializer.specs.Calls.{reply_of};
ghost use Rattle.tree_serializer.specs.Emitted.{IsEmitted};
ghost use Rattle.tree_serializer.specs.Walks.{calls_of};

use crate::fault::SerializeFault;
use crate::options::TraversalScope;
use crate::serializer::Serializer;
use std::alloc::Global;

/// A node of a tree, which can be emitted to a serializer. Contracts see a forest, and the node's number in it.
pub trait Serialize {
    ghost forest: { Self → Forest };

    ghost node: { Self → ℕ };

    /// Emits the node, or what stands in it alone (WHATWG HTML, 13.3): to the end, up to the first call that is
    /// refused, whose fault is returned, or as far as memory is found.
    fn serialize<S: Serializer>(
        &self,
        alloc: Global,
        serializer: &mut S,
        scope: &TraversalScope,
    ) -> Result<(), SerializeFault>
        ensures { IsEmitted S.means (S.seen serializer.old) (calls_of scope.now (node self.now) (forest self.now))
            (reply_of result) (S.seen serializer.new) };
}
