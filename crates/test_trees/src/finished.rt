//! Finished trees.
ghost use Rattle.std.specs.Prelude.{◌≡◌};

use tree_forest::TreeSink;

/// The tree of any sink, finished.
pub(crate) fn finished<S: TreeSink>(sink: S) -> S::Output
    ensures forest { S.tree result ≡ S.view.forest sink }
    ensures quirks { S.tree_quirks result ≡ S.view.quirks sink }
{
    sink.finish()
}
