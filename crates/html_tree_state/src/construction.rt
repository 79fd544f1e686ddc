use tree_forest::TreeSink;
use tree_model::Held;

/// A tree that is being built, in its sink.
pub struct Construction<S: TreeSink> {
    /// What is held beside the nodes.
    pub held: Held<S::Handle>,
    /// What the nodes are in.
    pub sink: S,
}
