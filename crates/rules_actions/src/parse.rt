//! A page that is being parsed.

use crate::kept::Kept;
use html_tree_state::Construction;
use tree_forest::TreeSink;

/// A page that is being parsed: what is kept, and its tree.
pub struct Parse<S: TreeSink> {
    /// What is kept beside the tree.
    pub kept: Kept<S::Handle>,
    /// The tree.
    pub tree: Construction<S>,
}
