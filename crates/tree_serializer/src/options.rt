//! How a tree is written.
ghost use Rattle.std.specs.Prelude.{◌≡◌, IfOk};

use html_lexemes::QualName;
use std::alloc::AllocError;

/// Which part of a node's tree is written.
#[derive(Drop)]
pub enum TraversalScope {
    /// The node itself, with what stands in it.
    IncludeNode,
    /// What stands in the node alone, as within an element of this name, where there is one.
    ChildrenOnly(Option<QualName>),
}

impl TraversalScope {
    /// An equal scope. The error is allocation failure alone.
    pub fn try_clone(&self) -> Result<TraversalScope, AllocError>
        ensures { IfOk result (λ copy. copy ≡ self.now) }
    {
        match self {
            TraversalScope::IncludeNode => Ok(TraversalScope::IncludeNode),
            TraversalScope::ChildrenOnly(None) => Ok(TraversalScope::ChildrenOnly(None)),
            TraversalScope::ChildrenOnly(Some(name)) => {
                Ok(TraversalScope::ChildrenOnly(Some(name.try_clone()?)))
            }
        }
    }
}

/// How a tree is written.
#[derive(Drop)]
pub struct SerializeOpts {
    /// Whether scripts are run: then the text of a `noscript` element is written as it is.
    pub scripting_enabled: bool,
    /// Which part of the tree is written.
    pub traversal_scope: TraversalScope,
    /// Whether an element without a name is made up where none is open and one is needed.
    pub create_missing_parent: bool,
}

impl Default for SerializeOpts {
    ghost use Rattle.tree_serializer.specs.Defaults.{default_options};

    ghost is_default = { λ opts. opts ≡ default_options };

    fn default() -> SerializeOpts {
        SerializeOpts {
            scripting_enabled: true,
            traversal_scope: TraversalScope::ChildrenOnly(None),
            create_missing_parent: false,
        }
    }
}
