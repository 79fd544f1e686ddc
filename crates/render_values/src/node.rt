//! Nodes of a render tree.
ghost use Rattle.std.specs.Prelude.{◌≡◌, IfOk};

use crate::info::Head;
use std::alloc::AllocError;
use std::fmt::{Display, Error, Formatter, Write};

/// A value in its place: the nodes that stand in it follow it.
#[derive(Debug, Drop)]
pub struct RenderNode {
    /// What it is.
    pub head: Head,
    /// How many nodes stand in it, at any depth.
    pub below: usize,
}

impl RenderNode {
    /// An equal node. The error is allocation failure alone.
    pub fn try_clone(&self) -> Result<RenderNode, AllocError>
        ensures { IfOk result (λ copy. copy ≡ self.now) }
    {
        Ok(RenderNode {
            head: self.head.try_clone()?,
            below: self.below,
        })
    }
}

impl Display for RenderNode {
    fn fmt<W: Write>(&self, f: &mut Formatter<W>) -> Result<(), Error> {
        write!(f, "{}, {} below", self.head, self.below)
    }
}
