use std::alloc::{AllocError, Global};
use text_lines::EqualCopy;

/// What the counter of links notes beside a text.
#[derive(Clone, Copy, Debug, Default, PartialEq, Eq)]
pub enum LinkNote {
    /// Text outside of links.
    #[default]
    Outside,
    /// The text of the link of that number.
    Link(usize),
}

impl EqualCopy for LinkNote {
    ghost use Rattle.std.proofs.Common.{rules};
    ghost use Rattle.example_link_counting.specs.declared.link_note.LinkNote.{LinkNote};

    ghost Seen = { LinkNote };

    ghost seen = { λ note. note };

    ghost same = { Prim.search rules };

    ghost apart = { Prim.search rules };

    fn copy(&self, _alloc: Global) -> Result<LinkNote, AllocError> {
        Ok(*self)
    }
}
