//! Nodes that are still to be read.
ghost use Rattle.std.specs.Prelude.{◌≡◌, ◌∷◌, ◌++◌, [], MatchOption, OnOk};
ghost use Rattle.html_render_dom.specs.ChildNodes.{children_left};
ghost use Rattle.html_render_dom.specs.Numbers.{number_of};

use html_render_dom::{ChildNodes, Handle};
use std::alloc::{AllocError, Global};
use std::marker::Model;

/// A node that is still to be read, and those after it.
#[derive(Drop)]
pub(crate) struct Row<'a> {
    pub(crate) first: Handle,
    pub(crate) others: ChildNodes<'a>,
}

/// Nodes that are still to be read; contracts see their numbers in their order.
#[derive(Drop)]
pub(crate) struct Waiting<'a> {
    items: Vec<Row<'a>>,
}

impl<'a> Model for Waiting<'a> {
    ghost use Rattle.std.specs.Prelude.{List, ℕ, reverse};
    ghost use Rattle.render_conversion.specs.Waiting.{numbers_in};

    ghost Value = { List ℕ };

    ghost view = { λ w. numbers_in (reverse w.items.items) };
}

impl<'a> Waiting<'a> {
    pub(crate) fn new(alloc: Global) -> Waiting<'a>
        ensures { result ≡ [] }
    {
        Waiting {
            items: Vec::new(alloc),
        }
    }

    /// Nodes, before all others.
    pub(crate) fn push_all(&mut self, nodes: ChildNodes<'a>) -> Result<(), AllocError>
        ensures { OnOk result (self.new ≡ children_left nodes.entry ++ self.old) }
    {
        let mut others = nodes;
        let Some(first) = others.next() else {
            return Ok(());
        };
        self.items.push(Row { first, others })?;
        Ok(())
    }

    /// The first of them, with those that were put there after it.
    pub(crate) fn pop(&mut self) -> Option<Row<'a>>
        ensures { MatchOption result (self.old ≡ [])
            (λ row. self.old ≡ number_of row.first ∷ (children_left row.others ++ self.new)) }
    {
        self.items.pop()
    }
}
