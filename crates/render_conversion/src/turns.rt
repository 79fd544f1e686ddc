//! What is still to be done while a page is converted.
ghost use Rattle.std.specs.Prelude.{◌≡◌, ◌∷◌, ◌++◌, [], MatchOption, OnOk};
ghost use Rattle.html_render_dom.specs.ChildNodes.{children_left};
ghost use Rattle.render_conversion.specs.Turns.{visits};

use crate::inner::Inner;
use crate::place::Place;
use html_render_dom::{ChildNodes, Handle};
use render_values::Opened;
use std::alloc::{AllocError, Global};
use std::marker::Model;

/// What is still to be done: nodes are visited, a text is put after children, or a value ends.
#[derive(Drop)]
pub(crate) enum Turn<'a> {
    /// A node that stands at a place.
    Visit(Handle, Place),
    /// A node, and then those after it, which stand at a place.
    Row(Handle, ChildNodes<'a>, Place),
    /// The text that a rule puts after a node's children, which stand at a place.
    After(Handle, Place),
    /// The text after all else in a value.
    Closing(Inner),
    /// The table of a node, after its captions.
    Table(Handle),
    /// All that stands after a value is in it.
    Close(Opened),
}

/// Turns; contracts see them in their order.
#[derive(Drop)]
pub(crate) struct Turns<'a> {
    items: Vec<Turn<'a>>,
}

impl<'a> Model for Turns<'a> {
    ghost use Rattle.std.specs.Prelude.{List, reverse};
    ghost use Rattle.render_conversion.specs.declared.turns.Turn.{Turn};

    ghost Value = { List Turn };

    ghost view = { λ t. reverse t.items.items };
}

impl<'a> Turns<'a> {
    pub(crate) fn new(alloc: Global) -> Turns<'a>
        ensures { result ≡ [] }
    {
        Turns {
            items: Vec::new(alloc),
        }
    }

    /// A turn, before all others.
    pub(crate) fn push(&mut self, turn: Turn<'a>) -> Result<(), AllocError>
        ensures { OnOk result (self.new ≡ turn.entry ∷ self.old) }
    {
        self.items.push(turn)?;
        Ok(())
    }

    /// The first of them.
    pub(crate) fn pop(&mut self) -> Option<Turn<'a>>
        ensures { MatchOption result (self.old ≡ []) (λ turn. self.old ≡ turn ∷ self.new) }
    {
        self.items.pop()
    }
}

/// Visits of some nodes, before all other turns: one turn for all of them, and none where there is none.
pub(crate) fn push_visits<'a>(
    turns: &mut Turns<'a>,
    nodes: ChildNodes<'a>,
    place: Place,
) -> Result<(), AllocError>
    ensures { OnOk result (turns.new ≡ visits place (children_left nodes.entry) ++ turns.old) }
{
    let mut rest = nodes;
    let Some(first) = rest.next() else {
        return Ok(());
    };
    turns.push(Turn::Row(first, rest, place))
}
