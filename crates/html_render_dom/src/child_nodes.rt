//! The children of a node, one by one.
ghost use Rattle.std.specs.Prelude.{◌≡◌, [], option_map};
ghost use Rattle.std.specs.Iterator.{YieldsFirstBy, YieldsLastBy, item_count};
ghost use Rattle.tree_forest.specs.Forest.{Holds, children_at};
ghost use Rattle.html_render_dom.specs.ChildNodes.{children_left};
ghost use Rattle.html_render_dom.specs.Links.{IsLinked};
ghost use Rattle.html_render_dom.specs.Nodes.{forest_of};
ghost use Rattle.html_render_dom.specs.Numbers.{number_of};
ghost use Rattle.html_render_dom.specs.Spans.{is_at};

use crate::node::Handle;
use crate::nodes::Nodes;
use std::marker::Model;

/// The children of a node, in order, from either end. Once none is left there is none, however often it is asked.
#[derive(Drop)]
pub struct ChildNodes<'a> {
    nodes: &'a Nodes,
    front: Option<Handle>,
    back: Option<Handle>,
}

impl<'a> Model for ChildNodes<'a> {
    ghost use Rattle.std.specs.Prelude.{List, ℕ, length, option_map};
    ghost use Rattle.html_render_dom.specs.Nodes.{kinds_of, links_of};
    ghost use Rattle.html_render_dom.specs.Numbers.{number_of};
    ghost use Rattle.html_render_dom.specs.Spans.{IsLeft, span};

    ghost Value = { List ℕ };

    ghost view = { λ c. span (links_of c.nodes.now).next (length (links_of c.nodes.now).next)
        (option_map number_of c.front)
        (option_map number_of c.back) };

    ghost invariant = { λ c. IsLeft (links_of c.nodes.now) (length (kinds_of c.nodes.now))
        (option_map number_of c.front)
        (option_map number_of c.back) };
}

impl Nodes {
    /// The children of a node, in order.
    pub(crate) fn children(&self, target: Handle) -> ChildNodes<'_>
        requires linked { IsLinked self.now }
        requires holds { Holds (number_of target) (forest_of self.now) }
        ensures { children_left result ≡ children_at (number_of target) (forest_of self.now) }
    {
        let front = self.child_after(target, None);
        let back = self.child_before(target, None);
        ChildNodes {
            nodes: self,
            front,
            back,
        }
    }
}

impl<'a> ChildNodes<'a> {
    pub(crate) fn none(nodes: &'a Nodes) -> ChildNodes<'a>
        ensures { children_left result ≡ [] }
    {
        ChildNodes {
            nodes,
            front: None,
            back: None,
        }
    }
}

impl Iterator for ChildNodes<'_> {
    type Item = Handle;

    ghost next_gives = { YieldsFirstBy number_of children_left };

    ghost remaining = { item_count children_left };

    /// The first child that is left.
    fn next(&mut self) -> Option<Handle> {
        let first = self.front?;
        if is_at(first, self.back) {
            self.front = None;
            self.back = None;
            return Some(first);
        }
        self.front = self.nodes.next_sibling(first);
        Some(first)
    }
}

impl DoubleEndedIterator for ChildNodes<'_> {
    ghost next_back_gives = { YieldsLastBy number_of children_left };

    /// The last child that is left.
    fn next_back(&mut self) -> Option<Handle> {
        let last = self.back?;
        if is_at(last, self.front) {
            self.front = None;
            self.back = None;
            return Some(last);
        }
        self.back = self.nodes.previous_sibling(last);
        Some(last)
    }
}

fn is_at(number: Handle, end: Option<Handle>) -> bool
    ensures { result ≡ is_at (number_of number) (option_map number_of end) }
{
    match end {
        Some(other) => number == other,
        None => false,
    }
}
