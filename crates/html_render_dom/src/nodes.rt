ghost use Rattle.std.specs.Prelude.{◌≡◌, ◌+◌, ◌<◌, [], ◌∷◌, ◌++◌, IfOk, None, OnErr, OnOk, Some, chars, false, is_some};
ghost use Rattle.std.specs.Prelude.{length, option_map, true, ℕ};
ghost use Rattle.std.specs.Bool.{nat_lt};
ghost use Rattle.tree_forest.specs.Changes.{changed, saying, with_attributes};
ghost use Rattle.tree_forest.specs.Forest.{Holds, kind_at, nodes, text_of};
ghost use Rattle.tree_forest.specs.Orders.{IsIn};
ghost use Rattle.html_render_dom.specs.Nodes.{IsFollowed, chain, forest_of, kind_of, kinds_of, links_of, spot_at};
ghost use Rattle.html_render_dom.specs.Nodes.{with_no_links, with_parents};
ghost use Rattle.html_render_dom.specs.Numbers.{number_of};
ghost use Rattle.html_render_dom.specs.Siblings.{after_of, before_of, given, holder, joined, link_at, put_between};
ghost use Rattle.html_render_dom.specs.Siblings.{taken_from, with_after, with_before, with_parent};
ghost use Rattle.html_render_dom.specs.declared.node.Node.{Node as HeldNode};

use crate::content::Content;
use crate::node::{Handle, Node, NodeData};
use html_lexemes::Attributes;
use std::alloc::{AllocError, Global};

/// All nodes of a tree, by their numbers.
#[derive(Drop)]
pub(crate) struct Nodes {
    items: Vec<Node>,
}

impl Nodes {
    pub(crate) fn new(alloc: Global) -> Nodes
        ensures { result.items.items ≡ [] }
    {
        Nodes {
            items: Vec::new(alloc),
        }
    }

    /// The first number.
    pub(crate) fn first(&self) -> Handle
        ensures { number_of result ≡ 0 }
    {
        Handle { number: 0 }
    }

    /// The next number. It is refused where it is past those that a handle has.
    pub(crate) fn next(&self) -> Result<Handle, AllocError>
        ensures { IfOk result (λ next. number_of next ≡ nodes (forest_of self.now)) }
    {
        handle_at(self.items.len())
    }

    /// The number after the next, refused as that.
    pub(crate) fn next_but_one(&self) -> Result<Handle, AllocError>
        ensures { IfOk result (λ next. number_of next ≡ nodes (forest_of self.now) + 1) }
    {
        handle_at(self.items.len() + 1)
    }

    /// A node more, which stands nowhere.
    pub(crate) fn push(&mut self, node: NodeData) -> Result<(), AllocError>
        ensures kinds { OnOk result (kinds_of self.new ≡ kinds_of self.old ++ kind_of node ∷ []) }
        ensures links { OnOk result (links_of self.new ≡ with_no_links (links_of self.old)) }
        ensures more { OnOk result ((x : HeldNode) × (self.new.items.items ≡ self.old.items.items ++ x ∷ [])) }
        ensures kept { OnErr result (self.new.items.items ≡ self.old.items.items) }
    {
        self.items.push(Node {
            data: Content::new(node),
            parent: None,
            first: None,
            last: None,
            previous: None,
            next: None,
        })?;
        Ok(())
    }

    /// Takes the last node back.
    pub(crate) fn pop(&mut self)
        requires { 0 < length (kinds_of self.old) }
        ensures { (x : HeldNode) × (self.old.items.items ≡ self.new.items.items ++ x ∷ []) }
    {
        self.items.pop();
    }

    /// Whether a node has this number.
    pub(crate) fn holds(&self, target: Handle) -> bool
        ensures { result ≡ nat_lt (number_of target) (nodes (forest_of self.now)) }
    {
        (target.number as usize) < self.items.len()
    }

    /// What a node is.
    pub(crate) fn data(&self, target: Handle) -> &NodeData
        requires { Holds (number_of target) (forest_of self.now) }
        ensures { kind_of result.now ≡ kind_at (number_of target) (forest_of self.now) }
    {
        self.items[target.number as usize].data.data()
    }

    /// The parent that a node has noted; past the last node none.
    pub(crate) fn parent(&self, target: Handle) -> Option<Handle>
        ensures { option_map number_of result ≡ link_at (number_of target) (links_of self.now).parent }
    {
        match self.items.get(target.number as usize) {
            Some(node) => node.parent,
            None => None,
        }
    }

    /// The sibling right after a child.
    #[inline(always)]
    pub(crate) fn next_sibling(&self, child: Handle) -> Option<Handle>
        requires { number_of child < length (kinds_of self.now) }
        ensures { option_map number_of result ≡ link_at (number_of child) (links_of self.now).next }
    {
        self.items[child.number as usize].next
    }

    /// The sibling right before a child.
    #[inline(always)]
    pub(crate) fn previous_sibling(&self, child: Handle) -> Option<Handle>
        requires { number_of child < length (kinds_of self.now) }
        ensures { option_map number_of result ≡ link_at (number_of child) (links_of self.now).previous }
    {
        self.items[child.number as usize].previous
    }

    /// The child right after a spot.
    pub(crate) fn child_after(&self, parent: Handle, spot: Option<Handle>) -> Option<Handle>
        requires { holder (spot_at parent spot) < length (kinds_of self.now) }
        ensures { option_map number_of result ≡ after_of (spot_at parent spot) (links_of self.now) }
    {
        match spot {
            None => self.items[parent.number as usize].first,
            Some(child) => self.items[child.number as usize].next,
        }
    }

    /// The child right before a spot.
    pub(crate) fn child_before(&self, parent: Handle, spot: Option<Handle>) -> Option<Handle>
        requires { holder (spot_at parent spot) < length (kinds_of self.now) }
        ensures { option_map number_of result ≡ before_of (spot_at parent spot) (links_of self.now) }
    {
        match spot {
            None => self.items[parent.number as usize].last,
            Some(child) => self.items[child.number as usize].previous,
        }
    }

    pub(crate) fn set_parent(&mut self, target: Handle, parent: Option<Handle>)
        requires { number_of target < length (kinds_of self.old) }
        ensures kinds { kinds_of self.new ≡ kinds_of self.old }
        ensures links { links_of self.new ≡ with_parent (number_of target) (option_map number_of parent)
            (links_of self.old) }
    {
        self.items[target.number as usize].parent = parent;
    }

    pub(crate) fn set_after(&mut self, parent: Handle, spot: Option<Handle>, to: Option<Handle>)
        requires { holder (spot_at parent spot) < length (kinds_of self.old) }
        ensures kinds { kinds_of self.new ≡ kinds_of self.old }
        ensures links { links_of self.new ≡ with_after (spot_at parent spot) (option_map number_of to)
            (links_of self.old) }
    {
        match spot {
            None => self.items[parent.number as usize].first = to,
            Some(child) => self.items[child.number as usize].next = to,
        }
    }

    pub(crate) fn set_before(&mut self, parent: Handle, spot: Option<Handle>, to: Option<Handle>)
        requires { holder (spot_at parent spot) < length (kinds_of self.old) }
        ensures kinds { kinds_of self.new ≡ kinds_of self.old }
        ensures links { links_of self.new ≡ with_before (spot_at parent spot) (option_map number_of to)
            (links_of self.old) }
    {
        match spot {
            None => self.items[parent.number as usize].last = to,
            Some(child) => self.items[child.number as usize].previous = to,
        }
    }

    /// Puts two spots of a node's children beside each other.
    pub(crate) fn join(&mut self, parent: Handle, before: Option<Handle>, trailing: Option<Handle>)
        requires before { holder (spot_at parent before) < length (kinds_of self.old) }
        requires trailing { holder (spot_at parent trailing) < length (kinds_of self.old) }
        ensures kinds { kinds_of self.new ≡ kinds_of self.old }
        ensures links { links_of self.new
            ≡ joined (spot_at parent before) (spot_at parent trailing) (links_of self.old) }
    {
        self.set_after(parent, before, trailing);
        self.set_before(parent, trailing, before);
    }

    /// Puts a node between two spots below a parent.
    pub(crate) fn put(
        &mut self,
        parent: Handle,
        before: Option<Handle>,
        trailing: Option<Handle>,
        child: Handle,
    )
        requires before { holder (spot_at parent before) < length (kinds_of self.old) }
        requires trailing { holder (spot_at parent trailing) < length (kinds_of self.old) }
        requires child { number_of child < length (kinds_of self.old) }
        ensures kinds { kinds_of self.new ≡ kinds_of self.old }
        ensures links { links_of self.new ≡ put_between (number_of parent) (spot_at parent before)
            (spot_at parent trailing) (number_of child)
            (links_of self.old) }
    {
        self.join(parent, before, Some(child));
        self.join(parent, Some(child), trailing);
        self.set_parent(child, Some(parent));
    }

    /// Takes a node from between two spots below a parent.
    pub(crate) fn take(
        &mut self,
        parent: Handle,
        before: Option<Handle>,
        trailing: Option<Handle>,
        child: Handle,
    )
        requires before { holder (spot_at parent before) < length (kinds_of self.old) }
        requires trailing { holder (spot_at parent trailing) < length (kinds_of self.old) }
        requires child { number_of child < length (kinds_of self.old) }
        ensures kinds { kinds_of self.new ≡ kinds_of self.old }
        ensures links { links_of self.new ≡ taken_from (spot_at parent before) (spot_at parent trailing) (number_of child)
            (links_of self.old) }
    {
        self.join(parent, before, trailing);
        self.set_after(parent, Some(child), None);
        self.set_before(parent, Some(child), None);
        self.set_parent(child, None);
    }

    /// Notes a node as the parent of these children, from the first one on.
    pub(crate) fn link_children(&mut self, parent: Handle, first: Option<Handle>)
        requires followed { IsFollowed (links_of self.old).next (option_map number_of first)
            (chain (links_of self.old).next (length (links_of self.old).next) (option_map number_of first)) }
        requires within { (n : ℕ) → IsIn n (chain (links_of self.old).next (length (links_of self.old).next)
            (option_map number_of first)) →
            n < length (kinds_of self.old) }
        requires counted { length (links_of self.old).parent ≡ length (kinds_of self.old) }
        ensures kinds { kinds_of self.new ≡ kinds_of self.old }
        ensures links { links_of self.new ≡ with_parents (links_of self.new).parent (links_of self.old) }
        ensures counted { length (links_of self.new).parent ≡ length (links_of self.old).parent }
        ensures children { (n : ℕ) → IsIn n (chain (links_of self.old).next (length (links_of self.old).next)
            (option_map number_of first)) →
            link_at n (links_of self.new).parent ≡ Some (number_of parent) }
        ensures others { (n : ℕ) → ¬ (IsIn n (chain (links_of self.old).next (length (links_of self.old).next)
            (option_map number_of first))) →
            link_at n (links_of self.new).parent ≡ link_at n (links_of self.old).parent }
    {
        let mut rest = first;
        while let Some(child) = rest {
            self.set_parent(child, Some(parent));
            rest = self.next_sibling(child);
        }
    }

    /// Puts the children of a node, from the first to the last, after those of another.
    pub(crate) fn give(
        &mut self,
        from: Handle,
        to: Handle,
        before: Option<Handle>,
        first: Handle,
        last: Option<Handle>,
    )
        requires before { holder (spot_at to before) < length (kinds_of self.old) }
        requires first { number_of first < length (kinds_of self.old) }
        requires from { number_of from < length (kinds_of self.old) }
        requires to { number_of to < length (kinds_of self.old) }
        ensures kinds { kinds_of self.new ≡ kinds_of self.old }
        ensures links { links_of self.new ≡ given (number_of from) (number_of to) (spot_at to before)
            (number_of first) (option_map number_of last) (links_of self.old) }
    {
        self.join(to, before, Some(first));
        self.set_before(to, None, last);
        self.set_after(from, None, None);
        self.set_before(from, None, None);
    }

    /// Adds characters to a text, and says whether the node is one; else nothing changes.
    pub(crate) fn say(&mut self, target: Handle, words: &str) -> Result<bool, AllocError>
        requires { Holds (number_of target) (forest_of self.old) }
        ensures said { IfOk result (λ is. is ≡ true → forest_of self.new
            ≡ changed (number_of target) (saying (chars words.now)) (forest_of self.old)) }
        ensures is_text { IfOk result (λ is. is ≡ is_some (text_of (kind_at (number_of target) (forest_of self.old)))) }
        ensures other { IfOk result (λ is. is ≡ false → forest_of self.new ≡ forest_of self.old) }
        ensures kept { OnErr result (forest_of self.new ≡ forest_of self.old) }
        ensures links { links_of self.new ≡ links_of self.old }
    {
        self.items[target.number as usize].data.say(words)
    }

    /// Adds the attributes whose names an element lacks; another node has none.
    pub(crate) fn add_attributes(
        &mut self,
        target: Handle,
        more: Attributes,
    ) -> Result<(), AllocError>
        requires { Holds (number_of target) (forest_of self.old) }
        ensures forest { OnOk result (forest_of self.new
            ≡ with_attributes (number_of target) more (forest_of self.old)) }
        ensures kept { OnErr result (forest_of self.new ≡ forest_of self.old) }
        ensures links { links_of self.new ≡ links_of self.old }
    {
        let alloc = *self.items.allocator();
        self.items[target.number as usize]
            .data
            .add_attributes(alloc, more)
    }
}

// the handle of a number, of those that are small enough
fn handle_at(index: usize) -> Result<Handle, AllocError>
    ensures { IfOk result (λ handle. number_of handle ≡ index) }
{
    match u32::try_from(index) {
        Ok(number) => Ok(Handle { number }),
        Err(_) => Err(AllocError),
    }
}
