//! Changes of nodes that keep them a forest, with each parent noted.
ghost use Rattle.std.specs.Prelude.{◌≡◌, [], ◌∷◌, ◌++◌, IfOk, IfSome, None, OnErr, OnOk, Some, chars, false};
ghost use Rattle.std.specs.Prelude.{option_map, true};
ghost use Rattle.tree_forest.specs.Changes.{changed, contents_number, detached, made, made_element, reparented, saying};
ghost use Rattle.tree_forest.specs.Changes.{with_attributes};
ghost use Rattle.tree_forest.specs.Conditions.{CanMove, CanReparent, IsPlace};
ghost use Rattle.tree_forest.specs.Forest.{Holds, document, element_of, nodes};
ghost use Rattle.tree_forest.specs.Places.{before, below, neighbour, put_node, put_words};
ghost use Rattle.html_render_dom.specs.Links.{IsLinked};
ghost use Rattle.html_render_dom.specs.Nodes.{forest_of, is_some_text, kind_of, kinds_of, links_of, with_no_links};
ghost use Rattle.html_render_dom.specs.Numbers.{number_of};

use crate::node::{Handle, NodeData};
use crate::nodes::Nodes;
use html_lexemes::{Attributes, QualName, Text};
use std::alloc::AllocError;
use tree_forest::{
    ElementFlags, a_node_stands_where_it_was_put, a_node_taken_out_stands_nowhere,
    attributes_are_added, attributes_keep_a_forest, how_many_nodes_there_are,
    making_keeps_a_forest, putting_keeps_a_forest, reparenting_keeps_a_forest,
    taking_out_keeps_a_forest, what_a_parent_alone_is_changed_by, what_was_made_may_be_put,
    what_was_not_named_stays, where_children_stand,
};

impl Nodes {
    /// A node more, which stands nowhere and has no contents of its own.
    pub(crate) fn make(&mut self, node: NodeData) -> Result<Handle, AllocError>
        requires linked { IsLinked self.old }
        requires plain { (element_of (kind_of node)).contents ≡ None }
        ensures number { IfOk result (λ made. number_of made ≡ nodes (forest_of self.old)) }
        ensures forest { OnOk result (forest_of self.new ≡ made (kind_of node) (forest_of self.old)) }
        ensures kept { OnErr result (forest_of self.new ≡ forest_of self.old) }
        ensures linked { IsLinked self.new }
    {
        making_keeps_a_forest();
        where_children_stand();
        how_many_nodes_there_are();
        let made = self.next()?;
        self.push(node)?;
        Ok(made)
    }

    /// An element more, which stands nowhere; a template has a node for its contents.
    pub(crate) fn make_element(
        &mut self,
        name: QualName,
        attrs: Attributes,
        flags: ElementFlags,
    ) -> Result<Handle, AllocError>
        requires linked { IsLinked self.old }
        ensures number { IfOk result (λ made. number_of made ≡ nodes (forest_of self.old)) }
        ensures forest { OnOk result (forest_of self.new ≡ made_element name attrs flags.template
            flags.mathml_annotation_xml_integration_point (forest_of self.old)) }
        ensures kept { OnErr result (forest_of self.new ≡ forest_of self.old) }
        ensures linked { IsLinked self.new }
    {
        making_keeps_a_forest();
        where_children_stand();
        how_many_nodes_there_are();
        let made = self.next()?;
        let contents = self.contents_number(flags.template)?;
        let element = NodeData::Element {
            name,
            attrs,
            template_contents: contents,
            mathml_annotation_xml_integration_point: flags.mathml_annotation_xml_integration_point,
        };
        if flags.template {
            self.push_template(element)?;
        } else {
            self.push(element)?;
        }
        Ok(made)
    }

    // the number of what holds the contents of a template that is made next
    fn contents_number(&self, is_template: bool) -> Result<Option<Handle>, AllocError>
        ensures { IfOk result (λ contents. option_map number_of contents
            ≡ contents_number is_template (forest_of self.now)) }
    {
        if is_template {
            Ok(Some(self.next_but_one()?))
        } else {
            Ok(None)
        }
    }

    // an element and what holds its contents, or neither
    fn push_template(&mut self, element: NodeData) -> Result<(), AllocError>
        ensures kinds { OnOk result (kinds_of self.new ≡ (kinds_of self.old ++ kind_of element ∷ []) ++ document ∷ []) }
        ensures links { OnOk result (links_of self.new ≡ with_no_links (with_no_links (links_of self.old))) }
        ensures kept { OnErr result (self.new.items.items ≡ self.old.items.items) }
    {
        self.push(element)?;
        let result = self.push(NodeData::Document);
        if result.is_err() {
            self.pop();
        }
        result
    }

    /// Puts a node that stands nowhere after the children of another.
    pub(crate) fn put_below(&mut self, parent: Handle, child: Handle)
        requires linked { IsLinked self.old }
        requires place { IsPlace (below (number_of parent)) (forest_of self.old) }
        requires can { CanMove (below (number_of parent)) (number_of child) (forest_of self.old) }
        ensures forest { forest_of self.new ≡ put_node (below (number_of parent)) (number_of child)
            (forest_of self.old) }
        ensures linked { IsLinked self.new }
    {
        putting_keeps_a_forest();
        a_node_stands_where_it_was_put();
        what_was_not_named_stays();
        how_many_nodes_there_are();
        let last = self.child_before(parent, None);
        self.put(parent, last, None, child);
    }

    /// Puts a node that stands nowhere before a child.
    pub(crate) fn put_before(&mut self, sibling: Handle, child: Handle)
        requires linked { IsLinked self.old }
        requires place { IsPlace (before (number_of sibling)) (forest_of self.old) }
        requires can { CanMove (before (number_of sibling)) (number_of child) (forest_of self.old) }
        ensures forest { forest_of self.new
            ≡ put_node (before (number_of sibling)) (number_of child) (forest_of self.old) }
        ensures linked { IsLinked self.new }
    {
        putting_keeps_a_forest();
        a_node_stands_where_it_was_put();
        what_was_not_named_stays();
        how_many_nodes_there_are();
        where_children_stand();
        let Some(parent) = self.parent(sibling) else {
            unreachable!()
        };
        let previous = self.child_before(parent, Some(sibling));
        self.put(parent, previous, Some(sibling), child);
    }

    /// Takes a node out of its parent's children, where it has a parent.
    pub(crate) fn detach(&mut self, target: Handle)
        requires linked { IsLinked self.old }
        ensures forest { forest_of self.new ≡ detached (number_of target) (forest_of self.old) }
        ensures linked { IsLinked self.new }
    {
        taking_out_keeps_a_forest();
        what_a_parent_alone_is_changed_by();
        a_node_taken_out_stands_nowhere();
        what_was_not_named_stays();
        how_many_nodes_there_are();
        where_children_stand();
        if let Some(parent) = self.parent(target) {
            let previous = self.child_before(parent, Some(target));
            let next = self.child_after(parent, Some(target));
            self.take(parent, previous, next, target);
        }
    }

    /// A node more, below another, after its children.
    pub(crate) fn put_new_below(&mut self, parent: Handle, node: NodeData) -> Result<(), AllocError>
        requires linked { IsLinked self.old }
        requires plain { (element_of (kind_of node)).contents ≡ None }
        requires child { ¬ (kind_of node ≡ document) }
        requires place { IsPlace (below (number_of parent)) (forest_of self.old) }
        ensures forest { OnOk result (forest_of self.new
            ≡ put_node (below (number_of parent)) (nodes (forest_of self.old))
            (made (kind_of node) (forest_of self.old))) }
        ensures kept { OnErr result (forest_of self.new ≡ forest_of self.old) }
        ensures linked { IsLinked self.new }
    {
        what_was_made_may_be_put();
        let made = self.make(node)?;
        self.put_below(parent, made);
        Ok(())
    }

    /// A node more, before a child.
    pub(crate) fn put_new_before(
        &mut self,
        sibling: Handle,
        node: NodeData,
    ) -> Result<(), AllocError>
        requires linked { IsLinked self.old }
        requires plain { (element_of (kind_of node)).contents ≡ None }
        requires child { ¬ (kind_of node ≡ document) }
        requires place { IsPlace (before (number_of sibling)) (forest_of self.old) }
        ensures forest { OnOk result (forest_of self.new
            ≡ put_node (before (number_of sibling)) (nodes (forest_of self.old))
            (made (kind_of node) (forest_of self.old))) }
        ensures kept { OnErr result (forest_of self.new ≡ forest_of self.old) }
        ensures linked { IsLinked self.new }
    {
        what_was_made_may_be_put();
        let made = self.make(node)?;
        self.put_before(sibling, made);
        Ok(())
    }

    // the node right before a child
    fn before(&self, sibling: Handle) -> Option<Handle>
        requires linked { IsLinked self.now }
        ensures { option_map number_of result ≡ neighbour (before (number_of sibling)) (forest_of self.now) }
    {
        match self.parent(sibling) {
            Some(parent) => self.child_before(parent, Some(sibling)),
            None => None,
        }
    }

    // adds characters to a text, and says whether there is one
    fn say_at(&mut self, neighbour: Option<Handle>, words: &str) -> Result<bool, AllocError>
        requires linked { IsLinked self.old }
        requires holds { IfSome neighbour (λ n. Holds (number_of n) (forest_of self.old)) }
        ensures said { IfOk result (λ is. is ≡ true → IfSome neighbour (λ n. forest_of self.new
            ≡ changed (number_of n) (saying (chars words.now)) (forest_of self.old))) }
        ensures is_text { IfOk result (λ is. is ≡ is_some_text neighbour (forest_of self.old)) }
        ensures other { IfOk result (λ is. is ≡ false → forest_of self.new ≡ forest_of self.old) }
        ensures kept { OnErr result (forest_of self.new ≡ forest_of self.old) }
        ensures linked { IsLinked self.new }
    {
        match neighbour {
            Some(neighbour) => self.say(neighbour, words),
            None => Ok(false),
        }
    }

    /// Puts characters after the children of a node.
    pub(crate) fn say_below(&mut self, parent: Handle, words: Text) -> Result<(), AllocError>
        requires linked { IsLinked self.old }
        requires place { IsPlace (below (number_of parent)) (forest_of self.old) }
        ensures forest { OnOk result (forest_of self.new
            ≡ put_words (below (number_of parent)) words (forest_of self.old)) }
        ensures kept { OnErr result (forest_of self.new ≡ forest_of self.old) }
        ensures linked { IsLinked self.new }
    {
        if words.as_str().is_empty() {
            return Ok(());
        }
        let neighbour = self.child_before(parent, None);
        if self.say_at(neighbour, words.as_str())? {
            return Ok(());
        }
        self.put_new_below(parent, NodeData::Text { contents: words })
    }

    /// Puts characters before a child.
    pub(crate) fn say_before(&mut self, sibling: Handle, words: Text) -> Result<(), AllocError>
        requires linked { IsLinked self.old }
        requires place { IsPlace (before (number_of sibling)) (forest_of self.old) }
        ensures forest { OnOk result (forest_of self.new
            ≡ put_words (before (number_of sibling)) words (forest_of self.old)) }
        ensures kept { OnErr result (forest_of self.new ≡ forest_of self.old) }
        ensures linked { IsLinked self.new }
    {
        if words.as_str().is_empty() {
            return Ok(());
        }
        let neighbour = self.before(sibling);
        if self.say_at(neighbour, words.as_str())? {
            return Ok(());
        }
        self.put_new_before(sibling, NodeData::Text { contents: words })
    }

    /// Adds the attributes whose names an element lacks.
    pub(crate) fn add_missing_attributes(
        &mut self,
        target: Handle,
        more: Attributes,
    ) -> Result<(), AllocError>
        requires linked { IsLinked self.old }
        requires holds { Holds (number_of target) (forest_of self.old) }
        ensures forest { OnOk result (forest_of self.new
            ≡ with_attributes (number_of target) more (forest_of self.old)) }
        ensures kept { OnErr result (forest_of self.new ≡ forest_of self.old) }
        ensures linked { IsLinked self.new }
    {
        attributes_keep_a_forest();
        attributes_are_added();
        how_many_nodes_there_are();
        self.add_attributes(target, more)
    }

    /// Puts the children of a node after those of another.
    pub(crate) fn reparent(&mut self, from: Handle, to: Handle)
        requires linked { IsLinked self.old }
        requires can { CanReparent (number_of from) (number_of to) (forest_of self.old) }
        ensures forest { forest_of self.new ≡ reparented (number_of from) (number_of to) (forest_of self.old) }
        ensures linked { IsLinked self.new }
    {
        reparenting_keeps_a_forest();
        what_was_not_named_stays();
        how_many_nodes_there_are();
        where_children_stand();
        if let Some(first) = self.child_after(from, None) {
            let last = self.child_before(from, None);
            let before = self.child_before(to, None);
            self.link_children(to, Some(first));
            self.give(from, to, before, first, last);
        }
    }
}
