//! The parts of a turn of the adoption agency (WHATWG HTML, 13.2.6.4.7).
ghost use Rattle.std.specs.Prelude.{◌≡◌, IfErr, IfOk, IfSome, OnErr, OnOk, option_map};
ghost use Rattle.tree_forest.specs.Forest.{nodes};
ghost use Rattle.tree_forest.specs.Orders.{IsForest, IsIn};
ghost use Rattle.html_lexemes.specs.declared.fault.ParseFault.TheVariants.{Memory};
ghost use Rattle.tree_model.specs.Adoption.{ancestor_of, copied, placed, taken_over};
ghost use Rattle.tree_model.specs.Building.{seen};
ghost use Rattle.tree_model.specs.CanAdopt.{CanCopy, CanTakeOver, IsAncestor};
ghost use Rattle.tree_model.specs.Formatting.{made_for};
ghost use Rattle.tree_model.specs.Insertions.{place_for};
ghost use Rattle.tree_model.specs.Points.{place_of};
ghost use Rattle.tree_model.specs.Sound.{Sound};

use crate::construction::Construction;
use html_lexemes::{Namespace, ParseFault, QualName, Tag};
use tree_forest::{NodeOrText, TreeSink};
use tree_model::{InsertionPoint, adopting_keeps_sound, adopting_may_be_done, laws_of_forests};
use tree_predicates::element_flags;

impl<S: TreeSink> Construction<S> {
    // makes an HTML element for a tag, which stands nowhere yet
    fn make_element_for(&mut self, tag: Tag) -> Result<S::Handle, ParseFault>
        ensures number { IfOk result (λ element. S.view.number element ≡ nodes (S.view.forest self.old.sink)) }
        ensures forest { OnOk result (S.view.forest self.new.sink ≡ made_for tag (S.view.forest self.old.sink)) }
        ensures refused { OnErr result (S.view.forest self.new.sink ≡ S.view.forest self.old.sink) }
        ensures quirks { S.view.quirks self.new.sink ≡ S.view.quirks self.old.sink }
        ensures held { self.new.held ≡ self.old.held }
        ensures memory { IfErr result (λ e. e ≡ Memory) }
    {
        let name = QualName::new(Namespace::Html, tag.name);
        let flags = element_flags(&name, &tag.attrs);
        self.sink.create_element(name, tag.attrs, flags)
    }

    /// Copies an element for its tag: the copy takes its place among the open and the listed elements, and the last
    /// node as its child.
    pub(crate) fn copy_element(
        &mut self,
        element: S::Handle,
        tag: Tag,
        last: S::Handle,
    ) -> Result<S::Handle, ParseFault>
        requires sound { Sound (seen S.view self.old.held self.old.sink) }
        requires can { CanCopy (S.view.number element) (S.view.number last) tag (seen S.view self.old.held
            self.old.sink) }
        ensures number { IfOk result (λ copy. S.view.number copy ≡ nodes (S.view.forest self.old.sink)) }
        ensures seen { OnOk result (seen S.view self.new.held self.new.sink ≡ copied (S.view.number element) tag
            (S.view.number last) (seen S.view self.old.held self.old.sink)) }
        ensures sound { OnOk result (Sound (seen S.view self.new.held self.new.sink)) }
        ensures forest { IsForest (S.view.forest self.new.sink) }
        ensures memory { IfErr result (λ e. e ≡ Memory) }
    {
        laws_of_forests();
        adopting_keeps_sound();
        let copy = self.make_element_for(tag)?;
        self.sink.remove_from_parent(last)?;
        self.sink.append(copy, NodeOrText::AppendNode(last))?;
        self.held.replace(&self.sink, element, copy);
        self.held.hand_over(&self.sink, element, copy);
        Ok(copy)
    }

    /// Puts the last node, which stands nowhere, to the appropriate place for the common ancestor: that is an open
    /// element, or the document.
    pub(crate) fn place_last(
        &mut self,
        last: S::Handle,
        ancestor: Option<S::Handle>,
    ) -> Result<(), ParseFault>
        requires sound { Sound (seen S.view self.old.held self.old.sink) }
        requires can { IsAncestor (S.view.number last) (option_map S.view.number ancestor) (seen S.view self.old.held
            self.old.sink) }
        ensures seen { OnOk result (seen S.view self.new.held self.new.sink ≡ placed (S.view.number last)
            (ancestor_of (option_map S.view.number ancestor)) (seen S.view self.old.held self.old.sink)) }
        ensures sound { OnOk result (Sound (seen S.view self.new.held self.new.sink)) }
        ensures forest { IsForest (S.view.forest self.new.sink) }
        ensures memory { IfErr result (λ e. e ≡ Memory) }
    {
        laws_of_forests();
        self.sink.remove_from_parent(last)?;
        let point = self.point_for(ancestor);
        self.insert_at(point, NodeOrText::AppendNode(last))?;
        Ok(())
    }

    // the appropriate place for the common ancestor
    fn point_for(&self, ancestor: Option<S::Handle>) -> InsertionPoint<S::Handle>
        requires sound { Sound (seen S.view self.now.held self.now.sink) }
        requires open { IfSome ancestor (λ element. IsIn (S.view.number element) (seen S.view self.now.held
            self.now.sink).stack) }
        ensures { place_of S.view.number (S.view.forest self.now.sink) result ≡ place_for
            (ancestor_of (option_map S.view.number ancestor)) (seen S.view self.now.held self.now.sink) }
    {
        match ancestor {
            Some(element) => self.appropriate_place_for_insertion(element),
            None => InsertionPoint::LastChild(self.sink.get_document()),
        }
    }

    /// Lets a copy of the formatting element take the children of the furthest block, and become its child. It is
    /// listed at the bookmark, and stands on the stack right below the block; the element leaves both.
    pub(crate) fn take_over(
        &mut self,
        bookmark: Option<S::Handle>,
        element: S::Handle,
        block: S::Handle,
        tag: Tag,
    ) -> Result<(), ParseFault>
        requires sound { Sound (seen S.view self.old.held self.old.sink) }
        requires can { CanTakeOver (S.view.number element) (S.view.number block) tag (seen S.view self.old.held
            self.old.sink) }
        ensures seen { OnOk result (seen S.view self.new.held self.new.sink ≡ taken_over (option_map S.view.number
            bookmark) (S.view.number element) (S.view.number block) tag (seen S.view self.old.held self.old.sink)) }
        ensures sound { OnOk result (Sound (seen S.view self.new.held self.new.sink)) }
        ensures forest { IsForest (S.view.forest self.new.sink) }
        ensures memory { IfErr result (λ e. e ≡ Memory) }
    {
        laws_of_forests();
        adopting_keeps_sound();
        adopting_may_be_done();
        let copy = self.make_element_for(tag)?;
        self.sink.reparent_children(block, copy)?;
        self.sink.append(block, NodeOrText::AppendNode(copy))?;
        self.held.list_at(&self.sink, bookmark, element, copy)?;
        self.held.take_off(&self.sink, element);
        self.held.open_below(&self.sink, block, copy)?;
        Ok(())
    }
}
