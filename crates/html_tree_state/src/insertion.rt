//! Where nodes and texts are inserted (WHATWG HTML, 13.2.6.1).
ghost use Rattle.std.specs.Prelude.{◌≡◌, ℕ, IfErr, OnErr, OnOk, Some, true};
ghost use Rattle.tree_forest.specs.Conditions.{CanPut, IsPlace};
ghost use Rattle.tree_forest.specs.Forest.{IsElement, contents_of};
ghost use Rattle.tree_forest.specs.Orders.{IsForest};
ghost use Rattle.tree_forest.specs.Places.{put};
ghost use Rattle.tree_forest.specs.Sinks.{child_of};
ghost use Rattle.html_lexemes.specs.declared.fault.ParseFault.TheVariants.{Memory};
ghost use Rattle.tree_model.specs.Building.{seen};
ghost use Rattle.tree_model.specs.Insertions.{foster_place, here, inside, is_template, place_for, said};
ghost use Rattle.tree_model.specs.Points.{place_of};
ghost use Rattle.tree_model.specs.Sound.{Sound};

use crate::construction::Construction;
use html_lexemes::{ParseFault, Text};
use tree_forest::{NodeOrText, TreeSink};
use tree_model::{InsertionPoint, last_element, laws_of_forests};
use tree_names::{is_foster_target, is_html};

impl<S: TreeSink> Construction<S> {
    /// Where a node is inserted into an open element: after its children, those of its contents if it is a template.
    fn point_inside(&self, target: S::Handle) -> InsertionPoint<S::Handle>
        requires element { IsElement (S.view.number target) (S.view.forest self.now.sink) }
        requires template { is_template (S.view.number target) (S.view.forest self.now.sink) ≡ true → (c : ℕ)
            × (contents_of (S.view.number target) (S.view.forest self.now.sink) ≡ Some c) }
        ensures { place_of S.view.number (S.view.forest self.now.sink) result ≡ inside (S.view.number target)
            (S.view.forest self.now.sink) }
    {
        if is_html(self.sink.elem_name(target), "template") {
            InsertionPoint::LastChild(self.sink.get_template_contents(target))
        } else {
            InsertionPoint::LastChild(target)
        }
    }

    /// Where a node is inserted that is fostered: into the last template or before the last table, whichever is nearer
    /// to the current node, else into the root.
    fn foster_point(&self) -> InsertionPoint<S::Handle>
        requires { Sound (seen S.view self.now.held self.now.sink) }
        ensures { place_of S.view.number (S.view.forest self.now.sink) result ≡ foster_place
            (S.view.forest self.now.sink) (seen S.view self.now.held self.now.sink).stack }
    {
        let mut open = self.held.open_elements();
        while let Some((element, lower)) = open.split_last() {
            let Some(above) = last_element(lower) else {
                return self.point_inside(*element);
            };
            let name = self.sink.elem_name(*element);
            if is_html(name, "template") {
                return self.point_inside(*element);
            }
            if is_html(name, "table") {
                return InsertionPoint::TableFosterParenting {
                    element: *element,
                    prev_element: above,
                };
            }
            open = lower;
        }
        InsertionPoint::LastChild(self.sink.get_document())
    }

    /// The appropriate place for inserting a node into a target: fostered where foster parenting is on and the target
    /// is a part of a table.
    pub fn appropriate_place_for_insertion(&self, target: S::Handle) -> InsertionPoint<S::Handle>
        requires sound { Sound (seen S.view self.now.held self.now.sink) }
        requires element { IsElement (S.view.number target) (S.view.forest self.now.sink) }
        requires template { is_template (S.view.number target) (S.view.forest self.now.sink) ≡ true → (c : ℕ)
            × (contents_of (S.view.number target) (S.view.forest self.now.sink) ≡ Some c) }
        ensures { place_of S.view.number (S.view.forest self.now.sink) result ≡ place_for (S.view.number target)
            (seen S.view self.now.held self.now.sink) }
    {
        if self.held.is_fostering() && is_foster_target(self.sink.elem_name(target)) {
            self.foster_point()
        } else {
            self.point_inside(target)
        }
    }

    /// The appropriate place for inserting a node: that of the current node, or the document where nothing is open.
    pub fn insertion_point(&self) -> InsertionPoint<S::Handle>
        requires { Sound (seen S.view self.now.held self.now.sink) }
        ensures place { place_of S.view.number (S.view.forest self.now.sink) result
            ≡ here (seen S.view self.now.held self.now.sink) }
        ensures there { IsPlace (place_of S.view.number (S.view.forest self.now.sink) result)
            (S.view.forest self.now.sink) }
    {
        laws_of_forests();
        match self.current_node() {
            Some(current) => self.appropriate_place_for_insertion(current),
            None => InsertionPoint::LastChild(self.sink.get_document()),
        }
    }

    /// Puts a node or a text there.
    pub(crate) fn insert_at(
        &mut self,
        point: InsertionPoint<S::Handle>,
        child: NodeOrText<S::Handle>,
    ) -> Result<(), ParseFault>
        requires { CanPut (place_of S.view.number (S.view.forest self.old.sink) point) (child_of S.view.number child)
            (S.view.forest self.old.sink) }
        ensures forest { OnOk result (S.view.forest self.new.sink
            ≡ put (place_of S.view.number (S.view.forest self.old.sink) point) (child_of S.view.number child)
            (S.view.forest self.old.sink)) }
        ensures refused { OnErr result (S.view.forest self.new.sink ≡ S.view.forest self.old.sink) }
        ensures quirks { S.view.quirks self.new.sink ≡ S.view.quirks self.old.sink }
        ensures held { self.new.held ≡ self.old.held }
        ensures memory { IfErr result (λ e. e ≡ Memory) }
    {
        match point {
            InsertionPoint::LastChild(parent) => self.sink.append(parent, child),
            InsertionPoint::TableFosterParenting {
                element,
                prev_element,
            } => self
                .sink
                .append_based_on_parent_node(element, prev_element, child),
        }
    }

    /// Inserts characters at the appropriate place. No characters change nothing.
    pub fn append_text(&mut self, text: Text) -> Result<(), ParseFault>
        requires { Sound (seen S.view self.old.held self.old.sink) }
        ensures seen { OnOk result (seen S.view self.new.held self.new.sink ≡ said text (seen S.view self.old.held
            self.old.sink)) }
        ensures sound { OnOk result (Sound (seen S.view self.new.held self.new.sink)) }
        ensures forest { IsForest (S.view.forest self.new.sink) }
        ensures memory { IfErr result (λ e. e ≡ Memory) }
    {
        laws_of_forests();
        let point = self.insertion_point();
        self.insert_at(point, NodeOrText::AppendText(text))
    }
}
