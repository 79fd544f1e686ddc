//! Elements, comments and attributes that are inserted (WHATWG HTML, 13.2.6.1).
ghost use Rattle.std.specs.Prelude.{◌≡◌, IfErr, IfOk, OnOk};
ghost use Rattle.tree_forest.specs.Conditions.{IsPlace};
ghost use Rattle.tree_forest.specs.Forest.{nodes};
ghost use Rattle.tree_forest.specs.Orders.{IsForest};
ghost use Rattle.html_lexemes.specs.declared.fault.ParseFault.TheVariants.{Memory};
ghost use Rattle.tree_model.specs.Building.{seen};
ghost use Rattle.tree_model.specs.Insertions.{here, inserted_by, with_element};
ghost use Rattle.tree_model.specs.Points.{place_of};
ghost use Rattle.tree_model.specs.Sound.{Sound};

use crate::construction::Construction;
use html_lexemes::{Attributes, ParseFault, QualName};
use tree_forest::{NodeOrText, TreeSink};
use tree_model::{InsertionPoint, PushFlag, laws_of_forests};
use tree_predicates::element_flags;

impl<S: TreeSink> Construction<S> {
    /// Inserts an element at the appropriate place ("insert a foreign element").
    pub fn insert_element(
        &mut self,
        push: PushFlag,
        name: QualName,
        attrs: Attributes,
    ) -> Result<S::Handle, ParseFault>
        requires { Sound (seen S.view self.old.held self.old.sink) }
        ensures number { IfOk result (λ element. S.view.number element ≡ nodes (S.view.forest self.old.sink)) }
        ensures seen { OnOk result (seen S.view self.new.held self.new.sink ≡ inserted_by push
            (here (seen S.view self.old.held self.old.sink)) name attrs (seen S.view self.old.held self.old.sink)) }
        ensures sound { OnOk result (Sound (seen S.view self.new.held self.new.sink)) }
        ensures forest { IsForest (S.view.forest self.new.sink) }
        ensures memory { IfErr result (λ e. e ≡ Memory) }
    {
        let point = self.insertion_point();
        self.insert_element_at(point, push, name, attrs)
    }

    /// Inserts an element at a place, which may be another than the appropriate one. Its number is that of the next
    /// node; where it is pushed, it becomes the current node.
    pub fn insert_element_at(
        &mut self,
        point: InsertionPoint<S::Handle>,
        push: PushFlag,
        name: QualName,
        attrs: Attributes,
    ) -> Result<S::Handle, ParseFault>
        requires sound { Sound (seen S.view self.old.held self.old.sink) }
        requires place { IsPlace (place_of S.view.number (S.view.forest self.old.sink) point)
            (S.view.forest self.old.sink) }
        ensures number { IfOk result (λ element. S.view.number element ≡ nodes (S.view.forest self.old.sink)) }
        ensures seen { OnOk result (seen S.view self.new.held self.new.sink ≡ inserted_by push
            (place_of S.view.number (S.view.forest self.old.sink) point) name attrs (seen S.view self.old.held
            self.old.sink)) }
        ensures sound { OnOk result (Sound (seen S.view self.new.held self.new.sink)) }
        ensures forest { IsForest (S.view.forest self.new.sink) }
        ensures memory { IfErr result (λ e. e ≡ Memory) }
    {
        laws_of_forests();
        let element = self.put_element(point, name, attrs)?;
        match push {
            PushFlag::Push => {
                self.held.push(&self.sink, element)?;
                Ok(element)
            }
            PushFlag::NoPush => Ok(element),
        }
    }

    // makes an element and puts it at a place
    fn put_element(
        &mut self,
        point: InsertionPoint<S::Handle>,
        name: QualName,
        attrs: Attributes,
    ) -> Result<S::Handle, ParseFault>
        requires sound { Sound (seen S.view self.old.held self.old.sink) }
        requires place { IsPlace (place_of S.view.number (S.view.forest self.old.sink) point)
            (S.view.forest self.old.sink) }
        ensures number { IfOk result (λ element. S.view.number element ≡ nodes (S.view.forest self.old.sink)) }
        ensures seen { OnOk result (seen S.view self.new.held self.new.sink ≡ with_element
            (place_of S.view.number (S.view.forest self.old.sink) point) name attrs (seen S.view self.old.held
            self.old.sink)) }
        ensures held { self.new.held ≡ self.old.held }
        ensures forest { IsForest (S.view.forest self.new.sink) }
        ensures memory { IfErr result (λ e. e ≡ Memory) }
    {
        laws_of_forests();
        let flags = element_flags(&name, &attrs);
        let element = self.sink.create_element(name, attrs, flags)?;
        self.insert_at(point, NodeOrText::AppendNode(element))?;
        Ok(element)
    }
}
