//! The list of active formatting elements and the tree (WHATWG HTML, 13.2.4.3).
ghost use Rattle.std.specs.Prelude.{◌≡◌, IfErr, IfOk, OnOk, true};
ghost use Rattle.tree_forest.specs.Forest.{IsElement, nodes};
ghost use Rattle.tree_forest.specs.Orders.{IsForest};
ghost use Rattle.tree_names.specs.Sets.{is_one_of};
ghost use Rattle.tree_names.specs.TagSets.{formatting};
ghost use Rattle.html_lexemes.specs.declared.fault.ParseFault.TheVariants.{Memory};
ghost use Rattle.tree_model.specs.Building.{seen};
ghost use Rattle.tree_model.specs.Formatting.{cleared, inserted_for, inserted_formatting, marked};
ghost use Rattle.tree_model.specs.Scopes.{taken_off, with_closed_p};
ghost use Rattle.tree_model.specs.Sound.{Sound};

use crate::construction::Construction;
use html_lexemes::{Namespace, ParseFault, QualName, Tag};
use tree_forest::TreeSink;
use tree_model::{PushFlag, adopting_keeps_sound, laws_of_forests};
use tree_names::{ElementSet, Scope};

impl<S: TreeSink> Construction<S> {
    /// Puts a marker into the list.
    pub fn insert_marker(&mut self) -> Result<(), ParseFault>
        requires { Sound (seen S.view self.old.held self.old.sink) }
        ensures seen { OnOk result (seen S.view self.new.held self.new.sink ≡ marked (seen S.view self.old.held
            self.old.sink)) }
        ensures sound { OnOk result (Sound (seen S.view self.new.held self.new.sink)) }
        ensures forest { IsForest (S.view.forest self.new.sink) }
        ensures memory { IfErr result (λ e. e ≡ Memory) }
    {
        laws_of_forests();
        self.held.push_marker()?;
        Ok(())
    }

    /// Clears the list up to the last marker.
    pub fn clear_active_formatting_to_marker(&mut self)
        requires { Sound (seen S.view self.old.held self.old.sink) }
        ensures seen { seen S.view self.new.held self.new.sink ≡ cleared (seen S.view self.old.held self.old.sink) }
        ensures sound { Sound (seen S.view self.new.held self.new.sink) }
    {
        laws_of_forests();
        self.held.clear_to_marker();
    }

    /// Inserts an HTML element for a tag, which becomes the current node ("insert an HTML element").
    pub fn insert_element_for(&mut self, tag: &Tag) -> Result<S::Handle, ParseFault>
        requires { Sound (seen S.view self.old.held self.old.sink) }
        ensures number { IfOk result (λ element. S.view.number element ≡ nodes (S.view.forest self.old.sink)) }
        ensures seen { OnOk result (seen S.view self.new.held self.new.sink ≡ inserted_for tag.now
            (seen S.view self.old.held self.old.sink)) }
        ensures sound { OnOk result (Sound (seen S.view self.new.held self.new.sink)) }
        ensures forest { IsForest (S.view.forest self.new.sink) }
        ensures memory { IfErr result (λ e. e ≡ Memory) }
    {
        let name = QualName::new(Namespace::Html, tag.name.try_clone()?);
        let attrs = tag.attrs.try_clone()?;
        self.insert_element(PushFlag::Push, name, attrs)
    }

    /// Inserts a formatting element for a tag, and lists it; of three after the last marker that are alike the
    /// earliest goes.
    pub fn insert_formatting_element(&mut self, tag: Tag) -> Result<S::Handle, ParseFault>
        requires sound { Sound (seen S.view self.old.held self.old.sink) }
        requires formatting { is_one_of formatting tag.name ≡ true }
        ensures number { IfOk result (λ element. S.view.number element ≡ nodes (S.view.forest self.old.sink)) }
        ensures seen { OnOk result (seen S.view self.new.held self.new.sink ≡ inserted_formatting tag
            (seen S.view self.old.held self.old.sink)) }
        ensures sound { OnOk result (Sound (seen S.view self.new.held self.new.sink)) }
        ensures forest { IsForest (S.view.forest self.new.sink) }
        ensures memory { IfErr result (λ e. e ≡ Memory) }
    {
        laws_of_forests();
        let element = self.insert_element_for(&tag)?;
        self.held.push_formatting(element, tag)?;
        Ok(element)
    }

    /// Takes an element off the stack of open elements, wherever it stands.
    pub fn remove_from_stack(&mut self, element: S::Handle)
        requires { Sound (seen S.view self.old.held self.old.sink) }
        ensures seen { seen S.view self.new.held self.new.sink ≡ taken_off (S.view.number element)
            (seen S.view self.old.held self.old.sink) }
        ensures sound { Sound (seen S.view self.new.held self.new.sink) }
    {
        adopting_keeps_sound();
        self.held.take_off(&self.sink, element);
    }

    /// Takes an element off the stack of open elements, wherever it stands; it is not looked for where none of its name
    /// is open.
    pub fn remove_element_from_stack(&mut self, element: S::Handle)
        requires sound { Sound (seen S.view self.old.held self.old.sink) }
        requires element { IsElement (S.view.number element) (S.view.forest self.old.sink) }
        ensures seen { seen S.view self.new.held self.new.sink ≡ taken_off (S.view.number element)
            (seen S.view self.old.held self.old.sink) }
        ensures sound { Sound (seen S.view self.new.held self.new.sink) }
    {
        if self.is_element_open(element) {
            self.remove_from_stack(element);
        }
    }

    /// Closes a p element that is in button scope ("close a p element").
    pub fn close_p_element_in_button_scope(&mut self) -> Result<(), ParseFault>
        requires { Sound (seen S.view self.old.held self.old.sink) }
        ensures seen { OnOk result (seen S.view self.new.held self.new.sink ≡ with_closed_p (seen S.view self.old.held
            self.old.sink)) }
        ensures sound { OnOk result (Sound (seen S.view self.new.held self.new.sink)) }
        ensures forest { IsForest (S.view.forest self.new.sink) }
        ensures memory { IfErr result (λ e. e ≡ Memory) }
    {
        if self.in_scope(Scope::ButtonScope, ElementSet::Paragraph) {
            self.generate_implied_end_tags(ElementSet::Paragraph)?;
            self.pop_to(ElementSet::Paragraph)?;
        }
        Ok(())
    }
}
