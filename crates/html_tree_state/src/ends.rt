//! What end tags pop (WHATWG HTML, 13.2.6.4.7).
ghost use Rattle.std.specs.Prelude.{◌≡◌, IfErr, OnOk, option_map};
ghost use Rattle.tree_forest.specs.Orders.{IsForest};
ghost use Rattle.html_lexemes.specs.declared.fault.ParseFault.TheVariants.{Memory};
ghost use Rattle.tree_model.specs.Adoption.{closed_by_other_end, named_before_special, popped_with};
ghost use Rattle.tree_model.specs.Building.{seen};
ghost use Rattle.tree_model.specs.Scopes.{is_open};
ghost use Rattle.tree_names.specs.Wanted.{elements_of};
ghost use Rattle.tree_model.specs.Sound.{Sound};

use crate::construction::Construction;
use html_lexemes::{LocalName, ParseFault};
use tree_forest::TreeSink;
use tree_names::{ElementSet, is_special};

impl<S: TreeSink> Construction<S> {
    /// Whether an element of a set is open.
    pub fn has_open(&self, wanted: ElementSet<'_>) -> bool
        requires { Sound (seen S.view self.now.held self.now.sink) }
        ensures { result ≡ is_open (elements_of wanted.entry) (seen S.view self.now.held self.now.sink) }
    {
        if self.held.counts().has_none(wanted) {
            return false;
        }
        let mut open = self.held.open_elements();
        while let Some((element, lower)) = open.split_last() {
            if wanted.contains(self.sink.elem_name(*element)) {
                return true;
            }
            open = lower;
        }
        false
    }

    /// Pops the open elements up to one, and that one.
    pub fn pop_with(&mut self, element: S::Handle) -> Result<(), ParseFault>
        requires { Sound (seen S.view self.old.held self.old.sink) }
        ensures seen { OnOk result (seen S.view self.new.held self.new.sink ≡ popped_with (S.view.number element)
            (seen S.view self.old.held self.old.sink)) }
        ensures sound { OnOk result (Sound (seen S.view self.new.held self.new.sink)) }
        ensures forest { IsForest (S.view.forest self.new.sink) }
        ensures memory { IfErr result (λ e. e ≡ Memory) }
    {
        while let Some(current) = self.current_node() {
            let is_last = self.sink.same_node(current, element);
            self.pop()?;
            if is_last {
                return Ok(());
            }
        }
        Ok(())
    }

    /// The first element of a name from the current node up, where no special element stands before it.
    fn element_before_special(&self, name: &LocalName) -> Option<S::Handle>
        requires { Sound (seen S.view self.now.held self.now.sink) }
        ensures { option_map S.view.number result ≡ named_before_special name.now (S.view.forest self.now.sink)
            (seen S.view self.now.held self.now.sink).stack }
    {
        if self.held.counts().has_none(ElementSet::Named(name)) {
            return None;
        }
        let mut open = self.held.open_elements();
        while let Some((element, lower)) = open.split_last() {
            let found = self.sink.elem_name(*element);
            if ElementSet::Named(name).contains(found) {
                return Some(*element);
            }
            if is_special(found) {
                return None;
            }
            open = lower;
        }
        None
    }

    /// Closes the first element of a name that stands before any special one ("any other end tag").
    pub fn process_end_tag_in_body(&mut self, name: &LocalName) -> Result<(), ParseFault>
        requires { Sound (seen S.view self.old.held self.old.sink) }
        ensures seen { OnOk result (seen S.view self.new.held self.new.sink ≡ closed_by_other_end name.now
            (seen S.view self.old.held self.old.sink)) }
        ensures sound { OnOk result (Sound (seen S.view self.new.held self.new.sink)) }
        ensures forest { IsForest (S.view.forest self.new.sink) }
        ensures memory { IfErr result (λ e. e ≡ Memory) }
    {
        let Some(element) = self.element_before_special(name) else {
            return Ok(());
        };
        self.generate_implied_end_tags(ElementSet::Named(name))?;
        self.pop_with(element)?;
        Ok(())
    }
}
