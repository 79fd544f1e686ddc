//! What is popped off the stack of open elements (WHATWG HTML, 13.2.4.2 and 13.2.6.3).
ghost use Rattle.std.specs.Prelude.{◌≡◌, IfErr, OnOk, option_map};
ghost use Rattle.tree_forest.specs.Orders.{IsForest};
ghost use Rattle.html_lexemes.specs.declared.fault.ParseFault.TheVariants.{Memory};
ghost use Rattle.tree_model.specs.Building.{seen};
ghost use Rattle.tree_model.specs.OpenElements.{first_of};
ghost use Rattle.tree_model.specs.Scopes.{has_item as is_item_open, implied, is_item_barrier, popped, popped_down_to};
ghost use Rattle.tree_model.specs.Scopes.{popped_to, with_closed_item};
ghost use Rattle.tree_names.specs.Wanted.{elements_of};
ghost use Rattle.tree_model.specs.Sound.{Sound};

use crate::construction::Construction;
use html_lexemes::{ParseFault, QualName};
use tree_forest::TreeSink;
use tree_names::{ElementSet, is_address_div_or_p, is_special};

impl<S: TreeSink> Construction<S> {
    /// The current node, where an element is open.
    pub fn current_node(&self) -> Option<S::Handle>
        ensures { option_map S.view.number result ≡ first_of (seen S.view self.now.held self.now.sink).stack }
    {
        self.held.open_elements().last().copied()
    }

    /// Pops the current node, where an element is open.
    pub fn pop(&mut self) -> Result<(), ParseFault>
        requires { Sound (seen S.view self.old.held self.old.sink) }
        ensures seen { OnOk result (seen S.view self.new.held self.new.sink ≡ popped (seen S.view self.old.held
            self.old.sink)) }
        ensures sound { OnOk result (Sound (seen S.view self.new.held self.new.sink)) }
        ensures forest { IsForest (S.view.forest self.new.sink) }
        ensures memory { IfErr result (λ e. e ≡ Memory) }
    {
        let Some(element) = self.current_node() else {
            return Ok(());
        };
        self.held.pop(&self.sink);
        self.sink.pop(element)?;
        Ok(())
    }

    /// Pops the current nodes whose end tags are implied, but for those of a set (WHATWG HTML, 13.2.6.3, "generate
    /// implied end tags").
    pub fn generate_implied_end_tags(&mut self, except: ElementSet<'_>) -> Result<(), ParseFault>
        requires { Sound (seen S.view self.old.held self.old.sink) }
        ensures seen { OnOk result (seen S.view self.new.held self.new.sink ≡ implied (elements_of except.entry)
            (seen S.view self.old.held self.old.sink)) }
        ensures sound { OnOk result (Sound (seen S.view self.new.held self.new.sink)) }
        ensures forest { IsForest (S.view.forest self.new.sink) }
        ensures memory { IfErr result (λ e. e ≡ Memory) }
    {
        while let Some(current) = self.current_node() {
            if !except.lets_close(self.sink.elem_name(current)) {
                return Ok(());
            }
            self.pop()?;
        }
        Ok(())
    }

    /// Pops the open elements up to the first one of a set, and that one.
    pub fn pop_to(&mut self, set: ElementSet<'_>) -> Result<(), ParseFault>
        requires { Sound (seen S.view self.old.held self.old.sink) }
        ensures seen { OnOk result (seen S.view self.new.held self.new.sink ≡ popped_to (elements_of set.entry)
            (seen S.view self.old.held self.old.sink)) }
        ensures sound { OnOk result (Sound (seen S.view self.new.held self.new.sink)) }
        ensures forest { IsForest (S.view.forest self.new.sink) }
        ensures memory { IfErr result (λ e. e ≡ Memory) }
    {
        while let Some(current) = self.current_node() {
            let is_last = set.contains(self.sink.elem_name(current));
            self.pop()?;
            if is_last {
                return Ok(());
            }
        }
        Ok(())
    }

    /// Pops the open elements up to the first one of a set, which stays.
    pub fn pop_down_to(&mut self, set: ElementSet<'_>) -> Result<(), ParseFault>
        requires { Sound (seen S.view self.old.held self.old.sink) }
        ensures seen { OnOk result (seen S.view self.new.held self.new.sink ≡ popped_down_to (elements_of set.entry)
            (seen S.view self.old.held self.old.sink)) }
        ensures sound { OnOk result (Sound (seen S.view self.new.held self.new.sink)) }
        ensures forest { IsForest (S.view.forest self.new.sink) }
        ensures memory { IfErr result (λ e. e ≡ Memory) }
    {
        while let Some(current) = self.current_node() {
            if set.contains(self.sink.elem_name(current)) {
                return Ok(());
            }
            self.pop()?;
        }
        Ok(())
    }

    /// Closes the list item or the definition of a set that stands before any special element but `address`, `div` and
    /// `p`, where there is one (WHATWG HTML, 13.2.6.4.7, start tags "li", "dd" and "dt").
    pub fn close_item(&mut self, set: ElementSet<'_>) -> Result<(), ParseFault>
        requires { Sound (seen S.view self.old.held self.old.sink) }
        ensures seen { OnOk result (seen S.view self.new.held self.new.sink ≡ with_closed_item (elements_of set.entry)
            (seen S.view self.old.held self.old.sink)) }
        ensures sound { OnOk result (Sound (seen S.view self.new.held self.new.sink)) }
        ensures forest { IsForest (S.view.forest self.new.sink) }
        ensures memory { IfErr result (λ e. e ≡ Memory) }
    {
        if self.has_item(set) {
            self.generate_implied_end_tags(set)?;
            self.pop_to(set)?;
        }
        Ok(())
    }

    // whether an element of a set stands before any special element but those three
    fn has_item(&self, set: ElementSet<'_>) -> bool
        requires { Sound (seen S.view self.now.held self.now.sink) }
        ensures { result ≡ is_item_open (elements_of set.entry) (S.view.forest self.now.sink)
            (seen S.view self.now.held self.now.sink).stack }
    {
        if self.held.counts().has_none(set) {
            return false;
        }
        let mut open = self.held.open_elements();
        while let Some((element, lower)) = open.split_last() {
            let name = self.sink.elem_name(*element);
            if set.contains(name) {
                return true;
            }
            if ends_item(name) {
                return false;
            }
            open = lower;
        }
        false
    }
}

// whether an item is not looked for above an element of that name
fn ends_item(name: &QualName) -> bool
    ensures { result ≡ is_item_barrier name.now }
{
    is_special(name) && !is_address_div_or_p(name)
}
