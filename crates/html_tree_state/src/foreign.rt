//! Foreign content and the open elements (WHATWG HTML, 13.2.6 and 13.2.6.5).
ghost use Rattle.std.specs.Prelude.{◌≡◌, IfErr, IfOk, OnOk, is_some, option_map};
ghost use Rattle.tree_forest.specs.Orders.{IsForest};
ghost use Rattle.html_lexemes.specs.declared.fault.ParseFault.TheVariants.{Memory};
ghost use Rattle.tree_model.specs.Building.{seen};
ghost use Rattle.tree_model.specs.Foreign.{adjusted_current, broken_out, closed_by_foreign_end, named_foreign};
ghost use Rattle.tree_model.specs.Sound.{Sound};

use crate::construction::Construction;
use html_lexemes::{LocalName, ParseFault};
use tree_forest::TreeSink;
use tree_predicates::{closes_foreign, is_of_html, stops_break_out};

impl<S: TreeSink> Construction<S> {
    /// The adjusted current node: a fragment's context while no more than its root is open, else the current node.
    pub fn adjusted_current_node(&self, context: Option<S::Handle>) -> Option<S::Handle>
        ensures { option_map S.view.number result ≡ adjusted_current (option_map S.view.number context)
            (seen S.view self.now.held self.now.sink).stack }
    {
        match context {
            Some(context) if self.held.open_elements().len() <= 1 => Some(context),
            _ => self.current_node(),
        }
    }

    /// Pops the open elements until breaking out of foreign content stops at the current node.
    pub fn break_out_of_foreign_content(&mut self) -> Result<(), ParseFault>
        requires { Sound (seen S.view self.old.held self.old.sink) }
        ensures seen { OnOk result (seen S.view self.new.held self.new.sink ≡ broken_out (seen S.view self.old.held
            self.old.sink)) }
        ensures sound { OnOk result (Sound (seen S.view self.new.held self.new.sink)) }
        ensures forest { IsForest (S.view.forest self.new.sink) }
        ensures memory { IfErr result (λ e. e ≡ Memory) }
    {
        while let Some(current) = self.current_node() {
            let is_point = self
                .sink
                .is_mathml_annotation_xml_integration_point(current);
            if stops_break_out(self.sink.elem_name(current), is_point) {
                return Ok(());
            }
            self.pop()?;
        }
        Ok(())
    }

    /// Pops the open elements up to the first one of an end tag's name that stands before any element of HTML ("any
    /// other end tag" in foreign content). Where there is none the answer is `false`: the rules of the insertion mode
    /// take the tag.
    pub fn process_end_tag_in_foreign_content(
        &mut self,
        name: &LocalName,
    ) -> Result<bool, ParseFault>
        requires { Sound (seen S.view self.old.held self.old.sink) }
        ensures closed { IfOk result (λ closed. closed ≡ is_some (named_foreign name.now (S.view.forest self.old.sink)
            (seen S.view self.old.held self.old.sink).stack)) }
        ensures seen { OnOk result (seen S.view self.new.held self.new.sink ≡ closed_by_foreign_end name.now
            (seen S.view self.old.held self.old.sink)) }
        ensures sound { OnOk result (Sound (seen S.view self.new.held self.new.sink)) }
        ensures forest { IsForest (S.view.forest self.new.sink) }
        ensures memory { IfErr result (λ e. e ≡ Memory) }
    {
        let Some(element) = self.foreign_element(name) else {
            return Ok(false);
        };
        self.pop_with(element)?;
        Ok(true)
    }

    // the first element of an end tag's name from the current node up, where no element of HTML stands before it
    fn foreign_element(&self, name: &LocalName) -> Option<S::Handle>
        requires { Sound (seen S.view self.now.held self.now.sink) }
        ensures { option_map S.view.number result ≡ named_foreign name.now (S.view.forest self.now.sink)
            (seen S.view self.now.held self.now.sink).stack }
    {
        if self.held.counts().has_no_foreign(name) {
            return None;
        }
        let mut open = self.held.open_elements();
        while let Some((element, lower)) = open.split_last() {
            let found = self.sink.elem_name(*element);
            if is_of_html(&found.ns) {
                return None;
            }
            if closes_foreign(found, name) {
                return Some(*element);
            }
            open = lower;
        }
        None
    }
}
