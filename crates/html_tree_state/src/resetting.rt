//! Resetting the insertion mode, and the root (WHATWG HTML, 13.2.4.1).
ghost use Rattle.std.specs.Prelude.{◌≡◌, ◌<◌, length, option_map, slice_index_or};
ghost use Rattle.tree_model.specs.Building.{seen};
ghost use Rattle.tree_model.specs.Names.{names_of};
ghost use Rattle.tree_model.specs.Sound.{Sound};
ghost use Rattle.tree_predicates.specs.Modes.{reset_mode};

use crate::construction::Construction;
use html_lexemes::QualName;
use tree_forest::TreeSink;
use tree_predicates::{InsertionMode, own_mode, root_mode};

/// The root, which was opened first.
pub fn html_elem<H>(open_elems: &[H]) -> &H
    requires { 0 < length open_elems.now }
    ensures { result.now ≡ slice_index_or open_elems.now 0 result.now }
{
    &open_elems[0]
}

impl<S: TreeSink> Construction<S> {
    /// The insertion mode that the open elements ask for ("reset the insertion mode appropriately"). `context` is the
    /// name of a fragment's context, `has_head` says that the page's head is known, and `template_mode` is the mode of
    /// the template that was opened last.
    pub fn reset_insertion_mode(
        &self,
        context: Option<&QualName>,
        has_head: bool,
        template_mode: Option<InsertionMode>,
    ) -> InsertionMode
        requires { Sound (seen S.view self.now.held self.now.sink) }
        ensures { result ≡ reset_mode (option_map (λ name. name.now) context.entry) has_head template_mode
            (names_of (seen S.view self.now.held self.now.sink)) }
    {
        let mut open = self.held.open_elements();
        while let Some((element, lower)) = open.split_last() {
            let name = self.sink.elem_name(*element);
            if lower.is_empty() {
                return root_mode(context, name, has_head, template_mode);
            }
            if let Some(mode) = own_mode(name, false, has_head, template_mode) {
                return mode;
            }
            open = lower;
        }
        InsertionMode::InBody
    }
}
