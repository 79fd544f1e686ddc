//! What the adoption agency asks of the open elements (WHATWG HTML, 13.2.6.4.7).
ghost use Rattle.std.specs.Prelude.{◌≡◌, ◌<◌, ℕ, List, ◌∷◌, ◌++◌, IfSome, length, option_map};
ghost use Rattle.tree_formatting.specs.Entries.{last_named};
ghost use Rattle.tree_forest.specs.Forest.{IsElement, is_in};
ghost use Rattle.tree_names.specs.ElementSets.{scope_barriers};
ghost use Rattle.tree_model.specs.Adoption.{farther, furthest_block as furthest_block_of};
ghost use Rattle.tree_model.specs.Building.{seen};
ghost use Rattle.tree_model.specs.OpenElements.{first_of, up_to};
ghost use Rattle.tree_model.specs.Sound.{Sound};

use crate::construction::Construction;
use html_lexemes::LocalName;
use tree_forest::TreeSink;
use tree_model::{last_element, position};
use tree_names::{Scope, is_special};

impl<S: TreeSink> Construction<S> {
    /// Whether an element is open.
    pub fn is_open(&self, element: S::Handle) -> bool
        ensures { result ≡ is_in (S.view.number element) (seen S.view self.now.held self.now.sink).stack }
    {
        position(self.held.open_elements(), &self.sink, element).is_some()
    }

    /// Whether an element is open; it is not looked for where no element of its name is.
    pub fn is_element_open(&self, element: S::Handle) -> bool
        requires sound { Sound (seen S.view self.now.held self.now.sink) }
        requires element { IsElement (S.view.number element) (S.view.forest self.now.sink) }
        ensures { result ≡ is_in (S.view.number element) (seen S.view self.now.held self.now.sink).stack }
    {
        if self
            .held
            .counts()
            .has_none_named(self.sink.elem_name(element))
        {
            return false;
        }
        self.is_open(element)
    }

    /// The latest element after the last marker whose tag has a name.
    pub fn last_listed(&self, name: &LocalName) -> Option<S::Handle>
        requires { Sound (seen S.view self.now.held self.now.sink) }
        ensures named { option_map S.view.number result ≡ last_named name.now (seen S.view self.now.held
            self.now.sink).formatting }
        ensures element { IfSome result (λ element. IsElement (S.view.number element) (S.view.forest self.now.sink)) }
    {
        let element = self.held.formatting().last_named(name)?;
        Some(element)
    }

    /// Whether an element is in scope: it stands before the first barrier, or is that barrier.
    pub fn is_element_in_scope(&self, element: S::Handle) -> bool
        requires { Sound (seen S.view self.now.held self.now.sink) }
        ensures { result ≡ is_in (S.view.number element) (up_to scope_barriers (S.view.forest self.now.sink)
            (seen S.view self.now.held self.now.sink).stack) }
    {
        let mut open = self.held.open_elements();
        while let Some((node, lower)) = open.split_last() {
            if self.sink.same_node(*node, element) {
                return true;
            }
            if Scope::Default.ends_at(self.sink.elem_name(*node)) {
                return false;
            }
            open = lower;
        }
        false
    }

    /// The furthest block: of the special elements that are nearer to the current node than an element, the farthest.
    pub(crate) fn furthest_block(&self, element: S::Handle) -> Option<S::Handle>
        requires { Sound (seen S.view self.now.held self.now.sink) }
        ensures { option_map S.view.number result ≡ furthest_block_of (S.view.number element)
            (seen S.view self.now.held self.now.sink) }
    {
        let mut open = self.held.open_elements();
        let mut block = None;
        while let Some((node, lower)) = open.split_last() {
            if self.sink.same_node(*node, element) {
                return block;
            }
            if is_special(self.sink.elem_name(*node)) {
                block = Some(*node);
            }
            open = lower;
        }
        block
    }

    /// What an open element stands in: the open element above it, if there is one.
    pub(crate) fn element_above(&self, element: S::Handle) -> Option<S::Handle>
        ensures { option_map S.view.number result ≡ first_of (farther (S.view.number element)
            (seen S.view self.now.held self.now.sink).stack) }
    {
        let open = self.held.open_elements();
        match position(open, &self.sink, element) {
            Some(at) => last_element(&open[..at]),
            None => None,
        }
    }

    /// The open element that has so many before it.
    pub(crate) fn element_at(&self, index: usize) -> S::Handle
        requires { index < length self.now.held.open_elements }
        ensures { (tops : List ℕ) (n : ℕ) (lows : List ℕ) → (seen S.view self.now.held self.now.sink).stack ≡ tops ++ n
            ∷ lows → length lows ≡ index → S.view.number result ≡ n }
    {
        self.held.open_elements()[index]
    }
}
