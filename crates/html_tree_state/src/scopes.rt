//! Scopes (WHATWG HTML, 13.2.4.2).
ghost use Rattle.std.specs.Prelude.{◌≡◌};
ghost use Rattle.tree_model.specs.Building.{seen};
ghost use Rattle.tree_model.specs.Scopes.{is_in_scope};
ghost use Rattle.tree_names.specs.Wanted.{barriers_of, elements_of};
ghost use Rattle.tree_model.specs.Sound.{Sound};

use crate::construction::Construction;
use tree_forest::TreeSink;
use tree_names::{ElementSet, Scope};

impl<S: TreeSink> Construction<S> {
    /// Whether an element of a set is in a scope: from the current node up it stands before the first barrier, or is
    /// that barrier.
    pub fn in_scope(&self, scope: Scope, wanted: ElementSet<'_>) -> bool
        requires { Sound (seen S.view self.now.held self.now.sink) }
        ensures { result ≡ is_in_scope (barriers_of scope) (elements_of wanted.entry) (seen S.view self.now.held
            self.now.sink) }
    {
        if self.held.counts().has_none(wanted) {
            return false;
        }
        let mut open = self.held.open_elements();
        while let Some((element, below)) = open.split_last() {
            let name = self.sink.elem_name(*element);
            if wanted.contains(name) {
                return true;
            }
            if scope.ends_at(name) {
                return false;
            }
            open = below;
        }
        false
    }
}
