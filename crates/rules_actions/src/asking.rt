//! What rules ask (WHATWG HTML, 13.2.4.2 and 13.2.4.4).
ghost use Rattle.std.specs.Prelude.{◌≡◌, IfSome, option_map, true};
ghost use Rattle.rules_actions.specs.Parsed.{state_of};
ghost use Rattle.tree_names.specs.Wanted.{elements_of};
ghost use Rattle.tree_forest.specs.Forest.{is_in};
ghost use Rattle.rules_table.specs.Asking.{body_of, collects_text, current_is, first_opened, has_form, has_template};
ghost use Rattle.rules_table.specs.Asking.{in_button_scope, in_list_item_scope, in_scope, in_table_scope};
ghost use Rattle.rules_table.specs.Asking.{is_itself_in_scope, second_opened};
ghost use Rattle.rules_table.specs.Settling.{Ready};

use crate::parse::Parse;
use rules_table::open_elements_are_elements;
use tree_forest::TreeSink;
use tree_names::{ElementSet, Scope, collects_table_text, is_html};

impl<S: TreeSink> Parse<S> {
    /// Whether an element of a set is in scope.
    pub fn in_scope(&self, wanted: ElementSet<'_>) -> bool
        requires { Ready (state_of S.view self.now) }
        ensures { result ≡ in_scope (elements_of wanted.entry) (state_of S.view self.now) }
    {
        self.tree.in_scope(Scope::Default, wanted)
    }

    /// Whether an element of a set is in list item scope.
    pub fn in_list_item_scope(&self, wanted: ElementSet<'_>) -> bool
        requires { Ready (state_of S.view self.now) }
        ensures { result ≡ in_list_item_scope (elements_of wanted.entry) (state_of S.view self.now) }
    {
        self.tree.in_scope(Scope::ListItemScope, wanted)
    }

    /// Whether an element of a set is in button scope.
    pub fn in_button_scope(&self, wanted: ElementSet<'_>) -> bool
        requires { Ready (state_of S.view self.now) }
        ensures { result ≡ in_button_scope (elements_of wanted.entry) (state_of S.view self.now) }
    {
        self.tree.in_scope(Scope::ButtonScope, wanted)
    }

    /// Whether an element of a set is in table scope.
    pub fn in_table_scope(&self, wanted: ElementSet<'_>) -> bool
        requires { Ready (state_of S.view self.now) }
        ensures { result ≡ in_table_scope (elements_of wanted.entry) (state_of S.view self.now) }
    {
        self.tree.in_scope(Scope::TableScope, wanted)
    }

    /// Whether an element itself is in scope.
    pub fn is_itself_in_scope(&self, element: S::Handle) -> bool
        requires { Ready (state_of S.view self.now) }
        ensures { result ≡ is_itself_in_scope (S.view.number element) (state_of S.view self.now) }
    {
        self.tree.is_element_in_scope(element)
    }

    /// Whether a template is open.
    pub fn has_template(&self) -> bool
        requires { Ready (state_of S.view self.now) }
        ensures { result ≡ has_template (state_of S.view self.now) }
    {
        self.tree.has_open(ElementSet::Template)
    }

    /// Whether a form is open that no template holds.
    pub fn has_form(&self) -> bool
        requires { Ready (state_of S.view self.now) }
        ensures { result ≡ has_form (state_of S.view self.now) }
    {
        self.kept.form.is_some() && !self.has_template()
    }

    /// Whether the current node is one of a set.
    pub fn current_is(&self, wanted: ElementSet<'_>) -> bool
        requires { Ready (state_of S.view self.now) }
        ensures { result ≡ current_is (elements_of wanted.entry) (state_of S.view self.now) }
    {
        match self.tree.current_node() {
            Some(current) => wanted.contains(self.tree.sink.elem_name(current)),
            None => false,
        }
    }

    /// Whether text is a table's: the current node is a part of a table, or a template.
    pub fn collects_text(&self) -> bool
        requires { Ready (state_of S.view self.now) }
        ensures { result ≡ collects_text (state_of S.view self.now) }
    {
        match self.tree.current_node() {
            Some(current) => collects_table_text(self.tree.sink.elem_name(current)),
            None => false,
        }
    }

    /// The root, which was opened first.
    pub fn root(&self) -> Option<S::Handle>
        requires { Ready (state_of S.view self.now) }
        ensures root { option_map S.view.number result ≡ first_opened (state_of S.view self.now).tree.stack }
        ensures there { IfSome result (λ root. is_in (S.view.number root) (state_of S.view self.now).tree.stack
            ≡ true) }
    {
        self.tree.held.open_elements().first().copied()
    }

    /// The element that was opened second, where it is a body.
    pub fn body(&self) -> Option<S::Handle>
        requires { Ready (state_of S.view self.now) }
        ensures body { option_map S.view.number result ≡ body_of (state_of S.view self.now) }
        ensures there { IfSome result (λ body. is_in (S.view.number body) (state_of S.view self.now).tree.stack
            ≡ true) }
    {
        open_elements_are_elements();
        let second = self.second()?;
        if is_html(self.tree.sink.elem_name(second), "body") {
            Some(second)
        } else {
            None
        }
    }

    // the element that was opened second
    fn second(&self) -> Option<S::Handle>
        ensures second { option_map S.view.number result ≡ second_opened (state_of S.view self.now).tree.stack }
        ensures there { IfSome result (λ second. is_in (S.view.number second) (state_of S.view self.now).tree.stack
            ≡ true) }
    {
        self.tree.held.open_elements().get(1).copied()
    }
}
