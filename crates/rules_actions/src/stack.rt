//! What rules do to the stack of open elements and to the list of active formatting elements (WHATWG HTML, 13.2.4.2,
//! 13.2.4.3 and 13.2.6.3).
ghost use Rattle.std.specs.Prelude.{◌≡◌, ℕ, IfErr, OnOk, true};
ghost use Rattle.tree_forest.specs.Forest.{IsElement};
ghost use Rattle.html_lexemes.specs.declared.fault.ParseFault.TheVariants.{Memory};
ghost use Rattle.rules_actions.specs.Parsed.{state_of};
ghost use Rattle.rules_table.specs.Settling.{Ready};
ghost use Rattle.rules_table.specs.Actions.{act, adopt, adopt_in_scope, clear_to_marker, close_item, close_other};
ghost use Rattle.rules_table.specs.Actions.{close_p, imply_but, insert_formatting, pop, pop_down_to, pop_if, pop_to};
ghost use Rattle.rules_table.specs.Actions.{put_marker, reconstruct, take_off, unlist};
ghost use Rattle.tree_names.specs.Sets.{is_one_of};
ghost use Rattle.tree_names.specs.TagSets.{formatting};
ghost use Rattle.tree_names.specs.Wanted.{elements_of};

use crate::parse::Parse;
use html_lexemes::{LocalName, ParseFault, Tag};
use html_tree_state::words_keep_a_tree_sound;
use rules_table::actions_keep_what_is_ready;
use tree_forest::TreeSink;
use tree_names::{ElementSet, Scope};

impl<S: TreeSink> Parse<S> {
    /// The current node is popped.
    #[tactic(auto, unfolding(rules_table::specs::Actions::act))]
    pub fn pop(&mut self) -> Result<(), ParseFault>
        requires ready { Ready (state_of S.view self.old) }
        ensures seen { OnOk result (state_of S.view self.new ≡ act pop (state_of S.view self.old)) }
        ensures ready { OnOk result (Ready (state_of S.view self.new)) }
        ensures memory { IfErr result (λ e. e ≡ Memory) }
    {
        actions_keep_what_is_ready();
        self.tree.pop()?;
        Ok(())
    }

    /// The current node is popped, where it is one of a set.
    #[tactic(auto, unfolding(rules_table::specs::Actions::act))]
    pub fn pop_if(&mut self, set: ElementSet<'_>) -> Result<(), ParseFault>
        requires ready { Ready (state_of S.view self.old) }
        ensures seen { OnOk result (state_of S.view self.new ≡ act (pop_if (elements_of set.entry))
            (state_of S.view self.old)) }
        ensures ready { OnOk result (Ready (state_of S.view self.new)) }
        ensures memory { IfErr result (λ e. e ≡ Memory) }
    {
        actions_keep_what_is_ready();
        if self.current_is(set) {
            return self.pop();
        }
        Ok(())
    }

    /// The open elements up to the first one of a set are popped, and that one.
    #[tactic(auto, unfolding(rules_table::specs::Actions::act))]
    pub fn pop_to(&mut self, set: ElementSet<'_>) -> Result<(), ParseFault>
        requires ready { Ready (state_of S.view self.old) }
        ensures seen { OnOk result (state_of S.view self.new ≡ act (pop_to (elements_of set.entry))
            (state_of S.view self.old)) }
        ensures ready { OnOk result (Ready (state_of S.view self.new)) }
        ensures memory { IfErr result (λ e. e ≡ Memory) }
    {
        actions_keep_what_is_ready();
        self.tree.pop_to(set)?;
        Ok(())
    }

    /// The open elements up to the first one of a set are popped; that one stays.
    #[tactic(auto, unfolding(rules_table::specs::Actions::act))]
    pub fn pop_down_to(&mut self, set: ElementSet<'_>) -> Result<(), ParseFault>
        requires ready { Ready (state_of S.view self.old) }
        ensures seen { OnOk result (state_of S.view self.new ≡ act (pop_down_to (elements_of set.entry))
            (state_of S.view self.old)) }
        ensures ready { OnOk result (Ready (state_of S.view self.new)) }
        ensures memory { IfErr result (λ e. e ≡ Memory) }
    {
        actions_keep_what_is_ready();
        self.tree.pop_down_to(set)?;
        Ok(())
    }

    /// An element is taken off the stack.
    #[tactic(auto, unfolding(rules_table::specs::Actions::act))]
    pub fn take_off(&mut self, element: S::Handle)
        requires ready { Ready (state_of S.view self.old) }
        ensures seen { state_of S.view self.new ≡ act (take_off (S.view.number element)) (state_of S.view self.old) }
        ensures ready { Ready (state_of S.view self.new) }
    {
        actions_keep_what_is_ready();
        self.tree.remove_from_stack(element);
    }

    /// An element is taken off the stack; it is not looked for where none of its name is open.
    #[tactic(auto, unfolding(rules_table::specs::Actions::act))]
    pub fn take_off_element(&mut self, element: S::Handle)
        requires ready { Ready (state_of S.view self.old) }
        requires element { IsElement (S.view.number element) (S.view.forest self.old.tree.sink) }
        ensures seen { state_of S.view self.new ≡ act (take_off (S.view.number element)) (state_of S.view self.old) }
        ensures ready { Ready (state_of S.view self.new) }
    {
        actions_keep_what_is_ready();
        self.tree.remove_element_from_stack(element);
    }

    /// Implied end tags are generated, but for those of a set.
    #[tactic(auto, unfolding(rules_table::specs::Actions::act))]
    pub fn imply_but(&mut self, set: ElementSet<'_>) -> Result<(), ParseFault>
        requires ready { Ready (state_of S.view self.old) }
        ensures seen { OnOk result (state_of S.view self.new ≡ act (imply_but (elements_of set.entry))
            (state_of S.view self.old)) }
        ensures ready { OnOk result (Ready (state_of S.view self.new)) }
        ensures memory { IfErr result (λ e. e ≡ Memory) }
    {
        actions_keep_what_is_ready();
        self.tree.generate_implied_end_tags(set)?;
        Ok(())
    }

    /// A p element that is in button scope is closed.
    #[tactic(auto, unfolding(rules_table::specs::Actions::act))]
    pub fn close_p(&mut self) -> Result<(), ParseFault>
        requires ready { Ready (state_of S.view self.old) }
        ensures seen { OnOk result (state_of S.view self.new ≡ act close_p (state_of S.view self.old)) }
        ensures ready { OnOk result (Ready (state_of S.view self.new)) }
        ensures memory { IfErr result (λ e. e ≡ Memory) }
    {
        actions_keep_what_is_ready();
        self.tree.close_p_element_in_button_scope()?;
        Ok(())
    }

    /// A list item or a definition is closed.
    #[tactic(auto, unfolding(rules_table::specs::Actions::act))]
    pub fn close_item(&mut self, set: ElementSet<'_>) -> Result<(), ParseFault>
        requires ready { Ready (state_of S.view self.old) }
        ensures seen { OnOk result (state_of S.view self.new ≡ act (close_item (elements_of set.entry))
            (state_of S.view self.old)) }
        ensures ready { OnOk result (Ready (state_of S.view self.new)) }
        ensures memory { IfErr result (λ e. e ≡ Memory) }
    {
        actions_keep_what_is_ready();
        self.tree.close_item(set)?;
        Ok(())
    }

    /// An element is closed that no rule of its own closes ("any other end tag").
    #[tactic(auto, unfolding(rules_table::specs::Actions::act))]
    pub fn close_other(&mut self, name: &LocalName) -> Result<(), ParseFault>
        requires ready { Ready (state_of S.view self.old) }
        ensures seen { OnOk result (state_of S.view self.new ≡ act (close_other name.now) (state_of S.view self.old)) }
        ensures ready { OnOk result (Ready (state_of S.view self.new)) }
        ensures memory { IfErr result (λ e. e ≡ Memory) }
    {
        actions_keep_what_is_ready();
        self.tree.process_end_tag_in_body(name)?;
        Ok(())
    }

    /// An element with formatting is inserted for a tag, and listed.
    #[tactic(auto, unfolding(rules_table::specs::Actions::act))]
    pub fn insert_formatting(&mut self, tag: &Tag) -> Result<(), ParseFault>
        requires ready { Ready (state_of S.view self.old) }
        requires formatting { is_one_of formatting tag.now.name ≡ true }
        ensures seen { OnOk result (state_of S.view self.new ≡ act (insert_formatting tag.now)
            (state_of S.view self.old)) }
        ensures ready { OnOk result (Ready (state_of S.view self.new)) }
        ensures memory { IfErr result (λ e. e ≡ Memory) }
    {
        actions_keep_what_is_ready();
        let tag = tag.try_clone()?;
        self.tree.insert_formatting_element(tag)?;
        Ok(())
    }

    /// The active formatting elements are reconstructed.
    #[tactic(auto, unfolding(rules_table::specs::Actions::act))]
    pub fn reconstruct(&mut self) -> Result<(), ParseFault>
        requires ready { Ready (state_of S.view self.old) }
        ensures seen { OnOk result (state_of S.view self.new ≡ act reconstruct (state_of S.view self.old)) }
        ensures ready { OnOk result (Ready (state_of S.view self.new)) }
        ensures memory { IfErr result (λ e. e ≡ Memory) }
    {
        actions_keep_what_is_ready();
        self.tree.reconstruct_active_formatting_elements()?;
        Ok(())
    }

    /// A marker is put into the list of active formatting elements.
    #[tactic(auto, unfolding(rules_table::specs::Actions::act))]
    pub fn put_marker(&mut self) -> Result<(), ParseFault>
        requires ready { Ready (state_of S.view self.old) }
        ensures seen { OnOk result (state_of S.view self.new ≡ act put_marker (state_of S.view self.old)) }
        ensures ready { OnOk result (Ready (state_of S.view self.new)) }
        ensures memory { IfErr result (λ e. e ≡ Memory) }
    {
        actions_keep_what_is_ready();
        self.tree.insert_marker()?;
        Ok(())
    }

    /// The list of active formatting elements is cleared up to the last marker.
    #[tactic(auto, unfolding(rules_table::specs::Actions::act))]
    pub fn clear_to_marker(&mut self)
        requires ready { Ready (state_of S.view self.old) }
        ensures seen { state_of S.view self.new ≡ act clear_to_marker (state_of S.view self.old) }
        ensures ready { Ready (state_of S.view self.new) }
    {
        actions_keep_what_is_ready();
        self.tree.clear_active_formatting_to_marker();
    }

    /// An element's entry is taken off the list.
    #[tactic(auto, unfolding(rules_table::specs::Actions::act))]
    pub fn unlist(&mut self, element: S::Handle)
        requires ready { Ready (state_of S.view self.old) }
        ensures seen { state_of S.view self.new ≡ act (unlist (S.view.number element)) (state_of S.view self.old) }
        ensures ready { Ready (state_of S.view self.new) }
    {
        actions_keep_what_is_ready();
        self.tree.remove_from_list(element);
    }

    /// The adoption agency closes an element of a name. What was an element stays one.
    #[tactic(auto, unfolding(rules_table::specs::Actions::act))]
    pub fn adopt(&mut self, name: &LocalName) -> Result<(), ParseFault>
        requires ready { Ready (state_of S.view self.old) }
        ensures seen { OnOk result (state_of S.view self.new ≡ act (adopt name.now) (state_of S.view self.old)) }
        ensures elements { OnOk result ((n : ℕ) → IsElement n (S.view.forest self.old.tree.sink) → IsElement n
            (S.view.forest self.new.tree.sink)) }
        ensures ready { OnOk result (Ready (state_of S.view self.new)) }
        ensures memory { IfErr result (λ e. e ≡ Memory) }
    {
        actions_keep_what_is_ready();
        words_keep_a_tree_sound();
        self.tree.adoption_agency(name)?;
        Ok(())
    }

    /// An element of a name that is in scope is closed by the adoption agency, and what it leaves is reconstructed.
    #[tactic(auto, unfolding(rules_table::specs::Actions::act))]
    pub fn adopt_in_scope(&mut self, name: &LocalName) -> Result<(), ParseFault>
        requires ready { Ready (state_of S.view self.old) }
        ensures seen { OnOk result (state_of S.view self.new ≡ act (adopt_in_scope name.now)
            (state_of S.view self.old)) }
        ensures ready { OnOk result (Ready (state_of S.view self.new)) }
        ensures memory { IfErr result (λ e. e ≡ Memory) }
    {
        actions_keep_what_is_ready();
        if self.tree.in_scope(Scope::Default, ElementSet::Named(name)) {
            self.adopt(name)?;
            self.reconstruct()?;
        }
        Ok(())
    }
}
