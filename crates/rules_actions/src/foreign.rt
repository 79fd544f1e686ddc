//! What the rules for foreign content and framesets do to the tree (WHATWG HTML, 13.2.6.1, 13.2.6.4.7 and 13.2.6.5).
ghost use Rattle.std.specs.Prelude.{◌≡◌, IfErr, IfSome, OnOk, option_map};
ghost use Rattle.tree_forest.specs.Forest.{IsElement};
ghost use Rattle.html_lexemes.specs.declared.fault.ParseFault.TheVariants.{Memory};
ghost use Rattle.html_tree_state.specs.Foreign.{adjusted_current};
ghost use Rattle.rules_actions.specs.Parsed.{state_of};
ghost use Rattle.rules_table.specs.Settling.{Ready};
ghost use Rattle.rules_table.specs.Actions.{act, break_out, close_foreign, insert_foreign, take_out};

use crate::parse::Parse;
use html_lexemes::{LocalName, Namespace, ParseFault, QualName, Tag};
use html_tree_state::PushFlag;
use rules_table::{actions_keep_what_is_ready, adjusted_current_nodes_are_elements};
use tree_forest::{TreeSink, what_was_not_named_stays};

impl<S: TreeSink> Parse<S> {
    /// The adjusted current node: a fragment's context while no more than its root is open, else the current node
    /// (WHATWG HTML, 13.2.4.2).
    pub fn adjusted_current_node(&self) -> Option<S::Handle>
        requires ready { Ready (state_of S.view self.now) }
        ensures node { option_map S.view.number result ≡ adjusted_current (state_of S.view self.now).context
            (state_of S.view self.now).tree.stack }
        ensures there { IfSome result (λ node. IsElement (S.view.number node) (S.view.forest self.now.tree.sink)) }
    {
        adjusted_current_nodes_are_elements();
        let node = self.tree.adjusted_current_node(self.kept.context)?;
        Some(node)
    }

    /// An element is inserted for a tag in a namespace; one that closes itself is popped at once.
    #[tactic(auto, unfolding(rules_table::specs::Actions::act))]
    pub fn insert_foreign(&mut self, ns: Namespace, tag: &Tag) -> Result<(), ParseFault>
        requires ready { Ready (state_of S.view self.old) }
        ensures seen { OnOk result (state_of S.view self.new ≡ act (insert_foreign ns tag.now)
            (state_of S.view self.old)) }
        ensures ready { OnOk result (Ready (state_of S.view self.new)) }
        ensures memory { IfErr result (λ e. e ≡ Memory) }
    {
        actions_keep_what_is_ready();
        let name = QualName::new(ns, tag.name.try_clone()?);
        let attrs = tag.attrs.try_clone()?;
        let push = if tag.self_closing {
            PushFlag::NoPush
        } else {
            PushFlag::Push
        };
        self.tree.insert_element(push, name, attrs)?;
        Ok(())
    }

    /// Elements are popped until breaking out of foreign content stops.
    #[tactic(auto, unfolding(rules_table::specs::Actions::act))]
    pub fn break_out(&mut self) -> Result<(), ParseFault>
        requires ready { Ready (state_of S.view self.old) }
        ensures seen { OnOk result (state_of S.view self.new ≡ act break_out (state_of S.view self.old)) }
        ensures ready { OnOk result (Ready (state_of S.view self.new)) }
        ensures memory { IfErr result (λ e. e ≡ Memory) }
    {
        actions_keep_what_is_ready();
        self.tree.break_out_of_foreign_content()?;
        Ok(())
    }

    /// An element of foreign content is closed that has a name.
    #[tactic(auto, unfolding(rules_table::specs::Actions::act))]
    pub fn close_foreign(&mut self, name: &LocalName) -> Result<(), ParseFault>
        requires ready { Ready (state_of S.view self.old) }
        ensures seen { OnOk result (state_of S.view self.new
            ≡ act (close_foreign name.now) (state_of S.view self.old)) }
        ensures ready { OnOk result (Ready (state_of S.view self.new)) }
        ensures memory { IfErr result (λ e. e ≡ Memory) }
    {
        actions_keep_what_is_ready();
        self.tree.process_end_tag_in_foreign_content(name)?;
        Ok(())
    }

    /// A node is taken out of the tree; it stays open.
    #[tactic(auto, unfolding(rules_table::specs::Actions::act))]
    pub fn take_out(&mut self, element: S::Handle) -> Result<(), ParseFault>
        requires ready { Ready (state_of S.view self.old) }
        ensures seen { OnOk result (state_of S.view self.new ≡ act (take_out (S.view.number element))
            (state_of S.view self.old)) }
        ensures ready { OnOk result (Ready (state_of S.view self.new)) }
        ensures memory { IfErr result (λ e. e ≡ Memory) }
    {
        actions_keep_what_is_ready();
        what_was_not_named_stays();
        self.tree.sink.remove_from_parent(element)?;
        Ok(())
    }
}
