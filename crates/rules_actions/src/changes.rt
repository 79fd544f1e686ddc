//! What rules do to modes, pointers and flags (WHATWG HTML, 13.2.4).
ghost use Rattle.std.specs.Prelude.{◌≡◌, IfErr, OnOk, chars, fold};
ghost use Rattle.html_lexemes.specs.declared.fault.ParseFault.TheVariants.{Memory};
ghost use Rattle.rules_actions.specs.Parsed.{state_of};
ghost use Rattle.rules_table.specs.Settling.{Ready};
ghost use Rattle.rules_table.specs.Actions.{act, forget_form, forget_pending, go_back, go_to, hold_mode, keep_form};
ghost use Rattle.rules_table.specs.Actions.{keep_head, keep_pending, mode_by_elements, pop_template_mode};
ghost use Rattle.rules_table.specs.Actions.{push_template_mode, refuse_frameset, reset, skip_next_line_feed};

use crate::parse::Parse;
use html_lexemes::{ParseFault, Text};
use rules_table::{actions_keep_what_is_ready, but_text, out_of_text};
use tree_forest::TreeSink;
use tree_predicates::InsertionMode;

impl<S: TreeSink> Parse<S> {
    /// The mode becomes another.
    #[tactic(auto, unfolding(rules_table::specs::Actions::act))]
    pub fn go_to(&mut self, mode: InsertionMode)
        requires ready { Ready (state_of S.view self.old) }
        ensures seen { state_of S.view self.new ≡ act (go_to mode) (state_of S.view self.old) }
        ensures ready { Ready (state_of S.view self.new) }
    {
        actions_keep_what_is_ready();
        self.kept.mode = but_text(mode);
    }

    /// The mode is kept as the original one.
    #[tactic(auto, unfolding(rules_table::specs::Actions::act))]
    pub fn hold_mode(&mut self)
        requires ready { Ready (state_of S.view self.old) }
        ensures seen { state_of S.view self.new ≡ act hold_mode (state_of S.view self.old) }
        ensures ready { Ready (state_of S.view self.new) }
    {
        actions_keep_what_is_ready();
        self.kept.original = self.kept.mode;
    }

    /// The mode becomes the original one.
    #[tactic(auto, unfolding(rules_table::specs::Actions::act))]
    pub fn go_back(&mut self)
        requires ready { Ready (state_of S.view self.old) }
        ensures seen { state_of S.view self.new ≡ act go_back (state_of S.view self.old) }
        ensures ready { Ready (state_of S.view self.new) }
    {
        actions_keep_what_is_ready();
        self.kept.mode = out_of_text(self.kept.original);
    }

    /// A template is opened that has a mode.
    #[tactic(auto, unfolding(rules_table::specs::Actions::act))]
    pub fn push_template_mode(&mut self, mode: InsertionMode) -> Result<(), ParseFault>
        requires ready { Ready (state_of S.view self.old) }
        ensures seen { OnOk result (state_of S.view self.new ≡ act (push_template_mode mode)
            (state_of S.view self.old)) }
        ensures ready { OnOk result (Ready (state_of S.view self.new)) }
        ensures memory { IfErr result (λ e. e ≡ Memory) }
    {
        actions_keep_what_is_ready();
        self.kept.template_modes.push(mode)?;
        Ok(())
    }

    /// The last template's mode is dropped.
    #[tactic(auto, unfolding(rules_table::specs::Actions::act))]
    pub fn pop_template_mode(&mut self)
        requires ready { Ready (state_of S.view self.old) }
        ensures seen { state_of S.view self.new ≡ act pop_template_mode (state_of S.view self.old) }
        ensures ready { Ready (state_of S.view self.new) }
    {
        actions_keep_what_is_ready();
        self.kept.template_modes.pop();
    }

    /// The current node is the head.
    #[tactic(auto, unfolding(rules_table::specs::Actions::act))]
    pub fn keep_head(&mut self)
        requires ready { Ready (state_of S.view self.old) }
        ensures seen { state_of S.view self.new ≡ act keep_head (state_of S.view self.old) }
        ensures ready { Ready (state_of S.view self.new) }
    {
        actions_keep_what_is_ready();
        self.kept.head = self.tree.current_node();
    }

    /// The current node is the form.
    #[tactic(auto, unfolding(rules_table::specs::Actions::act))]
    pub fn keep_form(&mut self)
        requires ready { Ready (state_of S.view self.old) }
        ensures seen { state_of S.view self.new ≡ act keep_form (state_of S.view self.old) }
        ensures ready { Ready (state_of S.view self.new) }
    {
        actions_keep_what_is_ready();
        self.kept.form = self.tree.current_node();
    }

    /// No form is open.
    #[tactic(auto, unfolding(rules_table::specs::Actions::act))]
    pub fn forget_form(&mut self)
        requires ready { Ready (state_of S.view self.old) }
        ensures seen { state_of S.view self.new ≡ act forget_form (state_of S.view self.old) }
        ensures ready { Ready (state_of S.view self.new) }
    {
        actions_keep_what_is_ready();
        self.kept.form = None;
    }

    /// No frameset may take the body's place.
    #[tactic(auto, unfolding(rules_table::specs::Actions::act))]
    pub fn refuse_frameset(&mut self)
        requires ready { Ready (state_of S.view self.old) }
        ensures seen { state_of S.view self.new ≡ act refuse_frameset (state_of S.view self.old) }
        ensures ready { Ready (state_of S.view self.new) }
    {
        actions_keep_what_is_ready();
        self.kept.frameset_ok = false;
    }

    /// A line feed that comes next is left out.
    #[tactic(auto, unfolding(rules_table::specs::Actions::act))]
    pub fn skip_next_line_feed(&mut self)
        requires ready { Ready (state_of S.view self.old) }
        ensures seen { state_of S.view self.new ≡ act skip_next_line_feed (state_of S.view self.old) }
        ensures ready { Ready (state_of S.view self.new) }
    {
        actions_keep_what_is_ready();
        self.kept.skip_lf = true;
    }

    /// The mode is reset to what the open elements ask for (WHATWG HTML, 13.2.4.1).
    #[tactic(auto, unfolding(rules_table::specs::Actions::act))]
    pub fn reset(&mut self)
        requires ready { Ready (state_of S.view self.old) }
        ensures seen { state_of S.view self.new ≡ act reset (state_of S.view self.old) }
        ensures ready { Ready (state_of S.view self.new) }
    {
        actions_keep_what_is_ready();
        self.kept.mode = but_text(self.mode_by_elements());
    }

    // the mode that the open elements ask for
    fn mode_by_elements(&self) -> InsertionMode
        requires { Ready (state_of S.view self.now) }
        ensures { result ≡ mode_by_elements (state_of S.view self.now) }
    {
        let has_head = self.kept.head.is_some();
        let template_mode = self.kept.template_modes.last().copied();
        match self.kept.context {
            Some(context) => {
                let name = self.tree.sink.elem_name(context);
                self.tree
                    .reset_insertion_mode(Some(name), has_head, template_mode)
            }
            None => self
                .tree
                .reset_insertion_mode(None, has_head, template_mode),
        }
    }

    /// The pending characters are dropped.
    #[tactic(auto, unfolding(rules_table::specs::Actions::act))]
    pub fn forget_pending(&mut self)
        requires ready { Ready (state_of S.view self.old) }
        ensures seen { state_of S.view self.new ≡ act forget_pending (state_of S.view self.old) }
        ensures ready { Ready (state_of S.view self.new) }
    {
        actions_keep_what_is_ready();
        self.kept.pending = Text::from(String::new(*self.kept.template_modes.allocator()));
    }

    /// Characters are put after the pending ones.
    #[tactic(auto, unfolding(rules_table::specs::Actions::act))]
    pub fn keep_pending(&mut self, more: &str) -> Result<(), ParseFault>
        requires ready { Ready (state_of S.view self.old) }
        ensures seen { OnOk result (state_of S.view self.new ≡ fold (λ s c. act (keep_pending c) s)
            (state_of S.view self.old) (chars more.now)) }
        ensures ready { OnOk result (Ready (state_of S.view self.new)) }
        ensures memory { IfErr result (λ e. e ≡ Memory) }
    {
        actions_keep_what_is_ready();
        self.kept.pending.push_str(more)?;
        Ok(())
    }
}
