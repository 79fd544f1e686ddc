//! Scripts that must not run (WHATWG HTML, 13.2.6.4.4 and 13.2.6.4.8).
ghost use Rattle.std.specs.Prelude.{◌≡◌, IfErr, IfSome};
ghost use Rattle.tree_forest.specs.Forest.{IsElement};
ghost use Rattle.html_lexemes.specs.declared.fault.ParseFault.TheVariants.{Memory};
ghost use Rattle.rules_actions.specs.Parsed.{state_of};
ghost use Rattle.rules_table.specs.Settling.{Ready};

use crate::parse::Parse;
use html_lexemes::ParseFault;
use tree_forest::TreeSink;
use tree_names::is_html;

impl<S: TreeSink> Parse<S> {
    /// The sink of trees is notified that the current node must not run, where it is a script. No node changes.
    pub fn mark_script(&mut self) -> Result<(), ParseFault>
        requires ready { Ready (state_of S.view self.old) }
        ensures seen { state_of S.view self.new ≡ state_of S.view self.old }
        ensures ready { Ready (state_of S.view self.new) }
        ensures memory { IfErr result (λ e. e ≡ Memory) }
    {
        let Some(script) = self.open_script() else {
            return Ok(());
        };
        self.tree.sink.mark_script_already_started(script)
    }

    /// The same of a fragment alone.
    pub fn mark_script_of_fragment(&mut self) -> Result<(), ParseFault>
        requires ready { Ready (state_of S.view self.old) }
        ensures seen { state_of S.view self.new ≡ state_of S.view self.old }
        ensures ready { Ready (state_of S.view self.new) }
        ensures memory { IfErr result (λ e. e ≡ Memory) }
    {
        if self.kept.context.is_none() {
            return Ok(());
        }
        self.mark_script()
    }

    // the current node, where it is a script
    fn open_script(&self) -> Option<S::Handle>
        requires { Ready (state_of S.view self.now) }
        ensures { IfSome result (λ script. IsElement (S.view.number script) (S.view.forest self.now.tree.sink)) }
    {
        let current = self.tree.current_node()?;
        if is_html(self.tree.sink.elem_name(current), "script") {
            Some(current)
        } else {
            None
        }
    }
}
