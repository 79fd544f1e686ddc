//! Laws of the rule table.
ghost use Rattle.std.specs.Prelude.{◌≡◌, ℕ, List, ◌++◌, Some, true};
ghost use Rattle.tree_forest.specs.Forest.{IsElement, is_in};
ghost use Rattle.token_grammar.specs.Items.{characters};
ghost use Rattle.html_tree_state.specs.Foreign.{adjusted_current};
ghost use Rattle.rules_table.specs.Actions.{Action, act};
ghost use Rattle.rules_table.specs.Settling.{Ready, step};
ghost use Rattle.rules_table.specs.State.{State};

use html_tree_state::words_keep_a_tree_sound;
use tree_forest::elements_stay;

/// Two texts that follow each other are taken as one.
pub fn texts_join()
    ensures { (s : State) (cs ds : List ℕ) →
        step (step s (characters cs)) (characters ds) ≡ step s (characters (cs ++ ds)) }
{}

/// Each action keeps what holds between two items of a page.
pub fn actions_keep_what_is_ready()
    ensures { (action : Action) (s : State) → Ready s → Ready (act action s) }
{
    words_keep_a_tree_sound();
    elements_stay();
}

/// The adjusted current node is an element: an open one, or a fragment's context.
pub fn adjusted_current_nodes_are_elements()
    ensures { (n : ℕ) (s : State) → Ready s → adjusted_current s.context s.tree.stack ≡ Some n →
        IsElement n s.tree.forest }
{}

/// What is open is an element.
pub fn open_elements_are_elements()
    ensures { (n : ℕ) (s : State) → Ready s → is_in n s.tree.stack ≡ true → IsElement n s.tree.forest }
{}
