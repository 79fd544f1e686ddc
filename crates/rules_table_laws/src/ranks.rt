//! Laws of ranks: each time a mark is taken again its rank has fallen.
ghost use Rattle.std.specs.Prelude.{◌≡◌};
ghost use Rattle.rules_table_laws.specs.Falls.{Falls};
ghost use Rattle.rules_table.specs.Rule.{rule};
ghost use Rattle.rules_table.specs.Settling.{Ready, given_by, taken};
ghost use Rattle.rules_table.specs.State.{TreeToken, State};

use html_tree_state::words_keep_a_tree_sound;
use rules_table::actions_keep_what_is_ready;
use tree_forest::{
    elements_stay, how_many_nodes_there_are, what_was_made_may_be_put, what_was_not_named_stays,
};

/// Where the rule hands a mark on, its rank falls.
pub fn the_rank_falls()
    ensures { (mark : TreeToken) (s : State) → Ready s → Falls mark s (rule mark s) }
{
    words_keep_a_tree_sound();
    actions_keep_what_is_ready();
    elements_stay();
    how_many_nodes_there_are();
    what_was_made_may_be_put();
    what_was_not_named_stays();
}

/// A mark comes to what its rule gives.
pub fn a_mark_comes_to_what_its_rule_gives()
    ensures { (mark : TreeToken) (s : State) → Ready s → taken mark s ≡ given_by (rule mark s) s (taken mark) }
{
    the_rank_falls();
    actions_keep_what_is_ready();
}
