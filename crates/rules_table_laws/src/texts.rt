//! Laws of runs of text.
ghost use Rattle.rules_table_laws.specs.TextRuns.{TextRuns};

use crate::ranks::{a_mark_comes_to_what_its_rule_gives, the_rank_falls};
use html_tree_state::words_keep_a_tree_sound;
use rules_table::actions_keep_what_is_ready;
use tree_forest::{
    elements_stay, how_many_nodes_there_are, what_was_made_may_be_put, what_was_not_named_stays,
};

/// A run that a mode treats alike comes to what one action with all of it makes.
pub fn runs_of_text()
    ensures { TextRuns }
{
    a_mark_comes_to_what_its_rule_gives();
    the_rank_falls();
    actions_keep_what_is_ready();
    words_keep_a_tree_sound();
    elements_stay();
    how_many_nodes_there_are();
    what_was_made_may_be_put();
    what_was_not_named_stays();
}
