//! Laws of text: what a page emits as text stands in its tree.
ghost use Rattle.std.specs.Prelude.{List};
ghost use Rattle.token_grammar.specs.Items.{Item};
ghost use Rattle.page_tree_laws.specs.KeptText.{IsAtBeginning, KeepsText, EmitsPlainTags};
ghost use Rattle.page_tree_laws.specs.PageTexts.{KeepsTextOfPage};
ghost use Rattle.rules_table.specs.State.{State};

use rules_table::actions_keep_what_is_ready;
use rules_table_laws::{a_mark_comes_to_what_its_rule_gives, the_rank_falls};

/// The items of a page, before its end: where no start tag of a template or a frameset is emitted, each character of
/// text but white space and U+FFFD stands in the tree, or among the pending characters of a table, as often as it was
/// emitted.
pub fn text_is_kept()
    ensures { (s : State) (items : List Item) → IsAtBeginning s → EmitsPlainTags items → KeepsText s items }
{
    actions_keep_what_is_ready();
    a_mark_comes_to_what_its_rule_gives();
    the_rank_falls();
}

/// A page, read by the grammar and built by the rule table: the same for its whole tree.
pub fn the_text_of_a_page_is_kept<H>()
    ensures { KeepsTextOfPage H }
{
    actions_keep_what_is_ready();
    a_mark_comes_to_what_its_rule_gives();
    the_rank_falls();
}
