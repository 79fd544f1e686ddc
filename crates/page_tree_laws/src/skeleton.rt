//! Laws of the skeleton of a page.
ghost use Rattle.page_tree_laws.specs.Skeleton.{HasSkeletonOfPage};

use rules_table::actions_keep_what_is_ready;
use rules_table_laws::{a_mark_comes_to_what_its_rule_gives, the_rank_falls};

/// A page, read by the grammar and built by the rule table from a document without elements: the document's one child
/// element is `html`, whose first two are `head`, and then `body` or, where a start tag `frameset` was emitted,
/// `frameset` (WHATWG HTML, 13.2.6.4.1 to 13.2.6.4.7).
pub fn a_page_has_its_skeleton<H>()
    ensures { HasSkeletonOfPage H }
{
    actions_keep_what_is_ready();
    a_mark_comes_to_what_its_rule_gives();
    the_rank_falls();
}
