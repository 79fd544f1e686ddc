//! The "before head" insertion mode (WHATWG HTML, 13.2.6.4.3).
ghost use Rattle.rules_actions.specs.Follows.{Follows};
ghost use Rattle.rules_actions.specs.Parsed.{state_of};
ghost use Rattle.rules_table.specs.Settling.{Ready};
ghost use Rattle.rules_table.specs.BeforeHead.{before_head_end, before_head_start, head_made};
ghost use Rattle.rules_table.specs.Rows.{again};

use crate::html_tag::html_start;
use html_lexemes::{ParseFault, Tag};
use rules_actions::{Flow, Parse};
use tree_forest::TreeSink;
use tree_names::TagGroup;
use tree_predicates::InsertionMode;

/// A start tag.
pub fn before_head_start<S: TreeSink>(
    page: &mut Parse<S>,
    group: TagGroup,
    tag: &Tag,
) -> Result<Flow<S::Handle>, ParseFault>
    requires ready { Ready (state_of S.view page.old) }
    ensures { Follows S.view (before_head_start group tag.now (state_of S.view page.old)) page.old page.new result }
{
    match group {
        TagGroup::Html => html_start(page, tag),
        TagGroup::Head => {
            page.insert(tag)?;
            page.keep_head();
            page.go_to(InsertionMode::InHead);
            Ok(Flow::Done)
        }
        _ => make_head(page),
    }
}

/// An end tag.
pub fn before_head_end<S: TreeSink>(
    page: &mut Parse<S>,
    group: TagGroup,
) -> Result<Flow<S::Handle>, ParseFault>
    requires ready { Ready (state_of S.view page.old) }
    ensures { Follows S.view (before_head_end group) page.old page.new result }
{
    match group {
        TagGroup::Head | TagGroup::Body | TagGroup::Html | TagGroup::LineBreak => make_head(page),
        _ => Ok(Flow::Done),
    }
}

/// Anything else: the head is made.
pub fn make_head<S: TreeSink>(page: &mut Parse<S>) -> Result<Flow<S::Handle>, ParseFault>
    requires ready { Ready (state_of S.view page.old) }
    ensures { Follows S.view (again head_made) page.old page.new result }
{
    page.insert_named("head")?;
    page.keep_head();
    page.go_to(InsertionMode::InHead);
    Ok(Flow::Again)
}
