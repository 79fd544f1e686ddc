//! The "in column group" insertion mode (WHATWG HTML, 13.2.6.4.12).
ghost use Rattle.rules_actions.specs.Follows.{Follows};
ghost use Rattle.rules_actions.specs.Parsed.{state_of};
ghost use Rattle.rules_table.specs.Settling.{Ready};
ghost use Rattle.rules_table.specs.InColumnGroup.{column_group_closed, in_column_group_end, in_column_group_start};
ghost use Rattle.rules_table.specs.InColumnGroup.{past_column_group};
ghost use Rattle.rules_table.specs.Rows.{again};

use html_lexemes::{ParseFault, Tag};
use rules_actions::{Flow, Parse};
use rules_head::{html_start, in_head_end, in_head_start};
use rules_table::Target;
use tree_forest::TreeSink;
use tree_names::{ElementSet, TagGroup};
use tree_predicates::InsertionMode;

/// A start tag.
pub fn in_column_group_start<S: TreeSink>(
    page: &mut Parse<S>,
    group: TagGroup,
    tag: &Tag,
) -> Result<Flow<S::Handle>, ParseFault>
    requires ready { Ready (state_of S.view page.old) }
    ensures { Follows S.view (in_column_group_start group tag.now (state_of S.view page.old)) page.old page.new result }
{
    match group {
        TagGroup::Html => html_start(page, tag),
        TagGroup::Column => {
            page.insert_void(tag)?;
            Ok(Flow::Done)
        }
        TagGroup::Template => in_head_start(page, Target::AtPlace, group, tag),
        _ => past_column_group(page),
    }
}

/// An end tag.
pub fn in_column_group_end<S: TreeSink>(
    page: &mut Parse<S>,
    group: TagGroup,
) -> Result<Flow<S::Handle>, ParseFault>
    requires ready { Ready (state_of S.view page.old) }
    ensures { Follows S.view (in_column_group_end group (state_of S.view page.old)) page.old page.new result }
{
    match group {
        TagGroup::ColumnGroup => {
            if !page.current_is(ElementSet::ColumnGroup) {
                return Ok(Flow::Done);
            }
            page.pop()?;
            page.go_to(InsertionMode::InTable);
            Ok(Flow::Done)
        }
        TagGroup::Column => Ok(Flow::Done),
        TagGroup::Template => in_head_end(page, group),
        _ => past_column_group(page),
    }
}

/// Anything else: a column group that is the current node is closed, and the table takes the token.
pub fn past_column_group<S: TreeSink>(page: &mut Parse<S>) -> Result<Flow<S::Handle>, ParseFault>
    requires ready { Ready (state_of S.view page.old) }
    ensures { Follows S.view (past_column_group (state_of S.view page.old)) page.old page.new result }
{
    if !page.current_is(ElementSet::ColumnGroup) {
        return Ok(Flow::Done);
    }
    close_column_group(page)
}

/// The column group is closed, and the table takes the token.
pub fn close_column_group<S: TreeSink>(page: &mut Parse<S>) -> Result<Flow<S::Handle>, ParseFault>
    requires ready { Ready (state_of S.view page.old) }
    ensures { Follows S.view (again column_group_closed) page.old page.new result }
{
    page.pop()?;
    page.go_to(InsertionMode::InTable);
    Ok(Flow::Again)
}
