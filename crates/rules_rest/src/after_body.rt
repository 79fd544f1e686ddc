//! The "after body" insertion mode (WHATWG HTML, 13.2.6.4.17).
ghost use Rattle.rules_actions.specs.Follows.{Follows};
ghost use Rattle.rules_actions.specs.Parsed.{state_of};
ghost use Rattle.rules_table.specs.Settling.{Ready};
ghost use Rattle.rules_table.specs.AfterBody.{after_body_comment, after_body_end, after_body_end_of_file};
ghost use Rattle.rules_table.specs.AfterBody.{after_body_start, body_again};
ghost use Rattle.rules_table.specs.Rows.{again};

use crate::page_end::stop_parsing;
use html_lexemes::{ParseFault, Tag, Text};
use rules_actions::{Flow, Parse};
use rules_head::html_start;
use tree_forest::TreeSink;
use tree_names::TagGroup;
use tree_predicates::InsertionMode;

/// Anything else: the body goes on.
pub fn body_again<S: TreeSink>(page: &mut Parse<S>) -> Result<Flow<S::Handle>, ParseFault>
    requires ready { Ready (state_of S.view page.old) }
    ensures { Follows S.view (again body_again) page.old page.new result }
{
    page.go_to(InsertionMode::InBody);
    Ok(Flow::Again)
}

/// A comment goes to the root.
pub fn after_body_comment<S: TreeSink>(
    page: &mut Parse<S>,
    text: Text,
) -> Result<Flow<S::Handle>, ParseFault>
    requires ready { Ready (state_of S.view page.old) }
    ensures { Follows S.view (after_body_comment text) page.old page.new result }
{
    page.comment_to_root(text)?;
    Ok(Flow::Done)
}

/// A start tag.
pub fn after_body_start<S: TreeSink>(
    page: &mut Parse<S>,
    group: TagGroup,
    tag: &Tag,
) -> Result<Flow<S::Handle>, ParseFault>
    requires ready { Ready (state_of S.view page.old) }
    ensures { Follows S.view (after_body_start group tag.now (state_of S.view page.old)) page.old page.new result }
{
    match group {
        TagGroup::Html => html_start(page, tag),
        _ => body_again(page),
    }
}

/// An end tag. In a fragment "html" is ignored.
pub fn after_body_end<S: TreeSink>(
    page: &mut Parse<S>,
    group: TagGroup,
) -> Result<Flow<S::Handle>, ParseFault>
    requires ready { Ready (state_of S.view page.old) }
    ensures { Follows S.view (after_body_end group (state_of S.view page.old)) page.old page.new result }
{
    match group {
        TagGroup::Html => {
            if page.kept.context.is_some() {
                return Ok(Flow::Done);
            }
            page.go_to(InsertionMode::AfterAfterBody);
            Ok(Flow::Done)
        }
        _ => body_again(page),
    }
}

/// The end of the page.
pub fn after_body_end_of_file<S: TreeSink>(
    page: &mut Parse<S>,
) -> Result<Flow<S::Handle>, ParseFault>
    requires ready { Ready (state_of S.view page.old) }
    ensures { Follows S.view after_body_end_of_file page.old page.new result }
{
    Ok(stop_parsing())
}
