//! The "after after body" insertion mode (WHATWG HTML, 13.2.6.4.20). Start tags are taken as in "after body".
ghost use Rattle.rules_actions.specs.Follows.{Follows};
ghost use Rattle.rules_actions.specs.Parsed.{state_of};
ghost use Rattle.rules_table.specs.Settling.{Ready};
ghost use Rattle.rules_table.specs.AfterBody.{after_after_body_comment, after_after_body_end};
ghost use Rattle.rules_table.specs.AfterBody.{after_after_body_end_of_file};

use crate::after_body::body_again;
use crate::page_end::stop_parsing;
use html_lexemes::{ParseFault, Text};
use rules_actions::{Flow, Parse};
use tree_forest::TreeSink;

/// A comment goes to the document.
pub fn after_after_body_comment<S: TreeSink>(
    page: &mut Parse<S>,
    text: Text,
) -> Result<Flow<S::Handle>, ParseFault>
    requires ready { Ready (state_of S.view page.old) }
    ensures { Follows S.view (after_after_body_comment text) page.old page.new result }
{
    page.comment_to_document(text)?;
    Ok(Flow::Done)
}

/// An end tag.
pub fn after_after_body_end<S: TreeSink>(page: &mut Parse<S>) -> Result<Flow<S::Handle>, ParseFault>
    requires ready { Ready (state_of S.view page.old) }
    ensures { Follows S.view after_after_body_end page.old page.new result }
{
    body_again(page)
}

/// The end of the page.
pub fn after_after_body_end_of_file<S: TreeSink>(
    page: &mut Parse<S>,
) -> Result<Flow<S::Handle>, ParseFault>
    requires ready { Ready (state_of S.view page.old) }
    ensures { Follows S.view after_after_body_end_of_file page.old page.new result }
{
    Ok(stop_parsing())
}
