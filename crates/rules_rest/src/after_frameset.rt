//! The "after frameset" and "after after frameset" insertion modes (WHATWG HTML, 13.2.6.4.19 and 13.2.6.4.21).
ghost use Rattle.rules_actions.specs.Follows.{Follows};
ghost use Rattle.rules_actions.specs.Parsed.{state_of};
ghost use Rattle.rules_table.specs.Settling.{Ready};
ghost use Rattle.rules_table.specs.Framesets.{after_after_frameset_comment, after_frameset_end, after_frameset_start};
ghost use Rattle.rules_table.specs.Framesets.{frameset_end_of_file};

use crate::page_end::stop_parsing;
use html_lexemes::{ParseFault, Tag, Text};
use rules_actions::{Flow, Parse};
use rules_head::{html_start, in_head_start};
use rules_table::Target;
use tree_forest::TreeSink;
use tree_names::TagGroup;
use tree_predicates::InsertionMode;

/// A start tag, in both modes.
pub fn after_frameset_start<S: TreeSink>(
    page: &mut Parse<S>,
    group: TagGroup,
    tag: &Tag,
) -> Result<Flow<S::Handle>, ParseFault>
    requires ready { Ready (state_of S.view page.old) }
    ensures { Follows S.view (after_frameset_start group tag.now (state_of S.view page.old)) page.old page.new result }
{
    match group {
        TagGroup::Html => html_start(page, tag),
        TagGroup::Noframes => in_head_start(page, Target::AtPlace, group, tag),
        _ => Ok(Flow::Done),
    }
}

/// An end tag after the outermost frameset.
pub fn after_frameset_end<S: TreeSink>(
    page: &mut Parse<S>,
    group: TagGroup,
) -> Result<Flow<S::Handle>, ParseFault>
    requires ready { Ready (state_of S.view page.old) }
    ensures { Follows S.view (after_frameset_end group) page.old page.new result }
{
    match group {
        TagGroup::Html => {
            page.go_to(InsertionMode::AfterAfterFrameset);
            Ok(Flow::Done)
        }
        _ => Ok(Flow::Done),
    }
}

/// A comment after a page of frames: it goes to the document.
pub fn after_after_frameset_comment<S: TreeSink>(
    page: &mut Parse<S>,
    text: Text,
) -> Result<Flow<S::Handle>, ParseFault>
    requires ready { Ready (state_of S.view page.old) }
    ensures { Follows S.view (after_after_frameset_comment text) page.old page.new result }
{
    page.comment_to_document(text)?;
    Ok(Flow::Done)
}

/// The end of a page of frames, in all modes of framesets.
pub fn frameset_end_of_file<S: TreeSink>(page: &mut Parse<S>) -> Result<Flow<S::Handle>, ParseFault>
    requires ready { Ready (state_of S.view page.old) }
    ensures { Follows S.view frameset_end_of_file page.old page.new result }
{
    Ok(stop_parsing())
}
