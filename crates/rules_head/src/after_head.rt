//! The "after head" insertion mode (WHATWG HTML, 13.2.6.4.6).
ghost use Rattle.rules_actions.specs.Follows.{Follows};
ghost use Rattle.rules_actions.specs.Parsed.{state_of};
ghost use Rattle.rules_table.specs.Settling.{Ready};
ghost use Rattle.rules_table.specs.AfterHead.{after_head_end, after_head_start, body_made};
ghost use Rattle.rules_table.specs.Rows.{again};

use crate::html_tag::html_start;
use crate::in_head::{in_head_start, template_end};
use html_lexemes::{ParseFault, Tag};
use rules_actions::{Flow, Parse};
use rules_table::Target;
use tree_forest::TreeSink;
use tree_names::TagGroup;
use tree_predicates::InsertionMode;

/// A start tag.
pub fn after_head_start<S: TreeSink>(
    page: &mut Parse<S>,
    group: TagGroup,
    tag: &Tag,
) -> Result<Flow<S::Handle>, ParseFault>
    requires ready { Ready (state_of S.view page.old) }
    ensures { Follows S.view (after_head_start group tag.now (state_of S.view page.old)) page.old page.new result }
{
    match group {
        TagGroup::Html => html_start(page, tag),
        TagGroup::Body => {
            page.insert(tag)?;
            page.refuse_frameset();
            page.go_to(InsertionMode::InBody);
            Ok(Flow::Done)
        }
        TagGroup::Frameset => {
            page.insert(tag)?;
            page.go_to(InsertionMode::InFrameset);
            Ok(Flow::Done)
        }
        TagGroup::Base
        | TagGroup::Link
        | TagGroup::Meta
        | TagGroup::Noframes
        | TagGroup::Script
        | TagGroup::Style
        | TagGroup::Template
        | TagGroup::Title => in_head_start(page, Target::IntoHead, group, tag),
        TagGroup::Head => Ok(Flow::Done),
        _ => make_body(page),
    }
}

/// An end tag.
pub fn after_head_end<S: TreeSink>(
    page: &mut Parse<S>,
    group: TagGroup,
) -> Result<Flow<S::Handle>, ParseFault>
    requires ready { Ready (state_of S.view page.old) }
    ensures { Follows S.view (after_head_end group (state_of S.view page.old)) page.old page.new result }
{
    match group {
        TagGroup::Template => template_end(page),
        TagGroup::Body | TagGroup::Html | TagGroup::LineBreak => make_body(page),
        _ => Ok(Flow::Done),
    }
}

/// Anything else: the body is made.
pub fn make_body<S: TreeSink>(page: &mut Parse<S>) -> Result<Flow<S::Handle>, ParseFault>
    requires ready { Ready (state_of S.view page.old) }
    ensures { Follows S.view (again body_made) page.old page.new result }
{
    page.insert_named("body")?;
    page.go_to(InsertionMode::InBody);
    Ok(Flow::Again)
}
