//! The "in head noscript" insertion mode (WHATWG HTML, 13.2.6.4.5).
ghost use Rattle.rules_actions.specs.Follows.{Follows};
ghost use Rattle.rules_actions.specs.Parsed.{state_of};
ghost use Rattle.rules_table.specs.Settling.{Ready};
ghost use Rattle.rules_table.specs.InHeadNoscript.{in_head_noscript_end, in_head_noscript_start, noscript_closed};
ghost use Rattle.rules_table.specs.Rows.{again};

use crate::html_tag::html_start;
use crate::in_head::in_head_start;
use html_lexemes::{ParseFault, Tag};
use rules_actions::{Flow, Parse};
use rules_table::Target;
use tree_forest::TreeSink;
use tree_names::TagGroup;
use tree_predicates::InsertionMode;

/// A start tag.
pub fn in_head_noscript_start<S: TreeSink>(
    page: &mut Parse<S>,
    group: TagGroup,
    tag: &Tag,
) -> Result<Flow<S::Handle>, ParseFault>
    requires ready { Ready (state_of S.view page.old) }
    ensures { Follows S.view (in_head_noscript_start group tag.now (state_of S.view page.old)) page.old page.new
        result }
{
    match group {
        TagGroup::Html => html_start(page, tag),
        TagGroup::Link | TagGroup::Meta | TagGroup::Noframes | TagGroup::Style => {
            in_head_start(page, Target::AtPlace, group, tag)
        }
        TagGroup::Head | TagGroup::Noscript => Ok(Flow::Done),
        _ => close_noscript(page),
    }
}

/// An end tag.
pub fn in_head_noscript_end<S: TreeSink>(
    page: &mut Parse<S>,
    group: TagGroup,
) -> Result<Flow<S::Handle>, ParseFault>
    requires ready { Ready (state_of S.view page.old) }
    ensures { Follows S.view (in_head_noscript_end group) page.old page.new result }
{
    match group {
        TagGroup::Noscript => {
            page.pop()?;
            page.go_to(InsertionMode::InHead);
            Ok(Flow::Done)
        }
        TagGroup::LineBreak => close_noscript(page),
        _ => Ok(Flow::Done),
    }
}

/// Anything else: the `noscript` is closed.
pub fn close_noscript<S: TreeSink>(page: &mut Parse<S>) -> Result<Flow<S::Handle>, ParseFault>
    requires ready { Ready (state_of S.view page.old) }
    ensures { Follows S.view (again noscript_closed) page.old page.new result }
{
    page.pop()?;
    page.go_to(InsertionMode::InHead);
    Ok(Flow::Again)
}
