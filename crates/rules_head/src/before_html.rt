//! The "before html" insertion mode (WHATWG HTML, 13.2.6.4.2).
ghost use Rattle.rules_actions.specs.Follows.{Follows};
ghost use Rattle.rules_actions.specs.Parsed.{state_of};
ghost use Rattle.rules_table.specs.Settling.{Ready};
ghost use Rattle.rules_table.specs.BeforeHtml.{before_html_end, before_html_start, html_made};
ghost use Rattle.rules_table.specs.Rows.{again};

use html_lexemes::{ParseFault, Tag};
use rules_actions::{Flow, Parse};
use tree_forest::TreeSink;
use tree_names::TagGroup;
use tree_predicates::InsertionMode;

/// A start tag.
pub fn before_html_start<S: TreeSink>(
    page: &mut Parse<S>,
    group: TagGroup,
    tag: &Tag,
) -> Result<Flow<S::Handle>, ParseFault>
    requires ready { Ready (state_of S.view page.old) }
    ensures { Follows S.view (before_html_start group tag.now) page.old page.new result }
{
    match group {
        TagGroup::Html => {
            page.insert(tag)?;
            page.go_to(InsertionMode::BeforeHead);
            Ok(Flow::Done)
        }
        _ => make_html(page),
    }
}

/// An end tag.
pub fn before_html_end<S: TreeSink>(
    page: &mut Parse<S>,
    group: TagGroup,
) -> Result<Flow<S::Handle>, ParseFault>
    requires ready { Ready (state_of S.view page.old) }
    ensures { Follows S.view (before_html_end group) page.old page.new result }
{
    match group {
        TagGroup::Head | TagGroup::Body | TagGroup::Html | TagGroup::LineBreak => make_html(page),
        _ => Ok(Flow::Done),
    }
}

/// Anything else: the root is made.
pub fn make_html<S: TreeSink>(page: &mut Parse<S>) -> Result<Flow<S::Handle>, ParseFault>
    requires ready { Ready (state_of S.view page.old) }
    ensures { Follows S.view (again html_made) page.old page.new result }
{
    page.insert_named("html")?;
    page.go_to(InsertionMode::BeforeHead);
    Ok(Flow::Again)
}
