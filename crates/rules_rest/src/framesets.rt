//! The "in frameset" insertion mode (WHATWG HTML, 13.2.6.4.18).
ghost use Rattle.std.specs.Prelude.{◌≡◌, option_map};
ghost use Rattle.rules_actions.specs.Follows.{Follows};
ghost use Rattle.rules_actions.specs.Parsed.{state_of};
ghost use Rattle.rules_table.specs.Settling.{Ready};
ghost use Rattle.html_tree_state.specs.OpenElements.{below_current, first_of};
ghost use Rattle.rules_table.specs.Framesets.{frameset_closed, in_frameset_end, in_frameset_start};

use html_lexemes::{ParseFault, Tag};
use rules_actions::{Flow, Parse};
use rules_head::{html_start, in_head_start};
use rules_table::{Target, open_elements_are_elements};
use tree_forest::TreeSink;
use tree_names::{TagGroup, is_html};
use tree_predicates::InsertionMode;

/// A start tag.
pub fn in_frameset_start<S: TreeSink>(
    page: &mut Parse<S>,
    group: TagGroup,
    tag: &Tag,
) -> Result<Flow<S::Handle>, ParseFault>
    requires ready { Ready (state_of S.view page.old) }
    ensures { Follows S.view (in_frameset_start group tag.now (state_of S.view page.old)) page.old page.new result }
{
    match group {
        TagGroup::Html => html_start(page, tag),
        TagGroup::Frameset => {
            page.insert(tag)?;
            Ok(Flow::Done)
        }
        TagGroup::Frame => {
            page.insert_void(tag)?;
            Ok(Flow::Done)
        }
        TagGroup::Noframes => in_head_start(page, Target::AtPlace, group, tag),
        _ => Ok(Flow::Done),
    }
}

/// An end tag.
pub fn in_frameset_end<S: TreeSink>(
    page: &mut Parse<S>,
    group: TagGroup,
) -> Result<Flow<S::Handle>, ParseFault>
    requires ready { Ready (state_of S.view page.old) }
    ensures { Follows S.view (in_frameset_end group (state_of S.view page.old)) page.old page.new result }
{
    match group {
        TagGroup::Frameset => close_frameset(page),
        _ => Ok(Flow::Done),
    }
}

// a frameset is closed; the root stays. After the outermost frameset of a page the mode is another.
fn close_frameset<S: TreeSink>(page: &mut Parse<S>) -> Result<Flow<S::Handle>, ParseFault>
    requires ready { Ready (state_of S.view page.old) }
    ensures { Follows S.view (frameset_closed (state_of S.view page.old).tree.stack (state_of S.view page.old)) page.old
        page.new result }
{
    let Some(outer) = below_current(page) else {
        return Ok(Flow::Done);
    };
    if page.kept.context.is_some() {
        page.pop()?;
        return Ok(Flow::Done);
    }
    open_elements_are_elements();
    if is_html(page.tree.sink.elem_name(outer), "frameset") {
        page.pop()?;
        return Ok(Flow::Done);
    }
    page.pop()?;
    page.go_to(InsertionMode::AfterFrameset);
    Ok(Flow::Done)
}

// the element below the current node
fn below_current<S: TreeSink>(page: &Parse<S>) -> Option<S::Handle>
    ensures { option_map S.view.number result ≡ first_of (below_current (state_of S.view page.now).tree.stack) }
{
    let (_, lower) = page.tree.held.open_elements().split_last()?;
    lower.last().copied()
}
