//! The "in caption" insertion mode (WHATWG HTML, 13.2.6.4.11).
ghost use Rattle.std.specs.Prelude.{◌≡◌, IfErr, OnOk};
ghost use Rattle.html_lexemes.specs.declared.fault.ParseFault.TheVariants.{Memory};
ghost use Rattle.rules_actions.specs.Follows.{Follows};
ghost use Rattle.rules_actions.specs.Parsed.{state_of};
ghost use Rattle.rules_table.specs.Settling.{Ready};
ghost use Rattle.tree_names.specs.Groups.{tag_group};
ghost use Rattle.rules_table.specs.Actions.{act_all};
ghost use Rattle.rules_table.specs.InCaption.{caption_closed, in_caption_end, in_caption_start, past_caption};

use html_lexemes::{ParseFault, Tag};
use rules_actions::{Flow, Parse};
use rules_body::{in_body_end, in_body_start};
use tree_forest::TreeSink;
use tree_names::{ElementSet, TagGroup};
use tree_predicates::InsertionMode;

/// A start tag.
pub fn in_caption_start<S: TreeSink>(
    page: &mut Parse<S>,
    group: TagGroup,
    tag: &Tag,
) -> Result<Flow<S::Handle>, ParseFault>
    requires ready { Ready (state_of S.view page.old) }
    requires group { tag_group tag.now.name ≡ group }
    ensures { Follows S.view (in_caption_start group tag.now (state_of S.view page.old)) page.old page.new result }
{
    match group {
        TagGroup::Caption
        | TagGroup::Column
        | TagGroup::ColumnGroup
        | TagGroup::Section
        | TagGroup::Cell
        | TagGroup::Row => past_caption(page),
        _ => in_body_start(page, group, tag),
    }
}

/// An end tag.
pub fn in_caption_end<S: TreeSink>(
    page: &mut Parse<S>,
    group: TagGroup,
    tag: &Tag,
) -> Result<Flow<S::Handle>, ParseFault>
    requires ready { Ready (state_of S.view page.old) }
    ensures { Follows S.view (in_caption_end group tag.now (state_of S.view page.old)) page.old page.new result }
{
    match group {
        TagGroup::Caption => {
            if !page.in_table_scope(ElementSet::Caption) {
                return Ok(Flow::Done);
            }
            close_caption(page)?;
            Ok(Flow::Done)
        }
        TagGroup::Table => past_caption(page),
        TagGroup::Body
        | TagGroup::Column
        | TagGroup::ColumnGroup
        | TagGroup::Html
        | TagGroup::Section
        | TagGroup::Cell
        | TagGroup::Row => Ok(Flow::Done),
        _ => in_body_end(page, group, tag),
    }
}

/// The caption is closed.
pub fn close_caption<S: TreeSink>(page: &mut Parse<S>) -> Result<(), ParseFault>
    requires ready { Ready (state_of S.view page.old) }
    ensures seen { OnOk result (state_of S.view page.new ≡ act_all caption_closed (state_of S.view page.old)) }
    ensures ready { OnOk result (Ready (state_of S.view page.new)) }
    ensures memory { IfErr result (λ e. e ≡ Memory) }
{
    page.imply_but(ElementSet::Nothing)?;
    page.pop_to(ElementSet::Caption)?;
    page.clear_to_marker();
    page.go_to(InsertionMode::InTable);
    Ok(())
}

/// A tag that no caption holds: an open one is closed, and the table takes the tag.
pub fn past_caption<S: TreeSink>(page: &mut Parse<S>) -> Result<Flow<S::Handle>, ParseFault>
    requires ready { Ready (state_of S.view page.old) }
    ensures { Follows S.view (past_caption (state_of S.view page.old)) page.old page.new result }
{
    if !page.in_table_scope(ElementSet::Caption) {
        return Ok(Flow::Done);
    }
    close_caption(page)?;
    Ok(Flow::Again)
}
