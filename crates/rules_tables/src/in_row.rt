//! The "in row" insertion mode (WHATWG HTML, 13.2.6.4.14).
ghost use Rattle.std.specs.Prelude.{◌≡◌, IfErr, OnOk};
ghost use Rattle.html_lexemes.specs.declared.fault.ParseFault.TheVariants.{Memory};
ghost use Rattle.rules_actions.specs.Follows.{Follows};
ghost use Rattle.rules_actions.specs.Parsed.{state_of};
ghost use Rattle.rules_table.specs.Settling.{Ready};
ghost use Rattle.tree_names.specs.Groups.{tag_group};
ghost use Rattle.tree_names.specs.declared.group.TagGroup.TheVariants as groups;
ghost use Rattle.rules_table.specs.Actions.{act_all};
ghost use Rattle.rules_table.specs.InRow.{in_row_end, in_row_start, past_row, row_closed};

use crate::in_table::{in_table_end, in_table_start};
use html_lexemes::{ParseFault, Tag};
use rules_actions::{Flow, Parse};
use tree_forest::TreeSink;
use tree_names::{ElementSet, TagGroup};
use tree_predicates::InsertionMode;

/// A start tag.
pub fn in_row_start<S: TreeSink>(
    page: &mut Parse<S>,
    group: TagGroup,
    tag: &Tag,
) -> Result<Flow<S::Handle>, ParseFault>
    requires ready { Ready (state_of S.view page.old) }
    requires group { tag_group tag.now.name ≡ group }
    ensures { Follows S.view (in_row_start group tag.now (state_of S.view page.old)) page.old page.new result }
{
    match group {
        TagGroup::Cell => cell_in_row(page, tag),
        TagGroup::Caption
        | TagGroup::Column
        | TagGroup::ColumnGroup
        | TagGroup::Section
        | TagGroup::Row => past_row(page),
        _ => in_table_start(page, group, tag),
    }
}

/// An end tag.
pub fn in_row_end<S: TreeSink>(
    page: &mut Parse<S>,
    group: TagGroup,
    tag: &Tag,
) -> Result<Flow<S::Handle>, ParseFault>
    requires ready { Ready (state_of S.view page.old) }
    ensures { Follows S.view (in_row_end group tag.now (state_of S.view page.old)) page.old page.new result }
{
    match group {
        TagGroup::Row => {
            if !page.in_table_scope(ElementSet::TableRow) {
                return Ok(Flow::Done);
            }
            close_row(page)?;
            Ok(Flow::Done)
        }
        TagGroup::Table => past_row(page),
        TagGroup::Section => {
            if !page.in_table_scope(ElementSet::Named(&tag.name)) {
                return Ok(Flow::Done);
            }
            past_row(page)
        }
        TagGroup::Body
        | TagGroup::Caption
        | TagGroup::Column
        | TagGroup::ColumnGroup
        | TagGroup::Html
        | TagGroup::Cell => Ok(Flow::Done),
        _ => in_table_end(page, group, tag),
    }
}

// "td", "th".
fn cell_in_row<S: TreeSink>(page: &mut Parse<S>, tag: &Tag) -> Result<Flow<S::Handle>, ParseFault>
    requires ready { Ready (state_of S.view page.old) }
    ensures { Follows S.view (in_row_start groups.Cell tag.now (state_of S.view page.old)) page.old page.new result }
{
    page.pop_down_to(ElementSet::TableRowContext)?;
    page.insert(tag)?;
    page.go_to(InsertionMode::InCell);
    page.put_marker()?;
    Ok(Flow::Done)
}

/// The row is closed.
pub fn close_row<S: TreeSink>(page: &mut Parse<S>) -> Result<(), ParseFault>
    requires ready { Ready (state_of S.view page.old) }
    ensures seen { OnOk result (state_of S.view page.new ≡ act_all row_closed (state_of S.view page.old)) }
    ensures ready { OnOk result (Ready (state_of S.view page.new)) }
    ensures memory { IfErr result (λ e. e ≡ Memory) }
{
    page.pop_down_to(ElementSet::TableRowContext)?;
    page.pop()?;
    page.go_to(InsertionMode::InTableBody);
    Ok(())
}

/// A tag that no row holds: an open one is closed, and the section takes the tag.
pub fn past_row<S: TreeSink>(page: &mut Parse<S>) -> Result<Flow<S::Handle>, ParseFault>
    requires ready { Ready (state_of S.view page.old) }
    ensures { Follows S.view (past_row (state_of S.view page.old)) page.old page.new result }
{
    if !page.in_table_scope(ElementSet::TableRow) {
        return Ok(Flow::Done);
    }
    close_row(page)?;
    Ok(Flow::Again)
}
