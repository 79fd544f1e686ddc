//! The "in cell" insertion mode (WHATWG HTML, 13.2.6.4.15).
ghost use Rattle.std.specs.Prelude.{◌≡◌, IfErr, OnOk};
ghost use Rattle.html_lexemes.specs.declared.fault.ParseFault.TheVariants.{Memory};
ghost use Rattle.rules_actions.specs.Follows.{Follows};
ghost use Rattle.rules_actions.specs.Parsed.{state_of};
ghost use Rattle.rules_table.specs.Settling.{Ready};
ghost use Rattle.tree_names.specs.Groups.{tag_group};
ghost use Rattle.tree_names.specs.Wanted.{elements_of};
ghost use Rattle.rules_table.specs.Actions.{act_all};
ghost use Rattle.rules_table.specs.InCell.{cell_closed, in_cell_end, in_cell_start, outer_end, past_cell};

use html_lexemes::{ParseFault, Tag};
use rules_actions::{Flow, Parse};
use rules_body::{in_body_end, in_body_start};
use tree_forest::TreeSink;
use tree_names::{ElementSet, TagGroup};
use tree_predicates::InsertionMode;

/// A start tag.
pub fn in_cell_start<S: TreeSink>(
    page: &mut Parse<S>,
    group: TagGroup,
    tag: &Tag,
) -> Result<Flow<S::Handle>, ParseFault>
    requires ready { Ready (state_of S.view page.old) }
    requires group { tag_group tag.now.name ≡ group }
    ensures { Follows S.view (in_cell_start group tag.now (state_of S.view page.old)) page.old page.new result }
{
    match group {
        TagGroup::Caption
        | TagGroup::Column
        | TagGroup::ColumnGroup
        | TagGroup::Section
        | TagGroup::Cell
        | TagGroup::Row => past_cell(page),
        _ => in_body_start(page, group, tag),
    }
}

/// An end tag.
pub fn in_cell_end<S: TreeSink>(
    page: &mut Parse<S>,
    group: TagGroup,
    tag: &Tag,
) -> Result<Flow<S::Handle>, ParseFault>
    requires ready { Ready (state_of S.view page.old) }
    ensures { Follows S.view (in_cell_end group tag.now (state_of S.view page.old)) page.old page.new result }
{
    match group {
        TagGroup::Cell => {
            if !page.in_table_scope(ElementSet::Named(&tag.name)) {
                return Ok(Flow::Done);
            }
            close_cell(page, ElementSet::Named(&tag.name))?;
            Ok(Flow::Done)
        }
        TagGroup::Body
        | TagGroup::Caption
        | TagGroup::Column
        | TagGroup::ColumnGroup
        | TagGroup::Html => Ok(Flow::Done),
        TagGroup::Table | TagGroup::Section | TagGroup::Row => outer_end(page, tag),
        _ => in_body_end(page, group, tag),
    }
}

/// The cell, one of a set, is closed.
pub fn close_cell<S: TreeSink>(page: &mut Parse<S>, cells: ElementSet<'_>) -> Result<(), ParseFault>
    requires ready { Ready (state_of S.view page.old) }
    ensures seen { OnOk result (state_of S.view page.new ≡ act_all (cell_closed (elements_of cells.entry))
        (state_of S.view page.old)) }
    ensures ready { OnOk result (Ready (state_of S.view page.new)) }
    ensures memory { IfErr result (λ e. e ≡ Memory) }
{
    page.imply_but(ElementSet::Nothing)?;
    page.pop_to(cells)?;
    page.clear_to_marker();
    page.go_to(InsertionMode::InRow);
    Ok(())
}

/// A tag that no cell holds: an open one is closed, and the row takes the tag.
pub fn past_cell<S: TreeSink>(page: &mut Parse<S>) -> Result<Flow<S::Handle>, ParseFault>
    requires ready { Ready (state_of S.view page.old) }
    ensures { Follows S.view (past_cell (state_of S.view page.old)) page.old page.new result }
{
    if !page.in_table_scope(ElementSet::TableCell) {
        return Ok(Flow::Done);
    }
    close_cell(page, ElementSet::TableCell)?;
    Ok(Flow::Again)
}

/// An end tag of what the cell stands in: the cell is closed, and the row takes the tag.
pub fn outer_end<S: TreeSink>(page: &mut Parse<S>, tag: &Tag) -> Result<Flow<S::Handle>, ParseFault>
    requires ready { Ready (state_of S.view page.old) }
    ensures { Follows S.view (outer_end tag.now (state_of S.view page.old)) page.old page.new result }
{
    if !page.in_table_scope(ElementSet::Named(&tag.name)) {
        return Ok(Flow::Done);
    }
    past_cell(page)
}
