//! The "in table body" insertion mode (WHATWG HTML, 13.2.6.4.13).
ghost use Rattle.std.specs.Prelude.{◌≡◌, [], ◌∷◌, IfErr, OnOk, codes};
ghost use Rattle.html_lexemes.specs.declared.fault.ParseFault.TheVariants.{Memory};
ghost use Rattle.rules_actions.specs.Follows.{Follows};
ghost use Rattle.rules_actions.specs.Parsed.{state_of};
ghost use Rattle.rules_table.specs.Settling.{Ready};
ghost use Rattle.tree_names.specs.Groups.{tag_group};
ghost use Rattle.tree_names.specs.declared.group.TagGroup.TheVariants as groups;
ghost use Rattle.rules_table.specs.Actions.{act_all, go_to, insert_named};
ghost use Rattle.rules_table.specs.InTableBody.{clear_to_body, in_table_body_end, in_table_body_start, past_table_body};
ghost use Rattle.rules_table.specs.InTableBody.{section_closed};
ghost use Rattle.rules_table.specs.Rows.{again};
ghost use Rattle.tree_predicates.specs.declared.modes.InsertionMode.TheVariants.{InRow};

use crate::in_table::{in_table_end, in_table_start};
use html_lexemes::{ParseFault, Tag};
use rules_actions::{Flow, Parse};
use tree_forest::TreeSink;
use tree_names::{ElementSet, TagGroup};
use tree_predicates::InsertionMode;

/// A start tag.
pub fn in_table_body_start<S: TreeSink>(
    page: &mut Parse<S>,
    group: TagGroup,
    tag: &Tag,
) -> Result<Flow<S::Handle>, ParseFault>
    requires ready { Ready (state_of S.view page.old) }
    requires group { tag_group tag.now.name ≡ group }
    ensures { Follows S.view (in_table_body_start group tag.now (state_of S.view page.old)) page.old page.new result }
{
    match group {
        TagGroup::Row => row_in_table_body(page, tag),
        TagGroup::Cell => make_row(page),
        TagGroup::Caption | TagGroup::Column | TagGroup::ColumnGroup | TagGroup::Section => {
            past_table_body(page)
        }
        _ => in_table_start(page, group, tag),
    }
}

/// An end tag.
pub fn in_table_body_end<S: TreeSink>(
    page: &mut Parse<S>,
    group: TagGroup,
    tag: &Tag,
) -> Result<Flow<S::Handle>, ParseFault>
    requires ready { Ready (state_of S.view page.old) }
    ensures { Follows S.view (in_table_body_end group tag.now (state_of S.view page.old)) page.old page.new result }
{
    match group {
        TagGroup::Section => {
            if !page.in_table_scope(ElementSet::Named(&tag.name)) {
                return Ok(Flow::Done);
            }
            close_section(page)?;
            Ok(Flow::Done)
        }
        TagGroup::Table => past_table_body(page),
        TagGroup::Body
        | TagGroup::Caption
        | TagGroup::Column
        | TagGroup::ColumnGroup
        | TagGroup::Html
        | TagGroup::Cell
        | TagGroup::Row => Ok(Flow::Done),
        _ => in_table_end(page, group, tag),
    }
}

// "tr".
fn row_in_table_body<S: TreeSink>(
    page: &mut Parse<S>,
    tag: &Tag,
) -> Result<Flow<S::Handle>, ParseFault>
    requires ready { Ready (state_of S.view page.old) }
    ensures { Follows S.view (in_table_body_start groups.Row tag.now (state_of S.view page.old)) page.old page.new
        result }
{
    page.pop_down_to(ElementSet::TableBodyContext)?;
    page.insert(tag)?;
    page.go_to(InsertionMode::InRow);
    Ok(Flow::Done)
}

// "td", "th": their row is made.
fn make_row<S: TreeSink>(page: &mut Parse<S>) -> Result<Flow<S::Handle>, ParseFault>
    requires ready { Ready (state_of S.view page.old) }
    ensures { Follows S.view (again (clear_to_body ∷ insert_named (codes "tr") ∷ go_to InRow ∷ [])) page.old page.new
        result }
{
    page.pop_down_to(ElementSet::TableBodyContext)?;
    page.insert_named("tr")?;
    page.go_to(InsertionMode::InRow);
    Ok(Flow::Again)
}

/// The section is closed.
pub fn close_section<S: TreeSink>(page: &mut Parse<S>) -> Result<(), ParseFault>
    requires ready { Ready (state_of S.view page.old) }
    ensures seen { OnOk result (state_of S.view page.new ≡ act_all section_closed (state_of S.view page.old)) }
    ensures ready { OnOk result (Ready (state_of S.view page.new)) }
    ensures memory { IfErr result (λ e. e ≡ Memory) }
{
    page.pop_down_to(ElementSet::TableBodyContext)?;
    page.pop()?;
    page.go_to(InsertionMode::InTable);
    Ok(())
}

/// A tag that no section holds: an open one is closed, and the table takes the tag.
pub fn past_table_body<S: TreeSink>(page: &mut Parse<S>) -> Result<Flow<S::Handle>, ParseFault>
    requires ready { Ready (state_of S.view page.old) }
    ensures { Follows S.view (past_table_body (state_of S.view page.old)) page.old page.new result }
{
    if !page.in_table_scope(ElementSet::TableSection) {
        return Ok(Flow::Done);
    }
    close_section(page)?;
    Ok(Flow::Again)
}
