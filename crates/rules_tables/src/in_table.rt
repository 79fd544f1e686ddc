//! The "in table" insertion mode (WHATWG HTML, 13.2.6.4.9).
ghost use Rattle.std.specs.Prelude.{◌≡◌, [], ◌∷◌, IfErr, OnOk, codes};
ghost use Rattle.html_lexemes.specs.declared.fault.ParseFault.TheVariants.{Memory};
ghost use Rattle.rules_actions.specs.Follows.{Follows};
ghost use Rattle.rules_actions.specs.Parsed.{state_of};
ghost use Rattle.rules_table.specs.Settling.{Ready};
ghost use Rattle.tree_names.specs.Groups.{tag_group};
ghost use Rattle.tree_names.specs.declared.group.TagGroup.TheVariants as groups;
ghost use Rattle.rules_table.specs.Actions.{act_all, go_to, insert_named};
ghost use Rattle.rules_table.specs.InBody.{in_body_start};
ghost use Rattle.rules_table.specs.InBodyEnds.{in_body_end};
ghost use Rattle.rules_table.specs.InTable.{clear_to_table, form_in_table, in_table_end, in_table_start};
ghost use Rattle.rules_table.specs.InTable.{input_in_table, table_closed};
ghost use Rattle.rules_table.specs.Rows.{again, fostered};
ghost use Rattle.tree_predicates.specs.declared.modes.InsertionMode.TheVariants.{InColumnGroup, InTableBody};

use html_lexemes::{ParseFault, Tag};
use rules_actions::{Flow, Parse};
use rules_body::{in_body_end, in_body_start};
use rules_head::{in_head_end, in_head_start};
use rules_table::Target;
use tree_forest::TreeSink;
use tree_names::{ElementSet, TagGroup};
use tree_predicates::{InsertionMode, is_hidden};

/// A start tag.
pub fn in_table_start<S: TreeSink>(
    page: &mut Parse<S>,
    group: TagGroup,
    tag: &Tag,
) -> Result<Flow<S::Handle>, ParseFault>
    requires ready { Ready (state_of S.view page.old) }
    requires group { tag_group tag.now.name ≡ group }
    ensures { Follows S.view (in_table_start group tag.now (state_of S.view page.old)) page.old page.new result }
{
    match group {
        TagGroup::Caption => caption_in_table(page, tag),
        TagGroup::ColumnGroup => column_group_in_table(page, tag),
        TagGroup::Column => make_column_group(page),
        TagGroup::Section => section_in_table(page, tag),
        TagGroup::Cell | TagGroup::Row => make_section(page),
        TagGroup::Table => {
            if !page.in_table_scope(ElementSet::Table) {
                return Ok(Flow::Done);
            }
            close_table(page)?;
            Ok(Flow::Again)
        }
        TagGroup::Style | TagGroup::Script | TagGroup::Template => {
            in_head_start(page, Target::AtPlace, group, tag)
        }
        TagGroup::Input => input_in_table(page, tag),
        TagGroup::Form => form_in_table(page, tag),
        _ => start_in_body_fostered(page, group, tag),
    }
}

/// An end tag.
pub fn in_table_end<S: TreeSink>(
    page: &mut Parse<S>,
    group: TagGroup,
    tag: &Tag,
) -> Result<Flow<S::Handle>, ParseFault>
    requires ready { Ready (state_of S.view page.old) }
    ensures { Follows S.view (in_table_end group tag.now (state_of S.view page.old)) page.old page.new result }
{
    match group {
        TagGroup::Table => {
            if !page.in_table_scope(ElementSet::Table) {
                return Ok(Flow::Done);
            }
            close_table(page)?;
            Ok(Flow::Done)
        }
        TagGroup::Body
        | TagGroup::Caption
        | TagGroup::Column
        | TagGroup::ColumnGroup
        | TagGroup::Html
        | TagGroup::Section
        | TagGroup::Cell
        | TagGroup::Row => Ok(Flow::Done),
        TagGroup::Template => in_head_end(page, group),
        _ => end_in_body_fostered(page, group, tag),
    }
}

// "caption".
fn caption_in_table<S: TreeSink>(
    page: &mut Parse<S>,
    tag: &Tag,
) -> Result<Flow<S::Handle>, ParseFault>
    requires ready { Ready (state_of S.view page.old) }
    ensures { Follows S.view (in_table_start groups.Caption tag.now (state_of S.view page.old)) page.old page.new
        result }
{
    page.pop_down_to(ElementSet::TableContext)?;
    page.put_marker()?;
    page.insert(tag)?;
    page.go_to(InsertionMode::InCaption);
    Ok(Flow::Done)
}

// "colgroup".
fn column_group_in_table<S: TreeSink>(
    page: &mut Parse<S>,
    tag: &Tag,
) -> Result<Flow<S::Handle>, ParseFault>
    requires ready { Ready (state_of S.view page.old) }
    ensures { Follows S.view (in_table_start groups.ColumnGroup tag.now (state_of S.view page.old)) page.old page.new
        result }
{
    page.pop_down_to(ElementSet::TableContext)?;
    page.insert(tag)?;
    page.go_to(InsertionMode::InColumnGroup);
    Ok(Flow::Done)
}

// "col": its group is made.
fn make_column_group<S: TreeSink>(page: &mut Parse<S>) -> Result<Flow<S::Handle>, ParseFault>
    requires ready { Ready (state_of S.view page.old) }
    ensures { Follows S.view (again (clear_to_table ∷ insert_named (codes "colgroup") ∷ go_to InColumnGroup ∷ []))
        page.old page.new result }
{
    page.pop_down_to(ElementSet::TableContext)?;
    page.insert_named("colgroup")?;
    page.go_to(InsertionMode::InColumnGroup);
    Ok(Flow::Again)
}

// "tbody", "tfoot", "thead".
fn section_in_table<S: TreeSink>(
    page: &mut Parse<S>,
    tag: &Tag,
) -> Result<Flow<S::Handle>, ParseFault>
    requires ready { Ready (state_of S.view page.old) }
    ensures { Follows S.view (in_table_start groups.Section tag.now (state_of S.view page.old)) page.old page.new
        result }
{
    page.pop_down_to(ElementSet::TableContext)?;
    page.insert(tag)?;
    page.go_to(InsertionMode::InTableBody);
    Ok(Flow::Done)
}

// "td", "th", "tr": their section is made.
fn make_section<S: TreeSink>(page: &mut Parse<S>) -> Result<Flow<S::Handle>, ParseFault>
    requires ready { Ready (state_of S.view page.old) }
    ensures { Follows S.view (again (clear_to_table ∷ insert_named (codes "tbody") ∷ go_to InTableBody ∷ [])) page.old
        page.new result }
{
    page.pop_down_to(ElementSet::TableContext)?;
    page.insert_named("tbody")?;
    page.go_to(InsertionMode::InTableBody);
    Ok(Flow::Again)
}

/// The table is closed.
pub fn close_table<S: TreeSink>(page: &mut Parse<S>) -> Result<(), ParseFault>
    requires ready { Ready (state_of S.view page.old) }
    ensures seen { OnOk result (state_of S.view page.new ≡ act_all table_closed (state_of S.view page.old)) }
    ensures ready { OnOk result (Ready (state_of S.view page.new)) }
    ensures memory { IfErr result (λ e. e ≡ Memory) }
{
    page.pop_to(ElementSet::Table)?;
    page.reset();
    Ok(())
}

/// "input": one that isn't shown stays in the table.
pub fn input_in_table<S: TreeSink>(
    page: &mut Parse<S>,
    tag: &Tag,
) -> Result<Flow<S::Handle>, ParseFault>
    requires ready { Ready (state_of S.view page.old) }
    requires group { tag_group tag.now.name ≡ groups.Input }
    ensures { Follows S.view (input_in_table tag.now (state_of S.view page.old)) page.old page.new result }
{
    if is_hidden(&tag.attrs) {
        page.insert_void(tag)?;
        return Ok(Flow::Done);
    }
    start_in_body_fostered(page, TagGroup::Input, tag)
}

/// "form": it is empty, and known.
pub fn form_in_table<S: TreeSink>(
    page: &mut Parse<S>,
    tag: &Tag,
) -> Result<Flow<S::Handle>, ParseFault>
    requires ready { Ready (state_of S.view page.old) }
    ensures { Follows S.view (form_in_table tag.now (state_of S.view page.old)) page.old page.new result }
{
    if page.has_template() {
        return Ok(Flow::Done);
    }
    if page.kept.form.is_some() {
        return Ok(Flow::Done);
    }
    page.insert(tag)?;
    page.keep_form();
    page.pop()?;
    Ok(Flow::Done)
}

/// Any other start tag: it is taken as in a body, with foster parenting.
#[tactic(auto, using(crate::proofs::FosterLemmas::started_fostered))]
pub fn start_in_body_fostered<S: TreeSink>(
    page: &mut Parse<S>,
    group: TagGroup,
    tag: &Tag,
) -> Result<Flow<S::Handle>, ParseFault>
    requires ready { Ready (state_of S.view page.old) }
    requires group { tag_group tag.now.name ≡ group }
    ensures { Follows S.view (fostered (in_body_start group tag.now (state_of S.view page.old))) page.old page.new
        result }
{
    page.set_fostering(true);
    let flow = in_body_start(page, group, tag)?;
    page.set_fostering(false);
    Ok(flow)
}

/// Any other end tag: it is taken as in a body, with foster parenting.
#[tactic(auto, using(crate::proofs::FosterLemmas::ended_fostered))]
pub fn end_in_body_fostered<S: TreeSink>(
    page: &mut Parse<S>,
    group: TagGroup,
    tag: &Tag,
) -> Result<Flow<S::Handle>, ParseFault>
    requires ready { Ready (state_of S.view page.old) }
    ensures { Follows S.view (fostered (in_body_end group tag.now (state_of S.view page.old))) page.old page.new
        result }
{
    page.set_fostering(true);
    let flow = in_body_end(page, group, tag)?;
    page.set_fostering(false);
    Ok(flow)
}
