//! By the insertion mode, what a tag comes to (WHATWG HTML, 13.2.6.4).
ghost use Rattle.std.specs.Prelude.{◌≡◌};
ghost use Rattle.tree_names.specs.Groups.{tag_group};
ghost use Rattle.rules_actions.specs.Follows.{Follows};
ghost use Rattle.rules_actions.specs.Parsed.{state_of};
ghost use Rattle.rules_table.specs.Settling.{Ready};
ghost use Rattle.rules_table.specs.Table.{end_row, start_row};

use html_lexemes::{ParseFault, Tag};
use rules_actions::{Flow, Parse};
use rules_body::{in_body_end, in_body_start};
use rules_head::{
    after_head_end, after_head_start, before_head_end, before_head_start, before_html_end,
    before_html_start, in_head_end, in_head_noscript_end, in_head_noscript_start, in_head_start,
    initial_other,
};
use rules_rest::{
    after_after_body_end, after_body_end, after_body_start, after_frameset_end,
    after_frameset_start, in_frameset_end, in_frameset_start, in_template_end, in_template_start,
    text_mode_end,
};
use rules_table::Target;
use rules_tables::{
    in_caption_end, in_caption_start, in_cell_end, in_cell_start, in_column_group_end,
    in_column_group_start, in_row_end, in_row_start, in_table_body_end, in_table_body_start,
    in_table_end, in_table_start, in_table_text_other,
};
use tree_forest::TreeSink;
use tree_names::TagGroup;
use tree_predicates::InsertionMode;

/// A start tag.
pub fn start_tag<S: TreeSink>(
    page: &mut Parse<S>,
    group: TagGroup,
    tag: &Tag,
) -> Result<Flow<S::Handle>, ParseFault>
    requires ready { Ready (state_of S.view page.old) }
    requires group { tag_group tag.now.name ≡ group }
    ensures { Follows S.view (start_row (state_of S.view page.old).mode group tag.now (state_of S.view page.old))
        page.old page.new result }
{
    match page.kept.mode {
        InsertionMode::Initial => initial_other(page),
        InsertionMode::BeforeHtml => before_html_start(page, group, tag),
        InsertionMode::BeforeHead => before_head_start(page, group, tag),
        InsertionMode::InHead => in_head_start(page, Target::AtPlace, group, tag),
        InsertionMode::InHeadNoscript => in_head_noscript_start(page, group, tag),
        InsertionMode::AfterHead => after_head_start(page, group, tag),
        InsertionMode::InBody => in_body_start(page, group, tag),
        InsertionMode::Text => Ok(Flow::Done),
        InsertionMode::InTable => in_table_start(page, group, tag),
        InsertionMode::InTableText => in_table_text_other(page),
        InsertionMode::InCaption => in_caption_start(page, group, tag),
        InsertionMode::InColumnGroup => in_column_group_start(page, group, tag),
        InsertionMode::InTableBody => in_table_body_start(page, group, tag),
        InsertionMode::InRow => in_row_start(page, group, tag),
        InsertionMode::InCell => in_cell_start(page, group, tag),
        InsertionMode::InTemplate => in_template_start(page, group, tag),
        InsertionMode::AfterBody => after_body_start(page, group, tag),
        InsertionMode::InFrameset => in_frameset_start(page, group, tag),
        InsertionMode::AfterFrameset => after_frameset_start(page, group, tag),
        InsertionMode::AfterAfterBody => after_body_start(page, group, tag),
        InsertionMode::AfterAfterFrameset => after_frameset_start(page, group, tag),
    }
}

/// An end tag.
pub fn end_tag<S: TreeSink>(
    page: &mut Parse<S>,
    group: TagGroup,
    tag: &Tag,
) -> Result<Flow<S::Handle>, ParseFault>
    requires ready { Ready (state_of S.view page.old) }
    requires group { tag_group tag.now.name ≡ group }
    ensures { Follows S.view (end_row (state_of S.view page.old).mode group tag.now (state_of S.view page.old)) page.old
        page.new result }
{
    match page.kept.mode {
        InsertionMode::Initial => initial_other(page),
        InsertionMode::BeforeHtml => before_html_end(page, group),
        InsertionMode::BeforeHead => before_head_end(page, group),
        InsertionMode::InHead => in_head_end(page, group),
        InsertionMode::InHeadNoscript => in_head_noscript_end(page, group),
        InsertionMode::AfterHead => after_head_end(page, group),
        InsertionMode::InBody => in_body_end(page, group, tag),
        InsertionMode::Text => text_mode_end(page, group),
        InsertionMode::InTable => in_table_end(page, group, tag),
        InsertionMode::InTableText => in_table_text_other(page),
        InsertionMode::InCaption => in_caption_end(page, group, tag),
        InsertionMode::InColumnGroup => in_column_group_end(page, group),
        InsertionMode::InTableBody => in_table_body_end(page, group, tag),
        InsertionMode::InRow => in_row_end(page, group, tag),
        InsertionMode::InCell => in_cell_end(page, group, tag),
        InsertionMode::InTemplate => in_template_end(page, group),
        InsertionMode::AfterBody => after_body_end(page, group),
        InsertionMode::InFrameset => in_frameset_end(page, group),
        InsertionMode::AfterFrameset => after_frameset_end(page, group),
        InsertionMode::AfterAfterBody => after_after_body_end(page),
        InsertionMode::AfterAfterFrameset => Ok(Flow::Done),
    }
}
