//! The "in template" insertion mode (WHATWG HTML, 13.2.6.4.16).
ghost use Rattle.rules_actions.specs.Follows.{Follows};
ghost use Rattle.rules_actions.specs.Parsed.{state_of};
ghost use Rattle.rules_table.specs.Settling.{Ready};
ghost use Rattle.rules_table.specs.InTemplate.{becomes, in_template_end, in_template_start};

use html_lexemes::{ParseFault, Tag};
use rules_actions::{Flow, Parse};
use rules_head::{in_head_start, template_end};
use rules_table::Target;
use tree_forest::TreeSink;
use tree_names::TagGroup;
use tree_predicates::InsertionMode;

/// A start tag: by the first one, the template's contents are those of another mode.
pub fn in_template_start<S: TreeSink>(
    page: &mut Parse<S>,
    group: TagGroup,
    tag: &Tag,
) -> Result<Flow<S::Handle>, ParseFault>
    requires ready { Ready (state_of S.view page.old) }
    ensures { Follows S.view (in_template_start group tag.now (state_of S.view page.old)) page.old page.new result }
{
    match group {
        TagGroup::Base
        | TagGroup::Link
        | TagGroup::Meta
        | TagGroup::Noframes
        | TagGroup::Script
        | TagGroup::Style
        | TagGroup::Template
        | TagGroup::Title => in_head_start(page, Target::AtPlace, group, tag),
        TagGroup::Caption | TagGroup::ColumnGroup | TagGroup::Section => {
            becomes(page, InsertionMode::InTable)
        }
        TagGroup::Column => becomes(page, InsertionMode::InColumnGroup),
        TagGroup::Row => becomes(page, InsertionMode::InTableBody),
        TagGroup::Cell => becomes(page, InsertionMode::InRow),
        _ => becomes(page, InsertionMode::InBody),
    }
}

/// The template's contents are those of another mode.
pub fn becomes<S: TreeSink>(
    page: &mut Parse<S>,
    mode: InsertionMode,
) -> Result<Flow<S::Handle>, ParseFault>
    requires ready { Ready (state_of S.view page.old) }
    ensures { Follows S.view (becomes mode) page.old page.new result }
{
    page.pop_template_mode();
    page.push_template_mode(mode)?;
    page.go_to(mode);
    Ok(Flow::Again)
}

/// An end tag.
pub fn in_template_end<S: TreeSink>(
    page: &mut Parse<S>,
    group: TagGroup,
) -> Result<Flow<S::Handle>, ParseFault>
    requires ready { Ready (state_of S.view page.old) }
    ensures { Follows S.view (in_template_end group (state_of S.view page.old)) page.old page.new result }
{
    match group {
        TagGroup::Template => template_end(page),
        _ => Ok(Flow::Done),
    }
}
