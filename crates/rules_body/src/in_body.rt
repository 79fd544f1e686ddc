//! The "in body" insertion mode (WHATWG HTML, 13.2.6.4.7).
ghost use Rattle.std.specs.Prelude.{◌≡◌};
ghost use Rattle.rules_actions.specs.Follows.{Follows};
ghost use Rattle.rules_actions.specs.Parsed.{state_of};
ghost use Rattle.rules_table.specs.Settling.{Ready};
ghost use Rattle.tree_names.specs.Groups.{tag_group};
ghost use Rattle.rules_table.specs.InBody.{in_body_start};
ghost use Rattle.rules_table.specs.InBodyEnds.{in_body_end};
ghost use Rattle.rules_table.specs.InBodyPhrases.{in_body_phrase};

use crate::in_body_blocks::{
    block_start, body_start, button_start, definition_start, form_start, frameset_start,
    heading_start, list_item_start, plaintext_start, preformatted_start, table_start,
};
use crate::in_body_ends::{
    block_end, body_end, definition_end, form_end, formatting_end, heading_end, html_end,
    line_break_end, list_item_end, marked_end, other_end, p_end,
};
use crate::in_body_phrases::{
    anchor_start, formatting_start, iframe_start, image_start, input_start, marked_start,
    math_start, no_break_start, noembed_start, noscript_start, option_group_start, option_start,
    other_start, ruby_base_start, ruby_text_start, rule_start, select_start, svg_start,
    textarea_start, void_phrase_start, void_source_start, xmp_start,
};
use html_lexemes::{ParseFault, Tag};
use rules_actions::{Flow, Parse};
use rules_head::{html_start, in_head_start, template_end};
use rules_table::Target;
use tree_forest::TreeSink;
use tree_names::{TagGroup, formatting_groups_are_formatting};

/// A start tag.
pub fn in_body_start<S: TreeSink>(
    page: &mut Parse<S>,
    group: TagGroup,
    tag: &Tag,
) -> Result<Flow<S::Handle>, ParseFault>
    requires ready { Ready (state_of S.view page.old) }
    requires group { tag_group tag.now.name ≡ group }
    ensures { Follows S.view (in_body_start group tag.now (state_of S.view page.old)) page.old page.new result }
{
    match group {
        TagGroup::Html => html_start(page, tag),
        TagGroup::Base
        | TagGroup::Link
        | TagGroup::Meta
        | TagGroup::Noframes
        | TagGroup::Script
        | TagGroup::Style
        | TagGroup::Template
        | TagGroup::Title => in_head_start(page, Target::AtPlace, group, tag),
        TagGroup::Body => body_start(page, tag),
        TagGroup::Frameset => frameset_start(page, tag),
        TagGroup::Block | TagGroup::Paragraph => block_start(page, tag),
        TagGroup::Heading => heading_start(page, tag),
        TagGroup::Preformatted => preformatted_start(page, tag),
        TagGroup::Form => form_start(page, tag),
        TagGroup::ListItem => list_item_start(page, tag),
        TagGroup::Definition => definition_start(page, tag),
        TagGroup::Plaintext => plaintext_start(page, tag),
        TagGroup::Button => button_start(page, tag),
        TagGroup::Table => table_start(page, tag),
        TagGroup::Caption
        | TagGroup::Cell
        | TagGroup::Column
        | TagGroup::ColumnGroup
        | TagGroup::Frame
        | TagGroup::Head
        | TagGroup::Row
        | TagGroup::Section => Ok(Flow::Done),
        TagGroup::Anchor
        | TagGroup::Formatting
        | TagGroup::NoBreak
        | TagGroup::Marked
        | TagGroup::LineBreak
        | TagGroup::VoidPhrase
        | TagGroup::Input
        | TagGroup::VoidSource
        | TagGroup::HorizontalRule
        | TagGroup::Image
        | TagGroup::Textarea
        | TagGroup::Xmp
        | TagGroup::Iframe
        | TagGroup::Noembed
        | TagGroup::Noscript
        | TagGroup::Select
        | TagGroup::OptionItem
        | TagGroup::OptionGroup
        | TagGroup::RubyBase
        | TagGroup::RubyText
        | TagGroup::Math
        | TagGroup::Svg
        | TagGroup::Other => phrase_start(page, group, tag),
    }
}

/// A start tag of formatting, of an element without contents or of a control, and any other.
pub fn phrase_start<S: TreeSink>(
    page: &mut Parse<S>,
    group: TagGroup,
    tag: &Tag,
) -> Result<Flow<S::Handle>, ParseFault>
    requires ready { Ready (state_of S.view page.old) }
    requires group { tag_group tag.now.name ≡ group }
    ensures { Follows S.view (in_body_phrase group tag.now (state_of S.view page.old)) page.old page.new result }
{
    formatting_groups_are_formatting();
    match group {
        TagGroup::Anchor => anchor_start(page, tag),
        TagGroup::Formatting => formatting_start(page, tag),
        TagGroup::NoBreak => no_break_start(page, tag),
        TagGroup::Marked => marked_start(page, tag),
        TagGroup::LineBreak | TagGroup::VoidPhrase => void_phrase_start(page, tag),
        TagGroup::Input => input_start(page, tag),
        TagGroup::VoidSource => void_source_start(page, tag),
        TagGroup::HorizontalRule => rule_start(page, tag),
        TagGroup::Image => image_start(page, tag),
        TagGroup::Textarea => textarea_start(page, tag),
        TagGroup::Xmp => xmp_start(page, tag),
        TagGroup::Iframe => iframe_start(page, tag),
        TagGroup::Noembed => noembed_start(page, tag),
        TagGroup::Noscript => noscript_start(page, tag),
        TagGroup::Select => select_start(page, tag),
        TagGroup::OptionItem => option_start(page, tag),
        TagGroup::OptionGroup => option_group_start(page, tag),
        TagGroup::RubyBase => ruby_base_start(page, tag),
        TagGroup::RubyText => ruby_text_start(page, tag),
        TagGroup::Math => math_start(page, tag),
        TagGroup::Svg => svg_start(page, tag),
        _ => other_start(page, tag),
    }
}

/// An end tag.
pub fn in_body_end<S: TreeSink>(
    page: &mut Parse<S>,
    group: TagGroup,
    tag: &Tag,
) -> Result<Flow<S::Handle>, ParseFault>
    requires ready { Ready (state_of S.view page.old) }
    ensures { Follows S.view (in_body_end group tag.now (state_of S.view page.old)) page.old page.new result }
{
    match group {
        TagGroup::Template => template_end(page),
        TagGroup::Body => body_end(page),
        TagGroup::Html => html_end(page),
        TagGroup::Block | TagGroup::Button | TagGroup::Preformatted | TagGroup::Select => {
            block_end(page, tag)
        }
        TagGroup::Form => form_end(page),
        TagGroup::Paragraph => p_end(page),
        TagGroup::ListItem => list_item_end(page),
        TagGroup::Definition => definition_end(page, tag),
        TagGroup::Heading => heading_end(page),
        TagGroup::Anchor | TagGroup::Formatting | TagGroup::NoBreak => formatting_end(page, tag),
        TagGroup::Marked => marked_end(page, tag),
        TagGroup::LineBreak => line_break_end(page),
        _ => other_end(page, tag),
    }
}
