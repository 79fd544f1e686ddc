//! What takes a mark: the rules of the mode, or those for foreign content (WHATWG HTML, 13.2.6 and 13.2.6.5).
ghost use Rattle.std.specs.Prelude.{◌≡◌};
ghost use Rattle.tree_names.specs.Groups.{tag_group};
ghost use Rattle.rules_actions.specs.Follows.{Follows};
ghost use Rattle.rules_actions.specs.Parsed.{state_of};
ghost use Rattle.rules_table.specs.Settling.{Ready, mark_by};
ghost use Rattle.rules_table.specs.ForeignContent.{foreign_null};
ghost use Rattle.rules_table.specs.Rule.{rule};
ghost use Rattle.rules_table.specs.State.{comment, doctype as doctype_mark, end_of_file, finish, null, start};
ghost use Rattle.html_lexemes.specs.declared.token.TagKind.TheVariants.{EndTag, StartTag};

use crate::others;
use crate::tags::{end_tag, start_tag};
use crate::text_rules::hand_text_on;
use html_lexemes::{Doctype, ParseFault, Tag, TagKind, Text};
use rules_actions::{Flow, Parse};
use rules_rest::{
    close_foreign_end, foreign_start, is_html_here, takes_start_here, takes_text_here,
};
use tree_forest::TreeSink;
use tree_names::TagGroup;
use tree_predicates::breaks_out;

/// A tag.
pub fn tag_rule<S: TreeSink>(
    page: &mut Parse<S>,
    group: TagGroup,
    tag: &Tag,
) -> Result<Flow<S::Handle>, ParseFault>
    requires ready { Ready (state_of S.view page.old) }
    requires group { tag_group tag.now.name ≡ group }
    ensures { Follows S.view (rule (mark_by tag.now.kind tag.now) (state_of S.view page.old)) page.old page.new result }
{
    match tag.kind {
        TagKind::StartTag => start_rule(page, group, tag),
        TagKind::EndTag => end_rule(page, group, tag),
    }
}

// a start tag
fn start_rule<S: TreeSink>(
    page: &mut Parse<S>,
    group: TagGroup,
    tag: &Tag,
) -> Result<Flow<S::Handle>, ParseFault>
    requires ready { Ready (state_of S.view page.old) }
    requires group { tag_group tag.now.name ≡ group }
    ensures { Follows S.view (rule (start tag.now) (state_of S.view page.old)) page.old page.new result }
{
    if takes_start_here(page, tag) {
        return start_tag(page, group, tag);
    }
    if !breaks_out(tag) {
        return foreign_start(page, tag);
    }
    page.break_out()?;
    start_tag(page, group, tag)
}

// an end tag
fn end_rule<S: TreeSink>(
    page: &mut Parse<S>,
    group: TagGroup,
    tag: &Tag,
) -> Result<Flow<S::Handle>, ParseFault>
    requires ready { Ready (state_of S.view page.old) }
    requires group { tag_group tag.now.name ≡ group }
    ensures { Follows S.view (rule (finish tag.now) (state_of S.view page.old)) page.old page.new result }
{
    if is_html_here(page) {
        return end_tag(page, group, tag);
    }
    if breaks_out(tag) {
        page.break_out()?;
        return end_tag(page, group, tag);
    }
    if close_foreign_end(page, tag)? {
        return Ok(Flow::Done);
    }
    end_tag(page, group, tag)
}

/// A comment.
pub fn comment_rule<S: TreeSink>(
    page: &mut Parse<S>,
    text: &Text,
) -> Result<Flow<S::Handle>, ParseFault>
    requires ready { Ready (state_of S.view page.old) }
    ensures { Follows S.view (rule (comment text.now) (state_of S.view page.old)) page.old page.new result }
{
    if is_html_here(page) {
        return others::comment(page, text);
    }
    page.insert_comment(text.try_clone()?)?;
    Ok(Flow::Done)
}

/// A doctype.
pub fn doctype_rule<S: TreeSink>(
    page: &mut Parse<S>,
    doctype: &Doctype,
) -> Result<Flow<S::Handle>, ParseFault>
    requires ready { Ready (state_of S.view page.old) }
    ensures { Follows S.view (rule (doctype_mark doctype.now) (state_of S.view page.old)) page.old page.new result }
{
    if is_html_here(page) {
        return others::doctype(page, doctype);
    }
    Ok(Flow::Done)
}

/// NUL.
pub fn null_rule<S: TreeSink>(page: &mut Parse<S>) -> Result<Flow<S::Handle>, ParseFault>
    requires ready { Ready (state_of S.view page.old) }
    ensures { Follows S.view (rule null (state_of S.view page.old)) page.old page.new result }
{
    if takes_text_here(page) {
        return hand_text_on(page, false);
    }
    say_replacement(page)
}

/// The end of the page.
pub fn page_end_rule<S: TreeSink>(page: &mut Parse<S>) -> Result<Flow<S::Handle>, ParseFault>
    requires ready { Ready (state_of S.view page.old) }
    ensures { Follows S.view (rule end_of_file (state_of S.view page.old)) page.old page.new result }
{
    others::page_end(page)
}

// U+FFFD is inserted
fn say_replacement<S: TreeSink>(page: &mut Parse<S>) -> Result<Flow<S::Handle>, ParseFault>
    requires ready { Ready (state_of S.view page.old) }
    ensures { Follows S.view foreign_null page.old page.new result }
{
    let alloc = *page.kept.template_modes.allocator();
    let replacement = Text::from_str(alloc, "\u{fffd}")?;
    page.say(replacement)?;
    Ok(Flow::Done)
}
