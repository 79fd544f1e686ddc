//! The "in head" insertion mode (WHATWG HTML, 13.2.6.4.4).
ghost use Rattle.html_lexemes.specs.declared.states.RawKind.TheVariants.{ScriptData};
ghost use Rattle.tree_names.specs.declared.group.TagGroup.TheVariants.{Template};
ghost use Rattle.rules_actions.specs.Follows.{Follows};
ghost use Rattle.rules_actions.specs.Parsed.{state_of};
ghost use Rattle.rules_table.specs.Settling.{Ready};
ghost use Rattle.std.specs.Prelude.{[], ◌∷◌};
ghost use Rattle.rules_table.specs.Actions.{insert, insert_void};
ghost use Rattle.rules_table.specs.InHead.{asks_encoding, head_closed, in_head_end, in_head_start, noscript_start};
ghost use Rattle.rules_table.specs.InHead.{template_end};
ghost use Rattle.rules_table.specs.Rows.{again, reads_raw};
ghost use Rattle.rules_table.specs.Encodings.{named_encoding};

use crate::html_tag::html_start;
use crate::raw_text::read_raw;
use html_lexemes::states::RawKind;
use html_lexemes::{ParseFault, Tag, Text, TokenSinkResult};
use rules_actions::{Flow, Parse};
use rules_table::{Target, named_encoding};
use tree_forest::TreeSink;
use tree_names::{ElementSet, TagGroup};
use tree_predicates::InsertionMode;

/// A start tag, whose element is inserted at the appropriate place or into the head.
pub fn in_head_start<S: TreeSink>(
    page: &mut Parse<S>,
    target: Target,
    group: TagGroup,
    tag: &Tag,
) -> Result<Flow<S::Handle>, ParseFault>
    requires ready { Ready (state_of S.view page.old) }
    ensures { Follows S.view (in_head_start target group tag.now (state_of S.view page.old)) page.old page.new result }
{
    match group {
        TagGroup::Html => html_start(page, tag),
        TagGroup::Base | TagGroup::Link => {
            page.insert_void_at(target, tag)?;
            Ok(Flow::Done)
        }
        TagGroup::Meta => meta_start(page, target, tag),
        TagGroup::Title => raw_start(page, target, tag, RawKind::Rcdata),
        TagGroup::Noscript => noscript_in_head(page, target, tag),
        TagGroup::Noframes | TagGroup::Style => raw_start(page, target, tag, RawKind::Rawtext),
        TagGroup::Script => script_start(page, target, tag),
        TagGroup::Template => template_start(page, target, tag),
        TagGroup::Head => Ok(Flow::Done),
        _ => close_head(page),
    }
}

/// "meta": one that names an encoding asks for a look at it.
pub fn meta_start<S: TreeSink>(
    page: &mut Parse<S>,
    target: Target,
    tag: &Tag,
) -> Result<Flow<S::Handle>, ParseFault>
    requires ready { Ready (state_of S.view page.old) }
    ensures { Follows S.view (asks_encoding (named_encoding tag.now.attrs) (insert_void target tag.now ∷ [])) page.old
        page.new result }
{
    page.insert_void_at(target, tag)?;
    let Some(encoding) = named_encoding(&tag.attrs) else {
        return Ok(Flow::Done);
    };
    let encoding = Text::from_str(*page.kept.template_modes.allocator(), encoding)?;
    Ok(Flow::Asks(TokenSinkResult::EncodingIndicator(encoding)))
}

// "script": one of a fragment must not run
fn script_start<S: TreeSink>(
    page: &mut Parse<S>,
    target: Target,
    tag: &Tag,
) -> Result<Flow<S::Handle>, ParseFault>
    requires ready { Ready (state_of S.view page.old) }
    ensures { Follows S.view (reads_raw ScriptData (insert target tag.now ∷ [])) page.old page.new result }
{
    page.insert_at(target, tag)?;
    page.mark_script_of_fragment()?;
    Ok(read_raw(page, RawKind::ScriptData))
}

/// An element whose contents are text.
pub fn raw_start<S: TreeSink>(
    page: &mut Parse<S>,
    target: Target,
    tag: &Tag,
    kind: RawKind,
) -> Result<Flow<S::Handle>, ParseFault>
    requires ready { Ready (state_of S.view page.old) }
    ensures { Follows S.view (reads_raw kind (insert target tag.now ∷ [])) page.old page.new result }
{
    page.insert_at(target, tag)?;
    Ok(read_raw(page, kind))
}

/// "noscript", whose contents are text where scripts would run.
pub fn noscript_in_head<S: TreeSink>(
    page: &mut Parse<S>,
    target: Target,
    tag: &Tag,
) -> Result<Flow<S::Handle>, ParseFault>
    requires ready { Ready (state_of S.view page.old) }
    ensures { Follows S.view (noscript_start (state_of S.view page.old).options.scripting_enabled target tag.now)
        page.old page.new result }
{
    if page.kept.options.scripting_enabled {
        return raw_start(page, target, tag, RawKind::Rawtext);
    }
    page.insert_at(target, tag)?;
    page.go_to(InsertionMode::InHeadNoscript);
    Ok(Flow::Done)
}

/// "template": its contents are taken by modes of their own.
pub fn template_start<S: TreeSink>(
    page: &mut Parse<S>,
    target: Target,
    tag: &Tag,
) -> Result<Flow<S::Handle>, ParseFault>
    requires ready { Ready (state_of S.view page.old) }
    ensures { Follows S.view (in_head_start target Template tag.now (state_of S.view page.old)) page.old page.new
        result }
{
    page.insert_at(target, tag)?;
    page.put_marker()?;
    page.refuse_frameset();
    page.go_to(InsertionMode::InTemplate);
    page.push_template_mode(InsertionMode::InTemplate)?;
    Ok(Flow::Done)
}

/// An end tag.
pub fn in_head_end<S: TreeSink>(
    page: &mut Parse<S>,
    group: TagGroup,
) -> Result<Flow<S::Handle>, ParseFault>
    requires ready { Ready (state_of S.view page.old) }
    ensures { Follows S.view (in_head_end group (state_of S.view page.old)) page.old page.new result }
{
    match group {
        TagGroup::Head => {
            page.pop()?;
            page.go_to(InsertionMode::AfterHead);
            Ok(Flow::Done)
        }
        TagGroup::Body | TagGroup::Html | TagGroup::LineBreak => close_head(page),
        TagGroup::Template => template_end(page),
        _ => Ok(Flow::Done),
    }
}

/// An end tag "template".
pub fn template_end<S: TreeSink>(page: &mut Parse<S>) -> Result<Flow<S::Handle>, ParseFault>
    requires ready { Ready (state_of S.view page.old) }
    ensures { Follows S.view (template_end (state_of S.view page.old)) page.old page.new result }
{
    if !page.has_template() {
        return Ok(Flow::Done);
    }
    page.imply_but(ElementSet::Nothing)?;
    page.pop_to(ElementSet::Template)?;
    page.clear_to_marker();
    page.pop_template_mode();
    page.reset();
    Ok(Flow::Done)
}

/// Anything else: the head is closed.
pub fn close_head<S: TreeSink>(page: &mut Parse<S>) -> Result<Flow<S::Handle>, ParseFault>
    requires ready { Ready (state_of S.view page.old) }
    ensures { Follows S.view (again head_closed) page.old page.new result }
{
    page.pop()?;
    page.go_to(InsertionMode::AfterHead);
    Ok(Flow::Again)
}
