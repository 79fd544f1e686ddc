//! Start tags of formatting, of elements without contents and of controls in the "in body" insertion mode (WHATWG HTML,
//! 13.2.6.4.7).
ghost use Rattle.std.specs.Prelude.{◌≡◌, true};
ghost use Rattle.rules_actions.specs.Follows.{Follows};
ghost use Rattle.rules_actions.specs.Parsed.{state_of};
ghost use Rattle.rules_table.specs.Settling.{Ready};
ghost use Rattle.tree_names.specs.Sets.{is_one_of};
ghost use Rattle.tree_names.specs.TagSets.{formatting};
ghost use Rattle.rules_table.specs.InBodyPhrases.{anchor_start, formatting_start, iframe_start, image_start};
ghost use Rattle.rules_table.specs.InBodyPhrases.{input_start, marked_start, math_start, no_break_start, noembed_start};
ghost use Rattle.rules_table.specs.InBodyPhrases.{noscript_in_body, option_group_start, option_start, other_start};
ghost use Rattle.rules_table.specs.InBodyPhrases.{ruby_base_start, ruby_text_start, rule_start, select_start};
ghost use Rattle.rules_table.specs.InBodyPhrases.{svg_start, textarea_start, void_phrase_start, void_source_start};
ghost use Rattle.rules_table.specs.InBodyPhrases.{xmp_start};

use html_lexemes::states::RawKind;
use html_lexemes::{Namespace, ParseFault, Tag};
use rules_actions::{Flow, Parse};
use rules_head::read_raw;
use tree_forest::TreeSink;
use tree_names::ElementSet;
use tree_predicates::is_hidden;

/// "a": one that is listed after the last marker is closed.
pub fn anchor_start<S: TreeSink>(
    page: &mut Parse<S>,
    tag: &Tag,
) -> Result<Flow<S::Handle>, ParseFault>
    requires ready { Ready (state_of S.view page.old) }
    requires formatting { is_one_of formatting tag.now.name ≡ true }
    ensures { Follows S.view (anchor_start tag.now (state_of S.view page.old)) page.old page.new result }
{
    let Some(listed) = page.tree.last_listed(&tag.name) else {
        return formatting_start(page, tag);
    };
    page.adopt(&tag.name)?;
    page.unlist(listed);
    page.take_off_element(listed);
    page.reconstruct()?;
    page.insert_formatting(tag)?;
    Ok(Flow::Done)
}

/// "b" to "u".
pub fn formatting_start<S: TreeSink>(
    page: &mut Parse<S>,
    tag: &Tag,
) -> Result<Flow<S::Handle>, ParseFault>
    requires ready { Ready (state_of S.view page.old) }
    requires formatting { is_one_of formatting tag.now.name ≡ true }
    ensures { Follows S.view (formatting_start tag.now) page.old page.new result }
{
    page.reconstruct()?;
    page.insert_formatting(tag)?;
    Ok(Flow::Done)
}

/// "nobr": one that is in scope is closed.
pub fn no_break_start<S: TreeSink>(
    page: &mut Parse<S>,
    tag: &Tag,
) -> Result<Flow<S::Handle>, ParseFault>
    requires ready { Ready (state_of S.view page.old) }
    requires formatting { is_one_of formatting tag.now.name ≡ true }
    ensures { Follows S.view (no_break_start tag.now) page.old page.new result }
{
    page.reconstruct()?;
    page.adopt_in_scope(&tag.name)?;
    page.insert_formatting(tag)?;
    Ok(Flow::Done)
}

/// "applet", "marquee" and "object".
pub fn marked_start<S: TreeSink>(
    page: &mut Parse<S>,
    tag: &Tag,
) -> Result<Flow<S::Handle>, ParseFault>
    requires ready { Ready (state_of S.view page.old) }
    ensures { Follows S.view (marked_start tag.now) page.old page.new result }
{
    page.reconstruct()?;
    page.insert(tag)?;
    page.put_marker()?;
    page.refuse_frameset();
    Ok(Flow::Done)
}

/// "area", "br", "embed", "img", "keygen" and "wbr".
pub fn void_phrase_start<S: TreeSink>(
    page: &mut Parse<S>,
    tag: &Tag,
) -> Result<Flow<S::Handle>, ParseFault>
    requires ready { Ready (state_of S.view page.old) }
    ensures { Follows S.view (void_phrase_start tag.now) page.old page.new result }
{
    page.reconstruct()?;
    page.insert_void(tag)?;
    page.refuse_frameset();
    Ok(Flow::Done)
}

/// "image", which is taken as "img".
pub fn image_start<S: TreeSink>(
    page: &mut Parse<S>,
    tag: &Tag,
) -> Result<Flow<S::Handle>, ParseFault>
    requires ready { Ready (state_of S.view page.old) }
    ensures { Follows S.view (image_start tag.now) page.old page.new result }
{
    page.reconstruct()?;
    page.insert_void_as("img", tag)?;
    page.refuse_frameset();
    Ok(Flow::Done)
}

/// "input": an open select is closed.
pub fn input_start<S: TreeSink>(
    page: &mut Parse<S>,
    tag: &Tag,
) -> Result<Flow<S::Handle>, ParseFault>
    requires ready { Ready (state_of S.view page.old) }
    ensures { Follows S.view (input_start tag.now (state_of S.view page.old)) page.old page.new result }
{
    if page.in_scope(ElementSet::Select) {
        page.pop_to(ElementSet::Select)?;
    }
    page.reconstruct()?;
    page.insert_void(tag)?;
    if is_hidden(&tag.attrs) {
        return Ok(Flow::Done);
    }
    page.refuse_frameset();
    Ok(Flow::Done)
}

/// "param", "source" and "track".
pub fn void_source_start<S: TreeSink>(
    page: &mut Parse<S>,
    tag: &Tag,
) -> Result<Flow<S::Handle>, ParseFault>
    requires ready { Ready (state_of S.view page.old) }
    ensures { Follows S.view (void_source_start tag.now) page.old page.new result }
{
    page.insert_void(tag)?;
    Ok(Flow::Done)
}

/// "hr": in an open select options are closed.
pub fn rule_start<S: TreeSink>(
    page: &mut Parse<S>,
    tag: &Tag,
) -> Result<Flow<S::Handle>, ParseFault>
    requires ready { Ready (state_of S.view page.old) }
    ensures { Follows S.view (rule_start tag.now (state_of S.view page.old)) page.old page.new result }
{
    if page.in_scope(ElementSet::Select) {
        page.imply_but(ElementSet::Nothing)?;
    }
    page.close_p()?;
    page.insert_void(tag)?;
    page.refuse_frameset();
    Ok(Flow::Done)
}

/// "textarea".
pub fn textarea_start<S: TreeSink>(
    page: &mut Parse<S>,
    tag: &Tag,
) -> Result<Flow<S::Handle>, ParseFault>
    requires ready { Ready (state_of S.view page.old) }
    ensures { Follows S.view (textarea_start tag.now) page.old page.new result }
{
    page.insert(tag)?;
    page.skip_next_line_feed();
    page.refuse_frameset();
    Ok(read_raw(page, RawKind::Rcdata))
}

/// "xmp".
pub fn xmp_start<S: TreeSink>(page: &mut Parse<S>, tag: &Tag) -> Result<Flow<S::Handle>, ParseFault>
    requires ready { Ready (state_of S.view page.old) }
    ensures { Follows S.view (xmp_start tag.now) page.old page.new result }
{
    page.close_p()?;
    page.reconstruct()?;
    page.refuse_frameset();
    page.insert(tag)?;
    Ok(read_raw(page, RawKind::Rawtext))
}

/// "iframe".
pub fn iframe_start<S: TreeSink>(
    page: &mut Parse<S>,
    tag: &Tag,
) -> Result<Flow<S::Handle>, ParseFault>
    requires ready { Ready (state_of S.view page.old) }
    ensures { Follows S.view (iframe_start tag.now) page.old page.new result }
{
    page.refuse_frameset();
    page.insert(tag)?;
    Ok(read_raw(page, RawKind::Rawtext))
}

/// "noembed".
pub fn noembed_start<S: TreeSink>(
    page: &mut Parse<S>,
    tag: &Tag,
) -> Result<Flow<S::Handle>, ParseFault>
    requires ready { Ready (state_of S.view page.old) }
    ensures { Follows S.view (noembed_start tag.now) page.old page.new result }
{
    page.insert(tag)?;
    Ok(read_raw(page, RawKind::Rawtext))
}

/// "noscript", whose contents are text where scripts would run.
pub fn noscript_start<S: TreeSink>(
    page: &mut Parse<S>,
    tag: &Tag,
) -> Result<Flow<S::Handle>, ParseFault>
    requires ready { Ready (state_of S.view page.old) }
    ensures { Follows S.view (noscript_in_body tag.now (state_of S.view page.old)) page.old page.new result }
{
    if page.kept.options.scripting_enabled {
        return noembed_start(page, tag);
    }
    other_start(page, tag)
}

/// "select": an open one is closed.
pub fn select_start<S: TreeSink>(
    page: &mut Parse<S>,
    tag: &Tag,
) -> Result<Flow<S::Handle>, ParseFault>
    requires ready { Ready (state_of S.view page.old) }
    ensures { Follows S.view (select_start tag.now (state_of S.view page.old)) page.old page.new result }
{
    if page.in_scope(ElementSet::Select) {
        page.pop_to(ElementSet::Select)?;
        return Ok(Flow::Done);
    }
    page.reconstruct()?;
    page.insert(tag)?;
    page.refuse_frameset();
    Ok(Flow::Done)
}

/// "option".
pub fn option_start<S: TreeSink>(
    page: &mut Parse<S>,
    tag: &Tag,
) -> Result<Flow<S::Handle>, ParseFault>
    requires ready { Ready (state_of S.view page.old) }
    ensures { Follows S.view (option_start tag.now (state_of S.view page.old)) page.old page.new result }
{
    if page.in_scope(ElementSet::Select) {
        page.imply_but(ElementSet::OptionGroup)?;
    } else {
        page.pop_if(ElementSet::OptionItem)?;
    }
    page.reconstruct()?;
    page.insert(tag)?;
    Ok(Flow::Done)
}

/// "optgroup".
pub fn option_group_start<S: TreeSink>(
    page: &mut Parse<S>,
    tag: &Tag,
) -> Result<Flow<S::Handle>, ParseFault>
    requires ready { Ready (state_of S.view page.old) }
    ensures { Follows S.view (option_group_start tag.now (state_of S.view page.old)) page.old page.new result }
{
    if page.in_scope(ElementSet::Select) {
        page.imply_but(ElementSet::Nothing)?;
    } else {
        page.pop_if(ElementSet::OptionItem)?;
    }
    page.reconstruct()?;
    page.insert(tag)?;
    Ok(Flow::Done)
}

/// "rb" and "rtc".
pub fn ruby_base_start<S: TreeSink>(
    page: &mut Parse<S>,
    tag: &Tag,
) -> Result<Flow<S::Handle>, ParseFault>
    requires ready { Ready (state_of S.view page.old) }
    ensures { Follows S.view (ruby_base_start tag.now (state_of S.view page.old)) page.old page.new result }
{
    if page.in_scope(ElementSet::Ruby) {
        page.imply_but(ElementSet::Nothing)?;
    }
    page.insert(tag)?;
    Ok(Flow::Done)
}

/// "rp" and "rt".
pub fn ruby_text_start<S: TreeSink>(
    page: &mut Parse<S>,
    tag: &Tag,
) -> Result<Flow<S::Handle>, ParseFault>
    requires ready { Ready (state_of S.view page.old) }
    ensures { Follows S.view (ruby_text_start tag.now (state_of S.view page.old)) page.old page.new result }
{
    if page.in_scope(ElementSet::Ruby) {
        page.imply_but(ElementSet::RubyTextContainer)?;
    }
    page.insert(tag)?;
    Ok(Flow::Done)
}

/// Any other start tag.
pub fn other_start<S: TreeSink>(
    page: &mut Parse<S>,
    tag: &Tag,
) -> Result<Flow<S::Handle>, ParseFault>
    requires ready { Ready (state_of S.view page.old) }
    ensures { Follows S.view (other_start tag.now) page.old page.new result }
{
    page.reconstruct()?;
    page.insert(tag)?;
    Ok(Flow::Done)
}

/// "math".
pub fn math_start<S: TreeSink>(
    page: &mut Parse<S>,
    tag: &Tag,
) -> Result<Flow<S::Handle>, ParseFault>
    requires ready { Ready (state_of S.view page.old) }
    ensures { Follows S.view (math_start tag.now) page.old page.new result }
{
    page.reconstruct()?;
    page.insert_foreign(Namespace::MathMl, tag)?;
    Ok(Flow::Done)
}

/// "svg".
pub fn svg_start<S: TreeSink>(page: &mut Parse<S>, tag: &Tag) -> Result<Flow<S::Handle>, ParseFault>
    requires ready { Ready (state_of S.view page.old) }
    ensures { Follows S.view (svg_start tag.now) page.old page.new result }
{
    page.reconstruct()?;
    page.insert_foreign(Namespace::Svg, tag)?;
    Ok(Flow::Done)
}
