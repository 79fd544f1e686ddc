//! End tags in the "in body" insertion mode (WHATWG HTML, 13.2.6.4.7).
ghost use Rattle.rules_actions.specs.Follows.{Follows};
ghost use Rattle.rules_actions.specs.Parsed.{state_of};
ghost use Rattle.rules_table.specs.Settling.{Ready};
ghost use Rattle.std.specs.Prelude.{[], ◌∷◌};
ghost use Rattle.rules_table.specs.Actions.{adopt, close_other};
ghost use Rattle.rules_table.specs.InBodyEnds.{block_end, body_end, definition_end, form_end, heading_end, html_end};
ghost use Rattle.rules_table.specs.InBodyEnds.{line_break_end, list_item_end, marked_end, p_end};
ghost use Rattle.rules_table.specs.Rows.{done};

use html_lexemes::{ParseFault, Tag};
use rules_actions::{Flow, Parse};
use tree_forest::TreeSink;
use tree_names::ElementSet;
use tree_predicates::InsertionMode;

/// "body".
pub fn body_end<S: TreeSink>(page: &mut Parse<S>) -> Result<Flow<S::Handle>, ParseFault>
    requires ready { Ready (state_of S.view page.old) }
    ensures { Follows S.view (body_end (state_of S.view page.old)) page.old page.new result }
{
    if page.in_scope(ElementSet::Body) {
        page.go_to(InsertionMode::AfterBody);
    }
    Ok(Flow::Done)
}

/// "html".
pub fn html_end<S: TreeSink>(page: &mut Parse<S>) -> Result<Flow<S::Handle>, ParseFault>
    requires ready { Ready (state_of S.view page.old) }
    ensures { Follows S.view (html_end (state_of S.view page.old)) page.old page.new result }
{
    if page.in_scope(ElementSet::Body) {
        page.go_to(InsertionMode::AfterBody);
        return Ok(Flow::Again);
    }
    Ok(Flow::Done)
}

/// "address" to "ul", "button", "listing", "pre" and "select".
pub fn block_end<S: TreeSink>(page: &mut Parse<S>, tag: &Tag) -> Result<Flow<S::Handle>, ParseFault>
    requires ready { Ready (state_of S.view page.old) }
    ensures { Follows S.view (block_end tag.now (state_of S.view page.old)) page.old page.new result }
{
    if page.in_scope(ElementSet::Named(&tag.name)) {
        page.imply_but(ElementSet::Nothing)?;
        page.pop_to(ElementSet::Named(&tag.name))?;
    }
    Ok(Flow::Done)
}

/// "form".
pub fn form_end<S: TreeSink>(page: &mut Parse<S>) -> Result<Flow<S::Handle>, ParseFault>
    requires ready { Ready (state_of S.view page.old) }
    ensures { Follows S.view (form_end (state_of S.view page.old)) page.old page.new result }
{
    if page.has_template() {
        if page.in_scope(ElementSet::Form) {
            page.imply_but(ElementSet::Nothing)?;
            page.pop_to(ElementSet::Form)?;
        }
        return Ok(Flow::Done);
    }
    let Some(form) = page.kept.form else {
        return Ok(Flow::Done);
    };
    let is_in_scope = page.is_itself_in_scope(form);
    page.forget_form();
    if is_in_scope {
        page.imply_but(ElementSet::Nothing)?;
        page.take_off(form);
    }
    Ok(Flow::Done)
}

/// "p": one is made where none is open.
pub fn p_end<S: TreeSink>(page: &mut Parse<S>) -> Result<Flow<S::Handle>, ParseFault>
    requires ready { Ready (state_of S.view page.old) }
    ensures { Follows S.view (p_end (state_of S.view page.old)) page.old page.new result }
{
    if page.in_button_scope(ElementSet::Paragraph) {
        page.close_p()?;
        return Ok(Flow::Done);
    }
    page.insert_named("p")?;
    page.close_p()?;
    Ok(Flow::Done)
}

/// "li".
pub fn list_item_end<S: TreeSink>(page: &mut Parse<S>) -> Result<Flow<S::Handle>, ParseFault>
    requires ready { Ready (state_of S.view page.old) }
    ensures { Follows S.view (list_item_end (state_of S.view page.old)) page.old page.new result }
{
    if page.in_list_item_scope(ElementSet::ListItem) {
        page.imply_but(ElementSet::ListItem)?;
        page.pop_to(ElementSet::ListItem)?;
    }
    Ok(Flow::Done)
}

/// "dd" and "dt".
pub fn definition_end<S: TreeSink>(
    page: &mut Parse<S>,
    tag: &Tag,
) -> Result<Flow<S::Handle>, ParseFault>
    requires ready { Ready (state_of S.view page.old) }
    ensures { Follows S.view (definition_end tag.now (state_of S.view page.old)) page.old page.new result }
{
    if page.in_scope(ElementSet::Named(&tag.name)) {
        page.imply_but(ElementSet::Named(&tag.name))?;
        page.pop_to(ElementSet::Named(&tag.name))?;
    }
    Ok(Flow::Done)
}

/// "h1" to "h6".
pub fn heading_end<S: TreeSink>(page: &mut Parse<S>) -> Result<Flow<S::Handle>, ParseFault>
    requires ready { Ready (state_of S.view page.old) }
    ensures { Follows S.view (heading_end (state_of S.view page.old)) page.old page.new result }
{
    if page.in_scope(ElementSet::Heading) {
        page.imply_but(ElementSet::Nothing)?;
        page.pop_to(ElementSet::Heading)?;
    }
    Ok(Flow::Done)
}

/// "a", "nobr" and "b" to "u".
pub fn formatting_end<S: TreeSink>(
    page: &mut Parse<S>,
    tag: &Tag,
) -> Result<Flow<S::Handle>, ParseFault>
    requires ready { Ready (state_of S.view page.old) }
    ensures { Follows S.view (done (adopt tag.now.name ∷ [])) page.old page.new result }
{
    page.adopt(&tag.name)?;
    Ok(Flow::Done)
}

/// "applet", "marquee" and "object".
pub fn marked_end<S: TreeSink>(
    page: &mut Parse<S>,
    tag: &Tag,
) -> Result<Flow<S::Handle>, ParseFault>
    requires ready { Ready (state_of S.view page.old) }
    ensures { Follows S.view (marked_end tag.now (state_of S.view page.old)) page.old page.new result }
{
    if !page.in_scope(ElementSet::Named(&tag.name)) {
        return Ok(Flow::Done);
    }
    page.imply_but(ElementSet::Nothing)?;
    page.pop_to(ElementSet::Named(&tag.name))?;
    page.clear_to_marker();
    Ok(Flow::Done)
}

/// "br", which is taken as its start tag.
pub fn line_break_end<S: TreeSink>(page: &mut Parse<S>) -> Result<Flow<S::Handle>, ParseFault>
    requires ready { Ready (state_of S.view page.old) }
    ensures { Follows S.view (line_break_end) page.old page.new result }
{
    page.reconstruct()?;
    page.insert_void_named("br")?;
    page.refuse_frameset();
    Ok(Flow::Done)
}

/// Any other end tag.
pub fn other_end<S: TreeSink>(page: &mut Parse<S>, tag: &Tag) -> Result<Flow<S::Handle>, ParseFault>
    requires ready { Ready (state_of S.view page.old) }
    ensures { Follows S.view (done (close_other tag.now.name ∷ [])) page.old page.new result }
{
    page.close_other(&tag.name)?;
    Ok(Flow::Done)
}
