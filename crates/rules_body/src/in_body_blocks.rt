//! Start tags of blocks, lists and forms in the "in body" insertion mode (WHATWG HTML, 13.2.6.4.7).
ghost use Rattle.rules_actions.specs.Follows.{Follows};
ghost use Rattle.rules_actions.specs.Parsed.{state_of};
ghost use Rattle.rules_table.specs.Settling.{Ready};
ghost use Rattle.rules_table.specs.InBodyBlocks.{block_start, body_start, button_start, definition_start, form_start};
ghost use Rattle.rules_table.specs.InBodyBlocks.{frameset_start, heading_start, list_item_start, plaintext_start};
ghost use Rattle.rules_table.specs.InBodyBlocks.{preformatted_start, table_start};

use html_lexemes::{ParseFault, Tag, TokenSinkResult};
use rules_actions::{Flow, Parse};
use tree_forest::{QuirksMode, TreeSink};
use tree_names::ElementSet;
use tree_predicates::InsertionMode;

/// "address" to "ul".
pub fn block_start<S: TreeSink>(
    page: &mut Parse<S>,
    tag: &Tag,
) -> Result<Flow<S::Handle>, ParseFault>
    requires ready { Ready (state_of S.view page.old) }
    ensures { Follows S.view (block_start tag.now) page.old page.new result }
{
    page.close_p()?;
    page.insert(tag)?;
    Ok(Flow::Done)
}

/// "h1" to "h6": a heading that is the current node is closed.
pub fn heading_start<S: TreeSink>(
    page: &mut Parse<S>,
    tag: &Tag,
) -> Result<Flow<S::Handle>, ParseFault>
    requires ready { Ready (state_of S.view page.old) }
    ensures { Follows S.view (heading_start tag.now) page.old page.new result }
{
    page.close_p()?;
    page.pop_if(ElementSet::Heading)?;
    page.insert(tag)?;
    Ok(Flow::Done)
}

/// "pre" and "listing".
pub fn preformatted_start<S: TreeSink>(
    page: &mut Parse<S>,
    tag: &Tag,
) -> Result<Flow<S::Handle>, ParseFault>
    requires ready { Ready (state_of S.view page.old) }
    ensures { Follows S.view (preformatted_start tag.now) page.old page.new result }
{
    page.close_p()?;
    page.insert(tag)?;
    page.skip_next_line_feed();
    page.refuse_frameset();
    Ok(Flow::Done)
}

/// "form": one that is open, but for a template, is the only one.
pub fn form_start<S: TreeSink>(
    page: &mut Parse<S>,
    tag: &Tag,
) -> Result<Flow<S::Handle>, ParseFault>
    requires ready { Ready (state_of S.view page.old) }
    ensures { Follows S.view (form_start tag.now (state_of S.view page.old)) page.old page.new result }
{
    if page.has_form() {
        return Ok(Flow::Done);
    }
    let is_in_template = page.has_template();
    page.close_p()?;
    page.insert(tag)?;
    if is_in_template {
        return Ok(Flow::Done);
    }
    page.keep_form();
    Ok(Flow::Done)
}

/// "li".
pub fn list_item_start<S: TreeSink>(
    page: &mut Parse<S>,
    tag: &Tag,
) -> Result<Flow<S::Handle>, ParseFault>
    requires ready { Ready (state_of S.view page.old) }
    ensures { Follows S.view (list_item_start tag.now) page.old page.new result }
{
    page.refuse_frameset();
    page.close_item(ElementSet::ListItem)?;
    page.close_p()?;
    page.insert(tag)?;
    Ok(Flow::Done)
}

/// "dd" and "dt".
pub fn definition_start<S: TreeSink>(
    page: &mut Parse<S>,
    tag: &Tag,
) -> Result<Flow<S::Handle>, ParseFault>
    requires ready { Ready (state_of S.view page.old) }
    ensures { Follows S.view (definition_start tag.now) page.old page.new result }
{
    page.refuse_frameset();
    page.close_item(ElementSet::Definition)?;
    page.close_p()?;
    page.insert(tag)?;
    Ok(Flow::Done)
}

/// "plaintext".
pub fn plaintext_start<S: TreeSink>(
    page: &mut Parse<S>,
    tag: &Tag,
) -> Result<Flow<S::Handle>, ParseFault>
    requires ready { Ready (state_of S.view page.old) }
    ensures { Follows S.view (plaintext_start tag.now) page.old page.new result }
{
    page.close_p()?;
    page.insert(tag)?;
    Ok(Flow::Asks(TokenSinkResult::Plaintext))
}

/// "button": one that is in scope is closed.
pub fn button_start<S: TreeSink>(
    page: &mut Parse<S>,
    tag: &Tag,
) -> Result<Flow<S::Handle>, ParseFault>
    requires ready { Ready (state_of S.view page.old) }
    ensures { Follows S.view (button_start tag.now (state_of S.view page.old)) page.old page.new result }
{
    if page.in_scope(ElementSet::Button) {
        page.imply_but(ElementSet::Nothing)?;
        page.pop_to(ElementSet::Button)?;
        page.reconstruct()?;
        page.insert(tag)?;
        page.refuse_frameset();
        return Ok(Flow::Done);
    }
    page.reconstruct()?;
    page.insert(tag)?;
    page.refuse_frameset();
    Ok(Flow::Done)
}

/// "table": outside quirks mode a p element is closed.
pub fn table_start<S: TreeSink>(
    page: &mut Parse<S>,
    tag: &Tag,
) -> Result<Flow<S::Handle>, ParseFault>
    requires ready { Ready (state_of S.view page.old) }
    ensures { Follows S.view (table_start tag.now (state_of S.view page.old)) page.old page.new result }
{
    if page.kept.quirks == QuirksMode::Quirks {
        page.insert(tag)?;
    } else {
        page.close_p()?;
        page.insert(tag)?;
    }
    page.refuse_frameset();
    page.go_to(InsertionMode::InTable);
    Ok(Flow::Done)
}

/// "body": the body takes the attributes that it lacks.
pub fn body_start<S: TreeSink>(
    page: &mut Parse<S>,
    tag: &Tag,
) -> Result<Flow<S::Handle>, ParseFault>
    requires ready { Ready (state_of S.view page.old) }
    ensures { Follows S.view (body_start tag.now (state_of S.view page.old)) page.old page.new result }
{
    if page.has_template() {
        return Ok(Flow::Done);
    }
    let Some(body) = page.body() else {
        return Ok(Flow::Done);
    };
    page.add_attributes(body, &tag.attrs)?;
    page.refuse_frameset();
    Ok(Flow::Done)
}

/// "frameset": it takes the place of a body that holds nothing yet.
pub fn frameset_start<S: TreeSink>(
    page: &mut Parse<S>,
    tag: &Tag,
) -> Result<Flow<S::Handle>, ParseFault>
    requires ready { Ready (state_of S.view page.old) }
    ensures { Follows S.view (frameset_start tag.now (state_of S.view page.old)) page.old page.new result }
{
    if !page.kept.frameset_ok {
        return Ok(Flow::Done);
    }
    let Some(body) = page.body() else {
        return Ok(Flow::Done);
    };
    page.take_out(body)?;
    page.pop_down_to(ElementSet::Html)?;
    page.insert(tag)?;
    page.go_to(InsertionMode::InFrameset);
    Ok(Flow::Done)
}
