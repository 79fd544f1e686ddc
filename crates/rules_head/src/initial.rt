//! The "initial" insertion mode (WHATWG HTML, 13.2.6.4.1).
ghost use Rattle.rules_actions.specs.Follows.{Follows};
ghost use Rattle.rules_actions.specs.Parsed.{state_of};
ghost use Rattle.rules_table.specs.Settling.{Ready};
ghost use Rattle.rules_table.specs.Initial.{initial_comment, initial_doctype, initial_other};

use html_lexemes::{Doctype, ParseFault, Text};
use rules_actions::{Flow, Parse};
use tree_forest::{QuirksMode, TreeSink};
use tree_predicates::{InsertionMode, quirks_mode_of};

/// A comment.
pub fn initial_comment<S: TreeSink>(
    page: &mut Parse<S>,
    text: Text,
) -> Result<Flow<S::Handle>, ParseFault>
    requires ready { Ready (state_of S.view page.old) }
    ensures { Follows S.view (initial_comment text) page.old page.new result }
{
    page.comment_to_document(text)?;
    Ok(Flow::Done)
}

/// A doctype.
pub fn initial_doctype<S: TreeSink>(
    page: &mut Parse<S>,
    doctype: Doctype,
) -> Result<Flow<S::Handle>, ParseFault>
    requires ready { Ready (state_of S.view page.old) }
    ensures { Follows S.view (initial_doctype doctype (state_of S.view page.old)) page.old page.new result }
{
    let quirks = quirks_mode_of(&doctype);
    if page.kept.options.drop_doctype {
        page.set_quirks(quirks)?;
        page.go_to(InsertionMode::BeforeHtml);
        return Ok(Flow::Done);
    }
    page.append_doctype(doctype)?;
    page.set_quirks(quirks)?;
    page.go_to(InsertionMode::BeforeHtml);
    Ok(Flow::Done)
}

/// Anything else: the page has no doctype.
pub fn initial_other<S: TreeSink>(page: &mut Parse<S>) -> Result<Flow<S::Handle>, ParseFault>
    requires ready { Ready (state_of S.view page.old) }
    ensures { Follows S.view (initial_other (state_of S.view page.old)) page.old page.new result }
{
    if page.kept.options.iframe_srcdoc {
        page.go_to(InsertionMode::BeforeHtml);
        return Ok(Flow::Again);
    }
    page.set_quirks(QuirksMode::Quirks)?;
    page.go_to(InsertionMode::BeforeHtml);
    Ok(Flow::Again)
}
