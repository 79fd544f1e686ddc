//! By the insertion mode, what the end of the page, a comment and a doctype come to (WHATWG HTML, 13.2.6.4).
ghost use Rattle.rules_actions.specs.Follows.{Follows};
ghost use Rattle.rules_actions.specs.Parsed.{state_of};
ghost use Rattle.rules_table.specs.Settling.{Ready};
ghost use Rattle.rules_table.specs.Table.{comment_row, doctype_row, end_of_file_row};

use html_lexemes::{Doctype, ParseFault, Text};
use rules_actions::{Flow, Parse};
use rules_head::{
    close_head, close_noscript, initial_comment, initial_doctype, initial_other, make_body,
    make_head, make_html,
};
use rules_rest::{
    after_after_body_comment, after_after_body_end_of_file, after_after_frameset_comment,
    after_body_comment, after_body_end_of_file, end_of_file, frameset_end_of_file,
    text_mode_end_of_file,
};
use rules_tables::in_table_text_other;
use tree_forest::TreeSink;
use tree_predicates::InsertionMode;

/// The end of the page.
pub fn page_end<S: TreeSink>(page: &mut Parse<S>) -> Result<Flow<S::Handle>, ParseFault>
    requires ready { Ready (state_of S.view page.old) }
    ensures { Follows S.view (end_of_file_row (state_of S.view page.old).mode (state_of S.view page.old)) page.old
        page.new result }
{
    match page.kept.mode {
        InsertionMode::Initial => initial_other(page),
        InsertionMode::BeforeHtml => make_html(page),
        InsertionMode::BeforeHead => make_head(page),
        InsertionMode::InHead => close_head(page),
        InsertionMode::InHeadNoscript => close_noscript(page),
        InsertionMode::AfterHead => make_body(page),
        InsertionMode::InBody => end_of_file(page),
        InsertionMode::Text => text_mode_end_of_file(page),
        InsertionMode::InTable => end_of_file(page),
        InsertionMode::InTableText => in_table_text_other(page),
        InsertionMode::InCaption => end_of_file(page),
        InsertionMode::InColumnGroup => end_of_file(page),
        InsertionMode::InTableBody => end_of_file(page),
        InsertionMode::InRow => end_of_file(page),
        InsertionMode::InCell => end_of_file(page),
        InsertionMode::InTemplate => end_of_file(page),
        InsertionMode::AfterBody => after_body_end_of_file(page),
        InsertionMode::InFrameset => frameset_end_of_file(page),
        InsertionMode::AfterFrameset => frameset_end_of_file(page),
        InsertionMode::AfterAfterBody => after_after_body_end_of_file(page),
        InsertionMode::AfterAfterFrameset => frameset_end_of_file(page),
    }
}

/// A comment.
pub fn comment<S: TreeSink>(page: &mut Parse<S>, text: &Text) -> Result<Flow<S::Handle>, ParseFault>
    requires ready { Ready (state_of S.view page.old) }
    ensures { Follows S.view (comment_row (state_of S.view page.old).mode text.now (state_of S.view page.old)) page.old
        page.new result }
{
    match page.kept.mode {
        InsertionMode::Initial => initial_comment(page, text.try_clone()?),
        InsertionMode::BeforeHtml => {
            page.comment_to_document(text.try_clone()?)?;
            Ok(Flow::Done)
        }
        InsertionMode::InTableText => in_table_text_other(page),
        InsertionMode::AfterBody => after_body_comment(page, text.try_clone()?),
        InsertionMode::AfterAfterBody => after_after_body_comment(page, text.try_clone()?),
        InsertionMode::AfterAfterFrameset => after_after_frameset_comment(page, text.try_clone()?),
        InsertionMode::BeforeHead
        | InsertionMode::InHead
        | InsertionMode::InHeadNoscript
        | InsertionMode::AfterHead
        | InsertionMode::InBody
        | InsertionMode::Text
        | InsertionMode::InTable
        | InsertionMode::InCaption
        | InsertionMode::InColumnGroup
        | InsertionMode::InTableBody
        | InsertionMode::InRow
        | InsertionMode::InCell
        | InsertionMode::InTemplate
        | InsertionMode::InFrameset
        | InsertionMode::AfterFrameset => {
            page.insert_comment(text.try_clone()?)?;
            Ok(Flow::Done)
        }
    }
}

/// A doctype.
pub fn doctype<S: TreeSink>(
    page: &mut Parse<S>,
    doctype: &Doctype,
) -> Result<Flow<S::Handle>, ParseFault>
    requires ready { Ready (state_of S.view page.old) }
    ensures { Follows S.view (doctype_row (state_of S.view page.old).mode doctype.now (state_of S.view page.old))
        page.old page.new result }
{
    match page.kept.mode {
        InsertionMode::Initial => initial_doctype(page, doctype.try_clone()?),
        InsertionMode::InTableText => in_table_text_other(page),
        InsertionMode::BeforeHtml
        | InsertionMode::BeforeHead
        | InsertionMode::InHead
        | InsertionMode::InHeadNoscript
        | InsertionMode::AfterHead
        | InsertionMode::InBody
        | InsertionMode::Text
        | InsertionMode::InTable
        | InsertionMode::InCaption
        | InsertionMode::InColumnGroup
        | InsertionMode::InTableBody
        | InsertionMode::InRow
        | InsertionMode::InCell
        | InsertionMode::InTemplate
        | InsertionMode::AfterBody
        | InsertionMode::InFrameset
        | InsertionMode::AfterFrameset
        | InsertionMode::AfterAfterBody
        | InsertionMode::AfterAfterFrameset => Ok(Flow::Done),
    }
}
