//! Text that the mode that stands does not take itself (WHATWG HTML, 13.2.6.4).
ghost use Rattle.rules_actions.specs.Follows.{Follows};
ghost use Rattle.rules_actions.specs.Parsed.{state_of};
ghost use Rattle.rules_table.specs.Settling.{Ready};
ghost use Rattle.rules_table.specs.InTable.{in_table_text_row};
ghost use Rattle.std.specs.Prelude.{false};
ghost use Rattle.rules_table.specs.Rows.{for_null};
ghost use Rattle.rules_table.specs.Table.{text_row};

use html_lexemes::ParseFault;
use rules_actions::{Flow, Parse};
use rules_head::{close_head, close_noscript, initial_other, make_body, make_head, make_html};
use rules_rest::body_again;
use rules_tables::{collect_text, past_column_group};
use tree_forest::TreeSink;
use tree_predicates::InsertionMode;

/// Text, all white space or none, is handed on where the mode does not take it itself; so is NUL, as other text is.
pub fn hand_text_on<S: TreeSink>(
    page: &mut Parse<S>,
    is_space: bool,
) -> Result<Flow<S::Handle>, ParseFault>
    requires ready { Ready (state_of S.view page.old) }
    ensures { Follows S.view (for_null (text_row (state_of S.view page.old).mode is_space (state_of S.view page.old)))
        page.old page.new result }
{
    match page.kept.mode {
        InsertionMode::Initial => {
            if is_space {
                return Ok(Flow::Done);
            }
            initial_other(page)
        }
        InsertionMode::BeforeHtml => {
            if is_space {
                return Ok(Flow::Done);
            }
            make_html(page)
        }
        InsertionMode::BeforeHead => {
            if is_space {
                return Ok(Flow::Done);
            }
            make_head(page)
        }
        InsertionMode::InHead => {
            if is_space {
                return Ok(Flow::Done);
            }
            close_head(page)
        }
        InsertionMode::InHeadNoscript => {
            if is_space {
                return Ok(Flow::Done);
            }
            close_noscript(page)
        }
        InsertionMode::AfterHead => {
            if is_space {
                return Ok(Flow::Done);
            }
            make_body(page)
        }
        InsertionMode::InTable => collect_text_here(page),
        InsertionMode::InColumnGroup => {
            if is_space {
                return Ok(Flow::Done);
            }
            past_column_group(page)
        }
        InsertionMode::InTableBody => collect_text_here(page),
        InsertionMode::InRow => collect_text_here(page),
        InsertionMode::AfterBody => {
            if is_space {
                return Ok(Flow::Done);
            }
            body_again(page)
        }
        InsertionMode::AfterAfterBody => {
            if is_space {
                return Ok(Flow::Done);
            }
            body_again(page)
        }
        InsertionMode::InBody
        | InsertionMode::Text
        | InsertionMode::InTableText
        | InsertionMode::InCaption
        | InsertionMode::InCell
        | InsertionMode::InTemplate
        | InsertionMode::InFrameset
        | InsertionMode::AfterFrameset
        | InsertionMode::AfterAfterFrameset => Ok(Flow::Done),
    }
}

// text in a table is collected where the current node is a part of a table
fn collect_text_here<S: TreeSink>(page: &mut Parse<S>) -> Result<Flow<S::Handle>, ParseFault>
    requires ready { Ready (state_of S.view page.old) }
    ensures { Follows S.view (for_null (in_table_text_row false (state_of S.view page.old))) page.old page.new result }
{
    if !page.collects_text() {
        return Ok(Flow::Done);
    }
    collect_text(page)
}
