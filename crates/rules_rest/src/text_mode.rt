//! The "text" insertion mode (WHATWG HTML, 13.2.6.4.8).
ghost use Rattle.std.specs.Prelude.{◌≡◌, IfErr, OnOk};
ghost use Rattle.html_lexemes.specs.declared.fault.ParseFault.TheVariants.{Memory};
ghost use Rattle.rules_actions.specs.Follows.{Follows};
ghost use Rattle.rules_actions.specs.Parsed.{state_of};
ghost use Rattle.rules_table.specs.Settling.{Ready};
ghost use Rattle.html_tree_state.specs.OpenElements.{current_of};
ghost use Rattle.rules_table.specs.Actions.{act, go_back, pop};
ghost use Rattle.rules_table.specs.TextMode.{text_mode_end, text_mode_end_of_file};

use html_lexemes::{ParseFault, TokenSinkResult};
use rules_actions::{Flow, Parse};
use tree_forest::TreeSink;
use tree_names::TagGroup;

/// An end tag: the element is over. A script is then run.
pub fn text_mode_end<S: TreeSink>(
    page: &mut Parse<S>,
    group: TagGroup,
) -> Result<Flow<S::Handle>, ParseFault>
    requires ready { Ready (state_of S.view page.old) }
    ensures { Follows S.view (text_mode_end group (state_of S.view page.old)) page.old page.new result }
{
    match group {
        TagGroup::Script => {
            let script = current(page);
            end_text(page)?;
            Ok(Flow::Asks(TokenSinkResult::Script(script)))
        }
        _ => {
            end_text(page)?;
            Ok(Flow::Done)
        }
    }
}

/// The end of the page: a script that is open must not run, and the mode that stood takes the end.
pub fn text_mode_end_of_file<S: TreeSink>(
    page: &mut Parse<S>,
) -> Result<Flow<S::Handle>, ParseFault>
    requires ready { Ready (state_of S.view page.old) }
    ensures { Follows S.view text_mode_end_of_file page.old page.new result }
{
    page.mark_script()?;
    end_text(page)?;
    Ok(Flow::Again)
}

// the element is popped, and the mode that stood is gone back to
fn end_text<S: TreeSink>(page: &mut Parse<S>) -> Result<(), ParseFault>
    requires ready { Ready (state_of S.view page.old) }
    ensures seen { OnOk result (state_of S.view page.new ≡ act go_back (act pop (state_of S.view page.old))) }
    ensures ready { OnOk result (Ready (state_of S.view page.new)) }
    ensures memory { IfErr result (λ e. e ≡ Memory) }
{
    page.pop()?;
    page.go_back();
    Ok(())
}

// the current node; the document where nothing is open
fn current<S: TreeSink>(page: &Parse<S>) -> S::Handle
    ensures { S.view.number result ≡ current_of (state_of S.view page.now).tree.stack }
{
    match page.tree.current_node() {
        Some(current) => current,
        None => page.tree.sink.get_document(),
    }
}
