//! The end of the page, in the body and in templates (WHATWG HTML, 13.2.6.4.7 and 13.2.6.4.16).
ghost use Rattle.std.specs.Prelude.{◌≡◌};
ghost use Rattle.rules_actions.specs.Follows.{Follows};
ghost use Rattle.rules_actions.specs.Parsed.{state_of};
ghost use Rattle.rules_table.specs.Settling.{Ready};
ghost use Rattle.rules_actions.specs.declared.flow.Flow.TheVariants.{Done};
ghost use Rattle.rules_table.specs.InBody.{in_template_end_of_file};

use html_lexemes::ParseFault;
use rules_actions::{Flow, Parse};
use tree_forest::TreeSink;
use tree_names::ElementSet;

/// A template that is open is closed, and the mode that stands then takes the end of the page.
pub fn end_of_file<S: TreeSink>(page: &mut Parse<S>) -> Result<Flow<S::Handle>, ParseFault>
    requires ready { Ready (state_of S.view page.old) }
    ensures { Follows S.view (in_template_end_of_file (state_of S.view page.old)) page.old page.new result }
{
    if !page.has_template() {
        return Ok(stop_parsing());
    }
    page.pop_to(ElementSet::Template)?;
    page.clear_to_marker();
    page.pop_template_mode();
    page.reset();
    Ok(Flow::Again)
}

/// "Stop parsing": nothing is emitted after the end.
pub(crate) fn stop_parsing<H>() -> Flow<H>
    ensures { result ≡ Done }
{
    Flow::Done
}
