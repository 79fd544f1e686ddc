//! Elements whose contents are text (WHATWG HTML, 13.2.6.2).
ghost use Rattle.std.specs.Prelude.{◌≡◌};
ghost use Rattle.html_lexemes.specs.declared.token.TokenSinkResult.TheVariants.{RawData};
ghost use Rattle.rules_actions.specs.Parsed.{state_of};
ghost use Rattle.rules_actions.specs.declared.flow.Flow.TheVariants.{Asks};
ghost use Rattle.rules_table.specs.Settling.{Ready, entered};
ghost use Rattle.rules_table.specs.State.{raw};

use html_lexemes::TokenSinkResult;
use html_lexemes::states::RawKind;
use rules_actions::{Flow, Parse};
use tree_forest::TreeSink;
use tree_predicates::InsertionMode;

/// The text of the element that was inserted is read up to its end tag, in the mode "text".
pub fn read_raw<S: TreeSink>(page: &mut Parse<S>, kind: RawKind) -> Flow<S::Handle>
    requires ready { Ready (state_of S.view page.old) }
    ensures asks { result ≡ Asks (RawData kind) }
    ensures seen { state_of S.view page.new ≡ entered (raw kind) (state_of S.view page.old) }
    ensures ready { Ready (state_of S.view page.new) }
{
    page.kept.original = page.kept.mode;
    page.kept.mode = InsertionMode::Text;
    Flow::Asks(TokenSinkResult::RawData(kind))
}
