//! Calls after a refusal can be made, whatever the sink of trees is.
ghost use Rattle.std.specs.Prelude.{◌≡◌, IfErr, is_err};
ghost use Rattle.html_lexemes.specs.declared.fault.ParseFault.TheVariants.{Failed};
ghost use Rattle.rules_actions.specs.Parsed.{state_of};
ghost use Rattle.rules_table.specs.Welcome.{IsFit};

use crate::builder::TreeBuilder;
use html_lexemes::{ParseFault, Token, TokenSinkResult};
use token_grammar::TokenSink;
use tree_forest::TreeSink;

/// Tells a token and, where it is refused, another one, which is refused as `Failed`.
pub fn emits_twice<S: TreeSink>(
    builder: &mut TreeBuilder<S>,
    token: Token,
    later: Token,
    line: u64,
) -> Result<TokenSinkResult<S::Handle>, ParseFault>
    requires { IsFit (state_of S.view builder.old.page) }
    ensures fit { IsFit (state_of S.view builder.new.page) }
    ensures failed { IfErr result (λ e. e ≡ Failed) }
    ensures works { builder.new.page.kept.has_failed ≡ is_err result }
{
    match builder.process_token(token, line) {
        Ok(answer) => Ok(answer),
        Err(_) => builder.process_token(later, line),
    }
}

/// Ends a page and, where that is refused, ends it again, which is refused as `Failed`.
pub fn ends_twice<S: TreeSink>(builder: &mut TreeBuilder<S>) -> Result<(), ParseFault>
    requires { IsFit (state_of S.view builder.old.page) }
    ensures fit { IsFit (state_of S.view builder.new.page) }
    ensures failed { IfErr result (λ e. e ≡ Failed) }
    ensures works { builder.new.page.kept.has_failed ≡ is_err result }
{
    match builder.end() {
        Ok(()) => Ok(()),
        Err(_) => builder.end(),
    }
}
