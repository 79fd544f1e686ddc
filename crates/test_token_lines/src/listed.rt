ghost use Rattle.std.specs.Prelude.{◌≡◌, ◌∷◌, [], ◌++◌, Bool, ℕ, List, IfErr, IfOk, OnOk, chars, refl, string_bytes};
ghost use Rattle.html_lexemes.specs.declared.fault.ParseFault.TheVariants.{Memory};
ghost use Rattle.html_lexemes.specs.declared.token.Token.{Token};
ghost use Rattle.html_lexemes.specs.declared.token.TokenSinkResult.TheVariants.{Continue};
ghost use Rattle.test_token_lines.specs.Heard.{lines_heard, listed_with, parts_heard};
ghost use Rattle.test_token_lines.specs.TokenLines.{Part, lines_with};

use crate::token_lines::TokenLines;
use html_lexemes::{ParseFault, Token, TokenSinkResult};
use std::alloc::{AllocError, Global};
use token_grammar::TokenSink;

/// Of what a sink writes lines.
#[derive(Clone, Copy, PartialEq, Eq)]
pub enum Listing {
    /// Of tokens alone.
    Tokens,
    /// Of errors alone.
    Errors,
    /// Of errors and tokens as they come.
    Both,
}

/// A sink that writes lines of what it is given.
#[derive(Drop)]
pub struct Listed {
    /// Whether the adjusted current node is foreign.
    pub is_foreign: bool,
    lines: TokenLines,
    listing: Listing,
}

impl Listed {
    /// No lines yet.
    pub fn new(alloc: Global, listing: Listing, is_foreign: bool) -> Listed
        ensures foreign { result.is_foreign ≡ is_foreign }
        ensures lines { (heard : List (Token × ℕ)) → listed_with result heard ≡ lines_heard listing heard }
    {
        Listed {
            is_foreign,
            lines: TokenLines::new(alloc),
            listing,
        }
    }

    /// The lines. The error is allocation failure.
    pub fn into_text(self) -> Result<String, AllocError>
        ensures { IfOk result (λ lines. chars (string_bytes lines) ≡ listed_with self []) }
    {
        let Listed { lines, .. } = self;
        lines.into_text()
    }
}

impl TokenSink for Listed {
    type Handle = u32;

    ghost Abstract = { Bool };

    ghost state = { λ s. s.is_foreign };

    ghost means = { record { step = λ s _. s; reply = λ _ _. Continue; foreign = λ s. s } };

    ghost ready = { λ _. Unit {0} };

    ghost welcomes = { λ _ _. Unit {0} };

    ghost close = { λ s. s };

    ghost lawful = { record {
      joins = λ _ _ _. refl;
      skips = λ _. refl;
      answers = λ _ _ _. refl;
      keeps = λ _ _ r. r;
      forgets = λ _ _ _. refl;
      still_answers = λ _ _. refl;
      still_foreign = λ _. refl;
    } };

    ghost hearing = { record { goes_on = λ _ _ _ _ _ h. h; asks = λ _ _ _ _ _. tt } };

    fn process_token(&mut self, token: Token, line: u64) -> Result<TokenSinkResult<u32>, ParseFault>
        ensures state { IfOk result (λ _. self.new.is_foreign ≡ self.old.is_foreign) }
        ensures reply { IfOk result (λ answer. answer ≡ Continue) }
        ensures refused { IfErr result (λ e. e ≡ Memory) }
        ensures lines { OnOk result ((rest : List (Token × ℕ)) →
            listed_with self.new rest ≡ listed_with self.old ((token, line) ∷ rest)) }
    {
        add(&mut self.lines, self.listing, &token, line)?;
        Ok(TokenSinkResult::Continue)
    }

    fn end(&mut self) -> Result<(), ParseFault>
        ensures closed { IfOk result (λ _. self.new ≡ self.old) }
        ensures refused { IfErr result (λ e. e ≡ Memory) }
    {
        Ok(())
    }

    fn adjusted_current_node_present_but_not_in_html_namespace(&self) -> bool {
        self.is_foreign
    }
}

// adds the line of a token, or of an error, where there are lines of such
fn add(lines: &mut TokenLines, listing: Listing, token: &Token, line: u64) -> Result<(), AllocError>
    ensures { OnOk result ((rest : List Part) →
        lines_with lines.new rest ≡ lines_with lines.old (parts_heard listing (token.now, line) ++ rest)) }
{
    match token {
        Token::ParseError(_) if listing == Listing::Tokens => Ok(()),
        Token::ParseError(message) => lines.add_error(message.as_str(), line),
        _ if listing == Listing::Errors => Ok(()),
        _ => lines.add(token),
    }
}
