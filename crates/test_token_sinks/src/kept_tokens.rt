ghost use Rattle.std.specs.Prelude.{◌≡◌, [], ◌∷◌, ◌++◌, IfOk, OnOk, map};
ghost use Rattle.token_grammar.specs.Items.{characters, item_of};
ghost use Rattle.test_token_sinks.specs.KeptTokens.{kept, with_text};

use html_lexemes::{ParseFault, Text, Token, TokenSinkResult};
use std::alloc::{AllocError, Global};
use std::marker::Model;
use token_grammar::TokenSink;

/// A sink that keeps the tokens that it is given: texts that follow each other are joined into one token, and an
/// empty text and errors are left out. It refuses only if allocation fails; then nothing is known of it.
#[derive(Drop)]
pub struct KeptTokens {
    tokens: Vec<Token>,
    is_foreign: bool,
}

impl Model for KeptTokens {
    ghost use Rattle.std.specs.Prelude.{map};
    ghost use Rattle.token_grammar.specs.Items.{item_of};
    ghost use Rattle.test_token_sinks.specs.KeptTokens.{Kept};

    ghost Value = { Kept };

    ghost view = { λ k. record { items = map item_of k.tokens.items; is_foreign = k.is_foreign } };
}

impl KeptTokens {
    /// Nothing kept yet, and whether the current node is foreign, which never changes.
    pub fn new(alloc: Global, is_foreign: bool) -> KeptTokens
        ensures { result ≡ record { items = []; is_foreign = is_foreign } }
    {
        KeptTokens {
            tokens: Vec::new(alloc),
            is_foreign,
        }
    }

    /// The tokens, in the order in which they were emitted.
    pub fn tokens(&self) -> &[Token]
        ensures { map item_of result.now ≡ self.now.items }
    {
        self.tokens.as_slice()
    }
}

impl TokenSink for KeptTokens {
    type Handle = ();

    ghost use Rattle.test_token_sinks.specs.KeptTokens.{Kept, kept_meaning};
    ghost use Rattle.test_token_sinks.specs.KeptTokensLaws.{kept_meaning-lawful};

    ghost Abstract = { Kept };

    ghost state = { λ s. s };

    ghost means = { kept_meaning };

    ghost ready = { λ _. Unit {0} };

    ghost welcomes = { λ _ _. Unit {0} };

    ghost close = { λ s. s };

    ghost lawful = { kept_meaning-lawful };

    ghost hearing = { record { goes_on = λ _ _ _ _ _ h. h; asks = λ _ _ _ h _. h } };

    fn process_token(
        &mut self,
        token: Token,
        _line: u64,
    ) -> Result<TokenSinkResult<()>, ParseFault> {
        match token {
            Token::CharacterTokens(text) => keep_text(&mut self.tokens, text)?,
            Token::ParseError(_) => {}
            token => self.tokens.push(token)?,
        }
        Ok(TokenSinkResult::Continue)
    }

    fn end(&mut self) -> Result<(), ParseFault> {
        Ok(())
    }

    fn adjusted_current_node_present_but_not_in_html_namespace(&self) -> bool {
        self.is_foreign
    }
}

// keeps a text after what was kept
fn keep_text(tokens: &mut Vec<Token>, text: Text) -> Result<(), AllocError>
    ensures { OnOk result (map item_of tokens.new.items ≡ kept (map item_of tokens.old.items) (characters text)) }
{
    if text.as_str().is_empty() {
        return Ok(());
    }
    let text = after_last(tokens, text)?;
    tokens.push(Token::CharacterTokens(text))?;
    Ok(())
}

// a text after the last token, which is taken out where it is a text
fn after_last(tokens: &mut Vec<Token>, text: Text) -> Result<Text, AllocError>
    ensures { IfOk result (λ joined.
        map item_of tokens.new.items ++ characters joined ∷ [] ≡ with_text (map item_of tokens.old.items) text) }
{
    let Some(last) = tokens.pop() else {
        return Ok(text);
    };
    match last {
        Token::CharacterTokens(mut last) => {
            last.push_str(text.as_str())?;
            Ok(last)
        }
        last => {
            tokens.push(last)?;
            Ok(text)
        }
    }
}
