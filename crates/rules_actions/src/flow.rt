//! What a token comes to in a mode.

use html_lexemes::TokenSinkResult;

/// What a token comes to in a mode.
#[derive(Drop)]
pub enum Flow<H> {
    /// The token is taken.
    Done,
    /// The token is taken, and something is asked of the tokenizer.
    Asks(TokenSinkResult<H>),
    /// The mode that stands now takes the token ("reprocess the token").
    Again,
}
