ghost use Rattle.std.specs.Prelude.{◌≡◌, ◌∷◌, [], ◌++◌, List, IfOk, OnOk, chars, string_bytes};
ghost use Rattle.test_token_lines.specs.TokenLines.{Part, error_line, lines_of, lines_of_parts, lines_with, parts_of};
ghost use Rattle.test_token_lines.specs.TokenLines.{shows, text_line};

use crate::fields::{push_comment, push_doctype, push_error, push_null, push_tag};
use html_lexemes::Token;
use std::alloc::{AllocError, Global};
use test_fields::push_line;

/// A line for each token and each attribute. Neighbouring texts are one line; the end has none.
#[derive(Drop)]
pub struct TokenLines {
    lines: String,
    // of the line that is still to come, since more may follow it
    text: String,
}

/// The lines of some tokens. The error is allocation failure.
pub fn lines_of(alloc: Global, tokens: &[Token]) -> Result<String, AllocError>
    ensures { IfOk result (λ lines. chars (string_bytes lines) ≡ lines_of tokens.now) }
{
    let mut lines = TokenLines::new(alloc);
    for token in tokens {
        lines.add(token)?;
    }
    lines.into_text()
}

impl TokenLines {
    /// No lines yet.
    pub fn new(alloc: Global) -> TokenLines
        ensures { (rest : List Part) → lines_with result rest ≡ lines_of_parts rest }
    {
        TokenLines {
            lines: String::new(alloc),
            text: String::new(alloc),
        }
    }

    /// Adds what a token has, but for an error. The error is allocation failure; then a beginning of it was added.
    pub fn add(&mut self, token: &Token) -> Result<(), AllocError>
        ensures { OnOk result ((rest : List Part) →
            lines_with self.new rest ≡ lines_with self.old (parts_of token.now ++ rest)) }
    {
        match token {
            Token::ParseError(_) | Token::EOFToken => Ok(()),
            Token::CharacterTokens(text) => self.text.push_str(text.as_str()),
            Token::NullCharacterToken => {
                self.end_text()?;
                push_null(&mut self.lines)
            }
            Token::TagToken(tag) => {
                self.end_text()?;
                push_tag(&mut self.lines, tag)
            }
            Token::CommentToken(comment) => {
                self.end_text()?;
                push_comment(&mut self.lines, comment)
            }
            Token::DoctypeToken(doctype) => {
                self.end_text()?;
                push_doctype(&mut self.lines, doctype)
            }
        }
    }

    /// Adds the line of an error, with the line of the page that it was emitted at. The error is allocation failure;
    /// then a beginning of it was added.
    pub fn add_error(&mut self, message: &str, line: u64) -> Result<(), AllocError>
        ensures { OnOk result ((rest : List Part) → lines_with self.new rest
            ≡ lines_with self.old (shows (error_line (chars message.now) line) ∷ rest)) }
    {
        self.end_text()?;
        push_error(&mut self.lines, message, line)
    }

    /// The lines. The error is allocation failure.
    pub fn into_text(mut self) -> Result<String, AllocError>
        ensures { IfOk result (λ lines. chars (string_bytes lines) ≡ lines_with self []) }
    {
        self.end_text()?;
        let TokenLines { lines, text: _ } = self;
        Ok(lines)
    }

    // writes the line of the text, if there is one
    fn end_text(&mut self) -> Result<(), AllocError>
        ensures lines { OnOk result (chars (string_bytes self.new.lines)
            ≡ chars (string_bytes self.old.lines) ++ text_line (chars (string_bytes self.old.text))) }
        ensures text { OnOk result (chars (string_bytes self.new.text) ≡ []) }
    {
        if !self.text.is_empty() {
            push_line(&mut self.lines, "text", self.text.as_str())?;
            self.text.clear();
        }
        Ok(())
    }
}
