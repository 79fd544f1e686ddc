//! Sinks for tests.
ghost use Rattle.std.specs.Prelude.{◌≡◌, IfOk, false, refl};
ghost use Rattle.html_lexemes.specs.declared.token.TokenSinkResult.TheVariants.{Continue};
ghost use Rattle.test_tokens.specs.TestReply.{Names, asked, asked_by, asked-answers};

use html_lexemes::states::RawKind;
use html_lexemes::{LocalName, ParseFault, Tag, TagKind, Text, Token, TokenSinkResult};
use std::alloc::{AllocError, Global};
use test_token_lines::{Listed, Listing};
use token_grammar::TokenSink;

/// The handle of each script element.
pub(crate) const SCRIPT_HANDLE: u32 = 7;

/// The encoding that start tags name.
pub(crate) const ENCODING: &str = "latin1";

/// Writes lines; has the text after the start tags of three names, and after the end tags of two, read as text of a
/// kind; and asks for a pause at the end tag of a script element, and at a start tag that names an encoding. It takes a
/// number of tokens, and refuses the next.
#[derive(Drop)]
pub(crate) struct Switching {
    /// The tokens' lines.
    pub(crate) listed: Listed,
    /// The line of the last tag, and 0 before the first.
    pub(crate) tag_line: u64,
    left: u64,
    rcdata: LocalName,
    script: LocalName,
    plaintext: LocalName,
    meta: LocalName,
    encoding: Text,
}

impl Switching {
    /// Takes so many tokens. The names are `title`, `script`, `plaintext` and `meta`, the encoding is `latin1`.
    pub(crate) fn new(alloc: Global, left: u64) -> Result<Switching, AllocError> {
        Ok(Switching {
            listed: Listed::new(alloc, Listing::Tokens, false),
            tag_line: 0,
            left,
            rcdata: LocalName::from_str(alloc, "title")?,
            script: LocalName::from_str(alloc, "script")?,
            plaintext: LocalName::from_str(alloc, "plaintext")?,
            meta: LocalName::from_str(alloc, "meta")?,
            encoding: Text::from_str(alloc, ENCODING)?,
        })
    }

    fn asked_by(&self, tag: &Tag) -> Result<TokenSinkResult<u32>, AllocError>
        ensures { IfOk result (λ answer. answer
            ≡ asked_by (record {
              rcdata = self.now.rcdata;
              script = self.now.script;
              plaintext = self.now.plaintext;
              meta = self.now.meta;
              encoding = self.now.encoding;
            }) tag.now.kind tag.now.name) }
    {
        Ok(match tag.kind {
            TagKind::EndTag if tag.name == self.script => TokenSinkResult::Script(SCRIPT_HANDLE),
            TagKind::EndTag if tag.name == self.plaintext => TokenSinkResult::Plaintext,
            TagKind::EndTag if tag.name == self.meta => TokenSinkResult::RawData(RawKind::Rawtext),
            TagKind::EndTag => TokenSinkResult::Continue,
            TagKind::StartTag if tag.name == self.rcdata => {
                TokenSinkResult::RawData(RawKind::Rcdata)
            }
            TagKind::StartTag if tag.name == self.script => {
                TokenSinkResult::RawData(RawKind::ScriptData)
            }
            TagKind::StartTag if tag.name == self.plaintext => TokenSinkResult::Plaintext,
            TagKind::StartTag if tag.name == self.meta => {
                TokenSinkResult::EncodingIndicator(self.encoding.try_clone()?)
            }
            TagKind::StartTag => TokenSinkResult::Continue,
        })
    }
}

impl TokenSink for Switching {
    type Handle = u32;

    ghost Abstract = { Names };

    ghost state = { λ s. record {
      rcdata = s.rcdata;
      script = s.script;
      plaintext = s.plaintext;
      meta = s.meta;
      encoding = s.encoding;
    } };

    ghost means = { record { step = λ s _. s; reply = λ s item. asked s item; foreign = λ _. false } };

    ghost ready = { λ _. Unit {0} };

    ghost welcomes = { λ _ _. Unit {0} };

    ghost close = { λ s. s };

    ghost lawful = { record {
      joins = λ _ _ _. refl;
      skips = λ _. refl;
      answers = λ s item other. asked-answers s item other;
      keeps = λ _ _ r. r;
      forgets = λ _ _ _. refl;
      still_answers = λ _ _. refl;
      still_foreign = λ _. refl;
    } };

    ghost hearing = { record { goes_on = λ _ _ _ _ _ h. h; asks = λ _ _ _ _ _. tt } };

    fn process_token(
        &mut self,
        token: Token,
        line: u64,
    ) -> Result<TokenSinkResult<u32>, ParseFault> {
        let Some(left) = self.left.checked_sub(1) else {
            return Err(ParseFault::Memory);
        };
        self.left = left;
        let answer = match &token {
            Token::TagToken(tag) => {
                self.tag_line = line;
                self.asked_by(tag)?
            }
            _ => TokenSinkResult::Continue,
        };
        self.listed.process_token(token, line)?;
        Ok(answer)
    }

    fn end(&mut self) -> Result<(), ParseFault> {
        self.listed.end()
    }

    fn adjusted_current_node_present_but_not_in_html_namespace(&self) -> bool {
        false
    }
}
