ghost use Rattle.std.specs.Prelude.{◌≡◌, [], ◌∷◌, ◌<◌, IfOk, OnOk, chars, codes, drop, false, length, reverse};
ghost use Rattle.std.specs.Prelude.{string_bytes};
ghost use Rattle.std.specs.Str.{bytes_eq};
ghost use Rattle.html_lexemes.specs.declared.token.TagKind.TheVariants.{StartTag};
ghost use Rattle.test_token_sinks.specs.PreformattedText.{after_tag, closed, said, settled};

use html_lexemes::{LocalName, ParseFault, Tag, TagKind, Text, Token, TokenSinkResult};
use std::alloc::{AllocError, Global};
use std::marker::Model;
use token_grammar::TokenSink;
use token_grammar::slices::first_and_rest;

/// A small model of a tree builder: the names of the open elements, and the text of the page, in which a line feed
/// right after the start tag of `pre` is left out (WHATWG HTML, 13.2.6.4.7). The current node is foreign where it is
/// named `svg`. A call needs an open element, and leaves one. It refuses only if allocation fails; then nothing is
/// known of it.
#[derive(Drop)]
pub struct PreformattedText {
    // the innermost last
    elements: Vec<LocalName>,
    skips_line_feed: bool,
    text: String,
}

impl Model for PreformattedText {
    ghost use Rattle.std.specs.Prelude.{reverse, chars, string_bytes};
    ghost use Rattle.test_token_sinks.specs.PreformattedText.{Page};

    ghost Value = { Page };

    ghost view = { λ p. record {
      elements = reverse p.elements.items;
      skips_line_feed = p.skips_line_feed;
      text = chars (string_bytes p.text);
    } };
}

impl PreformattedText {
    /// A page without text, in which one element is open, named `html`. The error is allocation failure.
    pub fn new(alloc: Global) -> Result<PreformattedText, AllocError>
        ensures { IfOk result (λ page.
            page ≡ record { elements = codes "html" ∷ []; skips_line_feed = false; text = [] }) }
    {
        let mut elements = Vec::new(alloc);
        elements.push(LocalName::from_str(alloc, "html")?)?;
        Ok(PreformattedText {
            elements,
            skips_line_feed: false,
            text: String::new(alloc),
        })
    }

    /// The text of the page.
    pub fn text(&self) -> &str
        ensures { chars result.now ≡ self.now.text }
    {
        self.text.as_str()
    }

    // adds a text
    fn say(&mut self, text: Text) -> Result<(), AllocError>
        ensures { OnOk result (self.new ≡ said self.old text) }
    {
        let text = text.as_str();
        let Some((first, rest)) = first_and_rest(text) else {
            return Ok(());
        };
        let shown = if self.skips_line_feed && first == '\n' {
            rest
        } else {
            text
        };
        self.skips_line_feed = false;
        self.text.push_str(shown)
    }

    // opens or closes an element
    fn open_or_close(&mut self, tag: Tag) -> Result<(), AllocError>
        ensures { OnOk result (self.new ≡ after_tag tag.kind tag.name self.old) }
    {
        match tag.kind {
            TagKind::StartTag => self.open(tag.name),
            TagKind::EndTag => {
                self.close();
                Ok(())
            }
        }
    }

    fn open(&mut self, name: LocalName) -> Result<(), AllocError>
        ensures { OnOk result (self.new ≡ after_tag StartTag name self.old) }
    {
        self.skips_line_feed = is_named(&name, "pre");
        self.elements.push(name)?;
        Ok(())
    }

    // closes the innermost element, unless it is the last
    fn close(&mut self)
        ensures { self.new ≡ settled (record self.old { elements = closed self.old.elements }) }
    {
        self.skips_line_feed = false;
        if self.elements.len() > 1 {
            self.elements.pop();
        }
    }
}

impl TokenSink for PreformattedText {
    type Handle = ();

    ghost use Rattle.test_token_sinks.specs.PreformattedText.{HasOpen, Page, page_meaning};
    ghost use Rattle.test_token_sinks.specs.PreformattedTextLaws.{page_meaning-lawful};

    ghost Abstract = { Page };

    ghost state = { λ s. s };

    ghost means = { page_meaning };

    ghost ready = { HasOpen };

    ghost welcomes = { λ _ _. Unit {0} };

    ghost close = { λ s. s };

    ghost lawful = { page_meaning-lawful };

    ghost hearing = { record { goes_on = λ _ _ _ _ _ h. h; asks = λ _ _ _ h _. h } };

    fn process_token(
        &mut self,
        token: Token,
        _line: u64,
    ) -> Result<TokenSinkResult<()>, ParseFault> {
        match token {
            Token::CharacterTokens(text) => self.say(text)?,
            Token::TagToken(tag) => self.open_or_close(tag)?,
            // an error too ends the rule
            _other => self.skips_line_feed = false,
        }
        Ok(TokenSinkResult::Continue)
    }

    fn end(&mut self) -> Result<(), ParseFault> {
        Ok(())
    }

    fn adjusted_current_node_present_but_not_in_html_namespace(&self) -> bool {
        is_named(innermost(self.elements.as_slice()), "svg")
    }
}

// the name of the innermost element
fn innermost(elements: &[LocalName]) -> &LocalName
    requires { 0 < length elements.now }
    ensures { reverse elements.now ≡ result.now ∷ drop 1 (reverse elements.now) }
{
    &elements[elements.len() - 1]
}

fn is_named(name: &LocalName, other: &str) -> bool
    ensures { result ≡ bytes_eq name.now (chars other.now) }
{
    name.as_str() == other
}
