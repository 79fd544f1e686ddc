ghost use Rattle.std.specs.Prelude.{◌≡◌, ◌↔◌, IsTrue, IfOk, IsPermutation, chars, count_by};
ghost use Rattle.html_lexemes.specs.Counts.{stand_as_often};

use crate::attributes::Attributes;
use crate::names::{Attribute, LocalName};
use crate::states::RawKind;
use lex_base::Text;
use std::alloc::AllocError;

/// Whether a tag opens or closes an element.
#[derive(Clone, Copy, PartialEq, Eq)]
pub enum TagKind {
    /// `<name>`.
    StartTag,
    /// `</name>`.
    EndTag,
}

/// A tag (WHATWG HTML, 13.2.5).
#[derive(Drop, PartialEq, Eq)]
pub struct Tag {
    /// Whether it is a start tag or an end tag.
    pub kind: TagKind,
    /// The name, in lower case where it came from a page.
    pub name: LocalName,
    /// Whether a `/` stood directly before its `>`.
    pub self_closing: bool,
    /// The attributes, in their order; of a name that came twice the first.
    pub attrs: Attributes,
    /// Whether a name came twice.
    pub had_duplicate_attributes: bool,
}

impl Tag {
    ghost use Rattle.html_lexemes.specs.Tags.{IsEquivalent};

    /// Whether two tags have one kind, one name and the same attributes in any order. It takes no memory;
    /// for attributes in the same order the time is linear, else quadratic.
    pub fn equiv_modulo_attr_order(&self, other: &Tag) -> bool
        ensures { IsTrue result ↔ IsEquivalent self.now other.now }
    {
        self.is_named_as(other)
            && (self.attrs == other.attrs
                || are_reordered(self.attrs.as_slice(), other.attrs.as_slice()))
    }

    fn is_named_as(&self, other: &Tag) -> bool
        ensures { IsTrue result ↔ (self.now.kind ≡ other.now.kind) × (self.now.name ≡ other.now.name) }
    {
        self.kind == other.kind && self.name == other.name
    }

    /// An equal tag. The error is allocation failure alone.
    pub fn try_clone(&self) -> Result<Tag, AllocError>
        ensures { IfOk result (λ copy. copy ≡ self.now) }
    {
        Ok(Tag {
            kind: self.kind,
            name: self.name.try_clone()?,
            self_closing: self.self_closing,
            attrs: self.attrs.try_clone()?,
            had_duplicate_attributes: self.had_duplicate_attributes,
        })
    }
}

/// A doctype (WHATWG HTML, 13.2.5). What is missing is `None`, which is not the empty text.
#[derive(Drop, PartialEq, Eq)]
pub struct Doctype {
    /// The name, in lower case where it came from a page.
    pub name: Option<Text>,
    /// The public identifier.
    pub public_id: Option<Text>,
    /// The system identifier.
    pub system_id: Option<Text>,
    /// Whether the document is to be in quirks mode whatever the rest says.
    pub force_quirks: bool,
}

impl Doctype {
    /// An equal doctype. The error is allocation failure alone.
    pub fn try_clone(&self) -> Result<Doctype, AllocError>
        ensures { IfOk result (λ copy. copy ≡ self.now) }
    {
        Ok(Doctype {
            name: clone_if_given(&self.name)?,
            public_id: clone_if_given(&self.public_id)?,
            system_id: clone_if_given(&self.system_id)?,
            force_quirks: self.force_quirks,
        })
    }
}

fn clone_if_given(text: &Option<Text>) -> Result<Option<Text>, AllocError>
    ensures { IfOk result (λ copy. copy ≡ text.now) }
{
    match text {
        Some(text) => Ok(Some(text.try_clone()?)),
        None => Ok(None),
    }
}

/// What a parse error says: a text of the program, or one made for it. It is for people to read, and
/// nothing depends on it.
#[derive(Drop, PartialEq, Eq)]
pub enum ErrorMessage {
    /// A text of the program.
    Fixed(&'static str),
    /// A text made for this error.
    Made(Text),
}

impl ErrorMessage {
    ghost use Rattle.html_lexemes.specs.Tokens.{message_text};

    /// The message, lent.
    pub fn as_str(&self) -> &str
        ensures { chars result.now ≡ message_text self.now }
    {
        match self {
            ErrorMessage::Fixed(message) => message,
            ErrorMessage::Made(message) => message.as_str(),
        }
    }
}

/// What a tokenizer emits (WHATWG HTML, 13.2.5).
#[derive(Drop, PartialEq, Eq)]
pub enum Token {
    /// A doctype.
    DoctypeToken(Doctype),
    /// A start tag or an end tag.
    TagToken(Tag),
    /// A comment, without its marks.
    CommentToken(Text),
    /// Characters of text. Two that follow each other mean what one with both texts does.
    CharacterTokens(Text),
    /// A NUL in text.
    NullCharacterToken,
    /// The end of the page.
    EOFToken,
    /// A parse error, for people to read.
    ParseError(ErrorMessage),
}

/// What a sink asks of the tokenizer after a token.
#[derive(Drop, PartialEq, Eq)]
pub enum TokenSinkResult<H> {
    /// To go on.
    Continue,
    /// To pause, for the script element of this handle.
    Script(H),
    /// To read all that follows as text.
    Plaintext,
    /// To read text of this kind, up to the end tag of the last start tag.
    RawData(RawKind),
    /// To pause, since the page names this encoding.
    EncodingIndicator(Text),
}

/// What became of some input.
#[derive(Drop, PartialEq, Eq)]
pub enum ProcessResult<H> {
    /// There may be more to do with what is left.
    Continue,
    /// More input is needed.
    Suspend,
    /// A pause, for the script element of this handle.
    Script(H),
    /// A pause, since the page names this encoding.
    EncodingIndicator(Text),
}

// how many attributes are equal to one
fn count_of(attributes: &[Attribute], wanted: &Attribute) -> usize
    ensures { result ≡ count_by (λ a. ⟦<Attribute as PartialEq>⟧.eq a wanted.now) attributes.now }
{
    attributes.iter().filter(|a| *a == wanted).count()
}

// whether each attribute of the first stands equally often in both
fn stand_as_often(attributes: &[Attribute], others: &[Attribute]) -> bool
    ensures { result ≡ stand_as_often ⟦<Attribute as PartialEq>⟧.eq attributes.now others.now }
{
    attributes
        .iter()
        .all(|a| count_of(attributes, a) == count_of(others, a))
}

// whether one is the other in some order
fn are_reordered(attributes: &[Attribute], others: &[Attribute]) -> bool
    ensures { IsTrue result ↔ IsPermutation attributes.now others.now }
{
    stand_as_often(attributes, others) && stand_as_often(others, attributes)
}
