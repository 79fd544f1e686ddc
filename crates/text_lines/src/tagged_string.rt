ghost use Rattle.std.specs.Prelude.{◌≡◌, ◌≤◌, ◌↔◌, [], IfOk, IsTrue, OnErr, OnOk, chars, encode_utf8, length};
ghost use Rattle.std.specs.Prelude.{string_bytes};
ghost use Rattle.text_lines.specs.Columns.{text_columns};

use crate::columns::{Columns, UnicodeColumns};
use crate::equal_copy::EqualCopy;
use std::alloc::{AllocError, Global};

/// A text with a tag.
#[derive(Drop, PartialEq)]
pub struct TaggedString<T> {
    /// The text.
    pub s: String,
    /// What is known of the text, as its annotations.
    pub tag: T,
}

impl<T> TaggedString<T> {
    /// The text's columns, the sum over its characters.
    pub fn width(&self) -> usize
        ensures { result ≡ text_columns (chars (string_bytes self.now.s)) }
    {
        columns_of(self.s.as_str())
    }

    /// The same text, with what `f` makes of the tag.
    pub fn map_tag<U, F: Fn(T) -> U>(self, f: &F) -> TaggedString<U>
        requires { F.pre f.now self.tag }
        ensures text { result.s ≡ self.s }
        ensures tag { F.post f.now self.tag result.tag }
    {
        let TaggedString { s, tag } = self;
        TaggedString { s, tag: f(tag) }
    }
}

impl<T: EqualCopy + Drop> TaggedString<T> {
    /// An equal string. The error is allocation failure alone.
    pub fn try_clone(&self) -> Result<TaggedString<T>, AllocError>
        ensures text { IfOk result (λ copy. string_bytes copy.s ≡ string_bytes self.now.s) }
        ensures tag { IfOk result (λ copy. T.seen copy.tag ≡ T.seen self.now.tag) }
    {
        let alloc = *self.s.allocator();
        Ok(TaggedString {
            s: String::from_str(alloc, self.s.as_str())?,
            tag: self.tag.copy(alloc)?,
        })
    }
}

/// A part of a line: a tagged text, or a marker between characters.
#[derive(Drop, PartialEq)]
pub enum TaggedLineElement<T> {
    /// A text with its tag.
    Str(TaggedString<T>),
    /// The start of the fragment of that name: a marker of no columns.
    FragmentStart(String),
}

impl<T> TaggedLineElement<T> {
    ghost use Rattle.text_lines.specs.Elements.{element_text, Extends, Precedes, IsEmpty, MapsTag};

    /// The columns of the text, 0 for a marker.
    pub fn width(&self) -> usize
        ensures { result ≡ text_columns (chars (element_text self.now)) }
    {
        columns_of(self.as_str())
    }

    /// The text, empty for a marker.
    pub fn as_str(&self) -> &str
        ensures { result.now ≡ element_text self.now }
    {
        match self {
            TaggedLineElement::Str(string) => string.s.as_str(),
            TaggedLineElement::FragmentStart(_) => "",
        }
    }

    /// Whether there is neither text nor a marker.
    pub(crate) fn is_empty(&self) -> bool
        ensures { IsTrue result ↔ IsEmpty self.now }
    {
        match self {
            TaggedLineElement::Str(string) => string.s.is_empty(),
            TaggedLineElement::FragmentStart(_) => false,
        }
    }

    /// Adds to the text; a marker stays as it is.
    pub(crate) fn push_str(&mut self, text: &str) -> Result<(), AllocError>
        ensures ok { OnOk result (Extends self.old self.new text.now) }
        ensures err { OnErr result (Extends self.old self.new []) }
    {
        match self {
            TaggedLineElement::Str(string) => string.s.push_str(text),
            TaggedLineElement::FragmentStart(_) => Ok(()),
        }
    }

    /// Adds in front of the text; a marker stays as it is.
    pub(crate) fn push_front(&mut self, text: &str) -> Result<(), AllocError>
        ensures ok { OnOk result (Precedes self.old self.new text.now) }
        ensures err { OnErr result (Precedes self.old self.new []) }
    {
        match self {
            TaggedLineElement::Str(string) => string.s.insert_str(0, text),
            TaggedLineElement::FragmentStart(_) => Ok(()),
        }
    }

    /// Adds a character to the text; a marker stays as it is.
    pub(crate) fn push(&mut self, c: char) -> Result<(), AllocError>
        ensures ok { OnOk result (Extends self.old self.new (encode_utf8 c)) }
        ensures err { OnErr result (Extends self.old self.new []) }
    {
        match self {
            TaggedLineElement::Str(string) => string.s.push(c),
            TaggedLineElement::FragmentStart(_) => Ok(()),
        }
    }

    /// Makes room for so many bytes more of text.
    pub(crate) fn reserve(&mut self, bytes: usize) -> Result<(), AllocError>
        ensures { Extends self.old self.new [] }
    {
        match self {
            TaggedLineElement::Str(string) => string.s.reserve_exact(bytes),
            TaggedLineElement::FragmentStart(_) => Ok(()),
        }
    }

    /// The same element, with what `f` makes of a text's tag.
    pub fn map_tag<U, F: Fn(T) -> U>(self, f: &F) -> TaggedLineElement<U>
        requires { F.IsAlwaysCallable f.now }
        ensures { MapsTag (F.post f.now) self result }
    {
        match self {
            TaggedLineElement::Str(string) => TaggedLineElement::Str(string.map_tag(f)),
            TaggedLineElement::FragmentStart(name) => TaggedLineElement::FragmentStart(name),
        }
    }
}

impl<T: EqualCopy + Drop> TaggedLineElement<T> {
    ghost use Rattle.text_lines.specs.Elements.{Copies};

    /// An equal element. The error is allocation failure alone.
    pub fn try_clone(&self) -> Result<TaggedLineElement<T>, AllocError>
        ensures { IfOk result (Copies T.seen self.now) }
    {
        match self {
            TaggedLineElement::Str(string) => Ok(TaggedLineElement::Str(string.try_clone()?)),
            TaggedLineElement::FragmentStart(name) => {
                let name = String::from_str(*name.allocator(), name.as_str())?;
                Ok(TaggedLineElement::FragmentStart(name))
            }
        }
    }
}

impl<T: EqualCopy> TaggedLineElement<T> {
    ghost use Rattle.text_lines.specs.Elements.{HasTag};

    /// Whether this is a text with an equal tag.
    pub(crate) fn has_tag(&self, tag: &T) -> bool
        ensures { IsTrue result ↔ HasTag T.seen (T.seen tag.now) self.now }
    {
        match self {
            TaggedLineElement::Str(string) => string.tag == *tag,
            TaggedLineElement::FragmentStart(_) => false,
        }
    }
}

/// A copy of a text to which more is likely to be added: it has room for a space after it, and for 24 bytes at least,
/// which take no more memory than fewer. The error is allocation failure alone.
pub fn roomy_copy(alloc: Global, text: &str) -> Result<String, AllocError>
    ensures ok { IfOk result (λ copy. string_bytes copy ≡ text.now) }
{
    let mut copy = String::with_capacity(alloc, text.len().saturating_add(1).max(24))?;
    copy.push_str(text)?;
    Ok(copy)
}

/// The columns of a text: the sum of those of its characters that have a width.
pub fn columns_of(text: &str) -> usize
    ensures { result ≡ text_columns (chars text.now) }
{
    // The common case: a text of printable ASCII has a column for each byte.
    if has_only_printable_ascii(text) {
        return text.len();
    }
    let mut columns = 0usize;
    for c in text.chars() {
        columns += UnicodeColumns::columns(c).unwrap_or(0);
    }
    columns
}

fn has_only_printable_ascii(text: &str) -> bool
    ensures { IsTrue result → text_columns (chars text.now) ≡ length text.now }
{
    for byte in text.as_bytes() {
        if !is_printable_ascii(*byte) {
            return false;
        }
    }
    true
}

fn is_printable_ascii(byte: u8) -> bool
    ensures { IsTrue result ↔ ((0x20 ≤ byte) × (byte ≤ 0x7E)) }
{
    matches!(byte, b' '..=b'~')
}
