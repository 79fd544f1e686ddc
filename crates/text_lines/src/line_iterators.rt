//! Iterators over the texts of a line, and over their characters.

ghost use Rattle.std.specs.Prelude.{◌≡◌, chars};
ghost use Rattle.std.specs.Str.{IsUtf8};
ghost use Rattle.std.specs.Iterator.{YieldsFirst, YieldsFirstRef, item_count};
ghost use Rattle.text_lines.specs.Elements.{elements_text, elements_strings};

use crate::tagged_string::{TaggedLineElement, TaggedString};

/// The characters of a line's texts, in order; markers are left out.
#[derive(Drop)]
pub struct LineChars<'a, T> {
    text: &'a str,
    elements: &'a [TaggedLineElement<T>],
    ghost utf8: { ∥ IsUtf8 text.now ∥₁ },
}

impl<'a, T> LineChars<'a, T> {
    ghost use Rattle.text_lines.specs.Iterating.{chars_left};

    pub(crate) fn new(elements: &'a [TaggedLineElement<T>]) -> LineChars<'a, T>
        ensures { chars_left result ≡ elements_text elements.now }
    {
        LineChars { text: "", elements }
    }
}

impl<'a, T> Iterator for LineChars<'a, T> {
    ghost use Rattle.text_lines.specs.Iterating.{chars_left};

    type Item = char;

    ghost next_gives = { YieldsFirst chars_left };

    ghost remaining = { item_count chars_left };

    fn next(&mut self) -> Option<char> {
        while self.text.is_empty() {
            let (first, others) = self.elements.split_first()?;
            self.elements = others;
            self.text = first.as_str();
        }
        let mut chars = self.text.chars();
        let next = chars.next();
        self.text = chars.as_str();
        next
    }
}

/// The texts of a line with their tags, in order; markers are left out.
#[derive(Drop)]
pub struct TaggedStrings<'a, T> {
    elements: &'a [TaggedLineElement<T>],
}

impl<'a, T> TaggedStrings<'a, T> {
    ghost use Rattle.text_lines.specs.Iterating.{strings_left};

    pub(crate) fn new(elements: &'a [TaggedLineElement<T>]) -> TaggedStrings<'a, T>
        ensures { strings_left result ≡ elements_strings elements.now }
    {
        TaggedStrings { elements }
    }
}

impl<'a, T> Iterator for TaggedStrings<'a, T> {
    ghost use Rattle.text_lines.specs.Iterating.{strings_left};

    type Item = &'a TaggedString<T>;

    ghost next_gives = { YieldsFirstRef strings_left };

    ghost remaining = { item_count strings_left };

    fn next(&mut self) -> Option<&'a TaggedString<T>> {
        while let Some((first, others)) = self.elements.split_first() {
            self.elements = others;
            if let TaggedLineElement::Str(string) = first {
                return Some(string);
            }
        }
        None
    }
}
