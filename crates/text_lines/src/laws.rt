//! Laws of equality: each is the contract of a function that does nothing.
ghost use Rattle.std.specs.Prelude.{◌≡◌, ◌↔◌, IsTrue};
ghost use Rattle.text_lines.specs.Equality.{AreSameStrings, AreSameElements};
ghost use Rattle.text_lines.specs.Tagged.{line_items, IsJoined};
ghost use Rattle.text_lines.specs.declared.tagged_line.TaggedLine.{TaggedLine as SeenLine};
ghost use Rattle.text_lines.specs.declared.tagged_string.TaggedLineElement.{TaggedLineElement as SeenElement};
ghost use Rattle.text_lines.specs.declared.tagged_string.TaggedString.{TaggedString as SeenString};

use crate::equal_copy::EqualCopy;
use crate::tagged_line::TaggedLine;
use crate::tagged_string::{TaggedLineElement, TaggedString};

/// Tagged strings are found equal exactly where they have the same characters, and tags that are seen alike.
pub fn equal_strings_are_seen_alike<T: EqualCopy + Drop>()
    ensures { (a b : SeenString T) → IsTrue (⟦<TaggedString<T> as PartialEq>⟧.eq a b) ↔ AreSameStrings T.seen a b }
{}

/// Elements are found equal exactly where both are such texts, or markers of one name.
pub fn equal_elements_are_seen_alike<T: EqualCopy + Drop>()
    ensures { (a b : SeenElement T) → IsTrue (⟦<TaggedLineElement<T> as PartialEq>⟧.eq a b)
        ↔ AreSameElements T.seen a b }
{}

/// Lines that are found equal have the same tagged characters and markers, and joined lines that have them are found
/// equal.
pub fn equal_lines_are_seen_alike<T: EqualCopy + Drop>()
    ensures items { (a b : SeenLine T) → IsTrue (⟦<TaggedLine<T> as PartialEq>⟧.eq a b)
        → line_items T.seen a ≡ line_items T.seen b }
    ensures joined { (a b : SeenLine T) → IsJoined T.seen a → IsJoined T.seen b
        → line_items T.seen a ≡ line_items T.seen b
        → IsTrue (⟦<TaggedLine<T> as PartialEq>⟧.eq a b) }
{}
