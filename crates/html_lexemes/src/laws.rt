//! Laws of names and tags: each is the contract of a function that does nothing.
ghost use Rattle.std.specs.Prelude.{◌≡◌, ◌↔◌, IsTrue};
ghost use Rattle.html_lexemes.specs.Tags.{IsEquivalent};
ghost use Rattle.html_lexemes.specs.declared.names.Attribute.{Attribute as SeenAttribute};
ghost use Rattle.html_lexemes.specs.declared.names.LocalName.{LocalName as SeenLocalName};
ghost use Rattle.html_lexemes.specs.declared.names.QualName.{QualName as SeenQualName};
ghost use Rattle.html_lexemes.specs.declared.token.Tag.{Tag as SeenTag};

use crate::names::{Attribute, LocalName, QualName};

/// Tags that are the same but for the order of their attributes are so in an equivalence.
pub fn tags_are_equivalent()
    ensures itself { (a : SeenTag) → IsEquivalent a a }
    ensures back { (a b : SeenTag) → IsEquivalent a b → IsEquivalent b a }
    ensures onward { (a b c : SeenTag) → IsEquivalent a b → IsEquivalent b c → IsEquivalent a c }
{}

/// Names and attributes are found equal exactly where they are the same.
pub fn equal_names_are_the_same()
    ensures local_name { (a b : SeenLocalName) → IsTrue (⟦<LocalName as PartialEq>⟧.eq a b) ↔ a ≡ b }
    ensures qualified_name { (a b : SeenQualName) → IsTrue (⟦<QualName as PartialEq>⟧.eq a b) ↔ a ≡ b }
    ensures attribute { (a b : SeenAttribute) → IsTrue (⟦<Attribute as PartialEq>⟧.eq a b) ↔ a ≡ b }
{}
