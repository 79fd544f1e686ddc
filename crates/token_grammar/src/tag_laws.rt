//! Laws of tags: each is the contract of a function that does nothing.
ghost use Rattle.std.specs.Prelude.{◌≡◌, ℕ, List, [], Some};
ghost use Rattle.lex_base.specs.References.{References};
ghost use Rattle.html_lexemes.specs.declared.names.Attribute.{Attribute};
ghost use Rattle.html_lexemes.specs.declared.token.Tag.{Tag};
ghost use Rattle.html_lexemes.specs.declared.token.TagKind.{TagKind};
ghost use Rattle.token_grammar.specs.References.{value_of};
ghost use Rattle.token_grammar.specs.TagLaws.{AreFirstOfEach, IsTagSlice, IsValue};
ghost use Rattle.token_grammar.specs.Tags.{first_of_each, tag_at};

/// Of the attributes that are written in a tag, the first of each name stays, and nothing else does.
pub fn first_of_each_name()
    ensures is { (written : List Attribute) → AreFirstOfEach written (first_of_each [] written) }
    ensures only { (written kept : List Attribute) → AreFirstOfEach written kept → kept ≡ first_of_each [] written }
{}

/// An attribute's value is its characters and references in turn, and there is no other.
pub fn value_in_turn()
    ensures is { (table : References) (cs : List ℕ) → IsValue table cs (value_of table cs) }
    ensures only { (table : References) (cs value : List ℕ) → IsValue table cs value → value ≡ value_of table cs }
{}

/// The pieces of a tag, put side by side, are its slice, and what has such a slice is that tag.
pub fn tag_is_its_slice()
    ensures is { (table : References) (kind : TagKind) (cs : List ℕ) (t : Tag) (rest : List ℕ) →
        tag_at table kind cs ≡ Some (t, rest) → IsTagSlice table kind cs t rest }
    ensures only { (table : References) (kind : TagKind) (cs : List ℕ) (t : Tag) (rest : List ℕ) →
        IsTagSlice table kind cs t rest → tag_at table kind cs ≡ Some (t, rest) }
{}
