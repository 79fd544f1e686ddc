//! Laws of slices: each is the contract of a function that does nothing.
ghost use Rattle.std.specs.Prelude.{◌≡◌, ℕ, List, ◌++◌, Option, MatchOption};
ghost use Rattle.lex_base.specs.Lookup.{BeginsWithNoName, IsLongestName};
ghost use Rattle.lex_base.specs.References.{References};
ghost use Rattle.token_grammar.specs.References.{named};
ghost use Rattle.token_grammar.specs.Slices.{Cut, HasNoMark, IsShortest, cut};

/// A cut stands before the first mark of a text, and a text without a cut has no mark.
pub fn cut_is_shortest()
    ensures shortest { (mark : List ℕ → Option (List ℕ)) (cs : List ℕ) (c : Cut) → cut mark cs ≡ Some c →
        IsShortest mark cs c }
    ensures no_mark { (mark : List ℕ → Option (List ℕ)) (cs : List ℕ) → cut mark cs ≡ None → HasNoMark mark cs }
{}

/// The name that is found at the front of a text is the longest of the table, and where none is found the
/// text begins with none.
pub fn named_is_longest()
    ensures { (table : References) (cs : List ℕ) → MatchOption (named table cs) (BeginsWithNoName table cs)
        (λ f. (name : List ℕ) × IsLongestName table cs name f.characters × (cs ≡ name ++ f.rest)) }
{}
