//! What is true of the list whatever is pushed.
ghost use Rattle.std.specs.Prelude.{◌≡◌, ℕ, ◌↔◌, List, ◌∷◌, ◌++◌, IsTrue, true};
ghost use Rattle.html_lexemes.specs.Tags.{IsEquivalent};
ghost use Rattle.html_lexemes.specs.declared.token.Tag.{Tag as SeenTag};
ghost use Rattle.tree_formatting.specs.Alike.{AreFew, are_alike};
ghost use Rattle.tree_formatting.specs.Entries.{Entry, before_marker, formatted, handed_over, is_listed, marker};
ghost use Rattle.tree_formatting.specs.Entries.{moved_after, up_to_marker, without_entry};
ghost use Rattle.tree_formatting.specs.Pushing.{pushed};

/// Tags are alike exactly where they are the same but for the order of their attributes.
pub fn tags_that_are_alike_are_equivalent()
    ensures { (a b : SeenTag) → IsTrue (are_alike a b) ↔ IsEquivalent a b }
{}

/// At most three elements that are alike stand after the last marker, whatever is done to the list.
pub fn at_most_three_are_alike()
    ensures pushed { (n : ℕ) (tag : SeenTag) (entries : List Entry) → AreFew entries → AreFew (pushed n tag entries) }
    ensures marked { (entries : List Entry) → AreFew entries → AreFew (marker ∷ entries) }
    ensures cleared { (entries : List Entry) → AreFew entries → AreFew (before_marker entries) }
    ensures removed { (n : ℕ) (entries : List Entry) → AreFew entries → AreFew (without_entry n entries) }
    ensures handed_over { (n m : ℕ) (entries : List Entry) → AreFew entries → AreFew (handed_over n m entries) }
    ensures moved { (n m after : ℕ) (entries : List Entry) → AreFew entries →
        is_listed n (up_to_marker entries) ≡ true →
        is_listed after (up_to_marker (without_entry n entries)) ≡ true →
        AreFew (moved_after n m after entries) }
    ensures given { (n m : ℕ) (tag : SeenTag) (front back : List Entry) →
        AreFew (front ++ formatted n tag ∷ back) → AreFew (front ++ formatted m tag ∷ back) }
{}
