//! What the adoption agency keeps, as laws.
ghost use Rattle.std.specs.Prelude.{◌≡◌, ℕ, Bool, [], ◌∷◌, List, Option, Some, true};
ghost use Rattle.tree_formatting.specs.Entries.{is_listed, tag_in, up_to_marker};
ghost use Rattle.tree_forest.specs.Conditions.{CanMove, CanReparent, IsPlace};
ghost use Rattle.tree_forest.specs.Forest.{Forest, is_in, nodes};
ghost use Rattle.tree_forest.specs.Changes.{detached, reparented};
ghost use Rattle.tree_forest.specs.Places.{below};
ghost use Rattle.tree_names.specs.ElementSets.{scope_barriers};
ghost use Rattle.html_lexemes.specs.declared.token.Tag.{Tag as SeenTag};
ghost use Rattle.tree_model.specs.Adoption.{Walk, copied, farther, furthest_block, nearer, out_of_place, placed};
ghost use Rattle.tree_model.specs.Adoption.{popped_with, stepped, taken_over};
ghost use Rattle.tree_model.specs.Building.{Building};
ghost use Rattle.tree_model.specs.CanAdopt.{CanCopy, CanPlace, CanTakeOver, IsAncestor};
ghost use Rattle.tree_model.specs.Formatting.{made_for, unlisted};
ghost use Rattle.tree_model.specs.Insertions.{place_for};
ghost use Rattle.tree_model.specs.Laws.{Laws};
ghost use Rattle.tree_model.specs.OpenElements.{current_of, first_of, up_to};
ghost use Rattle.tree_model.specs.Scopes.{taken_off};
ghost use Rattle.tree_model.specs.Sound.{Sound};
ghost use Rattle.tree_model.specs.Walks.{IsWalk, begun};

/// Each part of a turn of the adoption agency keeps a tree sound.
pub fn adopting_keeps_sound()
    ensures taken_off { (n : ℕ) (b : Building) → Sound b → Sound (taken_off n b) }
    ensures popped_with { (n : ℕ) (b : Building) → Sound b → Sound (popped_with n b) }
    ensures unlisted { (n : ℕ) (b : Building) → Laws → Sound b → Sound (unlisted n b) }
    ensures copied { (n last : ℕ) (tag : SeenTag) (b : Building) → Laws → Sound b → CanCopy n last tag b →
        Sound (copied n tag last b) }
    ensures placed { (last : ℕ) (uppers lows : List ℕ) (b : Building) → Laws → Sound b →
        CanPlace last uppers lows b → Sound (placed last (current_of lows) b) }
    ensures taken_over { (bookmark : Option ℕ) (n block : ℕ) (tag : SeenTag) (b : Building) → Laws → Sound b →
        CanTakeOver n block tag b → Sound (taken_over bookmark n block tag b) }
{}

/// What each part does to the nodes may be done.
pub fn adopting_may_be_done()
    ensures copied { (n last : ℕ) (tag : SeenTag) (b : Building) → Laws → Sound b → CanCopy n last tag b →
        CanMove (below (nodes b.forest)) last (detached last (made_for tag b.forest)) }
    ensures place { (last : ℕ) (uppers lows : List ℕ) (b : Building) → Laws → Sound b →
        CanPlace last uppers lows b →
        IsPlace (place_for (current_of lows) (out_of_place last b)) (detached last b.forest) }
    ensures placed { (last : ℕ) (uppers lows : List ℕ) (b : Building) → Laws → Sound b →
        CanPlace last uppers lows b →
        CanMove (place_for (current_of lows) (out_of_place last b)) last (detached last b.forest) }
    ensures given { (n block : ℕ) (tag : SeenTag) (b : Building) → Laws → Sound b → CanTakeOver n block tag b →
        CanReparent block (nodes b.forest) (made_for tag b.forest) }
    ensures taken_over { (n block : ℕ) (tag : SeenTag) (b : Building) → Laws → Sound b → CanTakeOver n block tag b →
        CanMove (below block) (nodes b.forest) (reparented block (nodes b.forest) (made_for tag b.forest)) }
{}

/// The walk from the furthest block up to the formatting element: what it begins with holds at each of its steps, and
/// where it ends the last node may be placed, and the block's children taken over.
pub fn the_walk_goes_on()
    ensures begins { (n block : ℕ) (tag : SeenTag) (b : Building) → Sound b → is_in n b.stack ≡ true →
        is_in n (up_to scope_barriers b.forest b.stack) ≡ true → furthest_block n b ≡ Some block →
        tag_in n b.formatting ≡ Some tag → is_listed n (up_to_marker b.formatting) ≡ true →
        IsWalk n block tag (farther block (nearer n b.stack)) (farther n b.stack) (begun block b) }
    ensures may_copy { (n block m : ℕ) (tag held : SeenTag) (left lows : List ℕ) (w : Walk) → Laws →
        IsWalk n block tag (m ∷ left) lows w → tag_in m w.tree.formatting ≡ Some held → CanCopy m w.last held w.tree }
    ensures goes_on { (n block m : ℕ) (tag : SeenTag) (left lows : List ℕ) (w : Walk) → Laws →
        IsWalk n block tag (m ∷ left) lows w → (is_late : Bool) →
        IsWalk n block tag left lows (stepped (tag_in m w.tree.formatting) is_late block m w) }
    ensures may_place { (n block : ℕ) (tag : SeenTag) (lows : List ℕ) (w : Walk) → IsWalk n block tag [] lows w →
        IsAncestor w.last (first_of lows) w.tree }
    ensures may_take_over { (n block : ℕ) (tag : SeenTag) (lows : List ℕ) (w : Walk) →
        IsWalk n block tag [] lows w → (f : Forest) → CanTakeOver n block tag (record w.tree { forest = f }) }
{}
