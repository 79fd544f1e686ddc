//! What is written, as laws.
ghost use Rattle.std.specs.Prelude.{◌≡◌, ◌∷◌, ℕ, Bool, true, false, List};
ghost use Rattle.tree_forest.specs.Forest.{Forest, is_in, kind_at, nodes};
ghost use Rattle.tree_forest.specs.Orders.{IsForest};
ghost use Rattle.tree_serializer.specs.Calls.{Reply};
ghost use Rattle.tree_serializer.specs.Escapes.{escaped};
ghost use Rattle.tree_serializer.specs.Openings.{opening_entry};
ghost use Rattle.tree_serializer.specs.Emitted.{IsEmitted};
ghost use Rattle.tree_serializer.specs.Walked.{IsWalked};
ghost use Rattle.tree_serializer.specs.Walks.{calls_by, calls_of, calls_within, inner_of, joined, text_within};
ghost use Rattle.tree_serializer.specs.Walks.{walk_text};
ghost use Rattle.tree_serializer.specs.Writing.{Entry, Means, Writing};
ghost use Rattle.tree_serializer.specs.declared.options.TraversalScope.{TraversalScope as Scope};

/// Two texts whose escapes are equal are equal, and so are two values.
pub fn an_escape_emits_its_text()
    ensures { (in_value : Bool) (cs ds : List ℕ) → escaped in_value cs ≡ escaped in_value ds → cs ≡ ds }
{}

/// An escape holds no `<` and no `>`, and that of a value holds no `"`.
pub fn an_escape_holds_no_markup()
    ensures less { (in_value : Bool) (cs : List ℕ) → is_in 60 (escaped in_value cs) ≡ false }
    ensures greater { (in_value : Bool) (cs : List ℕ) → is_in 62 (escaped in_value cs) ≡ false }
    ensures quote { (cs : List ℕ) → is_in 34 (escaped true cs) ≡ false }
{}

/// A walk goes one step on: what is emitted of a node is what its kind says, with what is emitted of what stands in it.
pub fn a_walk_goes_one_step_on()
    ensures { (f : Forest) (n : ℕ) → IsForest f → calls_within (nodes f) f n
        ≡ calls_by (kind_at n f) (joined (calls_within (nodes f) f) (inner_of n f)) }
{}

/// What is emitted of a node, or of what stands in it, is written where an entry is open that isn't silent, and the
/// entries stay; where a call is refused a beginning is written, and it isn't for want of a parent.
pub fn what_a_walk_emits_is_written()
    ensures node { (f : Forest) (n : ℕ) (e : Entry) (outer : List Entry) (old new : Writing) (reply : Reply) →
        old.entries ≡ e ∷ outer → e.is_silent ≡ false → IsEmitted Means old (calls_within (nodes f) f n) reply new →
        IsWalked (text_within old.scripting (nodes f) f e.name n) old reply new }
    ensures walk { (scope : Scope) (n : ℕ) (f : Forest) (outer : List Entry) (old new : Writing) (reply : Reply) →
        old.entries ≡ opening_entry scope ∷ outer → IsEmitted Means old (calls_of scope n f) reply new →
        IsWalked (walk_text old.scripting scope n f) old reply new }
{}
