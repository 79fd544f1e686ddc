//! Trees, as laws.
ghost use Rattle.std.specs.Prelude.{◌≡◌, ◌*◌, ◌∷◌, ◌++◌, ℕ, List, []};
ghost use Rattle.tree_forest.specs.Forest.{Forest, children_at, kind_at};
ghost use Rattle.tree_forest.specs.Orders.{IsForest};
ghost use Rattle.tree_forest.specs.Trees.{Trees, followed_by, node, none, size, steps, trees};

/// A tree goes one step on: of the first of some nodes it is what that is, with its children's trees in it, and those
/// of the others after it; of no nodes there is none. Together these say what the trees of any nodes are.
pub fn a_tree_goes_one_step_on()
    ensures first { (f : Forest) (n : ℕ) (ns : List ℕ) → IsForest f
        → trees f (n ∷ ns) ≡ node (kind_at n f) (trees f (children_at n f)) (trees f ns) }
    ensures none { (f : Forest) → trees f [] ≡ none }
{}

/// The trees of nodes and of others after them are those of the one before those of the other.
pub fn trees_stand_in_order()
    ensures { (f : Forest) (ms ns : List ℕ) → trees f (ms ++ ns) ≡ followed_by (trees f ms) (trees f ns) }
{}

/// A walk of trees takes three steps for each of their nodes.
pub fn a_walk_takes_three_steps_a_node()
    ensures { (ts : Trees) → steps ts ≡ 3 * size ts }
{}
