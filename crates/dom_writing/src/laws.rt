//! Laws of trees as lines.
ghost use Rattle.std.specs.Prelude.{◌≡◌, ℕ, ◌+◌, ◌++◌};
ghost use Rattle.dom_writing.specs.Dumps.{dump_within, joined, line_text};
ghost use Rattle.tree_forest.specs.Forest.{Forest, children_at, kind_at, nodes};
ghost use Rattle.tree_forest.specs.Orders.{IsForest};

/// The lines of a node are its own, and then those of its children one level further.
pub fn a_dump_goes_one_step_on()
    ensures { (f : Forest) (level n : ℕ) → IsForest f → dump_within (nodes f) f level n
        ≡ line_text level (kind_at n f) ++ joined (dump_within (nodes f) f (level + 1)) (children_at n f) }
{}
