//! Laws of trees as lines.
ghost use Rattle.std.specs.Prelude.{◌≡◌, ℕ, ◌+◌, ◌++◌};
ghost use Rattle.tree_forest.specs.Forest.{Forest, children_at, contents_of, kind_at, nodes};
ghost use Rattle.tree_forest.specs.Orders.{IsForest};
ghost use Rattle.test_tree_lines.specs.TreeLines.{held_by, lines_within, node_lines, row_lines};

/// The lines of a node are its own, and then those of a template's contents and of its children.
pub(crate) fn lines_go_one_step_on()
    ensures { (f : Forest) (level n : ℕ) → IsForest f → lines_within (nodes f) f level n
        ≡ node_lines level (kind_at n f) ++ (row_lines f (level + 2) (held_by (contents_of n f) f)
        ++ row_lines f (level + 1) (children_at n f)) }
{}
