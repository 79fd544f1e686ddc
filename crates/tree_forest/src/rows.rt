//! The changes of a forest, computed on worked rows.
ghost use Rattle.std.specs.Prelude.{◌≡◌, [], ◌∷◌, None, Some, codes, true, false};
ghost use Rattle.tree_forest.specs.Changes.{detached, made_element, reparented, with_attributes};
ghost use Rattle.tree_forest.specs.Forest.{attributes_of, children_at, contents_of, document, kind_at, name_of, nodes};
ghost use Rattle.tree_forest.specs.Forest.{page_alone, parent_of, text};
ghost use Rattle.tree_forest.specs.Places.{based_on, before, below, put_node, put_words};
ghost use Rattle.tree_forest.specs.RowWords.{alone, attribute, html, said, two};

fn numbers_of_rows()
    ensures alone { nodes page_alone ≡ 1 }
    ensures children { children_at 0 two ≡ 1 ∷ 2 ∷ [] }
    ensures no_parent { parent_of 0 two ≡ None }
    ensures parent { parent_of 2 two ≡ Some 0 }
    ensures name { name_of 2 two ≡ html (codes "b") }
{}

fn templates_of_rows()
    ensures numbers { nodes (made_element (html (codes "template")) [] true false page_alone) ≡ 3 }
    ensures contents { contents_of 1 (made_element (html (codes "template")) [] true false page_alone) ≡ Some 2 }
    ensures holder { kind_at 2 (made_element (html (codes "template")) [] true false page_alone) ≡ document }
    ensures childless { children_at 1 (made_element (html (codes "template")) [] true false page_alone) ≡ [] }
    ensures none { contents_of 1 two ≡ None }
{}

fn moves_of_rows()
    ensures taken_out { children_at 0 (detached 1 two) ≡ 2 ∷ [] }
    ensures kept { children_at 0 (detached 0 two) ≡ 1 ∷ 2 ∷ [] }
    ensures put_after { children_at 0 (put_node (below 0) 1 (detached 1 two)) ≡ 2 ∷ 1 ∷ [] }
    ensures put_before { children_at 0 (put_node (before 1) 2 (detached 2 two)) ≡ 2 ∷ 1 ∷ [] }
    ensures put_deeper { children_at 2 (put_node (below 2) 1 (detached 1 two)) ≡ 1 ∷ [] }
    ensures all_children { children_at 3 (reparented 0 3 (alone two)) ≡ 1 ∷ 2 ∷ [] }
    ensures no_children { children_at 0 (reparented 0 3 (alone two)) ≡ [] }
    ensures fostered { based_on 1 2 two ≡ before 1 }
    ensures not_fostered { based_on 1 2 (detached 1 two) ≡ below 2 }
{}

fn words_of_rows()
    ensures text { kind_at 3 said ≡ text (codes "x") }
    ensures place { children_at 0 said ≡ 1 ∷ 3 ∷ 2 ∷ [] }
    ensures joined { put_words (before 2) (codes "y") said ≡ put_words (before 2) (codes "xy") two }
    ensures not_joined { children_at 0 (put_words (before 1) (codes "y") said) ≡ 4 ∷ 1 ∷ 3 ∷ 2 ∷ [] }
    ensures last { children_at 0 (put_words (below 0) (codes "y") said) ≡ 1 ∷ 3 ∷ 2 ∷ 4 ∷ [] }
    ensures joined_last { kind_at 3 (put_words (below 0) (codes "y") (detached 2 said)) ≡ text (codes "xy") }
    ensures nothing { put_words (below 0) [] two ≡ two }
{}

fn attributes_of_rows()
    ensures added { attributes_of 1 (with_attributes 1 (attribute (codes "a") (codes "1") ∷ []) two)
        ≡ attribute (codes "a") (codes "1") ∷ [] }
    ensures kept { attributes_of 1 (with_attributes 1 (attribute (codes "a") (codes "2")
        ∷ attribute (codes "b") [] ∷ [])
        (with_attributes 1 (attribute (codes "a") (codes "1") ∷ []) two))
        ≡ attribute (codes "a") (codes "1") ∷ attribute (codes "b") [] ∷ [] }
    ensures once { attributes_of 1 (with_attributes 1 (attribute (codes "a") (codes "1")
        ∷ attribute (codes "a") [] ∷ []) two)
        ≡ attribute (codes "a") (codes "1") ∷ [] }
{}
