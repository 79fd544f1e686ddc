//! Which nodes and children there are after a change, as laws.
ghost use Rattle.std.specs.Prelude.{◌≡◌, ℕ, ◌⊎◌, ◌↔◌, Bool, List, [], ◌∷◌, ◌++◌, None, Some, suc};
ghost use Rattle.html_lexemes.specs.declared.names.Attribute.{Attribute as SeenAttribute};
ghost use Rattle.html_lexemes.specs.declared.names.QualName.{QualName as SeenQualName};
ghost use Rattle.tree_forest.specs.Changes.{changed, detached, made, made_element, reparented, with_attributes};
ghost use Rattle.tree_forest.specs.Changes.{without_child};
ghost use Rattle.tree_forest.specs.Conditions.{CanPut, IsPlace};
ghost use Rattle.tree_forest.specs.Forest.{Forest, Holds, Kind, children_at, document, element_of, kind_at, nodes};
ghost use Rattle.tree_forest.specs.Forest.{parent_of, text, text_of};
ghost use Rattle.tree_forest.specs.Orders.{IsForest, IsIn};
ghost use Rattle.tree_forest.specs.Places.{Place, before, in_front, neighbour, node, parent_at, put, put_node, words};

/// Which children there are after a change, and that the parent of a node is the one that has it as a child.
pub fn where_children_stand()
    ensures put { (place : Place) (n m q : ℕ) (f : Forest) → IsForest f → CanPut place (node n) f →
        IsIn m (children_at q (put_node place n f))
        ↔ (IsIn m (children_at q f) ⊎ ((m ≡ n) × (parent_at place f ≡ Some q))) }
    ensures taken_out { (n m q : ℕ) (f : Forest) →
        IsIn m (children_at q (detached n f)) ↔ (IsIn m (children_at q f) × ¬ (m ≡ n)) }
    ensures made { (kind : Kind) (q : ℕ) (f : Forest) → children_at q (made kind f) ≡ children_at q f }
    ensures given { (old new : ℕ) (f : Forest) → Holds new f → ¬ (old ≡ new) →
        children_at new (reparented old new f) ≡ children_at new f ++ children_at old f }
    ensures none_left { (old new : ℕ) (f : Forest) → ¬ (old ≡ new) → children_at old (reparented old new f) ≡ [] }
    ensures parent { (n p : ℕ) (f : Forest) → IsForest f → (parent_of n f ≡ Some p) ↔ IsIn n (children_at p f) }
{}

/// What happens at a child happens in its parent alone.
pub fn what_a_parent_alone_is_changed_by()
    ensures before { (s n p : ℕ) (f : Forest) → IsForest f → IsIn s (children_at p f) →
        put_node (before s) n f ≡ changed p (in_front s n) f }
    ensures taken_out { (n p : ℕ) (f : Forest) → IsForest f → IsIn n (children_at p f) →
        detached n f ≡ changed p (without_child n) f }
    ensures stands_nowhere { (n : ℕ) (f : Forest) → parent_of n f ≡ None → detached n f ≡ f }
{}

/// How many nodes there are after a change.
pub fn how_many_nodes_there_are()
    ensures put { (place : Place) (n : ℕ) (f : Forest) → nodes (put_node place n f) ≡ nodes f }
    ensures taken_out { (n : ℕ) (f : Forest) → nodes (detached n f) ≡ nodes f }
    ensures reparented { (old new : ℕ) (f : Forest) → nodes (reparented old new f) ≡ nodes f }
    ensures attributes { (n : ℕ) (more : List SeenAttribute) (f : Forest) → nodes (with_attributes n more f) ≡ nodes f }
    ensures made { (kind : Kind) (f : Forest) → nodes (made kind f) ≡ suc (nodes f) }
{}

/// What was made is what was asked for, and may be put wherever there is a place.
pub fn what_was_made_may_be_put()
    ensures kind { (kind : Kind) (f : Forest) → kind_at (nodes f) (made kind f) ≡ kind }
    ensures leaf { (place : Place) (kind : Kind) (f : Forest) → IsForest f → IsPlace place f →
        (element_of kind).contents ≡ None → ¬ (kind ≡ document) → CanPut place (node (nodes f)) (made kind f) }
    ensures element { (place : Place) (name : SeenQualName) (attributes : List SeenAttribute) (template point : Bool)
        (f : Forest) → IsForest f → IsPlace place f →
        CanPut place (node (nodes f)) (made_element name attributes template point f) }
{}

/// What the text says that characters join, or that is made of them.
pub fn what_a_text_says()
    ensures joined { (place : Place) (n : ℕ) (said cs : List ℕ) (f : Forest) → Holds n f →
        neighbour place f ≡ Some n → kind_at n f ≡ text said →
        kind_at n (put place (words cs) f) ≡ text (said ++ cs) }
    ensures alone { (place : Place) (c : ℕ) (cs : List ℕ) (f : Forest) → neighbour place f ≡ None →
        put place (words (c ∷ cs)) f ≡ put_node place (nodes f) (made (text (c ∷ cs)) f) }
    ensures after_another { (place : Place) (n c : ℕ) (cs : List ℕ) (f : Forest) → neighbour place f ≡ Some n →
        text_of (kind_at n f) ≡ None →
        put place (words (c ∷ cs)) f ≡ put_node place (nodes f) (made (text (c ∷ cs)) f) }
{}
