//! What the changes of a forest mean, as laws.
ghost use Rattle.std.specs.Prelude.{◌≡◌, ℕ, List, [], ◌∷◌, ◌++◌, Some};
ghost use Rattle.html_lexemes.specs.declared.names.Attribute.{Attribute as SeenAttribute};
ghost use Rattle.tree_forest.specs.Alike.{AreAlike};
ghost use Rattle.tree_forest.specs.Changes.{detached, made, reparented, with_attributes, with_missing};
ghost use Rattle.tree_forest.specs.Conditions.{CanPut, IsPlace};
ghost use Rattle.tree_forest.specs.Forest.{Forest, Holds, IsElement, Kind, attributes_of, children_at, contents_of};
ghost use Rattle.tree_forest.specs.Forest.{kind_at, name_of, node_at};
ghost use Rattle.tree_forest.specs.Orders.{IsForest, IsIn};
ghost use Rattle.tree_forest.specs.Places.{Place, before, below, neighbour, node, parent_at, put, put_node, words};

/// Texts that are put side by side are one text node.
pub fn texts_side_by_side_are_one()
    ensures { (place : Place) (cs ds : List ℕ) (f : Forest) → IsForest f → IsPlace place f →
        put place (words (cs ++ ds)) f ≡ put place (words ds) (put place (words cs) f) }
{}

/// A node that was put stands where it was put, and nowhere else.
pub fn a_node_stands_where_it_was_put()
    ensures below { (p n : ℕ) (f : Forest) → Holds p f →
        children_at p (put_node (below p) n f) ≡ children_at p f ++ n ∷ [] }
    ensures before { (s n p : ℕ) (front rest : List ℕ) (f : Forest) → IsForest f →
        children_at p f ≡ front ++ s ∷ rest → children_at p (put_node (before s) n f) ≡ front ++ n ∷ s ∷ rest }
    ensures nowhere_else { (place : Place) (n q : ℕ) (f : Forest) → IsForest f → CanPut place (node n) f →
        IsIn n (children_at q (put_node place n f)) → parent_at place f ≡ Some q }
{}

/// A node that was taken out stands nowhere, and its siblings stay in their order.
pub fn a_node_taken_out_stands_nowhere()
    ensures nowhere { (n q : ℕ) (f : Forest) → ¬ (IsIn n (children_at q (detached n f))) }
    ensures siblings { (n q : ℕ) (front rest : List ℕ) (f : Forest) → IsForest f →
        children_at q f ≡ front ++ n ∷ rest → children_at q (detached n f) ≡ front ++ rest }
{}

/// What was not named keeps its place, name, attributes and text.
pub fn what_was_not_named_stays()
    ensures put_kinds { (place : Place) (n m : ℕ) (f : Forest) → kind_at m (put_node place n f) ≡ kind_at m f }
    ensures put_children { (place : Place) (n q : ℕ) (f : Forest) → IsForest f → IsPlace place f →
        ¬ (parent_at place f ≡ Some q) → children_at q (put_node place n f) ≡ children_at q f }
    ensures words { (place : Place) (cs : List ℕ) (m : ℕ) (f : Forest) → Holds m f → ¬ (neighbour place f ≡ Some m) →
        kind_at m (put place (words cs) f) ≡ kind_at m f }
    ensures taken_out_kinds { (n m : ℕ) (f : Forest) → kind_at m (detached n f) ≡ kind_at m f }
    ensures taken_out_children { (n q : ℕ) (f : Forest) → ¬ (IsIn n (children_at q f)) →
        children_at q (detached n f) ≡ children_at q f }
    ensures made { (kind : Kind) (m : ℕ) (f : Forest) → Holds m f → node_at m (made kind f) ≡ node_at m f }
    ensures reparented_kinds { (old new m : ℕ) (f : Forest) → kind_at m (reparented old new f) ≡ kind_at m f }
    ensures reparented_children { (old new q : ℕ) (f : Forest) → ¬ (q ≡ old) → ¬ (q ≡ new) →
        children_at q (reparented old new f) ≡ children_at q f }
    ensures attributes { (n m : ℕ) (more : List SeenAttribute) (f : Forest) → ¬ (m ≡ n) →
        node_at m (with_attributes n more f) ≡ node_at m f }
{}

/// Attributes that are missing are added to an element, which keeps its name, children and contents.
pub fn attributes_are_added()
    ensures attributes { (n : ℕ) (more : List SeenAttribute) (f : Forest) → Holds n f → IsElement n f →
        attributes_of n (with_attributes n more f) ≡ with_missing (attributes_of n f) more }
    ensures name { (n : ℕ) (more : List SeenAttribute) (f : Forest) → name_of n (with_attributes n more f)
        ≡ name_of n f }
    ensures contents { (n : ℕ) (more : List SeenAttribute) (f : Forest) →
        contents_of n (with_attributes n more f) ≡ contents_of n f }
    ensures children { (n q : ℕ) (more : List SeenAttribute) (f : Forest) →
        children_at q (with_attributes n more f) ≡ children_at q f }
{}

/// To be equal up to the numbers of nodes is an equivalence of forests.
pub fn alikeness_is_an_equivalence()
    ensures itself { (f : Forest) → AreAlike f f }
    ensures both_ways { (f g : Forest) → IsForest f → AreAlike f g → AreAlike g f }
    ensures on { (f g h : Forest) → AreAlike f g → AreAlike g h → AreAlike f h }
{}
