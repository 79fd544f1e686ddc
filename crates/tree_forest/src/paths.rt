//! What stands above what after a change, and that an element stays what it is, as laws.
ghost use Rattle.std.specs.Prelude.{◌≡◌, ℕ, ◌⊎◌, Bool, List, None};
ghost use Rattle.html_lexemes.specs.declared.names.Attribute.{Attribute as SeenAttribute};
ghost use Rattle.html_lexemes.specs.declared.names.QualName.{QualName as SeenQualName};
ghost use Rattle.tree_forest.specs.Changes.{detached, made, made_element, reparented, with_attributes};
ghost use Rattle.tree_forest.specs.Conditions.{CanPut, CanReparent, IsAbovePlace, IsPlace};
ghost use Rattle.tree_forest.specs.Forest.{Forest, Holds, IsElement, Kind, contents_of, element_of, kind_at, name_of};
ghost use Rattle.tree_forest.specs.Orders.{Above, AtOrAbove, IsForest, IsParent};
ghost use Rattle.tree_forest.specs.Places.{Place, node, put, put_node, words};

/// What stands above what: as before, or by the edges that a change has added.
pub fn what_stands_above_what()
    ensures there { (a b : ℕ) (f : Forest) → IsForest f → Above (IsParent f) a b → Holds a f × Holds b f }
    ensures made { (kind : Kind) (a b : ℕ) (f : Forest) → (element_of kind).contents ≡ None →
        Above (IsParent (made kind f)) a b → Above (IsParent f) a b }
    ensures made_element { (name : SeenQualName) (attributes : List SeenAttribute) (template point : Bool) (a b : ℕ)
        (f : Forest) → Holds b f → Above (IsParent (made_element name attributes template point f)) a b →
        Above (IsParent f) a b }
    ensures put { (place : Place) (n a b : ℕ) (f : Forest) → IsForest f → CanPut place (node n) f →
        Above (IsParent (put_node place n f)) a b →
        Above (IsParent f) a b ⊎ (IsAbovePlace place a f × AtOrAbove (IsParent f) n b) }
    ensures words { (place : Place) (cs : List ℕ) (a b : ℕ) (f : Forest) → IsForest f → IsPlace place f → Holds b f →
        Above (IsParent (put place (words cs) f)) a b → Above (IsParent f) a b }
    ensures taken_out { (n a b : ℕ) (f : Forest) →
        Above (IsParent (detached n f)) a b → Above (IsParent f) a b }
    ensures reparented { (old new a b : ℕ) (f : Forest) → IsForest f → CanReparent old new f →
        Above (IsParent (reparented old new f)) a b →
        Above (IsParent f) a b ⊎ (AtOrAbove (IsParent f) a new × Above (IsParent f) old b) }
    ensures attributes { (n : ℕ) (more : List SeenAttribute) (a b : ℕ) (f : Forest) →
        Above (IsParent (with_attributes n more f)) a b → Above (IsParent f) a b }
{}

/// An element stays what it is.
pub fn elements_stay()
    ensures there { (n : ℕ) (f : Forest) → IsElement n f → Holds n f }
    ensures made { (kind : Kind) (n : ℕ) (f : Forest) → Holds n f → kind_at n (made kind f) ≡ kind_at n f }
    ensures made_element { (name : SeenQualName) (attributes : List SeenAttribute) (template point : Bool) (n : ℕ)
        (f : Forest) → Holds n f → kind_at n (made_element name attributes template point f) ≡ kind_at n f }
    ensures words { (place : Place) (cs : List ℕ) (n : ℕ) (f : Forest) → IsElement n f →
        kind_at n (put place (words cs) f) ≡ kind_at n f }
    ensures attributes { (n m : ℕ) (more : List SeenAttribute) (f : Forest) → IsElement m f →
        IsElement m (with_attributes n more f) }
    ensures attribute_names { (n m : ℕ) (more : List SeenAttribute) (f : Forest) →
        name_of m (with_attributes n more f) ≡ name_of m f }
    ensures attribute_contents { (n m : ℕ) (more : List SeenAttribute) (f : Forest) →
        contents_of m (with_attributes n more f) ≡ contents_of m f }
{}
