//! Each change keeps a forest one.
ghost use Rattle.std.specs.Prelude.{◌≡◌, ℕ, Bool, List, None};
ghost use Rattle.html_lexemes.specs.declared.names.Attribute.{Attribute as SeenAttribute};
ghost use Rattle.html_lexemes.specs.declared.names.QualName.{QualName as SeenQualName};
ghost use Rattle.tree_forest.specs.Changes.{detached, made, made_element, reparented, with_attributes};
ghost use Rattle.tree_forest.specs.Conditions.{CanPut, CanReparent};
ghost use Rattle.tree_forest.specs.Forest.{Forest, Kind, element_of, page_alone};
ghost use Rattle.tree_forest.specs.Orders.{AtOrAbove, HasNoParent, IsDocument, IsForest, IsParent};
ghost use Rattle.tree_forest.specs.Places.{Child, Place, put, with_doctype};

/// A page's document alone is a forest.
pub fn a_page_alone_is_a_forest()
    ensures { IsForest page_alone }
{}

/// A node that is made is one tree more.
pub fn making_keeps_a_forest()
    ensures leaf { (kind : Kind) (f : Forest) → IsForest f → (element_of kind).contents
        ≡ None → IsForest (made kind f) }
    ensures element { (name : SeenQualName) (attributes : List SeenAttribute) (template point : Bool) (f : Forest) →
        IsForest f → IsForest (made_element name attributes template point f) }
    ensures doctype { (name public_id system_id : List ℕ) (f : Forest) →
        IsForest f → IsForest (with_doctype name public_id system_id f) }
{}

/// What may be put keeps a forest one.
pub fn putting_keeps_a_forest()
    ensures { (place : Place) (child : Child) (f : Forest) →
        IsForest f → CanPut place child f → IsForest (put place child f) }
{}

/// A node that is taken out is one tree more; nothing is above what it wasn't above before.
pub fn taking_out_keeps_a_forest()
    ensures forest { (n : ℕ) (f : Forest) → IsForest f → IsForest (detached n f) }
    ensures free { (n : ℕ) (f : Forest) → IsForest f → ¬ (IsDocument n f) → HasNoParent n (detached n f) }
    ensures above { (n a b : ℕ) (f : Forest) →
        AtOrAbove (IsParent (detached n f)) a b → AtOrAbove (IsParent f) a b }
{}

/// Children may go to a node that isn't at or below their parent.
pub fn reparenting_keeps_a_forest()
    ensures { (old new : ℕ) (f : Forest) → IsForest f → CanReparent old new f → IsForest (reparented old new f) }
{}

/// Attributes change nothing of where nodes stand.
pub fn attributes_keep_a_forest()
    ensures { (n : ℕ) (more : List SeenAttribute) (f : Forest) → IsForest f → IsForest (with_attributes n more f) }
{}
