//! Laws of the cascade.
ghost use Rattle.std.specs.Prelude.{◌≡◌, ◌↔◌, IsTrue, List, Option, false};
ghost use Rattle.std.specs.Ordering.{is_lt, is_some_and, nat_cmp};
ghost use Rattle.std.specs.Cmp.Lexicographic.{slice_cmp};
ghost use Rattle.dom_styles.specs.Cascade.{IsCascaded, cascade};
ghost use Rattle.dom_styles.specs.Keys.{is_less, specificity_key};
ghost use Rattle.dom_styles.specs.declared.cascade.Declared.{Declared};
ghost use Rattle.dom_styles.specs.declared.cascade.Importance.{Importance as SeenImportance};
ghost use Rattle.dom_styles.specs.declared.cascade.Importance.TheVariants.{Default as NotImportant};
ghost use Rattle.dom_styles.specs.declared.cascade.StyleOrigin.{StyleOrigin as Origin};
ghost use Rattle.dom_styles.specs.declared.cascade.StyleOrigin.TheVariants.{None as NoOrigin};
ghost use Rattle.dom_styles.specs.declared.specificity.Specificity.{Specificity};

use crate::cascade::{Importance, StyleOrigin};
use crate::specificity::Specificity;
use std::hash::Hash;

/// Of one property one declaration holds at most: what holds is a function of what is declared.
pub fn one_declaration_holds<T>()
    ensures { (ds : List (Declared T)) (one other : Option (Declared T)) → IsCascaded ds one → IsCascaded ds other
        → one ≡ other }
{}

/// `<` of specificities compares their fields in order, and so does `cmp`; `==` finds those equal that are the same.
pub fn specificities_are_ordered()
    ensures less { (s t : Specificity) → is_some_and is_lt (⟦<Specificity as PartialOrd>⟧.partial_cmp s t)
        ≡ is_less (specificity_key s) (specificity_key t) }
    ensures compared { (s t : Specificity) → ⟦<Specificity as Ord>⟧.cmp s t
        ≡ slice_cmp nat_cmp (specificity_key s) (specificity_key t) }
    ensures equal { (s t : Specificity) → IsTrue (⟦<Specificity as PartialEq>⟧.eq s t) ↔ s ≡ t }
{}

/// Of what is declared of one property the cascade is what holds, and nothing else is.
pub fn the_cascade_is_a_function<T>()
    ensures one { (ds : List (Declared T)) (one : Option (Declared T)) → IsCascaded ds one → one ≡ cascade ds }
    ensures holds { (ds : List (Declared T)) → IsCascaded ds (cascade ds) }
{}

/// Specificities that `==` finds equal have equal hashes: what a hasher is fed is the same.
pub fn equal_specificities_hash_alike()
    ensures { (s t : Specificity) → IsTrue (⟦<Specificity as PartialEq>⟧.eq s t)
        → ⟦<Specificity as Hash>⟧.hash_input s ≡ ⟦<Specificity as Hash>⟧.hash_input t }
{}

/// By default a style comes from nowhere, is not important, and has nothing that makes it specific.
pub fn the_defaults_of_a_style()
    ensures origin { (o : Origin) → ⟦<StyleOrigin as Default>⟧.is_default o → o ≡ NoOrigin }
    ensures importance { (i : SeenImportance) → ⟦<Importance as Default>⟧.is_default i → i ≡ NotImportant }
    ensures specificity { (s : Specificity) → ⟦<Specificity as Default>⟧.is_default s
        → s ≡ record { inline = false; id = 0; class = 0; typ = 0 } }
{}
