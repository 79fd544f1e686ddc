//! The cascade: which of the styles that rules declare an element has (CSS 2.2, 6.4).
//!
//! # What is proved
//!
//! - `WithSpec::maybe_update`, `val`, `declared`, `Default`: whatever was declared of a property before, and one
//!   more: it holds which has the greatest key, the last among equals (`IsCascaded`); its value; none where nothing
//!   was declared
//! - `computed_style`: that for each property at each place, over the declarations of all rules for the name, in
//!   order (`IsComputed`); it takes no memory, and texts are lent
//! - `Specificity`: `+`, `+=`, `<`, `cmp`, `==`: counts that would pass 65,535 are that; the order is that of the
//!   keys, and equal ones are the same (`specificities_are_ordered`)
//! - `one_declaration_holds`: a law: of what is declared of one property at most one declaration holds
//! - `the_cascade_is_a_function`: a law: what holds of what is declared is what `cascade` of it is, and nothing
//!   else
//! - `is_hidden`: of styles that rules give a name: whether the cascade of what they declare of display is none
//! - `equal_specificities_hash_alike`: a law: what `==` finds equal feeds a hasher the same
//! - `the_defaults_of_a_style`: a law: by default a style comes from nowhere, is not important, and is not specific
//!
//! The key is importance, then origin (program, reader, author; the other way round for important declarations),
//! then specificity. Tested (`test_trees`): pairs of declarations with answers from CSS 2.2's cascade, over `RcDom`.
//! What is not pinned: what generic code over `Add` learns of a sum (a direct call has its clause). Of what a
//! declaration is made is read, in `Keys.antt` and `Styles.antt`.
#![tactic(auto)]

mod cascade;
mod computed;
mod hidden;
mod laws;
mod rules;
mod specificity;

pub use cascade::{Declared, Importance, StyleOrigin, WithSpec};
pub use computed::{ComputedStyle, PlaceStyle, computed_style};
pub use hidden::is_hidden;
pub use laws::{
    equal_specificities_hash_alike, one_declaration_holds, specificities_are_ordered,
    the_cascade_is_a_function, the_defaults_of_a_style,
};
pub use rules::{Display, Style, StyleDecl, StylePlace, StyleRule};
pub use specificity::Specificity;
