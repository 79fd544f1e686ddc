//! What holds of the tree of every page, said without the rule table: laws, beside `html_tree_builder`.
//!
//! # What is proved
//!
//! - `a_tree_keeps_the_text_of_its_page`: `page_tree_laws`'s law in the words of `parse_pieces`: of any tree of a page
//!   (`IsTreeOfPage`), in any sink of trees, whatever the options are
//! - `a_page_is_at_its_beginning`: a tree builder that has just begun on a forest is where laws of whole pages ask
//!   it to be (`IsAtBeginning`), whatever its options are
//! - `a_tree_has_its_skeleton`: `page_tree_laws`'s law in the same words: of any tree of a page that begins on a
//!   document without elements
//! - `the_text_of_bytes_is_kept`, `bytes_have_the_skeleton_of_a_page`: both of the tree of a page that comes in
//!   bytes (`IsTreeOfBytes`), whatever the table and the options are
#![tactic(auto)]

mod laws;

pub use laws::{
    a_page_is_at_its_beginning, a_tree_has_its_skeleton, a_tree_keeps_the_text_of_its_page,
    bytes_have_the_skeleton_of_a_page, the_text_of_bytes_is_kept,
};
