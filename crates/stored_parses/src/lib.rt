//! What the stored rows ask of the parser: the trees of pages and fragments, the tokens and the errors of texts, and
//! what references stand for. A text is read whole, a character at a time and cut in two, and all must agree. Nothing
//! here has a contract: it drives calls that are proved and writes down what they answer, and the stored run judges it.
#![tactic(auto)]

mod cuts;
pub mod references;
pub mod tokens;
pub mod trees;
