//! Articles as values: what is written, title and blocks, before it is a page.
//!
//! [`Article::new`] takes a value that has none of the faults of [`ArticleError`]; so each article can be written as a
//! page and read back.
//!
//! # What is proved
//!
//! An article is a title, where there is one, and blocks (`specs/Articles.antt`); its faults stand in
//! `specs/Faults.antt`.
//!
//! - `Article::new`: an article exactly where title and blocks have no fault, and then it has just these; else the
//!   first fault, a value before what it holds and this before what follows it; never `Memory`
//! - `Article::title`, `Article::blocks`: the title's characters; the blocks, which have no fault
//!
//! `Block` and `Inline` are let go by loops that take no memory and end. Not proved: that a drop takes time in step
//! with the value. Tested (`test_pages`): 51 values with one fault, with several and with none, exactly 256 deep and
//! 257, and three a million deep. The 300 articles of an independent model have the faults that the definitions,
//! read once more in Python, give them. An empty quote, as an empty division, is no fault, and quotes and strong
//! text count for the depth.
#![tactic(auto)]

mod article;
mod block_checks;
mod error;
mod inline_checks;
mod letting_go;
mod values;

pub use article::Article;
pub use error::ArticleError;
pub use values::{Block, Inline};
