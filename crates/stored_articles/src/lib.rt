//! What the stored rows ask of articles: the page that is written of an article, the lines that it is laid out on, and
//! the tree of the page, or the article's first fault. Each page is read whole and a byte at a time: what is written
//! of its trees must be the page, and its lines must be the article's. Nothing here has a contract: it drives calls
//! that are proved and writes down what they answer, and the stored run judges it.
#![tactic(auto)]

mod articles;
mod case;
mod pages;
mod values;

pub use articles::answer;
