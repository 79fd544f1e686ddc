//! Articles as pages: what is written of one, as laws, and its writing (WHATWG HTML, 13.3).
//!
//! # What is written
//!
//! Articles as pages: what stands in the body for their blocks, what is written of them, and that it is read back as
//! their tree (WHATWG HTML, 4.3 to 4.5, 13.2 and 13.3).
//!
//! ## What is proved
//!
//! What stands in the body for an article's blocks (`content_of_blocks`), its written form (`article_text`) and its
//! tree (`article_tree`) are definitions by recursion on the value (`specs/Contents.antt`). The laws hold of every
//! title and blocks without a fault (`first_fault`), that is of every article.
//!
//! - `accepted_articles_are_documents`: an article is a document (`IsBlocks`), without NUL and CR: so all laws of
//!   written_document_laws hold of it
//! - `a_written_article_has_its_tree`: parsed as by default, with scripting or without it, with a table of references
//!   that knows those of escaped text, in any sink of trees, what is written of an article has the article's tree and no
//!   other: its elements and texts, none of them read as markup
//! - `bytes_of_an_article_have_its_tree`: the same of the bytes of that text, however they are cut
//!   (`IsTreeOfBytes`)
//! - `utf8_is_read_as_its_text`: bytes that are UTF-8 are read as their text
//! - `an_article_is_written_back`: what is written of an article's tree is what is written of the article, whether
//!   scripts are run or not
//! - `no_text_is_two_articles`: two articles of which the same text is written have equal titles and equal blocks,
//!   where the first numbers of their lists are numbers of 64 bits
//! - `first_numbers_fit`: those of blocks that stand in memory are, so that law holds of any two articles
//!
//! Laws over definitions alone; the edits change what an article is as a page. What contracts see of a list's first
//! number is the number as 64 bits hold it (`held`).
//!
//! # Writing
//!
//! Articles, written: what is emitted of one to a serializer, and its written form (WHATWG HTML, 13.3).
//!
//! ## What is proved
//!
//! - `SerializableArticle`'s `serialize`: what a serializer is given is the walk of the article's own tree
//!   (`calls_of` of `article_tree`), whether its document node is counted or not: to the end, up to the first call
//!   that is refused, or as far as memory is found
//! - `WriteArticle::write_html` of `Article`: the writer gains exactly the article's text (`article_text`), which
//!   is that of no other article that is accepted (`alone`); after a refusal a beginning of it; what the writer
//!   refused stays refused; never `NoParent`
//!
//! The calls go as deep as an article is nested, 256 at most. So by the laws of article_writing what `write_html`
//! writes is parsed into the article's tree and no other, and is written again of it. Tested (`test_pages`): four
//! articles of an independent model have the pages that it gives them, and a writer that fails has a beginning.
//! `Serialize` can't stand in the crate of `Article`, nor be given to it from outside, so a struct that lends the
//! article has it.
//!
//! Not pinned: a `serialize` and a `write_html` that always answer `Memory`.
//!
//! The cases `article` of stored_rows are the model's 800 articles, 500 of them with quotes and strong text, 200 of
//! these with targets that are printed, and 25 by hand (deep ones, those of the first faults, and links to equal
//! targets among them): each page and each fault is the model's, or the one that was written by hand; the tree that a
//! page is read into is that which Python's own reader of HTML gives for the expected page, or was written by hand; and
//! what is written of this tree is the page again.
#![tactic(auto)]

mod blocks;
mod elements;
mod inlines;
mod inner;
mod laws;
mod names;
mod writing;

pub use laws::{
    a_written_article_has_its_tree, accepted_articles_are_documents, an_article_is_written_back,
    bytes_of_an_article_have_its_tree, first_numbers_fit, no_text_is_two_articles,
    utf8_is_read_as_its_text,
};
pub use writing::{SerializableArticle, WriteArticle};
