//! Written documents are read back: what is written of a page's items is read back as those items, what is written of
//! a document has the document's tree, and is written again of that tree (WHATWG HTML, 13.3 and 13.2.5).
//!
//! # What is proved
//!
//! What is written of a document (`document_text`) is a doctype, `html`, `head` with at most a `title`, and `body`,
//! texts and values escaped character by character (`specs/Documents.antt`). The laws hold of every document
//! (`IsBlocks`, as in document_laws) in whose title, texts and values no NUL stands, for a table of references
//! that knows those of escaped text.
//!
//! - `written_items_are_read_back`: the reading of what is written of texts, tags and doctypes, whatever follows,
//!   emits these items, for every lawful sink, where each is read back in the mode in which it stands
//!   (`AreReadBack`)
//! - `a_written_document_is_read_back`: the reading of a written document emits its tokens, for every lawful sink
//!   that asks for the text of the title and for nothing else
//! - `a_written_document_has_its_tree`: what tree construction makes of that reading, from the beginning of a page
//!   on, is the document's tree (`document_tree`), and nothing else
//! - `a_documents_tree_at_once`: that tree, planted node by node, is the one in which all nodes stand at once
//!   (`whole_tree`)
//! - `a_document_is_walked`: the walk of a document's tree writes the document, whether scripts are run or not
//! - `a_document_is_emitted`: the walk of that tree gives a serializer the document's calls (`document_calls`),
//!   whether its own node is counted or not
//! - `a_written_document_is_written_back`: what is written again of the tree to which a written document is read is
//!   the same text
//! - `a_written_page_has_its_tree`: parsed as by default, with scripting or without it, in any sink of trees, a
//!   written document without CR in its title, texts and values has its own tree and no other (`IsTreeOfPage`)
//! - `no_text_is_two_documents`: two documents of which the same text is written are equal
//! - `a_written_document_is_a_page_text`: a written document without CR in its title, texts and values is a page's
//!   text as it stands: nothing of it is dropped before the grammar reads it
//!
//! Laws over definitions alone; the edits change the written form, which characters may stand in it, the tree and
//! what is given to a serializer.
#![tactic(auto)]

mod laws;

pub use laws::{
    a_document_is_emitted, a_document_is_walked, a_documents_tree_at_once,
    a_written_document_has_its_tree, a_written_document_is_a_page_text,
    a_written_document_is_read_back, a_written_document_is_written_back,
    a_written_page_has_its_tree, no_text_is_two_documents, written_items_are_read_back,
};
