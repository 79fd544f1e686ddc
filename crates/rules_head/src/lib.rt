//! The insertion modes before "in body" (WHATWG HTML, 13.2.6.4.1 to 13.2.6.4.6), over any sink of trees; a part of
//! `html_tree_builder`.
//!
//! # What is proved
//!
//! Of `rules_head`, `rules_body`, `rules_tables` and `rules_rest`.
//!
//! Each rule for tags, one function a rule: rules_head has those of the modes before "in body" (and comments and
//! doctypes of "initial"), rules_body those of "in body", rules_tables those of tables ("in table" to "in cell"),
//! rules_rest those of "text", "in template", what follows the body, framesets, the end of the page, and foreign
//! content with the tests of the dispatcher. What a rule does to the page is what its row of the table says, over
//! any sink of trees: `came_to flow (parsed new) ≡ outcome (row) (parsed old)`, that is the state, the answer to
//! the tokenizer, and whether the mode that stands then takes the token. Each keeps `Ready`, and is refused only if
//! allocation fails.
#![tactic(auto)]

mod after_head;
mod before_head;
mod before_html;
mod html_tag;
mod in_head;
mod in_head_noscript;
mod initial;
mod raw_text;

pub use after_head::{after_head_end, after_head_start, make_body};
pub use before_head::{before_head_end, before_head_start, make_head};
pub use before_html::{before_html_end, before_html_start, make_html};
pub use html_tag::html_start;
pub use in_head::{
    close_head, in_head_end, in_head_start, meta_start, noscript_in_head, raw_start, template_end,
    template_start,
};
pub use in_head_noscript::{close_noscript, in_head_noscript_end, in_head_noscript_start};
pub use initial::{initial_comment, initial_doctype, initial_other};
pub use raw_text::read_raw;
