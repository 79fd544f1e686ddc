//! The insertion mode "in body" (WHATWG HTML, 13.2.6.4.7), over any sink of trees, with those before it, of
//! `rules_head`; a part of `html_tree_builder`.
#![tactic(auto)]

mod in_body;
mod in_body_blocks;
mod in_body_ends;
mod in_body_phrases;

pub use in_body::{in_body_end, in_body_start, phrase_start};
pub use in_body_blocks::{
    block_start, body_start, button_start, definition_start, form_start, frameset_start,
    heading_start, list_item_start, plaintext_start, preformatted_start, table_start,
};
pub use in_body_ends::{
    block_end, body_end, definition_end, form_end, formatting_end, heading_end, html_end,
    line_break_end, list_item_end, marked_end, other_end, p_end,
};
pub use in_body_phrases::{
    anchor_start, formatting_start, iframe_start, image_start, input_start, marked_start,
    math_start, no_break_start, noembed_start, noscript_start, option_group_start, option_start,
    other_start, ruby_base_start, ruby_text_start, rule_start, select_start, svg_start,
    textarea_start, void_phrase_start, void_source_start, xmp_start,
};
