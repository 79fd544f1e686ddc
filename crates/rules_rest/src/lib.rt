//! The insertion modes "text", "in template", and those after the body and of framesets, and foreign content (WHATWG
//! HTML, 13.2.6.4.8, 13.2.6.4.16 to 13.2.6.4.21 and 13.2.6.5), over any sink of trees; a part of `html_tree_builder`.
#![tactic(auto)]

mod after_after_body;
mod after_body;
mod after_frameset;
mod foreign_content;
mod framesets;
mod in_template;
mod page_end;
mod text_mode;

pub use after_after_body::{
    after_after_body_comment, after_after_body_end, after_after_body_end_of_file,
};
pub use after_body::{
    after_body_comment, after_body_end, after_body_end_of_file, after_body_start, body_again,
};
pub use after_frameset::{
    after_after_frameset_comment, after_frameset_end, after_frameset_start, frameset_end_of_file,
};
pub use foreign_content::{
    close_foreign_end, foreign_start, is_html_here, takes_start_here, takes_text_here,
};
pub use framesets::{in_frameset_end, in_frameset_start};
pub use in_template::{becomes, in_template_end, in_template_start};
pub use page_end::end_of_file;
pub use text_mode::{text_mode_end, text_mode_end_of_file};
