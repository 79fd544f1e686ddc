//! The insertion modes of tables (WHATWG HTML, 13.2.6.4.9 to 13.2.6.4.15), over any sink of trees; a part of
//! `html_tree_builder`.
#![tactic(auto)]

mod in_caption;
mod in_cell;
mod in_column_group;
mod in_row;
mod in_table;
mod in_table_body;
mod in_table_text;

pub use in_caption::{close_caption, in_caption_end, in_caption_start, past_caption};
pub use in_cell::{close_cell, in_cell_end, in_cell_start, outer_end, past_cell};
pub use in_column_group::{
    close_column_group, in_column_group_end, in_column_group_start, past_column_group,
};
pub use in_row::{close_row, in_row_end, in_row_start, past_row};
pub use in_table::{
    close_table, end_in_body_fostered, form_in_table, in_table_end, in_table_start, input_in_table,
    start_in_body_fostered,
};
pub use in_table_body::{close_section, in_table_body_end, in_table_body_start, past_table_body};
pub use in_table_text::{collect_text, in_table_text_other};
