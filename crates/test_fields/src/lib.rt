//! The fields of lines that programs are given cases by, and answer in: tabs stand between the fields, and within
//! them `\\`, `\n`, `\t`, `\r` and `\u{HEX}` for characters, and `\N` for no text. And texts in pieces, as those
//! programs feed them.
#![tactic(auto)]

mod escapes;
mod field_fault;
mod lines;
mod pieces;

pub use escapes::{NO_TEXT, push_escaped, unescaped};
pub use field_fault::FieldFault;
pub use lines::{end_line, push_field, push_line, push_word};
pub use pieces::{characters, halves, whole};
