//! The words of the command line of `html2text`, and the files that they name.
//!
//! # Words
//!
//! The words of the command line of `html2text`: what they ask for, and why they are refused.
//!
//! ## What is proved
//!
//! The command line is a list of items (`specs/CommandWords.antt`): options with a value, in two words or in one,
//! options without, the name of a file; then nothing, or `--` and a name after it. Each option and the file stand
//! once at most. `Asks words asked` says that words are such a line, and what they ask for.
//!
//! - `read_words`: an `Ok` comes only from words that are a line, and has just what they ask for (`asked`); words
//!   that are a line are refused at most where allocation fails (`answered`); `Words` comes only where they are no
//!   line and ask for no help, and `Help` only where they ask for it (`explained`), which is written or refused
//!   where allocation fails (`helped`)
//! - `request_of`: the words after the program's name as `read_words`; a word that is not UTF-8 is `NotUtf8`, and
//!   only allocation failure `Memory`
//! - `WordFault::text`: the texts, exactly
//!
//! What clap makes of words is a function of its own specifications, over which this is proved. Tested
//! (`test_pages`): 62 lines of words, with each option in both forms and in three orders.
//!
//! # Files
//!
//! Files that are opened by their names, and the tables of references in them.
//!
//! ## What is proved
//!
//! - `FileOpener::open`: what it promises: the bytes of the file, where they are known; `HostFiles` opens those of
//!   a runtime, whose bytes nobody knows
//! - `read_table`: the table is that of the JSON text that the device had, in UTF-8 (`IsTableText`); `Refused` only
//!   where its bytes are no such text; `NotRead` only where it has failed; else allocation failure
//! - `table_in_file`: the same of a file that is opened by its name
//! - `TableFault::text`: the texts, exactly
#![tactic(auto)]

mod files;
mod laws;
mod rules;
mod table_fault;
mod table_file;
mod words;

pub use files::{FileOpener, HostFiles, OpenedFile};
pub use laws::words_ask_one_thing;
pub use table_fault::TableFault;
pub use table_file::{read_table, table_in_file};
pub use words::{Request, WordFault, read_words, request_of};
