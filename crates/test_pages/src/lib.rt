//! Pages, configurations and command lines from outside, through the public calls of `html2text`, where devices fail
//! and memory is refused too; pages as render trees, by the rules that mark texts and by others, and how many columns
//! their values take; values of articles with each fault and with none, an article that is written, by a writer that
//! fails too, and one that is laid out. The answers are from outside or worked out by hand. The lines of pages stand in
//! the stored run of pages, and each row of the table of conversion is computed on its definitions in
//! `render_conversion`. Beside tests it has one theorem, on whole runs of the decoder.
#![tactic(auto)]

mod decoded;

pub use decoded::decoded_text;

#[cfg(test)]
mod article_rows;
#[cfg(test)]
mod articles;
#[cfg(test)]
mod checks;
#[cfg(test)]
mod config_rows;
#[cfg(test)]
mod conversion_rows;
#[cfg(test)]
mod decoder_rows;
#[cfg(test)]
mod devices;
#[cfg(test)]
mod fault_rows;
#[cfg(test)]
mod page_rows;
#[cfg(test)]
mod piece_rows;
#[cfg(test)]
mod reader_rows;
#[cfg(test)]
mod refused_rows;
#[cfg(test)]
mod response_rows;
#[cfg(test)]
mod size_rows;
#[cfg(test)]
mod trees;
#[cfg(test)]
mod word_rows;
#[cfg(test)]
mod written_rows;
