//! Texts that come in pieces.
use anyhow::{Result, bail};
use std::alloc::Global;
use test_fields::{characters, halves, whole};

/// A way to read a text.
pub(crate) trait Reading {
    /// The lines on what is read of a text that comes in pieces.
    fn lines(&self, alloc: Global, pieces: Vec<String>) -> Result<String>;
}

/// The lines on a text, which are the same however it comes. A text of more bytes than `most_cut` isn't cut in two.
pub(crate) fn lines_however_cut<R: Reading>(
    alloc: Global,
    reading: &R,
    text: &str,
    most_cut: usize,
) -> Result<String> {
    let lines = reading.lines(alloc, whole(alloc, text)?)?;
    if reading.lines(alloc, characters(alloc, text)?)? != lines {
        bail!("other lines, a character at a time");
    }
    if text.len() <= most_cut {
        for count in 0..text.chars().count() {
            if reading.lines(alloc, halves(alloc, text, count)?)? != lines {
                bail!("other lines, in two pieces");
            }
        }
    }
    Ok(lines)
}

/// Whether a field has that word; else it is `-`.
pub(crate) fn has_word(field: &str, word: &str) -> Result<bool> {
    if field != word && field != "-" {
        bail!("neither {word} nor -");
    }
    Ok(field == word)
}
