//! Named character references (WHATWG HTML, 13.5).
use html_lexemes::ReferenceTable;
use std::alloc::{AllocError, Global};

/// A line on the longest name of the table that a text begins with, and the code points that it stands for.
pub fn answer(alloc: Global, table: &ReferenceTable, text: &str) -> Result<String, AllocError> {
    let mut line = String::from_str(alloc, text)?;
    match table.longest_name(text) {
        Some(reference) => {
            write!(line, ": {}", reference.name)?;
            for c in reference.value.chars() {
                write!(line, " U+{:04X}", u32::from(c))?;
            }
        }
        None => line.push_str(": no name")?,
    }
    line.push('\n')?;
    Ok(line)
}
