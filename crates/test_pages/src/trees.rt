//! What each test of numbered rows asks, and the trees of pages.
use html_lexemes::ReferenceTable;
use html_render_dom::RcDom;
use html_tree_builder::ParseOpts;
use page_reading::{PageFault, PageReader};
use std::alloc::Global;
use std::process::Abort;

/// Ends the test where something does not hold, and says in which row.
pub(crate) fn holds<R: Abort>(rt: &R, is_so: bool, row: usize) {
    assert!(rt; is_so, "in row {row}");
}

/// The same of an answer that is there just where nothing is refused.
pub(crate) fn passes<R: Abort, E: Drop>(rt: &R, answer: Result<bool, E>, row: usize) {
    holds(rt, answer.unwrap_or(false), row);
}

/// The tree of a page.
pub(crate) fn tree_of(alloc: Global, page: &str) -> Result<RcDom, PageFault> {
    let Ok(table) = ReferenceTable::basic(alloc) else {
        return Err(PageFault::Memory);
    };
    let mut reader = PageReader::new(alloc, table, ParseOpts::default(), page.len())?;
    reader.push(page.as_bytes())?;
    reader.finish()
}
