//! What each test asks.
use std::process::Abort;

/// Ends the test where something does not hold, and says in which row.
pub(crate) fn holds<R: Abort>(rt: &R, is_so: bool, row: usize) {
    assert!(rt; is_so, "in row {row}");
}

/// The same of an answer that is there just where nothing is refused.
pub(crate) fn passes<R: Abort, E: Drop>(rt: &R, answer: Result<bool, E>, row: usize) {
    holds(rt, answer.unwrap_or(false), row);
}
