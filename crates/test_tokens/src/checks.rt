//! What each test asks.
use std::process::Abort;

/// Ends the test where something does not hold, and says at what.
pub(crate) fn holds<R: Abort>(rt: &R, is_so: bool, at: &str) {
    assert!(rt; is_so, "at {at}");
}

/// The same of an answer that is there just where nothing is refused.
pub(crate) fn passes<R: Abort, E: Drop>(rt: &R, answer: Result<bool, E>, at: &str) {
    holds(rt, answer.unwrap_or(false), at);
}
