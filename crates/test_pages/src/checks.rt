//! What each test asks.

use html2text::{Config, Error, PlainDecorator, ReferenceTable};
use std::alloc::Global;
use std::process::Abort;

/// Ends the test where something does not hold, and says at what.
pub(crate) fn holds<R: Abort>(rt: &R, is_so: bool, at: &str) {
    assert!(rt; is_so, "at {at}");
}

/// The same of an answer that is there just where nothing is refused.
pub(crate) fn passes<R: Abort, E: Drop>(rt: &R, answer: Result<bool, E>, at: &str) {
    holds(rt, answer.unwrap_or(false), at);
}

/// Whether a text, or an error, is the one that is wanted.
pub(crate) fn is_answer(found: Result<String, Error>, wanted: Result<&str, Error>) -> bool {
    match (found, wanted) {
        (Ok(text), Ok(wanted)) => text.as_str() == wanted,
        (Err(error), Err(wanted)) => error == wanted,
        _ => false,
    }
}

/// Plain text, with the references that are always known.
pub(crate) fn plain(alloc: Global) -> Result<Config<PlainDecorator>, Error> {
    Config::plain(alloc, ReferenceTable::basic(alloc)?)
}
