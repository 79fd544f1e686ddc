ghost use Rattle.std.specs.Prelude.{◌≡◌};
ghost use Rattle.lex_base.specs.declared.table_error.TableError.TheVariants.{Memory};

use crate::text::Text;
use std::alloc::{AllocError, AllocFailed};
use std::error::Error;
use std::fmt;

/// Why there is no table of references.
#[derive(Debug, Drop)]
pub enum TableError {
    /// The text is no JSON.
    NotJson,
    /// The JSON is no object.
    NotAnObject,
    /// The first fault is this name, or this key of the JSON, as it was given: it is no name of ASCII letters and
    /// digits, at least one, with a semicolon only last; or a key does not begin with `&`.
    BadName(Text),
    /// The first fault is the value of this name or key: it is not one or two characters other than NUL.
    BadCodePoints(Text),
    /// A growth was refused since allocation fails.
    Memory,
}

impl fmt::Display for TableError {
    fn fmt<W: fmt::Write>(&self, f: &mut fmt::Formatter<W>) -> fmt::Result {
        match self {
            TableError::NotJson => f.write_str("not JSON"),
            TableError::NotAnObject => f.write_str("not a JSON object"),
            TableError::BadName(name) => write!(f, "bad name {:?}", name.as_str()),
            TableError::BadCodePoints(name) => write!(f, "bad code points of {:?}", name.as_str()),
            TableError::Memory => f.write_str("out of memory"),
        }
    }
}

impl Error for TableError {}

impl From<AllocError> for TableError {
    ghost from_gives = { λ _ e. e ≡ Memory };

    fn from(_error: AllocError) -> TableError {
        TableError::Memory
    }
}

impl<T: Drop> From<AllocFailed<T>> for TableError {
    ghost from_gives = { λ _ e. e ≡ Memory };

    fn from(_error: AllocFailed<T>) -> TableError {
        TableError::Memory
    }
}
