use html_lexemes::Text;
use std::alloc::{AllocError, Global};
use std::collections::BTreeSet;
use std::mem;

/// The names of a tag's attributes, as far as they are read and may come twice.
#[derive(Drop)]
pub(crate) struct AttributeNames {
    may_repeat: bool,
    // there is an attribute
    is_some: bool,
    // of those that are finished, each once
    finished: BTreeSet<Text>,
    // of the one that is read; empty before the first
    name: String,
}

impl AttributeNames {
    /// Before the first. Where none comes twice, none is kept.
    pub(crate) fn new(alloc: Global, may_repeat: bool) -> AttributeNames {
        AttributeNames {
            may_repeat,
            is_some: false,
            finished: BTreeSet::new(alloc),
            name: String::new(alloc),
        }
    }

    /// Whether there is no attribute.
    pub(crate) fn is_empty(&self) -> bool {
        !self.is_some
    }

    /// Passes over whole attributes, none of which has the name of another.
    pub(crate) fn pass(&mut self) {
        self.is_some = true;
    }

    /// Goes on with a name.
    pub(crate) fn push(&mut self, c: char) -> Result<(), AllocError> {
        self.is_some = true;
        if !self.may_repeat {
            return Ok(());
        }
        let character = if c == '\0' {
            '\u{fffd}'
        } else {
            c.to_ascii_lowercase()
        };
        self.name.push(character)
    }

    /// Finishes the attribute that is read, if there is one. Whether its name came before.
    pub(crate) fn finish(&mut self) -> Result<bool, AllocError> {
        if self.name.is_empty() {
            return Ok(false);
        }
        let alloc = *self.name.allocator();
        let name = mem::replace(&mut self.name, String::new(alloc));
        let is_new = self.finished.insert(Text::from(name))?;
        Ok(!is_new)
    }
}
