//! The text that stands for an image.
ghost use Rattle.std.specs.Prelude.{◌≡◌, IfOk, chars};

use html_lexemes::Text;
use std::alloc::{AllocError, Global};
use std::fmt::{Debug, Error, Formatter, Write};
use std::marker::Model;

/// The text that stands for an image. Contracts see the list of its code points. It is kept in memory of its own, so
/// that the other kinds of values, of which a page has more, take no room for it.
pub struct Title {
    text: Box<Text>,
}

impl Drop for Title {
    // One call wherever a title is dropped.
    fn drop(self) {
        let Title { text: _ } = self;
    }
}

impl Model for Title {
    ghost use Rattle.std.specs.Prelude.{List, ℕ};
    ghost use Rattle.std.specs.Coded.{coded_ℕ, coded_list};

    ghost Value = { List ℕ };

    ghost coded = { coded_list coded_ℕ };

    ghost view = { λ t. t.text.value };
}

impl Title {
    /// The title that a text is. The error is allocation failure alone.
    pub fn new(alloc: Global, text: Text) -> Result<Title, AllocError>
        ensures { IfOk result (λ title. title ≡ text) }
    {
        Ok(Title {
            text: Box::new(alloc, text)?,
        })
    }

    /// The text, lent.
    pub fn as_str(&self) -> &str
        ensures { chars result.now ≡ self.now }
    {
        self.text.as_str()
    }

    /// An equal title. The error is allocation failure alone.
    pub fn try_clone(&self) -> Result<Title, AllocError>
        ensures { IfOk result (λ copy. copy ≡ self.now) }
    {
        let copy = self.text.try_clone()?;
        Title::new(*Box::allocator(&self.text), copy)
    }
}

impl Debug for Title {
    fn fmt<W: Write>(&self, f: &mut Formatter<W>) -> Result<(), Error> {
        Debug::fmt(&self.as_str(), f)
    }
}
