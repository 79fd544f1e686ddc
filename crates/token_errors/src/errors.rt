ghost use Rattle.std.specs.Prelude.{◌≡◌, ◌≢◌, ◌&&◌, [], false, MatchBool, OnOk};
ghost use Rattle.token_errors.specs.Found.{GoesOn, HasOneMore, found_of, heeds, is_exact, is_watching};
ghost use Rattle.token_errors.specs.Noncharacters.{is_noncharacter};

use crate::characters::{is_bad, is_noncharacter, next_reader};
use html_lexemes::states::State;
use html_lexemes::{ErrorMessage, Text};
use std::alloc::{AllocError, Global};
use std::mem;

/// A parse error, and the line at which it is emitted, from 1 on.
#[derive(Drop)]
pub struct FoundError {
    /// What it says.
    pub message: ErrorMessage,
    /// The line of the character at which it is found.
    pub line: u64,
}

/// The parse errors that were found and are not emitted yet, in the order in which they were found. With `exact` the
/// wording names characters and states, and each control and noncharacter of the page is an error.
#[derive(Drop)]
pub struct ParseErrors {
    exact: bool,
    found: Vec<FoundError>,
    // the letters and digits after a `&` that begin with no name of the table, as long as a `;` may follow them
    watched: Option<String>,
    // the character that is read next as text was reported as bad already
    was_emitted: bool,
}

impl ParseErrors {
    /// Before the first character of a page.
    pub fn new(alloc: Global, exact: bool) -> ParseErrors
        ensures none { found_of result ≡ [] }
        ensures exact { is_exact result ≡ exact }
        ensures unwatched { is_watching result ≡ false }
    {
        ParseErrors {
            exact,
            found: Vec::new(alloc),
            watched: None,
            was_emitted: false,
        }
    }

    /// Whether there is nothing to emit.
    pub fn is_empty(&self) -> bool
        ensures { MatchBool result (found_of self.now ≡ []) (found_of self.now ≢ []) }
    {
        self.found.is_empty()
    }

    /// Gives out what was found; nothing is left to emit.
    pub fn take(&mut self) -> Vec<FoundError>
        ensures taken { result.items ≡ found_of self.old }
        ensures none { found_of self.new ≡ [] }
        ensures exact { is_exact self.new ≡ is_exact self.old }
        ensures watched { is_watching self.new ≡ is_watching self.old }
    {
        let alloc = self.alloc();
        mem::replace(&mut self.found, Vec::new(alloc))
    }

    /// Whether `at_text` could find an error at a character of text, or has one in view: it is NUL, or stands in an
    /// unknown name after `&`, or with `exact` it is a control or a noncharacter.
    pub fn heeds(&self, c: char) -> bool
        ensures { result ≡ heeds self.now c }
    {
        c == '\0' || self.watched.is_some() || self.emits_character(c)
    }

    pub(crate) fn alloc(&self) -> Global {
        *self.found.allocator()
    }

    // Whether some characters are emitted wherever they stand.
    pub(crate) fn emits_characters(&self) -> bool {
        self.exact
    }

    // Whether a character is emitted wherever it stands.
    pub(crate) fn emits_character(&self, c: char) -> bool
        ensures { result ≡ (is_exact self.now && is_noncharacter c) }
    {
        self.exact && is_noncharacter(u32::from(c))
    }

    // Says that the next character of text was read before.
    pub(crate) fn reads_again(&mut self, c: char)
        ensures found { GoesOn self.old self.new }
        ensures watched { is_watching self.new ≡ is_watching self.old }
    {
        self.was_emitted = self.emits_character(c);
    }

    // Whether the next character of text, which this is, was read before.
    pub(crate) fn was_read(&mut self, c: char) -> bool
        ensures found { GoesOn self.old self.new }
        ensures watched { is_watching self.new ≡ is_watching self.old }
    {
        mem::replace(&mut self.was_emitted, false) && self.emits_character(c)
    }

    // Begins to watch for the `;` of an unknown name.
    pub(crate) fn begin_name(&mut self)
        ensures found { GoesOn self.old self.new }
    {
        self.watched = Some(String::new(self.alloc()));
    }

    // Whether the `;` of an unknown name may follow.
    pub(crate) fn is_in_name(&self) -> bool {
        self.watched.is_some()
    }

    // Ends the watch for the `;` of an unknown name.
    pub(crate) fn leave_name(&mut self)
        ensures found { GoesOn self.old self.new }
        ensures same { found_of self.new ≡ found_of self.old }
        ensures unwatched { is_watching self.new ≡ false }
    {
        self.watched = None;
    }

    // Goes on with an unknown name, where one is watched.
    pub(crate) fn name_goes_on(&mut self, c: char, line: u64) -> Result<(), AllocError>
        ensures found { GoesOn self.old self.new }
    {
        let Some(mut name) = self.watched.take() else {
            return Ok(());
        };
        if c.is_ascii_alphanumeric() {
            name.push(c)?;
            self.watched = Some(name);
            return Ok(());
        }
        if c == ';' && !name.is_empty() {
            return self.emit_unknown_name(name.as_str(), line);
        }
        Ok(())
    }

    fn emit_unknown_name(&mut self, name: &str, line: u64) -> Result<(), AllocError>
        ensures found { GoesOn self.old self.new }
    {
        if !self.exact {
            return self.emit("Invalid character reference", line);
        }
        let alloc = self.alloc();
        let message = format!(in alloc; "Invalid character reference &{name};")?;
        self.emit_made(message, line)
    }

    // Finds an error of a fixed wording.
    pub(crate) fn emit(&mut self, message: &'static str, line: u64) -> Result<(), AllocError>
        ensures found { GoesOn self.old self.new }
        ensures watched { is_watching self.new ≡ is_watching self.old }
        ensures one { OnOk result (HasOneMore self.old line self.new) }
    {
        let message = ErrorMessage::Fixed(message);
        self.found.push(FoundError { message, line })?;
        Ok(())
    }

    fn emit_made(&mut self, message: String, line: u64) -> Result<(), AllocError>
        ensures found { GoesOn self.old self.new }
        ensures watched { is_watching self.new ≡ is_watching self.old }
        ensures one { OnOk result (HasOneMore self.old line self.new) }
    {
        let message = ErrorMessage::Made(Text::from(message));
        self.found.push(FoundError { message, line })?;
        Ok(())
    }

    // Finds that a number stands for no character, or for none that may be written so.
    pub(crate) fn emit_number(&mut self, code: u32, line: u64) -> Result<(), AllocError>
        ensures found { GoesOn self.old self.new }
        ensures watched { is_watching self.new ≡ is_watching self.old }
    {
        if !self.exact {
            return self.emit("Invalid numeric character reference", line);
        }
        let alloc = self.alloc();
        let message = format!(in alloc; "Invalid numeric character reference value 0x{code:06X}")?;
        self.emit_made(message, line)
    }

    // Finds that a character has no place in a state.
    pub(crate) fn saw(&mut self, state: State, c: char, line: u64) -> Result<(), AllocError>
        ensures found { GoesOn self.old self.new }
        ensures watched { is_watching self.new ≡ is_watching self.old }
    {
        if !self.exact {
            return self.emit("Bad character", line);
        }
        let alloc = self.alloc();
        let message = format!(in alloc; "Saw {c} in state {state:?}")?;
        self.emit_made(message, line)
    }

    // Finds that the page ends in a state.
    pub(crate) fn saw_end(&mut self, state: State, line: u64) -> Result<(), AllocError>
        ensures found { GoesOn self.old self.new }
        ensures watched { is_watching self.new ≡ is_watching self.old }
        ensures one { OnOk result (HasOneMore self.old line self.new) }
    {
        if !self.exact {
            return self.emit("Unexpected EOF", line);
        }
        let alloc = self.alloc();
        let message = format!(in alloc; "Saw EOF in state {state:?}")?;
        self.emit_made(message, line)
    }

    // Takes a character from the page.
    pub(crate) fn at_character(&mut self, c: char, line: u64) -> Result<(), AllocError>
        ensures found { GoesOn self.old self.new }
        ensures watched { is_watching self.new ≡ is_watching self.old }
    {
        if !self.emits_character(c) {
            return Ok(());
        }
        let alloc = self.alloc();
        let message = format!(in alloc; "Bad character {c}")?;
        self.emit_made(message, line)
    }

    // Finds that a character has no place in a state, where it has none.
    pub(crate) fn look_at(&mut self, state: State, c: char, line: u64) -> Result<(), AllocError>
        ensures found { GoesOn self.old self.new }
        ensures watched { is_watching self.new ≡ is_watching self.old }
    {
        if is_bad(state, c) {
            return self.saw(state, c, line);
        }
        Ok(())
    }

    // Takes a character from the page in a state; answers the state that reads it, which is another one where this one
    // only looks at it.
    #[tactic(auto, using(crate::proofs::GoesOnLemmas::goes_on_twice))]
    pub(crate) fn read(&mut self, state: State, c: char, line: u64) -> Result<State, AllocError>
        ensures found { GoesOn self.old self.new }
        ensures watched { is_watching self.new ≡ is_watching self.old }
    {
        self.at_character(c, line)?;
        self.look_at(state, c, line)?;
        let Some(reader) = next_reader(state, c) else {
            return Ok(state);
        };
        self.look_at(reader, c, line)?;
        Ok(reader)
    }
}
