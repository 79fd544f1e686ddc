ghost use Rattle.std.specs.Prelude.{◌≡◌, false, OnOk};
ghost use Rattle.token_errors.specs.Found.{GoesOn, is_watching};

use crate::ParseErrors;
use crate::number::Number;
use html_lexemes::{NamedReference, ReferenceTable};
use std::alloc::AllocError;

impl ParseErrors {
    /// Finds the errors of a character reference in text: the text after `&` that the reference is made of, perhaps
    /// with the character that ended it. That its semicolon is missing is not among them: the grammar emits it. A name
    /// that the table lacks is an error only once its `;` is read; `at_text` then goes on with the character after the
    /// text. The error is allocation failure alone.
    pub fn in_reference(
        &mut self,
        table: &ReferenceTable,
        text: &str,
        line: u64,
    ) -> Result<(), AllocError>
        ensures found { GoesOn self.old self.new }
    {
        self.in_text_reference(table, text, false, line)
    }

    /// The same where the page ends after the text.
    pub fn in_last_reference(
        &mut self,
        table: &ReferenceTable,
        text: &str,
        line: u64,
    ) -> Result<(), AllocError>
        ensures found { GoesOn self.old self.new }
    {
        self.in_text_reference(table, text, true, line)
    }

    fn in_text_reference(
        &mut self,
        table: &ReferenceTable,
        text: &str,
        is_last: bool,
        line: u64,
    ) -> Result<(), AllocError>
        ensures found { GoesOn self.old self.new }
    {
        self.leave_name();
        if let Some(number) = text.strip_prefix('#') {
            return self.in_number(number, is_last, line);
        }
        match table.longest_name(text) {
            Some(_) => Ok(()),
            None => self.in_unknown_name(text, line),
        }
    }

    // Finds the errors of a character reference in a value: the text from its `&` up to the end of the tag or of the
    // page.
    pub(crate) fn in_value(
        &mut self,
        table: &ReferenceTable,
        text: &str,
        line: u64,
    ) -> Result<(), AllocError>
        ensures found { GoesOn self.old self.new }
        ensures unwatched { OnOk result (is_watching self.old ≡ false → is_watching self.new ≡ false) }
    {
        let text = text.strip_prefix('&').unwrap_or(text);
        if let Some(number) = text.strip_prefix('#') {
            self.at_number_end(number, line)?;
            return self.in_number(number, true, line);
        }
        match table.longest_name(text) {
            Some(reference) if reference.name.ends_with(';') => Ok(()),
            Some(reference) => match character_after(reference, text) {
                Some('=') => self.emit("Equals sign after character reference in attribute", line),
                Some(c) if c.is_ascii_alphanumeric() => Ok(()),
                _ => self.emit("Character reference does not end with semicolon", line),
            },
            None => {
                self.in_unknown_name(text, line)?;
                self.leave_name();
                Ok(())
            }
        }
    }

    // Reads a name that the table lacks, as far as it goes.
    #[tactic(auto, using(crate::proofs::GoesOnLemmas::goes_on_twice))]
    fn in_unknown_name(&mut self, text: &str, line: u64) -> Result<(), AllocError>
        ensures found { GoesOn self.old self.new }
    {
        self.begin_name();
        'characters: for c in text.chars() {
            if !self.is_in_name() {
                break;
            }
            self.name_goes_on(c, line)?;
        }
        Ok(())
    }

    // Finds the errors of a number after `#`, but for a missing semicolon; `is_last` says that the page ends with the
    // text.
    fn in_number(&mut self, text: &str, is_last: bool, line: u64) -> Result<(), AllocError>
        ensures found { GoesOn self.old self.new }
        ensures watched { is_watching self.new ≡ is_watching self.old }
    {
        if is_last && text.is_empty() {
            return self.emit("EOF after '#' in character reference", line);
        }
        let number = Number::read(text);
        if !number.has_digits {
            return self.emit("Numeric character reference without digits", line);
        }
        if !number.is_valid() {
            self.emit_number(number.code, line)?;
        }
        Ok(())
    }

    // Finds that no semicolon stands after the digits of a number in a value; the text goes up to the end of the tag
    // or of the page.
    fn at_number_end(&mut self, text: &str, line: u64) -> Result<(), AllocError>
        ensures found { GoesOn self.old self.new }
        ensures watched { is_watching self.new ≡ is_watching self.old }
    {
        let number = Number::read(text);
        if !number.has_digits {
            return Ok(());
        }
        match number.trailing {
            Some(';') => Ok(()),
            None => self.emit("EOF in numeric character reference", line),
            Some(_) => self.emit("Semicolon missing after numeric character reference", line),
        }
    }
}

// The character after a name that a text begins with.
fn character_after(reference: NamedReference<'_>, text: &str) -> Option<char> {
    text.strip_prefix(reference.name)?.chars().next()
}
