ghost use Rattle.std.specs.Prelude.{◌≡◌, false, None, OnOk};
ghost use Rattle.token_errors.specs.Found.{GoesOn, HasOneMore, is_watching};

use crate::ParseErrors;
use crate::characters::line_after;
use html_lexemes::states::State;
use std::alloc::AllocError;

impl ParseErrors {
    /// Finds the errors of a `<` that is text: the character after it, which `at_text` is to be asked about next where
    /// `heeds` says so, or `None` at the end of the page. The line is that of the `<`. The error is allocation failure
    /// alone.
    pub fn at_tag_open(&mut self, next: Option<char>, line: u64) -> Result<(), AllocError>
        ensures found { GoesOn self.old self.new }
        ensures unwatched { is_watching self.new ≡ false }
        ensures last { next ≡ None → OnOk result (HasOneMore self.old line self.new) }
    {
        self.leave_name();
        let Some(c) = next else {
            return self.saw_end(State::TagOpen, line);
        };
        let line = line_after(line, c);
        self.at_character(c, line)?;
        self.reads_again(c);
        self.look_at(State::TagOpen, c, line)
    }

    /// Finds the error of a `</` at the end of the page. The error is allocation failure alone.
    pub fn at_end_tag_open(&mut self, line: u64) -> Result<(), AllocError>
        ensures found { GoesOn self.old self.new }
        ensures unwatched { is_watching self.new ≡ false }
        ensures one { OnOk result (HasOneMore self.old line self.new) }
    {
        self.leave_name();
        self.saw_end(State::EndTagOpen, line)
    }
}
