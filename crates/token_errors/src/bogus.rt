ghost use Rattle.std.specs.Prelude.{◌≡◌, false};
ghost use Rattle.token_errors.specs.Found.{GoesOn, is_watching};

use crate::ParseErrors;
use crate::characters::{is_bad, line_after};
use html_lexemes::states::State;
use std::alloc::AllocError;

impl ParseErrors {
    /// Finds the errors of a comment that is not opened by `<!--`: the text after `<`, where the state is `TagOpen`
    /// and it begins with `?`, after `</` in `EndTagOpen`, which may be `>` alone, and after `<!` in
    /// `MarkupDeclarationOpen`; up to and with its `>`, or up to the end of the page. The error is allocation failure
    /// alone.
    #[tactic(auto, using(crate::proofs::GoesOnLemmas::goes_on_twice))]
    pub fn in_bogus_comment(
        &mut self,
        opening: State,
        text: &str,
        mut line: u64,
    ) -> Result<(), AllocError>
        ensures found { GoesOn self.old self.new }
        ensures unwatched { is_watching self.new ≡ false }
    {
        self.leave_name();
        if opening == State::MarkupDeclarationOpen {
            // what stands after the `!` is only looked at
            self.saw(opening, '!', line)?;
        }
        'characters: for (at, c) in text.char_indices() {
            line = line_after(line, c);
            self.at_character(c, line)?;
            if at == 0 && is_bad(opening, c) {
                self.saw(opening, c, line)?;
            }
        }
        Ok(())
    }
}
