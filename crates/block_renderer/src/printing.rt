//! The text of all lines.
ghost use Rattle.std.specs.Prelude.{◌≡◌, ◌⊎◌, Err, IfErr, IfOk, None, Some, chars, false, string_bytes, true};
ghost use Rattle.std.specs.Option.{option_map};
ghost use Rattle.text_pieces.specs.declared.fault.BlockError.TheVariants as errors;
ghost use Rattle.block_trait.specs.Texts.{text_of_lines};

use crate::sub_renderer::SubRenderer;
use block_trait::text_of_lines;
use text_decorators::TextDecorator;
use text_pieces::BlockError;

impl<D: TextDecorator + Drop> SubRenderer<D> {
    ghost use Rattle.block_trait.specs.Renderers.{lines_of_sub};
    ghost use Rattle.block_renderer.specs.Seen.{sub_of, has_failed};

    /// The characters of the lines, a line end after each. Refused as `into_lines`.
    pub fn into_string(self) -> Result<String, BlockError>
        ensures failed { has_failed self ≡ true → result ≡ Err errors.Failed }
        ensures kinds { has_failed self ≡ false → IfErr result (λ e. (e ≡ errors.TooNarrow) ⊎ (e ≡ errors.Memory)) }
        ensures text { IfOk result (λ s. option_map text_of_lines
            (lines_of_sub (sub_of D.Annotation.seen D.view.held self)) ≡ Some (chars (string_bytes s))) }
        ensures narrow { result ≡ Err errors.TooNarrow → lines_of_sub (sub_of D.Annotation.seen D.view.held self)
            ≡ None }
    {
        let alloc = self.alloc();
        let lines = self.into_lines()?;
        let text = text_of_lines(alloc, lines)?;
        Ok(text)
    }
}
