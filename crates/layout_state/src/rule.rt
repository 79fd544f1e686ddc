//! Rules across the block.
ghost use Rattle.std.specs.Prelude.{◌≡◌, ◌⊎◌, Err, IfErr, OnOk};
ghost use Rattle.text_pieces.specs.declared.fault.BlockError.TheVariants as errors;

use crate::laying::LayoutState;
use text_decorators::TextDecorator;
use text_pieces::{BlockError, WhiteSpace};

impl<D: TextDecorator + Drop> LayoutState<D> {
    ghost use Rattle.layout_state.specs.Begins.{empty_text, no_text, rule_border, rule_laid, rule_line};
    ghost use Rattle.layout_state.specs.Seen.{Comes, Fails, IsWorking};

    /// The border of a rule, where borders are drawn.
    fn add_rule_border(&mut self) -> Result<(), BlockError>
        requires { IsWorking D.Annotation.seen D.view.held self.old }
        ensures done { OnOk result (Comes D.Annotation.seen D.view (λ m. rule_border m) self.old self.new) }
        ensures works { OnOk result (IsWorking D.Annotation.seen D.view.held self.new) }
        ensures narrow { result ≡ Err errors.TooNarrow → Fails D.Annotation.seen D.view (λ m. rule_border m)
            self.old }
        ensures kinds { IfErr result (λ e. (e ≡ errors.TooNarrow) ⊎ (e ≡ errors.Memory)) }
    {
        if self.text.current().options().draw_borders {
            return self.add_border();
        }
        Ok(())
    }

    /// A text without characters, after which its mode ends.
    fn add_no_text(&mut self) -> Result<(), BlockError>
        requires { IsWorking D.Annotation.seen D.view.held self.old }
        ensures done { OnOk result (Comes D.Annotation.seen D.view (λ m. no_text m) self.old self.new) }
        ensures works { OnOk result (IsWorking D.Annotation.seen D.view.held self.new) }
        ensures narrow { result ≡ Err errors.TooNarrow → Fails D.Annotation.seen D.view (λ m. no_text m)
            self.old }
        ensures kinds { IfErr result (λ e. (e ≡ errors.TooNarrow) ⊎ (e ≡ errors.Memory)) }
    {
        self.add_text("")?;
        self.end_mode();
        Ok(())
    }

    /// A text without characters, of mode `pre`: the block starts where that is awaited.
    fn add_empty_text(&mut self) -> Result<(), BlockError>
        requires { IsWorking D.Annotation.seen D.view.held self.old }
        ensures done { OnOk result (Comes D.Annotation.seen D.view (λ m. empty_text m) self.old self.new) }
        ensures works { OnOk result (IsWorking D.Annotation.seen D.view.held self.new) }
        ensures narrow { result ≡ Err errors.TooNarrow → Fails D.Annotation.seen D.view (λ m. empty_text m)
            self.old }
        ensures kinds { IfErr result (λ e. (e ≡ errors.TooNarrow) ⊎ (e ≡ errors.Memory)) }
    {
        self.start_mode(WhiteSpace::Pre)?;
        self.add_no_text()
    }

    /// The end of the line before a rule, and the border of the rule.
    fn add_rule_line(&mut self) -> Result<(), BlockError>
        requires { IsWorking D.Annotation.seen D.view.held self.old }
        ensures done { OnOk result (Comes D.Annotation.seen D.view (λ m. rule_line m) self.old self.new) }
        ensures works { OnOk result (IsWorking D.Annotation.seen D.view.held self.new) }
        ensures narrow { result ≡ Err errors.TooNarrow → Fails D.Annotation.seen D.view (λ m. rule_line m)
            self.old }
        ensures kinds { IfErr result (λ e. (e ≡ errors.TooNarrow) ⊎ (e ≡ errors.Memory)) }
    {
        self.end_line()?;
        self.add_rule_border()
    }

    /// A rule: the line ends, or the block starts where that is awaited, and a border follows where borders are drawn.
    pub fn add_rule(&mut self) -> Result<(), BlockError>
        requires { IsWorking D.Annotation.seen D.view.held self.old }
        ensures done { OnOk result (Comes D.Annotation.seen D.view (λ m. rule_laid m) self.old self.new) }
        ensures works { OnOk result (IsWorking D.Annotation.seen D.view.held self.new) }
        ensures narrow { result ≡ Err errors.TooNarrow → Fails D.Annotation.seen D.view (λ m. rule_laid m)
            self.old }
        ensures kinds { IfErr result (λ e. (e ≡ errors.TooNarrow) ⊎ (e ≡ errors.Memory)) }
    {
        self.add_empty_text()?;
        self.add_rule_line()
    }
}
