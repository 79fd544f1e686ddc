//! What rules of style ask for.
ghost use Rattle.std.specs.Prelude.{◌≡◌, ◌⊎◌, Err, IfErr, OnOk};
ghost use Rattle.text_pieces.specs.declared.fault.BlockError.TheVariants as errors;

use crate::laying::LayoutState;
use render_values::RenderStyle;
use text_decorators::{Colour, TextDecorator};
use text_pieces::{BlockError, WhiteSpace};

impl<D: TextDecorator + Drop> LayoutState<D> {
    ghost use Rattle.text_decorators.specs.Marks.{background_end, background_start, colour_end, colour_start};
    ghost use Rattle.block_trait.specs.Calls.{ends_colour, ends_mode, starts_colour, starts_mode};
    ghost use Rattle.layout_state.specs.Begins.{style_begins, style_ends};
    ghost use Rattle.layout_state.specs.LayoutState.{for_some, says};
    ghost use Rattle.layout_state.specs.Seen.{Comes, Fails, IsWorking};

    pub fn begin_colour(&mut self, colour: Option<Colour>) -> Result<(), BlockError>
        requires { IsWorking D.Annotation.seen D.view.held self.old }
        ensures done { OnOk result (Comes D.Annotation.seen D.view
            (λ m. for_some colour (λ c. says m (starts_colour (colour_start c)))) self.old self.new) }
        ensures works { OnOk result (IsWorking D.Annotation.seen D.view.held self.new) }
        ensures narrow { result ≡ Err errors.TooNarrow → Fails D.Annotation.seen D.view
            (λ m. for_some colour (λ c. says m (starts_colour (colour_start c)))) self.old }
        ensures kinds { IfErr result (λ e. (e ≡ errors.TooNarrow) ⊎ (e ≡ errors.Memory)) }
    {
        match colour {
            Some(colour) => self.start_colour(colour),
            None => Ok(()),
        }
    }

    pub fn begin_background(&mut self, colour: Option<Colour>) -> Result<(), BlockError>
        requires { IsWorking D.Annotation.seen D.view.held self.old }
        ensures done { OnOk result (Comes D.Annotation.seen D.view
            (λ m. for_some colour (λ c. says m (starts_colour (background_start c)))) self.old self.new) }
        ensures works { OnOk result (IsWorking D.Annotation.seen D.view.held self.new) }
        ensures narrow { result ≡ Err errors.TooNarrow → Fails D.Annotation.seen D.view
            (λ m. for_some colour (λ c. says m (starts_colour (background_start c)))) self.old }
        ensures kinds { IfErr result (λ e. (e ≡ errors.TooNarrow) ⊎ (e ≡ errors.Memory)) }
    {
        match colour {
            Some(colour) => self.start_background(colour),
            None => Ok(()),
        }
    }

    pub fn begin_white_space(&mut self, mode: Option<WhiteSpace>) -> Result<(), BlockError>
        requires { IsWorking D.Annotation.seen D.view.held self.old }
        ensures done { OnOk result (Comes D.Annotation.seen D.view (λ m. for_some mode (λ x. says m (starts_mode x)))
            self.old self.new) }
        ensures works { OnOk result (IsWorking D.Annotation.seen D.view.held self.new) }
        ensures narrow { result ≡ Err errors.TooNarrow → Fails D.Annotation.seen D.view
            (λ m. for_some mode (λ x. says m (starts_mode x))) self.old }
        ensures kinds { IfErr result (λ e. (e ≡ errors.TooNarrow) ⊎ (e ≡ errors.Memory)) }
    {
        match mode {
            Some(mode) => self.start_mode(mode),
            None => Ok(()),
        }
    }

    /// A value begins that a rule of style looks after.
    #[tactic(auto, unfolding(crate::specs::Begins::style_begins))]
    pub fn begin_look(&mut self, style: RenderStyle) -> Result<(), BlockError>
        requires { IsWorking D.Annotation.seen D.view.held self.old }
        ensures done { OnOk result (Comes D.Annotation.seen D.view (λ m. style_begins m style) self.old self.new) }
        ensures works { OnOk result (IsWorking D.Annotation.seen D.view.held self.new) }
        ensures narrow { result ≡ Err errors.TooNarrow → Fails D.Annotation.seen D.view (λ m. style_begins m style)
            self.old }
        ensures kinds { IfErr result (λ e. (e ≡ errors.TooNarrow) ⊎ (e ≡ errors.Memory)) }
    {
        self.begin_colour(style.colour)?;
        self.begin_background(style.background)?;
        self.begin_white_space(style.white_space)
    }

    pub fn finish_white_space(&mut self, mode: Option<WhiteSpace>)
        requires { IsWorking D.Annotation.seen D.view.held self.old }
        ensures done { Comes D.Annotation.seen D.view (λ m. for_some mode (λ x. says m ends_mode)) self.old self.new }
        ensures works { IsWorking D.Annotation.seen D.view.held self.new }
    {
        if mode.is_some() {
            self.end_mode();
        }
    }

    pub fn finish_background(&mut self, colour: Option<Colour>)
        requires { IsWorking D.Annotation.seen D.view.held self.old }
        ensures done { Comes D.Annotation.seen D.view (λ m. for_some colour (λ c. says m (ends_colour background_end)))
            self.old self.new }
        ensures works { IsWorking D.Annotation.seen D.view.held self.new }
    {
        if colour.is_some() {
            self.end_background();
        }
    }

    pub fn finish_colour(&mut self, colour: Option<Colour>)
        requires { IsWorking D.Annotation.seen D.view.held self.old }
        ensures done { Comes D.Annotation.seen D.view (λ m. for_some colour (λ c. says m (ends_colour colour_end)))
            self.old self.new }
        ensures works { IsWorking D.Annotation.seen D.view.held self.new }
    {
        if colour.is_some() {
            self.end_colour();
        }
    }

    /// It ends.
    #[tactic(auto, unfolding(crate::specs::Begins::style_ends))]
    pub fn end_look(&mut self, style: RenderStyle)
        requires { IsWorking D.Annotation.seen D.view.held self.old }
        ensures done { Comes D.Annotation.seen D.view (λ m. style_ends m style) self.old self.new }
        ensures works { IsWorking D.Annotation.seen D.view.held self.new }
    {
        self.finish_white_space(style.white_space);
        self.finish_background(style.background);
        self.finish_colour(style.colour);
    }
}
