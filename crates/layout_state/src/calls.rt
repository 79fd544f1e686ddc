//! Calls of the renderer to which a page's text goes.
ghost use Rattle.std.specs.Prelude.{◌≡◌, ◌⊎◌, Err, IfErr, IsOk, OnOk, chars, map, true};
ghost use Rattle.text_pieces.specs.declared.fault.BlockError.TheVariants as errors;

use crate::laying::LayoutState;
use block_renderer::SubRenderer;
use block_trait::Renderer;
use text_decorators::{Colour, TextDecorator};
use text_pieces::{BlockError, WhiteSpace};

impl<D: TextDecorator + Drop> LayoutState<D> {
    ghost use Rattle.text_decorators.specs.Marks.{background_end, background_start, code_end, code_start, colour_end};
    ghost use Rattle.text_decorators.specs.Marks.{colour_start, emphasis_end, emphasis_start, strong_end, strong_start};
    ghost use Rattle.text_decorators.specs.Marks.{superscript_end, superscript_start};
    ghost use Rattle.block_renderer.specs.Seen.{sub_of};
    ghost use Rattle.block_trait.specs.Calls.{adds_border, adds_border_of, adds_cells, adds_image, adds_rows_below};
    ghost use Rattle.block_trait.specs.Calls.{adds_text, breaks_line, ends_block, ends_colour, ends_line, ends_mark};
    ghost use Rattle.block_trait.specs.Calls.{ends_mode, ends_preformat, ends_strikeout, starts_block, starts_colour};
    ghost use Rattle.block_trait.specs.Calls.{starts_fragment, starts_mark, starts_mode, starts_preformat};
    ghost use Rattle.block_trait.specs.Calls.{starts_strikeout, starts_table};
    ghost use Rattle.layout_state.specs.LayoutState.{begins_link, ends_link, says};
    ghost use Rattle.layout_state.specs.Seen.{Comes, Fails, IsWorking, made_of};

    pub fn start_block(&mut self) -> Result<(), BlockError>
        requires { IsWorking D.Annotation.seen D.view.held self.old }
        ensures done { OnOk result (Comes D.Annotation.seen D.view (λ m. says m starts_block) self.old self.new) }
        ensures works { OnOk result (IsWorking D.Annotation.seen D.view.held self.new) }
        ensures narrow { result ≡ Err errors.TooNarrow → Fails D.Annotation.seen D.view (λ m. says m starts_block)
            self.old }
        ensures kinds { IfErr result (λ e. (e ≡ errors.TooNarrow) ⊎ (e ≡ errors.Memory)) }
    {
        self.text.current_mut().start_block()
    }

    pub fn end_line(&mut self) -> Result<(), BlockError>
        requires { IsWorking D.Annotation.seen D.view.held self.old }
        ensures done { OnOk result (Comes D.Annotation.seen D.view (λ m. says m ends_line) self.old self.new) }
        ensures works { OnOk result (IsWorking D.Annotation.seen D.view.held self.new) }
        ensures narrow { result ≡ Err errors.TooNarrow → Fails D.Annotation.seen D.view (λ m. says m ends_line)
            self.old }
        ensures kinds { IfErr result (λ e. (e ≡ errors.TooNarrow) ⊎ (e ≡ errors.Memory)) }
    {
        self.text.current_mut().new_line()
    }

    pub fn break_line(&mut self) -> Result<(), BlockError>
        requires { IsWorking D.Annotation.seen D.view.held self.old }
        ensures done { OnOk result (Comes D.Annotation.seen D.view (λ m. says m breaks_line) self.old self.new) }
        ensures works { OnOk result (IsWorking D.Annotation.seen D.view.held self.new) }
        ensures narrow { result ≡ Err errors.TooNarrow → Fails D.Annotation.seen D.view (λ m. says m breaks_line)
            self.old }
        ensures kinds { IfErr result (λ e. (e ≡ errors.TooNarrow) ⊎ (e ≡ errors.Memory)) }
    {
        self.text.current_mut().new_line_hard()
    }

    pub fn add_text(&mut self, text: &str) -> Result<(), BlockError>
        requires { IsWorking D.Annotation.seen D.view.held self.old }
        ensures done { OnOk result (Comes D.Annotation.seen D.view (λ m. says m (adds_text (chars text.now))) self.old
            self.new) }
        ensures works { OnOk result (IsWorking D.Annotation.seen D.view.held self.new) }
        ensures narrow { result ≡ Err errors.TooNarrow → Fails D.Annotation.seen D.view
            (λ m. says m (adds_text (chars text.now))) self.old }
        ensures kinds { IfErr result (λ e. (e ≡ errors.TooNarrow) ⊎ (e ≡ errors.Memory)) }
    {
        self.text.current_mut().add_inline_text(text)
    }

    pub fn add_image(&mut self, source: &str, title: &str) -> Result<(), BlockError>
        requires { IsWorking D.Annotation.seen D.view.held self.old }
        ensures done { OnOk result (Comes D.Annotation.seen D.view
            (λ m. says m (adds_image (chars source.now) (chars title.now))) self.old self.new) }
        ensures works { OnOk result (IsWorking D.Annotation.seen D.view.held self.new) }
        ensures narrow { result ≡ Err errors.TooNarrow → Fails D.Annotation.seen D.view
            (λ m. says m (adds_image (chars source.now) (chars title.now))) self.old }
        ensures kinds { IfErr result (λ e. (e ≡ errors.TooNarrow) ⊎ (e ≡ errors.Memory)) }
    {
        self.text.current_mut().add_image(source, title)
    }

    pub fn start_fragment(&mut self, name: &str) -> Result<(), BlockError>
        requires { IsWorking D.Annotation.seen D.view.held self.old }
        ensures done { OnOk result (Comes D.Annotation.seen D.view (λ m. says m (starts_fragment (chars name.now)))
            self.old self.new) }
        ensures works { OnOk result (IsWorking D.Annotation.seen D.view.held self.new) }
        ensures narrow { result ≡ Err errors.TooNarrow → Fails D.Annotation.seen D.view
            (λ m. says m (starts_fragment (chars name.now))) self.old }
        ensures kinds { IfErr result (λ e. (e ≡ errors.TooNarrow) ⊎ (e ≡ errors.Memory)) }
    {
        self.text.current_mut().record_frag_start(name)
    }

    pub fn start_emphasis(&mut self) -> Result<(), BlockError>
        requires { IsWorking D.Annotation.seen D.view.held self.old }
        ensures done { OnOk result (Comes D.Annotation.seen D.view (λ m. says m (starts_mark emphasis_start)) self.old
            self.new) }
        ensures works { OnOk result (IsWorking D.Annotation.seen D.view.held self.new) }
        ensures narrow { result ≡ Err errors.TooNarrow → Fails D.Annotation.seen D.view
            (λ m. says m (starts_mark emphasis_start)) self.old }
        ensures kinds { IfErr result (λ e. (e ≡ errors.TooNarrow) ⊎ (e ≡ errors.Memory)) }
    {
        self.text.current_mut().start_emphasis()
    }

    pub fn end_emphasis(&mut self) -> Result<(), BlockError>
        requires { IsWorking D.Annotation.seen D.view.held self.old }
        ensures done { OnOk result (Comes D.Annotation.seen D.view (λ m. says m (ends_mark emphasis_end)) self.old
            self.new) }
        ensures works { OnOk result (IsWorking D.Annotation.seen D.view.held self.new) }
        ensures narrow { result ≡ Err errors.TooNarrow → Fails D.Annotation.seen D.view
            (λ m. says m (ends_mark emphasis_end)) self.old }
        ensures kinds { IfErr result (λ e. (e ≡ errors.TooNarrow) ⊎ (e ≡ errors.Memory)) }
    {
        self.text.current_mut().end_emphasis()
    }

    pub fn start_strong(&mut self) -> Result<(), BlockError>
        requires { IsWorking D.Annotation.seen D.view.held self.old }
        ensures done { OnOk result (Comes D.Annotation.seen D.view (λ m. says m (starts_mark strong_start)) self.old
            self.new) }
        ensures works { OnOk result (IsWorking D.Annotation.seen D.view.held self.new) }
        ensures narrow { result ≡ Err errors.TooNarrow → Fails D.Annotation.seen D.view
            (λ m. says m (starts_mark strong_start)) self.old }
        ensures kinds { IfErr result (λ e. (e ≡ errors.TooNarrow) ⊎ (e ≡ errors.Memory)) }
    {
        self.text.current_mut().start_strong()
    }

    pub fn end_strong(&mut self) -> Result<(), BlockError>
        requires { IsWorking D.Annotation.seen D.view.held self.old }
        ensures done { OnOk result (Comes D.Annotation.seen D.view (λ m. says m (ends_mark strong_end)) self.old
            self.new) }
        ensures works { OnOk result (IsWorking D.Annotation.seen D.view.held self.new) }
        ensures narrow { result ≡ Err errors.TooNarrow → Fails D.Annotation.seen D.view
            (λ m. says m (ends_mark strong_end)) self.old }
        ensures kinds { IfErr result (λ e. (e ≡ errors.TooNarrow) ⊎ (e ≡ errors.Memory)) }
    {
        self.text.current_mut().end_strong()
    }

    pub fn start_strikeout(&mut self) -> Result<(), BlockError>
        requires { IsWorking D.Annotation.seen D.view.held self.old }
        ensures done { OnOk result (Comes D.Annotation.seen D.view (λ m. says m starts_strikeout) self.old self.new) }
        ensures works { OnOk result (IsWorking D.Annotation.seen D.view.held self.new) }
        ensures narrow { result ≡ Err errors.TooNarrow → Fails D.Annotation.seen D.view (λ m. says m starts_strikeout)
            self.old }
        ensures kinds { IfErr result (λ e. (e ≡ errors.TooNarrow) ⊎ (e ≡ errors.Memory)) }
    {
        self.text.current_mut().start_strikeout()
    }

    pub fn end_strikeout(&mut self) -> Result<(), BlockError>
        requires { IsWorking D.Annotation.seen D.view.held self.old }
        ensures done { OnOk result (Comes D.Annotation.seen D.view (λ m. says m ends_strikeout) self.old self.new) }
        ensures works { OnOk result (IsWorking D.Annotation.seen D.view.held self.new) }
        ensures narrow { result ≡ Err errors.TooNarrow → Fails D.Annotation.seen D.view (λ m. says m ends_strikeout)
            self.old }
        ensures kinds { IfErr result (λ e. (e ≡ errors.TooNarrow) ⊎ (e ≡ errors.Memory)) }
    {
        self.text.current_mut().end_strikeout()
    }

    pub fn start_code(&mut self) -> Result<(), BlockError>
        requires { IsWorking D.Annotation.seen D.view.held self.old }
        ensures done { OnOk result (Comes D.Annotation.seen D.view (λ m. says m (starts_mark code_start)) self.old
            self.new) }
        ensures works { OnOk result (IsWorking D.Annotation.seen D.view.held self.new) }
        ensures narrow { result ≡ Err errors.TooNarrow → Fails D.Annotation.seen D.view
            (λ m. says m (starts_mark code_start)) self.old }
        ensures kinds { IfErr result (λ e. (e ≡ errors.TooNarrow) ⊎ (e ≡ errors.Memory)) }
    {
        self.text.current_mut().start_code()
    }

    pub fn end_code(&mut self) -> Result<(), BlockError>
        requires { IsWorking D.Annotation.seen D.view.held self.old }
        ensures done { OnOk result (Comes D.Annotation.seen D.view (λ m. says m (ends_mark code_end)) self.old
            self.new) }
        ensures works { OnOk result (IsWorking D.Annotation.seen D.view.held self.new) }
        ensures narrow { result ≡ Err errors.TooNarrow → Fails D.Annotation.seen D.view
            (λ m. says m (ends_mark code_end)) self.old }
        ensures kinds { IfErr result (λ e. (e ≡ errors.TooNarrow) ⊎ (e ≡ errors.Memory)) }
    {
        self.text.current_mut().end_code()
    }

    pub fn start_superscript(&mut self) -> Result<(), BlockError>
        requires { IsWorking D.Annotation.seen D.view.held self.old }
        ensures done { OnOk result (Comes D.Annotation.seen D.view (λ m. says m (starts_mark superscript_start))
            self.old self.new) }
        ensures works { OnOk result (IsWorking D.Annotation.seen D.view.held self.new) }
        ensures narrow { result ≡ Err errors.TooNarrow → Fails D.Annotation.seen D.view
            (λ m. says m (starts_mark superscript_start)) self.old }
        ensures kinds { IfErr result (λ e. (e ≡ errors.TooNarrow) ⊎ (e ≡ errors.Memory)) }
    {
        self.text.current_mut().start_superscript()
    }

    pub fn end_superscript(&mut self) -> Result<(), BlockError>
        requires { IsWorking D.Annotation.seen D.view.held self.old }
        ensures done { OnOk result (Comes D.Annotation.seen D.view (λ m. says m (ends_mark superscript_end)) self.old
            self.new) }
        ensures works { OnOk result (IsWorking D.Annotation.seen D.view.held self.new) }
        ensures narrow { result ≡ Err errors.TooNarrow → Fails D.Annotation.seen D.view
            (λ m. says m (ends_mark superscript_end)) self.old }
        ensures kinds { IfErr result (λ e. (e ≡ errors.TooNarrow) ⊎ (e ≡ errors.Memory)) }
    {
        self.text.current_mut().end_superscript()
    }

    pub fn start_preformat(&mut self) -> Result<(), BlockError>
        requires { IsWorking D.Annotation.seen D.view.held self.old }
        ensures done { OnOk result (Comes D.Annotation.seen D.view (λ m. says m starts_preformat) self.old self.new) }
        ensures works { OnOk result (IsWorking D.Annotation.seen D.view.held self.new) }
        ensures narrow { result ≡ Err errors.TooNarrow → Fails D.Annotation.seen D.view (λ m. says m starts_preformat)
            self.old }
        ensures kinds { IfErr result (λ e. (e ≡ errors.TooNarrow) ⊎ (e ≡ errors.Memory)) }
    {
        self.text.current_mut().push_preformat()
    }

    pub fn start_mode(&mut self, mode: WhiteSpace) -> Result<(), BlockError>
        requires { IsWorking D.Annotation.seen D.view.held self.old }
        ensures done { OnOk result (Comes D.Annotation.seen D.view (λ m. says m (starts_mode mode)) self.old self.new) }
        ensures works { OnOk result (IsWorking D.Annotation.seen D.view.held self.new) }
        ensures narrow { result ≡ Err errors.TooNarrow → Fails D.Annotation.seen D.view
            (λ m. says m (starts_mode mode)) self.old }
        ensures kinds { IfErr result (λ e. (e ≡ errors.TooNarrow) ⊎ (e ≡ errors.Memory)) }
    {
        self.text.current_mut().push_ws(mode)
    }

    pub fn start_colour(&mut self, colour: Colour) -> Result<(), BlockError>
        requires { IsWorking D.Annotation.seen D.view.held self.old }
        ensures done { OnOk result (Comes D.Annotation.seen D.view (λ m. says m (starts_colour (colour_start colour)))
            self.old self.new) }
        ensures works { OnOk result (IsWorking D.Annotation.seen D.view.held self.new) }
        ensures narrow { result ≡ Err errors.TooNarrow → Fails D.Annotation.seen D.view
            (λ m. says m (starts_colour (colour_start colour))) self.old }
        ensures kinds { IfErr result (λ e. (e ≡ errors.TooNarrow) ⊎ (e ≡ errors.Memory)) }
    {
        self.text.current_mut().push_colour(colour)
    }

    pub fn start_background(&mut self, colour: Colour) -> Result<(), BlockError>
        requires { IsWorking D.Annotation.seen D.view.held self.old }
        ensures done { OnOk result (Comes D.Annotation.seen D.view
            (λ m. says m (starts_colour (background_start colour))) self.old self.new) }
        ensures works { OnOk result (IsWorking D.Annotation.seen D.view.held self.new) }
        ensures narrow { result ≡ Err errors.TooNarrow → Fails D.Annotation.seen D.view
            (λ m. says m (starts_colour (background_start colour))) self.old }
        ensures kinds { IfErr result (λ e. (e ≡ errors.TooNarrow) ⊎ (e ≡ errors.Memory)) }
    {
        self.text.current_mut().push_bgcolour(colour)
    }

    pub fn start_link(&mut self, target: &str) -> Result<(), BlockError>
        requires { IsWorking D.Annotation.seen D.view.held self.old }
        ensures done { OnOk result (Comes D.Annotation.seen D.view (λ m. begins_link m (chars target.now)) self.old
            self.new) }
        ensures works { OnOk result (IsWorking D.Annotation.seen D.view.held self.new) }
        ensures narrow { result ≡ Err errors.TooNarrow → Fails D.Annotation.seen D.view
            (λ m. begins_link m (chars target.now)) self.old }
        ensures kinds { IfErr result (λ e. (e ≡ errors.TooNarrow) ⊎ (e ≡ errors.Memory)) }
    {
        self.text.start_link(target)
    }

    pub fn end_link(&mut self) -> Result<(), BlockError>
        requires { IsWorking D.Annotation.seen D.view.held self.old }
        ensures done { OnOk result (Comes D.Annotation.seen D.view (λ m. ends_link m) self.old self.new) }
        ensures works { OnOk result (IsWorking D.Annotation.seen D.view.held self.new) }
        ensures narrow { result ≡ Err errors.TooNarrow → Fails D.Annotation.seen D.view (λ m. ends_link m) self.old }
        ensures kinds { IfErr result (λ e. (e ≡ errors.TooNarrow) ⊎ (e ≡ errors.Memory)) }
    {
        self.text.end_link()
    }

    pub fn end_block(&mut self)
        requires { IsWorking D.Annotation.seen D.view.held self.old }
        ensures done { Comes D.Annotation.seen D.view (λ m. says m ends_block) self.old self.new }
        ensures works { IsWorking D.Annotation.seen D.view.held self.new }
    {
        self.text.current_mut().end_block()
    }

    pub fn end_preformat(&mut self)
        requires { IsWorking D.Annotation.seen D.view.held self.old }
        ensures done { Comes D.Annotation.seen D.view (λ m. says m ends_preformat) self.old self.new }
        ensures works { IsWorking D.Annotation.seen D.view.held self.new }
    {
        self.text.current_mut().pop_preformat()
    }

    pub fn end_mode(&mut self)
        requires { IsWorking D.Annotation.seen D.view.held self.old }
        ensures done { Comes D.Annotation.seen D.view (λ m. says m ends_mode) self.old self.new }
        ensures works { IsWorking D.Annotation.seen D.view.held self.new }
    {
        self.text.current_mut().pop_ws()
    }

    pub fn end_colour(&mut self)
        requires { IsWorking D.Annotation.seen D.view.held self.old }
        ensures done { Comes D.Annotation.seen D.view (λ m. says m (ends_colour colour_end)) self.old self.new }
        ensures works { IsWorking D.Annotation.seen D.view.held self.new }
    {
        self.text.current_mut().pop_colour()
    }

    pub fn end_background(&mut self)
        requires { IsWorking D.Annotation.seen D.view.held self.old }
        ensures done { Comes D.Annotation.seen D.view (λ m. says m (ends_colour background_end)) self.old self.new }
        ensures works { IsWorking D.Annotation.seen D.view.held self.new }
    {
        self.text.current_mut().pop_bgcolour()
    }

    pub fn start_table(&mut self) -> Result<(), BlockError>
        requires { IsWorking D.Annotation.seen D.view.held self.old }
        ensures done { OnOk result (Comes D.Annotation.seen D.view (λ m. says m starts_table) self.old self.new) }
        ensures works { OnOk result (IsWorking D.Annotation.seen D.view.held self.new) }
        ensures narrow { result ≡ Err errors.TooNarrow → Fails D.Annotation.seen D.view (λ m. says m starts_table)
            self.old }
        ensures kinds { IfErr result (λ e. (e ≡ errors.TooNarrow) ⊎ (e ≡ errors.Memory)) }
    {
        self.text.current_mut().start_table()
    }

    pub fn add_border(&mut self) -> Result<(), BlockError>
        requires { IsWorking D.Annotation.seen D.view.held self.old }
        ensures done { OnOk result (Comes D.Annotation.seen D.view (λ m. says m adds_border) self.old self.new) }
        ensures works { OnOk result (IsWorking D.Annotation.seen D.view.held self.new) }
        ensures narrow { result ≡ Err errors.TooNarrow → Fails D.Annotation.seen D.view (λ m. says m adds_border)
            self.old }
        ensures kinds { IfErr result (λ e. (e ≡ errors.TooNarrow) ⊎ (e ≡ errors.Memory)) }
    {
        self.text.current_mut().add_horizontal_border()
    }

    pub fn add_border_of(&mut self, width: usize) -> Result<(), BlockError>
        requires { IsWorking D.Annotation.seen D.view.held self.old }
        ensures done { OnOk result (Comes D.Annotation.seen D.view (λ m. says m (adds_border_of width)) self.old
            self.new) }
        ensures works { OnOk result (IsWorking D.Annotation.seen D.view.held self.new) }
        ensures narrow { result ≡ Err errors.TooNarrow → Fails D.Annotation.seen D.view
            (λ m. says m (adds_border_of width)) self.old }
        ensures kinds { IfErr result (λ e. (e ≡ errors.TooNarrow) ⊎ (e ≡ errors.Memory)) }
    {
        self.text.current_mut().add_horizontal_border_width(width)
    }

    pub fn add_cells(&mut self, cells: Vec<(SubRenderer<D>, usize)>) -> Result<(), BlockError>
        requires { IsWorking D.Annotation.seen D.view.held self.old }
        ensures done { OnOk result (Comes D.Annotation.seen D.view
            (λ m. says m (adds_cells (made_of D.Annotation.seen D.view.held cells.items) true)) self.old self.new) }
        ensures works { OnOk result (IsWorking D.Annotation.seen D.view.held self.new) }
        ensures narrow { result ≡ Err errors.TooNarrow → Fails D.Annotation.seen D.view
            (λ m. says m (adds_cells (made_of D.Annotation.seen D.view.held cells.items) true)) self.old }
        ensures kinds { IfErr result (λ e. (e ≡ errors.TooNarrow) ⊎ (e ≡ errors.Memory)) }
    {
        unless_failed(
            self.text
                .current_mut()
                .append_columns_with_borders(cells, true),
        )
    }

    pub fn add_rows_below(&mut self, cells: Vec<SubRenderer<D>>) -> Result<(), BlockError>
        requires { IsWorking D.Annotation.seen D.view.held self.old }
        ensures done { OnOk result (Comes D.Annotation.seen D.view
            (λ m. says m (adds_rows_below (map (sub_of D.Annotation.seen D.view.held) cells.items)))
            self.old self.new) }
        ensures works { OnOk result (IsWorking D.Annotation.seen D.view.held self.new) }
        ensures narrow { result ≡ Err errors.TooNarrow → Fails D.Annotation.seen D.view
            (λ m. says m (adds_rows_below (map (sub_of D.Annotation.seen D.view.held) cells.items))) self.old }
        ensures kinds { IfErr result (λ e. (e ≡ errors.TooNarrow) ⊎ (e ≡ errors.Memory)) }
    {
        unless_failed(self.text.current_mut().append_vert_row(cells))
    }
}

/// The answer of a call in which neither the renderer nor a part had failed: `Failed`, which contracts do not rule out
/// there, becomes `Memory`.
fn unless_failed(answer: Result<(), BlockError>) -> Result<(), BlockError>
    ensures ok { OnOk result (IsOk answer) }
    ensures narrow { result ≡ Err errors.TooNarrow → answer ≡ Err errors.TooNarrow }
    ensures kinds { IfErr result (λ e. (e ≡ errors.TooNarrow) ⊎ (e ≡ errors.Memory)) }
{
    match answer {
        Ok(()) => Ok(()),
        Err(BlockError::TooNarrow) => Err(BlockError::TooNarrow),
        Err(_) => Err(BlockError::Memory),
    }
}
