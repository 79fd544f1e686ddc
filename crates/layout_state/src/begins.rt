//! What is done before what stands in a value, and after it.
ghost use Rattle.std.specs.Prelude.{◌≡◌, ◌⊎◌, Err, IfErr, OnOk};
ghost use Rattle.layout_state.specs.Begins.{fragment_leads};
ghost use Rattle.text_pieces.specs.declared.fault.BlockError.TheVariants as errors;

use crate::laying::LayoutState;
use html_lexemes::Text;
use render_values::{Head, RenderInfo};
use text_decorators::TextDecorator;
use text_pieces::BlockError;

// whether a fragment starts before the value itself, and not before what stands in it
fn fragment_leads(info: &RenderInfo) -> bool
    ensures { result ≡ fragment_leads info.now }
{
    match info {
        RenderInfo::Text(_) => true,
        RenderInfo::Image { .. } => true,
        RenderInfo::Break => true,
        RenderInfo::Rule => true,
        RenderInfo::Superscript => true,
        RenderInfo::Bullets => true,
        RenderInfo::Numbers(_) => true,
        RenderInfo::Table => true,
        _ => false,
    }
}

impl<D: TextDecorator + Drop> LayoutState<D> {
    ghost use Rattle.text_decorators.specs.Marks.{emphasis_end, emphasis_start};
    ghost use Rattle.block_trait.specs.Calls.{ends_block, ends_line, ends_mark, ends_preformat, starts_block};
    ghost use Rattle.block_trait.specs.Calls.{starts_mark, starts_preformat};
    ghost use Rattle.layout_state.specs.Begins.{begins, ends, following, leading, named};
    ghost use Rattle.layout_state.specs.LayoutState.{in_turn, says};
    ghost use Rattle.layout_state.specs.Seen.{Comes, Fails, IsWorking};

    /// Before what stands in a value.
    #[tactic(auto, unfolding(crate::specs::Begins::begins))]
    pub fn begin(&mut self, info: &RenderInfo) -> Result<(), BlockError>
        requires { IsWorking D.Annotation.seen D.view.held self.old }
        ensures done { OnOk result (Comes D.Annotation.seen D.view (λ m. begins m info.now) self.old self.new) }
        ensures works { OnOk result (IsWorking D.Annotation.seen D.view.held self.new) }
        ensures narrow { result ≡ Err errors.TooNarrow → Fails D.Annotation.seen D.view (λ m. begins m info.now)
            self.old }
        ensures kinds { IfErr result (λ e. (e ≡ errors.TooNarrow) ⊎ (e ≡ errors.Memory)) }
    {
        match info {
            RenderInfo::Text(text) => self.add_text(text.as_str()),
            RenderInfo::Image { source, title } => self.add_image(source.as_str(), title.as_str()),
            RenderInfo::Break => self.break_line(),
            RenderInfo::Rule => self.add_rule(),
            RenderInfo::Link(target) => self.start_link(target.as_str()),
            RenderInfo::Emphasis => self.start_emphasis(),
            RenderInfo::Strong => self.start_strong(),
            RenderInfo::Strikeout => self.start_strikeout(),
            RenderInfo::Code => self.start_code(),
            RenderInfo::Superscript => self.start_superscript(),
            RenderInfo::Block => self.start_block(),
            RenderInfo::Division => self.end_line(),
            RenderInfo::Heading(_) => self.start_block(),
            RenderInfo::Quote => self.start_block(),
            RenderInfo::Preformatted => self.begin_preformatted(),
            RenderInfo::Bullets => self.start_block(),
            RenderInfo::Numbers(_) => self.start_block(),
            RenderInfo::Descriptions => self.start_block(),
            RenderInfo::Term => self.begin_term(),
            _ => Ok(()),
        }
    }

    /// After what stands in a value.
    #[tactic(auto, unfolding(crate::specs::Begins::ends))]
    pub fn end(&mut self, info: &RenderInfo) -> Result<(), BlockError>
        requires { IsWorking D.Annotation.seen D.view.held self.old }
        ensures done { OnOk result (Comes D.Annotation.seen D.view (λ m. ends m info.now) self.old self.new) }
        ensures works { OnOk result (IsWorking D.Annotation.seen D.view.held self.new) }
        ensures narrow { result ≡ Err errors.TooNarrow
            → Fails D.Annotation.seen D.view (λ m. ends m info.now) self.old }
        ensures kinds { IfErr result (λ e. (e ≡ errors.TooNarrow) ⊎ (e ≡ errors.Memory)) }
    {
        match info {
            RenderInfo::Link(_) => self.end_link(),
            RenderInfo::Emphasis => self.end_emphasis(),
            RenderInfo::Strong => self.end_strong(),
            RenderInfo::Strikeout => self.end_strikeout(),
            RenderInfo::Code => self.end_code(),
            RenderInfo::Superscript => self.end_superscript(),
            RenderInfo::Block => self.finish_block(),
            RenderInfo::Division => self.end_line(),
            RenderInfo::Heading(_) => self.finish_block(),
            RenderInfo::Quote => self.finish_block(),
            RenderInfo::Preformatted => self.end_preformatted(),
            RenderInfo::Term => self.end_term(),
            _ => Ok(()),
        }
    }

    pub fn begin_preformatted(&mut self) -> Result<(), BlockError>
        requires { IsWorking D.Annotation.seen D.view.held self.old }
        ensures done { OnOk result (Comes D.Annotation.seen D.view (λ m. in_turn (says m starts_block)
            (says m starts_preformat)) self.old self.new) }
        ensures works { OnOk result (IsWorking D.Annotation.seen D.view.held self.new) }
        ensures narrow { result ≡ Err errors.TooNarrow → Fails D.Annotation.seen D.view
            (λ m. in_turn (says m starts_block) (says m starts_preformat)) self.old }
        ensures kinds { IfErr result (λ e. (e ≡ errors.TooNarrow) ⊎ (e ≡ errors.Memory)) }
    {
        self.start_block()?;
        self.start_preformat()
    }

    pub fn begin_term(&mut self) -> Result<(), BlockError>
        requires { IsWorking D.Annotation.seen D.view.held self.old }
        ensures done { OnOk result (Comes D.Annotation.seen D.view
            (λ m. in_turn (says m ends_line) (says m (starts_mark emphasis_start))) self.old self.new) }
        ensures works { OnOk result (IsWorking D.Annotation.seen D.view.held self.new) }
        ensures narrow { result ≡ Err errors.TooNarrow → Fails D.Annotation.seen D.view
            (λ m. in_turn (says m ends_line) (says m (starts_mark emphasis_start))) self.old }
        ensures kinds { IfErr result (λ e. (e ≡ errors.TooNarrow) ⊎ (e ≡ errors.Memory)) }
    {
        self.end_line()?;
        self.start_emphasis()
    }

    pub fn end_preformatted(&mut self) -> Result<(), BlockError>
        requires { IsWorking D.Annotation.seen D.view.held self.old }
        ensures done { OnOk result (Comes D.Annotation.seen D.view (λ m. in_turn (says m ends_preformat)
            (says m ends_block)) self.old self.new) }
        ensures works { OnOk result (IsWorking D.Annotation.seen D.view.held self.new) }
        ensures narrow { result ≡ Err errors.TooNarrow → Fails D.Annotation.seen D.view
            (λ m. in_turn (says m ends_preformat) (says m ends_block)) self.old }
        ensures kinds { IfErr result (λ e. (e ≡ errors.TooNarrow) ⊎ (e ≡ errors.Memory)) }
    {
        self.end_preformat();
        self.end_block();
        Ok(())
    }

    pub fn end_term(&mut self) -> Result<(), BlockError>
        requires { IsWorking D.Annotation.seen D.view.held self.old }
        ensures done { OnOk result (Comes D.Annotation.seen D.view (λ m. in_turn (says m (ends_mark emphasis_end))
            (says m ends_line)) self.old self.new) }
        ensures works { OnOk result (IsWorking D.Annotation.seen D.view.held self.new) }
        ensures narrow { result ≡ Err errors.TooNarrow → Fails D.Annotation.seen D.view
            (λ m. in_turn (says m (ends_mark emphasis_end)) (says m ends_line)) self.old }
        ensures kinds { IfErr result (λ e. (e ≡ errors.TooNarrow) ⊎ (e ≡ errors.Memory)) }
    {
        self.end_emphasis()?;
        self.end_line()
    }

    pub fn finish_block(&mut self) -> Result<(), BlockError>
        requires { IsWorking D.Annotation.seen D.view.held self.old }
        ensures done { OnOk result (Comes D.Annotation.seen D.view (λ m. says m ends_block) self.old self.new) }
        ensures works { OnOk result (IsWorking D.Annotation.seen D.view.held self.new) }
        ensures narrow { result ≡ Err errors.TooNarrow → Fails D.Annotation.seen D.view (λ m. says m ends_block)
            self.old }
        ensures kinds { IfErr result (λ e. (e ≡ errors.TooNarrow) ⊎ (e ≡ errors.Memory)) }
    {
        self.end_block();
        Ok(())
    }

    pub fn mark(&mut self, fragment: &Option<Text>) -> Result<(), BlockError>
        requires { IsWorking D.Annotation.seen D.view.held self.old }
        ensures done { OnOk result (Comes D.Annotation.seen D.view (λ m. named m fragment.now) self.old self.new) }
        ensures works { OnOk result (IsWorking D.Annotation.seen D.view.held self.new) }
        ensures narrow { result ≡ Err errors.TooNarrow → Fails D.Annotation.seen D.view (λ m. named m fragment.now)
            self.old }
        ensures kinds { IfErr result (λ e. (e ≡ errors.TooNarrow) ⊎ (e ≡ errors.Memory)) }
    {
        match fragment {
            Some(name) => self.start_fragment(name.as_str()),
            None => Ok(()),
        }
    }

    /// The fragment that starts before a value itself.
    #[tactic(auto, unfolding(crate::specs::Begins::leading))]
    pub fn lead(&mut self, head: &Head) -> Result<(), BlockError>
        requires { IsWorking D.Annotation.seen D.view.held self.old }
        ensures done { OnOk result (Comes D.Annotation.seen D.view (λ m. leading m head.now) self.old self.new) }
        ensures works { OnOk result (IsWorking D.Annotation.seen D.view.held self.new) }
        ensures narrow { result ≡ Err errors.TooNarrow → Fails D.Annotation.seen D.view (λ m. leading m head.now)
            self.old }
        ensures kinds { IfErr result (λ e. (e ≡ errors.TooNarrow) ⊎ (e ≡ errors.Memory)) }
    {
        if fragment_leads(&head.info) {
            return self.mark(&head.fragment);
        }
        Ok(())
    }

    /// The fragment that starts before what stands in a value.
    #[tactic(auto, unfolding(crate::specs::Begins::following))]
    pub fn follow(&mut self, head: &Head) -> Result<(), BlockError>
        requires { IsWorking D.Annotation.seen D.view.held self.old }
        ensures done { OnOk result (Comes D.Annotation.seen D.view (λ m. following m head.now) self.old self.new) }
        ensures works { OnOk result (IsWorking D.Annotation.seen D.view.held self.new) }
        ensures narrow { result ≡ Err errors.TooNarrow → Fails D.Annotation.seen D.view (λ m. following m head.now)
            self.old }
        ensures kinds { IfErr result (λ e. (e ≡ errors.TooNarrow) ⊎ (e ≡ errors.Memory)) }
    {
        if fragment_leads(&head.info) {
            return Ok(());
        }
        self.mark(&head.fragment)
    }
}
