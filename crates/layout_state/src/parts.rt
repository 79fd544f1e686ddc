//! Parts of a page, each in a renderer of its own.
ghost use Rattle.std.specs.Prelude.{◌≡◌, ◌++◌, ◌-◌, ◌⊎◌, Err, IfErr, IfOk, None, OnOk, Some, chars, false};
ghost use Rattle.std.specs.Prelude.{string_bytes};
ghost use Rattle.text_pieces.specs.declared.fault.BlockError.TheVariants as errors;
ghost use Rattle.layout_state.specs.Items.{spaces};

use crate::around::Around;
use crate::laying::LayoutState;
use block_renderer::SubRenderer;
use block_trait::Renderer;
use std::alloc::{AllocError, Global};
use text_decorators::TextDecorator;
use text_pieces::BlockError;

// adds so many spaces
pub fn push_spaces(text: &mut String, columns: usize) -> Result<(), AllocError>
    ensures { OnOk result (chars (string_bytes text.new) ≡ chars (string_bytes text.old) ++ spaces columns) }
{
    'spaces: for _space in 0..columns {
        text.push_str(" ")?;
    }
    Ok(())
}

// so many spaces
pub fn spaces(alloc: Global, columns: usize) -> Result<String, AllocError>
    ensures { IfOk result (λ s. chars (string_bytes s) ≡ spaces columns) }
{
    let mut text = String::new(alloc);
    push_spaces(&mut text, columns)?;
    Ok(text)
}

impl<D: TextDecorator + Drop> LayoutState<D> {
    ghost use Rattle.text_decorators.specs.Marks.{header, quote};
    ghost use Rattle.block_renderer.specs.Seen.{has_failed, marking, sub_of};
    ghost use Rattle.block_trait.specs.Renderers.{room_after};
    ghost use Rattle.layout_state.specs.LayoutState.{in_part, mark_of, part_begun, part_ended};
    ghost use Rattle.layout_state.specs.Seen.{Comes, Fails, IsWorking, laying_of};

    // the columns of a part after a prefix, of which at least so many are asked for with those of the prefix
    fn room(&self, columns: usize, least: usize) -> Result<usize, BlockError>
        ensures room { IfOk result (λ n. room_after columns (least - columns) (laying_of D.Annotation.seen D.view.held
            self.now).parts.current ≡ Some n) }
        ensures narrow { IfErr result (λ e. (e ≡ errors.TooNarrow) × (room_after columns (least - columns)
            (laying_of D.Annotation.seen D.view.held self.now).parts.current ≡ None)) }
    {
        let trailing = least.saturating_sub(columns);
        match self.text.current().width_minus(columns, trailing) {
            Ok(width) => Ok(width),
            Err(_) => Err(BlockError::TooNarrow),
        }
    }

    // text goes to a part of so many columns from here on; the renderer outside is given
    pub fn enter_part(&mut self, width: usize) -> Result<SubRenderer<D>, BlockError>
        requires { IsWorking D.Annotation.seen D.view.held self.old }
        ensures done { OnOk result (Comes D.Annotation.seen D.view
            (λ m l. Some (in_part m width l)) self.old self.new) }
        ensures outer { IfOk result (λ outer. sub_of D.Annotation.seen D.view.held outer
            ≡ (laying_of D.Annotation.seen D.view.held self.old).parts.current) }
        ensures works { OnOk result (IsWorking D.Annotation.seen D.view.held self.new) }
        ensures outer_works { IfOk result (λ outer. has_failed outer ≡ false) }
        ensures kinds { IfErr result (λ e. e ≡ errors.Memory) }
    {
        let part = self.text.current_mut().new_part_renderer(width)?;
        self.around = Around::Flow;
        Ok(self.text.replace_current(part))
    }

    // the same with the columns after a prefix
    pub fn begin_part(&mut self, columns: usize, least: usize) -> Result<SubRenderer<D>, BlockError>
        requires { IsWorking D.Annotation.seen D.view.held self.old }
        ensures done { OnOk result (Comes D.Annotation.seen D.view
            (λ m. part_begun m columns least) self.old self.new) }
        ensures outer { IfOk result (λ outer. sub_of D.Annotation.seen D.view.held outer
            ≡ (laying_of D.Annotation.seen D.view.held self.old).parts.current) }
        ensures works { OnOk result (IsWorking D.Annotation.seen D.view.held self.new) }
        ensures outer_works { IfOk result (λ outer. has_failed outer ≡ false) }
        ensures narrow { result ≡ Err errors.TooNarrow → Fails D.Annotation.seen D.view
            (λ m. part_begun m columns least) self.old }
        ensures kinds { IfErr result (λ e. (e ≡ errors.TooNarrow) ⊎ (e ≡ errors.Memory)) }
    {
        let width = self.room(columns, least)?;
        self.enter_part(width)
    }

    /// A part ends.
    pub fn end_part(
        &mut self,
        outer: SubRenderer<D>,
        first: &str,
        following: &str,
    ) -> Result<(), BlockError>
        requires works { IsWorking D.Annotation.seen D.view.held self.old × (has_failed outer ≡ false) }
        ensures done { OnOk result (Comes D.Annotation.seen D.view
            (λ m. part_ended m (sub_of D.Annotation.seen D.view.held outer) (chars first.now) (chars following.now))
            self.old self.new) }
        ensures works { OnOk result (IsWorking D.Annotation.seen D.view.held self.new) }
        ensures narrow { result ≡ Err errors.TooNarrow → Fails D.Annotation.seen D.view
            (λ m. part_ended m (sub_of D.Annotation.seen D.view.held outer) (chars first.now) (chars following.now))
            self.old }
        ensures kinds { IfErr result (λ e. (e ≡ errors.TooNarrow) ⊎ (e ≡ errors.Memory)) }
    {
        let part = self.text.replace_current(outer);
        self.text
            .current_mut()
            .append_subrender(part, first, following)
    }

    pub fn heading_prefix(&mut self, level: u8) -> Result<String, BlockError>
        requires { IsWorking D.Annotation.seen D.view.held self.old }
        ensures text { IfOk result (λ s. (tag : _) → chars (string_bytes s) ≡ mark_of (marking D.view tag)
            (header level) (laying_of D.Annotation.seen D.view.held self.old)) }
        ensures stays { OnOk result (laying_of D.Annotation.seen D.view.held self.new ≡ laying_of D.Annotation.seen
            D.view.held self.old) }
        ensures works { OnOk result (IsWorking D.Annotation.seen D.view.held self.new) }
        ensures kinds { IfErr result (λ e. e ≡ errors.Memory) }
    {
        self.text.current_mut().header_prefix(usize::from(level))
    }

    pub fn quote_prefix(&mut self) -> Result<String, BlockError>
        requires { IsWorking D.Annotation.seen D.view.held self.old }
        ensures text { IfOk result (λ s. (tag : _) → chars (string_bytes s) ≡ mark_of (marking D.view tag) quote
            (laying_of D.Annotation.seen D.view.held self.old)) }
        ensures stays { OnOk result (laying_of D.Annotation.seen D.view.held self.new ≡ laying_of D.Annotation.seen
            D.view.held self.old) }
        ensures works { OnOk result (IsWorking D.Annotation.seen D.view.held self.new) }
        ensures kinds { IfErr result (λ e. e ≡ errors.Memory) }
    {
        self.text.current_mut().quote_prefix()
    }
}
