//! The calls of a renderer over a decorator.
ghost use Rattle.std.specs.Prelude.{◌≡◌};
ghost use Rattle.std.specs.List.{list_any};
ghost use Rattle.block_renderer.specs.Seen.{has_failed};
ghost use Rattle.block_layout.specs.LaidRows.{before_last};

use crate::sub_renderer::SubRenderer;
use block_trait::Renderer;
use smallvec::SmallVec;
use text_decorators::{Colour, TextDecorator};
use text_pieces::{BlockError, WhiteSpace};

impl<D: TextDecorator + Drop> Renderer for SubRenderer<D> {
    ghost use Rattle.std.specs.Prelude.{◌≡◌, true, ◌||◌};
    ghost use Rattle.block_trait.specs.Calls.{step, call_of, adds_cells, adds_rows_below};
    ghost use Rattle.block_trait.specs.Outcomes.{IsOutcome};
    ghost use Rattle.block_trait.specs.Renderers.{new_part};
    ghost use Rattle.block_renderer.specs.Seen.{sub_of, has_failed, Comes, Fails, IsJoinedSub};
    ghost use Rattle.block_layout.specs.Laid.{is_nothing};

    ghost has_failed = { has_failed };

    ghost does = { λ c old new. Comes D.Annotation.seen D.view
        (λ m s. step m (call_of (sub_of D.Annotation.seen D.view.held) c) s) old new };

    ghost never = { λ c old. Fails D.Annotation.seen D.view
        (λ m s. step m (call_of (sub_of D.Annotation.seen D.view.held) c) s) old };

    ghost columns = { λ s. (sub_of D.Annotation.seen D.view.held s).width };

    ghost holds_nothing = { λ s. is_nothing (sub_of D.Annotation.seen D.view.held s).laid };

    ghost prefix = { λ s kind. D.view.text (sub_of D.Annotation.seen D.view.held s).held kind };

    ghost is_part = { λ s width part. sub_of D.Annotation.seen D.view.held part ≡ new_part D.view.sub width
        (sub_of D.Annotation.seen D.view.held s) };

    ghost is_joined = { IsJoinedSub D.Annotation.seen };

    ghost stays = { λ old new. sub_of D.Annotation.seen D.view.held new ≡ sub_of D.Annotation.seen D.view.held old };

    fn width(&self) -> usize {
        self.width
    }

    fn empty(&self) -> bool {
        self.laid.is_empty()
    }

    fn new_sub_renderer(&mut self, width: usize) -> Result<SubRenderer<D>, BlockError> {
        if self.failed {
            return Err(BlockError::Failed);
        }
        match self.part(width) {
            Ok(part) => Ok(part),
            Err(error) => {
                self.failed = true;
                Err(BlockError::from(error))
            }
        }
    }

    fn add_horizontal_border_width(&mut self, width: usize) -> Result<(), BlockError> {
        if self.failed {
            return Err(BlockError::Failed);
        }
        let result = self.put_border(width);
        self.failed = result.is_err();
        result
    }

    fn add_empty_line(&mut self) -> Result<(), BlockError> {
        if self.failed {
            return Err(BlockError::Failed);
        }
        let measure = self.measure();
        let result = self.laid.add_empty_line(measure, &self.annotations);
        self.failed = result.is_err();
        result
    }

    fn start_block(&mut self) -> Result<(), BlockError> {
        if self.failed {
            return Err(BlockError::Failed);
        }
        let measure = self.measure();
        let result = self.laid.start_block(measure, &self.annotations);
        self.failed = result.is_err();
        result
    }

    fn start_table(&mut self) -> Result<(), BlockError> {
        if self.failed {
            return Err(BlockError::Failed);
        }
        let measure = self.measure();
        let result = self.laid.start_table(measure, &self.annotations);
        self.failed = result.is_err();
        result
    }

    fn new_line(&mut self) -> Result<(), BlockError> {
        if self.failed {
            return Err(BlockError::Failed);
        }
        let result = self.flush();
        self.failed = result.is_err();
        result
    }

    fn new_line_hard(&mut self) -> Result<(), BlockError> {
        if self.failed {
            return Err(BlockError::Failed);
        }
        let measure = self.measure();
        let result = self.laid.break_line(measure, &self.annotations);
        self.failed = result.is_err();
        result
    }

    fn add_horizontal_border(&mut self) -> Result<(), BlockError> {
        if self.failed {
            return Err(BlockError::Failed);
        }
        let result = self.put_border(self.width);
        self.failed = result.is_err();
        result
    }

    fn push_preformat(&mut self) -> Result<(), BlockError> {
        if self.failed {
            return Err(BlockError::Failed);
        }
        self.preformats = self.preformats.saturating_add(1);
        Ok(())
    }

    fn push_ws(&mut self, ws: WhiteSpace) -> Result<(), BlockError> {
        if self.failed {
            return Err(BlockError::Failed);
        }
        let result = self.modes.push(ws);
        self.failed = result.is_err();
        Ok(result?)
    }

    fn add_inline_text(&mut self, text: &str) -> Result<(), BlockError> {
        if self.failed {
            return Err(BlockError::Failed);
        }
        let result = self.add_inline(text);
        self.failed = result.is_err();
        result
    }

    fn start_link(&mut self, target: &str) -> Result<(), BlockError> {
        if self.failed {
            return Err(BlockError::Failed);
        }
        let alloc = self.alloc();
        match self.decorator.decorate_link_start(alloc, target) {
            Ok((text, annotation)) => self.begin(text.as_str(), annotation),
            Err(error) => self.refuse(error),
        }
    }

    fn end_link(&mut self) -> Result<(), BlockError> {
        if self.failed {
            return Err(BlockError::Failed);
        }
        let alloc = self.alloc();
        match self.decorator.decorate_link_end(alloc) {
            Ok(text) => self.finish(text.as_str()),
            Err(error) => self.refuse(error),
        }
    }

    fn start_emphasis(&mut self) -> Result<(), BlockError> {
        if self.failed {
            return Err(BlockError::Failed);
        }
        let alloc = self.alloc();
        match self.decorator.decorate_em_start(alloc) {
            Ok((text, annotation)) => self.begin(text.as_str(), annotation),
            Err(error) => self.refuse(error),
        }
    }

    fn end_emphasis(&mut self) -> Result<(), BlockError> {
        if self.failed {
            return Err(BlockError::Failed);
        }
        let alloc = self.alloc();
        match self.decorator.decorate_em_end(alloc) {
            Ok(text) => self.finish(text.as_str()),
            Err(error) => self.refuse(error),
        }
    }

    fn start_strong(&mut self) -> Result<(), BlockError> {
        if self.failed {
            return Err(BlockError::Failed);
        }
        let alloc = self.alloc();
        match self.decorator.decorate_strong_start(alloc) {
            Ok((text, annotation)) => self.begin(text.as_str(), annotation),
            Err(error) => self.refuse(error),
        }
    }

    fn end_strong(&mut self) -> Result<(), BlockError> {
        if self.failed {
            return Err(BlockError::Failed);
        }
        let alloc = self.alloc();
        match self.decorator.decorate_strong_end(alloc) {
            Ok(text) => self.finish(text.as_str()),
            Err(error) => self.refuse(error),
        }
    }

    fn start_strikeout(&mut self) -> Result<(), BlockError> {
        if self.failed {
            return Err(BlockError::Failed);
        }
        let alloc = self.alloc();
        match self.decorator.decorate_strikeout_start(alloc) {
            Ok((text, annotation)) => {
                self.begin(text.as_str(), annotation)?;
                self.strikeouts = self.strikeouts.saturating_add(1);
                Ok(())
            }
            Err(error) => self.refuse(error),
        }
    }

    fn end_strikeout(&mut self) -> Result<(), BlockError> {
        if self.failed {
            return Err(BlockError::Failed);
        }
        self.strikeouts = self.strikeouts.saturating_sub(1);
        let alloc = self.alloc();
        match self.decorator.decorate_strikeout_end(alloc) {
            Ok(text) => self.finish(text.as_str()),
            Err(error) => self.refuse(error),
        }
    }

    fn start_code(&mut self) -> Result<(), BlockError> {
        if self.failed {
            return Err(BlockError::Failed);
        }
        let alloc = self.alloc();
        match self.decorator.decorate_code_start(alloc) {
            Ok((text, annotation)) => self.begin(text.as_str(), annotation),
            Err(error) => self.refuse(error),
        }
    }

    fn end_code(&mut self) -> Result<(), BlockError> {
        if self.failed {
            return Err(BlockError::Failed);
        }
        let alloc = self.alloc();
        match self.decorator.decorate_code_end(alloc) {
            Ok(text) => self.finish(text.as_str()),
            Err(error) => self.refuse(error),
        }
    }

    fn start_superscript(&mut self) -> Result<(), BlockError> {
        if self.failed {
            return Err(BlockError::Failed);
        }
        let alloc = self.alloc();
        match self.decorator.decorate_superscript_start(alloc) {
            Ok((text, annotation)) => self.begin(text.as_str(), annotation),
            Err(error) => self.refuse(error),
        }
    }

    fn end_superscript(&mut self) -> Result<(), BlockError> {
        if self.failed {
            return Err(BlockError::Failed);
        }
        let alloc = self.alloc();
        match self.decorator.decorate_superscript_end(alloc) {
            Ok(text) => self.finish(text.as_str()),
            Err(error) => self.refuse(error),
        }
    }

    fn add_image(&mut self, src: &str, title: &str) -> Result<(), BlockError> {
        if self.failed {
            return Err(BlockError::Failed);
        }
        let result = self.put_image(src, title);
        self.failed = result.is_err();
        result
    }

    fn record_frag_start(&mut self, name: &str) -> Result<(), BlockError> {
        if self.failed {
            return Err(BlockError::Failed);
        }
        let measure = self.measure();
        let result = self
            .laid
            .record_frag_start(measure, &self.annotations, name);
        self.failed = result.is_err();
        result
    }

    fn push_colour(&mut self, colour: Colour) -> Result<(), BlockError> {
        if self.failed {
            return Err(BlockError::Failed);
        }
        let result = self.begin_colour(colour);
        self.failed = result.is_err();
        result
    }

    fn push_bgcolour(&mut self, colour: Colour) -> Result<(), BlockError> {
        if self.failed {
            return Err(BlockError::Failed);
        }
        let result = self.begin_bgcolour(colour);
        self.failed = result.is_err();
        result
    }

    fn append_subrender(
        &mut self,
        other: SubRenderer<D>,
        first: &str,
        following: &str,
    ) -> Result<(), BlockError> {
        if self.failed || other.failed {
            self.failed = true;
            return Err(BlockError::Failed);
        }
        let result = self.add_sub(other, first, following);
        self.failed = result.is_err();
        result
    }

    fn append_columns_with_borders(
        &mut self,
        cells: Vec<(SubRenderer<D>, usize)>,
        collapse: bool,
    ) -> Result<(), BlockError>
        ensures outcome { IsOutcome result (has_failed self.old || list_any (λ cell. has_failed cell.0) cells.items)
            (has_failed self.new) (Comes D.Annotation.seen D.view
            (λ m s. step m (call_of (sub_of D.Annotation.seen D.view.held) (adds_cells cells.items collapse)) s)
            self.old self.new) (Fails D.Annotation.seen D.view
            (λ m s. step m (call_of (sub_of D.Annotation.seen D.view.held) (adds_cells cells.items collapse)) s)
            self.old) }
        ensures joined { IsJoinedSub D.Annotation.seen self.old → IsJoinedSub D.Annotation.seen self.new }
    {
        if self.failed || has_failed_cell(&cells) {
            self.failed = true;
            return Err(BlockError::Failed);
        }
        let result = self.add_cells(cells, collapse);
        self.failed = result.is_err();
        result
    }

    fn append_vert_row(&mut self, cells: Vec<SubRenderer<D>>) -> Result<(), BlockError>
        ensures outcome { IsOutcome result (has_failed self.old || list_any has_failed cells.items)
            (has_failed self.new) (Comes D.Annotation.seen D.view
            (λ m s. step m (call_of (sub_of D.Annotation.seen D.view.held) (adds_rows_below cells.items)) s) self.old
            self.new) (Fails D.Annotation.seen D.view (λ m s. step m (call_of (sub_of D.Annotation.seen D.view.held)
            (adds_rows_below cells.items)) s) self.old) }
        ensures joined { IsJoinedSub D.Annotation.seen self.old → IsJoinedSub D.Annotation.seen self.new }
    {
        if self.failed || has_failed_row(&cells) {
            self.failed = true;
            return Err(BlockError::Failed);
        }
        let result = self.add_rows_below(cells);
        self.failed = result.is_err();
        result
    }

    fn pop_colour(&mut self) {
        if self.decorator.pop_colour() {
            self.pop_annotation();
        }
    }

    fn pop_bgcolour(&mut self) {
        if self.decorator.pop_bgcolour() {
            self.pop_annotation();
        }
    }

    fn end_block(&mut self) {
        self.laid.end_block();
    }

    fn pop_preformat(&mut self) {
        self.preformats = self.preformats.saturating_sub(1);
    }

    fn pop_ws(&mut self) {
        drop_mode(&mut self.modes);
    }

    fn header_prefix(&mut self, level: usize) -> Result<String, BlockError> {
        if self.failed {
            return Err(BlockError::Failed);
        }
        let prefix = self.decorator.header_prefix(self.alloc(), level);
        self.answered(prefix)
    }

    fn quote_prefix(&mut self) -> Result<String, BlockError> {
        if self.failed {
            return Err(BlockError::Failed);
        }
        let prefix = self.decorator.quote_prefix(self.alloc());
        self.answered(prefix)
    }

    fn unordered_item_prefix(&mut self) -> Result<String, BlockError> {
        if self.failed {
            return Err(BlockError::Failed);
        }
        let prefix = self.decorator.unordered_item_prefix(self.alloc());
        self.answered(prefix)
    }

    fn ordered_item_prefix(&mut self, i: i64) -> Result<String, BlockError> {
        if self.failed {
            return Err(BlockError::Failed);
        }
        let prefix = self.decorator.ordered_item_prefix(self.alloc(), i);
        self.answered(prefix)
    }
}

/// Whether a call of one of the cells was refused.
fn has_failed_cell<D: TextDecorator + Drop>(cells: &[(SubRenderer<D>, usize)]) -> bool
    ensures { result ≡ list_any (λ cell. has_failed cell.0) cells.now }
{
    cells.iter().any(|cell| cell.0.failed)
}

/// Whether a call of one of the cells was refused.
fn has_failed_row<D: TextDecorator + Drop>(cells: &[SubRenderer<D>]) -> bool
    ensures { result ≡ list_any has_failed cells.now }
{
    cells.iter().any(|cell| cell.failed)
}

// Takes the last mode off, where there is one.
fn drop_mode(modes: &mut SmallVec<WhiteSpace, 2>)
    ensures { modes.new.items ≡ before_last modes.old.items }
{
    let _mode = modes.pop();
}
