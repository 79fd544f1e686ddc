//! The text that runs.
ghost use Rattle.std.specs.Prelude.{◌≡◌, ◌⊎◌, ◌&&◌, not, false, [], None, Some, chars, IsTrue, IfErr, OnOk, IfOk};
ghost use Rattle.text_pieces.specs.declared.white_space.WhiteSpace.{WhiteSpace as SeenMode};
ghost use Rattle.block_layout.specs.declared.measure.Measure.{Measure as SeenMeasure};
ghost use Rattle.std.specs.List.{list_all};
ghost use Rattle.std.specs.Char.{is_whitespace};
ghost use Rattle.text_pieces.specs.Modes.{is_preserved};
ghost use Rattle.text_pieces.specs.declared.fault.BlockError.TheVariants as errors;

use crate::block::BlockLayout;
use crate::measure::Measure;
use crate::running::Running;
use crate::texts::holds_text;
use std::alloc::AllocError;
use text_lines::EqualCopy;
use text_pieces::{BlockError, WhiteSpace};

impl<T: EqualCopy + Drop> BlockLayout<T> {
    ghost use Rattle.block_layout.specs.Seen.{laid_of, running_of, RunsJoined, HasJoinedTexts};
    ghost use Rattle.block_layout.specs.Laid.{add_text, break_line, break_of, enter_mode, flush, is_ignored, mark};
    ghost use Rattle.block_layout.specs.Laid.{run_on, runs_otherwise, start_awaited, without_running};

    /// Adds text after what runs; a text of another mode of white space ends that first. Where it begins to run here,
    /// its lines are filled with spaces of the tag. Refused as `flush`.
    #[inline(always)]
    pub fn add_text(
        &mut self,
        measure: Measure,
        tag: &T,
        mode: WhiteSpace,
        text: &str,
        main_tag: &T,
        wrap_tag: &T,
    ) -> Result<(), BlockError>
        ensures kinds { IfErr result (λ e. (e ≡ errors.TooNarrow) ⊎ (e ≡ errors.Memory)) }
        ensures added { OnOk result (add_text measure (T.seen tag.now) mode (chars text.now) (T.seen main_tag.now)
            (T.seen wrap_tag.now) (laid_of T.seen self.old) ≡ Some (laid_of T.seen self.new)) }
        ensures narrow { result ≡ Err errors.TooNarrow → add_text measure (T.seen tag.now) mode (chars text.now)
            (T.seen main_tag.now) (T.seen wrap_tag.now) (laid_of T.seen self.old) ≡ None }
        ensures joined { HasJoinedTexts T.seen self.old → HasJoinedTexts T.seen self.new }
    {
        self.enter_mode(measure, tag, mode, text)?;
        self.run_on(measure, tag, mode, text, main_tag, wrap_tag)
    }

    /// Adds text of one tag as `add_text` does under any tag, where a text runs that has no other mode, its white space
    /// is not preserved, and no block is awaited. Emits whether it did; else nothing has changed. The error is
    /// allocation failure alone.
    #[inline(always)]
    pub fn add_more(&mut self, mode: WhiteSpace, text: &str, tag: &T) -> Result<bool, AllocError>
        ensures more { IfOk result (λ more. IsTrue more → ((laid_of T.seen self.old).awaits ≡ false)
            × ((measure : SeenMeasure) (other : T.Seen)
            → add_text measure other mode (chars text.now) (T.seen tag.now) (T.seen tag.now)
            (laid_of T.seen self.old) ≡ Some (laid_of T.seen self.new))) }
        ensures stays { IfOk result (λ more. more ≡ false → laid_of T.seen self.new ≡ laid_of T.seen self.old) }
        ensures joined { HasJoinedTexts T.seen self.old → HasJoinedTexts T.seen self.new }
    {
        if !self.awaits {
            if let Some(running) = &mut self.running {
                return running.add_more(mode, text, tag);
            }
        }
        Ok(false)
    }

    #[inline(always)]
    fn enter_mode(
        &mut self,
        measure: Measure,
        tag: &T,
        mode: WhiteSpace,
        text: &str,
    ) -> Result<(), BlockError>
        ensures kinds { IfErr result (λ e. (e ≡ errors.TooNarrow) ⊎ (e ≡ errors.Memory)) }
        ensures entered { OnOk result (enter_mode measure (T.seen tag.now) mode (chars text.now)
            (laid_of T.seen self.old) ≡ Some (laid_of T.seen self.new)) }
        ensures narrow { result ≡ Err errors.TooNarrow → enter_mode measure (T.seen tag.now) mode (chars text.now)
            (laid_of T.seen self.old) ≡ None }
        ensures joined { HasJoinedTexts T.seen self.old → HasJoinedTexts T.seen self.new }
    {
        if holds_text(text) && self.runs_otherwise(mode) {
            return self.flush(measure, tag);
        }
        Ok(())
    }

    #[inline(always)]
    fn runs_otherwise(&self, mode: WhiteSpace) -> bool
        ensures { result ≡ runs_otherwise mode (laid_of T.seen self.now).running }
    {
        match &self.running {
            Some(running) => running.has_other_mode(mode),
            None => false,
        }
    }

    #[inline(always)]
    fn run_on(
        &mut self,
        measure: Measure,
        tag: &T,
        mode: WhiteSpace,
        text: &str,
        main_tag: &T,
        wrap_tag: &T,
    ) -> Result<(), BlockError>
        ensures kinds { IfErr result (λ e. (e ≡ errors.TooNarrow) ⊎ (e ≡ errors.Memory)) }
        ensures added { OnOk result (run_on measure (T.seen tag.now) mode (chars text.now) (T.seen main_tag.now)
            (T.seen wrap_tag.now) (laid_of T.seen self.old) ≡ Some (laid_of T.seen self.new)) }
        ensures narrow { result ≡ Err errors.TooNarrow → run_on measure (T.seen tag.now) mode (chars text.now)
            (T.seen main_tag.now) (T.seen wrap_tag.now) (laid_of T.seen self.old) ≡ None }
        ensures joined { HasJoinedTexts T.seen self.old → HasJoinedTexts T.seen self.new }
    {
        if let Some(running) = &mut self.running {
            return running.add_text(mode, text, main_tag, wrap_tag);
        }
        self.run_first(measure, tag, mode, text, main_tag, wrap_tag)
    }

    /// Begins a text with the first of it.
    fn run_first(
        &mut self,
        measure: Measure,
        tag: &T,
        mode: WhiteSpace,
        text: &str,
        main_tag: &T,
        wrap_tag: &T,
    ) -> Result<(), BlockError>
        ensures kinds { IfErr result (λ e. (e ≡ errors.TooNarrow) ⊎ (e ≡ errors.Memory)) }
        ensures added { OnOk result (run_on measure (T.seen tag.now) mode (chars text.now) (T.seen main_tag.now)
            (T.seen wrap_tag.now) (without_running (laid_of T.seen self.old)) ≡ Some (laid_of T.seen self.new)) }
        ensures narrow { result ≡ Err errors.TooNarrow → run_on measure (T.seen tag.now) mode (chars text.now)
            (T.seen main_tag.now) (T.seen wrap_tag.now) (without_running (laid_of T.seen self.old)) ≡ None }
        ensures joined { HasJoinedTexts T.seen self.old → HasJoinedTexts T.seen self.new }
    {
        let mut running = Running::new(*self.markers.allocator(), measure, tag)?;
        running.add_text(mode, text, main_tag, wrap_tag)?;
        self.running = Some(running);
        Ok(())
    }

    /// Adds an empty text, which needs no tags: where none runs, one begins to. The error is allocation failure alone.
    pub fn begin_text(&mut self, measure: Measure, tag: &T) -> Result<(), AllocError>
        ensures laid { OnOk result ((mode : SeenMode) (main further : T.Seen)
            → add_text measure (T.seen tag.now) mode [] main further (laid_of T.seen self.old)
            ≡ Some (laid_of T.seen self.new)) }
        ensures joined { HasJoinedTexts T.seen self.old → HasJoinedTexts T.seen self.new }
    {
        if self.running.is_some() {
            return Ok(());
        }
        self.running = Some(Running::new(*self.markers.allocator(), measure, tag)?);
        Ok(())
    }

    /// Whether the text is none: after a block normal text of white space alone is ignored, until a block starts or an
    /// empty line is added.
    pub fn is_ignored(&self, mode: WhiteSpace, text: &str) -> bool
        ensures { result ≡ is_ignored mode (chars text.now) (laid_of T.seen self.now) }
    {
        self.awaits && is_blank(mode, text)
    }

    /// Starts a block where the next text is to. Refused as `flush`.
    pub fn start_awaited(&mut self, measure: Measure, tag: &T) -> Result<(), BlockError>
        ensures kinds { IfErr result (λ e. (e ≡ errors.TooNarrow) ⊎ (e ≡ errors.Memory)) }
        ensures started { OnOk result (start_awaited measure (T.seen tag.now) (laid_of T.seen self.old)
            ≡ Some (laid_of T.seen self.new)) }
        ensures narrow { result ≡ Err errors.TooNarrow
            → start_awaited measure (T.seen tag.now) (laid_of T.seen self.old) ≡ None }
        ensures joined { HasJoinedTexts T.seen self.old → HasJoinedTexts T.seen self.new }
    {
        if self.awaits {
            return self.start_block(measure, tag);
        }
        Ok(())
    }

    /// Adds a marker, the start of the fragment of that name, to the text that runs, or to one that begins to. Refused
    /// as `Memory`.
    pub fn record_frag_start(
        &mut self,
        measure: Measure,
        tag: &T,
        name: &str,
    ) -> Result<(), BlockError>
        ensures kinds { IfErr result (λ e. e ≡ errors.Memory) }
        ensures marked { OnOk result (laid_of T.seen self.new
            ≡ mark measure (T.seen tag.now) (chars name.now) (laid_of T.seen self.old)) }
        ensures joined { HasJoinedTexts T.seen self.old → HasJoinedTexts T.seen self.new }
    {
        if let Some(running) = &mut self.running {
            return running.add_marker(name);
        }
        self.mark_first(measure, tag, name)
    }

    /// Begins a text with a marker.
    fn mark_first(&mut self, measure: Measure, tag: &T, name: &str) -> Result<(), BlockError>
        ensures kinds { IfErr result (λ e. e ≡ errors.Memory) }
        ensures marked { OnOk result (laid_of T.seen self.new
            ≡ mark measure (T.seen tag.now) (chars name.now) (without_running (laid_of T.seen self.old))) }
        ensures joined { HasJoinedTexts T.seen self.old → HasJoinedTexts T.seen self.new }
    {
        let mut running = Running::new(*self.markers.allocator(), measure, tag)?;
        running.add_marker(name)?;
        self.running = Some(running);
        Ok(())
    }

    /// A line break: ends a line of text that has columns, else adds an empty line. Refused as `flush`.
    pub fn break_line(&mut self, measure: Measure, tag: &T) -> Result<(), BlockError>
        ensures kinds { IfErr result (λ e. (e ≡ errors.TooNarrow) ⊎ (e ≡ errors.Memory)) }
        ensures broken { OnOk result (break_line measure (T.seen tag.now) (laid_of T.seen self.old)
            ≡ Some (laid_of T.seen self.new)) }
        ensures narrow { result ≡ Err errors.TooNarrow
            → break_line measure (T.seen tag.now) (laid_of T.seen self.old) ≡ None }
        ensures joined { HasJoinedTexts T.seen self.old → HasJoinedTexts T.seen self.new }
    {
        match self.running.take() {
            Some(running) => self.break_text(measure, tag, running),
            None => self.add_empty_line(measure, tag),
        }
    }

    fn break_text(
        &mut self,
        measure: Measure,
        tag: &T,
        running: Running<T>,
    ) -> Result<(), BlockError>
        ensures kinds { IfErr result (λ e. (e ≡ errors.TooNarrow) ⊎ (e ≡ errors.Memory)) }
        ensures broken { OnOk result (break_of measure (T.seen tag.now) (Some (running_of T.seen running))
            (laid_of T.seen self.old) ≡ Some (laid_of T.seen self.new)) }
        ensures narrow { result ≡ Err errors.TooNarrow → break_of measure (T.seen tag.now)
            (Some (running_of T.seen running)) (laid_of T.seen self.old) ≡ None }
        ensures joined { HasJoinedTexts T.seen self.old → RunsJoined T.seen running
            → HasJoinedTexts T.seen self.new }
    {
        let mut running = running;
        let ends = running.break_text()?;
        self.running = Some(running);
        if ends {
            return self.flush(measure, tag);
        }
        self.add_empty_line(measure, tag)
    }
}

fn is_blank(mode: WhiteSpace, text: &str) -> bool
    ensures { result ≡ (not (is_preserved mode) && list_all is_whitespace (chars text.now)) }
{
    !mode.preserve_whitespace() && is_white_space(text)
}

/// Whether the text is all white space.
fn is_white_space(text: &str) -> bool
    ensures { result ≡ list_all is_whitespace (chars text.now) }
{
    text.chars().all(|c| c.is_whitespace())
}
