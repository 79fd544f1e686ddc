//! Renderers over a decorator.
ghost use Rattle.std.specs.Prelude.{◌≡◌, ◌⊎◌, [], Err, IfErr, IfOk, None, Ok, OnOk, Some, false, is_err, map, true};
ghost use Rattle.text_pieces.specs.declared.fault.BlockError.TheVariants as errors;

use block_layout::{BlockLayout, Measure};
use block_trait::RenderOptions;
use smallvec::SmallVec;
use std::alloc::{AllocError, Global};
use text_borders::RenderLine;
use text_cells::BlockLines;
use text_decorators::TextDecorator;
use text_lines::EqualCopy;
use text_pieces::{BlockError, TooNarrow, WhiteSpace};

/// A renderer of a block of lines, whose text a decorator marks.
pub struct SubRenderer<D: TextDecorator> {
    /// How text is rendered.
    pub options: RenderOptions,
    pub(crate) width: usize,
    pub(crate) decorator: D,
    pub(crate) laid: BlockLayout<Vec<D::Annotation>>,
    /// Of the parts around, the last of which counts.
    pub(crate) modes: SmallVec<WhiteSpace, 2>,
    pub(crate) preformats: usize,
    pub(crate) annotations: Vec<D::Annotation>,
    /// Whether annotations are kept.
    pub(crate) keeps_annotations: bool,
    pub(crate) strikeouts: usize,
    pub(crate) failed: bool,
}

impl<D: TextDecorator + Drop> Drop for SubRenderer<D> {
    // One call wherever a renderer is dropped, whatever it holds.
    fn drop(self) {
        let SubRenderer {
            options: _,
            width: _,
            decorator: _,
            laid: _,
            modes: _,
            preformats: _,
            annotations: _,
            keeps_annotations: _,
            strikeouts: _,
            failed: _,
        } = self;
    }
}

impl<D: TextDecorator + Drop> SubRenderer<D> {
    ghost use Rattle.block_trait.specs.Bare.{bare_of};
    ghost use Rattle.block_trait.specs.Renderers.{new_sub, new_part, measure_of, mode_of, flush_sub, with_border_of};
    ghost use Rattle.block_trait.specs.Outcomes.{IsAnswered};
    ghost use Rattle.block_renderer.specs.NewParts.{part_of};
    ghost use Rattle.block_renderer.specs.Seen.{sub_of, has_failed, IsJoinedSub};

    /// An empty renderer of a block of so many columns.
    pub fn new(alloc: Global, width: usize, options: RenderOptions, decorator: D) -> SubRenderer<D>
        ensures sub { sub_of D.Annotation.seen D.view.held result ≡ new_sub width options (D.view.held decorator) [] }
        ensures works { has_failed result ≡ false }
        ensures joined { IsJoinedSub D.Annotation.seen result }
    {
        SubRenderer {
            options,
            width,
            decorator,
            laid: BlockLayout::new(alloc),
            modes: SmallVec::new(alloc),
            preformats: 0,
            annotations: Vec::new(alloc),
            keeps_annotations: true,
            strikeouts: 0,
            failed: false,
        }
    }

    /// An empty renderer of a block of so many columns that keeps no annotations: each string of its lines stands under
    /// none, but for those after the page. Their text is that of a renderer that keeps them, with fewer requests for
    /// memory.
    pub fn without_annotations(
        alloc: Global,
        width: usize,
        options: RenderOptions,
        decorator: D,
    ) -> SubRenderer<D>
        ensures sub { sub_of D.Annotation.seen D.view.held result ≡ bare_of
            (new_sub width options (D.view.held decorator) []) }
        ensures works { has_failed result ≡ false }
        ensures joined { IsJoinedSub D.Annotation.seen result }
    {
        let mut sub = SubRenderer::new(alloc, width, options, decorator);
        sub.keeps_annotations = false;
        sub
    }

    /// How text is rendered in the block.
    pub fn options(&self) -> RenderOptions
        ensures { result ≡ (sub_of D.Annotation.seen D.view.held self.now).options }
    {
        self.options
    }

    pub(crate) fn alloc(&self) -> Global {
        *self.modes.allocator()
    }

    pub(crate) fn measure(&self) -> Measure
        ensures { result ≡ measure_of (sub_of D.Annotation.seen D.view.held self.now) }
    {
        Measure {
            width: self.width,
            wrap_width: self
                .width
                .min(self.options.wrap_width.unwrap_or(self.width)),
            overflow: self.options.allow_width_overflow,
            pads: self.options.pad_block_width,
        }
    }

    pub(crate) fn mode(&self) -> WhiteSpace
        ensures { result ≡ mode_of (sub_of D.Annotation.seen D.view.held self.now) }
    {
        match self.modes.as_slice().last() {
            Some(mode) => *mode,
            None => WhiteSpace::Normal,
        }
    }

    /// Makes the text that runs lines.
    pub(crate) fn flush(&mut self) -> Result<(), BlockError>
        ensures kinds { IfErr result (λ e. (e ≡ errors.TooNarrow) ⊎ (e ≡ errors.Memory)) }
        ensures done { OnOk result (flush_sub (sub_of D.Annotation.seen D.view.held self.old)
            ≡ Some (sub_of D.Annotation.seen D.view.held self.new)) }
        ensures narrow { result ≡ Err errors.TooNarrow → flush_sub (sub_of D.Annotation.seen D.view.held self.old)
            ≡ None }
        ensures joined { IsJoinedSub D.Annotation.seen self.old → IsJoinedSub D.Annotation.seen self.new }
    {
        let measure = self.measure();
        self.laid.flush(measure, &self.annotations)
    }

    /// Adds a border of so many columns.
    pub(crate) fn put_border(&mut self, width: usize) -> Result<(), BlockError>
        ensures kinds { IfErr result (λ e. (e ≡ errors.TooNarrow) ⊎ (e ≡ errors.Memory)) }
        ensures done { OnOk result (with_border_of width (sub_of D.Annotation.seen D.view.held self.old)
            ≡ Some (sub_of D.Annotation.seen D.view.held self.new)) }
        ensures narrow { result ≡ Err errors.TooNarrow → with_border_of width (sub_of D.Annotation.seen D.view.held
            self.old) ≡ None }
        ensures joined { IsJoinedSub D.Annotation.seen self.old → IsJoinedSub D.Annotation.seen self.new }
    {
        let measure = self.measure();
        self.laid
            .add_horizontal_border(measure, &self.annotations, width)
    }

    /// An empty renderer for a part of the block.
    pub(crate) fn part(&self, width: usize) -> Result<SubRenderer<D>, AllocError>
        ensures part { IfOk result (λ part. sub_of D.Annotation.seen D.view.held part ≡ new_part D.view.sub width
            (sub_of D.Annotation.seen D.view.held self.now)) }
        ensures works { IfOk result (λ part. has_failed part ≡ false) }
        ensures joined { IfOk result (IsJoinedSub D.Annotation.seen) }
    {
        let alloc = self.alloc();
        let decorator = self.decorator.make_subblock_decorator(alloc)?;
        let annotations = self.annotations.copy(alloc)?;
        let mut part = SubRenderer::new(alloc, width, self.options, decorator);
        part.annotations = annotations;
        part.keeps_annotations = self.keeps_annotations;
        Ok(part)
    }

    /// An empty renderer of so many columns for a part of the block in which white space and preformatting go on as
    /// they stand here; strikeouts don't. The error is `Failed` after a refusal, else `Memory`.
    pub fn new_part_renderer(&mut self, width: usize) -> Result<SubRenderer<D>, BlockError>
        ensures part { IsAnswered result (has_failed self.old) (has_failed self.new) (sub_of D.Annotation.seen
            D.view.held self.new ≡ sub_of D.Annotation.seen D.view.held self.old)
            (λ part. sub_of D.Annotation.seen D.view.held part ≡ part_of D.view.sub width (sub_of D.Annotation.seen
            D.view.held self.old)) }
        ensures works { IfOk result (λ part. has_failed part ≡ false) }
        ensures joined { IsJoinedSub D.Annotation.seen self.old → IsJoinedSub D.Annotation.seen self.new }
        ensures part_joined { IfOk result (IsJoinedSub D.Annotation.seen) }
    {
        if self.failed {
            return Err(BlockError::Failed);
        }
        let part = self.inner_part(width);
        self.failed = part.is_err();
        part
    }

    // Made in one piece, since it is large to move.
    fn inner_part(&self, width: usize) -> Result<SubRenderer<D>, BlockError>
        ensures part { IfOk result (λ part. sub_of D.Annotation.seen D.view.held part ≡ part_of D.view.sub width
            (sub_of D.Annotation.seen D.view.held self.now)) }
        ensures works { IfOk result (λ part. has_failed part ≡ false) }
        ensures kinds { IfErr result (λ e. e ≡ errors.Memory) }
        ensures joined { IfOk result (IsJoinedSub D.Annotation.seen) }
    {
        let alloc = self.alloc();
        let decorator = self.decorator.make_subblock_decorator(alloc)?;
        let annotations = self.annotations.copy(alloc)?;
        let mut modes = SmallVec::new(alloc);
        modes.push(self.mode())?;
        Ok(SubRenderer {
            options: self.options,
            width,
            decorator,
            laid: BlockLayout::new(alloc),
            modes,
            preformats: self.preformats.min(1),
            annotations,
            keeps_annotations: self.keeps_annotations,
            strikeouts: 0,
            failed: false,
        })
    }

    /// What a call answers that leaves the renderer as it is; a refusal is noted.
    pub(crate) fn answered<A>(&mut self, answer: Result<A, AllocError>) -> Result<A, BlockError>
        ensures refused { is_err result ≡ has_failed self.new }
        ensures kinds { IfErr result (λ e. e ≡ errors.Memory) }
        ensures same { IfOk result (λ a. answer ≡ Ok a) }
        ensures stays { sub_of D.Annotation.seen D.view.held self.new ≡ sub_of D.Annotation.seen D.view.held self.old }
        ensures joined { IsJoinedSub D.Annotation.seen self.old → IsJoinedSub D.Annotation.seen self.new }
    {
        self.failed = answer.is_err();
        Ok(answer?)
    }
}

impl<D: TextDecorator + Drop> SubRenderer<D> {
    ghost use Rattle.std.specs.Prelude.{map, All};
    ghost use Rattle.text_borders.specs.Lines.{render_line_of, IsJoinedText};
    ghost use Rattle.text_cells.specs.Cells.{block_lines_of};
    ghost use Rattle.block_trait.specs.Renderers.{lines_of_sub, room_after};
    ghost use Rattle.block_renderer.specs.Seen.{sub_of, tags_seen, has_failed, IsJoinedSub};

    /// The lines of the block, those of the text that runs too, filled where lines are. Refused as `TooNarrow` where a
    /// character of the text that runs is wider than its lines and may not stand alone, as `Memory`, or as `Failed`
    /// after a refusal. The lines are joined where the renderer's texts are.
    pub fn into_lines(self) -> Result<Vec<RenderLine<Vec<D::Annotation>>>, BlockError>
        ensures failed { has_failed self ≡ true → result ≡ Err errors.Failed }
        ensures kinds { has_failed self ≡ false → IfErr result (λ e. (e ≡ errors.TooNarrow) ⊎ (e ≡ errors.Memory)) }
        ensures lines { IfOk result (λ lines. lines_of_sub (sub_of D.Annotation.seen D.view.held self)
            ≡ Some (map (render_line_of (tags_seen D.Annotation.seen)) lines.items)) }
        ensures narrow { result ≡ Err errors.TooNarrow → lines_of_sub (sub_of D.Annotation.seen D.view.held self)
            ≡ None }
        ensures joined { IsJoinedSub D.Annotation.seen self
            → IfOk result (λ lines. All (IsJoinedText (tags_seen D.Annotation.seen)) lines.items) }
    {
        if self.failed {
            return Err(BlockError::Failed);
        }
        let measure = self.measure();
        let SubRenderer {
            options: _,
            width: _,
            decorator: _,
            laid,
            modes: _,
            preformats: _,
            annotations,
            keeps_annotations: _,
            strikeouts: _,
            failed: _,
        } = self;
        laid.into_lines(measure, &annotations)
    }

    /// The lines that are laid out.
    pub(crate) fn into_laid_lines(self) -> BlockLines<Vec<D::Annotation>>
        ensures lines { block_lines_of (tags_seen D.Annotation.seen) result ≡ (sub_of D.Annotation.seen D.view.held
            self).laid.lines }
    {
        let SubRenderer {
            options: _,
            width: _,
            decorator: _,
            laid,
            modes: _,
            preformats: _,
            annotations: _,
            keeps_annotations: _,
            strikeouts: _,
            failed: _,
        } = self;
        laid.into_laid_lines()
    }

    /// The columns that are left after a prefix of `prefix_len` columns, where these are at least `min_width` and at
    /// least 1; `min_width` counts columns after the prefix, those of the prefix not among them. Where fewer are left,
    /// `min_width`, or 1 if it is 0, is given if lines may pass the block's width, and the error is else `TooNarrow`.
    /// After a refused call the answer is the same.
    pub fn width_minus(&self, prefix_len: usize, min_width: usize) -> Result<usize, TooNarrow>
        ensures room { IfOk result (λ n. room_after prefix_len min_width (sub_of D.Annotation.seen D.view.held
            self.now) ≡ Some n) }
        ensures narrow { IfErr result (λ _. room_after prefix_len min_width (sub_of D.Annotation.seen D.view.held
            self.now) ≡ None) }
    {
        let least = min_width.max(1);
        let left = self.width.saturating_sub(prefix_len);
        if least <= left {
            return Ok(left);
        }
        if self.options.allow_width_overflow {
            return Ok(least);
        }
        Err(TooNarrow)
    }
}
