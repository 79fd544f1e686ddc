//! Lines after a page.
ghost use Rattle.std.specs.Prelude.{◌≡◌, ◌⊎◌, Err, IfErr, IfOk, None, OnErr, OnOk, Some, false, fold, is_err, map};
ghost use Rattle.std.specs.Prelude.{true};
ghost use Rattle.text_lines.specs.Tagged.{line_items};
ghost use Rattle.text_decorators.specs.Marks.{page_end, seen_lines};
ghost use Rattle.text_pieces.specs.Sources.{names};
ghost use Rattle.text_pieces.specs.declared.fault.BlockError.TheVariants as errors;

use crate::sub_renderer::SubRenderer;
use std::alloc::AllocError;
use text_decorators::TextDecorator;
use text_footnotes::into_footnote_lines;
use text_lines::TaggedLine;
use text_pieces::BlockError;

impl<D: TextDecorator + Drop> SubRenderer<D> {
    ghost use Rattle.block_renderer.specs.Footnotes.{add_footnotes, with_footnote, footnote_width};
    ghost use Rattle.block_trait.specs.Outcomes.{IsOutcome};
    ghost use Rattle.block_trait.specs.Renderers.{with_held};
    ghost use Rattle.block_renderer.specs.Seen.{sub_of, has_failed, IsJoinedSub};

    /// Makes the text that runs lines, and adds what lines after the page give: each annotation stands alone, and
    /// lines are cut at the block's width where links are wrapped. Refused as `TooNarrow` where a character of the text
    /// that runs is wider than its lines and may not stand alone, as `Memory`, or as `Failed` after a refusal.
    pub fn fmt_links(&mut self, lines: Vec<TaggedLine<D::Annotation>>) -> Result<(), BlockError>
        ensures outcome { IsOutcome result (has_failed self.old) (has_failed self.new)
            (add_footnotes (map (line_items D.Annotation.seen) lines.items) (sub_of D.Annotation.seen D.view.held
            self.old) ≡ Some (sub_of D.Annotation.seen D.view.held self.new))
            (add_footnotes (map (line_items D.Annotation.seen) lines.items) (sub_of D.Annotation.seen D.view.held
            self.old) ≡ None) }
        ensures joined { IsJoinedSub D.Annotation.seen self.old → IsJoinedSub D.Annotation.seen self.new }
    {
        if self.failed {
            return Err(BlockError::Failed);
        }
        let result = self.add_footnotes(lines);
        self.failed = result.is_err();
        result
    }

    fn add_footnotes(&mut self, lines: Vec<TaggedLine<D::Annotation>>) -> Result<(), BlockError>
        ensures kinds { IfErr result (λ e. (e ≡ errors.TooNarrow) ⊎ (e ≡ errors.Memory)) }
        ensures done { OnOk result (add_footnotes (map (line_items D.Annotation.seen) lines.items)
            (sub_of D.Annotation.seen D.view.held self.old) ≡ Some (sub_of D.Annotation.seen D.view.held self.new)) }
        ensures narrow { result ≡ Err errors.TooNarrow → add_footnotes (map (line_items D.Annotation.seen) lines.items)
            (sub_of D.Annotation.seen D.view.held self.old) ≡ None }
        ensures joined { IsJoinedSub D.Annotation.seen self.old → IsJoinedSub D.Annotation.seen self.new }
    {
        self.flush()?;
        self.put_footnotes(lines)?;
        Ok(())
    }

    fn put_footnotes(&mut self, lines: Vec<TaggedLine<D::Annotation>>) -> Result<(), AllocError>
        ensures done { OnOk result (sub_of D.Annotation.seen D.view.held self.new ≡ fold with_footnote
            (sub_of D.Annotation.seen D.view.held self.old) (map (line_items D.Annotation.seen) lines.items)) }
        ensures joined { IsJoinedSub D.Annotation.seen self.old → IsJoinedSub D.Annotation.seen self.new }
    {
        for line in lines {
            self.put_footnote(line)?;
        }
        Ok(())
    }

    fn put_footnote(&mut self, line: TaggedLine<D::Annotation>) -> Result<(), AllocError>
        ensures done { OnOk result (sub_of D.Annotation.seen D.view.held self.new ≡ with_footnote
            (sub_of D.Annotation.seen D.view.held self.old) (line_items D.Annotation.seen line)) }
        ensures joined { IsJoinedSub D.Annotation.seen self.old → IsJoinedSub D.Annotation.seen self.new }
    {
        let measure = self.measure();
        let lines = into_footnote_lines(self.alloc(), self.footnote_width(), line)?;
        self.laid
            .add_lines(measure, &self.annotations, &self.annotations, lines)
    }

    /// Where lines after the page are cut.
    fn footnote_width(&self) -> Option<usize>
        ensures { result ≡ footnote_width (sub_of D.Annotation.seen D.view.held self.now) }
    {
        if self.options.wrap_links {
            return Some(self.width);
        }
        None
    }

    /// The lines after the page whose links have these targets. The error is `Failed` after a refusal, else `Memory`,
    /// and leaves the renderer as it was, but that it has failed.
    pub fn finalise(
        &mut self,
        links: Vec<String>,
    ) -> Result<Vec<TaggedLine<D::Annotation>>, BlockError>
        ensures closes { IfOk result (λ lines. map (line_items D.Annotation.seen) lines.items ≡ seen_lines
            D.Annotation.seen
            (D.view.closes (sub_of D.Annotation.seen D.view.held self.old).held (names links.items))) }
        ensures after { OnOk result (sub_of D.Annotation.seen D.view.held self.new ≡ with_held
            (D.view.after (sub_of D.Annotation.seen D.view.held self.old).held (page_end (names links.items)))
            (sub_of D.Annotation.seen D.view.held self.old)) }
        ensures stays { OnErr result (sub_of D.Annotation.seen D.view.held self.new ≡ sub_of D.Annotation.seen
            D.view.held self.old) }
        ensures refused { is_err result ≡ has_failed self.new }
        ensures failed { has_failed self.old ≡ true → result ≡ Err errors.Failed }
        ensures kinds { has_failed self.old ≡ false → IfErr result (λ e. e ≡ errors.Memory) }
        ensures joined { IsJoinedSub D.Annotation.seen self.old → IsJoinedSub D.Annotation.seen self.new }
    {
        if self.failed {
            return Err(BlockError::Failed);
        }
        let alloc = self.alloc();
        let lines = self.decorator.finalise(alloc, links);
        self.failed = lines.is_err();
        Ok(lines?)
    }
}
