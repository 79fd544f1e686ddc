//! Blocks of lines.
ghost use Rattle.std.specs.Prelude.{◌≡◌, ◌⊎◌, None, Some, map, All, IfOk, IfErr, OnOk};
ghost use Rattle.text_lines.specs.Tagged.{line_items, IsJoined};
ghost use Rattle.text_pieces.specs.declared.fault.BlockError.TheVariants as errors;

use crate::lines::LaidLines;
use crate::measure::Measure;
use crate::running::Running;
use crate::texts::{after_names, fill_line, finished_lines};
use std::alloc::{AllocError, Global};
use text_borders::{BorderHoriz, RenderLine};
use text_cells::{BlockLines, HangingCell, LaidLine};
use text_lines::{EqualCopy, TaggedLine};
use text_pieces::{BlockError, LaidText, has_text};

/// A block of lines, and the text that runs after them. A call that is refused leaves a part of what it was to add.
pub struct BlockLayout<T> {
    pub(crate) lines: LaidLines<T>,
    pub(crate) running: Option<Running<T>>,
    /// Whether a block has ended, and the next text starts another.
    pub(crate) awaits: bool,
    /// The names of the markers that wait for a line of text.
    pub(crate) markers: Vec<String>,
    /// The cells that go on from the last row.
    pub(crate) hanging: Vec<HangingCell<T>>,
}

impl<T: Drop> Drop for BlockLayout<T> {
    // One call wherever a block is dropped, whatever it holds.
    fn drop(self) {
        let BlockLayout {
            lines: _,
            running: _,
            awaits: _,
            markers: _,
            hanging: _,
        } = self;
    }
}

impl<T: EqualCopy + Drop> BlockLayout<T> {
    ghost use Rattle.block_layout.specs.Seen.{laid_of, running_of, RunsJoined, HasJoinedTexts};
    ghost use Rattle.block_layout.specs.Laid.{add_border, add_empty_line, add_line, add_text_line, add_text_lines};
    ghost use Rattle.block_layout.specs.Laid.{after_empty_line, end_block, finished_lines, flush, flush_of};
    ghost use Rattle.block_layout.specs.Laid.{has_no_text, is_nothing, laid_text, nothing_laid, parted, start_block};
    ghost use Rattle.block_layout.specs.Laid.{start_table, with_markers};
    ghost use Rattle.text_borders.specs.Borders.{border_of};
    ghost use Rattle.text_borders.specs.Lines.{render_line_of, IsJoinedText};
    ghost use Rattle.text_cells.specs.Cells.{block_lines_of, AreBlockLinesJoined};
    ghost use Rattle.text_pieces.specs.Sources.{names};

    /// A block without lines.
    pub fn new(alloc: Global) -> BlockLayout<T>
        ensures laid { laid_of T.seen result ≡ nothing_laid }
        ensures joined { HasJoinedTexts T.seen result }
    {
        BlockLayout {
            lines: LaidLines::new(alloc),
            running: None,
            awaits: false,
            markers: Vec::new(alloc),
            hanging: Vec::new(alloc),
        }
    }

    /// Whether the block has no line, and no text that would take a column of one.
    pub fn is_empty(&self) -> bool
        ensures { result ≡ is_nothing (laid_of T.seen self.now) }
    {
        self.lines.is_empty() && self.has_no_text()
    }

    fn has_no_text(&self) -> bool
        ensures { result ≡ has_no_text (laid_of T.seen self.now).running }
    {
        match &self.running {
            Some(running) => !running.has_columns(),
            None => true,
        }
    }

    /// Adds a line of text, after the markers that wait, and filled where lines are.
    pub(crate) fn add_line(
        &mut self,
        measure: Measure,
        tag: &T,
        content: bool,
        line: TaggedLine<T>,
    ) -> Result<(), AllocError>
        ensures laid { OnOk result (laid_of T.seen self.new ≡ add_line measure (T.seen tag.now) content
            (line_items T.seen line) (laid_of T.seen self.old)) }
        ensures joined { HasJoinedTexts T.seen self.old → IsJoined T.seen line
            → HasJoinedTexts T.seen self.new }
    {
        let mut line = after_names(&self.markers, line)?;
        self.markers.clear();
        fill_line(&mut line, measure.width, measure.pads, tag)?;
        let line = RenderLine::Text(line);
        self.lines.push(LaidLine { line, content })
    }

    /// Adds a border.
    pub(crate) fn add_border(&mut self, border: BorderHoriz<T>) -> Result<(), AllocError>
        ensures laid { OnOk result (laid_of T.seen self.new
            ≡ add_border (border_of T.seen border) (laid_of T.seen self.old)) }
        ensures joined { HasJoinedTexts T.seen self.old → HasJoinedTexts T.seen self.new }
    {
        let content = !border.has_holes();
        let line = RenderLine::Line(border);
        self.lines.push(LaidLine { line, content })
    }

    /// Makes the text that runs lines. It is refused as `TooNarrow` where a character is wider than the text's lines
    /// and may not stand alone, or as `Memory`.
    pub fn flush(&mut self, measure: Measure, tag: &T) -> Result<(), BlockError>
        ensures kinds { IfErr result (λ e. (e ≡ errors.TooNarrow) ⊎ (e ≡ errors.Memory)) }
        ensures flushed { OnOk result (flush measure (T.seen tag.now) (laid_of T.seen self.old)
            ≡ Some (laid_of T.seen self.new)) }
        ensures narrow { result ≡ Err errors.TooNarrow
            → flush measure (T.seen tag.now) (laid_of T.seen self.old) ≡ None }
        ensures joined { HasJoinedTexts T.seen self.old → HasJoinedTexts T.seen self.new }
    {
        match self.running.take() {
            Some(running) => self.lay_text(measure, tag, running),
            None => Ok(()),
        }
    }

    fn lay_text(&mut self, measure: Measure, tag: &T, running: Running<T>) -> Result<(), BlockError>
        ensures kinds { IfErr result (λ e. (e ≡ errors.TooNarrow) ⊎ (e ≡ errors.Memory)) }
        ensures laid { OnOk result (flush_of measure (T.seen tag.now) (Some (running_of T.seen running))
            (laid_of T.seen self.old) ≡ Some (laid_of T.seen self.new)) }
        ensures narrow { result ≡ Err errors.TooNarrow → laid_text (running_of T.seen running).text ≡ None }
        ensures joined { HasJoinedTexts T.seen self.old → RunsJoined T.seen running
            → HasJoinedTexts T.seen self.new }
    {
        let (LaidText { lines, waiting }, fill) = running.laid()?;
        self.add_lines(measure, tag, &fill, lines)?;
        self.hold_markers(waiting)?;
        Ok(())
    }

    /// Adds lines of text, the first after the markers that wait, filled where lines are. It fails only if allocation
    /// fails.
    pub fn add_lines(
        &mut self,
        measure: Measure,
        tag: &T,
        fill: &T,
        lines: Vec<TaggedLine<T>>,
    ) -> Result<(), AllocError>
        ensures laid { OnOk result (laid_of T.seen self.new ≡ add_text_lines measure (T.seen tag.now) (T.seen fill.now)
            (map (line_items T.seen) lines.items) (laid_of T.seen self.old)) }
        ensures joined { HasJoinedTexts T.seen self.old → All (IsJoined T.seen) lines.items
            → HasJoinedTexts T.seen self.new }
    {
        for line in lines {
            self.add_text_line(measure, tag, fill, line)?;
        }
        Ok(())
    }

    fn add_text_line(
        &mut self,
        measure: Measure,
        tag: &T,
        fill: &T,
        line: TaggedLine<T>,
    ) -> Result<(), AllocError>
        ensures laid { OnOk result (laid_of T.seen self.new ≡ add_text_line measure (T.seen tag.now) (T.seen fill.now)
            (laid_of T.seen self.old) (line_items T.seen line)) }
        ensures joined { HasJoinedTexts T.seen self.old → IsJoined T.seen line
            → HasJoinedTexts T.seen self.new }
    {
        let content = has_text(&line);
        let mut line = line;
        fill_line(&mut line, measure.wrap_width, measure.pads, fill)?;
        self.add_line(measure, tag, content, line)
    }

    fn hold_markers(&mut self, waiting: Vec<String>) -> Result<(), AllocError>
        ensures laid { OnOk result (laid_of T.seen self.new
            ≡ with_markers (names waiting.items) (laid_of T.seen self.old)) }
        ensures joined { HasJoinedTexts T.seen self.old → HasJoinedTexts T.seen self.new }
    {
        let mut waiting = waiting;
        self.markers.append(&mut waiting)
    }

    /// Adds an empty line after the text that runs. Refused as `flush`.
    pub fn add_empty_line(&mut self, measure: Measure, tag: &T) -> Result<(), BlockError>
        ensures kinds { IfErr result (λ e. (e ≡ errors.TooNarrow) ⊎ (e ≡ errors.Memory)) }
        ensures added { OnOk result (add_empty_line measure (T.seen tag.now) (laid_of T.seen self.old)
            ≡ Some (laid_of T.seen self.new)) }
        ensures narrow { result ≡ Err errors.TooNarrow
            → add_empty_line measure (T.seen tag.now) (laid_of T.seen self.old) ≡ None }
        ensures joined { HasJoinedTexts T.seen self.old → HasJoinedTexts T.seen self.new }
    {
        self.flush(measure, tag)?;
        self.put_empty_line(measure, tag)?;
        Ok(())
    }

    fn put_empty_line(&mut self, measure: Measure, tag: &T) -> Result<(), AllocError>
        ensures laid { OnOk result (laid_of T.seen self.new
            ≡ after_empty_line measure (T.seen tag.now) (laid_of T.seen self.old)) }
        ensures joined { HasJoinedTexts T.seen self.old → HasJoinedTexts T.seen self.new }
    {
        let empty = TaggedLine::new(*self.markers.allocator());
        self.add_line(measure, tag, false, empty)?;
        self.awaits = false;
        Ok(())
    }

    /// Starts a block: an empty line parts it from lines with content before it. Refused as `flush`.
    pub fn start_block(&mut self, measure: Measure, tag: &T) -> Result<(), BlockError>
        ensures kinds { IfErr result (λ e. (e ≡ errors.TooNarrow) ⊎ (e ≡ errors.Memory)) }
        ensures started { OnOk result (start_block measure (T.seen tag.now) (laid_of T.seen self.old)
            ≡ Some (laid_of T.seen self.new)) }
        ensures narrow { result ≡ Err errors.TooNarrow
            → start_block measure (T.seen tag.now) (laid_of T.seen self.old) ≡ None }
        ensures joined { HasJoinedTexts T.seen self.old → HasJoinedTexts T.seen self.new }
    {
        self.flush(measure, tag)?;
        self.part(measure, tag)?;
        Ok(())
    }

    fn part(&mut self, measure: Measure, tag: &T) -> Result<(), AllocError>
        ensures laid { OnOk result (laid_of T.seen self.new
            ≡ parted measure (T.seen tag.now) (laid_of T.seen self.old)) }
        ensures joined { HasJoinedTexts T.seen self.old → HasJoinedTexts T.seen self.new }
    {
        if self.lines.has_content() {
            return self.put_empty_line(measure, tag);
        }
        self.awaits = false;
        Ok(())
    }

    /// Starts a table as a block, in which no cell goes on from a row before. Refused as `flush`.
    pub fn start_table(&mut self, measure: Measure, tag: &T) -> Result<(), BlockError>
        ensures kinds { IfErr result (λ e. (e ≡ errors.TooNarrow) ⊎ (e ≡ errors.Memory)) }
        ensures started { OnOk result (start_table measure (T.seen tag.now) (laid_of T.seen self.old)
            ≡ Some (laid_of T.seen self.new)) }
        ensures narrow { result ≡ Err errors.TooNarrow
            → start_table measure (T.seen tag.now) (laid_of T.seen self.old) ≡ None }
        ensures joined { HasJoinedTexts T.seen self.old → HasJoinedTexts T.seen self.new }
    {
        self.start_block(measure, tag)?;
        self.hanging.clear();
        Ok(())
    }

    /// Ends a block: the next text starts another.
    pub fn end_block(&mut self)
        ensures laid { laid_of T.seen self.new ≡ end_block (laid_of T.seen self.old) }
        ensures joined { HasJoinedTexts T.seen self.old → HasJoinedTexts T.seen self.new }
    {
        self.awaits = true;
    }

    /// The lines, those of the text that runs too, filled where lines are. Refused as `flush`.
    pub fn into_lines(self, measure: Measure, tag: &T) -> Result<Vec<RenderLine<T>>, BlockError>
        ensures kinds { IfErr result (λ e. (e ≡ errors.TooNarrow) ⊎ (e ≡ errors.Memory)) }
        ensures lines { IfOk result (λ lines. finished_lines measure (T.seen tag.now) (laid_of T.seen self)
            ≡ Some (map (render_line_of T.seen) lines.items)) }
        ensures narrow { result ≡ Err errors.TooNarrow
            → finished_lines measure (T.seen tag.now) (laid_of T.seen self) ≡ None }
        ensures joined { HasJoinedTexts T.seen self → IfOk result (λ lines. All (IsJoinedText T.seen) lines.items) }
    {
        let mut block = self;
        block.flush(measure, tag)?;
        let alloc = *block.markers.allocator();
        let laid = block.into_laid_lines().into_vec(alloc)?;
        let lines = finished_lines(measure, laid)?;
        Ok(lines)
    }

    /// The lines that are laid out.
    pub fn into_laid_lines(self) -> BlockLines<T>
        ensures lines { block_lines_of T.seen result ≡ (laid_of T.seen self).lines }
        ensures joined { HasJoinedTexts T.seen self → AreBlockLinesJoined T.seen result }
    {
        let BlockLayout {
            lines,
            running: _,
            awaits: _,
            markers: _,
            hanging: _,
        } = self;
        lines.into_lines()
    }
}
