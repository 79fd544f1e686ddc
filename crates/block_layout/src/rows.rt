//! Rows of cells in a block.
ghost use Rattle.std.specs.Prelude.{◌≡◌, ◌⊎◌, false, None, Some, map, All, IfErr, IfOk, OnOk, if◌then◌else◌};
ghost use Rattle.std.specs.Option.{option_map};
ghost use Rattle.text_borders.specs.Borders.{border_of};
ghost use Rattle.text_borders.specs.Lines.{IsJoinedText};
ghost use Rattle.text_lines.specs.Tagged.{line_items, IsJoined};
ghost use Rattle.text_cells.specs.Cells.{AreRowLines, HaveTextContent, cell_of, hanging_of, laid_line_of, row_lines_of};
ghost use Rattle.text_cells.specs.Cells.{row_of, texts_items};
ghost use Rattle.text_pieces.specs.declared.fault.BlockError.TheVariants as errors;

use crate::block::BlockLayout;
use crate::measure::Measure;
use std::alloc::AllocError;
use std::mem;
use text_borders::{BorderHoriz, RenderLine};
use text_cells::{
    HangingCell, LaidLine, LineSet, Row, RowLines, WideTexts, joined_line, lay_across,
};
use text_lines::{EqualCopy, TaggedLine};
use text_pieces::{BlockError, has_text};

impl<T: EqualCopy + Drop> BlockLayout<T> {
    ghost use Rattle.block_layout.specs.Seen.{laid_of, HasJoinedTexts};
    ghost use Rattle.block_layout.specs.Laid.{add_border, without_hanging};
    ghost use Rattle.block_layout.specs.LaidRows.{add_row, add_row_line, add_row_lines, border_line, last_border};
    ghost use Rattle.block_layout.specs.LaidRows.{put_back, row_laid, with_border, with_row, without_last_border};

    /// Adds cells beside one another: below the last line, where that is a border, and with a border below them where
    /// borders are drawn. `collapse` takes the borders that are a cell's first and last line into those. Refused as
    /// `flush`.
    pub fn add_row(
        &mut self,
        measure: Measure,
        tag: &T,
        draws: bool,
        collapse: bool,
        cells: Vec<LineSet<T>>,
    ) -> Result<(), BlockError>
        ensures kinds { IfErr result (λ e. (e ≡ errors.TooNarrow) ⊎ (e ≡ errors.Memory)) }
        ensures added { OnOk result (add_row measure (T.seen tag.now) draws collapse (map (cell_of T.seen) cells.items)
            (laid_of T.seen self.old) ≡ Some (laid_of T.seen self.new)) }
        ensures narrow { result ≡ Err errors.TooNarrow → add_row measure (T.seen tag.now) draws collapse
            (map (cell_of T.seen) cells.items) (laid_of T.seen self.old) ≡ None }
        ensures joined { HasJoinedTexts T.seen self.old → HasJoinedTexts T.seen self.new }
    {
        self.flush(measure, tag)?;
        self.lay_row(measure, tag, draws, collapse, cells)?;
        Ok(())
    }

    fn lay_row(
        &mut self,
        measure: Measure,
        tag: &T,
        draws: bool,
        collapse: bool,
        cells: Vec<LineSet<T>>,
    ) -> Result<(), AllocError>
        ensures laid { OnOk result (laid_of T.seen self.new ≡ row_laid measure (T.seen tag.now) draws collapse
            (map (cell_of T.seen) cells.items) (laid_of T.seen self.old)) }
        ensures joined { HasJoinedTexts T.seen self.old → HasJoinedTexts T.seen self.new }
    {
        let alloc = *self.markers.allocator();
        let above = self.take_border()?;
        let hanging = self.take_hanging();
        let row = lay_across(alloc, draws, collapse, tag, above, cells, hanging)?;
        self.put_row(measure, tag, draws, row)
    }

    fn take_hanging(&mut self) -> Vec<HangingCell<T>>
        ensures hanging { map (hanging_of T.seen) result.items ≡ (laid_of T.seen self.old).hanging }
        ensures without { laid_of T.seen self.new ≡ without_hanging (laid_of T.seen self.old) }
        ensures joined { HasJoinedTexts T.seen self.old → HasJoinedTexts T.seen self.new }
    {
        let alloc = *self.markers.allocator();
        mem::replace(&mut self.hanging, Vec::new(alloc))
    }

    /// Takes the last line off, where it is a border.
    fn take_border(&mut self) -> Result<Option<BorderHoriz<T>>, AllocError>
        ensures above { IfOk result (λ above. option_map (border_of T.seen) above
            ≡ last_border (laid_of T.seen self.old).lines) }
        ensures without { OnOk result (laid_of T.seen self.new
            ≡ without_last_border (last_border (laid_of T.seen self.old).lines) (laid_of T.seen self.old)) }
        ensures joined { HasJoinedTexts T.seen self.old → HasJoinedTexts T.seen self.new }
    {
        match self.lines.pop() {
            Some(last) => self.border_or_back(last),
            None => Ok(None),
        }
    }

    /// The border that the line is; a text is put back.
    fn border_or_back(&mut self, last: LaidLine<T>) -> Result<Option<BorderHoriz<T>>, AllocError>
        ensures above { IfOk result (λ above. option_map (border_of T.seen) above
            ≡ border_line (laid_line_of T.seen last).line) }
        ensures lines { OnOk result (laid_of T.seen self.new
            ≡ put_back (laid_line_of T.seen last).line (laid_line_of T.seen last) (laid_of T.seen self.old)) }
        ensures joined { HasJoinedTexts T.seen self.old → IsJoinedText T.seen last.line
            → HasJoinedTexts T.seen self.new }
    {
        let LaidLine { line, content } = last;
        match line {
            RenderLine::Line(border) => Ok(Some(border)),
            RenderLine::Text(text) => {
                let line = RenderLine::Text(text);
                self.lines.push(LaidLine { line, content })?;
                Ok(None)
            }
        }
    }

    fn put_row(
        &mut self,
        measure: Measure,
        tag: &T,
        draws: bool,
        row: Row<T>,
    ) -> Result<(), AllocError>
        ensures laid { AreRowLines T.seen row.lines → OnOk result (laid_of T.seen self.new
            ≡ with_row measure (T.seen tag.now) draws (row_of T.seen row) (laid_of T.seen self.old)) }
        ensures joined { HasJoinedTexts T.seen self.old → AreRowLines T.seen row.lines
            → HasJoinedTexts T.seen self.new }
    {
        let Row {
            above,
            lines,
            below,
            hanging,
        } = row;
        self.put_above(above)?;
        self.add_row_lines(measure, tag, lines)?;
        self.put_below(draws, below)?;
        self.hanging = hanging;
        Ok(())
    }

    fn put_above(&mut self, above: Option<BorderHoriz<T>>) -> Result<(), AllocError>
        ensures laid { OnOk result (laid_of T.seen self.new
            ≡ with_border (option_map (border_of T.seen) above) (laid_of T.seen self.old)) }
        ensures joined { HasJoinedTexts T.seen self.old → HasJoinedTexts T.seen self.new }
    {
        match above {
            Some(border) => self.add_border(border),
            None => Ok(()),
        }
    }

    fn put_below(&mut self, draws: bool, below: BorderHoriz<T>) -> Result<(), AllocError>
        ensures laid { OnOk result (laid_of T.seen self.new
            ≡ with_border (if draws then Some (border_of T.seen below) else None) (laid_of T.seen self.old)) }
        ensures joined { HasJoinedTexts T.seen self.old → HasJoinedTexts T.seen self.new }
    {
        if draws {
            return self.add_border(below);
        }
        Ok(())
    }

    fn add_row_lines(
        &mut self,
        measure: Measure,
        tag: &T,
        lines: RowLines<T>,
    ) -> Result<(), AllocError>
        ensures laid { AreRowLines T.seen lines → OnOk result (laid_of T.seen self.new
            ≡ add_row_lines measure (T.seen tag.now) (row_lines_of T.seen lines) (laid_of T.seen self.old)) }
        ensures joined { HasJoinedTexts T.seen self.old → AreRowLines T.seen lines
            → HasJoinedTexts T.seen self.new }
    {
        match lines {
            RowLines::Each(lines) => self.add_each_line(measure, tag, lines),
            RowLines::Wide(texts) => self.add_texts(measure, tag, texts),
        }
    }

    fn add_each_line(
        &mut self,
        measure: Measure,
        tag: &T,
        lines: Vec<TaggedLine<T>>,
    ) -> Result<(), AllocError>
        ensures laid { OnOk result (laid_of T.seen self.new ≡ add_row_lines measure (T.seen tag.now)
            (map (line_items T.seen) lines.items) (laid_of T.seen self.old)) }
        ensures joined { HasJoinedTexts T.seen self.old → All (IsJoined T.seen) lines.items
            → HasJoinedTexts T.seen self.new }
    {
        for line in lines {
            let content = has_text(&line);
            self.add_line(measure, tag, content, line)?;
        }
        Ok(())
    }

    /// Adds wide texts; where lines are filled one by one.
    fn add_texts(
        &mut self,
        measure: Measure,
        tag: &T,
        texts: WideTexts<T>,
    ) -> Result<(), AllocError>
        ensures laid { HaveTextContent T.seen texts → OnOk result (laid_of T.seen self.new
            ≡ add_row_lines measure (T.seen tag.now) (texts_items T.seen texts) (laid_of T.seen self.old)) }
        ensures joined { HasJoinedTexts T.seen self.old → HasJoinedTexts T.seen self.new }
    {
        if measure.pads {
            return self.add_each_text(measure, tag, texts);
        }
        if self.markers.is_empty() {
            return self.lines.push_texts(texts);
        }
        self.add_marked_texts(measure, tag, texts)
    }

    fn add_each_text(
        &mut self,
        measure: Measure,
        tag: &T,
        texts: WideTexts<T>,
    ) -> Result<(), AllocError>
        ensures laid { OnOk result (laid_of T.seen self.new ≡ add_row_lines measure (T.seen tag.now)
            (texts_items T.seen texts) (laid_of T.seen self.old)) }
        ensures joined { HasJoinedTexts T.seen self.old → HasJoinedTexts T.seen self.new }
    {
        let mut queue = texts.into_queue();
        while let Some(text) = queue.pop_front() {
            self.add_row_text(measure, tag, text.line)?;
        }
        Ok(())
    }

    /// Adds the first text after the markers that wait.
    fn add_marked_texts(
        &mut self,
        measure: Measure,
        tag: &T,
        texts: WideTexts<T>,
    ) -> Result<(), AllocError>
        requires { measure.pads ≡ false }
        ensures laid { HaveTextContent T.seen texts → OnOk result (laid_of T.seen self.new
            ≡ add_row_lines measure (T.seen tag.now) (texts_items T.seen texts) (laid_of T.seen self.old)) }
        ensures joined { HasJoinedTexts T.seen self.old → HasJoinedTexts T.seen self.new }
    {
        let mut texts = texts;
        let Some(first) = texts.pop_first() else {
            return Ok(());
        };
        self.add_row_text(measure, tag, first.line)?;
        self.lines.push_texts(texts)
    }

    fn add_row_text(
        &mut self,
        measure: Measure,
        tag: &T,
        line: TaggedLine<T>,
    ) -> Result<(), AllocError>
        ensures laid { OnOk result (laid_of T.seen self.new ≡ add_row_line measure (T.seen tag.now)
            (laid_of T.seen self.old) (line_items T.seen line)) }
        ensures joined { HasJoinedTexts T.seen self.old → HasJoinedTexts T.seen self.new }
    {
        let alloc = *self.markers.allocator();
        let line = joined_line(alloc, line)?;
        let content = has_text(&line);
        self.add_line(measure, tag, content, line)
    }
}
