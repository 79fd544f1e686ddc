//! The lines of a block, and whether one has content.

use std::alloc::{AllocError, Global};
use text_cells::{BlockLines, LaidLine, WideTexts};
use text_lines::EqualCopy;

/// Lines, with the number of those that have content, so that no line is looked at again.
#[derive(Drop)]
pub(crate) struct LaidLines<T> {
    lines: BlockLines<T>,
    filled: usize,
    ghost counted: { filled ≡ block_content lines },
}

ghost use Rattle.std.specs.Prelude.{◌≡◌, ◌+◌, ◌∷◌, [], IfOk};
ghost use Rattle.text_cells.specs.Cells.{block_content, content_count};

impl<T: EqualCopy + Drop> LaidLines<T> {
    ghost use Rattle.std.specs.Prelude.{◌∷◌, ◌++◌, [], not, map, None, OnOk, IfSome, IsNone};
    ghost use Rattle.text_pieces.specs.Sources.{is_filled};
    ghost use Rattle.block_layout.specs.Seen.{lines_of, AreLinesJoined, HoldsJoinedLines};
    ghost use Rattle.block_layout.specs.Laid.{has_content};
    ghost use Rattle.text_borders.specs.Lines.{IsJoinedText};
    ghost use Rattle.text_cells.specs.Cells.{laid_line_of, texts_of, block_lines_of, AreBlockLinesJoined};
    ghost use Rattle.text_cells.specs.Ends.{last_border};

    pub(crate) fn new(alloc: Global) -> LaidLines<T>
        ensures lines { lines_of T.seen result ≡ [] }
        ensures joined { HoldsJoinedLines T.seen result }
    {
        LaidLines {
            lines: BlockLines::new(alloc),
            filled: 0,
        }
    }

    pub(crate) fn is_empty(&self) -> bool
        ensures { result ≡ not (is_filled (lines_of T.seen self.now)) }
    {
        self.lines.is_empty()
    }

    pub(crate) fn has_content(&self) -> bool
        ensures { result ≡ has_content (lines_of T.seen self.now) }
    {
        self.filled > 0
    }

    pub(crate) fn push(&mut self, line: LaidLine<T>) -> Result<(), AllocError>
        ensures lines { OnOk result (lines_of T.seen self.new
            ≡ lines_of T.seen self.old ++ laid_line_of T.seen line ∷ []) }
        ensures joined { HoldsJoinedLines T.seen self.old → IsJoinedText T.seen line.line
            → HoldsJoinedLines T.seen self.new }
    {
        let filled = sum(self.filled, weight(&line))?;
        self.lines.push(line)?;
        self.filled = filled;
        Ok(())
    }

    /// Moves lines to the end.
    pub(crate) fn append(&mut self, lines: Vec<LaidLine<T>>) -> Result<(), AllocError>
        ensures lines { OnOk result (lines_of T.seen self.new
            ≡ lines_of T.seen self.old ++ map (laid_line_of T.seen) lines.items) }
        ensures joined { HoldsJoinedLines T.seen self.old → AreLinesJoined T.seen lines.items
            → HoldsJoinedLines T.seen self.new }
    {
        let filled = sum(self.filled, count(&lines)?)?;
        self.lines.push_all(lines)?;
        self.filled = filled;
        Ok(())
    }

    /// Moves wide texts to the end.
    pub(crate) fn push_texts(&mut self, texts: WideTexts<T>) -> Result<(), AllocError>
        ensures lines { OnOk result (lines_of T.seen self.new
            ≡ lines_of T.seen self.old ++ texts_of T.seen texts) }
        ensures joined { HoldsJoinedLines T.seen self.old → HoldsJoinedLines T.seen self.new }
    {
        let filled = sum(self.filled, texts.filled())?;
        self.lines.push_texts(texts)?;
        self.filled = filled;
        Ok(())
    }

    /// Takes the last line off, where that is none of wide texts.
    pub(crate) fn pop(&mut self) -> Option<LaidLine<T>>
        ensures last { IfSome result (λ l. lines_of T.seen self.old
            ≡ lines_of T.seen self.new ++ laid_line_of T.seen l ∷ []) }
        ensures none { IsNone result → last_border (lines_of T.seen self.old) ≡ None }
        ensures same { IsNone result → lines_of T.seen self.new ≡ lines_of T.seen self.old }
        ensures joined { HoldsJoinedLines T.seen self.old → HoldsJoinedLines T.seen self.new }
        ensures taken { HoldsJoinedLines T.seen self.old
            → IfSome result (λ l. IsJoinedText T.seen l.line) }
    {
        let last = self.lines.pop()?;
        self.filled = self.filled.saturating_sub(weight(&last));
        Some(last)
    }

    pub(crate) fn into_lines(self) -> BlockLines<T>
        ensures lines { block_lines_of T.seen result ≡ lines_of T.seen self }
        ensures joined { HoldsJoinedLines T.seen self → AreBlockLinesJoined T.seen result }
    {
        let LaidLines { lines, .. } = self;
        lines
    }
}

/// No memory holds more lines than a `usize` counts.
fn sum(count: usize, more: usize) -> Result<usize, AllocError>
    ensures { IfOk result (λ n. n ≡ count + more) }
{
    count.checked_add(more).ok_or(AllocError)
}

fn count<T>(lines: &[LaidLine<T>]) -> Result<usize, AllocError>
    ensures { IfOk result (λ n. n ≡ content_count lines.now) }
{
    let mut count = 0;
    let mut rest = lines;
    while let Some((line, others)) = rest.split_first() {
        count = sum(count, weight(line))?;
        rest = others;
    }
    Ok(count)
}

fn weight<T>(line: &LaidLine<T>) -> usize
    ensures { result ≡ content_count (line.now ∷ []) }
{
    if line.content { 1 } else { 0 }
}
