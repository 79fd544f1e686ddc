//! The lines of a block or of a cell.
ghost use Rattle.std.specs.Prelude.{◌≡◌, ◌<◌, [], ◌∷◌, ◌++◌, length, map, IfOk, OnOk};
ghost use Rattle.std.specs.Option.{option_map};
ghost use Rattle.text_lines.specs.Tagged.{line_items, IsJoined};
ghost use Rattle.text_borders.specs.Borders.{border_of};
ghost use Rattle.text_borders.specs.Lines.{render_line_of, IsJoinedText};
ghost use Rattle.text_cells.specs.Texts.{laid_line_of, laid_text_of, row_text, in_row};
ghost use Rattle.text_cells.specs.Ends.{first_border, without_first};
ghost use Rattle.text_cells.specs.Cells.{texts_of, part_lines, AreLinesJoined};

use crate::laid_line::{LaidLine, LaidText};
use crate::line_queue::LineQueue;
use crate::line_vec::LineVec;
use crate::part::Part;
use crate::wide_texts::WideTexts;
use std::alloc::{AllocError, Global};
use std::collections::VecDeque;
use std::mem;
use text_borders::{BorderHoriz, RenderLine};
use text_lines::{EqualCopy, TaggedLine};
use text_pieces::has_text;

/// The lines of a block or of a cell, in order.
pub struct BlockLines<T> {
    parts: Vec<Part<T>>,
    /// The lines after the parts.
    lines: LineVec<T>,
}

impl<T: Drop> Drop for BlockLines<T> {
    // One call wherever they are dropped.
    fn drop(self) {
        let BlockLines { parts: _, lines: _ } = self;
    }
}

impl<T: EqualCopy + Drop> BlockLines<T> {
    ghost use Rattle.std.specs.Prelude.{◌+◌, not, None, IfSome, IsNone, OnErr};
    ghost use Rattle.text_cells.specs.Texts.{content_count};
    ghost use Rattle.text_pieces.specs.Sources.{is_filled};
    ghost use Rattle.text_cells.specs.Ends.{last_border};
    ghost use Rattle.text_cells.specs.Cells.{AreBlockLinesJoined, block_content, block_lines_of, parts_lines};
    ghost use Rattle.text_cells.specs.Cells.{texts_content};

    /// No lines.
    pub fn new(alloc: Global) -> BlockLines<T>
        ensures lines { block_lines_of T.seen result ≡ [] }
        ensures count { block_content result ≡ 0 }
        ensures joined { AreBlockLinesJoined T.seen result }
    {
        BlockLines {
            parts: Vec::new(alloc),
            lines: LineVec::new(alloc),
        }
    }

    /// These lines.
    pub fn of_lines(lines: Vec<LaidLine<T>>) -> BlockLines<T>
        ensures { block_lines_of T.seen result ≡ map (laid_line_of T.seen) lines.items }
    {
        let parts = Vec::new(*lines.allocator());
        let lines = LineVec::of_lines(lines);
        BlockLines { parts, lines }
    }

    /// The lines of a queue.
    pub(crate) fn of_queue(alloc: Global, lines: LineQueue<T>) -> BlockLines<T>
        ensures { block_lines_of T.seen result ≡ map (laid_line_of T.seen) lines }
    {
        BlockLines {
            parts: Vec::new(alloc),
            lines: LineVec::of_queue(lines),
        }
    }

    /// Whether there is none.
    pub fn is_empty(&self) -> bool
        ensures { result ≡ not (is_filled (block_lines_of T.seen self.now)) }
    {
        if !self.parts.is_empty() {
            return false;
        }
        self.lines.is_empty()
    }

    /// Whether they are so many that it takes less to keep them as wide texts than to take each again.
    pub fn are_many(&self) -> bool {
        self.lines.len() >= MANY || !self.parts.is_empty()
    }

    /// Adds a line at the end. The error is allocation failure.
    #[inline(always)]
    pub fn push(&mut self, line: LaidLine<T>) -> Result<(), AllocError>
        ensures lines { OnOk result (block_lines_of T.seen self.new
            ≡ block_lines_of T.seen self.old ++ laid_line_of T.seen line ∷ []) }
        ensures count { OnOk result (block_content self.new ≡ block_content self.old + content_count (line ∷ [])) }
        ensures kept { OnErr result (block_content self.new ≡ block_content self.old) }
        ensures joined { AreBlockLinesJoined T.seen self.old → IsJoinedText T.seen line.line
            → AreBlockLinesJoined T.seen self.new }
    {
        self.lines.push(line)
    }

    /// Adds lines at the end. The error is allocation failure.
    pub fn push_all(&mut self, lines: Vec<LaidLine<T>>) -> Result<(), AllocError>
        ensures lines { OnOk result (block_lines_of T.seen self.new
            ≡ block_lines_of T.seen self.old ++ map (laid_line_of T.seen) lines.items) }
        ensures count { OnOk result (block_content self.new ≡ block_content self.old + content_count lines.items) }
        ensures kept { OnErr result (block_content self.new ≡ block_content self.old) }
        ensures joined { AreBlockLinesJoined T.seen self.old → AreLinesJoined T.seen lines.items
            → AreBlockLinesJoined T.seen self.new }
    {
        self.lines.append(lines)
    }

    /// Adds texts at the end. The error is allocation failure.
    pub fn push_texts(&mut self, texts: WideTexts<T>) -> Result<(), AllocError>
        ensures lines { OnOk result (block_lines_of T.seen self.new
            ≡ block_lines_of T.seen self.old ++ texts_of T.seen texts) }
        ensures count { OnOk result (block_content self.new ≡ block_content self.old + texts_content texts) }
        ensures kept { OnErr result (block_content self.new ≡ block_content self.old) }
        ensures joined { AreBlockLinesJoined T.seen self.old → AreBlockLinesJoined T.seen self.new }
    {
        if texts.is_empty() {
            return Ok(());
        }
        self.parts.reserve(1)?;
        let before = self.lines.take_vec(*self.parts.allocator())?;
        self.parts.push_reserved(part(before, texts));
        Ok(())
    }

    /// Takes the last line off, where that is none of wide texts.
    pub fn pop(&mut self) -> Option<LaidLine<T>>
        ensures last { IfSome result (λ l. block_lines_of T.seen self.old
            ≡ block_lines_of T.seen self.new ++ laid_line_of T.seen l ∷ []) }
        ensures count { IfSome result (λ l. block_content self.old
            ≡ block_content self.new + content_count (l ∷ [])) }
        ensures none { IsNone result → last_border (block_lines_of T.seen self.old) ≡ None }
        ensures same { IsNone result → block_lines_of T.seen self.new ≡ block_lines_of T.seen self.old }
        ensures same_count { IsNone result → block_content self.new ≡ block_content self.old }
        ensures joined { AreBlockLinesJoined T.seen self.old → AreBlockLinesJoined T.seen self.new }
        ensures taken { AreBlockLinesJoined T.seen self.old → IfSome result (λ l. IsJoinedText T.seen l.line) }
    {
        self.lines.pop()
    }

    /// Takes the only line off, where it stands by itself: one that was the first to be pushed.
    pub fn take_only(&mut self) -> Option<LaidLine<T>>
        ensures only { IfSome result (λ l. block_lines_of T.seen self.old ≡ laid_line_of T.seen l ∷ []) }
        ensures same { IsNone result → block_lines_of T.seen self.new ≡ block_lines_of T.seen self.old }
    {
        if !self.parts.is_empty() {
            return None;
        }
        self.lines.take_only()
    }

    /// Takes the first line off, where that is a border. The error is allocation failure.
    pub(crate) fn take_first_border(&mut self) -> Result<Option<BorderHoriz<T>>, AllocError>
        ensures first { IfOk result (λ top. option_map (border_of T.seen) top
            ≡ first_border (block_lines_of T.seen self.old)) }
        ensures rest { OnOk result (block_lines_of T.seen self.new
            ≡ without_first (block_lines_of T.seen self.old)) }
    {
        let alloc = *self.parts.allocator();
        let parts = mem::replace(&mut self.parts, Vec::new(alloc));
        let mut parts = VecDeque::from_vec(parts);
        let Some(first) = parts.pop_front() else {
            return self.first_of_lines();
        };
        let Part { before, texts } = first;
        let (border, before) = border_first(LineVec::of_lines(before))?;
        parts.push_front(part(before.into_vec()?, texts))?;
        self.parts = parts.into_vec();
        Ok(border)
    }

    fn first_of_lines(&mut self) -> Result<Option<BorderHoriz<T>>, AllocError>
        ensures first { IfOk result (λ top. option_map (border_of T.seen) top
            ≡ first_border (map (laid_line_of T.seen) self.old.lines)) }
        ensures rest { OnOk result (map (laid_line_of T.seen) self.new.lines
            ≡ without_first (map (laid_line_of T.seen) self.old.lines)) }
        ensures same { self.new.parts ≡ self.old.parts }
    {
        let none = LineVec::new(*self.parts.allocator());
        let (border, lines) = border_first(mem::replace(&mut self.lines, none))?;
        self.lines = lines;
        Ok(border)
    }

    /// The lines one by one; a wide text is joined. The error is allocation failure.
    pub fn into_vec(self, alloc: Global) -> Result<Vec<LaidLine<T>>, AllocError>
        ensures lines { IfOk result (λ all. map (laid_line_of T.seen) all.items ≡ block_lines_of T.seen self) }
        ensures joined { AreBlockLinesJoined T.seen self → IfOk result (λ all. AreLinesJoined T.seen all.items) }
    {
        let BlockLines { parts, lines } = self;
        let mut last = lines.into_vec()?;
        if parts.is_empty() {
            return Ok(last);
        }
        let mut all = Vec::new(alloc);
        for part in parts {
            push_part(alloc, &mut all, part)?;
        }
        all.append(&mut last)?;
        Ok(all)
    }

    /// The lines one by one, as `into_vec`.
    pub(crate) fn into_queue(self, alloc: Global) -> Result<LineQueue<T>, AllocError>
        ensures { IfOk result (λ all. map (laid_line_of T.seen) all ≡ block_lines_of T.seen self) }
    {
        if !self.parts.is_empty() {
            return Ok(LineVec::of_lines(self.into_vec(alloc)?).into_queue());
        }
        let BlockLines { parts: _, lines } = self;
        Ok(lines.into_queue())
    }

    /// The lines as those of a row of one cell. The error is allocation failure.
    pub(crate) fn into_row(
        self,
        alloc: Global,
        width: usize,
        tag: &T,
    ) -> Result<WideTexts<T>, AllocError>
        ensures { IfOk result (λ all. texts_of T.seen all
            ≡ map (in_row width (T.seen tag.now)) (block_lines_of T.seen self)) }
    {
        let BlockLines { parts, lines } = self;
        let mut all = WideTexts::new(alloc);
        for part in parts {
            let Part { before, texts } = part;
            push_lines(alloc, width, tag, &mut all, before)?;
            all = all.joined(row_texts(alloc, width, tag, texts)?)?;
        }
        push_lines(alloc, width, tag, &mut all, lines.into_vec()?)?;
        Ok(all)
    }

    /// The parts, and the lines after them. The error is allocation failure.
    pub fn into_parts(self) -> Result<(Vec<Part<T>>, Vec<LaidLine<T>>), AllocError>
        ensures { IfOk result (λ r. parts_lines T.seen r.0.items ++ map (laid_line_of T.seen) r.1.items
            ≡ block_lines_of T.seen self) }
    {
        let BlockLines { parts, lines } = self;
        Ok((parts, lines.into_vec()?))
    }
}

/// From so many lines on a row of one cell, and a block without a prefix, gives wide texts.
const MANY: usize = 32;

/// Lines, and texts after them.
fn part<T>(before: Vec<LaidLine<T>>, texts: WideTexts<T>) -> Part<T>
    requires { 0 < length texts.lines.items }
    ensures before { result.before ≡ before }
    ensures texts { result.texts ≡ texts }
{
    Part { before, texts }
}

/// Takes the first line off, where that is a border. The error is allocation failure.
fn border_first<T: EqualCopy + Drop>(
    lines: LineVec<T>,
) -> Result<(Option<BorderHoriz<T>>, LineVec<T>), AllocError>
    ensures first { IfOk result (λ r. option_map (border_of T.seen) r.0
        ≡ first_border (map (laid_line_of T.seen) lines)) }
    ensures rest { IfOk result (λ r. map (laid_line_of T.seen) r.1
        ≡ without_first (map (laid_line_of T.seen) lines)) }
{
    let mut queue = lines.into_queue();
    let Some(LaidLine { line, content }) = queue.pop_front() else {
        return Ok((None, LineVec::of_queue(queue)));
    };
    match line {
        RenderLine::Line(border) => Ok((Some(border), LineVec::of_queue(queue))),
        RenderLine::Text(text) => {
            let line = RenderLine::Text(text);
            queue.push_front(LaidLine { line, content })?;
            Ok((None, LineVec::of_queue(queue)))
        }
    }
}

fn push_part<T: EqualCopy + Drop>(
    alloc: Global,
    all: &mut Vec<LaidLine<T>>,
    part: Part<T>,
) -> Result<(), AllocError>
    ensures lines { OnOk result (map (laid_line_of T.seen) all.new.items
        ≡ map (laid_line_of T.seen) all.old.items ++ part_lines T.seen part) }
    ensures joined { AreLinesJoined T.seen all.old.items → AreLinesJoined T.seen part.before.items
        → AreLinesJoined T.seen all.new.items }
{
    let Part { before, texts } = part;
    let mut before = before;
    all.append(&mut before)?;
    push_joined(alloc, all, texts)
}

/// Adds texts one by one, each joined.
fn push_joined<T: EqualCopy + Drop>(
    alloc: Global,
    all: &mut Vec<LaidLine<T>>,
    texts: WideTexts<T>,
) -> Result<(), AllocError>
    ensures lines { OnOk result (map (laid_line_of T.seen) all.new.items
        ≡ map (laid_line_of T.seen) all.old.items ++ texts_of T.seen texts) }
    ensures joined { AreLinesJoined T.seen all.old.items → AreLinesJoined T.seen all.new.items }
{
    let mut queue = texts.into_queue();
    while let Some(text) = queue.pop_front() {
        push_text(alloc, all, text)?;
    }
    Ok(())
}

fn push_text<T: EqualCopy + Drop>(
    alloc: Global,
    all: &mut Vec<LaidLine<T>>,
    text: LaidText<T>,
) -> Result<(), AllocError>
    ensures lines { OnOk result (map (laid_line_of T.seen) all.new.items
        ≡ map (laid_line_of T.seen) all.old.items ++ laid_text_of T.seen text ∷ []) }
    ensures joined { AreLinesJoined T.seen all.old.items → AreLinesJoined T.seen all.new.items }
{
    let LaidText { line, content } = text;
    let line = RenderLine::Text(joined_line(alloc, line)?);
    all.push(LaidLine { line, content })?;
    Ok(())
}

/// The same line in which no text is empty, and none stands next to one with an equal tag. The error is allocation
/// failure.
pub fn joined_line<T: EqualCopy + Drop>(
    alloc: Global,
    line: TaggedLine<T>,
) -> Result<TaggedLine<T>, AllocError>
    ensures items { IfOk result (λ all. line_items T.seen all ≡ line_items T.seen line) }
    ensures joined { IfOk result (IsJoined T.seen) }
{
    // The common case.
    if line.is_joined() {
        return Ok(line);
    }
    let mut line = line;
    let mut all = TaggedLine::new(alloc);
    all.append(&mut line)?;
    Ok(all)
}

/// Adds lines as those of a row of one cell.
fn push_lines<T: EqualCopy + Drop>(
    alloc: Global,
    width: usize,
    tag: &T,
    all: &mut WideTexts<T>,
    lines: Vec<LaidLine<T>>,
) -> Result<(), AllocError>
    ensures { OnOk result (texts_of T.seen all.new ≡ texts_of T.seen all.old
        ++ map (in_row width (T.seen tag.now)) (map (laid_line_of T.seen) lines.items)) }
{
    for laid in lines {
        push_line(alloc, width, tag, all, laid.line)?;
    }
    Ok(())
}

fn push_line<T: EqualCopy + Drop>(
    alloc: Global,
    width: usize,
    tag: &T,
    all: &mut WideTexts<T>,
    line: RenderLine<T>,
) -> Result<(), AllocError>
    ensures { OnOk result (texts_of T.seen all.new ≡ texts_of T.seen all.old
        ++ row_text width (T.seen tag.now) (render_line_of T.seen line) ∷ []) }
{
    let text = line.into_widened(alloc, width, tag)?;
    let content = has_text(&text);
    all.push(text, content)
}

/// Texts as those of a row of one cell.
fn row_texts<T: EqualCopy + Drop>(
    alloc: Global,
    width: usize,
    tag: &T,
    texts: WideTexts<T>,
) -> Result<WideTexts<T>, AllocError>
    ensures { IfOk result (λ all. texts_of T.seen all
        ≡ map (in_row width (T.seen tag.now)) (texts_of T.seen texts)) }
{
    if texts.are_kept(width) {
        return Ok(texts);
    }
    let mut all = WideTexts::new(alloc);
    let mut queue = texts.into_queue();
    while let Some(text) = queue.pop_front() {
        push_line(alloc, width, tag, &mut all, RenderLine::Text(text.line))?;
    }
    Ok(all)
}
