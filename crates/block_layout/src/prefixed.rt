//! Lines of other blocks.
ghost use Rattle.std.specs.Prelude.{◌≡◌, ◌⊎◌, [], ◌∷◌, ◌++◌, ◌||◌, None, Some, chars, map, IfErr, OnOk, IfOk, IsTrue};
ghost use Rattle.text_lines.specs.Tagged.{line_items, tagged, IsJoined};
ghost use Rattle.text_borders.specs.Lines.{render_line_of, IsJoinedText};
ghost use Rattle.text_cells.specs.Cells.{laid_line_of, texts_of, parts_lines, block_lines_of};
ghost use Rattle.text_pieces.specs.Sources.{is_filled};
ghost use Rattle.block_layout.specs.Laid.{content_as_text};
ghost use Rattle.block_layout.specs.Seen.{AreLinesJoined};
ghost use Rattle.block_layout.specs.Whole.{IsText, TakesAll, settled, with_texts};
ghost use Rattle.text_pieces.specs.declared.fault.BlockError.TheVariants as errors;

use crate::block::BlockLayout;
use crate::measure::Measure;
use crate::texts::{finished, holds_text};
use std::alloc::{AllocError, Global};
use std::mem;
use text_borders::{BorderHoriz, RenderLine};
use text_cells::{BlockLines, LaidLine, Part, WideTexts};
use text_lines::{EqualCopy, TaggedLine};
use text_pieces::BlockError;

impl<T: EqualCopy + Drop> BlockLayout<T> {
    ghost use Rattle.block_layout.specs.Seen.{laid_of, HasJoinedTexts};
    ghost use Rattle.block_layout.specs.Laid.{flush, add_border, add_horizontal_border, add_block, add_prefixed};
    ghost use Rattle.block_layout.specs.LaidRows.{add_slashes};
    ghost use Rattle.text_borders.specs.Borders.{plain, horizontal};

    /// Adds a border of so many columns after the text that runs. Refused as `flush`.
    pub fn add_horizontal_border(
        &mut self,
        measure: Measure,
        tag: &T,
        width: usize,
    ) -> Result<(), BlockError>
        ensures kinds { IfErr result (λ e. (e ≡ errors.TooNarrow) ⊎ (e ≡ errors.Memory)) }
        ensures added { OnOk result (add_horizontal_border measure (T.seen tag.now) width (laid_of T.seen self.old)
            ≡ Some (laid_of T.seen self.new)) }
        ensures narrow { result ≡ Err errors.TooNarrow
            → add_horizontal_border measure (T.seen tag.now) width (laid_of T.seen self.old) ≡ None }
        ensures joined { HasJoinedTexts T.seen self.old → HasJoinedTexts T.seen self.new }
    {
        self.flush(measure, tag)?;
        self.put_border(tag, width)?;
        Ok(())
    }

    /// Adds a border of so many slashes. The error is allocation failure alone.
    pub fn add_slashes(&mut self, tag: &T, width: usize) -> Result<(), AllocError>
        ensures laid { OnOk result (laid_of T.seen self.new
            ≡ add_slashes width (T.seen tag.now) (laid_of T.seen self.old)) }
        ensures joined { HasJoinedTexts T.seen self.old → HasJoinedTexts T.seen self.new }
    {
        let alloc = *self.markers.allocator();
        let border = BorderHoriz::new_slashes(alloc, width, tag.copy(alloc)?)?;
        self.add_border(border)
    }

    /// Adds a border of so many columns where no text runs. The error is allocation failure alone.
    pub fn put_border(&mut self, tag: &T, width: usize) -> Result<(), AllocError>
        ensures laid { OnOk result (laid_of T.seen self.new
            ≡ add_border (plain horizontal width (T.seen tag.now)) (laid_of T.seen self.old)) }
        ensures joined { HasJoinedTexts T.seen self.old → HasJoinedTexts T.seen self.new }
    {
        let alloc = *self.markers.allocator();
        let border = BorderHoriz::new(alloc, width, tag.copy(alloc)?)?;
        self.add_border(border)
    }

    /// Adds the lines of another block, which has the first measure, after prefixes: the first line's and the others'.
    /// A border among them becomes text. The error is allocation failure alone.
    pub fn add_block(
        &mut self,
        other: Measure,
        measure: Measure,
        tag: &T,
        first: &str,
        following: &str,
        lines: BlockLines<T>,
    ) -> Result<(), AllocError>
        ensures laid { OnOk result (laid_of T.seen self.new ≡ add_block other measure (T.seen tag.now) (chars first.now)
            (chars following.now) (block_lines_of T.seen lines) (laid_of T.seen self.old)) }
        ensures joined { HasJoinedTexts T.seen self.old → HasJoinedTexts T.seen self.new }
    {
        if self.takes_all(measure, first, following) {
            return self.take_all(other, tag, lines);
        }
        let mut lines = lines;
        if let Some(line) = lines.take_only() {
            return self.add_prefixed(other, measure, tag, first, line);
        }
        let lines = lines.into_vec(*self.markers.allocator())?;
        self.add_each(other, measure, tag, first, following, lines)
    }

    // Adds lines of another block one by one.
    fn add_each(
        &mut self,
        other: Measure,
        measure: Measure,
        tag: &T,
        first: &str,
        following: &str,
        lines: Vec<LaidLine<T>>,
    ) -> Result<(), AllocError>
        ensures laid { OnOk result (laid_of T.seen self.new ≡ add_block other measure (T.seen tag.now) (chars first.now)
            (chars following.now) (map (laid_line_of T.seen) lines.items) (laid_of T.seen self.old)) }
        ensures joined { HasJoinedTexts T.seen self.old → HasJoinedTexts T.seen self.new }
    {
        let mut lines = lines.into_iter();
        let Some(line) = lines.next() else {
            return Ok(());
        };
        self.add_prefixed(other, measure, tag, first, line)?;
        for line in lines {
            self.add_prefixed(other, measure, tag, following, line)?;
        }
        Ok(())
    }

    // Whether lines of another block stand in this one as texts of it.
    fn takes_all(&self, measure: Measure, first: &str, following: &str) -> bool
        ensures { IsTrue result → TakesAll measure (chars first.now) (chars following.now) (laid_of T.seen self.now) }
    {
        if measure.pads || holds_text(first) || holds_text(following) {
            return false;
        }
        self.markers.is_empty()
    }

    // Adds lines of another block as texts.
    fn take_all(&mut self, other: Measure, tag: &T, lines: BlockLines<T>) -> Result<(), AllocError>
        ensures laid { OnOk result (laid_of T.seen self.new ≡ with_texts other (T.seen tag.now)
            (block_lines_of T.seen lines) (laid_of T.seen self.old)) }
        ensures joined { HasJoinedTexts T.seen self.old → HasJoinedTexts T.seen self.new }
    {
        let alloc = *self.markers.allocator();
        if lines.are_many() {
            let texts = settled_texts(alloc, other, tag, lines)?;
            return self.lines.push_texts(texts);
        }
        let few = lines.into_vec(alloc)?;
        let settled = settle_all(alloc, other, tag, few)?;
        self.lines.append(settled)
    }

    fn add_prefixed(
        &mut self,
        other: Measure,
        measure: Measure,
        tag: &T,
        prefix: &str,
        line: LaidLine<T>,
    ) -> Result<(), AllocError>
        ensures laid { OnOk result (laid_of T.seen self.new ≡ add_prefixed other measure (T.seen tag.now)
            (chars prefix.now) (laid_of T.seen self.old) (laid_line_of T.seen line)) }
        ensures joined { HasJoinedTexts T.seen self.old → HasJoinedTexts T.seen self.new }
    {
        let content = has_content_after(prefix, content_as_text(&line.line, line.content));
        let alloc = *self.markers.allocator();
        let text = finished(other, line.line)?.into_text(alloc, tag)?;
        let prefixed = after_prefix(alloc, prefix, tag, text)?;
        self.add_line(measure, tag, content, prefixed)
    }
}

/// The line after a prefix with the tag.
fn after_prefix<T: EqualCopy + Drop>(
    alloc: Global,
    prefix: &str,
    tag: &T,
    line: TaggedLine<T>,
) -> Result<TaggedLine<T>, AllocError>
    ensures items { IfOk result (λ prefixed. line_items T.seen prefixed
        ≡ tagged (chars prefix.now) (T.seen tag.now) ++ line_items T.seen line) }
    ensures joined { IfOk result (IsJoined T.seen) }
{
    let mut line = line;
    // The common case copies the prefix alone.
    if line.is_joined() {
        line.push_front(prefix, tag)?;
        return Ok(line);
    }
    let mut prefixed = TaggedLine::new(alloc);
    prefixed.push_str(prefix, tag)?;
    prefixed.append(&mut line)?;
    Ok(prefixed)
}

// Makes texts of many lines of another block.
fn settled_texts<T: EqualCopy + Drop>(
    alloc: Global,
    other: Measure,
    tag: &T,
    lines: BlockLines<T>,
) -> Result<WideTexts<T>, AllocError>
    ensures { IfOk result (λ all. texts_of T.seen all
        ≡ map (settled other (T.seen tag.now)) (block_lines_of T.seen lines)) }
{
    let (parts, last) = lines.into_parts()?;
    let mut all = settled_parts(alloc, other, tag, parts)?;
    push_settled(alloc, other, tag, &mut all, last)?;
    Ok(all)
}

fn settled_parts<T: EqualCopy + Drop>(
    alloc: Global,
    other: Measure,
    tag: &T,
    parts: Vec<Part<T>>,
) -> Result<WideTexts<T>, AllocError>
    ensures { IfOk result (λ all. texts_of T.seen all
        ≡ map (settled other (T.seen tag.now)) (parts_lines T.seen parts.items)) }
{
    let mut all = WideTexts::new(alloc);
    for part in parts {
        let Part { before, texts, .. } = part;
        push_settled(alloc, other, tag, &mut all, before)?;
        all = all.joined(texts)?;
    }
    Ok(all)
}

// Adds lines of another block as texts.
fn push_settled<T: EqualCopy + Drop>(
    alloc: Global,
    other: Measure,
    tag: &T,
    all: &mut WideTexts<T>,
    lines: Vec<LaidLine<T>>,
) -> Result<(), AllocError>
    ensures { OnOk result (texts_of T.seen all.new ≡ texts_of T.seen all.old
        ++ map (settled other (T.seen tag.now)) (map (laid_line_of T.seen) lines.items)) }
{
    for laid in lines {
        push_one_settled(alloc, other, tag, all, laid)?;
    }
    Ok(())
}

fn push_one_settled<T: EqualCopy + Drop>(
    alloc: Global,
    other: Measure,
    tag: &T,
    all: &mut WideTexts<T>,
    laid: LaidLine<T>,
) -> Result<(), AllocError>
    ensures { OnOk result (texts_of T.seen all.new ≡ texts_of T.seen all.old
        ++ settled other (T.seen tag.now) (laid_line_of T.seen laid) ∷ []) }
{
    let content = content_as_text(&laid.line, laid.content);
    let text = finished(other, laid.line)?.into_text(alloc, tag)?;
    all.push(text, content)
}

// Makes texts of lines of another block, where they stand.
fn settle_all<T: EqualCopy + Drop>(
    alloc: Global,
    other: Measure,
    tag: &T,
    mut lines: Vec<LaidLine<T>>,
) -> Result<Vec<LaidLine<T>>, AllocError>
    ensures lines { IfOk result (λ all. map (laid_line_of T.seen) all.items
        ≡ map (settled other (T.seen tag.now)) (map (laid_line_of T.seen) lines.items)) }
    ensures joined { IfOk result (λ all. AreLinesJoined T.seen all.items) }
{
    for line in lines.iter_mut() {
        settle(alloc, other, tag, line)?;
    }
    Ok(lines)
}

// Makes a text of a line of another block, where it stands.
fn settle<T: EqualCopy + Drop>(
    alloc: Global,
    other: Measure,
    tag: &T,
    line: &mut LaidLine<T>,
) -> Result<(), AllocError>
    ensures line { OnOk result (laid_line_of T.seen line.new
        ≡ settled other (T.seen tag.now) (laid_line_of T.seen line.old)) }
    ensures joined { OnOk result (IsJoinedText T.seen line.new.line) }
{
    // The common case.
    if is_joined_text(&line.line) {
        return Ok(());
    }
    let content = content_as_text(&line.line, line.content);
    let empty = RenderLine::Text(TaggedLine::new(alloc));
    let drawn = mem::replace(&mut line.line, empty);
    let mut text = finished(other, drawn)?.into_text(alloc, tag)?;
    let mut joined = TaggedLine::new(alloc);
    joined.append(&mut text)?;
    line.line = RenderLine::Text(joined);
    line.content = content;
    Ok(())
}

// Whether the line is a text that is joined.
fn is_joined_text<T: EqualCopy + Drop>(line: &RenderLine<T>) -> bool
    ensures text { IsTrue result → IsText (render_line_of T.seen line.now) }
    ensures joined { IsTrue result → IsJoinedText T.seen line.now }
{
    match line {
        RenderLine::Text(line) => line.is_joined(),
        RenderLine::Line(_) => false,
    }
}

/// Whether a line that is made text has content.
fn content_as_text<T: EqualCopy + Drop>(line: &RenderLine<T>, content: bool) -> bool
    ensures { result ≡ content_as_text (render_line_of T.seen line.now) content }
{
    match line {
        RenderLine::Text(_) => content,
        RenderLine::Line(border) => border.width() > 0,
    }
}

/// Whether a line after a prefix has content.
fn has_content_after(prefix: &str, content: bool) -> bool
    ensures { result ≡ (content || is_filled (chars prefix.now)) }
{
    content || holds_text(prefix)
}
