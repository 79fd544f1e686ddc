//! Lines of blocks.
ghost use Rattle.std.specs.Prelude.{◌≡◌, ◌-◌, ◌++◌, IfOk};
ghost use Rattle.text_lines.specs.Tagged.{line_items, line_columns, IsJoined};
ghost use Rattle.text_borders.specs.Borders.{border_of, shown};
ghost use Rattle.text_borders.specs.Lines.{border};
ghost use Rattle.text_borders.specs.Across.{spaces, widened, retagged, as_text};

use crate::border::BorderHoriz;
use std::alloc::{AllocError, Global};
use text_lines::{EqualCopy, TaggedLine};

/// A line of a block.
#[derive(Drop)]
pub enum RenderLine<T> {
    /// Text.
    Text(TaggedLine<T>),
    /// A border, which is joined to the lines of tables above and below it.
    Line(BorderHoriz<T>),
}

impl<T: EqualCopy + Drop> RenderLine<T> {
    ghost use Rattle.text_borders.specs.Lines.{render_line_of, line_shown, line_width, IsJoinedText};

    /// The line as text: of a border the characters of its segments, and the texts in their place. The error is
    /// allocation failure alone.
    pub fn into_tagged_line(self) -> Result<TaggedLine<T>, AllocError>
        ensures items { IfOk result (λ line. line_items T.seen line ≡ line_shown (render_line_of T.seen self)) }
        ensures joined { IsJoinedText T.seen self → IfOk result (IsJoined T.seen) }
    {
        match self {
            RenderLine::Text(line) => Ok(line),
            RenderLine::Line(border) => border.into_tagged_line(),
        }
    }

    /// The line as text of so many columns where it has no more: text is filled with spaces of the tag, a border goes
    /// on as `─`, and has the tag. The markers of a border are lost. The error is allocation failure alone.
    pub fn into_widened(
        self,
        alloc: Global,
        width: usize,
        tag: &T,
    ) -> Result<TaggedLine<T>, AllocError>
        ensures items { IfOk result (λ line. line_items T.seen line
            ≡ widened width (T.seen tag.now) (render_line_of T.seen self)) }
        ensures joined { IsJoinedText T.seen self → IfOk result (IsJoined T.seen) }
    {
        match self {
            RenderLine::Text(line) => filled(line, width, tag),
            RenderLine::Line(border) => stretched_text(alloc, border, width, tag),
        }
    }

    /// The line as text; of a border the characters alone, under the tag. The markers of a border are lost. The error
    /// is allocation failure alone.
    pub fn into_text(self, alloc: Global, tag: &T) -> Result<TaggedLine<T>, AllocError>
        ensures items { IfOk result (λ line. line_items T.seen line
            ≡ as_text (T.seen tag.now) (render_line_of T.seen self)) }
        ensures joined { IsJoinedText T.seen self → IfOk result (IsJoined T.seen) }
    {
        match self {
            RenderLine::Text(line) => Ok(line),
            RenderLine::Line(border) => text_of(alloc, border, tag),
        }
    }

    /// The columns of the line.
    pub fn width(&self) -> usize
        ensures { result ≡ line_width (render_line_of T.seen self.now) }
    {
        match self {
            RenderLine::Text(line) => line.width(),
            RenderLine::Line(border) => border.width(),
        }
    }

    /// An equal line. The error is allocation failure alone.
    pub fn try_clone(&self) -> Result<RenderLine<T>, AllocError>
        ensures line { IfOk result (λ copy. render_line_of T.seen copy ≡ render_line_of T.seen self.now) }
        ensures joined { IsJoinedText T.seen self.now → IfOk result (IsJoinedText T.seen) }
    {
        match self {
            RenderLine::Text(line) => Ok(RenderLine::Text(line.try_clone()?)),
            RenderLine::Line(border) => Ok(RenderLine::Line(border.try_clone()?)),
        }
    }
}

/// The text, filled with spaces.
fn filled<T: EqualCopy + Drop>(
    line: TaggedLine<T>,
    width: usize,
    tag: &T,
) -> Result<TaggedLine<T>, AllocError>
    ensures items { IfOk result (λ filled. line_items T.seen filled ≡ line_items T.seen line
        ++ spaces (width - line_columns (line_items T.seen line)) (T.seen tag.now)) }
    ensures joined { IsJoined T.seen line → IfOk result (IsJoined T.seen) }
{
    let mut filled = line;
    let missing = width.saturating_sub(filled.width());
    filled.push_spaces(missing, tag)?;
    Ok(filled)
}

/// The border as text, under the tag.
fn text_of<T: EqualCopy + Drop>(
    alloc: Global,
    drawn: BorderHoriz<T>,
    tag: &T,
) -> Result<TaggedLine<T>, AllocError>
    ensures items { IfOk result (λ line. line_items T.seen line
        ≡ retagged (T.seen tag.now) (shown (border_of T.seen drawn))) }
    ensures joined { IfOk result (IsJoined T.seen) }
{
    retagged(alloc, &drawn.into_tagged_line()?, tag)
}

/// The border as text, with `─` up to the width.
fn stretched_text<T: EqualCopy + Drop>(
    alloc: Global,
    drawn: BorderHoriz<T>,
    width: usize,
    tag: &T,
) -> Result<TaggedLine<T>, AllocError>
    ensures items { IfOk result (λ line. line_items T.seen line
        ≡ widened width (T.seen tag.now) (border (border_of T.seen drawn))) }
    ensures joined { IfOk result (IsJoined T.seen) }
{
    let mut stretched = drawn;
    stretched.stretch_to(width)?;
    text_of(alloc, stretched, tag)
}

/// The characters of the line under one tag; markers are left out.
fn retagged<T: EqualCopy + Drop>(
    alloc: Global,
    line: &TaggedLine<T>,
    tag: &T,
) -> Result<TaggedLine<T>, AllocError>
    ensures items { IfOk result (λ made. line_items T.seen made
        ≡ retagged (T.seen tag.now) (line_items T.seen line.now)) }
    ensures joined { IfOk result (IsJoined T.seen) }
{
    let mut made = TaggedLine::new(alloc);
    for element in line.iter() {
        made.push_str(element.as_str(), tag)?;
    }
    Ok(made)
}
