//! Borders.
ghost use Rattle.std.specs.Prelude.{◌≡◌, ◌+◌, ◌≤◌, [], ◌∷◌, ◌++◌, IfOk, IfSome, OnOk, chars, drop, length, map};
ghost use Rattle.std.specs.Prelude.{replicate, string_bytes, take};
ghost use Rattle.text_lines.specs.Tagged.{line_items, line_columns, tagged, IsJoined};
ghost use Rattle.text_borders.specs.Segments.{glyph_of, segment_of};
ghost use Rattle.text_borders.specs.Borders.{hole_of, shown_from, glyphs, line_above};
ghost use Rattle.text_borders.specs.declared.segment.BorderSegHoriz.TheVariants as segments;

use crate::segment::BorderSegHoriz;
use std::alloc::{AllocError, Global};
use text_lines::{EqualCopy, TaggedLine};

/// A horizontal line of segments, each one column, with joins to what stands above and below it, and texts that stand
/// in holes of it.
#[derive(Drop)]
pub struct BorderHoriz<T> {
    segments: Vec<BorderSegHoriz>,
    /// The tag of the segments.
    tag: T,
    /// In order of their places.
    holes: Vec<Hole<T>>,
}

/// A text in a border, from a column on.
#[derive(Drop)]
pub(crate) struct Hole<T> {
    pub(crate) place: usize,
    pub(crate) line: TaggedLine<T>,
}

impl<T: EqualCopy + Drop> BorderHoriz<T> {
    ghost use Rattle.text_borders.specs.Borders.{border_of, has_holes, joined_above, joined_below, plain, stretched};
    ghost use Rattle.text_borders.specs.Borders.{with_segments};

    /// A border of `─` of so many columns. The error is allocation failure alone.
    pub fn new(alloc: Global, width: usize, tag: T) -> Result<BorderHoriz<T>, AllocError>
        ensures { IfOk result (λ border. border_of T.seen border
            ≡ plain (segment_of segments.Horiz) width (T.seen tag)) }
    {
        BorderHoriz::of_segments(alloc, width, BorderSegHoriz::Horiz, tag)
    }

    /// A border of `/`, between cells that stand below one another. The error is allocation failure alone.
    pub fn new_slashes(alloc: Global, width: usize, tag: T) -> Result<BorderHoriz<T>, AllocError>
        ensures { IfOk result (λ border. border_of T.seen border
            ≡ plain (segment_of segments.HorizVert) width (T.seen tag)) }
    {
        BorderHoriz::of_segments(alloc, width, BorderSegHoriz::HorizVert, tag)
    }

    fn of_segments(
        alloc: Global,
        width: usize,
        segment: BorderSegHoriz,
        tag: T,
    ) -> Result<BorderHoriz<T>, AllocError>
        ensures { IfOk result (λ border. border_of T.seen border ≡ plain (segment_of segment) width (T.seen tag)) }
    {
        let mut segments = Vec::with_capacity(alloc, width)?;
        push_segments(&mut segments, width, segment)?;
        Ok(BorderHoriz {
            segments,
            tag,
            holes: Vec::new(alloc),
        })
    }

    /// The columns of the border.
    pub fn width(&self) -> usize
        ensures { result ≡ length (border_of T.seen self.now).segments }
    {
        self.segments.len()
    }

    /// Whether a text stands in the border.
    pub fn has_holes(&self) -> bool
        ensures { result ≡ has_holes (border_of T.seen self.now) }
    {
        !self.holes.is_empty()
    }

    /// Makes the border at least so wide, by `─` at its end. The error is allocation failure alone.
    pub fn stretch_to(&mut self, width: usize) -> Result<(), AllocError>
        ensures { OnOk result (border_of T.seen self.new ≡ with_segments
            (stretched width (border_of T.seen self.old).segments) (border_of T.seen self.old)) }
    {
        let missing = width.saturating_sub(self.width());
        push_segments(&mut self.segments, missing, BorderSegHoriz::Horiz)
    }

    /// Joins the border to a line above at a column, to which it is stretched. The error is allocation failure alone.
    pub fn join_above(&mut self, column: usize) -> Result<(), AllocError>
        ensures { OnOk result (border_of T.seen self.new ≡ joined_above column (border_of T.seen self.old)) }
    {
        self.stretch_to(trailing(column)?)?;
        self.segments[column].join_above();
        Ok(())
    }

    /// Joins the border to a line below at a column, as `join_above`.
    pub fn join_below(&mut self, column: usize) -> Result<(), AllocError>
        ensures { OnOk result (border_of T.seen self.new ≡ joined_below column (border_of T.seen self.old)) }
    {
        self.stretch_to(trailing(column)?)?;
        self.segments[column].join_below();
        Ok(())
    }
}

impl<T: EqualCopy + Drop> BorderHoriz<T> {
    ghost use Rattle.text_borders.specs.Borders.{border_of, chopped_after, chopped_before, filled_to, holes_end};
    ghost use Rattle.text_borders.specs.Borders.{merged_above, merged_below, punched, punched_at};

    /// Takes in a border that stands below, from a column on: the border is joined to a line below where the other has
    /// `┴ ┬ ┼ └ ┘`. The error is allocation failure alone.
    pub fn merge_from_below(
        &mut self,
        other: &BorderHoriz<T>,
        place: usize,
    ) -> Result<(), AllocError>
        ensures { OnOk result (border_of T.seen self.new
            ≡ merged_below (border_of T.seen other.now).segments place (border_of T.seen self.old)) }
    {
        self.merge_segments_below(&other.segments, place)
    }

    fn merge_segments_below(
        &mut self,
        segments: &[BorderSegHoriz],
        place: usize,
    ) -> Result<(), AllocError>
        ensures { OnOk result (border_of T.seen self.new
            ≡ merged_below (map segment_of segments.now) place (border_of T.seen self.old)) }
    {
        let mut rest = segments;
        let mut column = place;
        while let Some((segment, others)) = rest.split_first() {
            self.take_below(segment, column)?;
            column = trailing(column)?;
            rest = others;
        }
        Ok(())
    }

    fn take_below(&mut self, segment: &BorderSegHoriz, column: usize) -> Result<(), AllocError>
        ensures { OnOk result (border_of T.seen self.new
            ≡ merged_below (segment_of segment.now ∷ []) column (border_of T.seen self.old)) }
    {
        if segment.joins_below() {
            self.join_below(column)
        } else {
            Ok(())
        }
    }

    /// Takes in a border that stands above, from a column on: the border is joined to a line above where the other has
    /// `┴ ┬ ┼ ┌ ┐`. The error is allocation failure alone.
    pub fn merge_from_above(
        &mut self,
        other: &BorderHoriz<T>,
        place: usize,
    ) -> Result<(), AllocError>
        ensures { OnOk result (border_of T.seen self.new
            ≡ merged_above (border_of T.seen other.now).segments place (border_of T.seen self.old)) }
    {
        self.merge_segments_above(&other.segments, place)
    }

    fn merge_segments_above(
        &mut self,
        segments: &[BorderSegHoriz],
        place: usize,
    ) -> Result<(), AllocError>
        ensures { OnOk result (border_of T.seen self.new
            ≡ merged_above (map segment_of segments.now) place (border_of T.seen self.old)) }
    {
        let mut rest = segments;
        let mut column = place;
        while let Some((segment, others)) = rest.split_first() {
            self.take_above(segment, column)?;
            column = trailing(column)?;
            rest = others;
        }
        Ok(())
    }

    fn take_above(&mut self, segment: &BorderSegHoriz, column: usize) -> Result<(), AllocError>
        ensures { OnOk result (border_of T.seen self.new
            ≡ merged_above (segment_of segment.now ∷ []) column (border_of T.seen self.old)) }
    {
        if segment.joins_above() {
            self.join_above(column)
        } else {
            Ok(())
        }
    }

    /// Puts a text into the border, from a column on, to whose end it is stretched: the segments beside it lose the arm
    /// that points to it. Where the text before ends after that column, it stands after that text. Texts are put in
    /// from left to right. The error is allocation failure alone.
    pub fn punch(&mut self, place: usize, line: TaggedLine<T>) -> Result<(), AllocError>
        ensures { OnOk result (border_of T.seen self.new
            ≡ punched place (line_items T.seen line) (border_of T.seen self.old)) }
    {
        let place = place.max(self.holes_end()?);
        self.punch_at(place, line)
    }

    fn punch_at(&mut self, place: usize, line: TaggedLine<T>) -> Result<(), AllocError>
        ensures { OnOk result (border_of T.seen self.new
            ≡ punched_at place (line_items T.seen line) (border_of T.seen self.old)) }
    {
        let end = place.checked_add(line.width()).ok_or(AllocError)?;
        self.stretch_to(end)?;
        self.chop_before(place);
        self.chop_after(end);
        self.holes.push(Hole { place, line })?;
        Ok(())
    }

    /// The column after the last text.
    fn holes_end(&self) -> Result<usize, AllocError>
        ensures { IfOk result (λ n. n ≡ holes_end 0 (border_of T.seen self.now).holes) }
    {
        match self.holes.split_last() {
            Some((last, _)) => last.end(),
            None => Ok(0),
        }
    }

    /// Fills the border up to the width with spaces of its tag, where it is narrower. They stand after it as a text,
    /// and take no arm off. The error is allocation failure alone.
    pub fn fill_to(&mut self, width: usize) -> Result<(), AllocError>
        ensures { OnOk result (border_of T.seen self.new ≡ filled_to width (border_of T.seen self.old)) }
    {
        let place = self.width();
        if width <= place {
            return Ok(());
        }
        let mut line = TaggedLine::new(*self.segments.allocator());
        line.push_spaces(width - place, &self.tag)?;
        self.stretch_to(width)?;
        self.holes.push(Hole { place, line })?;
        Ok(())
    }

    /// The segment before the column, where there is one, loses its right arm.
    fn chop_before(&mut self, column: usize)
        ensures { border_of T.seen self.new ≡ chopped_before column (border_of T.seen self.old) }
    {
        if column > 0 {
            self.chop_at(column - 1);
        }
    }

    /// The segment at the column, where there is one, loses its right arm.
    fn chop_at(&mut self, column: usize)
        ensures { border_of T.seen self.new ≡ chopped_before (column + 1) (border_of T.seen self.old) }
    {
        if column < self.segments.len() {
            self.segments[column].chop_right();
        }
    }

    /// The segment at the column, where there is one, loses its left arm.
    fn chop_after(&mut self, column: usize)
        ensures { border_of T.seen self.new ≡ chopped_after column (border_of T.seen self.old) }
    {
        if column < self.segments.len() {
            self.segments[column].chop_left();
        }
    }
}

impl<T: EqualCopy + Drop> BorderHoriz<T> {
    ghost use Rattle.text_borders.specs.Borders.{border_of, hole_of, shown, shown_from, glyphs, lines_above};

    /// The border as text: the characters of its segments, and the texts in their place. The error is allocation
    /// failure alone.
    pub fn into_tagged_line(self) -> Result<TaggedLine<T>, AllocError>
        ensures items { IfOk result (λ line. line_items T.seen line ≡ shown (border_of T.seen self)) }
        ensures joined { IfOk result (IsJoined T.seen) }
    {
        let alloc = *self.segments.allocator();
        let mut line = TaggedLine::new(alloc);
        push_shown(&mut line, alloc, &self.segments, &self.holes, &self.tag)?;
        Ok(line)
    }

    /// The vertical lines that come down to the border from above, as a text of the border's width with the tag: spaces
    /// stand between them. The error is allocation failure alone.
    pub fn lines_above(&self, tag: &T) -> Result<TaggedLine<T>, AllocError>
        ensures items { IfOk result (λ line. line_items T.seen line
            ≡ lines_above (T.seen tag.now) (border_of T.seen self.now)) }
        ensures joined { IfOk result (IsJoined T.seen) }
    {
        let mut line = TaggedLine::new(*self.segments.allocator());
        push_lines_above(&mut line, &self.segments, tag)?;
        Ok(line)
    }

    /// An equal border. The error is allocation failure alone.
    pub fn try_clone(&self) -> Result<BorderHoriz<T>, AllocError>
        ensures { IfOk result (λ copy. border_of T.seen copy ≡ border_of T.seen self.now) }
    {
        let alloc = *self.segments.allocator();
        Ok(BorderHoriz {
            segments: segments_of(alloc, &self.segments)?,
            tag: self.tag.copy(alloc)?,
            holes: copies_of(alloc, &self.holes)?,
        })
    }
}

/// Adds what is shown of segments, with texts that stand in place of some.
fn push_shown<T: EqualCopy + Drop>(
    line: &mut TaggedLine<T>,
    alloc: Global,
    segments: &[BorderSegHoriz],
    holes: &[Hole<T>],
    tag: &T,
) -> Result<(), AllocError>
    ensures items { OnOk result (line_items T.seen line.new ≡ line_items T.seen line.old
        ++ shown_from (T.seen tag.now) 0 (map segment_of segments.now) (map (hole_of T.seen) holes.now)) }
    ensures joined { IsJoined T.seen line.old → IsJoined T.seen line.new }
{
    let mut at = 0;
    let mut rest = segments;
    let mut left = holes;
    while let Some((hole, others)) = left.split_first() {
        let front = front_of(rest, hole.place.saturating_sub(at));
        push_glyphs(line, alloc, front, tag)?;
        line.push_line(&hole.line)?;
        let end = hole.end()?;
        rest = after_of(rest, end.saturating_sub(at));
        at = end;
        left = others;
    }
    push_glyphs(line, alloc, rest, tag)
}

impl<T: EqualCopy + Drop> Hole<T> {
    ghost use Rattle.text_borders.specs.Borders.{hole_of};

    /// The column after the text. No memory holds a border of more than a `usize` counts.
    fn end(&self) -> Result<usize, AllocError>
        ensures { IfOk result (λ n. n ≡ self.now.place + line_columns (line_items T.seen self.now.line)) }
    {
        self.place.checked_add(self.line.width()).ok_or(AllocError)
    }

    /// An equal text at its place. The error is allocation failure alone.
    fn try_clone(&self) -> Result<Hole<T>, AllocError>
        ensures { IfOk result (λ copy. hole_of T.seen copy ≡ hole_of T.seen self.now) }
    {
        Ok(Hole {
            place: self.place,
            line: self.line.try_clone()?,
        })
    }
}

/// The first segments, at most so many.
fn front_of(segments: &[BorderSegHoriz], count: usize) -> &[BorderSegHoriz]
    ensures { result.now ≡ take count segments.now }
{
    segments.split_at(count.min(segments.len())).0
}

/// The segments after the first so many.
fn after_of(segments: &[BorderSegHoriz], count: usize) -> &[BorderSegHoriz]
    ensures { result.now ≡ drop count segments.now }
{
    segments.split_at(count.min(segments.len())).1
}

/// Adds the characters of segments.
fn push_glyphs<T: EqualCopy + Drop>(
    line: &mut TaggedLine<T>,
    alloc: Global,
    segments: &[BorderSegHoriz],
    tag: &T,
) -> Result<(), AllocError>
    ensures items { OnOk result (line_items T.seen line.new ≡ line_items T.seen line.old
        ++ glyphs (T.seen tag.now) (map segment_of segments.now)) }
    ensures joined { IsJoined T.seen line.old → IsJoined T.seen line.new }
{
    let text = glyphs_of(alloc, segments)?;
    line.push_string(text, segments.len(), tag.copy(alloc)?)
}

/// The characters of segments, each of one column and three bytes.
fn glyphs_of(alloc: Global, segments: &[BorderSegHoriz]) -> Result<String, AllocError>
    ensures { IfOk result (λ text. chars (string_bytes text) ≡ map glyph_of (map segment_of segments.now)) }
{
    let mut text = String::with_capacity(alloc, segments.len().saturating_mul(3))?;
    let mut rest = segments;
    while let Some((segment, others)) = rest.split_first() {
        rest = push_next(&mut text, segment, others)?;
    }
    Ok(text)
}

/// Adds the character of the first segment, or those of the first eight where they are a horizontal line; what follows
/// them is left.
fn push_next<'a>(
    text: &mut String,
    first: &BorderSegHoriz,
    others: &'a [BorderSegHoriz],
) -> Result<&'a [BorderSegHoriz], AllocError>
    ensures text { IfOk result (λ left. chars (string_bytes text.new) ++ map glyph_of (map segment_of left.now)
        ≡ chars (string_bytes text.old) ++ map glyph_of (map segment_of (first.now ∷ others.now))) }
    ensures shorter { IfOk result (λ left. length left.now ≤ length others.now) }
{
    if let Some(left) = after_rule(first, others) {
        text.push_str(RULE)?;
        return Ok(left);
    }
    push_character(text, first.glyph())?;
    Ok(others)
}

fn push_character(text: &mut String, c: char) -> Result<(), AllocError>
    ensures { OnOk result (chars (string_bytes text.new) ≡ chars (string_bytes text.old) ++ c ∷ []) }
{
    text.push(c)?;
    Ok(())
}

/// Eight segments of a horizontal line.
const RULE: &str = "────────";

/// What follows the first eight segments, where these are a horizontal line.
fn after_rule<'a>(
    first: &BorderSegHoriz,
    others: &'a [BorderSegHoriz],
) -> Option<&'a [BorderSegHoriz]>
    ensures rule { IfSome result (λ left. first.now ∷ others.now ≡ replicate 8 segments.Horiz ++ left.now) }
{
    if *first != BorderSegHoriz::Horiz {
        return None;
    }
    match others {
        [
            BorderSegHoriz::Horiz,
            BorderSegHoriz::Horiz,
            BorderSegHoriz::Horiz,
            BorderSegHoriz::Horiz,
            BorderSegHoriz::Horiz,
            BorderSegHoriz::Horiz,
            BorderSegHoriz::Horiz,
            left @ ..,
        ] => Some(left),
        _ => None,
    }
}

/// Adds `│` where a vertical line comes down to a segment from above, else a space.
fn push_lines_above<T: EqualCopy + Drop>(
    line: &mut TaggedLine<T>,
    segments: &[BorderSegHoriz],
    tag: &T,
) -> Result<(), AllocError>
    ensures items { OnOk result (line_items T.seen line.new ≡ line_items T.seen line.old
        ++ tagged (map line_above (map segment_of segments.now)) (T.seen tag.now)) }
    ensures joined { IsJoined T.seen line.old → IsJoined T.seen line.new }
{
    let mut rest = segments;
    while let Some((segment, others)) = rest.split_first() {
        line.push_char(line_above(segment), tag)?;
        rest = others;
    }
    Ok(())
}

fn line_above(segment: &BorderSegHoriz) -> char
    ensures { result ≡ line_above (segment_of segment.now) }
{
    if segment.runs_above() { '│' } else { ' ' }
}

fn segments_of(
    alloc: Global,
    segments: &[BorderSegHoriz],
) -> Result<Vec<BorderSegHoriz>, AllocError>
    ensures { IfOk result (λ copies. copies.items ≡ segments.now) }
{
    let mut copies = Vec::new(alloc);
    copies.extend_from_slice(segments)?;
    Ok(copies)
}

fn copies_of<T: EqualCopy + Drop>(
    alloc: Global,
    holes: &[Hole<T>],
) -> Result<Vec<Hole<T>>, AllocError>
    ensures { IfOk result (λ copies. map (hole_of T.seen) copies.items ≡ map (hole_of T.seen) holes.now) }
{
    let mut copies = Vec::new(alloc);
    let mut rest = holes;
    while let Some((hole, others)) = rest.split_first() {
        copies.push(hole.try_clone()?)?;
        rest = others;
    }
    Ok(copies)
}

/// The next column. No memory holds a border of more than a `usize` counts.
fn trailing(column: usize) -> Result<usize, AllocError>
    ensures { IfOk result (λ n. n ≡ column + 1) }
{
    column.checked_add(1).ok_or(AllocError)
}

/// Adds segments that are alike.
fn push_segments(
    segments: &mut Vec<BorderSegHoriz>,
    count: usize,
    segment: BorderSegHoriz,
) -> Result<(), AllocError>
    ensures { OnOk result (segments.new.items ≡ segments.old.items ++ replicate count segment) }
{
    for _more in 0..count {
        segments.push(segment)?;
    }
    Ok(())
}
