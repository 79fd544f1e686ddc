//! Source lines that are one line, as they stand.
ghost use Rattle.std.specs.Prelude.{◌≡◌, ◌≤◌, ◌∷◌, ◌++◌, [], All, IfOk, IfSome, IsTrue, None, OnOk, chars, length, map};
ghost use Rattle.std.specs.Prelude.{take, true};
ghost use Rattle.text_lines.specs.Columns.{text_columns};
ghost use Rattle.text_lines.specs.Tagged.{line_items, IsJoined};
ghost use Rattle.text_pieces.specs.Sources.{fragment, sourced, sources_of, names};
ghost use Rattle.text_preserved.specs.Fronts.{BeginsSolid};
ghost use Rattle.text_preserved.specs.PlainLines.{IsOnlyLine, IsPlainCut, IsPlainFront, IsPrintable, MakesLine};
ghost use Rattle.text_preserved.specs.PlainLines.{lead_items};
ghost use Rattle.text_preserved.specs.Trimming.{IsFrontOf};

use crate::fronts::begins_solid;
use crate::reading::solid_front;
use std::alloc::{AllocError, Global};
use text_lines::{EqualCopy, TaggedLine, columns_of};
use text_pieces::{LaidText, Piece, TextPiece};

/// The line of a source line of one text, where that is printable ASCII of which all fits on one line; `None` says
/// nothing of the text. Fails only if allocation fails.
pub fn lay_line<T: EqualCopy + Drop>(
    alloc: Global,
    width: usize,
    wraps: bool,
    text: &str,
    tag: &T,
) -> Result<Option<TaggedLine<T>>, AllocError>
    ensures line { IfOk result (λ found. IfSome found (λ line. (further : T.Seen)
        → IsOnlyLine width wraps (sourced (chars text.now) (T.seen tag.now) further) (line_items T.seen line))) }
    ensures joined { IfOk result (λ found. IfSome found (IsJoined T.seen)) }
{
    let Some(front) = plain_front(text, width, wraps) else {
        return Ok(None);
    };
    let columns = columns_of(front);
    if columns > width {
        return Ok(None);
    }
    let mut line = TaggedLine::new(alloc);
    line.push_counted(front, columns, tag)?;
    Ok(Some(line))
}

/// The same after a marker, where the text begins with a character that is shown.
fn lay_marked_line<T: EqualCopy + Drop>(
    alloc: Global,
    width: usize,
    wraps: bool,
    name: &str,
    text: &str,
    tag: &T,
) -> Result<Option<TaggedLine<T>>, AllocError>
    ensures line { IfOk result (λ found. IfSome found (λ line. (further : T.Seen) → IsOnlyLine width wraps
        (fragment (chars name.now) ∷ sourced (chars text.now) (T.seen tag.now) further) (line_items T.seen line))) }
    ensures joined { IfOk result (λ found. IfSome found (IsJoined T.seen)) }
{
    let Some(front) = shown_front(text, width, wraps) else {
        return Ok(None);
    };
    let columns = columns_of(front);
    if columns > width {
        return Ok(None);
    }
    let mut line = TaggedLine::new(alloc);
    line.push_marker(name)?;
    line.push_counted(front, columns, tag)?;
    Ok(Some(line))
}

/// The text as `plain_front` gives it, where it begins with a character that is shown.
fn shown_front(text: &str, width: usize, wraps: bool) -> Option<&str>
    ensures front { IfSome result (λ front. IsPlainFront width wraps (chars text.now) (chars front.now)) }
    ensures front_of { IfSome result (λ front. IsFrontOf text.now front.now) }
    ensures begins { IfSome result (λ front. BeginsSolid width wraps (chars front.now)) }
{
    let Some(front) = plain_front(text, width, wraps) else {
        return None;
    };
    if begins_solid(front, width, wraps) {
        return Some(front);
    }
    None
}

/// The text without the spaces at its end, where it is printable ASCII, something is left, and no character can be
/// wider than a line.
fn plain_front(text: &str, width: usize, wraps: bool) -> Option<&str>
    ensures front { IfSome result (λ front. IsPlainFront width wraps (chars text.now) (chars front.now)) }
    ensures front_of { IfSome result (λ front. IsFrontOf text.now front.now) }
{
    if width < 2 || !is_printable(text) {
        return None;
    }
    let front = solid_front(text, width, wraps);
    if front.is_empty() { None } else { Some(front) }
}

fn is_printable(text: &str) -> bool
    ensures { IsTrue result → All IsPrintable (chars text.now) }
{
    let mut rest = text.as_bytes();
    while let Some((byte, others)) = rest.split_first() {
        if !is_printable_byte(*byte) {
            return false;
        }
        rest = others;
    }
    true
}

#[inline(always)]
fn is_printable_byte(byte: u8) -> bool
    ensures { IsTrue result → IsPrintable byte }
{
    byte == b' ' || matches!(byte, b'!'..=b'~')
}

/// The line of a source line as `lay_line` gives it, where the source line is one text, or a marker and a text.
pub(crate) fn only_line<T: EqualCopy + Drop>(
    alloc: Global,
    width: usize,
    wraps: bool,
    pieces: &[Piece<T>],
) -> Result<Option<TaggedLine<T>>, AllocError>
    ensures line { IfOk result (λ found. IfSome found (λ line.
        IsOnlyLine width wraps (sources_of T.seen pieces.now) (line_items T.seen line))) }
    ensures joined { IfOk result (λ found. IfSome found (IsJoined T.seen)) }
{
    match pieces {
        [Piece::Text(piece)] => {
            lay_line(alloc, width, wraps, piece.text.as_str(), &piece.main_tag)
        }
        [Piece::Fragment(name), Piece::Text(piece)] => {
            let text = piece.text.as_str();
            lay_marked_line(alloc, width, wraps, name.as_str(), text, &piece.main_tag)
        }
        _ => Ok(None),
    }
}

/// Takes the line of a source line of one text, or of a marker and a text, as `lay_line` gives it: the pieces are moved
/// into it. Where there is none, the pieces stay. Fails only if allocation fails, and may have taken the pieces then.
pub fn take_line<T: EqualCopy + Drop>(
    alloc: Global,
    width: usize,
    wraps: bool,
    pieces: &mut Vec<Piece<T>>,
) -> Result<Option<TaggedLine<T>>, AllocError>
    ensures line { IfOk result (λ found. IfSome found (λ line.
        IsOnlyLine width wraps (sources_of T.seen pieces.old.items) (line_items T.seen line))) }
    ensures taken { IfOk result (λ found. IfSome found (λ _. pieces.new.items ≡ [])) }
    ensures stays { IfOk result (λ found. found ≡ None → pieces.new.items ≡ pieces.old.items) }
    ensures joined { IfOk result (λ found. IfSome found (IsJoined T.seen)) }
{
    let Some((length, columns)) = line_cut(pieces, width, wraps) else {
        return Ok(None);
    };
    let Some(Piece::Text(piece)) = pieces.pop() else {
        return Ok(None);
    };
    let TextPiece {
        mut text,
        main_tag,
        wrap_tag: _,
    } = piece;
    let mut line = TaggedLine::new(alloc);
    push_lead(&mut line, pieces.pop())?;
    text.truncate(length);
    line.push_string(text, columns, main_tag)?;
    Ok(Some(line))
}

/// Moves the marker that stands before a line's text into the line.
fn push_lead<T: EqualCopy + Drop>(
    line: &mut TaggedLine<T>,
    lead: Option<Piece<T>>,
) -> Result<(), AllocError>
    ensures items { OnOk result (line_items T.seen line.new ≡ line_items T.seen line.old ++ lead_items lead) }
    ensures joined { IsJoined T.seen line.old → IsJoined T.seen line.new }
{
    match lead {
        Some(Piece::Fragment(name)) => line.append_marker(name),
        _ => Ok(()),
    }
}

/// The bytes and the columns of the text in the line, where the source line is one text, or a marker and a text, and
/// is seen to have one line.
fn line_cut<T>(pieces: &[Piece<T>], width: usize, wraps: bool) -> Option<(usize, usize)>
    ensures { IfSome result (λ cut. MakesLine width wraps pieces.now cut.0 cut.1) }
{
    match pieces {
        [Piece::Text(piece)] => plain_cut(piece.text.as_str(), width, wraps),
        [Piece::Fragment(_), Piece::Text(piece)] => shown_cut(piece.text.as_str(), width, wraps),
        _ => None,
    }
}

fn plain_cut(text: &str, width: usize, wraps: bool) -> Option<(usize, usize)>
    ensures { IfSome result (λ cut. IsPlainCut width wraps text.now cut.0 cut.1) }
{
    let Some(front) = plain_front(text, width, wraps) else {
        return None;
    };
    fitting_cut(front, width)
}

/// The same, where the text begins with a character that is shown.
fn shown_cut(text: &str, width: usize, wraps: bool) -> Option<(usize, usize)>
    ensures cut { IfSome result (λ cut. IsPlainCut width wraps text.now cut.0 cut.1) }
    ensures begins { IfSome result (λ cut. BeginsSolid width wraps (chars (take cut.0 text.now))) }
{
    let Some(front) = shown_front(text, width, wraps) else {
        return None;
    };
    fitting_cut(front, width)
}

/// The bytes and the columns of a text that fits on a line.
fn fitting_cut(text: &str, width: usize) -> Option<(usize, usize)>
    ensures bytes { IfSome result (λ cut. cut.0 ≡ length text.now) }
    ensures columns { IfSome result (λ cut. cut.1 ≡ text_columns (chars text.now)) }
    ensures fits { IfSome result (λ cut. cut.1 ≤ width) }
{
    let columns = columns_of(text);
    if columns > width {
        return None;
    }
    Some((text.len(), columns))
}

/// One line, and no marker that waits.
pub(crate) fn one_line<T: EqualCopy + Drop>(
    alloc: Global,
    line: TaggedLine<T>,
) -> Result<LaidText<T>, AllocError>
    ensures lines { IfOk result (λ laid. map (line_items T.seen) laid.lines.items ≡ line_items T.seen line ∷ []) }
    ensures waiting { IfOk result (λ laid. names laid.waiting.items ≡ []) }
    ensures joined { IsJoined T.seen line → IfOk result (λ laid. All (IsJoined T.seen) laid.lines.items) }
{
    let mut lines = Vec::new(alloc);
    lines.push(line)?;
    Ok(LaidText {
        lines,
        waiting: Vec::new(alloc),
    })
}
