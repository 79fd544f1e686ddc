//! Adding text of one tag at the end of pieces.
ghost use Rattle.std.specs.Prelude.{◌≡◌, ◌++◌, chars, IfOk, OnOk, IsTrue};
ghost use Rattle.text_pieces.specs.Sources.{sourced, sources_of, text_sources, wrap_seen};
ghost use Rattle.text_pieces.specs.Joins.{HasTags, EndsWithTags};

use std::alloc::{AllocError, Global};
use text_lines::{EqualCopy, roomy_copy};
use text_pieces::{Piece, TextPiece, extend_last};

/// Adds characters with that tag, where a preserved line was wrapped too, at the end; they join the last piece, where
/// it has no other. The error is allocation failure alone.
#[inline(always)]
pub(crate) fn push_tagged<T: EqualCopy + Drop>(
    pieces: &mut Vec<Piece<T>>,
    text: &str,
    tag: &T,
) -> Result<(), AllocError>
    ensures { OnOk result (sources_of T.seen pieces.new.items ≡ sources_of T.seen pieces.old.items
        ++ sourced (chars text.now) (T.seen tag.now) (T.seen tag.now)) }
{
    if ends_with_tag(pieces, tag) {
        extend_last(pieces, text)
    } else {
        push_new(pieces, text, tag)
    }
}

/// Whether the last piece is a text with that tag alone.
#[inline(always)]
fn ends_with_tag<T: EqualCopy>(pieces: &[Piece<T>], tag: &T) -> bool
    ensures { IsTrue result → EndsWithTags T.seen (T.seen tag.now) (T.seen tag.now) pieces.now }
{
    match pieces.last() {
        Some(last) => has_tag(last, tag),
        None => false,
    }
}

#[inline(always)]
fn has_tag<T: EqualCopy>(piece: &Piece<T>, tag: &T) -> bool
    ensures { IsTrue result → HasTags T.seen (T.seen tag.now) (T.seen tag.now) piece.now }
{
    match piece {
        Piece::Text(piece) => has_only_tag(piece, tag),
        Piece::Fragment(_) => false,
    }
}

#[inline(always)]
fn has_only_tag<T: EqualCopy>(piece: &TextPiece<T>, tag: &T) -> bool
    ensures { IsTrue result → (T.seen piece.now.main_tag ≡ T.seen tag.now)
        × (wrap_seen T.seen piece.now ≡ T.seen tag.now) }
{
    match &piece.wrap_tag {
        Some(_) => false,
        None => piece.main_tag == *tag,
    }
}

/// Adds the text as a piece of its own.
fn push_new<T: EqualCopy + Drop>(
    pieces: &mut Vec<Piece<T>>,
    text: &str,
    tag: &T,
) -> Result<(), AllocError>
    ensures { OnOk result (sources_of T.seen pieces.new.items ≡ sources_of T.seen pieces.old.items
        ++ sourced (chars text.now) (T.seen tag.now) (T.seen tag.now)) }
{
    let piece = piece_of(*pieces.allocator(), text, tag)?;
    pieces.push(Piece::Text(piece))?;
    Ok(())
}

fn piece_of<T: EqualCopy + Drop>(
    alloc: Global,
    text: &str,
    tag: &T,
) -> Result<TextPiece<T>, AllocError>
    ensures { IfOk result (λ piece. text_sources T.seen piece
        ≡ sourced (chars text.now) (T.seen tag.now) (T.seen tag.now)) }
{
    Ok(TextPiece {
        text: roomy_copy(alloc, text)?,
        main_tag: tag.copy(alloc)?,
        wrap_tag: None,
    })
}
