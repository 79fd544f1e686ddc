//! Copies of lines and of pieces.
ghost use Rattle.std.specs.Prelude.{◌≡◌, map, All, IfOk};
ghost use Rattle.text_lines.specs.Tagged.{line_items, IsJoined};
ghost use Rattle.text_pieces.specs.Sources.{sources_of};

use std::alloc::{AllocError, Global};
use text_lines::{EqualCopy, TaggedLine};
use text_pieces::Piece;

/// Equal lines.
pub(crate) fn clone_lines<T: EqualCopy + Drop>(
    alloc: Global,
    lines: &[TaggedLine<T>],
) -> Result<Vec<TaggedLine<T>>, AllocError>
    ensures items { IfOk result (λ all. map (line_items T.seen) all.items ≡ map (line_items T.seen) lines.now) }
    ensures joined { All (IsJoined T.seen) lines.now → IfOk result (λ all. All (IsJoined T.seen) all.items) }
{
    let mut all = Vec::with_capacity(alloc, lines.len())?;
    let mut rest = lines;
    while let Some((line, others)) = rest.split_first() {
        all.push(line.try_clone()?)?;
        rest = others;
    }
    Ok(all)
}

/// Equal pieces.
pub(crate) fn clone_pieces<T: EqualCopy + Drop>(
    alloc: Global,
    pieces: &[Piece<T>],
) -> Result<Vec<Piece<T>>, AllocError>
    ensures { IfOk result (λ all. sources_of T.seen all.items ≡ sources_of T.seen pieces.now) }
{
    let mut all = Vec::with_capacity(alloc, pieces.len())?;
    let mut rest = pieces;
    while let Some((piece, others)) = rest.split_first() {
        all.push(piece.try_clone()?)?;
        rest = others;
    }
    Ok(all)
}
