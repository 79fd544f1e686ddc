//! Adding text at the end of pieces.
ghost use Rattle.std.specs.Prelude.{◌≡◌, ◌<◌, ◌++◌, chars, vec_len, OnOk, IsTrue};
ghost use Rattle.text_pieces.specs.Sources.{sourced, sources_of};
ghost use Rattle.text_pieces.specs.Joins.{HasTags, EndsWithTags, Extends};

use crate::piece::{Piece, TextPiece};
use std::alloc::AllocError;
use text_lines::EqualCopy;

/// Adds characters with those tags at the end; they join the last piece, where its tags are equal. The error is
/// allocation failure alone.
#[inline(always)]
pub fn push_text<T: EqualCopy + Drop>(
    pieces: &mut Vec<Piece<T>>,
    text: &str,
    main_tag: &T,
    wrap_tag: &T,
) -> Result<(), AllocError>
    ensures { OnOk result (sources_of T.seen pieces.new.items ≡ sources_of T.seen pieces.old.items
        ++ sourced (chars text.now) (T.seen main_tag.now) (T.seen wrap_tag.now)) }
{
    if ends_with_tags(pieces, main_tag, wrap_tag) {
        extend_last(pieces, text)
    } else {
        push_new(pieces, text, main_tag, wrap_tag)
    }
}

// Whether the last piece is a text with equal tags.
#[inline(always)]
fn ends_with_tags<T: EqualCopy>(pieces: &[Piece<T>], main_tag: &T, wrap_tag: &T) -> bool
    ensures { IsTrue result → EndsWithTags T.seen (T.seen main_tag.now) (T.seen wrap_tag.now) pieces.now }
{
    match pieces.last() {
        Some(last) => has_tags(last, main_tag, wrap_tag),
        None => false,
    }
}

#[inline(always)]
fn has_tags<T: EqualCopy>(piece: &Piece<T>, main_tag: &T, wrap_tag: &T) -> bool
    ensures { IsTrue result → HasTags T.seen (T.seen main_tag.now) (T.seen wrap_tag.now) piece.now }
{
    match piece {
        Piece::Text(piece) => {
            piece.main_tag == *main_tag && *piece.wrap_tag_or_main() == *wrap_tag
        }
        Piece::Fragment(_) => false,
    }
}

/// Adds to the text of the last piece, which goes on with its tags; a marker stays as it is. The error is allocation
/// failure alone.
#[inline(always)]
pub fn extend_last<T: EqualCopy + Drop>(
    pieces: &mut Vec<Piece<T>>,
    text: &str,
) -> Result<(), AllocError>
    requires { 0 < vec_len pieces.old }
    ensures { OnOk result ((main further : T.Seen) → EndsWithTags T.seen main further pieces.old.items
        → sources_of T.seen pieces.new.items
        ≡ sources_of T.seen pieces.old.items ++ sourced (chars text.now) main further) }
{
    let last = pieces.len() - 1;
    pieces[last].push_str(text)
}

impl<T> Piece<T> {
    // Adds to the text; a marker stays as it is.
    #[inline(always)]
    fn push_str(&mut self, text: &str) -> Result<(), AllocError>
        ensures { OnOk result (Extends self.old self.new text.now) }
    {
        match self {
            Piece::Text(piece) => piece.text.push_str(text),
            Piece::Fragment(_) => Ok(()),
        }
    }
}

// Adds the text as a piece of its own.
fn push_new<T: EqualCopy + Drop>(
    pieces: &mut Vec<Piece<T>>,
    text: &str,
    main_tag: &T,
    wrap_tag: &T,
) -> Result<(), AllocError>
    ensures { OnOk result (sources_of T.seen pieces.new.items ≡ sources_of T.seen pieces.old.items
        ++ sourced (chars text.now) (T.seen main_tag.now) (T.seen wrap_tag.now)) }
{
    let piece = TextPiece::new(*pieces.allocator(), text, main_tag, wrap_tag)?;
    pieces.push(Piece::Text(piece))?;
    Ok(())
}
