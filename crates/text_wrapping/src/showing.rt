//! What is seen of texts and lines.
ghost use Rattle.std.specs.Prelude.{◌≡◌, nat_lt, map, chars};
ghost use Rattle.std.specs.List.{list_any};
ghost use Rattle.text_lines.specs.Tagged.{line_items, line_columns};
ghost use Rattle.text_pieces.specs.Sources.{sources_of, piece_sources};
ghost use Rattle.text_wrapping.specs.Blocks.{ends_in_columns, is_visible, has_visible};

use text_lines::{EqualCopy, TaggedLine};
use text_pieces::{Piece, is_white_space, width_of};

/// Whether the last line has columns.
pub(crate) fn ends_in_columns<T: EqualCopy + Drop>(lines: &[TaggedLine<T>]) -> bool
    ensures { result ≡ ends_in_columns (map (line_items T.seen) lines.now) }
{
    let mut ends = false;
    let mut rest = lines;
    while let Some((line, others)) = rest.split_first() {
        ends = line.width() > 0;
        rest = others;
    }
    ends
}

/// Whether some character takes a column wherever it stands.
pub(crate) fn has_visible<T: EqualCopy>(pieces: &[Piece<T>]) -> bool
    ensures { result ≡ has_visible (sources_of T.seen pieces.now) }
{
    let mut rest = pieces;
    while let Some((piece, others)) = rest.split_first() {
        if shows(piece) {
            return true;
        }
        rest = others;
    }
    false
}

fn shows<T: EqualCopy>(piece: &Piece<T>) -> bool
    ensures { result ≡ has_visible (piece_sources T.seen piece.now) }
{
    match piece {
        Piece::Text(piece) => has_visible_character(piece.text.as_str()),
        Piece::Fragment(_) => false,
    }
}

fn has_visible_character(text: &str) -> bool
    ensures { result ≡ list_any is_visible (chars text.now) }
{
    text.chars().any(|c| is_visible(c))
}

fn is_visible(c: char) -> bool
    ensures { result ≡ is_visible c }
{
    !is_white_space(c) && width_of(c) > 0
}

/// Whether a line has columns.
pub(crate) fn have_columns<T: EqualCopy + Drop>(lines: &[TaggedLine<T>]) -> bool
    ensures { result ≡ list_any (λ line. nat_lt 0 (line_columns line)) (map (line_items T.seen) lines.now) }
{
    let mut rest = lines;
    while let Some((line, others)) = rest.split_first() {
        if line.width() > 0 {
            return true;
        }
        rest = others;
    }
    false
}
