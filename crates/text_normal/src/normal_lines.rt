//! The lines of normal text, with its markers.
ghost use Rattle.std.specs.Prelude.{◌≡◌, ◌⊎◌, ◌||◌, ◌++◌, All, Bool, IfErr, IfOk, List, OnOk, false, map, not, true, ℕ};
ghost use Rattle.text_lines.specs.Tagged.{line_items, IsJoined};
ghost use Rattle.text_pieces.specs.Sources.{names, sources_of, piece_sources, text_sources};
ghost use Rattle.text_normal.specs.Riders.{normal_lines, normal_waiting, has_wide_text};
ghost use Rattle.text_normal.specs.Units.{Letter};
ghost use Rattle.text_normal.specs.Letters.{has_marker, letters_of};
ghost use Rattle.text_normal.specs.NormalStates.{HasRead, EndsAs};
ghost use Rattle.text_normal.specs.MarkedStates.{CarriesOn, MeetsWide};

use crate::marked::MarkedText;
use crate::normal::NormalText;
use std::alloc::Global;
use text_lines::{EqualCopy, TaggedLine};
use text_pieces::{BlockError, LaidText, Piece, TextPiece};

/// The lines of normal text, and the markers that wait for what comes after it.
pub fn lay_normal<T: EqualCopy + Drop>(
    alloc: Global,
    width: usize,
    allow_overflow: bool,
    pieces: &[Piece<T>],
) -> Result<LaidText<T>, BlockError>
    ensures lines { IfOk result (λ laid. map (line_items T.seen) laid.lines.items
        ≡ normal_lines width (sources_of T.seen pieces.now)) }
    ensures waiting { IfOk result (λ laid. names laid.waiting.items
        ≡ normal_waiting width (sources_of T.seen pieces.now)) }
    ensures room { OnOk result ((allow_overflow || not (has_wide_text width (sources_of T.seen pieces.now))) ≡ true) }
    ensures joined { IfOk result (λ laid. All (IsJoined T.seen) laid.lines.items) }
    ensures narrow { result ≡ Err BlockError.TooNarrow → (allow_overflow ≡ false)
        × (has_wide_text width (sources_of T.seen pieces.now) ≡ true) }
    ensures kinds { IfErr result (λ e. (e ≡ BlockError.TooNarrow) ⊎ (e ≡ BlockError.Memory)) }
{
    // The common case copies no line.
    if has_marker(pieces) {
        lay_marked(alloc, width, allow_overflow, pieces)
    } else {
        lay_plain(alloc, width, allow_overflow, pieces)
    }
}

/// The lines as `lay_normal` gives them, onto which texts are moved where they can be.
pub fn lay_owned<T: EqualCopy + Drop>(
    alloc: Global,
    width: usize,
    allow_overflow: bool,
    pieces: Vec<Piece<T>>,
) -> Result<LaidText<T>, BlockError>
    ensures lines { IfOk result (λ laid. map (line_items T.seen) laid.lines.items
        ≡ normal_lines width (sources_of T.seen pieces.items)) }
    ensures waiting { IfOk result (λ laid. names laid.waiting.items
        ≡ normal_waiting width (sources_of T.seen pieces.items)) }
    ensures room { OnOk result ((allow_overflow || not (has_wide_text width (sources_of T.seen pieces.items))) ≡ true) }
    ensures joined { IfOk result (λ laid. All (IsJoined T.seen) laid.lines.items) }
    ensures narrow { result ≡ Err BlockError.TooNarrow → (allow_overflow ≡ false)
        × (has_wide_text width (sources_of T.seen pieces.items) ≡ true) }
    ensures kinds { IfErr result (λ e. (e ≡ BlockError.TooNarrow) ⊎ (e ≡ BlockError.Memory)) }
{
    if has_marker(&pieces) {
        lay_marked(alloc, width, allow_overflow, &pieces)
    } else {
        lay_moved(alloc, width, allow_overflow, pieces)
    }
}

fn has_marker<T: EqualCopy>(pieces: &[Piece<T>]) -> bool
    ensures { result ≡ has_marker (sources_of T.seen pieces.now) }
{
    let mut rest = pieces;
    while let Some((first, others)) = rest.split_first() {
        if is_marker(first) {
            return true;
        }
        rest = others;
    }
    false
}

fn is_marker<T: EqualCopy>(piece: &Piece<T>) -> bool
    ensures { result ≡ has_marker (piece_sources T.seen piece.now) }
{
    match piece {
        Piece::Text(_) => false,
        Piece::Fragment(_) => true,
    }
}

fn lay_plain<T: EqualCopy + Drop>(
    alloc: Global,
    width: usize,
    allow_overflow: bool,
    pieces: &[Piece<T>],
) -> Result<LaidText<T>, BlockError>
    ensures lines { has_marker (sources_of T.seen pieces.now) ≡ false → IfOk result (λ laid.
        map (line_items T.seen) laid.lines.items ≡ normal_lines width (sources_of T.seen pieces.now)) }
    ensures waiting { has_marker (sources_of T.seen pieces.now) ≡ false → IfOk result (λ laid.
        names laid.waiting.items ≡ normal_waiting width (sources_of T.seen pieces.now)) }
    ensures room { OnOk result ((allow_overflow || not (has_wide_text width (sources_of T.seen pieces.now))) ≡ true) }
    ensures joined { IfOk result (λ laid. All (IsJoined T.seen) laid.lines.items) }
    ensures narrow { result ≡ Err BlockError.TooNarrow → (allow_overflow ≡ false)
        × (has_wide_text width (sources_of T.seen pieces.now) ≡ true) }
    ensures kinds { IfErr result (λ e. (e ≡ BlockError.TooNarrow) ⊎ (e ≡ BlockError.Memory)) }
{
    let mut text = NormalText::new(alloc, width, allow_overflow);
    read_all(&mut text, pieces)?;
    let lines = text.into_lines()?;
    Ok(LaidText {
        lines,
        waiting: Vec::new(alloc),
    })
}

/// Adds the texts of the pieces.
fn read_all<T: EqualCopy + Drop>(
    text: &mut NormalText<T>,
    pieces: &[Piece<T>],
) -> Result<(), BlockError>
    ensures read { OnOk result ((width : ℕ) (overflow : Bool) (read : List (Letter T.Seen))
        → HasRead T.seen width overflow read text.old
        → HasRead T.seen width overflow (read ++ letters_of (sources_of T.seen pieces.now)) text.new) }
    ensures narrow { result ≡ Err BlockError.TooNarrow → (width : ℕ) (overflow : Bool) (read : List (Letter T.Seen))
        → HasRead T.seen width overflow read text.old
        → (overflow ≡ false) × (has_wide_text width (sources_of T.seen pieces.now) ≡ true) }
    ensures kinds { IfErr result (λ e. (e ≡ BlockError.TooNarrow) ⊎ (e ≡ BlockError.Memory)) }
{
    let mut rest = pieces;
    while let Some((first, others)) = rest.split_first() {
        read_piece(text, first)?;
        rest = others;
    }
    Ok(())
}

fn read_piece<T: EqualCopy + Drop>(
    text: &mut NormalText<T>,
    piece: &Piece<T>,
) -> Result<(), BlockError>
    ensures read { OnOk result ((width : ℕ) (overflow : Bool) (read : List (Letter T.Seen))
        → HasRead T.seen width overflow read text.old
        → HasRead T.seen width overflow (read ++ letters_of (piece_sources T.seen piece.now)) text.new) }
    ensures narrow { result ≡ Err BlockError.TooNarrow → (width : ℕ) (overflow : Bool) (read : List (Letter T.Seen))
        → HasRead T.seen width overflow read text.old
        → (overflow ≡ false) × (has_wide_text width (piece_sources T.seen piece.now) ≡ true) }
    ensures kinds { IfErr result (λ e. (e ≡ BlockError.TooNarrow) ⊎ (e ≡ BlockError.Memory)) }
{
    match piece {
        Piece::Text(piece) => text.add_text(piece.text.as_str(), &piece.main_tag),
        Piece::Fragment(_) => Ok(()),
    }
}

fn lay_moved<T: EqualCopy + Drop>(
    alloc: Global,
    width: usize,
    allow_overflow: bool,
    pieces: Vec<Piece<T>>,
) -> Result<LaidText<T>, BlockError>
    ensures lines { has_marker (sources_of T.seen pieces.items) ≡ false → IfOk result (λ laid.
        map (line_items T.seen) laid.lines.items ≡ normal_lines width (sources_of T.seen pieces.items)) }
    ensures waiting { has_marker (sources_of T.seen pieces.items) ≡ false → IfOk result (λ laid.
        names laid.waiting.items ≡ normal_waiting width (sources_of T.seen pieces.items)) }
    ensures room { OnOk result ((allow_overflow || not (has_wide_text width (sources_of T.seen pieces.items))) ≡ true) }
    ensures joined { IfOk result (λ laid. All (IsJoined T.seen) laid.lines.items) }
    ensures narrow { result ≡ Err BlockError.TooNarrow → (allow_overflow ≡ false)
        × (has_wide_text width (sources_of T.seen pieces.items) ≡ true) }
    ensures kinds { IfErr result (λ e. (e ≡ BlockError.TooNarrow) ⊎ (e ≡ BlockError.Memory)) }
{
    let text = NormalText::new(alloc, width, allow_overflow);
    let lines = end_with_all(text, pieces)?;
    Ok(LaidText {
        lines,
        waiting: Vec::new(alloc),
    })
}

/// The lines of the text with the pieces' texts after it.
fn end_with_all<T: EqualCopy + Drop>(
    text: NormalText<T>,
    pieces: Vec<Piece<T>>,
) -> Result<Vec<TaggedLine<T>>, BlockError>
    ensures ends { IfOk result (λ lines. EndsAs T.seen text (letters_of (sources_of T.seen pieces.items)) lines.items) }
    ensures narrow { result ≡ Err BlockError.TooNarrow → (width : ℕ) (overflow : Bool) (read : List (Letter T.Seen))
        → HasRead T.seen width overflow read text
        → (overflow ≡ false) × (has_wide_text width (sources_of T.seen pieces.items) ≡ true) }
    ensures kinds { IfErr result (λ e. (e ≡ BlockError.TooNarrow) ⊎ (e ≡ BlockError.Memory)) }
{
    let mut text = text;
    let mut pieces = pieces;
    match pieces.pop() {
        Some(last) => {
            take_all(&mut text, pieces)?;
            end_with(text, last)
        }
        None => text.into_lines(),
    }
}

/// The lines of the text with the last piece's text after it.
fn end_with<T: EqualCopy + Drop>(
    text: NormalText<T>,
    last: Piece<T>,
) -> Result<Vec<TaggedLine<T>>, BlockError>
    ensures ends { IfOk result (λ lines. EndsAs T.seen text (letters_of (piece_sources T.seen last)) lines.items) }
    ensures narrow { result ≡ Err BlockError.TooNarrow → (width : ℕ) (overflow : Bool) (read : List (Letter T.Seen))
        → HasRead T.seen width overflow read text
        → (overflow ≡ false) × (has_wide_text width (piece_sources T.seen last) ≡ true) }
    ensures kinds { IfErr result (λ e. (e ≡ BlockError.TooNarrow) ⊎ (e ≡ BlockError.Memory)) }
{
    match last {
        Piece::Text(piece) => end_with_text(text, piece),
        Piece::Fragment(_) => text.into_lines(),
    }
}

fn end_with_text<T: EqualCopy + Drop>(
    text: NormalText<T>,
    last: TextPiece<T>,
) -> Result<Vec<TaggedLine<T>>, BlockError>
    ensures ends { IfOk result (λ lines. EndsAs T.seen text (letters_of (text_sources T.seen last)) lines.items) }
    ensures narrow { result ≡ Err BlockError.TooNarrow → (width : ℕ) (overflow : Bool) (read : List (Letter T.Seen))
        → HasRead T.seen width overflow read text
        → (overflow ≡ false) × (has_wide_text width (text_sources T.seen last) ≡ true) }
    ensures kinds { IfErr result (λ e. (e ≡ BlockError.TooNarrow) ⊎ (e ≡ BlockError.Memory)) }
{
    let TextPiece {
        text: characters,
        main_tag,
        ..
    } = last;
    text.into_lines_after(characters, main_tag)
}

/// Adds the texts of the pieces, which are taken.
fn take_all<T: EqualCopy + Drop>(
    text: &mut NormalText<T>,
    pieces: Vec<Piece<T>>,
) -> Result<(), BlockError>
    ensures read { OnOk result ((width : ℕ) (overflow : Bool) (read : List (Letter T.Seen))
        → HasRead T.seen width overflow read text.old
        → HasRead T.seen width overflow (read ++ letters_of (sources_of T.seen pieces.items)) text.new) }
    ensures narrow { result ≡ Err BlockError.TooNarrow → (width : ℕ) (overflow : Bool) (read : List (Letter T.Seen))
        → HasRead T.seen width overflow read text.old
        → (overflow ≡ false) × (has_wide_text width (sources_of T.seen pieces.items) ≡ true) }
    ensures kinds { IfErr result (λ e. (e ≡ BlockError.TooNarrow) ⊎ (e ≡ BlockError.Memory)) }
{
    for piece in pieces {
        take_piece(text, piece)?;
    }
    Ok(())
}

fn take_piece<T: EqualCopy + Drop>(
    text: &mut NormalText<T>,
    piece: Piece<T>,
) -> Result<(), BlockError>
    ensures read { OnOk result ((width : ℕ) (overflow : Bool) (read : List (Letter T.Seen))
        → HasRead T.seen width overflow read text.old
        → HasRead T.seen width overflow (read ++ letters_of (piece_sources T.seen piece)) text.new) }
    ensures narrow { result ≡ Err BlockError.TooNarrow → (width : ℕ) (overflow : Bool) (read : List (Letter T.Seen))
        → HasRead T.seen width overflow read text.old
        → (overflow ≡ false) × (has_wide_text width (piece_sources T.seen piece) ≡ true) }
    ensures kinds { IfErr result (λ e. (e ≡ BlockError.TooNarrow) ⊎ (e ≡ BlockError.Memory)) }
{
    match piece {
        Piece::Text(piece) => take_text(text, piece),
        Piece::Fragment(_) => Ok(()),
    }
}

fn take_text<T: EqualCopy + Drop>(
    text: &mut NormalText<T>,
    piece: TextPiece<T>,
) -> Result<(), BlockError>
    ensures read { OnOk result ((width : ℕ) (overflow : Bool) (read : List (Letter T.Seen))
        → HasRead T.seen width overflow read text.old
        → HasRead T.seen width overflow (read ++ letters_of (text_sources T.seen piece)) text.new) }
    ensures narrow { result ≡ Err BlockError.TooNarrow → (width : ℕ) (overflow : Bool) (read : List (Letter T.Seen))
        → HasRead T.seen width overflow read text.old
        → (overflow ≡ false) × (has_wide_text width (text_sources T.seen piece) ≡ true) }
    ensures kinds { IfErr result (λ e. (e ≡ BlockError.TooNarrow) ⊎ (e ≡ BlockError.Memory)) }
{
    let TextPiece {
        text: characters,
        main_tag,
        ..
    } = piece;
    text.add_string(characters, main_tag)
}

fn lay_marked<T: EqualCopy + Drop>(
    alloc: Global,
    width: usize,
    allow_overflow: bool,
    pieces: &[Piece<T>],
) -> Result<LaidText<T>, BlockError>
    ensures lines { IfOk result (λ laid. map (line_items T.seen) laid.lines.items
        ≡ normal_lines width (sources_of T.seen pieces.now)) }
    ensures waiting { IfOk result (λ laid. names laid.waiting.items
        ≡ normal_waiting width (sources_of T.seen pieces.now)) }
    ensures room { OnOk result ((allow_overflow || not (has_wide_text width (sources_of T.seen pieces.now))) ≡ true) }
    ensures joined { IfOk result (λ laid. All (IsJoined T.seen) laid.lines.items) }
    ensures narrow { result ≡ Err BlockError.TooNarrow → (allow_overflow ≡ false)
        × (has_wide_text width (sources_of T.seen pieces.now) ≡ true) }
    ensures kinds { IfErr result (λ e. (e ≡ BlockError.TooNarrow) ⊎ (e ≡ BlockError.Memory)) }
{
    let mut text = MarkedText::new(alloc, width, allow_overflow);
    carry_all(&mut text, pieces)?;
    text.into_laid(alloc)
}

/// Adds the pieces, one after another.
fn carry_all<T: EqualCopy + Drop>(
    text: &mut MarkedText<T>,
    pieces: &[Piece<T>],
) -> Result<(), BlockError>
    ensures carries { OnOk result (CarriesOn T.seen text.old text.new (sources_of T.seen pieces.now)) }
    ensures narrow { result ≡ Err BlockError.TooNarrow → MeetsWide T.seen text.old (sources_of T.seen pieces.now) }
    ensures kinds { IfErr result (λ e. (e ≡ BlockError.TooNarrow) ⊎ (e ≡ BlockError.Memory)) }
{
    let mut rest = pieces;
    while let Some((first, others)) = rest.split_first() {
        text.add_piece(first)?;
        rest = others;
    }
    Ok(())
}
