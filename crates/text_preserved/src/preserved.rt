//! The lines of a source line whose white space stays.
ghost use Rattle.std.specs.Prelude.{◌≡◌, ◌⊎◌, true, false, not, ◌||◌, map, All, IfOk, IfErr, OnOk};
ghost use Rattle.text_lines.specs.Tagged.{line_items, IsJoined};
ghost use Rattle.text_pieces.specs.Sources.{sources_of, names};
ghost use Rattle.text_preserved.specs.Preserved.{preserved_lines, preserved_waiting, is_too_wide};

use crate::plain_lines::{one_line, only_line};
use crate::source_line::SourceLine;
use std::alloc::Global;
use text_lines::EqualCopy;
use text_pieces::{BlockError, LaidText, Piece};

/// The lines of one source line whose white space stays, and the markers that wait for what comes after it. With
/// `wraps` lines break at white space too; with `allow_overflow` a character wider than the width stands alone on a
/// line. The error is `TooNarrow`, or allocation failure.
pub fn lay_preserved<T: EqualCopy + Drop>(
    alloc: Global,
    width: usize,
    allow_overflow: bool,
    wraps: bool,
    pieces: &[Piece<T>],
) -> Result<LaidText<T>, BlockError>
    ensures lines { IfOk result (λ laid. map (line_items T.seen) laid.lines.items
        ≡ preserved_lines width wraps (sources_of T.seen pieces.now)) }
    ensures waiting { IfOk result (λ laid. names laid.waiting.items
        ≡ preserved_waiting width wraps (sources_of T.seen pieces.now)) }
    ensures room { OnOk result ((allow_overflow || not (is_too_wide width wraps (sources_of T.seen pieces.now)))
        ≡ true) }
    ensures joined { IfOk result (λ laid. All (IsJoined T.seen) laid.lines.items) }
    ensures narrow { result ≡ Err BlockError.TooNarrow → (allow_overflow ≡ false)
        × (is_too_wide width wraps (sources_of T.seen pieces.now) ≡ true) }
    ensures kinds { IfErr result (λ e. (e ≡ BlockError.TooNarrow) ⊎ (e ≡ BlockError.Memory)) }
{
    // The common case.
    if let Some(line) = only_line(alloc, width, wraps, pieces)? {
        return Ok(one_line(alloc, line)?);
    }
    lay_source(alloc, width, allow_overflow, wraps, pieces)
}

/// The lines as `lay_preserved` gives them, character by character.
fn lay_source<T: EqualCopy + Drop>(
    alloc: Global,
    width: usize,
    allow_overflow: bool,
    wraps: bool,
    pieces: &[Piece<T>],
) -> Result<LaidText<T>, BlockError>
    ensures lines { IfOk result (λ laid. map (line_items T.seen) laid.lines.items
        ≡ preserved_lines width wraps (sources_of T.seen pieces.now)) }
    ensures waiting { IfOk result (λ laid. names laid.waiting.items
        ≡ preserved_waiting width wraps (sources_of T.seen pieces.now)) }
    ensures room { OnOk result ((allow_overflow || not (is_too_wide width wraps (sources_of T.seen pieces.now)))
        ≡ true) }
    ensures joined { IfOk result (λ laid. All (IsJoined T.seen) laid.lines.items) }
    ensures narrow { result ≡ Err BlockError.TooNarrow → (allow_overflow ≡ false)
        × (is_too_wide width wraps (sources_of T.seen pieces.now) ≡ true) }
    ensures kinds { IfErr result (λ e. (e ≡ BlockError.TooNarrow) ⊎ (e ≡ BlockError.Memory)) }
{
    let mut line = SourceLine::new(alloc, width, wraps);
    line.read_line(pieces)?;
    line.finish()?;
    if line.is_refused(allow_overflow) {
        return Err(BlockError::TooNarrow);
    }
    line.into_laid(alloc)
}
