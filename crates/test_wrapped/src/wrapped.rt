ghost use Rattle.std.specs.Prelude.{◌≡◌, ◌⊎◌, false, map, All, ◌≤◌, IfOk, IfErr};
ghost use Rattle.text_lines.specs.Tagged.{line_items, line_columns, IsJoined};
ghost use Rattle.text_normal.specs.Layout.{AreLinesOf, NeverFits};
ghost use Rattle.test_wrapped.specs.Letters.{letters_of};

use std::alloc::Global;
use text_block_renderer::{
    BlockError, WhiteSpace, WrappedBlock, letters_of_texts, lines_keep_the_width,
    narrow_normal_text, normal_lines_of_a_block, normal_text_is_kept,
};
use text_decorators::{EqualCopy, TaggedLine, TaggedString};

/// The lines of some texts, joined: their fullest layout on lines of at most `width` columns. Refused as
/// `Memory`, or as `TooNarrow` where there is no layout at all.
pub fn wrapped_lines<T: EqualCopy + Drop>(
    alloc: Global,
    pieces: &[TaggedString<T>],
    width: usize,
    allow_overflow: bool,
    default_tag: T,
) -> Result<Vec<TaggedLine<T>>, BlockError>
    ensures lines { IfOk result (λ lines.
        AreLinesOf width allow_overflow (letters_of T.seen pieces.now) (map (line_items T.seen) lines.items)) }
    ensures within { allow_overflow ≡ false → IfOk result (λ lines.
        All (λ items. line_columns items ≤ width) (map (line_items T.seen) lines.items)) }
    ensures joined { IfOk result (λ lines. All (IsJoined T.seen) lines.items) }
    ensures narrow { result ≡ Err BlockError.TooNarrow
        → (allow_overflow ≡ false) × NeverFits width false (letters_of T.seen pieces.now) }
    ensures kinds { IfErr result (λ e. (e ≡ BlockError.TooNarrow) ⊎ (e ≡ BlockError.Memory)) }
{
    letters_of_texts::<T>();
    lines_keep_the_width::<T>();
    narrow_normal_text::<T>();
    normal_lines_of_a_block::<T>();
    normal_text_is_kept::<T>();
    let mut block = WrappedBlock::new(alloc, width, false, allow_overflow, default_tag);
    for piece in pieces {
        block.add_text(piece.s.as_str(), WhiteSpace::Normal, &piece.tag, &piece.tag)?;
    }
    block.into_lines()
}
