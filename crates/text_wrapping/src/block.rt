//! Blocks of text.
ghost use Rattle.std.specs.Prelude.{◌≡◌, ◌⊎◌, if◌then◌else◌, All, IfErr, IfOk, None, OnOk, Some, chars, false, is_err};
ghost use Rattle.std.specs.Prelude.{map, true};
ghost use Rattle.text_pieces.specs.Sources.{names};
ghost use Rattle.text_lines.specs.Tagged.{line_items, IsJoined};

use crate::text_block::TextBlock;
use std::alloc::{AllocError, Global};
use text_lines::{EqualCopy, TaggedLine};
use text_pieces::{BlockError, WhiteSpace};

/// Text that is wrapped into lines of at most `width` columns, or preserved, by modes of white space.
#[derive(Drop)]
pub struct WrappedBlock<T> {
    text: TextBlock<T>,
    failed: bool,
}

impl<T: EqualCopy + Drop> WrappedBlock<T> {
    ghost use Rattle.text_wrapping.specs.Blocks.{HasJoinedLines, added, block_of, broken, empty_block, ended_lines};
    ghost use Rattle.text_wrapping.specs.Blocks.{fragments_taken, has_columns, has_failed, marked_by};
    ghost use Rattle.text_pieces.specs.Sources.{names};

    /// An empty block of lines of at most `width` columns. With `pad_blocks` each line is filled to the
    /// width with spaces tagged `default_tag`; with `allow_overflow` a character wider than the width
    /// stands alone on a line.
    pub fn new(
        alloc: Global,
        width: usize,
        pad_blocks: bool,
        allow_overflow: bool,
        default_tag: T,
    ) -> WrappedBlock<T>
        ensures works { has_failed result ≡ false }
        ensures joined { HasJoinedLines T.seen result }
        ensures block { block_of T.seen result ≡ empty_block width allow_overflow
            (if pad_blocks then Some (T.seen default_tag) else None) }
    {
        WrappedBlock {
            text: TextBlock::new(alloc, width, pad_blocks, allow_overflow, default_tag),
            failed: false,
        }
    }

    /// An equal block, in the memory of this one. The error is allocation failure alone.
    pub fn try_clone(&self) -> Result<WrappedBlock<T>, AllocError>
        ensures block { IfOk result (λ copy. block_of T.seen copy ≡ block_of T.seen self.now) }
        ensures failed { IfOk result (λ copy. has_failed copy ≡ has_failed self.now) }
        ensures joined { HasJoinedLines T.seen self.now → IfOk result (λ copy. HasJoinedLines T.seen copy) }
    {
        Ok(WrappedBlock {
            text: self.text.try_clone()?,
            failed: self.failed,
        })
    }

    /// Adds text after what was added before. In normal mode its words are wrapped, each character tagged `main_tag`.
    /// Where white space is preserved, each LF ends a line; in mode `Pre` the characters from where a line was wrapped
    /// are tagged `wrap_tag`. A text in another mode than the text before it ends that one; an empty text changes
    /// nothing. After a refusal every call is refused as `Failed`. That a character is wider than the lines is emitted
    /// as `TooNarrow`, by the call that ends its text or line.
    pub fn add_text(
        &mut self,
        text: &str,
        ws_mode: WhiteSpace,
        main_tag: &T,
        wrap_tag: &T,
    ) -> Result<(), BlockError>
        ensures refused { is_err result ≡ has_failed self.new }
        ensures failed { has_failed self.old ≡ true → result ≡ Err BlockError.Failed }
        ensures kinds { has_failed self.old ≡ false
            → IfErr result (λ e. (e ≡ BlockError.TooNarrow) ⊎ (e ≡ BlockError.Memory)) }
        ensures added { OnOk result (added ws_mode (chars text.now) (T.seen main_tag.now) (T.seen wrap_tag.now)
            (block_of T.seen self.old) ≡ Some (block_of T.seen self.new)) }
        ensures narrow { result ≡ Err BlockError.TooNarrow → added ws_mode (chars text.now) (T.seen main_tag.now)
            (T.seen wrap_tag.now) (block_of T.seen self.old) ≡ None }
        ensures joined { HasJoinedLines T.seen self.old → HasJoinedLines T.seen self.new }
    {
        if self.failed {
            return Err(BlockError::Failed);
        }
        let result = self.text.add_text(text, ws_mode, main_tag, wrap_tag);
        self.failed = result.is_err();
        result
    }

    /// Adds a marker: the start of the fragment of that name. It stays after a word's character, or waits for the next
    /// word; one that finds none is given to no line. After a refusal every call is refused as `Failed`.
    pub fn record_frag_start(&mut self, name: &str) -> Result<(), BlockError>
        ensures refused { is_err result ≡ has_failed self.new }
        ensures failed { has_failed self.old ≡ true → result ≡ Err BlockError.Failed }
        ensures kinds { has_failed self.old ≡ false → IfErr result (λ e. e ≡ BlockError.Memory) }
        ensures marked { OnOk result
            (block_of T.seen self.new ≡ marked_by (chars name.now) (block_of T.seen self.old)) }
        ensures joined { HasJoinedLines T.seen self.old → HasJoinedLines T.seen self.new }
    {
        if self.failed {
            return Err(BlockError::Failed);
        }
        let result = self.text.record_frag_start(name);
        self.failed = result.is_err();
        result
    }

    /// Ends the text so far, and gives the names of the markers after its last word, which found no line. After a
    /// refusal every call is refused as `Failed`.
    pub fn take_trailing_fragments(&mut self) -> Result<Vec<String>, BlockError>
        ensures refused { is_err result ≡ has_failed self.new }
        ensures failed { has_failed self.old ≡ true → result ≡ Err BlockError.Failed }
        ensures kinds { has_failed self.old ≡ false
            → IfErr result (λ e. (e ≡ BlockError.TooNarrow) ⊎ (e ≡ BlockError.Memory)) }
        ensures taken { IfOk result (λ taken. fragments_taken (block_of T.seen self.old)
            ≡ Some (names taken.items, block_of T.seen self.new)) }
        ensures narrow { result ≡ Err BlockError.TooNarrow → fragments_taken (block_of T.seen self.old) ≡ None }
        ensures joined { HasJoinedLines T.seen self.old → HasJoinedLines T.seen self.new }
    {
        if self.failed {
            return Err(BlockError::Failed);
        }
        let result = self.text.take_trailing_fragments();
        self.failed = result.is_err();
        result
    }

    /// Ends the text so far, as a line break does, and tells whether its last line has columns. After a refusal every
    /// call is refused as `Failed`.
    pub fn break_text(&mut self) -> Result<bool, BlockError>
        ensures refused { is_err result ≡ has_failed self.new }
        ensures failed { has_failed self.old ≡ true → result ≡ Err BlockError.Failed }
        ensures kinds { has_failed self.old ≡ false
            → IfErr result (λ e. (e ≡ BlockError.TooNarrow) ⊎ (e ≡ BlockError.Memory)) }
        ensures broken { IfOk result (λ ends. broken (block_of T.seen self.old)
            ≡ Some (ends, block_of T.seen self.new)) }
        ensures narrow { result ≡ Err BlockError.TooNarrow → broken (block_of T.seen self.old) ≡ None }
        ensures joined { HasJoinedLines T.seen self.old → HasJoinedLines T.seen self.new }
    {
        if self.failed {
            return Err(BlockError::Failed);
        }
        let result = self.text.break_text();
        self.failed = result.is_err();
        result
    }

    /// Whether a line that has ended has columns, or a character is held that takes one.
    pub fn has_columns(&self) -> bool
        ensures { result ≡ has_columns (block_of T.seen self.now) }
    {
        self.text.has_columns()
    }

    /// The lines of the text, those of what has not ended too. Refused as `TooNarrow`, as `Memory`, or as `Failed`
    /// after a refusal.
    pub fn into_lines(self) -> Result<Vec<TaggedLine<T>>, BlockError>
        ensures failed { has_failed self ≡ true → result ≡ Err BlockError.Failed }
        ensures kinds { has_failed self ≡ false
            → IfErr result (λ e. (e ≡ BlockError.TooNarrow) ⊎ (e ≡ BlockError.Memory)) }
        ensures lines { IfOk result (λ lines. ended_lines (block_of T.seen self)
            ≡ Some (map (line_items T.seen) lines.items)) }
        ensures narrow { result ≡ Err BlockError.TooNarrow → ended_lines (block_of T.seen self) ≡ None }
        ensures joined { HasJoinedLines T.seen self → IfOk result (λ lines. All (IsJoined T.seen) lines.items) }
    {
        if self.failed {
            return Err(BlockError::Failed);
        }
        let WrappedBlock { text, .. } = self;
        text.into_lines()
    }
}
