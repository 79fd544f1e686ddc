//! Blocks of text of which no call was refused.
ghost use Rattle.std.specs.Prelude.{◌≡◌, ◌⊎◌, ◌++◌, [], ◌∷◌, if◌then◌else◌, All, IfErr, IfOk, IfSome, IsTrue, None};
ghost use Rattle.std.specs.Prelude.{OnOk, Some, chars, false, map, true};
ghost use Rattle.text_pieces.specs.Sources.{sources_of, piece_sources, names};
ghost use Rattle.text_preserved.specs.Preserved.{names_of};
ghost use Rattle.text_pieces.specs.Modes.{is_preserved, is_same_mode};
ghost use Rattle.text_wrapping.specs.Blocks.{lines_or_empty};
ghost use Rattle.text_lines.specs.Tagged.{line_items, IsJoined};

use crate::copies::{clone_lines, clone_pieces};
use crate::one_tag::push_tagged;
use crate::padding::pad_lines;
use crate::showing::{ends_in_columns, has_visible, have_columns};
use std::alloc::{AllocError, Global};
use text_lines::{EqualCopy, TaggedLine};
use text_normal::{lay_normal, lay_owned};
use text_pieces::{BlockError, LaidText, Piece, WhiteSpace, cut_at, push_text};
use text_preserved::{lay_line, lay_preserved, take_line};

/// A `WrappedBlock` that keeps no note of refusals: for who lets it go once a call was refused.
#[derive(Drop)]
pub struct TextBlock<T> {
    width: usize,
    pad_blocks: bool,
    allow_overflow: bool,
    default_tag: T,
    /// Of the texts and source lines that have ended.
    lines: Vec<TaggedLine<T>>,
    mode: WhiteSpace,
    /// The text that has not ended.
    pieces: Vec<Piece<T>>,
}

impl<T: EqualCopy + Drop> TextBlock<T> {
    ghost use Rattle.text_wrapping.specs.Blocks.{AreJoinedLines, added, after_sources, broken, empty_block, ended};
    ghost use Rattle.text_wrapping.specs.Blocks.{ended_lines, fragments_taken, has_columns, in_mode, is_too_narrow};
    ghost use Rattle.text_wrapping.specs.Blocks.{line_ended, marked_by, padded, padding_of, text_of, took_all};
    ghost use Rattle.text_wrapping.specs.Blocks.{with_lines, with_source};
    ghost use Rattle.text_wrapping.specs.Lines.{lines_in, waiting_in};
    ghost use Rattle.text_pieces.specs.Sources.{fragments, names, sourced, sources_of};

    /// An empty block of lines of at most `width` columns. With `pad_blocks` each line is filled to the
    /// width with spaces tagged `default_tag`; with `allow_overflow` a character wider than the width
    /// stands alone on a line.
    pub fn new(
        alloc: Global,
        width: usize,
        pad_blocks: bool,
        allow_overflow: bool,
        default_tag: T,
    ) -> TextBlock<T>
        ensures joined { AreJoinedLines T.seen result }
        ensures block { text_of T.seen result ≡ empty_block width allow_overflow
            (if pad_blocks then Some (T.seen default_tag) else None) }
    {
        TextBlock {
            width,
            pad_blocks,
            allow_overflow,
            default_tag,
            lines: Vec::new(alloc),
            mode: WhiteSpace::Normal,
            pieces: Vec::new(alloc),
        }
    }

    /// An equal block, in the memory of this one. The error is allocation failure alone.
    pub fn try_clone(&self) -> Result<TextBlock<T>, AllocError>
        ensures block { IfOk result (λ copy. text_of T.seen copy ≡ text_of T.seen self.now) }
        ensures joined { AreJoinedLines T.seen self.now → IfOk result (λ copy. AreJoinedLines T.seen copy) }
    {
        let alloc = *self.lines.allocator();
        Ok(TextBlock {
            width: self.width,
            pad_blocks: self.pad_blocks,
            allow_overflow: self.allow_overflow,
            default_tag: self.default_tag.copy(alloc)?,
            lines: clone_lines(alloc, &self.lines)?,
            mode: self.mode,
            pieces: clone_pieces(alloc, &self.pieces)?,
        })
    }

    /// Adds text as `WrappedBlock::add_text` does. Refused as `TooNarrow`, where a character of the text or line that
    /// it ends is wider than the lines, or as `Memory`.
    #[inline(always)]
    pub fn add_text(
        &mut self,
        text: &str,
        ws_mode: WhiteSpace,
        main_tag: &T,
        wrap_tag: &T,
    ) -> Result<(), BlockError>
        ensures kinds { IfErr result (λ e. (e ≡ BlockError.TooNarrow) ⊎ (e ≡ BlockError.Memory)) }
        ensures added { OnOk result (added ws_mode (chars text.now) (T.seen main_tag.now) (T.seen wrap_tag.now)
            (text_of T.seen self.old) ≡ Some (text_of T.seen self.new)) }
        ensures narrow { result ≡ Err BlockError.TooNarrow → added ws_mode (chars text.now) (T.seen main_tag.now)
            (T.seen wrap_tag.now) (text_of T.seen self.old) ≡ None }
        ensures joined { AreJoinedLines T.seen self.old → AreJoinedLines T.seen self.new }
    {
        if text.is_empty() {
            return Ok(());
        }
        self.enter(ws_mode)?;
        self.take_all(text, main_tag, wrap_tag)
    }

    /// Adds text of one tag as `add_text` does, where it ends nothing: it is empty, or of the mode of the text so far,
    /// in which white space is not preserved. Emits whether it did; else nothing has changed. The error is allocation
    /// failure alone.
    #[inline(always)]
    pub fn add_more(&mut self, text: &str, ws_mode: WhiteSpace, tag: &T) -> Result<bool, AllocError>
        ensures more { IfOk result (λ more. IsTrue more → added ws_mode (chars text.now) (T.seen tag.now)
            (T.seen tag.now) (text_of T.seen self.old) ≡ Some (text_of T.seen self.new)) }
        ensures stays { IfOk result (λ more. more ≡ false → text_of T.seen self.new ≡ text_of T.seen self.old) }
        ensures joined { AreJoinedLines T.seen self.old → AreJoinedLines T.seen self.new }
    {
        if text.is_empty() {
            return Ok(true);
        }
        if self.mode.preserve_whitespace() || !is_same_mode(ws_mode, self.mode) {
            return Ok(false);
        }
        self.take_tagged(text, tag)?;
        Ok(true)
    }

    /// Takes text of one tag that ends nothing.
    #[inline(always)]
    fn take_tagged(&mut self, text: &str, tag: &T) -> Result<(), AllocError>
        ensures run { OnOk result (text_of T.seen self.new ≡ after_sources (sourced (chars text.now)
            (T.seen tag.now) (T.seen tag.now)) (text_of T.seen self.old)) }
        ensures joined { AreJoinedLines T.seen self.old → AreJoinedLines T.seen self.new }
    {
        push_tagged(&mut self.pieces, text, tag)
    }

    /// Ends the text so far, where it is of another mode.
    #[inline(always)]
    fn enter(&mut self, mode: WhiteSpace) -> Result<(), BlockError>
        ensures kinds { IfErr result (λ e. (e ≡ BlockError.TooNarrow) ⊎ (e ≡ BlockError.Memory)) }
        ensures entered { OnOk result (in_mode mode (text_of T.seen self.old) ≡ Some (text_of T.seen self.new)) }
        ensures narrow { result ≡ Err BlockError.TooNarrow → in_mode mode (text_of T.seen self.old) ≡ None }
        ensures joined { AreJoinedLines T.seen self.old → AreJoinedLines T.seen self.new }
    {
        if is_same_mode(mode, self.mode) {
            return Ok(());
        }
        self.end_text()?;
        self.mode = mode;
        Ok(())
    }

    #[inline(always)]
    fn take_all(&mut self, text: &str, main_tag: &T, wrap_tag: &T) -> Result<(), BlockError>
        ensures kinds { IfErr result (λ e. (e ≡ BlockError.TooNarrow) ⊎ (e ≡ BlockError.Memory)) }
        ensures taken { OnOk result (took_all (T.seen main_tag.now) (T.seen wrap_tag.now) (chars text.now)
            (text_of T.seen self.old) ≡ Some (text_of T.seen self.new)) }
        ensures narrow { result ≡ Err BlockError.TooNarrow → took_all (T.seen main_tag.now) (T.seen wrap_tag.now)
            (chars text.now) (text_of T.seen self.old) ≡ None }
        ensures joined { AreJoinedLines T.seen self.old → AreJoinedLines T.seen self.new }
    {
        if self.mode.preserve_whitespace() {
            self.take_lines(text, main_tag, wrap_tag)
        } else {
            self.take_run(text, main_tag, wrap_tag)
        }
    }

    /// Takes preserved text: each LF ends the source line.
    fn take_lines(&mut self, text: &str, main_tag: &T, wrap_tag: &T) -> Result<(), BlockError>
        ensures kinds { IfErr result (λ e. (e ≡ BlockError.TooNarrow) ⊎ (e ≡ BlockError.Memory)) }
        ensures taken { is_preserved self.old.mode ≡ true → OnOk result (took_all (T.seen main_tag.now)
            (T.seen wrap_tag.now) (chars text.now) (text_of T.seen self.old) ≡ Some (text_of T.seen self.new)) }
        ensures narrow { is_preserved self.old.mode ≡ true → result ≡ Err BlockError.TooNarrow
            → took_all (T.seen main_tag.now) (T.seen wrap_tag.now) (chars text.now) (text_of T.seen self.old) ≡ None }
        ensures joined { AreJoinedLines T.seen self.old → AreJoinedLines T.seen self.new }
    {
        let mut rest = text;
        while let Some((line, trailing)) = cut_at(rest, '\n') {
            self.take_line(line, main_tag, wrap_tag)?;
            rest = trailing;
        }
        self.take_run(rest, main_tag, wrap_tag)
    }

    /// Takes the rest of a source line, and ends it.
    fn take_line(&mut self, text: &str, main_tag: &T, wrap_tag: &T) -> Result<(), BlockError>
        ensures kinds { IfErr result (λ e. (e ≡ BlockError.TooNarrow) ⊎ (e ≡ BlockError.Memory)) }
        ensures ended { OnOk result (line_ended (after_sources (sourced (chars text.now) (T.seen main_tag.now)
            (T.seen wrap_tag.now)) (text_of T.seen self.old)) ≡ Some (text_of T.seen self.new)) }
        ensures narrow { result ≡ Err BlockError.TooNarrow → line_ended (after_sources (sourced (chars text.now)
            (T.seen main_tag.now) (T.seen wrap_tag.now)) (text_of T.seen self.old)) ≡ None }
        ensures joined { AreJoinedLines T.seen self.old → AreJoinedLines T.seen self.new }
    {
        // The common case holds no text.
        if let Some(line) = self.whole_line(text, main_tag)? {
            return Ok(self.put_line(line)?);
        }
        self.end_line_after(text, main_tag, wrap_tag)
    }

    /// The line of a source line that begins and ends with the text, where it is seen to have one line.
    fn whole_line(&self, text: &str, main_tag: &T) -> Result<Option<TaggedLine<T>>, AllocError>
        ensures line { IfOk result (λ found. IfSome found (λ line. (further : T.Seen)
            → line_ended (after_sources (sourced (chars text.now) (T.seen main_tag.now) further)
            (text_of T.seen self.now))
            ≡ Some (with_lines (line_items T.seen line ∷ []) (text_of T.seen self.now)))) }
        ensures joined { IfOk result (λ found. IfSome found (IsJoined T.seen)) }
    {
        if !self.mode.preserve_whitespace() || !self.pieces.is_empty() {
            return Ok(None);
        }
        let alloc = *self.lines.allocator();
        lay_line(alloc, self.width, self.mode.do_wrap(), text, main_tag)
    }

    /// Adds a line, filled where lines are to be.
    fn put_line(&mut self, line: TaggedLine<T>) -> Result<(), AllocError>
        ensures put { OnOk result (text_of T.seen self.new
            ≡ with_lines (line_items T.seen line ∷ []) (text_of T.seen self.old)) }
        ensures joined { AreJoinedLines T.seen self.old → IsJoined T.seen line → AreJoinedLines T.seen self.new }
    {
        if !self.pad_blocks {
            self.lines.push(line)?;
            return Ok(());
        }
        let mut lines = Vec::new(*self.lines.allocator());
        lines.push(line)?;
        self.put_lines(lines)
    }

    /// Adds text to the source line at hand, and ends it.
    fn end_line_after(&mut self, text: &str, main_tag: &T, wrap_tag: &T) -> Result<(), BlockError>
        ensures kinds { IfErr result (λ e. (e ≡ BlockError.TooNarrow) ⊎ (e ≡ BlockError.Memory)) }
        ensures ended { OnOk result (line_ended (after_sources (sourced (chars text.now) (T.seen main_tag.now)
            (T.seen wrap_tag.now)) (text_of T.seen self.old)) ≡ Some (text_of T.seen self.new)) }
        ensures narrow { result ≡ Err BlockError.TooNarrow → line_ended (after_sources (sourced (chars text.now)
            (T.seen main_tag.now) (T.seen wrap_tag.now)) (text_of T.seen self.old)) ≡ None }
        ensures joined { AreJoinedLines T.seen self.old → AreJoinedLines T.seen self.new }
    {
        self.take_run(text, main_tag, wrap_tag)?;
        self.end_line()
    }

    /// Takes text that ends nothing.
    #[inline(always)]
    fn take_run(&mut self, text: &str, main_tag: &T, wrap_tag: &T) -> Result<(), BlockError>
        ensures kinds { IfErr result (λ e. e ≡ BlockError.Memory) }
        ensures run { OnOk result (text_of T.seen self.new ≡ after_sources (sourced (chars text.now)
            (T.seen main_tag.now) (T.seen wrap_tag.now)) (text_of T.seen self.old)) }
        ensures joined { AreJoinedLines T.seen self.old → AreJoinedLines T.seen self.new }
    {
        if text.is_empty() {
            return Ok(());
        }
        push_text(&mut self.pieces, text, main_tag, wrap_tag)?;
        Ok(())
    }

    /// Ends a source line, which is an empty line where nothing of it is shown.
    fn end_line(&mut self) -> Result<(), BlockError>
        ensures kinds { IfErr result (λ e. (e ≡ BlockError.TooNarrow) ⊎ (e ≡ BlockError.Memory)) }
        ensures ended { OnOk result (line_ended (text_of T.seen self.old) ≡ Some (text_of T.seen self.new)) }
        ensures narrow { result ≡ Err BlockError.TooNarrow → line_ended (text_of T.seen self.old) ≡ None }
        ensures joined { AreJoinedLines T.seen self.old → AreJoinedLines T.seen self.new }
    {
        // The common case copies no text.
        if let Some(line) = self.take_only_line()? {
            return Ok(self.put_line(line)?);
        }
        self.end_laid_line()
    }

    /// Takes the line of the source line that is held, where it is seen to have one line.
    fn take_only_line(&mut self) -> Result<Option<TaggedLine<T>>, AllocError>
        ensures line { IfOk result (λ found. IfSome found (λ line. line_ended (text_of T.seen self.old)
            ≡ Some (with_lines (line_items T.seen line ∷ []) (text_of T.seen self.new)))) }
        ensures stays { IfOk result (λ found. found ≡ None → text_of T.seen self.new ≡ text_of T.seen self.old) }
        ensures joined { IfOk result (λ found. IfSome found (IsJoined T.seen)) }
        ensures lines { AreJoinedLines T.seen self.old → AreJoinedLines T.seen self.new }
    {
        if !self.mode.preserve_whitespace() {
            return Ok(None);
        }
        let alloc = *self.lines.allocator();
        take_line(alloc, self.width, self.mode.do_wrap(), &mut self.pieces)
    }

    /// Ends a source line as `end_line` does, whatever is held.
    fn end_laid_line(&mut self) -> Result<(), BlockError>
        ensures kinds { IfErr result (λ e. (e ≡ BlockError.TooNarrow) ⊎ (e ≡ BlockError.Memory)) }
        ensures ended { OnOk result (line_ended (text_of T.seen self.old) ≡ Some (text_of T.seen self.new)) }
        ensures narrow { result ≡ Err BlockError.TooNarrow → line_ended (text_of T.seen self.old) ≡ None }
        ensures joined { AreJoinedLines T.seen self.old → AreJoinedLines T.seen self.new }
    {
        let LaidText { lines, waiting } = self.lay()?;
        let lines = or_empty(lines)?;
        self.put_lines(lines)?;
        self.wait(waiting)?;
        Ok(())
    }

    /// Ends the text so far.
    fn end_text(&mut self) -> Result<(), BlockError>
        ensures kinds { IfErr result (λ e. (e ≡ BlockError.TooNarrow) ⊎ (e ≡ BlockError.Memory)) }
        ensures ended { OnOk result (ended (text_of T.seen self.old) ≡ Some (text_of T.seen self.new)) }
        ensures narrow { result ≡ Err BlockError.TooNarrow → ended (text_of T.seen self.old) ≡ None }
        ensures joined { AreJoinedLines T.seen self.old → AreJoinedLines T.seen self.new }
    {
        if self.pieces.is_empty() {
            return Ok(());
        }
        let LaidText { lines, waiting } = self.take_laid()?;
        self.put_lines(lines)?;
        self.wait(waiting)?;
        Ok(())
    }

    /// Adds lines, filled where lines are to be.
    fn put_lines(&mut self, lines: Vec<TaggedLine<T>>) -> Result<(), AllocError>
        ensures put { OnOk result (text_of T.seen self.new
            ≡ with_lines (map (line_items T.seen) lines.items) (text_of T.seen self.old)) }
        ensures joined { AreJoinedLines T.seen self.old → All (IsJoined T.seen) lines.items
            → AreJoinedLines T.seen self.new }
    {
        let mut lines = self.filled_up(lines)?;
        if self.lines.is_empty() {
            self.lines = lines;
            return Ok(());
        }
        self.lines.append(&mut lines)
    }

    fn filled_up(&self, lines: Vec<TaggedLine<T>>) -> Result<Vec<TaggedLine<T>>, AllocError>
        ensures filled_up { IfOk result (λ all. map (line_items T.seen) all.items
            ≡ map (padded self.now.width (padding_of T.seen self.now)) (map (line_items T.seen) lines.items)) }
        ensures joined { All (IsJoined T.seen) lines.items → IfOk result (λ all. All (IsJoined T.seen) all.items) }
    {
        if self.pad_blocks {
            pad_lines(lines, self.width, &self.default_tag)
        } else {
            Ok(lines)
        }
    }

    /// Holds markers alone.
    fn wait(&mut self, waiting: Vec<String>) -> Result<(), AllocError>
        ensures waits { OnOk result (text_of T.seen self.new
            ≡ with_source (fragments (names waiting.items)) (text_of T.seen self.old)) }
        ensures joined { AreJoinedLines T.seen self.old → AreJoinedLines T.seen self.new }
    {
        self.pieces.clear();
        for name in waiting {
            self.pieces.push(Piece::Fragment(name))?;
        }
        Ok(())
    }

    /// Adds a marker as `WrappedBlock::record_frag_start` does. Refused as `Memory`.
    pub fn record_frag_start(&mut self, name: &str) -> Result<(), BlockError>
        ensures kinds { IfErr result (λ e. e ≡ BlockError.Memory) }
        ensures marked { OnOk result (text_of T.seen self.new ≡ marked_by (chars name.now) (text_of T.seen self.old)) }
        ensures joined { AreJoinedLines T.seen self.old → AreJoinedLines T.seen self.new }
    {
        let name = String::from_str(*self.lines.allocator(), name)?;
        self.pieces.push(Piece::Fragment(name))?;
        Ok(())
    }

    /// Ends the text so far, and gives the names of the markers after its last word, which found no line. Refused as
    /// `TooNarrow` or `Memory`.
    pub fn take_trailing_fragments(&mut self) -> Result<Vec<String>, BlockError>
        ensures kinds { IfErr result (λ e. (e ≡ BlockError.TooNarrow) ⊎ (e ≡ BlockError.Memory)) }
        ensures taken { IfOk result (λ taken. fragments_taken (text_of T.seen self.old)
            ≡ Some (names taken.items, text_of T.seen self.new)) }
        ensures narrow { result ≡ Err BlockError.TooNarrow → fragments_taken (text_of T.seen self.old) ≡ None }
        ensures joined { AreJoinedLines T.seen self.old → AreJoinedLines T.seen self.new }
    {
        self.end_text()?;
        let taken = names_of(*self.lines.allocator(), &self.pieces)?;
        self.pieces.clear();
        Ok(taken)
    }

    /// Ends the text so far, and tells whether its last line has columns. Refused as `TooNarrow` or `Memory`.
    pub fn break_text(&mut self) -> Result<bool, BlockError>
        ensures kinds { IfErr result (λ e. (e ≡ BlockError.TooNarrow) ⊎ (e ≡ BlockError.Memory)) }
        ensures broken { IfOk result (λ ends. broken (text_of T.seen self.old) ≡ Some (ends, text_of T.seen self.new)) }
        ensures narrow { result ≡ Err BlockError.TooNarrow → broken (text_of T.seen self.old) ≡ None }
        ensures joined { AreJoinedLines T.seen self.old → AreJoinedLines T.seen self.new }
    {
        let LaidText { lines, waiting } = self.lay()?;
        let ends = ends_in_columns(&lines);
        self.put_lines(lines)?;
        self.wait(waiting)?;
        Ok(ends)
    }

    /// Whether a line that has ended has columns, or a character is held that takes one.
    pub fn has_columns(&self) -> bool
        ensures { result ≡ has_columns (text_of T.seen self.now) }
    {
        have_columns(&self.lines) || has_visible(&self.pieces)
    }

    /// The lines that are done, and those of the text that has not ended. Refused as `TooNarrow` or `Memory`.
    pub fn into_lines(mut self) -> Result<Vec<TaggedLine<T>>, BlockError>
        ensures kinds { IfErr result (λ e. (e ≡ BlockError.TooNarrow) ⊎ (e ≡ BlockError.Memory)) }
        ensures lines { IfOk result (λ lines. ended_lines (text_of T.seen self)
            ≡ Some (map (line_items T.seen) lines.items)) }
        ensures narrow { result ≡ Err BlockError.TooNarrow → ended_lines (text_of T.seen self) ≡ None }
        ensures joined { AreJoinedLines T.seen self → IfOk result (λ lines. All (IsJoined T.seen) lines.items) }
    {
        self.end_text()?;
        let TextBlock { lines, .. } = self;
        Ok(lines)
    }

    /// The lines and the markers as `lay` gives them; the text may be taken.
    fn take_laid(&mut self) -> Result<LaidText<T>, BlockError>
        ensures kinds { IfErr result (λ e. (e ≡ BlockError.TooNarrow) ⊎ (e ≡ BlockError.Memory)) }
        ensures lines { IfOk result (λ laid. map (line_items T.seen) laid.lines.items
            ≡ lines_in self.old.mode self.old.width (sources_of T.seen self.old.pieces.items)) }
        ensures waiting { IfOk result (λ laid. names laid.waiting.items
            ≡ waiting_in self.old.mode self.old.width (sources_of T.seen self.old.pieces.items)) }
        ensures room { OnOk result (is_too_narrow (text_of T.seen self.old) ≡ false) }
        ensures narrow { result ≡ Err BlockError.TooNarrow → is_too_narrow (text_of T.seen self.old) ≡ true }
        ensures joined { IfOk result (λ laid. All (IsJoined T.seen) laid.lines.items) }
        ensures kept { with_source [] (text_of T.seen self.new) ≡ with_source [] (text_of T.seen self.old) }
        ensures stays { AreJoinedLines T.seen self.old → AreJoinedLines T.seen self.new }
    {
        if self.mode.preserve_whitespace() {
            return self.lay();
        }
        let alloc = *self.lines.allocator();
        let pieces = std::mem::replace(&mut self.pieces, Vec::new(alloc));
        lay_owned(alloc, self.width, self.allow_overflow, pieces)
    }

    /// The lines of the text that has not ended, and the markers that wait for what comes after it.
    fn lay(&self) -> Result<LaidText<T>, BlockError>
        ensures kinds { IfErr result (λ e. (e ≡ BlockError.TooNarrow) ⊎ (e ≡ BlockError.Memory)) }
        ensures lines { IfOk result (λ laid. map (line_items T.seen) laid.lines.items
            ≡ lines_in self.now.mode self.now.width (sources_of T.seen self.now.pieces.items)) }
        ensures waiting { IfOk result (λ laid. names laid.waiting.items
            ≡ waiting_in self.now.mode self.now.width (sources_of T.seen self.now.pieces.items)) }
        ensures room { OnOk result (is_too_narrow (text_of T.seen self.now) ≡ false) }
        ensures narrow { result ≡ Err BlockError.TooNarrow → is_too_narrow (text_of T.seen self.now) ≡ true }
        ensures joined { IfOk result (λ laid. All (IsJoined T.seen) laid.lines.items) }
    {
        let alloc = *self.lines.allocator();
        if self.mode.preserve_whitespace() {
            let wraps = self.mode.do_wrap();
            lay_preserved(alloc, self.width, self.allow_overflow, wraps, &self.pieces)
        } else {
            lay_normal(alloc, self.width, self.allow_overflow, &self.pieces)
        }
    }
}

fn is_same_mode(mode: WhiteSpace, other: WhiteSpace) -> bool
    ensures { result ≡ is_same_mode mode other }
{
    mode == other
}

/// One empty line, where there is none.
fn or_empty<T: EqualCopy + Drop>(
    lines: Vec<TaggedLine<T>>,
) -> Result<Vec<TaggedLine<T>>, AllocError>
    ensures lines { IfOk result (λ all. map (line_items T.seen) all.items
        ≡ lines_or_empty (map (line_items T.seen) lines.items)) }
    ensures joined { All (IsJoined T.seen) lines.items → IfOk result (λ all. All (IsJoined T.seen) all.items) }
{
    let mut lines = lines;
    if lines.is_empty() {
        let empty = TaggedLine::new(*lines.allocator());
        lines.push(empty)?;
    }
    Ok(lines)
}

/// The names of the markers among the pieces.
fn names_of<T: EqualCopy>(alloc: Global, pieces: &[Piece<T>]) -> Result<Vec<String>, AllocError>
    ensures { IfOk result (λ all. names all.items ≡ names_of (sources_of T.seen pieces.now)) }
{
    let mut names = Vec::new(alloc);
    let mut rest = pieces;
    while let Some((first, others)) = rest.split_first() {
        push_name(&mut names, first)?;
        rest = others;
    }
    Ok(names)
}

/// Adds the name of a piece that is a marker.
fn push_name<T: EqualCopy>(all: &mut Vec<String>, piece: &Piece<T>) -> Result<(), AllocError>
    ensures { OnOk result (names all.new.items ≡ names all.old.items ++ names_of (piece_sources T.seen piece.now)) }
{
    match piece {
        Piece::Text(_) => Ok(()),
        Piece::Fragment(name) => {
            all.push(String::from_str(*name.allocator(), name.as_str())?)?;
            Ok(())
        }
    }
}
