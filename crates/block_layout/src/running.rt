//! The text that is not laid out yet.

use crate::measure::Measure;
use crate::texts::holds_text;
use std::alloc::{AllocError, Global};
use text_lines::EqualCopy;
use text_pieces::{BlockError, LaidText, WhiteSpace};
use text_wrapping::TextBlock;

/// A text in one mode of white space.
#[derive(Drop)]
pub(crate) struct Running<T> {
    /// None while it is empty.
    mode: Option<WhiteSpace>,
    text: TextBlock<T>,
    fill: T,
}

ghost use Rattle.std.specs.Prelude.{◌≡◌, not, chars};
ghost use Rattle.text_pieces.specs.Modes.{is_same_mode};
ghost use Rattle.block_layout.specs.Laid.{next_mode};

impl<T: EqualCopy + Drop> Running<T> {
    ghost use Rattle.std.specs.Prelude.{◌⊎◌, false, None, Some, map, All, IsTrue, IfOk, IfErr, OnOk};
    ghost use Rattle.std.specs.Option.{option_map};
    ghost use Rattle.text_lines.specs.Tagged.{line_items, IsJoined};
    ghost use Rattle.text_pieces.specs.Sources.{names};
    ghost use Rattle.text_pieces.specs.declared.fault.BlockError.TheVariants as errors;
    ghost use Rattle.text_wrapping.specs.Blocks.{added, broken, has_columns};
    ghost use Rattle.block_layout.specs.Laid.{is_other_mode, laid_text, running_or_new, with_added, with_marker};
    ghost use Rattle.block_layout.specs.Laid.{with_text_of};
    ghost use Rattle.block_layout.specs.Seen.{running_of, RunsJoined};

    /// An empty text, whose lines are filled with spaces of the tag.
    pub(crate) fn new(alloc: Global, measure: Measure, tag: &T) -> Result<Running<T>, AllocError>
        ensures running { IfOk result (λ r. running_of T.seen r ≡ running_or_new measure (T.seen tag.now) None) }
        ensures joined { IfOk result (RunsJoined T.seen) }
    {
        let Measure {
            wrap_width,
            overflow,
            ..
        } = measure;
        let fill = tag.copy(alloc)?;
        let text = TextBlock::new(alloc, wrap_width, false, overflow, tag.copy(alloc)?);
        Ok(Running {
            mode: None,
            text,
            fill,
        })
    }

    /// Whether the text has another mode.
    #[inline(always)]
    pub(crate) fn has_other_mode(&self, mode: WhiteSpace) -> bool
        ensures { result ≡ is_other_mode mode (running_of T.seen self.now).mode }
    {
        match self.mode {
            Some(other) => is_other_mode(mode, other),
            None => false,
        }
    }

    pub(crate) fn has_columns(&self) -> bool
        ensures { result ≡ has_columns (running_of T.seen self.now).text }
    {
        self.text.has_columns()
    }

    /// Adds text after what there is. What was refused is to be thrown away.
    #[inline(always)]
    pub(crate) fn add_text(
        &mut self,
        mode: WhiteSpace,
        text: &str,
        main_tag: &T,
        wrap_tag: &T,
    ) -> Result<(), BlockError>
        ensures kinds { IfErr result (λ e. (e ≡ errors.TooNarrow) ⊎ (e ≡ errors.Memory)) }
        ensures added { OnOk result (option_map (with_added mode (chars text.now) (running_of T.seen self.old))
            (added mode (chars text.now) (T.seen main_tag.now) (T.seen wrap_tag.now) (running_of T.seen self.old).text)
            ≡ Some (running_of T.seen self.new)) }
        ensures narrow { result ≡ Err errors.TooNarrow → added mode (chars text.now) (T.seen main_tag.now)
            (T.seen wrap_tag.now) (running_of T.seen self.old).text ≡ None }
        ensures joined { RunsJoined T.seen self.old → RunsJoined T.seen self.new }
    {
        self.text.add_text(text, mode, main_tag, wrap_tag)?;
        self.mode = next_mode(mode, text, self.mode);
        Ok(())
    }

    /// Adds text of one tag as `add_text` does, where it has no other mode, and its white space is not preserved. Tells
    /// whether it did; else nothing has changed.
    #[inline(always)]
    pub(crate) fn add_more(
        &mut self,
        mode: WhiteSpace,
        text: &str,
        tag: &T,
    ) -> Result<bool, AllocError>
        ensures more { IfOk result (λ more. IsTrue more
            → (is_other_mode mode (running_of T.seen self.old).mode ≡ false)
            × (option_map (with_added mode (chars text.now) (running_of T.seen self.old))
            (added mode (chars text.now) (T.seen tag.now) (T.seen tag.now) (running_of T.seen self.old).text)
            ≡ Some (running_of T.seen self.new))) }
        ensures stays { IfOk result (λ more. more ≡ false
            → running_of T.seen self.new ≡ running_of T.seen self.old) }
        ensures joined { RunsJoined T.seen self.old → RunsJoined T.seen self.new }
    {
        if self.has_other_mode(mode) {
            return Ok(false);
        }
        if !self.text.add_more(text, mode, tag)? {
            return Ok(false);
        }
        self.mode = next_mode(mode, text, self.mode);
        Ok(true)
    }

    /// Adds a marker. What was refused is to be thrown away.
    pub(crate) fn add_marker(&mut self, name: &str) -> Result<(), BlockError>
        ensures kinds { IfErr result (λ e. e ≡ errors.Memory) }
        ensures marked { OnOk result (running_of T.seen self.new
            ≡ with_marker (chars name.now) (running_of T.seen self.old)) }
        ensures joined { RunsJoined T.seen self.old → RunsJoined T.seen self.new }
    {
        self.text.record_frag_start(name)
    }

    /// Ends the text's line, and tells whether it has columns. What was refused is to be thrown away.
    pub(crate) fn break_text(&mut self) -> Result<bool, BlockError>
        ensures kinds { IfErr result (λ e. (e ≡ errors.TooNarrow) ⊎ (e ≡ errors.Memory)) }
        ensures broken { IfOk result (λ ends. option_map (with_text_of (running_of T.seen self.old))
            (broken (running_of T.seen self.old).text) ≡ Some (ends, running_of T.seen self.new)) }
        ensures narrow { result ≡ Err errors.TooNarrow → broken (running_of T.seen self.old).text ≡ None }
        ensures joined { RunsJoined T.seen self.old → RunsJoined T.seen self.new }
    {
        self.text.break_text()
    }

    /// The lines of the text, the names of the markers that found none, and the tag of what fills the lines.
    pub(crate) fn laid(self) -> Result<(LaidText<T>, T), BlockError>
        ensures kinds { IfErr result (λ e. (e ≡ errors.TooNarrow) ⊎ (e ≡ errors.Memory)) }
        ensures laid { IfOk result (λ r. laid_text (running_of T.seen self).text
            ≡ Some (names r.0.waiting.items, map (line_items T.seen) r.0.lines.items)) }
        ensures fill { IfOk result (λ r. T.seen r.1 ≡ (running_of T.seen self).fill) }
        ensures narrow { result ≡ Err errors.TooNarrow → laid_text (running_of T.seen self).text ≡ None }
        ensures joined { RunsJoined T.seen self → IfOk result (λ r. All (IsJoined T.seen) r.0.lines.items) }
    {
        let Running { mut text, fill, .. } = self;
        let waiting = text.take_trailing_fragments()?;
        let lines = text.into_lines()?;
        Ok((LaidText { lines, waiting }, fill))
    }
}

fn is_other_mode(mode: WhiteSpace, other: WhiteSpace) -> bool
    ensures { result ≡ not (is_same_mode mode other) }
{
    mode != other
}

/// The mode of a text that had another, or none, after more of it.
#[inline(always)]
fn next_mode(mode: WhiteSpace, text: &str, begun: Option<WhiteSpace>) -> Option<WhiteSpace>
    ensures { result ≡ next_mode mode (chars text.now) begun }
{
    if holds_text(text) {
        return Some(mode);
    }
    begun
}
