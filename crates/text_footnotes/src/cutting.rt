//! Lines that are cut.
ghost use Rattle.std.specs.Prelude.{◌≡◌, ◌+◌, ◌≤◌, All, IfOk, IsTrue, OnOk, chars, fold, map, nat_le, string_bytes};
ghost use Rattle.std.specs.Prelude.{take};
ghost use Rattle.std.specs.Str.{IsCharBoundary};
ghost use Rattle.text_lines.specs.Tagged.{line_items, character, marker, tagged, IsJoined};
ghost use Rattle.text_footnotes.specs.Footnotes.{nothing_cut, all_lines};
ghost use Rattle.text_footnotes.specs.Cuts.{spaced, has_room, HasRoomFor, IsPrintable};

use std::alloc::{AllocError, Global};
use std::mem;
use text_lines::{EqualCopy, TaggedLine};
use text_pieces::{has_text, width_of};

/// Lines that are done, and the one that is begun.
#[derive(Drop)]
pub(crate) struct CutLines<T> {
    pub(crate) done: Vec<TaggedLine<T>>,
    pub(crate) line: TaggedLine<T>,
}

impl<T: EqualCopy + Drop> CutLines<T> {
    ghost use Rattle.text_footnotes.specs.Cuts.{HasJoinedTexts, cut_of, placed_spaced, placed_within, with_room};

    /// No line is done.
    pub(crate) fn new(alloc: Global) -> CutLines<T>
        ensures cut { cut_of T.seen result ≡ nothing_cut }
        ensures joined { HasJoinedTexts T.seen result }
    {
        CutLines {
            done: Vec::new(alloc),
            line: TaggedLine::new(alloc),
        }
    }

    /// All lines, the one that is begun too.
    pub(crate) fn into_lines(self) -> Result<Vec<TaggedLine<T>>, AllocError>
        ensures lines { IfOk result (λ lines. map (line_items T.seen) lines.items ≡ all_lines (cut_of T.seen self)) }
        ensures joined { HasJoinedTexts T.seen self → IfOk result (λ lines. All (IsJoined T.seen) lines.items) }
    {
        let CutLines { mut done, line } = self;
        done.push(line)?;
        Ok(done)
    }

    /// Adds a marker to the line.
    pub(crate) fn push_marker(&mut self, width: Option<usize>, name: &str) -> Result<(), AllocError>
        ensures placed { OnOk result (cut_of T.seen self.new
            ≡ placed_within width (cut_of T.seen self.old) (marker (chars name.now))) }
        ensures joined { HasJoinedTexts T.seen self.old → HasJoinedTexts T.seen self.new }
    {
        self.line.push_marker(name)
    }

    /// Adds characters one after another; a line end is a space.
    pub(crate) fn push_text(
        &mut self,
        width: Option<usize>,
        text: &str,
        tag: &T,
    ) -> Result<(), AllocError>
        ensures placed { OnOk result (cut_of T.seen self.new
            ≡ fold (placed_spaced width) (cut_of T.seen self.old) (tagged (chars text.now) (T.seen tag.now))) }
        ensures joined { HasJoinedTexts T.seen self.old → HasJoinedTexts T.seen self.new }
    {
        let rest = self.push_run(width, text, tag)?;
        self.push_characters(width, rest, tag)
    }

    /// Moves a text in, as `push_text` adds one.
    pub(crate) fn push_string(
        &mut self,
        width: Option<usize>,
        text: String,
        tag: T,
    ) -> Result<(), AllocError>
        ensures placed { OnOk result (cut_of T.seen self.new ≡ fold (placed_spaced width) (cut_of T.seen self.old)
            (tagged (chars (string_bytes text)) (T.seen tag))) }
        ensures joined { HasJoinedTexts T.seen self.old → HasJoinedTexts T.seen self.new }
    {
        // The common case: all of it goes on the line at hand as it is.
        let count = run_length(text.as_str(), self.room(width));
        if count == text.len() {
            return self.line.push_string(text, count, tag);
        }
        self.push_text(width, text.as_str(), &tag)
    }

    /// Adds what stands in front of a text and goes on the line at hand as it is; the text after it.
    fn push_run<'t>(
        &mut self,
        width: Option<usize>,
        text: &'t str,
        tag: &T,
    ) -> Result<&'t str, AllocError>
        ensures placed { IfOk result (λ rest. fold (placed_spaced width) (cut_of T.seen self.new)
            (tagged (chars rest.now) (T.seen tag.now))
            ≡ fold (placed_spaced width) (cut_of T.seen self.old) (tagged (chars text.now) (T.seen tag.now))) }
        ensures joined { HasJoinedTexts T.seen self.old → HasJoinedTexts T.seen self.new }
    {
        let count = run_length(text, self.room(width));
        let (run, rest) = text.split_at(count);
        self.line.push_counted(run, count, tag)?;
        Ok(rest)
    }

    /// Adds characters one by one.
    fn push_characters(
        &mut self,
        width: Option<usize>,
        text: &str,
        tag: &T,
    ) -> Result<(), AllocError>
        ensures placed { OnOk result (cut_of T.seen self.new
            ≡ fold (placed_spaced width) (cut_of T.seen self.old) (tagged (chars text.now) (T.seen tag.now))) }
        ensures joined { HasJoinedTexts T.seen self.old → HasJoinedTexts T.seen self.new }
    {
        for c in text.chars() {
            self.push_character(width, spaced(c), tag)?;
        }
        Ok(())
    }

    /// How many columns the line at hand has room for.
    fn room(&self, width: Option<usize>) -> usize
        ensures { HasRoomFor width (line_items T.seen self.now.line) result }
    {
        match width {
            Some(width) => width.saturating_sub(self.line.width()),
            None => usize::MAX,
        }
    }

    /// Adds a character, to the line that it begins where the line at hand has no room for it.
    fn push_character(&mut self, width: Option<usize>, c: char, tag: &T) -> Result<(), AllocError>
        ensures placed { OnOk result (cut_of T.seen self.new
            ≡ placed_within width (cut_of T.seen self.old) (character c (T.seen tag.now))) }
        ensures joined { HasJoinedTexts T.seen self.old → HasJoinedTexts T.seen self.new }
    {
        self.make_room(width, c)?;
        self.line.push_char(c, tag)
    }

    /// Ends the line at hand where it has no room for the character.
    fn make_room(&mut self, width: Option<usize>, c: char) -> Result<(), AllocError>
        ensures placed { OnOk result (cut_of T.seen self.new ≡ with_room width c (cut_of T.seen self.old)) }
        ensures joined { HasJoinedTexts T.seen self.old → HasJoinedTexts T.seen self.new }
    {
        if self.has_room(width, c) {
            return Ok(());
        }
        let empty = TaggedLine::new(*self.done.allocator());
        let line = mem::replace(&mut self.line, empty);
        self.done.push(line)?;
        Ok(())
    }

    /// Whether the character goes on the line at hand.
    fn has_room(&self, width: Option<usize>, c: char) -> bool
        ensures { result ≡ has_room width (cut_of T.seen self.now).line c }
    {
        match width {
            Some(width) => fits(self.line.width(), width_of(c), width) || !has_text(&self.line),
            None => true,
        }
    }
}

/// How many characters of printable ASCII stand in front of a text, at most so many.
fn run_length(text: &str, most: usize) -> usize
    ensures boundary { IsCharBoundary text.now result }
    ensures within { result ≤ most }
    ensures printable { All IsPrintable (take result text.now) }
{
    let bytes = text.as_bytes();
    let mut at = 0;
    while at < bytes.len() && at < most && is_printable(bytes[at]) {
        at += 1;
    }
    at
}

fn is_printable(byte: u8) -> bool
    ensures { IsTrue result → IsPrintable byte }
{
    matches!(byte, b' '..=b'~')
}

/// Whether a line takes so many columns more.
fn fits(taken: usize, more: usize, width: usize) -> bool
    ensures { result ≡ nat_le (taken + more) width }
{
    taken <= width && more <= width - taken
}

/// A line end is a space.
fn spaced(c: char) -> char
    ensures { result ≡ spaced c }
{
    if c == '\n' { ' ' } else { c }
}
