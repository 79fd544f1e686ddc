//! Lines that are being laid.
ghost use Rattle.std.specs.Prelude.{◌≡◌, ◌≤◌, ◌+◌, [], IfOk, IsUtf8, OnOk, chars, length, nat_le, string_bytes};
ghost use Rattle.text_lines.specs.Tagged.{line_items, element_items, character, marker, tagged};
ghost use Rattle.text_preserved.specs.Preserved.{chosen, fresh, has_text, lay_blank, line_taken, line_text};
ghost use Rattle.text_preserved.specs.Preserved.{nothing_laid, put, put_all, with_room, written};

use crate::fronts::fitting_front;
use std::alloc::{AllocError, Global};
use text_lines::{EqualCopy, TaggedLine, TaggedLineElement, TaggedString};
use text_pieces::{first_char, has_text, width_of};

/// The lines of a source line so far.
#[derive(Drop)]
pub(crate) struct Rows<T> {
    pub(crate) done: Vec<TaggedLine<T>>,
    /// The line at hand, without the white space that ends it so far.
    pub(crate) line: TaggedLine<T>,
    /// That white space.
    pub(crate) tail: TaggedLine<T>,
    /// White space that is not written yet.
    pub(crate) spaces: TaggedLine<T>,
    /// Whether the source line was wrapped before what comes.
    pub(crate) goes_on: bool,
}

impl<T: EqualCopy + Drop> Rows<T> {
    ghost use Rattle.text_preserved.specs.Rows.{laying_of, HasJoinedRows};

    /// No line.
    pub(crate) fn new(alloc: Global) -> Rows<T>
        ensures laid { laying_of T.seen result ≡ nothing_laid }
        ensures joined { HasJoinedRows T.seen result }
    {
        Rows {
            done: Vec::new(alloc),
            line: TaggedLine::new(alloc),
            tail: TaggedLine::new(alloc),
            spaces: TaggedLine::new(alloc),
            goes_on: false,
        }
    }

    /// Whether there is a character on the line at hand: markers alone make no line.
    fn has_text(&self) -> bool
        ensures { result ≡ has_text (line_text (laying_of T.seen self.now)) }
    {
        has_text(&self.line) || has_text(&self.tail)
    }

    /// Ends the line at hand, where it has text.
    pub(crate) fn end_line(&mut self) -> Result<(), AllocError>
        ensures laid { OnOk result (laying_of T.seen self.new ≡ fresh (laying_of T.seen self.old)) }
        ensures joined { HasJoinedRows T.seen self.old → HasJoinedRows T.seen self.new }
    {
        if !self.has_text() {
            return Ok(());
        }
        self.line.push_line(&self.tail)?;
        self.tail.clear();
        let fresh = TaggedLine::new(*self.done.allocator());
        let line = std::mem::replace(&mut self.line, fresh);
        self.done.push(line)?;
        Ok(())
    }

    /// Whether the line at hand takes so many columns more.
    pub(crate) fn fits(&self, width: usize, more: usize) -> bool
        ensures { result ≡ nat_le (line_taken (laying_of T.seen self.now) + more) width }
    {
        let line = self.line.width();
        let tail = self.tail.width();
        line <= width && tail <= width - line && more <= width - line - tail
    }

    /// Ends the line at hand, where it doesn't take so many columns more.
    pub(crate) fn make_room(&mut self, width: usize, more: usize) -> Result<(), AllocError>
        ensures laid { OnOk result (laying_of T.seen self.new ≡ with_room width more (laying_of T.seen self.old)) }
        ensures joined { HasJoinedRows T.seen self.old → HasJoinedRows T.seen self.new }
    {
        if self.fits(width, more) {
            Ok(())
        } else {
            self.end_line()
        }
    }

    /// Adds to the line at hand.
    pub(crate) fn write(&mut self, items: &TaggedLine<T>) -> Result<(), AllocError>
        ensures laid { OnOk result (laying_of T.seen self.new
            ≡ written (laying_of T.seen self.old) (line_items T.seen items.now)) }
        ensures joined { HasJoinedRows T.seen self.old → HasJoinedRows T.seen self.new }
    {
        self.line.push_line(&self.tail)?;
        self.tail.clear();
        self.line.push_line(items)
    }

    /// Adds a character, on a fresh line where it doesn't go on the line at hand.
    fn put(&mut self, width: usize, c: char, tag: &T) -> Result<(), AllocError>
        ensures laid { OnOk result (laying_of T.seen self.new
            ≡ put width (laying_of T.seen self.old) (character c (T.seen tag.now))) }
        ensures no_tail { OnOk result (line_items T.seen self.new.tail ≡ []) }
        ensures joined { HasJoinedRows T.seen self.old → HasJoinedRows T.seen self.new }
    {
        self.make_room(width, width_of(c))?;
        self.line.push_line(&self.tail)?;
        self.tail.clear();
        self.line.push_char(c, tag)
    }

    fn put_marker(&mut self, width: usize, name: &str) -> Result<(), AllocError>
        ensures laid { OnOk result (laying_of T.seen self.new
            ≡ put width (laying_of T.seen self.old) (marker (chars name.now))) }
        ensures joined { HasJoinedRows T.seen self.old → HasJoinedRows T.seen self.new }
    {
        self.make_room(width, 0)?;
        self.line.push_line(&self.tail)?;
        self.tail.clear();
        self.line.push_marker(name)
    }

    /// Adds characters and markers one after another, each on a fresh line where it doesn't go on the line at hand.
    pub(crate) fn put_all(&mut self, width: usize, items: &TaggedLine<T>) -> Result<(), AllocError>
        ensures laid { OnOk result (laying_of T.seen self.new
            ≡ put_all width (laying_of T.seen self.old) (line_items T.seen items.now)) }
        ensures joined { HasJoinedRows T.seen self.old → HasJoinedRows T.seen self.new }
    {
        for element in items.iter() {
            self.put_element(width, element)?;
        }
        Ok(())
    }

    fn put_element(
        &mut self,
        width: usize,
        element: &TaggedLineElement<T>,
    ) -> Result<(), AllocError>
        ensures laid { OnOk result (laying_of T.seen self.new
            ≡ put_all width (laying_of T.seen self.old) (element_items T.seen element.now)) }
        ensures joined { HasJoinedRows T.seen self.old → HasJoinedRows T.seen self.new }
    {
        match element {
            TaggedLineElement::Str(string) => self.put_string(width, string),
            TaggedLineElement::FragmentStart(name) => self.put_marker(width, name.as_str()),
        }
    }

    fn put_string(&mut self, width: usize, string: &TaggedString<T>) -> Result<(), AllocError>
        ensures laid { OnOk result (laying_of T.seen self.new ≡ put_all width (laying_of T.seen self.old)
            (tagged (chars (string_bytes string.now.s)) (T.seen string.now.tag))) }
        ensures joined { HasJoinedRows T.seen self.old → HasJoinedRows T.seen self.new }
    {
        let mut rest = string.s.as_str();
        while let Some((c, after)) = first_char(rest) {
            self.put(width, c, &string.tag)?;
            rest = self.put_front(width, after, &string.tag)?;
        }
        Ok(())
    }

    /// Adds the characters in front that go on the line at hand, all at once; what follows them is left.
    fn put_front<'a>(&mut self, width: usize, text: &'a str, tag: &T) -> Result<&'a str, AllocError>
        requires no_tail { line_items T.seen self.old.tail ≡ [] }
        ensures laid { IfOk result (λ rest. put_all width (laying_of T.seen self.new)
            (tagged (chars rest.now) (T.seen tag.now))
            ≡ put_all width (laying_of T.seen self.old) (tagged (chars text.now) (T.seen tag.now))) }
        ensures joined { HasJoinedRows T.seen self.old → HasJoinedRows T.seen self.new }
        ensures text { IfOk result (λ rest. IsUtf8 rest.now) }
        ensures no_longer { IfOk result (λ rest. length rest.now ≤ length text.now) }
    {
        let (front, rest) = fitting_front(text, width, self.line.width());
        self.line.push_str(front, tag)?;
        Ok(rest)
    }

    /// Holds white space of so many columns, which is not written yet.
    pub(crate) fn hold(
        &mut self,
        columns: usize,
        main_tag: &T,
        wrap_tag: &T,
    ) -> Result<(), AllocError>
        ensures laid { OnOk result (laying_of T.seen self.new
            ≡ lay_blank columns (T.seen main_tag.now) (T.seen wrap_tag.now) (laying_of T.seen self.old)) }
        ensures joined { HasJoinedRows T.seen self.old → HasJoinedRows T.seen self.new }
    {
        let tag = chosen(self.goes_on, main_tag, wrap_tag);
        self.spaces.push_spaces(columns, tag)
    }
}

/// The tag of what comes: the second where its source line was wrapped before.
pub(crate) fn chosen<'a, T: EqualCopy>(goes_on: bool, main_tag: &'a T, wrap_tag: &'a T) -> &'a T
    ensures { T.seen result.now ≡ chosen goes_on (T.seen main_tag.now) (T.seen wrap_tag.now) }
{
    if goes_on { wrap_tag } else { main_tag }
}
