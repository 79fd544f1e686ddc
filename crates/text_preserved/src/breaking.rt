//! White space and bodies on lines that are being laid.
ghost use Rattle.std.specs.Prelude.{◌≡◌, ◌+◌, ◌-◌, ◌%◌, [], ◌++◌, ◌||◌, ◌==◌, ◌∷◌, ◌≤◌, if◌then◌else◌, IfOk, OnOk};
ghost use Rattle.std.specs.Prelude.{chars, drop, fold, length, min, string_bytes};
ghost use Rattle.text_lines.specs.Tagged.{IsJoined, character, element_items, line_columns, line_items, marker, tagged};
ghost use Rattle.text_preserved.specs.Preserved.{after_stop, broken_anywhere, broken_at_white, lay_items, lay_stop};
ghost use Rattle.text_preserved.specs.Preserved.{line_taken, put_space, remaining, tabbed, taken, to_stop};
ghost use Rattle.text_preserved.specs.Preserved.{without_spaces, written};

use crate::laying::{Rows, chosen};
use std::alloc::AllocError;
use text_lines::{EqualCopy, TaggedLine, TaggedLineElement, TaggedString};
use text_pieces::first_char;

impl<T: EqualCopy + Drop> Rows<T> {
    ghost use Rattle.text_preserved.specs.Rows.{laying_of, HasJoinedRows};

    /// Lays a tab: white space before it is written, then spaces up to the next multiple of 8, at least one, on a fresh
    /// line where the one at hand is full.
    pub(crate) fn lay_stop(
        &mut self,
        width: usize,
        main_tag: &T,
        wrap_tag: &T,
    ) -> Result<(), AllocError>
        ensures laid { OnOk result (laying_of T.seen self.new
            ≡ lay_stop width (T.seen main_tag.now) (T.seen wrap_tag.now) (laying_of T.seen self.old)) }
        ensures joined { HasJoinedRows T.seen self.old → HasJoinedRows T.seen self.new }
    {
        let tag = chosen(self.goes_on, main_tag, wrap_tag);
        self.put_spaces(width)?;
        self.make_room(width, 1)?;
        self.tab(width, tag)
    }

    /// Writes the white space that waits after the line at hand, and on fresh ones where it doesn't go there.
    fn put_spaces(&mut self, width: usize) -> Result<(), AllocError>
        ensures laid { OnOk result (laying_of T.seen self.new ≡ fold (put_space width)
            (without_spaces (laying_of T.seen self.old)) (laying_of T.seen self.old).spaces) }
        ensures joined { HasJoinedRows T.seen self.old → HasJoinedRows T.seen self.new }
    {
        let none = TaggedLine::new(*self.done.allocator());
        let spaces = std::mem::replace(&mut self.spaces, none);
        self.put_tail(width, &spaces)
    }

    fn put_tail(&mut self, width: usize, items: &TaggedLine<T>) -> Result<(), AllocError>
        ensures laid { OnOk result (laying_of T.seen self.new
            ≡ fold (put_space width) (laying_of T.seen self.old) (line_items T.seen items.now)) }
        ensures joined { HasJoinedRows T.seen self.old → HasJoinedRows T.seen self.new }
    {
        for element in items.iter() {
            self.put_tail_element(width, element)?;
        }
        Ok(())
    }

    fn put_tail_element(
        &mut self,
        width: usize,
        element: &TaggedLineElement<T>,
    ) -> Result<(), AllocError>
        ensures laid { OnOk result (laying_of T.seen self.new
            ≡ fold (put_space width) (laying_of T.seen self.old) (element_items T.seen element.now)) }
        ensures joined { HasJoinedRows T.seen self.old → HasJoinedRows T.seen self.new }
    {
        match element {
            TaggedLineElement::Str(string) => self.put_tail_string(width, string),
            TaggedLineElement::FragmentStart(name) => self.put_tail_marker(width, name.as_str()),
        }
    }

    fn put_tail_string(&mut self, width: usize, string: &TaggedString<T>) -> Result<(), AllocError>
        ensures laid { OnOk result (laying_of T.seen self.new ≡ fold (put_space width) (laying_of T.seen self.old)
            (tagged (chars (string_bytes string.now.s)) (T.seen string.now.tag))) }
        ensures joined { HasJoinedRows T.seen self.old → HasJoinedRows T.seen self.new }
    {
        for c in string.s.as_str().chars() {
            self.put_tail_char(width, c, &string.tag)?;
        }
        Ok(())
    }

    fn put_tail_char(&mut self, width: usize, c: char, tag: &T) -> Result<(), AllocError>
        ensures laid { OnOk result (laying_of T.seen self.new
            ≡ put_space width (laying_of T.seen self.old) (character c (T.seen tag.now))) }
        ensures joined { HasJoinedRows T.seen self.old → HasJoinedRows T.seen self.new }
    {
        self.make_room(width, 1)?;
        self.tail.push_char(c, tag)
    }

    fn put_tail_marker(&mut self, width: usize, name: &str) -> Result<(), AllocError>
        ensures laid { OnOk result (laying_of T.seen self.new
            ≡ put_space width (laying_of T.seen self.old) (marker (chars name.now))) }
        ensures joined { HasJoinedRows T.seen self.old → HasJoinedRows T.seen self.new }
    {
        self.make_room(width, 1)?;
        self.tail.push_marker(name)
    }

    /// The columns of the line at hand. No memory holds a line of more than a `usize` counts.
    fn line_taken(&self) -> Result<usize, AllocError>
        ensures { IfOk result (λ n. n ≡ line_taken (laying_of T.seen self.now)) }
    {
        self.line
            .width()
            .checked_add(self.tail.width())
            .ok_or(AllocError)
    }

    /// Writes spaces up to the next stop.
    fn tab(&mut self, width: usize, tag: &T) -> Result<(), AllocError>
        ensures laid { OnOk result (laying_of T.seen self.new
            ≡ tabbed width (T.seen tag.now) (laying_of T.seen self.old)) }
        ensures joined { HasJoinedRows T.seen self.old → HasJoinedRows T.seen self.new }
    {
        let at = self.line_taken()?;
        self.tail.push_spaces(to_stop(width, at), tag)?;
        self.end_full_line(width)
    }

    /// Ends the line at hand after a tab that was cut off at the width.
    fn end_full_line(&mut self, width: usize) -> Result<(), AllocError>
        ensures laid { OnOk result (laying_of T.seen self.new ≡ after_stop width (laying_of T.seen self.old)) }
        ensures joined { HasJoinedRows T.seen self.old → HasJoinedRows T.seen self.new }
    {
        let at = self.line_taken()?;
        if at < width || at % 8 == 0 {
            Ok(())
        } else {
            self.end_line()
        }
    }

    /// Lays a body: after the white space that waits, where both go on the line at hand; else each of its characters
    /// where it goes, on a fresh line first.
    pub(crate) fn lay_items(
        &mut self,
        width: usize,
        wraps: bool,
        items: &TaggedLine<T>,
    ) -> Result<(), AllocError>
        ensures laid { OnOk result (laying_of T.seen self.new
            ≡ lay_items width wraps (line_items T.seen items.now) (laying_of T.seen self.old)) }
        ensures joined { HasJoinedRows T.seen self.old → HasJoinedRows T.seen self.new }
    {
        if self.taken()?.checked_add(items.width()).ok_or(AllocError)? <= width {
            return self.write_after_spaces(items);
        }
        self.break_line(width, wraps)?;
        self.put_all(width, items)
    }

    /// The columns of the line at hand, and of the white space that waits after it.
    pub(crate) fn taken(&self) -> Result<usize, AllocError>
        ensures { IfOk result (λ n. n ≡ taken (laying_of T.seen self.now)) }
    {
        self.line_taken()?
            .checked_add(self.spaces.width())
            .ok_or(AllocError)
    }

    fn write_after_spaces(&mut self, items: &TaggedLine<T>) -> Result<(), AllocError>
        ensures laid { OnOk result (laying_of T.seen self.new
            ≡ written (without_spaces (laying_of T.seen self.old))
            ((laying_of T.seen self.old).spaces ++ line_items T.seen items.now)) }
        ensures joined { HasJoinedRows T.seen self.old → HasJoinedRows T.seen self.new }
    {
        self.write_spaces()?;
        self.line.push_line(items)
    }

    /// Writes a text on the line at hand, after the white space that waits.
    pub(crate) fn write_text(&mut self, text: &str, tag: &T) -> Result<(), AllocError>
        ensures laid { OnOk result (laying_of T.seen self.new ≡ written (without_spaces (laying_of T.seen self.old))
            ((laying_of T.seen self.old).spaces ++ tagged (chars text.now) (T.seen tag.now))) }
        ensures joined { HasJoinedRows T.seen self.old → HasJoinedRows T.seen self.new }
    {
        self.write_spaces()?;
        self.line.push_str(text, tag)
    }

    /// Writes the white space that waits.
    fn write_spaces(&mut self) -> Result<(), AllocError>
        ensures laid { OnOk result (laying_of T.seen self.new
            ≡ written (without_spaces (laying_of T.seen self.old)) (laying_of T.seen self.old).spaces) }
        ensures joined { HasJoinedRows T.seen self.old → HasJoinedRows T.seen self.new }
    {
        self.line.push_line(&self.tail)?;
        self.tail.clear();
        self.line.push_line(&self.spaces)?;
        self.spaces.clear();
        Ok(())
    }

    /// Breaks the line before a body.
    fn break_line(&mut self, width: usize, wraps: bool) -> Result<(), AllocError>
        ensures laid { OnOk result (laying_of T.seen self.new ≡ (if wraps then broken_at_white (laying_of T.seen self.old)
            else broken_anywhere width (laying_of T.seen self.old))) }
        ensures joined { HasJoinedRows T.seen self.old → HasJoinedRows T.seen self.new }
    {
        if wraps {
            self.break_at_white()
        } else {
            self.break_anywhere(width)
        }
    }

    /// White space at the break is dropped.
    fn break_at_white(&mut self) -> Result<(), AllocError>
        ensures laid { OnOk result (laying_of T.seen self.new ≡ broken_at_white (laying_of T.seen self.old)) }
        ensures joined { HasJoinedRows T.seen self.old → HasJoinedRows T.seen self.new }
    {
        self.tail.clear();
        self.end_line()?;
        self.spaces.clear();
        Ok(())
    }

    /// White space at least as wide as what is left of the line loses so many columns, and then a width's while it has
    /// as many; narrower white space is written on the line.
    fn break_anywhere(&mut self, width: usize) -> Result<(), AllocError>
        ensures laid { OnOk result (laying_of T.seen self.new ≡ broken_anywhere width (laying_of T.seen self.old)) }
        ensures joined { HasJoinedRows T.seen self.old → HasJoinedRows T.seen self.new }
    {
        let left = width.saturating_sub(self.line_taken()?);
        if left > self.spaces.width() {
            self.write_spaces()?;
            return self.end_line();
        }
        self.end_line()?;
        self.write_remaining(width, left)
    }

    /// Writes what remains of the white space that waits, where so many columns are left of the line.
    fn write_remaining(&mut self, width: usize, left: usize) -> Result<(), AllocError>
        requires { left ≤ line_columns (line_items T.seen self.old.spaces) }
        ensures laid { OnOk result (laying_of T.seen self.new ≡ written (without_spaces (laying_of T.seen self.old))
            (remaining width left (laying_of T.seen self.old).spaces)) }
        ensures joined { HasJoinedRows T.seen self.old → HasJoinedRows T.seen self.new }
    {
        let columns = self.spaces.width();
        let trailing = columns - left;
        let kept = trailing.checked_rem(width).unwrap_or(trailing);
        self.line.push_line(&self.tail)?;
        self.tail.clear();
        push_dropped(&mut self.line, &self.spaces, columns - kept)?;
        self.spaces.clear();
        Ok(())
    }
}

/// The columns to the next multiple of 8, at most those that are left.
fn to_stop(width: usize, at: usize) -> usize
    ensures { result ≡ to_stop width at }
{
    (8 - at % 8).min(width.saturating_sub(at))
}

/// Adds what is after the first `dropped` characters and markers.
fn push_dropped<T: EqualCopy + Drop>(
    line: &mut TaggedLine<T>,
    items: &TaggedLine<T>,
    dropped: usize,
) -> Result<(), AllocError>
    ensures items { OnOk result (line_items T.seen line.new
        ≡ line_items T.seen line.old ++ drop dropped (line_items T.seen items.now)) }
    ensures joined { IsJoined T.seen line.old → IsJoined T.seen line.new }
{
    let mut left = dropped;
    for element in items.iter() {
        left = push_element_dropped(line, element, left)?;
    }
    Ok(())
}

/// The same of an element; the answer is how many are left to drop.
fn push_element_dropped<T: EqualCopy + Drop>(
    line: &mut TaggedLine<T>,
    element: &TaggedLineElement<T>,
    dropped: usize,
) -> Result<usize, AllocError>
    ensures items { OnOk result (line_items T.seen line.new
        ≡ line_items T.seen line.old ++ drop dropped (element_items T.seen element.now)) }
    ensures left { IfOk result (λ left. left ≡ dropped - length (element_items T.seen element.now)) }
    ensures joined { IsJoined T.seen line.old → IsJoined T.seen line.new }
{
    match element {
        TaggedLineElement::Str(string) => push_string_dropped(line, string, dropped),
        TaggedLineElement::FragmentStart(name) => push_marker_dropped(line, name.as_str(), dropped),
    }
}

fn push_marker_dropped<T: EqualCopy + Drop>(
    line: &mut TaggedLine<T>,
    name: &str,
    dropped: usize,
) -> Result<usize, AllocError>
    ensures items { OnOk result (line_items T.seen line.new
        ≡ line_items T.seen line.old ++ drop dropped (marker (chars name.now) ∷ [])) }
    ensures left { IfOk result (λ left. left ≡ dropped - 1) }
    ensures joined { IsJoined T.seen line.old → IsJoined T.seen line.new }
{
    if dropped > 0 {
        return Ok(dropped - 1);
    }
    line.push_marker(name)?;
    Ok(0)
}

fn push_string_dropped<T: EqualCopy + Drop>(
    line: &mut TaggedLine<T>,
    string: &TaggedString<T>,
    dropped: usize,
) -> Result<usize, AllocError>
    ensures items { OnOk result (line_items T.seen line.new ≡ line_items T.seen line.old
        ++ drop dropped (tagged (chars (string_bytes string.now.s)) (T.seen string.now.tag))) }
    ensures left { IfOk result (λ left. left ≡ dropped - length (chars (string_bytes string.now.s))) }
    ensures joined { IsJoined T.seen line.old → IsJoined T.seen line.new }
{
    let mut left = dropped;
    let mut rest = string.s.as_str();
    while let Some((_, after)) = first_char(rest) {
        if left == 0 {
            line.push_str(rest, &string.tag)?;
            return Ok(0);
        }
        left -= 1;
        rest = after;
    }
    Ok(left)
}
