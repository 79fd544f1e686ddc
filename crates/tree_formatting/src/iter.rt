ghost use Rattle.std.specs.Prelude.{◌≡◌, ◌≤◌, length};
ghost use Rattle.std.specs.Iterator.{at_most};
ghost use Rattle.tree_formatting.specs.Steps.{IsNext, all_of, left_in, left_of};

use crate::entry::FormatEntry;
use crate::find::last_element;
use html_lexemes::Tag;

/// The entries of a list of active formatting elements (WHATWG HTML, 13.2.4.3) from the end to the last marker, then
/// ended for good: how many stand before each in the whole list, its element, and its tag.
#[derive(Drop)]
pub struct ActiveFormattingIter<'a, H> {
    entries: &'a [FormatEntry<H>],
    left: usize,
}

impl<'a, H: Copy> ActiveFormattingIter<'a, H> {
    /// It begins at the end of some entries.
    pub(crate) fn new(entries: &'a [FormatEntry<H>]) -> ActiveFormattingIter<'a, H>
        ensures entries { all_of result ≡ entries.now }
        ensures left { left_of result ≡ length entries.now }
    {
        ActiveFormattingIter {
            entries,
            left: entries.len(),
        }
    }
}

impl<'a, H: Copy> Iterator for ActiveFormattingIter<'a, H> {
    type Item = (usize, &'a H, &'a Tag);

    ghost can_next = { λ s. left_of s ≤ length (all_of s) };

    ghost next_gives = { λ s given t. (all_of t ≡ all_of s)
        × IsNext (left_in (all_of s) (left_of s)) given (left_of t) };

    ghost remaining = { λ s. at_most (left_of s) };

    /// The latest entry that is left; nothing at a marker and at the end.
    fn next(&mut self) -> Option<(usize, &'a H, &'a Tag)> {
        let Some((handle, tag, before)) = last_element(&self.entries[..self.left]) else {
            self.left = 0;
            return None;
        };
        self.left = before.len();
        Some((self.left, handle, tag))
    }
}
