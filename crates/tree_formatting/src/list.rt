ghost use Rattle.std.specs.Prelude.{◌≡◌, ℕ, ◌<◌, List, [], ◌∷◌, ◌++◌, OnErr, OnOk, length, option_map};
ghost use Rattle.tree_formatting.specs.Entries.{before_marker, entries_of, given, handed_over, is_listed, last_named};
ghost use Rattle.tree_formatting.specs.Entries.{marker, moved_after, tag_in, up_to_marker, without_entry};
ghost use Rattle.tree_formatting.specs.Pushing.{pushed};
ghost use Rattle.tree_formatting.specs.Steps.{all_of, left_of};
ghost use Rattle.tree_formatting.specs.declared.entry.FormatEntry.{FormatEntry};

use crate::counted::TagCounts;
use crate::entry::FormatEntry;
use crate::find::{earliest_of_three, is_after_marker_without, last_of_name, position};
use crate::iter::ActiveFormattingIter;
use crate::taken::{take_off, take_off_to_marker};
use html_lexemes::{LocalName, Tag};
use std::alloc::{AllocError, Global};
use std::marker::Model;
use tree_forest::TreeSink;

/// The list of active formatting elements (WHATWG HTML, 13.2.4.3). Contracts see its entries, the earliest first, and
/// speak of them by the numbers of their elements, the latest first (`entries_of`).
#[derive(Drop)]
pub struct FormattingList<H> {
    entries: Vec<FormatEntry<H>>,
    counts: TagCounts,
}

impl<H> Model for FormattingList<H> {
    ghost use Rattle.std.specs.Prelude.{List};
    ghost use Rattle.tree_formatting.specs.Counted.{IsCounted, tags_of};
    ghost use Rattle.tree_formatting.specs.declared.entry.FormatEntry.{FormatEntry};

    ghost Value = { List (FormatEntry H) };

    ghost view = { λ list. list.entries.items };

    ghost invariant = { λ list. IsCounted (tags_of list.entries.items) list.counts };
}

impl<H: Copy> FormattingList<H> {
    /// No entries. It takes no memory.
    pub fn new(alloc: Global) -> FormattingList<H>
        ensures { result ≡ [] }
    {
        FormattingList {
            entries: Vec::new(alloc),
            counts: TagCounts::new(alloc),
        }
    }

    /// The entries, the earliest first, lent.
    pub fn as_slice(&self) -> &[FormatEntry<H>]
        ensures { result.now ≡ self.now }
    {
        self.entries.as_slice()
    }

    /// Puts a marker after all entries ("insert a marker at the end").
    pub fn push_marker(&mut self) -> Result<(), AllocError>
        ensures ok { OnOk result ((number : H → ℕ) →
            entries_of number self.new ≡ marker ∷ entries_of number self.old) }
        ensures err { OnErr result (self.new ≡ self.old) }
    {
        self.entries.push(FormatEntry::Marker)?;
        Ok(())
    }

    /// Puts an element after all entries; of three after the last marker that were made for such a tag the earliest
    /// goes. Where fewer than three entries have the tag's print, it compares with none, else with those from the end
    /// until it has come by as many as have it, or to the marker; of another name it looks at no attributes.
    pub fn push_element(&mut self, handle: H, tag: Tag) -> Result<(), AllocError>
        ensures ok { OnOk result ((number : H → ℕ) →
            entries_of number self.new ≡ pushed (number handle) tag (entries_of number self.old)) }
        ensures err { OnErr result (self.new ≡ self.old) }
    {
        let most = self.counts.count_in(&tag)?;
        let earliest = earliest_of_three(self.entries.as_slice(), &tag, most);
        self.entries.push(FormatEntry::Element(handle, tag))?;
        if let Some(at) = earliest {
            take_off(&mut self.entries, &mut self.counts, at);
        }
        Ok(())
    }

    /// Takes off the entries after the last marker, and the marker ("clear the list up to the last marker").
    pub fn clear_to_marker(&mut self)
        ensures { (number : H → ℕ) → entries_of number self.new ≡ before_marker (entries_of number self.old) }
    {
        take_off_to_marker(&mut self.entries, &mut self.counts);
    }

    /// The latest element after the last marker whose tag has this name. Where no tag in the list has it, it goes over
    /// no entries.
    pub fn last_named(&self, name: &LocalName) -> Option<H>
        ensures { (number : H → ℕ) → option_map number result ≡ last_named name.now (entries_of number self.now) }
    {
        if self.counts.most_named(name) == 0 {
            return None;
        }
        last_of_name(self.entries.as_slice(), name).copied()
    }

    /// Whether an element is listed.
    pub fn contains<S: TreeSink<Handle = H>>(&self, sink: &S, target: H) -> bool
        ensures { result ≡ is_listed (S.view.number target) (entries_of S.view.number self.now) }
    {
        position(self.entries.as_slice(), sink, target).is_some()
    }

    /// Whether an element is listed after the last marker, once another is not listed any more.
    pub fn stands_after_marker<S: TreeSink<Handle = H>>(
        &self,
        sink: &S,
        target: H,
        without: H,
    ) -> bool
        ensures { result ≡ is_listed (S.view.number target) (up_to_marker (without_entry (S.view.number without)
            (entries_of S.view.number self.now))) }
    {
        is_after_marker_without(self.entries.as_slice(), sink, target, without)
    }

    /// The start tag that an element that is listed was made for.
    pub fn tag_of<S: TreeSink<Handle = H>>(&self, sink: &S, target: H) -> Option<&Tag>
        ensures { option_map (λ tag. tag.now) result ≡ tag_in (S.view.number target) (entries_of S.view.number
            self.now) }
    {
        let at = position(self.entries.as_slice(), sink, target)?;
        match &self.entries[at] {
            FormatEntry::Element(_, tag) => Some(tag),
            FormatEntry::Marker => None,
        }
    }

    /// Takes an element's entry off, where it is listed.
    pub fn remove<S: TreeSink<Handle = H>>(&mut self, sink: &S, target: H)
        ensures { entries_of S.view.number self.new ≡ without_entry (S.view.number target) (entries_of S.view.number
            self.old) }
    {
        if let Some(at) = position(self.entries.as_slice(), sink, target) {
            take_off(&mut self.entries, &mut self.counts, at);
        }
    }

    /// Gives an element's entry to another, with its tag.
    pub fn hand_over<S: TreeSink<Handle = H>>(&mut self, sink: &S, target: H, to: H)
        ensures { entries_of S.view.number self.new ≡ handed_over (S.view.number target) (S.view.number to)
            (entries_of S.view.number self.old) }
    {
        if let Some(at) = position(self.entries.as_slice(), sink, target) {
            if let FormatEntry::Element(handle, _) = &mut self.entries[at] {
                *handle = to;
            }
        }
    }

    /// Gives the entry that has so many before it to another element, with its tag; a marker stays.
    pub fn give(&mut self, index: usize, to: H)
        requires { index < length self.old }
        ensures { (entry : FormatEntry H) (front back : List (FormatEntry H)) → self.old ≡ front ++ entry ∷ back →
            length front ≡ index → self.new ≡ front ++ given to entry ∷ back }
    {
        let FormatEntry::Element(handle, _) = &mut self.entries[index] else {
            return;
        };
        *handle = to;
    }

    /// Puts an element's entry right after that of another, and gives it to the element that has taken its place.
    pub fn move_after<S: TreeSink<Handle = H>>(
        &mut self,
        sink: &S,
        target: H,
        to: H,
        after: H,
    ) -> Result<(), AllocError>
        ensures ok { OnOk result (entries_of S.view.number self.new ≡ moved_after (S.view.number target)
            (S.view.number to) (S.view.number after) (entries_of S.view.number self.old)) }
        ensures err { OnErr result (self.new ≡ self.old) }
    {
        let Some(at) = position(self.entries.as_slice(), sink, target) else {
            return Ok(());
        };
        let FormatEntry::Element(_, tag) = self.entries.remove(at) else {
            unreachable!()
        };
        let place = match position(self.entries.as_slice(), sink, after) {
            Some(before) => before + 1,
            None => 0,
        };
        // this takes no memory: there is the room of the entry that was taken off
        self.entries.insert(place, FormatEntry::Element(to, tag))?;
        Ok(())
    }

    /// The entries after the last marker, the latest first.
    pub fn iter_to_marker(&self) -> ActiveFormattingIter<'_, H>
        ensures entries { all_of result ≡ self.now }
        ensures left { left_of result ≡ length self.now }
    {
        ActiveFormattingIter::new(self.entries.as_slice())
    }
}
