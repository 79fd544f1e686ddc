//! Entries are taken off, and counted no longer.
ghost use Rattle.std.specs.Prelude.{◌≡◌, ℕ, ◌<◌, [], ◌∷◌, ◌++◌, IfSome, None, vec_len};
ghost use Rattle.std.specs.List.{remove};
ghost use Rattle.tree_formatting.specs.Counted.{IsCounted, tags_of};
ghost use Rattle.tree_formatting.specs.Entries.{before_marker, entries_of};
ghost use Rattle.tree_formatting.specs.declared.entry.FormatEntry.TheVariants.{Element};

use crate::counted::TagCounts;
use crate::entry::FormatEntry;
use html_lexemes::Tag;

/// Takes an entry off.
pub(crate) fn take_off<H: Copy>(
    entries: &mut Vec<FormatEntry<H>>,
    counts: &mut TagCounts,
    at: usize,
)
    requires { at < vec_len entries.old }
    ensures items { entries.new.items ≡ remove entries.old.items at }
    ensures counted { IsCounted (tags_of entries.old.items) counts.old →
        IsCounted (tags_of entries.new.items) counts.new }
{
    let entry = entries.remove(at);
    if let FormatEntry::Element(_, tag) = &entry {
        counts.count_out(tag);
    }
}

/// Takes the entries after the last marker off, and the marker.
pub(crate) fn take_off_to_marker<H: Copy>(entries: &mut Vec<FormatEntry<H>>, counts: &mut TagCounts)
    ensures items { (number : H → ℕ) →
        entries_of number entries.new.items ≡ before_marker (entries_of number entries.old.items) }
    ensures counted { IsCounted (tags_of entries.old.items) counts.old →
        IsCounted (tags_of entries.new.items) counts.new }
{
    'back: while let Some(tag) = take_last(entries) {
        counts.count_out(&tag);
    }
}

/// Takes the last entry off: its tag, where it isn't a marker.
fn take_last<H: Copy>(entries: &mut Vec<FormatEntry<H>>) -> Option<Tag>
    ensures some { IfSome result (λ tag. (handle : H)
        × (entries.old.items ≡ entries.new.items ++ Element handle tag ∷ [])) }
    ensures items { result ≡ None → (number : H → ℕ) →
        entries_of number entries.new.items ≡ before_marker (entries_of number entries.old.items) }
    ensures tags { result ≡ None → tags_of entries.new.items ≡ tags_of entries.old.items }
{
    match entries.pop() {
        Some(FormatEntry::Element(_, tag)) => Some(tag),
        Some(FormatEntry::Marker) => None,
        None => None,
    }
}
