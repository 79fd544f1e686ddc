//! Where entries stand, looked for from the end: what is asked for mostly stands there.
ghost use Rattle.std.specs.Prelude.{◌≡◌, ℕ, ◌≤◌, [], ◌∷◌, ◌++◌, IfSome, None, false, option_map};
ghost use Rattle.tree_formatting.specs.Alike.{are_alike, count_alike};
ghost use Rattle.tree_formatting.specs.Entries.{entries_of, entry_of, is_listed, is_of, last_named, up_to_marker};
ghost use Rattle.tree_formatting.specs.Entries.{without_entry};
ghost use Rattle.tree_formatting.specs.Found.{HasRoom, IsAtMarker, IsEarliest, StandsAt};
ghost use Rattle.tree_formatting.specs.declared.entry.FormatEntry.TheVariants.{Element};

use crate::entry::FormatEntry;
use html_lexemes::{LocalName, Tag};
use tree_forest::TreeSink;

/// How many elements after the last marker may be alike ("Noah's Ark clause").
const MOST_ALIKE: usize = 3;

/// Whether an entry is that of an element.
fn is_entry_of<H: Copy, S: TreeSink<Handle = H>>(
    entry: &FormatEntry<H>,
    sink: &S,
    target: H,
) -> bool
    ensures { result ≡ is_of (S.view.number target) (entry_of S.view.number entry.now) }
{
    match entry {
        FormatEntry::Element(handle, _) => sink.same_node(*handle, target),
        FormatEntry::Marker => false,
    }
}

/// How many entries stand before the latest one of an element.
pub(crate) fn position<H: Copy, S: TreeSink<Handle = H>>(
    entries: &[FormatEntry<H>],
    sink: &S,
    target: H,
) -> Option<usize>
    ensures found { IfSome result (StandsAt S.view.number (S.view.number target) entries.now) }
    ensures missing { result ≡ None → is_listed (S.view.number target) (entries_of S.view.number entries.now) ≡ false }
{
    let mut at = entries.len();
    'back: while at > 0 {
        at -= 1;
        if is_entry_of(&entries[at], sink, target) {
            return Some(at);
        }
    }
    None
}

/// The last entry, where it is an element: its handle, its tag, and the entries before it.
pub(crate) fn last_element<H: Copy>(
    entries: &[FormatEntry<H>],
) -> Option<(&H, &Tag, &[FormatEntry<H>])>
    ensures some { IfSome result (λ last. entries.now ≡ last.2.now ++ Element last.0.now last.1.now ∷ []) }
    ensures none { result ≡ None → IsAtMarker entries.now }
{
    match entries.split_last() {
        Some((FormatEntry::Element(handle, tag), before)) => Some((handle, tag, before)),
        Some((FormatEntry::Marker, _)) => None,
        None => None,
    }
}

/// The latest element after the last marker whose tag has a name.
pub(crate) fn last_of_name<'a, H: Copy>(
    entries: &'a [FormatEntry<H>],
    name: &LocalName,
) -> Option<&'a H>
    ensures { (number : H → ℕ) →
        option_map (λ handle. number handle.now) result ≡ last_named name.now (entries_of number entries.now) }
{
    let mut rest = entries;
    'back: while let Some((handle, tag, before)) = last_element(rest) {
        if tag.name == *name {
            return Some(handle);
        }
        rest = before;
    }
    None
}

// whether an element stands after the last marker
fn is_after_marker<H: Copy, S: TreeSink<Handle = H>>(
    entries: &[FormatEntry<H>],
    sink: &S,
    target: H,
) -> bool
    ensures { result ≡ is_listed (S.view.number target) (up_to_marker (entries_of S.view.number entries.now)) }
{
    let mut rest = entries;
    'back: while let Some((handle, _, before)) = last_element(rest) {
        if sink.same_node(*handle, target) {
            return true;
        }
        rest = before;
    }
    false
}

/// Whether an element stands after the last marker, once the latest entry of another is taken off.
pub(crate) fn is_after_marker_without<H: Copy, S: TreeSink<Handle = H>>(
    entries: &[FormatEntry<H>],
    sink: &S,
    target: H,
    without: H,
) -> bool
    ensures { result ≡ is_listed (S.view.number target) (up_to_marker (without_entry (S.view.number without)
        (entries_of S.view.number entries.now))) }
{
    let mut rest = entries;
    'back: while let Some((handle, _, before)) = last_element(rest) {
        if sink.same_node(*handle, without) {
            return is_after_marker(before, sink, target);
        }
        if sink.same_node(*handle, target) {
            return true;
        }
        rest = before;
    }
    false
}

/// Whether two tags are the same but for the order of their attributes.
fn is_alike(held: &Tag, tag: &Tag) -> bool
    ensures { result ≡ are_alike held.now tag.now }
{
    held.equiv_modulo_attr_order(tag)
}

/// Where three or more entries after the last marker were made for such a tag: how many stand before the earliest. At
/// most so many were, also before the marker, and the walk ends with the last of these.
pub(crate) fn earliest_of_three<H: Copy>(
    entries: &[FormatEntry<H>],
    tag: &Tag,
    most: usize,
) -> Option<usize>
    requires { (number : H → ℕ) → count_alike tag.now (up_to_marker (entries_of number entries.now)) ≤ most }
    ensures many { IfSome result (IsEarliest tag.now entries.now) }
    ensures few { result ≡ None → HasRoom tag.now entries.now }
{
    if most < MOST_ALIKE {
        return None;
    }
    let mut alike: usize = 0;
    let mut earliest: usize = 0;
    let mut rest = entries;
    'back: while let Some((_, held, before)) = last_element(rest) {
        if is_alike(held, tag) {
            alike += 1;
            earliest = before.len();
            if alike == most {
                return Some(earliest);
            }
        }
        rest = before;
    }
    if alike >= MOST_ALIKE {
        Some(earliest)
    } else {
        None
    }
}
