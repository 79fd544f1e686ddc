//! The list of active formatting elements by itself (WHATWG HTML, 13.2.4.3, and 13.2.6.4.7 for its changes).
use crate::step::start_tag;
use crate::words::{PLAIN, html_name};
use html_lexemes::{Attributes, LocalName, ParseFault};
use std::alloc::Global;
use tree_forest::TreeSink;
use tree_formatting::{FormatEntry, FormattingList};

/// Whether a list gives what it holds once three elements are in it, and becomes what it should.
pub(crate) fn is_listed<S: TreeSink>(
    alloc: Global,
    sink: &mut S,
    list: &mut FormattingList<S::Handle>,
) -> Result<bool, ParseFault> {
    let first = listed(alloc, sink, list, "a")?;
    let second = listed(alloc, sink, list, "b")?;
    let third = listed(alloc, sink, list, "i")?;
    let other = made(alloc, sink, "u")?;
    let name = LocalName::from_str(alloc, "b")?;
    let is_reported = emits(sink, list, &name, second, other);
    list.push_marker()?;
    let is_after = list.last_named(&name).is_some();
    list.clear_to_marker();
    Ok(is_reported && !is_after && is_changed(sink, list, first, second, third, other)?)
}

fn made<S: TreeSink>(alloc: Global, sink: &mut S, word: &str) -> Result<S::Handle, ParseFault> {
    sink.create_element(html_name(alloc, word)?, Attributes::new(alloc), PLAIN)
}

fn listed<S: TreeSink>(
    alloc: Global,
    sink: &mut S,
    list: &mut FormattingList<S::Handle>,
    word: &str,
) -> Result<S::Handle, ParseFault> {
    let element = made(alloc, sink, word)?;
    list.push_element(element, start_tag(alloc, word, Attributes::new(alloc))?)?;
    Ok(element)
}

// whether an element is listed with a tag of this name, the last of that name, and another is not
fn emits<S: TreeSink>(
    sink: &S,
    list: &FormattingList<S::Handle>,
    name: &LocalName,
    element: S::Handle,
    other: S::Handle,
) -> bool {
    let is_tagged = match list.tag_of(sink, element) {
        Some(tag) => tag.name == *name,
        None => false,
    };
    let is_last = match list.last_named(name) {
        Some(last) => sink.same_node(last, element),
        None => false,
    };
    is_tagged
        && is_last
        && list.contains(sink, element)
        && !list.contains(sink, other)
        && list.tag_of(sink, other).is_none()
}

// the first element goes after the second and is given to another, the second is given to the first, the third is off
fn is_changed<S: TreeSink>(
    sink: &S,
    list: &mut FormattingList<S::Handle>,
    first: S::Handle,
    second: S::Handle,
    third: S::Handle,
    other: S::Handle,
) -> Result<bool, ParseFault> {
    list.move_after(sink, first, other, second)?;
    let is_moved = holds_three(sink, list, (second, "b"), (other, "a"), Some((third, "i")));
    list.hand_over(sink, second, first);
    let is_handed = holds_three(sink, list, (first, "b"), (other, "a"), Some((third, "i")));
    list.remove(sink, third);
    list.push_marker()?;
    let is_removed = holds_three(sink, list, (first, "b"), (other, "a"), None);
    Ok(is_moved && is_handed && is_removed)
}

// whether a list has these elements alone, with tags of these names; none for a marker
fn holds_three<S: TreeSink>(
    sink: &S,
    list: &FormattingList<S::Handle>,
    first: (S::Handle, &str),
    second: (S::Handle, &str),
    third: Option<(S::Handle, &str)>,
) -> bool {
    match list.as_slice() {
        [a, b, c] => {
            is_entry(sink, a, Some(first))
                && is_entry(sink, b, Some(second))
                && is_entry(sink, c, third)
        }
        _ => false,
    }
}

fn is_entry<S: TreeSink>(
    sink: &S,
    entry: &FormatEntry<S::Handle>,
    wanted: Option<(S::Handle, &str)>,
) -> bool {
    match (entry, wanted) {
        (FormatEntry::Marker, None) => true,
        (FormatEntry::Element(handle, tag), Some((element, name))) => {
            sink.same_node(*handle, element) && tag.name.as_str() == name
        }
        _ => false,
    }
}
