//! Adding text at the end of a line's elements, and in front of them.

ghost use Rattle.std.specs.Prelude.{◌≡◌, ◌≢◌, ◌<◌, ◌≤◌, ◌↔◌, [], ◌∷◌, ◌++◌, IfOk, IsTrue, OnErr, OnOk, chars, false};
ghost use Rattle.std.specs.Prelude.{string_bytes, vec_capacity, vec_len};
ghost use Rattle.text_lines.specs.Elements.{AreJoined, BeginsWithTag, EndsWithTag, IsOnlyText, MeetWithTag};
ghost use Rattle.text_lines.specs.Elements.{element_items, elements_items, marker, tagged};

use crate::equal_copy::EqualCopy;
use crate::tagged_string::{TaggedLineElement, TaggedString, roomy_copy};
use std::alloc::{AllocError, Global};
use std::mem;

/// Adds a text at the end. Where the last element is a text with an equal tag, it joins that.
pub(crate) fn push_text<T: EqualCopy + Drop>(
    elements: &mut Vec<TaggedLineElement<T>>,
    text: &str,
    tag: &T,
) -> Result<(), AllocError>
    ensures ok { OnOk result (elements_items T.seen elements.new.items
        ≡ elements_items T.seen elements.old.items ++ tagged (chars text.now) (T.seen tag.now)) }
    ensures err { OnErr result (elements_items T.seen elements.new.items
        ≡ elements_items T.seen elements.old.items) }
    ensures joined { AreJoined T.seen elements.old.items → AreJoined T.seen elements.new.items }
{
    if text.is_empty() {
        Ok(())
    } else if ends_with_tag(elements, tag) {
        extend_last(elements, text)
    } else {
        push_new(elements, text, tag)
    }
}

/// Adds a text in front. Where the first element is a text with an equal tag, it joins that.
pub(crate) fn push_front<T: EqualCopy + Drop>(
    elements: &mut Vec<TaggedLineElement<T>>,
    text: &str,
    tag: &T,
) -> Result<(), AllocError>
    ensures ok { OnOk result (elements_items T.seen elements.new.items
        ≡ tagged (chars text.now) (T.seen tag.now) ++ elements_items T.seen elements.old.items) }
    ensures err { OnErr result (elements_items T.seen elements.new.items
        ≡ elements_items T.seen elements.old.items) }
    ensures joined { AreJoined T.seen elements.old.items → AreJoined T.seen elements.new.items }
{
    if text.is_empty() {
        Ok(())
    } else if begins_with_tag(elements, tag) {
        extend_first(elements, text)
    } else {
        push_new_front(elements, text, tag)
    }
}

/// Moves a text to the end, as `push_text` adds one.
pub(crate) fn push_string<T: EqualCopy + Drop>(
    elements: &mut Vec<TaggedLineElement<T>>,
    text: String,
    tag: T,
) -> Result<(), AllocError>
    ensures ok { OnOk result (elements_items T.seen elements.new.items
        ≡ elements_items T.seen elements.old.items ++ tagged (chars (string_bytes text)) (T.seen tag)) }
    ensures err { OnErr result (elements_items T.seen elements.new.items
        ≡ elements_items T.seen elements.old.items) }
    ensures joined { AreJoined T.seen elements.old.items → AreJoined T.seen elements.new.items }
{
    if text.is_empty() || ends_with_tag(elements, &tag) {
        push_text(elements, text.as_str(), &tag)
    } else {
        push_own(elements, text, tag)
    }
}

/// Adds a text of one character at the end, as `push_text`.
pub(crate) fn push_character<T: EqualCopy + Drop>(
    elements: &mut Vec<TaggedLineElement<T>>,
    c: char,
    tag: &T,
) -> Result<(), AllocError>
    ensures ok { OnOk result (elements_items T.seen elements.new.items
        ≡ elements_items T.seen elements.old.items ++ tagged (c ∷ []) (T.seen tag.now)) }
    ensures err { OnErr result (elements_items T.seen elements.new.items
        ≡ elements_items T.seen elements.old.items) }
    ensures joined { AreJoined T.seen elements.old.items → AreJoined T.seen elements.new.items }
{
    if ends_with_tag(elements, tag) {
        extend_last_by(elements, c)
    } else {
        let mut bytes = [0; 4];
        push_new(elements, c.encode_utf8(&mut bytes), tag)
    }
}

/// Adds a marker at the end.
pub(crate) fn push_marker<T: EqualCopy + Drop>(
    elements: &mut Vec<TaggedLineElement<T>>,
    name: &str,
) -> Result<(), AllocError>
    ensures ok { OnOk result (elements_items T.seen elements.new.items
        ≡ elements_items T.seen elements.old.items ++ marker (chars name.now) ∷ []) }
    ensures err { OnErr result (elements.new.items ≡ elements.old.items) }
    ensures joined { AreJoined T.seen elements.old.items → AreJoined T.seen elements.new.items }
{
    let name = String::from_str(*elements.allocator(), name)?;
    elements.push(TaggedLineElement::FragmentStart(name))?;
    Ok(())
}

/// Moves the name of a marker to the end.
pub(crate) fn move_marker<T: EqualCopy + Drop>(
    elements: &mut Vec<TaggedLineElement<T>>,
    name: String,
) -> Result<(), AllocError>
    ensures ok { OnOk result (elements_items T.seen elements.new.items
        ≡ elements_items T.seen elements.old.items ++ marker (chars (string_bytes name)) ∷ []) }
    ensures err { OnErr result (elements.new.items ≡ elements.old.items) }
    ensures joined { AreJoined T.seen elements.old.items → AreJoined T.seen elements.new.items }
{
    elements.push(TaggedLineElement::FragmentStart(name))?;
    Ok(())
}

/// Adds a copy of an element at the end, a text as `push_text`.
pub(crate) fn push_element<T: EqualCopy + Drop>(
    elements: &mut Vec<TaggedLineElement<T>>,
    element: &TaggedLineElement<T>,
) -> Result<(), AllocError>
    ensures ok { OnOk result (elements_items T.seen elements.new.items
        ≡ elements_items T.seen elements.old.items ++ element_items T.seen element.now) }
    ensures err { OnErr result (elements_items T.seen elements.new.items
        ≡ elements_items T.seen elements.old.items) }
    ensures joined { AreJoined T.seen elements.old.items → AreJoined T.seen elements.new.items }
{
    match element {
        TaggedLineElement::Str(string) => push_text(elements, string.s.as_str(), &string.tag),
        TaggedLineElement::FragmentStart(name) => push_marker(elements, name.as_str()),
    }
}

/// Adds copies of other elements at the end, texts as `push_text`. They are made before the first is added, so a
/// refusal leaves no beginning of them.
pub(crate) fn push_elements<T: EqualCopy + Drop>(
    elements: &mut Vec<TaggedLineElement<T>>,
    others: &[TaggedLineElement<T>],
) -> Result<(), AllocError>
    ensures ok { OnOk result (elements_items T.seen elements.new.items
        ≡ elements_items T.seen elements.old.items ++ elements_items T.seen others.now) }
    ensures err { OnErr result (elements_items T.seen elements.new.items
        ≡ elements_items T.seen elements.old.items) }
    ensures joined { AreJoined T.seen elements.old.items → AreJoined T.seen elements.new.items }
{
    if others.is_empty() {
        return Ok(());
    }
    // The common case.
    if let [element] = others {
        return push_element(elements, element);
    }
    let mut copies = joined_copies(*elements.allocator(), others)?;
    elements.reserve(copies.len())?;
    join_first(elements, &mut copies)?;
    elements.append(&mut copies)
}

/// Moves other elements to the end, and joins texts as `push_text`.
pub(crate) fn move_elements<T: EqualCopy + Drop>(
    elements: &mut Vec<TaggedLineElement<T>>,
    others: &mut Vec<TaggedLineElement<T>>,
) -> Result<(), AllocError>
    ensures ok { OnOk result (elements_items T.seen elements.new.items
        ≡ elements_items T.seen elements.old.items ++ elements_items T.seen others.old.items) }
    ensures empty { OnOk result (others.new.items ≡ []) }
    ensures err { OnErr result (elements_items T.seen elements.new.items
        ≡ elements_items T.seen elements.old.items) }
    ensures kept { OnErr result (others.new.items ≡ others.old.items) }
    ensures joined { AreJoined T.seen elements.old.items → AreJoined T.seen elements.new.items }
{
    // The common cases copy no more than a text that joins.
    if are_joined(others) {
        if elements.is_empty() {
            mem::swap(elements, others);
            return Ok(());
        }
        if others.len() == 1 && meet_with_tag(elements, others) {
            extend_last(elements, others[0].as_str())?;
            others.clear();
            return Ok(());
        }
        elements.reserve(others.len())?;
        join_first(elements, others)?;
        return elements.append(others);
    }
    push_elements(elements, others)?;
    others.clear();
    Ok(())
}

// Copies of elements, the texts joined.
fn joined_copies<T: EqualCopy + Drop>(
    alloc: Global,
    elements: &[TaggedLineElement<T>],
) -> Result<Vec<TaggedLineElement<T>>, AllocError>
    ensures items { IfOk result (λ copies. elements_items T.seen copies.items ≡ elements_items T.seen elements.now) }
    ensures joined { IfOk result (λ copies. AreJoined T.seen copies.items) }
{
    let mut copies = Vec::with_capacity(alloc, elements.len())?;
    for element in elements {
        push_element(&mut copies, element)?;
    }
    Ok(copies)
}

// Takes the first of the copies into the last element, where both are texts with equal tags.
fn join_first<T: EqualCopy + Drop>(
    elements: &mut Vec<TaggedLineElement<T>>,
    copies: &mut Vec<TaggedLineElement<T>>,
) -> Result<(), AllocError>
    ensures ok { OnOk result (elements_items T.seen elements.new.items ++ elements_items T.seen copies.new.items
        ≡ elements_items T.seen elements.old.items ++ elements_items T.seen copies.old.items) }
    ensures err { OnErr result (elements_items T.seen elements.new.items
        ≡ elements_items T.seen elements.old.items) }
    ensures joined { AreJoined T.seen elements.old.items → AreJoined T.seen copies.old.items
        → OnOk result (AreJoined T.seen (elements.new.items ++ copies.new.items)) }
    ensures kept { AreJoined T.seen elements.old.items → AreJoined T.seen elements.new.items }
    ensures stay { OnErr result (copies.new.items ≡ copies.old.items) }
    ensures room { (vec_len elements.new ≡ vec_len elements.old)
        × (vec_capacity elements.new ≡ vec_capacity elements.old)
        × (vec_len copies.new ≤ vec_len copies.old) }
{
    if meet_with_tag(elements, copies) {
        extend_last(elements, copies[0].as_str())?;
        let _first = copies.remove(0);
    }
    Ok(())
}

// Whether the last element and the first of the others are texts with equal tags.
fn meet_with_tag<T: EqualCopy>(
    elements: &[TaggedLineElement<T>],
    others: &[TaggedLineElement<T>],
) -> bool
    ensures { IsTrue result ↔ MeetWithTag T.seen elements.now others.now }
{
    match others.first() {
        Some(TaggedLineElement::Str(first)) => ends_with_tag(elements, &first.tag),
        _ => false,
    }
}

/// Whether no text is empty, and none stands next to one with an equal tag.
pub(crate) fn are_joined<T: EqualCopy>(elements: &[TaggedLineElement<T>]) -> bool
    ensures { IsTrue result → AreJoined T.seen elements.now }
{
    let mut rest = elements;
    while let Some((first, others)) = rest.split_first() {
        if joins(first, others) {
            return false;
        }
        rest = others;
    }
    true
}

/// Whether there is one element, a text.
pub(crate) fn is_only_text<T>(elements: &[TaggedLineElement<T>]) -> bool
    ensures { IsTrue result → IsOnlyText elements.now }
{
    matches!(elements, [TaggedLineElement::Str(_)])
}

// Whether the element is an empty text, or one that is followed by a text with an equal tag.
fn joins<T: EqualCopy>(element: &TaggedLineElement<T>, others: &[TaggedLineElement<T>]) -> bool
    ensures { result ≡ false → AreJoined T.seen others.now
        → AreJoined T.seen (element.now ∷ others.now) }
{
    match element {
        TaggedLineElement::Str(text) => text.s.is_empty() || begins_with_tag(others, &text.tag),
        TaggedLineElement::FragmentStart(_) => false,
    }
}

// Whether the first element is a text with an equal tag.
fn begins_with_tag<T: EqualCopy>(elements: &[TaggedLineElement<T>], tag: &T) -> bool
    ensures { IsTrue result ↔ BeginsWithTag T.seen (T.seen tag.now) elements.now }
{
    match elements.first() {
        Some(first) => first.has_tag(tag),
        None => false,
    }
}

// Whether the last element is a text with an equal tag.
fn ends_with_tag<T: EqualCopy>(elements: &[TaggedLineElement<T>], tag: &T) -> bool
    ensures { IsTrue result ↔ EndsWithTag T.seen (T.seen tag.now) elements.now }
{
    match elements.last() {
        Some(last) => last.has_tag(tag),
        None => false,
    }
}

// Adds to the text of the last element.
fn extend_last<T: EqualCopy + Drop>(
    elements: &mut Vec<TaggedLineElement<T>>,
    text: &str,
) -> Result<(), AllocError>
    requires { 0 < vec_len elements.old }
    ensures ok { OnOk result ((tag : T.Seen) → EndsWithTag T.seen tag elements.old.items
        → elements_items T.seen elements.new.items
        ≡ elements_items T.seen elements.old.items ++ tagged (chars text.now) tag) }
    ensures err { OnErr result (elements_items T.seen elements.new.items
        ≡ elements_items T.seen elements.old.items) }
    ensures joined { AreJoined T.seen elements.old.items → AreJoined T.seen elements.new.items }
    ensures ends { (tag : T.Seen) → EndsWithTag T.seen tag elements.new.items
        → EndsWithTag T.seen tag elements.old.items }
    ensures room { (vec_len elements.new ≡ vec_len elements.old)
        × (vec_capacity elements.new ≡ vec_capacity elements.old) }
{
    let last = elements.len() - 1;
    elements[last].push_str(text)
}

/// Makes room for so many bytes more in the text of the last element.
pub(crate) fn reserve_last<T: EqualCopy + Drop>(
    elements: &mut Vec<TaggedLineElement<T>>,
    bytes: usize,
) -> Result<(), AllocError>
    requires { 0 < vec_len elements.old }
    ensures items { elements_items T.seen elements.new.items ≡ elements_items T.seen elements.old.items }
    ensures joined { AreJoined T.seen elements.old.items → AreJoined T.seen elements.new.items }
{
    let last = elements.len() - 1;
    elements[last].reserve(bytes)
}

// Adds the character to the text of the last element.
fn extend_last_by<T: EqualCopy + Drop>(
    elements: &mut Vec<TaggedLineElement<T>>,
    c: char,
) -> Result<(), AllocError>
    requires { 0 < vec_len elements.old }
    ensures ok { OnOk result ((tag : T.Seen) → EndsWithTag T.seen tag elements.old.items
        → elements_items T.seen elements.new.items
        ≡ elements_items T.seen elements.old.items ++ tagged (c ∷ []) tag) }
    ensures err { OnErr result (elements_items T.seen elements.new.items
        ≡ elements_items T.seen elements.old.items) }
    ensures joined { AreJoined T.seen elements.old.items → AreJoined T.seen elements.new.items }
{
    let last = elements.len() - 1;
    elements[last].push(c)
}

// Adds in front of the text of the first element.
fn extend_first<T: EqualCopy + Drop>(
    elements: &mut Vec<TaggedLineElement<T>>,
    text: &str,
) -> Result<(), AllocError>
    requires { 0 < vec_len elements.old }
    ensures ok { OnOk result ((tag : T.Seen) → BeginsWithTag T.seen tag elements.old.items
        → elements_items T.seen elements.new.items
        ≡ tagged (chars text.now) tag ++ elements_items T.seen elements.old.items) }
    ensures err { OnErr result (elements_items T.seen elements.new.items
        ≡ elements_items T.seen elements.old.items) }
    ensures joined { AreJoined T.seen elements.old.items → AreJoined T.seen elements.new.items }
{
    elements[0].push_front(text)
}

// Adds the text as an element of its own.
fn push_new<T: EqualCopy + Drop>(
    elements: &mut Vec<TaggedLineElement<T>>,
    text: &str,
    tag: &T,
) -> Result<(), AllocError>
    ensures ok { OnOk result (elements_items T.seen elements.new.items
        ≡ elements_items T.seen elements.old.items ++ tagged (chars text.now) (T.seen tag.now)) }
    ensures err { OnErr result (elements.new.items ≡ elements.old.items) }
    ensures joined { OnOk result (AreJoined T.seen elements.old.items → text.now ≢ []
        → ¬ EndsWithTag T.seen (T.seen tag.now) elements.old.items → AreJoined T.seen elements.new.items) }
{
    let alloc = *elements.allocator();
    let s = roomy_copy(alloc, text)?;
    let tag = tag.copy(alloc)?;
    push_own(elements, s, tag)
}

// Adds the text in front, as an element of its own.
fn push_new_front<T: EqualCopy + Drop>(
    elements: &mut Vec<TaggedLineElement<T>>,
    text: &str,
    tag: &T,
) -> Result<(), AllocError>
    ensures ok { OnOk result (elements_items T.seen elements.new.items
        ≡ tagged (chars text.now) (T.seen tag.now) ++ elements_items T.seen elements.old.items) }
    ensures err { OnErr result (elements.new.items ≡ elements.old.items) }
    ensures joined { OnOk result (AreJoined T.seen elements.old.items → text.now ≢ []
        → ¬ BeginsWithTag T.seen (T.seen tag.now) elements.old.items → AreJoined T.seen elements.new.items) }
{
    let alloc = *elements.allocator();
    let s = roomy_copy(alloc, text)?;
    let tag = tag.copy(alloc)?;
    make_room(elements)?;
    elements.insert(0, TaggedLineElement::Str(TaggedString { s, tag }))?;
    Ok(())
}

// Moves the text to the end, as an element of its own.
fn push_own<T: EqualCopy + Drop>(
    elements: &mut Vec<TaggedLineElement<T>>,
    s: String,
    tag: T,
) -> Result<(), AllocError>
    ensures ok { OnOk result (elements_items T.seen elements.new.items
        ≡ elements_items T.seen elements.old.items ++ tagged (chars (string_bytes s)) (T.seen tag)) }
    ensures err { OnErr result (elements.new.items ≡ elements.old.items) }
    ensures joined { OnOk result (AreJoined T.seen elements.old.items → string_bytes s ≢ []
        → ¬ EndsWithTag T.seen (T.seen tag) elements.old.items → AreJoined T.seen elements.new.items) }
{
    make_room(elements)?;
    elements.push(TaggedLineElement::Str(TaggedString { s, tag }))?;
    Ok(())
}

// Makes room for the first element alone, since most lines have one.
fn make_room<T>(elements: &mut Vec<TaggedLineElement<T>>) -> Result<(), AllocError>
    ensures { elements.new.items ≡ elements.old.items }
{
    if elements.is_empty() {
        elements.reserve_exact(1)
    } else {
        Ok(())
    }
}
