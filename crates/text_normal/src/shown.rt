//! Lines of text with markers on it, shown: markers in place of the letters that stood for them.
ghost use Rattle.std.specs.Prelude.{◌≡◌, [], ◌∷◌, ◌++◌, if◌then◌else◌, All, IfOk, OnOk, chars, map, string_bytes};
ghost use Rattle.text_lines.specs.Tagged.{line_items, element_items, tagged, marker, IsJoined};
ghost use Rattle.text_pieces.specs.Items.{has_text};
ghost use Rattle.text_normal.specs.Riders.{shown_item, settled_lines, settled_rest};
ghost use Rattle.text_normal.specs.MarkedTags.{tag_seen};

use crate::marked_tag::MarkedTag;
use std::alloc::{AllocError, Global};
use text_lines::{EqualCopy, TaggedLine, TaggedLineElement, TaggedString};
use text_pieces::{first_char, has_text};

/// Lines, and what is left of markers after them that found no line with text.
#[derive(Drop)]
pub(crate) struct Settled<T> {
    pub(crate) lines: Vec<TaggedLine<T>>,
    pub(crate) rest: TaggedLine<T>,
}

/// Shows the lines. Markers alone make no line: they go to the front of the next one.
pub(crate) fn settle<T: EqualCopy + Drop>(
    alloc: Global,
    lines: &[TaggedLine<MarkedTag<T>>],
) -> Result<Settled<T>, AllocError>
    ensures lines { IfOk result (λ settled. map (line_items T.seen) settled.lines.items
        ≡ settled_lines [] (map (map shown_item) (map (line_items (tag_seen T.seen)) lines.now))) }
    ensures rest { IfOk result (λ settled. line_items T.seen settled.rest
        ≡ settled_rest [] (map (map shown_item) (map (line_items (tag_seen T.seen)) lines.now))) }
    ensures joined { IfOk result (λ settled. All (IsJoined T.seen) settled.lines.items) }
{
    let mut done = Vec::new(alloc);
    let mut front = TaggedLine::new(alloc);
    let mut rest = lines;
    while let Some((line, others)) = rest.split_first() {
        push_shown(&mut front, line)?;
        settle_line(&mut done, &mut front)?;
        rest = others;
    }
    Ok(Settled {
        lines: done,
        rest: front,
    })
}

/// Ends the line in front, where it has text.
fn settle_line<T: EqualCopy + Drop>(
    done: &mut Vec<TaggedLine<T>>,
    front: &mut TaggedLine<T>,
) -> Result<(), AllocError>
    ensures done { OnOk result (map (line_items T.seen) done.new.items
        ≡ (if has_text (line_items T.seen front.old)
        then map (line_items T.seen) done.old.items ++ line_items T.seen front.old ∷ []
        else map (line_items T.seen) done.old.items)) }
    ensures front { OnOk result (line_items T.seen front.new
        ≡ (if has_text (line_items T.seen front.old) then [] else line_items T.seen front.old)) }
    ensures joined { IsJoined T.seen front.old → All (IsJoined T.seen) done.old.items
        → (IsJoined T.seen front.new × All (IsJoined T.seen) done.new.items) }
{
    if !has_text(front) {
        return Ok(());
    }
    let fresh = TaggedLine::new(*done.allocator());
    let line = std::mem::replace(front, fresh);
    done.push(line)?;
    Ok(())
}

/// Adds a line as it is shown.
fn push_shown<T: EqualCopy + Drop>(
    front: &mut TaggedLine<T>,
    line: &TaggedLine<MarkedTag<T>>,
) -> Result<(), AllocError>
    ensures ok { OnOk result (line_items T.seen front.new
        ≡ line_items T.seen front.old ++ map shown_item (line_items (tag_seen T.seen) line.now)) }
    ensures joined { IsJoined T.seen front.old → IsJoined T.seen front.new }
{
    for element in line.iter() {
        push_element(front, element)?;
    }
    Ok(())
}

fn push_element<T: EqualCopy + Drop>(
    front: &mut TaggedLine<T>,
    element: &TaggedLineElement<MarkedTag<T>>,
) -> Result<(), AllocError>
    ensures ok { OnOk result (line_items T.seen front.new
        ≡ line_items T.seen front.old ++ map shown_item (element_items (tag_seen T.seen) element.now)) }
    ensures joined { IsJoined T.seen front.old → IsJoined T.seen front.new }
{
    match element {
        TaggedLineElement::Str(string) => push_string(front, string),
        TaggedLineElement::FragmentStart(name) => front.push_marker(name.as_str()),
    }
}

fn push_string<T: EqualCopy + Drop>(
    front: &mut TaggedLine<T>,
    string: &TaggedString<MarkedTag<T>>,
) -> Result<(), AllocError>
    ensures ok { OnOk result (line_items T.seen front.new ≡ line_items T.seen front.old
        ++ map shown_item (tagged (chars (string_bytes string.now.s)) (tag_seen T.seen string.now.tag))) }
    ensures joined { IsJoined T.seen front.old → IsJoined T.seen front.new }
{
    match &string.tag {
        MarkedTag::Plain(tag) => front.push_str(string.s.as_str(), tag),
        MarkedTag::Note(name) => push_markers(front, string.s.as_str(), name.as_str()),
    }
}

/// Adds a marker for each character.
fn push_markers<T: EqualCopy + Drop>(
    front: &mut TaggedLine<T>,
    text: &str,
    name: &str,
) -> Result<(), AllocError>
    ensures ok { OnOk result (line_items T.seen front.new ≡ line_items T.seen front.old
        ++ map (λ c. marker (chars name.now)) (chars text.now)) }
    ensures joined { IsJoined T.seen front.old → IsJoined T.seen front.new }
{
    let mut rest = text;
    while let Some((_, after)) = first_char(rest) {
        front.push_marker(name)?;
        rest = after;
    }
    Ok(())
}
