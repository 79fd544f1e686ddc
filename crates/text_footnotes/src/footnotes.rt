//! Lines after a page.
ghost use Rattle.std.specs.Prelude.{◌≡◌, [], ◌∷◌, fold, map, chars, string_bytes, All, OnOk, IfOk};
ghost use Rattle.text_lines.specs.Tagged.{line_items, element_items, tagged, IsJoined};
ghost use Rattle.text_footnotes.specs.Cuts.{cut_of, tags_seen, HasJoinedTexts, placed_noted, lines_within};

use crate::cutting::CutLines;
use std::alloc::{AllocError, Global};
use text_lines::{EqualCopy, TaggedLine, TaggedLineElement, TaggedString};

/// The lines that a line after the page gives, each character under its annotation alone: a line end is a space, and
/// lines are cut at the width, where there is one. The error is allocation failure alone.
pub fn footnote_lines<A: EqualCopy + Drop>(
    alloc: Global,
    width: Option<usize>,
    line: &TaggedLine<A>,
) -> Result<Vec<TaggedLine<Vec<A>>>, AllocError>
    ensures lines { IfOk result (λ lines. map (line_items (tags_seen A.seen)) lines.items
        ≡ lines_within width (line_items A.seen line.now)) }
    ensures joined { IfOk result (λ lines. All (IsJoined (tags_seen A.seen)) lines.items) }
{
    let mut cut = CutLines::new(alloc);
    push_line(&mut cut, alloc, width, line)?;
    cut.into_lines()
}

/// The same lines, of a line whose text is moved into them where it is one. The error is allocation failure alone.
pub fn into_footnote_lines<A: EqualCopy + Drop>(
    alloc: Global,
    width: Option<usize>,
    line: TaggedLine<A>,
) -> Result<Vec<TaggedLine<Vec<A>>>, AllocError>
    ensures lines { IfOk result (λ lines. map (line_items (tags_seen A.seen)) lines.items
        ≡ lines_within width (line_items A.seen line)) }
    ensures joined { IfOk result (λ lines. All (IsJoined (tags_seen A.seen)) lines.items) }
{
    match line.into_only_text() {
        Ok((text, annotation)) => {
            let mut tags = Vec::with_capacity(alloc, 1)?;
            tags.push(annotation)?;
            let mut cut = CutLines::new(alloc);
            cut.push_string(width, text, tags)?;
            cut.into_lines()
        }
        Err(line) => footnote_lines(alloc, width, &line),
    }
}

fn push_line<A: EqualCopy + Drop>(
    cut: &mut CutLines<Vec<A>>,
    alloc: Global,
    width: Option<usize>,
    line: &TaggedLine<A>,
) -> Result<(), AllocError>
    ensures placed { OnOk result (cut_of (tags_seen A.seen) cut.new
        ≡ fold (placed_noted width) (cut_of (tags_seen A.seen) cut.old) (line_items A.seen line.now)) }
    ensures joined { HasJoinedTexts (tags_seen A.seen) cut.old → HasJoinedTexts (tags_seen A.seen) cut.new }
{
    for element in line.iter() {
        push_element(cut, alloc, width, element)?;
    }
    Ok(())
}

fn push_element<A: EqualCopy + Drop>(
    cut: &mut CutLines<Vec<A>>,
    alloc: Global,
    width: Option<usize>,
    element: &TaggedLineElement<A>,
) -> Result<(), AllocError>
    ensures placed { OnOk result (cut_of (tags_seen A.seen) cut.new
        ≡ fold (placed_noted width) (cut_of (tags_seen A.seen) cut.old) (element_items A.seen element.now)) }
    ensures joined { HasJoinedTexts (tags_seen A.seen) cut.old → HasJoinedTexts (tags_seen A.seen) cut.new }
{
    match element {
        TaggedLineElement::Str(string) => push_string(cut, alloc, width, string),
        TaggedLineElement::FragmentStart(name) => cut.push_marker(width, name.as_str()),
    }
}

fn push_string<A: EqualCopy + Drop>(
    cut: &mut CutLines<Vec<A>>,
    alloc: Global,
    width: Option<usize>,
    string: &TaggedString<A>,
) -> Result<(), AllocError>
    ensures placed { OnOk result (cut_of (tags_seen A.seen) cut.new
        ≡ fold (placed_noted width) (cut_of (tags_seen A.seen) cut.old)
        (tagged (chars (string_bytes string.now.s)) (A.seen string.now.tag))) }
    ensures joined { HasJoinedTexts (tags_seen A.seen) cut.old → HasJoinedTexts (tags_seen A.seen) cut.new }
{
    let tags = alone(alloc, &string.tag)?;
    cut.push_text(width, string.s.as_str(), &tags)
}

/// A tag of one annotation.
fn alone<A: EqualCopy + Drop>(alloc: Global, annotation: &A) -> Result<Vec<A>, AllocError>
    ensures { IfOk result (λ tags. tags_seen A.seen tags ≡ A.seen annotation.now ∷ []) }
{
    let mut tags = Vec::with_capacity(alloc, 1)?;
    tags.push(annotation.copy(alloc)?)?;
    Ok(tags)
}
