use crate::checks::passes;
use crate::decorator_tests::{ORANGE, rich_notes};
use std::alloc::{AllocError, Global};
use text_decorators::{Colour, RichAnnotation};
use text_lines::EqualCopy;

// annotations of each kind, among them two links, and a link and an image of one name
fn notes(alloc: Global) -> Result<Vec<RichAnnotation>, AllocError> {
    let mut notes = rich_notes(alloc)?;
    notes.push(RichAnnotation::Link(String::from_str(alloc, "v")?))?;
    notes.push(RichAnnotation::Image(String::from_str(alloc, "u")?))?;
    Ok(notes)
}

// whether a copy of a note equals it, and no other of some
fn is_copied(
    alloc: Global,
    notes: &[RichAnnotation],
    at: usize,
    note: &RichAnnotation,
) -> Result<bool, AllocError> {
    let copy = note.try_clone(alloc)?;
    let tag = note.copy(alloc)?;
    for (place, other) in notes.iter().enumerate() {
        let is_same = place == at;
        if (*other == copy) != is_same || (*other == tag) != is_same {
            return Ok(false);
        }
    }
    Ok(true)
}

fn are_copied(alloc: Global) -> Result<bool, AllocError> {
    let notes = notes(alloc)?;
    for (at, note) in notes.iter().enumerate() {
        if !is_copied(alloc, &notes, at, note)? {
            return Ok(false);
        }
    }
    Ok(RichAnnotation::default() == RichAnnotation::Default)
}

#[test]
fn a_copy_equals_its_source_alone(rt: HostRuntime) {
    passes(&rt, are_copied(rt.alloc()), "a copy");
}

static COLOURS: [(Colour, &str); 2] = [
    (ORANGE, "#ff8000"),
    (Colour { r: 0, g: 10, b: 15 }, "#000a0f"),
];

fn is_text(alloc: Global, colour: Colour, wanted: &str) -> Result<bool, AllocError> {
    Ok(colour.to_string(alloc)?.as_str() == wanted)
}

#[test]
fn a_colours_text(rt: HostRuntime) {
    for (colour, wanted) in &COLOURS {
        passes(&rt, is_text(rt.alloc(), *colour, wanted), wanted);
    }
}
