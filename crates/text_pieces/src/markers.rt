//! The names of markers.
ghost use Rattle.std.specs.Prelude.{◌≡◌, ◌++◌, IfOk, OnOk};
ghost use Rattle.text_lines.specs.Tagged.{line_items, element_items};
ghost use Rattle.text_pieces.specs.Sources.{names};
ghost use Rattle.text_pieces.specs.Items.{markers_of};

use std::alloc::AllocError;
use text_lines::{EqualCopy, TaggedLine, TaggedLineElement};

/// The names of a line's markers before others.
pub fn names_before<T: EqualCopy + Drop>(
    line: &TaggedLine<T>,
    others: Vec<String>,
) -> Result<Vec<String>, AllocError>
    ensures { IfOk result (λ all. names all.items
        ≡ markers_of (line_items T.seen line.now) ++ names others.items) }
{
    let mut all = Vec::new(*others.allocator());
    for element in line.iter() {
        push_name(&mut all, element)?;
    }
    let mut others = others;
    all.append(&mut others)?;
    Ok(all)
}

/// Adds the name of an element that is a marker.
fn push_name<T: EqualCopy>(
    all: &mut Vec<String>,
    element: &TaggedLineElement<T>,
) -> Result<(), AllocError>
    ensures { OnOk result (names all.new.items
        ≡ names all.old.items ++ markers_of (element_items T.seen element.now)) }
{
    if let TaggedLineElement::FragmentStart(name) = element {
        all.push(String::from_str(*name.allocator(), name.as_str())?)?;
    }
    Ok(())
}
