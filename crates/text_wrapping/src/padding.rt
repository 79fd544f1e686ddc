//! Lines that are filled with spaces.
ghost use Rattle.std.specs.Prelude.{◌≡◌, Some, map, All, IfOk, OnOk};
ghost use Rattle.text_lines.specs.Tagged.{line_items, IsJoined};
ghost use Rattle.text_wrapping.specs.Blocks.{padded};

use std::alloc::AllocError;
use text_lines::{EqualCopy, TaggedLine};

/// Fills each line with spaces up to the width.
pub(crate) fn pad_lines<T: EqualCopy + Drop>(
    mut lines: Vec<TaggedLine<T>>,
    width: usize,
    tag: &T,
) -> Result<Vec<TaggedLine<T>>, AllocError>
    ensures filled_up { IfOk result (λ all. map (line_items T.seen) all.items
        ≡ map (padded width (Some (T.seen tag.now))) (map (line_items T.seen) lines.items)) }
    ensures joined { All (IsJoined T.seen) lines.items → IfOk result (λ all. All (IsJoined T.seen) all.items) }
{
    for line in lines.iter_mut() {
        pad(line, width, tag)?;
    }
    Ok(lines)
}

/// Fills the line with spaces of the tag up to the width; a wider one stays. The error is allocation failure alone.
pub fn pad<T: EqualCopy + Drop>(
    line: &mut TaggedLine<T>,
    width: usize,
    tag: &T,
) -> Result<(), AllocError>
    ensures filled_up { OnOk result (line_items T.seen line.new
        ≡ padded width (Some (T.seen tag.now)) (line_items T.seen line.old)) }
    ensures joined { IsJoined T.seen line.old → IsJoined T.seen line.new }
{
    let missing = width.saturating_sub(line.width());
    line.push_spaces(missing, tag)
}
