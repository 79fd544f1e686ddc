//! The lines of a row.
ghost use Rattle.std.specs.Prelude.{◌≡◌, ◌++◌, map, All, IfOk, OnOk};
ghost use Rattle.text_lines.specs.Tagged.{line_items, IsJoined};
ghost use Rattle.text_borders.specs.Across.{sign_of, row_height, row_lines, row_items};
ghost use Rattle.text_cells.specs.OpenCells.{open_cell_of, after, sign_before};

use crate::opening::OpenCell;
use std::alloc::{AllocError, Global};
use text_lines::{EqualCopy, TaggedLine};

/// What stands between cells.
pub(crate) fn sign_of(draws: bool) -> char
    ensures { result ≡ sign_of draws }
{
    if draws { '│' } else { ' ' }
}

/// The lines of a row.
pub(crate) fn row_height<T: EqualCopy + Drop>(cells: &[OpenCell<T>]) -> usize
    ensures { result ≡ row_height (map (open_cell_of T.seen) cells.now) }
{
    let mut height: usize = 0;
    let mut rest = cells;
    while let Some((cell, others)) = rest.split_first() {
        height = height.max(cell.height());
        rest = others;
    }
    height
}

/// So many lines of a row, taken from its cells. The error is allocation failure alone.
pub(crate) fn row_lines<T: EqualCopy + Drop>(
    alloc: Global,
    sign: char,
    tag: &T,
    cells: &mut [OpenCell<T>],
    height: usize,
) -> Result<Vec<TaggedLine<T>>, AllocError>
    ensures lines { IfOk result (λ lines. map (line_items T.seen) lines.items
        ≡ row_lines sign (T.seen tag.now) (map (open_cell_of T.seen) cells.old) 0 height) }
    ensures rest { OnOk result (map (open_cell_of T.seen) cells.new
        ≡ map (after height) (map (open_cell_of T.seen) cells.old)) }
    ensures joined { IfOk result (λ lines. All (IsJoined T.seen) lines.items) }
{
    let room = row_bytes(cells);
    let mut lines = Vec::with_capacity(alloc, height)?;
    for _line in 0..height {
        lines.push(row_line(alloc, sign, tag, cells, room)?)?;
    }
    Ok(lines)
}

/// The bytes of a row's line in which each column is one, but for the signs.
fn row_bytes<T: EqualCopy + Drop>(cells: &[OpenCell<T>]) -> usize {
    let mut bytes: usize = 0;
    for cell in cells {
        bytes = bytes.saturating_add(cell.width).saturating_add(3);
    }
    bytes
}

/// The cells' next lines, with the sign between them; one that begins with a text has room for `room` bytes.
fn row_line<T: EqualCopy + Drop>(
    alloc: Global,
    sign: char,
    tag: &T,
    cells: &mut [OpenCell<T>],
    room: usize,
) -> Result<TaggedLine<T>, AllocError>
    ensures items { IfOk result (λ l. line_items T.seen l
        ≡ row_items sign (T.seen tag.now) 0 (map (open_cell_of T.seen) cells.old)) }
    ensures rest { OnOk result (map (open_cell_of T.seen) cells.new
        ≡ map (after 1) (map (open_cell_of T.seen) cells.old)) }
    ensures joined { IfOk result (IsJoined T.seen) }
{
    let mut line = TaggedLine::new(alloc);
    let mut left = cells.len();
    let mut room = room;
    for cell in cells.iter_mut() {
        left -= 1;
        cell.move_line(&mut line, alloc, tag, room)?;
        push_sign(&mut line, sign, tag, left)?;
        room = 0;
    }
    Ok(line)
}

/// Adds the sign where cells are left.
fn push_sign<T: EqualCopy + Drop>(
    line: &mut TaggedLine<T>,
    sign: char,
    tag: &T,
    left: usize,
) -> Result<(), AllocError>
    ensures items { OnOk result (line_items T.seen line.new
        ≡ line_items T.seen line.old ++ sign_before sign (T.seen tag.now) left) }
    ensures joined { IsJoined T.seen line.old → IsJoined T.seen line.new }
{
    if left == 0 {
        return Ok(());
    }
    line.push_char(sign, tag)
}
