//! The borders above and below a row, joined to what stands between them.
ghost use Rattle.std.specs.Prelude.{◌≡◌, ◌+◌, ◌++◌, map, fold, replicate, IfOk, OnOk};
ghost use Rattle.std.specs.Option.{option_map};
ghost use Rattle.text_borders.specs.Segments.{with_up, with_down};
ghost use Rattle.text_borders.specs.Borders.{border_of, horizontal, plain, stretched, change_to, with_segments};
ghost use Rattle.text_borders.specs.Across.{of_cells};
ghost use Rattle.text_cells.specs.OpenCells.{open_cell_of};

use crate::columns::{Columns, trailing};
use crate::opening::OpenCell;
use std::alloc::{AllocError, Global};
use text_borders::BorderHoriz;
use text_lines::EqualCopy;

/// The border above, stretched to the row, and joined to the signs and to the borders at the beginning of cells. The
/// error is allocation failure alone.
pub(crate) fn joined_above<T: EqualCopy + Drop>(
    above: Option<BorderHoriz<T>>,
    columns: &Columns,
    cells: &[OpenCell<T>],
) -> Result<Option<BorderHoriz<T>>, AllocError>
    ensures { IfOk result (λ joined. option_map (border_of T.seen) joined ≡ option_map (λ b. with_segments
        (fold (change_to (option_map with_down)) (stretched columns.now.width b.segments)
        (columns.now.signs.items ++ of_cells (λ c. c.asks_above) 0 (map (open_cell_of T.seen) cells.now))) b)
        (option_map (border_of T.seen) above)) }
{
    let Some(mut border) = above else {
        return Ok(None);
    };
    border.stretch_to(columns.width)?;
    join_signs_below(&mut border, columns.signs.as_slice())?;
    merge_tops(&mut border, cells)?;
    Ok(Some(border))
}

fn join_signs_below<T: EqualCopy + Drop>(
    border: &mut BorderHoriz<T>,
    signs: &[usize],
) -> Result<(), AllocError>
    ensures { OnOk result (border_of T.seen border.new ≡ with_segments (fold (change_to (option_map with_down))
        (border_of T.seen border.old).segments signs.now) (border_of T.seen border.old)) }
{
    let mut rest = signs;
    while let Some((sign, others)) = rest.split_first() {
        border.join_below(*sign)?;
        rest = others;
    }
    Ok(())
}

fn merge_tops<T: EqualCopy + Drop>(
    border: &mut BorderHoriz<T>,
    cells: &[OpenCell<T>],
) -> Result<(), AllocError>
    ensures { OnOk result (border_of T.seen border.new ≡ with_segments (fold (change_to (option_map with_down))
        (border_of T.seen border.old).segments (of_cells (λ c. c.asks_above) 0 (map (open_cell_of T.seen) cells.now)))
        (border_of T.seen border.old)) }
{
    let mut at = 0;
    let mut rest = cells;
    while let Some((cell, others)) = rest.split_first() {
        merge_top(border, cell, at)?;
        at = trailing(at, cell.width)?;
        rest = others;
    }
    Ok(())
}

fn merge_top<T: EqualCopy + Drop>(
    border: &mut BorderHoriz<T>,
    cell: &OpenCell<T>,
    at: usize,
) -> Result<(), AllocError>
    ensures { OnOk result (border_of T.seen border.new ≡ with_segments (fold (change_to (option_map with_down))
        (border_of T.seen border.old).segments (map (λ k. at + k) (open_cell_of T.seen cell.now).asks_above))
        (border_of T.seen border.old)) }
{
    match &cell.top {
        Some(top) => border.merge_from_below(top, at),
        None => Ok(()),
    }
}

/// The border below, joined to the signs and to the borders at the end of cells. The error is allocation failure alone.
pub(crate) fn border_below<T: EqualCopy + Drop>(
    alloc: Global,
    tag: &T,
    columns: &Columns,
    cells: &[OpenCell<T>],
) -> Result<BorderHoriz<T>, AllocError>
    ensures { IfOk result (λ b. border_of T.seen b ≡ with_segments (fold (change_to (option_map with_up))
        (replicate columns.now.width horizontal) (columns.now.signs.items
        ++ of_cells (λ c. c.asks_below) 0 (map (open_cell_of T.seen) cells.now)))
        (plain horizontal 0 (T.seen tag.now))) }
{
    let mut border = BorderHoriz::new(alloc, columns.width, tag.copy(alloc)?)?;
    join_signs_above(&mut border, columns.signs.as_slice())?;
    merge_bottoms(&mut border, cells)?;
    Ok(border)
}

fn join_signs_above<T: EqualCopy + Drop>(
    border: &mut BorderHoriz<T>,
    signs: &[usize],
) -> Result<(), AllocError>
    ensures { OnOk result (border_of T.seen border.new ≡ with_segments (fold (change_to (option_map with_up))
        (border_of T.seen border.old).segments signs.now) (border_of T.seen border.old)) }
{
    let mut rest = signs;
    while let Some((sign, others)) = rest.split_first() {
        border.join_above(*sign)?;
        rest = others;
    }
    Ok(())
}

fn merge_bottoms<T: EqualCopy + Drop>(
    border: &mut BorderHoriz<T>,
    cells: &[OpenCell<T>],
) -> Result<(), AllocError>
    ensures { OnOk result (border_of T.seen border.new ≡ with_segments (fold (change_to (option_map with_up))
        (border_of T.seen border.old).segments (of_cells (λ c. c.asks_below) 0 (map (open_cell_of T.seen) cells.now)))
        (border_of T.seen border.old)) }
{
    let mut at = 0;
    let mut rest = cells;
    while let Some((cell, others)) = rest.split_first() {
        merge_bottom(border, cell, at)?;
        at = trailing(at, cell.width)?;
        rest = others;
    }
    Ok(())
}

fn merge_bottom<T: EqualCopy + Drop>(
    border: &mut BorderHoriz<T>,
    cell: &OpenCell<T>,
    at: usize,
) -> Result<(), AllocError>
    ensures { OnOk result (border_of T.seen border.new ≡ with_segments (fold (change_to (option_map with_up))
        (border_of T.seen border.old).segments (map (λ k. at + k) (open_cell_of T.seen cell.now).asks_below))
        (border_of T.seen border.old)) }
{
    match &cell.bottom {
        Some(bottom) => border.merge_from_above(bottom, at),
        None => Ok(()),
    }
}
