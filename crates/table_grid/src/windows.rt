//! Windows: numbers that stand for some columns each, from their place on.
ghost use Rattle.std.specs.Prelude.{◌≡◌, ◌*◌, ◌<◌, ◌≤◌, length};
ghost use Rattle.table_grid.specs.Columns.{AreWithin};
ghost use Rattle.table_grid.specs.Windows.{IsPut, IsRaised, IsSpread, IsWidened};

use crate::part::Part;

/// Makes windows smaller: a window is from now on the greater of two that begin `step` apart.
pub(crate) fn split_windows(windows: &mut Vec<usize>, step: usize)
    requires { 0 < step }
    ensures { IsWidened step windows.old.items windows.new.items }
{
    let mut at = windows.len();
    while at > step {
        at -= 1;
        windows[at] = windows[at].max(windows[at - step]);
    }
}

fn raise(windows: &mut Vec<usize>, at: usize, value: usize)
    requires { at < length windows.old.items }
    ensures { IsRaised at value windows.old.items windows.new.items }
{
    windows[at] = windows[at].max(value);
}

// puts a cell of at least `small` and fewer than `width` columns into two windows of `small` columns
fn put_part(windows: &mut Vec<usize>, part: Part, small: usize, width: usize)
    requires some { part.first < part.last }
    requires small { 0 < small }
    requires within { part.last ≤ length windows.old.items }
    ensures { IsPut part small width windows.old.items windows.new.items }
{
    let span = part.last - part.first;
    if span < small || width <= span {
        return;
    }
    raise(windows, part.first, part.value);
    raise(windows, part.last - small, part.value);
}

/// Puts the cells of at least `small` and fewer than `width` columns into windows of `small` columns.
pub(crate) fn put_parts(windows: &mut Vec<usize>, parts: &[Part], small: usize, width: usize)
    requires some { 0 < small }
    requires close { width ≤ 2 * small }
    requires within { AreWithin parts.now (length windows.old.items) }
    requires spread { IsSpread parts.now small width 0 windows.old.items }
    ensures spread { IsSpread parts.now small width (length parts.now) windows.new.items }
    ensures same { length windows.new.items ≡ length windows.old.items }
{
    for part in parts {
        put_part(windows, *part, small, width);
    }
}
