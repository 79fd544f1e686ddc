//! How many columns a value takes.
ghost use Rattle.std.specs.Prelude.{◌≡◌, IfOk, max, min};
ghost use Rattle.render_sizes.specs.Extents.{beside, extent, extent_by, extents, measure_of, measured, nothing_wide};
ghost use Rattle.render_sizes.specs.Extents.{number, of_columns, prefixed};
ghost use Rattle.render_values.specs.Arena.{IsFlat, values_of};

use crate::prefixes::Prefixes;
use crate::sizes::number;
use crate::tables::extent_of_table;
use crate::texts::text_size;
use render_values::{RenderInfo, RenderNode};
use std::alloc::{AllocError, Global};

/// How many columns a value takes.
#[derive(Clone, Copy, Debug, PartialEq, Eq)]
pub struct Extent {
    /// On one line.
    pub size: usize,
    /// At least.
    pub least: usize,
}

pub(crate) fn nothing_wide() -> Extent
    ensures { result ≡ nothing_wide }
{
    Extent { size: 0, least: 0 }
}

fn greater(a: usize, b: usize) -> usize
    ensures { result ≡ max a b }
{
    if a < b {
        return b;
    }
    a
}

fn smaller(a: usize, b: usize) -> usize
    ensures { result ≡ min a b }
{
    if a < b {
        return a;
    }
    b
}

/// Of values side by side.
pub(crate) fn beside(one: Extent, other: Extent) -> Extent
    ensures { result ≡ beside one other }
{
    Extent {
        size: one.size.saturating_add(other.size),
        least: greater(one.least, other.least),
    }
}

// after a prefix of so many columns
fn prefixed(columns: usize, inside: Extent) -> Extent
    ensures { result ≡ prefixed columns inside }
{
    Extent {
        size: inside.size.saturating_add(columns),
        least: inside.least.saturating_add(columns),
    }
}

fn of_columns(min_wrap: usize, columns: usize) -> Extent
    ensures { result ≡ of_columns min_wrap columns }
{
    Extent {
        size: columns,
        least: smaller(columns, min_wrap),
    }
}

/// Of a value by what is measured in it: together, and of each node. The error is allocation failure alone.
pub(crate) fn extent_by<P: Prefixes>(
    alloc: Global,
    prefixes: &P,
    min_wrap: usize,
    info: &RenderInfo,
    inside: Extent,
    nodes: &[RenderNode],
    sizes: &[Extent],
) -> Result<Extent, AllocError>
    requires flat { IsFlat nodes.now }
    requires same { sizes.now ≡ extents (measure_of min_wrap (P.columns prefixes.now)) (values_of nodes.now) }
    requires sum { inside ≡ extent (measure_of min_wrap (P.columns prefixes.now)) (values_of nodes.now) }
    ensures { IfOk result (λ e. e ≡ extent_by (measure_of min_wrap (P.columns prefixes.now)) info.now
        (measured (measure_of min_wrap (P.columns prefixes.now)) (values_of nodes.now))
        (number (values_of nodes.now))) }
{
    match info {
        RenderInfo::Nothing => Ok(nothing_wide()),
        RenderInfo::Text(text) => Ok(of_columns(min_wrap, text_size(text.as_str()))),
        RenderInfo::Image { title, .. } => Ok(of_columns(
            min_wrap,
            text_size(title.as_str()).saturating_add(2),
        )),
        RenderInfo::Break => Ok(Extent { size: 1, least: 1 }),
        RenderInfo::Rule => Ok(Extent { size: 1, least: 1 }),
        RenderInfo::Link(_) => Ok(Extent {
            size: inside.size.saturating_add(5),
            least: inside.least,
        }),
        RenderInfo::Heading(level) => Ok(prefixed(prefixes.heading(*level)?, inside)),
        RenderInfo::Quote => Ok(prefixed(prefixes.quote()?, inside)),
        RenderInfo::Bullets => Ok(prefixed(prefixes.bullet()?, inside)),
        RenderInfo::Numbers(first) => Ok(prefixed(
            prefixes.numbers(*first, number(nodes))?,
            inside,
        )),
        RenderInfo::Details => Ok(prefixed(2, inside)),
        RenderInfo::Table => extent_of_table(alloc, prefixes, min_wrap, nodes, sizes),
        _ => Ok(inside),
    }
}
