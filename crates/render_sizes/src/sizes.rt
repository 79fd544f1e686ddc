//! The columns of each value of a tree.
ghost use Rattle.std.specs.Prelude.{◌≡◌, ◌<◌, ◌≤◌, ◌+◌, IfOk, drop, length, take};
ghost use Rattle.render_values.specs.Arena.{IsFlat, values_of};
ghost use Rattle.render_sizes.specs.Extents.{extent, extents, first_extent, measure_of, number};

use crate::extent::{Extent, beside, extent_by, nothing_wide};
use crate::prefixes::Prefixes;
use render_values::{RenderNode, RenderTree};
use std::alloc::{AllocError, Global};

/// The nodes after so many.
pub(crate) fn nodes_after(nodes: &[RenderNode], count: usize) -> &[RenderNode]
    requires { count ≤ length nodes.now }
    ensures { result.now ≡ drop count nodes.now }
{
    &nodes[count..]
}

/// So many nodes in front.
pub(crate) fn first_nodes(nodes: &[RenderNode], count: usize) -> &[RenderNode]
    requires { count ≤ length nodes.now }
    ensures { result.now ≡ take count nodes.now }
{
    &nodes[..count]
}

fn first_extents(extents: &[Extent], count: usize) -> &[Extent]
    requires { count ≤ length extents.now }
    ensures { result.now ≡ take count extents.now }
{
    &extents[..count]
}

/// The extents after so many.
pub(crate) fn extents_after(extents: &[Extent], count: usize) -> &[Extent]
    requires { count ≤ length extents.now }
    ensures { result.now ≡ drop count extents.now }
{
    &extents[count..]
}

/// One more, below a number that is there.
pub(crate) fn one_more(count: usize, most: usize) -> usize
    requires { count < most }
    ensures { result ≡ count + 1 }
{
    prove!(count < most);
    count + 1
}

/// How many of some values stand side by side.
pub fn number(nodes: &[RenderNode]) -> usize
    requires { IsFlat nodes.now }
    ensures { result ≡ number (values_of nodes.now) }
{
    let most = nodes.len();
    let mut count = 0;
    let mut rest = nodes;
    'values: while let Some((first, others)) = rest.split_first() {
        count = one_more(count, most);
        rest = nodes_after(others, first.below);
    }
    count
}

// of values side by side, of which each node is measured
fn together<P: Prefixes>(
    prefixes: &P,
    min_wrap: usize,
    nodes: &[RenderNode],
    measured: &[Extent],
) -> Extent
    requires flat { IsFlat nodes.now }
    requires same { measured.now ≡ extents (measure_of min_wrap (P.columns prefixes.now)) (values_of nodes.now) }
    ensures { result ≡ extent (measure_of min_wrap (P.columns prefixes.now)) (values_of nodes.now) }
{
    let mut sum = nothing_wide();
    let mut rest = nodes;
    let mut left = measured;
    'values: while let Some((first, others)) = rest.split_first() {
        sum = beside(sum, left[0]);
        left = extents_after(extents_after(left, 1), first.below);
        rest = nodes_after(others, first.below);
    }
    sum
}

// of a value whose nodes after it are measured
fn measured_first<P: Prefixes>(
    alloc: Global,
    prefixes: &P,
    min_wrap: usize,
    nodes: &[RenderNode],
    measured: &[Extent],
) -> Result<Extent, AllocError>
    requires flat { IsFlat nodes.now }
    requires some { 0 < length nodes.now }
    requires same { measured.now
        ≡ extents (measure_of min_wrap (P.columns prefixes.now)) (values_of (drop 1 nodes.now)) }
    ensures { IfOk result (λ e. e
        ≡ first_extent (measure_of min_wrap (P.columns prefixes.now)) (values_of nodes.now)) }
{
    match nodes.split_first() {
        Some((first, others)) => {
            let inner = first_nodes(others, first.below);
            let sizes = first_extents(measured, first.below);
            let inside = together(prefixes, min_wrap, inner, sizes);
            let info = &first.head.info;
            extent_by(alloc, prefixes, min_wrap, info, inside, inner, sizes)
        }
        None => Ok(nothing_wide()),
    }
}

/// Of each node, from the last to the first. The error is allocation failure alone.
pub(crate) fn all_extents<P: Prefixes>(
    alloc: Global,
    prefixes: &P,
    min_wrap: usize,
    nodes: &[RenderNode],
) -> Result<Vec<Extent>, AllocError>
    requires { IsFlat nodes.now }
    ensures { IfOk result (λ all. all.items
        ≡ extents (measure_of min_wrap (P.columns prefixes.now)) (values_of nodes.now)) }
{
    let mut all = Vec::from_elem(alloc, nothing_wide(), nodes.len())?;
    let mut at = nodes.len();
    'nodes: while at > 0 {
        at -= 1;
        let one = measured_first(
            alloc,
            prefixes,
            min_wrap,
            nodes_after(nodes, at),
            extents_after(all.as_slice(), at + 1),
        )?;
        all[at] = one;
    }
    Ok(all)
}

/// The columns of each node's value, in the order of the tree's nodes. The error is allocation failure alone.
pub fn measured<P: Prefixes>(
    alloc: Global,
    prefixes: &P,
    min_wrap: usize,
    tree: &RenderTree,
) -> Result<Vec<Extent>, AllocError>
    ensures { IfOk result (λ all. all.items ≡ extents (measure_of min_wrap (P.columns prefixes.now)) tree.now) }
{
    all_extents(alloc, prefixes, min_wrap, tree.nodes())
}
