//! The columns that a layout asks for.
ghost use Rattle.std.specs.Prelude.{◌≡◌, ◌<◌, ◌++◌, IfOk, OnOk, length};
ghost use Rattle.render_values.specs.Arena.{IsFlat, values_of};
ghost use Rattle.render_sizes.specs.Asked.{asked_extents, asked_of};
ghost use Rattle.render_sizes.specs.Extents.{extents, measure_of};

use crate::extent::{Extent, nothing_wide};
use crate::prefixes::Prefixes;
use crate::sizes::{all_extents, first_nodes, nodes_after, one_more};
use render_values::{RenderInfo, RenderNode, RenderTree};
use std::alloc::{AllocError, Global};

/// What a layout asks of a value.
#[derive(Clone, Copy, Debug, PartialEq, Eq)]
pub enum Asked {
    /// Nothing, though it may ask of what stands in it.
    Nothing,
    /// How many columns what stands in it takes.
    Inside,
    /// How many columns it takes, and what stands in it.
    Itself,
}

fn asked_of(info: &RenderInfo) -> Asked
    ensures { result ≡ asked_of info.now }
{
    match info {
        RenderInfo::Heading(_)
        | RenderInfo::Quote
        | RenderInfo::Bullets
        | RenderInfo::Numbers(_)
        | RenderInfo::Details => Asked::Itself,
        RenderInfo::Table => Asked::Inside,
        _ => Asked::Nothing,
    }
}

// adds what each of some nodes takes
fn push_extents<P: Prefixes>(
    all: &mut Vec<Extent>,
    alloc: Global,
    prefixes: &P,
    min_wrap: usize,
    nodes: &[RenderNode],
) -> Result<(), AllocError>
    requires { IsFlat nodes.now }
    ensures { OnOk result (all.new.items
        ≡ all.old.items ++ extents (measure_of min_wrap (P.columns prefixes.now)) (values_of nodes.now)) }
{
    let mut extents = all_extents(alloc, prefixes, min_wrap, nodes)?;
    all.append(&mut extents)
}

// adds what is asked of the first value, with what stands in it where that is measured too; the nodes after them
fn push_asked<'n, P: Prefixes>(
    all: &mut Vec<Extent>,
    alloc: Global,
    prefixes: &P,
    min_wrap: usize,
    nodes: &'n [RenderNode],
) -> Result<&'n [RenderNode], AllocError>
    requires flat { IsFlat nodes.now }
    requires some { 0 < length nodes.now }
    ensures asked { IfOk result (λ rest. all.new.items
        ++ asked_extents (measure_of min_wrap (P.columns prefixes.now)) (values_of rest.now)
        ≡ all.old.items ++ asked_extents (measure_of min_wrap (P.columns prefixes.now)) (values_of nodes.now)) }
    ensures flat { IfOk result (λ rest. IsFlat rest.now) }
    ensures fewer { IfOk result (λ rest. length rest.now < length nodes.now) }
{
    let Some((first, others)) = nodes.split_first() else {
        return Ok(nodes);
    };
    match asked_of(&first.head.info) {
        Asked::Nothing => {
            all.push(nothing_wide())?;
            Ok(others)
        }
        Asked::Inside => {
            all.push(nothing_wide())?;
            let inside = first_nodes(others, first.below);
            push_extents(all, alloc, prefixes, min_wrap, inside)?;
            Ok(nodes_after(others, first.below))
        }
        Asked::Itself => {
            let value = first_nodes(nodes, one_more(first.below, nodes.len()));
            push_extents(all, alloc, prefixes, min_wrap, value)?;
            Ok(nodes_after(others, first.below))
        }
    }
}

fn asked_of_nodes<P: Prefixes>(
    alloc: Global,
    prefixes: &P,
    min_wrap: usize,
    nodes: &[RenderNode],
) -> Result<Vec<Extent>, AllocError>
    requires { IsFlat nodes.now }
    ensures { IfOk result (λ all. all.items
        ≡ asked_extents (measure_of min_wrap (P.columns prefixes.now)) (values_of nodes.now)) }
{
    let mut all = Vec::with_capacity(alloc, nodes.len())?;
    let mut rest = nodes;
    'nodes: while !rest.is_empty() {
        rest = push_asked(&mut all, alloc, prefixes, min_wrap, rest)?;
    }
    Ok(all)
}

/// The columns that a layout asks for, in the order of the tree's nodes, and none where it asks nothing: most of a page
/// stands after no prefix and in no table. The error is allocation failure alone.
pub fn asked_extents<P: Prefixes>(
    alloc: Global,
    prefixes: &P,
    min_wrap: usize,
    tree: &RenderTree,
) -> Result<Vec<Extent>, AllocError>
    ensures { IfOk result (λ all. all.items
        ≡ asked_extents (measure_of min_wrap (P.columns prefixes.now)) tree.now) }
{
    asked_of_nodes(alloc, prefixes, min_wrap, tree.nodes())
}
