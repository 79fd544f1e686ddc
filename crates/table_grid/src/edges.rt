//! Edges of cells, and the columns between them.
ghost use Rattle.std.specs.Prelude.{◌≡◌, ◌^◌, ◌<◌, All, IfOk, map};
ghost use Rattle.std.specs.List.Sorted.{IsStrictlyIncreasing};
ghost use Rattle.table_grid.specs.Places.{right_of};
ghost use Rattle.table_grid.specs.Grid.{AreEdges, rank, span_in};

use crate::cell::{Cell, PlacedCell};
use std::alloc::{AllocError, Global};

/// A cell by the columns that it takes: those from `first` to before `last`.
#[derive(Clone, Copy, Debug, PartialEq, Eq)]
pub struct SpannedCell {
    pub cell: Cell,
    pub first: usize,
    pub last: usize,
}

/// The distinct edges of the cells, in order.
pub(crate) fn edges_of(alloc: Global, placed: &[PlacedCell]) -> Result<Vec<u128>, AllocError>
    requires small { All (λ p. right_of p < 2 ^ 128) placed.now }
    ensures { IfOk result (λ v. AreEdges placed.now v.items) }
{
    let mut edges = Vec::with_capacity(alloc, placed.len().saturating_mul(2))?;
    for p in placed {
        edges.push(p.left)?;
    }
    for p in placed {
        edges.push(p.left + p.cell.colspan as u128)?;
    }
    edges.sort_unstable();
    edges.dedup();
    Ok(edges)
}

/// How many numbers stand before this one.
pub(crate) fn rank_in(numbers: &[u128], number: u128) -> usize
    requires rising { IsStrictlyIncreasing numbers.now }
    ensures { result ≡ rank numbers.now number }
{
    match numbers.binary_search(&number) {
        Ok(at) => at,
        Err(at) => at,
    }
}

/// The cells with the columns between the edges that they cover.
pub(crate) fn span_cells(
    alloc: Global,
    placed: &[PlacedCell],
    edges: &[u128],
) -> Result<Vec<SpannedCell>, AllocError>
    requires rising { IsStrictlyIncreasing edges.now }
    requires small { All (λ p. right_of p < 2 ^ 128) placed.now }
    ensures { IfOk result (λ v. v.items ≡ map (span_in edges.now) placed.now) }
{
    let mut spanned = Vec::with_capacity(alloc, placed.len())?;
    for p in placed {
        spanned.push(SpannedCell {
            cell: p.cell,
            first: rank_in(edges, p.left),
            last: rank_in(edges, p.left + p.cell.colspan as u128),
        })?;
    }
    Ok(spanned)
}
