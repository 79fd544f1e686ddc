//! The pass over the nodes of a page.
ghost use Rattle.std.specs.Prelude.{◌≡◌, ◌+◌, ◌<◌, ◌≤◌, ◌++◌, ◌∷◌, [], IfOk, length};
ghost use Rattle.render_sizes.specs.Extents.{Measure, extents};
ghost use Rattle.render_values.specs.Arena.{IsFlat, values_of};
ghost use Rattle.table_fits.specs.Flowing.{fitting};
ghost use Rattle.table_fits.specs.Seen.{fits_seen};
ghost use Rattle.table_fits.specs.TableFits.{table_fits};
ghost use Rattle.table_fits.specs.Walk.{IsWalking};
ghost use Rattle.text_pieces.specs.declared.white_space.WhiteSpace.TheVariants.{Normal};

use crate::laws::passes_give_fits;
use crate::reading::Reading;
use crate::standing::{Around, inside_of};
use crate::values::{Kept, begin, end};
use block_trait::RenderOptions;
use column_fits::ColumnFit;
use render_sizes::{Extent, Prefixes, values_ask_for_no_more_at_least};
use render_values::{RenderNode, RenderTree};
use std::alloc::{AllocError, Global};

// The next node, the end of the values among which it stands, and what is said around them.
#[derive(Clone, Copy)]
struct Place {
    at: usize,
    end: usize,
    around: Around,
}

// a value that has begun
#[derive(Drop)]
struct OpenValue {
    // its node
    at: usize,
    // the end of the values among which it stands, and what is said around them
    end: usize,
    around: Around,
    kept: Kept,
}

// the next value begins
fn enter<P: Prefixes>(
    reading: &mut Reading,
    waiting: &mut Vec<OpenValue>,
    alloc: Global,
    options: &RenderOptions,
    prefixes: &P,
    nodes: &[RenderNode],
    sizes: &[Extent],
    place: Place,
) -> Result<Place, AllocError>
    ghost w: { Measure }
    requires here { place.at < place.end }
    requires prefixes { w.prefixes ≡ P.columns prefixes.now }
    requires walking { IsWalking options.now w nodes.now sizes.now place waiting.old.items reading.old }
    ensures walking { IfOk result (λ p. IsWalking options.now w nodes.now sizes.now p waiting.new.items reading.new) }
    ensures next { IfOk result (λ p. p.at ≡ place.at + 1) }
    ensures more { IfOk result (λ p. length waiting.new.items ≡ length waiting.old.items + 1) }
{
    values_ask_for_no_more_at_least();
    let node = &nodes[place.at];
    let kept = begin(reading, alloc, options, place.around, &node.head)?;
    let first = place.at + 1;
    let last = first + node.below;
    let around = inside_of(prefixes, place.around, &node.head, &nodes[first..last])?;
    waiting.push(OpenValue {
        at: place.at,
        end: place.end,
        around: place.around,
        kept,
    })?;
    Ok(Place {
        at: first,
        end: last,
        around,
    })
}

// the value ends that began last
fn leave<P: Prefixes>(
    reading: &mut Reading,
    alloc: Global,
    options: &RenderOptions,
    prefixes: &P,
    nodes: &[RenderNode],
    sizes: &[Extent],
    place: Place,
    waiting: &[OpenValue],
    ended: OpenValue,
) -> Result<Place, AllocError>
    ghost w: { Measure }
    requires over { place.end ≤ place.at }
    requires prefixes { w.prefixes ≡ P.columns prefixes.now }
    requires walking { IsWalking options.now w nodes.now sizes.now place (waiting.now ++ ended ∷ []) reading.old }
    ensures walking { IfOk result (λ p. IsWalking options.now w nodes.now sizes.now p waiting.now reading.new) }
    ensures stays { IfOk result (λ p. p.at ≡ place.at) }
{
    let OpenValue {
        at,
        end: last,
        around,
        kept,
    } = ended;
    let head = &nodes[at].head;
    let extent = sizes[at];
    end(
        reading, alloc, options, prefixes, around, head, extent, at, kept,
    )?;
    Ok(Place {
        at: place.at,
        end: last,
        around,
    })
}

fn walk<P: Prefixes>(
    alloc: Global,
    options: &RenderOptions,
    prefixes: &P,
    nodes: &[RenderNode],
    sizes: &[Extent],
) -> Result<Vec<Vec<ColumnFit>>, AllocError>
    ghost w: { Measure }
    requires flat { IsFlat nodes.now }
    requires prefixes { w.prefixes ≡ P.columns prefixes.now }
    requires sized { sizes.now ≡ extents w (values_of nodes.now) }
    ensures { IfOk result (λ fits. fits_seen fits.items
        ≡ table_fits (fitting options.now w) Normal (values_of nodes.now)) }
{
    passes_give_fits();
    let mut reading = Reading::new(alloc, nodes.len())?;
    let mut waiting: Vec<OpenValue> = Vec::new(alloc);
    let mut place = Place {
        at: 0,
        end: nodes.len(),
        around: Around::page(),
    };
    'values: loop {
        if place.at < place.end {
            place = enter(
                &mut reading,
                &mut waiting,
                alloc,
                options,
                prefixes,
                nodes,
                sizes,
                place,
            )?;
        } else {
            match waiting.pop() {
                Some(ended) => {
                    let others = waiting.as_slice();
                    place = leave(
                        &mut reading,
                        alloc,
                        options,
                        prefixes,
                        nodes,
                        sizes,
                        place,
                        others,
                        ended,
                    )?;
                }
                None => return Ok(reading.into_fits()),
            }
        }
    }
}

/// What the columns of each value of a tree ask for that is a table, in the order of the tree's nodes, and nothing of
/// any other; `sizes` gives for each node how many columns its value takes, as `w` measures them. The error is
/// allocation failure alone.
pub fn table_fits<P: Prefixes>(
    alloc: Global,
    options: &RenderOptions,
    prefixes: &P,
    tree: &RenderTree,
    sizes: &[Extent],
) -> Result<Vec<Vec<ColumnFit>>, AllocError>
    ghost w: { Measure }
    requires prefixes { w.prefixes ≡ P.columns prefixes.now }
    requires sized { sizes.now ≡ extents w tree.now }
    ensures { IfOk result (λ fits. fits_seen fits.items ≡ table_fits (fitting options.now w) Normal tree.now) }
{
    walk(alloc, options, prefixes, tree.nodes(), sizes)
}
