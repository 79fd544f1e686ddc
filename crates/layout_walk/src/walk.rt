//! A render tree, laid out value by value.
ghost use Rattle.std.specs.Prelude.{◌≡◌, ◌⊎◌, ◌+◌, ◌*◌, ◌-◌, ◌<◌, ◌≤◌, ◌++◌, if◌then◌else◌, All, Err, IfErr, IfOk};
ghost use Rattle.std.specs.Prelude.{List, None, OnOk, Option, chars, false, length, string_bytes};
ghost use Rattle.column_fits.specs.declared.fit.ColumnFit.{ColumnFit as SeenFit};
ghost use Rattle.block_renderer.specs.Seen.{IsTagging, has_failed, marking, sub_of};
ghost use Rattle.layout_values.specs.Seen.{AreAlike, GoesOn, IsReady, IsSound, NeverGoes, content_seen, load, rest_of};
ghost use Rattle.layout_values.specs.Seen.{waiting_of, weight};
ghost use Rattle.layout_values.specs.Continuation.{info_at, undone};
ghost use Rattle.table_fits.specs.Walk.{segment};
ghost use Rattle.text_pieces.specs.declared.fault.BlockError.TheVariants as errors;
ghost use Rattle.render_sizes.specs.Asked.{AreMeasured, asked_of};
ghost use Rattle.render_sizes.specs.declared.asked.Asked.TheVariants as asks;
ghost use Rattle.render_sizes.specs.Extents.{extent_of, extents};
ghost use Rattle.render_sizes.specs.declared.extent.Extent.{Extent as SeenExtent};
ghost use Rattle.render_values.specs.Arena.{IsFlat, values_of};
ghost use Rattle.layout_values.specs.Lay.{content_of, laid_parts, lay};
ghost use Rattle.layout_values.specs.Sizing.{Sizing, all_fits, fits_in, in_mode};
ghost use Rattle.layout_tables.specs.Seen.{FitColumnsAt, all_fits_seen, fits_at};
ghost use Rattle.render_values.specs.declared.info.RenderInfo.TheVariants as infos;
ghost use Rattle.text_pieces.specs.declared.white_space.WhiteSpace.TheVariants.{Normal};
ghost use Rattle.text_block_renderer.specs.Parts.{depth_of};
ghost use Rattle.text_block_renderer.specs.SeenParts.{PartsCome, PartsFail, current_has_failed, page_has_failed};
ghost use Rattle.text_block_renderer.specs.SeenParts.{parts_of};
ghost use Rattle.layout_state.specs.Begins.{ends};
ghost use Rattle.layout_state.specs.LayoutState.{goes_on, in_turn, part_ended};
ghost use Rattle.layout_state.specs.Seen.{Comes, Fails, IsWorking, laying_of};
ghost use Rattle.table_widths.specs.Shares.{AreSized};

use column_fits::ColumnFit;
use layout_state::{Around, LayoutState, TablePlace};
use layout_tables::end_row;
use layout_values::{Content, Continuation, OpenItem, OpenPart, end_cell, end_table, open_value};
use render_sizes::{Extent, number, table_among};
use render_values::{Head, RenderInfo, RenderNode, RenderTree};
use std::alloc::{AllocError, Global};
use table_fits::{mode_in, tables_have_fits};
use table_widths::Table;
use text_block_renderer::TextRenderer;
use text_decorators::TextDecorator;
use text_pieces::{BlockError, WhiteSpace};

// The next node, and the end of the values that are laid out one after another; the mode of white space around them.
#[derive(Clone, Copy)]
struct Place {
    mode: WhiteSpace,
    at: usize,
    end: usize,
}

// the nodes up to a place and after it
fn nodes_between(nodes: &[RenderNode], from: usize, to: usize) -> &[RenderNode]
    requires order { from ≤ to }
    requires within { to ≤ length nodes.now }
    ensures { result.now ≡ segment nodes.now from to }
{
    &nodes[from..to]
}

// what the values of those nodes ask for
fn extents_between(sizes: &[Extent], from: usize, to: usize) -> &[Extent]
    requires order { from ≤ to }
    requires within { to ≤ length sizes.now }
    ensures { result.now ≡ segment sizes.now from to }
{
    &sizes[from..to]
}

// What a layout looks at of what stands in the next value, which asks for so many columns: a table's cells, how many
// items a list has.
fn content_of(
    alloc: Global,
    head: &Head,
    least: usize,
    inside: &[RenderNode],
    sizes: &[Extent],
    fits: &Option<Vec<Vec<ColumnFit>>>,
    place: Place,
) -> Result<Content, AllocError>
    ghost w: { Sizing }
    requires flat { IsFlat inside.now }
    requires sized { asked_of head.now.info ≡ asks.Inside → sizes.now ≡ extents w.measure (values_of inside.now) }
    requires least { asked_of head.now.info ≡ asks.Itself
        → least ≡ (extent_of w.measure head.now (values_of inside.now)).least }
    requires fitted { fits_at (all_fits_seen fits.now) place.at
        ≡ fits_in (in_mode w place.mode) head.now (values_of inside.now) }
    ensures alike { IfOk result (λ c. AreAlike head.now.info
        (content_seen c (fits_at (all_fits_seen fits.now) place.at))
        (content_of (in_mode w place.mode) head.now (values_of inside.now))) }
    ensures sized { IfOk result (λ c. AreSized c.table.columns.items) }
    ensures fit { head.now.info ≡ infos.Table
        → IfOk result (λ c. FitColumnsAt (all_fits_seen fits.now) place.at c.table.columns.items) }
{
    tables_have_fits();
    match &head.info {
        RenderInfo::Table => {
            let table = table_among(alloc, inside, sizes)?;
            Ok(Content {
                items: 0,
                least,
                table,
            })
        }
        RenderInfo::Bullets | RenderInfo::Numbers(_) => Ok(Content {
            items: number(inside),
            least,
            table: Table::empty(alloc),
        }),
        _ => Ok(Content {
            items: 0,
            least,
            table: Table::empty(alloc),
        }),
    }
}

// the value of the node at a place ends
#[tactic(auto, unfolding(layout_state::specs::Begins::ends))]
fn end_at<D: TextDecorator + Drop>(
    laying: &mut LayoutState<D>,
    nodes: &[RenderNode],
    at: usize,
) -> Result<(), BlockError>
    requires { IsWorking D.Annotation.seen D.view.held laying.old }
    ensures done { OnOk result (Comes D.Annotation.seen D.view (λ m. ends m (info_at nodes.now at)) laying.old
        laying.new) }
    ensures works { OnOk result (IsWorking D.Annotation.seen D.view.held laying.new) }
    ensures narrow { result ≡ Err errors.TooNarrow → Fails D.Annotation.seen D.view
        (λ m. ends m (info_at nodes.now at)) laying.old }
    ensures kinds { IfErr result (λ e. (e ≡ errors.TooNarrow) ⊎ (e ≡ errors.Memory)) }
{
    match nodes.get(at) {
        Some(node) => laying.end(&node.head.info),
        None => Ok(()),
    }
}

// a part ends
fn end_part<D: TextDecorator + Drop>(
    laying: &mut LayoutState<D>,
    part: Box<OpenPart<D>>,
) -> Result<(), BlockError>
    requires works { IsWorking D.Annotation.seen D.view.held laying.old × (has_failed part.value.outer ≡ false) }
    ensures done { OnOk result (Comes D.Annotation.seen D.view
        (λ m. part_ended m (sub_of D.Annotation.seen D.view.held part.value.outer)
        (chars (string_bytes part.value.first)) (chars (string_bytes part.value.following))) laying.old laying.new) }
    ensures works { OnOk result (IsWorking D.Annotation.seen D.view.held laying.new) }
    ensures narrow { result ≡ Err errors.TooNarrow → Fails D.Annotation.seen D.view
        (λ m. part_ended m (sub_of D.Annotation.seen D.view.held part.value.outer)
        (chars (string_bytes part.value.first)) (chars (string_bytes part.value.following))) laying.old }
    ensures kinds { IfErr result (λ e. (e ≡ errors.TooNarrow) ⊎ (e ≡ errors.Memory)) }
{
    let OpenPart {
        outer,
        first,
        following,
    } = Box::into_inner(part);
    laying.end_part(outer, first.as_str(), following.as_str())
}

// an item's part ends, and then the list around says what it left
fn end_item<D: TextDecorator + Drop>(
    laying: &mut LayoutState<D>,
    item: Box<OpenItem<D>>,
) -> Result<(), BlockError>
    requires works { IsWorking D.Annotation.seen D.view.held laying.old × (has_failed item.value.outer ≡ false) }
    ensures done { OnOk result (Comes D.Annotation.seen D.view
        (λ m. in_turn (part_ended m (sub_of D.Annotation.seen D.view.held item.value.outer)
        (chars (string_bytes item.value.first)) (chars (string_bytes item.value.following)))
        (goes_on item.value.around)) laying.old laying.new) }
    ensures works { OnOk result (IsWorking D.Annotation.seen D.view.held laying.new) }
    ensures narrow { result ≡ Err errors.TooNarrow → Fails D.Annotation.seen D.view
        (λ m. in_turn (part_ended m (sub_of D.Annotation.seen D.view.held item.value.outer)
        (chars (string_bytes item.value.first)) (chars (string_bytes item.value.following)))
        (goes_on item.value.around)) laying.old }
    ensures kinds { IfErr result (λ e. (e ≡ errors.TooNarrow) ⊎ (e ≡ errors.Memory)) }
{
    let OpenItem {
        outer,
        first,
        following,
        around,
    } = Box::into_inner(item);
    laying.end_part(outer, first.as_str(), following.as_str())?;
    laying.around = around;
    Ok(())
}

// what waited last is done, or its nodes are the next
fn leave<D: TextDecorator + Drop>(
    laying: &mut LayoutState<D>,
    alloc: Global,
    nodes: &[RenderNode],
    place: Place,
    next: Continuation<D>,
) -> Result<Place, BlockError>
    requires works { IsWorking D.Annotation.seen D.view.held laying.old }
    requires ready { (sizes : List SeenExtent) × ((fits : Option (List (List SeenFit))) × ((w : Sizing)
        × IsReady nodes.now sizes fits w next)) }
    requires past { place.end ≤ place.at }
    ensures goes { IfOk result (λ p. (tag : _) → IsTagging D.Annotation.seen D.view tag → (w : Sizing)
        → lay (marking D.view tag) (in_mode w p.mode) (values_of (segment nodes.now p.at p.end)) (laying_of
        D.Annotation.seen D.view.held laying.new) ≡ undone (marking D.view tag) w (waiting_of D.Annotation.seen
        D.view.held nodes.now next) (laying_of D.Annotation.seen D.view.held laying.old)) }
    ensures works { OnOk result (IsWorking D.Annotation.seen D.view.held laying.new) }
    ensures sound { (sizes : List SeenExtent) (fits : Option (List (List SeenFit))) (w : Sizing)
        → IsReady nodes.now sizes fits w next
        → IsSound nodes.now sizes fits (in_mode w place.mode) place.at place.end
        → IfOk result (λ p. IsSound nodes.now sizes fits (in_mode w p.mode) p.at p.end) }
    ensures falls { IfOk result (λ p. 8 * (p.end - p.at) + 1 ≤ weight next) }
    ensures narrow { result ≡ Err errors.TooNarrow → (tag : _) → IsTagging D.Annotation.seen D.view tag → (w : Sizing)
        → undone (marking D.view tag) w (waiting_of D.Annotation.seen D.view.held nodes.now next)
        (laying_of D.Annotation.seen D.view.held laying.old) ≡ None }
    ensures kinds { IfErr result (λ e. (e ≡ errors.TooNarrow) ⊎ (e ≡ errors.Memory)) }
{
    match next {
        Continuation::Rest { mode, from, to } => Ok(Place {
            mode,
            at: from,
            end: to,
        }),
        Continuation::ValueEnds(at) => {
            end_at(laying, nodes, at)?;
            Ok(place)
        }
        Continuation::LookEnds(style) => {
            laying.end_look(style);
            Ok(place)
        }
        Continuation::PartEnds(part) => {
            end_part(laying, part)?;
            Ok(place)
        }
        Continuation::ItemEnds(item) => {
            end_item(laying, item)?;
            Ok(place)
        }
        Continuation::ListEnds => {
            laying.around = Around::Flow;
            Ok(place)
        }
        Continuation::TableEnds(table) => {
            end_table(laying, table)?;
            Ok(place)
        }
        Continuation::RowEnds => {
            end_row(laying, alloc)?;
            Ok(place)
        }
        Continuation::CellEnds(cell) => {
            end_cell(laying, alloc, cell)?;
            Ok(place)
        }
    }
}

// the next node where a value was entered, whose nodes those are: the first of them, or none
fn entrance(entered: bool, first: usize, trailing: usize) -> usize
    ensures { result ≡ if entered then first else trailing }
{
    if entered {
        return first;
    }
    trailing
}

// values of nodes wait from here on, unless there are none
fn push_nodes<D: TextDecorator + Drop>(
    waiting: &mut Vec<Continuation<D>>,
    mode: WhiteSpace,
    from: usize,
    to: usize,
) -> Result<(), AllocError>
    ensures { OnOk result (waiting.new.items ≡ waiting.old.items ++ rest_of mode from to) }
{
    if from < to {
        waiting.push(Continuation::Rest { mode, from, to })?;
        return Ok(());
    }
    Ok(())
}

// the next value begins
fn enter<D: TextDecorator + Drop>(
    laying: &mut LayoutState<D>,
    alloc: Global,
    nodes: &[RenderNode],
    sizes: &[Extent],
    fits: &Option<Vec<Vec<ColumnFit>>>,
    place: Place,
    waiting: &mut Vec<Continuation<D>>,
) -> Result<Place, BlockError>
    ghost w: { Sizing }
    requires works { IsWorking D.Annotation.seen D.view.held laying.old }
    requires here { place.at < place.end }
    requires sound { IsSound nodes.now sizes.now (all_fits_seen fits.now) (in_mode w place.mode) place.at place.end }
    ensures goes { IfOk result (λ p. GoesOn D.Annotation.seen D.view nodes.now w place.mode place.at place.end
        waiting.old.items laying.old p.mode p.at p.end waiting.new.items laying.new) }
    ensures works { OnOk result (IsWorking D.Annotation.seen D.view.held laying.new) }
    ensures ready { All (IsReady nodes.now sizes.now (all_fits_seen fits.now) w) waiting.old.items → OnOk result
        (All (IsReady nodes.now sizes.now (all_fits_seen fits.now) w) waiting.new.items) }
    ensures sound { IfOk result (λ p. IsSound nodes.now sizes.now (all_fits_seen fits.now) (in_mode w p.mode) p.at
        p.end) }
    ensures falls { IfOk result (λ p. load waiting.new.items + 8 * (p.end - p.at) < load waiting.old.items + 8 *
        (place.end - place.at)) }
    ensures narrow { result ≡ Err errors.TooNarrow → NeverGoes D.Annotation.seen D.view nodes.now w place.mode place.at
        place.end waiting.old.items laying.old }
    ensures kinds { IfErr result (λ e. (e ≡ errors.TooNarrow) ⊎ (e ≡ errors.Memory)) }
{
    let node = &nodes[place.at];
    let extent = &sizes[place.at];
    let first = place.at + 1;
    let trailing = first + node.below;
    push_nodes(waiting, place.mode, trailing, place.end)?;
    let inside = nodes_between(nodes, first, trailing);
    let inner = extents_between(sizes, first, trailing);
    let content = content_of(alloc, &node.head, extent.least, inside, inner, fits, place)?;
    let entered = open_value(laying, alloc, &node.head, place.at, content, fits, waiting)?;
    let mode = mode_in(place.mode, &node.head);
    Ok(Place {
        mode,
        at: entrance(entered, first, trailing),
        end: trailing,
    })
}

// lays out the values of nodes with the columns that they take, or that are asked for, and what tables ask for
fn walk<D: TextDecorator + Drop>(
    laying: &mut LayoutState<D>,
    alloc: Global,
    nodes: &[RenderNode],
    sizes: &[Extent],
    fits: &Option<Vec<Vec<ColumnFit>>>,
) -> Result<(), BlockError>
    ghost w: { Sizing }
    requires works { IsWorking D.Annotation.seen D.view.held laying.old }
    requires flat { IsFlat nodes.now }
    requires sized { AreMeasured w.measure (values_of nodes.now) sizes.now }
    requires fitted { all_fits_seen fits.now ≡ all_fits (in_mode w Normal) (values_of nodes.now) }
    ensures done { OnOk result (Comes D.Annotation.seen D.view (λ m. lay m (in_mode w Normal) (values_of nodes.now))
        laying.old laying.new) }
    ensures works { OnOk result (IsWorking D.Annotation.seen D.view.held laying.new) }
    ensures narrow { result ≡ Err errors.TooNarrow → Fails D.Annotation.seen D.view
        (λ m. lay m (in_mode w Normal) (values_of nodes.now)) laying.old }
    ensures kinds { IfErr result (λ e. (e ≡ errors.TooNarrow) ⊎ (e ≡ errors.Memory)) }
{
    let mut waiting: Vec<Continuation<D>> = Vec::new(alloc);
    let mut place = Place {
        mode: WhiteSpace::Normal,
        at: 0,
        end: nodes.len(),
    };
    'nodes: loop {
        if place.at < place.end {
            place = enter(laying, alloc, nodes, sizes, fits, place, &mut waiting)?;
        } else {
            match waiting.pop() {
                Some(next) => {
                    place = leave(laying, alloc, nodes, place, next)?;
                }
                None => return Ok(()),
            }
        }
    }
}

/// Lays out a render tree in the renderers of a page; `sizes` are the columns of each node's value as `w` measures
/// them, or those that a layout asks for, and `fits` what the columns of each table ask for, where they are fitted. No
/// part may stand on the page. The error is `TooNarrow` where a part of the
/// page lacks the columns that it asks for, or a character is wider than its line and may not stand alone, else
/// `Memory`.
pub fn lay_tree<D: TextDecorator + Drop>(
    alloc: Global,
    tree: &RenderTree,
    sizes: &[Extent],
    fits: &Option<Vec<Vec<ColumnFit>>>,
    text: TextRenderer<D>,
) -> Result<TextRenderer<D>, BlockError>
    ghost w: { Sizing }
    requires works { (page_has_failed text ≡ false) × (current_has_failed text ≡ false) }
    requires whole { depth_of (parts_of D.Annotation.seen D.view.held text) ≡ 1 }
    requires sized { AreMeasured w.measure tree.now sizes.now }
    requires fitted { all_fits_seen fits.now ≡ all_fits (in_mode w Normal) tree.now }
    ensures laid { IfOk result (λ trailing. PartsCome D.Annotation.seen D.view
        (λ m p. laid_parts m (in_mode w Normal) tree.now p) text trailing) }
    ensures works { IfOk result (λ trailing. (page_has_failed trailing ≡ false) ×
        (current_has_failed trailing ≡ false)) }
    ensures whole { IfOk result (λ trailing. depth_of (parts_of D.Annotation.seen D.view.held trailing) ≡ 1) }
    ensures narrow { result ≡ Err errors.TooNarrow → PartsFail D.Annotation.seen D.view
        (λ m p. laid_parts m (in_mode w Normal) tree.now p) text }
    ensures kinds { IfErr result (λ e. (e ≡ errors.TooNarrow) ⊎ (e ≡ errors.Memory)) }
{
    let mut laying = LayoutState {
        text,
        around: Around::Flow,
        table: TablePlace::Outside { in_cell: false },
    };
    walk(&mut laying, alloc, tree.nodes(), sizes, fits)?;
    let LayoutState {
        text,
        around: _,
        table: _,
    } = laying;
    Ok(text)
}
