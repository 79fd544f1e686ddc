//! Values, opened one after another.
ghost use Rattle.std.specs.Prelude.{◌≡◌, ◌++◌, ◌⊎◌, Err, IfErr, IfOk, IfSome, List, OnOk};
ghost use Rattle.text_pieces.specs.declared.fault.BlockError.TheVariants as errors;
ghost use Rattle.render_values.specs.declared.node.RenderNode.{RenderNode};
ghost use Rattle.layout_values.specs.Seen.{IsOpened, NeverOpens, OpensWhere, WorksOutside, content_seen, maybe};
ghost use Rattle.layout_values.specs.Lay.{holds, laid, laid_outside, shown};
ghost use Rattle.layout_values.specs.Continuation.{info_at};
ghost use Rattle.layout_tables.specs.Seen.{AreGivenAt, FitColumnsAt, all_fits_seen, fits_at};
ghost use Rattle.render_values.specs.declared.info.RenderInfo.TheVariants as infos;
ghost use Rattle.layout_state.specs.Seen.{IsWorking};
ghost use Rattle.table_widths.specs.Shares.{AreSized};

use crate::content::Content;
use crate::lists::{hold_items, open_place};
use crate::looking::open_look;
use crate::parts::{hold_details, hold_heading, hold_quote};
use crate::tables::{hold_table, open_table_part};
use crate::waiting::Continuation;
use column_fits::ColumnFit;
use layout_state::{ItemMark, LayoutState};
use render_values::{Head, RenderInfo};
use std::alloc::{AllocError, Global};
use text_decorators::TextDecorator;
use text_pieces::BlockError;

// Where what stands in a value is laid out; whether it is.
#[tactic(auto, unfolding(crate::specs::Lay::holds))]
fn hold<D: TextDecorator + Drop>(
    laying: &mut LayoutState<D>,
    alloc: Global,
    info: &RenderInfo,
    at: usize,
    content: Content,
    fits: &Option<Vec<Vec<ColumnFit>>>,
) -> Result<(Option<Continuation<D>>, bool), BlockError>
    requires works { IsWorking D.Annotation.seen D.view.held laying.old }
    requires sized { AreSized content.table.columns.items }
    requires given { AreGivenAt (all_fits_seen fits.now) at }
    requires fit { info.now ≡ infos.Table
        → FitColumnsAt (all_fits_seen fits.now) at content.table.columns.items }
    ensures opened { IfOk result (λ r. OpensWhere D.Annotation.seen D.view
        (λ m. holds m info.now (content_seen content (fits_at (all_fits_seen fits.now) at))) r.1 (maybe r.0)
        laying.old laying.new) }
    ensures works { OnOk result (IsWorking D.Annotation.seen D.view.held laying.new) }
    ensures ready { IfOk result (λ r. IfSome r.0 WorksOutside) }
    ensures narrow { result ≡ Err errors.TooNarrow → NeverOpens D.Annotation.seen D.view
        (λ m. holds m info.now (content_seen content (fits_at (all_fits_seen fits.now) at))) laying.old }
    ensures kinds { IfErr result (λ e. (e ≡ errors.TooNarrow) ⊎ (e ≡ errors.Memory)) }
{
    let least = content.least;
    match info {
        RenderInfo::Heading(level) => Ok((Some(hold_heading(laying, alloc, *level, least)?), true)),
        RenderInfo::Quote => Ok((Some(hold_quote(laying, alloc, least)?), true)),
        RenderInfo::Details => Ok((Some(hold_details(laying, alloc, least)?), true)),
        RenderInfo::Bullets => {
            let list = hold_items(laying, ItemMark::Bullet, content.items, least)?;
            Ok((Some(list), true))
        }
        RenderInfo::Numbers(first) => {
            let list = hold_items(laying, ItemMark::Number(*first), content.items, least)?;
            Ok((Some(list), true))
        }
        RenderInfo::Table => {
            let table = hold_table(laying, alloc, content.table, fits, at)?;
            let is_shown = table.is_some();
            Ok((table, is_shown))
        }
        _ => Ok((None, true)),
    }
}

// a value of the node at a place, until it ends; whether what stands in it is laid out
fn open_shown<D: TextDecorator + Drop>(
    laying: &mut LayoutState<D>,
    alloc: Global,
    head: &Head,
    at: usize,
    content: Content,
    fits: &Option<Vec<Vec<ColumnFit>>>,
    waiting: &mut Vec<Continuation<D>>,
) -> Result<bool, BlockError>
    requires works { IsWorking D.Annotation.seen D.view.held laying.old }
    requires sized { AreSized content.table.columns.items }
    requires given { AreGivenAt (all_fits_seen fits.now) at }
    requires fit { head.now.info ≡ infos.Table
        → FitColumnsAt (all_fits_seen fits.now) at content.table.columns.items }
    ensures opened { (nodes : List RenderNode) → info_at nodes at ≡ head.now.info → IfOk result
        (λ entered. IsOpened D.Annotation.seen D.view 2 nodes entered
        (λ m. shown m head.now (content_seen content (fits_at (all_fits_seen fits.now) at))) waiting.old.items
        waiting.new.items laying.old laying.new) }
    ensures works { OnOk result (IsWorking D.Annotation.seen D.view.held laying.new) }
    ensures narrow { result ≡ Err errors.TooNarrow → NeverOpens D.Annotation.seen D.view
        (λ m. shown m head.now (content_seen content (fits_at (all_fits_seen fits.now) at))) laying.old }
    ensures kinds { IfErr result (λ e. (e ≡ errors.TooNarrow) ⊎ (e ≡ errors.Memory)) }
{
    laying.lead(head)?;
    laying.begin(&head.info)?;
    waiting.push(Continuation::ValueEnds(at))?;
    let (part, entered) = hold(laying, alloc, &head.info, at, content, fits)?;
    push_some(waiting, part)?;
    if !entered {
        return Ok(false);
    }
    laying.follow(head)?;
    Ok(true)
}

// a value outside of tables
fn open_outside<D: TextDecorator + Drop>(
    laying: &mut LayoutState<D>,
    alloc: Global,
    head: &Head,
    at: usize,
    content: Content,
    fits: &Option<Vec<Vec<ColumnFit>>>,
    waiting: &mut Vec<Continuation<D>>,
) -> Result<bool, BlockError>
    requires works { IsWorking D.Annotation.seen D.view.held laying.old }
    requires sized { AreSized content.table.columns.items }
    requires given { AreGivenAt (all_fits_seen fits.now) at }
    requires fit { head.now.info ≡ infos.Table
        → FitColumnsAt (all_fits_seen fits.now) at content.table.columns.items }
    ensures opened { (nodes : List RenderNode) → info_at nodes at ≡ head.now.info → IfOk result
        (λ entered. IsOpened D.Annotation.seen D.view 4 nodes entered
        (λ m. laid_outside m head.now (content_seen content (fits_at (all_fits_seen fits.now) at))) waiting.old.items
        waiting.new.items laying.old laying.new) }
    ensures works { OnOk result (IsWorking D.Annotation.seen D.view.held laying.new) }
    ensures narrow { result ≡ Err errors.TooNarrow → NeverOpens D.Annotation.seen D.view
        (λ m. laid_outside m head.now (content_seen content (fits_at (all_fits_seen fits.now) at))) laying.old }
    ensures kinds { IfErr result (λ e. (e ≡ errors.TooNarrow) ⊎ (e ≡ errors.Memory)) }
{
    let item = open_place(laying, alloc)?;
    push_some(waiting, item)?;
    let look = open_look(laying, head.style)?;
    push_some(waiting, look)?;
    open_shown(laying, alloc, head, at, content, fits, waiting)
}

/// The value of the node at a place begins, with what stands in it; what waits for its end is pushed. Emits whether
/// what stands in it is laid out. `fits` are what the columns of tables ask for, where they are fitted. The error is
/// `TooNarrow` where the definition has no result, else `Memory`.
pub fn open_value<D: TextDecorator + Drop>(
    laying: &mut LayoutState<D>,
    alloc: Global,
    head: &Head,
    at: usize,
    content: Content,
    fits: &Option<Vec<Vec<ColumnFit>>>,
    waiting: &mut Vec<Continuation<D>>,
) -> Result<bool, BlockError>
    requires works { IsWorking D.Annotation.seen D.view.held laying.old }
    requires sized { AreSized content.table.columns.items }
    requires given { AreGivenAt (all_fits_seen fits.now) at }
    requires fit { head.now.info ≡ infos.Table
        → FitColumnsAt (all_fits_seen fits.now) at content.table.columns.items }
    ensures opened { (nodes : List RenderNode) → info_at nodes at ≡ head.now.info → IfOk result
        (λ entered. IsOpened D.Annotation.seen D.view 4 nodes entered
        (λ m. laid m head.now (content_seen content (fits_at (all_fits_seen fits.now) at))) waiting.old.items
        waiting.new.items laying.old laying.new) }
    ensures works { OnOk result (IsWorking D.Annotation.seen D.view.held laying.new) }
    ensures narrow { result ≡ Err errors.TooNarrow → NeverOpens D.Annotation.seen D.view
        (λ m. laid m head.now (content_seen content (fits_at (all_fits_seen fits.now) at))) laying.old }
    ensures kinds { IfErr result (λ e. (e ≡ errors.TooNarrow) ⊎ (e ≡ errors.Memory)) }
{
    let part = open_table_part(laying, alloc, head, waiting)?;
    match part {
        Some(entered) => Ok(entered),
        None => open_outside(laying, alloc, head, at, content, fits, waiting),
    }
}

// what waits, if it does, waits from here on
pub(crate) fn push_some<D: TextDecorator + Drop>(
    waiting: &mut Vec<Continuation<D>>,
    next: Option<Continuation<D>>,
) -> Result<(), AllocError>
    ensures { OnOk result (waiting.new.items ≡ waiting.old.items ++ maybe next) }
{
    match next {
        Some(next) => {
            waiting.push(next)?;
            Ok(())
        }
        None => Ok(()),
    }
}
