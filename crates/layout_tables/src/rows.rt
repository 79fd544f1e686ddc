//! The fragments of a row, and its end.
ghost use Rattle.std.specs.Prelude.{◌≡◌, ◌⊎◌, ℕ, ◌++◌, Err, IfErr, List, OnOk, Option};
ghost use Rattle.std.specs.Option.{is_some, option_to_list};
ghost use Rattle.layout_state.specs.LayoutState.{says};
ghost use Rattle.layout_state.specs.Seen.{Comes, Fails, IsWorking, made_of};
ghost use Rattle.layout_tables.specs.Tables.{row_call, row_ended};
ghost use Rattle.text_pieces.specs.declared.fault.BlockError.TheVariants as errors;

use crate::slots::{push_rest, renderers_of};
use block_renderer::SubRenderer;
use html_lexemes::Text;
use layout_state::{LayoutState, TablePlace};
use std::alloc::{AllocError, Global};
use std::mem;
use text_decorators::TextDecorator;
use text_pieces::BlockError;

/// The name of a fragment goes after others, if there is one. The error is allocation failure.
pub fn push_name(names: &mut Vec<Text>, name: &Option<Text>) -> Result<(), AllocError>
    ensures { OnOk result (names.new.items ≡ names.old.items ++ option_to_list name.now) }
{
    if let Some(name) = name {
        names.push(name.try_clone()?)?;
    }
    Ok(())
}

// the renderers that stand in a row go below one another, or side by side
fn add_row<D: TextDecorator + Drop>(
    laying: &mut LayoutState<D>,
    alloc: Global,
    is_across: bool,
    made: Vec<(SubRenderer<D>, usize)>,
) -> Result<(), BlockError>
    requires { IsWorking D.Annotation.seen D.view.held laying.old }
    ensures done { (widths : Option (List ℕ)) → is_some widths ≡ is_across → OnOk result
        (Comes D.Annotation.seen D.view
        (λ m. says m (row_call widths (made_of D.Annotation.seen D.view.held made.items))) laying.old laying.new) }
    ensures works { OnOk result (IsWorking D.Annotation.seen D.view.held laying.new) }
    ensures narrow { result ≡ Err errors.TooNarrow → (widths : Option (List ℕ)) → is_some widths ≡ is_across
        → Fails D.Annotation.seen D.view
        (λ m. says m (row_call widths (made_of D.Annotation.seen D.view.held made.items))) laying.old }
    ensures kinds { IfErr result (λ e. (e ≡ errors.TooNarrow) ⊎ (e ≡ errors.Memory)) }
{
    if is_across {
        return laying.add_cells(made);
    }
    laying.add_rows_below(renderers_of(alloc, made)?)
}

/// A row ends: what is left of its slots stays empty, and its renderers go below one another, or side by side. The
/// error is `TooNarrow` where they have no room, else `Memory`.
pub fn end_row<D: TextDecorator + Drop>(
    laying: &mut LayoutState<D>,
    alloc: Global,
) -> Result<(), BlockError>
    requires { IsWorking D.Annotation.seen D.view.held laying.old }
    ensures done { OnOk result (Comes D.Annotation.seen D.view (λ m. row_ended m) laying.old laying.new) }
    ensures works { OnOk result (IsWorking D.Annotation.seen D.view.held laying.new) }
    ensures narrow { result ≡ Err errors.TooNarrow → Fails D.Annotation.seen D.view (λ m. row_ended m) laying.old }
    ensures kinds { IfErr result (λ e. (e ≡ errors.TooNarrow) ⊎ (e ≡ errors.Memory)) }
{
    match mem::replace(&mut laying.table, TablePlace::Outside { in_cell: true }) {
        TablePlace::Cells {
            rows,
            slots,
            mut made,
        } => {
            let mut rows = rows;
            push_rest(laying, &rows.widths, &slots, &mut made)?;
            let is_across = rows.widths.is_some();
            rows.fragments = Vec::new(alloc);
            laying.table = TablePlace::Rows(rows);
            add_row(laying, alloc, is_across, made)
        }
        place => {
            laying.table = place;
            Ok(())
        }
    }
}
