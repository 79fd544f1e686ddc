//! The beginning of a cell.
ghost use Rattle.std.specs.Prelude.{◌≡◌, ◌⊎◌, Err, IfErr, IfOk, OnOk, false};
ghost use Rattle.block_renderer.specs.Seen.{has_failed, sub_of};
ghost use Rattle.layout_state.specs.Seen.{Comes, Fails, IsWorking, laying_of};
ghost use Rattle.layout_tables.specs.Tables.{cell_begun, start_all};
ghost use Rattle.text_pieces.specs.declared.fault.BlockError.TheVariants as errors;

use block_renderer::SubRenderer;
use html_lexemes::Text;
use layout_state::{LayoutState, TablePlace};
use text_decorators::TextDecorator;
use text_pieces::BlockError;

// fragments start, one after another
fn start_all<D: TextDecorator + Drop>(
    laying: &mut LayoutState<D>,
    names: &[Text],
) -> Result<(), BlockError>
    requires { IsWorking D.Annotation.seen D.view.held laying.old }
    ensures done { OnOk result (Comes D.Annotation.seen D.view (λ m. start_all m names.now) laying.old laying.new) }
    ensures works { OnOk result (IsWorking D.Annotation.seen D.view.held laying.new) }
    ensures narrow { result ≡ Err errors.TooNarrow → Fails D.Annotation.seen D.view (λ m. start_all m names.now)
        laying.old }
    ensures kinds { IfErr result (λ e. (e ≡ errors.TooNarrow) ⊎ (e ≡ errors.Memory)) }
{
    'names: for name in names {
        laying.start_fragment(name.as_str())?;
    }
    Ok(())
}

/// Text goes to a renderer of a cell from here on, of so many columns, and fragments start there; the renderer outside
/// is given. The error is `TooNarrow` where the cell has no room, else `Memory`.
pub fn begin_cell<D: TextDecorator + Drop>(
    laying: &mut LayoutState<D>,
    width: usize,
    names: &[Text],
) -> Result<SubRenderer<D>, BlockError>
    requires { IsWorking D.Annotation.seen D.view.held laying.old }
    ensures done { OnOk result (Comes D.Annotation.seen D.view (λ m. cell_begun m width names.now) laying.old
        laying.new) }
    ensures outer { IfOk result (λ outer. sub_of D.Annotation.seen D.view.held outer
        ≡ (laying_of D.Annotation.seen D.view.held laying.old).parts.current) }
    ensures outer_works { IfOk result (λ outer. has_failed outer ≡ false) }
    ensures works { OnOk result (IsWorking D.Annotation.seen D.view.held laying.new) }
    ensures narrow { result ≡ Err errors.TooNarrow → Fails D.Annotation.seen D.view (λ m. cell_begun m width names.now)
        laying.old }
    ensures kinds { IfErr result (λ e. (e ≡ errors.TooNarrow) ⊎ (e ≡ errors.Memory)) }
{
    let outer = laying.enter_part(width)?;
    laying.table = TablePlace::Outside { in_cell: true };
    start_all(laying, names)?;
    Ok(outer)
}
