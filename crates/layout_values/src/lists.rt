//! Lists and their items.
ghost use Rattle.std.specs.Prelude.{◌≡◌, ◌∷◌, [], ◌⊎◌, Err, IfErr, IfOk, IfSome, OnOk};
ghost use Rattle.text_pieces.specs.declared.fault.BlockError.TheVariants as errors;
ghost use Rattle.layout_values.specs.Lay.{item_laid, listed, placed};
ghost use Rattle.layout_state.specs.Seen.{IsWorking};
ghost use Rattle.layout_values.specs.Seen.{NeverOpens, Opens, WorksOutside, maybe};

use crate::waiting::{Continuation, OpenItem};
use layout_state::{Around, ItemMark, LayoutState, spaces};
use std::alloc::Global;
use text_decorators::TextDecorator;
use text_pieces::BlockError;

/// What follows are the items of a list.
pub(crate) fn hold_items<D: TextDecorator + Drop>(
    laying: &mut LayoutState<D>,
    first: ItemMark,
    items: usize,
    least: usize,
) -> Result<Continuation<D>, BlockError>
    requires { IsWorking D.Annotation.seen D.view.held laying.old }
    ensures opened { IfOk result (λ x. Opens D.Annotation.seen D.view (λ m. listed m first items least) (x ∷ [])
        laying.old laying.new) }
    ensures works { OnOk result (IsWorking D.Annotation.seen D.view.held laying.new) }
    ensures ready { IfOk result WorksOutside }
    ensures narrow { result ≡ Err errors.TooNarrow → NeverOpens D.Annotation.seen D.view
        (λ m. listed m first items least) laying.old }
    ensures kinds { IfErr result (λ e. (e ≡ errors.TooNarrow) ⊎ (e ≡ errors.Memory)) }
{
    let columns = laying.columns_of_items(first, first.last(items))?;
    laying.around = Around::Items {
        mark: first,
        columns,
        least,
    };
    Ok(Continuation::ListEnds)
}

fn open_item<D: TextDecorator + Drop>(
    laying: &mut LayoutState<D>,
    alloc: Global,
    mark: ItemMark,
    columns: usize,
    least: usize,
) -> Result<Continuation<D>, BlockError>
    requires { IsWorking D.Annotation.seen D.view.held laying.old }
    ensures opened { IfOk result (λ x. Opens D.Annotation.seen D.view (λ m. item_laid m mark columns least) (x ∷ [])
        laying.old laying.new) }
    ensures works { OnOk result (IsWorking D.Annotation.seen D.view.held laying.new) }
    ensures ready { IfOk result WorksOutside }
    ensures narrow { result ≡ Err errors.TooNarrow → NeverOpens D.Annotation.seen D.view
        (λ m. item_laid m mark columns least) laying.old }
    ensures kinds { IfErr result (λ e. (e ≡ errors.TooNarrow) ⊎ (e ≡ errors.Memory)) }
{
    let first = laying.item_prefix(mark, columns)?;
    let following = spaces(alloc, columns)?;
    let outer = laying.begin_part(columns, least)?;
    let around = Around::Items {
        mark: mark.next(),
        columns,
        least,
    };
    let item = Box::new(
        alloc,
        OpenItem {
            outer,
            first,
            following,
            around,
        },
    )?;
    Ok(Continuation::ItemEnds(item))
}

/// A value begins where it stands: in a list it is an item.
pub(crate) fn open_place<D: TextDecorator + Drop>(
    laying: &mut LayoutState<D>,
    alloc: Global,
) -> Result<Option<Continuation<D>>, BlockError>
    requires { IsWorking D.Annotation.seen D.view.held laying.old }
    ensures opened { IfOk result (λ x. Opens D.Annotation.seen D.view (λ m inside l. placed m l.around inside l)
        (maybe x) laying.old laying.new) }
    ensures works { OnOk result (IsWorking D.Annotation.seen D.view.held laying.new) }
    ensures ready { IfOk result (λ x. IfSome x WorksOutside) }
    ensures narrow { result ≡ Err errors.TooNarrow → NeverOpens D.Annotation.seen D.view
        (λ m inside l. placed m l.around inside l) laying.old }
    ensures kinds { IfErr result (λ e. (e ≡ errors.TooNarrow) ⊎ (e ≡ errors.Memory)) }
{
    match laying.around {
        Around::Flow => Ok(None),
        Around::Items {
            mark,
            columns,
            least,
        } => Ok(Some(open_item(laying, alloc, mark, columns, least)?)),
    }
}
