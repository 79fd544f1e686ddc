//! Parts of a page, each in a renderer of its own.
ghost use Rattle.std.specs.Prelude.{◌≡◌, ◌∷◌, [], ◌⊎◌, Err, IfErr, IfOk, OnOk, chars, string_bytes};
ghost use Rattle.text_pieces.specs.declared.fault.BlockError.TheVariants as errors;
ghost use Rattle.layout_state.specs.Items.{spaces};
ghost use Rattle.text_decorators.specs.Marks.{header, quote};
ghost use Rattle.layout_values.specs.Lay.{after_mark};
ghost use Rattle.layout_state.specs.LayoutState.{after_prefix};
ghost use Rattle.layout_state.specs.Seen.{IsWorking};
ghost use Rattle.layout_values.specs.Seen.{NeverOpens, Opens, WorksOutside};

use crate::waiting::{Continuation, OpenPart};
use layout_state::{LayoutState, spaces};
use std::alloc::Global;
use text_decorators::TextDecorator;
use text_lines::columns_of;
use text_pieces::BlockError;

/// What follows is laid out in a part, whose lines are to stand after prefixes.
pub(crate) fn open_part<D: TextDecorator + Drop>(
    laying: &mut LayoutState<D>,
    alloc: Global,
    columns: usize,
    least: usize,
    first: String,
    following: String,
) -> Result<Continuation<D>, BlockError>
    requires { IsWorking D.Annotation.seen D.view.held laying.old }
    ensures opened { IfOk result (λ x. Opens D.Annotation.seen D.view
        (λ m. after_prefix m columns (chars (string_bytes first)) (chars (string_bytes following)) least) (x ∷ [])
        laying.old laying.new) }
    ensures works { OnOk result (IsWorking D.Annotation.seen D.view.held laying.new) }
    ensures ready { IfOk result WorksOutside }
    ensures narrow { result ≡ Err errors.TooNarrow → NeverOpens D.Annotation.seen D.view
        (λ m. after_prefix m columns (chars (string_bytes first)) (chars (string_bytes following)) least) laying.old }
    ensures kinds { IfErr result (λ e. (e ≡ errors.TooNarrow) ⊎ (e ≡ errors.Memory)) }
{
    let outer = laying.begin_part(columns, least)?;
    let part = Box::new(
        alloc,
        OpenPart {
            outer,
            first,
            following,
        },
    )?;
    Ok(Continuation::PartEnds(part))
}

/// A heading stands after its prefix.
pub(crate) fn hold_heading<D: TextDecorator + Drop>(
    laying: &mut LayoutState<D>,
    alloc: Global,
    level: u8,
    least: usize,
) -> Result<Continuation<D>, BlockError>
    requires { IsWorking D.Annotation.seen D.view.held laying.old }
    ensures opened { IfOk result (λ x. Opens D.Annotation.seen D.view (λ m. after_mark m (header level) least)
        (x ∷ []) laying.old laying.new) }
    ensures works { OnOk result (IsWorking D.Annotation.seen D.view.held laying.new) }
    ensures ready { IfOk result WorksOutside }
    ensures narrow { result ≡ Err errors.TooNarrow → NeverOpens D.Annotation.seen D.view
        (λ m. after_mark m (header level) least) laying.old }
    ensures kinds { IfErr result (λ e. (e ≡ errors.TooNarrow) ⊎ (e ≡ errors.Memory)) }
{
    let first = laying.heading_prefix(level)?;
    let following = laying.heading_prefix(level)?;
    let columns = columns_of(first.as_str());
    open_part(laying, alloc, columns, least, first, following)
}

/// A quotation stands after its prefix.
pub(crate) fn hold_quote<D: TextDecorator + Drop>(
    laying: &mut LayoutState<D>,
    alloc: Global,
    least: usize,
) -> Result<Continuation<D>, BlockError>
    requires { IsWorking D.Annotation.seen D.view.held laying.old }
    ensures opened { IfOk result (λ x. Opens D.Annotation.seen D.view (λ m. after_mark m quote least) (x ∷ [])
        laying.old laying.new) }
    ensures works { OnOk result (IsWorking D.Annotation.seen D.view.held laying.new) }
    ensures ready { IfOk result WorksOutside }
    ensures narrow { result ≡ Err errors.TooNarrow → NeverOpens D.Annotation.seen D.view
        (λ m. after_mark m quote least) laying.old }
    ensures kinds { IfErr result (λ e. (e ≡ errors.TooNarrow) ⊎ (e ≡ errors.Memory)) }
{
    let first = laying.quote_prefix()?;
    let following = laying.quote_prefix()?;
    let columns = columns_of(first.as_str());
    open_part(laying, alloc, columns, least, first, following)
}

/// A description stands after two spaces.
pub(crate) fn hold_details<D: TextDecorator + Drop>(
    laying: &mut LayoutState<D>,
    alloc: Global,
    least: usize,
) -> Result<Continuation<D>, BlockError>
    requires { IsWorking D.Annotation.seen D.view.held laying.old }
    ensures opened { IfOk result (λ x. Opens D.Annotation.seen D.view (λ m. after_prefix m 2 (spaces 2) (spaces 2)
        least) (x ∷ []) laying.old laying.new) }
    ensures works { OnOk result (IsWorking D.Annotation.seen D.view.held laying.new) }
    ensures ready { IfOk result WorksOutside }
    ensures narrow { result ≡ Err errors.TooNarrow → NeverOpens D.Annotation.seen D.view
        (λ m. after_prefix m 2 (spaces 2) (spaces 2) least) laying.old }
    ensures kinds { IfErr result (λ e. (e ≡ errors.TooNarrow) ⊎ (e ≡ errors.Memory)) }
{
    let first = spaces(alloc, 2)?;
    let following = spaces(alloc, 2)?;
    open_part(laying, alloc, 2, least, first, following)
}
