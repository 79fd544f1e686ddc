//! Values that rules of style look after.
ghost use Rattle.std.specs.Prelude.{◌≡◌, ◌⊎◌, Err, IfErr, IfOk, IfSome, OnOk};
ghost use Rattle.text_pieces.specs.declared.fault.BlockError.TheVariants as errors;
ghost use Rattle.layout_state.specs.Seen.{IsWorking};
ghost use Rattle.layout_values.specs.Lay.{styled};
ghost use Rattle.layout_values.specs.Seen.{NeverOpens, Opens, WorksOutside, maybe};

use crate::waiting::Continuation;
use layout_state::LayoutState;
use render_values::RenderStyle;
use text_decorators::TextDecorator;
use text_pieces::BlockError;

// a value that a rule of style looks after, until it ends
pub(crate) fn open_look<D: TextDecorator + Drop>(
    laying: &mut LayoutState<D>,
    style: RenderStyle,
) -> Result<Option<Continuation<D>>, BlockError>
    requires { IsWorking D.Annotation.seen D.view.held laying.old }
    ensures opened { IfOk result (λ x. Opens D.Annotation.seen D.view (λ m. styled m style) (maybe x) laying.old
        laying.new) }
    ensures works { OnOk result (IsWorking D.Annotation.seen D.view.held laying.new) }
    ensures ready { IfOk result (λ x. IfSome x WorksOutside) }
    ensures narrow { result ≡ Err errors.TooNarrow → NeverOpens D.Annotation.seen D.view (λ m. styled m style)
        laying.old }
    ensures kinds { IfErr result (λ e. (e ≡ errors.TooNarrow) ⊎ (e ≡ errors.Memory)) }
{
    if style == RenderStyle::plain() {
        return Ok(None);
    }
    laying.begin_look(style)?;
    Ok(Some(Continuation::LookEnds(style)))
}
