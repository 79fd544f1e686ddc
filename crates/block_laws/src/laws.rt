//! Laws of renderers: each is the contract of a function that does nothing. A decorator says only which values it holds
//! and what is seen of its annotations; how it marks text is any `Marking` over these.
ghost use Rattle.std.specs.Prelude.{◌≡◌, ℕ, ◌+◌, ◌≤◌, All, true, false, List, Some, IfSome, IsSome, IsSomeAnd};
ghost use Rattle.text_lines.specs.Tagged.{Item, line_columns};
ghost use Rattle.text_borders.specs.Lines.{BlockLine, line_shown};
ghost use Rattle.block_trait.specs.declared.options.RenderOptions.{RenderOptions};
ghost use Rattle.block_trait.specs.Renderers.{Marking, Sub, new_sub, lines_of_sub, room_after};
ghost use Rattle.block_trait.specs.Calls.{Call, step};
ghost use Rattle.block_renderer.specs.Footnotes.{add_footnotes};
ghost use Rattle.block_laws.specs.RendererLaws.{AllFit, CallFits, CallHasRoom, HasRoom, IsKeptWithin, StaysWithin};
ghost use Rattle.block_laws.specs.RendererLaws.{after};

use block_layout_laws::{calls_keep_the_width, overflow_never_refuses};
use text_decorators::TextDecorator;
use text_footnotes::footnotes_keep_the_width;

/// No line of a renderer passes its width where no character may overflow: so it is with a new renderer, each call that
/// fits and comes to a renderer keeps it so, at the same width and under the same options, and so do calls in turn; and
/// so do lines after the page, where links are wrapped and the width is two or more.
pub fn renderers_keep_the_width<D: TextDecorator>()
    ensures new { (width : ℕ) (options : RenderOptions) (held : D.Held) (annotations : List D.Annotation.Seen)
        → options.allow_width_overflow ≡ false → IsKeptWithin (new_sub width options held annotations) }
    ensures step { (m : Marking D.Held D.Annotation.Seen) (c : Call (Sub D.Held D.Annotation.Seen))
        (s new : Sub D.Held D.Annotation.Seen) → IsKeptWithin s → CallFits c s → step m c s ≡ Some new
        → StaysWithin s new }
    ensures calls { (m : Marking D.Held D.Annotation.Seen) (calls : List (Call (Sub D.Held D.Annotation.Seen)))
        (s new : Sub D.Held D.Annotation.Seen) → IsKeptWithin s → AllFit m calls s → after m calls s ≡ Some new
        → StaysWithin s new }
    ensures footnotes { (lines : List (List (Item D.Annotation.Seen))) (s new : Sub D.Held D.Annotation.Seen)
        → IsKeptWithin s → s.options.wrap_links ≡ true → 2 ≤ s.width → add_footnotes lines s ≡ Some new
        → StaysWithin s new }
    ensures lines { (s : Sub D.Held D.Annotation.Seen) (lines : List (BlockLine (List D.Annotation.Seen)))
        → IsKeptWithin s → lines_of_sub s ≡ Some lines → All (λ l. line_columns (line_shown l) ≤ s.width) lines }
{
    calls_keep_the_width::<Vec<D::Annotation>>();
    footnotes_keep_the_width::<D::Annotation>();
}

/// Where a character that is wider than the lines may stand alone on one, in each renderer that a call takes too, no
/// call is refused, and each keeps it so, lines after the page too; and there are lines.
pub fn renderers_with_room_never_refuse<D: TextDecorator>()
    ensures new { (width : ℕ) (options : RenderOptions) (held : D.Held) (annotations : List D.Annotation.Seen)
        → options.allow_width_overflow ≡ true → HasRoom (new_sub width options held annotations) }
    ensures step { (m : Marking D.Held D.Annotation.Seen) (c : Call (Sub D.Held D.Annotation.Seen))
        (s : Sub D.Held D.Annotation.Seen) → HasRoom s → CallHasRoom c → IsSomeAnd (step m c s) HasRoom }
    ensures calls { (m : Marking D.Held D.Annotation.Seen) (calls : List (Call (Sub D.Held D.Annotation.Seen)))
        (s : Sub D.Held D.Annotation.Seen) → HasRoom s → All CallHasRoom calls → IsSomeAnd (after m calls s) HasRoom }
    ensures footnotes { (lines : List (List (Item D.Annotation.Seen))) (s : Sub D.Held D.Annotation.Seen) → HasRoom s
        → IsSomeAnd (add_footnotes lines s) HasRoom }
    ensures lines { (s : Sub D.Held D.Annotation.Seen) → HasRoom s → IsSome (lines_of_sub s) }
{
    overflow_never_refuses::<Vec<D::Annotation>>();
}

/// Where no character may overflow, a prefix and the room after it are the width, and the room is at least one column
/// and at least what was asked for. Where it may, there is always room.
pub fn a_prefix_and_its_room_are_the_width<D: TextDecorator>()
    ensures within { (prefix least : ℕ) (s : Sub D.Held D.Annotation.Seen) → s.options.allow_width_overflow ≡ false
        → IfSome (room_after prefix least s) (λ n. (prefix + n ≡ s.width) × ((1 ≤ n) × (least ≤ n))) }
    ensures beyond { (prefix least : ℕ) (s : Sub D.Held D.Annotation.Seen) → s.options.allow_width_overflow ≡ true
        → IsSome (room_after prefix least s) }
{}
