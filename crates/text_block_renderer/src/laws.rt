//! Laws of renderers of a page: each is the contract of a function that does nothing.
ghost use Rattle.std.specs.Prelude.{◌≡◌, ℕ, List, Some, IsSomeAnd};
ghost use Rattle.block_trait.specs.Renderers.{Marking, Sub};
ghost use Rattle.block_laws.specs.RendererLaws.{IsKeptWithin, HasRoom};
ghost use Rattle.text_block_renderer.specs.Parts.{Parts, begin_part_link, finish_part_link, whole_page, with_current};
ghost use Rattle.text_block_renderer.specs.Parts.{with_part};
ghost use Rattle.text_block_renderer.specs.PartLaws.{AreKeptWithin, PartsStayWithin, HaveRoom};

use block_laws::{renderers_keep_the_width, renderers_with_room_never_refuse};
use text_decorators::TextDecorator;

/// No line of a page's renderers passes the width of its renderer, where no character may overflow: so it is with a new
/// page, a part that begins, one that ends, another current renderer, and links with their numbers.
pub fn parts_keep_the_width<D: TextDecorator>()
    ensures whole { (s : Sub D.Held D.Annotation.Seen) → IsKeptWithin s → AreKeptWithin (whole_page s) }
    ensures push { (s : Sub D.Held D.Annotation.Seen) (p : Parts D.Held D.Annotation.Seen) → IsKeptWithin s
        → AreKeptWithin p → AreKeptWithin (with_part s p) }
    ensures pop { (s : Sub D.Held D.Annotation.Seen) (p : Parts D.Held D.Annotation.Seen)
        → AreKeptWithin (with_part s p) → IsKeptWithin s × AreKeptWithin p }
    ensures exchange { (s : Sub D.Held D.Annotation.Seen) (p : Parts D.Held D.Annotation.Seen) → IsKeptWithin s
        → AreKeptWithin p → AreKeptWithin (with_current p s) }
    ensures start_link { (m : Marking D.Held D.Annotation.Seen) (target : List ℕ)
        (p new : Parts D.Held D.Annotation.Seen) → AreKeptWithin p → begin_part_link m target p ≡ Some new
        → PartsStayWithin p new }
    ensures end_link { (m : Marking D.Held D.Annotation.Seen) (p new : Parts D.Held D.Annotation.Seen)
        → AreKeptWithin p → finish_part_link m p ≡ Some new → PartsStayWithin p new }
{
    renderers_keep_the_width::<D>();
}

/// Where a character that is wider than the lines may stand alone on one, in each of a page's renderers, no link is
/// refused, and it stays so.
pub fn parts_with_room_never_refuse<D: TextDecorator>()
    ensures whole { (s : Sub D.Held D.Annotation.Seen) → HasRoom s → HaveRoom (whole_page s) }
    ensures push { (s : Sub D.Held D.Annotation.Seen) (p : Parts D.Held D.Annotation.Seen) → HasRoom s → HaveRoom p
        → HaveRoom (with_part s p) }
    ensures pop { (s : Sub D.Held D.Annotation.Seen) (p : Parts D.Held D.Annotation.Seen) → HaveRoom (with_part s p)
        → HasRoom s × HaveRoom p }
    ensures exchange { (s : Sub D.Held D.Annotation.Seen) (p : Parts D.Held D.Annotation.Seen) → HasRoom s
        → HaveRoom p → HaveRoom (with_current p s) }
    ensures start_link { (m : Marking D.Held D.Annotation.Seen) (target : List ℕ) (p : Parts D.Held D.Annotation.Seen)
        → HaveRoom p → IsSomeAnd (begin_part_link m target p) HaveRoom }
    ensures end_link { (m : Marking D.Held D.Annotation.Seen) (p : Parts D.Held D.Annotation.Seen) → HaveRoom p
        → IsSomeAnd (finish_part_link m p) HaveRoom }
{
    renderers_with_room_never_refuse::<D>();
}
