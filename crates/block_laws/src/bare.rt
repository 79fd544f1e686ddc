//! Laws of renderers that keep no annotations: each is the contract of a function that does nothing.
ghost use Rattle.std.specs.Prelude.{◌≡◌, ℕ, List, map};
ghost use Rattle.std.specs.Option.{option_map};
ghost use Rattle.text_lines.specs.Tagged.{Item};
ghost use Rattle.text_borders.specs.Retagged.{reline};
ghost use Rattle.block_renderer.specs.Footnotes.{add_footnotes};
ghost use Rattle.block_trait.specs.Renderers.{Marking, Sub, new_part, lines_of_sub};
ghost use Rattle.block_trait.specs.Texts.{text_of_lines};
ghost use Rattle.block_trait.specs.Calls.{Call, call_of, step};
ghost use Rattle.block_trait.specs.Bare.{no_tag, bare_of};

use text_decorators::TextDecorator;

/// A renderer that keeps no annotations has the same text: each call makes the same of it as of one that keeps them,
/// but for these, and is refused where it is refused there, and so are renderers of its parts; its lines have the same
/// characters.
pub fn annotations_change_no_text<D: TextDecorator>()
    ensures part { (sub : D.Held → D.Held) (width : ℕ) (s : Sub D.Held D.Annotation.Seen)
        → new_part sub width (bare_of s) ≡ bare_of (new_part sub width s) }
    ensures step { (m : Marking D.Held D.Annotation.Seen) (c : Call (Sub D.Held D.Annotation.Seen))
        (s : Sub D.Held D.Annotation.Seen)
        → step m (call_of bare_of c) (bare_of s) ≡ option_map bare_of (step m c s) }
    ensures footnotes { (notes : List (List (Item D.Annotation.Seen))) (s : Sub D.Held D.Annotation.Seen)
        → option_map bare_of (add_footnotes notes (bare_of s)) ≡ option_map bare_of (add_footnotes notes s) }
    ensures bare { (s : Sub D.Held D.Annotation.Seen) → bare_of (bare_of s) ≡ bare_of s }
    ensures lines { (s : Sub D.Held D.Annotation.Seen)
        → lines_of_sub (bare_of s) ≡ option_map (map (reline no_tag)) (lines_of_sub s) }
    ensures text { (s : Sub D.Held D.Annotation.Seen)
        → option_map text_of_lines (lines_of_sub (bare_of s)) ≡ option_map text_of_lines (lines_of_sub s) }
{}
