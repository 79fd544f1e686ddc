//! Laws of lines after a page: each is the contract of a function that does nothing.
ghost use Rattle.std.specs.Prelude.{ℕ, ◌≤◌, All, true, List};
ghost use Rattle.text_lines.specs.Tagged.{Item, line_columns};
ghost use Rattle.text_footnotes.specs.Footnotes.{footnote_lines};

use text_lines::EqualCopy;

/// Where lines are cut at a width of two columns or more, none passes it.
pub fn footnotes_keep_the_width<A: EqualCopy>()
    ensures { (width : ℕ) (items : List (Item A.Seen)) → 2 ≤ width
        → All (λ line. line_columns line ≤ width) (footnote_lines true width items) }
{}
