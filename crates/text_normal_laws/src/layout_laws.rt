ghost use Rattle.std.specs.Prelude.{◌≡◌, ◌<◌, ◌≤◌, ◌++◌, ◌∷◌, ◌⊎◌, All, Bool, IsTrue, List, false, flat_map, length};
ghost use Rattle.std.specs.Prelude.{true, ℕ};
ghost use Rattle.text_lines.specs.Columns.{width_of};
ghost use Rattle.text_lines.specs.Tagged.{Item, line_columns};
ghost use Rattle.text_normal.specs.Units.{Letter, Piece, has_letters};
ghost use Rattle.text_normal.specs.Layout.{AreLinesOf, HasNoLayout, IsFullest, IsLayout, Mark, marks, unit_marks};
ghost use Rattle.text_normal.specs.Greedy.{add_units, all_lines};

use text_lines::EqualCopy;

/// Filling unit by unit gives the fullest layout.
pub(crate) fn filled_is_fullest<T: EqualCopy>()
    ensures { (w : ℕ) (o : Bool) (ps : List (Piece T.Seen)) →
        (o ≡ true) ⊎ All (λ p. All (λ l. width_of l.code ≤ w) p.letters) ps →
        All (λ p. IsTrue (has_letters p)) ps →
        IsFullest w o (flat_map (unit_marks w) ps) (all_lines (add_units w ps)) }
{}

/// A letter wider than the lines has no layout, whatever stands around it.
pub(crate) fn no_layout_of_wider<T: EqualCopy>()
    ensures { (w : ℕ) (before after : List (Mark T.Seen)) (m : Mark T.Seen) →
        w < width_of m.letter.code →
        HasNoLayout w false (before ++ m ∷ after) }
{}

/// The lines of a stretch are no more than those of any legal layout of it.
pub fn fewest_lines<T: EqualCopy>()
    ensures { (w : ℕ) (o : Bool) (read : List (Letter T.Seen)) (lines : List (List (Item T.Seen)))
        (layout : List (List (Mark T.Seen))) →
        AreLinesOf w o read lines →
        IsLayout w o (marks w read) layout →
        length lines ≤ length layout }
{}

/// A stretch has one list of lines at most.
pub fn one_fullest_layout<T: EqualCopy>()
    ensures { (w : ℕ) (o : Bool) (read : List (Letter T.Seen)) (lines others : List (List (Item T.Seen))) →
        AreLinesOf w o read lines →
        AreLinesOf w o read others →
        lines ≡ others }
{}

/// Where no character may overflow, each line has at most the width's columns.
pub fn lines_keep_the_width<T: EqualCopy>()
    ensures { (w : ℕ) (read : List (Letter T.Seen)) (lines : List (List (Item T.Seen))) →
        AreLinesOf w false read lines →
        All (λ line. line_columns line ≤ w) lines }
{}
