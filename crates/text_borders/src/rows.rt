//! Worked rows, computed from the definitions.
ghost use Rattle.std.specs.Prelude.{◌≡◌, ◌∷◌, [], true, false, None, codes};
ghost use Rattle.text_lines.specs.Tagged.{characters, tagged};
ghost use Rattle.text_borders.specs.Borders.{horizontal, joined_above, joined_below, lines_above, merged_above};
ghost use Rattle.text_borders.specs.Borders.{merged_below, plain, punched, shown};
ghost use Rattle.text_borders.specs.Across.{empty_cell, across};
ghost use Rattle.text_borders.specs.RowWords.{row_shown, first_row, next_row, cell, tall_cell, blank_cell, table_cell};

use text_lines::EqualCopy;

/// A border of a table of three columns of one column each, and the one between two of its rows.
fn joins_are_shown<T: EqualCopy>()
    ensures top { (tag : T.Seen) → characters (shown (joined_below 3 (joined_below 1 (plain horizontal 5 tag))))
        ≡ codes "─┬─┬─" }
    ensures between { (tag : T.Seen) → characters (shown (joined_above 1 (joined_below 1 (plain horizontal 3 tag))))
        ≡ codes "─┼─" }
{}

/// A border is stretched to a column that is joined, and joined where borders that it takes in ask for it.
fn borders_are_taken_in<T: EqualCopy>()
    ensures below { (tag : T.Seen) →
        characters (shown (merged_below (joined_above 1 (plain horizontal 3 tag)).segments 1
        (plain horizontal 2 tag))) ≡ codes "──┬" }
    ensures above { (tag : T.Seen) →
        characters (shown (merged_above (joined_below 1 (plain horizontal 3 tag)).segments 1
        (joined_below 2 (plain horizontal 5 tag)))) ≡ codes "──┼──" }
{}

/// A cell that goes on over a row makes a hole in the border between the rows.
fn holes_chop_their_neighbours<T: EqualCopy>()
    ensures first { (tag : T.Seen) → characters (shown (punched 0 (tagged (codes " ") tag)
        (joined_above 1 (joined_below 1 (plain horizontal 3 tag))))) ≡ codes " ├─" }
    ensures last { (tag : T.Seen) → characters (shown (punched 2 (tagged (codes "ab") tag)
        (joined_below 1 (plain horizontal 3 tag)))) ≡ codes "─┐ab" }
    ensures between { (tag : T.Seen) → characters (shown (punched 2 (tagged (codes "a") tag) (joined_above 1
        (joined_above 3 (plain horizontal 5 tag))))) ≡ codes "─┘a└─" }
    ensures pushed { (tag : T.Seen) → characters (shown (punched 1 (tagged (codes "d") tag)
        (punched 0 (tagged (codes "abc") tag) (plain horizontal 5 tag)))) ≡ codes "abcd─" }
{}

/// Vertical lines come down to `┴ ┼ └ ┘` alone.
fn lines_come_down<T: EqualCopy>()
    ensures { (tag : T.Seen) → characters (lines_above tag (joined_above 1 (joined_below 3 (plain horizontal 5 tag))))
        ≡ codes " │   " }
{}

/// Rows of tables: cells beside one another, a cell that takes two rows, one with a table of its own, and cells where
/// no borders are drawn.
fn cells_stand_beside_one_another<T: EqualCopy>()
    ensures cells { (tag : T.Seen) → row_shown (first_row tag 5 (cell tag 1 1 (codes "1") ∷ cell tag 1 1 (codes "2")
        ∷ cell tag 1 1 (codes "3") ∷ [])) ≡ codes "─┬─┬─" ∷ codes "1│2│3" ∷ codes "─┴─┴─" ∷ [] }
    ensures widened { (tag : T.Seen) → row_shown (first_row tag 2 (cell tag 2 1 (codes "a") ∷ cell tag 3 1 (codes "b")
        ∷ [])) ≡ codes "──┬───" ∷ codes "a │b  " ∷ codes "──┴───" ∷ [] }
    ensures first { (tag : T.Seen) → row_shown (first_row tag 3 (cell tag 1 2 (codes "a") ∷ cell tag 1 1 (codes "b")
        ∷ [])) ≡ codes "─┬─" ∷ codes "a│b" ∷ codes " └─" ∷ [] }
    ensures second { (tag : T.Seen) → row_shown (next_row tag (first_row tag 3 (cell tag 1 2 (codes "a")
        ∷ cell tag 1 1 (codes "b") ∷ [])) (empty_cell 1 ∷ cell tag 1 1 (codes "c") ∷ []))
        ≡ codes " ├─" ∷ codes " │c" ∷ codes "─┴─" ∷ [] }
    ensures tables { (tag : T.Seen) → row_shown (first_row tag 5 (table_cell tag (codes "x│y")
        ∷ cell tag 1 1 (codes "z") ∷ [])) ≡ codes "─┬─┬─" ∷ codes "x│y│z" ∷ codes "─┴─┴─" ∷ [] }
    ensures plain { (tag : T.Seen) → row_shown (across false true tag None (cell tag 1 1 (codes "a")
        ∷ cell tag 1 1 (codes "b") ∷ []) []) ≡ codes "a b" ∷ codes "─┴─" ∷ [] }
{}

/// A cell that takes two rows shares its lines between them, and its next line stands in the border between. A cell is
/// filled with spaces, and nothing goes on of cells that end with their row.
fn cells_go_on<T: EqualCopy>()
    ensures first { (tag : T.Seen) → row_shown (first_row tag 5 (tall_cell tag 3 2 (codes "x" ∷ codes "y" ∷ codes "z"
        ∷ codes "c.." ∷ []) ∷ cell tag 1 1 (codes "b") ∷ []))
        ≡ codes "───┬─" ∷ codes "x  │b" ∷ codes "y  │ " ∷ codes "z  └─" ∷ [] }
    ensures second { (tag : T.Seen) → row_shown (next_row tag (first_row tag 5 (tall_cell tag 3 2 (codes "x"
        ∷ codes "y" ∷ codes "z" ∷ codes "c.." ∷ []) ∷ cell tag 1 1 (codes "b") ∷ [])) (empty_cell 3
        ∷ cell tag 1 1 (codes "d") ∷ [])) ≡ codes "z  ├─" ∷ codes "c..│d" ∷ codes "───┴─" ∷ [] }
    ensures blank { (tag : T.Seen) → row_shown (first_row tag 3 (blank_cell 1 2 ∷ cell tag 1 1 (codes "a") ∷ []))
        ≡ codes "─┬─" ∷ codes " │a" ∷ codes " │ " ∷ codes "─┴─" ∷ [] }
    ensures nothing { (tag : T.Seen) → (first_row tag 3 (tall_cell tag 1 1 (codes "a" ∷ codes "b" ∷ [])
        ∷ cell tag 1 1 (codes "c") ∷ [])).hanging ≡ [] }
{}
