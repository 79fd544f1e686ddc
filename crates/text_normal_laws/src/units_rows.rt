//! Worked rows, computed from the definitions: the units of short texts, and their lines.

ghost use Rattle.std.specs.Prelude.{◌≡◌, ℕ, [], ◌∷◌, ◌++◌, None, Some, codes};
ghost use Rattle.text_normal.specs.Units.{lettered, piece, units};
ghost use Rattle.text_normal_laws.specs.RowWords.{unit, units_of, lines_of};

/// U+200B parts units without a gap, and white space, a line end too, with one; leading white space stands
/// with the first unit. U+0301 stays with the letter before it, and alone is a unit without columns.
fn units_of_texts()
    ensures break_point { units_of (codes "aa" ++ 0x200B ∷ codes "bb cc")
        ≡ unit None (codes "aa") ∷ unit None (codes "bb") ∷ unit (Some (tt {0})) (codes "cc") ∷ [] }
    ensures leading { units_of (codes " a") ≡ unit (Some (tt {0})) (codes "a") ∷ [] }
    ensures accent { units_of (0x301 ∷ []) ≡ unit None (0x301 ∷ []) ∷ [] }
    ensures line_end { units_of (codes "ab" ++ 0xA ∷ codes "c")
        ≡ unit None (codes "ab") ∷ unit (Some (tt {0})) (codes "c") ∷ [] }
    ensures accented { units_of (0x61 ∷ 0x301 ∷ codes " b")
        ≡ unit None (0x61 ∷ 0x301 ∷ []) ∷ unit (Some (tt {0})) (codes "b") ∷ [] }
{}

/// White space anywhere among the break points before a word makes a gap.
fn break_points_side_by_side()
    ensures space_first { units_of (codes "a " ++ 0x200B ∷ codes "b")
        ≡ unit None (codes "a") ∷ unit (Some (tt {0})) (codes "b") ∷ [] }
    ensures space_first_lines { lines_of 3 (codes "a " ++ 0x200B ∷ codes "b") ≡ codes "a b" ∷ [] }
    ensures space_last { units_of (codes "a" ++ 0x200B ∷ codes " b")
        ≡ unit None (codes "a") ∷ unit (Some (tt {0})) (codes "b") ∷ [] }
    ensures space_last_lines { lines_of 3 (codes "a" ++ 0x200B ∷ codes " b") ≡ codes "a b" ∷ [] }
{}

/// A piece without columns joins the word after it, with the gap before either: so no gap stands between them.
fn piece_without_columns_joins()
    ensures spaces { units_of (codes "a " ++ 0x301 ∷ codes " b")
        ≡ unit None (codes "a") ∷ unit (Some (tt {0})) (0x301 ∷ codes "b") ∷ [] }
    ensures spaces_lines { lines_of 3 (codes "a " ++ 0x301 ∷ codes " b") ≡ (codes "a " ++ 0x301 ∷ codes "b") ∷ [] }
    ensures break_point { units_of (codes "a" ++ 0x200B ∷ 0x301 ∷ codes " b c")
        ≡ unit None (codes "a") ∷ unit (Some (tt {0})) (0x301 ∷ codes "b") ∷ unit (Some (tt {0})) (codes "c") ∷ [] }
    ensures break_point_lines { lines_of 4 (codes "a" ++ 0x200B ∷ 0x301 ∷ codes " b c")
        ≡ (codes "a " ++ 0x301 ∷ codes "b") ∷ codes "c" ∷ [] }
{}

/// The gap between two words has the tag of the first white space between them.
fn first_white_space_tags()
    ensures { units {S = ℕ} (lettered (codes "a ") 1 ++ lettered (codes " b") 2)
        ≡ piece None (lettered (codes "a") 1) ∷ piece (Some 1) (lettered (codes "b") 2) ∷ [] }
{}

/// Words that fit a line to its last column stand on it.
fn words_fill_a_line()
    ensures parted { units_of (codes "ab cd") ≡ unit None (codes "ab") ∷ unit (Some (tt {0})) (codes "cd") ∷ [] }
    ensures lines { lines_of 5 (codes "ab cd") ≡ codes "ab cd" ∷ [] }
{}

/// A control character is left out, and parts nothing.
fn control_character_is_left_out()
    ensures parted { units_of (codes "a" ++ 0x7 ∷ codes "b cd")
        ≡ unit None (codes "ab") ∷ unit (Some (tt {0})) (codes "cd") ∷ [] }
    ensures lines { lines_of 5 (codes "a" ++ 0x7 ∷ codes "b cd") ≡ codes "ab cd" ∷ [] }
{}

/// A word wider than the line begins on a fresh one.
fn wide_word_is_cut()
    ensures { lines_of 8 (codes "Hello, world.  Superlongwordreally")
        ≡ codes "Hello," ∷ codes "world." ∷ codes "Superlon" ∷ codes "gwordrea" ∷ codes "lly" ∷ [] }
{}

/// U+00A0 is no break point.
fn no_break_space_stays()
    ensures { lines_of 3 (codes "a" ++ 0xA0 ∷ codes "b c") ≡ (codes "a" ++ 0xA0 ∷ codes "b") ∷ codes "c" ∷ [] }
{}

/// U+200B leaves nothing where a line goes on.
fn break_point_leaves_nothing()
    ensures { lines_of 4 (codes "aa" ++ 0x200B ∷ codes "bb cc") ≡ codes "aabb" ∷ codes "cc" ∷ [] }
{}

/// A character of two columns does not go on a line with one left.
fn wide_characters_are_cut()
    ensures { lines_of 5 (codes "ab " ++ 0x6F22 ∷ 0x5B57 ∷ 0x6F22 ∷ codes " x")
        ≡ codes "ab" ∷ (0x6F22 ∷ 0x5B57 ∷ []) ∷ (0x6F22 ∷ codes " x") ∷ [] }
{}

/// At one column each character has a line.
fn one_column_takes_one_character()
    ensures { lines_of 1 (codes "ab") ≡ codes "a" ∷ codes "b" ∷ [] }
{}
