//! What the definitions of units say together, each law a function that does nothing.

ghost use Rattle.std.specs.Prelude.{◌≡◌, ◌≢◌, ◌<◌, ◌≤◌, ◌&&◌, [], ◌∷◌, ◌++◌, All, Bool, List, Some, false, filter};
ghost use Rattle.std.specs.Prelude.{flat_map, is_some, map, not, ℕ};
ghost use Rattle.text_lines.specs.Columns.{columns_of, width_of};
ghost use Rattle.text_normal.specs.Units.{Letter, units, is_break_point};
ghost use Rattle.text_normal.specs.Layout.{Mark, marks, marks_items, IsFullest, AreLinesOf, HasNoLayout, NeverFits};
ghost use Rattle.text_normal.specs.Greedy.{all_lines, add_units};
ghost use Rattle.text_normal.specs.Filling.{read_letters, nothing_read, lines_read};

/// Reading letter by letter lays the units, one after another.
fn read_letters_are_units()
    ensures units { (w : ℕ) (read : List (Letter ℕ)) → lines_read w (read_letters w nothing_read read)
        ≡ all_lines (add_units w (units read)) }
{}

/// The letters of the units are the characters of the stretch that are no break points and have a width; so
/// they fit a width where those do. No unit is empty.
fn units_keep_the_letters()
    ensures same { (read : List (Letter ℕ)) → flat_map (λ p. p.letters) (units read)
        ≡ filter (λ l. not (is_break_point l.code) && is_some (columns_of l.code)) read }
    ensures fit { (w : ℕ) (read : List (Letter ℕ)) → All (λ l. is_break_point l.code ≡ false → width_of l.code ≤ w) read
        → All (λ p. All (λ l. width_of l.code ≤ w) p.letters) (units read) }
    ensures some { (read : List (Letter ℕ)) → All (λ p. p.letters ≢ []) (units read) }
{}

/// A letter that is no break point and has a width is one of the marks, whatever stands around it.
fn letters_are_marked()
    ensures marked { (w : ℕ) (read before after front back : List (Letter ℕ)) (l : Letter ℕ) (n : ℕ)
        → read ≡ front ++ l ∷ back
        → is_break_point l.code ≡ false → columns_of l.code ≡ Some n
        → (some : List (Mark ℕ)) × (m : Mark ℕ) × (more : List (Mark ℕ))
        × (marks w (before ++ (read ++ after)) ≡ some ++ m ∷ more) × (m.letter ≡ l) }
    ensures never { (w : ℕ) → ((before after : List (Mark ℕ)) (m : Mark ℕ) → w < width_of m.letter.code
        → HasNoLayout w false (before ++ m ∷ after))
        → (read front back : List (Letter ℕ)) (l : Letter ℕ) → read ≡ front ++ l ∷ back → is_break_point l.code ≡ false
        → w < width_of l.code → NeverFits w false read }
    ensures lines { (w : ℕ) (overflow : Bool) (read : List (Letter ℕ))
        → IsFullest w overflow (marks w read) (all_lines (add_units w (units read)))
        → AreLinesOf w overflow read (map marks_items (lines_read w (read_letters w nothing_read read))) }
{}
