//! Worked rows, computed from the definitions.
ghost use Rattle.std.specs.Prelude.{◌≡◌, [], ◌∷◌, ◌++◌, codes};
ghost use Rattle.text_preserved.specs.RowWords.{lines_of, tagged_of, unwrapped, wrapped_at};

/// Where lines do not break at white space: a body is cut by columns, from the line that it begins on.
fn bodies_are_cut()
    ensures wide { lines_of 4 unwrapped (codes "abcdef") ≡ codes "abcd" ∷ codes "ef" ∷ [] }
    ensures trailing { lines_of 5 unwrapped (codes "ab   cdef") ≡ codes "ab   " ∷ codes "cdef" ∷ [] }
    ensures indented { lines_of 4 unwrapped (codes "  abc") ≡ codes "  " ∷ codes "abc" ∷ [] }
    ensures narrow { lines_of 2 unwrapped (codes "     abc") ≡ codes " a" ∷ codes "bc" ∷ [] }
{}

/// Where they do, white space is dropped at a break.
fn words_are_wrapped()
    ensures { lines_of 4 wrapped_at (codes "ab  cd") ≡ codes "ab" ∷ codes "cd" ∷ [] }
{}

/// Tabs go to the next multiple of 8, and white space at the end is dropped.
fn tabs_go_to_stops()
    ensures stop { lines_of 20 unwrapped (codes "a" ++ 0x9 ∷ codes "b") ≡ codes "a       b" ∷ [] }
    ensures last { lines_of 20 unwrapped (codes "a" ++ 0x9 ∷ codes "  ") ≡ codes "a" ∷ [] }
{}

/// From the first character past the width the further tag stands.
fn wrapped_lines_are_tagged()
    ensures { tagged_of 4 unwrapped (codes "abcdef") ≡ (0 ∷ 0 ∷ 0 ∷ 0 ∷ []) ∷ (1 ∷ 1 ∷ []) ∷ [] }
{}
