//! Worked rows of markers in normal text, computed from the definitions.
ghost use Rattle.std.specs.Prelude.{◌≡◌, [], ◌∷◌, codes};
ghost use Rattle.text_normal_laws.specs.RowWords.{marked_lines, marked_waiting};

/// A marker stays at its place in a word that is cut, ends the earlier piece where it stands at a cut, and else waits
/// for the next word, or for what comes after the text.
fn markers_ride_on_words()
    ensures inside { marked_lines 4 (codes "ab") (codes "cdef") ≡ codes "ab#ncd" ∷ codes "ef" ∷ [] }
    ensures at_cut { marked_lines 4 (codes "abcd") (codes "ef") ≡ codes "abcd#n" ∷ codes "ef" ∷ [] }
    ensures between { marked_lines 9 (codes "ab ") (codes " cd") ≡ codes "ab #ncd" ∷ [] }
    ensures next_line { marked_lines 2 (codes "ab ") (codes "cd") ≡ codes "ab" ∷ codes "#ncd" ∷ [] }
    ensures bare { marked_lines 9 (codes "ab ") (codes " ") ≡ codes "ab" ∷ [] }
    ensures waits { marked_waiting 9 (codes "ab ") (codes " ") ≡ codes "n" ∷ [] }
{}

/// After a character that is wider than the width a marker waits for the next line.
fn markers_wait_after_wide_characters()
    ensures { marked_lines 1 (0x6F22 ∷ []) (codes "b") ≡ (0x6F22 ∷ []) ∷ codes "#nb" ∷ [] }
{}
