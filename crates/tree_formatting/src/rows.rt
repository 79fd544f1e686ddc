//! The list computed on worked rows.
ghost use Rattle.std.specs.Prelude.{◌≡◌, [], ◌∷◌, None, Some, codes, false, true};
ghost use Rattle.tree_formatting.specs.Alike.{are_alike};
ghost use Rattle.tree_formatting.specs.Entries.{before_marker, formatted, handed_over, last_named, marker, moved_after};
ghost use Rattle.tree_formatting.specs.Entries.{tag_in, up_to_marker, without_entry};
ghost use Rattle.tree_formatting.specs.Pushing.{pushed};
ghost use Rattle.tree_formatting.specs.RowWords.{bold, font, font_changed, font_reordered, strong};

fn markers_of_rows()
    ensures trailing { up_to_marker (strong 3 ∷ marker ∷ strong 2 ∷ marker ∷ strong 1 ∷ []) ≡ strong 3 ∷ [] }
    ensures all { up_to_marker (strong 2 ∷ strong 1 ∷ []) ≡ strong 2 ∷ strong 1 ∷ [] }
    ensures before { before_marker (strong 3 ∷ marker ∷ strong 2 ∷ marker ∷ strong 1 ∷ [])
        ≡ strong 2 ∷ marker ∷ strong 1 ∷ [] }
    ensures none { before_marker (strong 2 ∷ strong 1 ∷ []) ≡ [] }
{}

fn pushes_of_rows()
    ensures two { pushed 3 bold (strong 2 ∷ strong 1 ∷ []) ≡ strong 3 ∷ strong 2 ∷ strong 1 ∷ [] }
    ensures three { pushed 4 bold (strong 3 ∷ strong 2 ∷ strong 1 ∷ []) ≡ strong 4 ∷ strong 3 ∷ strong 2 ∷ [] }
    ensures among_others { pushed 6 bold (formatted 5 font ∷ strong 4 ∷ strong 3 ∷ formatted 2 font ∷ strong 1 ∷ [])
        ≡ strong 6 ∷ formatted 5 font ∷ strong 4 ∷ strong 3 ∷ formatted 2 font ∷ [] }
    ensures before_marker { pushed 4 bold (strong 3 ∷ strong 2 ∷ marker ∷ strong 1 ∷ [])
        ≡ strong 4 ∷ strong 3 ∷ strong 2 ∷ marker ∷ strong 1 ∷ [] }
    ensures reordered { pushed 4 font (formatted 3 font_reordered ∷ formatted 2 font ∷ formatted 1 font ∷ [])
        ≡ formatted 4 font ∷ formatted 3 font_reordered ∷ formatted 2 font ∷ [] }
    ensures changed { pushed 4 font (formatted 3 font_changed ∷ formatted 2 font ∷ formatted 1 font ∷ [])
        ≡ formatted 4 font ∷ formatted 3 font_changed ∷ formatted 2 font ∷ formatted 1 font ∷ [] }
{}

fn alikeness_of_rows()
    ensures reordered { are_alike font font_reordered ≡ true }
    ensures changed { are_alike font font_changed ≡ false }
    ensures name { are_alike font bold ≡ false }
{}

fn finds_of_rows()
    ensures named { last_named (codes "b") (formatted 3 font ∷ strong 2 ∷ strong 1 ∷ []) ≡ Some 2 }
    ensures before_marker { last_named (codes "b") (formatted 2 font ∷ marker ∷ strong 1 ∷ []) ≡ None }
    ensures tag { tag_in 1 (strong 2 ∷ marker ∷ formatted 1 font ∷ []) ≡ Some font }
    ensures no_tag { tag_in 3 (strong 2 ∷ marker ∷ formatted 1 font ∷ []) ≡ None }
{}

fn changes_of_rows()
    ensures handed_over { handed_over 2 9 (strong 3 ∷ strong 2 ∷ strong 1 ∷ [])
        ≡ strong 3 ∷ strong 9 ∷ strong 1 ∷ [] }
    ensures taken_off { without_entry 2 (strong 3 ∷ strong 2 ∷ strong 1 ∷ []) ≡ strong 3 ∷ strong 1 ∷ [] }
    ensures kept { without_entry 4 (strong 2 ∷ marker ∷ strong 1 ∷ []) ≡ strong 2 ∷ marker ∷ strong 1 ∷ [] }
    ensures moved { moved_after 1 9 2 (strong 3 ∷ strong 2 ∷ formatted 1 font ∷ [])
        ≡ strong 3 ∷ formatted 9 font ∷ strong 2 ∷ [] }
    ensures moved_first { moved_after 2 9 4 (strong 3 ∷ formatted 2 font ∷ strong 1 ∷ [])
        ≡ strong 3 ∷ strong 1 ∷ formatted 9 font ∷ [] }
    ensures not_moved { moved_after 4 9 2 (strong 2 ∷ strong 1 ∷ []) ≡ strong 2 ∷ strong 1 ∷ [] }
{}
