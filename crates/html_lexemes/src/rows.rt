//! The definitions, computed on worked rows.
ghost use Rattle.std.specs.Prelude.{◌≡◌, [], ◌∷◌, ◌^◌, ◌-◌, codes};
ghost use Rattle.html_lexemes.specs.LineEnds.{without_mark, lines_ended};
ghost use Rattle.html_lexemes.specs.Queue.{Differs, EndsInside, IsAlike, counted};
ghost use Rattle.html_lexemes.specs.RowWords.{same_letter};

fn line_ends_of_rows()
    ensures pair { lines_ended (97 ∷ 13 ∷ 10 ∷ 98 ∷ []) ≡ 97 ∷ 10 ∷ 98 ∷ [] }
    ensures lone_return { lines_ended (13 ∷ 97 ∷ 13 ∷ []) ≡ 10 ∷ 97 ∷ 10 ∷ [] }
    ensures lone_feed { lines_ended (10 ∷ 10 ∷ []) ≡ 10 ∷ 10 ∷ [] }
    ensures two_pairs { lines_ended (13 ∷ 10 ∷ 13 ∷ 10 ∷ []) ≡ 10 ∷ 10 ∷ [] }
    ensures feed_then_return { lines_ended (10 ∷ 13 ∷ []) ≡ 10 ∷ 10 ∷ [] }
    ensures returns { lines_ended (13 ∷ 13 ∷ 10 ∷ []) ≡ 10 ∷ 10 ∷ [] }
{}

fn marks_of_rows()
    ensures first { without_mark (0xFEFF ∷ 97 ∷ []) ≡ 97 ∷ [] }
    ensures first_alone { without_mark (0xFEFF ∷ 0xFEFF ∷ []) ≡ 0xFEFF ∷ [] }
    ensures later { without_mark (97 ∷ 0xFEFF ∷ []) ≡ 97 ∷ 0xFEFF ∷ [] }
    ensures none { without_mark [] ≡ [] }
{}

fn counts_of_rows()
    ensures two { counted 3 (97 ∷ 98 ∷ []) ≡ 5 }
    ensures full { counted (2 ^ 64 - 2) (97 ∷ 98 ∷ 99 ∷ []) ≡ 2 ^ 64 - 1 }
{}

fn eaten_of_rows()
    ensures ends { EndsInside same_letter (codes "DocT") (codes "doctype") }
    ensures nothing_left { EndsInside same_letter [] (codes "doctype") }
    ensures differs { Differs same_letter (codes "Dx") (codes "doctype") }
    ensures whole { IsAlike same_letter (codes "DocType") (codes "doctype") }
{}
