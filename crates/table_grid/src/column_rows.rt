//! What cells ask of columns, computed on worked rows.
ghost use Rattle.std.specs.Prelude.{◌≡◌, [], ◌∷◌};
ghost use Rattle.table_grid.specs.Columns.{greatest_parts_of};
ghost use Rattle.table_grid.specs.ColumnRowWords.{asks};

#[tactic(auto, unfolding(crate::specs::Columns::greatest_at, crate::specs::Columns::greatest))]
fn the_greatest_of_each_column()
    ensures none { greatest_parts_of [] 2 ≡ 0 ∷ 0 ∷ [] }
    ensures alone { greatest_parts_of (asks 0 2 3 ∷ []) 3 ≡ 3 ∷ 3 ∷ 0 ∷ [] }
    ensures over { greatest_parts_of (asks 0 3 2 ∷ asks 1 2 5 ∷ []) 3 ≡ 2 ∷ 5 ∷ 2 ∷ [] }
    ensures under { greatest_parts_of (asks 1 2 1 ∷ asks 0 3 2 ∷ []) 3 ≡ 2 ∷ 2 ∷ 2 ∷ [] }
{}
