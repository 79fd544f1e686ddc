//! What is left of the columns of a table, computed on worked rows: cells in their places, and the edges of these.
ghost use Rattle.std.specs.Prelude.{◌≡◌, ◌^◌, ◌-◌, [], ◌∷◌};
ghost use Rattle.table_grid.specs.GridRowWords.{cells_kept, column, columns_kept, empty, letter, spot, wide};

// <tr><td rowspan=2>a<td>b<tr><td>c
#[tactic(auto, unfolding(crate::specs::Grid::rank, crate::specs::Grid::left_before, crate::specs::Columns::greatest_at, crate::specs::Columns::greatest))]
fn beside_a_row_span()
    ensures columns { columns_kept (letter 0 1 2 0 ∷ letter 0 1 1 1 ∷ letter 1 1 1 1 ∷ []) (0 ∷ 1 ∷ 2 ∷ [])
        ≡ column 1 1 ∷ column 1 1 ∷ [] }
    ensures cells { cells_kept (letter 0 1 2 0 ∷ letter 0 1 1 1 ∷ letter 1 1 1 1 ∷ []) (0 ∷ 1 ∷ 2 ∷ [])
        ≡ spot 0 1 2 ∷ spot 1 2 1 ∷ spot 1 2 1 ∷ [] }
{}

// the same after a column of empty cells: <tr><td><td rowspan=2>a<td>b<tr><td><td>c
#[tactic(auto, unfolding(crate::specs::Grid::rank, crate::specs::Grid::left_before, crate::specs::Columns::greatest_at, crate::specs::Columns::greatest))]
fn after_an_empty_column()
    ensures columns { columns_kept (empty 0 1 1 0 ∷ letter 0 1 2 1 ∷ letter 0 1 1 2 ∷ empty 1 1 1 0 ∷ letter 1 1 1 2
        ∷ []) (0 ∷ 1 ∷ 2 ∷ 3 ∷ []) ≡ column 1 1 ∷ column 1 1 ∷ [] }
    ensures cells { cells_kept (empty 0 1 1 0 ∷ letter 0 1 2 1 ∷ letter 0 1 1 2 ∷ empty 1 1 1 0 ∷ letter 1 1 1 2 ∷ [])
        (0 ∷ 1 ∷ 2 ∷ 3 ∷ []) ≡ spot 0 0 1 ∷ spot 0 1 2 ∷ spot 1 2 1 ∷ spot 0 0 1 ∷ spot 1 2 1 ∷ [] }
{}

// <tr><td rowspan=2>a<tr>: a row without cells is counted by no row span
#[tactic(auto, unfolding(crate::specs::Grid::rank, crate::specs::Grid::left_before, crate::specs::Columns::greatest_at, crate::specs::Columns::greatest))]
fn over_a_row_without_cells()
    ensures cells { cells_kept (letter 0 1 2 0 ∷ []) (0 ∷ 1 ∷ []) ≡ spot 0 1 1 ∷ [] }
{}

// <td colspan=1000000000>a, and the greatest spans
#[tactic(auto, unfolding(crate::specs::Grid::rank, crate::specs::Grid::left_before, crate::specs::Columns::greatest_at, crate::specs::Columns::greatest))]
fn of_a_great_span()
    ensures columns { columns_kept (letter 0 1000000000 1 0 ∷ []) (0 ∷ 1000000000 ∷ []) ≡ column 1 1 ∷ [] }
    ensures cells { cells_kept (letter 0 1000000000 999999999 0 ∷ []) (0 ∷ 1000000000 ∷ []) ≡ spot 0 1 1 ∷ [] }
    ensures greatest { columns_kept (letter 0 (2 ^ 64 - 1) 1 0 ∷ letter 0 (2 ^ 64 - 1) 1 (2 ^ 64 - 1) ∷ [])
        (0 ∷ (2 ^ 64 - 1) ∷ (2 ^ 65 - 2) ∷ []) ≡ column 1 1 ∷ column 1 1 ∷ [] }
{}

// ten letters over five empty cells: each column has a fifth, and none is taken out
#[tactic(auto, unfolding(crate::specs::Grid::rank, crate::specs::Grid::left_before, crate::specs::Columns::greatest_at, crate::specs::Columns::greatest))]
fn over_empty_cells()
    ensures columns { columns_kept (wide 0 5 10 3 0 ∷ empty 1 1 1 0 ∷ empty 1 1 1 1 ∷ empty 1 1 1 2 ∷ empty 1 1 1 3
        ∷ empty 1 1 1 4 ∷ []) (0 ∷ 1 ∷ 2 ∷ 3 ∷ 4 ∷ 5 ∷ [])
        ≡ column 2 0 ∷ column 2 0 ∷ column 2 0 ∷ column 2 0 ∷ column 2 0 ∷ [] }
    ensures cells { cells_kept (wide 0 5 10 3 0 ∷ empty 1 1 1 0 ∷ empty 1 1 1 1 ∷ empty 1 1 1 2 ∷ empty 1 1 1 3
        ∷ empty 1 1 1 4 ∷ []) (0 ∷ 1 ∷ 2 ∷ 3 ∷ 4 ∷ 5 ∷ [])
        ≡ spot 0 5 1 ∷ spot 0 1 1 ∷ spot 1 2 1 ∷ spot 2 3 1 ∷ spot 3 4 1 ∷ spot 4 5 1 ∷ [] }
{}
