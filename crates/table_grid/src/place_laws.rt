//! Laws of places: each is the contract of a function that does nothing.
ghost use Rattle.std.specs.Prelude.{◌≡◌, ◌⊎◌, ℕ, ◌+◌, ◌<◌, List, All, length};
ghost use Rattle.std.specs.List.Sorted.{IsNonDecreasingBy};
ghost use Rattle.table_grid.specs.declared.cell.Cell.{Cell};
ghost use Rattle.table_grid.specs.declared.cell.PlacedCell.{PlacedCell};
ghost use Rattle.table_grid.specs.declared.gaps.Gap.{Gap};
ghost use Rattle.table_grid.specs.Gaps.{AreGaps, IsVacant};
ghost use Rattle.table_grid.specs.PlaceLaws.{HasCellUpTo, HasGapUpTo, StandsIn, Takes, placed_at};
ghost use Rattle.table_grid.specs.Places.{ArePlaced};
ghost use Rattle.table_grid.specs.Placing.{gaps_of, places_of};

/// Cells have one list of places, and one list of gaps.
pub fn cells_have_one_place()
    ensures places { (cells : List Cell) (first second : List PlacedCell) → ArePlaced cells first
        → ArePlaced cells second → first ≡ second }
    ensures gaps { (placed : List PlacedCell) (first second : List Gap) → AreGaps placed first
        → AreGaps placed second → first ≡ second }
{}

/// No two cells take a slot of the grid together.
pub fn cells_share_no_slot()
    ensures { (cells : List Cell) (placed : List PlacedCell) → IsNonDecreasingBy (λ c. c.row) cells
        → ArePlaced cells placed → (j k row column : ℕ) → j < k → k < length placed
        → StandsIn row (placed_at placed j) → StandsIn row (placed_at placed k)
        → Takes column (placed_at placed j) → Takes column (placed_at placed k) → ⊥ }
{}

/// A cell begins at the first column, or after one in which a cell stands, in the row in which it begins.
pub fn cells_begin_after_cells()
    ensures { (cells : List Cell) (placed : List PlacedCell) → All (λ c. 0 < c.colspan) cells
        → All (λ c. 0 < c.rowspan) cells → ArePlaced cells placed → (k column : ℕ) → k < length placed
        → column + 1 ≡ (placed_at placed k).left → IsVacant placed (placed_at placed k).cell.row column → ⊥ }
{}

/// In each row that a cell stands in, it begins at the first column, or where another cell of the row or a gap ends: so
/// cells and gaps leave no column of a row out, up to its last cell.
pub fn rows_have_no_hole()
    ensures { (cells : List Cell) (placed : List PlacedCell) → IsNonDecreasingBy (λ c. c.row) cells
        → All (λ c. 0 < c.colspan) cells → All (λ c. 0 < c.rowspan) cells → ArePlaced cells placed
        → (k row column : ℕ) → k < length placed → StandsIn row (placed_at placed k)
        → column + 1 ≡ (placed_at placed k).left
        → HasCellUpTo placed row (column + 1) ⊎ HasGapUpTo placed row (column + 1) }
{}

/// Cells have places, and gaps: those that two functions give.
pub fn cells_have_places()
    ensures places { (cells : List Cell) → ArePlaced cells (places_of cells) }
    ensures gaps { (placed : List PlacedCell) → IsNonDecreasingBy (λ p. p.cell.row) placed
        → AreGaps placed (gaps_of placed) }
{}
