//! Places of cells, and a gap, on worked rows.
ghost use Rattle.std.specs.Prelude.{[], ◌∷◌};
ghost use Rattle.table_grid.specs.Gaps.{IsGap};
ghost use Rattle.table_grid.specs.Places.{ArePlaced};
ghost use Rattle.table_grid.specs.PlaceRowWords.{at, cell};

// <tr><td rowspan=2><td><tr><td>: beside a row span
fn beside_a_row_span()
    ensures { ArePlaced (cell 0 1 2 ∷ cell 0 1 1 ∷ cell 1 1 1 ∷ []) (at 0 0 1 2 ∷ at 1 0 1 1 ∷ at 1 1 1 1 ∷ []) }
{}

// <tr><td><td rowspan=2><td><tr><td><td>: on both sides of one
fn on_both_sides_of_a_row_span()
    ensures { ArePlaced (cell 0 1 1 ∷ cell 0 1 2 ∷ cell 0 1 1 ∷ cell 1 1 1 ∷ cell 1 1 1 ∷ [])
        (at 0 0 1 1 ∷ at 1 0 1 2 ∷ at 2 0 1 1 ∷ at 0 1 1 1 ∷ at 2 1 1 1 ∷ []) }
{}

// <tr><td><td rowspan=2><tr><td colspan=2>: a column span does not fit before the row span, and leaves a gap
fn a_column_span_leaves_a_gap()
    ensures places { ArePlaced (cell 0 1 1 ∷ cell 0 1 2 ∷ cell 1 2 1 ∷ [])
        (at 0 0 1 1 ∷ at 1 0 1 2 ∷ at 2 1 2 1 ∷ []) }
    ensures gap { IsGap (at 0 0 1 1 ∷ at 1 0 1 2 ∷ at 2 1 2 1 ∷ []) 1 0 1 }
{}

// <tr><td rowspan=3><tr><tr><td>: over a row without cells
fn over_a_row_without_cells()
    ensures { ArePlaced (cell 0 1 3 ∷ cell 2 1 1 ∷ []) (at 0 0 1 3 ∷ at 1 2 1 1 ∷ []) }
{}

// <tr><td colspan=1000000000 rowspan=999999999>
fn of_a_great_span()
    ensures { ArePlaced (cell 0 1000000000 999999999 ∷ []) (at 0 0 1000000000 999999999 ∷ []) }
{}
