//! Shares of columns, computed on worked rows.
ghost use Rattle.std.specs.Prelude.{◌≡◌, ◌∷◌, []};
ghost use Rattle.table_widths.specs.ShareRowWords.{asks};
ghost use Rattle.table_widths.specs.Shares.{least_width, shares_of, table_asks};

// five columns of two letters with no least, in 6 columns of text: one each, where four separators leave two
fn shares_of_equal_columns()
    ensures shares { shares_of (asks 2 0 ∷ asks 2 0 ∷ asks 2 0 ∷ asks 2 0 ∷ asks 2 0 ∷ []) 6
        ≡ 1 ∷ 1 ∷ 1 ∷ 1 ∷ 1 ∷ [] }
    ensures fits { least_width (asks 2 0 ∷ asks 2 0 ∷ asks 2 0 ∷ asks 2 0 ∷ asks 2 0 ∷ []) ≡ 4 }
{}

// a share is never more than the size, nor less than the least
fn shares_within_size_and_least()
    ensures wide { shares_of (asks 3 3 ∷ asks 1 1 ∷ []) 80 ≡ 3 ∷ 1 ∷ [] }
    ensures narrow { shares_of (asks 90 3 ∷ asks 10 3 ∷ []) 20 ≡ 18 ∷ 3 ∷ [] }
{}

fn what_a_table_asks()
    ensures some { table_asks (asks 3 3 ∷ asks 10 1 ∷ []) ≡ asks 14 5 }
    ensures none { table_asks [] ≡ asks 0 0 }
{}
