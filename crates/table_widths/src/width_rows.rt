//! Column widths, computed on worked rows.
ghost use Rattle.std.specs.Prelude.{◌≡◌, [], ◌∷◌};
ghost use Rattle.table_widths.specs.WidthRowWords.{lowered_to};
ghost use Rattle.table_widths.specs.Widths.{columns_of, filled, room_of};

// leasts 3 and 3, shares 10 and 5, in 12 columns of text: a level of 3 fills the room
#[tactic(auto, unfolding(crate::specs::Widths::columns_of, crate::specs::Widths::filled, crate::specs::Widths::width_at, crate::specs::Widths::wider, crate::specs::Widths::equal))]
fn the_one_that_exceeds_more_is_lowered()
    ensures room { room_of (columns_of (3 ∷ 3 ∷ []) (10 ∷ 5 ∷ [])) 12 ≡ 5 }
    ensures level { filled 3 (columns_of (3 ∷ 3 ∷ []) (10 ∷ 5 ∷ [])) ≡ 5 }
    ensures below { filled 2 (columns_of (3 ∷ 3 ∷ []) (10 ∷ 5 ∷ [])) ≡ 4 }
    ensures widths { lowered_to 3 0 (columns_of (3 ∷ 3 ∷ []) (10 ∷ 5 ∷ [])) ≡ 6 ∷ 5 ∷ [] }
{}

// leasts 1, shares 5, 4 and 5, in 10 columns of text: one more is taken, from the leftmost
#[tactic(auto, unfolding(crate::specs::Widths::columns_of, crate::specs::Widths::filled, crate::specs::Widths::width_at, crate::specs::Widths::wider, crate::specs::Widths::equal))]
fn of_equal_ones_the_leftmost_is_lowered()
    ensures room { room_of (columns_of (1 ∷ 1 ∷ 1 ∷ []) (5 ∷ 4 ∷ 5 ∷ [])) 10 ≡ 5 }
    ensures level { filled 2 (columns_of (1 ∷ 1 ∷ 1 ∷ []) (5 ∷ 4 ∷ 5 ∷ [])) ≡ 6 }
    ensures below { filled 1 (columns_of (1 ∷ 1 ∷ 1 ∷ []) (5 ∷ 4 ∷ 5 ∷ [])) ≡ 3 }
    ensures widths { lowered_to 2 1 (columns_of (1 ∷ 1 ∷ 1 ∷ []) (5 ∷ 4 ∷ 5 ∷ [])) ≡ 2 ∷ 3 ∷ 3 ∷ [] }
{}

// leasts 1 and 3, shares 3 and 5, in 8 columns of text: one more is taken, from the wider one
#[tactic(auto, unfolding(crate::specs::Widths::columns_of, crate::specs::Widths::filled, crate::specs::Widths::width_at, crate::specs::Widths::wider, crate::specs::Widths::equal))]
fn of_columns_at_the_level_the_wider_is_lowered()
    ensures room { room_of (columns_of (1 ∷ 3 ∷ []) (3 ∷ 5 ∷ [])) 8 ≡ 3 }
    ensures level { filled 2 (columns_of (1 ∷ 3 ∷ []) (3 ∷ 5 ∷ [])) ≡ 4 }
    ensures below { filled 1 (columns_of (1 ∷ 3 ∷ []) (3 ∷ 5 ∷ [])) ≡ 2 }
    ensures widths { lowered_to 2 1 (columns_of (1 ∷ 3 ∷ []) (3 ∷ 5 ∷ [])) ≡ 3 ∷ 4 ∷ [] }
{}

// five leasts of 0 and shares of 1, in 6 columns of text: the first three get none
#[tactic(auto, unfolding(crate::specs::Widths::columns_of, crate::specs::Widths::filled, crate::specs::Widths::width_at, crate::specs::Widths::wider, crate::specs::Widths::equal))]
fn some_columns_have_no_width()
    ensures room { room_of (columns_of (0 ∷ 0 ∷ 0 ∷ 0 ∷ 0 ∷ []) (1 ∷ 1 ∷ 1 ∷ 1 ∷ 1 ∷ [])) 6 ≡ 2 }
    ensures level { filled 1 (columns_of (0 ∷ 0 ∷ 0 ∷ 0 ∷ 0 ∷ []) (1 ∷ 1 ∷ 1 ∷ 1 ∷ 1 ∷ [])) ≡ 5 }
    ensures below { filled 0 (columns_of (0 ∷ 0 ∷ 0 ∷ 0 ∷ 0 ∷ []) (1 ∷ 1 ∷ 1 ∷ 1 ∷ 1 ∷ [])) ≡ 0 }
    ensures widths { lowered_to 1 3 (columns_of (0 ∷ 0 ∷ 0 ∷ 0 ∷ 0 ∷ []) (1 ∷ 1 ∷ 1 ∷ 1 ∷ 1 ∷ []))
        ≡ 0 ∷ 0 ∷ 0 ∷ 1 ∷ 1 ∷ [] }
{}
