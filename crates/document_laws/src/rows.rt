//! Worked rows: four bold elements in one another.
ghost use Rattle.std.specs.Prelude.{◌≡◌, [], ◌∷◌, fold};
ghost use Rattle.document_laws.specs.Contents.{tokens};
ghost use Rattle.document_laws.specs.Planted.{planted};
ghost use Rattle.document_laws.specs.Rows.{a_fourth, bold_entry, four_bold, in_paragraph, opened_thrice};
ghost use Rattle.document_laws.specs.Rows.{with_paragraph};
ghost use Rattle.rules_table.specs.Settling.{step};
ghost use Rattle.rules_table.specs.State.{State};

/// The fourth takes the entry of the first off the list, and its end tag doesn't put it back.
fn a_fourth_bold_shortens_the_list()
    ensures { (s : State) → (fold step (in_paragraph s) (opened_thrice a_fourth)).tree.formatting
        ≡ bold_entry 4 ∷ bold_entry 3 ∷ [] }
{}

/// The tree is right all the same.
fn four_bold_rebuild()
    ensures { (s : State) → (fold step (in_paragraph s) (tokens four_bold)).tree.forest
        ≡ planted 1 four_bold with_paragraph }
{}
