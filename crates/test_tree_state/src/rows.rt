//! The words of tree construction, computed on worked rows: small pages, read in the body.
ghost use Rattle.std.specs.Prelude.{◌≡◌, [], ◌∷◌, codes};
ghost use Rattle.test_tree_state.specs.RowWords.{end, end_foreign, end_p, foreign, format, page, start, words};

// <p>1<b>2<i>3</b>4</i>5</p>
fn misnested_formatting()
    ensures { page (start (codes "p") ∷ words (codes "1") ∷ format (codes "b") ∷ words (codes "2") ∷ format (codes "i")
        ∷ words (codes "3") ∷ end (codes "b") ∷ words (codes "4") ∷ end (codes "i") ∷ words (codes "5") ∷ end_p ∷ [])
        ≡ codes "<body><p>1<b>2<i>3</i></b><i>4</i>5</p></body>" }
{}

// <b>1<p>2</b>3</p>
fn formatting_around_a_block()
    ensures { page (format (codes "b") ∷ words (codes "1") ∷ start (codes "p") ∷ words (codes "2") ∷ end (codes "b")
        ∷ words (codes "3") ∷ end_p ∷ []) ≡ codes "<body><b>1</b><p><b>2</b>3</p></body>" }
{}

// <b>1<i>2<p>3</b>4
fn formatting_around_formatting_and_a_block()
    ensures { page (format (codes "b") ∷ words (codes "1") ∷ format (codes "i") ∷ words (codes "2") ∷ start (codes "p")
        ∷ words (codes "3") ∷ end (codes "b") ∷ words (codes "4") ∷ [])
        ≡ codes "<body><b>1<i>2</i></b><i><p><b>3</b>4</p></i></body>" }
{}

// <p><b><b><b><b>x</p>y
fn three_alike_are_made_anew()
    ensures { page (start (codes "p") ∷ format (codes "b") ∷ format (codes "b") ∷ format (codes "b")
        ∷ format (codes "b") ∷ words (codes "x") ∷ end_p ∷ words (codes "y") ∷ [])
        ≡ codes "<body><p><b><b><b><b>x</b></b></b></b></p><b><b><b>y</b></b></b></body>" }
{}

// <b><em><em><em><em><p></b>x
fn four_nodes_between()
    ensures { page (format (codes "b") ∷ format (codes "em") ∷ format (codes "em") ∷ format (codes "em")
        ∷ format (codes "em") ∷ start (codes "p") ∷ end (codes "b") ∷ words (codes "x") ∷ [])
        ≡ codes "<body><b><em><em><em><em></em></em></em></em></b><em><em><em><p><b></b>x</p></em></em></em></body>" }
{}

// <b><table></b>
fn formatting_after_a_table()
    ensures { page (format (codes "b") ∷ start (codes "table") ∷ end (codes "b") ∷ [])
        ≡ codes "<body><b><table></table></b></body>" }
{}

// <b>1</i>2
fn an_end_tag_that_nothing_opened()
    ensures { page (format (codes "b") ∷ words (codes "1") ∷ end (codes "i") ∷ words (codes "2") ∷ [])
        ≡ codes "<body><b>12</b></body>" }
{}

// <svg><g>1</svg>2, <svg><foreignObject></foreignobject>1, and <b><svg></b>1 but for the rules of the mode
fn end_tags_in_foreign_content()
    ensures nearest { page (foreign (codes "svg") ∷ foreign (codes "g") ∷ words (codes "1") ∷ end_foreign (codes "svg")
        ∷ words (codes "2") ∷ []) ≡ codes "<body><svg><g>1</g></svg>2</body>" }
    ensures lower_case { page (foreign (codes "svg") ∷ foreign (codes "foreignObject")
        ∷ end_foreign (codes "foreignobject") ∷ words (codes "1") ∷ [])
        ≡ codes "<body><svg><foreignObject></foreignObject>1</svg></body>" }
    ensures of_html { page (format (codes "b") ∷ foreign (codes "svg") ∷ end_foreign (codes "b") ∷ words (codes "1")
        ∷ []) ≡ codes "<body><b><svg>1</svg></b></body>" }
{}
