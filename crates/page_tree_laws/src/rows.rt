//! Child elements, and what may stand for the body, computed on worked rows.
ghost use Rattle.std.specs.Prelude.{◌≡◌, [], ◌∷◌, codes, true, false};
ghost use Rattle.tree_forest.specs.Forest.{page_alone};
ghost use Rattle.tree_forest.specs.RowWords.{html, said, two};
ghost use Rattle.html_lexemes.specs.declared.token.TagKind.TheVariants.{EndTag, StartTag};
ghost use Rattle.tree_names.specs.Sets.{html_elements, is_element_of};
ghost use Rattle.page_tree_laws.specs.Skeleton.{bodies, child_elements, is_unframed_name};

fn child_elements_of_rows()
    ensures alone { child_elements 0 page_alone ≡ [] }
    ensures both { child_elements 0 two ≡ 1 ∷ 2 ∷ [] }
    ensures texts_aside { child_elements 0 said ≡ 1 ∷ 2 ∷ [] }
    ensures within { child_elements 2 said ≡ [] }
{}

fn bodies_of_rows()
    ensures body { is_element_of (html_elements (bodies false)) (html (codes "body")) ≡ true }
    ensures no_frameset { is_element_of (html_elements (bodies false)) (html (codes "frameset")) ≡ false }
    ensures frameset { is_element_of (html_elements (bodies true)) (html (codes "frameset")) ≡ true }
    ensures no_frame { is_element_of (html_elements (bodies true)) (html (codes "frame")) ≡ false }
    ensures emitted { is_unframed_name StartTag (codes "frameset") ≡ false }
    ensures emitted_end { is_unframed_name EndTag (codes "frameset") ≡ true }
    ensures emitted_other { is_unframed_name StartTag (codes "frame") ≡ true }
{}
