//! The sets of names, computed: how many they hold, two members, and two strangers that stand near them.
ghost use Rattle.std.specs.Prelude.{◌≡◌, ◌+◌, true, false, [], ◌∷◌, codes, length, slice_index_or};
ghost use Rattle.tree_names.specs.Counts.{count_of, counted_names, counts_of, has_counts, has_one};
ghost use Rattle.tree_names.specs.Wanted.{one};
ghost use Rattle.tree_names.specs.ElementSets as elements;
ghost use Rattle.tree_names.specs.RowWords.{IsSetOf, html, math_ml, svg};
ghost use Rattle.tree_names.specs.Sets.{is_element_of, is_html};
ghost use Rattle.tree_names.specs.TagSets as tags;

fn tags_outside_tables_of_rows()
    ensures formatting { IsSetOf tags.formatting 14 (codes "a") (codes "u") (codes "span") (codes "p") }
    ensures preformatted { IsSetOf tags.preformatted 2
        (codes "pre") (codes "listing") (codes "textarea") (codes "plaintext") }
    ensures definitions { IsSetOf tags.definitions 2 (codes "dd") (codes "dt") (codes "dl") (codes "li") }
    ensures marked_elements { IsSetOf tags.marked_elements 3
        (codes "applet") (codes "object") (codes "template") (codes "button") }
    ensures void_sources { IsSetOf tags.void_sources 3 (codes "param") (codes "track") (codes "link") (codes "br") }
    ensures ruby_bases { IsSetOf tags.ruby_bases 2 (codes "rb") (codes "rtc") (codes "rt") (codes "ruby") }
    ensures ruby_texts { IsSetOf tags.ruby_texts 2 (codes "rp") (codes "rt") (codes "rb") (codes "rtc") }
{}

fn tags_of_tables_of_rows()
    ensures break_outs { IsSetOf tags.break_outs 44 (codes "b") (codes "var") (codes "a") (codes "font") }
    ensures math_ml_glyphs { IsSetOf tags.math_ml_glyphs 2
        (codes "mglyph") (codes "malignmark") (codes "mi") (codes "mtext") }
    ensures rcdata_contexts { IsSetOf tags.rcdata_contexts 2
        (codes "title") (codes "textarea") (codes "style") (codes "script") }
    ensures rawtext_contexts { IsSetOf tags.rawtext_contexts 5
        (codes "style") (codes "noframes") (codes "script") (codes "noscript") }
{}

fn elements_of_html_of_rows()
    ensures implied_end_tags { IsSetOf elements.implied_end_tags.html 10
        (codes "dd") (codes "rtc") (codes "tr") (codes "td") }
    ensures table_scope_barriers { IsSetOf elements.table_scope_barriers.html 3
        (codes "html") (codes "template") (codes "td") (codes "caption") }
    ensures address_div_and_p { IsSetOf elements.address_div_and_p.html 3
        (codes "address") (codes "p") (codes "center") (codes "li") }
    ensures headings { IsSetOf elements.headings.html 6 (codes "h1") (codes "h6") (codes "h7") (codes "header") }
    ensures table_context { IsSetOf elements.table_context.html 3
        (codes "table") (codes "html") (codes "tbody") (codes "body") }
    ensures table_body_context { IsSetOf elements.table_body_context.html 5
        (codes "tbody") (codes "html") (codes "table") (codes "tr") }
    ensures table_row_context { IsSetOf elements.table_row_context.html 3
        (codes "tr") (codes "html") (codes "table") (codes "tbody") }
    ensures foster_targets { IsSetOf elements.foster_targets.html 5
        (codes "table") (codes "tr") (codes "td") (codes "template") }
    ensures table_text_places { IsSetOf elements.table_text_places.html 6
        (codes "table") (codes "tr") (codes "td") (codes "caption") }
    ensures table_sections { IsSetOf elements.table_sections.html 3
        (codes "tbody") (codes "thead") (codes "table") (codes "tr") }
    ensures table_cells { IsSetOf elements.table_cells.html 2 (codes "td") (codes "th") (codes "tr") (codes "caption") }
    ensures void_elements { IsSetOf elements.void_elements.html 18
        (codes "area") (codes "wbr") (codes "command") (codes "script") }
    ensures raw_text_elements { IsSetOf elements.raw_text_elements.html 7
        (codes "style") (codes "plaintext") (codes "noscript") (codes "textarea") }
{}

fn elements_of_all_namespaces_of_rows()
    ensures scope { IsSetOf elements.scope_barriers.html 10
        (codes "applet") (codes "template") (codes "ol") (codes "button") }
    ensures list_item_scope { IsSetOf elements.list_item_scope_barriers.html 12
        (codes "ol") (codes "table") (codes "li") (codes "button") }
    ensures button_scope { IsSetOf elements.button_scope_barriers.html 11
        (codes "button") (codes "html") (codes "p") (codes "ol") }
    ensures special { IsSetOf elements.special_elements.html 83
        (codes "address") (codes "xmp") (codes "a") (codes "span") }
    ensures special_math_ml { IsSetOf elements.special_elements.math_ml 6
        (codes "mi") (codes "annotation-xml") (codes "math") (codes "mglyph") }
    ensures special_svg { IsSetOf elements.special_elements.svg 3
        (codes "foreignobject") (codes "title") (codes "svg") (codes "g") }
    ensures integration_math_ml { IsSetOf elements.integration_points.math_ml 5
        (codes "mo") (codes "mtext") (codes "annotation-xml") (codes "mrow") }
    ensures integration_svg { IsSetOf elements.integration_points.svg 3
        (codes "desc") (codes "title") (codes "svg") (codes "foreign") }
{}

fn namespaces_of_rows()
    ensures heading { is_element_of elements.headings (html (codes "h1")) ≡ true }
    ensures foreign_heading { is_element_of elements.headings (svg (codes "h1")) ≡ false }
    ensures html_table { is_element_of elements.scope_barriers (html (codes "table")) ≡ true }
    ensures svg_table { is_element_of elements.scope_barriers (svg (codes "table")) ≡ false }
    ensures html_desc { is_element_of elements.scope_barriers (html (codes "desc")) ≡ false }
    ensures svg_desc { is_element_of elements.scope_barriers (svg (codes "desc")) ≡ true }
    ensures math_ml_desc { is_element_of elements.scope_barriers (math_ml (codes "desc")) ≡ false }
    ensures math_ml_mi { is_element_of elements.special_elements (math_ml (codes "mi")) ≡ true }
    ensures html_mi { is_element_of elements.special_elements (html (codes "mi")) ≡ false }
    ensures table_scope_has_no_foreign { is_element_of elements.table_scope_barriers (math_ml (codes "mi")) ≡ false }
    ensures svg_title { is_element_of elements.special_elements (svg (codes "title")) ≡ true }
    ensures html_title { is_element_of elements.integration_points (html (codes "title")) ≡ false }
    ensures text_point { is_element_of elements.math_ml_text_integration_points (math_ml (codes "mn")) ≡ true }
    ensures no_text_point { is_element_of elements.math_ml_text_integration_points (svg (codes "desc")) ≡ false }
    ensures html_point { is_element_of elements.svg_html_integration_points (svg (codes "desc")) ≡ true }
    ensures no_html_point { is_element_of elements.svg_html_integration_points (math_ml (codes "mn")) ≡ false }
    ensures html_alone { is_html (codes "p") (html (codes "p")) ≡ true }
    ensures another_word { is_html (codes "p") (html (codes "pre")) ≡ false }
    ensures another_namespace { is_html (codes "p") (math_ml (codes "p")) ≡ false }
{}

fn counts_of_rows()
    ensures first { count_of (html (codes "p")) ≡ 0 }
    ensures last { count_of (html (codes "object")) ≡ 59 }
    ensures no_name_of_a_scope { count_of (html (codes "span")) ≡ 134 }
    ensures foreign { count_of (svg (codes "p")) ≡ 172 }
    ensures two { slice_index_or (counts_of (html (codes "p") ∷ svg (codes "p") ∷ html (codes "p") ∷ [])) 0 0 ≡ 2 }
    ensures one_other { slice_index_or (counts_of (html (codes "p") ∷ svg (codes "p") ∷ [])) 172 0 ≡ 1 }
    ensures as_many { length (counts_of []) ≡ length counted_names + 128 }
    ensures no_list_item { has_one (one (codes "li")) (html (codes "p") ∷ svg (codes "li") ∷ []) ≡ false }
    ensures counted_set { has_counts elements.table_body_context ≡ true }
    ensures other_name { has_counts (one (codes "span")) ≡ false }
    ensures a_paragraph { has_one (one (codes "p")) (svg (codes "li") ∷ html (codes "p") ∷ []) ≡ true }
{}
