//! The words of this crate computed on worked rows.
ghost use Rattle.std.specs.Prelude.{◌≡◌, [], ◌∷◌, None, Some, codes, true, false};
ghost use Rattle.tree_forest.specs.declared.sink.QuirksMode.TheVariants.{LimitedQuirks, NoQuirks, Quirks};
ghost use Rattle.tree_names.specs.RowWords.{html, math_ml, svg};
ghost use Rattle.html_lexemes.specs.declared.token.TagKind.TheVariants.{EndTag, StartTag};
ghost use Rattle.tree_predicates.specs.Attributes.{is_hidden, is_html_annotation};
ghost use Rattle.tree_predicates.specs.Foreign.{breaks_out, stops_break_out, takes_start, takes_text};
ghost use Rattle.tree_predicates.specs.Modes.{own_mode, reset_mode, root_mode};
ghost use Rattle.tree_predicates.specs.Quirks.{quirks_of};
ghost use Rattle.tree_predicates.specs.RowWords.{attribute, doctype, doctype_of, end, own, start, tag};
ghost use Rattle.tree_predicates.specs.declared.modes.InsertionMode.TheVariants.{AfterHead, BeforeHead, InBody};
ghost use Rattle.tree_predicates.specs.declared.modes.InsertionMode.TheVariants.{InCaption, InCell, InColumnGroup};
ghost use Rattle.tree_predicates.specs.declared.modes.InsertionMode.TheVariants.{InFrameset, InHead, InRow, InTable};
ghost use Rattle.tree_predicates.specs.declared.modes.InsertionMode.TheVariants.{InTableBody, InTemplate};

fn names_of_doctypes_of_rows()
    ensures html { quirks_of (doctype None None) ≡ NoQuirks }
    ensures nameless { quirks_of (doctype_of None None None) ≡ Quirks }
    ensures empty { quirks_of (doctype_of (Some []) None None) ≡ Quirks }
    ensures another { quirks_of (doctype_of (Some (codes "htm")) None None) ≡ Quirks }
    ensures in_capitals { quirks_of (doctype_of (Some (codes "HTML")) None None) ≡ Quirks }
    ensures forced { quirks_of (record (doctype None None) { force_quirks = true }) ≡ Quirks }
{}

fn identifiers_of_doctypes_of_rows()
    ensures html_2 { quirks_of (doctype (Some (codes "-//IETF//DTD HTML 2.0//EN")) (Some [])) ≡ Quirks }
    ensures any_case { quirks_of (doctype (Some (codes "-//IetF//Dtd hTML")) None) ≡ Quirks }
    ensures too_short { quirks_of (doctype (Some (codes "-//IETF//DTD HTM")) None) ≡ NoQuirks }
    ensures html_3 { quirks_of (doctype (Some (codes "-//W3C//DTD HTML 3.2 Final//EN")) None) ≡ Quirks }
    ensures html_4 { quirks_of (doctype (Some (codes "-//W3C//DTD HTML 4.0 Transitional//EN")) (Some [])) ≡ Quirks }
    ensures no_system { quirks_of (doctype (Some (codes "-//W3C//DTD HTML 4.01 Transitional//EN")) None) ≡ Quirks }
    ensures empty_system { quirks_of (doctype (Some (codes "-//W3C//DTD HTML 4.01 Transitional//EN")) (Some []))
        ≡ LimitedQuirks }
    ensures frameset { quirks_of (doctype (Some (codes "-//W3C//DTD HTML 4.01 Frameset//EN")) None) ≡ Quirks }
    ensures xhtml { quirks_of (doctype (Some (codes "-//W3C//DTD XHTML 1.0 Frameset//EN")) None) ≡ LimitedQuirks }
    ensures strict { quirks_of (doctype (Some (codes "-//W3C//DTD HTML 4.01//EN")) None) ≡ NoQuirks }
    ensures public_id_empty { quirks_of (doctype (Some []) None) ≡ NoQuirks }
    ensures system_id_alone { quirks_of (doctype None (Some (codes "about:legacy-compat"))) ≡ NoQuirks }
{}

fn own_modes_of_rows()
    ensures td { own (codes "td") ≡ Some InCell }
    ensures th { own (codes "th") ≡ Some InCell }
    ensures tr { own (codes "tr") ≡ Some InRow }
    ensures tbody { own (codes "tbody") ≡ Some InTableBody }
    ensures tfoot { own (codes "tfoot") ≡ Some InTableBody }
    ensures thead { own (codes "thead") ≡ Some InTableBody }
    ensures caption { own (codes "caption") ≡ Some InCaption }
    ensures colgroup { own (codes "colgroup") ≡ Some InColumnGroup }
    ensures table { own (codes "table") ≡ Some InTable }
    ensures template { own (codes "template") ≡ Some InTemplate }
    ensures head { own (codes "head") ≡ Some InHead }
    ensures body { own (codes "body") ≡ Some InBody }
    ensures frameset { own (codes "frameset") ≡ Some InFrameset }
    ensures html { own (codes "html") ≡ Some BeforeHead }
    ensures html_with_head { own_mode (html (codes "html")) false true None ≡ Some AfterHead }
    ensures another { own (codes "p") ≡ None }
    ensures svg_td { own_mode (svg (codes "td")) false false None ≡ None }
    ensures context_td { own_mode (html (codes "td")) true false None ≡ None }
    ensures context_head { own_mode (html (codes "head")) true true None ≡ None }
    ensures context_tr { own_mode (html (codes "tr")) true false None ≡ Some InRow }
{}

fn resets_of_rows()
    ensures cell { reset_mode None true None
        (html (codes "td") ∷ html (codes "table") ∷ html (codes "body") ∷ html (codes "html") ∷ []) ≡ InCell }
    ensures not_svg { reset_mode None true None
        (svg (codes "td") ∷ html (codes "table") ∷ html (codes "body") ∷ html (codes "html") ∷ []) ≡ InTable }
    ensures template { reset_mode None true (Some InTable)
        (html (codes "b") ∷ html (codes "template") ∷ html (codes "table") ∷ html (codes "html") ∷ []) ≡ InTable }
    ensures page { reset_mode None true None (html (codes "html") ∷ []) ≡ AfterHead }
    ensures context_td { reset_mode (Some (html (codes "td"))) false None (html (codes "html") ∷ []) ≡ InBody }
    ensures context_select { reset_mode (Some (html (codes "select"))) false None (html (codes "html") ∷ []) ≡ InBody }
    ensures context_html { reset_mode (Some (html (codes "html"))) false None (html (codes "html") ∷ []) ≡ BeforeHead }
    ensures within_context { reset_mode (Some (html (codes "div"))) false None
        (html (codes "td") ∷ html (codes "html") ∷ []) ≡ InCell }
    ensures nothing { reset_mode None true None [] ≡ InBody }
    ensures root { root_mode (Some (html (codes "tr"))) (html (codes "html")) false None ≡ InRow }
{}

fn html_places_of_rows()
    ensures text_in_html { takes_text (html (codes "b")) false ≡ true }
    ensures text_in_svg { takes_text (svg (codes "svg")) false ≡ false }
    ensures text_in_svg_title { takes_text (svg (codes "title")) false ≡ true }
    ensures text_in_mi { takes_text (math_ml (codes "mi")) false ≡ true }
    ensures text_in_math { takes_text (math_ml (codes "math")) false ≡ false }
    ensures text_in_annotation { takes_text (math_ml (codes "annotation-xml")) false ≡ false }
    ensures text_in_point { takes_text (math_ml (codes "annotation-xml")) true ≡ true }
    ensures start_in_svg { takes_start (svg (codes "svg")) false (codes "b") ≡ false }
    ensures start_in_svg_title { takes_start (svg (codes "title")) false (codes "mglyph") ≡ true }
    ensures start_in_mi { takes_start (math_ml (codes "mi")) false (codes "b") ≡ true }
    ensures mglyph_in_mi { takes_start (math_ml (codes "mi")) false (codes "mglyph") ≡ false }
    ensures svg_in_annotation { takes_start (math_ml (codes "annotation-xml")) false (codes "svg") ≡ true }
    ensures start_in_annotation { takes_start (math_ml (codes "annotation-xml")) false (codes "b") ≡ false }
    ensures start_in_point { takes_start (math_ml (codes "annotation-xml")) true (codes "b") ≡ true }
{}

fn break_outs_of_rows()
    ensures font { breaks_out (start (codes "font")) ≡ false }
    ensures colored { breaks_out (tag StartTag (codes "font") (attribute (codes "color") [] ∷ [])) ≡ true }
    ensures sized { breaks_out (tag StartTag (codes "font")
        (attribute (codes "id") [] ∷ attribute (codes "size") [] ∷ [])) ≡ true }
    ensures with_id { breaks_out (tag StartTag (codes "font") (attribute (codes "id") [] ∷ [])) ≡ false }
    ensures font_ends { breaks_out (tag EndTag (codes "font") (attribute (codes "color") [] ∷ [])) ≡ false }
    ensures b { breaks_out (start (codes "b")) ≡ true }
    ensures b_ends { breaks_out (end (codes "b")) ≡ false }
    ensures p_ends { breaks_out (end (codes "p")) ≡ true }
    ensures br_ends { breaks_out (end (codes "br")) ≡ true }
    ensures a { breaks_out (tag StartTag (codes "a") (attribute (codes "color") [] ∷ [])) ≡ false }
    ensures at_html { stops_break_out (html (codes "b")) false ≡ true }
    ensures at_svg { stops_break_out (svg (codes "g")) false ≡ false }
    ensures at_svg_title { stops_break_out (svg (codes "title")) false ≡ true }
    ensures at_mi { stops_break_out (math_ml (codes "mi")) false ≡ true }
    ensures at_annotation { stops_break_out (math_ml (codes "annotation-xml")) false ≡ false }
    ensures at_point { stops_break_out (math_ml (codes "annotation-xml")) true ≡ true }
{}

fn attributes_of_rows()
    ensures hidden { is_hidden (attribute (codes "type") (codes "HIDDEN") ∷ []) ≡ true }
    ensures shown { is_hidden (attribute (codes "type") (codes "hidden ") ∷ []) ≡ false }
    ensures no_type { is_hidden (attribute (codes "hidden") [] ∷ []) ≡ false }
    ensures first_type { is_hidden (attribute (codes "type") (codes "text")
        ∷ attribute (codes "type") (codes "hidden") ∷ []) ≡ false }
    ensures after_another { is_hidden (attribute (codes "id") [] ∷ attribute (codes "type") (codes "Hidden") ∷ [])
        ≡ true }
    ensures text_html { is_html_annotation (math_ml (codes "annotation-xml"))
        (attribute (codes "encoding") (codes "TEXT/HTML") ∷ []) ≡ true }
    ensures xhtml { is_html_annotation (math_ml (codes "annotation-xml"))
        (attribute (codes "encoding") (codes "application/xhtml+xml") ∷ []) ≡ true }
    ensures text_plain { is_html_annotation (math_ml (codes "annotation-xml"))
        (attribute (codes "encoding") (codes "text/plain") ∷ []) ≡ false }
    ensures no_encoding { is_html_annotation (math_ml (codes "annotation-xml")) [] ≡ false }
    ensures of_html { is_html_annotation (html (codes "annotation-xml"))
        (attribute (codes "encoding") (codes "text/html") ∷ []) ≡ false }
    ensures another { is_html_annotation (math_ml (codes "annotation"))
        (attribute (codes "encoding") (codes "text/html") ∷ []) ≡ false }
{}
