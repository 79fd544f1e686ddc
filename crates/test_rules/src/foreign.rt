//! Foreign content (WHATWG HTML, 13.2.6.5): what stands after a mark. Elements are named from the root on; names of
//! SVG and MathML stand here as they were emitted.
ghost use Rattle.std.specs.Prelude.{◌≡◌, [], ◌∷◌, ◌++◌, codes};
ghost use Rattle.tree_forest.specs.declared.sink.QuirksMode.TheVariants.{NoQuirks, Quirks};
ghost use Rattle.html_lexemes.specs.declared.names.Namespace.TheVariants.{MathMl, Svg};
ghost use Rattle.html_lexemes.specs.declared.states.RawKind.TheVariants.{Rawtext};
ghost use Rattle.html_lexemes.specs.declared.token.TokenSinkResult.TheVariants.{Continue, RawData};
ghost use Rattle.test_rules.specs.RowWords.{answer, doctype_named, end, finished, foreign_fragment_of};
ghost use Rattle.test_rules.specs.RowWords.{nameless_doctype, null, remark, start, start_closed, start_with, view};
ghost use Rattle.test_rules.specs.RowWords.{view_from, whole, whole_from, without_scripts, words};
ghost use Rattle.tree_predicates.specs.declared.modes.InsertionMode.TheVariants.{AfterBody, InBody, InCell, InFrameset};
ghost use Rattle.tree_predicates.specs.declared.modes.InsertionMode.TheVariants.{InTable};

// in `title`, `desc` and `foreignObject` of SVG, in text of MathML and in an `annotation-xml` whose contents are HTML
// the rules of the mode hold
#[tactic(auto, unfolding(tree_names::specs::Groups::tag_group, rules_table::specs::Actions::act))]
fn integration_points()
    // <svg><title>a</title></svg><p>b
    ensures title { view (start (codes "svg") ∷ start (codes "title") ∷ words (codes "a") ∷ end (codes "title")
        ∷ end (codes "svg") ∷ start (codes "p") ∷ words (codes "b") ∷ [])
        ≡ record {
          mode = InBody;
          elements = codes "html body p";
          tree = codes "<html><head></head><body><svg><title>a</title></svg><p>b</p></body></html>";
        } }
    // <svg><desc><p>
    ensures description { view (start (codes "svg") ∷ start (codes "desc") ∷ start (codes "p") ∷ [])
        ≡ record {
          mode = InBody;
          elements = codes "html body svg desc p";
          tree = codes "<html><head></head><body><svg><desc><p></p></desc></svg></body></html>";
        } }
    // <svg><foreignobject><p>
    ensures foreign_object { view (start (codes "svg") ∷ start (codes "foreignobject") ∷ start (codes "p") ∷ [])
        ≡ record {
          mode = InBody;
          elements = codes "html body svg foreignobject p";
          tree = codes "<html><head></head><body><svg><foreignobject><p></p></foreignobject></svg></body></html>";
        } }
    // <svg><foreignobject></foreignobject>a
    ensures foreign_object_end { view (start (codes "svg") ∷ start (codes "foreignobject")
        ∷ end (codes "foreignobject") ∷ words (codes "a") ∷ [])
        ≡ record {
          mode = InBody;
          elements = codes "html body svg";
          tree = codes "<html><head></head><body><svg><foreignobject></foreignobject>a</svg></body></html>";
        } }
    // <svg><foreignobject><p></foreignobject>a
    ensures end_from_within { view (start (codes "svg") ∷ start (codes "foreignobject") ∷ start (codes "p")
        ∷ end (codes "foreignobject") ∷ words (codes "a") ∷ [])
        ≡ record {
          mode = InBody;
          elements = codes "html body svg foreignobject p";
          tree = codes "<html><head></head><body><svg><foreignobject><p>a</p></foreignobject></svg></body></html>";
        } }
    // <math><mi><p>
    ensures math_text { view (start (codes "math") ∷ start (codes "mi") ∷ start (codes "p") ∷ [])
        ≡ record {
          mode = InBody;
          elements = codes "html body math mi p";
          tree = codes "<html><head></head><body><math><mi><p></p></mi></math></body></html>";
        } }
    // <math><mi><mglyph><p>
    ensures glyph { view (start (codes "math") ∷ start (codes "mi") ∷ start (codes "mglyph") ∷ start (codes "p") ∷ [])
        ≡ record {
          mode = InBody;
          elements = codes "html body math mi p";
          tree = codes "<html><head></head><body><math><mi><mglyph></mglyph><p></p></mi></math></body></html>";
        } }
    // <math><annotation-xml encoding=text/html><p>
    ensures annotation { view (start (codes "math")
        ∷ start_with (codes "annotation-xml") (codes "encoding") (codes "text/html") ∷ start (codes "p") ∷ [])
        ≡ record {
          mode = InBody;
          elements = codes "html body math annotation-xml p";
          tree =
              codes "<html><head></head><body><math><annotation-xml><p></p></annotation-xml></math></body>"
              ++ codes "</html>";
        } }
    // <math><annotation-xml encoding=Text/HTML><p>
    ensures annotation_in_capitals { view (start (codes "math")
        ∷ start_with (codes "annotation-xml") (codes "encoding") (codes "Text/HTML") ∷ start (codes "p") ∷ [])
        ≡ record {
          mode = InBody;
          elements = codes "html body math annotation-xml p";
          tree =
              codes "<html><head></head><body><math><annotation-xml><p></p></annotation-xml></math></body>"
              ++ codes "</html>";
        } }
    // <math><annotation-xml encoding=text/xml><p>
    ensures annotation_of_another_encoding { view (start (codes "math")
        ∷ start_with (codes "annotation-xml") (codes "encoding") (codes "text/xml") ∷ start (codes "p") ∷ [])
        ≡ record {
          mode = InBody;
          elements = codes "html body p";
          tree =
              codes "<html><head></head><body><math><annotation-xml></annotation-xml></math><p></p></body>"
              ++ codes "</html>";
        } }
    // <math><annotation-xml><svg><desc><p>
    ensures svg_in_annotation { view (start (codes "math") ∷ start (codes "annotation-xml") ∷ start (codes "svg")
        ∷ start (codes "desc") ∷ start (codes "p") ∷ [])
        ≡ record {
          mode = InBody;
          elements = codes "html body math annotation-xml svg desc p";
          tree =
              codes "<html><head></head><body><math><annotation-xml><svg><desc><p></p></desc></svg></annotation-xml>"
              ++ codes "</math></body></html>";
        } }
    // <math><svg><desc><p>
    ensures svg_in_math { view (start (codes "math") ∷ start (codes "svg") ∷ start (codes "desc")
        ∷ start (codes "p") ∷ [])
        ≡ record {
          mode = InBody;
          elements = codes "html body p";
          tree = codes "<html><head></head><body><math><svg><desc></desc></svg></math><p></p></body></html>";
        } }
{}

// what is emitted beside tags
#[tactic(auto, unfolding(tree_names::specs::Groups::tag_group, rules_table::specs::Actions::act))]
fn texts()
    // <svg> </svg><frameset>
    ensures white_space { view (start (codes "svg") ∷ words (codes " ") ∷ end (codes "svg")
        ∷ start (codes "frameset") ∷ [])
        ≡ record {
          mode = InFrameset;
          elements = codes "html frameset";
          tree = codes "<html><head></head><frameset></frameset></html>";
        } }
    // <svg>a</svg><frameset>
    ensures letter { view (start (codes "svg") ∷ words (codes "a") ∷ end (codes "svg") ∷ start (codes "frameset")
        ∷ [])
        ≡ record {
          mode = InBody;
          elements = codes "html body";
          tree = codes "<html><head></head><body><svg>a</svg></body></html>";
        } }
    // <svg> NUL </svg><frameset>
    ensures nul_and_frameset { view (start (codes "svg") ∷ null ∷ end (codes "svg") ∷ start (codes "frameset") ∷ [])
        ≡ record {
          mode = InFrameset;
          elements = codes "html frameset";
          tree = codes "<html><head></head><frameset></frameset></html>";
        } }
    // <svg>a NUL b
    ensures nul { view (start (codes "svg") ∷ words (codes "a") ∷ null ∷ words (codes "b") ∷ [])
        ≡ record {
          mode = InBody;
          elements = codes "html body svg";
          tree = codes "<html><head></head><body><svg>a" ++ 65533 ∷ codes "b</svg></body></html>";
        } }
    // <svg><desc>a NUL b
    ensures nul_in_description { view (start (codes "svg") ∷ start (codes "desc") ∷ words (codes "a") ∷ null
        ∷ words (codes "b") ∷ [])
        ≡ record {
          mode = InBody;
          elements = codes "html body svg desc";
          tree = codes "<html><head></head><body><svg><desc>ab</desc></svg></body></html>";
        } }
    // <math><mi>a NUL b
    ensures nul_in_math_text { view (start (codes "math") ∷ start (codes "mi") ∷ words (codes "a") ∷ null
        ∷ words (codes "b") ∷ [])
        ≡ record {
          mode = InBody;
          elements = codes "html body math mi";
          tree = codes "<html><head></head><body><math><mi>ab</mi></math></body></html>";
        } }
    // <svg><!--a-->
    ensures comment { view (start (codes "svg") ∷ remark (codes "a") ∷ [])
        ≡ record {
          mode = InBody;
          elements = codes "html body svg";
          tree = codes "<html><head></head><body><svg><!--a--></svg></body></html>";
        } }
    // <svg><!doctype html>a
    ensures doctype { view (start (codes "svg") ∷ doctype_named (codes "html") ∷ words (codes "a") ∷ [])
        ≡ record {
          mode = InBody;
          elements = codes "html body svg";
          tree = codes "<html><head></head><body><svg>a</svg></body></html>";
        } }
{}

// tags that break out
#[tactic(auto, unfolding(tree_names::specs::Groups::tag_group, rules_table::specs::Actions::act))]
fn break_outs()
    // <svg><p>
    ensures paragraph { view (start (codes "svg") ∷ start (codes "p") ∷ [])
        ≡ record {
          mode = InBody;
          elements = codes "html body p";
          tree = codes "<html><head></head><body><svg></svg><p></p></body></html>";
        } }
    // <math><mrow><mrow><b>a
    ensures from_within { view (start (codes "math") ∷ start (codes "mrow") ∷ start (codes "mrow")
        ∷ start (codes "b") ∷ words (codes "a") ∷ [])
        ≡ record {
          mode = InBody;
          elements = codes "html body b";
          tree = codes "<html><head></head><body><math><mrow><mrow></mrow></mrow></math><b>a</b></body></html>";
        } }
    // <svg><g><table><td>
    ensures table { view (start (codes "svg") ∷ start (codes "g") ∷ start (codes "table") ∷ start (codes "td") ∷ [])
        ≡ record {
          mode = InCell;
          elements = codes "html body table tbody tr td";
          tree =
              codes "<html><head></head><body><svg><g></g></svg><table><tbody><tr><td></td></tr></tbody>"
              ++ codes "</table></body></html>";
        } }
    // <svg><desc><svg><p>
    ensures to_description { view (start (codes "svg") ∷ start (codes "desc") ∷ start (codes "svg")
        ∷ start (codes "p") ∷ [])
        ≡ record {
          mode = InBody;
          elements = codes "html body svg desc p";
          tree = codes "<html><head></head><body><svg><desc><svg></svg><p></p></desc></svg></body></html>";
        } }
    // <svg><font>
    ensures font { view (start (codes "svg") ∷ start (codes "font") ∷ [])
        ≡ record {
          mode = InBody;
          elements = codes "html body svg font";
          tree = codes "<html><head></head><body><svg><font></font></svg></body></html>";
        } }
    // <svg><font id=x>
    ensures font_with_another_attribute { view (start (codes "svg")
        ∷ start_with (codes "font") (codes "id") (codes "x") ∷ [])
        ≡ record {
          mode = InBody;
          elements = codes "html body svg font";
          tree = codes "<html><head></head><body><svg><font></font></svg></body></html>";
        } }
    // <svg><font color=x>
    ensures font_with_color { view (start (codes "svg") ∷ start_with (codes "font") (codes "color") (codes "x") ∷ [])
        ≡ record {
          mode = InBody;
          elements = codes "html body font";
          tree = codes "<html><head></head><body><svg></svg><font></font></body></html>";
        } }
    // <svg><font face=x>
    ensures font_with_face { view (start (codes "svg") ∷ start_with (codes "font") (codes "face") (codes "x") ∷ [])
        ≡ record {
          mode = InBody;
          elements = codes "html body font";
          tree = codes "<html><head></head><body><svg></svg><font></font></body></html>";
        } }
    // <svg><font size=x>
    ensures font_with_size { view (start (codes "svg") ∷ start_with (codes "font") (codes "size") (codes "x") ∷ [])
        ≡ record {
          mode = InBody;
          elements = codes "html body font";
          tree = codes "<html><head></head><body><svg></svg><font></font></body></html>";
        } }
    // <svg></p>
    ensures paragraph_end { view (start (codes "svg") ∷ end (codes "p") ∷ [])
        ≡ record {
          mode = InBody;
          elements = codes "html body";
          tree = codes "<html><head></head><body><svg></svg><p></p></body></html>";
        } }
    // <p><svg></p>a
    ensures end_of_paragraph_around { view (start (codes "p") ∷ start (codes "svg") ∷ end (codes "p")
        ∷ words (codes "a") ∷ [])
        ≡ record {
          mode = InBody;
          elements = codes "html body";
          tree = codes "<html><head></head><body><p><svg></svg></p>a</body></html>";
        } }
    // <svg></br>
    ensures line_break_end { view (start (codes "svg") ∷ end (codes "br") ∷ [])
        ≡ record {
          mode = InBody;
          elements = codes "html body";
          tree = codes "<html><head></head><body><svg></svg><br></br></body></html>";
        } }
{}

// other tags
#[tactic(auto, unfolding(tree_names::specs::Groups::tag_group, rules_table::specs::Actions::act))]
fn tags()
    // <svg/>a
    ensures closed_svg { view (start_closed (codes "svg") ∷ words (codes "a") ∷ [])
        ≡ record {
          mode = InBody;
          elements = codes "html body";
          tree = codes "<html><head></head><body><svg></svg>a</body></html>";
        } }
    // <svg><a/>b
    ensures closed_inside { view (start (codes "svg") ∷ start_closed (codes "a") ∷ words (codes "b") ∷ [])
        ≡ record {
          mode = InBody;
          elements = codes "html body svg";
          tree = codes "<html><head></head><body><svg><a></a>b</svg></body></html>";
        } }
    // <math><mrow><a><td><html>
    ensures any_start { view (start (codes "math") ∷ start (codes "mrow") ∷ start (codes "a") ∷ start (codes "td")
        ∷ start (codes "html") ∷ [])
        ≡ record {
          mode = InBody;
          elements = codes "html body math mrow a td html";
          tree =
              codes "<html><head></head><body><math><mrow><a><td><html></html></td></a></mrow></math>"
              ++ codes "</body></html>";
        } }
    // <svg><g><a></g>b
    ensures inner_end { view (start (codes "svg") ∷ start (codes "g") ∷ start (codes "a") ∷ end (codes "g")
        ∷ words (codes "b") ∷ [])
        ≡ record {
          mode = InBody;
          elements = codes "html body svg";
          tree = codes "<html><head></head><body><svg><g><a></a></g>b</svg></body></html>";
        } }
    // <svg><g></x>b
    ensures unknown_end { view (start (codes "svg") ∷ start (codes "g") ∷ end (codes "x") ∷ words (codes "b") ∷ [])
        ≡ record {
          mode = InBody;
          elements = codes "html body svg g";
          tree = codes "<html><head></head><body><svg><g>b</g></svg></body></html>";
        } }
    // <svg><g></svg>b
    ensures svg_end { view (start (codes "svg") ∷ start (codes "g") ∷ end (codes "svg") ∷ words (codes "b") ∷ [])
        ≡ record {
          mode = InBody;
          elements = codes "html body";
          tree = codes "<html><head></head><body><svg><g></g></svg>b</body></html>";
        } }
    // <div><svg><g></div>a
    ensures end_of_block_around { view (start (codes "div") ∷ start (codes "svg") ∷ start (codes "g")
        ∷ end (codes "div") ∷ words (codes "a") ∷ [])
        ≡ record {
          mode = InBody;
          elements = codes "html body";
          tree = codes "<html><head></head><body><div><svg><g></g></svg></div>a</body></html>";
        } }
    // <b><svg></b>a
    ensures end_of_formatting_around { view (start (codes "b") ∷ start (codes "svg") ∷ end (codes "b")
        ∷ words (codes "a") ∷ [])
        ≡ record {
          mode = InBody;
          elements = codes "html body";
          tree = codes "<html><head></head><body><b><svg></svg></b>a</body></html>";
        } }
    // <svg></body>a
    ensures body_end { view (start (codes "svg") ∷ end (codes "body") ∷ words (codes "a") ∷ [])
        ≡ record {
          mode = AfterBody;
          elements = codes "html body svg";
          tree = codes "<html><head></head><body><svg>a</svg></body></html>";
        } }
    // <svg><script/>a
    ensures closed_script { view (start (codes "svg") ∷ start_closed (codes "script") ∷ words (codes "a") ∷ [])
        ≡ record {
          mode = InBody;
          elements = codes "html body svg";
          tree = codes "<html><head></head><body><svg><script></script>a</svg></body></html>";
        } }
    // <svg><script>a</script>b
    ensures script_end { view (start (codes "svg") ∷ start (codes "script") ∷ words (codes "a")
        ∷ end (codes "script") ∷ words (codes "b") ∷ [])
        ≡ record {
          mode = InBody;
          elements = codes "html body svg";
          tree = codes "<html><head></head><body><svg><script>a</script>b</svg></body></html>";
        } }
{}

// in a table foreign content stands before it
#[tactic(auto, unfolding(tree_names::specs::Groups::tag_group, rules_table::specs::Actions::act))]
fn in_tables()
    // <table><svg>a</svg><td>
    ensures fostered { view (start (codes "table") ∷ start (codes "svg") ∷ words (codes "a") ∷ end (codes "svg")
        ∷ start (codes "td") ∷ [])
        ≡ record {
          mode = InCell;
          elements = codes "html body table tbody tr td";
          tree =
              codes "<html><head></head><body><svg>a</svg><table><tbody><tr><td></td></tr></tbody></table>"
              ++ codes "</body></html>";
        } }
    // <table><svg><tr>
    ensures row_inside { view (start (codes "table") ∷ start (codes "svg") ∷ start (codes "tr") ∷ [])
        ≡ record {
          mode = InTable;
          elements = codes "html body table svg tr";
          tree = codes "<html><head></head><body><svg><tr></tr></svg><table></table></body></html>";
        } }
    // <table><svg><p>
    ensures paragraph_inside { view (start (codes "table") ∷ start (codes "svg") ∷ start (codes "p") ∷ [])
        ≡ record {
          mode = InTable;
          elements = codes "html body table p";
          tree = codes "<html><head></head><body><svg></svg><p></p><table></table></body></html>";
        } }
    // <table><svg><g></table>a
    ensures table_end_inside { view (start (codes "table") ∷ start (codes "svg") ∷ start (codes "g")
        ∷ end (codes "table") ∷ words (codes "a") ∷ [])
        ≡ record {
          mode = InBody;
          elements = codes "html body";
          tree = codes "<html><head></head><body><svg><g></g></svg><table></table>a</body></html>";
        } }
    // <table><td><svg><td>
    ensures in_a_cell { view (start (codes "table") ∷ start (codes "td") ∷ start (codes "svg") ∷ start (codes "td")
        ∷ [])
        ≡ record {
          mode = InCell;
          elements = codes "html body table tbody tr td svg td";
          tree =
              codes "<html><head></head><body><table><tbody><tr><td><svg><td></td></svg></td></tr></tbody>"
              ++ codes "</table></body></html>";
        } }
{}

// fragments whose context is foreign
#[tactic(auto, unfolding(tree_names::specs::Groups::tag_group, rules_table::specs::Actions::act))]
fn contexts()
    // in svg: <desc><p>
    ensures start_tag { view_from (foreign_fragment_of Svg (codes "svg")) (start (codes "desc") ∷ start (codes "p")
        ∷ [])
        ≡ record {
          mode = InBody;
          elements = codes "html desc p";
          tree = codes "<html><desc><p></p></desc></html>";
        } }
    // in math: <desc><p>
    ensures start_tag_in_math { view_from (foreign_fragment_of MathMl (codes "math")) (start (codes "desc")
        ∷ start (codes "p") ∷ [])
        ≡ record { mode = InBody; elements = codes "html p"; tree = codes "<html><desc></desc><p></p></html>" } }
    // in desc: <desc><p>
    ensures start_tag_in_description { view_from (foreign_fragment_of Svg (codes "desc")) (start (codes "desc")
        ∷ start (codes "p") ∷ [])
        ≡ record {
          mode = InBody;
          elements = codes "html desc p";
          tree = codes "<html><desc><p></p></desc></html>";
        } }
    // in svg: NUL </svg>a</p>b
    ensures text_and_ends { view_from (foreign_fragment_of Svg (codes "svg")) (null ∷ end (codes "svg")
        ∷ words (codes "a") ∷ end (codes "p") ∷ words (codes "b") ∷ [])
        ≡ record {
          mode = InBody;
          elements = codes "html";
          tree = codes "<html>" ++ 65533 ∷ codes "a<p></p>b</html>";
        } }
{}

// the text of an element is asked for only where it is an element of HTML
#[tactic(auto, unfolding(tree_names::specs::Groups::tag_group, rules_table::specs::Actions::act))]
fn answers()
    // <svg> and then <style>
    ensures style { answer (start (codes "svg") ∷ []) (start (codes "style"))
        ≡ Continue }
    // <svg><desc> and then <style>
    ensures style_in_description { answer (start (codes "svg") ∷ start (codes "desc") ∷ []) (start (codes "style"))
        ≡ RawData Rawtext }
    // <svg> and then <title>
    ensures title { answer (start (codes "svg") ∷ []) (start (codes "title"))
        ≡ Continue }
    // <svg><script> and then </script>
    ensures script_end { answer (start (codes "svg") ∷ start (codes "script") ∷ []) (end (codes "script"))
        ≡ Continue }
{}

// Pages with their trees from a model of the rules that is written in another language (attributes left out).
#[tactic(auto, unfolding(tree_names::specs::Groups::tag_group, rules_table::specs::Actions::act))]
fn pages()
    // <svg> <mi>
    ensures line_30 { whole_from without_scripts (start (codes "svg") ∷ words (codes " ") ∷ start (codes "mi")
        ∷ finished ∷ [])
        ≡ record {
          quirks = Quirks;
          tree = codes "<html><head></head><body><svg> <mi></mi></svg></body></html>";
        } }
    // <!doctype><!--c--><select></select></title></select><svg><hr>
    ensures line_38 { whole (nameless_doctype ∷ remark (codes "c") ∷ start (codes "select") ∷ end (codes "select")
        ∷ end (codes "title") ∷ end (codes "select") ∷ start (codes "svg") ∷ start (codes "hr") ∷ finished ∷ [])
        ≡ record {
          quirks = Quirks;
          tree = codes "<!><!--c--><html><head></head><body><select></select><svg></svg><hr></hr></body></html>";
        } }
    // <!DOCTYPE html><mi><svg /> NUL <meta><!DOCTYPE html> LF <frameset></svg><hr></mi></hr><g><mglyph>
    ensures line_72 { whole (doctype_named (codes "html") ∷ start (codes "mi") ∷ start_closed (codes "svg") ∷ null
        ∷ start (codes "meta") ∷ doctype_named (codes "html") ∷ words (codes "\n") ∷ start (codes "frameset")
        ∷ end (codes "svg") ∷ start (codes "hr") ∷ end (codes "mi") ∷ end (codes "hr") ∷ start (codes "g")
        ∷ start (codes "mglyph") ∷ finished ∷ [])
        ≡ record {
          quirks = NoQuirks;
          tree = codes "<!html><html><head></head><frameset></frameset></html>";
        } }
    // <hr> LF </hr><code> b<svg><font><body><mtext>
    ensures line_74 { whole_from without_scripts (start (codes "hr") ∷ words (codes "\n") ∷ end (codes "hr")
        ∷ start (codes "code") ∷ words (codes " b") ∷ start (codes "svg")
        ∷ start_with (codes "font") (codes "type") (codes "hidden") ∷ start (codes "body") ∷ start (codes "mtext")
        ∷ finished ∷ [])
        ≡ record {
          quirks = Quirks;
          tree =
              codes "<html><head></head><body><hr></hr>\n<code> b<svg><font></font></svg><mtext></mtext></code>"
              ++ codes "</body></html>";
        } }
    // </svg><svg /><template /><template><svg><!DOCTYPE html>b
    ensures line_78 { whole (end (codes "svg") ∷ start_closed (codes "svg") ∷ start_closed (codes "template")
        ∷ start (codes "template") ∷ start (codes "svg") ∷ doctype_named (codes "html") ∷ words (codes "b")
        ∷ finished ∷ [])
        ≡ record {
          quirks = Quirks;
          tree =
              codes "<html><head></head><body><svg></svg><template><template><svg>b</svg></template></template>"
              ++ codes "</body></html>";
        } }
    // <svg><svg><tr><title> NUL LF <table></tr></svg>x y
    ensures line_177 { whole_from without_scripts (start (codes "svg") ∷ start (codes "svg") ∷ start (codes "tr")
        ∷ start (codes "title") ∷ null ∷ words (codes "\n") ∷ start (codes "table") ∷ end (codes "tr")
        ∷ end (codes "svg") ∷ words (codes "x y") ∷ finished ∷ [])
        ≡ record {
          quirks = Quirks;
          tree =
              codes "<html><head></head><body><svg><svg><tr><title>\nx y<table></table></title></tr></svg></svg>"
              ++ codes "</body></html>";
        } }
    // <svg>a<!--c--></svg><isindex /> <img><param>
    ensures line_215 { whole_from without_scripts (start (codes "svg") ∷ words (codes "a") ∷ remark (codes "c")
        ∷ end (codes "svg") ∷ start_closed (codes "isindex") ∷ words (codes " ") ∷ start (codes "img")
        ∷ start (codes "param") ∷ finished ∷ [])
        ≡ record {
          quirks = Quirks;
          tree =
              codes "<html><head></head><body><svg>a<!--c--></svg><isindex> <img></img><param></param></isindex>"
              ++ codes "</body></html>";
        } }
    // </tr> NUL <svg>a LF </svg>x y
    ensures line_525 { whole_from without_scripts (end (codes "tr") ∷ null ∷ start (codes "svg")
        ∷ words (codes "a\n") ∷ end (codes "svg") ∷ words (codes "x y") ∷ finished ∷ [])
        ≡ record {
          quirks = Quirks;
          tree = codes "<html><head></head><body><svg>a\n</svg>x y</body></html>";
        } }
    // x y</td>a<!--b--><math> </math></math><p> LF <!--c--><code />
    ensures line_599 { whole (words (codes "x y") ∷ end (codes "td") ∷ words (codes "a") ∷ remark (codes "b")
        ∷ start (codes "math") ∷ words (codes " ") ∷ end (codes "math") ∷ end (codes "math") ∷ start (codes "p")
        ∷ words (codes "\n") ∷ remark (codes "c") ∷ start_closed (codes "code") ∷ finished ∷ [])
        ≡ record {
          quirks = Quirks;
          tree =
              codes "<html><head></head><body>x ya<!--b--><math> </math><p>\n<!--c--><code></code></p></body>"
              ++ codes "</html>";
        } }
{}
