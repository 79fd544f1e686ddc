//! The modes of tables: what stands after a mark. Elements are named from the root on.
ghost use Rattle.std.specs.Prelude.{◌≡◌, [], ◌∷◌, ◌++◌, codes};
ghost use Rattle.test_rules.specs.RowWords.{doctype_named, end, error, finished, null, remark, start, start_with, view};
ghost use Rattle.test_rules.specs.RowWords.{words};
ghost use Rattle.tree_predicates.specs.declared.modes.InsertionMode.TheVariants.{InBody, InCaption, InCell};
ghost use Rattle.tree_predicates.specs.declared.modes.InsertionMode.TheVariants.{InColumnGroup, InRow, InTable};
ghost use Rattle.tree_predicates.specs.declared.modes.InsertionMode.TheVariants.{InTableBody, InTableText, InTemplate};
ghost use Rattle.tree_predicates.specs.declared.modes.InsertionMode.TheVariants.{Text};

#[tactic(auto, unfolding(tree_names::specs::Groups::tag_group, rules_table::specs::Actions::act))]
fn in_table()
    // <table>a
    ensures text { view (start (codes "table") ∷ words (codes "a") ∷ [])
        ≡ record {
          mode = InTableText;
          elements = codes "html body table";
          tree = codes "<html><head></head><body><table></table></body></html>";
        } }
    // <table> NUL </table>
    ensures nul { view (start (codes "table") ∷ null ∷ end (codes "table") ∷ [])
        ≡ record {
          mode = InBody;
          elements = codes "html body";
          tree = codes "<html><head></head><body><table></table></body></html>";
        } }
    // <table><!--a-->
    ensures comment { view (start (codes "table") ∷ remark (codes "a") ∷ [])
        ≡ record {
          mode = InTable;
          elements = codes "html body table";
          tree = codes "<html><head></head><body><table><!--a--></table></body></html>";
        } }
    // <table><!doctype html>
    ensures doctype { view (start (codes "table") ∷ doctype_named (codes "html") ∷ [])
        ≡ record {
          mode = InTable;
          elements = codes "html body table";
          tree = codes "<html><head></head><body><table></table></body></html>";
        } }
    // <table><caption>
    ensures caption_start { view (start (codes "table") ∷ start (codes "caption") ∷ [])
        ≡ record {
          mode = InCaption;
          elements = codes "html body table caption";
          tree = codes "<html><head></head><body><table><caption></caption></table></body></html>";
        } }
    // <table><colgroup>
    ensures column_group_start { view (start (codes "table") ∷ start (codes "colgroup") ∷ [])
        ≡ record {
          mode = InColumnGroup;
          elements = codes "html body table colgroup";
          tree = codes "<html><head></head><body><table><colgroup></colgroup></table></body></html>";
        } }
    // <table><col>
    ensures column_start { view (start (codes "table") ∷ start (codes "col") ∷ [])
        ≡ record {
          mode = InColumnGroup;
          elements = codes "html body table colgroup";
          tree = codes "<html><head></head><body><table><colgroup><col></col></colgroup></table></body></html>";
        } }
    // <table><tfoot>
    ensures section_start { view (start (codes "table") ∷ start (codes "tfoot") ∷ [])
        ≡ record {
          mode = InTableBody;
          elements = codes "html body table tfoot";
          tree = codes "<html><head></head><body><table><tfoot></tfoot></table></body></html>";
        } }
    // <table><tr>
    ensures row_start { view (start (codes "table") ∷ start (codes "tr") ∷ [])
        ≡ record {
          mode = InRow;
          elements = codes "html body table tbody tr";
          tree = codes "<html><head></head><body><table><tbody><tr></tr></tbody></table></body></html>";
        } }
    // <table><th>
    ensures cell_start { view (start (codes "table") ∷ start (codes "th") ∷ [])
        ≡ record {
          mode = InCell;
          elements = codes "html body table tbody tr th";
          tree = codes "<html><head></head><body><table><tbody><tr><th></th></tr></tbody></table></body></html>";
        } }
    // <table><table>
    ensures table_start { view (start (codes "table") ∷ start (codes "table") ∷ [])
        ≡ record {
          mode = InTable;
          elements = codes "html body table";
          tree = codes "<html><head></head><body><table></table><table></table></body></html>";
        } }
    // <table></table>
    ensures table_end { view (start (codes "table") ∷ end (codes "table") ∷ [])
        ≡ record {
          mode = InBody;
          elements = codes "html body";
          tree = codes "<html><head></head><body><table></table></body></html>";
        } }
    // <table></tbody></td></caption></col></body></html></template>
    ensures ignored_ends { view (start (codes "table") ∷ end (codes "tbody") ∷ end (codes "td")
        ∷ end (codes "caption") ∷ end (codes "col") ∷ end (codes "body") ∷ end (codes "html") ∷ end (codes "template")
        ∷ [])
        ≡ record {
          mode = InTable;
          elements = codes "html body table";
          tree = codes "<html><head></head><body><table></table></body></html>";
        } }
    // <table><style>
    ensures style_start { view (start (codes "table") ∷ start (codes "style") ∷ [])
        ≡ record {
          mode = Text;
          elements = codes "html body table style";
          tree = codes "<html><head></head><body><table><style></style></table></body></html>";
        } }
    // <table><template>
    ensures template_start { view (start (codes "table") ∷ start (codes "template") ∷ [])
        ≡ record {
          mode = InTemplate;
          elements = codes "html body table template";
          tree = codes "<html><head></head><body><table><template></template></table></body></html>";
        } }
    // <table><template></template>
    ensures template_end { view (start (codes "table") ∷ start (codes "template") ∷ end (codes "template") ∷ [])
        ≡ record {
          mode = InTable;
          elements = codes "html body table";
          tree = codes "<html><head></head><body><table><template></template></table></body></html>";
        } }
    // <table><input>
    ensures input { view (start (codes "table") ∷ start (codes "input") ∷ [])
        ≡ record {
          mode = InTable;
          elements = codes "html body table";
          tree = codes "<html><head></head><body><input></input><table></table></body></html>";
        } }
    // <table><input type=hidden>
    ensures hidden_input { view (start (codes "table") ∷ start_with (codes "input") (codes "type") (codes "hidden")
        ∷ [])
        ≡ record {
          mode = InTable;
          elements = codes "html body table";
          tree = codes "<html><head></head><body><table><input></input></table></body></html>";
        } }
    // <table><form>
    ensures form_start { view (start (codes "table") ∷ start (codes "form") ∷ [])
        ≡ record {
          mode = InTable;
          elements = codes "html body table";
          tree = codes "<html><head></head><body><table><form></form></table></body></html>";
        } }
    // <table><form><form>
    ensures second_form { view (start (codes "table") ∷ start (codes "form") ∷ start (codes "form") ∷ [])
        ≡ record {
          mode = InTable;
          elements = codes "html body table";
          tree = codes "<html><head></head><body><table><form></form></table></body></html>";
        } }
    // <table><p>
    ensures fostered_start { view (start (codes "table") ∷ start (codes "p") ∷ [])
        ≡ record {
          mode = InTable;
          elements = codes "html body table p";
          tree = codes "<html><head></head><body><p></p><table></table></body></html>";
        } }
    // <table><p>a
    ensures text_in_fostered { view (start (codes "table") ∷ start (codes "p") ∷ words (codes "a") ∷ [])
        ≡ record {
          mode = InTable;
          elements = codes "html body table p";
          tree = codes "<html><head></head><body><p>a</p><table></table></body></html>";
        } }
    // <table><p><tr>
    ensures cleared { view (start (codes "table") ∷ start (codes "p") ∷ start (codes "tr") ∷ [])
        ≡ record {
          mode = InRow;
          elements = codes "html body table tbody tr";
          tree = codes "<html><head></head><body><p></p><table><tbody><tr></tr></tbody></table></body></html>";
        } }
    // <table></p>
    ensures fostered_end { view (start (codes "table") ∷ end (codes "p") ∷ [])
        ≡ record {
          mode = InTable;
          elements = codes "html body table";
          tree = codes "<html><head></head><body><p></p><table></table></body></html>";
        } }
    // <table> and the end
    ensures page_end { view (start (codes "table") ∷ finished ∷ [])
        ≡ record {
          mode = InTable;
          elements = codes "html body table";
          tree = codes "<html><head></head><body><table></table></body></html>";
        } }
{}

#[tactic(auto, unfolding(tree_names::specs::Groups::tag_group, rules_table::specs::Actions::act))]
fn in_table_text()
    // <table>  LF
    ensures white_space { view (start (codes "table") ∷ words (codes " \n") ∷ [])
        ≡ record {
          mode = InTableText;
          elements = codes "html body table";
          tree = codes "<html><head></head><body><table></table></body></html>";
        } }
    // <table> <tr>
    ensures white_space_said { view (start (codes "table") ∷ words (codes " ") ∷ start (codes "tr") ∷ [])
        ≡ record {
          mode = InRow;
          elements = codes "html body table tbody tr";
          tree = codes "<html><head></head><body><table> <tbody><tr></tr></tbody></table></body></html>";
        } }
    // <table> a<tr>
    ensures other_text { view (start (codes "table") ∷ words (codes " a") ∷ start (codes "tr") ∷ [])
        ≡ record {
          mode = InRow;
          elements = codes "html body table tbody tr";
          tree = codes "<html><head></head><body> a<table><tbody><tr></tr></tbody></table></body></html>";
        } }
    // <table> <!--b-->a</table>
    ensures after_comment { view (start (codes "table") ∷ words (codes " ") ∷ remark (codes "b") ∷ words (codes "a")
        ∷ end (codes "table") ∷ [])
        ≡ record {
          mode = InBody;
          elements = codes "html body";
          tree = codes "<html><head></head><body>a<table> <!--b--></table></body></html>";
        } }
    // <table> <!doctype html>a</table>
    ensures after_doctype { view (start (codes "table") ∷ words (codes " ") ∷ doctype_named (codes "html")
        ∷ words (codes "a") ∷ end (codes "table") ∷ [])
        ≡ record {
          mode = InBody;
          elements = codes "html body";
          tree = codes "<html><head></head><body>a<table> </table></body></html>";
        } }
    // <table> </>a</table>
    ensures after_error { view (start (codes "table") ∷ words (codes " ") ∷ error ∷ words (codes "a")
        ∷ end (codes "table") ∷ [])
        ≡ record {
          mode = InBody;
          elements = codes "html body";
          tree = codes "<html><head></head><body> a<table></table></body></html>";
        } }
    // <table>a NUL b</table>
    ensures with_nul { view (start (codes "table") ∷ words (codes "a") ∷ null ∷ words (codes "b")
        ∷ end (codes "table") ∷ [])
        ≡ record {
          mode = InBody;
          elements = codes "html body";
          tree = codes "<html><head></head><body>ab<table></table></body></html>";
        } }
    // <table> NUL  </table>
    ensures nul_alone { view (start (codes "table") ∷ null ∷ words (codes " ") ∷ end (codes "table") ∷ [])
        ≡ record {
          mode = InBody;
          elements = codes "html body";
          tree = codes "<html><head></head><body><table> </table></body></html>";
        } }
    // <table>a<p>
    ensures start_tag { view (start (codes "table") ∷ words (codes "a") ∷ start (codes "p") ∷ [])
        ≡ record {
          mode = InTable;
          elements = codes "html body table p";
          tree = codes "<html><head></head><body>a<p></p><table></table></body></html>";
        } }
    // <table>a</td>
    ensures end_tag { view (start (codes "table") ∷ words (codes "a") ∷ end (codes "td") ∷ [])
        ≡ record {
          mode = InTable;
          elements = codes "html body table";
          tree = codes "<html><head></head><body>a<table></table></body></html>";
        } }
    // <table>a and the end
    ensures page_end { view (start (codes "table") ∷ words (codes "a") ∷ finished ∷ [])
        ≡ record {
          mode = InTable;
          elements = codes "html body table";
          tree = codes "<html><head></head><body>a<table></table></body></html>";
        } }
    // <b><table>a</table>
    ensures formatting_fostered { view (start (codes "b") ∷ start (codes "table") ∷ words (codes "a")
        ∷ end (codes "table") ∷ [])
        ≡ record {
          mode = InBody;
          elements = codes "html body b";
          tree = codes "<html><head></head><body><b>a<table></table></b></body></html>";
        } }
    // <table><b><tr>a<td>
    ensures formatting_made_anew { view (start (codes "table") ∷ start (codes "b") ∷ start (codes "tr")
        ∷ words (codes "a") ∷ start (codes "td") ∷ [])
        ≡ record {
          mode = InCell;
          elements = codes "html body table tbody tr td";
          tree =
              codes "<html><head></head><body><b></b><b>a</b><table><tbody><tr><td></td></tr></tbody>"
              ++ codes "</table></body></html>";
        } }
    // <table><tr>a</tr>
    ensures in_row { view (start (codes "table") ∷ start (codes "tr") ∷ words (codes "a") ∷ end (codes "tr") ∷ [])
        ≡ record {
          mode = InTableBody;
          elements = codes "html body table tbody";
          tree = codes "<html><head></head><body>a<table><tbody><tr></tr></tbody></table></body></html>";
        } }
{}

#[tactic(auto, unfolding(tree_names::specs::Groups::tag_group, rules_table::specs::Actions::act))]
fn in_caption()
    // <table><caption> a
    ensures text { view (start (codes "table") ∷ start (codes "caption") ∷ words (codes " a") ∷ [])
        ≡ record {
          mode = InCaption;
          elements = codes "html body table caption";
          tree = codes "<html><head></head><body><table><caption> a</caption></table></body></html>";
        } }
    // <table><caption> NUL
    ensures nul { view (start (codes "table") ∷ start (codes "caption") ∷ null ∷ [])
        ≡ record {
          mode = InCaption;
          elements = codes "html body table caption";
          tree = codes "<html><head></head><body><table><caption></caption></table></body></html>";
        } }
    // <table><caption><!--a-->
    ensures comment { view (start (codes "table") ∷ start (codes "caption") ∷ remark (codes "a") ∷ [])
        ≡ record {
          mode = InCaption;
          elements = codes "html body table caption";
          tree = codes "<html><head></head><body><table><caption><!--a--></caption></table></body></html>";
        } }
    // <table><caption><!doctype html>
    ensures doctype { view (start (codes "table") ∷ start (codes "caption") ∷ doctype_named (codes "html") ∷ [])
        ≡ record {
          mode = InCaption;
          elements = codes "html body table caption";
          tree = codes "<html><head></head><body><table><caption></caption></table></body></html>";
        } }
    // <table><caption><html>
    ensures html_start { view (start (codes "table") ∷ start (codes "caption") ∷ start (codes "html") ∷ [])
        ≡ record {
          mode = InCaption;
          elements = codes "html body table caption";
          tree = codes "<html><head></head><body><table><caption></caption></table></body></html>";
        } }
    // <table><caption><p>
    ensures other_start { view (start (codes "table") ∷ start (codes "caption") ∷ start (codes "p") ∷ [])
        ≡ record {
          mode = InCaption;
          elements = codes "html body table caption p";
          tree = codes "<html><head></head><body><table><caption><p></p></caption></table></body></html>";
        } }
    // <table><caption><p></caption>
    ensures caption_end { view (start (codes "table") ∷ start (codes "caption") ∷ start (codes "p")
        ∷ end (codes "caption") ∷ [])
        ≡ record {
          mode = InTable;
          elements = codes "html body table";
          tree = codes "<html><head></head><body><table><caption><p></p></caption></table></body></html>";
        } }
    // <table><caption><caption>
    ensures caption_start { view (start (codes "table") ∷ start (codes "caption") ∷ start (codes "caption") ∷ [])
        ≡ record {
          mode = InCaption;
          elements = codes "html body table caption";
          tree =
              codes "<html><head></head><body><table><caption></caption><caption></caption></table></body>"
              ++ codes "</html>";
        } }
    // <table><caption><tr>
    ensures row_start { view (start (codes "table") ∷ start (codes "caption") ∷ start (codes "tr") ∷ [])
        ≡ record {
          mode = InRow;
          elements = codes "html body table tbody tr";
          tree =
              codes "<html><head></head><body><table><caption></caption><tbody><tr></tr></tbody></table>"
              ++ codes "</body></html>";
        } }
    // <table><caption><col>
    ensures column_start { view (start (codes "table") ∷ start (codes "caption") ∷ start (codes "col") ∷ [])
        ≡ record {
          mode = InColumnGroup;
          elements = codes "html body table colgroup";
          tree =
              codes "<html><head></head><body><table><caption></caption><colgroup><col></col></colgroup>"
              ++ codes "</table></body></html>";
        } }
    // <table><caption></table>
    ensures table_end { view (start (codes "table") ∷ start (codes "caption") ∷ end (codes "table") ∷ [])
        ≡ record {
          mode = InBody;
          elements = codes "html body";
          tree = codes "<html><head></head><body><table><caption></caption></table></body></html>";
        } }
    // <table><caption><table>
    ensures table_start { view (start (codes "table") ∷ start (codes "caption") ∷ start (codes "table") ∷ [])
        ≡ record {
          mode = InTable;
          elements = codes "html body table caption table";
          tree = codes "<html><head></head><body><table><caption><table></table></caption></table></body></html>";
        } }
    // <table><caption></body></html></tr></td></col></tbody>
    ensures ignored_ends { view (start (codes "table") ∷ start (codes "caption") ∷ end (codes "body")
        ∷ end (codes "html") ∷ end (codes "tr") ∷ end (codes "td") ∷ end (codes "col") ∷ end (codes "tbody") ∷ [])
        ≡ record {
          mode = InCaption;
          elements = codes "html body table caption";
          tree = codes "<html><head></head><body><table><caption></caption></table></body></html>";
        } }
    // <table><caption><b></caption><td>a
    ensures marker { view (start (codes "table") ∷ start (codes "caption") ∷ start (codes "b") ∷ end (codes "caption")
        ∷ start (codes "td") ∷ words (codes "a") ∷ [])
        ≡ record {
          mode = InCell;
          elements = codes "html body table tbody tr td";
          tree =
              codes "<html><head></head><body><table><caption><b></b></caption><tbody><tr><td>a</td></tr>"
              ++ codes "</tbody></table></body></html>";
        } }
    // <table><caption> and the end
    ensures page_end { view (start (codes "table") ∷ start (codes "caption") ∷ finished ∷ [])
        ≡ record {
          mode = InCaption;
          elements = codes "html body table caption";
          tree = codes "<html><head></head><body><table><caption></caption></table></body></html>";
        } }
{}

#[tactic(auto, unfolding(tree_names::specs::Groups::tag_group, rules_table::specs::Actions::act))]
fn in_column_group()
    // <table><colgroup>
    ensures white_space { view (start (codes "table") ∷ start (codes "colgroup") ∷ words (codes " ") ∷ [])
        ≡ record {
          mode = InColumnGroup;
          elements = codes "html body table colgroup";
          tree = codes "<html><head></head><body><table><colgroup> </colgroup></table></body></html>";
        } }
    // <table><colgroup> a
    ensures split_text { view (start (codes "table") ∷ start (codes "colgroup") ∷ words (codes " a ") ∷ [])
        ≡ record {
          mode = InTableText;
          elements = codes "html body table";
          tree = codes "<html><head></head><body><table><colgroup> </colgroup></table></body></html>";
        } }
    // <table><colgroup> a </table>
    ensures text_fostered { view (start (codes "table") ∷ start (codes "colgroup") ∷ words (codes " a ")
        ∷ end (codes "table") ∷ [])
        ≡ record {
          mode = InBody;
          elements = codes "html body";
          tree = codes "<html><head></head><body>a <table><colgroup> </colgroup></table></body></html>";
        } }
    // <table><colgroup><!--a-->
    ensures comment { view (start (codes "table") ∷ start (codes "colgroup") ∷ remark (codes "a") ∷ [])
        ≡ record {
          mode = InColumnGroup;
          elements = codes "html body table colgroup";
          tree = codes "<html><head></head><body><table><colgroup><!--a--></colgroup></table></body></html>";
        } }
    // <table><colgroup><!doctype html>
    ensures doctype { view (start (codes "table") ∷ start (codes "colgroup") ∷ doctype_named (codes "html") ∷ [])
        ≡ record {
          mode = InColumnGroup;
          elements = codes "html body table colgroup";
          tree = codes "<html><head></head><body><table><colgroup></colgroup></table></body></html>";
        } }
    // <table><colgroup><html>
    ensures html_start { view (start (codes "table") ∷ start (codes "colgroup") ∷ start (codes "html") ∷ [])
        ≡ record {
          mode = InColumnGroup;
          elements = codes "html body table colgroup";
          tree = codes "<html><head></head><body><table><colgroup></colgroup></table></body></html>";
        } }
    // <table><colgroup><col></col>
    ensures column { view (start (codes "table") ∷ start (codes "colgroup") ∷ start (codes "col") ∷ end (codes "col")
        ∷ [])
        ≡ record {
          mode = InColumnGroup;
          elements = codes "html body table colgroup";
          tree = codes "<html><head></head><body><table><colgroup><col></col></colgroup></table></body></html>";
        } }
    // <table><colgroup></colgroup>
    ensures column_group_end { view (start (codes "table") ∷ start (codes "colgroup") ∷ end (codes "colgroup") ∷ [])
        ≡ record {
          mode = InTable;
          elements = codes "html body table";
          tree = codes "<html><head></head><body><table><colgroup></colgroup></table></body></html>";
        } }
    // <table><colgroup><colgroup>
    ensures column_group_start { view (start (codes "table") ∷ start (codes "colgroup") ∷ start (codes "colgroup")
        ∷ [])
        ≡ record {
          mode = InColumnGroup;
          elements = codes "html body table colgroup";
          tree =
              codes "<html><head></head><body><table><colgroup></colgroup><colgroup></colgroup></table>"
              ++ codes "</body></html>";
        } }
    // <table><colgroup><tr>
    ensures row_start { view (start (codes "table") ∷ start (codes "colgroup") ∷ start (codes "tr") ∷ [])
        ≡ record {
          mode = InRow;
          elements = codes "html body table tbody tr";
          tree =
              codes "<html><head></head><body><table><colgroup></colgroup><tbody><tr></tr></tbody></table>"
              ++ codes "</body></html>";
        } }
    // <table><colgroup></table>
    ensures table_end { view (start (codes "table") ∷ start (codes "colgroup") ∷ end (codes "table") ∷ [])
        ≡ record {
          mode = InBody;
          elements = codes "html body";
          tree = codes "<html><head></head><body><table><colgroup></colgroup></table></body></html>";
        } }
    // <table><colgroup><template>
    ensures template_start { view (start (codes "table") ∷ start (codes "colgroup") ∷ start (codes "template") ∷ [])
        ≡ record {
          mode = InTemplate;
          elements = codes "html body table colgroup template";
          tree =
              codes "<html><head></head><body><table><colgroup><template></template></colgroup></table>"
              ++ codes "</body></html>";
        } }
    // <table><colgroup><template></template></template>
    ensures template_ends { view (start (codes "table") ∷ start (codes "colgroup") ∷ start (codes "template")
        ∷ end (codes "template") ∷ end (codes "template") ∷ [])
        ≡ record {
          mode = InColumnGroup;
          elements = codes "html body table colgroup";
          tree =
              codes "<html><head></head><body><table><colgroup><template></template></colgroup></table>"
              ++ codes "</body></html>";
        } }
    // <table><colgroup></p>
    ensures other_end { view (start (codes "table") ∷ start (codes "colgroup") ∷ end (codes "p") ∷ [])
        ≡ record {
          mode = InTable;
          elements = codes "html body table";
          tree = codes "<html><head></head><body><p></p><table><colgroup></colgroup></table></body></html>";
        } }
    // <table><colgroup></body>
    ensures body_end { view (start (codes "table") ∷ start (codes "colgroup") ∷ end (codes "body") ∷ [])
        ≡ record {
          mode = InTable;
          elements = codes "html body table";
          tree = codes "<html><head></head><body><table><colgroup></colgroup></table></body></html>";
        } }
    // <table><colgroup> and the end
    ensures page_end { view (start (codes "table") ∷ start (codes "colgroup") ∷ finished ∷ [])
        ≡ record {
          mode = InColumnGroup;
          elements = codes "html body table colgroup";
          tree = codes "<html><head></head><body><table><colgroup></colgroup></table></body></html>";
        } }
    // <template><col> a<tr></colgroup><!--b-->
    ensures without_column_group { view (start (codes "template") ∷ start (codes "col") ∷ words (codes " a")
        ∷ start (codes "tr") ∷ end (codes "colgroup") ∷ remark (codes "b") ∷ [])
        ≡ record {
          mode = InColumnGroup;
          elements = codes "html head template";
          tree = codes "<html><head><template><col></col> <!--b--></template></head></html>";
        } }
{}
