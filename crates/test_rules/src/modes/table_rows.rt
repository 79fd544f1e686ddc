//! The modes of sections, rows and cells: what stands after a mark. Elements are named from the root on.
ghost use Rattle.std.specs.Prelude.{◌≡◌, [], ◌∷◌, ◌++◌, codes};
ghost use Rattle.test_rules.specs.RowWords.{doctype_named, end, finished, null, remark, start, view, words};
ghost use Rattle.tree_predicates.specs.declared.modes.InsertionMode.TheVariants.{InBody, InCaption, InCell};
ghost use Rattle.tree_predicates.specs.declared.modes.InsertionMode.TheVariants.{InColumnGroup, InRow, InTable};
ghost use Rattle.tree_predicates.specs.declared.modes.InsertionMode.TheVariants.{InTableBody, InTableText};

#[tactic(auto, unfolding(tree_names::specs::Groups::tag_group, rules_table::specs::Actions::act))]
fn in_table_body()
    // <table><tbody>
    ensures text { view (start (codes "table") ∷ start (codes "tbody") ∷ words (codes " ") ∷ [])
        ≡ record {
          mode = InTableText;
          elements = codes "html body table tbody";
          tree = codes "<html><head></head><body><table><tbody></tbody></table></body></html>";
        } }
    // <table><tbody> <tr>
    ensures white_space_said { view (start (codes "table") ∷ start (codes "tbody") ∷ words (codes " ")
        ∷ start (codes "tr") ∷ [])
        ≡ record {
          mode = InRow;
          elements = codes "html body table tbody tr";
          tree = codes "<html><head></head><body><table><tbody> <tr></tr></tbody></table></body></html>";
        } }
    // <table><tbody><!--a-->
    ensures comment { view (start (codes "table") ∷ start (codes "tbody") ∷ remark (codes "a") ∷ [])
        ≡ record {
          mode = InTableBody;
          elements = codes "html body table tbody";
          tree = codes "<html><head></head><body><table><tbody><!--a--></tbody></table></body></html>";
        } }
    // <table><tbody><!doctype html>
    ensures doctype { view (start (codes "table") ∷ start (codes "tbody") ∷ doctype_named (codes "html") ∷ [])
        ≡ record {
          mode = InTableBody;
          elements = codes "html body table tbody";
          tree = codes "<html><head></head><body><table><tbody></tbody></table></body></html>";
        } }
    // <table><tbody><tr>
    ensures row_start { view (start (codes "table") ∷ start (codes "tbody") ∷ start (codes "tr") ∷ [])
        ≡ record {
          mode = InRow;
          elements = codes "html body table tbody tr";
          tree = codes "<html><head></head><body><table><tbody><tr></tr></tbody></table></body></html>";
        } }
    // <table><tbody><td>
    ensures cell_start { view (start (codes "table") ∷ start (codes "tbody") ∷ start (codes "td") ∷ [])
        ≡ record {
          mode = InCell;
          elements = codes "html body table tbody tr td";
          tree = codes "<html><head></head><body><table><tbody><tr><td></td></tr></tbody></table></body></html>";
        } }
    // <table><tbody></tbody>
    ensures section_end { view (start (codes "table") ∷ start (codes "tbody") ∷ end (codes "tbody") ∷ [])
        ≡ record {
          mode = InTable;
          elements = codes "html body table";
          tree = codes "<html><head></head><body><table><tbody></tbody></table></body></html>";
        } }
    // <table><tbody></thead>
    ensures other_section_end { view (start (codes "table") ∷ start (codes "tbody") ∷ end (codes "thead") ∷ [])
        ≡ record {
          mode = InTableBody;
          elements = codes "html body table tbody";
          tree = codes "<html><head></head><body><table><tbody></tbody></table></body></html>";
        } }
    // <table><tbody><tfoot>
    ensures section_start { view (start (codes "table") ∷ start (codes "tbody") ∷ start (codes "tfoot") ∷ [])
        ≡ record {
          mode = InTableBody;
          elements = codes "html body table tfoot";
          tree = codes "<html><head></head><body><table><tbody></tbody><tfoot></tfoot></table></body></html>";
        } }
    // <table><tbody><caption>
    ensures caption_start { view (start (codes "table") ∷ start (codes "tbody") ∷ start (codes "caption") ∷ [])
        ≡ record {
          mode = InCaption;
          elements = codes "html body table caption";
          tree = codes "<html><head></head><body><table><tbody></tbody><caption></caption></table></body></html>";
        } }
    // <table><tbody><col>
    ensures column_start { view (start (codes "table") ∷ start (codes "tbody") ∷ start (codes "col") ∷ [])
        ≡ record {
          mode = InColumnGroup;
          elements = codes "html body table colgroup";
          tree =
              codes "<html><head></head><body><table><tbody></tbody><colgroup><col></col></colgroup></table>"
              ++ codes "</body></html>";
        } }
    // <table><tbody></table>
    ensures table_end { view (start (codes "table") ∷ start (codes "tbody") ∷ end (codes "table") ∷ [])
        ≡ record {
          mode = InBody;
          elements = codes "html body";
          tree = codes "<html><head></head><body><table><tbody></tbody></table></body></html>";
        } }
    // <table><tbody><table>
    ensures table_start { view (start (codes "table") ∷ start (codes "tbody") ∷ start (codes "table") ∷ [])
        ≡ record {
          mode = InTable;
          elements = codes "html body table";
          tree = codes "<html><head></head><body><table><tbody></tbody></table><table></table></body></html>";
        } }
    // <table><tbody></tr></td></caption></col></body></html>
    ensures ignored_ends { view (start (codes "table") ∷ start (codes "tbody") ∷ end (codes "tr") ∷ end (codes "td")
        ∷ end (codes "caption") ∷ end (codes "col") ∷ end (codes "body") ∷ end (codes "html") ∷ [])
        ≡ record {
          mode = InTableBody;
          elements = codes "html body table tbody";
          tree = codes "<html><head></head><body><table><tbody></tbody></table></body></html>";
        } }
    // <table><tbody><p>
    ensures fostered_start { view (start (codes "table") ∷ start (codes "tbody") ∷ start (codes "p") ∷ [])
        ≡ record {
          mode = InTableBody;
          elements = codes "html body table tbody p";
          tree = codes "<html><head></head><body><p></p><table><tbody></tbody></table></body></html>";
        } }
    // <table><tbody> and the end
    ensures page_end { view (start (codes "table") ∷ start (codes "tbody") ∷ finished ∷ [])
        ≡ record {
          mode = InTableBody;
          elements = codes "html body table tbody";
          tree = codes "<html><head></head><body><table><tbody></tbody></table></body></html>";
        } }
{}

#[tactic(auto, unfolding(tree_names::specs::Groups::tag_group, rules_table::specs::Actions::act))]
fn in_row()
    // <table><tr> <td>
    ensures white_space_said { view (start (codes "table") ∷ start (codes "tr") ∷ words (codes " ")
        ∷ start (codes "td") ∷ [])
        ≡ record {
          mode = InCell;
          elements = codes "html body table tbody tr td";
          tree = codes "<html><head></head><body><table><tbody><tr> <td></td></tr></tbody></table></body></html>";
        } }
    // <table><tr><!--a-->
    ensures comment { view (start (codes "table") ∷ start (codes "tr") ∷ remark (codes "a") ∷ [])
        ≡ record {
          mode = InRow;
          elements = codes "html body table tbody tr";
          tree = codes "<html><head></head><body><table><tbody><tr><!--a--></tr></tbody></table></body></html>";
        } }
    // <table><tr><!doctype html>
    ensures doctype { view (start (codes "table") ∷ start (codes "tr") ∷ doctype_named (codes "html") ∷ [])
        ≡ record {
          mode = InRow;
          elements = codes "html body table tbody tr";
          tree = codes "<html><head></head><body><table><tbody><tr></tr></tbody></table></body></html>";
        } }
    // <table><tr><th>
    ensures cell_start { view (start (codes "table") ∷ start (codes "tr") ∷ start (codes "th") ∷ [])
        ≡ record {
          mode = InCell;
          elements = codes "html body table tbody tr th";
          tree = codes "<html><head></head><body><table><tbody><tr><th></th></tr></tbody></table></body></html>";
        } }
    // <table><tr></tr>
    ensures row_end { view (start (codes "table") ∷ start (codes "tr") ∷ end (codes "tr") ∷ [])
        ≡ record {
          mode = InTableBody;
          elements = codes "html body table tbody";
          tree = codes "<html><head></head><body><table><tbody><tr></tr></tbody></table></body></html>";
        } }
    // <table><tr><tr>
    ensures row_start { view (start (codes "table") ∷ start (codes "tr") ∷ start (codes "tr") ∷ [])
        ≡ record {
          mode = InRow;
          elements = codes "html body table tbody tr";
          tree = codes "<html><head></head><body><table><tbody><tr></tr><tr></tr></tbody></table></body></html>";
        } }
    // <table><tr></tbody>
    ensures section_end { view (start (codes "table") ∷ start (codes "tr") ∷ end (codes "tbody") ∷ [])
        ≡ record {
          mode = InTable;
          elements = codes "html body table";
          tree = codes "<html><head></head><body><table><tbody><tr></tr></tbody></table></body></html>";
        } }
    // <table><tr></tfoot>
    ensures other_section_end { view (start (codes "table") ∷ start (codes "tr") ∷ end (codes "tfoot") ∷ [])
        ≡ record {
          mode = InRow;
          elements = codes "html body table tbody tr";
          tree = codes "<html><head></head><body><table><tbody><tr></tr></tbody></table></body></html>";
        } }
    // <table><tr><thead>
    ensures section_start { view (start (codes "table") ∷ start (codes "tr") ∷ start (codes "thead") ∷ [])
        ≡ record {
          mode = InTableBody;
          elements = codes "html body table thead";
          tree =
              codes "<html><head></head><body><table><tbody><tr></tr></tbody><thead></thead></table></body>"
              ++ codes "</html>";
        } }
    // <table><tr><caption>
    ensures caption_start { view (start (codes "table") ∷ start (codes "tr") ∷ start (codes "caption") ∷ [])
        ≡ record {
          mode = InCaption;
          elements = codes "html body table caption";
          tree =
              codes "<html><head></head><body><table><tbody><tr></tr></tbody><caption></caption></table>"
              ++ codes "</body></html>";
        } }
    // <table><tr></table>
    ensures table_end { view (start (codes "table") ∷ start (codes "tr") ∷ end (codes "table") ∷ [])
        ≡ record {
          mode = InBody;
          elements = codes "html body";
          tree = codes "<html><head></head><body><table><tbody><tr></tr></tbody></table></body></html>";
        } }
    // <table><tr><table>
    ensures table_start { view (start (codes "table") ∷ start (codes "tr") ∷ start (codes "table") ∷ [])
        ≡ record {
          mode = InTable;
          elements = codes "html body table";
          tree =
              codes "<html><head></head><body><table><tbody><tr></tr></tbody></table><table></table></body>"
              ++ codes "</html>";
        } }
    // <table><tr></td></th></caption></col></body></html>
    ensures ignored_ends { view (start (codes "table") ∷ start (codes "tr") ∷ end (codes "td") ∷ end (codes "th")
        ∷ end (codes "caption") ∷ end (codes "col") ∷ end (codes "body") ∷ end (codes "html") ∷ [])
        ≡ record {
          mode = InRow;
          elements = codes "html body table tbody tr";
          tree = codes "<html><head></head><body><table><tbody><tr></tr></tbody></table></body></html>";
        } }
    // <table><tr><p>
    ensures fostered_start { view (start (codes "table") ∷ start (codes "tr") ∷ start (codes "p") ∷ [])
        ≡ record {
          mode = InRow;
          elements = codes "html body table tbody tr p";
          tree = codes "<html><head></head><body><p></p><table><tbody><tr></tr></tbody></table></body></html>";
        } }
    // <table><tr><p><td>
    ensures cleared { view (start (codes "table") ∷ start (codes "tr") ∷ start (codes "p") ∷ start (codes "td") ∷ [])
        ≡ record {
          mode = InCell;
          elements = codes "html body table tbody tr td";
          tree =
              codes "<html><head></head><body><p></p><table><tbody><tr><td></td></tr></tbody></table></body>"
              ++ codes "</html>";
        } }
    // <table><tr> and the end
    ensures page_end { view (start (codes "table") ∷ start (codes "tr") ∷ finished ∷ [])
        ≡ record {
          mode = InRow;
          elements = codes "html body table tbody tr";
          tree = codes "<html><head></head><body><table><tbody><tr></tr></tbody></table></body></html>";
        } }
{}

#[tactic(auto, unfolding(tree_names::specs::Groups::tag_group, rules_table::specs::Actions::act))]
fn in_cell()
    // <table><td> a NUL
    ensures text { view (start (codes "table") ∷ start (codes "td") ∷ words (codes " a") ∷ null ∷ [])
        ≡ record {
          mode = InCell;
          elements = codes "html body table tbody tr td";
          tree =
              codes "<html><head></head><body><table><tbody><tr><td> a</td></tr></tbody></table></body>"
              ++ codes "</html>";
        } }
    // <table><td><!--a-->
    ensures comment { view (start (codes "table") ∷ start (codes "td") ∷ remark (codes "a") ∷ [])
        ≡ record {
          mode = InCell;
          elements = codes "html body table tbody tr td";
          tree =
              codes "<html><head></head><body><table><tbody><tr><td><!--a--></td></tr></tbody></table>"
              ++ codes "</body></html>";
        } }
    // <table><td><!doctype html>
    ensures doctype { view (start (codes "table") ∷ start (codes "td") ∷ doctype_named (codes "html") ∷ [])
        ≡ record {
          mode = InCell;
          elements = codes "html body table tbody tr td";
          tree = codes "<html><head></head><body><table><tbody><tr><td></td></tr></tbody></table></body></html>";
        } }
    // <table><td><html>
    ensures html_start { view (start (codes "table") ∷ start (codes "td") ∷ start (codes "html") ∷ [])
        ≡ record {
          mode = InCell;
          elements = codes "html body table tbody tr td";
          tree = codes "<html><head></head><body><table><tbody><tr><td></td></tr></tbody></table></body></html>";
        } }
    // <table><td><p></td>
    ensures cell_end { view (start (codes "table") ∷ start (codes "td") ∷ start (codes "p") ∷ end (codes "td") ∷ [])
        ≡ record {
          mode = InRow;
          elements = codes "html body table tbody tr";
          tree =
              codes "<html><head></head><body><table><tbody><tr><td><p></p></td></tr></tbody></table></body>"
              ++ codes "</html>";
        } }
    // <table><td></th>
    ensures other_cell_end { view (start (codes "table") ∷ start (codes "td") ∷ end (codes "th") ∷ [])
        ≡ record {
          mode = InCell;
          elements = codes "html body table tbody tr td";
          tree = codes "<html><head></head><body><table><tbody><tr><td></td></tr></tbody></table></body></html>";
        } }
    // <table><td><th>
    ensures cell_start { view (start (codes "table") ∷ start (codes "td") ∷ start (codes "th") ∷ [])
        ≡ record {
          mode = InCell;
          elements = codes "html body table tbody tr th";
          tree =
              codes "<html><head></head><body><table><tbody><tr><td></td><th></th></tr></tbody></table>"
              ++ codes "</body></html>";
        } }
    // <table><td><tr>
    ensures row_start { view (start (codes "table") ∷ start (codes "td") ∷ start (codes "tr") ∷ [])
        ≡ record {
          mode = InRow;
          elements = codes "html body table tbody tr";
          tree =
              codes "<html><head></head><body><table><tbody><tr><td></td></tr><tr></tr></tbody></table>"
              ++ codes "</body></html>";
        } }
    // <table><td></tr>
    ensures row_end { view (start (codes "table") ∷ start (codes "td") ∷ end (codes "tr") ∷ [])
        ≡ record {
          mode = InTableBody;
          elements = codes "html body table tbody";
          tree = codes "<html><head></head><body><table><tbody><tr><td></td></tr></tbody></table></body></html>";
        } }
    // <table><td></tbody>
    ensures section_end { view (start (codes "table") ∷ start (codes "td") ∷ end (codes "tbody") ∷ [])
        ≡ record {
          mode = InTable;
          elements = codes "html body table";
          tree = codes "<html><head></head><body><table><tbody><tr><td></td></tr></tbody></table></body></html>";
        } }
    // <table><td></tfoot>
    ensures other_section_end { view (start (codes "table") ∷ start (codes "td") ∷ end (codes "tfoot") ∷ [])
        ≡ record {
          mode = InCell;
          elements = codes "html body table tbody tr td";
          tree = codes "<html><head></head><body><table><tbody><tr><td></td></tr></tbody></table></body></html>";
        } }
    // <table><td><col>
    ensures column_start { view (start (codes "table") ∷ start (codes "td") ∷ start (codes "col") ∷ [])
        ≡ record {
          mode = InColumnGroup;
          elements = codes "html body table colgroup";
          tree =
              codes "<html><head></head><body><table><tbody><tr><td></td></tr></tbody><colgroup><col></col>"
              ++ codes "</colgroup></table></body></html>";
        } }
    // <table><td></table>
    ensures table_end { view (start (codes "table") ∷ start (codes "td") ∷ end (codes "table") ∷ [])
        ≡ record {
          mode = InBody;
          elements = codes "html body";
          tree = codes "<html><head></head><body><table><tbody><tr><td></td></tr></tbody></table></body></html>";
        } }
    // <table><td><table>
    ensures table_start { view (start (codes "table") ∷ start (codes "td") ∷ start (codes "table") ∷ [])
        ≡ record {
          mode = InTable;
          elements = codes "html body table tbody tr td table";
          tree =
              codes "<html><head></head><body><table><tbody><tr><td><table></table></td></tr></tbody>"
              ++ codes "</table></body></html>";
        } }
    // <table><td></body></html></caption></col></colgroup>
    ensures ignored_ends { view (start (codes "table") ∷ start (codes "td") ∷ end (codes "body") ∷ end (codes "html")
        ∷ end (codes "caption") ∷ end (codes "col") ∷ end (codes "colgroup") ∷ [])
        ≡ record {
          mode = InCell;
          elements = codes "html body table tbody tr td";
          tree = codes "<html><head></head><body><table><tbody><tr><td></td></tr></tbody></table></body></html>";
        } }
    // <table><td><p>
    ensures other_start { view (start (codes "table") ∷ start (codes "td") ∷ start (codes "p") ∷ [])
        ≡ record {
          mode = InCell;
          elements = codes "html body table tbody tr td p";
          tree =
              codes "<html><head></head><body><table><tbody><tr><td><p></p></td></tr></tbody></table></body>"
              ++ codes "</html>";
        } }
    // <table><td><b></td><td>a
    ensures marker { view (start (codes "table") ∷ start (codes "td") ∷ start (codes "b") ∷ end (codes "td")
        ∷ start (codes "td") ∷ words (codes "a") ∷ [])
        ≡ record {
          mode = InCell;
          elements = codes "html body table tbody tr td";
          tree =
              codes "<html><head></head><body><table><tbody><tr><td><b></b></td><td>a</td></tr></tbody>"
              ++ codes "</table></body></html>";
        } }
    // <table><td> and the end
    ensures page_end { view (start (codes "table") ∷ start (codes "td") ∷ finished ∷ [])
        ≡ record {
          mode = InCell;
          elements = codes "html body table tbody tr td";
          tree = codes "<html><head></head><body><table><tbody><tr><td></td></tr></tbody></table></body></html>";
        } }
{}
