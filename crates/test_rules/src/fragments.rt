//! Fragments: what stands after marks in a context. Elements are named from the root on.
ghost use Rattle.std.specs.Prelude.{◌≡◌, [], ◌∷◌, codes};
ghost use Rattle.test_rules.specs.RowWords.{end, finished, fragment_of, null, public_doctype, remark, start};
ghost use Rattle.test_rules.specs.RowWords.{start_closed, system_doctype, view_from, words};
ghost use Rattle.tree_predicates.specs.declared.modes.InsertionMode.TheVariants.{AfterBody, InBody, InCaption, InCell};
ghost use Rattle.tree_predicates.specs.declared.modes.InsertionMode.TheVariants.{InColumnGroup, InFrameset, InTable};
ghost use Rattle.tree_predicates.specs.declared.modes.InsertionMode.TheVariants.{InTemplate, Text};

#[tactic(auto, unfolding(tree_names::specs::Groups::tag_group, rules_table::specs::Actions::act))]
fn contexts()
    // <li>a<li>b
    ensures items { view_from (fragment_of (codes "ul") []) (start (codes "li") ∷ words (codes "a")
        ∷ start (codes "li") ∷ words (codes "b") ∷ [])
        ≡ record { mode = InBody; elements = codes "html li"; tree = codes "<html><li>a</li><li>b</li></html>" } }
    // </body></html>a
    ensures in_body { view_from (fragment_of (codes "body") []) (end (codes "body") ∷ end (codes "html")
        ∷ words (codes "a") ∷ [])
        ≡ record { mode = InBody; elements = codes "html"; tree = codes "<html>a</html>" } }
    // <title>a
    ensures in_head { view_from (fragment_of (codes "head") []) (start (codes "title") ∷ words (codes "a") ∷ [])
        ≡ record { mode = Text; elements = codes "html title"; tree = codes "<html><title>a</title></html>" } }
    // <option><option><select>a
    ensures in_select { view_from (fragment_of (codes "select") []) (start (codes "option") ∷ start (codes "option")
        ∷ start (codes "select") ∷ words (codes "a") ∷ [])
        ≡ record {
          mode = InBody;
          elements = codes "html option select";
          tree = codes "<html><option></option><option><select>a</select></option></html>";
        } }
    // <td>a</td><tr>
    ensures in_cell { view_from (fragment_of (codes "td") []) (start (codes "td") ∷ words (codes "a")
        ∷ end (codes "td") ∷ start (codes "tr") ∷ [])
        ≡ record { mode = InBody; elements = codes "html"; tree = codes "<html>a</html>" } }
    // </tr><tr></table><td>a
    ensures in_row { view_from (fragment_of (codes "tr") []) (end (codes "tr") ∷ start (codes "tr")
        ∷ end (codes "table") ∷ start (codes "td") ∷ words (codes "a") ∷ [])
        ≡ record { mode = InCell; elements = codes "html td"; tree = codes "<html><td>a</td></html>" } }
    // </tbody><tfoot></table><td>a
    ensures in_section { view_from (fragment_of (codes "tbody") []) (end (codes "tbody") ∷ start (codes "tfoot")
        ∷ end (codes "table") ∷ start (codes "td") ∷ words (codes "a") ∷ [])
        ≡ record { mode = InCell; elements = codes "html tr td"; tree = codes "<html><tr><td>a</td></tr></html>" } }
    // </table><td>a
    ensures in_table { view_from (fragment_of (codes "table") []) (end (codes "table") ∷ start (codes "td")
        ∷ words (codes "a") ∷ [])
        ≡ record {
          mode = InCell;
          elements = codes "html tbody tr td";
          tree = codes "<html><tbody><tr><td>a</td></tr></tbody></html>";
        } }
    // <table>
    ensures second_table { view_from (fragment_of (codes "table") []) (start (codes "table") ∷ [])
        ≡ record { mode = InTable; elements = codes "html"; tree = codes "<html></html>" } }
    // </caption><tr></table>a
    ensures in_caption { view_from (fragment_of (codes "caption") []) (end (codes "caption") ∷ start (codes "tr")
        ∷ end (codes "table") ∷ words (codes "a") ∷ [])
        ≡ record { mode = InCaption; elements = codes "html"; tree = codes "<html>a</html>" } }
    // <col> a</colgroup><tr>
    ensures in_column_group { view_from (fragment_of (codes "colgroup") []) (start (codes "col") ∷ words (codes " a")
        ∷ end (codes "colgroup") ∷ start (codes "tr") ∷ [])
        ≡ record { mode = InColumnGroup; elements = codes "html"; tree = codes "<html><col></col> </html>" } }
    // <body></body></html><!--a-->
    ensures in_html { view_from (fragment_of (codes "html") []) (start (codes "body") ∷ end (codes "body")
        ∷ end (codes "html") ∷ remark (codes "a") ∷ [])
        ≡ record {
          mode = AfterBody;
          elements = codes "html body";
          tree = codes "<html><head></head><body></body><!--a--></html>";
        } }
    // </frameset><frameset></frameset>
    ensures in_frameset { view_from (fragment_of (codes "frameset") []) (end (codes "frameset")
        ∷ start (codes "frameset") ∷ end (codes "frameset") ∷ [])
        ≡ record { mode = InFrameset; elements = codes "html"; tree = codes "<html><frameset></frameset></html>" } }
    // b<textarea><math/>x y<!DOCTYPE html PUBLIC '-//W3C//DTD HTML 4.01 Transitional//EN'> LF <xmp> LF
    // </textarea>a</rtc>
    ensures line_449 { view_from (fragment_of (codes "frameset") []) (words (codes "b") ∷ start (codes "textarea")
        ∷ start_closed (codes "math") ∷ words (codes "x y")
        ∷ public_doctype (codes "html") (codes "-//W3C//DTD HTML 4.01 Transitional//EN") ∷ words (codes "\n")
        ∷ start (codes "xmp") ∷ words (codes "\n") ∷ end (codes "textarea") ∷ words (codes "a") ∷ end (codes "rtc")
        ∷ [])
        ≡ record { mode = InFrameset; elements = codes "html"; tree = codes "<html> \n\n</html>" } }
    // <plaintext/><!DOCTYPE html PUBLIC '-//W3C//DTD HTML 4.01 Frameset//EN' 'y'><textarea/></textarea> NUL
    // </object> LF  <table>
    ensures line_530 { view_from (fragment_of (codes "frameset") []) (start_closed (codes "plaintext")
        ∷ system_doctype (codes "html") (codes "-//W3C//DTD HTML 4.01 Frameset//EN") (codes "y")
        ∷ start_closed (codes "textarea") ∷ end (codes "textarea") ∷ null ∷ end (codes "object") ∷ words (codes "\n ")
        ∷ start (codes "table") ∷ [])
        ≡ record { mode = InFrameset; elements = codes "html"; tree = codes "<html>\n </html>" } }
    // <td>a
    ensures in_template { view_from (fragment_of (codes "template") (InTemplate ∷ [])) (start (codes "td")
        ∷ words (codes "a") ∷ [])
        ≡ record { mode = InCell; elements = codes "html td"; tree = codes "<html><td>a</td></html>" } }
    // </template></p>a and the end
    ensures end_in_template { view_from (fragment_of (codes "template") (InTemplate ∷ [])) (end (codes "template")
        ∷ end (codes "p") ∷ words (codes "a") ∷ finished ∷ [])
        ≡ record { mode = InTemplate; elements = codes "html"; tree = codes "<html>a</html>" } }
{}
