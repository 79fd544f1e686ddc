//! The modes of templates and framesets: what stands after a mark. Elements are named from the root on.
ghost use Rattle.std.specs.Prelude.{◌≡◌, [], ◌∷◌, ◌++◌, codes};
ghost use Rattle.test_rules.specs.RowWords.{doctype_named, end, finished, null, remark, start, view, words};
ghost use Rattle.tree_predicates.specs.declared.modes.InsertionMode.TheVariants.{AfterAfterFrameset, AfterFrameset};
ghost use Rattle.tree_predicates.specs.declared.modes.InsertionMode.TheVariants.{InBody, InCaption, InCell};
ghost use Rattle.tree_predicates.specs.declared.modes.InsertionMode.TheVariants.{InColumnGroup, InFrameset, InHead};
ghost use Rattle.tree_predicates.specs.declared.modes.InsertionMode.TheVariants.{InRow, InTableBody, InTableText};
ghost use Rattle.tree_predicates.specs.declared.modes.InsertionMode.TheVariants.{InTemplate, Text};

#[tactic(auto, unfolding(tree_names::specs::Groups::tag_group, rules_table::specs::Actions::act))]
fn in_template()
    // <template> a NUL
    ensures text { view (start (codes "template") ∷ words (codes " a") ∷ null ∷ [])
        ≡ record {
          mode = InTemplate;
          elements = codes "html head template";
          tree = codes "<html><head><template> a</template></head></html>";
        } }
    // <template><!--a-->
    ensures comment { view (start (codes "template") ∷ remark (codes "a") ∷ [])
        ≡ record {
          mode = InTemplate;
          elements = codes "html head template";
          tree = codes "<html><head><template><!--a--></template></head></html>";
        } }
    // <template><!doctype html>
    ensures doctype { view (start (codes "template") ∷ doctype_named (codes "html") ∷ [])
        ≡ record {
          mode = InTemplate;
          elements = codes "html head template";
          tree = codes "<html><head><template></template></head></html>";
        } }
    // <template><title>
    ensures title_start { view (start (codes "template") ∷ start (codes "title") ∷ [])
        ≡ record {
          mode = Text;
          elements = codes "html head template title";
          tree = codes "<html><head><template><title></title></template></head></html>";
        } }
    // <template><template>
    ensures template_start { view (start (codes "template") ∷ start (codes "template") ∷ [])
        ≡ record {
          mode = InTemplate;
          elements = codes "html head template template";
          tree = codes "<html><head><template><template></template></template></head></html>";
        } }
    // <template><p></template>
    ensures template_end { view (start (codes "template") ∷ start (codes "p") ∷ end (codes "template") ∷ [])
        ≡ record {
          mode = InHead;
          elements = codes "html head";
          tree = codes "<html><head><template><p></p></template></head></html>";
        } }
    // <template></p></br></body>
    ensures other_end { view (start (codes "template") ∷ end (codes "p") ∷ end (codes "br") ∷ end (codes "body") ∷ [])
        ≡ record {
          mode = InTemplate;
          elements = codes "html head template";
          tree = codes "<html><head><template></template></head></html>";
        } }
    // <template><p>
    ensures other_start { view (start (codes "template") ∷ start (codes "p") ∷ [])
        ≡ record {
          mode = InBody;
          elements = codes "html head template p";
          tree = codes "<html><head><template><p></p></template></head></html>";
        } }
    // <template><html><tr>
    ensures html_start { view (start (codes "template") ∷ start (codes "html") ∷ start (codes "tr") ∷ [])
        ≡ record {
          mode = InBody;
          elements = codes "html head template";
          tree = codes "<html><head><template></template></head></html>";
        } }
    // <template><frameset>
    ensures frameset_start { view (start (codes "template") ∷ start (codes "frameset") ∷ [])
        ≡ record {
          mode = InBody;
          elements = codes "html head template";
          tree = codes "<html><head><template></template></head></html>";
        } }
    // <template><caption>
    ensures caption_start { view (start (codes "template") ∷ start (codes "caption") ∷ [])
        ≡ record {
          mode = InCaption;
          elements = codes "html head template caption";
          tree = codes "<html><head><template><caption></caption></template></head></html>";
        } }
    // <template><colgroup>
    ensures column_group_start { view (start (codes "template") ∷ start (codes "colgroup") ∷ [])
        ≡ record {
          mode = InColumnGroup;
          elements = codes "html head template colgroup";
          tree = codes "<html><head><template><colgroup></colgroup></template></head></html>";
        } }
    // <template><col>
    ensures column_start { view (start (codes "template") ∷ start (codes "col") ∷ [])
        ≡ record {
          mode = InColumnGroup;
          elements = codes "html head template";
          tree = codes "<html><head><template><col></col></template></head></html>";
        } }
    // <template><tbody>
    ensures section_start { view (start (codes "template") ∷ start (codes "tbody") ∷ [])
        ≡ record {
          mode = InTableBody;
          elements = codes "html head template tbody";
          tree = codes "<html><head><template><tbody></tbody></template></head></html>";
        } }
    // <template><tr>
    ensures row_start { view (start (codes "template") ∷ start (codes "tr") ∷ [])
        ≡ record {
          mode = InRow;
          elements = codes "html head template tr";
          tree = codes "<html><head><template><tr></tr></template></head></html>";
        } }
    // <template><td>
    ensures cell_start { view (start (codes "template") ∷ start (codes "td") ∷ [])
        ≡ record {
          mode = InCell;
          elements = codes "html head template td";
          tree = codes "<html><head><template><td></td></template></head></html>";
        } }
    // <template><tr></tr><td>
    ensures cell_after_row { view (start (codes "template") ∷ start (codes "tr") ∷ end (codes "tr")
        ∷ start (codes "td") ∷ [])
        ≡ record {
          mode = InCell;
          elements = codes "html head template tr td";
          tree = codes "<html><head><template><tr></tr><tr><td></td></tr></template></head></html>";
        } }
    // <template><tr></tr><caption>a
    ensures ignored_caption { view (start (codes "template") ∷ start (codes "tr") ∷ end (codes "tr")
        ∷ start (codes "caption") ∷ words (codes "a") ∷ [])
        ≡ record {
          mode = InTableText;
          elements = codes "html head template";
          tree = codes "<html><head><template><tr></tr></template></head></html>";
        } }
    // <template><template><td></template><tr>
    ensures back_to_outer { view (start (codes "template") ∷ start (codes "template") ∷ start (codes "td")
        ∷ end (codes "template") ∷ start (codes "tr") ∷ [])
        ≡ record {
          mode = InRow;
          elements = codes "html head template tr";
          tree = codes "<html><head><template><template><td></td></template><tr></tr></template></head></html>";
        } }
    // <template><p> and the end
    ensures page_end { view (start (codes "template") ∷ start (codes "p") ∷ finished ∷ [])
        ≡ record {
          mode = InBody;
          elements = codes "html body";
          tree = codes "<html><head><template><p></p></template></head><body></body></html>";
        } }
    // <p><template></template>
    ensures in_body { view (start (codes "p") ∷ start (codes "template") ∷ end (codes "template") ∷ [])
        ≡ record {
          mode = InBody;
          elements = codes "html body p";
          tree = codes "<html><head></head><body><p><template></template></p></body></html>";
        } }
    // <form><template><form></template>
    ensures form_in_template { view (start (codes "form") ∷ start (codes "template") ∷ start (codes "form")
        ∷ end (codes "template") ∷ [])
        ≡ record {
          mode = InBody;
          elements = codes "html body form";
          tree = codes "<html><head></head><body><form><template><form></form></template></form></body></html>";
        } }
    // <table><tr><template><p></template>
    ensures in_row { view (start (codes "table") ∷ start (codes "tr") ∷ start (codes "template") ∷ start (codes "p")
        ∷ end (codes "template") ∷ [])
        ≡ record {
          mode = InRow;
          elements = codes "html body table tbody tr";
          tree =
              codes "<html><head></head><body><table><tbody><tr><template><p></p></template></tr></tbody>"
              ++ codes "</table></body></html>";
        } }
{}

#[tactic(auto, unfolding(tree_names::specs::Groups::tag_group, rules_table::specs::Actions::act))]
fn in_frameset()
    // <frameset> a NUL
    ensures white_space { view (start (codes "frameset") ∷ words (codes " a") ∷ null ∷ words (codes " ") ∷ [])
        ≡ record {
          mode = InFrameset;
          elements = codes "html frameset";
          tree = codes "<html><head></head><frameset>  </frameset></html>";
        } }
    // <frameset><!--a-->
    ensures comment { view (start (codes "frameset") ∷ remark (codes "a") ∷ [])
        ≡ record {
          mode = InFrameset;
          elements = codes "html frameset";
          tree = codes "<html><head></head><frameset><!--a--></frameset></html>";
        } }
    // <frameset><!doctype html>
    ensures doctype { view (start (codes "frameset") ∷ doctype_named (codes "html") ∷ [])
        ≡ record {
          mode = InFrameset;
          elements = codes "html frameset";
          tree = codes "<html><head></head><frameset></frameset></html>";
        } }
    // <frameset><html>
    ensures html_start { view (start (codes "frameset") ∷ start (codes "html") ∷ [])
        ≡ record {
          mode = InFrameset;
          elements = codes "html frameset";
          tree = codes "<html><head></head><frameset></frameset></html>";
        } }
    // <frameset><frame>
    ensures frame_start { view (start (codes "frameset") ∷ start (codes "frame") ∷ [])
        ≡ record {
          mode = InFrameset;
          elements = codes "html frameset";
          tree = codes "<html><head></head><frameset><frame></frame></frameset></html>";
        } }
    // <frameset><frameset>
    ensures frameset_start { view (start (codes "frameset") ∷ start (codes "frameset") ∷ [])
        ≡ record {
          mode = InFrameset;
          elements = codes "html frameset frameset";
          tree = codes "<html><head></head><frameset><frameset></frameset></frameset></html>";
        } }
    // <frameset><frameset></frameset>
    ensures inner_frameset_end { view (start (codes "frameset") ∷ start (codes "frameset") ∷ end (codes "frameset")
        ∷ [])
        ≡ record {
          mode = InFrameset;
          elements = codes "html frameset";
          tree = codes "<html><head></head><frameset><frameset></frameset></frameset></html>";
        } }
    // <frameset></frameset>
    ensures frameset_end { view (start (codes "frameset") ∷ end (codes "frameset") ∷ [])
        ≡ record {
          mode = AfterFrameset;
          elements = codes "html";
          tree = codes "<html><head></head><frameset></frameset></html>";
        } }
    // <frameset><noframes>
    ensures noframes_start { view (start (codes "frameset") ∷ start (codes "noframes") ∷ [])
        ≡ record {
          mode = Text;
          elements = codes "html frameset noframes";
          tree = codes "<html><head></head><frameset><noframes></noframes></frameset></html>";
        } }
    // <frameset><noframes></noframes>
    ensures noframes_end { view (start (codes "frameset") ∷ start (codes "noframes") ∷ end (codes "noframes") ∷ [])
        ≡ record {
          mode = InFrameset;
          elements = codes "html frameset";
          tree = codes "<html><head></head><frameset><noframes></noframes></frameset></html>";
        } }
    // <frameset><p></p><meta></html></template>
    ensures ignored_tags { view (start (codes "frameset") ∷ start (codes "p") ∷ end (codes "p") ∷ start (codes "meta")
        ∷ end (codes "html") ∷ end (codes "template") ∷ [])
        ≡ record {
          mode = InFrameset;
          elements = codes "html frameset";
          tree = codes "<html><head></head><frameset></frameset></html>";
        } }
    // <frameset> and the end
    ensures page_end { view (start (codes "frameset") ∷ finished ∷ [])
        ≡ record {
          mode = InFrameset;
          elements = codes "html frameset";
          tree = codes "<html><head></head><frameset></frameset></html>";
        } }
{}

#[tactic(auto, unfolding(tree_names::specs::Groups::tag_group, rules_table::specs::Actions::act))]
fn after_frameset()
    // <frameset></frameset> a NUL
    ensures white_space { view (start (codes "frameset") ∷ end (codes "frameset") ∷ words (codes " a") ∷ null
        ∷ words (codes " ") ∷ [])
        ≡ record {
          mode = AfterFrameset;
          elements = codes "html";
          tree = codes "<html><head></head><frameset></frameset>  </html>";
        } }
    // <frameset></frameset><!--a-->
    ensures comment { view (start (codes "frameset") ∷ end (codes "frameset") ∷ remark (codes "a") ∷ [])
        ≡ record {
          mode = AfterFrameset;
          elements = codes "html";
          tree = codes "<html><head></head><frameset></frameset><!--a--></html>";
        } }
    // <frameset></frameset><!doctype html>
    ensures doctype { view (start (codes "frameset") ∷ end (codes "frameset") ∷ doctype_named (codes "html") ∷ [])
        ≡ record {
          mode = AfterFrameset;
          elements = codes "html";
          tree = codes "<html><head></head><frameset></frameset></html>";
        } }
    // <frameset></frameset><html>
    ensures html_start { view (start (codes "frameset") ∷ end (codes "frameset") ∷ start (codes "html") ∷ [])
        ≡ record {
          mode = AfterFrameset;
          elements = codes "html";
          tree = codes "<html><head></head><frameset></frameset></html>";
        } }
    // <frameset></frameset></html>
    ensures html_end { view (start (codes "frameset") ∷ end (codes "frameset") ∷ end (codes "html") ∷ [])
        ≡ record {
          mode = AfterAfterFrameset;
          elements = codes "html";
          tree = codes "<html><head></head><frameset></frameset></html>";
        } }
    // <frameset></frameset><noframes>
    ensures noframes_start { view (start (codes "frameset") ∷ end (codes "frameset") ∷ start (codes "noframes") ∷ [])
        ≡ record {
          mode = Text;
          elements = codes "html noframes";
          tree = codes "<html><head></head><frameset></frameset><noframes></noframes></html>";
        } }
    // <frameset></frameset><frameset></frameset><frame><p></body>
    ensures ignored_tags { view (start (codes "frameset") ∷ end (codes "frameset") ∷ start (codes "frameset")
        ∷ end (codes "frameset") ∷ start (codes "frame") ∷ start (codes "p") ∷ end (codes "body") ∷ [])
        ≡ record {
          mode = AfterFrameset;
          elements = codes "html";
          tree = codes "<html><head></head><frameset></frameset></html>";
        } }
    // <frameset></frameset> and the end
    ensures page_end { view (start (codes "frameset") ∷ end (codes "frameset") ∷ finished ∷ [])
        ≡ record {
          mode = AfterFrameset;
          elements = codes "html";
          tree = codes "<html><head></head><frameset></frameset></html>";
        } }
{}

#[tactic(auto, unfolding(tree_names::specs::Groups::tag_group, rules_table::specs::Actions::act))]
fn after_after_frameset()
    // <frameset></frameset></html> a NUL
    ensures white_space { view (start (codes "frameset") ∷ end (codes "frameset") ∷ end (codes "html")
        ∷ words (codes " a") ∷ null ∷ words (codes " ") ∷ [])
        ≡ record {
          mode = AfterAfterFrameset;
          elements = codes "html";
          tree = codes "<html><head></head><frameset></frameset>  </html>";
        } }
    // <frameset></frameset></html><!--a-->
    ensures comment { view (start (codes "frameset") ∷ end (codes "frameset") ∷ end (codes "html")
        ∷ remark (codes "a") ∷ [])
        ≡ record {
          mode = AfterAfterFrameset;
          elements = codes "html";
          tree = codes "<html><head></head><frameset></frameset></html><!--a-->";
        } }
    // <frameset></frameset></html><!doctype html>
    ensures doctype { view (start (codes "frameset") ∷ end (codes "frameset") ∷ end (codes "html")
        ∷ doctype_named (codes "html") ∷ [])
        ≡ record {
          mode = AfterAfterFrameset;
          elements = codes "html";
          tree = codes "<html><head></head><frameset></frameset></html>";
        } }
    // <frameset></frameset></html><html>
    ensures html_start { view (start (codes "frameset") ∷ end (codes "frameset") ∷ end (codes "html")
        ∷ start (codes "html") ∷ [])
        ≡ record {
          mode = AfterAfterFrameset;
          elements = codes "html";
          tree = codes "<html><head></head><frameset></frameset></html>";
        } }
    // <frameset></frameset></html><noframes>
    ensures noframes_start { view (start (codes "frameset") ∷ end (codes "frameset") ∷ end (codes "html")
        ∷ start (codes "noframes") ∷ [])
        ≡ record {
          mode = Text;
          elements = codes "html noframes";
          tree = codes "<html><head></head><frameset></frameset><noframes></noframes></html>";
        } }
    // <frameset></frameset></html><noframes></noframes>
    ensures noframes_end { view (start (codes "frameset") ∷ end (codes "frameset") ∷ end (codes "html")
        ∷ start (codes "noframes") ∷ end (codes "noframes") ∷ [])
        ≡ record {
          mode = AfterAfterFrameset;
          elements = codes "html";
          tree = codes "<html><head></head><frameset></frameset><noframes></noframes></html>";
        } }
    // <frameset></frameset></html><frameset></frameset></html><frame><p>
    ensures ignored_tags { view (start (codes "frameset") ∷ end (codes "frameset") ∷ end (codes "html")
        ∷ start (codes "frameset") ∷ end (codes "frameset") ∷ end (codes "html") ∷ start (codes "frame")
        ∷ start (codes "p") ∷ [])
        ≡ record {
          mode = AfterAfterFrameset;
          elements = codes "html";
          tree = codes "<html><head></head><frameset></frameset></html>";
        } }
    // <frameset></frameset></html> and the end
    ensures page_end { view (start (codes "frameset") ∷ end (codes "frameset") ∷ end (codes "html") ∷ finished ∷ [])
        ≡ record {
          mode = AfterAfterFrameset;
          elements = codes "html";
          tree = codes "<html><head></head><frameset></frameset></html>";
        } }
{}
