//! The modes up to the body: what stands after a mark. Elements are named from the root on.
ghost use Rattle.std.specs.Prelude.{◌≡◌, [], ◌∷◌, codes};
ghost use Rattle.test_rules.specs.RowWords.{doctype_named, end, finished, null, remark, start, view, view_from};
ghost use Rattle.test_rules.specs.RowWords.{without_scripts, words};
ghost use Rattle.tree_predicates.specs.declared.modes.InsertionMode.TheVariants.{AfterAfterBody, AfterBody, AfterHead};
ghost use Rattle.tree_predicates.specs.declared.modes.InsertionMode.TheVariants.{BeforeHead, BeforeHtml, InBody};
ghost use Rattle.tree_predicates.specs.declared.modes.InsertionMode.TheVariants.{InFrameset, InHead, InHeadNoscript};
ghost use Rattle.tree_predicates.specs.declared.modes.InsertionMode.TheVariants.{InTemplate, Initial, Text};

#[tactic(auto, unfolding(tree_names::specs::Groups::tag_group, rules_table::specs::Actions::act))]
fn initial()
    // nothing
    ensures nothing { view ([])
        ≡ record { mode = Initial; elements = codes ""; tree = codes "" } }
    //   LF
    ensures white_space { view (words (codes " \n") ∷ [])
        ≡ record { mode = Initial; elements = codes ""; tree = codes "" } }
    // <!--a-->
    ensures comment { view (remark (codes "a") ∷ [])
        ≡ record { mode = Initial; elements = codes ""; tree = codes "<!--a-->" } }
    // <!doctype html>
    ensures doctype { view (doctype_named (codes "html") ∷ [])
        ≡ record { mode = BeforeHtml; elements = codes ""; tree = codes "<!html>" } }
    // <!--a--><!doctype html>
    ensures doctype_after_comment { view (remark (codes "a") ∷ doctype_named (codes "html") ∷ [])
        ≡ record { mode = BeforeHtml; elements = codes ""; tree = codes "<!--a--><!html>" } }
    // </p>
    ensures other_end { view (end (codes "p") ∷ [])
        ≡ record { mode = BeforeHtml; elements = codes ""; tree = codes "" } }
    // </head>
    ensures head_end { view (end (codes "head") ∷ [])
        ≡ record { mode = AfterHead; elements = codes "html"; tree = codes "<html><head></head></html>" } }
    // </br>
    ensures line_break_end { view (end (codes "br") ∷ [])
        ≡ record {
          mode = InBody;
          elements = codes "html body";
          tree = codes "<html><head></head><body><br></br></body></html>";
        } }
    // <html>
    ensures html_start { view (start (codes "html") ∷ [])
        ≡ record { mode = BeforeHead; elements = codes "html"; tree = codes "<html></html>" } }
    // a
    ensures text { view (words (codes "a") ∷ [])
        ≡ record {
          mode = InBody;
          elements = codes "html body";
          tree = codes "<html><head></head><body>a</body></html>";
        } }
    //  a
    ensures split_text { view (words (codes " a") ∷ [])
        ≡ record {
          mode = InBody;
          elements = codes "html body";
          tree = codes "<html><head></head><body>a</body></html>";
        } }
    //  NUL
    ensures nul { view (null ∷ [])
        ≡ record {
          mode = InBody;
          elements = codes "html body";
          tree = codes "<html><head></head><body></body></html>";
        } }
    //  and the end
    ensures page_end { view (finished ∷ [])
        ≡ record {
          mode = InBody;
          elements = codes "html body";
          tree = codes "<html><head></head><body></body></html>";
        } }
{}

#[tactic(auto, unfolding(tree_names::specs::Groups::tag_group, rules_table::specs::Actions::act))]
fn before_html()
    // <!doctype html>
    ensures white_space { view (doctype_named (codes "html") ∷ words (codes " ") ∷ [])
        ≡ record { mode = BeforeHtml; elements = codes ""; tree = codes "<!html>" } }
    // <!doctype html><!--a-->
    ensures comment { view (doctype_named (codes "html") ∷ remark (codes "a") ∷ [])
        ≡ record { mode = BeforeHtml; elements = codes ""; tree = codes "<!html><!--a-->" } }
    // <!doctype html><!doctype a>
    ensures doctype { view (doctype_named (codes "html") ∷ doctype_named (codes "a") ∷ [])
        ≡ record { mode = BeforeHtml; elements = codes ""; tree = codes "<!html>" } }
    // <!doctype html><html>
    ensures html_start { view (doctype_named (codes "html") ∷ start (codes "html") ∷ [])
        ≡ record { mode = BeforeHead; elements = codes "html"; tree = codes "<!html><html></html>" } }
    // <!doctype html><head>
    ensures head_start { view (doctype_named (codes "html") ∷ start (codes "head") ∷ [])
        ≡ record { mode = InHead; elements = codes "html head"; tree = codes "<!html><html><head></head></html>" } }
    // <!doctype html></p>
    ensures other_end { view (doctype_named (codes "html") ∷ end (codes "p") ∷ [])
        ≡ record { mode = BeforeHtml; elements = codes ""; tree = codes "<!html>" } }
    // <!doctype html></head>
    ensures head_end { view (doctype_named (codes "html") ∷ end (codes "head") ∷ [])
        ≡ record { mode = AfterHead; elements = codes "html"; tree = codes "<!html><html><head></head></html>" } }
    // <!doctype html></body>
    ensures body_end { view (doctype_named (codes "html") ∷ end (codes "body") ∷ [])
        ≡ record {
          mode = AfterBody;
          elements = codes "html body";
          tree = codes "<!html><html><head></head><body></body></html>";
        } }
    // <!doctype html></html>
    ensures html_end { view (doctype_named (codes "html") ∷ end (codes "html") ∷ [])
        ≡ record {
          mode = AfterAfterBody;
          elements = codes "html body";
          tree = codes "<!html><html><head></head><body></body></html>";
        } }
    // <!doctype html> a
    ensures split_text { view (doctype_named (codes "html") ∷ words (codes " a ") ∷ [])
        ≡ record {
          mode = InBody;
          elements = codes "html body";
          tree = codes "<!html><html><head></head><body>a </body></html>";
        } }
    // <!doctype html> and the end
    ensures page_end { view (doctype_named (codes "html") ∷ finished ∷ [])
        ≡ record {
          mode = InBody;
          elements = codes "html body";
          tree = codes "<!html><html><head></head><body></body></html>";
        } }
{}

#[tactic(auto, unfolding(tree_names::specs::Groups::tag_group, rules_table::specs::Actions::act))]
fn before_head()
    // <html>
    ensures white_space { view (start (codes "html") ∷ words (codes " ") ∷ [])
        ≡ record { mode = BeforeHead; elements = codes "html"; tree = codes "<html></html>" } }
    // <html><!--a-->
    ensures comment { view (start (codes "html") ∷ remark (codes "a") ∷ [])
        ≡ record { mode = BeforeHead; elements = codes "html"; tree = codes "<html><!--a--></html>" } }
    // <html><!doctype html>
    ensures doctype { view (start (codes "html") ∷ doctype_named (codes "html") ∷ [])
        ≡ record { mode = BeforeHead; elements = codes "html"; tree = codes "<html></html>" } }
    // <html><html>
    ensures html_start { view (start (codes "html") ∷ start (codes "html") ∷ [])
        ≡ record { mode = BeforeHead; elements = codes "html"; tree = codes "<html></html>" } }
    // <html><head>
    ensures head_start { view (start (codes "html") ∷ start (codes "head") ∷ [])
        ≡ record { mode = InHead; elements = codes "html head"; tree = codes "<html><head></head></html>" } }
    // <html><title>
    ensures title_start { view (start (codes "html") ∷ start (codes "title") ∷ [])
        ≡ record {
          mode = Text;
          elements = codes "html head title";
          tree = codes "<html><head><title></title></head></html>";
        } }
    // <html><p>
    ensures other_start { view (start (codes "html") ∷ start (codes "p") ∷ [])
        ≡ record {
          mode = InBody;
          elements = codes "html body p";
          tree = codes "<html><head></head><body><p></p></body></html>";
        } }
    // <html></p>
    ensures other_end { view (start (codes "html") ∷ end (codes "p") ∷ [])
        ≡ record { mode = BeforeHead; elements = codes "html"; tree = codes "<html></html>" } }
    // <html></head>
    ensures head_end { view (start (codes "html") ∷ end (codes "head") ∷ [])
        ≡ record { mode = AfterHead; elements = codes "html"; tree = codes "<html><head></head></html>" } }
    // <html></br>
    ensures line_break_end { view (start (codes "html") ∷ end (codes "br") ∷ [])
        ≡ record {
          mode = InBody;
          elements = codes "html body";
          tree = codes "<html><head></head><body><br></br></body></html>";
        } }
    // <html> NUL
    ensures nul { view (start (codes "html") ∷ null ∷ [])
        ≡ record {
          mode = InBody;
          elements = codes "html body";
          tree = codes "<html><head></head><body></body></html>";
        } }
    // <html> and the end
    ensures page_end { view (start (codes "html") ∷ finished ∷ [])
        ≡ record {
          mode = InBody;
          elements = codes "html body";
          tree = codes "<html><head></head><body></body></html>";
        } }
{}

#[tactic(auto, unfolding(tree_names::specs::Groups::tag_group, rules_table::specs::Actions::act))]
fn in_head()
    // <head>
    ensures white_space { view (start (codes "head") ∷ words (codes " ") ∷ [])
        ≡ record { mode = InHead; elements = codes "html head"; tree = codes "<html><head> </head></html>" } }
    // <head> a
    ensures split_text { view (start (codes "head") ∷ words (codes " a ") ∷ [])
        ≡ record {
          mode = InBody;
          elements = codes "html body";
          tree = codes "<html><head> </head><body>a </body></html>";
        } }
    // <head>  NUL
    ensures nul { view (start (codes "head") ∷ words (codes " ") ∷ null ∷ [])
        ≡ record {
          mode = InBody;
          elements = codes "html body";
          tree = codes "<html><head> </head><body></body></html>";
        } }
    // <head><!--a-->
    ensures comment { view (start (codes "head") ∷ remark (codes "a") ∷ [])
        ≡ record { mode = InHead; elements = codes "html head"; tree = codes "<html><head><!--a--></head></html>" } }
    // <head><!doctype html>
    ensures doctype { view (start (codes "head") ∷ doctype_named (codes "html") ∷ [])
        ≡ record { mode = InHead; elements = codes "html head"; tree = codes "<html><head></head></html>" } }
    // <head><html>
    ensures html_start { view (start (codes "head") ∷ start (codes "html") ∷ [])
        ≡ record { mode = InHead; elements = codes "html head"; tree = codes "<html><head></head></html>" } }
    // <head><base><link><meta>
    ensures void_starts { view (start (codes "head") ∷ start (codes "base") ∷ start (codes "link")
        ∷ start (codes "meta") ∷ [])
        ≡ record {
          mode = InHead;
          elements = codes "html head";
          tree = codes "<html><head><base></base><link></link><meta></meta></head></html>";
        } }
    // <head><title>
    ensures title_start { view (start (codes "head") ∷ start (codes "title") ∷ [])
        ≡ record {
          mode = Text;
          elements = codes "html head title";
          tree = codes "<html><head><title></title></head></html>";
        } }
    // <head><script>
    ensures script_start { view (start (codes "head") ∷ start (codes "script") ∷ [])
        ≡ record {
          mode = Text;
          elements = codes "html head script";
          tree = codes "<html><head><script></script></head></html>";
        } }
    // <head><noscript>
    ensures noscript_start { view (start (codes "head") ∷ start (codes "noscript") ∷ [])
        ≡ record {
          mode = Text;
          elements = codes "html head noscript";
          tree = codes "<html><head><noscript></noscript></head></html>";
        } }
    // <head><template>
    ensures template_start { view (start (codes "head") ∷ start (codes "template") ∷ [])
        ≡ record {
          mode = InTemplate;
          elements = codes "html head template";
          tree = codes "<html><head><template></template></head></html>";
        } }
    // <head><template></template>
    ensures template_end { view (start (codes "head") ∷ start (codes "template") ∷ end (codes "template") ∷ [])
        ≡ record {
          mode = InHead;
          elements = codes "html head";
          tree = codes "<html><head><template></template></head></html>";
        } }
    // <head></template>
    ensures lone_template_end { view (start (codes "head") ∷ end (codes "template") ∷ [])
        ≡ record { mode = InHead; elements = codes "html head"; tree = codes "<html><head></head></html>" } }
    // <head><head>
    ensures head_start { view (start (codes "head") ∷ start (codes "head") ∷ [])
        ≡ record { mode = InHead; elements = codes "html head"; tree = codes "<html><head></head></html>" } }
    // <head></head>
    ensures head_end { view (start (codes "head") ∷ end (codes "head") ∷ [])
        ≡ record { mode = AfterHead; elements = codes "html"; tree = codes "<html><head></head></html>" } }
    // <head></p>
    ensures other_end { view (start (codes "head") ∷ end (codes "p") ∷ [])
        ≡ record { mode = InHead; elements = codes "html head"; tree = codes "<html><head></head></html>" } }
    // <head></body>
    ensures body_end { view (start (codes "head") ∷ end (codes "body") ∷ [])
        ≡ record {
          mode = AfterBody;
          elements = codes "html body";
          tree = codes "<html><head></head><body></body></html>";
        } }
    // <head></br>
    ensures line_break_end { view (start (codes "head") ∷ end (codes "br") ∷ [])
        ≡ record {
          mode = InBody;
          elements = codes "html body";
          tree = codes "<html><head></head><body><br></br></body></html>";
        } }
    // <head><body>
    ensures body_start { view (start (codes "head") ∷ start (codes "body") ∷ [])
        ≡ record {
          mode = InBody;
          elements = codes "html body";
          tree = codes "<html><head></head><body></body></html>";
        } }
    // <head> and the end
    ensures page_end { view (start (codes "head") ∷ finished ∷ [])
        ≡ record {
          mode = InBody;
          elements = codes "html body";
          tree = codes "<html><head></head><body></body></html>";
        } }
{}

#[tactic(auto, unfolding(tree_names::specs::Groups::tag_group, rules_table::specs::Actions::act))]
fn in_head_noscript()
    // <head><noscript>
    ensures opened { view_from without_scripts (start (codes "head") ∷ start (codes "noscript") ∷ [])
        ≡ record {
          mode = InHeadNoscript;
          elements = codes "html head noscript";
          tree = codes "<html><head><noscript></noscript></head></html>";
        } }
    // <head><noscript>
    ensures white_space { view_from without_scripts (start (codes "head") ∷ start (codes "noscript")
        ∷ words (codes " ") ∷ [])
        ≡ record {
          mode = InHeadNoscript;
          elements = codes "html head noscript";
          tree = codes "<html><head><noscript> </noscript></head></html>";
        } }
    // <head><noscript> a
    ensures split_text { view_from without_scripts (start (codes "head") ∷ start (codes "noscript")
        ∷ words (codes " a") ∷ [])
        ≡ record {
          mode = InBody;
          elements = codes "html body";
          tree = codes "<html><head><noscript> </noscript></head><body>a</body></html>";
        } }
    // <head><noscript><!--a-->
    ensures comment { view_from without_scripts (start (codes "head") ∷ start (codes "noscript") ∷ remark (codes "a")
        ∷ [])
        ≡ record {
          mode = InHeadNoscript;
          elements = codes "html head noscript";
          tree = codes "<html><head><noscript><!--a--></noscript></head></html>";
        } }
    // <head><noscript><!doctype html>
    ensures doctype { view_from without_scripts (start (codes "head") ∷ start (codes "noscript")
        ∷ doctype_named (codes "html") ∷ [])
        ≡ record {
          mode = InHeadNoscript;
          elements = codes "html head noscript";
          tree = codes "<html><head><noscript></noscript></head></html>";
        } }
    // <head><noscript><html>
    ensures html_start { view_from without_scripts (start (codes "head") ∷ start (codes "noscript")
        ∷ start (codes "html") ∷ [])
        ≡ record {
          mode = InHeadNoscript;
          elements = codes "html head noscript";
          tree = codes "<html><head><noscript></noscript></head></html>";
        } }
    // <head><noscript><link>
    ensures link_start { view_from without_scripts (start (codes "head") ∷ start (codes "noscript")
        ∷ start (codes "link") ∷ [])
        ≡ record {
          mode = InHeadNoscript;
          elements = codes "html head noscript";
          tree = codes "<html><head><noscript><link></link></noscript></head></html>";
        } }
    // <head><noscript><base>
    ensures base_start { view_from without_scripts (start (codes "head") ∷ start (codes "noscript")
        ∷ start (codes "base") ∷ [])
        ≡ record {
          mode = InHead;
          elements = codes "html head";
          tree = codes "<html><head><noscript></noscript><base></base></head></html>";
        } }
    // <head><noscript><style>
    ensures style_start { view_from without_scripts (start (codes "head") ∷ start (codes "noscript")
        ∷ start (codes "style") ∷ [])
        ≡ record {
          mode = Text;
          elements = codes "html head noscript style";
          tree = codes "<html><head><noscript><style></style></noscript></head></html>";
        } }
    // <head><noscript><style></style>
    ensures style_end { view_from without_scripts (start (codes "head") ∷ start (codes "noscript")
        ∷ start (codes "style") ∷ end (codes "style") ∷ [])
        ≡ record {
          mode = InHeadNoscript;
          elements = codes "html head noscript";
          tree = codes "<html><head><noscript><style></style></noscript></head></html>";
        } }
    // <head><noscript><title>
    ensures title_start { view_from without_scripts (start (codes "head") ∷ start (codes "noscript")
        ∷ start (codes "title") ∷ [])
        ≡ record {
          mode = Text;
          elements = codes "html head title";
          tree = codes "<html><head><noscript></noscript><title></title></head></html>";
        } }
    // <head><noscript><head><noscript>
    ensures ignored_starts { view_from without_scripts (start (codes "head") ∷ start (codes "noscript")
        ∷ start (codes "head") ∷ start (codes "noscript") ∷ [])
        ≡ record {
          mode = InHeadNoscript;
          elements = codes "html head noscript";
          tree = codes "<html><head><noscript></noscript></head></html>";
        } }
    // <head><noscript></noscript>
    ensures noscript_end { view_from without_scripts (start (codes "head") ∷ start (codes "noscript")
        ∷ end (codes "noscript") ∷ [])
        ≡ record {
          mode = InHead;
          elements = codes "html head";
          tree = codes "<html><head><noscript></noscript></head></html>";
        } }
    // <head><noscript></p></head>
    ensures ignored_ends { view_from without_scripts (start (codes "head") ∷ start (codes "noscript")
        ∷ end (codes "p") ∷ end (codes "head") ∷ [])
        ≡ record {
          mode = InHeadNoscript;
          elements = codes "html head noscript";
          tree = codes "<html><head><noscript></noscript></head></html>";
        } }
    // <head><noscript></br>
    ensures line_break_end { view_from without_scripts (start (codes "head") ∷ start (codes "noscript")
        ∷ end (codes "br") ∷ [])
        ≡ record {
          mode = InBody;
          elements = codes "html body";
          tree = codes "<html><head><noscript></noscript></head><body><br></br></body></html>";
        } }
    // <head><noscript> and the end
    ensures page_end { view_from without_scripts (start (codes "head") ∷ start (codes "noscript") ∷ finished ∷ [])
        ≡ record {
          mode = InBody;
          elements = codes "html body";
          tree = codes "<html><head><noscript></noscript></head><body></body></html>";
        } }
{}

#[tactic(auto, unfolding(tree_names::specs::Groups::tag_group, rules_table::specs::Actions::act))]
fn after_head()
    // <head></head>
    ensures white_space { view (start (codes "head") ∷ end (codes "head") ∷ words (codes " ") ∷ [])
        ≡ record { mode = AfterHead; elements = codes "html"; tree = codes "<html><head></head> </html>" } }
    // <head></head> a
    ensures split_text { view (start (codes "head") ∷ end (codes "head") ∷ words (codes " a ") ∷ [])
        ≡ record {
          mode = InBody;
          elements = codes "html body";
          tree = codes "<html><head></head> <body>a </body></html>";
        } }
    // <head></head> NUL
    ensures nul { view (start (codes "head") ∷ end (codes "head") ∷ null ∷ [])
        ≡ record {
          mode = InBody;
          elements = codes "html body";
          tree = codes "<html><head></head><body></body></html>";
        } }
    // <head></head><!--a-->
    ensures comment { view (start (codes "head") ∷ end (codes "head") ∷ remark (codes "a") ∷ [])
        ≡ record { mode = AfterHead; elements = codes "html"; tree = codes "<html><head></head><!--a--></html>" } }
    // <head></head><!doctype html>
    ensures doctype { view (start (codes "head") ∷ end (codes "head") ∷ doctype_named (codes "html") ∷ [])
        ≡ record { mode = AfterHead; elements = codes "html"; tree = codes "<html><head></head></html>" } }
    // <head></head><html>
    ensures html_start { view (start (codes "head") ∷ end (codes "head") ∷ start (codes "html") ∷ [])
        ≡ record { mode = AfterHead; elements = codes "html"; tree = codes "<html><head></head></html>" } }
    // <head></head><body>
    ensures body_start { view (start (codes "head") ∷ end (codes "head") ∷ start (codes "body") ∷ [])
        ≡ record {
          mode = InBody;
          elements = codes "html body";
          tree = codes "<html><head></head><body></body></html>";
        } }
    // <head></head><frameset>
    ensures frameset_start { view (start (codes "head") ∷ end (codes "head") ∷ start (codes "frameset") ∷ [])
        ≡ record {
          mode = InFrameset;
          elements = codes "html frameset";
          tree = codes "<html><head></head><frameset></frameset></html>";
        } }
    // <head></head><meta>
    ensures meta_start { view (start (codes "head") ∷ end (codes "head") ∷ start (codes "meta") ∷ [])
        ≡ record {
          mode = AfterHead;
          elements = codes "html";
          tree = codes "<html><head><meta></meta></head></html>";
        } }
    // <head></head><title>
    ensures title_start { view (start (codes "head") ∷ end (codes "head") ∷ start (codes "title") ∷ [])
        ≡ record {
          mode = Text;
          elements = codes "html title";
          tree = codes "<html><head><title></title></head></html>";
        } }
    // <head></head><title></title>
    ensures title_end { view (start (codes "head") ∷ end (codes "head") ∷ start (codes "title") ∷ end (codes "title")
        ∷ [])
        ≡ record {
          mode = AfterHead;
          elements = codes "html";
          tree = codes "<html><head><title></title></head></html>";
        } }
    // <head></head><noscript>
    ensures noscript_start { view (start (codes "head") ∷ end (codes "head") ∷ start (codes "noscript") ∷ [])
        ≡ record {
          mode = Text;
          elements = codes "html body noscript";
          tree = codes "<html><head></head><body><noscript></noscript></body></html>";
        } }
    // <head></head><template>
    ensures template_start { view (start (codes "head") ∷ end (codes "head") ∷ start (codes "template") ∷ [])
        ≡ record {
          mode = InTemplate;
          elements = codes "html template";
          tree = codes "<html><head><template></template></head></html>";
        } }
    // <head></head><template></template>
    ensures template_end { view (start (codes "head") ∷ end (codes "head") ∷ start (codes "template")
        ∷ end (codes "template") ∷ [])
        ≡ record {
          mode = AfterHead;
          elements = codes "html";
          tree = codes "<html><head><template></template></head></html>";
        } }
    // <head></head><head>
    ensures head_start { view (start (codes "head") ∷ end (codes "head") ∷ start (codes "head") ∷ [])
        ≡ record { mode = AfterHead; elements = codes "html"; tree = codes "<html><head></head></html>" } }
    // <head></head></p></head></template>
    ensures ignored_ends { view (start (codes "head") ∷ end (codes "head") ∷ end (codes "p") ∷ end (codes "head")
        ∷ end (codes "template") ∷ [])
        ≡ record { mode = AfterHead; elements = codes "html"; tree = codes "<html><head></head></html>" } }
    // <head></head></body>
    ensures body_end { view (start (codes "head") ∷ end (codes "head") ∷ end (codes "body") ∷ [])
        ≡ record {
          mode = AfterBody;
          elements = codes "html body";
          tree = codes "<html><head></head><body></body></html>";
        } }
    // <head></head></html>
    ensures html_end { view (start (codes "head") ∷ end (codes "head") ∷ end (codes "html") ∷ [])
        ≡ record {
          mode = AfterAfterBody;
          elements = codes "html body";
          tree = codes "<html><head></head><body></body></html>";
        } }
    // <head></head></br>
    ensures line_break_end { view (start (codes "head") ∷ end (codes "head") ∷ end (codes "br") ∷ [])
        ≡ record {
          mode = InBody;
          elements = codes "html body";
          tree = codes "<html><head></head><body><br></br></body></html>";
        } }
    // <head></head> and the end
    ensures page_end { view (start (codes "head") ∷ end (codes "head") ∷ finished ∷ [])
        ≡ record {
          mode = InBody;
          elements = codes "html body";
          tree = codes "<html><head></head><body></body></html>";
        } }
{}
