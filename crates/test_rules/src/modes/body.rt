//! In the body: what stands after a mark. Elements are named from the root on.
ghost use Rattle.std.specs.Prelude.{◌≡◌, [], ◌∷◌, codes};
ghost use Rattle.test_rules.specs.RowWords.{doctype_named, end, finished, null, remark, start, start_with, view, words};
ghost use Rattle.tree_predicates.specs.declared.modes.InsertionMode.TheVariants.{AfterAfterBody, AfterBody, InBody};
ghost use Rattle.tree_predicates.specs.declared.modes.InsertionMode.TheVariants.{InFrameset, InTemplate, Text};

#[tactic(auto, unfolding(tree_names::specs::Groups::tag_group, rules_table::specs::Actions::act))]
fn in_body()
    // <body>
    ensures white_space { view (start (codes "body") ∷ words (codes " ") ∷ [])
        ≡ record {
          mode = InBody;
          elements = codes "html body";
          tree = codes "<html><head></head><body> </body></html>";
        } }
    // <body>a NUL b
    ensures nul { view (start (codes "body") ∷ words (codes "a") ∷ null ∷ words (codes "b") ∷ [])
        ≡ record {
          mode = InBody;
          elements = codes "html body";
          tree = codes "<html><head></head><body>ab</body></html>";
        } }
    // <body><!--a-->
    ensures comment { view (start (codes "body") ∷ remark (codes "a") ∷ [])
        ≡ record {
          mode = InBody;
          elements = codes "html body";
          tree = codes "<html><head></head><body><!--a--></body></html>";
        } }
    // <body><!doctype html>
    ensures doctype { view (start (codes "body") ∷ doctype_named (codes "html") ∷ [])
        ≡ record {
          mode = InBody;
          elements = codes "html body";
          tree = codes "<html><head></head><body></body></html>";
        } }
    // <body><html><body>
    ensures html_and_body_starts { view (start (codes "body") ∷ start (codes "html") ∷ start (codes "body") ∷ [])
        ≡ record {
          mode = InBody;
          elements = codes "html body";
          tree = codes "<html><head></head><body></body></html>";
        } }
    // <body><frameset>
    ensures frameset_start { view (start (codes "body") ∷ start (codes "frameset") ∷ [])
        ≡ record {
          mode = InBody;
          elements = codes "html body";
          tree = codes "<html><head></head><body></body></html>";
        } }
    // <body><link><meta>
    ensures in_head_starts { view (start (codes "body") ∷ start (codes "link") ∷ start (codes "meta") ∷ [])
        ≡ record {
          mode = InBody;
          elements = codes "html body";
          tree = codes "<html><head></head><body><link></link><meta></meta></body></html>";
        } }
    // <body><title>
    ensures title_start { view (start (codes "body") ∷ start (codes "title") ∷ [])
        ≡ record {
          mode = Text;
          elements = codes "html body title";
          tree = codes "<html><head></head><body><title></title></body></html>";
        } }
    // <body><template>
    ensures template_start { view (start (codes "body") ∷ start (codes "template") ∷ [])
        ≡ record {
          mode = InTemplate;
          elements = codes "html body template";
          tree = codes "<html><head></head><body><template></template></body></html>";
        } }
    // <body><caption><col><colgroup><tbody><tr><td><frame><head>a
    ensures parts_of_tables { view (start (codes "body") ∷ start (codes "caption") ∷ start (codes "col")
        ∷ start (codes "colgroup") ∷ start (codes "tbody") ∷ start (codes "tr") ∷ start (codes "td")
        ∷ start (codes "frame") ∷ start (codes "head") ∷ words (codes "a") ∷ [])
        ≡ record {
          mode = InBody;
          elements = codes "html body";
          tree = codes "<html><head></head><body>a</body></html>";
        } }
    // <body><p></body>
    ensures body_end { view (start (codes "body") ∷ start (codes "p") ∷ end (codes "body") ∷ [])
        ≡ record {
          mode = AfterBody;
          elements = codes "html body p";
          tree = codes "<html><head></head><body><p></p></body></html>";
        } }
    // <body></html>
    ensures html_end { view (start (codes "body") ∷ end (codes "html") ∷ [])
        ≡ record {
          mode = AfterAfterBody;
          elements = codes "html body";
          tree = codes "<html><head></head><body></body></html>";
        } }
    // <body><select></body>
    ensures barred_body_end { view (start (codes "body") ∷ start (codes "select") ∷ end (codes "body") ∷ [])
        ≡ record {
          mode = InBody;
          elements = codes "html body select";
          tree = codes "<html><head></head><body><select></select></body></html>";
        } }
    // <body></p>
    ensures p_end { view (start (codes "body") ∷ end (codes "p") ∷ [])
        ≡ record {
          mode = InBody;
          elements = codes "html body";
          tree = codes "<html><head></head><body><p></p></body></html>";
        } }
    // <body></br>
    ensures line_break_end { view (start (codes "body") ∷ end (codes "br") ∷ [])
        ≡ record {
          mode = InBody;
          elements = codes "html body";
          tree = codes "<html><head></head><body><br></br></body></html>";
        } }
    // <body></div></h1></li></form></b></object></template></td></a-b>
    ensures lone_ends { view (start (codes "body") ∷ end (codes "div") ∷ end (codes "h1") ∷ end (codes "li")
        ∷ end (codes "form") ∷ end (codes "b") ∷ end (codes "object") ∷ end (codes "template") ∷ end (codes "td")
        ∷ end (codes "a-b") ∷ [])
        ≡ record {
          mode = InBody;
          elements = codes "html body";
          tree = codes "<html><head></head><body></body></html>";
        } }
    // <body><a-b>
    ensures other_start { view (start (codes "body") ∷ start (codes "a-b") ∷ [])
        ≡ record {
          mode = InBody;
          elements = codes "html body a-b";
          tree = codes "<html><head></head><body><a-b></a-b></body></html>";
        } }
    // <body><a-b><c-d></a-b>
    ensures other_end { view (start (codes "body") ∷ start (codes "a-b") ∷ start (codes "c-d") ∷ end (codes "a-b")
        ∷ [])
        ≡ record {
          mode = InBody;
          elements = codes "html body";
          tree = codes "<html><head></head><body><a-b><c-d></c-d></a-b></body></html>";
        } }
    // <body><a-b><div></a-b>
    ensures other_end_below_special { view (start (codes "body") ∷ start (codes "a-b") ∷ start (codes "div")
        ∷ end (codes "a-b") ∷ [])
        ≡ record {
          mode = InBody;
          elements = codes "html body a-b div";
          tree = codes "<html><head></head><body><a-b><div></div></a-b></body></html>";
        } }
    // <body><p> and the end
    ensures page_end { view (start (codes "body") ∷ start (codes "p") ∷ finished ∷ [])
        ≡ record {
          mode = InBody;
          elements = codes "html body p";
          tree = codes "<html><head></head><body><p></p></body></html>";
        } }
{}

#[tactic(auto, unfolding(tree_names::specs::Groups::tag_group, rules_table::specs::Actions::act))]
fn frameset_flag()
    // <p>  NUL <frameset>
    ensures still_on { view (start (codes "p") ∷ words (codes " ") ∷ null ∷ start (codes "frameset") ∷ [])
        ≡ record {
          mode = InFrameset;
          elements = codes "html frameset";
          tree = codes "<html><head></head><frameset></frameset></html>";
        } }
    // <p>a<frameset>
    ensures off_by_text { view (start (codes "p") ∷ words (codes "a") ∷ start (codes "frameset") ∷ [])
        ≡ record {
          mode = InBody;
          elements = codes "html body p";
          tree = codes "<html><head></head><body><p>a</p></body></html>";
        } }
    // <body><frameset>
    ensures off_by_body { view (start (codes "body") ∷ start (codes "frameset") ∷ [])
        ≡ record {
          mode = InBody;
          elements = codes "html body";
          tree = codes "<html><head></head><body></body></html>";
        } }
    // <li><frameset>
    ensures off_by_item { view (start (codes "li") ∷ start (codes "frameset") ∷ [])
        ≡ record {
          mode = InBody;
          elements = codes "html body li";
          tree = codes "<html><head></head><body><li></li></body></html>";
        } }
    // <pre><frameset>
    ensures off_by_pre { view (start (codes "pre") ∷ start (codes "frameset") ∷ [])
        ≡ record {
          mode = InBody;
          elements = codes "html body pre";
          tree = codes "<html><head></head><body><pre></pre></body></html>";
        } }
    // <input><frameset>
    ensures off_by_input { view (start (codes "input") ∷ start (codes "frameset") ∷ [])
        ≡ record {
          mode = InBody;
          elements = codes "html body";
          tree = codes "<html><head></head><body><input></input></body></html>";
        } }
    // <input type=hidden><frameset>
    ensures on_past_hidden_input { view (start_with (codes "input") (codes "type") (codes "hidden")
        ∷ start (codes "frameset") ∷ [])
        ≡ record {
          mode = InFrameset;
          elements = codes "html frameset";
          tree = codes "<html><head></head><frameset></frameset></html>";
        } }
    // <div><b><frameset>
    ensures on_past_div { view (start (codes "div") ∷ start (codes "b") ∷ start (codes "frameset") ∷ [])
        ≡ record {
          mode = InFrameset;
          elements = codes "html frameset";
          tree = codes "<html><head></head><frameset></frameset></html>";
        } }
    // <p><body><frameset>
    ensures off_by_second_body { view (start (codes "p") ∷ start (codes "body") ∷ start (codes "frameset") ∷ [])
        ≡ record {
          mode = InBody;
          elements = codes "html body p";
          tree = codes "<html><head></head><body><p></p></body></html>";
        } }
    // <p><html><frameset>
    ensures on_past_second_html { view (start (codes "p") ∷ start (codes "html") ∷ start (codes "frameset") ∷ [])
        ≡ record {
          mode = InFrameset;
          elements = codes "html frameset";
          tree = codes "<html><head></head><frameset></frameset></html>";
        } }
    // </br><frameset>
    ensures off_by_line_break_end { view (end (codes "br") ∷ start (codes "frameset") ∷ [])
        ≡ record {
          mode = InBody;
          elements = codes "html body";
          tree = codes "<html><head></head><body><br></br></body></html>";
        } }
    // </p><frameset>
    ensures on_past_p_end { view (end (codes "p") ∷ start (codes "frameset") ∷ [])
        ≡ record {
          mode = InFrameset;
          elements = codes "html frameset";
          tree = codes "<html><head></head><frameset></frameset></html>";
        } }
    // <h1><frameset>
    ensures on_past_heading { view (start (codes "h1") ∷ start (codes "frameset") ∷ [])
        ≡ record {
          mode = InFrameset;
          elements = codes "html frameset";
          tree = codes "<html><head></head><frameset></frameset></html>";
        } }
    // <select><frameset>
    ensures off_by_select { view (start (codes "select") ∷ start (codes "frameset") ∷ [])
        ≡ record {
          mode = InBody;
          elements = codes "html body select";
          tree = codes "<html><head></head><body><select></select></body></html>";
        } }
    // <option><frameset>
    ensures on_past_option { view (start (codes "option") ∷ start (codes "frameset") ∷ [])
        ≡ record {
          mode = InFrameset;
          elements = codes "html frameset";
          tree = codes "<html><head></head><frameset></frameset></html>";
        } }
    // <button><frameset>
    ensures off_by_button { view (start (codes "button") ∷ start (codes "frameset") ∷ [])
        ≡ record {
          mode = InBody;
          elements = codes "html body button";
          tree = codes "<html><head></head><body><button></button></body></html>";
        } }
    // <p><param><frameset>
    ensures on_past_param { view (start (codes "p") ∷ start (codes "param") ∷ start (codes "frameset") ∷ [])
        ≡ record {
          mode = InFrameset;
          elements = codes "html frameset";
          tree = codes "<html><head></head><frameset></frameset></html>";
        } }
    // <iframe></iframe><frameset>
    ensures off_by_iframe { view (start (codes "iframe") ∷ end (codes "iframe") ∷ start (codes "frameset") ∷ [])
        ≡ record {
          mode = InBody;
          elements = codes "html body";
          tree = codes "<html><head></head><body><iframe></iframe></body></html>";
        } }
    // <noembed></noembed><frameset>
    ensures on_past_noembed { view (start (codes "noembed") ∷ end (codes "noembed") ∷ start (codes "frameset") ∷ [])
        ≡ record {
          mode = InFrameset;
          elements = codes "html frameset";
          tree = codes "<html><head></head><frameset></frameset></html>";
        } }
    // <xmp></xmp><frameset>
    ensures off_by_xmp { view (start (codes "xmp") ∷ end (codes "xmp") ∷ start (codes "frameset") ∷ [])
        ≡ record {
          mode = InBody;
          elements = codes "html body";
          tree = codes "<html><head></head><body><xmp></xmp></body></html>";
        } }
    // <textarea></textarea><frameset>
    ensures off_by_textarea { view (start (codes "textarea") ∷ end (codes "textarea") ∷ start (codes "frameset") ∷ [])
        ≡ record {
          mode = InBody;
          elements = codes "html body";
          tree = codes "<html><head></head><body><textarea></textarea></body></html>";
        } }
    // <hr><frameset>
    ensures off_by_rule { view (start (codes "hr") ∷ start (codes "frameset") ∷ [])
        ≡ record {
          mode = InBody;
          elements = codes "html body";
          tree = codes "<html><head></head><body><hr></hr></body></html>";
        } }
    // <object><frameset>
    ensures off_by_object { view (start (codes "object") ∷ start (codes "frameset") ∷ [])
        ≡ record {
          mode = InBody;
          elements = codes "html body object";
          tree = codes "<html><head></head><body><object></object></body></html>";
        } }
    // <table></table><frameset>
    ensures off_by_table { view (start (codes "table") ∷ end (codes "table") ∷ start (codes "frameset") ∷ [])
        ≡ record {
          mode = InBody;
          elements = codes "html body";
          tree = codes "<html><head></head><body><table></table></body></html>";
        } }
    // <template></template><p><frameset>
    ensures off_by_template { view (start (codes "template") ∷ end (codes "template") ∷ start (codes "p")
        ∷ start (codes "frameset") ∷ [])
        ≡ record {
          mode = InBody;
          elements = codes "html body p";
          tree = codes "<html><head><template></template></head><body><p></p></body></html>";
        } }
{}

#[tactic(auto, unfolding(tree_names::specs::Groups::tag_group, rules_table::specs::Actions::act))]
fn blocks()
    // <p><b><div>
    ensures block_closes_p { view (start (codes "p") ∷ start (codes "b") ∷ start (codes "div") ∷ [])
        ≡ record {
          mode = InBody;
          elements = codes "html body div";
          tree = codes "<html><head></head><body><p><b></b></p><div></div></body></html>";
        } }
    // <p><button><div>
    ensures p_beyond_button { view (start (codes "p") ∷ start (codes "button") ∷ start (codes "div") ∷ [])
        ≡ record {
          mode = InBody;
          elements = codes "html body p button div";
          tree = codes "<html><head></head><body><p><button><div></div></button></p></body></html>";
        } }
    // <div><p></div>
    ensures block_end_implies { view (start (codes "div") ∷ start (codes "p") ∷ end (codes "div") ∷ [])
        ≡ record {
          mode = InBody;
          elements = codes "html body";
          tree = codes "<html><head></head><body><div><p></p></div></body></html>";
        } }
    // <h1><h2>
    ensures heading_in_heading { view (start (codes "h1") ∷ start (codes "h2") ∷ [])
        ≡ record {
          mode = InBody;
          elements = codes "html body h2";
          tree = codes "<html><head></head><body><h1></h1><h2></h2></body></html>";
        } }
    // <h1><span><h2>
    ensures heading_below_span { view (start (codes "h1") ∷ start (codes "span") ∷ start (codes "h2") ∷ [])
        ≡ record {
          mode = InBody;
          elements = codes "html body h1 span h2";
          tree = codes "<html><head></head><body><h1><span><h2></h2></span></h1></body></html>";
        } }
    // <h1><p></h6>
    ensures other_heading_ends { view (start (codes "h1") ∷ start (codes "p") ∷ end (codes "h6") ∷ [])
        ≡ record {
          mode = InBody;
          elements = codes "html body";
          tree = codes "<html><head></head><body><h1><p></p></h1></body></html>";
        } }
    // <pre> LF  LF a
    ensures skipped_line_feed { view (start (codes "pre") ∷ words (codes "\n\na") ∷ [])
        ≡ record {
          mode = InBody;
          elements = codes "html body pre";
          tree = codes "<html><head></head><body><pre>\na</pre></body></html>";
        } }
    // <form><form>
    ensures form_in_form { view (start (codes "form") ∷ start (codes "form") ∷ [])
        ≡ record {
          mode = InBody;
          elements = codes "html body form";
          tree = codes "<html><head></head><body><form></form></body></html>";
        } }
    // <form><div></form>a
    ensures form_taken_off { view (start (codes "form") ∷ start (codes "div") ∷ end (codes "form") ∷ words (codes "a")
        ∷ [])
        ≡ record {
          mode = InBody;
          elements = codes "html body div";
          tree = codes "<html><head></head><body><form><div>a</div></form></body></html>";
        } }
    // <form></form><form>
    ensures form_forgotten { view (start (codes "form") ∷ end (codes "form") ∷ start (codes "form") ∷ [])
        ≡ record {
          mode = InBody;
          elements = codes "html body form";
          tree = codes "<html><head></head><body><form></form><form></form></body></html>";
        } }
    // <li><div><li>
    ensures item_past_div { view (start (codes "li") ∷ start (codes "div") ∷ start (codes "li") ∷ [])
        ≡ record {
          mode = InBody;
          elements = codes "html body li";
          tree = codes "<html><head></head><body><li><div></div></li><li></li></body></html>";
        } }
    // <li><ul><li>
    ensures item_in_list { view (start (codes "li") ∷ start (codes "ul") ∷ start (codes "li") ∷ [])
        ≡ record {
          mode = InBody;
          elements = codes "html body li ul li";
          tree = codes "<html><head></head><body><li><ul><li></li></ul></li></body></html>";
        } }
    // <li><ol></li>
    ensures item_end_beyond_list { view (start (codes "li") ∷ start (codes "ol") ∷ end (codes "li") ∷ [])
        ≡ record {
          mode = InBody;
          elements = codes "html body li ol";
          tree = codes "<html><head></head><body><li><ol></ol></li></body></html>";
        } }
    // <dd><dt><dd>
    ensures definitions { view (start (codes "dd") ∷ start (codes "dt") ∷ start (codes "dd") ∷ [])
        ≡ record {
          mode = InBody;
          elements = codes "html body dd";
          tree = codes "<html><head></head><body><dd></dd><dt></dt><dd></dd></body></html>";
        } }
    // <dd><ol></dd>
    ensures definition_end_beyond_list { view (start (codes "dd") ∷ start (codes "ol") ∷ end (codes "dd") ∷ [])
        ≡ record {
          mode = InBody;
          elements = codes "html body";
          tree = codes "<html><head></head><body><dd><ol></ol></dd></body></html>";
        } }
    // <button><p><button>
    ensures button_in_button { view (start (codes "button") ∷ start (codes "p") ∷ start (codes "button") ∷ [])
        ≡ record {
          mode = InBody;
          elements = codes "html body button";
          tree = codes "<html><head></head><body><button><p></p></button><button></button></body></html>";
        } }
    // <p><plaintext>a
    ensures plaintext_start { view (start (codes "p") ∷ start (codes "plaintext") ∷ words (codes "a") ∷ [])
        ≡ record {
          mode = InBody;
          elements = codes "html body plaintext";
          tree = codes "<html><head></head><body><p></p><plaintext>a</plaintext></body></html>";
        } }
    // <p><hr>
    ensures rule { view (start (codes "p") ∷ start (codes "hr") ∷ [])
        ≡ record {
          mode = InBody;
          elements = codes "html body";
          tree = codes "<html><head></head><body><p></p><hr></hr></body></html>";
        } }
{}
