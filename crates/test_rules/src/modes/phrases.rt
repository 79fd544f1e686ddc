//! Phrases in the body, text, and the modes after the body. Elements are named from the root on.
ghost use Rattle.std.specs.Prelude.{◌≡◌, [], ◌∷◌, ◌++◌, codes};
ghost use Rattle.test_rules.specs.RowWords.{doctype_named, end, finished, null, remark, start, start_closed, view};
ghost use Rattle.test_rules.specs.RowWords.{words};
ghost use Rattle.tree_predicates.specs.declared.modes.InsertionMode.TheVariants.{AfterAfterBody, AfterBody, AfterHead};
ghost use Rattle.tree_predicates.specs.declared.modes.InsertionMode.TheVariants.{InBody, InCell, InHead, InTable};
ghost use Rattle.tree_predicates.specs.declared.modes.InsertionMode.TheVariants.{InTemplate, Text};

#[tactic(auto, unfolding(tree_names::specs::Groups::tag_group, rules_table::specs::Actions::act))]
fn phrases()
    // <p><b></p><p>a
    ensures formatting_made_anew { view (start (codes "p") ∷ start (codes "b") ∷ end (codes "p") ∷ start (codes "p")
        ∷ words (codes "a") ∷ [])
        ≡ record {
          mode = InBody;
          elements = codes "html body p b";
          tree = codes "<html><head></head><body><p><b></b></p><p><b>a</b></p></body></html>";
        } }
    // <p><b></p><div>
    ensures not_before_a_block { view (start (codes "p") ∷ start (codes "b") ∷ end (codes "p") ∷ start (codes "div")
        ∷ [])
        ≡ record {
          mode = InBody;
          elements = codes "html body div";
          tree = codes "<html><head></head><body><p><b></b></p><div></div></body></html>";
        } }
    // <nobr>1<nobr>2
    ensures no_break_in_no_break { view (start (codes "nobr") ∷ words (codes "1") ∷ start (codes "nobr")
        ∷ words (codes "2") ∷ [])
        ≡ record {
          mode = InBody;
          elements = codes "html body nobr";
          tree = codes "<html><head></head><body><nobr>1</nobr><nobr>2</nobr></body></html>";
        } }
    // <a><object><a>
    ensures anchor_beyond_marker { view (start (codes "a") ∷ start (codes "object") ∷ start (codes "a") ∷ [])
        ≡ record {
          mode = InBody;
          elements = codes "html body a object a";
          tree = codes "<html><head></head><body><a><object><a></a></object></a></body></html>";
        } }
    // <object><b></object>a
    ensures marker_cleared { view (start (codes "object") ∷ start (codes "b") ∷ end (codes "object")
        ∷ words (codes "a") ∷ [])
        ≡ record {
          mode = InBody;
          elements = codes "html body";
          tree = codes "<html><head></head><body><object><b></b></object>a</body></html>";
        } }
    // <image>
    ensures image { view (start (codes "image") ∷ [])
        ≡ record {
          mode = InBody;
          elements = codes "html body";
          tree = codes "<html><head></head><body><img></img></body></html>";
        } }
    // <b><br><wbr><param></b>
    ensures without_contents { view (start (codes "b") ∷ start (codes "br") ∷ start (codes "wbr")
        ∷ start (codes "param") ∷ end (codes "b") ∷ [])
        ≡ record {
          mode = InBody;
          elements = codes "html body";
          tree = codes "<html><head></head><body><b><br></br><wbr></wbr><param></param></b></body></html>";
        } }
    // <p><xmp></xmp><iframe></iframe><noembed></noembed><noscript></noscript>
    ensures raw_texts { view (start (codes "p") ∷ start (codes "xmp") ∷ end (codes "xmp") ∷ start (codes "iframe")
        ∷ end (codes "iframe") ∷ start (codes "noembed") ∷ end (codes "noembed") ∷ start (codes "noscript")
        ∷ end (codes "noscript") ∷ [])
        ≡ record {
          mode = InBody;
          elements = codes "html body";
          tree =
              codes "<html><head></head><body><p></p><xmp></xmp><iframe></iframe><noembed></noembed>"
              ++ codes "<noscript></noscript></body></html>";
        } }
    // <textarea> LF a
    ensures textarea_line_feed { view (start (codes "textarea") ∷ words (codes "\na") ∷ [])
        ≡ record {
          mode = Text;
          elements = codes "html body textarea";
          tree = codes "<html><head></head><body><textarea>a</textarea></body></html>";
        } }
    // <select><option><select>a
    ensures second_select { view (start (codes "select") ∷ start (codes "option") ∷ start (codes "select")
        ∷ words (codes "a") ∷ [])
        ≡ record {
          mode = InBody;
          elements = codes "html body";
          tree = codes "<html><head></head><body><select><option></option></select>a</body></html>";
        } }
    // <select><option><input>
    ensures input_in_select { view (start (codes "select") ∷ start (codes "option") ∷ start (codes "input") ∷ [])
        ≡ record {
          mode = InBody;
          elements = codes "html body";
          tree = codes "<html><head></head><body><select><option></option></select><input></input></body></html>";
        } }
    // <select><optgroup><option><hr>
    ensures rule_in_select { view (start (codes "select") ∷ start (codes "optgroup") ∷ start (codes "option")
        ∷ start (codes "hr") ∷ [])
        ≡ record {
          mode = InBody;
          elements = codes "html body select";
          tree =
              codes "<html><head></head><body><select><optgroup><option></option></optgroup><hr></hr>"
              ++ codes "</select></body></html>";
        } }
    // <select><optgroup><option><optgroup>
    ensures group_in_select { view (start (codes "select") ∷ start (codes "optgroup") ∷ start (codes "option")
        ∷ start (codes "optgroup") ∷ [])
        ≡ record {
          mode = InBody;
          elements = codes "html body select optgroup";
          tree =
              codes "<html><head></head><body><select><optgroup><option></option></optgroup><optgroup>"
              ++ codes "</optgroup></select></body></html>";
        } }
    // <select><optgroup><option><option>
    ensures option_in_group { view (start (codes "select") ∷ start (codes "optgroup") ∷ start (codes "option")
        ∷ start (codes "option") ∷ [])
        ≡ record {
          mode = InBody;
          elements = codes "html body select optgroup option";
          tree =
              codes "<html><head></head><body><select><optgroup><option></option><option></option>"
              ++ codes "</optgroup></select></body></html>";
        } }
    // <optgroup><option><option><optgroup>
    ensures options { view (start (codes "optgroup") ∷ start (codes "option") ∷ start (codes "option")
        ∷ start (codes "optgroup") ∷ [])
        ≡ record {
          mode = InBody;
          elements = codes "html body optgroup optgroup";
          tree =
              codes "<html><head></head><body><optgroup><option></option><option></option><optgroup>"
              ++ codes "</optgroup></optgroup></body></html>";
        } }
    // <option><p><option>
    ensures option_below_p { view (start (codes "option") ∷ start (codes "p") ∷ start (codes "option") ∷ [])
        ≡ record {
          mode = InBody;
          elements = codes "html body option p option";
          tree = codes "<html><head></head><body><option><p><option></option></p></option></body></html>";
        } }
    // <div><select></div>a
    ensures select_bars { view (start (codes "div") ∷ start (codes "select") ∷ end (codes "div") ∷ words (codes "a")
        ∷ [])
        ≡ record {
          mode = InBody;
          elements = codes "html body div select";
          tree = codes "<html><head></head><body><div><select>a</select></div></body></html>";
        } }
    // <ruby><rb>1<rt>2<rp>3<rtc>4<rt>5<rb>6
    ensures ruby { view (start (codes "ruby") ∷ start (codes "rb") ∷ words (codes "1") ∷ start (codes "rt")
        ∷ words (codes "2") ∷ start (codes "rp") ∷ words (codes "3") ∷ start (codes "rtc") ∷ words (codes "4")
        ∷ start (codes "rt") ∷ words (codes "5") ∷ start (codes "rb") ∷ words (codes "6") ∷ [])
        ≡ record {
          mode = InBody;
          elements = codes "html body ruby rb";
          tree =
              codes "<html><head></head><body><ruby><rb>1</rb><rt>2</rt><rp>3</rp><rtc>4<rt>5</rt></rtc>"
              ++ codes "<rb>6</rb></ruby></body></html>";
        } }
    // <rb><rt>
    ensures ruby_without_ruby { view (start (codes "rb") ∷ start (codes "rt") ∷ [])
        ≡ record {
          mode = InBody;
          elements = codes "html body rb rt";
          tree = codes "<html><head></head><body><rb><rt></rt></rb></body></html>";
        } }
    // <p><svg/>a
    ensures closed_foreign_start { view (start (codes "p") ∷ start_closed (codes "svg") ∷ words (codes "a") ∷ [])
        ≡ record {
          mode = InBody;
          elements = codes "html body p";
          tree = codes "<html><head></head><body><p><svg></svg>a</p></body></html>";
        } }
    // <p><b/>a
    ensures closed_start { view (start (codes "p") ∷ start_closed (codes "b") ∷ words (codes "a") ∷ [])
        ≡ record {
          mode = InBody;
          elements = codes "html body p b";
          tree = codes "<html><head></head><body><p><b>a</b></p></body></html>";
        } }
    // <p><svg>
    ensures foreign_start { view (start (codes "p") ∷ start (codes "svg") ∷ [])
        ≡ record {
          mode = InBody;
          elements = codes "html body p svg";
          tree = codes "<html><head></head><body><p><svg></svg></p></body></html>";
        } }
{}

#[tactic(auto, unfolding(tree_names::specs::Groups::tag_group, rules_table::specs::Actions::act))]
fn text()
    // <title>a LF
    ensures text { view (start (codes "title") ∷ words (codes "a\n") ∷ [])
        ≡ record {
          mode = Text;
          elements = codes "html head title";
          tree = codes "<html><head><title>a\n</title></head></html>";
        } }
    // <title>a
    ensures text_goes_on { view (start (codes "title") ∷ words (codes "a") ∷ [])
        ≡ record {
          mode = Text;
          elements = codes "html head title";
          tree = codes "<html><head><title>a</title></head></html>";
        } }
    // <title>a</title>
    ensures end_tag { view (start (codes "title") ∷ words (codes "a") ∷ end (codes "title") ∷ [])
        ≡ record {
          mode = InHead;
          elements = codes "html head";
          tree = codes "<html><head><title>a</title></head></html>";
        } }
    // <title>a and the end
    ensures page_end { view (start (codes "title") ∷ words (codes "a") ∷ finished ∷ [])
        ≡ record {
          mode = InBody;
          elements = codes "html body";
          tree = codes "<html><head><title>a</title></head><body></body></html>";
        } }
    // <head></head><title>a</title>
    ensures back_after_head { view (start (codes "head") ∷ end (codes "head") ∷ start (codes "title")
        ∷ words (codes "a") ∷ end (codes "title") ∷ [])
        ≡ record {
          mode = AfterHead;
          elements = codes "html";
          tree = codes "<html><head><title>a</title></head></html>";
        } }
    // <p><textarea>a</textarea>
    ensures back_to_body { view (start (codes "p") ∷ start (codes "textarea") ∷ words (codes "a")
        ∷ end (codes "textarea") ∷ [])
        ≡ record {
          mode = InBody;
          elements = codes "html body p";
          tree = codes "<html><head></head><body><p><textarea>a</textarea></p></body></html>";
        } }
    // <table><style>a</style>
    ensures back_to_table { view (start (codes "table") ∷ start (codes "style") ∷ words (codes "a")
        ∷ end (codes "style") ∷ [])
        ≡ record {
          mode = InTable;
          elements = codes "html body table";
          tree = codes "<html><head></head><body><table><style>a</style></table></body></html>";
        } }
    // <table><td><xmp>a</xmp>
    ensures back_to_cell { view (start (codes "table") ∷ start (codes "td") ∷ start (codes "xmp") ∷ words (codes "a")
        ∷ end (codes "xmp") ∷ [])
        ≡ record {
          mode = InCell;
          elements = codes "html body table tbody tr td";
          tree =
              codes "<html><head></head><body><table><tbody><tr><td><xmp>a</xmp></td></tr></tbody></table>"
              ++ codes "</body></html>";
        } }
    // <template><script></script>
    ensures back_to_template { view (start (codes "template") ∷ start (codes "script") ∷ end (codes "script") ∷ [])
        ≡ record {
          mode = InTemplate;
          elements = codes "html head template";
          tree = codes "<html><head><template><script></script></template></head></html>";
        } }
    // <table><xmp>a</xmp>
    ensures fostered { view (start (codes "table") ∷ start (codes "xmp") ∷ words (codes "a") ∷ end (codes "xmp") ∷ [])
        ≡ record {
          mode = InTable;
          elements = codes "html body table";
          tree = codes "<html><head></head><body><xmp>a</xmp><table></table></body></html>";
        } }
    // <p><textarea> LF  LF
    ensures second_line_feed { view (start (codes "p") ∷ start (codes "textarea") ∷ words (codes "\n\n") ∷ [])
        ≡ record {
          mode = Text;
          elements = codes "html body p textarea";
          tree = codes "<html><head></head><body><p><textarea>\n</textarea></p></body></html>";
        } }
    // <p><textarea> and the end
    ensures page_end_in_body { view (start (codes "p") ∷ start (codes "textarea") ∷ finished ∷ [])
        ≡ record {
          mode = InBody;
          elements = codes "html body p";
          tree = codes "<html><head></head><body><p><textarea></textarea></p></body></html>";
        } }
{}

#[tactic(auto, unfolding(tree_names::specs::Groups::tag_group, rules_table::specs::Actions::act))]
fn after_body()
    // <body></body>
    ensures white_space { view (start (codes "body") ∷ end (codes "body") ∷ words (codes " ") ∷ [])
        ≡ record {
          mode = AfterBody;
          elements = codes "html body";
          tree = codes "<html><head></head><body> </body></html>";
        } }
    // <body></body> a
    ensures split_text { view (start (codes "body") ∷ end (codes "body") ∷ words (codes " a") ∷ [])
        ≡ record {
          mode = InBody;
          elements = codes "html body";
          tree = codes "<html><head></head><body> a</body></html>";
        } }
    // <body></body> NUL
    ensures nul { view (start (codes "body") ∷ end (codes "body") ∷ null ∷ [])
        ≡ record {
          mode = InBody;
          elements = codes "html body";
          tree = codes "<html><head></head><body></body></html>";
        } }
    // <body></body><!--a-->
    ensures comment { view (start (codes "body") ∷ end (codes "body") ∷ remark (codes "a") ∷ [])
        ≡ record {
          mode = AfterBody;
          elements = codes "html body";
          tree = codes "<html><head></head><body></body><!--a--></html>";
        } }
    // <body></body><!doctype html>
    ensures doctype { view (start (codes "body") ∷ end (codes "body") ∷ doctype_named (codes "html") ∷ [])
        ≡ record {
          mode = AfterBody;
          elements = codes "html body";
          tree = codes "<html><head></head><body></body></html>";
        } }
    // <body></body><html>
    ensures html_start { view (start (codes "body") ∷ end (codes "body") ∷ start (codes "html") ∷ [])
        ≡ record {
          mode = AfterBody;
          elements = codes "html body";
          tree = codes "<html><head></head><body></body></html>";
        } }
    // <body></body></html>
    ensures html_end { view (start (codes "body") ∷ end (codes "body") ∷ end (codes "html") ∷ [])
        ≡ record {
          mode = AfterAfterBody;
          elements = codes "html body";
          tree = codes "<html><head></head><body></body></html>";
        } }
    // <body></body></body>
    ensures body_end { view (start (codes "body") ∷ end (codes "body") ∷ end (codes "body") ∷ [])
        ≡ record {
          mode = AfterBody;
          elements = codes "html body";
          tree = codes "<html><head></head><body></body></html>";
        } }
    // <body></body><p>
    ensures other_start { view (start (codes "body") ∷ end (codes "body") ∷ start (codes "p") ∷ [])
        ≡ record {
          mode = InBody;
          elements = codes "html body p";
          tree = codes "<html><head></head><body><p></p></body></html>";
        } }
    // <body></body></p>
    ensures other_end { view (start (codes "body") ∷ end (codes "body") ∷ end (codes "p") ∷ [])
        ≡ record {
          mode = InBody;
          elements = codes "html body";
          tree = codes "<html><head></head><body><p></p></body></html>";
        } }
    // <body></body> and the end
    ensures page_end { view (start (codes "body") ∷ end (codes "body") ∷ finished ∷ [])
        ≡ record {
          mode = AfterBody;
          elements = codes "html body";
          tree = codes "<html><head></head><body></body></html>";
        } }
    // <p><b></p></body>
    ensures white_space_made_formatted { view (start (codes "p") ∷ start (codes "b") ∷ end (codes "p")
        ∷ end (codes "body") ∷ words (codes " ") ∷ [])
        ≡ record {
          mode = AfterBody;
          elements = codes "html body b";
          tree = codes "<html><head></head><body><p><b></b></p><b> </b></body></html>";
        } }
{}

#[tactic(auto, unfolding(tree_names::specs::Groups::tag_group, rules_table::specs::Actions::act))]
fn after_after_body()
    // <body></body></html>
    ensures white_space { view (start (codes "body") ∷ end (codes "body") ∷ end (codes "html") ∷ words (codes " ")
        ∷ [])
        ≡ record {
          mode = AfterAfterBody;
          elements = codes "html body";
          tree = codes "<html><head></head><body> </body></html>";
        } }
    // <body></body></html> a
    ensures split_text { view (start (codes "body") ∷ end (codes "body") ∷ end (codes "html") ∷ words (codes " a")
        ∷ [])
        ≡ record {
          mode = InBody;
          elements = codes "html body";
          tree = codes "<html><head></head><body> a</body></html>";
        } }
    // <body></body></html><!--a-->
    ensures comment { view (start (codes "body") ∷ end (codes "body") ∷ end (codes "html") ∷ remark (codes "a") ∷ [])
        ≡ record {
          mode = AfterAfterBody;
          elements = codes "html body";
          tree = codes "<html><head></head><body></body></html><!--a-->";
        } }
    // <body></body></html><!doctype html>
    ensures doctype { view (start (codes "body") ∷ end (codes "body") ∷ end (codes "html")
        ∷ doctype_named (codes "html") ∷ [])
        ≡ record {
          mode = AfterAfterBody;
          elements = codes "html body";
          tree = codes "<html><head></head><body></body></html>";
        } }
    // <body></body></html><html>
    ensures html_start { view (start (codes "body") ∷ end (codes "body") ∷ end (codes "html") ∷ start (codes "html")
        ∷ [])
        ≡ record {
          mode = AfterAfterBody;
          elements = codes "html body";
          tree = codes "<html><head></head><body></body></html>";
        } }
    // <body></body></html></html>
    ensures html_end { view (start (codes "body") ∷ end (codes "body") ∷ end (codes "html") ∷ end (codes "html") ∷ [])
        ≡ record {
          mode = AfterAfterBody;
          elements = codes "html body";
          tree = codes "<html><head></head><body></body></html>";
        } }
    // <body></body></html></body>
    ensures body_end { view (start (codes "body") ∷ end (codes "body") ∷ end (codes "html") ∷ end (codes "body") ∷ [])
        ≡ record {
          mode = AfterBody;
          elements = codes "html body";
          tree = codes "<html><head></head><body></body></html>";
        } }
    // <body></body></html><p>
    ensures other_start { view (start (codes "body") ∷ end (codes "body") ∷ end (codes "html") ∷ start (codes "p")
        ∷ [])
        ≡ record {
          mode = InBody;
          elements = codes "html body p";
          tree = codes "<html><head></head><body><p></p></body></html>";
        } }
    // <body></body></html></p>
    ensures other_end { view (start (codes "body") ∷ end (codes "body") ∷ end (codes "html") ∷ end (codes "p") ∷ [])
        ≡ record {
          mode = InBody;
          elements = codes "html body";
          tree = codes "<html><head></head><body><p></p></body></html>";
        } }
    // <body></body></html> and the end
    ensures page_end { view (start (codes "body") ∷ end (codes "body") ∷ end (codes "html") ∷ finished ∷ [])
        ≡ record {
          mode = AfterAfterBody;
          elements = codes "html body";
          tree = codes "<html><head></head><body></body></html>";
        } }
{}
