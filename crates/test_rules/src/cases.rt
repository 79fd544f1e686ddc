//! Pages with their trees from a model of the rules that is written in another language (attributes left out).
ghost use Rattle.std.specs.Prelude.{◌≡◌, [], ◌∷◌, ◌++◌, codes};
ghost use Rattle.tree_forest.specs.declared.sink.QuirksMode.TheVariants.{LimitedQuirks, NoQuirks, Quirks};
ghost use Rattle.test_rules.specs.RowWords.{doctype_named, end, error, finished, nameless_doctype, public_doctype};
ghost use Rattle.test_rules.specs.RowWords.{remark, start, system_doctype, system_only, whole, whole_from};
ghost use Rattle.test_rules.specs.RowWords.{without_scripts, words};

#[tactic(auto, unfolding(tree_names::specs::Groups::tag_group, rules_table::specs::Actions::act))]
fn tables()
    // <table><col><s><code>
    ensures line_10 { whole (start (codes "table") ∷ start (codes "col") ∷ start (codes "s") ∷ start (codes "code")
        ∷ finished ∷ [])
        ≡ record {
          quirks = Quirks;
          tree =
              codes "<html><head></head><body><s><code></code></s><table><colgroup><col></col></colgroup>"
              ++ codes "</table></body></html>";
        } }
    //  a</td></table><td></td></tfoot><td><table><thead>
    ensures line_54 { whole (words (codes " a") ∷ end (codes "td") ∷ end (codes "table") ∷ start (codes "td")
        ∷ end (codes "td") ∷ end (codes "tfoot") ∷ start (codes "td") ∷ start (codes "table") ∷ start (codes "thead")
        ∷ finished ∷ [])
        ≡ record {
          quirks = Quirks;
          tree = codes "<html><head></head><body>a<table><thead></thead></table></body></html>";
        } }
    // </table><tr><td><rb></tbody></th> <main><search><thead></rb>
    ensures line_108 { whole_from without_scripts (end (codes "table") ∷ start (codes "tr") ∷ start (codes "td")
        ∷ start (codes "rb") ∷ end (codes "tbody") ∷ end (codes "th") ∷ words (codes " ") ∷ start (codes "main")
        ∷ start (codes "search") ∷ start (codes "thead") ∷ end (codes "rb") ∷ finished ∷ [])
        ≡ record {
          quirks = Quirks;
          tree = codes "<html><head></head><body><rb> <main><search></search></main></rb></body></html>";
        } }
    // <!DOCTYPE html></base></dd><base><table><td>
    ensures line_167 { whole (doctype_named (codes "html") ∷ end (codes "base") ∷ end (codes "dd")
        ∷ start (codes "base") ∷ start (codes "table") ∷ start (codes "td") ∷ finished ∷ [])
        ≡ record {
          quirks = NoQuirks;
          tree =
              codes "<!html><html><head><base></base></head><body><table><tbody><tr><td></td></tr></tbody>"
              ++ codes "</table></body></html>";
        } }
    // <td></td><col>x y<template><tr><col>b
    ensures line_201 { whole (start (codes "td") ∷ end (codes "td") ∷ start (codes "col") ∷ words (codes "x y")
        ∷ start (codes "template") ∷ start (codes "tr") ∷ start (codes "col") ∷ words (codes "b") ∷ finished ∷ [])
        ≡ record {
          quirks = Quirks;
          tree = codes "<html><head></head><body>x y<template><tr></tr>b</template></body></html>";
        } }
    // <!doctype></tr><thead><thead></thead><colgroup><!doctype><!DOCTYPE html>x y
    ensures line_283 { whole_from without_scripts (nameless_doctype ∷ end (codes "tr") ∷ start (codes "thead")
        ∷ start (codes "thead") ∷ end (codes "thead") ∷ start (codes "colgroup") ∷ nameless_doctype
        ∷ doctype_named (codes "html") ∷ words (codes "x y") ∷ finished ∷ [])
        ≡ record { quirks = Quirks; tree = codes "<!><html><head></head><body>x y</body></html>" } }
    // <!DOCTYPE html></thead><col><th>
    ensures line_301 { whole_from without_scripts (doctype_named (codes "html") ∷ end (codes "thead")
        ∷ start (codes "col") ∷ start (codes "th") ∷ finished ∷ [])
        ≡ record { quirks = NoQuirks; tree = codes "<!html><html><head></head><body></body></html>" } }
    // <!DOCTYPE HTML PUBLIC '-//IETF//DTD HTML//EN'></i><td><tr><i><i>
    ensures line_318 { whole (public_doctype (codes "html") (codes "-//IETF//DTD HTML//EN") ∷ end (codes "i")
        ∷ start (codes "td") ∷ start (codes "tr") ∷ start (codes "i") ∷ start (codes "i") ∷ finished ∷ [])
        ≡ record { quirks = Quirks; tree = codes "<!html><html><head></head><body><i><i></i></i></body></html>" } }
    // <!DOCTYPE HTML PUBLIC '-//IETF//DTD HTML//EN'><th></th><tr><tr><td> LF <col><tfoot>
    ensures line_387 { whole (public_doctype (codes "html") (codes "-//IETF//DTD HTML//EN") ∷ start (codes "th")
        ∷ end (codes "th") ∷ start (codes "tr") ∷ start (codes "tr") ∷ start (codes "td") ∷ words (codes "\n")
        ∷ start (codes "col") ∷ start (codes "tfoot") ∷ finished ∷ [])
        ≡ record { quirks = Quirks; tree = codes "<!html><html><head></head><body>\n</body></html>" } }
    // a<tr></tr></tr><tr><tr><td><a><table>x y<td>
    ensures line_427 { whole (words (codes "a") ∷ start (codes "tr") ∷ end (codes "tr") ∷ end (codes "tr")
        ∷ start (codes "tr") ∷ start (codes "tr") ∷ start (codes "td") ∷ start (codes "a") ∷ start (codes "table")
        ∷ words (codes "x y") ∷ start (codes "td") ∷ finished ∷ [])
        ≡ record {
          quirks = Quirks;
          tree =
              codes "<html><head></head><body>a<a>x y<table><tbody><tr><td></td></tr></tbody></table></a>"
              ++ codes "</body></html>";
        } }
    // <th><colgroup><thead><thead><tbody>
    ensures line_438 { whole (start (codes "th") ∷ start (codes "colgroup") ∷ start (codes "thead")
        ∷ start (codes "thead") ∷ start (codes "tbody") ∷ finished ∷ [])
        ≡ record { quirks = Quirks; tree = codes "<html><head></head><body></body></html>" } }
    // <!DOCTYPE HTML PUBLIC '-//IETF//DTD HTML//EN'><tr>
    ensures line_443 { whole (public_doctype (codes "html") (codes "-//IETF//DTD HTML//EN") ∷ start (codes "tr")
        ∷ words (codes " ") ∷ finished ∷ [])
        ≡ record { quirks = Quirks; tree = codes "<!html><html><head></head><body> </body></html>" } }
    // <!doctype><em>b<code><table><td><nobr>b
    ensures line_458 { whole (nameless_doctype ∷ start (codes "em") ∷ words (codes "b") ∷ start (codes "code")
        ∷ start (codes "table") ∷ start (codes "td") ∷ start (codes "nobr") ∷ words (codes "b") ∷ finished ∷ [])
        ≡ record {
          quirks = Quirks;
          tree =
              codes "<!><html><head></head><body><em>b<code><table><tbody><tr><td><nobr>b</nobr></td></tr>"
              ++ codes "</tbody></table></code></em></body></html>";
        } }
    // <!DOCTYPE html SYSTEM 'about:legacy-compat'><table> <keygen><section>ba</table></keygen>
    ensures line_476 { whole (system_only (codes "html") (codes "about:legacy-compat") ∷ start (codes "table")
        ∷ words (codes " ") ∷ start (codes "keygen") ∷ start (codes "section") ∷ words (codes "ba")
        ∷ end (codes "table") ∷ end (codes "keygen") ∷ finished ∷ [])
        ≡ record {
          quirks = NoQuirks;
          tree =
              codes "<!html><html><head></head><body><keygen></keygen><section>ba</section><table> </table>"
              ++ codes "</body></html>";
        } }
    // <!DOCTYPE html><td><td><form></form>
    ensures line_482 { whole_from without_scripts (doctype_named (codes "html") ∷ start (codes "td")
        ∷ start (codes "td") ∷ start (codes "form") ∷ end (codes "form") ∷ finished ∷ [])
        ≡ record { quirks = NoQuirks; tree = codes "<!html><html><head></head><body><form></form></body></html>" } }
    // </tr><!doctype></table><table>
    ensures line_526 { whole_from without_scripts (end (codes "tr") ∷ nameless_doctype ∷ end (codes "table")
        ∷ start (codes "table") ∷ finished ∷ [])
        ≡ record { quirks = Quirks; tree = codes "<html><head></head><body><table></table></body></html>" } }
    // <!DOCTYPE html></option><tr>
    ensures line_531 { whole (doctype_named (codes "html") ∷ end (codes "option") ∷ start (codes "tr") ∷ finished
        ∷ [])
        ≡ record { quirks = NoQuirks; tree = codes "<!html><html><head></head><body></body></html>" } }
    // <!DOCTYPE html><g><tr></tr><tfoot>
    ensures line_598 { whole_from without_scripts (doctype_named (codes "html") ∷ start (codes "g")
        ∷ start (codes "tr") ∷ end (codes "tr") ∷ start (codes "tfoot") ∷ finished ∷ [])
        ≡ record { quirks = NoQuirks; tree = codes "<!html><html><head></head><body><g></g></body></html>" } }
{}

#[tactic(auto, unfolding(tree_names::specs::Groups::tag_group, rules_table::specs::Actions::act))]
fn templates()
    // <textarea> <template></col>x y<template>
    ensures line_87 { whole (start (codes "textarea") ∷ words (codes " <template></col>x y<template>") ∷ finished
        ∷ [])
        ≡ record {
          quirks = Quirks;
          tree =
              codes "<html><head></head><body><textarea> <template></col>x y<template></textarea></body>"
              ++ codes "</html>";
        } }
    // <!DOCTYPE html PUBLIC '-//W3C//DTD HTML 4.01 Frameset//EN' 'y'>a<h2><td>b<template>
    ensures line_99 { whole_from without_scripts (
        system_doctype (codes "html") (codes "-//W3C//DTD HTML 4.01 Frameset//EN") (codes "y") ∷ words (codes "a")
        ∷ start (codes "h2") ∷ start (codes "td") ∷ words (codes "b") ∷ start (codes "template") ∷ finished ∷ [])
        ≡ record {
          quirks = LimitedQuirks;
          tree = codes "<!html><html><head></head><body>a<h2>b<template></template></h2></body></html>";
        } }
    //  LF <title></title><!DOCTYPE HTML PUBLIC '-//IETF//DTD HTML//EN'><template> <desc>
    ensures line_119 { whole (words (codes "\n") ∷ start (codes "title") ∷ end (codes "title")
        ∷ public_doctype (codes "html") (codes "-//IETF//DTD HTML//EN") ∷ start (codes "template") ∷ words (codes " ")
        ∷ start (codes "desc") ∷ finished ∷ [])
        ≡ record {
          quirks = Quirks;
          tree =
              codes "<html><head><title></title><template> <desc></desc></template></head><body></body>"
              ++ codes "</html>";
        } }
    // <script><td><head></template>
    ensures line_140 { whole_from without_scripts (start (codes "script")
        ∷ words (codes "<td type=hidden><head></template>") ∷ finished ∷ [])
        ≡ record {
          quirks = Quirks;
          tree =
              codes "<html><head><script><td type=hidden><head></template></script></head><body></body>"
              ++ codes "</html>";
        } }
    // </template><meta><template></meta><tr>
    ensures line_192 { whole (end (codes "template") ∷ start (codes "meta") ∷ start (codes "template")
        ∷ end (codes "meta") ∷ start (codes "tr") ∷ finished ∷ [])
        ≡ record {
          quirks = Quirks;
          tree = codes "<html><head><meta></meta><template><tr></tr></template></head><body></body></html>";
        } }
    // <!DOCTYPE html PUBLIC '-//W3C//DTD HTML 4.01 Frameset//EN' 'y'><template><code> LF <select>
    ensures line_198 { whole (system_doctype (codes "html") (codes "-//W3C//DTD HTML 4.01 Frameset//EN") (codes "y")
        ∷ start (codes "template") ∷ start (codes "code") ∷ words (codes "\n") ∷ start (codes "select") ∷ finished
        ∷ [])
        ≡ record {
          quirks = LimitedQuirks;
          tree =
              codes "<!html><html><head><template><code>\n<select></select></code></template></head><body>"
              ++ codes "</body></html>";
        } }
    // </template><template> </tr><template><template><td><template>
    ensures line_292 { whole (end (codes "template") ∷ start (codes "template") ∷ words (codes " ") ∷ end (codes "tr")
        ∷ start (codes "template") ∷ start (codes "template") ∷ start (codes "td") ∷ start (codes "template")
        ∷ finished ∷ [])
        ≡ record {
          quirks = Quirks;
          tree =
              codes "<html><head><template> <template><template><td><template></template></td></template>"
              ++ codes "</template></template></head><body></body></html>";
        } }
    // a<template><template></template></template><tr></tr><col><tr></col>
    ensures line_332 { whole (words (codes "a") ∷ start (codes "template") ∷ start (codes "template")
        ∷ end (codes "template") ∷ end (codes "template") ∷ start (codes "tr") ∷ end (codes "tr")
        ∷ start (codes "col") ∷ start (codes "tr") ∷ end (codes "col") ∷ finished ∷ [])
        ≡ record {
          quirks = Quirks;
          tree = codes "<html><head></head><body>a<template><template></template></template></body></html>";
        } }
    // </template></title></template><meta><rt></template>
    ensures line_338 { whole (end (codes "template") ∷ end (codes "title") ∷ end (codes "template")
        ∷ start (codes "meta") ∷ start (codes "rt") ∷ end (codes "template") ∷ finished ∷ [])
        ≡ record { quirks = Quirks; tree = codes "<html><head><meta></meta></head><body><rt></rt></body></html>" } }
    // <tbody><template><tfoot></tfoot>
    ensures line_366 { whole (start (codes "tbody") ∷ start (codes "template") ∷ start (codes "tfoot")
        ∷ end (codes "tfoot") ∷ finished ∷ [])
        ≡ record {
          quirks = Quirks;
          tree = codes "<html><head></head><body><template><tfoot></tfoot></template></body></html>";
        } }
    // <template></col><!DOCTYPE html></template>x y</template>
    ensures line_380 { whole (start (codes "template") ∷ end (codes "col") ∷ doctype_named (codes "html")
        ∷ end (codes "template") ∷ words (codes "x y") ∷ end (codes "template") ∷ finished ∷ [])
        ≡ record { quirks = Quirks; tree = codes "<html><head><template></template></head><body>x y</body></html>" } }
    //  LF <!DOCTYPE html><template></template> </template>
    ensures line_444 { whole (words (codes "\n") ∷ doctype_named (codes "html") ∷ start (codes "template")
        ∷ end (codes "template") ∷ words (codes " ") ∷ end (codes "template") ∷ finished ∷ [])
        ≡ record {
          quirks = NoQuirks;
          tree = codes "<!html><html><head><template></template> </head><body></body></html>";
        } }
    // </tr>b <template>
    ensures line_465 { whole (end (codes "tr") ∷ words (codes "b ") ∷ start (codes "template") ∷ finished ∷ [])
        ≡ record { quirks = Quirks; tree = codes "<html><head></head><body>b <template></template></body></html>" } }
    // <!doctype> </template></svg><g><tr><tr><title>
    ensures line_554 { whole (nameless_doctype ∷ words (codes " ") ∷ end (codes "template") ∷ end (codes "svg")
        ∷ start (codes "g") ∷ start (codes "tr") ∷ start (codes "tr") ∷ start (codes "title") ∷ finished ∷ [])
        ≡ record { quirks = Quirks; tree = codes "<!><html><head></head><body><g><title></title></g></body></html>" } }
{}

#[tactic(auto, unfolding(tree_names::specs::Groups::tag_group, rules_table::specs::Actions::act))]
fn selects_and_options()
    // <option> </wbr>
    ensures line_64 { whole (start (codes "option") ∷ words (codes " ") ∷ end (codes "wbr") ∷ finished ∷ [])
        ≡ record { quirks = Quirks; tree = codes "<html><head></head><body><option> </option></body></html>" } }
    // <menu><button><dialog></search>x y LF <tfoot><dialog><div><caption>
    ensures line_109 { whole (start (codes "menu") ∷ start (codes "button") ∷ start (codes "dialog")
        ∷ end (codes "search") ∷ words (codes "x y\n") ∷ start (codes "tfoot") ∷ start (codes "dialog")
        ∷ start (codes "div") ∷ start (codes "caption") ∷ finished ∷ [])
        ≡ record {
          quirks = Quirks;
          tree =
              codes "<html><head></head><body><menu><button><dialog>x y\n<dialog><div></div></dialog>"
              ++ codes "</dialog></button></menu></body></html>";
        } }
    // <input>a</input><optgroup><select><nobr> <option> <nobr><select>
    ensures line_113 { whole (start (codes "input") ∷ words (codes "a") ∷ end (codes "input")
        ∷ start (codes "optgroup") ∷ start (codes "select") ∷ start (codes "nobr") ∷ words (codes " ")
        ∷ start (codes "option") ∷ words (codes " ") ∷ start (codes "nobr") ∷ start (codes "select") ∷ finished ∷ [])
        ≡ record {
          quirks = Quirks;
          tree =
              codes "<html><head></head><body><input></input>a<optgroup><select><nobr> <option> </option>"
              ++ codes "</nobr><nobr></nobr></select></optgroup></body></html>";
        } }
    // bb<input><option><textarea><textarea><th>
    ensures line_168 { whole (words (codes "bb") ∷ start (codes "input") ∷ start (codes "option")
        ∷ start (codes "textarea") ∷ words (codes "<textarea><th id=a class=c>") ∷ finished ∷ [])
        ≡ record {
          quirks = Quirks;
          tree =
              codes "<html><head></head><body>bb<input></input><option><textarea><textarea><th id=a class=c>"
              ++ codes "</textarea></option></body></html>";
        } }
    // a<option>x y</option><hr></hr><?p><frame><optgroup>x yb
    ensures line_193 { whole_from without_scripts (words (codes "a") ∷ start (codes "option") ∷ words (codes "x y")
        ∷ end (codes "option") ∷ start (codes "hr") ∷ end (codes "hr") ∷ remark (codes "?p") ∷ start (codes "frame")
        ∷ start (codes "optgroup") ∷ words (codes "x yb") ∷ finished ∷ [])
        ≡ record {
          quirks = Quirks;
          tree =
              codes "<html><head></head><body>a<option>x y</option><hr></hr><!--?p--><optgroup>x yb"
              ++ codes "</optgroup></body></html>";
        } }
    // <!DOCTYPE html PUBLIC '-//W3C//DTD HTML 4.01 Frameset//EN' 'y'> <option><!DOCTYPE html></option>
    ensures line_216 { whole (system_doctype (codes "html") (codes "-//W3C//DTD HTML 4.01 Frameset//EN") (codes "y")
        ∷ words (codes " ") ∷ start (codes "option") ∷ doctype_named (codes "html") ∷ end (codes "option") ∷ finished
        ∷ [])
        ≡ record {
          quirks = LimitedQuirks;
          tree = codes "<!html><html><head></head><body><option></option></body></html>";
        } }
    // </></div> LF </optgroup>a<hr><select></hr>a</hr>
    ensures line_266 { whole (error ∷ end (codes "div") ∷ words (codes "\n") ∷ end (codes "optgroup")
        ∷ words (codes "a") ∷ start (codes "hr") ∷ start (codes "select") ∷ end (codes "hr") ∷ words (codes "a")
        ∷ end (codes "hr") ∷ finished ∷ [])
        ≡ record {
          quirks = Quirks;
          tree = codes "<html><head></head><body>a<hr></hr><select>a</select></body></html>";
        } }
    //  <mtext><optgroup><option><select>
    ensures line_372 { whole_from without_scripts (words (codes " ") ∷ start (codes "mtext")
        ∷ start (codes "optgroup") ∷ start (codes "option") ∷ start (codes "select") ∷ finished ∷ [])
        ≡ record {
          quirks = Quirks;
          tree =
              codes "<html><head></head><body><mtext><optgroup><option><select></select></option></optgroup>"
              ++ codes "</mtext></body></html>";
        } }
    // <col></col></malignmark></col></col>a<select>
    ensures line_506 { whole (start (codes "col") ∷ end (codes "col") ∷ end (codes "malignmark") ∷ end (codes "col")
        ∷ end (codes "col") ∷ words (codes "a") ∷ start (codes "select") ∷ finished ∷ [])
        ≡ record { quirks = Quirks; tree = codes "<html><head></head><body>a<select></select></body></html>" } }
{}

#[tactic(auto, unfolding(tree_names::specs::Groups::tag_group, rules_table::specs::Actions::act))]
fn heads_and_framesets()
    // <!DOCTYPE html SYSTEM 'about:legacy-compat'></td>
    ensures line_3 { whole (system_only (codes "html") (codes "about:legacy-compat") ∷ end (codes "td") ∷ finished
        ∷ [])
        ≡ record { quirks = NoQuirks; tree = codes "<!html><html><head></head><body></body></html>" } }
    // <?p></title>
    ensures line_24 { whole (remark (codes "?p") ∷ end (codes "title") ∷ finished ∷ [])
        ≡ record { quirks = Quirks; tree = codes "<!--?p--><html><head></head><body></body></html>" } }
    // <p></p></li><dd>
    ensures line_26 { whole (start (codes "p") ∷ end (codes "p") ∷ end (codes "li") ∷ start (codes "dd") ∷ finished
        ∷ [])
        ≡ record { quirks = Quirks; tree = codes "<html><head></head><body><p></p><dd></dd></body></html>" } }
    // <base><frame><noframes> <script>
    ensures line_44 { whole (start (codes "base") ∷ start (codes "frame") ∷ start (codes "noframes")
        ∷ words (codes " <script id=a>") ∷ finished ∷ [])
        ≡ record {
          quirks = Quirks;
          tree = codes "<html><head><base></base></head><body><noframes> <script id=a></noframes></body></html>";
        } }
    // <!DOCTYPE html PUBLIC '-//W3C//DTD HTML 4.01 Frameset//EN' 'y'>x y</frame></body> </frameset>
    ensures line_124 { whole (system_doctype (codes "html") (codes "-//W3C//DTD HTML 4.01 Frameset//EN") (codes "y")
        ∷ words (codes "x y") ∷ end (codes "frame") ∷ end (codes "body") ∷ words (codes " ") ∷ end (codes "frameset")
        ∷ finished ∷ [])
        ≡ record { quirks = LimitedQuirks; tree = codes "<!html><html><head></head><body>x y </body></html>" } }
    // <title></title></style><html></title>b
    ensures line_206 { whole (start (codes "title") ∷ end (codes "title") ∷ end (codes "style") ∷ start (codes "html")
        ∷ end (codes "title") ∷ words (codes "b") ∷ finished ∷ [])
        ≡ record { quirks = Quirks; tree = codes "<html><head><title></title></head><body>b</body></html>" } }
    // </title>b</mi></body><title><mtext></mtext>  </g> LF
    ensures line_223 { whole (end (codes "title") ∷ words (codes "b") ∷ end (codes "mi") ∷ end (codes "body")
        ∷ start (codes "title") ∷ words (codes "<mtext encoding=text/html></mtext>  </g>\n") ∷ finished ∷ [])
        ≡ record {
          quirks = Quirks;
          tree =
              codes "<html><head></head><body>b<title><mtext encoding=text/html></mtext>  </g>\n</title>"
              ++ codes "</body></html>";
        } }
    // <script>a
    ensures line_250 { whole_from without_scripts (start (codes "script") ∷ words (codes "a") ∷ finished ∷ [])
        ≡ record { quirks = Quirks; tree = codes "<html><head><script>a</script></head><body></body></html>" } }
    // </frameset></input> LF <frame> <hr><frameset>
    ensures line_306 { whole (end (codes "frameset") ∷ end (codes "input") ∷ words (codes "\n")
        ∷ start (codes "frame") ∷ words (codes " ") ∷ start (codes "hr") ∷ start (codes "frameset")
        ∷ words (codes "   ") ∷ finished ∷ [])
        ≡ record { quirks = Quirks; tree = codes "<html><head></head><body> <hr></hr>   </body></html>" } }
    // <base>b</base></base><base>
    ensures line_314 { whole (start (codes "base") ∷ words (codes "b") ∷ end (codes "base") ∷ end (codes "base")
        ∷ start (codes "base") ∷ finished ∷ [])
        ≡ record {
          quirks = Quirks;
          tree = codes "<html><head><base></base></head><body>b<base></base></body></html>";
        } }
    // <head><!DOCTYPE html PUBLIC '-//W3C//DTD HTML 4.01 Frameset//EN' 'y'>  LF <style></style>b
    ensures line_428 { whole (start (codes "head")
        ∷ system_doctype (codes "html") (codes "-//W3C//DTD HTML 4.01 Frameset//EN") (codes "y") ∷ words (codes " \n")
        ∷ start (codes "style") ∷ end (codes "style") ∷ words (codes "b") ∷ finished ∷ [])
        ≡ record { quirks = Quirks; tree = codes "<html><head> \n<style></style></head><body>b</body></html>" } }
    // <!DOCTYPE html><body></html>
    ensures line_457 { whole (doctype_named (codes "html") ∷ start (codes "body") ∷ end (codes "html") ∷ finished
        ∷ [])
        ≡ record { quirks = NoQuirks; tree = codes "<!html><html><head></head><body></body></html>" } }
{}

#[tactic(auto, unfolding(tree_names::specs::Groups::tag_group, rules_table::specs::Actions::act))]
fn formatting()
    //  <optgroup><g></code><strong></hr>
    ensures line_183 { whole (words (codes " ") ∷ start (codes "optgroup") ∷ start (codes "g") ∷ end (codes "code")
        ∷ start (codes "strong") ∷ end (codes "hr") ∷ finished ∷ [])
        ≡ record {
          quirks = Quirks;
          tree = codes "<html><head></head><body><optgroup><g><strong></strong></g></optgroup></body></html>";
        } }
    // <a><strong><a></a></>
    ensures line_342 { whole (start (codes "a") ∷ start (codes "strong") ∷ start (codes "a") ∷ end (codes "a") ∷ error
        ∷ finished ∷ [])
        ≡ record {
          quirks = Quirks;
          tree = codes "<html><head></head><body><a><strong></strong></a><strong><a></a></strong></body></html>";
        } }
    // x y</strong> LF <nobr><noscript><thead></thead><tbody><dialog>a
    ensures line_401 { whole_from without_scripts (words (codes "x y") ∷ end (codes "strong") ∷ words (codes "\n")
        ∷ start (codes "nobr") ∷ start (codes "noscript") ∷ start (codes "thead") ∷ end (codes "thead")
        ∷ start (codes "tbody") ∷ start (codes "dialog") ∷ words (codes "a") ∷ finished ∷ [])
        ≡ record {
          quirks = Quirks;
          tree =
              codes "<html><head></head><body>x y\n<nobr><noscript><dialog>a</dialog></noscript></nobr>"
              ++ codes "</body></html>";
        } }
    // <section><table></section>b<center></></center>
    ensures line_423 { whole (start (codes "section") ∷ start (codes "table") ∷ end (codes "section")
        ∷ words (codes "b") ∷ start (codes "center") ∷ error ∷ end (codes "center") ∷ words (codes " ") ∷ finished
        ∷ [])
        ≡ record {
          quirks = Quirks;
          tree =
              codes "<html><head></head><body><section>b<center></center><table> </table></section></body>"
              ++ codes "</html>";
        } }
    // </tr></textarea><search><body> x y<hr><td><plaintext></plaintext></hr>
    ensures line_464 { whole (end (codes "tr") ∷ end (codes "textarea") ∷ start (codes "search")
        ∷ start (codes "body") ∷ words (codes " x y") ∷ start (codes "hr") ∷ start (codes "td")
        ∷ start (codes "plaintext") ∷ words (codes "</plaintext></hr>") ∷ finished ∷ [])
        ≡ record {
          quirks = Quirks;
          tree =
              codes "<html><head></head><body><search> x y<hr></hr><plaintext></plaintext></hr></plaintext>"
              ++ codes "</search></body></html>";
        } }
    // <strong><html>b</strong><desc><mtext><html></html></html><script></mtext></b>
    ensures line_550 { whole_from without_scripts (start (codes "strong") ∷ start (codes "html") ∷ words (codes "b")
        ∷ end (codes "strong") ∷ start (codes "desc") ∷ start (codes "mtext") ∷ start (codes "html")
        ∷ end (codes "html") ∷ end (codes "html") ∷ start (codes "script") ∷ words (codes "</mtext></b>") ∷ finished
        ∷ [])
        ≡ record {
          quirks = Quirks;
          tree =
              codes "<html><head></head><body><strong>b</strong><desc><mtext><script></mtext></b></script>"
              ++ codes "</mtext></desc></body></html>";
        } }
    //  b</a>
    ensures line_567 { whole_from without_scripts (words (codes " b") ∷ end (codes "a") ∷ finished ∷ [])
        ≡ record { quirks = Quirks; tree = codes "<html><head></head><body>b</body></html>" } }
{}

#[tactic(auto, unfolding(tree_names::specs::Groups::tag_group, rules_table::specs::Actions::act))]
fn blocks_and_phrases()
    // <rb></rb></nobr><dialog>x y</dialog><col></dialog> <code><!--c--></colgroup>
    ensures line_154 { whole (start (codes "rb") ∷ end (codes "rb") ∷ end (codes "nobr") ∷ start (codes "dialog")
        ∷ words (codes "x y") ∷ end (codes "dialog") ∷ start (codes "col") ∷ end (codes "dialog") ∷ words (codes " ")
        ∷ start (codes "code") ∷ remark (codes "c") ∷ end (codes "colgroup") ∷ finished ∷ [])
        ≡ record {
          quirks = Quirks;
          tree =
              codes "<html><head></head><body><rb></rb><dialog>x y</dialog> <code><!--c--></code></body>"
              ++ codes "</html>";
        } }
    // <!--c--></g><section></form><mglyph><dd></dd>
    ensures line_205 { whole_from without_scripts (remark (codes "c") ∷ end (codes "g") ∷ start (codes "section")
        ∷ end (codes "form") ∷ start (codes "mglyph") ∷ start (codes "dd") ∷ end (codes "dd") ∷ words (codes " ")
        ∷ finished ∷ [])
        ≡ record {
          quirks = Quirks;
          tree =
              codes "<!--c--><html><head></head><body><section><mglyph><dd></dd> </mglyph></section></body>"
              ++ codes "</html>";
        } }
    // x y</applet><!--c--></rp><xmp><iframe><img></xmp><param><rp><image></param><keygen>
    ensures line_335 { whole_from without_scripts (words (codes "x y") ∷ end (codes "applet") ∷ remark (codes "c")
        ∷ end (codes "rp") ∷ start (codes "xmp") ∷ words (codes "<iframe><img>") ∷ end (codes "xmp")
        ∷ start (codes "param") ∷ start (codes "rp") ∷ start (codes "image") ∷ end (codes "param")
        ∷ start (codes "keygen") ∷ finished ∷ [])
        ≡ record {
          quirks = Quirks;
          tree =
              codes "<html><head></head><body>x y<!--c--><xmp><iframe><img></xmp><param></param><rp><img>"
              ++ codes "</img><keygen></keygen></rp></body></html>";
        } }
    // </rtc><img>
    ensures line_347 { whole (end (codes "rtc") ∷ start (codes "img") ∷ finished ∷ [])
        ≡ record { quirks = Quirks; tree = codes "<html><head></head><body><img></img></body></html>" } }
    // </font> </col>
    ensures line_394 { whole (end (codes "font") ∷ words (codes " ") ∷ end (codes "col") ∷ finished ∷ [])
        ≡ record { quirks = Quirks; tree = codes "<html><head></head><body></body></html>" } }
    // </form></div><!DOCTYPE html PUBLIC '-//W3C//DTD HTML 4.01 Transitional//EN'><pre><ol>
    ensures line_553 { whole (end (codes "form") ∷ end (codes "div")
        ∷ public_doctype (codes "html") (codes "-//W3C//DTD HTML 4.01 Transitional//EN") ∷ start (codes "pre")
        ∷ start (codes "ol") ∷ finished ∷ [])
        ≡ record { quirks = Quirks; tree = codes "<html><head></head><body><pre><ol></ol></pre></body></html>" } }
    // <!DOCTYPE html> LF </form></li><div><ol>
    ensures line_566 { whole_from without_scripts (doctype_named (codes "html") ∷ words (codes "\n")
        ∷ end (codes "form") ∷ end (codes "li") ∷ start (codes "div") ∷ start (codes "ol") ∷ finished ∷ [])
        ≡ record {
          quirks = NoQuirks;
          tree = codes "<!html><html><head></head><body><div><ol></ol></div></body></html>";
        } }
{}
