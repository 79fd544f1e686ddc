//! Whole pages.
ghost use Rattle.std.specs.Prelude.{◌≡◌, [], ◌∷◌, ◌++◌, codes};
ghost use Rattle.test_rules.specs.RowWords.{doctype_named, end, error, page, start, words};

// <p>1<b>2<i>3</b>4</i>5</p>
#[tactic(auto, unfolding(tree_names::specs::Groups::tag_group, rules_table::specs::Actions::act))]
fn misnested_formatting()
    ensures { page (start (codes "p") ∷ words (codes "1") ∷ start (codes "b") ∷ words (codes "2") ∷ start (codes "i")
        ∷ words (codes "3") ∷ end (codes "b") ∷ words (codes "4") ∷ end (codes "i") ∷ words (codes "5")
        ∷ end (codes "p") ∷ [])
        ≡ codes "<html><head></head><body><p>1<b>2<i>3</i></b><i>4</i>5</p></body></html>" }
{}

// <b>1<p>2</b>3</p>
#[tactic(auto, unfolding(tree_names::specs::Groups::tag_group, rules_table::specs::Actions::act))]
fn formatting_around_a_block()
    ensures { page (start (codes "b") ∷ words (codes "1") ∷ start (codes "p") ∷ words (codes "2") ∷ end (codes "b")
        ∷ words (codes "3") ∷ end (codes "p") ∷ [])
        ≡ codes "<html><head></head><body><b>1</b><p><b>2</b>3</p></body></html>" }
{}

// <b>1<i>2<p>3</b>4
#[tactic(auto, unfolding(tree_names::specs::Groups::tag_group, rules_table::specs::Actions::act))]
fn formatting_around_formatting()
    ensures { page (start (codes "b") ∷ words (codes "1") ∷ start (codes "i") ∷ words (codes "2") ∷ start (codes "p")
        ∷ words (codes "3") ∷ end (codes "b") ∷ words (codes "4") ∷ [])
        ≡ codes "<html><head></head><body><b>1<i>2</i></b><i><p><b>3</b>4</p></i></body></html>" }
{}

// <p><b><b><b><b>x</p>y
#[tactic(auto, unfolding(tree_names::specs::Groups::tag_group, rules_table::specs::Actions::act))]
fn three_alike_are_made_anew()
    ensures { page (start (codes "p") ∷ start (codes "b") ∷ start (codes "b") ∷ start (codes "b") ∷ start (codes "b")
        ∷ words (codes "x") ∷ end (codes "p") ∷ words (codes "y") ∷ [])
        ≡ codes "<html><head></head><body><p><b><b><b><b>x</b></b></b></b></p><b><b><b>y</b></b></b>"
        ++ codes "</body></html>" }
{}

// <a>1<a>2
#[tactic(auto, unfolding(tree_names::specs::Groups::tag_group, rules_table::specs::Actions::act))]
fn anchors()
    ensures { page (start (codes "a") ∷ words (codes "1") ∷ start (codes "a") ∷ words (codes "2") ∷ [])
        ≡ codes "<html><head></head><body><a>1</a><a>2</a></body></html>" }
{}

// <table><caption>a<col>x<tr><td>b<td>c
#[tactic(auto, unfolding(tree_names::specs::Groups::tag_group, rules_table::specs::Actions::act))]
fn a_table()
    ensures { page (start (codes "table") ∷ start (codes "caption") ∷ words (codes "a") ∷ start (codes "col")
        ∷ words (codes "x") ∷ start (codes "tr") ∷ start (codes "td") ∷ words (codes "b") ∷ start (codes "td")
        ∷ words (codes "c") ∷ [])
        ≡ codes "<html><head></head><body>x<table><caption>a</caption><colgroup><col></col></colgroup>"
        ++ codes "<tbody><tr><td>b</td><td>c</td></tr></tbody></table></body></html>" }
{}

// <ul><li>a<p>b<li>c</ul><h1>d<h2>e</h1>f
#[tactic(auto, unfolding(tree_names::specs::Groups::tag_group, rules_table::specs::Actions::act))]
fn items_and_headings()
    ensures { page (start (codes "ul") ∷ start (codes "li") ∷ words (codes "a") ∷ start (codes "p")
        ∷ words (codes "b") ∷ start (codes "li") ∷ words (codes "c") ∷ end (codes "ul") ∷ start (codes "h1")
        ∷ words (codes "d") ∷ start (codes "h2") ∷ words (codes "e") ∷ end (codes "h1") ∷ words (codes "f") ∷ [])
        ≡ codes "<html><head></head><body><ul><li>a<p>b</p></li><li>c</li></ul><h1>d</h1><h2>e</h2>f"
        ++ codes "</body></html>" }
{}

// <p><button><p>a</button>b</p>
#[tactic(auto, unfolding(tree_names::specs::Groups::tag_group, rules_table::specs::Actions::act))]
fn a_paragraph_in_a_button()
    ensures { page (start (codes "p") ∷ start (codes "button") ∷ start (codes "p") ∷ words (codes "a")
        ∷ end (codes "button") ∷ words (codes "b") ∷ end (codes "p") ∷ [])
        ≡ codes "<html><head></head><body><p><button><p>a</p></button>b</p></body></html>" }
{}

// <b><object>a</b>c</object>d
#[tactic(auto, unfolding(tree_names::specs::Groups::tag_group, rules_table::specs::Actions::act))]
fn an_end_beyond_an_object()
    ensures { page (start (codes "b") ∷ start (codes "object") ∷ words (codes "a") ∷ end (codes "b")
        ∷ words (codes "c") ∷ end (codes "object") ∷ words (codes "d") ∷ [])
        ≡ codes "<html><head></head><body><b><object>ac</object>d</b></body></html>" }
{}

// <form><form><dl><dt>a<dd>b</form>c
#[tactic(auto, unfolding(tree_names::specs::Groups::tag_group, rules_table::specs::Actions::act))]
fn forms_and_definitions()
    ensures { page (start (codes "form") ∷ start (codes "form") ∷ start (codes "dl") ∷ start (codes "dt")
        ∷ words (codes "a") ∷ start (codes "dd") ∷ words (codes "b") ∷ end (codes "form") ∷ words (codes "c") ∷ [])
        ≡ codes "<html><head></head><body><form><dl><dt>a</dt><dd>b</dd>c</dl></form></body></html>" }
{}

// <table><b><tr><td>aaa</td></tr>bbb</table>ccc
#[tactic(auto, unfolding(tree_names::specs::Groups::tag_group, rules_table::specs::Actions::act))]
fn formatting_in_a_table()
    ensures { page (start (codes "table") ∷ start (codes "b") ∷ start (codes "tr") ∷ start (codes "td")
        ∷ words (codes "aaa") ∷ end (codes "td") ∷ end (codes "tr") ∷ words (codes "bbb") ∷ end (codes "table")
        ∷ words (codes "ccc") ∷ [])
        ≡ codes "<html><head></head><body><b></b><b>bbb</b><table><tbody><tr><td>aaa</td></tr></tbody>"
        ++ codes "</table><b>ccc</b></body></html>" }
{}

// <p>a<table></table>
#[tactic(auto, unfolding(tree_names::specs::Groups::tag_group, rules_table::specs::Actions::act))]
fn a_table_in_a_paragraph()
    ensures { page (start (codes "p") ∷ words (codes "a") ∷ start (codes "table") ∷ end (codes "table") ∷ [])
        ≡ codes "<html><head></head><body><p>a<table></table></p></body></html>" }
{}

// <!DOCTYPE html><p>a<table></table>
#[tactic(auto, unfolding(tree_names::specs::Groups::tag_group, rules_table::specs::Actions::act))]
fn a_table_after_a_doctype()
    ensures { page (doctype_named (codes "html") ∷ start (codes "p") ∷ words (codes "a") ∷ start (codes "table")
        ∷ end (codes "table") ∷ [])
        ≡ codes "<!html><html><head></head><body><p>a</p><table></table></body></html>" }
{}

// <select><option>a<option>b</select>c
#[tactic(auto, unfolding(tree_names::specs::Groups::tag_group, rules_table::specs::Actions::act))]
fn options()
    ensures { page (start (codes "select") ∷ start (codes "option") ∷ words (codes "a") ∷ start (codes "option")
        ∷ words (codes "b") ∷ end (codes "select") ∷ words (codes "c") ∷ [])
        ≡ codes "<html><head></head><body><select><option>a</option><option>b</option></select>c</body>"
        ++ codes "</html>" }
{}

#[tactic(auto, unfolding(tree_names::specs::Groups::tag_group, rules_table::specs::Actions::act))]
fn a_line_feed_after_pre()
    // <pre> LF a
    ensures left_out { page (start (codes "pre") ∷ words (codes "\na") ∷ [])
        ≡ codes "<html><head></head><body><pre>a</pre></body></html>" }
    // <pre></> LF a
    ensures after_an_error { page (start (codes "pre") ∷ error ∷ words (codes "\na") ∷ [])
        ≡ codes "<html><head></head><body><pre>\na</pre></body></html>" }
{}
