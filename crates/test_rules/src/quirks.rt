//! Quirks modes, the options, and attributes that a root or a body takes later.
ghost use Rattle.std.specs.Prelude.{◌≡◌, [], ◌∷◌, codes};
ghost use Rattle.tree_forest.specs.declared.sink.QuirksMode.TheVariants.{LimitedQuirks, NoQuirks, Quirks};
ghost use Rattle.test_rules.specs.RowWords.{attributes_at, doctype_named, dropping_doctypes, end, finished};
ghost use Rattle.test_rules.specs.RowWords.{nameless_doctype, of_srcdoc, public_doctype, start, start_with};
ghost use Rattle.test_rules.specs.RowWords.{system_doctype, whole, whole_from};

#[tactic(auto, unfolding(tree_names::specs::Groups::tag_group, rules_table::specs::Actions::act))]
fn quirks_modes()
    // <p><table> and the end
    ensures without_doctype { whole (start (codes "p") ∷ start (codes "table") ∷ finished ∷ [])
        ≡ record { quirks = Quirks; tree = codes "<html><head></head><body><p><table></table></p></body></html>" } }
    // <!doctype html><p><table> and the end
    ensures doctype { whole (doctype_named (codes "html") ∷ start (codes "p") ∷ start (codes "table") ∷ finished ∷ [])
        ≡ record {
          quirks = NoQuirks;
          tree = codes "<!html><html><head></head><body><p></p><table></table></body></html>";
        } }
    // <!doctype a><p><table> and the end
    ensures another_name { whole (doctype_named (codes "a") ∷ start (codes "p") ∷ start (codes "table") ∷ finished
        ∷ [])
        ≡ record {
          quirks = Quirks;
          tree = codes "<!a><html><head></head><body><p><table></table></p></body></html>";
        } }
    // <!doctype><p><table> and the end
    ensures nameless { whole (nameless_doctype ∷ start (codes "p") ∷ start (codes "table") ∷ finished ∷ [])
        ≡ record { quirks = Quirks; tree = codes "<!><html><head></head><body><p><table></table></p></body></html>" } }
    // <!doctype html PUBLIC '-//W3C//DTD HTML 4.01 Transitional//EN'><p><table> and the end
    ensures without_system_identifier { whole (
        public_doctype (codes "html") (codes "-//W3C//DTD HTML 4.01 Transitional//EN") ∷ start (codes "p")
        ∷ start (codes "table") ∷ finished ∷ [])
        ≡ record {
          quirks = Quirks;
          tree = codes "<!html><html><head></head><body><p><table></table></p></body></html>";
        } }
    // <!doctype html PUBLIC '-//W3C//DTD HTML 4.01 Transitional//EN' 'a'><p><table> and the end
    ensures with_system_identifier { whole (
        system_doctype (codes "html") (codes "-//W3C//DTD HTML 4.01 Transitional//EN") (codes "a") ∷ start (codes "p")
        ∷ start (codes "table") ∷ finished ∷ [])
        ≡ record {
          quirks = LimitedQuirks;
          tree = codes "<!html><html><head></head><body><p></p><table></table></body></html>";
        } }
    // <!doctype html PUBLIC '-//W3C//DTD XHTML 1.0 Frameset//EN'><p><table> and the end
    ensures xhtml { whole (public_doctype (codes "html") (codes "-//W3C//DTD XHTML 1.0 Frameset//EN")
        ∷ start (codes "p") ∷ start (codes "table") ∷ finished ∷ [])
        ≡ record {
          quirks = LimitedQuirks;
          tree = codes "<!html><html><head></head><body><p></p><table></table></body></html>";
        } }
    // <!doctype html PUBLIC '-//ietf//dtd html 2.0//en'><p><table> and the end
    ensures in_any_case { whole (public_doctype (codes "html") (codes "-//ietf//dtd html 2.0//en") ∷ start (codes "p")
        ∷ start (codes "table") ∷ finished ∷ [])
        ≡ record {
          quirks = Quirks;
          tree = codes "<!html><html><head></head><body><p><table></table></p></body></html>";
        } }
    // <!doctype html PUBLIC '-//W3C//DTD HTML 4.01//EN'><p><table> and the end
    ensures strict { whole (public_doctype (codes "html") (codes "-//W3C//DTD HTML 4.01//EN") ∷ start (codes "p")
        ∷ start (codes "table") ∷ finished ∷ [])
        ≡ record {
          quirks = NoQuirks;
          tree = codes "<!html><html><head></head><body><p></p><table></table></body></html>";
        } }
    // <p><!doctype html><table> and the end
    ensures late_doctype { whole (start (codes "p") ∷ doctype_named (codes "html") ∷ start (codes "table") ∷ finished
        ∷ [])
        ≡ record { quirks = Quirks; tree = codes "<html><head></head><body><p><table></table></p></body></html>" } }
{}

#[tactic(auto, unfolding(tree_names::specs::Groups::tag_group, rules_table::specs::Actions::act))]
fn options()
    // <p><table> and the end
    ensures srcdoc { whole_from of_srcdoc (start (codes "p") ∷ start (codes "table") ∷ finished ∷ [])
        ≡ record { quirks = NoQuirks; tree = codes "<html><head></head><body><p></p><table></table></body></html>" } }
    // <!doctype><p><table> and the end
    ensures srcdoc_with_nameless_doctype { whole_from of_srcdoc (nameless_doctype ∷ start (codes "p")
        ∷ start (codes "table") ∷ finished ∷ [])
        ≡ record { quirks = Quirks; tree = codes "<!><html><head></head><body><p><table></table></p></body></html>" } }
    // <!doctype html><p><table> and the end
    ensures dropped_doctype { whole_from dropping_doctypes (doctype_named (codes "html") ∷ start (codes "p")
        ∷ start (codes "table") ∷ finished ∷ [])
        ≡ record { quirks = NoQuirks; tree = codes "<html><head></head><body><p></p><table></table></body></html>" } }
    // <!doctype><p><table> and the end
    ensures dropped_nameless_doctype { whole_from dropping_doctypes (nameless_doctype ∷ start (codes "p")
        ∷ start (codes "table") ∷ finished ∷ [])
        ≡ record { quirks = Quirks; tree = codes "<html><head></head><body><p><table></table></p></body></html>" } }
{}

// node 1 is the root, node 3 the body
#[tactic(auto, unfolding(tree_names::specs::Groups::tag_group, rules_table::specs::Actions::act))]
fn later_attributes()
    // <html a=1><html a=2>
    ensures root_keeps { attributes_at 1 (start_with (codes "html") (codes "a") (codes "1")
        ∷ start_with (codes "html") (codes "a") (codes "2") ∷ [])
        ≡ codes "a=1 " }
    // <html a=1><html b=2>
    ensures root_takes { attributes_at 1 (start_with (codes "html") (codes "a") (codes "1")
        ∷ start_with (codes "html") (codes "b") (codes "2") ∷ [])
        ≡ codes "a=1 b=2 " }
    // <head><html b=2>
    ensures in_head { attributes_at 1 (start (codes "head") ∷ start_with (codes "html") (codes "b") (codes "2") ∷ [])
        ≡ codes "b=2 " }
    // <head></head><html b=2>
    ensures after_head { attributes_at 1 (start (codes "head") ∷ end (codes "head")
        ∷ start_with (codes "html") (codes "b") (codes "2") ∷ [])
        ≡ codes "b=2 " }
    // <p><html b=2>
    ensures in_body { attributes_at 1 (start (codes "p") ∷ start_with (codes "html") (codes "b") (codes "2") ∷ [])
        ≡ codes "b=2 " }
    // <table><html b=2>
    ensures in_table { attributes_at 1 (start (codes "table") ∷ start_with (codes "html") (codes "b") (codes "2")
        ∷ [])
        ≡ codes "b=2 " }
    // <table><td><html b=2>
    ensures in_cell { attributes_at 1 (start (codes "table") ∷ start (codes "td")
        ∷ start_with (codes "html") (codes "b") (codes "2") ∷ [])
        ≡ codes "b=2 " }
    // <body></body><html b=2>
    ensures after_body { attributes_at 1 (start (codes "body") ∷ end (codes "body")
        ∷ start_with (codes "html") (codes "b") (codes "2") ∷ [])
        ≡ codes "b=2 " }
    // <body></body></html><html b=2>
    ensures after_page { attributes_at 1 (start (codes "body") ∷ end (codes "body") ∷ end (codes "html")
        ∷ start_with (codes "html") (codes "b") (codes "2") ∷ [])
        ≡ codes "b=2 " }
    // <frameset><html b=2>
    ensures in_frameset { attributes_at 1 (start (codes "frameset")
        ∷ start_with (codes "html") (codes "b") (codes "2") ∷ [])
        ≡ codes "b=2 " }
    // <frameset></frameset></html><html b=2>
    ensures after_frameset { attributes_at 1 (start (codes "frameset") ∷ end (codes "frameset") ∷ end (codes "html")
        ∷ start_with (codes "html") (codes "b") (codes "2") ∷ [])
        ≡ codes "b=2 " }
    // <template><html b=2>
    ensures not_in_template { attributes_at 1 (start (codes "template")
        ∷ start_with (codes "html") (codes "b") (codes "2") ∷ [])
        ≡ codes "" }
    // <body a=1><body a=2>
    ensures body_keeps { attributes_at 3 (start_with (codes "body") (codes "a") (codes "1")
        ∷ start_with (codes "body") (codes "a") (codes "2") ∷ [])
        ≡ codes "a=1 " }
    // <p><body b=2>
    ensures body_takes { attributes_at 3 (start (codes "p") ∷ start_with (codes "body") (codes "b") (codes "2") ∷ [])
        ≡ codes "b=2 " }
    // <body><template><p><body b=2>
    ensures body_beyond_template { attributes_at 3 (start (codes "body") ∷ start (codes "template")
        ∷ start (codes "p") ∷ start_with (codes "body") (codes "b") (codes "2") ∷ [])
        ≡ codes "" }
    // </br>
    ensures line_break_end { attributes_at 3 (end (codes "br") ∷ [])
        ≡ codes "" }
{}
