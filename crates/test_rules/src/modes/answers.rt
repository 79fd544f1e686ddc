//! What the tokenizer is answered.
ghost use Rattle.std.specs.Prelude.{◌≡◌, [], ◌∷◌, codes};
ghost use Rattle.html_lexemes.specs.declared.states.RawKind.TheVariants.{Rawtext, Rcdata, ScriptData};
ghost use Rattle.html_lexemes.specs.declared.token.TokenSinkResult.TheVariants.{Continue, EncodingIndicator, Plaintext};
ghost use Rattle.html_lexemes.specs.declared.token.TokenSinkResult.TheVariants.{RawData, Script};
ghost use Rattle.test_rules.specs.RowWords.{answer, answer_from, end, start, start_with, without_scripts, words};

// what is asked for a start tag
#[tactic(auto, unfolding(tree_names::specs::Groups::tag_group, rules_table::specs::Actions::act))]
fn raw_texts()
    // <title>
    ensures title { answer ([]) (start (codes "title"))
        ≡ RawData Rcdata }
    // <textarea>
    ensures textarea { answer ([]) (start (codes "textarea"))
        ≡ RawData Rcdata }
    // <style>
    ensures style { answer ([]) (start (codes "style"))
        ≡ RawData Rawtext }
    // <frameset> and then <noframes>
    ensures noframes { answer (start (codes "frameset") ∷ []) (start (codes "noframes"))
        ≡ RawData Rawtext }
    // <head></head> and then <script>
    ensures script { answer (start (codes "head") ∷ end (codes "head") ∷ []) (start (codes "script"))
        ≡ RawData ScriptData }
    // <p> and then <xmp>
    ensures xmp { answer (start (codes "p") ∷ []) (start (codes "xmp"))
        ≡ RawData Rawtext }
    // <iframe>
    ensures iframe { answer ([]) (start (codes "iframe"))
        ≡ RawData Rawtext }
    // <noembed>
    ensures noembed { answer ([]) (start (codes "noembed"))
        ≡ RawData Rawtext }
    // <noscript>
    ensures noscript { answer ([]) (start (codes "noscript"))
        ≡ RawData Rawtext }
    // <p> and then <noscript>
    ensures noscript_in_body { answer (start (codes "p") ∷ []) (start (codes "noscript"))
        ≡ RawData Rawtext }
    // <noscript>
    ensures noscript_without_scripts { answer_from without_scripts ([]) (start (codes "noscript"))
        ≡ Continue }
    // <p> and then <noscript>
    ensures noscript_in_body_without_scripts { answer_from without_scripts (start (codes "p") ∷ [])
        (start (codes "noscript"))
        ≡ Continue }
    // <plaintext>
    ensures plaintext { answer ([]) (start (codes "plaintext"))
        ≡ Plaintext }
    // <table> and then <textarea>
    ensures fostered { answer (start (codes "table") ∷ []) (start (codes "textarea"))
        ≡ RawData Rcdata }
    // <table>a and then <style>
    ensures after_pending_text { answer (start (codes "table") ∷ words (codes "a") ∷ []) (start (codes "style"))
        ≡ RawData Rawtext }
    // <frameset> and then <title>
    ensures ignored { answer (start (codes "frameset") ∷ []) (start (codes "title"))
        ≡ Continue }
    // <p>
    ensures other { answer ([]) (start (codes "p"))
        ≡ Continue }
{}

#[tactic(auto, unfolding(tree_names::specs::Groups::tag_group, rules_table::specs::Actions::act))]
fn encodings()
    // <meta charset=utf-8>
    ensures charset { answer ([]) (start_with (codes "meta") (codes "charset") (codes "utf-8"))
        ≡ EncodingIndicator (codes "utf-8") }
    // <p> and then <meta charset=a>
    ensures charset_in_body { answer (start (codes "p") ∷ [])
        (start_with (codes "meta") (codes "charset") (codes "a"))
        ≡ EncodingIndicator (codes "a") }
    // <head></head> and then <meta charset=a>
    ensures charset_after_head { answer (start (codes "head") ∷ end (codes "head") ∷ [])
        (start_with (codes "meta") (codes "charset") (codes "a"))
        ≡ EncodingIndicator (codes "a") }
    // <meta>
    ensures without_charset { answer ([]) (start (codes "meta"))
        ≡ Continue }
    // <meta name=a>
    ensures another_attribute { answer ([]) (start_with (codes "meta") (codes "name") (codes "a"))
        ≡ Continue }
    // <link charset=a>
    ensures another_tag { answer ([]) (start_with (codes "link") (codes "charset") (codes "a"))
        ≡ Continue }
{}

// the document is node 0, html 1, head 2, in the order in which they are made
#[tactic(auto, unfolding(tree_names::specs::Groups::tag_group, rules_table::specs::Actions::act))]
fn scripts()
    // <script> and then </script>
    ensures in_head { answer (start (codes "script") ∷ []) (end (codes "script"))
        ≡ Script 3 }
    // <p><script>a and then </script>
    ensures in_body { answer (start (codes "p") ∷ start (codes "script") ∷ words (codes "a") ∷ [])
        (end (codes "script"))
        ≡ Script 5 }
    // <title> and then </title>
    ensures title_end { answer (start (codes "title") ∷ []) (end (codes "title"))
        ≡ Continue }
    // <p> and then </script>
    ensures none_open { answer (start (codes "p") ∷ []) (end (codes "script"))
        ≡ Continue }
{}
