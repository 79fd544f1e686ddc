//! What the definitions give on rows worked out from the standard.
ghost use Rattle.std.specs.Prelude.{◌≡◌, ℕ, [], ◌∷◌, ◌++◌, true, false, codes, map, Some, None};
ghost use Rattle.lex_base.specs.References.{References};
ghost use Rattle.html_lexemes.specs.declared.states.RawKind.TheVariants.{Rawtext, Rcdata, ScriptData};
ghost use Rattle.html_lexemes.specs.declared.states.RawKind.TheVariants.{ScriptDataEscaped};
ghost use Rattle.html_lexemes.specs.declared.states.ScriptEscapeKind.TheVariants.{Escaped, DoubleEscaped};
ghost use Rattle.html_lexemes.specs.declared.states.AttrValueKind.{AttrValueKind};
ghost use Rattle.html_lexemes.specs.declared.states.DoctypeIdKind.{DoctypeIdKind};
ghost use Rattle.html_lexemes.specs.declared.states.RawKind.{RawKind};
ghost use Rattle.html_lexemes.specs.declared.states.ScriptEscapeKind.{ScriptEscapeKind};
ghost use Rattle.html_lexemes.specs.declared.states.State.TheVariants as states;
ghost use Rattle.html_lexemes.specs.declared.token.TagKind.TheVariants.{StartTag, EndTag};
ghost use Rattle.html_lexemes.specs.declared.token.TokenSinkResult.TheVariants.{Continue, EncodingIndicator, Plaintext};
ghost use Rattle.html_lexemes.specs.declared.token.TokenSinkResult.TheVariants.{RawData, Script};
ghost use Rattle.token_grammar.specs.FirstMode.{first_mode};
ghost use Rattle.token_grammar.specs.Items.{characters, comment, doctype, error, null_character, tag};
ghost use Rattle.token_grammar.specs.Lexemes.{kind_after};
ghost use Rattle.token_grammar.specs.Modes.{is_pause, last_after, next_mode, text_after, text_of_state};
ghost use Rattle.token_grammar.specs.References.{numbered, reference, value_of};
ghost use Rattle.token_grammar.specs.declared.modes.TextKind.TheVariants.{Ordinary, Plain, Raw};
ghost use Rattle.test_grammar.specs.RowWords.{doctype_with, element_items, end, end_tag, few, found, items_from};
ghost use Rattle.test_grammar.specs.RowWords.{joined, markup_states, mode_in, opts_of, ordinary_mode, page_items};
ghost use Rattle.test_grammar.specs.RowWords.{quirky, self_closed, start};
ghost use Rattle.token_grammar.specs.Tags.{attribute};

fn comments_of_rows()
    ensures three { (table : References) →
        joined (items_from table false 9 ordinary_mode (codes "<!--><!---><!--a--!>b"))
        ≡ comment [] ∷ comment [] ∷ comment (codes "a") ∷ characters (codes "b") ∷ [] }
    ensures cut { (table : References) → joined (items_from table false 9 ordinary_mode (codes "<!--a--"))
        ≡ comment (codes "a") ∷ [] }
    ensures cut_at_a_dash { (table : References) → joined (items_from table false 9 ordinary_mode (codes "<!--a-"))
        ≡ comment (codes "a") ∷ [] }
    ensures cut_at_a_mark { (table : References) → joined (items_from table false 9 ordinary_mode (codes "<!--a--!"))
        ≡ comment (codes "a") ∷ [] }
    ensures bogus { (table : References) → joined (items_from table false 9 ordinary_mode (codes "</>x<1<?pi?><!y>"))
        ≡ characters (codes "x<1") ∷ comment (codes "?pi?") ∷ comment (codes "y") ∷ [] }
    ensures unfinished_mark { (table : References) → joined (items_from table false 9 ordinary_mode (codes "a<!"))
        ≡ characters (codes "a") ∷ comment [] ∷ [] }
{}

fn sections_of_rows()
    ensures in_html { (table : References) → joined (items_from table false 9 ordinary_mode (codes "<![CDATA[a]]>"))
        ≡ comment (codes "[CDATA[a]]") ∷ [] }
    ensures foreign { (table : References) → joined (items_from table true 9 ordinary_mode (codes "<![CDATA[a]]>"))
        ≡ characters (codes "a") ∷ [] }
    ensures cut { (table : References) → joined (items_from table true 9 ordinary_mode (codes "<![CDATA[a]"))
        ≡ characters (codes "a]") ∷ [] }
{}

fn texts_of_rows()
    ensures numbers { (table : References) →
        joined (items_from table false 9 ordinary_mode (codes "&#0;&#x80;&#xD800;&#x110000;&#65"))
        ≡ characters (0xFFFD ∷ 0x20AC ∷ 0xFFFD ∷ 0xFFFD ∷ 65 ∷ []) ∷ [] }
    ensures nul { (table : References) → joined (items_from table false 9 ordinary_mode (97 ∷ 0 ∷ 98 ∷ []))
        ≡ characters (codes "a") ∷ null_character ∷ characters (codes "b") ∷ [] }
    ensures nul_in_an_element { (table : References) →
        joined (items_from table false 9 (mode_in (Raw Rcdata) (codes "title")) (97 ∷ 0 ∷ 98 ∷ []))
        ≡ characters (97 ∷ 0xFFFD ∷ 98 ∷ []) ∷ [] }
    ensures slash_at_the_end { (table : References) → joined (items_from table false 9 ordinary_mode (codes "a</"))
        ≡ characters (codes "a</") ∷ [] }
    ensures sign_at_the_end { (table : References) → joined (items_from table false 9 ordinary_mode (codes "a<"))
        ≡ characters (codes "a<") ∷ [] }
{}

fn raw_texts_of_rows()
    ensures script { (table : References) →
        joined (items_from table false 40 (mode_in (Raw ScriptData) (codes "script"))
        (codes "<!--<script></script>--></script>"))
        ≡ characters (codes "<!--<script></script>-->") ∷ end (codes "script") ∷ [] }
    ensures cut_tag { (table : References) →
        joined (items_from table false 20 (mode_in (Raw Rcdata) (codes "title")) (codes "a</title "))
        ≡ characters (codes "a") ∷ [] }
    ensures cut_name { (table : References) →
        joined (items_from table false 20 (mode_in (Raw Rcdata) (codes "title")) (codes "a</title"))
        ≡ characters (codes "a</title") ∷ [] }
    ensures other_name { (table : References) →
        joined (items_from table false 20 (mode_in (Raw Rawtext) (codes "style")) (codes "a</b></STYLE>c"))
        ≡ characters (codes "a</b>") ∷ end (codes "style") ∷ characters (codes "c") ∷ [] }
    ensures to_the_end { (table : References) →
        joined (items_from table false 20 (mode_in Plain (codes "plaintext")) (codes "a</plaintext>"))
        ≡ characters (codes "a</plaintext>") ∷ [] }
    ensures empty_comment { (table : References) →
        joined (items_from table false 20 (mode_in (Raw ScriptData) (codes "script")) (codes "<!--></script>a"))
        ≡ characters (codes "<!-->") ∷ end (codes "script") ∷ characters (codes "a") ∷ [] }
{}

fn tags_of_rows()
    ensures self_closing { (table : References) → joined (items_from table false 9 ordinary_mode (codes "<br/><p / x>"))
        ≡ tag (record {
          kind = StartTag;
          name = codes "br";
          self_closing = true;
          attrs = [];
          had_duplicate_attributes = false;
        })
        ∷ start (codes "p") (attribute (codes "x") [] ∷ []) ∷ [] }
    ensures slash_in_a_value { (table : References) → joined (items_from table false 9 ordinary_mode (codes "<p a=/>"))
        ≡ start (codes "p") (attribute (codes "a") (codes "/") ∷ []) ∷ [] }
    ensures sign_in_a_name { (table : References) → joined (items_from table false 9 ordinary_mode (codes "<p =a=b>"))
        ≡ start (codes "p") (attribute (codes "=a") (codes "b") ∷ []) ∷ [] }
    ensures duplicates { (table : References) →
        joined (items_from table false 9 ordinary_mode (codes "<P CLASS=a class=b x='&#38;'>"))
        ≡ tag (record {
          kind = StartTag;
          name = codes "p";
          self_closing = false;
          attrs = attribute (codes "class") (codes "a") ∷ attribute (codes "x") (codes "&") ∷ [];
          had_duplicate_attributes = true;
        }) ∷ [] }
    ensures cut { (table : References) → joined (items_from table false 9 ordinary_mode (codes "<a b=c")) ≡ [] }
    ensures empty_value { (table : References) → joined (items_from table false 9 ordinary_mode (codes "<a b = >c"))
        ≡ start (codes "a") (attribute (codes "b") [] ∷ []) ∷ characters (codes "c") ∷ [] }
    ensures quoted { (table : References) → joined (items_from table false 9 ordinary_mode (codes "<a b='x>'c=y>"))
        ≡ start (codes "a") (attribute (codes "b") (codes "x>") ∷ attribute (codes "c") (codes "y") ∷ []) ∷ [] }
{}

fn doctypes_of_rows()
    ensures two { (table : References) →
        joined (items_from table false 9 ordinary_mode (codes "<!doctype HTML><!DOCTYPE><p"))
        ≡ doctype (record { name = Some (codes "html"); public_id = None; system_id = None; force_quirks = false })
        ∷ quirky None ∷ [] }
    ensures identifiers { (table : References) →
        joined (items_from table false 9 ordinary_mode (codes "<!DOCTYPE html PUBLIC 'a' 'b'>"))
        ≡ doctype (record {
          name = Some (codes "html");
          public_id = Some (codes "a");
          system_id = Some (codes "b");
          force_quirks = false;
        }) ∷ [] }
    ensures no_identifier { (table : References) →
        joined (items_from table false 9 ordinary_mode (codes "<!DOCTYPE html SYSTEM>"))
        ≡ quirky (Some (codes "html")) ∷ [] }
    ensures other_word { (table : References) →
        joined (items_from table false 9 ordinary_mode (codes "<!DOCTYPE html x>"))
        ≡ quirky (Some (codes "html")) ∷ [] }
    ensures after_system { (table : References) →
        joined (items_from table false 9 ordinary_mode (codes "<!DOCTYPE a system'b'x"))
        ≡ doctype (record {
          name = Some (codes "a");
          public_id = None;
          system_id = Some (codes "b");
          force_quirks = false;
        }) ∷ [] }
    ensures cut_identifier { (table : References) →
        joined (items_from table false 9 ordinary_mode (codes "<!DOCTYPE a public'b>c"))
        ≡ doctype (record {
          name = Some (codes "a");
          public_id = Some (codes "b");
          system_id = None;
          force_quirks = true;
        }) ∷ characters (codes "c") ∷ [] }
{}

// WHATWG HTML, 13.2.5.80
fn numbers_of_rows()
    ensures from_0x80 { map numbered (0x80 ∷ 0x81 ∷ 0x82 ∷ 0x83 ∷ 0x84 ∷ 0x85 ∷ 0x86 ∷ 0x87 ∷ [])
        ≡ 0x20AC ∷ 0x81 ∷ 0x201A ∷ 0x192 ∷ 0x201E ∷ 0x2026 ∷ 0x2020 ∷ 0x2021 ∷ [] }
    ensures from_0x88 { map numbered (0x88 ∷ 0x89 ∷ 0x8A ∷ 0x8B ∷ 0x8C ∷ 0x8D ∷ 0x8E ∷ 0x8F ∷ [])
        ≡ 0x2C6 ∷ 0x2030 ∷ 0x160 ∷ 0x2039 ∷ 0x152 ∷ 0x8D ∷ 0x17D ∷ 0x8F ∷ [] }
    ensures from_0x90 { map numbered (0x90 ∷ 0x91 ∷ 0x92 ∷ 0x93 ∷ 0x94 ∷ 0x95 ∷ 0x96 ∷ 0x97 ∷ [])
        ≡ 0x90 ∷ 0x2018 ∷ 0x2019 ∷ 0x201C ∷ 0x201D ∷ 0x2022 ∷ 0x2013 ∷ 0x2014 ∷ [] }
    ensures from_0x98 { map numbered (0x98 ∷ 0x99 ∷ 0x9A ∷ 0x9B ∷ 0x9C ∷ 0x9D ∷ 0x9E ∷ 0x9F ∷ [])
        ≡ 0x2DC ∷ 0x2122 ∷ 0x161 ∷ 0x203A ∷ 0x153 ∷ 0x9D ∷ 0x17E ∷ 0x178 ∷ [] }
    ensures no_characters { map numbered (0 ∷ 0xD800 ∷ 0xDFFF ∷ 0x110000 ∷ 0xFFFFFFFFFF ∷ [])
        ≡ 0xFFFD ∷ 0xFFFD ∷ 0xFFFD ∷ 0xFFFD ∷ 0xFFFD ∷ [] }
    ensures others { map numbered (1 ∷ 13 ∷ 0x7F ∷ 0xA0 ∷ 0xD7FF ∷ 0xE000 ∷ 0xFFFE ∷ 0x10FFFF ∷ [])
        ≡ 1 ∷ 13 ∷ 0x7F ∷ 0xA0 ∷ 0xD7FF ∷ 0xE000 ∷ 0xFFFE ∷ 0x10FFFF ∷ [] }
    ensures hexadecimal { (table : References) → page_items table (codes "&#X4a;&#x4A;")
        ≡ characters (codes "JJ") ∷ [] }
    ensures leading_zeros { (table : References) → page_items table (codes "&#00074;") ≡ characters (codes "J") ∷ [] }
    ensures no_digits { (table : References) → page_items table (codes "&#;&#X;&#x")
        ≡ characters (codes "&#;&#X;&#x") ∷ [] }
    ensures no_decimal_digits { (table : References) → page_items table (codes "&#a;&#xg;")
        ≡ characters (codes "&#a;&#xg;") ∷ [] }
    ensures other_digits { (table : References) → page_items table (codes "&#74a&#x4ag")
        ≡ characters (codes "JaJg") ∷ [] }
{}

// WHATWG HTML, 13.2.5.73
fn names_of_rows()
    ensures longest { reference few (codes "notin; b") ≡ found (0x2209 ∷ []) true (codes " b") }
    ensures shorter { reference few (codes "notit; b") ≡ found (0xAC ∷ []) false (codes "it; b") }
    ensures cut { reference few (codes "notin") ≡ found (0xAC ∷ []) false (codes "in") }
    ensures closed { reference few (codes "amp;amp") ≡ found (codes "&") true (codes "amp") }
    ensures no_name { reference few (codes "no;") ≡ None }
    ensures other_case { reference few (codes "AMP;") ≡ None }
    ensures at_the_end { reference few [] ≡ None }
{}

// WHATWG HTML, 13.2.5.73 and 13.2.5.36 to 13.2.5.38
fn values_of_rows()
    ensures equals { value_of few (codes "a&amp=b") ≡ codes "a&amp=b" }
    ensures letter { value_of few (codes "a&ampb") ≡ codes "a&ampb" }
    ensures digit { value_of few (codes "a&amp0") ≡ codes "a&amp0" }
    ensures closed { value_of few (codes "a&amp;b&amp;=") ≡ codes "a&b&=" }
    ensures space { value_of few (codes "a&amp b&amp") ≡ codes "a& b&" }
    ensures longest { value_of few (codes "&notit;&notin;&not;") ≡ codes "&notit;" ++ 0x2209 ∷ 0xAC ∷ codes ";" }
    ensures number { (table : References) → value_of table (codes "&#74=&#74a&#;") ≡ codes "J=Ja&#;" }
    ensures nul { (table : References) → value_of table (codes "a\0b") ≡ 97 ∷ 0xFFFD ∷ 98 ∷ [] }
{}

// WHATWG HTML, 13.2.5.53 to 13.2.5.68
fn cut_doctypes_of_rows()
    ensures word_after_public { (table : References) → page_items table (codes "<!DOCTYPE a PUBLIC 'b' x 'c'>d")
        ≡ doctype_with (codes "a") (Some (codes "b")) None true ∷ characters (codes "d") ∷ [] }
    ensures end_after_public { (table : References) → page_items table (codes "<!DOCTYPE a PUBLIC 'b' ")
        ≡ doctype_with (codes "a") (Some (codes "b")) None true ∷ [] }
    ensures public_alone { (table : References) → page_items table (codes "<!DOCTYPE a PUBLIC \"b'c\" >d")
        ≡ doctype_with (codes "a") (Some (codes "b'c")) None false ∷ characters (codes "d") ∷ [] }
    ensures end_after_system { (table : References) → page_items table (codes "<!DOCTYPE a SYSTEM 'b' ")
        ≡ doctype_with (codes "a") None (Some (codes "b")) true ∷ [] }
    ensures word_after_system { (table : References) → page_items table (codes "<!DOCTYPE a SYSTEM \"b\" y>d")
        ≡ doctype_with (codes "a") None (Some (codes "b")) false ∷ characters (codes "d") ∷ [] }
    ensures cut_system { (table : References) → page_items table (codes "<!DOCTYPE a SYSTEM 'b>'d")
        ≡ doctype_with (codes "a") None (Some (codes "b")) true ∷ characters (codes "'d") ∷ [] }
    ensures end_in_system { (table : References) → page_items table (codes "<!DOCTYPE a PUBLIC '' 'b")
        ≡ doctype_with (codes "a") (Some []) (Some (codes "b")) true ∷ [] }
    ensures end_in_public { (table : References) → page_items table (codes "<!DOCTYPE a PUBLIC 'b")
        ≡ doctype_with (codes "a") (Some (codes "b")) None true ∷ [] }
    ensures no_quote { (table : References) → page_items table (codes "<!DOCTYPE a PUBLIC b><!DOCTYPE a SYSTEM b>")
        ≡ quirky (Some (codes "a")) ∷ quirky (Some (codes "a")) ∷ [] }
    ensures no_space { (table : References) → page_items table (codes "<!doctypeA\tpublic'b''c'>")
        ≡ doctype_with (codes "a") (Some (codes "b")) (Some (codes "c")) false ∷ [] }
    ensures end_after_name { (table : References) → page_items table (codes "<!DOCTYPE a ")
        ≡ quirky (Some (codes "a")) ∷ [] }
    ensures end_before_name { (table : References) → page_items table (codes "<!DOCTYPE ") ≡ quirky None ∷ [] }
    ensures nul { (table : References) → page_items table (codes "<!DOCTYPE a\0 SYSTEM '\0'>")
        ≡ doctype_with (97 ∷ 0xFFFD ∷ []) None (Some (0xFFFD ∷ [])) false ∷ [] }
{}

// WHATWG HTML, 13.2.5.8 and 13.2.5.32 to 13.2.5.40
fn slashes_of_rows()
    ensures between { (table : References) → page_items table (codes "<a / b / c=d / >")
        ≡ start (codes "a") (attribute (codes "b") [] ∷ attribute (codes "c") (codes "d") ∷ []) ∷ [] }
    ensures in_place_of_a_space { (table : References) → page_items table (codes "<a/b/c>")
        ≡ start (codes "a") (attribute (codes "b") [] ∷ attribute (codes "c") [] ∷ []) ∷ [] }
    ensures at_the_end { (table : References) → page_items table (codes "<a b/>")
        ≡ self_closed (codes "a") (attribute (codes "b") [] ∷ []) ∷ [] }
    ensures twice { (table : References) → page_items table (codes "<a//>") ≡ self_closed (codes "a") [] ∷ [] }
    ensures before_a_space { (table : References) → page_items table (codes "<a/ >") ≡ start (codes "a") [] ∷ [] }
    ensures in_a_value { (table : References) → page_items table (codes "<a b=c/>")
        ≡ start (codes "a") (attribute (codes "b") (codes "c/") ∷ []) ∷ [] }
    ensures after_a_quote { (table : References) → page_items table (codes "<a b='c'/>")
        ≡ self_closed (codes "a") (attribute (codes "b") (codes "c") ∷ []) ∷ [] }
    ensures of_an_end_tag { (table : References) → page_items table (codes "</A/>")
        ≡ tag (end_tag (codes "a") [] true) ∷ [] }
    ensures form_feed { (table : References) → page_items table (codes "<a\u{c}b\u{c}=\u{c}c\u{c}/>")
        ≡ self_closed (codes "a") (attribute (codes "b") (codes "c") ∷ []) ∷ [] }
    ensures other_spaces { (table : References) → page_items table (codes "<a\nb\t=\nc\td>")
        ≡ start (codes "a") (attribute (codes "b") (codes "c") ∷ attribute (codes "d") [] ∷ []) ∷ [] }
    ensures quotes { (table : References) → page_items table (codes "<a b=\"c'>\" \"d=e'f 'g>")
        ≡ start (codes "a") (attribute (codes "b") (codes "c'>") ∷ attribute (codes "\"d") (codes "e'f")
        ∷ attribute (codes "'g") [] ∷ []) ∷ [] }
    ensures nul { (table : References) → page_items table (codes "<a\0 B\0='\0'>")
        ≡ start (97 ∷ 0xFFFD ∷ []) (attribute (98 ∷ 0xFFFD ∷ []) (0xFFFD ∷ []) ∷ []) ∷ [] }
    ensures open_quote { (table : References) → page_items table (codes "a<b c='d>e") ≡ characters (codes "a") ∷ [] }
{}

// WHATWG HTML, 13.2.5.18 to 13.2.5.31
fn parts_of_scripts_of_rows()
    ensures begins { kind_after ScriptData (codes "<!--a") ≡ ScriptDataEscaped Escaped }
    ensures begins_not { map (kind_after ScriptData) (codes "<!-a" ∷ codes "<script>" ∷ codes "-->" ∷ codes "!--" ∷ [])
        ≡ ScriptData ∷ ScriptData ∷ ScriptData ∷ ScriptData ∷ [] }
    ensures ends { kind_after (ScriptDataEscaped Escaped) (codes "-->a") ≡ ScriptData }
    ensures ends_not { map (kind_after (ScriptDataEscaped Escaped)) (codes "--a" ∷ codes "->" ∷ codes "--!>"
        ∷ codes "</script>" ∷ [])
        ≡ ScriptDataEscaped Escaped ∷ ScriptDataEscaped Escaped ∷ ScriptDataEscaped Escaped
        ∷ ScriptDataEscaped Escaped ∷ [] }
    ensures doubles { map (kind_after (ScriptDataEscaped Escaped))
        (codes "<script\t" ∷ codes "<script\n" ∷ codes "<script\u{c}" ∷ codes "<script " ∷ codes "<script/"
        ∷ codes "<SCRIPT>" ∷ [])
        ≡ ScriptDataEscaped DoubleEscaped ∷ ScriptDataEscaped DoubleEscaped ∷ ScriptDataEscaped DoubleEscaped
        ∷ ScriptDataEscaped DoubleEscaped ∷ ScriptDataEscaped DoubleEscaped ∷ ScriptDataEscaped DoubleEscaped ∷ [] }
    ensures doubles_not { map (kind_after (ScriptDataEscaped Escaped)) (codes "<script" ∷ codes "<scripts>"
        ∷ codes "<scrip>" ∷ [])
        ≡ ScriptDataEscaped Escaped ∷ ScriptDataEscaped Escaped ∷ ScriptDataEscaped Escaped ∷ [] }
    ensures ends_double { map (kind_after (ScriptDataEscaped DoubleEscaped))
        (codes "</script\t" ∷ codes "</script\n" ∷ codes "</script\u{c}" ∷ codes "</script " ∷ codes "</script/"
        ∷ codes "</Script>" ∷ [])
        ≡ ScriptDataEscaped Escaped ∷ ScriptDataEscaped Escaped ∷ ScriptDataEscaped Escaped
        ∷ ScriptDataEscaped Escaped ∷ ScriptDataEscaped Escaped ∷ ScriptDataEscaped Escaped ∷ [] }
    ensures ends_double_not { map (kind_after (ScriptDataEscaped DoubleEscaped)) (codes "</script"
        ∷ codes "</scripts>" ∷ codes "<script>" ∷ [])
        ≡ ScriptDataEscaped DoubleEscaped ∷ ScriptDataEscaped DoubleEscaped ∷ ScriptDataEscaped DoubleEscaped ∷ [] }
    ensures ends_both { kind_after (ScriptDataEscaped DoubleEscaped) (codes "-->a") ≡ ScriptData }
    ensures of_other_elements { kind_after Rcdata (codes "<!--a") ∷ kind_after Rawtext (codes "<!--a") ∷ []
        ≡ Rcdata ∷ Rawtext ∷ [] }
{}

fn scripts_of_rows()
    ensures escaped { (table : References) → element_items table ScriptData (codes "script") (codes "<!--a</script>b")
        ≡ characters (codes "<!--a") ∷ end (codes "script") ∷ characters (codes "b") ∷ [] }
    ensures doubled { (table : References) →
        element_items table ScriptData (codes "script") (codes "<!--<script>a</script>b")
        ≡ characters (codes "<!--<script>a</script>b") ∷ [] }
    ensures after_double { (table : References) →
        element_items table ScriptData (codes "script") (codes "<!--<script></script></script>a")
        ≡ characters (codes "<!--<script></script>") ∷ end (codes "script") ∷ characters (codes "a") ∷ [] }
    ensures ended_twice { (table : References) →
        element_items table ScriptData (codes "script") (codes "<!--<script>--></script>a")
        ≡ characters (codes "<!--<script>-->") ∷ end (codes "script") ∷ characters (codes "a") ∷ [] }
    ensures not_doubled { (table : References) →
        element_items table ScriptData (codes "script") (codes "<!--<scripts></script>a")
        ≡ characters (codes "<!--<scripts>") ∷ end (codes "script") ∷ characters (codes "a") ∷ [] }
    ensures no_double_outside { (table : References) →
        element_items table ScriptData (codes "script") (codes "<script></script>a")
        ≡ characters (codes "<script>") ∷ end (codes "script") ∷ characters (codes "a") ∷ [] }
    ensures dash_after_dashes { (table : References) →
        element_items table ScriptData (codes "script") (codes "<!--<script>---></script>a")
        ≡ characters (codes "<!--<script>--->") ∷ end (codes "script") ∷ characters (codes "a") ∷ [] }
{}

// WHATWG HTML, 13.2.5.2 to 13.2.5.5 and 13.2.5.11
fn elements_of_rows()
    ensures references { (table : References) → element_items table Rcdata (codes "title") (codes "&#74;&#X;")
        ≡ characters (codes "J&#X;") ∷ [] }
    ensures no_references { (table : References) → element_items table Rawtext (codes "style") (codes "&#74;")
        ≡ characters (codes "&#74;") ∷ [] }
    ensures no_references_in_scripts { (table : References) →
        element_items table ScriptData (codes "script") (codes "&#74;")
        ≡ characters (codes "&#74;") ∷ [] }
    ensures form_feed { (table : References) → element_items table Rcdata (codes "title") (codes "a</title\u{c}>b")
        ≡ characters (codes "a") ∷ end (codes "title") ∷ characters (codes "b") ∷ [] }
    ensures other_spaces { (table : References) →
        element_items table Rawtext (codes "style") (codes "</style\tb></style\n></style >")
        ≡ tag (end_tag (codes "style") (attribute (codes "b") [] ∷ []) false)
        ∷ end (codes "style") ∷ end (codes "style") ∷ [] }
    ensures slash { (table : References) → element_items table Rcdata (codes "title") (codes "</Title/>")
        ≡ tag (end_tag (codes "title") [] true) ∷ [] }
    ensures longer_name { (table : References) →
        element_items table Rcdata (codes "title") (codes "</titles></titl></>")
        ≡ characters (codes "</titles></titl></>") ∷ [] }
    ensures no_last_tag { (table : References) →
        joined (items_from table false 60 (record { text = Raw Rcdata; last_start_tag = None }) (codes "a</title>"))
        ≡ characters (codes "a</title>") ∷ [] }
    ensures no_markup { (table : References) → element_items table Rcdata (codes "title") (codes "<b><!--a-->")
        ≡ characters (codes "<b><!--a-->") ∷ [] }
    ensures nul { (table : References) →
        element_items table Rawtext (codes "style") (codes "\0")
        ++ element_items table ScriptData (codes "script") (codes "\0")
        ≡ characters (0xFFFD ∷ []) ∷ characters (0xFFFD ∷ []) ∷ [] }
    ensures nul_in_plain_text { (table : References) →
        joined (items_from table false 60 (mode_in Plain (codes "plaintext")) (codes "\0<b>"))
        ≡ characters (0xFFFD ∷ codes "<b>") ∷ [] }
{}

fn items_of_rows()
    ensures comment_with { (table : References) → page_items table (codes "<!--a\0b-->")
        ≡ comment (97 ∷ 0xFFFD ∷ 98 ∷ []) ∷ [] }
    ensures bogus_comment { (table : References) → page_items table (codes "<?\0>") ≡ comment (63 ∷ 0xFFFD ∷ []) ∷ [] }
    ensures section { (table : References) → joined (items_from table true 60 ordinary_mode (codes "<![CDATA[a\0b]]>"))
        ≡ characters (codes "a") ∷ null_character ∷ characters (codes "b") ∷ [] }
    ensures end_tag_that_is_none { (table : References) → items_from table false 60 ordinary_mode (codes "</>")
        ≡ error ∷ [] }
    ensures open_number { (table : References) → items_from table false 60 ordinary_mode (codes "&#10")
        ≡ error ∷ characters (10 ∷ []) ∷ [] }
    ensures closed_number { (table : References) → items_from table false 60 ordinary_mode (codes "&#10;")
        ≡ characters (10 ∷ []) ∷ [] }
    ensures in_an_element { (table : References) →
        items_from table false 60 (mode_in (Raw Rcdata) (codes "title")) (codes "&#10")
        ≡ error ∷ characters (10 ∷ []) ∷ [] }
    ensures at_the_end { (table : References) → items_from table false 60 ordinary_mode [] ≡ [] }
{}

// the kind of text after an answer, after a tag and at the start (WHATWG HTML, 13.2.5.1 to 13.2.5.5)
fn modes_of_rows()
    ensures after_answers { map (text_after {H = ℕ})
        (Continue ∷ Script 1 ∷ Plaintext ∷ EncodingIndicator (codes "utf-8") ∷ [])
        ≡ Ordinary ∷ Ordinary ∷ Plain ∷ Ordinary ∷ [] }
    ensures after_raw_data { map (λ kind. text_after {H = ℕ} (RawData kind))
        (Rcdata ∷ Rawtext ∷ ScriptData ∷ ScriptDataEscaped DoubleEscaped ∷ [])
        ≡ Raw Rcdata ∷ Raw Rawtext ∷ Raw ScriptData ∷ Raw (ScriptDataEscaped DoubleEscaped) ∷ [] }
    ensures pauses { map (is_pause {H = ℕ}) (Script 1 ∷ EncodingIndicator [] ∷ []) ≡ true ∷ true ∷ [] }
    ensures no_pauses { map (is_pause {H = ℕ}) (Continue ∷ Plaintext ∷ RawData Rcdata ∷ [])
        ≡ false ∷ false ∷ false ∷ [] }
    ensures last_start_tag { map (last_after StartTag (codes "b")) (Some (codes "a") ∷ None ∷ [])
        ≡ Some (codes "b") ∷ Some (codes "b") ∷ [] }
    ensures after_end_tags { map (last_after EndTag (codes "b")) (Some (codes "a") ∷ None ∷ [])
        ≡ Some (codes "a") ∷ None ∷ [] }
    ensures after_a_tag { next_mode {H = ℕ} (mode_in Plain (codes "a")) (end_tag (codes "b") [] false)
        (RawData Rawtext)
        ≡ mode_in (Raw Rawtext) (codes "a") }
    ensures at_no_state { map text_of_state (None ∷ Some states.Data ∷ []) ≡ Ordinary ∷ Ordinary ∷ [] }
    ensures at_states_of_markup { (raw : RawKind) (escape : ScriptEscapeKind) (identifier :
        DoctypeIdKind) (value : AttrValueKind) →
        map (λ state. text_of_state (Some state)) (markup_states raw escape identifier value)
        ≡ map (λ _. Ordinary) (markup_states raw escape identifier value) }
    ensures at_plain_text { text_of_state (Some states.Plaintext) ≡ Plain }
    ensures at_raw_text { map (λ kind. text_of_state (Some (states.RawData kind)))
        (Rcdata ∷ Rawtext ∷ ScriptData ∷ ScriptDataEscaped Escaped ∷ ScriptDataEscaped DoubleEscaped ∷ [])
        ≡ Raw Rcdata ∷ Raw Rawtext ∷ Raw ScriptData ∷ Raw (ScriptDataEscaped Escaped)
        ∷ Raw (ScriptDataEscaped DoubleEscaped) ∷ [] }
    ensures first { first_mode (opts_of (Some (states.RawData Rcdata)) (Some (codes "title")))
        ≡ mode_in (Raw Rcdata) (codes "title") }
    ensures first_of_a_page { first_mode (opts_of None None) ≡ ordinary_mode }
{}
