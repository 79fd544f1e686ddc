//! What is held at places, computed on worked rows.
ghost use Rattle.std.specs.Prelude.{◌≡◌, [], ◌∷◌, true, false, codes, Some, None};
ghost use Rattle.lex_base.specs.References.{References};
ghost use Rattle.html_lexemes.specs.declared.states.RawKind.TheVariants.{Rawtext, Rcdata, ScriptData};
ghost use Rattle.html_lexemes.specs.declared.states.RawKind.TheVariants.{ScriptDataEscaped};
ghost use Rattle.html_lexemes.specs.declared.states.ScriptEscapeKind.TheVariants.{Escaped, DoubleEscaped};
ghost use Rattle.token_grammar.specs.Items.{comment};
ghost use Rattle.token_grammar.specs.Lexemes.{nothing, ordinary_item, emitted};
ghost use Rattle.token_grammar.specs.declared.modes.Mode.{Mode};
ghost use Rattle.token_states.specs.Goings.{is_raw_going};
ghost use Rattle.token_states.specs.MarkupSound.{is_begun_declaration, is_begun_section_end};
ghost use Rattle.token_states.specs.PlaceKinds.{is_of_text, is_open};
ghost use Rattle.token_states.specs.Places.{place_lexeme};
ghost use Rattle.token_states.specs.RawSound.{is_raw_held};
ghost use Rattle.token_states.specs.ReferenceSound.{is_reference_held};
ghost use Rattle.token_states.specs.declared.place.LexemeState.TheVariants.{BogusComment, CdataSection};
ghost use Rattle.token_states.specs.declared.place.LexemeState.TheVariants.{CharacterReference, RawText, TagOpen, Text};
ghost use Rattle.token_states.specs.declared.place.RawPlace.TheVariants.{Dashes, EndTagName, EscapeStart, EscapeWord};
ghost use Rattle.token_states.specs.declared.place.RawPlace.TheVariants.{LessThanSign};
ghost use Rattle.token_states.specs.declared.place.ReferencePlace.TheVariants.{Decimal, Hexadecimal, HexadecimalStart};
ghost use Rattle.token_states.specs.declared.place.ReferencePlace.TheVariants.{Named, Numeric};

fn kinds_of_rows()
    ensures text { is_of_text Text ≡ true }
    ensures reference { is_of_text (CharacterReference Numeric) ≡ true }
    ensures sign { is_of_text (RawText Rcdata LessThanSign) ≡ false }
    ensures section { is_of_text CdataSection ≡ false }
    ensures open_text { is_open Text ≡ true }
    ensures open_section { is_open CdataSection ≡ true }
    ensures open_reference { is_open (CharacterReference Named) ≡ false }
    ensures open_tag { is_open TagOpen ≡ false }
{}

fn markup_of_rows()
    ensures no_bracket { is_begun_section_end [] ≡ true }
    ensures brackets { is_begun_section_end (codes "]]") ≡ true }
    ensures mark { is_begun_section_end (codes "]]>") ≡ false }
    ensures three_brackets { is_begun_section_end (codes "]]]") ≡ false }
    ensures nothing_held { is_begun_declaration [] ≡ true }
    ensures dash { is_begun_declaration (codes "-") ≡ true }
    ensures dashes { is_begun_declaration (codes "--") ≡ false }
    ensures word { is_begun_declaration (codes "dOc") ≡ true }
    ensures whole_word { is_begun_declaration (codes "doctype") ≡ false }
    ensures bracket { is_begun_declaration (codes "[CDATA") ≡ true }
    ensures small_letters { is_begun_declaration (codes "[cdata") ≡ false }
{}

fn references_of_rows()
    ensures sign { is_reference_held Named [] ≡ true }
    ensures name { is_reference_held Named (codes "frac12") ≡ true }
    ensures closed { is_reference_held Named (codes "amp;") ≡ false }
    ensures number { is_reference_held Numeric (codes "#") ≡ true }
    ensures no_number { is_reference_held Numeric [] ≡ false }
    ensures large_x { is_reference_held HexadecimalStart (codes "#X") ≡ true }
    ensures no_x { is_reference_held HexadecimalStart (codes "#") ≡ false }
    ensures digits { is_reference_held Decimal (codes "#09") ≡ true }
    ensures no_digits { is_reference_held Decimal (codes "#") ≡ false }
    ensures letter { is_reference_held Decimal (codes "#1a") ≡ false }
    ensures hexadecimal { is_reference_held Hexadecimal (codes "#xfA0") ≡ true }
    ensures no_hexadecimal { is_reference_held Hexadecimal (codes "#xg") ≡ false }
{}

fn raw_texts_of_rows()
    ensures sign { is_raw_held Rawtext LessThanSign (codes "<") ≡ true }
    ensures slash { is_raw_held Rcdata EndTagName (codes "</") ≡ true }
    ensures name { is_raw_held Rcdata EndTagName (codes "</Ti") ≡ true }
    ensures space { is_raw_held Rcdata EndTagName (codes "</ti ") ≡ false }
    ensures no_end_tags { is_raw_held (ScriptDataEscaped DoubleEscaped) EndTagName (codes "</") ≡ false }
    ensures escape { is_raw_held ScriptData EscapeStart (codes "<!-") ≡ true }
    ensures whole_escape { is_raw_held ScriptData EscapeStart (codes "<!--") ≡ false }
    ensures escape_in_a_title { is_raw_held Rcdata EscapeStart (codes "<!") ≡ false }
    ensures word { is_raw_held (ScriptDataEscaped Escaped) EscapeWord (codes "<Scr") ≡ true }
    ensures other_word { is_raw_held (ScriptDataEscaped Escaped) EscapeWord (codes "<st") ≡ false }
    ensures ending_word { is_raw_held (ScriptDataEscaped DoubleEscaped) EscapeWord (codes "</script") ≡ true }
    ensures dashes { is_raw_held (ScriptDataEscaped Escaped) Dashes (codes "--") ≡ true }
    ensures three_dashes { is_raw_held (ScriptDataEscaped Escaped) Dashes (codes "---") ≡ false }
    ensures dash_in_a_script { is_raw_held ScriptData Dashes (codes "-") ≡ false }
{}

fn ends_of_rows()
    ensures sign { is_raw_going (Some (codes "title")) Rcdata LessThanSign (codes "<") ≡ true }
    ensures digit { is_raw_going (Some (codes "h1")) Rcdata LessThanSign (codes "<") ≡ false }
    ensures no_tag { is_raw_going None Rawtext LessThanSign (codes "<") ≡ false }
    ensures script { is_raw_going None ScriptData LessThanSign (codes "<") ≡ true }
    ensures name { is_raw_going (Some (codes "title")) Rcdata EndTagName (codes "</TI") ≡ true }
    ensures whole_name { is_raw_going (Some (codes "title")) Rcdata EndTagName (codes "</title") ≡ true }
    ensures longer_name { is_raw_going (Some (codes "title")) Rcdata EndTagName (codes "</titles") ≡ false }
    ensures other_name { is_raw_going (Some (codes "title")) Rcdata EndTagName (codes "</b") ≡ false }
{}

fn lexemes_of_rows()
    ensures bogus { (table : References) (mode : Mode) → place_lexeme table false mode BogusComment (codes "a>b")
        ≡ emitted (comment (codes "a") ∷ []) mode (codes "b") }
    ensures section { (table : References) (mode : Mode) → place_lexeme table true mode CdataSection (codes "a]]>b")
        ≡ emitted (ordinary_item 97 ∷ []) mode (codes "b") }
    ensures tag { (table : References) (mode : Mode) → place_lexeme table false mode TagOpen (codes "p") ≡ nothing }
{}
