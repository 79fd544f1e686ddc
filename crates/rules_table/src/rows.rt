//! The words of this crate computed on worked rows.
ghost use Rattle.std.specs.Prelude.{◌≡◌, ◌∷◌, [], None, Some, codes};
ghost use Rattle.tree_predicates.specs.RowWords.{attribute};
ghost use Rattle.rules_table.specs.Encodings.{named_encoding};
ghost use Rattle.rules_table.specs.RowWords.{named_in};

fn charsets_of_rows()
    ensures alone { named_encoding (attribute (codes "charset") (codes "utf-8") ∷ []) ≡ Some (codes "utf-8") }
    ensures as_written { named_encoding (attribute (codes "charset") (codes " UTF-8;") ∷ []) ≡ Some (codes " UTF-8;") }
    ensures empty { named_encoding (attribute (codes "charset") [] ∷ []) ≡ Some [] }
    ensures first_of_two { named_encoding (attribute (codes "charset") (codes "a")
        ∷ attribute (codes "charset") (codes "b") ∷ []) ≡ Some (codes "a") }
    ensures before_type { named_encoding (attribute (codes "http-equiv") (codes "Content-Type")
        ∷ attribute (codes "content") (codes "charset=a") ∷ attribute (codes "charset") (codes "b") ∷ [])
        ≡ Some (codes "b") }
    ensures no_attributes { named_encoding [] ≡ None }
{}

fn types_of_rows()
    ensures in_capitals { named_encoding (attribute (codes "http-equiv") (codes "CONTENT-TYPE")
        ∷ attribute (codes "content") (codes "charset=a") ∷ []) ≡ Some (codes "a") }
    ensures content_first { named_encoding (attribute (codes "content") (codes "charset=a")
        ∷ attribute (codes "http-equiv") (codes "content-type") ∷ []) ≡ Some (codes "a") }
    ensures another { named_encoding (attribute (codes "http-equiv") (codes "refresh")
        ∷ attribute (codes "content") (codes "charset=a") ∷ []) ≡ None }
    ensures too_long { named_encoding (attribute (codes "http-equiv") (codes "content-type ")
        ∷ attribute (codes "content") (codes "charset=a") ∷ []) ≡ None }
    ensures no_type { named_encoding (attribute (codes "content") (codes "charset=a") ∷ []) ≡ None }
    ensures no_content { named_encoding (attribute (codes "http-equiv") (codes "content-type") ∷ []) ≡ None }
{}

fn contents_of_rows()
    ensures html { named_in (codes "text/html; charset=utf-8") ≡ Some (codes "utf-8") }
    ensures in_capitals { named_in (codes "TEXT/HTML; CHARSET=UTF-8") ≡ Some (codes "UTF-8") }
    ensures spaced { named_in (codes "text/html; charset \t=\n\r koi8-r") ≡ Some (codes "koi8-r") }
    ensures within_a_word { named_in (codes "xcharset=a") ≡ Some (codes "a") }
    ensures no_charset { named_in (codes "text/html") ≡ None }
    ensures no_equals { named_in (codes "text/html; charset") ≡ None }
    ensures later_equals { named_in (codes "charset; charset=x") ≡ Some (codes "x") }
    ensures charset_twice { named_in (codes "charset charset=x") ≡ Some (codes "x") }
    ensures first_of_two { named_in (codes "charset=a charset=b") ≡ Some (codes "a") }
    ensures empty { named_in [] ≡ None }
{}

fn names_of_rows()
    ensures double_quotes { named_in (codes "charset=\"utf 8;\"x") ≡ Some (codes "utf 8;") }
    ensures single_quotes { named_in (codes "charset='a\"b'c") ≡ Some (codes "a\"b") }
    ensures empty_quotes { named_in (codes "charset=\"\"") ≡ Some [] }
    ensures unclosed { named_in (codes "charset=\"utf-8") ≡ None }
    ensures unclosed_single { named_in (codes "charset='utf-8\"") ≡ None }
    ensures unclosed_before_another { named_in (codes "charset='a charset=b") ≡ None }
    ensures nothing_after { named_in (codes "charset=") ≡ None }
    ensures space_after { named_in (codes "charset= ") ≡ None }
    ensures up_to_semicolon { named_in (codes "charset=a;b") ≡ Some (codes "a") }
    ensures up_to_space { named_in (codes "charset=a b") ≡ Some (codes "a") }
    ensures up_to_return { named_in (codes "charset=a\rb") ≡ Some (codes "a") }
    ensures semicolon_first { named_in (codes "charset=;b") ≡ Some [] }
    ensures quote_within { named_in (codes "charset=a\"b") ≡ Some (codes "a\"b") }
{}
