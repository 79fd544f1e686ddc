//! The definitions, computed on worked rows.
ghost use Rattle.std.specs.Prelude.{◌≡◌, [], ◌∷◌, codes, true, false, Some, None, Err};
ghost use Rattle.std.specs.FinMap as finite;
ghost use Rattle.lex_base.specs.References.{all_checked, basic, checked, is_name, is_value, references};
ghost use Rattle.lex_base.specs.declared.table_error.TableError.TheVariants.{BadCodePoints, BadName};

fn basic_references_of_rows()
    ensures amp { finite.get basic (codes "amp;") ≡ Some (38 ∷ []) }
    ensures nbsp { finite.get basic (codes "nbsp;") ≡ Some (160 ∷ []) }
    ensures other { finite.get basic (codes "amp") ≡ None }
{}

fn names_of_rows()
    ensures letters { is_name (codes "not") ≡ true }
    ensures semicolon { is_name (codes "notin;") ≡ true }
    ensures digits { is_name (codes "frac12;") ≡ true }
    ensures semicolon_inside { is_name (codes "a;b") ≡ false }
    ensures two_semicolons { is_name (codes "a;;") ≡ false }
    ensures semicolon_alone { is_name (codes ";") ≡ false }
    ensures nothing { is_name [] ≡ false }
    ensures space { is_name (codes "a b") ≡ false }
    ensures sign { is_name (codes "&a") ≡ false }
{}

fn values_of_rows()
    ensures one { is_value (172 ∷ []) ≡ true }
    ensures two { is_value (60 ∷ 0x20D2 ∷ []) ≡ true }
    ensures nothing { is_value [] ≡ false }
    ensures three { is_value (1 ∷ 2 ∷ 3 ∷ []) ≡ false }
    ensures nul { is_value (0 ∷ []) ≡ false }
    ensures surrogate { is_value (55296 ∷ []) ≡ false }
    ensures last_character { is_value (0x10FFFF ∷ []) ≡ true }
    ensures past_the_last { is_value (1114112 ∷ []) ≡ false }
{}

fn pairs_of_rows()
    ensures name_first { checked (codes "a;b", []) ≡ Err (BadName (codes "a;b")) }
    ensures value { checked (codes "a", []) ≡ Err (BadCodePoints (codes "a")) }
    ensures first_fault { all_checked ((codes "a", 1 ∷ []) ∷ (codes "b", 0 ∷ []) ∷ ([], 1 ∷ []) ∷ [])
        ≡ Err (BadCodePoints (codes "b")) }
    ensures last_value { finite.get (references ((codes "a", 1 ∷ []) ∷ (codes "b", 2 ∷ []) ∷ (codes "a", 3 ∷ []) ∷ []))
        (codes "a")
        ≡ Some (3 ∷ []) }
    ensures other_name { finite.get (references ((codes "a", 1 ∷ []) ∷ (codes "b", 2 ∷ []) ∷ (codes "a", 3 ∷ []) ∷ []))
        (codes "b")
        ≡ Some (2 ∷ []) }
{}
