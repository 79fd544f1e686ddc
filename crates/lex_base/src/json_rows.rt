//! The table of a JSON text, computed on worked rows.
ghost use Rattle.std.specs.Prelude.{◌≡◌, [], ◌∷◌, codes, Ok, Err};
ghost use Rattle.lex_base.specs.References.{references};
ghost use Rattle.lex_base.specs.Json.{table_of_json};

use crate::table_error::TableError;

fn faults_of_rows()
    ensures cut_short { table_of_json (codes "{") ≡ Err TableError.NotJson }
    ensures list { table_of_json (codes "[]") ≡ Err TableError.NotAnObject }
    ensures no_ampersand { table_of_json (codes "{\"amp\":{\"codepoints\":[38]}}")
        ≡ Err (TableError.BadName (codes "amp")) }
    ensures no_code_point { table_of_json (codes "{\"&x\":{\"codepoints\":[]}}")
        ≡ Err (TableError.BadCodePoints (codes "&x")) }
    ensures surrogate { table_of_json (codes "{\"&b;\":{\"codepoints\":[55296]}}")
        ≡ Err (TableError.BadCodePoints (codes "&b;")) }
    ensures name_first { table_of_json (codes "{\"&c\":{\"codepoints\":[1.5]},\"&a b\":{\"codepoints\":[1]}}")
        ≡ Err (TableError.BadName (codes "&a b")) }
{}

fn tables_of_rows()
    ensures two { table_of_json (codes "{\"&not\":{\"codepoints\":[172]},\"&notin;\":{\"codepoints\":[8713]}}")
        ≡ Ok (references ((codes "not", 172 ∷ []) ∷ (codes "notin;", 8713 ∷ []) ∷ [])) }
    ensures two_characters { table_of_json (codes "{\"&bne;\":{\"codepoints\":[61,8421]}}")
        ≡ Ok (references ((codes "bne;", 61 ∷ 8421 ∷ []) ∷ [])) }
    ensures empty { table_of_json (codes "{}") ≡ Ok (references []) }
{}
