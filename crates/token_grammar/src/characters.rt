ghost use Rattle.std.specs.Prelude.{◌≡◌};
ghost use Rattle.std.specs.Char.{IsScalar};
ghost use Rattle.token_grammar.specs.Characters.{shown};

/// A character as text, a value or a comment shows it: NUL as U+FFFD (WHATWG HTML, 13.2.5).
pub fn shown_character(c: char) -> char
    ensures value { result ≡ shown c }
    ensures scalar { IsScalar c → IsScalar result }
{
    if c == '\0' { '\u{fffd}' } else { c }
}
