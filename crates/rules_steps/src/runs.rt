//! Runs of white space, and of other characters.
ghost use Rattle.std.specs.Prelude.{◌≡◌, [], chars, false, true};
ghost use Rattle.std.specs.Str.{IsUtf8};
ghost use Rattle.token_grammar.specs.Slices.{first_passes, front_while, rest_while};
ghost use Rattle.rules_table.specs.Asking.{all_are};
ghost use Rattle.rules_table.specs.Rows.{is_white_space};
ghost use Rattle.rules_steps.specs.Runs.{is_alike};

use token_grammar::slices::first_and_rest;

/// TAB, LF, FF, CR or SPACE (WHATWG HTML, 13.2.6.4).
pub(crate) fn is_white_space(c: char) -> bool
    ensures { result ≡ is_white_space c }
{
    matches!(c, '\t' | '\n' | '\x0c' | '\r' | ' ')
}

/// Whether all characters of a text are white space.
pub(crate) fn are_white_space(text: &str) -> bool
    ensures { result ≡ all_are is_white_space (chars text.now) }
{
    text.chars().all(|c| is_white_space(c))
}

/// Whether a text has no characters.
pub(crate) fn is_without_characters(text: &str) -> bool
    ensures yes { result ≡ true → chars text.now ≡ [] }
    ensures no { result ≡ false → chars text.now ≡ [] → ⊥ }
{
    match first_and_rest(text) {
        Some((_first, _rest)) => false,
        None => true,
    }
}

/// Whether the first character of a text is white space.
pub(crate) fn first_is_white_space(text: &str) -> bool
    requires { chars text.now ≡ [] → ⊥ }
    ensures { first_passes (is_alike result) (chars text.now) ≡ true }
{
    match first_and_rest(text) {
        Some((first, _rest)) => is_white_space(first),
        None => false,
    }
}

// whether a character is white space, or none
fn is_alike(c: char, is_space: bool) -> bool
    ensures { result ≡ is_alike is_space c }
{
    if is_space {
        is_white_space(c)
    } else {
        !is_white_space(c)
    }
}

/// The longest run in front of characters that all are white space, or none of which is, and what is after it.
pub(crate) fn split_alike(text: &str, is_space: bool) -> (&str, &str)
    ensures front { chars result.0.now ≡ front_while (is_alike is_space) (chars text.now) }
    ensures rest { chars result.1.now ≡ rest_while (is_alike is_space) (chars text.now) }
    ensures front_utf8 { IsUtf8 result.0.now }
    ensures rest_utf8 { IsUtf8 result.1.now }
{
    let mut length = 0;
    'split: for c in text.chars() {
        if !is_alike(c, is_space) {
            break;
        }
        length += c.len_utf8();
    }
    text.split_at(length)
}
