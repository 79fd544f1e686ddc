//! Texts beside words of ASCII characters, letters of ASCII in either case alike where it is said (WHATWG Infra, 4.5).
ghost use Rattle.std.specs.Prelude.{◌≡◌, ◌++◌, false, bytes_eq, chars, IfSome, IsTrue, MatchOption};
ghost use Rattle.std.specs.Str.{IsUtf8};
ghost use Rattle.tree_names.specs.Sets.{is_ascii_word};
ghost use Rattle.tree_predicates.specs.Attributes.{in_lower_case};
ghost use Rattle.tree_predicates.specs.Quirks.{begins_with};

/// Whether a text is this word.
pub(crate) fn is_word(text: &str, word: &str) -> bool
    requires { IsTrue (is_ascii_word word.now) }
    ensures { result ≡ bytes_eq (chars text.now) word.now }
{
    text == word
}

/// Whether a text, its ASCII letters in lower case, is this word of ASCII characters.
pub fn is_in_lower_case(text: &str, word: &str) -> bool
    requires { IsTrue (is_ascii_word word.now) }
    ensures { result ≡ bytes_eq (in_lower_case (chars text.now)) word.now }
{
    is_lower_case_of(word, text)
}

/// Whether a word is a text in lower case.
pub(crate) fn is_lower_case_of(word: &str, text: &str) -> bool
    ensures { result ≡ bytes_eq (in_lower_case (chars text.now)) (chars word.now) }
{
    match after_in_lower_case(text, word) {
        Some(rest) => rest.is_empty(),
        None => false,
    }
}

/// Whether a text in lower case begins with this word.
pub(crate) fn begins_in_lower_case(text: &str, word: &str) -> bool
    requires { IsTrue (is_ascii_word word.now) }
    ensures { result ≡ begins_with (in_lower_case (chars text.now)) word.now }
{
    after_in_lower_case(text, word).is_some()
}

// what follows a word, where a text in lower case begins with it
fn after_in_lower_case<'t>(text: &'t str, word: &str) -> Option<&'t str>
    ensures value { MatchOption result (begins_with (in_lower_case (chars text.now)) (chars word.now) ≡ false)
        (λ rest. in_lower_case (chars text.now) ≡ chars word.now ++ in_lower_case (chars rest.now)) }
    ensures utf8 { IfSome result (λ rest. IsUtf8 rest.now) }
{
    let mut rest = text.chars();
    'word: for wanted in word.chars() {
        let found = rest.next()?;
        if found.to_ascii_lowercase() != wanted {
            return None;
        }
    }
    Some(rest.as_str())
}
