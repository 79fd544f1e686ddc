ghost use Rattle.std.specs.Prelude.{◌≡◌, ◌∷◌, [], chars, option_map, IfSome, MatchOption};
ghost use Rattle.std.specs.Str.{IsUtf8};
ghost use Rattle.std.specs.Char.{IsScalar};
ghost use Rattle.token_grammar.specs.Slices.{after, after_word, cut, front_while, rest_while};
ghost use Rattle.token_grammar.specs.Characters.{is_space};
ghost use Rattle.token_grammar.specs.Classes.{is_of};
ghost use Rattle.token_grammar.specs.Read.{cut_of};

/// What the characters of a slice have in common.
#[derive(Clone, Copy)]
pub enum CharacterClass {
    /// TAB, LF, FF and SPACE.
    Space,
    /// Spaces and `/`, which may stand between attributes.
    Gap,
    /// ASCII letters.
    Letter,
    /// 0 to 9.
    DecimalDigit,
    /// 0 to 9, and a to f in either case.
    HexadecimalDigit,
    /// What a tag's name goes on with: no space, `/` or `>`.
    TagName,
    /// What an attribute's name goes on with: no space, `/`, `>` or `=`.
    AttributeName,
    /// What a value without quotes goes on with: no space or `>`.
    Unquoted,
    /// What stands in a name for itself: neither a capital ASCII letter nor NUL.
    Lowered,
    /// What a doctype's identifier goes on with, before this quote: neither the quote nor `>`.
    Identifier(char),
}

impl CharacterClass {
    /// Whether a character is of the class.
    #[inline(always)]
    pub fn has(self, c: char) -> bool
        ensures { result ≡ is_of self c }
    {
        // what ends a name or a value stands before the letters
        match self {
            CharacterClass::Space => is_space(c),
            CharacterClass::Gap => is_space(c) || c == '/',
            CharacterClass::Letter => c.is_ascii_alphabetic(),
            CharacterClass::DecimalDigit => c.is_ascii_digit(),
            CharacterClass::HexadecimalDigit => c.is_ascii_hexdigit(),
            CharacterClass::TagName => c > '>' || !(is_space(c) || c == '/' || c == '>'),
            CharacterClass::AttributeName => {
                c > '>' || !(is_space(c) || c == '/' || c == '>' || c == '=')
            }
            CharacterClass::Unquoted => c > '>' || !(is_space(c) || c == '>'),
            CharacterClass::Lowered => !(c.is_ascii_uppercase() || c == '\0'),
            CharacterClass::Identifier(quote) => c != quote && c != '>',
        }
    }
}

// whether a character is TAB, LF, FF or SPACE
fn is_space(c: char) -> bool
    ensures { result ≡ is_space c }
{
    matches!(c, '\t' | '\n' | '\u{c}' | ' ')
}

/// The first character of a text, and what follows it.
pub fn first_and_rest(text: &str) -> Option<(char, &str)>
    ensures value { MatchOption result (chars text.now ≡ []) (λ r. chars text.now ≡ r.0 ∷ chars r.1.now) }
    ensures scalar { IfSome result (λ r. IsScalar r.0) }
    ensures utf8 { IfSome result (λ r. IsUtf8 r.1.now) }
{
    let mut rest = text.chars();
    let first = rest.next()?;
    Some((first, rest.as_str()))
}

/// The longest front of a text that is of a class, and what follows it.
#[inline(always)]
pub fn split_while(text: &str, class: CharacterClass) -> (&str, &str)
    ensures front { chars result.0.now ≡ front_while (is_of class) (chars text.now) }
    ensures rest { chars result.1.now ≡ rest_while (is_of class) (chars text.now) }
    ensures front_utf8 { IsUtf8 result.0.now }
    ensures rest_utf8 { IsUtf8 result.1.now }
{
    let mut length = 0;
    'split: for c in text.chars() {
        if !class.has(c) {
            break;
        }
        length += c.len_utf8();
    }
    text.split_at(length)
}

/// What follows a class of characters.
pub fn skip(text: &str, class: CharacterClass) -> &str
    ensures { chars result.now ≡ rest_while (is_of class) (chars text.now) }
{
    let (_, rest) = split_while(text, class);
    rest
}

/// What follows a mark, where a text begins with it.
pub fn trailing<'t>(text: &'t str, mark: &str) -> Option<&'t str>
    ensures value { option_map (λ rest. chars rest.now) result ≡ after (chars mark.now) (chars text.now) }
    ensures utf8 { IfSome result (λ rest. IsUtf8 rest.now) }
{
    text.strip_prefix(mark)
}

/// What follows a word of lower case letters, ASCII case aside, where a text begins with it.
pub fn rest_after_word<'t>(text: &'t str, word: &str) -> Option<&'t str>
    ensures value { option_map (λ rest. chars rest.now) result ≡ after_word (chars word.now) (chars text.now) }
    ensures utf8 { IfSome result (λ rest. IsUtf8 rest.now) }
{
    let mut rest = text;
    'word: for wanted in word.chars() {
        let (found, after_found) = first_and_rest(rest)?;
        if found.to_ascii_lowercase() != wanted {
            return None;
        }
        rest = after_found;
    }
    Some(rest)
}

/// The shortest slice of a text before a mark, and what follows the mark. `None` is a text without it.
pub fn cut_at<'t>(text: &'t str, mark: &str) -> Option<(&'t str, &'t str)>
    ensures value { option_map cut_of result ≡ cut (after (chars mark.now)) (chars text.now) }
    ensures slice_utf8 { IfSome result (λ r. IsUtf8 r.0.now) }
    ensures rest_utf8 { IfSome result (λ r. IsUtf8 r.1.now) }
{
    let mut length = 0;
    'cut: for c in text.chars() {
        let (slice, marked) = text.split_at(length);
        if let Some(rest) = trailing(marked, mark) {
            return Some((slice, rest));
        }
        length += c.len_utf8();
    }
    None
}

/// The slice of a text before the first of a character, and what follows this. `None` is a text without it.
pub fn cut_at_character<'t>(text: &'t str, mark: char) -> Option<(&'t str, &'t str)>
    ensures value { option_map cut_of result ≡ cut (after (mark ∷ [])) (chars text.now) }
    ensures slice_utf8 { IfSome result (λ r. IsUtf8 r.0.now) }
    ensures rest_utf8 { IfSome result (λ r. IsUtf8 r.1.now) }
{
    text.split_once(mark)
}
