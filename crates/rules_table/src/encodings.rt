//! The encoding that a `meta` names.
ghost use Rattle.std.specs.Prelude.{◌≡◌, IfSome, chars, not, option_map};
ghost use Rattle.std.specs.Str.{IsUtf8};
ghost use Rattle.token_grammar.specs.Slices.{after, cut, front_while};
ghost use Rattle.rules_table.specs.Encodings.{after_charset, after_equals, after_first, declared_encoding};
ghost use Rattle.rules_table.specs.Encodings.{declares_type, encoding_in, ends_name, is_white_space, named_encoding};
ghost use Rattle.rules_table.specs.Encodings.{slice_of, without_white_space, written_name};

use html_lexemes::Attributes;
use token_grammar::slices::{cut_at, first_and_rest, rest_after_word, trailing};
use tree_predicates::{is_in_lower_case, value_of};

/// The name of the encoding that the attributes of a `meta` tell: the value of the first `charset`, or else, where
/// `http-equiv` is `content-type` in any ASCII case, what `content` has after its first `charset` with a `=`
/// (WHATWG HTML, 13.2.6.4.4 and 2.5.3). Whether an encoding has that name is not looked at.
pub fn named_encoding(attrs: &Attributes) -> Option<&str>
    ensures name { option_map (λ name. chars name.now) result ≡ named_encoding attrs.now }
    ensures utf8 { IfSome result (λ name. IsUtf8 name.now) }
{
    match value_of(attrs, "charset") {
        Some(name) => Some(name.as_str()),
        None => declared_encoding(attrs),
    }
}

// what `content` names, where `http-equiv` says that it is of a type
fn declared_encoding(attrs: &Attributes) -> Option<&str>
    ensures name { option_map (λ name. chars name.now) result ≡ declared_encoding attrs.now }
    ensures utf8 { IfSome result (λ name. IsUtf8 name.now) }
{
    if !declares_type(attrs) {
        return None;
    }
    match value_of(attrs, "content") {
        Some(content) => encoding_in(content.as_str()),
        None => None,
    }
}

// `http-equiv` is `content-type`
fn declares_type(attrs: &Attributes) -> bool
    ensures { result ≡ declares_type attrs.now }
{
    match value_of(attrs, "http-equiv") {
        Some(value) => is_in_lower_case(value.as_str(), "content-type"),
        None => false,
    }
}

// the encoding that a content names
fn encoding_in(content: &str) -> Option<&str>
    ensures name { option_map (λ name. chars name.now) result ≡ encoding_in (chars content.now) }
    ensures utf8 { IfSome result (λ name. IsUtf8 name.now) }
{
    match after_first(content) {
        Some(rest) => written_name(rest),
        None => None,
    }
}

// what stands after the first `charset` with a `=`
fn after_first(content: &str) -> Option<&str>
    ensures rest { option_map (λ rest. chars rest.now) result ≡ after_first (chars content.now) }
    ensures utf8 { IfSome result (λ rest. IsUtf8 rest.now) }
{
    let mut left = content;
    'places: while let Some((_, later)) = first_and_rest(left) {
        if let Some(rest) = after_charset(left) {
            return Some(rest);
        }
        left = later;
    }
    None
}

// what stands after `charset` and its `=`, where a text begins with these
fn after_charset(text: &str) -> Option<&str>
    ensures rest { option_map (λ rest. chars rest.now) result ≡ after_charset (chars text.now) }
    ensures utf8 { IfSome result (λ rest. IsUtf8 rest.now) }
{
    match rest_after_word(text, "charset") {
        Some(rest) => after_equals(rest),
        None => None,
    }
}

// what stands after a `=` and the white space round it
fn after_equals(text: &str) -> Option<&str>
    ensures rest { option_map (λ rest. chars rest.now) result ≡ after_equals (chars text.now) }
    ensures utf8 { IfSome result (λ rest. IsUtf8 rest.now) }
{
    match trailing(without_white_space(text), "=") {
        Some(rest) => Some(without_white_space(rest)),
        None => None,
    }
}

// a name between quotes, or up to what ends it
fn written_name(text: &str) -> Option<&str>
    ensures name { option_map (λ name. chars name.now) result ≡ written_name (chars text.now) }
    ensures utf8 { IfSome result (λ name. IsUtf8 name.now) }
{
    let (first, rest) = first_and_rest(text)?;
    if first == '"' {
        return before(rest, "\"");
    }
    if first == '\'' {
        return before(rest, "'");
    }
    Some(unquoted_name(text))
}

// what stands before the first mark of this kind
fn before<'t>(text: &'t str, mark: &str) -> Option<&'t str>
    ensures slice { option_map (λ slice. chars slice.now) result
        ≡ option_map slice_of (cut (after (chars mark.now)) (chars text.now)) }
    ensures utf8 { IfSome result (λ slice. IsUtf8 slice.now) }
{
    match cut_at(text, mark) {
        Some((slice, _)) => Some(slice),
        None => None,
    }
}

// what stands before the first character that ends a name
fn unquoted_name(text: &str) -> &str
    ensures { chars result.now ≡ front_while (λ d. not (ends_name d)) (chars text.now) }
{
    let mut length = 0;
    'name: for c in text.chars() {
        if ends_name(c) {
            break;
        }
        length += c.len_utf8();
    }
    let (name, _) = text.split_at(length);
    name
}

// what follows the white space that a text begins with
fn without_white_space(text: &str) -> &str
    ensures { chars result.now ≡ without_white_space (chars text.now) }
{
    let mut rest = text;
    'spaces: while let Some((c, later)) = first_and_rest(rest) {
        if !is_white_space(c) {
            return rest;
        }
        rest = later;
    }
    rest
}

// white space, or `;`
fn ends_name(c: char) -> bool
    ensures { result ≡ ends_name c }
{
    is_white_space(c) || c == ';'
}

fn is_white_space(c: char) -> bool
    ensures { result ≡ is_white_space c }
{
    matches!(c, '\t' | '\n' | '\u{c}' | '\r' | ' ')
}
