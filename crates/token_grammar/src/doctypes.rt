ghost use Rattle.std.specs.Prelude.{◌≡◌, ◌∷◌, [], chars, option_map, false, true, IfOk, IfSome, MatchOption};
ghost use Rattle.std.specs.Str.{IsUtf8};
ghost use Rattle.token_grammar.specs.Doctypes.{after_keyword, after_public, after_system, doctype_at, ends_here};
ghost use Rattle.token_grammar.specs.Doctypes.{is_quote, public_at, skipped, system_at, with_quirks};
ghost use Rattle.token_grammar.specs.Read.{doctype_and_rest};
ghost use Rattle.token_grammar.specs.Slices.{after, first_passes};

use crate::comments::{bogus_comment_slice, shown};
use crate::slices::{CharacterClass, first_and_rest, rest_after_word, skip, split_while, trailing};
use crate::tags::name_of;
use html_lexemes::Doctype;
use std::alloc::{AllocError, Global};

/// The doctype after `<!doctype`, and what follows it (WHATWG HTML, 13.2.5.53 to 13.2.5.68). The error is allocation
/// failure alone.
pub fn doctype_at(alloc: Global, text: &str) -> Result<(Doctype, &str), AllocError>
    ensures value { IfOk result (λ read. doctype_and_rest read ≡ doctype_at (chars text.now)) }
    ensures utf8 { IfOk result (λ read. IsUtf8 read.1.now) }
{
    let (name, rest) = split_while(skip(text, CharacterClass::Space), CharacterClass::Unquoted);
    let mut doctype = Doctype {
        name: None,
        public_id: None,
        system_id: None,
        force_quirks: false,
    };
    if name.is_empty() {
        return Ok(cut_short(doctype, rest));
    }
    doctype.name = Some(name_of(alloc, name)?);
    after_keyword(alloc, doctype, skip(rest, CharacterClass::Space))
}

// what stands after a name, over spaces
fn after_keyword(alloc: Global, doctype: Doctype, text: &str) -> Result<(Doctype, &str), AllocError>
    ensures value { IfOk result (λ read. doctype_and_rest read ≡ after_keyword doctype (chars text.now)) }
    ensures utf8 { IfOk result (λ read. IsUtf8 read.1.now) }
{
    if let Some(rest) = rest_after_word(text, "public") {
        return after_public(alloc, doctype, skip(rest, CharacterClass::Space));
    }
    let Some(rest) = rest_after_word(text, "system") else {
        return Ok(ends_here(doctype, text));
    };
    let rest = skip(rest, CharacterClass::Space);
    match after_opening_quote(rest) {
        Some((quote, identifier)) => system_at(alloc, doctype, quote, identifier),
        None => Ok(cut_short(doctype, rest)),
    }
}

// a public identifier, and perhaps a system identifier after it
fn after_public(alloc: Global, doctype: Doctype, text: &str) -> Result<(Doctype, &str), AllocError>
    ensures value { IfOk result (λ read. doctype_and_rest read ≡ after_public doctype (chars text.now)) }
    ensures utf8 { IfOk result (λ read. IsUtf8 read.1.now) }
{
    match after_opening_quote(text) {
        Some((quote, identifier)) => public_at(alloc, doctype, quote, identifier),
        None => Ok(cut_short(doctype, text)),
    }
}

// a public identifier after its quote, and perhaps a system identifier
fn public_at(
    alloc: Global,
    mut doctype: Doctype,
    quote: char,
    text: &str,
) -> Result<(Doctype, &str), AllocError>
    ensures value { IfOk result (λ read. doctype_and_rest read ≡ public_at doctype quote (chars text.now)) }
    ensures utf8 { IfOk result (λ read. IsUtf8 read.1.now) }
{
    let (identifier, rest) = split_while(text, CharacterClass::Identifier(quote));
    doctype.public_id = Some(shown(alloc, identifier)?);
    let Some(rest) = after_closing_quote(rest, quote) else {
        return Ok(cut_short(doctype, rest));
    };
    let rest = skip(rest, CharacterClass::Space);
    match after_opening_quote(rest) {
        Some((quote, identifier)) => system_at(alloc, doctype, quote, identifier),
        None => Ok(ends_here(doctype, rest)),
    }
}

// a system identifier, after its quote
fn system_at(
    alloc: Global,
    mut doctype: Doctype,
    quote: char,
    text: &str,
) -> Result<(Doctype, &str), AllocError>
    ensures value { IfOk result (λ read. doctype_and_rest read ≡ system_at doctype quote (chars text.now)) }
    ensures utf8 { IfOk result (λ read. IsUtf8 read.1.now) }
{
    let (identifier, rest) = split_while(text, CharacterClass::Identifier(quote));
    doctype.system_id = Some(shown(alloc, identifier)?);
    match after_closing_quote(rest, quote) {
        Some(rest) => Ok(after_system(doctype, skip(rest, CharacterClass::Space))),
        None => Ok(cut_short(doctype, rest)),
    }
}

// the quote that a text begins with, and what follows it
fn after_opening_quote(text: &str) -> Option<(char, &str)>
    ensures value { MatchOption result (first_passes is_quote (chars text.now) ≡ false)
        (λ r. (chars text.now ≡ r.0 ∷ chars r.1.now) × (is_quote r.0 ≡ true)) }
    ensures utf8 { IfSome result (λ r. IsUtf8 r.1.now) }
{
    let (first, rest) = first_and_rest(text)?;
    if first == '"' || first == '\'' {
        Some((first, rest))
    } else {
        None
    }
}

// what follows a quote, where a text begins with it
fn after_closing_quote(text: &str, quote: char) -> Option<&str>
    ensures value { option_map (λ rest. chars rest.now) result ≡ after (quote ∷ []) (chars text.now) }
    ensures utf8 { IfSome result (λ rest. IsUtf8 rest.now) }
{
    let (first, rest) = first_and_rest(text)?;
    if first == quote { Some(rest) } else { None }
}

// after a system identifier: the end sets the flag, and what else stands there is skipped
fn after_system(doctype: Doctype, text: &str) -> (Doctype, &str)
    ensures value { doctype_and_rest result ≡ after_system doctype (chars text.now) }
    ensures utf8 { IsUtf8 result.1.now }
{
    if text.is_empty() {
        cut_short(doctype, text)
    } else {
        skipped(doctype, text)
    }
}

// `>` ends a doctype as it is, and anything else with the flag
fn ends_here(doctype: Doctype, text: &str) -> (Doctype, &str)
    ensures value { doctype_and_rest result ≡ ends_here doctype (chars text.now) }
    ensures utf8 { IsUtf8 result.1.now }
{
    match trailing(text, ">") {
        Some(rest) => (doctype, rest),
        None => cut_short(doctype, text),
    }
}

// the rest up to `>` is skipped, with the flag
fn cut_short(mut doctype: Doctype, text: &str) -> (Doctype, &str)
    ensures value { doctype_and_rest result ≡ skipped (with_quirks doctype) (chars text.now) }
    ensures utf8 { IsUtf8 result.1.now }
{
    doctype.force_quirks = true;
    skipped(doctype, text)
}

// the rest up to `>` is skipped
fn skipped(doctype: Doctype, text: &str) -> (Doctype, &str)
    ensures value { doctype_and_rest result ≡ skipped doctype (chars text.now) }
    ensures utf8 { IsUtf8 result.1.now }
{
    let (_, rest) = bogus_comment_slice(text);
    (doctype, rest)
}
