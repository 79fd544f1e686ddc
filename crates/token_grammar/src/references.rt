ghost use Rattle.std.specs.Prelude.{◌≡◌, ◌==◌, ◌||◌, ◌≤◌, if◌then◌else◌, IfOk, IfSome, IsTrue, chars, not, option_map};
ghost use Rattle.std.specs.Prelude.{true};
ghost use Rattle.std.specs.Char.{IsScalar};
ghost use Rattle.std.specs.List.{list_all, list_any};
ghost use Rattle.std.specs.Str.{IsUtf8};
ghost use Rattle.lex_base.specs.References.{References};
ghost use Rattle.token_grammar.specs.Characters.{is_alphanumeric, is_digit};
ghost use Rattle.token_grammar.specs.Classes.{is_of};
ghost use Rattle.token_grammar.specs.Read.{found_of};
ghost use Rattle.token_grammar.specs.References.{after_number_sign, named, number_of, numbered, numeric, reference};
ghost use Rattle.token_grammar.specs.References.{reference_in_value, value_of};
ghost use Rattle.token_grammar.specs.Slices.{first_passes};

use crate::characters::shown_character;
use crate::slices::{CharacterClass, first_and_rest, split_while, trailing};
use html_lexemes::{ReferenceTable, Text};
use std::alloc::{AllocError, Global};

/// A reference that stands after a `&`.
#[derive(Drop)]
pub struct Found<'t> {
    /// What it stands for.
    pub characters: Text,
    /// Whether a semicolon ends it.
    pub closed: bool,
    /// What follows it.
    pub rest: &'t str,
}

/// The reference that stands after a `&`, if there is one (WHATWG HTML, 13.2.5.72). The error is allocation failure
/// alone.
pub fn reference<'t>(
    alloc: Global,
    table: &ReferenceTable,
    text: &'t str,
) -> Result<Option<Found<'t>>, AllocError>
    ensures value { IfOk result (λ found. option_map found_of found ≡ reference table.now (chars text.now)) }
    ensures utf8 { IfOk result (λ found. IfSome found (λ f. IsUtf8 f.rest.now)) }
{
    match trailing(text, "#") {
        Some(rest) => numeric(alloc, rest),
        None => named(alloc, table, text),
    }
}

/// The reference that stands after a `&` in an attribute's value (WHATWG HTML, 13.2.5.73): a name without its
/// semicolon is none before `=`, a letter or a digit. The error is allocation failure alone.
pub fn reference_in_value<'t>(
    alloc: Global,
    table: &ReferenceTable,
    text: &'t str,
) -> Result<Option<Found<'t>>, AllocError>
    ensures value { IfOk result (λ found. option_map found_of found ≡ reference_in_value table.now (chars text.now)) }
    ensures utf8 { IfOk result (λ found. IfSome found (λ f. IsUtf8 f.rest.now)) }
{
    if let Some(rest) = trailing(text, "#") {
        return numeric(alloc, rest);
    }
    let Some(found) = named(alloc, table, text)? else {
        return Ok(None);
    };
    if is_kept(&found) {
        Ok(Some(found))
    } else {
        Ok(None)
    }
}

// whether a name is a reference in a value too
fn is_kept(found: &Found<'_>) -> bool
    ensures { result
        ≡ (found.now.closed || not (first_passes (λ c. c == 61 || is_alphanumeric c) (chars found.now.rest.now))) }
{
    found.closed || !goes_on(found.rest)
}

/// An attribute's value, its references read and each NUL as U+FFFD. The error is allocation failure alone.
pub fn value_of(alloc: Global, table: &ReferenceTable, text: &str) -> Result<Text, AllocError>
    ensures { IfOk result (λ value. value ≡ value_of table.now (chars text.now)) }
{
    if is_shown(text) {
        return Text::from_str(alloc, text);
    }
    let mut value = String::new(alloc);
    let mut rest = text;
    'value: while let Some((c, after_c)) = first_and_rest(rest) {
        if let Some(found) = reference_after(alloc, table, c, after_c)? {
            value.push_str(found.characters.as_str())?;
            rest = found.rest;
            continue;
        }
        value.push(shown_character(c))?;
        rest = after_c;
    }
    Ok(Text::from(value))
}

// whether a value is what is written: it has no reference and no NUL
fn is_shown(text: &str) -> bool
    ensures { (table : References) → result ≡ true → value_of table (chars text.now) ≡ chars text.now }
{
    !text.contains('&') && !text.contains('\0')
}

// the reference after a character of an attribute's value, which is one after `&` alone
fn reference_after<'t>(
    alloc: Global,
    table: &ReferenceTable,
    c: char,
    text: &'t str,
) -> Result<Option<Found<'t>>, AllocError>
    ensures value { IfOk result (λ found. option_map found_of found
        ≡ (if c == 38 then reference_in_value table.now (chars text.now) else None)) }
    ensures utf8 { IfOk result (λ found. IfSome found (λ f. IsUtf8 f.rest.now)) }
{
    if c == '&' {
        reference_in_value(alloc, table, text)
    } else {
        Ok(None)
    }
}

// whether a text begins with `=`, a letter or a digit
fn goes_on(text: &str) -> bool
    ensures { result ≡ first_passes (λ c. c == 61 || is_alphanumeric c) (chars text.now) }
{
    match first_and_rest(text) {
        Some((c, _)) => c == '=' || c.is_ascii_alphanumeric(),
        None => false,
    }
}

// the longest name of the table that a text begins with
fn named<'t>(
    alloc: Global,
    table: &ReferenceTable,
    text: &'t str,
) -> Result<Option<Found<'t>>, AllocError>
    ensures value { IfOk result (λ found. option_map found_of found ≡ named table.now (chars text.now)) }
    ensures utf8 { IfOk result (λ found. IfSome found (λ f. IsUtf8 f.rest.now)) }
{
    let Some(longest) = table.longest_name(text) else {
        return Ok(None);
    };
    let Some(rest) = trailing(text, longest.name) else {
        return Ok(None);
    };
    Ok(Some(Found {
        characters: Text::from_str(alloc, longest.value)?,
        closed: is_closed(longest.name),
        rest,
    }))
}

// whether a name has a semicolon
fn is_closed(name: &str) -> bool
    ensures { result ≡ list_any (λ c. c == 59) (chars name.now) }
{
    name.contains(';')
}

// the number after `#`
fn numeric(alloc: Global, text: &str) -> Result<Option<Found<'_>>, AllocError>
    ensures value { IfOk result (λ found. option_map found_of found ≡ after_number_sign (chars text.now)) }
    ensures utf8 { IfOk result (λ found. IfSome found (λ f. IsUtf8 f.rest.now)) }
{
    match trailing(text, "x").or(trailing(text, "X")) {
        Some(rest) => number(alloc, rest, 16, CharacterClass::HexadecimalDigit),
        None => number(alloc, text, 10, CharacterClass::DecimalDigit),
    }
}

// digits to a base, at least one, and an optional semicolon
fn number(
    alloc: Global,
    text: &str,
    base: u32,
    class: CharacterClass,
) -> Result<Option<Found<'_>>, AllocError>
    requires least { 2 ≤ base }
    requires most { base ≤ 36 }
    requires digits { is_of class ≡ is_digit base }
    ensures value { IfOk result (λ found. option_map found_of found ≡ numeric base (chars text.now)) }
    ensures utf8 { IfOk result (λ found. IfSome found (λ f. IsUtf8 f.rest.now)) }
{
    let (digits, rest) = split_while(text, class);
    if digits.is_empty() {
        return Ok(None);
    }
    let mut characters = String::new(alloc);
    characters.push(numbered(number_of(base, digits)))?;
    let end = trailing(rest, ";");
    Ok(Some(Found {
        characters: Text::from(characters),
        closed: end.is_some(),
        rest: end.unwrap_or(rest),
    }))
}

// the number that digits spell, and some number above 0x10FFFF in place of a greater one
fn number_of(base: u32, digits: &str) -> u32
    requires least { 2 ≤ base }
    requires most { base ≤ 36 }
    requires digits { IsTrue (list_all (is_digit base) (chars digits.now)) }
    ensures { numbered result ≡ numbered (number_of base (chars digits.now)) }
{
    let mut number = 0u32;
    'digits: for digit in digits.chars() {
        number = number
            .saturating_mul(base)
            .saturating_add(digit.to_digit(base).unwrap_or(0));
    }
    number
}

// the character of a number (WHATWG HTML, 13.2.5.80)
fn numbered(number: u32) -> char
    ensures value { result ≡ numbered number }
    ensures scalar { IsScalar result }
{
    match number {
        0 => '\u{fffd}',
        0x80 => '\u{20ac}',
        0x82 => '\u{201a}',
        0x83 => '\u{192}',
        0x84 => '\u{201e}',
        0x85 => '\u{2026}',
        0x86 => '\u{2020}',
        0x87 => '\u{2021}',
        0x88 => '\u{2c6}',
        0x89 => '\u{2030}',
        0x8a => '\u{160}',
        0x8b => '\u{2039}',
        0x8c => '\u{152}',
        0x8e => '\u{17d}',
        0x91 => '\u{2018}',
        0x92 => '\u{2019}',
        0x93 => '\u{201c}',
        0x94 => '\u{201d}',
        0x95 => '\u{2022}',
        0x96 => '\u{2013}',
        0x97 => '\u{2014}',
        0x98 => '\u{2dc}',
        0x99 => '\u{2122}',
        0x9a => '\u{161}',
        0x9b => '\u{203a}',
        0x9c => '\u{153}',
        0x9e => '\u{17e}',
        0x9f => '\u{178}',
        other => char::from_u32(other).unwrap_or('\u{fffd}'),
    }
}
