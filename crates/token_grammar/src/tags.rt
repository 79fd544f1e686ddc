ghost use Rattle.std.specs.Prelude.{◌≡◌, ◌∷◌, ◌++◌, ◌||◌, ◌&&◌, IfOk, IfSome, List, OnOk, chars, option_map};
ghost use Rattle.std.specs.Prelude.{string_bytes, take, true, ℕ};
ghost use Rattle.std.specs.Char.{to_ascii_lowercase};
ghost use Rattle.std.specs.Str.{IsUtf8, bytes_eq};
ghost use Rattle.std.specs.Bool.{nat_le};
ghost use Rattle.std.specs.BTreeSet.{contains};
ghost use Rattle.std.specs.Cmp.Lexicographic.{slice_cmp};
ghost use Rattle.std.specs.Ordering.{nat_cmp};
ghost use Rattle.token_grammar.specs.Characters.{name_of, shown};
ghost use Rattle.token_grammar.specs.Tags.{attribute_at, ends_with_slash, tag_at, value_after, written_value};
ghost use Rattle.token_grammar.specs.TagParts.{HasLaterNames, attribute_and_rest, is_named, with_new};
ghost use Rattle.token_grammar.specs.Read.{cut_of, tag_and_rest};
ghost use Rattle.token_grammar.specs.Classes.{is_of};
ghost use Rattle.token_grammar.specs.Slices.{front_while, rest_while};
ghost use Rattle.token_grammar.specs.declared.slices.CharacterClass.TheVariants.{AttributeName};

use crate::references::value_of;
use crate::slices::{CharacterClass, cut_at_character, first_and_rest, split_while, trailing};
use html_lexemes::{
    Attribute, Attributes, LocalName, Namespace, QualName, ReferenceTable, Tag, TagKind, Text,
};
use std::alloc::{AllocError, Global};
use std::collections::BTreeSet;

// how many attributes are looked through for a name, before a set has the names of the others
const SEARCHED: usize = 16;

/// The tag whose name begins here, and what follows it (WHATWG HTML, 13.2.5.8). `None` is a tag that the
/// end of the text cuts off. The error is allocation failure alone.
pub fn tag_at<'t>(
    alloc: Global,
    table: &ReferenceTable,
    kind: TagKind,
    text: &'t str,
) -> Result<Option<(Tag, &'t str)>, AllocError>
    ensures value { IfOk result (λ read. option_map tag_and_rest read ≡ tag_at table.now kind (chars text.now)) }
    ensures utf8 { IfOk result (λ read. IfSome read (λ r. IsUtf8 r.1.now)) }
{
    let (name, mut rest) = split_while(text, CharacterClass::TagName);
    let name = local_name(alloc, name)?;
    let mut attrs = Attributes::new(alloc);
    let mut later = BTreeSet::new(alloc);
    let mut had_duplicate_attributes = false;
    'attributes: loop {
        let (gap, after_gap) = split_while(rest, CharacterClass::Gap);
        let Some((c, after_c)) = first_and_rest(after_gap) else {
            return Ok(None);
        };
        if c == '>' {
            let tag = Tag {
                kind,
                name,
                self_closing: ends_with_slash(gap),
                attrs,
                had_duplicate_attributes,
            };
            return Ok(Some((tag, after_c)));
        }
        let Some((attribute, after_attribute)) = attribute_at(alloc, table, after_gap, c, after_c)?
        else {
            return Ok(None);
        };
        rest = after_attribute;
        let is_dropped = add_new(&mut attrs, &mut later, attribute)?;
        had_duplicate_attributes |= is_dropped;
    }
}

// whether the last character of a text is `/`
fn ends_with_slash(text: &str) -> bool
    ensures { result ≡ ends_with_slash (chars text.now) }
{
    text.ends_with('/')
}

// adds an attribute, unless its name is there; whether it is
fn add_new(
    attributes: &mut Attributes,
    later: &mut BTreeSet<LocalName>,
    attribute: Attribute,
) -> Result<bool, AllocError>
    requires { HasLaterNames later.old attributes.old }
    ensures dropped { IfOk result (λ dropped. dropped ≡ is_named attribute.name.local attributes.old) }
    ensures attributes { OnOk result (attributes.new ≡ with_new attributes.old attribute) }
    ensures later { OnOk result (HasLaterNames later.new attributes.new) }
{
    let name = &attribute.name.local;
    if has_name(attributes.as_slice(), later, name) {
        return Ok(true);
    }
    add_later(later, attributes.as_slice().len(), name)?;
    attributes.push(attribute)?;
    Ok(false)
}

// whether an attribute of that name is there
fn has_name(attributes: &[Attribute], later: &BTreeSet<LocalName>, name: &LocalName) -> bool
    requires { HasLaterNames later.now attributes.now }
    ensures { result ≡ is_named name.now attributes.now }
{
    is_first(attributes, name) || later.contains(name)
}

// whether one of the first attributes has that name
fn is_first(attributes: &[Attribute], name: &LocalName) -> bool
    ensures { result ≡ is_named name.now (take SEARCHED attributes.now) }
{
    attributes
        .iter()
        .take(SEARCHED)
        .any(|a| a.name.local == *name)
}

// adds the name of an attribute that stands after so many others, unless it is one of the first
fn add_later(
    later: &mut BTreeSet<LocalName>,
    before: usize,
    name: &LocalName,
) -> Result<(), AllocError>
    ensures { OnOk result ((other : List ℕ) → contains (slice_cmp nat_cmp) later.new other
        ≡ (contains (slice_cmp nat_cmp) later.old other || (nat_le SEARCHED before && bytes_eq name.now other))) }
{
    if before < SEARCHED {
        return Ok(());
    }
    later.insert(name.try_clone()?)?;
    Ok(())
}

// the attribute that a text begins with, whose first character is given with what is after it, and what follows it
fn attribute_at<'t>(
    alloc: Global,
    table: &ReferenceTable,
    text: &'t str,
    first: char,
    trailing: &'t str,
) -> Result<Option<(Attribute, &'t str)>, AllocError>
    requires { chars text.now ≡ first ∷ chars trailing.now }
    ensures value { IfOk result (λ read. option_map attribute_and_rest read
        ≡ attribute_at table.now first (chars trailing.now)) }
    ensures utf8 { IfOk result (λ read. IfSome read (λ r. IsUtf8 r.1.now)) }
{
    let (name, rest) = attribute_name(alloc, text, first, trailing)?;
    let Some((value, rest)) = value_after(rest) else {
        return Ok(None);
    };
    let attribute = Attribute {
        name: QualName::new(Namespace::Other(Text::from(String::new(alloc))), name),
        value: value_of(alloc, table, value)?,
    };
    Ok(Some((attribute, rest)))
}

// the name of such an attribute, to which its first character belongs whatever it is, and what follows the name
fn attribute_name<'t>(
    alloc: Global,
    text: &'t str,
    first: char,
    trailing: &'t str,
) -> Result<(LocalName, &'t str), AllocError>
    requires { chars text.now ≡ first ∷ chars trailing.now }
    ensures name { IfOk result (λ r. r.0
        ≡ name_of (first ∷ front_while (is_of AttributeName) (chars trailing.now))) }
    ensures rest { IfOk result (λ r. chars r.1.now ≡ rest_while (is_of AttributeName) (chars trailing.now)) }
    ensures utf8 { IfOk result (λ r. IsUtf8 r.1.now) }
{
    if CharacterClass::AttributeName.has(first) {
        let (name, rest) = split_while(text, CharacterClass::AttributeName);
        return Ok((local_name(alloc, name)?, rest));
    }
    let (name, rest) = split_while(trailing, CharacterClass::AttributeName);
    let name = LocalName::from(name_from(alloc, first, name)?);
    Ok((name, rest))
}

// the value after an attribute's name as it is written, and what follows it
fn value_after(text: &str) -> Option<(&str, &str)>
    ensures value { option_map cut_of result ≡ value_after (chars text.now) }
    ensures slice_utf8 { IfSome result (λ r. IsUtf8 r.0.now) }
    ensures rest_utf8 { IfSome result (λ r. IsUtf8 r.1.now) }
{
    let (_, after_spaces) = split_while(text, CharacterClass::Space);
    let Some(rest) = trailing(after_spaces, "=") else {
        return Some(("", text));
    };
    let (_, value) = split_while(rest, CharacterClass::Space);
    written_value(value)
}

// the value after `=` as it is written, and what follows it
fn written_value(text: &str) -> Option<(&str, &str)>
    ensures value { option_map cut_of result ≡ written_value (chars text.now) }
    ensures slice_utf8 { IfSome result (λ r. IsUtf8 r.0.now) }
    ensures rest_utf8 { IfSome result (λ r. IsUtf8 r.1.now) }
{
    match first_and_rest(text) {
        Some(('"', rest)) => cut_at_character(rest, '"'),
        Some(('\'', rest)) => cut_at_character(rest, '\''),
        _ => Some(split_while(text, CharacterClass::Unquoted)),
    }
}

/// A name: ASCII letters in lower case, and each NUL as U+FFFD. The error is allocation failure alone.
pub fn name_of(alloc: Global, text: &str) -> Result<Text, AllocError>
    ensures { IfOk result (λ name. name ≡ name_of (chars text.now)) }
{
    if is_lowered(text) {
        return Text::from_str(alloc, text);
    }
    lowered(alloc, text)
}

// the same as a local name
fn local_name(alloc: Global, text: &str) -> Result<LocalName, AllocError>
    ensures { IfOk result (λ name. name ≡ name_of (chars text.now)) }
{
    if is_lowered(text) {
        return LocalName::from_str(alloc, text);
    }
    Ok(LocalName::from(lowered(alloc, text)?))
}

// whether a name is what is written
fn is_lowered(text: &str) -> bool
    ensures { result ≡ true → name_of (chars text.now) ≡ chars text.now }
{
    let (_, others) = split_while(text, CharacterClass::Lowered);
    others.is_empty()
}

// a name that is made anew
fn lowered(alloc: Global, text: &str) -> Result<Text, AllocError>
    ensures { IfOk result (λ name. name ≡ name_of (chars text.now)) }
{
    let mut name = String::with_capacity(alloc, text.len())?;
    push_name(&mut name, text)?;
    Ok(Text::from(name))
}

// the same of a character and the text after it
fn name_from(alloc: Global, first: char, text: &str) -> Result<Text, AllocError>
    ensures { IfOk result (λ name. name ≡ name_of (first ∷ chars text.now)) }
{
    let mut name = String::new(alloc);
    name.push(name_character(first))?;
    push_name(&mut name, text)?;
    Ok(Text::from(name))
}

// adds the name that a text is
fn push_name(name: &mut String, text: &str) -> Result<(), AllocError>
    ensures { OnOk result (chars (string_bytes name.new) ≡ chars (string_bytes name.old) ++ name_of (chars text.now)) }
{
    'characters: for c in text.chars() {
        name.push(name_character(c))?;
    }
    Ok(())
}

// a name's character as a page's is read
fn name_character(c: char) -> char
    ensures { result ≡ to_ascii_lowercase (shown c) }
{
    if c == '\0' {
        '\u{fffd}'
    } else {
        c.to_ascii_lowercase()
    }
}
