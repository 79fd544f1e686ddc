//! Texts, names, tags, tokens and states, compared.
use crate::checks::{holds, passes};
use html_lexemes::states::{RawKind, ScriptEscapeKind, State};
use html_lexemes::{
    Attribute, Attributes, Doctype, ErrorMessage, KnownName, LocalName, Namespace, ProcessResult,
    QualName, Tag, TagKind, Text, Token, TokenSinkResult,
};
use std::alloc::{AllocError, Global};
use std::hash::{DefaultHasher, Hash, Hasher};

fn hash_of<T: Hash>(value: &T) -> u64 {
    let mut hasher = DefaultHasher::new();
    value.hash(&mut hasher);
    hasher.finish()
}

/// In the order of their code points. A character of two units in UTF-16 stands after U+FFFD.
static TEXTS: [&str; 10] = [
    "",
    "a",
    "ab",
    "b",
    "z",
    "é",
    "\u{d7ff}",
    "\u{fffd}",
    "\u{10000}",
    "\u{10ffff}",
];

// whether two texts are found equal, hashed alike and in order just where that is said
fn are_compared(
    alloc: Global,
    first: &str,
    second: &str,
    is_same: bool,
    is_less: bool,
) -> Result<bool, AllocError> {
    let a = Text::from_str(alloc, first)?;
    let b = Text::from_str(alloc, second)?;
    let is_hashed = (hash_of(&a) == hash_of(&b)) == is_same;
    Ok(is_hashed && (a == b) == is_same && (a < b) == is_less)
}

#[test]
fn texts_are_compared_by_code_points(rt: HostRuntime) {
    for (i, first) in TEXTS.iter().enumerate() {
        for (j, second) in TEXTS.iter().enumerate() {
            passes(
                &rt,
                are_compared(rt.alloc(), first, second, i == j, i < j),
                first,
            );
        }
    }
}

// whether a word is a name's text, and is given back
fn is_given_back(alloc: Global, word: &str) -> Result<bool, AllocError> {
    let text = Text::from(String::from_str(alloc, word)?);
    let name = LocalName::from(text.try_clone()?).try_clone()?;
    let is_name = name.as_str() == word && name == LocalName::from_str(alloc, word)?;
    Ok(is_name && text.into_string()?.as_str() == word)
}

// whether a name is the known one that is expected
fn is_known(alloc: Global, word: &str, expected: Option<KnownName>) -> Result<bool, AllocError> {
    Ok(LocalName::from_str(alloc, word)?.known() == expected)
}

fn attribute(alloc: Global, local: &str, value: &str) -> Result<Attribute, AllocError> {
    Ok(Attribute {
        name: QualName::new(Namespace::Html, LocalName::from_str(alloc, local)?),
        value: Text::from_str(alloc, value)?,
    })
}

// whether an attribute is before another, and equals its copy
fn is_before_and_copied(first: &Attribute, second: &Attribute) -> Result<bool, AllocError> {
    let copy = first.try_clone()?;
    let is_copy = copy == *first && hash_of(&copy) == hash_of(first);
    Ok(is_copy && first < second && first != second)
}

fn are_attributes_apart(alloc: Global) -> Result<bool, AllocError> {
    let first = attribute(alloc, "a", "2")?;
    let second = attribute(alloc, "b", "1")?;
    is_before_and_copied(&first, &second)
}

fn other_namespace(alloc: Global) -> Result<Namespace, AllocError> {
    Ok(Namespace::Other(Text::from_str(alloc, "urn:x")?))
}

// whether a namespace is after another, and equals its copy
fn is_namespace_after(alloc: Global) -> Result<bool, AllocError> {
    let other = other_namespace(alloc)?;
    let copy = other.try_clone()?;
    Ok(copy == other && Namespace::Svg < other)
}

// whether a name is after another, and equals its copy
fn is_name_after(name: &QualName, first: &QualName) -> Result<bool, AllocError> {
    let copy = name.try_clone()?;
    Ok(copy == *name && first < name)
}

fn are_names_apart(alloc: Global) -> Result<bool, AllocError> {
    let other = other_namespace(alloc)?;
    let name = QualName::new(other, LocalName::from_str(alloc, "a")?);
    let first = attribute(alloc, "b", "")?;
    is_name_after(&name, &first.name)
}

// these attributes, with the values
fn attributes(alloc: Global, pairs: &[(&str, &str)]) -> Result<Attributes, AllocError> {
    let mut attributes = Attributes::new(alloc);
    for (local, value) in pairs {
        attributes.push(attribute(alloc, local, value)?)?;
    }
    Ok(attributes)
}

// whether two attributes are a list, as a copy and of a vector
fn are_a_list(alloc: Global) -> Result<bool, AllocError> {
    let first = attributes(alloc, &[("x", "1"), ("y", "")])?;
    let copy = first.try_clone()?;
    let is_copy = copy == first && copy.as_slice().len() == 2;
    let mut items = Vec::new(alloc);
    for attribute in first.as_slice() {
        items.push(attribute.try_clone()?)?;
    }
    Ok(is_copy && Attributes::from(items) == first)
}

// whether shared attributes stay as they are where a copy of them is changed
fn are_shared(alloc: Global) -> Result<bool, AllocError> {
    let mut first = attributes(alloc, &[("x", "1"), ("y", "")])?;
    first.share()?;
    let mut copy = first.try_clone()?;
    let is_copy = copy == first;
    copy.truncate(1);
    copy.push(attribute(alloc, "z", "2")?)?;
    let changed = attributes(alloc, &[("x", "1"), ("z", "2")])?;
    let kept = attributes(alloc, &[("x", "1"), ("y", "")])?;
    Ok(is_copy && copy == changed && first == kept)
}

// a start tag with these attributes
fn tag(alloc: Global, pairs: &[(&str, &str)]) -> Result<Tag, AllocError> {
    Ok(Tag {
        kind: TagKind::StartTag,
        name: LocalName::from_str(alloc, "a")?,
        self_closing: false,
        attrs: attributes(alloc, pairs)?,
        had_duplicate_attributes: false,
    })
}

// whether a tag of three attributes is equivalent to one of these just where that is expected
fn is_equivalent(
    alloc: Global,
    pairs: &[(&str, &str)],
    expected: bool,
) -> Result<bool, AllocError> {
    let first = tag(alloc, &[("x", "1"), ("y", "2"), ("x", "1")])?;
    let other = tag(alloc, pairs)?;
    Ok(first.equiv_modulo_attr_order(&other) == expected)
}

/// Three attributes, and whether a tag that has them is equivalent to that one.
static ORDERS: [(&[(&str, &str)], bool); 4] = [
    (&[("x", "1"), ("y", "2"), ("x", "1")], true),
    (&[("y", "2"), ("x", "1"), ("x", "1")], true),
    (&[("x", "1"), ("y", "2"), ("y", "2")], false),
    (&[("x", "1"), ("y", "2"), ("x", "2")], false),
];

#[test]
fn tags_are_equivalent_in_any_order_of_attributes(rt: HostRuntime) {
    for (pairs, expected) in &ORDERS {
        passes(&rt, is_equivalent(rt.alloc(), pairs, *expected), "an order");
    }
}

// whether a tag is its copy, and equivalent to itself once it is closed, but not to an end tag, nor to one of another
// name
fn are_tags_apart(alloc: Global) -> Result<bool, AllocError> {
    let first = tag(alloc, &[("x", "1")])?;
    let mut other = first.try_clone()?;
    let is_copy = other == first;
    other.self_closing = true;
    let closed = first.equiv_modulo_attr_order(&other);
    other.kind = TagKind::EndTag;
    let end = first.equiv_modulo_attr_order(&other);
    other.kind = TagKind::StartTag;
    other.name = LocalName::from_str(alloc, "b")?;
    Ok(is_copy && closed && !end && !first.equiv_modulo_attr_order(&other))
}

// whether a doctype equals its copy, and what it lacks isn't what is empty
fn is_doctype_copied(alloc: Global) -> Result<bool, AllocError> {
    let doctype = Doctype {
        name: None,
        public_id: None,
        system_id: Some(Text::from_str(alloc, "")?),
        force_quirks: false,
    };
    let copy = doctype.try_clone()?;
    Ok(copy == doctype && copy.public_id != copy.system_id)
}

// whether a text isn't a NUL
fn is_text_apart(alloc: Global) -> Result<bool, AllocError> {
    let text = Token::CharacterTokens(Text::from_str(alloc, "a")?);
    Ok(text != Token::NullCharacterToken)
}

fn are_messages_lent(alloc: Global) -> Result<bool, AllocError> {
    let made = ErrorMessage::Made(Text::from_str(alloc, "a")?);
    Ok(made.as_str() == "a" && ErrorMessage::Fixed("bad").as_str() == "bad")
}

#[test]
fn values_are_compared_copied_and_given_back(rt: HostRuntime) {
    let alloc = rt.alloc();
    passes(&rt, is_given_back(alloc, "né"), "a text");
    passes(&rt, is_given_back(alloc, "div"), "a known name");
    passes(
        &rt,
        is_known(alloc, "colgroup", Some(KnownName::Colgroup)),
        "colgroup",
    );
    passes(&rt, is_known(alloc, "colgrouq", None), "no known name");
    passes(&rt, is_known(alloc, "", None), "no name");
    passes(&rt, are_attributes_apart(alloc), "two attributes");
    passes(&rt, is_namespace_after(alloc), "namespaces");
    passes(&rt, are_names_apart(alloc), "names");
    passes(&rt, are_a_list(alloc), "a list of attributes");
    passes(&rt, are_shared(alloc), "shared attributes");
    passes(&rt, are_tags_apart(alloc), "tags");
    passes(&rt, is_doctype_copied(alloc), "a doctype");
    passes(&rt, is_text_apart(alloc), "a text and a NUL");
    passes(&rt, are_messages_lent(alloc), "messages");
}

#[test]
fn answers_are_emitted_apart(rt: HostRuntime) {
    let script: TokenSinkResult<u8> = TokenSinkResult::Script(3);
    holds(
        &rt,
        script != TokenSinkResult::RawData(RawKind::Rcdata),
        "of a sink",
    );
    let script: ProcessResult<u8> = ProcessResult::Script(3);
    holds(&rt, script != ProcessResult::Suspend, "of a parser");
}

#[test]
fn states_are_in_their_order(rt: HostRuntime) {
    let escaped = State::RawData(RawKind::ScriptDataEscaped(ScriptEscapeKind::Escaped));
    let double = State::RawData(RawKind::ScriptDataEscaped(ScriptEscapeKind::DoubleEscaped));
    holds(&rt, State::Data < State::Plaintext, "ordinary text");
    holds(
        &rt,
        State::TagName < escaped && escaped < double,
        "text of a script",
    );
    holds(&rt, double < State::CdataSectionEnd, "a section's end");
    holds(&rt, hash_of(&escaped) != hash_of(&double), "hashes");
}
