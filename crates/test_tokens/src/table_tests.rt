//! Tables of references, of pairs and of JSON texts.
use crate::checks::passes;
use html_lexemes::{ReferenceTable, TableError};
use std::alloc::{AllocError, Global};

/// What a table is made of.
#[derive(Clone, Copy)]
enum Source {
    Pairs(&'static [(&'static str, &'static str)]),
    Json(&'static str),
    /// The names that are known without a table.
    Basic,
}

fn table_of(alloc: Global, source: Source) -> Result<ReferenceTable, TableError> {
    match source {
        Source::Pairs(pairs) => ReferenceTable::new(alloc, pairs),
        Source::Json(text) => ReferenceTable::from_json(alloc, text),
        Source::Basic => Ok(ReferenceTable::basic(alloc)?),
    }
}

/// `not` and `notin;`, of WHATWG HTML, 13.5.
static TWO_NAMES: [(&str, &str); 2] = [("notin;", "\u{2209}"), ("not", "\u{ac}")];

/// A text: its value, whether a name begins with it, whether a longer one does, and the longest name that it begins
/// with.
type Lookup = (
    &'static str,
    Option<&'static str>,
    bool,
    bool,
    Option<&'static str>,
);

static LOOKUPS: [Lookup; 15] = [
    ("", None, true, true, None),
    ("n", None, true, true, None),
    ("no", None, true, true, None),
    ("not", Some("\u{ac}"), true, true, Some("not")),
    ("noti", None, true, true, Some("not")),
    ("notin", None, true, true, Some("not")),
    ("notin;", Some("\u{2209}"), true, false, Some("notin;")),
    ("notin;x", None, false, false, Some("notin;")),
    ("notit", None, false, false, Some("not")),
    ("nou", None, false, false, None),
    ("xnot", None, false, false, None),
    ("a", None, false, false, None),
    ("z", None, false, false, None),
    ("zz", None, false, false, None),
    ("\u{ac}", None, false, false, None),
];

/// Pairs of which a name comes twice, and the values that stay.
static TWICE: [(&str, &str); 4] = [("a", "1"), ("b", "2"), ("a", "34"), ("0;", "5")];

static ONCE: [Lookup; 3] = [
    ("a", Some("34"), true, false, Some("a")),
    ("b", Some("2"), true, false, Some("b")),
    ("0;", Some("5"), true, false, Some("0;")),
];

static BASIC: [Lookup; 6] = [
    ("amp;", Some("&"), true, false, Some("amp;")),
    ("lt;", Some("<"), true, false, Some("lt;")),
    ("gt;", Some(">"), true, false, Some("gt;")),
    ("quot;", Some("\""), true, false, Some("quot;")),
    ("nbsp;", Some("\u{a0}"), true, false, Some("nbsp;")),
    ("amp", None, true, true, None),
];

static NAMES: &str = "{\"&not\":{\"codepoints\":[172]},\"&notin;\":{\"codepoints\":[8713]},\
    \"&bne;\":{\"codepoints\":[61,8421],\"characters\":\"=\\u20E5\"}}";

static VALUES: [Lookup; 4] = [
    ("not", Some("\u{ac}"), true, true, Some("not")),
    ("notin;", Some("\u{2209}"), true, false, Some("notin;")),
    ("notin", None, true, true, Some("not")),
    ("bne;", Some("=\u{20e5}"), true, false, Some("bne;")),
];

static NO_NAMES: [Lookup; 3] = [
    ("", None, false, false, None),
    ("a", None, false, false, None),
    ("amp;", None, false, false, None),
];

// whether this is the longest name that a text begins with, and its value is given with it
fn is_longest(table: &ReferenceTable, text: &str, longest: Option<&str>) -> bool {
    match table.longest_name(text) {
        Some(found) => longest == Some(found.name) && table.value(found.name) == Some(found.value),
        None => longest.is_none(),
    }
}

fn is_looked_up(table: &ReferenceTable, lookup: &Lookup) -> bool {
    let (text, value, begins, is_shorter, longest) = *lookup;
    table.value(text) == value
        && table.has_name_beginning(text) == begins
        && table.has_longer_name(text) == is_shorter
        && is_longest(table, text, longest)
}

fn are_looked_up(table: &ReferenceTable, lookups: &[Lookup]) -> bool {
    for lookup in lookups {
        if !is_looked_up(table, lookup) {
            return false;
        }
    }
    true
}

// whether the table of a source answers so
fn is_table(alloc: Global, source: Source, lookups: &[Lookup]) -> Result<bool, TableError> {
    Ok(are_looked_up(&table_of(alloc, source)?, lookups))
}

#[test]
fn names_are_looked_up(rt: HostRuntime) {
    let alloc = rt.alloc();
    passes(
        &rt,
        is_table(alloc, Source::Pairs(&TWO_NAMES), &LOOKUPS),
        "two names",
    );
    passes(
        &rt,
        is_table(alloc, Source::Pairs(&TWICE), &ONCE),
        "a name that comes twice",
    );
    passes(&rt, is_table(alloc, Source::Basic, &BASIC), "the five");
    passes(
        &rt,
        is_table(alloc, Source::Json(NAMES), &VALUES),
        "three names",
    );
    passes(
        &rt,
        is_table(alloc, Source::Json("{}"), &NO_NAMES),
        "no names",
    );
}

/// Pairs, and what is wrong with them: a name, before its value; and the first that is faulty.
static FAULTS: [(&[(&str, &str)], &str); 24] = [
    (&[("a", "1"), ("a", "1")], ""),
    (&[("a", "1"), ("Z9", "1")], ""),
    (&[("a", "1"), ("frac12", "1")], ""),
    (&[("a", "1"), ("not;", "1")], ""),
    (&[("a", "1"), ("0", "1")], ""),
    (&[("a", "1"), ("", "1")], "bad name \"\""),
    (&[("a", "1"), (";", "1")], "bad name \";\""),
    (&[("a", "1"), ("a;b", "1")], "bad name \"a;b\""),
    (&[("a", "1"), ("a;;", "1")], "bad name \"a;;\""),
    (&[("a", "1"), ("a-b", "1")], "bad name \"a-b\""),
    (&[("a", "1"), ("a b", "1")], "bad name \"a b\""),
    (&[("a", "1"), ("é", "1")], "bad name \"é\""),
    (&[("a", "1"), ("\u{661}", "1")], "bad name \"\u{661}\""),
    (&[("a", "1"), ("a;", "a")], ""),
    (&[("a", "1"), ("a;", "\u{ac}")], ""),
    (&[("a", "1"), ("a;", "\u{1d504}")], ""),
    (&[("a", "1"), ("a;", "\u{2266}\u{338}")], ""),
    (&[("a", "1"), ("a;", "")], "bad code points of \"a;\""),
    (&[("a", "1"), ("a;", "\0")], "bad code points of \"a;\""),
    (&[("a", "1"), ("a;", "a\0")], "bad code points of \"a;\""),
    (&[("a", "1"), ("a;", "\0a")], "bad code points of \"a;\""),
    (&[("a", "1"), ("a;", "abc")], "bad code points of \"a;\""),
    (&[(";", ""), ("a", "")], "bad name \";\""),
    (&[("a", ""), (";", "1")], "bad code points of \"a\""),
];

/// A text, and its fault.
static JSON_FAULTS: [(&str, &str); 29] = [
    ("{", "not JSON"),
    ("", "not JSON"),
    ("{\"&a\":}", "not JSON"),
    ("[]", "not a JSON object"),
    ("1", "not a JSON object"),
    ("\"&a\"", "not a JSON object"),
    ("null", "not a JSON object"),
    ("{\"amp\":{\"codepoints\":[38]}}", "bad name \"amp\""),
    ("{\"b\":{\"codepoints\":[1]}}", "bad name \"b\""),
    ("{\"&a;b\":{\"codepoints\":[1]}}", "bad name \"&a;b\""),
    ("{\"&\":{\"codepoints\":[1]}}", "bad name \"&\""),
    ("{\"&;\":{\"codepoints\":[1]}}", "bad name \"&;\""),
    // The name is looked at before the value, and the keys in byte order.
    ("{\"b\":1}", "bad name \"b\""),
    (
        "{\"&c\":{\"codepoints\":[1.5]},\"&a b\":{\"codepoints\":[1]}}",
        "bad name \"&a b\"",
    ),
    ("{\"b\":1,\"&x\":38}", "bad code points of \"&x\""),
    ("{\"&x\":{\"codepoints\":[]}}", "bad code points of \"&x\""),
    (
        "{\"&b;\":{\"codepoints\":[55296]}}",
        "bad code points of \"&b;\"",
    ),
    ("{\"&x\":{\"codepoints\":[0]}}", "bad code points of \"&x\""),
    (
        "{\"&x\":{\"codepoints\":[1114112]}}",
        "bad code points of \"&x\"",
    ),
    (
        "{\"&x\":{\"codepoints\":[4294967334]}}",
        "bad code points of \"&x\"",
    ),
    (
        "{\"&x\":{\"codepoints\":[38,38,38]}}",
        "bad code points of \"&x\"",
    ),
    (
        "{\"&x\":{\"codepoints\":[38,0]}}",
        "bad code points of \"&x\"",
    ),
    (
        "{\"&x\":{\"codepoints\":[1.5]}}",
        "bad code points of \"&x\"",
    ),
    (
        "{\"&x\":{\"codepoints\":[-38]}}",
        "bad code points of \"&x\"",
    ),
    (
        "{\"&x\":{\"codepoints\":[\"&\"]}}",
        "bad code points of \"&x\"",
    ),
    ("{\"&x\":{\"codepoints\":38}}", "bad code points of \"&x\""),
    (
        "{\"&x\":{\"characters\":\"&\"}}",
        "bad code points of \"&x\"",
    ),
    ("{\"&x\":[38]}", "bad code points of \"&x\""),
    ("{\"&x\":38}", "bad code points of \"&x\""),
];

// whether this is wrong with a source, or nothing
fn is_fault(alloc: Global, source: Source, expected: &str) -> Result<bool, AllocError> {
    match table_of(alloc, source) {
        Ok(_) => Ok(expected.is_empty()),
        Err(fault) => Ok(fault.to_string(alloc)?.as_str() == expected),
    }
}

#[test]
fn the_first_fault_is_reported(rt: HostRuntime) {
    for (pairs, expected) in &FAULTS {
        passes(
            &rt,
            is_fault(rt.alloc(), Source::Pairs(pairs), expected),
            expected,
        );
    }
    for (text, expected) in &JSON_FAULTS {
        passes(
            &rt,
            is_fault(rt.alloc(), Source::Json(text), expected),
            text,
        );
    }
}
