//! The quirks mode that a doctype asks for.
ghost use Rattle.std.specs.Prelude.{◌≡◌, chars, IsTrue};
ghost use Rattle.tree_names.specs.Sets.{are_ascii, words_of};
ghost use Rattle.tree_predicates.specs.Attributes.{in_lower_case};
ghost use Rattle.tree_predicates.specs.Quirks.{begins, begins_with_one, is_named_html, limited, limited_by_system};
ghost use Rattle.tree_predicates.specs.Quirks.{quirks_of, quirky};

use crate::words::{begins_in_lower_case, is_word};
use html_lexemes::{Doctype, Text};
use tree_forest::QuirksMode;

/// The quirks mode that a doctype asks for: by its name, and by its identifiers with letters of ASCII in either case
/// alike
/// (WHATWG HTML, 13.2.6.4.1, with a list of identifiers of its own). A system identifier that is empty counts as one.
pub fn quirks_mode_of(doctype: &Doctype) -> QuirksMode
    ensures { result ≡ quirks_of doctype.now }
{
    let public_id = &doctype.public_id;
    if doctype.force_quirks
        || !is_named_html(&doctype.name)
        || is_quirky(public_id)
        || (is_limited_by_system(public_id) && doctype.system_id.is_none())
    {
        QuirksMode::Quirks
    } else if is_limited(public_id) || is_limited_by_system(public_id) {
        QuirksMode::LimitedQuirks
    } else {
        QuirksMode::NoQuirks
    }
}

fn is_named_html(name: &Option<Text>) -> bool
    ensures { result ≡ is_named_html name.now }
{
    match name {
        Some(name) => is_word(name.as_str(), "html"),
        None => false,
    }
}

// a public identifier that asks for quirks
fn is_quirky(public_id: &Option<Text>) -> bool
    ensures { result ≡ begins quirky public_id.now }
{
    begins(
        public_id,
        &[
            "-//ietf//dtd html",
            "-//w3c//dtd html 3",
            "-//w3c//dtd html 4.0 transitional//",
            "-//w3c//dtd html 4.0 frameset//",
        ],
    )
}

// a public identifier that asks for limited quirks
fn is_limited(public_id: &Option<Text>) -> bool
    ensures { result ≡ begins limited public_id.now }
{
    begins(
        public_id,
        &[
            "-//w3c//dtd xhtml 1.0 transitional//",
            "-//w3c//dtd xhtml 1.0 frameset//",
        ],
    )
}

// a public identifier that asks for limited quirks with a system identifier, and for quirks without one
fn is_limited_by_system(public_id: &Option<Text>) -> bool
    ensures { result ≡ begins limited_by_system public_id.now }
{
    begins(
        public_id,
        &[
            "-//w3c//dtd html 4.01 transitional//",
            "-//w3c//dtd html 4.01 frameset//",
        ],
    )
}

// an identifier that is given begins with one of these words, in any case
fn begins(identifier: &Option<Text>, words: &[&str]) -> bool
    requires { IsTrue (are_ascii (words_of words.now)) }
    ensures { result ≡ begins (words_of words.now) identifier.now }
{
    match identifier {
        Some(identifier) => begins_with_one(identifier.as_str(), words),
        None => false,
    }
}

// a text in lower case begins with one of these words
fn begins_with_one(text: &str, words: &[&str]) -> bool
    requires { IsTrue (are_ascii (words_of words.now)) }
    ensures { result ≡ begins_with_one (words_of words.now) (in_lower_case (chars text.now)) }
{
    for word in words {
        if begins_in_lower_case(text, word) {
            return true;
        }
    }
    false
}
