//! A name among words.
ghost use Rattle.std.specs.Prelude.{◌≡◌, IsTrue};
ghost use Rattle.tree_names.specs.Sets.{are_ascii, html_elements, is_ascii_word, is_element_of, is_html, is_one_of};
ghost use Rattle.tree_names.specs.Sets.{words_of};

use html_lexemes::{LocalName, Namespace, QualName};

/// Whether an element is the HTML element of this name, a word of ASCII characters.
pub fn is_html(name: &QualName, word: &str) -> bool
    requires { IsTrue (is_ascii_word word.now) }
    ensures { result ≡ is_html word.now name.now }
{
    is_html_one_of(name, &[word])
}

/// Whether an element is one of the HTML elements of these names, words of ASCII characters.
pub fn is_html_one_of(name: &QualName, words: &[&str]) -> bool
    requires { IsTrue (are_ascii (words_of words.now)) }
    ensures { result ≡ is_element_of (html_elements (words_of words.now)) name.now }
{
    match name.ns {
        Namespace::Html => is_one_of(&name.local, words),
        Namespace::MathMl | Namespace::Svg | Namespace::Other(_) => false,
    }
}

// a name is one of these words
pub(crate) fn is_one_of(name: &LocalName, words: &[&str]) -> bool
    requires { IsTrue (are_ascii (words_of words.now)) }
    ensures { result ≡ is_one_of (words_of words.now) name.now }
{
    let name = name.as_str();
    for word in words {
        if name == *word {
            return true;
        }
    }
    false
}
