//! Prints of names and of tags: numbers by which most of what is not the same is distinguished without comparing it.
ghost use Rattle.std.specs.Prelude.{◌≡◌, chars};
ghost use Rattle.tree_formatting.specs.Prints.{attribute_print, mixed, name_print, squared, tag_print, text_print};

use html_lexemes::{Attribute, LocalName, Tag};

/// A character more is taken into a print.
fn mixed(print: u64, c: char) -> u64
    ensures { result ≡ mixed print c }
{
    print
        .wrapping_mul(1_099_511_628_211)
        .wrapping_add(u64::from(u32::from(c)))
}

fn squared(print: u64) -> u64
    ensures { result ≡ squared print }
{
    print.wrapping_mul(print)
}

/// A text is taken into a print.
fn text_print(print: u64, text: &str) -> u64
    ensures { result ≡ text_print print (chars text.now) }
{
    let mut taken = print;
    for c in text.chars() {
        taken = mixed(taken, c);
    }
    taken
}

/// The print of a name.
pub(crate) fn name_print(name: &LocalName) -> u64
    ensures { result ≡ name_print name.now }
{
    text_print(1, name.as_str())
}

/// The print of an attribute, of its name and its value.
fn attribute_print(attribute: &Attribute) -> u64
    ensures { result ≡ attribute_print attribute.now }
{
    let named = mixed(name_print(&attribute.name.local), '=');
    squared(text_print(named, attribute.value.as_str()))
}

/// The print of a tag. Tags that are the same but for the order of their attributes have one print.
pub(crate) fn tag_print(tag: &Tag) -> u64
    ensures { result ≡ tag_print tag.now }
{
    let mut print = name_print(&tag.name);
    for attribute in tag.attrs.as_slice() {
        print = print.wrapping_add(attribute_print(attribute));
    }
    print
}
