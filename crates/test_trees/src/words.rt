//! Names, attributes and flags of elements.
use html_lexemes::{Attribute, Attributes, LocalName, Namespace, QualName, Text};
use std::alloc::{AllocError, Global};
use tree_forest::ElementFlags;

/// No template, and no integration point.
pub(crate) const PLAIN: ElementFlags = ElementFlags {
    template: false,
    mathml_annotation_xml_integration_point: false,
};

/// The name of an element of HTML.
pub(crate) fn html_name(alloc: Global, word: &str) -> Result<QualName, AllocError> {
    Ok(QualName::new(Namespace::Html, LocalName::from_str(alloc, word)?))
}

/// The names of four.
pub(crate) fn html_names(
    alloc: Global,
    words: &[&str; 4],
) -> Result<((QualName, QualName), (QualName, QualName)), AllocError> {
    let first = html_pair(alloc, words[0], words[1])?;
    Ok((first, html_pair(alloc, words[2], words[3])?))
}

fn html_pair(alloc: Global, a: &str, b: &str) -> Result<(QualName, QualName), AllocError> {
    let a = html_name(alloc, a)?;
    Ok((a, html_name(alloc, b)?))
}

/// A name in no namespace, as an attribute's.
pub(crate) fn attribute_name(alloc: Global, word: &str) -> Result<QualName, AllocError> {
    let nowhere = Namespace::Other(Text::from_str(alloc, "")?);
    Ok(QualName::new(nowhere, LocalName::from_str(alloc, word)?))
}

/// Attributes in no namespace.
pub(crate) fn attributes(alloc: Global, pairs: &[(&str, &str)]) -> Result<Attributes, AllocError> {
    let mut all = Attributes::new(alloc);
    for (word, value) in pairs {
        let name = attribute_name(alloc, word)?;
        let value = Text::from_str(alloc, value)?;
        all.push(Attribute { name, value })?;
    }
    Ok(all)
}
