//! Names of elements and attributes.
ghost use Rattle.std.specs.Prelude.{◌≡◌, ◌+◌, chars, string_bytes, IfOk};
ghost use Rattle.document_laws.specs.Contents.{in_no_namespace};
ghost use Rattle.document_laws.specs.Planted.{of_html};
ghost use Rattle.article_writing.specs.Contents.{heading_name};

use html_lexemes::{Attribute, LocalName, Namespace, QualName, Text};
use std::alloc::{AllocError, Global};

/// The name of an HTML element.
pub(crate) fn html_name(alloc: Global, name: &str) -> Result<QualName, AllocError>
    ensures { IfOk result (λ made. made ≡ of_html (chars name.now)) }
{
    Ok(QualName::new(Namespace::Html, LocalName::from_str(alloc, name)?))
}

/// An attribute in no namespace.
pub(crate) fn attribute(alloc: Global, name: &str, value: &str) -> Result<Attribute, AllocError>
    ensures { IfOk result (λ made. made ≡ in_no_namespace (chars name.now) (chars value.now)) }
{
    let none = Namespace::Other(Text::from_str(alloc, "")?);
    Ok(Attribute {
        name: QualName::new(none, LocalName::from_str(alloc, name)?),
        value: Text::from_str(alloc, value)?,
    })
}

/// `h` and the character that the level is from `0` on: the digit of each level that a heading may have.
pub(crate) fn heading_name(alloc: Global, level: u8) -> Result<String, AllocError>
    ensures { IfOk result (λ made. chars (string_bytes made) ≡ heading_name level) }
{
    let mut name = String::from_str(alloc, "h")?;
    match char::from_u32(48 + u32::from(level)) {
        Some(digit) => name.push(digit)?,
        None => unreachable!(),
    }
    Ok(name)
}
