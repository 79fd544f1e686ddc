//! Elements, emitted to a serializer with what stands in them.
//!
//! The calls go as deep as an article is nested, which is 256 at most.
ghost use Rattle.std.specs.Prelude.{◌∷◌, [], List, chars};
ghost use Rattle.tree_serializer.specs.Calls.{Call, finish, start};
ghost use Rattle.document_laws.specs.Planted.{of_html};
ghost use Rattle.written_document_laws.specs.Emissions.{calls_and, text_content};
ghost use Rattle.article_writing.specs.Emits.{Emits, inner_content};

use crate::blocks::{emit_blocks, emit_items};
use crate::inlines::emit_inlines;
use crate::inner::Inner;
use crate::names::html_name;
use html_lexemes::Attribute;
use std::alloc::Global;
use tree_serializer::{SerializeFault, Serializer};

/// Emits an element, with what stands in it.
#[cycle(emitting)]
pub(crate) fn emit_element<S: Serializer>(
    alloc: Global,
    serializer: &mut S,
    name: &str,
    attributes: &[Attribute],
    inner: Inner<'_>,
) -> Result<(), SerializeFault>
    ensures { Emits {X = List Call} S.means (S.seen serializer.old) (S.seen serializer.new) result
        (λ more. start (of_html (chars name.now)) attributes.now
        ∷ calls_and (inner_content inner.entry) (finish (of_html (chars name.now)) ∷ more)) (λ more. more) }
{
    let name = html_name(alloc, name)?;
    serializer.start_elem(&name, attributes)?;
    emit_inner(alloc, serializer, inner)?;
    serializer.end_elem(&name)
}

/// Emits what stands in an element.
#[cycle(emitting)]
fn emit_inner<S: Serializer>(
    alloc: Global,
    serializer: &mut S,
    inner: Inner<'_>,
) -> Result<(), SerializeFault>
    ensures { Emits {X = List Call} S.means (S.seen serializer.old) (S.seen serializer.new) result
        (λ more. calls_and (inner_content inner.entry) more) (λ more. more) }
{
    match inner {
        Inner::Inlines(inlines) => emit_inlines(alloc, serializer, inlines),
        Inner::Blocks(blocks) => emit_blocks(alloc, serializer, blocks),
        Inner::Items(items) => emit_items(alloc, serializer, items),
        Inner::Text(text) => emit_text(serializer, text),
        Inner::Head(title) => {
            match title {
                Some(title) => { emit_element(alloc, serializer, "title", &[], Inner::Text(title)) }
                None => Ok(()),
            }
        }
        Inner::Root(title, blocks) => {
            emit_element(alloc, serializer, "head", &[], Inner::Head(title))?;
            emit_element(alloc, serializer, "body", &[], Inner::Blocks(blocks))
        }
    }
}

/// Emits a text, where it has characters.
pub(crate) fn emit_text<S: Serializer>(serializer: &mut S, text: &str) -> Result<(), SerializeFault>
    ensures { Emits {X = List Call} S.means (S.seen serializer.old) (S.seen serializer.new) result
        (λ more. calls_and (text_content (chars text.now)) more) (λ more. more) }
{
    if text.is_empty() {
        return Ok(());
    }
    serializer.write_text(text)
}
