//! Inlines, emitted to a serializer.
ghost use Rattle.std.specs.Prelude.{List, chars};
ghost use Rattle.tree_serializer.specs.Calls.{Call};
ghost use Rattle.article_values.specs.Articles.{Inlines as SeenInlines, link, no_inlines};
ghost use Rattle.article_values.specs.Views.{inline_view, inlines_view};
ghost use Rattle.article_writing.specs.Contents.{content_of_inlines};
ghost use Rattle.written_document_laws.specs.Emissions.{calls_and};
ghost use Rattle.article_writing.specs.Emits.{Emits};

use crate::elements::{emit_element, emit_text};
use crate::inner::Inner;
use crate::names::attribute;
use article_values::Inline;
use std::alloc::Global;
use tree_serializer::{SerializeFault, Serializer};

/// Emits inlines, one after another.
#[cycle(emitting)]
pub(crate) fn emit_inlines<S: Serializer>(
    alloc: Global,
    serializer: &mut S,
    inlines: &[Inline],
) -> Result<(), SerializeFault>
    ensures { Emits {X = List Call} S.means (S.seen serializer.old) (S.seen serializer.new) result
        (λ more. calls_and (content_of_inlines (inlines_view inlines.now)) more) (λ more. more) }
{
    'inlines: for inline in inlines {
        emit_inline(alloc, serializer, inline)?;
    }
    Ok(())
}

#[cycle(emitting)]
fn emit_inline<S: Serializer>(
    alloc: Global,
    serializer: &mut S,
    inline: &Inline,
) -> Result<(), SerializeFault>
    ensures { (rest : SeenInlines) → Emits {X = List Call} S.means (S.seen serializer.old) (S.seen serializer.new)
        result (λ more. calls_and (content_of_inlines (inline_view inline.now rest)) more)
        (λ more. calls_and (content_of_inlines rest) more) }
{
    match inline {
        Inline::Text(text) => emit_text(serializer, text.as_str()),
        Inline::Break => emit_element(alloc, serializer, "br", &[], Inner::Text("")),
        Inline::Bold(contents) => {
            emit_element(
                alloc,
                serializer,
                "b",
                &[],
                Inner::Inlines(contents.as_slice()),
            )
        }
        Inline::Italic(contents) => {
            emit_element(
                alloc,
                serializer,
                "i",
                &[],
                Inner::Inlines(contents.as_slice()),
            )
        }
        Inline::Emphasis(contents) => {
            emit_element(
                alloc,
                serializer,
                "em",
                &[],
                Inner::Inlines(contents.as_slice()),
            )
        }
        Inline::Code(contents) => {
            emit_element(
                alloc,
                serializer,
                "code",
                &[],
                Inner::Inlines(contents.as_slice()),
            )
        }
        Inline::Strong(contents) => {
            emit_element(
                alloc,
                serializer,
                "strong",
                &[],
                Inner::Inlines(contents.as_slice()),
            )
        }
        Inline::Link(target, contents) => {
            emit_link(alloc, serializer, target.as_str(), contents.as_slice())
        }
    }
}

#[cycle(emitting)]
fn emit_link<S: Serializer>(
    alloc: Global,
    serializer: &mut S,
    target: &str,
    contents: &[Inline],
) -> Result<(), SerializeFault>
    ensures { Emits {X = List Call} S.means (S.seen serializer.old) (S.seen serializer.new) result
        (λ more. calls_and (content_of_inlines (link (chars target.now) (inlines_view contents.now) no_inlines)) more)
        (λ more. more) }
{
    let href = attribute(alloc, "href", target)?;
    emit_element(alloc, serializer, "a", &[href], Inner::Inlines(contents))
}
