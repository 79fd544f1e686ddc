//! Blocks and items, emitted to a serializer.
ghost use Rattle.std.specs.Prelude.{List};
ghost use Rattle.tree_serializer.specs.Calls.{Call};
ghost use Rattle.article_values.specs.Articles.{Blocks as SeenBlocks, numbers, heading, no_blocks};
ghost use Rattle.article_values.specs.Views.{block_view, blocks_view, inlines_view, items_view};
ghost use Rattle.article_writing.specs.Contents.{content_of_blocks, content_of_items};
ghost use Rattle.written_document_laws.specs.Emissions.{calls_and};
ghost use Rattle.article_writing.specs.Emits.{Emits};

use crate::elements::emit_element;
use crate::inner::Inner;
use crate::names::{attribute, heading_name};
use article_values::{Block, Inline};
use std::alloc::Global;
use tree_serializer::{SerializeFault, Serializer};

/// Emits blocks, one after another.
#[cycle(emitting)]
pub(crate) fn emit_blocks<S: Serializer>(
    alloc: Global,
    serializer: &mut S,
    blocks: &[Block],
) -> Result<(), SerializeFault>
    ensures { Emits {X = List Call} S.means (S.seen serializer.old) (S.seen serializer.new) result
        (λ more. calls_and (content_of_blocks (blocks_view blocks.now)) more) (λ more. more) }
{
    'blocks: for block in blocks {
        emit_block(alloc, serializer, block)?;
    }
    Ok(())
}

#[cycle(emitting)]
fn emit_block<S: Serializer>(
    alloc: Global,
    serializer: &mut S,
    block: &Block,
) -> Result<(), SerializeFault>
    ensures { (rest : SeenBlocks) → Emits {X = List Call} S.means (S.seen serializer.old) (S.seen serializer.new)
        result (λ more. calls_and (content_of_blocks (block_view block.now rest)) more)
        (λ more. calls_and (content_of_blocks rest) more) }
{
    match block {
        Block::Paragraph(contents) => {
            emit_element(
                alloc,
                serializer,
                "p",
                &[],
                Inner::Inlines(contents.as_slice()),
            )
        }
        Block::Heading(level, contents) => {
            emit_heading(alloc, serializer, *level, contents.as_slice())
        }
        Block::Division(blocks) => {
            emit_element(
                alloc,
                serializer,
                "div",
                &[],
                Inner::Blocks(blocks.as_slice()),
            )
        }
        Block::Quote(blocks) => {
            emit_element(
                alloc,
                serializer,
                "blockquote",
                &[],
                Inner::Blocks(blocks.as_slice()),
            )
        }
        Block::Bullets(items) => {
            emit_element(alloc, serializer, "ul", &[], Inner::Items(items.as_slice()))
        }
        Block::Numbers(first, items) => {
            emit_numbers(alloc, serializer, *first, items.as_slice())
        }
    }
}

#[cycle(emitting)]
fn emit_heading<S: Serializer>(
    alloc: Global,
    serializer: &mut S,
    level: u8,
    contents: &[Inline],
) -> Result<(), SerializeFault>
    ensures { Emits {X = List Call} S.means (S.seen serializer.old) (S.seen serializer.new) result
        (λ more. calls_and (content_of_blocks (heading level (inlines_view contents.now) no_blocks)) more)
        (λ more. more) }
{
    let name = heading_name(alloc, level)?;
    emit_element(
        alloc,
        serializer,
        name.as_str(),
        &[],
        Inner::Inlines(contents),
    )
}

#[cycle(emitting)]
fn emit_numbers<S: Serializer>(
    alloc: Global,
    serializer: &mut S,
    first: i64,
    items: &[Vec<Block>],
) -> Result<(), SerializeFault>
    ensures { Emits {X = List Call} S.means (S.seen serializer.old) (S.seen serializer.new) result
        (λ more. calls_and (content_of_blocks (numbers first (items_view items.now) no_blocks)) more) (λ more. more) }
{
    let number = format!(in alloc; "{first}")?;
    let start = attribute(alloc, "start", number.as_str())?;
    emit_element(alloc, serializer, "ol", &[start], Inner::Items(items))
}

/// Emits the items of a list, one after another.
#[cycle(emitting)]
pub(crate) fn emit_items<S: Serializer>(
    alloc: Global,
    serializer: &mut S,
    items: &[Vec<Block>],
) -> Result<(), SerializeFault>
    ensures { Emits {X = List Call} S.means (S.seen serializer.old) (S.seen serializer.new) result
        (λ more. calls_and (content_of_items (items_view items.now)) more) (λ more. more) }
{
    'items: for item in items {
        emit_element(alloc, serializer, "li", &[], Inner::Blocks(item.as_slice()))?;
    }
    Ok(())
}
