//! How many columns parts of an article ask for at least.
ghost use Rattle.std.specs.Prelude.{◌≡◌, ◌+◌, max, chars, [], if◌then◌else◌, IfOk};
ghost use Rattle.article_layout.specs.Settings.{options_of};
ghost use Rattle.article_definitions.specs.Layouts.{all_shallow, least_in, least_of, least_of_items, least_text};
ghost use Rattle.article_values.specs.Articles.{Blocks as SeenBlocks, Inlines as SeenInlines};
ghost use Rattle.article_values.specs.Views.{block_view, blocks_view, inline_view, inlines_view, items_view};

use crate::inlines::{all_shallow, shown_mark};
use crate::options::LineOptions;
use crate::prefixes::room_of_numbers;
use article_values::{Block, Inline};
use render_sizes::text_size;
use std::alloc::{AllocError, Global};

fn least_text(options: LineOptions, text: &str) -> usize
    ensures { result ≡ least_text (options_of options) (chars text.now) }
{
    text_size(text).min(options.min_wrap_width)
}

/// What inlines ask for.
#[cycle(measuring)]
pub(crate) fn least_in(options: LineOptions, inlines: &[Inline]) -> usize
    ensures { result ≡ least_in (options_of options) (inlines_view inlines.now) }
{
    let mut least: usize = 0;
    'inlines: for inline in inlines {
        least = least.max(least_of_inline(options, inline));
    }
    least
}

#[cycle(measuring)]
fn least_of_inline(options: LineOptions, inline: &Inline) -> usize
    ensures { (rest : SeenInlines) → least_in (options_of options) (inline_view inline.now rest)
        ≡ max result (least_in (options_of options) rest) }
{
    match inline {
        Inline::Text(text) => least_text(options, text.as_str()),
        Inline::Break => 1,
        Inline::Bold(contents) => least_of_span(options, "**", contents.as_slice()),
        Inline::Italic(contents) => least_of_span(options, "", contents.as_slice()),
        Inline::Emphasis(contents) => least_of_span(options, "*", contents.as_slice()),
        Inline::Code(contents) => least_of_span(options, "`", contents.as_slice()),
        Inline::Strong(contents) => least_of_span(options, "**", contents.as_slice()),
        Inline::Link(_, contents) => least_of_link(options, contents.as_slice()),
    }
}

#[cycle(measuring)]
fn least_of_span(options: LineOptions, mark: &str, contents: &[Inline]) -> usize
    ensures { result ≡ max (least_text (options_of options) (if options.decorates then chars mark.now else []))
        (least_in (options_of options) (inlines_view contents.now)) }
{
    least_text(options, shown_mark(options, mark)).max(least_in(options, contents))
}

#[cycle(measuring)]
fn least_of_link(options: LineOptions, contents: &[Inline]) -> usize
    ensures { result ≡ (if all_shallow (options_of options) (inlines_view contents.now) then 0
        else least_in (options_of options) (inlines_view contents.now)) }
{
    if all_shallow(options, contents) {
        0
    } else {
        least_in(options, contents)
    }
}

/// What blocks ask for. The error is allocation failure.
#[cycle(asking)]
pub(crate) fn least_of(
    alloc: Global,
    options: LineOptions,
    blocks: &[Block],
) -> Result<usize, AllocError>
    ensures { IfOk result (λ least. least ≡ least_of (options_of options) (blocks_view blocks.now)) }
{
    let mut least: usize = 0;
    'blocks: for block in blocks {
        least = least.max(least_of_block(alloc, options, block)?);
    }
    Ok(least)
}

#[cycle(asking)]
fn least_of_block(alloc: Global, options: LineOptions, block: &Block) -> Result<usize, AllocError>
    ensures { IfOk result (λ least. (rest : SeenBlocks) → least_of (options_of options) (block_view block.now rest)
        ≡ max least (least_of (options_of options) rest)) }
{
    match block {
        Block::Paragraph(contents) => Ok(least_in(options, contents.as_slice())),
        Block::Heading(level, contents) => {
            Ok(least_in(options, contents.as_slice()).saturating_add(heading_columns(*level)))
        }
        Block::Division(blocks) => least_of(alloc, options, blocks.as_slice()),
        Block::Quote(blocks) => Ok(least_of(alloc, options, blocks.as_slice())?.saturating_add(2)),
        Block::Bullets(items) => {
            Ok(least_of_items(alloc, options, items.as_slice())?.saturating_add(2))
        }
        Block::Numbers(first, items) => {
            let columns = room_of_numbers(alloc, *first, items.len())?;
            Ok(least_of_items(alloc, options, items.as_slice())?.saturating_add(columns))
        }
    }
}

/// What the items of a list ask for, without their prefixes. The error is allocation failure.
#[cycle(asking)]
pub(crate) fn least_of_items(
    alloc: Global,
    options: LineOptions,
    items: &[Vec<Block>],
) -> Result<usize, AllocError>
    ensures { IfOk result (λ least. least ≡ least_of_items (options_of options) (items_view items.now)) }
{
    let mut least: usize = 0;
    'items: for item in items {
        least = least.max(least_of(alloc, options, item.as_slice())?);
    }
    Ok(least)
}

/// The columns of a heading's prefix: a mark for each level, and a space.
pub(crate) fn heading_columns(level: u8) -> usize
    ensures { result ≡ level + 1 }
{
    usize::from(level) + 1
}
