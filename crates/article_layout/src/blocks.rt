//! The lines of blocks.
//!
//! The calls go as deep as an article is nested, which is 256 at most.
ghost use Rattle.std.specs.Prelude.{◌≡◌, ◌+◌, Some, None, Err, OnOk};
ghost use Rattle.article_layout.specs.Seen.{at_of};
ghost use Rattle.article_layout.specs.Settings.{options_of};
ghost use Rattle.article_layout.specs.Walks.{laid, laid_items, parted_at, with_heading, with_item, with_paragraph};
ghost use Rattle.article_layout.specs.Walks.{with_quote};
ghost use Rattle.article_definitions.specs.Layouts.{least_of, least_of_items};
ghost use Rattle.article_values.specs.Articles.{Blocks as SeenBlocks};
ghost use Rattle.article_values.specs.Views.{block_view, blocks_view, inlines_view, items_view};
ghost use Rattle.render_sizes.specs.Extents.{capped};
ghost use Rattle.text_pieces.specs.declared.fault.BlockError.TheVariants as errors;

use crate::leasts::{heading_columns, least_in, least_of, least_of_items};
use crate::line_list::LineList;
use crate::options::Room;
use crate::paragraphs::{After, paragraph_lines};
use crate::prefixes::{filled_prefix, heading_prefix, next_number, room_of_numbers};
use article_values::{Block, Inline};
use layout_state::spaces;
use std::alloc::Global;
use text_pieces::BlockError;

/// Lays out blocks, one after another, after the lines so far.
#[cycle(laying)]
pub(crate) fn lay_blocks(
    alloc: Global,
    room: Room,
    blocks: &[Block],
    lines: &mut LineList,
    trailing: &mut After,
) -> Result<(), BlockError>
    ensures done { OnOk result (laid (options_of room.options) room.width (blocks_view blocks.now)
        (at_of lines.old trailing.old) ≡ Some (at_of lines.new trailing.new)) }
    ensures narrow { result ≡ Err errors.TooNarrow → laid (options_of room.options) room.width
        (blocks_view blocks.now) (at_of lines.old trailing.old) ≡ None }
    ensures failed { result ≡ Err errors.Failed → ⊥ }
{
    'blocks: for block in blocks {
        lay_block(alloc, room, block, lines, trailing)?;
    }
    Ok(())
}

#[cycle(laying)]
fn lay_block(
    alloc: Global,
    room: Room,
    block: &Block,
    lines: &mut LineList,
    trailing: &mut After,
) -> Result<(), BlockError>
    ensures done { OnOk result ((rest : SeenBlocks) → laid (options_of room.options) room.width
        (block_view block.now rest) (at_of lines.old trailing.old)
        ≡ laid (options_of room.options) room.width rest (at_of lines.new trailing.new)) }
    ensures narrow { result ≡ Err errors.TooNarrow → (rest : SeenBlocks) → laid (options_of room.options) room.width
        (block_view block.now rest) (at_of lines.old trailing.old) ≡ None }
    ensures failed { result ≡ Err errors.Failed → ⊥ }
{
    match block {
        Block::Paragraph(contents) => {
            lay_paragraph(alloc, room, contents.as_slice(), lines, trailing)
        }
        Block::Heading(level, contents) => {
            lay_heading(alloc, room, *level, contents.as_slice(), lines, trailing)
        }
        Block::Division(blocks) => lay_blocks(alloc, room, blocks.as_slice(), lines, trailing),
        Block::Quote(blocks) => lay_quote(alloc, room, blocks.as_slice(), lines, trailing),
        Block::Bullets(items) => {
            lay_list(alloc, room, None, 2, items.as_slice(), lines, trailing)
        }
        Block::Numbers(first, items) => {
            let columns = room_of_numbers(alloc, *first, items.len())?;
            lay_list(
                alloc,
                room,
                Some(*first),
                columns,
                items.as_slice(),
                lines,
                trailing,
            )
        }
    }
}

/// Lays out a paragraph, after an empty line where a line has content.
fn lay_paragraph(
    alloc: Global,
    room: Room,
    contents: &[Inline],
    lines: &mut LineList,
    trailing: &mut After,
) -> Result<(), BlockError>
    ensures done { OnOk result (with_paragraph (options_of room.options) room.width (inlines_view contents.now)
        (at_of lines.old trailing.old) ≡ Some (at_of lines.new trailing.new)) }
    ensures narrow { result ≡ Err errors.TooNarrow → with_paragraph (options_of room.options) room.width
        (inlines_view contents.now) (at_of lines.old trailing.old) ≡ None }
    ensures failed { result ≡ Err errors.Failed → ⊥ }
{
    lines.part(alloc, room)?;
    let own = paragraph_lines(alloc, room, contents, trailing)?;
    lines.append(own)?;
    Ok(())
}

/// Lays out a heading: its lines after as many marks as its level.
fn lay_heading(
    alloc: Global,
    room: Room,
    level: u8,
    contents: &[Inline],
    lines: &mut LineList,
    trailing: &mut After,
) -> Result<(), BlockError>
    ensures done { OnOk result (with_heading (options_of room.options) room.width level (inlines_view contents.now)
        (at_of lines.old trailing.old) ≡ Some (at_of lines.new trailing.new)) }
    ensures narrow { result ≡ Err errors.TooNarrow → with_heading (options_of room.options) room.width level
        (inlines_view contents.now) (at_of lines.old trailing.old) ≡ None }
    ensures failed { result ≡ Err errors.Failed → ⊥ }
{
    lines.part(alloc, room)?;
    let columns = heading_columns(level);
    let least = least_in(room.options, contents).saturating_add(columns);
    let within = room.trailing(columns, least)?;
    let own = paragraph_lines(alloc, within, contents, trailing)?;
    let prefix = heading_prefix(alloc, level)?;
    lines.append_after(alloc, room, prefix.as_str(), prefix.as_str(), own)?;
    Ok(())
}

/// Lays out a quote, after an empty line where a line has content: its lines after a prefix.
#[cycle(laying)]
fn lay_quote(
    alloc: Global,
    room: Room,
    blocks: &[Block],
    lines: &mut LineList,
    trailing: &mut After,
) -> Result<(), BlockError>
    ensures done { OnOk result (with_quote (options_of room.options) room.width
        (capped (least_of (options_of room.options) (blocks_view blocks.now) + 2))
        (λ within. laid (options_of room.options) within (blocks_view blocks.now)) (at_of lines.old trailing.old)
        ≡ Some (at_of lines.new trailing.new)) }
    ensures narrow { result ≡ Err errors.TooNarrow → with_quote (options_of room.options) room.width
        (capped (least_of (options_of room.options) (blocks_view blocks.now) + 2))
        (λ within. laid (options_of room.options) within (blocks_view blocks.now)) (at_of lines.old trailing.old)
        ≡ None }
    ensures failed { result ≡ Err errors.Failed → ⊥ }
{
    lines.part(alloc, room)?;
    let least = least_of(alloc, room.options, blocks)?.saturating_add(2);
    let within = room.trailing(2, least)?;
    let mut own = LineList::new(alloc);
    lay_blocks(alloc, within, blocks, &mut own, trailing)?;
    lines.append_after(alloc, room, "> ", "> ", own.into_lines())?;
    Ok(())
}

/// Lays out a list, after an empty line where a line has content: its items after prefixes of so many columns.
#[cycle(laying)]
fn lay_list(
    alloc: Global,
    room: Room,
    first: Option<i64>,
    columns: usize,
    items: &[Vec<Block>],
    lines: &mut LineList,
    trailing: &mut After,
) -> Result<(), BlockError>
    ensures done { OnOk result (laid_items (options_of room.options) room.width columns
        (capped (least_of_items (options_of room.options) (items_view items.now) + columns)) first
        (items_view items.now) (parted_at (options_of room.options) room.width (at_of lines.old trailing.old))
        ≡ Some (at_of lines.new trailing.new)) }
    ensures narrow { result ≡ Err errors.TooNarrow → laid_items (options_of room.options) room.width columns
        (capped (least_of_items (options_of room.options) (items_view items.now) + columns)) first
        (items_view items.now) (parted_at (options_of room.options) room.width (at_of lines.old trailing.old)) ≡ None }
    ensures failed { result ≡ Err errors.Failed → ⊥ }
{
    lines.part(alloc, room)?;
    let least = least_of_items(alloc, room.options, items)?.saturating_add(columns);
    let mut number = first;
    'items: for item in items {
        lay_item(
            alloc,
            room,
            number,
            columns,
            least,
            item.as_slice(),
            lines,
            trailing,
        )?;
        number = next_number(number);
    }
    Ok(())
}

/// Lays out an item, in what is left of the room after its prefix.
#[cycle(laying)]
fn lay_item(
    alloc: Global,
    room: Room,
    number: Option<i64>,
    columns: usize,
    least: usize,
    item: &[Block],
    lines: &mut LineList,
    trailing: &mut After,
) -> Result<(), BlockError>
    ensures done { OnOk result (with_item (options_of room.options) room.width columns least number
        (λ within. laid (options_of room.options) within (blocks_view item.now)) (at_of lines.old trailing.old)
        ≡ Some (at_of lines.new trailing.new)) }
    ensures narrow { result ≡ Err errors.TooNarrow → with_item (options_of room.options) room.width columns least
        number (λ within. laid (options_of room.options) within (blocks_view item.now)) (at_of lines.old trailing.old)
        ≡ None }
    ensures failed { result ≡ Err errors.Failed → ⊥ }
{
    let within = room.trailing(columns, least)?;
    let mut own = LineList::new(alloc);
    lay_blocks(alloc, within, item, &mut own, trailing)?;
    let first = filled_prefix(alloc, number, columns)?;
    let following = spaces(alloc, columns)?;
    lines.append_after(
        alloc,
        room,
        first.as_str(),
        following.as_str(),
        own.into_lines(),
    )?;
    Ok(())
}
