//! What stands before the lines of headings and items.
ghost use Rattle.std.specs.Prelude.{◌≡◌, ◌-◌, chars, length, string_bytes, IfOk};
ghost use Rattle.article_definitions.specs.Layouts.{item_prefix, next_number, room_of_numbers, to_room};
ghost use Rattle.article_layout.specs.Walks.{heading_prefix};
ghost use Rattle.layout_state.specs.Items.{number_after};

use layout_state::spaces;
use std::alloc::{AllocError, Global};
use text_decorators::{PlainDecorator, TextDecorator};

/// The prefix of a heading's lines.
pub(crate) fn heading_prefix(alloc: Global, level: u8) -> Result<String, AllocError>
    ensures { IfOk result (λ s. chars (string_bytes s) ≡ heading_prefix level) }
{
    PlainDecorator.header_prefix(alloc, usize::from(level))
}

/// What stands before an item: a bullet or its number.
fn item_prefix(alloc: Global, number: Option<i64>) -> Result<String, AllocError>
    ensures { IfOk result (λ s. chars (string_bytes s) ≡ item_prefix number) }
{
    match number {
        Some(number) => PlainDecorator.ordered_item_prefix(alloc, number),
        None => PlainDecorator.unordered_item_prefix(alloc),
    }
}

/// The number of the next item; numbers stop at the greatest of 64 bits.
pub(crate) fn next_number(number: Option<i64>) -> Option<i64>
    ensures { result ≡ next_number number }
{
    match number {
        Some(number) => Some(number.saturating_add(1)),
        None => None,
    }
}

fn last_number(first: i64, items: usize) -> i64
    ensures { result ≡ number_after first (items - 1) }
{
    let further = items.saturating_sub(1) as u64;
    first.saturating_add_unsigned(further)
}

/// How many characters a text has.
fn characters(text: &str) -> usize
    ensures { result ≡ length (chars text.now) }
{
    text.chars().count()
}

/// The columns of the items' prefixes in a list with numbers: of the wider of the first and the last.
pub(crate) fn room_of_numbers(alloc: Global, first: i64, items: usize) -> Result<usize, AllocError>
    ensures { IfOk result (λ n. n ≡ room_of_numbers first items) }
{
    let front = item_prefix(alloc, Some(first))?;
    let back = item_prefix(alloc, Some(last_number(first, items)))?;
    Ok(characters(front.as_str()).max(characters(back.as_str())))
}

/// The prefix of an item's first line, filled with spaces up to so many characters.
pub(crate) fn filled_prefix(
    alloc: Global,
    number: Option<i64>,
    columns: usize,
) -> Result<String, AllocError>
    ensures { IfOk result (λ s. chars (string_bytes s) ≡ to_room columns (item_prefix number)) }
{
    let mut prefix = item_prefix(alloc, number)?;
    let missing = columns.saturating_sub(characters(prefix.as_str()));
    let rest = spaces(alloc, missing)?;
    prefix.push_str(rest.as_str())?;
    Ok(prefix)
}
