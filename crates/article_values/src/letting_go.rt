//! Steps of a drop that goes down to any depth without recursion and takes no memory.
//!
//! One value is in hand and others wait. Where a value in hand holds values, these wait from then on, and what waited
//! before waits in the place of their first, which is the next in hand.
ghost use Rattle.std.specs.Prelude.{◌≡◌, ◌<◌, map, suc, MatchOption, Some, vec_len};
ghost use Rattle.article_values.specs.Sizes.{block_size, blocks_size, first_of, inline_size, inlines_size, items_size};
ghost use Rattle.article_values.specs.Sizes.{with_first, work};

use crate::values::{Block, Inline};
use std::mem;

// puts a value in the place of the first, where there is one, and answers what it took out
fn in_place_of_first<T>(value: T, waiting: &mut Vec<T>) -> T
    ensures taken { result ≡ first_of value waiting.old.items }
    ensures left { waiting.new.items ≡ with_first value waiting.old.items }
{
    let mut taken = value;
    if !waiting.is_empty() {
        mem::swap(&mut waiting[0], &mut taken);
    }
    taken
}

pub(crate) fn next_of_inlines(
    mut contents: Vec<Inline>,
    waiting: &mut Vec<Inline>,
) -> Option<Inline>
    ensures { MatchOption result (vec_len waiting.new ≡ 0)
        (λ next. work (inline_size next) (map inline_size waiting.new.items)
        < work (suc (inlines_size contents.items)) (map inline_size waiting.old.items)) }
{
    mem::swap(&mut contents, waiting);
    if contents.is_empty() {
        contents.destroy_empty();
        return waiting.pop();
    }
    Some(in_place_of_first(Inline::Bold(contents), waiting))
}

pub(crate) fn next_of_blocks(mut blocks: Vec<Block>, waiting: &mut Vec<Block>) -> Option<Block>
    ensures { MatchOption result (vec_len waiting.new ≡ 0)
        (λ next. work (block_size next) (map block_size waiting.new.items)
        < work (suc (blocks_size blocks.items)) (map block_size waiting.old.items)) }
{
    mem::swap(&mut blocks, waiting);
    if blocks.is_empty() {
        blocks.destroy_empty();
        return waiting.pop();
    }
    Some(in_place_of_first(Block::Division(blocks), waiting))
}

// where nothing waits: the last item is taken first, since the first may hold what waited before
fn next_of_last_item(mut items: Vec<Vec<Block>>, waiting: &mut Vec<Block>) -> Option<Block>
    requires { vec_len waiting.old ≡ 0 }
    ensures { MatchOption result (vec_len waiting.new ≡ 0)
        (λ next. work (block_size next) (map block_size waiting.new.items)
        < work (suc (items_size items.items)) (map block_size waiting.old.items)) }
{
    let Some(mut last) = items.pop() else {
        items.destroy_empty();
        return None;
    };
    mem::swap(&mut last, waiting);
    last.destroy_empty();
    if items.is_empty() {
        items.destroy_empty();
        return waiting.pop();
    }
    Some(in_place_of_first(Block::Bullets(items), waiting))
}

pub(crate) fn next_of_items(mut items: Vec<Vec<Block>>, waiting: &mut Vec<Block>) -> Option<Block>
    ensures { MatchOption result (vec_len waiting.new ≡ 0)
        (λ next. work (block_size next) (map block_size waiting.new.items)
        < work (suc (items_size items.items)) (map block_size waiting.old.items)) }
{
    if waiting.is_empty() {
        return next_of_last_item(items, waiting);
    }
    if items.is_empty() {
        items.destroy_empty();
        return waiting.pop();
    }
    mem::swap(&mut items[0], waiting);
    Some(in_place_of_first(Block::Bullets(items), waiting))
}
