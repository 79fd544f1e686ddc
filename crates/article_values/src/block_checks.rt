//! The first fault of blocks, found as that of inlines is.
ghost use Rattle.std.specs.Prelude.{◌≡◌, ◌≤◌, ◌+◌, not, suc, None};
ghost use Rattle.std.specs.Option.{option_or};
ghost use Rattle.article_values.specs.Articles.{Blocks, paragraph};
ghost use Rattle.article_values.specs.Faults.{fault_of_blocks, fault_of_items, fault_where, has_item, is_level};
ghost use Rattle.article_values.specs.Faults.{is_too_deep};
ghost use Rattle.article_values.specs.Outcomes.{fault_met};
ghost use Rattle.article_values.specs.Views.{block_view, blocks_view, inlines_view, items_view};

use crate::error::ArticleError;
use crate::inline_checks::{check_depth, check_inlines};
use crate::values::{Block, Inline};

// a paragraph, or what is left to check of a heading
fn check_text_block(contents: &[Inline], depth: usize) -> Result<(), ArticleError>
    requires { depth ≤ 257 }
    ensures { (rest : Blocks) → fault_of_blocks depth (paragraph (inlines_view contents.now) rest)
        ≡ option_or (fault_met result) (fault_of_blocks depth rest) }
{
    check_depth(depth)?;
    check_inlines(contents, depth + 1, false)
}

fn check_level(level: u8) -> Result<(), ArticleError>
    ensures { fault_met result ≡ fault_where (not (is_level level)) ArticleError.BadLevel None }
{
    if level < 1 || level > 6 {
        return Err(ArticleError::BadLevel);
    }
    Ok(())
}

#[cycle(blocks)]
fn check_items(items: &[Vec<Block>], depth: usize) -> Result<(), ArticleError>
    requires { depth ≤ 257 }
    ensures { fault_met result ≡ fault_of_items depth (items_view items.now) }
{
    'items: for item in items {
        check_blocks(item.as_slice(), depth)?;
    }
    Ok(())
}

#[cycle(blocks)]
fn check_list(items: &[Vec<Block>], depth: usize) -> Result<(), ArticleError>
    requires { depth ≤ 257 }
    ensures { fault_met result ≡ fault_where (not (has_item (items_view items.now))) ArticleError.EmptyList
        (fault_where (is_too_deep depth) ArticleError.TooDeep (fault_of_items (suc depth) (items_view items.now))) }
{
    if items.is_empty() {
        return Err(ArticleError::EmptyList);
    }
    check_depth(depth)?;
    check_items(items, depth + 1)
}

#[cycle(blocks)]
fn check_block(block: &Block, depth: usize) -> Result<(), ArticleError>
    requires { depth ≤ 257 }
    ensures { (rest : Blocks) → fault_of_blocks depth (block_view block.now rest)
        ≡ option_or (fault_met result) (fault_of_blocks depth rest) }
{
    match block {
        Block::Paragraph(contents) => check_text_block(contents.as_slice(), depth),
        Block::Heading(level, contents) => {
            check_level(*level)?;
            check_text_block(contents.as_slice(), depth)
        }
        Block::Division(blocks) => {
            check_depth(depth)?;
            check_blocks(blocks.as_slice(), depth + 1)
        }
        Block::Quote(blocks) => {
            check_depth(depth)?;
            check_blocks(blocks.as_slice(), depth + 1)
        }
        Block::Bullets(items) => check_list(items.as_slice(), depth),
        Block::Numbers(_first, items) => check_list(items.as_slice(), depth),
    }
}

#[cycle(blocks)]
pub(crate) fn check_blocks(blocks: &[Block], depth: usize) -> Result<(), ArticleError>
    requires { depth ≤ 257 }
    ensures { fault_met result ≡ fault_of_blocks depth (blocks_view blocks.now) }
{
    'blocks: for block in blocks {
        check_block(block, depth)?;
    }
    Ok(())
}
