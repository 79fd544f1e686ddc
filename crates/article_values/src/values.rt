//! Articles: blocks and inline contents, as they are built.
ghost use Rattle.std.specs.Prelude.{◌≡◌, ◌<◌, map, suc, MatchOption, None, Some, vec_len};
ghost use Rattle.article_values.specs.Sizes.{block_size, inline_size, inlines_size, work};

use crate::letting_go::{next_of_blocks, next_of_inlines, next_of_items};

/// What stands in a paragraph or a heading, or in another inline.
pub enum Inline {
    /// Characters, shown as they are: none of them is markup.
    Text(String),
    /// The end of a line.
    Break,
    /// Bold contents.
    Bold(Vec<Inline>),
    /// Italic contents.
    Italic(Vec<Inline>),
    /// Emphasised contents.
    Emphasis(Vec<Inline>),
    /// Contents that are code.
    Code(Vec<Inline>),
    /// Strong contents.
    Strong(Vec<Inline>),
    /// A link: its target, and the contents that lead there. No link stands in another.
    Link(String, Vec<Inline>),
}

impl Inline {
    fn into_contents(self) -> Option<Vec<Inline>>
        ensures { MatchOption result (inline_size self ≡ 1)
            (λ contents. inline_size self ≡ suc (inlines_size contents.items)) }
    {
        match self {
            Inline::Text(_) => None,
            Inline::Break => None,
            Inline::Bold(contents) => Some(contents),
            Inline::Italic(contents) => Some(contents),
            Inline::Emphasis(contents) => Some(contents),
            Inline::Code(contents) => Some(contents),
            Inline::Strong(contents) => Some(contents),
            Inline::Link(_, contents) => Some(contents),
        }
    }

    // Lets go of it: what it holds waits, and the answer is what is let go next.
    fn next(self, waiting: &mut Vec<Inline>) -> Option<Inline>
        ensures { MatchOption result (vec_len waiting.new ≡ 0)
            (λ next. work (inline_size next) (map inline_size waiting.new.items)
            < work (inline_size self) (map inline_size waiting.old.items)) }
    {
        match self.into_contents() {
            Some(contents) => next_of_inlines(contents, waiting),
            None => waiting.pop(),
        }
    }
}

impl Drop for Inline {
    // A loop that takes no memory: inlines may stand in one another to any depth.
    fn drop(self) {
        let Some(mut waiting) = self.into_contents() else {
            return
        };
        let mut in_hand = waiting.pop();
        'all: while let Some(inline) = in_hand {
            in_hand = inline.next(&mut waiting);
        }
        waiting.destroy_empty();
    }
}

/// A block of an article, or of a division, a quote or an item.
pub enum Block {
    /// A paragraph. It may be empty.
    Paragraph(Vec<Inline>),
    /// A heading: its level, from 1 to 6, the lower the greater, and its contents.
    Heading(u8, Vec<Inline>),
    /// Blocks that belong together. There may be none.
    Division(Vec<Block>),
    /// Blocks that are quoted. There may be none.
    Quote(Vec<Block>),
    /// A list with bullets: the blocks of each item, one item at the least. An item may be empty.
    Bullets(Vec<Vec<Block>>),
    /// A list with numbers: the number of the first item, and the items as in [`Bullets`](Block::Bullets).
    Numbers(i64, Vec<Vec<Block>>),
}

impl Block {
    // Lets go of it: the blocks that it holds wait, and the answer is what is let go next.
    fn next(self, waiting: &mut Vec<Block>) -> Option<Block>
        ensures { MatchOption result (vec_len waiting.new ≡ 0)
            (λ next. work (block_size next) (map block_size waiting.new.items)
            < work (block_size self) (map block_size waiting.old.items)) }
    {
        match self {
            Block::Paragraph(inlines) => {
                drop(inlines);
                waiting.pop()
            }
            Block::Heading(_, inlines) => {
                drop(inlines);
                waiting.pop()
            }
            Block::Division(blocks) => next_of_blocks(blocks, waiting),
            Block::Quote(blocks) => next_of_blocks(blocks, waiting),
            Block::Bullets(items) => next_of_items(items, waiting),
            Block::Numbers(_, items) => next_of_items(items, waiting),
        }
    }
}

impl Drop for Block {
    // A loop that takes no memory: blocks may stand in one another to any depth.
    fn drop(self) {
        let (mut waiting, mut in_hand) = match self {
            Block::Paragraph(_) => return,
            Block::Heading(_, _) => return,
            Block::Division(mut blocks) => {
                let last = blocks.pop();
                (blocks, last)
            }
            Block::Quote(mut blocks) => {
                let last = blocks.pop();
                (blocks, last)
            }
            Block::Bullets(items) => {
                let mut waiting = Vec::new(*items.allocator());
                let next = next_of_items(items, &mut waiting);
                (waiting, next)
            }
            Block::Numbers(_, items) => {
                let mut waiting = Vec::new(*items.allocator());
                let next = next_of_items(items, &mut waiting);
                (waiting, next)
            }
        };
        'all: while let Some(block) = in_hand {
            in_hand = block.next(&mut waiting);
        }
        waiting.destroy_empty();
    }
}
