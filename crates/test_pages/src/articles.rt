//! Articles built in steps, from inside out.
use html2text::{Article, ArticleError, Block, Inline};
use std::alloc::{AllocError, Global};
use std::mem;

/// A step after others. What holds inlines or blocks takes all that were built so far and are held by none.
pub(crate) enum Step {
    Text(&'static str),
    Break,
    /// So many bold spans, each in the next.
    Bolds(usize),
    Italic,
    Emphasis,
    Code,
    Link(&'static str),
    Paragraph,
    Heading(u8),
    /// So many divisions, each in the next.
    Divisions(usize),
    /// So many lists of one item, each in the next.
    Bullets(usize),
    /// A list of one item.
    Numbers,
    /// A list of no item.
    NoBullets,
    NoNumbers,
}

fn times(step: &Step) -> usize {
    match step {
        Step::Bolds(times) | Step::Divisions(times) | Step::Bullets(times) => *times,
        _ => 1,
    }
}

fn put_inline(alloc: Global, step: &Step, inlines: &mut Vec<Inline>) -> Result<(), AllocError> {
    let inline = match step {
        Step::Text(text) => Inline::Text(String::from_str(alloc, text)?),
        Step::Break => Inline::Break,
        Step::Bolds(_) => Inline::Bold(mem::replace(inlines, Vec::new(alloc))),
        Step::Italic => Inline::Italic(mem::replace(inlines, Vec::new(alloc))),
        Step::Emphasis => Inline::Emphasis(mem::replace(inlines, Vec::new(alloc))),
        Step::Code => Inline::Code(mem::replace(inlines, Vec::new(alloc))),
        Step::Link(target) => {
            let target = String::from_str(alloc, target)?;
            Inline::Link(target, mem::replace(inlines, Vec::new(alloc)))
        }
        _ => return Ok(()),
    };
    inlines.push(inline)?;
    Ok(())
}

fn one_item(alloc: Global, blocks: &mut Vec<Block>) -> Result<Vec<Vec<Block>>, AllocError> {
    let item = mem::replace(blocks, Vec::new(alloc));
    let mut items = Vec::new(alloc);
    items.push(item)?;
    Ok(items)
}

fn put_block(
    alloc: Global,
    step: &Step,
    inlines: &mut Vec<Inline>,
    blocks: &mut Vec<Block>,
) -> Result<(), AllocError> {
    let block = match step {
        Step::Paragraph => Block::Paragraph(mem::replace(inlines, Vec::new(alloc))),
        Step::Heading(level) => Block::Heading(*level, mem::replace(inlines, Vec::new(alloc))),
        Step::Divisions(_) => Block::Division(mem::replace(blocks, Vec::new(alloc))),
        Step::Bullets(_) => Block::Bullets(one_item(alloc, blocks)?),
        Step::Numbers => Block::Numbers(1, one_item(alloc, blocks)?),
        Step::NoBullets => Block::Bullets(Vec::new(alloc)),
        Step::NoNumbers => Block::Numbers(1, Vec::new(alloc)),
        _ => return Ok(()),
    };
    blocks.push(block)?;
    Ok(())
}

fn built(alloc: Global, steps: &[Step]) -> Result<Vec<Block>, AllocError> {
    let mut inlines = Vec::new(alloc);
    let mut blocks = Vec::new(alloc);
    for step in steps {
        for _time in 0..times(step) {
            put_inline(alloc, step, &mut inlines)?;
            put_block(alloc, step, &mut inlines, &mut blocks)?;
        }
    }
    Ok(blocks)
}

/// The article of a title and the blocks that the steps build, or its first fault.
pub(crate) fn article_of(
    alloc: Global,
    title: Option<&str>,
    steps: &[Step],
) -> Result<Result<Article, ArticleError>, AllocError> {
    let title = match title {
        Some(title) => Some(String::from_str(alloc, title)?),
        None => None,
    };
    let blocks = built(alloc, steps)?;
    Ok(Article::new(title, blocks))
}
