//! The blocks of a script, one within the other.
use crate::block::{Answer, Block, Pieces};
use anyhow::{Result, bail};
use block_renderer::SubRenderer;
use block_trait::Renderer;
use std::alloc::Global;
use std::mem;
use test_fields::unescaped;
use text_decorators::TextDecorator;
use text_pieces::BlockError;

/// The renderer that has taken the calls of a script, a line each, or what it answered to one that it refused.
pub(crate) fn performed<D: TextDecorator + Drop>(
    alloc: Global,
    renderer: SubRenderer<D>,
    calls: &str,
    pieces: Pieces,
) -> Result<Result<SubRenderer<D>, BlockError>> {
    let mut blocks = Blocks::new(alloc, renderer, pieces);
    for call in calls.lines() {
        if let Err(error) = blocks.perform(call)? {
            return Ok(Err(error));
        }
    }
    Ok(Ok(blocks.into_renderer()?))
}

/// The block that calls go to, and those around it.
struct Blocks<D: TextDecorator> {
    /// Those around the running one, the outermost first.
    around: Vec<Block<D>>,
    running: Block<D>,
    /// The renderers of those that are over and stand nowhere yet.
    pile: Vec<SubRenderer<D>>,
    pieces: Pieces,
}

impl<D: TextDecorator + Drop> Drop for Blocks<D> {
    fn drop(self) {
        let Blocks {
            around: _,
            running: _,
            pile: _,
            pieces: _,
        } = self;
    }
}

impl<D: TextDecorator + Drop> Blocks<D> {
    /// The block of that renderer alone.
    fn new(alloc: Global, renderer: SubRenderer<D>, pieces: Pieces) -> Blocks<D> {
        Blocks {
            around: Vec::new(alloc),
            running: Block::new(alloc, renderer, pieces),
            pile: Vec::new(alloc),
            pieces,
        }
    }

    /// Does what a line says: a word, and up to two fields after tabs.
    fn perform(&mut self, line: &str) -> Answer {
        let Some((word, fields)) = line.split_once('\t') else {
            return match line {
                "pop" => self.pop(),
                _ => self.running.perform(line),
            };
        };
        match (word, fields.split_once('\t')) {
            ("push", None) => self.push(fields.parse()?),
            ("columns", None) => self.add_columns(fields.parse()?),
            ("below", None) => self.add_below(fields.parse()?),
            (_, None) => self.running.perform_with(word, fields),
            ("append", Some((first, following))) => self.append(first, following),
            (_, Some((first, second))) => self.running.perform_with_two(word, first, second),
        }
    }

    /// The renderer of the outermost block, to which each part must have come back.
    fn into_renderer(self) -> Result<SubRenderer<D>> {
        let Blocks {
            around,
            running,
            pile: _,
            pieces: _,
        } = self;
        if !around.is_empty() {
            bail!("a push without a pop");
        }
        Ok(running.into_renderer())
    }

    fn alloc(&self) -> Global {
        *self.pile.allocator()
    }

    /// A part of the block begins: the next calls go to a renderer of so many columns.
    fn push(&mut self, width: usize) -> Answer {
        match self.running.renderer.new_sub_renderer(width) {
            Ok(renderer) => {
                let part = Block::new(self.alloc(), renderer, self.pieces);
                let outer = mem::replace(&mut self.running, part);
                self.around.push(outer)?;
                Ok(Ok(()))
            }
            Err(error) => Ok(Err(error)),
        }
    }

    /// The part is over, and lies on the pile.
    fn pop(&mut self) -> Answer {
        let Some(outer) = self.around.pop() else {
            bail!("a pop without a push");
        };
        let part = mem::replace(&mut self.running, outer);
        self.pile.push(part.into_renderer())?;
        Ok(Ok(()))
    }

    /// The last of the pile is appended after prefixes.
    fn append(&mut self, first: &str, following: &str) -> Answer {
        let alloc = self.alloc();
        let first = unescaped(alloc, first)?;
        let following = unescaped(alloc, following)?;
        let Some(part) = self.pile.pop() else {
            bail!("none lies on the pile");
        };
        Ok(
            self.running
                .renderer
                .append_subrender(part, first.as_str(), following.as_str()),
        )
    }

    /// The last of the pile, so many, are a row of cells.
    fn add_columns(&mut self, count: usize) -> Answer {
        let mut cells = Vec::new(self.alloc());
        for cell in self.taken(count)? {
            cells.push((cell, 1))?;
        }
        Ok(
            self.running
                .renderer
                .append_columns_with_borders(cells, true),
        )
    }

    /// The last of the pile, so many, are rows below one another.
    fn add_below(&mut self, count: usize) -> Answer {
        let cells = self.taken(count)?;
        Ok(self.running.renderer.append_vert_row(cells))
    }

    /// Takes the last of the pile, so many, in order.
    fn taken(&mut self, count: usize) -> Result<Vec<SubRenderer<D>>> {
        let Some(at) = self.pile.len().checked_sub(count) else {
            bail!("too few lie on the pile");
        };
        Ok(self.pile.split_off(at)?)
    }
}
