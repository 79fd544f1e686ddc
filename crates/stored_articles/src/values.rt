//! The values of an article, from lines.
use anyhow::{Result, bail};
use article_values::{Block, Inline};
use std::alloc::Global;
use test_fields::unescaped;

/// A line of a value.
#[derive(Clone, Copy)]
pub(crate) struct Line<'a> {
    /// The number of spaces before it, which is the number of values that it stands in.
    level: usize,
    /// What kind of value it is.
    word: &'a str,
    /// What stands after a tab.
    field: Option<&'a str>,
}

impl<'a> Line<'a> {
    pub(crate) fn of(line: &'a str) -> Line<'a> {
        let words = line.trim_start_matches(' ');
        let (word, field) = match words.split_once('\t') {
            Some((word, field)) => (word, Some(field)),
            None => (words, None),
        };
        Line {
            level: line.len().saturating_sub(words.len()),
            word,
            field,
        }
    }

    /// The text that its field stands for.
    fn text(self, alloc: Global) -> Result<String> {
        Ok(unescaped(alloc, self.given()?)?)
    }

    fn given(self) -> Result<&'a str> {
        match self.field {
            Some(field) => Ok(field),
            None => bail!("a line without a field"),
        }
    }
}

/// The value of a line, with those below it.
#[derive(Drop)]
enum Value {
    Inline(Inline),
    Block(Block),
    Item(Vec<Block>),
}

#[derive(Drop)]
struct Waiting {
    level: usize,
    value: Value,
}

/// The values of lines that come from the last one up, so that what a value holds came before it.
#[derive(Drop)]
pub(crate) struct Values {
    alloc: Global,
    // what no value has taken yet, the first one last
    waiting: Vec<Waiting>,
}

impl Values {
    pub(crate) fn new(alloc: Global) -> Values {
        let waiting = Vec::new(alloc);
        Values { alloc, waiting }
    }

    /// Takes the line before those that were taken. Its value takes what waits one level below it.
    pub(crate) fn take_line(&mut self, line: Line<'_>) -> Result<()> {
        let value = self.value_of(line)?;
        let level = line.level;
        self.waiting.push(Waiting { level, value })?;
        Ok(())
    }

    fn value_of(&mut self, line: Line<'_>) -> Result<Value> {
        if let Some(inline) = self.inline_of(line)? {
            return Ok(Value::Inline(inline));
        }
        let below = line.level.saturating_add(1);
        let block = match line.word {
            "item" => return Ok(Value::Item(self.blocks_at(below)?)),
            "paragraph" => Block::Paragraph(self.inlines_at(below)?),
            "heading" => Block::Heading(line.given()?.parse()?, self.inlines_at(below)?),
            "division" => Block::Division(self.blocks_at(below)?),
            "quote" => Block::Quote(self.blocks_at(below)?),
            "bullets" => Block::Bullets(self.items_at(below)?),
            "numbers" => Block::Numbers(line.given()?.parse()?, self.items_at(below)?),
            word => bail!("no value has the name {word}"),
        };
        Ok(Value::Block(block))
    }

    fn inline_of(&mut self, line: Line<'_>) -> Result<Option<Inline>> {
        let below = line.level.saturating_add(1);
        Ok(Some(match line.word {
            "text" => Inline::Text(line.text(self.alloc)?),
            "break" => Inline::Break,
            "bold" => Inline::Bold(self.inlines_at(below)?),
            "italic" => Inline::Italic(self.inlines_at(below)?),
            "emphasis" => Inline::Emphasis(self.inlines_at(below)?),
            "code" => Inline::Code(self.inlines_at(below)?),
            "strong" => Inline::Strong(self.inlines_at(below)?),
            "link" => Inline::Link(line.text(self.alloc)?, self.inlines_at(below)?),
            _ => return Ok(None),
        }))
    }

    // how many of those that come first wait at a level
    fn count_at(&self, level: usize) -> usize {
        let first = self.waiting.iter().rev();
        first.take_while(|waiting| waiting.level == level).count()
    }

    fn inlines_at(&mut self, level: usize) -> Result<Vec<Inline>> {
        let mut inlines = Vec::new(self.alloc);
        for _ in 0..self.count_at(level) {
            let Some(
                Waiting {
                    value: Value::Inline(inline),
                    ..
                },
            ) = self.waiting.pop()
            else {
                bail!("a block stands where inlines do");
            };
            inlines.push(inline)?;
        }
        Ok(inlines)
    }

    fn blocks_at(&mut self, level: usize) -> Result<Vec<Block>> {
        let mut blocks = Vec::new(self.alloc);
        for _ in 0..self.count_at(level) {
            let Some(
                Waiting {
                    value: Value::Block(block),
                    ..
                },
            ) = self.waiting.pop()
            else {
                bail!("what is no block stands where blocks do");
            };
            blocks.push(block)?;
        }
        Ok(blocks)
    }

    fn items_at(&mut self, level: usize) -> Result<Vec<Vec<Block>>> {
        let mut items = Vec::new(self.alloc);
        for _ in 0..self.count_at(level) {
            let Some(
                Waiting {
                    value: Value::Item(item),
                    ..
                },
            ) = self.waiting.pop()
            else {
                bail!("what is no item stands in a list");
            };
            items.push(item)?;
        }
        Ok(items)
    }

    /// The blocks that stand in no other.
    pub(crate) fn into_blocks(self) -> Result<Vec<Block>> {
        let mut values = self;
        let blocks = values.blocks_at(0)?;
        if !values.waiting.is_empty() {
            bail!("a value stands in none");
        }
        Ok(blocks)
    }
}
