//! The lines of an article, as they are laid out.
ghost use Rattle.std.specs.Prelude.{◌≡◌, ◌++◌, ◌∷◌, [], ◌||◌, None, Some, chars, map, if◌then◌else◌, IfOk, OnOk};
ghost use Rattle.text_wrapping.specs.Blocks.{padded};
ghost use Rattle.article_definitions.specs.Layouts.{trailing, filled, parted, prefixed, has_content};
ghost use Rattle.article_layout.specs.Lines.{line_of, tag_of};
ghost use Rattle.article_layout.specs.Settings.{options_of};
ghost use Rattle.text_lines.specs.Tagged.{line_items};
ghost use Rattle.text_pieces.specs.Sources.{is_filled};

use crate::options::Room;
use std::alloc::{AllocError, Global};
use text_lines::TaggedLine;
use text_wrapping::pad;

/// A line.
#[derive(Drop)]
pub(crate) struct Line {
    pub(crate) line: TaggedLine<Vec<()>>,
    /// Whether it has content: an empty line has none, and what fills a line is none.
    pub(crate) content: bool,
    /// The number of its paragraph, from 0 on.
    pub(crate) paragraph: Option<usize>,
}

/// Lines, and whether one has content, so that no line is looked at again.
#[derive(Drop)]
pub(crate) struct LineList {
    lines: Vec<Line>,
    filled: bool,
    ghost noted: { filled ≡ has_content (map line_of lines.items) },
}

/// Fills the line with spaces up to so many columns, where lines are filled.
pub(crate) fn fill(
    line: &mut TaggedLine<Vec<()>>,
    pads: bool,
    width: usize,
    tag: &Vec<()>,
) -> Result<(), AllocError>
    ensures { OnOk result (line_items tag_of line.new
        ≡ padded width (if pads then Some (tag_of tag.now) else None) (line_items tag_of line.old)) }
{
    if pads { pad(line, width, tag) } else { Ok(()) }
}

fn holds_text(text: &str) -> bool
    ensures { result ≡ is_filled (chars text.now) }
{
    !text.is_empty()
}

/// The line after a prefix, filled where lines are.
fn prefixed(alloc: Global, room: Room, prefix: &str, line: &Line) -> Result<Line, AllocError>
    ensures { IfOk result (λ all. line_of all
        ≡ trailing (options_of room.options) room.width (chars prefix.now) (line_of line.now)) }
{
    let outermost = Vec::new(alloc);
    let mut all = TaggedLine::new(alloc);
    all.push_str(prefix, &outermost)?;
    all.push_line(&line.line)?;
    fill(&mut all, room.options.pads, room.width, &outermost)?;
    Ok(Line {
        line: all,
        content: line.content || holds_text(prefix),
        paragraph: line.paragraph,
    })
}

impl LineList {
    ghost use Rattle.article_layout.specs.Seen.{lines_of};

    /// No line.
    pub(crate) fn new(alloc: Global) -> LineList
        ensures { lines_of result ≡ [] }
    {
        LineList {
            lines: Vec::new(alloc),
            filled: false,
        }
    }

    /// Adds a line.
    pub(crate) fn push(&mut self, line: Line) -> Result<(), AllocError>
        ensures { OnOk result (lines_of self.new ≡ lines_of self.old ++ line_of line ∷ []) }
    {
        let filled = self.filled || line.content;
        self.lines.push(line)?;
        self.filled = filled;
        Ok(())
    }

    /// Adds an empty line where a line has content.
    pub(crate) fn part(&mut self, alloc: Global, room: Room) -> Result<(), AllocError>
        ensures { OnOk result (lines_of self.new
            ≡ parted (options_of room.options) room.width (lines_of self.old)) }
    {
        if !self.filled {
            return Ok(());
        }
        let outermost = Vec::new(alloc);
        let mut line = TaggedLine::new(alloc);
        fill(&mut line, room.options.pads, room.width, &outermost)?;
        self.push(Line {
            line,
            content: false,
            paragraph: None,
        })
    }

    /// Adds lines.
    pub(crate) fn append(&mut self, lines: Vec<Line>) -> Result<(), AllocError>
        ensures { OnOk result (lines_of self.new ≡ lines_of self.old ++ map line_of lines.items) }
    {
        for line in lines {
            self.push(line)?;
        }
        Ok(())
    }

    /// Adds lines, the first after one prefix, the others after another.
    pub(crate) fn append_after(
        &mut self,
        alloc: Global,
        room: Room,
        first: &str,
        following: &str,
        lines: Vec<Line>,
    ) -> Result<(), AllocError>
        ensures { OnOk result (lines_of self.new ≡ lines_of self.old
            ++ prefixed (options_of room.options) room.width (chars first.now) (chars following.now)
            (map line_of lines.items)) }
    {
        let mut lines = lines.into_iter();
        let Some(line) = lines.next() else {
            return Ok(());
        };
        self.push(prefixed(alloc, room, first, &line)?)?;
        for line in lines {
            self.push(prefixed(alloc, room, following, &line)?)?;
        }
        Ok(())
    }

    /// The lines.
    pub(crate) fn into_lines(self) -> Vec<Line>
        ensures { map line_of result.items ≡ lines_of self }
    {
        let LineList { lines, .. } = self;
        lines
    }
}
