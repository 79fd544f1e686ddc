//! A renderer that the calls of a script go to.
use anyhow::{Result, bail};
use block_renderer::SubRenderer;
use block_trait::Renderer;
use std::alloc::Global;
use test_fields::unescaped;
use text_decorators::TextDecorator;
use text_pieces::{BlockError, WhiteSpace};

/// What a renderer answered to a line of a script; the error is a line that is no call.
pub(crate) type Answer = Result<Result<(), BlockError>>;

/// In which pieces a text comes.
#[derive(Clone, Copy)]
pub(crate) enum Pieces {
    Whole,
    Characters,
}

/// What begins and ends.
#[derive(Clone, Copy)]
enum Mark {
    Emphasis,
    Strong,
    Strikeout,
    Code,
    Superscript,
    Link,
}

/// A renderer, and what has begun in its block and not ended.
pub(crate) struct Block<D: TextDecorator> {
    pub(crate) renderer: SubRenderer<D>,
    begun: Vec<Mark>,
    pieces: Pieces,
}

impl<D: TextDecorator + Drop> Drop for Block<D> {
    fn drop(self) {
        let Block {
            renderer: _,
            begun: _,
            pieces: _,
        } = self;
    }
}

impl<D: TextDecorator + Drop> Block<D> {
    /// The block of a renderer. Its texts come in such pieces.
    pub(crate) fn new(alloc: Global, renderer: SubRenderer<D>, pieces: Pieces) -> Block<D> {
        Block {
            renderer,
            begun: Vec::new(alloc),
            pieces,
        }
    }

    /// The renderer alone.
    pub(crate) fn into_renderer(self) -> SubRenderer<D> {
        let Block {
            renderer,
            begun: _,
            pieces: _,
        } = self;
        renderer
    }

    /// Makes a call without a field.
    pub(crate) fn perform(&mut self, word: &str) -> Answer {
        let renderer = &mut self.renderer;
        Ok(match word {
            "pop_ws" => Ok(renderer.pop_ws()),
            "push_preformat" => renderer.push_preformat(),
            "pop_preformat" => Ok(renderer.pop_preformat()),
            "start_block" => renderer.start_block(),
            "end_block" => Ok(renderer.end_block()),
            "new_line" => renderer.new_line(),
            "new_line_hard" => renderer.new_line_hard(),
            "add_empty_line" => renderer.add_empty_line(),
            "border" => renderer.add_horizontal_border(),
            "end" => return self.end(),
            _ => bail!("no call has the name {word}"),
        })
    }

    /// Makes a call with one field.
    pub(crate) fn perform_with(&mut self, word: &str, field: &str) -> Answer {
        match word {
            "text" => {
                let text = unescaped(self.alloc(), field)?;
                Ok(self.add_text(text.as_str()))
            }
            "push_ws" => Ok(self.renderer.push_ws(mode_of(field)?)),
            "border_width" => {
                let width = field.parse()?;
                Ok(self.renderer.add_horizontal_border_width(width))
            }
            "marker" => {
                let name = unescaped(self.alloc(), field)?;
                Ok(self.renderer.record_frag_start(name.as_str()))
            }
            "start" => self.start(mark_of(field)?),
            _ => bail!("no call has the name {word} and one field"),
        }
    }

    /// Makes a call with two fields.
    pub(crate) fn perform_with_two(&mut self, word: &str, first: &str, second: &str) -> Answer {
        let second = unescaped(self.alloc(), second)?;
        match word {
            "image" => {
                let source = unescaped(self.alloc(), first)?;
                Ok(self.renderer.add_image(source.as_str(), second.as_str()))
            }
            "start" if first == "link" => {
                self.begun.push(Mark::Link)?;
                Ok(self.renderer.start_link(second.as_str()))
            }
            _ => bail!("no call has the name {word} and two fields"),
        }
    }

    fn alloc(&self) -> Global {
        *self.begun.allocator()
    }

    fn add_text(&mut self, text: &str) -> Result<(), BlockError> {
        match self.pieces {
            Pieces::Whole => self.renderer.add_inline_text(text),
            Pieces::Characters => self.add_characters(text),
        }
    }

    /// Adds a text a character at a time. White space that it begins with stays with what follows, and a text of
    /// nothing else is one call: after a block it is asked of each call whether its text is ignored.
    fn add_characters(&mut self, text: &str) -> Result<(), BlockError> {
        let mut has_begun = false;
        let mut piece = String::new(self.alloc());
        for c in text.chars() {
            piece.push(c)?;
            has_begun = has_begun || !c.is_whitespace();
            if has_begun {
                self.renderer.add_inline_text(piece.as_str())?;
                piece.clear();
            }
        }
        if has_begun {
            return Ok(());
        }
        self.renderer.add_inline_text(text)
    }

    fn start(&mut self, mark: Mark) -> Answer {
        self.begun.push(mark)?;
        Ok(match mark {
            Mark::Emphasis => self.renderer.start_emphasis(),
            Mark::Strong => self.renderer.start_strong(),
            Mark::Strikeout => self.renderer.start_strikeout(),
            Mark::Code => self.renderer.start_code(),
            Mark::Superscript => self.renderer.start_superscript(),
            Mark::Link => bail!("a link has a target"),
        })
    }

    fn end(&mut self) -> Answer {
        Ok(match self.begun.pop() {
            Some(Mark::Emphasis) => self.renderer.end_emphasis(),
            Some(Mark::Strong) => self.renderer.end_strong(),
            Some(Mark::Strikeout) => self.renderer.end_strikeout(),
            Some(Mark::Code) => self.renderer.end_code(),
            Some(Mark::Superscript) => self.renderer.end_superscript(),
            Some(Mark::Link) => self.renderer.end_link(),
            None => bail!("an end without a start"),
        })
    }
}

fn mode_of(field: &str) -> Result<WhiteSpace> {
    match field {
        "Normal" => Ok(WhiteSpace::Normal),
        "Pre" => Ok(WhiteSpace::Pre),
        "PreWrap" => Ok(WhiteSpace::PreWrap),
        _ => bail!("no mode of white space has the name {field}"),
    }
}

fn mark_of(field: &str) -> Result<Mark> {
    match field {
        "emphasis" => Ok(Mark::Emphasis),
        "strong" => Ok(Mark::Strong),
        "strikeout" => Ok(Mark::Strikeout),
        "code" => Ok(Mark::Code),
        "superscript" => Ok(Mark::Superscript),
        _ => bail!("no mark has the name {field}"),
    }
}
