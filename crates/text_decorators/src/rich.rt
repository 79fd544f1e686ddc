ghost use Rattle.std.specs.Prelude.{true};
ghost use Rattle.text_decorators.specs.Texts.{rich_text, footnote_lines, IsRich, is_colour};
ghost use Rattle.text_decorators.specs.declared.annotation.RichAnnotation.TheVariants.{Default};
ghost use Rattle.text_decorators.specs.Laws.{rich_tags_are_one};
ghost use Rattle.text_decorators.specs.Steady.{rich_is_steady};

use crate::annotation::RichAnnotation;
use crate::colour::Colour;
use crate::decorator::{SteadyPrefixes, TextDecorator};
use crate::default_marks::{footnotes, literal, no_text, superscript_end, superscript_start};
use crate::prefixes;
use std::alloc::{AllocError, Global};
use text_lines::TaggedLine;

/// The decorator of rich text: annotations say what plain text has marks for, but for prefixes.
#[derive(Clone, Copy)]
pub struct RichDecorator;

impl RichDecorator {
    /// A decorator of rich text.
    pub fn new() -> RichDecorator {
        RichDecorator
    }
}

impl TextDecorator for RichDecorator {
    type Annotation = RichAnnotation;

    ghost Held = { Unit {0} };

    ghost view = { record {
      held = λ _. tt;
      text = λ _ m. rich_text m;
      gives = λ _ m a. IsRich m a;
      marks = λ _ m. is_colour m;
      after = λ h _. h;
      pops = λ _ _. true;
      sub = λ h. h;
      closes = λ _ targets. footnote_lines Default targets;
    } };

    ghost one = { λ _ m a b. rich_tags_are_one m a b };

    fn decorate_link_start(
        &mut self,
        alloc: Global,
        url: &str,
    ) -> Result<(String, RichAnnotation), AllocError> {
        let target = literal(alloc, url)?;
        Ok((no_text(alloc), RichAnnotation::Link(target)))
    }

    fn decorate_link_end(&mut self, alloc: Global) -> Result<String, AllocError> {
        Ok(no_text(alloc))
    }

    fn decorate_em_start(&self, alloc: Global) -> Result<(String, RichAnnotation), AllocError> {
        Ok((no_text(alloc), RichAnnotation::Emphasis))
    }

    fn decorate_em_end(&self, alloc: Global) -> Result<String, AllocError> {
        Ok(no_text(alloc))
    }

    fn decorate_strong_start(&self, alloc: Global) -> Result<(String, RichAnnotation), AllocError> {
        Ok((no_text(alloc), RichAnnotation::Strong))
    }

    fn decorate_strong_end(&self, alloc: Global) -> Result<String, AllocError> {
        Ok(no_text(alloc))
    }

    fn decorate_strikeout_start(
        &self,
        alloc: Global,
    ) -> Result<(String, RichAnnotation), AllocError> {
        Ok((no_text(alloc), RichAnnotation::Strikeout))
    }

    fn decorate_strikeout_end(&self, alloc: Global) -> Result<String, AllocError> {
        Ok(no_text(alloc))
    }

    fn decorate_code_start(&self, alloc: Global) -> Result<(String, RichAnnotation), AllocError> {
        Ok((no_text(alloc), RichAnnotation::Code))
    }

    fn decorate_code_end(&self, alloc: Global) -> Result<String, AllocError> {
        Ok(no_text(alloc))
    }

    fn decorate_superscript_start(
        &self,
        alloc: Global,
    ) -> Result<(String, RichAnnotation), AllocError> {
        superscript_start(alloc)
    }

    fn decorate_superscript_end(&self, alloc: Global) -> Result<String, AllocError> {
        superscript_end(alloc)
    }

    fn decorate_preformat_first(&self, _alloc: Global) -> Result<RichAnnotation, AllocError> {
        Ok(RichAnnotation::Preformat(false))
    }

    fn decorate_preformat_cont(&self, _alloc: Global) -> Result<RichAnnotation, AllocError> {
        Ok(RichAnnotation::Preformat(true))
    }

    fn decorate_image(
        &mut self,
        alloc: Global,
        src: &str,
        title: &str,
    ) -> Result<(String, RichAnnotation), AllocError> {
        let text = literal(alloc, title)?;
        let source = literal(alloc, src)?;
        Ok((text, RichAnnotation::Image(source)))
    }

    fn header_prefix(&self, alloc: Global, level: usize) -> Result<String, AllocError> {
        prefixes::header_prefix(alloc, level)
    }

    fn quote_prefix(&self, alloc: Global) -> Result<String, AllocError> {
        prefixes::quote_prefix(alloc)
    }

    fn unordered_item_prefix(&self, alloc: Global) -> Result<String, AllocError> {
        prefixes::unordered_item_prefix(alloc)
    }

    fn ordered_item_prefix(&self, alloc: Global, i: i64) -> Result<String, AllocError> {
        prefixes::ordered_item_prefix(alloc, i)
    }

    fn make_subblock_decorator(&self, _alloc: Global) -> Result<RichDecorator, AllocError> {
        Ok(RichDecorator::new())
    }

    fn push_colour(
        &mut self,
        _alloc: Global,
        colour: Colour,
    ) -> Result<Option<RichAnnotation>, AllocError> {
        Ok(Some(RichAnnotation::Colour(colour)))
    }

    fn pop_colour(&mut self) -> bool {
        true
    }

    fn push_bgcolour(
        &mut self,
        _alloc: Global,
        colour: Colour,
    ) -> Result<Option<RichAnnotation>, AllocError> {
        Ok(Some(RichAnnotation::BgColour(colour)))
    }

    fn pop_bgcolour(&mut self) -> bool {
        true
    }

    fn finalise(
        &mut self,
        alloc: Global,
        urls: Vec<String>,
    ) -> Result<Vec<TaggedLine<RichAnnotation>>, AllocError> {
        footnotes(alloc, urls)
    }
}

impl SteadyPrefixes for RichDecorator {
    ghost steady = { rich_is_steady };
}
