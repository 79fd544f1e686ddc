ghost use Rattle.std.specs.Prelude.{◌≡◌, ◌++◌, refl, false, codes, chars, string_bytes, IfOk};
ghost use Rattle.text_decorators.specs.Texts.{plain_text, footnote_lines};
ghost use Rattle.text_decorators.specs.Steady.{plain_is_steady};

use crate::colour::Colour;
use crate::decorator::{SteadyPrefixes, TextDecorator};
use crate::default_marks::{footnotes, literal, no_text, superscript_end, superscript_start};
use crate::prefixes;
use std::alloc::{AllocError, Global};
use text_lines::TaggedLine;

/// The decorator of plain text: brackets round links and images, and the prefixes of Markdown; it tags nothing.
#[derive(Clone, Copy)]
pub struct PlainDecorator;

impl PlainDecorator {
    /// A decorator of plain text.
    pub fn new() -> PlainDecorator {
        PlainDecorator
    }
}

impl TextDecorator for PlainDecorator {
    type Annotation = ();

    ghost Held = { Unit {0} };

    ghost view = { record {
      held = λ _. tt;
      text = λ _ m. plain_text m;
      gives = λ _ _ _. Unit {0};
      marks = λ _ _. false;
      after = λ h _. h;
      pops = λ _ _. false;
      sub = λ h. h;
      closes = λ _ targets. footnote_lines tt targets;
    } };

    ghost one = { λ _ _ _ _ _ _. refl };

    fn decorate_link_start(
        &mut self,
        alloc: Global,
        _url: &str,
    ) -> Result<(String, ()), AllocError> {
        let text = opening_bracket(alloc)?;
        Ok((text, ()))
    }

    fn decorate_link_end(&mut self, alloc: Global) -> Result<String, AllocError> {
        closing_bracket(alloc)
    }

    fn decorate_em_start(&self, alloc: Global) -> Result<(String, ()), AllocError> {
        Ok((no_text(alloc), ()))
    }

    fn decorate_em_end(&self, alloc: Global) -> Result<String, AllocError> {
        Ok(no_text(alloc))
    }

    fn decorate_strong_start(&self, alloc: Global) -> Result<(String, ()), AllocError> {
        Ok((no_text(alloc), ()))
    }

    fn decorate_strong_end(&self, alloc: Global) -> Result<String, AllocError> {
        Ok(no_text(alloc))
    }

    fn decorate_strikeout_start(&self, alloc: Global) -> Result<(String, ()), AllocError> {
        Ok((no_text(alloc), ()))
    }

    fn decorate_strikeout_end(&self, alloc: Global) -> Result<String, AllocError> {
        Ok(no_text(alloc))
    }

    fn decorate_code_start(&self, alloc: Global) -> Result<(String, ()), AllocError> {
        Ok((no_text(alloc), ()))
    }

    fn decorate_code_end(&self, alloc: Global) -> Result<String, AllocError> {
        Ok(no_text(alloc))
    }

    fn decorate_superscript_start(&self, alloc: Global) -> Result<(String, ()), AllocError> {
        superscript_start(alloc)
    }

    fn decorate_superscript_end(&self, alloc: Global) -> Result<String, AllocError> {
        superscript_end(alloc)
    }

    fn decorate_preformat_first(&self, _alloc: Global) -> Result<(), AllocError> {
        Ok(())
    }

    fn decorate_preformat_cont(&self, _alloc: Global) -> Result<(), AllocError> {
        Ok(())
    }

    fn decorate_image(
        &mut self,
        alloc: Global,
        _src: &str,
        title: &str,
    ) -> Result<(String, ()), AllocError> {
        let text = bracketed(alloc, title)?;
        Ok((text, ()))
    }

    fn header_prefix(&self, alloc: Global, level: usize) -> Result<String, AllocError> {
        prefixes::header_prefix(alloc, level)
    }

    fn quote_prefix(&self, alloc: Global) -> Result<String, AllocError> {
        prefixes::quote_prefix(alloc)
    }

    fn unordered_item_prefix(&self, alloc: Global) -> Result<String, AllocError> {
        prefixes::unordered_item_prefix(alloc)
    }

    fn ordered_item_prefix(&self, alloc: Global, i: i64) -> Result<String, AllocError> {
        prefixes::ordered_item_prefix(alloc, i)
    }

    fn make_subblock_decorator(&self, _alloc: Global) -> Result<PlainDecorator, AllocError> {
        Ok(PlainDecorator::new())
    }

    fn push_colour(&mut self, _alloc: Global, _colour: Colour) -> Result<Option<()>, AllocError> {
        Ok(None)
    }

    fn pop_colour(&mut self) -> bool {
        false
    }

    fn push_bgcolour(&mut self, _alloc: Global, _colour: Colour) -> Result<Option<()>, AllocError> {
        Ok(None)
    }

    fn pop_bgcolour(&mut self) -> bool {
        false
    }

    fn finalise(
        &mut self,
        alloc: Global,
        urls: Vec<String>,
    ) -> Result<Vec<TaggedLine<()>>, AllocError> {
        footnotes(alloc, urls)
    }
}

impl SteadyPrefixes for PlainDecorator {
    ghost steady = { plain_is_steady };
}

fn opening_bracket(alloc: Global) -> Result<String, AllocError>
    ensures { IfOk result (λ s. chars (string_bytes s) ≡ codes "[") }
{
    literal(alloc, "[")
}

fn closing_bracket(alloc: Global) -> Result<String, AllocError>
    ensures { IfOk result (λ s. chars (string_bytes s) ≡ codes "]") }
{
    literal(alloc, "]")
}

fn bracketed(alloc: Global, text: &str) -> Result<String, AllocError>
    ensures { IfOk result (λ s. chars (string_bytes s) ≡ codes "[" ++ chars text.now ++ codes "]") }
{
    format!(in alloc; "[{text}]")
}
