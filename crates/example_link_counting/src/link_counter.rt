ghost use Rattle.std.specs.Prelude.{◌≡◌, ℕ, false};
ghost use Rattle.example_link_counting.specs.Counted.{counter_text, note_at, links_after, notes_are_one};
ghost use Rattle.example_link_counting.specs.Counted.{counter_is_steady};
ghost use Rattle.example_link_counting.specs.declared.link_note.LinkNote.TheVariants.{Outside};
ghost use Rattle.text_decorators.specs.Texts.{footnote_lines};

use crate::link_note::LinkNote;
use std::alloc::{AllocError, Global};
use text_decorators::{
    Colour, PlainDecorator, SteadyPrefixes, TextDecorator, footnotes, superscript_end,
    superscript_start,
};
use text_lines::TaggedLine;

/// Counts links: it writes and notes a link's number at the link, and marks the rest as plain text does.
#[derive(Clone, Drop)]
pub struct LinkCounter {
    links: usize,
}

impl LinkCounter {
    /// A counter that has seen no link.
    pub fn new() -> LinkCounter
        ensures { result.links ≡ 0 }
    {
        LinkCounter { links: 0 }
    }
}

impl TextDecorator for LinkCounter {
    type Annotation = LinkNote;

    ghost Held = { ℕ };

    ghost view = { record {
      held = λ counter. counter.links;
      text = counter_text;
      gives = λ links m note. note ≡ note_at links m;
      marks = λ _ _. false;
      after = links_after;
      pops = λ _ _. false;
      sub = λ links. links;
      closes = λ _ targets. footnote_lines Outside targets;
    } };

    ghost one = { notes_are_one };

    // Its error also comes where there are more links than a `usize` counts.
    fn decorate_link_start(
        &mut self,
        alloc: Global,
        url: &str,
    ) -> Result<(String, LinkNote), AllocError> {
        let links = self.links.checked_add(1).ok_or(AllocError)?;
        let (text, ()) = PlainDecorator::new().decorate_link_start(alloc, url)?;
        self.links = links;
        Ok((text, LinkNote::Link(links)))
    }

    fn decorate_link_end(&mut self, alloc: Global) -> Result<String, AllocError> {
        let links = self.links;
        format!(in alloc; "][{links}]")
    }

    fn decorate_em_start(&self, alloc: Global) -> Result<(String, LinkNote), AllocError> {
        let (text, ()) = PlainDecorator::new().decorate_em_start(alloc)?;
        Ok((text, LinkNote::Outside))
    }

    fn decorate_em_end(&self, alloc: Global) -> Result<String, AllocError> {
        PlainDecorator::new().decorate_em_end(alloc)
    }

    fn decorate_strong_start(&self, alloc: Global) -> Result<(String, LinkNote), AllocError> {
        let (text, ()) = PlainDecorator::new().decorate_strong_start(alloc)?;
        Ok((text, LinkNote::Outside))
    }

    fn decorate_strong_end(&self, alloc: Global) -> Result<String, AllocError> {
        PlainDecorator::new().decorate_strong_end(alloc)
    }

    fn decorate_strikeout_start(&self, alloc: Global) -> Result<(String, LinkNote), AllocError> {
        let (text, ()) = PlainDecorator::new().decorate_strikeout_start(alloc)?;
        Ok((text, LinkNote::Outside))
    }

    fn decorate_strikeout_end(&self, alloc: Global) -> Result<String, AllocError> {
        PlainDecorator::new().decorate_strikeout_end(alloc)
    }

    fn decorate_code_start(&self, alloc: Global) -> Result<(String, LinkNote), AllocError> {
        let (text, ()) = PlainDecorator::new().decorate_code_start(alloc)?;
        Ok((text, LinkNote::Outside))
    }

    fn decorate_code_end(&self, alloc: Global) -> Result<String, AllocError> {
        PlainDecorator::new().decorate_code_end(alloc)
    }

    fn decorate_superscript_start(&self, alloc: Global) -> Result<(String, LinkNote), AllocError> {
        superscript_start(alloc)
    }

    fn decorate_superscript_end(&self, alloc: Global) -> Result<String, AllocError> {
        superscript_end(alloc)
    }

    fn decorate_preformat_first(&self, _alloc: Global) -> Result<LinkNote, AllocError> {
        Ok(LinkNote::Outside)
    }

    fn decorate_preformat_cont(&self, _alloc: Global) -> Result<LinkNote, AllocError> {
        Ok(LinkNote::Outside)
    }

    fn decorate_image(
        &mut self,
        alloc: Global,
        src: &str,
        title: &str,
    ) -> Result<(String, LinkNote), AllocError> {
        let (text, ()) = PlainDecorator::new().decorate_image(alloc, src, title)?;
        Ok((text, LinkNote::Outside))
    }

    fn header_prefix(&self, alloc: Global, level: usize) -> Result<String, AllocError> {
        PlainDecorator::new().header_prefix(alloc, level)
    }

    fn quote_prefix(&self, alloc: Global) -> Result<String, AllocError> {
        PlainDecorator::new().quote_prefix(alloc)
    }

    fn unordered_item_prefix(&self, alloc: Global) -> Result<String, AllocError> {
        PlainDecorator::new().unordered_item_prefix(alloc)
    }

    fn ordered_item_prefix(&self, alloc: Global, i: i64) -> Result<String, AllocError> {
        PlainDecorator::new().ordered_item_prefix(alloc, i)
    }

    fn make_subblock_decorator(&self, _alloc: Global) -> Result<LinkCounter, AllocError> {
        Ok(LinkCounter { links: self.links })
    }

    fn push_colour(
        &mut self,
        _alloc: Global,
        _colour: Colour,
    ) -> Result<Option<LinkNote>, AllocError> {
        Ok(None)
    }

    fn pop_colour(&mut self) -> bool {
        false
    }

    fn push_bgcolour(
        &mut self,
        _alloc: Global,
        _colour: Colour,
    ) -> Result<Option<LinkNote>, AllocError> {
        Ok(None)
    }

    fn pop_bgcolour(&mut self) -> bool {
        false
    }

    fn finalise(
        &mut self,
        alloc: Global,
        urls: Vec<String>,
    ) -> Result<Vec<TaggedLine<LinkNote>>, AllocError> {
        footnotes(alloc, urls)
    }
}

impl SteadyPrefixes for LinkCounter {
    ghost steady = { counter_is_steady };
}
