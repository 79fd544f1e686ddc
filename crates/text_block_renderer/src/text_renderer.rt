//! Renderers of the parts of a page, one within the other.
ghost use Rattle.std.specs.Prelude.{◌≡◌, ◌⊎◌, ◌<◌, Err, IfErr, IfOk, OnErr, OnOk, chars, false, is_err, string_bytes};
ghost use Rattle.std.specs.Prelude.{true};
ghost use Rattle.text_pieces.specs.declared.fault.BlockError.TheVariants as errors;
ghost use Rattle.text_block_renderer.specs.Parts.{footnote_mark};
ghost use Rattle.std.specs.Borrow.{sem, follows};
ghost use Rattle.text_block_renderer.specs.contracts.text_renderer.TextRenderer.{the_row};
ghost use Rattle.block_renderer.specs.contracts.sub_renderer.SubRenderer.{the_row as sub_row};

use block_renderer::SubRenderer;
use block_trait::Renderer;
use std::alloc::{AllocError, Global};
use std::mem;
use text_decorators::TextDecorator;
use text_footnotes::LinkTargets;
use text_pieces::BlockError;

/// A renderer of a page: one of the whole, and above it those of the parts that have begun, to the last of which text
/// goes; and the targets of the links so far.
pub struct TextRenderer<D: TextDecorator> {
    /// Those below the current one, the whole page's first.
    below: Vec<SubRenderer<D>>,
    current: SubRenderer<D>,
    links: LinkTargets,
    failed: bool,
}

impl<D: TextDecorator + Drop> Drop for TextRenderer<D> {
    // One call wherever a page's renderer is dropped, whatever it holds.
    fn drop(self) {
        let TextRenderer {
            below: _,
            current: _,
            links: _,
            failed: _,
        } = self;
    }
}

impl<D: TextDecorator + Drop> TextRenderer<D> {
    ghost use Rattle.block_renderer.specs.Seen.{sub_of, has_failed};
    ghost use Rattle.block_trait.specs.Renderers.{Sub};
    ghost use Rattle.text_block_renderer.specs.Parts.{Parts, add_part_number, begin_part_link, depth_of};
    ghost use Rattle.text_block_renderer.specs.Parts.{finish_part_link, whole_page, with_current, with_part};
    ghost use Rattle.text_block_renderer.specs.SeenParts.{PartsCome, PartsFail, current_has_failed, page_has_failed};
    ghost use Rattle.text_block_renderer.specs.SeenParts.{parts_of, with_current_renderer};
    ghost use Rattle.text_footnotes.specs.Links.{all_targets};

    /// A renderer of a page, of which no part has begun.
    pub fn new(alloc: Global, sub: SubRenderer<D>) -> TextRenderer<D>
        ensures parts { parts_of D.Annotation.seen D.view.held result ≡ whole_page (sub_of D.Annotation.seen
            D.view.held sub) }
        ensures works { page_has_failed result ≡ false }
        ensures current { current_has_failed result ≡ has_failed sub }
    {
        TextRenderer {
            below: Vec::new(alloc),
            current: sub,
            links: LinkTargets::new(alloc),
            failed: false,
        }
    }

    /// How many renderers stand, that of the whole page among them.
    pub fn depth(&self) -> usize
        ensures { result ≡ depth_of (parts_of D.Annotation.seen D.view.held self.now) }
    {
        self.below.len() + 1
    }

    /// The renderer to which text goes.
    pub fn current(&self) -> &SubRenderer<D>
        ensures sub { sub_of D.Annotation.seen D.view.held result.now ≡ (parts_of D.Annotation.seen D.view.held
            self.now).current }
        ensures failed { has_failed result.now ≡ current_has_failed self.now }
    {
        &self.current
    }

    /// The renderer to which text goes, to be called.
    pub fn current_mut(&mut self) -> &mut SubRenderer<D>
        ensures sub { sub_of D.Annotation.seen D.view.held result.now ≡ (parts_of D.Annotation.seen D.view.held
            self.old).current }
        ensures failed { has_failed result.now ≡ current_has_failed self.old }
        ensures* writes_back { sem 𝓛 (follows (the_row D.row D.Annotation.row) (sub_row D.row D.Annotation.row)
            self.entry.ghost_name result.ghost_name (with_current_renderer self.old)) }
    {
        &mut self.current
    }

    /// Text goes to another renderer from here on; the one to which it went is given.
    pub fn replace_current(&mut self, sub: SubRenderer<D>) -> SubRenderer<D>
        ensures outer { sub_of D.Annotation.seen D.view.held result ≡ (parts_of D.Annotation.seen D.view.held
            self.old).current }
        ensures new { parts_of D.Annotation.seen D.view.held self.new ≡ with_current (parts_of D.Annotation.seen
            D.view.held self.old) (sub_of D.Annotation.seen D.view.held sub) }
        ensures given { has_failed result ≡ current_has_failed self.old }
        ensures taken { current_has_failed self.new ≡ has_failed sub }
        ensures failed { page_has_failed self.new ≡ page_has_failed self.old }
    {
        mem::replace(self.current_mut(), sub)
    }

    /// A part begins, to whose renderer text goes from here on. The error is `Memory` at an allocation failure, or
    /// `Failed` after a refused call. Where it is refused, `sub` is dropped and the renderers stand as they did, but
    /// that later calls are refused as `Failed`.
    pub fn push(&mut self, sub: SubRenderer<D>) -> Result<(), BlockError>
        ensures failed { page_has_failed self.old ≡ true → result ≡ Err errors.Failed }
        ensures refused { is_err result ≡ page_has_failed self.new }
        ensures kinds { page_has_failed self.old ≡ false → IfErr result (λ e. e ≡ errors.Memory) }
        ensures pushed { OnOk result (parts_of D.Annotation.seen D.view.held self.new ≡ with_part
            (sub_of D.Annotation.seen D.view.held sub) (parts_of D.Annotation.seen D.view.held self.old)) }
        ensures taken { OnOk result (current_has_failed self.new ≡ has_failed sub) }
        ensures kept { OnErr result (parts_of D.Annotation.seen D.view.held self.new ≡ parts_of D.Annotation.seen
            D.view.held self.old) }
        ensures still { OnErr result (current_has_failed self.new ≡ current_has_failed self.old) }
    {
        if self.failed {
            return Err(BlockError::Failed);
        }
        let result = self.begin_part(sub);
        self.failed = result.is_err();
        result
    }

    fn begin_part(&mut self, sub: SubRenderer<D>) -> Result<(), BlockError>
        ensures kinds { IfErr result (λ e. e ≡ errors.Memory) }
        ensures pushed { OnOk result (parts_of D.Annotation.seen D.view.held self.new ≡ with_part
            (sub_of D.Annotation.seen D.view.held sub) (parts_of D.Annotation.seen D.view.held self.old)) }
        ensures taken { OnOk result (current_has_failed self.new ≡ has_failed sub) }
        ensures kept { OnErr result (parts_of D.Annotation.seen D.view.held self.new ≡ parts_of D.Annotation.seen
            D.view.held self.old) }
        ensures still { OnErr result (current_has_failed self.new ≡ current_has_failed self.old) }
    {
        self.below.reserve(1)?;
        let below = mem::replace(&mut self.current, sub);
        self.below.push(below)?;
        Ok(())
    }

    /// The part that began last ends: its renderer is given, and text goes to the one below. There must be one.
    pub fn pop(&mut self) -> SubRenderer<D>
        requires { 1 < depth_of (parts_of D.Annotation.seen D.view.held self.old) }
        ensures popped { parts_of D.Annotation.seen D.view.held self.old ≡ with_part (sub_of D.Annotation.seen
            D.view.held result) (parts_of D.Annotation.seen D.view.held self.new) }
        ensures below { (below : Parts D.Held D.Annotation.Seen) (part : Sub D.Held D.Annotation.Seen) → parts_of
            D.Annotation.seen D.view.held self.old ≡ with_part part below → (sub_of D.Annotation.seen D.view.held
            result ≡ part) × (parts_of D.Annotation.seen D.view.held self.new ≡ below) }
        ensures failed { page_has_failed self.new ≡ page_has_failed self.old }
    {
        self.end_part()
    }

    fn end_part(&mut self) -> SubRenderer<D>
        requires { 1 < depth_of (parts_of D.Annotation.seen D.view.held self.old) }
        ensures popped { parts_of D.Annotation.seen D.view.held self.old ≡ with_part (sub_of D.Annotation.seen
            D.view.held result) (parts_of D.Annotation.seen D.view.held self.new) }
        ensures failed { page_has_failed self.new ≡ page_has_failed self.old }
    {
        let below = self.below.pop().unwrap();
        mem::replace(&mut self.current, below)
    }

    /// The renderer of the whole page, and the targets of its links. No part may stand.
    pub fn into_inner(self) -> (SubRenderer<D>, LinkTargets)
        requires { depth_of (parts_of D.Annotation.seen D.view.held self) ≡ 1 }
        ensures sub { sub_of D.Annotation.seen D.view.held result.0 ≡ (parts_of D.Annotation.seen D.view.held
            self).current }
        ensures links { all_targets result.1 ≡ (parts_of D.Annotation.seen D.view.held self).targets }
        ensures failed { has_failed result.0 ≡ current_has_failed self }
    {
        let TextRenderer {
            below: _,
            current,
            links,
            failed: _,
        } = self;
        (current, links)
    }

    /// A link to the target begins. After a refusal the error is `Failed`, and so it is where the current renderer was
    /// refused a call; else it is `TooNarrow`, as the current renderer says, or `Memory`.
    pub fn start_link(&mut self, target: &str) -> Result<(), BlockError>
        ensures refused { is_err result ≡ page_has_failed self.new }
        ensures failed { page_has_failed self.old ≡ true → result ≡ Err errors.Failed }
        ensures kinds { page_has_failed self.old ≡ false → current_has_failed self.old ≡ false → IfErr result
            (λ e. (e ≡ errors.TooNarrow) ⊎ (e ≡ errors.Memory)) }
        ensures current { current_has_failed self.old ≡ true → result ≡ Err errors.Failed }
        ensures works { OnOk result (current_has_failed self.new ≡ false) }
        ensures done { OnOk result (PartsCome D.Annotation.seen D.view (λ m p. begin_part_link m (chars target.now) p)
            self.old self.new) }
        ensures narrow { result ≡ Err errors.TooNarrow → PartsFail D.Annotation.seen D.view
            (λ m p. begin_part_link m (chars target.now) p) self.old }
        ensures stands { (parts_of D.Annotation.seen D.view.held self.new).below
            ≡ (parts_of D.Annotation.seen D.view.held self.old).below }
    {
        if self.failed {
            return Err(BlockError::Failed);
        }
        let result = self.begin_link(target);
        self.failed = result.is_err();
        result
    }

    fn begin_link(&mut self, target: &str) -> Result<(), BlockError>
        ensures kinds { current_has_failed self.old ≡ false → IfErr result (λ e. (e ≡ errors.TooNarrow)
            ⊎ (e ≡ errors.Memory)) }
        ensures current { current_has_failed self.old ≡ true → result ≡ Err errors.Failed }
        ensures works { OnOk result (current_has_failed self.new ≡ false) }
        ensures done { OnOk result (PartsCome D.Annotation.seen D.view (λ m p. begin_part_link m (chars target.now) p)
            self.old self.new) }
        ensures narrow { result ≡ Err errors.TooNarrow → PartsFail D.Annotation.seen D.view
            (λ m p. begin_part_link m (chars target.now) p) self.old }
        ensures stands { (parts_of D.Annotation.seen D.view.held self.new).below
            ≡ (parts_of D.Annotation.seen D.view.held self.old).below }
    {
        self.current.start_link(target)?;
        self.links.push(target)?;
        Ok(())
    }

    /// A link ends; after it stands its footnote's number in brackets, where the targets of links stand after the
    /// page. Refused as `start_link`.
    pub fn end_link(&mut self) -> Result<(), BlockError>
        ensures refused { is_err result ≡ page_has_failed self.new }
        ensures failed { page_has_failed self.old ≡ true → result ≡ Err errors.Failed }
        ensures kinds { page_has_failed self.old ≡ false → current_has_failed self.old ≡ false → IfErr result
            (λ e. (e ≡ errors.TooNarrow) ⊎ (e ≡ errors.Memory)) }
        ensures current { current_has_failed self.old ≡ true → result ≡ Err errors.Failed }
        ensures works { OnOk result (current_has_failed self.new ≡ false) }
        ensures done { OnOk result (PartsCome D.Annotation.seen D.view finish_part_link self.old self.new) }
        ensures narrow { result ≡ Err errors.TooNarrow → PartsFail D.Annotation.seen D.view finish_part_link self.old }
        ensures stands { (parts_of D.Annotation.seen D.view.held self.new).below
            ≡ (parts_of D.Annotation.seen D.view.held self.old).below }
    {
        if self.failed {
            return Err(BlockError::Failed);
        }
        let result = self.finish_link();
        self.failed = result.is_err();
        result
    }

    fn finish_link(&mut self) -> Result<(), BlockError>
        ensures kinds { current_has_failed self.old ≡ false → IfErr result (λ e. (e ≡ errors.TooNarrow)
            ⊎ (e ≡ errors.Memory)) }
        ensures current { current_has_failed self.old ≡ true → result ≡ Err errors.Failed }
        ensures works { OnOk result (current_has_failed self.new ≡ false) }
        ensures done { OnOk result (PartsCome D.Annotation.seen D.view finish_part_link self.old self.new) }
        ensures narrow { result ≡ Err errors.TooNarrow → PartsFail D.Annotation.seen D.view finish_part_link self.old }
        ensures stands { (parts_of D.Annotation.seen D.view.held self.new).below
            ≡ (parts_of D.Annotation.seen D.view.held self.old).below }
    {
        self.current.end_link()?;
        self.add_number()
    }

    /// The number of the last link's footnote, where the targets of links stand after the page.
    fn add_number(&mut self) -> Result<(), BlockError>
        ensures kinds { current_has_failed self.old ≡ false → IfErr result (λ e. (e ≡ errors.TooNarrow)
            ⊎ (e ≡ errors.Memory)) }
        ensures works { current_has_failed self.old ≡ false → OnOk result (current_has_failed self.new ≡ false) }
        ensures done { OnOk result (PartsCome D.Annotation.seen D.view add_part_number self.old self.new) }
        ensures narrow { result ≡ Err errors.TooNarrow → PartsFail D.Annotation.seen D.view add_part_number self.old }
        ensures stands { (parts_of D.Annotation.seen D.view.held self.new).below
            ≡ (parts_of D.Annotation.seen D.view.held self.old).below }
    {
        if !self.current.options.include_link_footnotes {
            return Ok(());
        }
        let number = self
            .links
            .last_number(self.current.options.shared_footnotes)?;
        let mark = footnote_mark(*self.below.allocator(), number)?;
        self.current.add_inline_text(mark.as_str())
    }
}

fn footnote_mark(alloc: Global, number: usize) -> Result<String, AllocError>
    ensures { IfOk result (λ s. chars (string_bytes s) ≡ footnote_mark number) }
{
    format!(in alloc; "[{number}]")
}
