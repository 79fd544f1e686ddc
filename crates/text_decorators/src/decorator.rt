//! What marks text: the trait of decorators.
ghost use Rattle.std.specs.Prelude.{◌≡◌, map, chars, string_bytes, is_some, IfOk, IfSome, OnOk, OnErr};
ghost use Rattle.text_lines.specs.Tagged.{line_items};
ghost use Rattle.text_decorators.specs.Marks.{DecoratorView, IsSteady, Mark, background_end, background_start};
ghost use Rattle.text_decorators.specs.Marks.{code_end, code_start, colour_end, colour_start, emphasis_end};
ghost use Rattle.text_decorators.specs.Marks.{emphasis_start, header, image, link_end, link_start, ordered_item};
ghost use Rattle.text_decorators.specs.Marks.{page_end, preformat_first, preformat_further, quote, seen_lines};
ghost use Rattle.text_decorators.specs.Marks.{strikeout_end, strikeout_start, strong_end, strong_start};
ghost use Rattle.text_decorators.specs.Marks.{superscript_end, superscript_start, unordered_item};

use crate::colour::Colour;
use std::alloc::{AllocError, Global};
use text_lines::{EqualCopy, TaggedLine};

/// Marks text: the texts and annotations that stand round the parts of a page, and the lines after it. What a decorator
/// answers is a function of what it holds: contracts see both by `view`. All annotations that fit a mark are seen alike
/// (`one`), and so are the lines after a page. Every error is allocation failure, and leaves a decorator as it was.
pub trait TextDecorator {
    /// What is noted beside a text.
    type Annotation: EqualCopy + Default + Drop;

    ghost Held: { Type 0 };

    ghost view: { DecoratorView Self Held Self.Annotation };

    /// The text before a link to `url`, and its annotation.
    fn decorate_link_start(
        &mut self,
        alloc: Global,
        url: &str,
    ) -> Result<(String, Self::Annotation), AllocError>
        ensures text { IfOk result (λ r. chars (string_bytes r.0) ≡ view.text (view.held self.old)
            (link_start (chars url.now))) }
        ensures gives { IfOk result (λ r. view.gives (view.held self.old) (link_start (chars url.now)) r.1) }
        ensures after { OnOk result (view.held self.new
            ≡ view.after (view.held self.old) (link_start (chars url.now))) }
        ensures stays { OnErr result (view.held self.new ≡ view.held self.old) };

    /// The text after a link.
    fn decorate_link_end(&mut self, alloc: Global) -> Result<String, AllocError>
        ensures text { IfOk result (λ s. chars (string_bytes s) ≡ view.text (view.held self.old) link_end) }
        ensures after { OnOk result (view.held self.new ≡ view.after (view.held self.old) link_end) }
        ensures stays { OnErr result (view.held self.new ≡ view.held self.old) };

    /// The text before emphasis, and its annotation.
    fn decorate_em_start(&self, alloc: Global) -> Result<(String, Self::Annotation), AllocError>
        ensures text { IfOk result (λ r. chars (string_bytes r.0) ≡ view.text (view.held self.now) emphasis_start) }
        ensures gives { IfOk result (λ r. view.gives (view.held self.now) emphasis_start r.1) };

    /// The text after emphasis.
    fn decorate_em_end(&self, alloc: Global) -> Result<String, AllocError>
        ensures { IfOk result (λ s. chars (string_bytes s) ≡ view.text (view.held self.now) emphasis_end) };

    /// The text before strong text, and its annotation.
    fn decorate_strong_start(&self, alloc: Global) -> Result<(String, Self::Annotation), AllocError>
        ensures text { IfOk result (λ r. chars (string_bytes r.0) ≡ view.text (view.held self.now) strong_start) }
        ensures gives { IfOk result (λ r. view.gives (view.held self.now) strong_start r.1) };

    /// The text after strong text.
    fn decorate_strong_end(&self, alloc: Global) -> Result<String, AllocError>
        ensures { IfOk result (λ s. chars (string_bytes s) ≡ view.text (view.held self.now) strong_end) };

    /// The text before struck text, and its annotation.
    fn decorate_strikeout_start(
        &self,
        alloc: Global,
    ) -> Result<(String, Self::Annotation), AllocError>
        ensures text { IfOk result (λ r. chars (string_bytes r.0) ≡ view.text (view.held self.now) strikeout_start) }
        ensures gives { IfOk result (λ r. view.gives (view.held self.now) strikeout_start r.1) };

    /// The text after struck text.
    fn decorate_strikeout_end(&self, alloc: Global) -> Result<String, AllocError>
        ensures { IfOk result (λ s. chars (string_bytes s) ≡ view.text (view.held self.now) strikeout_end) };

    /// The text before code, and its annotation.
    fn decorate_code_start(&self, alloc: Global) -> Result<(String, Self::Annotation), AllocError>
        ensures text { IfOk result (λ r. chars (string_bytes r.0) ≡ view.text (view.held self.now) code_start) }
        ensures gives { IfOk result (λ r. view.gives (view.held self.now) code_start r.1) };

    /// The text after code.
    fn decorate_code_end(&self, alloc: Global) -> Result<String, AllocError>
        ensures { IfOk result (λ s. chars (string_bytes s) ≡ view.text (view.held self.now) code_end) };

    /// The text before a superscript, and its annotation.
    fn decorate_superscript_start(
        &self,
        alloc: Global,
    ) -> Result<(String, Self::Annotation), AllocError>
        ensures text { IfOk result (λ r. chars (string_bytes r.0) ≡ view.text (view.held self.now) superscript_start) }
        ensures gives { IfOk result (λ r. view.gives (view.held self.now) superscript_start r.1) };

    /// The text after a superscript.
    fn decorate_superscript_end(&self, alloc: Global) -> Result<String, AllocError>
        ensures { IfOk result (λ s. chars (string_bytes s) ≡ view.text (view.held self.now) superscript_end) };

    /// The annotation of a preformatted line, as far as it was not wrapped.
    fn decorate_preformat_first(&self, alloc: Global) -> Result<Self::Annotation, AllocError>
        ensures { IfOk result (view.gives (view.held self.now) preformat_first) };

    /// The annotation of a preformatted line from where it was wrapped.
    fn decorate_preformat_cont(&self, alloc: Global) -> Result<Self::Annotation, AllocError>
        ensures { IfOk result (view.gives (view.held self.now) preformat_further) };

    /// The text that stands for an image, and its annotation.
    fn decorate_image(
        &mut self,
        alloc: Global,
        src: &str,
        title: &str,
    ) -> Result<(String, Self::Annotation), AllocError>
        ensures text { IfOk result (λ r. chars (string_bytes r.0) ≡ view.text (view.held self.old)
            (image (chars src.now) (chars title.now))) }
        ensures gives { IfOk result (λ r. view.gives (view.held self.old) (image (chars src.now) (chars title.now))
            r.1) }
        ensures after { OnOk result (view.held self.new ≡ view.after (view.held self.old)
            (image (chars src.now) (chars title.now))) }
        ensures stays { OnErr result (view.held self.new ≡ view.held self.old) };

    /// The prefix of a heading's lines.
    fn header_prefix(&self, alloc: Global, level: usize) -> Result<String, AllocError>
        ensures { IfOk result (λ s. chars (string_bytes s) ≡ view.text (view.held self.now) (header level)) };

    /// The prefix of a quote's lines.
    fn quote_prefix(&self, alloc: Global) -> Result<String, AllocError>
        ensures { IfOk result (λ s. chars (string_bytes s) ≡ view.text (view.held self.now) quote) };

    /// The prefix of an item of a list without numbers.
    fn unordered_item_prefix(&self, alloc: Global) -> Result<String, AllocError>
        ensures { IfOk result (λ s. chars (string_bytes s) ≡ view.text (view.held self.now) unordered_item) };

    /// The prefix of the item of that number.
    fn ordered_item_prefix(&self, alloc: Global, i: i64) -> Result<String, AllocError>
        ensures { IfOk result (λ s. chars (string_bytes s) ≡ view.text (view.held self.now) (ordered_item i)) };

    /// A decorator for a part of the page.
    fn make_subblock_decorator(&self, alloc: Global) -> Result<Self, AllocError>
    where
        Self: Sized,
        ensures { IfOk result (λ d. view.held d ≡ view.sub (view.held self.now)) };

    /// The annotation of a text's colour, where one is noted.
    fn push_colour(
        &mut self,
        alloc: Global,
        colour: Colour,
    ) -> Result<Option<Self::Annotation>, AllocError>
        ensures gives { IfOk result (λ a. IfSome a (view.gives (view.held self.old) (colour_start colour))) }
        ensures marks { IfOk result (λ a. is_some a ≡ view.marks (view.held self.old) (colour_start colour)) }
        ensures after { OnOk result (view.held self.new ≡ view.after (view.held self.old) (colour_start colour)) }
        ensures stays { OnErr result (view.held self.new ≡ view.held self.old) };

    /// Whether an annotation of a text's colour ends with the colour.
    fn pop_colour(&mut self) -> bool
        ensures pops { result ≡ view.pops (view.held self.old) colour_end }
        ensures after { view.held self.new ≡ view.after (view.held self.old) colour_end };

    /// The annotation of a background's colour, where one is noted.
    fn push_bgcolour(
        &mut self,
        alloc: Global,
        colour: Colour,
    ) -> Result<Option<Self::Annotation>, AllocError>
        ensures gives { IfOk result (λ a. IfSome a (view.gives (view.held self.old) (background_start colour))) }
        ensures marks { IfOk result (λ a. is_some a ≡ view.marks (view.held self.old) (background_start colour)) }
        ensures after { OnOk result (view.held self.new ≡ view.after (view.held self.old) (background_start colour)) }
        ensures stays { OnErr result (view.held self.new ≡ view.held self.old) };

    /// Whether an annotation of a background's colour ends with the colour.
    fn pop_bgcolour(&mut self) -> bool
        ensures pops { result ≡ view.pops (view.held self.old) background_end }
        ensures after { view.held self.new ≡ view.after (view.held self.old) background_end };

    /// The lines after the page whose links have these targets.
    fn finalise(
        &mut self,
        alloc: Global,
        urls: Vec<String>,
    ) -> Result<Vec<TaggedLine<Self::Annotation>>, AllocError>
        ensures closes { IfOk result (λ lines. map (line_items Self.Annotation.seen) lines.items ≡ seen_lines
            Self.Annotation.seen
            (view.closes (view.held self.old) (map (λ url. chars (string_bytes url)) urls.items))) }
        ensures after { OnOk result (view.held self.new ≡ view.after (view.held self.old)
            (page_end (map (λ url. chars (string_bytes url)) urls.items))) }
        ensures stays { OnErr result (view.held self.new ≡ view.held self.old) };

    ghost one: { (h : Held) (m : Mark) (a b : Self.Annotation) → view.gives h m a → view.gives h m b
        → Self.Annotation.seen a ≡ Self.Annotation.seen b };
}

/// A decorator whose prefixes depend on level and number alone; of three numbers in order the middle one's is no wider
/// than the wider of the others'. So a list's room is that of its first or its last item.
pub trait SteadyPrefixes: TextDecorator {
    ghost steady: { IsSteady Self.view.text };
}
