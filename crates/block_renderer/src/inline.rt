//! Text of a renderer.
ghost use Rattle.std.specs.Prelude.{◌≡◌, ◌⊎◌, ◌++◌, ◌∷◌, [], Err, IfErr, IfOk, IsTrue, OnOk, chars, false, map};
ghost use Rattle.text_pieces.specs.declared.fault.BlockError.TheVariants as errors;
ghost use Rattle.block_layout.specs.Laid.{add_text};
ghost use Rattle.block_trait.specs.Renderers.{struck};

use crate::sub_renderer::SubRenderer;
use block_trait::struck;
use std::alloc::AllocError;
use text_decorators::TextDecorator;
use text_lines::EqualCopy;
use text_pieces::BlockError;

impl<D: TextDecorator + Drop> SubRenderer<D> {
    ghost use Rattle.block_trait.specs.Renderers.{on_laid, preformatted_added, tagged_added, text_added, add_inline};
    ghost use Rattle.block_renderer.specs.Seen.{sub_of, Comes, Fails, IsJoinedSub};

    /// Adds text, unless it is ignored after a block.
    #[inline(always)]
    pub(crate) fn add_inline(&mut self, text: &str) -> Result<(), BlockError>
        ensures kinds { IfErr result (λ e. (e ≡ errors.TooNarrow) ⊎ (e ≡ errors.Memory)) }
        ensures done { OnOk result (Comes D.Annotation.seen D.view (λ m s. add_inline m (chars text.now) s) self.old
            self.new) }
        ensures narrow { result ≡ Err errors.TooNarrow → Fails D.Annotation.seen D.view
            (λ m s. add_inline m (chars text.now) s) self.old }
        ensures joined { IsJoinedSub D.Annotation.seen self.old → IsJoinedSub D.Annotation.seen self.new }
    {
        if self.add_more(text)? {
            return Ok(());
        }
        self.add_other(text)
    }

    /// Adds text as `add_inline` does, where it goes on what runs as it is. Tells whether it did; else nothing has
    /// changed.
    #[inline(always)]
    fn add_more(&mut self, text: &str) -> Result<bool, AllocError>
        ensures more { IfOk result (λ more. IsTrue more → Comes D.Annotation.seen D.view
            (λ m s. add_inline m (chars text.now) s) self.old self.new) }
        ensures stays { IfOk result (λ more. more ≡ false → sub_of D.Annotation.seen D.view.held self.new ≡ sub_of
            D.Annotation.seen D.view.held self.old) }
        ensures joined { IsJoinedSub D.Annotation.seen self.old → IsJoinedSub D.Annotation.seen self.new }
    {
        if !self.is_plain() {
            return Ok(false);
        }
        let mode = self.mode();
        self.laid.add_more(mode, text, &self.annotations)
    }

    /// Whether text is neither struck nor under one annotation more.
    #[inline(always)]
    fn is_plain(&self) -> bool
        ensures { IsTrue result → (self.now.preformats ≡ 0)
            × ((self.now.options.use_unicode_strikeout ≡ false) ⊎ (self.now.strikeouts ≡ 0)) }
    {
        self.preformats == 0 && (!self.options.use_unicode_strikeout || self.strikeouts == 0)
    }

    /// Adds text that doesn't go on what runs as it is, unless it is ignored after a block.
    #[inline(always)]
    fn add_other(&mut self, text: &str) -> Result<(), BlockError>
        ensures kinds { IfErr result (λ e. (e ≡ errors.TooNarrow) ⊎ (e ≡ errors.Memory)) }
        ensures done { OnOk result (Comes D.Annotation.seen D.view (λ m s. add_inline m (chars text.now) s) self.old
            self.new) }
        ensures narrow { result ≡ Err errors.TooNarrow → Fails D.Annotation.seen D.view
            (λ m s. add_inline m (chars text.now) s) self.old }
        ensures joined { IsJoinedSub D.Annotation.seen self.old → IsJoinedSub D.Annotation.seen self.new }
    {
        if self.laid.is_ignored(self.mode(), text) {
            return Ok(());
        }
        let measure = self.measure();
        self.laid.start_awaited(measure, &self.annotations)?;
        self.add_struck(text)
    }

    /// Adds text, struck where strikeouts are drawn.
    #[inline(always)]
    fn add_struck(&mut self, text: &str) -> Result<(), BlockError>
        ensures kinds { IfErr result (λ e. (e ≡ errors.TooNarrow) ⊎ (e ≡ errors.Memory)) }
        ensures done { OnOk result (Comes D.Annotation.seen D.view
            (λ m s. on_laid s (text_added m (chars text.now) s s.laid)) self.old self.new) }
        ensures narrow { result ≡ Err errors.TooNarrow → Fails D.Annotation.seen D.view
            (λ m s. on_laid s (text_added m (chars text.now) s s.laid)) self.old }
        ensures joined { IsJoinedSub D.Annotation.seen self.old → IsJoinedSub D.Annotation.seen self.new }
    {
        if !self.options.use_unicode_strikeout || self.strikeouts == 0 {
            return self.add_tagged(text);
        }
        let struck = struck(self.alloc(), self.strikeouts, text)?;
        self.add_tagged(struck.as_str())
    }

    /// Adds text under the annotations that stand, in a preformatted part with one more.
    #[inline(always)]
    fn add_tagged(&mut self, text: &str) -> Result<(), BlockError>
        ensures kinds { IfErr result (λ e. (e ≡ errors.TooNarrow) ⊎ (e ≡ errors.Memory)) }
        ensures done { OnOk result (Comes D.Annotation.seen D.view
            (λ m s. on_laid s (tagged_added m (chars text.now) s s.laid)) self.old self.new) }
        ensures narrow { result ≡ Err errors.TooNarrow → Fails D.Annotation.seen D.view
            (λ m s. on_laid s (tagged_added m (chars text.now) s s.laid)) self.old }
        ensures joined { IsJoinedSub D.Annotation.seen self.old → IsJoinedSub D.Annotation.seen self.new }
    {
        if self.preformats > 0 {
            return self.add_preformatted(text);
        }
        let measure = self.measure();
        // At a mark that shows nothing, as those of rich text.
        if text.is_empty() {
            return Ok(self.laid.begin_text(measure, &self.annotations)?);
        }
        let mode = self.mode();
        let tags = &self.annotations;
        self.laid.add_text(measure, tags, mode, text, tags, tags)
    }

    fn add_preformatted(&mut self, text: &str) -> Result<(), BlockError>
        ensures kinds { IfErr result (λ e. (e ≡ errors.TooNarrow) ⊎ (e ≡ errors.Memory)) }
        ensures done { OnOk result (Comes D.Annotation.seen D.view
            (λ m s. on_laid s (preformatted_added m (chars text.now) s s.laid)) self.old self.new) }
        ensures narrow { result ≡ Err errors.TooNarrow → Fails D.Annotation.seen D.view
            (λ m s. on_laid s (preformatted_added m (chars text.now) s s.laid)) self.old }
        ensures joined { IsJoinedSub D.Annotation.seen self.old → IsJoinedSub D.Annotation.seen self.new }
    {
        let measure = self.measure();
        if text.is_empty() {
            return Ok(self.laid.begin_text(measure, &self.annotations)?);
        }
        if !self.keeps_annotations {
            let mode = self.mode();
            let tags = &self.annotations;
            return self.laid.add_text(measure, tags, mode, text, tags, tags);
        }
        let alloc = self.alloc();
        let first = self.decorator.decorate_preformat_first(alloc)?;
        let first = with_annotation(&self.annotations, first)?;
        let further = self.decorator.decorate_preformat_cont(alloc)?;
        let further = with_annotation(&self.annotations, further)?;
        let mode = self.mode();
        self.laid
            .add_text(measure, &self.annotations, mode, text, &first, &further)
    }
}

/// The annotations and one more.
fn with_annotation<A: EqualCopy + Drop>(
    annotations: &Vec<A>,
    annotation: A,
) -> Result<Vec<A>, AllocError>
    ensures { IfOk result (λ all. map A.seen all.items
        ≡ map A.seen annotations.now.items ++ A.seen annotation ∷ []) }
{
    let mut all = annotations.copy(*annotations.allocator())?;
    all.push(annotation)?;
    Ok(all)
}
