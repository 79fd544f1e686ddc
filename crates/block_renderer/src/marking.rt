//! Marked text of a renderer.
ghost use Rattle.std.specs.Prelude.{◌≡◌, ◌⊎◌, None, Some, true, chars, is_err, Err, IfErr, OnOk};
ghost use Rattle.text_decorators.specs.Marks.{colour_start, background_start};
ghost use Rattle.std.specs.Option.{option_map};
ghost use Rattle.text_pieces.specs.declared.fault.BlockError.TheVariants as errors;

use crate::sub_renderer::SubRenderer;
use block_trait::{drop_last, shown_title};
use std::alloc::AllocError;
use text_decorators::{Colour, TextDecorator};
use text_pieces::BlockError;

impl<D: TextDecorator + Drop> SubRenderer<D> {
    ghost use Rattle.block_trait.specs.Renderers.{add_inline, pushed, popped, add_image, begin_colour, add_titled};
    ghost use Rattle.block_renderer.specs.Seen.{sub_of, has_failed, Comes, Fails, IsJoinedSub};

    /// The annotation stands, and then the text is added; a refusal is noted.
    pub(crate) fn begin(&mut self, text: &str, annotation: D::Annotation) -> Result<(), BlockError>
        ensures refused { is_err result ≡ has_failed self.new }
        ensures kinds { IfErr result (λ e. (e ≡ errors.TooNarrow) ⊎ (e ≡ errors.Memory)) }
        ensures done { OnOk result (Comes D.Annotation.seen D.view (λ m s. add_inline m (chars text.now)
            (pushed (D.Annotation.seen annotation) s)) self.old self.new) }
        ensures narrow { result ≡ Err errors.TooNarrow → Fails D.Annotation.seen D.view
            (λ m s. add_inline m (chars text.now) (pushed (D.Annotation.seen annotation) s)) self.old }
        ensures joined { IsJoinedSub D.Annotation.seen self.old → IsJoinedSub D.Annotation.seen self.new }
    {
        if let Err(error) = self.push_annotation(annotation) {
            return self.refuse(error);
        }
        let result = self.add_inline(text);
        self.failed = result.is_err();
        result
    }

    /// The text is added, and then the last annotation ends; a refusal is noted.
    pub(crate) fn finish(&mut self, text: &str) -> Result<(), BlockError>
        ensures refused { is_err result ≡ has_failed self.new }
        ensures kinds { IfErr result (λ e. (e ≡ errors.TooNarrow) ⊎ (e ≡ errors.Memory)) }
        ensures done { OnOk result (Comes D.Annotation.seen D.view
            (λ m s. option_map popped (add_inline m (chars text.now) s)) self.old self.new) }
        ensures narrow { result ≡ Err errors.TooNarrow → Fails D.Annotation.seen D.view
            (λ m s. option_map popped (add_inline m (chars text.now) s)) self.old }
        ensures joined { IsJoinedSub D.Annotation.seen self.old → IsJoinedSub D.Annotation.seen self.new }
    {
        let result = self.add_inline(text);
        self.failed = result.is_err();
        result?;
        self.pop_annotation();
        Ok(())
    }

    /// An allocation failed, which is noted.
    pub(crate) fn refuse(&mut self, error: AllocError) -> Result<(), BlockError>
        ensures memory { result ≡ Err errors.Memory }
        ensures failed { has_failed self.new ≡ true }
        ensures joined { IsJoinedSub D.Annotation.seen self.old → IsJoinedSub D.Annotation.seen self.new }
    {
        self.failed = true;
        Err(BlockError::from(error))
    }

    /// The annotation stands from here on, where annotations are kept.
    fn push_annotation(&mut self, annotation: D::Annotation) -> Result<(), AllocError>
        ensures pushed { OnOk result (sub_of D.Annotation.seen D.view.held self.new ≡ pushed
            (D.Annotation.seen annotation) (sub_of D.Annotation.seen D.view.held self.old)) }
        ensures joined { IsJoinedSub D.Annotation.seen self.old → IsJoinedSub D.Annotation.seen self.new }
    {
        if self.keeps_annotations {
            self.annotations.push(annotation)?;
        }
        Ok(())
    }

    pub(crate) fn pop_annotation(&mut self)
        ensures popped { sub_of D.Annotation.seen D.view.held self.new ≡ popped (sub_of D.Annotation.seen D.view.held
            self.old) }
        ensures failed { has_failed self.new ≡ has_failed self.old }
        ensures joined { IsJoinedSub D.Annotation.seen self.old → IsJoinedSub D.Annotation.seen self.new }
    {
        drop_last(&mut self.annotations);
    }

    /// Adds an image.
    pub(crate) fn put_image(&mut self, src: &str, title: &str) -> Result<(), BlockError>
        ensures kinds { IfErr result (λ e. (e ≡ errors.TooNarrow) ⊎ (e ≡ errors.Memory)) }
        ensures done { OnOk result (Comes D.Annotation.seen D.view (λ m s. add_image m (chars src.now)
            (chars title.now) s) self.old self.new) }
        ensures narrow { result ≡ Err errors.TooNarrow → Fails D.Annotation.seen D.view
            (λ m s. add_image m (chars src.now) (chars title.now) s) self.old }
        ensures joined { IsJoinedSub D.Annotation.seen self.old → IsJoinedSub D.Annotation.seen self.new }
    {
        match shown_title(self.options.img_mode, src, title) {
            Some(title) => self.put_titled(src, title),
            None => Ok(()),
        }
    }

    /// Adds an image with a title.
    fn put_titled(&mut self, src: &str, title: &str) -> Result<(), BlockError>
        ensures kinds { IfErr result (λ e. (e ≡ errors.TooNarrow) ⊎ (e ≡ errors.Memory)) }
        ensures done { OnOk result (Comes D.Annotation.seen D.view (λ m s. add_titled m (chars src.now)
            (Some (chars title.now)) s) self.old self.new) }
        ensures narrow { result ≡ Err errors.TooNarrow → Fails D.Annotation.seen D.view
            (λ m s. add_titled m (chars src.now) (Some (chars title.now)) s) self.old }
        ensures joined { IsJoinedSub D.Annotation.seen self.old → IsJoinedSub D.Annotation.seen self.new }
    {
        let alloc = self.alloc();
        let (text, annotation) = self.decorator.decorate_image(alloc, src, title)?;
        self.begin(text.as_str(), annotation)?;
        self.pop_annotation();
        Ok(())
    }

    /// Begins a text's colour.
    pub(crate) fn begin_colour(&mut self, colour: Colour) -> Result<(), BlockError>
        ensures kinds { IfErr result (λ e. (e ≡ errors.TooNarrow) ⊎ (e ≡ errors.Memory)) }
        ensures done { OnOk result (Comes D.Annotation.seen D.view
            (λ m s. Some (begin_colour m (colour_start colour) s)) self.old self.new) }
        ensures narrow { result ≡ Err errors.TooNarrow → Fails D.Annotation.seen D.view
            (λ m s. Some (begin_colour m (colour_start colour) s)) self.old }
        ensures joined { IsJoinedSub D.Annotation.seen self.old → IsJoinedSub D.Annotation.seen self.new }
    {
        let alloc = self.alloc();
        if let Some(annotation) = self.decorator.push_colour(alloc, colour)? {
            self.push_annotation(annotation)?;
        }
        Ok(())
    }

    /// Begins a background's colour.
    pub(crate) fn begin_bgcolour(&mut self, colour: Colour) -> Result<(), BlockError>
        ensures kinds { IfErr result (λ e. (e ≡ errors.TooNarrow) ⊎ (e ≡ errors.Memory)) }
        ensures done { OnOk result (Comes D.Annotation.seen D.view
            (λ m s. Some (begin_colour m (background_start colour) s)) self.old self.new) }
        ensures narrow { result ≡ Err errors.TooNarrow → Fails D.Annotation.seen D.view
            (λ m s. Some (begin_colour m (background_start colour) s)) self.old }
        ensures joined { IsJoinedSub D.Annotation.seen self.old → IsJoinedSub D.Annotation.seen self.new }
    {
        let alloc = self.alloc();
        if let Some(annotation) = self.decorator.push_bgcolour(alloc, colour)? {
            self.push_annotation(annotation)?;
        }
        Ok(())
    }
}
