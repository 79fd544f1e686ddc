//! How pages are rendered.
ghost use Rattle.std.specs.Prelude.{◌≡◌, ◌≢◌, ◌⊎◌, ◌<◌, ◌≤◌, ◌++◌, [], Err, IfErr, IfOk, None, Some, chars, false, map};
ghost use Rattle.std.specs.Prelude.{string_bytes, true};

use crate::closing::{closed_page, lines_of};
use crate::laws::{
    pages_are_numbered, pages_keep_the_width, pages_with_room_are_never_too_narrow,
    texts_keep_the_width,
};
use crate::rendering::{laid, refusal};
use crate::rules::joined;
use block_laws::annotations_change_no_text;
use block_renderer::SubRenderer;
use block_trait::{ImageRenderMode, RenderOptions};
use dom_styles::StyleRule;
use html_render_dom::RcDom;
use layout_laws::annotations_change_no_page;
use render_conversion::{ConversionOptions, Pages, RenderError, decorating_rules};
use render_values::RenderTree;
use std::alloc::Global;
use text_block_renderer::TextRenderer;
use text_decorators::TextDecorator;
use text_lines::TaggedLine;

/// How narrow text may be wrapped where nothing else was said, in columns.
const MIN_WRAP_WIDTH: usize = 3;

/// How a page is rendered. Text wraps at the width; a part that lacks columns is refused, and the targets of links
/// don't stand after the page.
#[derive(Drop)]
pub struct RenderConfig<D: TextDecorator> {
    decorator: D,
    options: RenderOptions,
    min_wrap_width: usize,
    /// Rules of style, in order.
    rules: Vec<StyleRule>,
    conversion: ConversionOptions,
}

impl<D: TextDecorator + Drop> RenderConfig<D> {
    ghost use Rattle.block_renderer.specs.Seen.{IsTagging, marking, sub_of, tags_seen};
    ghost use Rattle.render_conversion.specs.Conversion.{document_values};
    ghost use Rattle.render_conversion.specs.Options.{default_conversion, pages_of};
    ghost use Rattle.render_conversion.specs.declared.error.RenderError.TheVariants as errors;
    ghost use Rattle.render_values.specs.Values.{none};
    ghost use Rattle.block_trait.specs.Defaults.{default_options};
    ghost use Rattle.text_lines.specs.Tagged.{line_items};
    ghost use Rattle.text_decorators.specs.Marks.{IsSteady};
    ghost use Rattle.layout_laws.specs.WalkLaws.{AreNumbered};
    ghost use Rattle.html_render_tree.specs.PageLaws.{AreWithin, IsTextWithin};
    ghost use Rattle.html_render_tree.specs.PageLines.{closed_page, laid_as, lines_text, page_lines, page_text};
    ghost use Rattle.block_trait.specs.Bare.{bare_of};
    ghost use Rattle.std.specs.Option.{option_map};
    ghost use Rattle.text_block_renderer.specs.Parts.{depth_of};
    ghost use Rattle.text_block_renderer.specs.SeenParts.{parts_of};
    ghost use Rattle.html_render_tree.specs.Settings.{IsDecorated, conversion_of, rules_of, setting_of};
    ghost use Rattle.html_render_tree.specs.Settings.{with_options};

    /// As text is rendered by a decorator: no rules of style, and the options as they are by default.
    pub fn with_decorator(alloc: Global, decorator: D) -> RenderConfig<D>
        ensures setting { setting_of D.view result
            ≡ record { options = default_options; min_wrap = 3; held = D.view.sub (D.view.held decorator) } }
        ensures rules { rules_of result ≡ [] }
        ensures conversion { conversion_of result ≡ default_conversion }
    {
        RenderConfig {
            decorator,
            options: RenderOptions::default(),
            min_wrap_width: MIN_WRAP_WIDTH,
            rules: Vec::new(alloc),
            conversion: ConversionOptions::default(),
        }
    }

    /// Parts may pass the width where it is too narrow for what they hold.
    pub fn allow_width_overflow(self) -> RenderConfig<D>
        ensures setting { setting_of D.view result ≡ record (setting_of D.view self) {
          options = record (setting_of D.view self).options { allow_width_overflow = true };
        } }
        ensures rules { rules_of result ≡ rules_of self }
        ensures conversion { conversion_of result ≡ conversion_of self }
    {
        let mut config = self;
        config.options.allow_width_overflow = true;
        config
    }

    /// Whether the targets of links stand after the page.
    pub fn link_footnotes(self, include: bool) -> RenderConfig<D>
        ensures setting { setting_of D.view result ≡ record (setting_of D.view self) {
          options = record (setting_of D.view self).options { include_link_footnotes = include };
        } }
        ensures rules { rules_of result ≡ rules_of self }
        ensures conversion { conversion_of result ≡ conversion_of self }
    {
        let mut config = self;
        config.options.include_link_footnotes = include;
        config
    }

    /// Whether links to equal targets, equal as texts, share one number and one footnote, where the targets of links
    /// stand after the page. They are numbered from 1 on in the order of their first links.
    pub fn shared_footnotes(self, shared: bool) -> RenderConfig<D>
        ensures setting { setting_of D.view result ≡ with_options (setting_of D.view self)
            (record (setting_of D.view self).options { shared_footnotes = shared }) }
        ensures rules { rules_of result ≡ rules_of self }
        ensures conversion { conversion_of result ≡ conversion_of self }
    {
        let mut config = self;
        config.options.shared_footnotes = shared;
        config
    }

    /// Whether unprintable characters of targets are percent-encoded after the page: a control of C0 or C1, a line or
    /// paragraph separator, and what sets the direction of text stand as the bytes of their UTF-8, each as `%` and two
    /// upper-case hexadecimal digits (URL Standard, 1.3). Links share a footnote by their own targets, and annotations
    /// keep these.
    pub fn printable_targets(self, printable: bool) -> RenderConfig<D>
        ensures setting { setting_of D.view result ≡ with_options (setting_of D.view self)
            (record (setting_of D.view self).options { printable_targets = printable }) }
        ensures rules { rules_of result ≡ rules_of self }
        ensures conversion { conversion_of result ≡ conversion_of self }
    {
        let mut config = self;
        config.options.printable_targets = printable;
        config
    }

    /// Every line of a block is filled with spaces to the block's width.
    pub fn pad_block_width(self) -> RenderConfig<D>
        ensures setting { setting_of D.view result ≡ with_options (setting_of D.view self)
            (record (setting_of D.view self).options { pad_block_width = true }) }
        ensures rules { rules_of result ≡ rules_of self }
        ensures conversion { conversion_of result ≡ conversion_of self }
    {
        let mut config = self;
        config.options.pad_block_width = true;
        config
    }

    /// So wide, in columns, may text be wrapped, also where its block has more; at least one.
    pub fn max_wrap_width(self, columns: usize) -> RenderConfig<D>
        requires { 1 ≤ columns }
        ensures setting { setting_of D.view result ≡ with_options (setting_of D.view self)
            (record (setting_of D.view self).options { wrap_width = Some columns }) }
        ensures rules { rules_of result ≡ rules_of self }
        ensures conversion { conversion_of result ≡ conversion_of self }
    {
        let RenderConfig {
            decorator,
            options,
            min_wrap_width,
            rules,
            conversion,
        } = self;
        RenderConfig {
            decorator,
            options: RenderOptions {
                wrap_width: Some(columns),
                ..options
            },
            min_wrap_width,
            rules,
            conversion,
        }
    }

    /// Whether the cells of tables stand below one another. Borders of tables are not drawn from then on, whatever was
    /// asked for.
    pub fn raw_mode(self, raw: bool) -> RenderConfig<D>
        ensures setting { setting_of D.view result ≡ with_options (setting_of D.view self)
            (record (setting_of D.view self).options { raw = raw; draw_borders = false }) }
        ensures rules { rules_of result ≡ rules_of self }
        ensures conversion { conversion_of result ≡ conversion_of self }
    {
        let mut config = self;
        config.options.raw = raw;
        config.options.draw_borders = false;
        config
    }

    /// Borders of tables are not drawn.
    pub fn no_table_borders(self) -> RenderConfig<D>
        ensures setting { setting_of D.view result ≡ with_options (setting_of D.view self)
            (record (setting_of D.view self).options { draw_borders = false }) }
        ensures rules { rules_of result ≡ rules_of self }
        ensures conversion { conversion_of result ≡ conversion_of self }
    {
        let mut config = self;
        config.options.draw_borders = false;
        config
    }

    /// Tables that stand in no other one stand between lines of three backticks.
    pub fn fence_tables(self) -> RenderConfig<D>
        ensures setting { setting_of D.view result ≡ with_options (setting_of D.view self)
            (record (setting_of D.view self).options { fence_tables = true }) }
        ensures rules { rules_of result ≡ rules_of self }
        ensures conversion { conversion_of result ≡ conversion_of self }
    {
        let mut config = self;
        config.options.fence_tables = true;
        config
    }

    /// Whether the columns of tables are fitted to the words of their cells: where a table can have the columns
    /// without which a word of its cells must be cut, none of its columns has less, and where it can have the columns
    /// with which no line of its cells is wrapped, they have these.
    pub fn fit_columns(self, fit: bool) -> RenderConfig<D>
        ensures setting { setting_of D.view result ≡ with_options (setting_of D.view self)
            (record (setting_of D.view self).options { fit_columns = fit }) }
        ensures rules { rules_of result ≡ rules_of self }
        ensures conversion { conversion_of result ≡ conversion_of self }
    {
        let mut config = self;
        config.options.fit_columns = fit;
        config
    }

    /// The targets of links after the page are not cut at the width.
    pub fn no_link_wrapping(self) -> RenderConfig<D>
        ensures setting { setting_of D.view result ≡ with_options (setting_of D.view self)
            (record (setting_of D.view self).options { wrap_links = false }) }
        ensures rules { rules_of result ≡ rules_of self }
        ensures conversion { conversion_of result ≡ conversion_of self }
    {
        let mut config = self;
        config.options.wrap_links = false;
        config
    }

    /// Whether U+0336 strikes out each character of struck text.
    pub fn unicode_strikeout(self, use_unicode: bool) -> RenderConfig<D>
        ensures setting { setting_of D.view result ≡ with_options (setting_of D.view self)
            (record (setting_of D.view self).options { use_unicode_strikeout = use_unicode }) }
        ensures rules { rules_of result ≡ rules_of self }
        ensures conversion { conversion_of result ≡ conversion_of self }
    {
        let mut config = self;
        config.options.use_unicode_strikeout = use_unicode;
        config
    }

    /// How an image with an empty title is rendered.
    pub fn empty_img_mode(self, img_mode: ImageRenderMode) -> RenderConfig<D>
        ensures setting { setting_of D.view result ≡ with_options (setting_of D.view self)
            (record (setting_of D.view self).options { img_mode = img_mode }) }
        ensures rules { rules_of result ≡ rules_of self }
        ensures conversion { conversion_of result ≡ conversion_of self }
    {
        let RenderConfig {
            decorator,
            options,
            min_wrap_width,
            rules,
            conversion,
        } = self;
        RenderConfig {
            decorator,
            options: RenderOptions {
                img_mode,
                ..options
            },
            min_wrap_width,
            rules,
            conversion,
        }
    }

    /// So narrow, in columns, may text be wrapped; at least one.
    pub fn min_wrap_width(self, columns: usize) -> RenderConfig<D>
        requires { 1 ≤ columns }
        ensures setting { setting_of D.view result
            ≡ record (setting_of D.view self) { min_wrap = columns } }
        ensures rules { rules_of result ≡ rules_of self }
        ensures conversion { conversion_of result ≡ conversion_of self }
    {
        let mut config = self;
        config.min_wrap_width = columns;
        config
    }

    /// Whether elements that hide themselves are left out, with all that stands in them: by an attribute `hidden` whose
    /// value isn't `until-found`, or by a declaration `display: none` in their attribute `style`. The elements `html`
    /// and `body` never hide themselves. By default all are shown.
    pub fn skip_hidden(self, skip: bool) -> RenderConfig<D>
        ensures setting { setting_of D.view result ≡ setting_of D.view self }
        ensures rules { rules_of result ≡ rules_of self }
        ensures conversion { conversion_of result ≡ record (conversion_of self) { skip_hidden = skip } }
    {
        let mut config = self;
        config.conversion.skip_hidden = skip;
        config
    }

    /// Whether the rows of complete pages stand before the others of the table of conversion: a rule for `hr`, captions
    /// and feet of tables, quotation marks for `q`, the texts of drawings, blocks that stand in lines of their own, and
    /// nothing for what browsers don't render. By default they don't.
    pub fn complete(self, complete: bool) -> RenderConfig<D>
        ensures setting { setting_of D.view result ≡ setting_of D.view self }
        ensures rules { rules_of result ≡ rules_of self }
        ensures conversion { conversion_of result ≡ record (conversion_of self) { pages = pages_of complete } }
    {
        let RenderConfig {
            decorator,
            options,
            min_wrap_width,
            rules,
            conversion,
        } = self;
        RenderConfig {
            decorator,
            options,
            min_wrap_width,
            rules,
            conversion: ConversionOptions {
                pages: Pages::of(complete),
                ..conversion
            },
        }
    }

    /// What a page is rendered by, but for the least width of text, the rules of style and the decorator.
    pub fn options(&self) -> RenderOptions
        ensures { result ≡ (setting_of D.view self.now).options }
    {
        self.options
    }

    /// So narrow, in columns, may text be wrapped.
    pub fn narrowest_wrap(&self) -> usize
        ensures { result ≡ (setting_of D.view self.now).min_wrap }
    {
        self.min_wrap_width
    }

    /// `*` stands before and after emphasis and terms, `**` before and after strong text, and a backquote before and
    /// after code: ten rules of the program, before all that stand. The error is allocation failure.
    pub fn do_decorate(self, alloc: Global) -> Result<RenderConfig<D>, RenderError>
        ensures setting { IfOk result (λ c. setting_of D.view c ≡ setting_of D.view self) }
        ensures rules { IfOk result (λ c. IsDecorated (rules_of self) (rules_of c)) }
        ensures conversion { IfOk result (λ c. conversion_of c ≡ conversion_of self) }
        ensures memory { IfErr result (λ e. e ≡ errors.Memory) }
    {
        let RenderConfig {
            decorator,
            options,
            min_wrap_width,
            rules,
            conversion,
        } = self;
        Ok(RenderConfig {
            decorator,
            options,
            min_wrap_width,
            rules: joined(decorating_rules(alloc)?, rules)?,
            conversion,
        })
    }

    /// Further rules of style, after all that stand. The error is allocation failure.
    pub fn style_rules(self, rules: Vec<StyleRule>) -> Result<RenderConfig<D>, RenderError>
        ensures setting { IfOk result (λ c. setting_of D.view c ≡ setting_of D.view self) }
        ensures rules { IfOk result (λ c. rules_of c ≡ rules_of self ++ rules.items) }
        ensures conversion { IfOk result (λ c. conversion_of c ≡ conversion_of self) }
        ensures memory { IfErr result (λ e. e ≡ errors.Memory) }
    {
        let RenderConfig {
            decorator,
            options,
            min_wrap_width,
            rules: standing,
            conversion,
        } = self;
        Ok(RenderConfig {
            decorator,
            options,
            min_wrap_width,
            rules: joined(standing, rules)?,
            conversion,
        })
    }

    /// The render tree of a page. The error is `Fail` exactly where the page has none, else allocation failure.
    pub fn dom_to_render_tree(&self, alloc: Global, dom: &RcDom) -> Result<RenderTree, RenderError>
        ensures tree { IfOk result (λ tree. tree ≡ document_values (conversion_of self.now) (rules_of self.now)
            dom.now.forest) }
        ensures some { IfOk result (λ tree. tree ≢ none) }
        ensures numbered { IfOk result (λ tree. AreNumbered tree) }
        ensures fail { result ≡ Err errors.Fail → document_values (conversion_of self.now) (rules_of self.now)
            dom.now.forest ≡ none }
        ensures kinds { result ≢ Err errors.TooNarrow }
    {
        pages_are_numbered();
        render_conversion::dom_to_render_tree(alloc, dom, self.conversion, self.rules.as_slice())
    }

    // the renderers of the page after its last value, which keep annotations or don't
    fn laid(
        &self,
        alloc: Global,
        tree: &RenderTree,
        width: usize,
        keeps: bool,
    ) -> Result<TextRenderer<D>, RenderError>
        ensures laid { IfOk result (λ text. (tag : _) → IsTagging D.Annotation.seen D.view tag → laid_as keeps
            (marking D.view tag) (setting_of D.view self.now) width tree.now ≡ Some (parts_of D.Annotation.seen
            D.view.held text)) }
        ensures whole { IfOk result (λ text. depth_of (parts_of D.Annotation.seen D.view.held text) ≡ 1) }
        ensures wide { IfOk result (λ text. 0 < width) }
        ensures narrow { result ≡ Err errors.TooNarrow → (width ≡ 0) ⊎ ((tag : _) → IsTagging D.Annotation.seen D.view
            tag → laid_as keeps (marking D.view tag) (setting_of D.view self.now) width tree.now ≡ None) }
        ensures kinds { result ≢ Err errors.Fail }
    {
        if width == 0 {
            return Err(RenderError::TooNarrow);
        }
        let decorator = self.decorator.make_subblock_decorator(alloc)?;
        laid(
            alloc,
            decorator,
            self.options,
            self.min_wrap_width,
            tree,
            width,
            keeps,
        )
    }

    // the renderer of the page, laid out and closed
    fn closed(
        &self,
        alloc: Global,
        tree: &RenderTree,
        width: usize,
    ) -> Result<SubRenderer<D>, RenderError>
        ensures closed { IfOk result (λ s. (tag : _) → IsTagging D.Annotation.seen D.view tag → closed_page
            (marking D.view tag) D.Annotation.seen D.view.closes (setting_of D.view self.now) width tree.now
            ≡ Some (sub_of D.Annotation.seen D.view.held s)) }
        ensures wide { IfOk result (λ s. 0 < width) }
        ensures narrow { result ≡ Err errors.TooNarrow → (width ≡ 0) ⊎ ((tag : _) → IsTagging D.Annotation.seen D.view
            tag → closed_page (marking D.view tag) D.Annotation.seen D.view.closes (setting_of D.view self.now) width
            tree.now ≡ None) }
        ensures kinds { result ≢ Err errors.Fail }
    {
        let text = self.laid(alloc, tree, width, true)?;
        match closed_page(alloc, text) {
            Ok(sub) => Ok(sub),
            Err(error) => Err(refusal(error)),
        }
    }

    // the same, but for annotations
    fn closed_bare(
        &self,
        alloc: Global,
        tree: &RenderTree,
        width: usize,
    ) -> Result<SubRenderer<D>, RenderError>
        ensures closed { IfOk result (λ s. (tag : _) → IsTagging D.Annotation.seen D.view tag → option_map bare_of
            (closed_page (marking D.view tag) D.Annotation.seen D.view.closes (setting_of D.view self.now) width
            tree.now) ≡ Some (bare_of (sub_of D.Annotation.seen D.view.held s))) }
        ensures wide { IfOk result (λ s. 0 < width) }
        ensures narrow { result ≡ Err errors.TooNarrow → (width ≡ 0) ⊎ ((tag : _) → IsTagging D.Annotation.seen D.view
            tag → closed_page (marking D.view tag) D.Annotation.seen D.view.closes (setting_of D.view self.now) width
            tree.now ≡ None) }
        ensures kinds { result ≢ Err errors.Fail }
    {
        annotations_change_no_text::<D>();
        annotations_change_no_page::<D>();
        let text = self.laid(alloc, tree, width, false)?;
        match closed_page(alloc, text) {
            Ok(sub) => Ok(sub),
            Err(error) => Err(refusal(error)),
        }
    }

    /// The lines of a render tree, wrapped to `width` columns. The tree is gone, also where it is refused: as
    /// `TooNarrow` where the width is 0, or too narrow for a part of the page or a character; else allocation fails.
    pub fn render_to_lines(
        &self,
        alloc: Global,
        tree: RenderTree,
        width: usize,
    ) -> Result<Vec<TaggedLine<Vec<D::Annotation>>>, RenderError>
        ensures lines { IfOk result (λ lines. (tag : _) → IsTagging D.Annotation.seen D.view tag → page_lines
            (marking D.view tag) D.Annotation.seen D.view.closes (setting_of D.view self.now) width tree
            ≡ Some (map (line_items (tags_seen D.Annotation.seen)) lines.items)) }
        ensures wide { IfOk result (λ lines. 0 < width) }
        ensures narrow { result ≡ Err errors.TooNarrow → (width ≡ 0) ⊎ ((tag : _) → IsTagging D.Annotation.seen D.view
            tag → page_lines (marking D.view tag) D.Annotation.seen D.view.closes (setting_of D.view self.now) width
            tree ≡ None) }
        ensures kinds { result ≢ Err errors.Fail }
        ensures within { IfOk result (λ lines. (tag : _) → IsTagging D.Annotation.seen D.view tag → IsSteady
            D.view.text → AreNumbered tree → (setting_of D.view self.now).options.allow_width_overflow ≡ false
            → (setting_of D.view self.now).options.wrap_links ≡ true → 2 ≤ width → AreWithin width
            (map (line_items (tags_seen D.Annotation.seen)) lines.items)) }
        ensures roomy { (tag : _) → IsTagging D.Annotation.seen D.view tag
            → (setting_of D.view self.now).options.allow_width_overflow ≡ true → 0 < width → result ≢ Err
            errors.TooNarrow }
    {
        pages_keep_the_width::<D>();
        pages_with_room_are_never_too_narrow::<D>();
        let sub = self.closed(alloc, &tree, width)?;
        match lines_of(alloc, sub) {
            Ok(lines) => Ok(lines),
            Err(error) => Err(refusal(error)),
        }
    }

    /// Lines with the text of a render tree's lines, without annotations but for those of lines after the page. Refused
    /// as `render_to_lines`.
    pub fn render_to_text_lines(
        &self,
        alloc: Global,
        tree: RenderTree,
        width: usize,
    ) -> Result<Vec<TaggedLine<Vec<D::Annotation>>>, RenderError>
        ensures text { IfOk result (λ lines. (tag : _) → IsTagging D.Annotation.seen D.view tag → page_text
            (marking D.view tag) D.Annotation.seen D.view.closes (setting_of D.view self.now) width tree
            ≡ Some (lines_text (map (line_items (tags_seen D.Annotation.seen)) lines.items))) }
        ensures wide { IfOk result (λ lines. 0 < width) }
        ensures narrow { result ≡ Err errors.TooNarrow → (width ≡ 0) ⊎ ((tag : _) → IsTagging D.Annotation.seen D.view
            tag → page_lines (marking D.view tag) D.Annotation.seen D.view.closes (setting_of D.view self.now) width
            tree ≡ None) }
        ensures kinds { result ≢ Err errors.Fail }
        ensures within { IfOk result (λ lines. (tag : _) → IsTagging D.Annotation.seen D.view tag → IsSteady
            D.view.text → AreNumbered tree → (setting_of D.view self.now).options.allow_width_overflow ≡ false
            → (setting_of D.view self.now).options.wrap_links ≡ true → 2 ≤ width → IsTextWithin width
            (lines_text (map (line_items (tags_seen D.Annotation.seen)) lines.items))) }
        ensures roomy { (tag : _) → IsTagging D.Annotation.seen D.view tag
            → (setting_of D.view self.now).options.allow_width_overflow ≡ true → 0 < width → result ≢ Err
            errors.TooNarrow }
    {
        annotations_change_no_text::<D>();
        texts_keep_the_width::<D>();
        pages_with_room_are_never_too_narrow::<D>();
        let sub = self.closed_bare(alloc, &tree, width)?;
        match lines_of(alloc, sub) {
            Ok(lines) => Ok(lines),
            Err(error) => Err(refusal(error)),
        }
    }

    /// The text of a render tree: the characters of its lines, a line end after each. Refused as `render_to_lines`.
    pub fn render_to_string(
        &self,
        alloc: Global,
        tree: RenderTree,
        width: usize,
    ) -> Result<String, RenderError>
        ensures text { IfOk result (λ text. (tag : _) → IsTagging D.Annotation.seen D.view tag → page_text
            (marking D.view tag) D.Annotation.seen D.view.closes (setting_of D.view self.now) width tree
            ≡ Some (chars (string_bytes text))) }
        ensures wide { IfOk result (λ text. 0 < width) }
        ensures narrow { result ≡ Err errors.TooNarrow → (width ≡ 0) ⊎ ((tag : _) → IsTagging D.Annotation.seen D.view
            tag → page_lines (marking D.view tag) D.Annotation.seen D.view.closes (setting_of D.view self.now) width
            tree ≡ None) }
        ensures kinds { result ≢ Err errors.Fail }
        ensures within { IfOk result (λ text. (tag : _) → IsTagging D.Annotation.seen D.view tag → IsSteady D.view.text
            → AreNumbered tree → (setting_of D.view self.now).options.allow_width_overflow ≡ false
            → (setting_of D.view self.now).options.wrap_links ≡ true → 2 ≤ width → IsTextWithin width
            (chars (string_bytes text))) }
        ensures roomy { (tag : _) → IsTagging D.Annotation.seen D.view tag
            → (setting_of D.view self.now).options.allow_width_overflow ≡ true → 0 < width → result ≢ Err
            errors.TooNarrow }
    {
        annotations_change_no_text::<D>();
        texts_keep_the_width::<D>();
        pages_with_room_are_never_too_narrow::<D>();
        let sub = self.closed_bare(alloc, &tree, width)?;
        match sub.into_string() {
            Ok(text) => Ok(text),
            Err(error) => Err(refusal(error)),
        }
    }
}
