//! How pages are read and rendered.
ghost use Rattle.std.specs.Prelude.{◌≡◌, ◌≢◌, ◌⊎◌, ◌<◌, ◌≤◌, ◌++◌, Err, IfErr, IfOk, Some, chars, false, map, not};
ghost use Rattle.std.specs.Prelude.{string_bytes, true};

use crate::error::Error;
use block_trait::{ImageRenderMode, RenderOptions};
use dom_styles::StyleRule;
use html_lexemes::ReferenceTable;
use html_render_dom::RcDom;
use html_render_tree::{RenderConfig, RenderTree};
use html_tree_builder::ParseOpts;
use std::alloc::Global;
use text_decorators::TextDecorator;
use text_lines::TaggedLine;

/// How pages are read and rendered: the table of references, how a page is parsed, how it is rendered, and how many
/// bytes it may have.
#[derive(Drop)]
pub struct Config<D: TextDecorator> {
    pub(crate) rendering: RenderConfig<D>,
    pub(crate) table: ReferenceTable,
    pub(crate) parsing: ParseOpts,
    pub(crate) max_bytes: usize,
    /// Whether marks of emphasis, strong text, terms and code were asked for.
    pub(crate) decorates: bool,
}

impl<D: TextDecorator + Drop> Config<D> {
    ghost use Rattle.block_renderer.specs.Seen.{IsTagging, marking, tags_seen};
    ghost use Rattle.html_render_tree.specs.PageLaws.{AreWithin, IsTextWithin};
    ghost use Rattle.html_render_tree.specs.Settings.{IsDecorated};
    ghost use Rattle.html_render_tree.specs.PageLines.{page_lines, page_text};
    ghost use Rattle.page_config.specs.Settings.{by_default, max_bytes_of, page_setting, rendered_with};
    ghost use Rattle.page_config.specs.Settings.{scripted};
    ghost use Rattle.page_config.specs.declared.error.Error.TheVariants as errors;
    ghost use Rattle.render_conversion.specs.Conversion.{document_values};
    ghost use Rattle.render_conversion.specs.Options.{pages_of};
    ghost use Rattle.render_values.specs.Values.{none};
    ghost use Rattle.text_lines.specs.Tagged.{line_items};
    ghost use Rattle.text_decorators.specs.Marks.{IsSteady};
    ghost use Rattle.html_render_tree.specs.WalkLaws.{AreNumbered};

    /// As pages are rendered by a decorator: parsed by this table and as they are by default, without a bound on the
    /// bytes; no rules of style, and the options as they are by default.
    pub fn with_decorator(alloc: Global, decorator: D, table: ReferenceTable) -> Config<D>
        ensures setting { page_setting D.view result ≡ by_default table (D.view.sub (D.view.held decorator)) }
        ensures bytes { max_bytes_of result ≡ usize.MAX }
    {
        Config {
            rendering: RenderConfig::with_decorator(alloc, decorator),
            table,
            parsing: ParseOpts::default(),
            max_bytes: usize::MAX,
            decorates: false,
        }
    }

    /// At most so many bytes: a page of more is `TooLong`.
    pub fn max_bytes(self, max_bytes: usize) -> Config<D>
        ensures setting { page_setting D.view result ≡ page_setting D.view self }
        ensures bytes { max_bytes_of result ≡ max_bytes }
    {
        let mut config = self;
        config.max_bytes = max_bytes;
        config
    }

    /// Parts may pass the width where it is too narrow for what they hold.
    pub fn allow_width_overflow(self) -> Config<D>
        ensures setting { page_setting D.view result ≡ record (page_setting D.view self) {
          rendering = record (page_setting D.view self).rendering {
            options = record (page_setting D.view self).rendering.options { allow_width_overflow = true };
          };
        } }
        ensures bytes { max_bytes_of result ≡ max_bytes_of self }
    {
        Config {
            rendering: self.rendering.allow_width_overflow(),
            ..self
        }
    }

    /// Whether the targets of links stand after the page.
    pub fn link_footnotes(self, include: bool) -> Config<D>
        ensures setting { page_setting D.view result ≡ record (page_setting D.view self) {
          rendering = record (page_setting D.view self).rendering {
            options = record (page_setting D.view self).rendering.options { include_link_footnotes = include };
          };
        } }
        ensures bytes { max_bytes_of result ≡ max_bytes_of self }
    {
        Config {
            rendering: self.rendering.link_footnotes(include),
            ..self
        }
    }

    /// Whether links to equal targets, equal as texts, share one number and one footnote, where the targets of links
    /// stand after the page. They are numbered from 1 on in the order of their first links.
    pub fn shared_footnotes(self, shared: bool) -> Config<D>
        ensures setting { page_setting D.view result ≡ rendered_with (page_setting D.view self)
            (record (page_setting D.view self).rendering.options { shared_footnotes = shared }) }
        ensures bytes { max_bytes_of result ≡ max_bytes_of self }
    {
        Config {
            rendering: self.rendering.shared_footnotes(shared),
            ..self
        }
    }

    /// Whether unprintable characters of targets are percent-encoded after the page: a control of C0 or C1, a line or
    /// paragraph separator, and what sets the direction of text stand as the bytes of their UTF-8, each as `%` and two
    /// upper-case hexadecimal digits (URL Standard, 1.3). Links share a footnote by their own targets, and annotations
    /// keep these.
    pub fn printable_targets(self, printable: bool) -> Config<D>
        ensures setting { page_setting D.view result ≡ rendered_with (page_setting D.view self)
            (record (page_setting D.view self).rendering.options { printable_targets = printable }) }
        ensures bytes { max_bytes_of result ≡ max_bytes_of self }
    {
        Config {
            rendering: self.rendering.printable_targets(printable),
            ..self
        }
    }

    /// Every line of a block is filled with spaces to the block's width.
    pub fn pad_block_width(self) -> Config<D>
        ensures setting { page_setting D.view result ≡ rendered_with (page_setting D.view self)
            (record (page_setting D.view self).rendering.options { pad_block_width = true }) }
        ensures bytes { max_bytes_of result ≡ max_bytes_of self }
    {
        Config {
            rendering: self.rendering.pad_block_width(),
            ..self
        }
    }

    /// So wide, in columns, may text be wrapped, also where its block has more; at least one.
    pub fn max_wrap_width(self, columns: usize) -> Config<D>
        requires { 1 ≤ columns }
        ensures setting { page_setting D.view result ≡ rendered_with (page_setting D.view self)
            (record (page_setting D.view self).rendering.options { wrap_width = Some columns }) }
        ensures bytes { max_bytes_of result ≡ max_bytes_of self }
    {
        Config {
            rendering: self.rendering.max_wrap_width(columns),
            ..self
        }
    }

    /// Whether the cells of tables stand below one another. Borders of tables are not drawn from then on, whatever was
    /// asked for.
    pub fn raw_mode(self, raw: bool) -> Config<D>
        ensures setting { page_setting D.view result ≡ rendered_with (page_setting D.view self)
            (record (page_setting D.view self).rendering.options { raw = raw; draw_borders = false }) }
        ensures bytes { max_bytes_of result ≡ max_bytes_of self }
    {
        Config {
            rendering: self.rendering.raw_mode(raw),
            ..self
        }
    }

    /// Borders of tables are not drawn.
    pub fn no_table_borders(self) -> Config<D>
        ensures setting { page_setting D.view result ≡ rendered_with (page_setting D.view self)
            (record (page_setting D.view self).rendering.options { draw_borders = false }) }
        ensures bytes { max_bytes_of result ≡ max_bytes_of self }
    {
        Config {
            rendering: self.rendering.no_table_borders(),
            ..self
        }
    }

    /// Tables that stand in no other one stand between lines of three backticks.
    pub fn fence_tables(self) -> Config<D>
        ensures setting { page_setting D.view result ≡ rendered_with (page_setting D.view self)
            (record (page_setting D.view self).rendering.options { fence_tables = true }) }
        ensures bytes { max_bytes_of result ≡ max_bytes_of self }
    {
        Config {
            rendering: self.rendering.fence_tables(),
            ..self
        }
    }

    /// Whether the columns of tables are fitted to the words of their cells: where a table can have the columns
    /// without which a word of its cells must be cut, none of its columns has less, and where it can have the columns
    /// with which no line of its cells is wrapped, they have these.
    pub fn fit_columns(self, fit: bool) -> Config<D>
        ensures setting { page_setting D.view result ≡ rendered_with (page_setting D.view self)
            (record (page_setting D.view self).rendering.options { fit_columns = fit }) }
        ensures bytes { max_bytes_of result ≡ max_bytes_of self }
    {
        Config {
            rendering: self.rendering.fit_columns(fit),
            ..self
        }
    }

    /// The targets of links after the page are not cut at the width.
    pub fn no_link_wrapping(self) -> Config<D>
        ensures setting { page_setting D.view result ≡ rendered_with (page_setting D.view self)
            (record (page_setting D.view self).rendering.options { wrap_links = false }) }
        ensures bytes { max_bytes_of result ≡ max_bytes_of self }
    {
        Config {
            rendering: self.rendering.no_link_wrapping(),
            ..self
        }
    }

    /// Whether U+0336 strikes out each character of struck text.
    pub fn unicode_strikeout(self, use_unicode: bool) -> Config<D>
        ensures setting { page_setting D.view result ≡ rendered_with (page_setting D.view self)
            (record (page_setting D.view self).rendering.options { use_unicode_strikeout = use_unicode }) }
        ensures bytes { max_bytes_of result ≡ max_bytes_of self }
    {
        Config {
            rendering: self.rendering.unicode_strikeout(use_unicode),
            ..self
        }
    }

    /// How an image with an empty title is rendered.
    pub fn empty_img_mode(self, img_mode: ImageRenderMode) -> Config<D>
        ensures setting { page_setting D.view result ≡ rendered_with (page_setting D.view self)
            (record (page_setting D.view self).rendering.options { img_mode = img_mode }) }
        ensures bytes { max_bytes_of result ≡ max_bytes_of self }
    {
        Config {
            rendering: self.rendering.empty_img_mode(img_mode),
            ..self
        }
    }

    /// So narrow, in columns, may text be wrapped; at least one.
    pub fn min_wrap_width(self, columns: usize) -> Config<D>
        requires { 1 ≤ columns }
        ensures setting { page_setting D.view result ≡ record (page_setting D.view self) {
          rendering = record (page_setting D.view self).rendering { min_wrap = columns };
        } }
        ensures bytes { max_bytes_of result ≡ max_bytes_of self }
    {
        Config {
            rendering: self.rendering.min_wrap_width(columns),
            ..self
        }
    }

    /// `*` stands before and after emphasis and terms, `**` before and after strong text, and a backquote before and
    /// after code: ten rules of the program, before all that stand. Asked for again it changes nothing. The error is
    /// allocation failure.
    pub fn do_decorate(self, alloc: Global) -> Result<Config<D>, Error>
        ensures setting { IfOk result (λ c. page_setting D.view c ≡ record (page_setting D.view self) {
          rules = (page_setting D.view c).rules;
          decorates = true;
        }) }
        ensures rules { (page_setting D.view self).decorates ≡ false → IfOk result
            (λ c. IsDecorated (page_setting D.view self).rules (page_setting D.view c).rules) }
        ensures again { (page_setting D.view self).decorates ≡ true → IfOk result (λ c. page_setting D.view c
            ≡ page_setting D.view self) }
        ensures bytes { IfOk result (λ c. max_bytes_of c ≡ max_bytes_of self) }
        ensures memory { IfErr result (λ e. e ≡ errors.Memory) }
    {
        if self.decorates {
            return Ok(self);
        }
        let Config {
            rendering,
            table,
            parsing,
            max_bytes,
            ..
        } = self;
        Ok(Config {
            rendering: rendering.do_decorate(alloc)?,
            table,
            parsing,
            max_bytes,
            decorates: true,
        })
    }

    /// Whether elements that hide themselves are left out, with all that stands in them: by an attribute `hidden` whose
    /// value isn't `until-found`, or by a declaration `display: none` in their attribute `style`. The elements `html`
    /// and `body` never hide themselves. By default all are shown.
    pub fn skip_hidden(self, skip: bool) -> Config<D>
        ensures setting { page_setting D.view result ≡ record (page_setting D.view self) {
          conversion = record (page_setting D.view self).conversion { skip_hidden = skip };
        } }
        ensures bytes { max_bytes_of result ≡ max_bytes_of self }
    {
        Config {
            rendering: self.rendering.skip_hidden(skip),
            ..self
        }
    }

    /// Whether pages are shown completely: with the rows of complete pages before the others of the table of
    /// conversion, and parsed without scripting, so that what stands in `noscript` is read as elements. A rule for
    /// `hr`, captions and feet of tables, quotation marks for `q`, the texts of drawings, blocks that stand in lines of
    /// their own, and nothing for what browsers don't render. By default pages aren't, and are parsed with scripting;
    /// `parse_opts` after it says otherwise.
    pub fn complete(self, complete: bool) -> Config<D>
        ensures setting { page_setting D.view result ≡ record (page_setting D.view self) {
          conversion = record (page_setting D.view self).conversion { pages = pages_of complete };
          parsing = scripted (not complete) (page_setting D.view self).parsing;
        } }
        ensures bytes { max_bytes_of result ≡ max_bytes_of self }
    {
        let mut config = Config {
            rendering: self.rendering.complete(complete),
            ..self
        };
        config.parsing.tree_builder.scripting_enabled = !complete;
        config
    }

    /// Whether these marks were asked for.
    pub fn decorates(&self) -> bool
        ensures { result ≡ (page_setting D.view self.now).decorates }
    {
        self.decorates
    }

    /// What a page is rendered by, but for the least width of text, the rules of style and the decorator.
    pub fn options(&self) -> RenderOptions
        ensures { result ≡ (page_setting D.view self.now).rendering.options }
    {
        self.rendering.options()
    }

    /// So narrow, in columns, may text be wrapped.
    pub fn narrowest_wrap(&self) -> usize
        ensures { result ≡ (page_setting D.view self.now).rendering.min_wrap }
    {
        self.rendering.narrowest_wrap()
    }

    /// Further rules of style, after all that stand. The error is allocation failure.
    pub fn style_rules(self, rules: Vec<StyleRule>) -> Result<Config<D>, Error>
        ensures setting { IfOk result (λ c. page_setting D.view c ≡ record (page_setting D.view self) {
          rules = (page_setting D.view self).rules ++ rules.items;
        }) }
        ensures bytes { IfOk result (λ c. max_bytes_of c ≡ max_bytes_of self) }
        ensures memory { IfErr result (λ e. e ≡ errors.Memory) }
    {
        let Config {
            rendering,
            table,
            parsing,
            max_bytes,
            decorates,
        } = self;
        Ok(Config {
            rendering: rendering.style_rules(rules)?,
            table,
            parsing,
            max_bytes,
            decorates,
        })
    }

    /// Named references are those of this table.
    pub fn table(self, table: ReferenceTable) -> Config<D>
        ensures setting { page_setting D.view result
            ≡ record (page_setting D.view self) { table = table } }
        ensures bytes { max_bytes_of result ≡ max_bytes_of self }
    {
        Config { table, ..self }
    }

    /// Pages are parsed so.
    pub fn parse_opts(self, parsing: ParseOpts) -> Config<D>
        ensures setting { page_setting D.view result
            ≡ record (page_setting D.view self) { parsing = parsing } }
        ensures bytes { max_bytes_of result ≡ max_bytes_of self }
    {
        Config { parsing, ..self }
    }

    /// The render tree of a page. The error is `Fail` exactly where the page has none, else allocation failure.
    pub fn dom_to_render_tree(&self, alloc: Global, dom: &RcDom) -> Result<RenderTree, Error>
        ensures tree { IfOk result (λ tree. tree
            ≡ document_values (page_setting D.view self.now).conversion (page_setting D.view self.now).rules
            dom.now.forest) }
        ensures some { IfOk result (λ tree. tree ≢ none) }
        ensures numbered { IfOk result (λ tree. AreNumbered tree) }
        ensures fail { result ≡ Err errors.Fail → document_values (page_setting D.view self.now).conversion
            (page_setting D.view self.now).rules dom.now.forest ≡ none }
        ensures kinds { IfErr result (λ e. (e ≡ errors.Fail) ⊎ (e ≡ errors.Memory)) }
    {
        Ok(self.rendering.dom_to_render_tree(alloc, dom)?)
    }

    /// The lines of a render tree, wrapped to `width` columns. The tree is gone, also where it is refused: as
    /// `TooNarrow` where the width is 0, or too narrow for a part of the page or a character; else allocation fails.
    pub fn render_to_lines(
        &self,
        alloc: Global,
        tree: RenderTree,
        width: usize,
    ) -> Result<Vec<TaggedLine<Vec<D::Annotation>>>, Error>
        ensures lines { IfOk result (λ lines. (tag : _) → IsTagging D.Annotation.seen D.view tag → page_lines
            (marking D.view tag) D.Annotation.seen D.view.closes (page_setting D.view self.now).rendering width tree
            ≡ Some (map (line_items (tags_seen D.Annotation.seen)) lines.items)) }
        ensures wide { IfOk result (λ lines. 0 < width) }
        ensures narrow { result ≡ Err errors.TooNarrow → (width ≡ 0) ⊎ ((tag : _) → IsTagging D.Annotation.seen D.view
            tag → page_lines (marking D.view tag) D.Annotation.seen D.view.closes
            (page_setting D.view self.now).rendering width tree ≡ None) }
        ensures within { IfOk result (λ lines. (tag : _) → IsTagging D.Annotation.seen D.view tag → IsSteady
            D.view.text → AreNumbered tree → (page_setting D.view self.now).rendering.options.allow_width_overflow
            ≡ false → (page_setting D.view self.now).rendering.options.wrap_links ≡ true → 2 ≤ width → AreWithin width
            (map (line_items (tags_seen D.Annotation.seen)) lines.items)) }
        ensures roomy { (tag : _) → IsTagging D.Annotation.seen D.view tag
            → (page_setting D.view self.now).rendering.options.allow_width_overflow ≡ true → 0 < width → result ≢ Err
            errors.TooNarrow }
        ensures kinds { IfErr result (λ e. (e ≡ errors.TooNarrow) ⊎ (e ≡ errors.Memory)) }
    {
        Ok(self.rendering.render_to_lines(alloc, tree, width)?)
    }

    /// The text of a render tree: the characters of its lines, a line end after each. Refused as `render_to_lines`.
    pub fn render_to_string(
        &self,
        alloc: Global,
        tree: RenderTree,
        width: usize,
    ) -> Result<String, Error>
        ensures text { IfOk result (λ text. (tag : _) → IsTagging D.Annotation.seen D.view tag → page_text
            (marking D.view tag) D.Annotation.seen D.view.closes (page_setting D.view self.now).rendering width tree
            ≡ Some (chars (string_bytes text))) }
        ensures wide { IfOk result (λ text. 0 < width) }
        ensures narrow { result ≡ Err errors.TooNarrow → (width ≡ 0) ⊎ ((tag : _) → IsTagging D.Annotation.seen D.view
            tag → page_lines (marking D.view tag) D.Annotation.seen D.view.closes
            (page_setting D.view self.now).rendering width tree ≡ None) }
        ensures within { IfOk result (λ text. (tag : _) → IsTagging D.Annotation.seen D.view tag → IsSteady D.view.text
            → AreNumbered tree → (page_setting D.view self.now).rendering.options.allow_width_overflow ≡ false
            → (page_setting D.view self.now).rendering.options.wrap_links ≡ true → 2 ≤ width → IsTextWithin width
            (chars (string_bytes text))) }
        ensures roomy { (tag : _) → IsTagging D.Annotation.seen D.view tag
            → (page_setting D.view self.now).rendering.options.allow_width_overflow ≡ true → 0 < width → result ≢ Err
            errors.TooNarrow }
        ensures kinds { IfErr result (λ e. (e ≡ errors.TooNarrow) ⊎ (e ≡ errors.Memory)) }
    {
        Ok(self.rendering.render_to_string(alloc, tree, width)?)
    }
}
