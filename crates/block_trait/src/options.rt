//! How text is rendered.

/// How text is rendered.
#[derive(Clone, Copy)]
pub struct RenderOptions {
    /// The columns at which text wraps, where that is less than the width of its block.
    pub wrap_width: Option<usize>,
    /// Whether a block may pass the width, where it is too narrow for what it holds.
    pub allow_width_overflow: bool,
    /// Whether every line of a block is filled with spaces to its width.
    pub pad_block_width: bool,
    /// Whether the cells of tables stand below one another, without borders.
    pub raw: bool,
    /// Whether borders of tables are drawn.
    pub draw_borders: bool,
    /// Whether tables stand between fences of three backticks.
    pub fence_tables: bool,
    /// Whether the columns of a table are fitted to the words of its cells: as wide as these need, where they fit.
    pub fit_columns: bool,
    /// Whether the targets of links after the text are cut at the width.
    pub wrap_links: bool,
    /// Whether the targets of links stand after the text.
    pub include_link_footnotes: bool,
    /// Whether links to equal targets share one number and one footnote, where targets stand after the text.
    pub shared_footnotes: bool,
    /// Whether the unprintable characters of targets (a control, a line or paragraph separator, or one that sets the
    /// direction of text) are percent-encoded, where targets stand after the text.
    pub printable_targets: bool,
    /// Whether U+0336 strikes out each character of struck text.
    pub use_unicode_strikeout: bool,
    /// How an image with an empty title is rendered.
    pub img_mode: ImageRenderMode,
}

/// How an image with an empty title is rendered.
#[derive(Clone, Copy, Default)]
pub enum ImageRenderMode {
    /// It is left out.
    #[default]
    IgnoreEmpty,
    /// As it is.
    ShowAlways,
    /// As if this were its title.
    Replace(&'static str),
    /// As if what stands after the last `/` of its source were its title.
    Filename,
}

impl Default for RenderOptions {
    ghost use Rattle.std.specs.Prelude.{◌≡◌};
    ghost use Rattle.block_trait.specs.Defaults.{default_options};

    ghost is_default = { λ options. options ≡ default_options };

    /// Text wraps at the block's width, borders are drawn, and the targets of links would be cut at it.
    fn default() -> RenderOptions {
        RenderOptions {
            wrap_width: None,
            allow_width_overflow: false,
            pad_block_width: false,
            raw: false,
            draw_borders: true,
            fence_tables: false,
            fit_columns: false,
            wrap_links: true,
            include_link_footnotes: false,
            shared_footnotes: false,
            printable_targets: false,
            use_unicode_strikeout: true,
            img_mode: ImageRenderMode::IgnoreEmpty,
        }
    }
}
