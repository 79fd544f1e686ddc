//! Options of a configuration.
use anyhow::{Result, bail};
use block_trait::ImageRenderMode;
use html_render_tree::RenderConfig;
use html_tree_builder::ParseOpts;
use std::alloc::Global;
use std::num::NonZeroUsize;
use text_decorators::TextDecorator;

/// What a configuration has beside its decorator.
#[derive(Clone, Copy)]
pub(crate) enum PageOption {
    /// So wide, in columns, may text be wrapped.
    MaxWrapWidth(NonZeroUsize),
    /// So narrow, in columns, may text be wrapped.
    MinWrapWidth(NonZeroUsize),
    /// Lines are filled with spaces.
    PadBlockWidth,
    /// Tables stand between fences.
    FenceTables,
    /// Whether the columns of tables are fitted.
    FitColumns(bool),
    /// The targets of links are not cut at the width.
    NoLinkWrapping,
    /// Struck text is marked without U+0336.
    NoUnicodeStrikeout,
    /// Parts may pass the width.
    AllowWidthOverflow,
    /// Whether the cells of tables stand below one another.
    RawMode(bool),
    /// Tables have no borders.
    NoTableBorders,
    /// How an image with an empty title is rendered.
    EmptyImgMode(EmptyImage),
    /// Whether the targets of links stand after the page.
    LinkFootnotes(bool),
    /// Whether links to equal targets share a footnote.
    SharedFootnotes(bool),
    /// Whether unprintable characters of targets are percent-encoded after the page.
    PrintableTargets(bool),
    /// Whether elements that hide themselves are left out.
    SkipHidden(bool),
    /// Whether pages are shown completely.
    Complete(bool),
}

impl PageOption {
    /// The configuration with this option.
    pub(crate) fn applied<D: TextDecorator + Drop>(
        self,
        config: RenderConfig<D>,
    ) -> RenderConfig<D> {
        match self {
            PageOption::MaxWrapWidth(columns) => config.max_wrap_width(columns.get()),
            PageOption::MinWrapWidth(columns) => config.min_wrap_width(columns.get()),
            PageOption::PadBlockWidth => config.pad_block_width(),
            PageOption::FenceTables => config.fence_tables(),
            PageOption::FitColumns(fit) => config.fit_columns(fit),
            PageOption::NoLinkWrapping => config.no_link_wrapping(),
            PageOption::NoUnicodeStrikeout => config.unicode_strikeout(false),
            PageOption::AllowWidthOverflow => config.allow_width_overflow(),
            PageOption::RawMode(raw) => config.raw_mode(raw),
            PageOption::NoTableBorders => config.no_table_borders(),
            PageOption::EmptyImgMode(image) => config.empty_img_mode(image.render_mode()),
            PageOption::LinkFootnotes(include) => config.link_footnotes(include),
            PageOption::SharedFootnotes(shared) => config.shared_footnotes(shared),
            PageOption::PrintableTargets(printable) => config.printable_targets(printable),
            PageOption::SkipHidden(skip) => config.skip_hidden(skip),
            PageOption::Complete(complete) => config.complete(complete),
        }
    }
}

/// How a page is parsed by these options: without scripting where pages are shown completely.
pub(crate) fn parsing_by(options: &[PageOption]) -> ParseOpts {
    let mut parsing = ParseOpts::default();
    for option in options {
        if let PageOption::Complete(complete) = option {
            parsing.tree_builder.scripting_enabled = !*complete;
        }
    }
    parsing
}

/// How an image with an empty title is rendered.
#[derive(Clone, Copy)]
pub(crate) enum EmptyImage {
    /// As it is.
    Shown,
    /// By the end of its source.
    Named,
    /// By the one text that rows name.
    Replaced,
}

impl EmptyImage {
    fn render_mode(self) -> ImageRenderMode {
        match self {
            EmptyImage::Shown => ImageRenderMode::ShowAlways,
            EmptyImage::Named => ImageRenderMode::Filename,
            EmptyImage::Replaced => ImageRenderMode::Replace("R S"),
        }
    }
}

/// The options of a field, with a space between them. `empty_img_mode=Replace,R S` is two words, of which the second
/// names none.
pub(crate) fn options_of(alloc: Global, field: &str) -> Result<Vec<PageOption>> {
    let mut options = Vec::new(alloc);
    for word in field.split(' ') {
        if word.is_empty() || word == "S" {
            continue;
        }
        options.push(option_of(word)?)?;
    }
    Ok(options)
}

fn option_of(word: &str) -> Result<PageOption> {
    match word.split_once('=') {
        Some((name, value)) => option_with(name, value),
        None => bare_option(word),
    }
}

fn bare_option(name: &str) -> Result<PageOption> {
    match name {
        "pad_block_width" => Ok(PageOption::PadBlockWidth),
        "fence_tables" => Ok(PageOption::FenceTables),
        "no_link_wrapping" => Ok(PageOption::NoLinkWrapping),
        "no_unicode_strikeout" => Ok(PageOption::NoUnicodeStrikeout),
        "allow_width_overflow" => Ok(PageOption::AllowWidthOverflow),
        "no_table_borders" => Ok(PageOption::NoTableBorders),
        _ => bail!("no option has the name {name}"),
    }
}

fn option_with(name: &str, value: &str) -> Result<PageOption> {
    match (name, value) {
        ("max_wrap_width", columns) => Ok(PageOption::MaxWrapWidth(columns.parse()?)),
        ("min_wrap_width", columns) => Ok(PageOption::MinWrapWidth(columns.parse()?)),
        ("raw_mode", raw) => Ok(PageOption::RawMode(raw.parse()?)),
        ("fit_columns", fit) => Ok(PageOption::FitColumns(fit.parse()?)),
        ("link_footnotes", include) => Ok(PageOption::LinkFootnotes(include.parse()?)),
        ("shared_footnotes", shared) => Ok(PageOption::SharedFootnotes(shared.parse()?)),
        ("printable_targets", printable) => Ok(PageOption::PrintableTargets(printable.parse()?)),
        ("skip_hidden", skip) => Ok(PageOption::SkipHidden(skip.parse()?)),
        ("complete", complete) => Ok(PageOption::Complete(complete.parse()?)),
        ("empty_img_mode", "ShowAlways") => Ok(PageOption::EmptyImgMode(EmptyImage::Shown)),
        ("empty_img_mode", "Filename") => Ok(PageOption::EmptyImgMode(EmptyImage::Named)),
        ("empty_img_mode", "Replace,R") => Ok(PageOption::EmptyImgMode(EmptyImage::Replaced)),
        _ => bail!("no option has the name {name} and the value {value}"),
    }
}
