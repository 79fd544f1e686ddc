//! The lines of the page that is written of an article.
use anyhow::{Result, bail};
use article_layout::{ArticleLine, LineOptions};
use html_lexemes::{Device, ReferenceTable};
use page_config::{Config, Error as PageError, Page, PlainLine};
use std::alloc::Global;
use text_decorators::PlainDecorator;

/// By what pages are read and rendered for such lines.
pub(crate) fn config_of(alloc: Global, options: LineOptions) -> Result<Config<PlainDecorator>> {
    if options.min_wrap_width == 0 || options.wrap_width == Some(0) {
        bail!("a width of no column");
    }
    let mut config = Config::plain_no_decorate(alloc, ReferenceTable::basic(alloc)?)
        .link_footnotes(options.footnotes)
        .shared_footnotes(options.shares_footnotes)
        .printable_targets(options.prints_targets)
        .min_wrap_width(options.min_wrap_width);
    if let Some(columns) = options.wrap_width {
        config = config.max_wrap_width(columns);
    }
    if options.pads {
        config = config.pad_block_width();
    }
    if !options.wraps_links {
        config = config.no_link_wrapping();
    }
    if options.decorates {
        config = config.do_decorate(alloc)?;
    }
    Ok(config)
}

/// Sees that the page, read whole and a byte at a time, has just the lines of the article, or that the width is too
/// narrow for it.
pub(crate) fn compare(
    alloc: Global,
    page: &[u8],
    options: LineOptions,
    width: usize,
    lines: Option<&[ArticleLine]>,
) -> Result<()> {
    let config = config_of(alloc, options)?;
    if !are_lines(lines_by_bytes(alloc, page, &config, width), lines)? {
        bail!("a page that has other lines, a byte at a time");
    }
    let mut reader = Device::new(page);
    if !are_lines(config.lines_from_read(alloc, &mut reader, width), lines)? {
        bail!("a page that has other lines");
    }
    Ok(())
}

fn lines_by_bytes(
    alloc: Global,
    bytes: &[u8],
    config: &Config<PlainDecorator>,
    width: usize,
) -> Result<Vec<PlainLine>, PageError> {
    let mut page = Page::new(alloc, config)?;
    for byte in bytes {
        page.push(&[*byte])?;
    }
    let tree = config.dom_to_render_tree(alloc, &page.finish()?)?;
    config.render_to_lines(alloc, tree, width)
}

fn are_lines(
    answer: Result<Vec<PlainLine>, PageError>,
    lines: Option<&[ArticleLine]>,
) -> Result<bool> {
    let shown = match answer {
        Ok(shown) => shown,
        Err(PageError::TooNarrow) => return Ok(lines.is_none()),
        Err(fault) => return Err(fault.into()),
    };
    let Some(lines) = lines else {
        return Ok(false);
    };
    let are_same = shown
        .iter()
        .zip(lines.iter())
        .all(|(shown, line)| *shown == line.line);
    Ok(are_same && shown.len() == lines.len())
}
