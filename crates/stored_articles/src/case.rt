//! An article, from its lines.
use crate::values::{Line, Values};
use anyhow::{Result, bail};
use article_layout::LineOptions;
use article_values::{Article, ArticleError};
use std::alloc::Global;
use test_fields::unescaped;

/// An article, or its first fault, and how it is laid out.
#[derive(Drop)]
pub(crate) struct Case {
    pub(crate) article: Result<Article, ArticleError>,
    pub(crate) options: LineOptions,
    /// In columns.
    pub(crate) width: usize,
}

pub(crate) fn case_of(alloc: Global, case: &str) -> Result<Case> {
    let (head, lines) = case.split_once('\n').unwrap_or((case, ""));
    let mut fields = head.split('\t');
    let Some(width) = fields.next() else {
        bail!("an article begins with a width");
    };
    let mut options = PLAIN;
    for field in fields {
        set_option(&mut options, field)?;
    }
    Ok(Case {
        article: article_of(alloc, lines)?,
        options,
        width: width.parse()?,
    })
}

/// As plain text is laid out where no option says other.
const PLAIN: LineOptions = LineOptions {
    wrap_width: None,
    pads: false,
    decorates: true,
    footnotes: true,
    shares_footnotes: false,
    prints_targets: false,
    wraps_links: true,
    min_wrap_width: 3,
};

fn set_option(options: &mut LineOptions, field: &str) -> Result<()> {
    match field.split_once('=') {
        Some(("max_wrap_width", columns)) => options.wrap_width = Some(columns.parse()?),
        Some(("min_wrap_width", columns)) => options.min_wrap_width = columns.parse()?,
        Some(("link_footnotes", "false")) => options.footnotes = false,
        Some(("shared_footnotes", "true")) => options.shares_footnotes = true,
        Some(("printable_targets", printable)) => options.prints_targets = printable.parse()?,
        Some(("do_decorate", "false")) => options.decorates = false,
        None if field == "pad_block_width" => options.pads = true,
        _ => bail!("no option has the name {field}"),
    }
    Ok(())
}

fn article_of(alloc: Global, lines: &str) -> Result<Result<Article, ArticleError>> {
    let (title, lines) = title_of(alloc, lines)?;
    let mut values = Values::new(alloc);
    for line in lines.lines().rev() {
        values.take_line(Line::of(line))?;
    }
    Ok(Article::new(title, values.into_blocks()?))
}

/// The title, where the first line has one, and the other lines.
fn title_of(alloc: Global, lines: &str) -> Result<(Option<String>, &str)> {
    let Some(title) = lines.strip_prefix("title\t") else {
        return Ok((None, lines));
    };
    let (title, lines) = title.split_once('\n').unwrap_or((title, ""));
    Ok((Some(unescaped(alloc, title)?), lines))
}
