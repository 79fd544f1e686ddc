//! Articles, their pages and their lines.
use crate::case::{Case, case_of};
use crate::pages::{compare, config_of};
use anyhow::{Result, bail};
use article_answers::LayArticle;
use article_layout::{ArticleLine, LineOptions};
use article_values::Article;
use article_writing::WriteArticle;
use dom_writing::SerializeDom;
use html_lexemes::Device;
use html_tree_builder::ParseOpts;
use page_config::Error as PageError;
use std::alloc::Global;
use std::str;
use stored_lines::{push_elements, tree_of};
use test_fields::push_line;
use test_tree_lines::lines_of;

/// The page of an article, its lines and the tree of the page, or the article's first fault. The first line has the
/// width and options; the second may be a title; then comes a value a line, after a space for each that it stands in.
pub fn answer(alloc: Global, case: &str) -> Result<String> {
    let Case {
        article,
        options,
        width,
    } = case_of(alloc, case)?;
    let mut lines = String::new(alloc);
    match article {
        Ok(article) => push_article(&mut lines, &article, options, width)?,
        Err(fault) => writeln!(lines, "{fault:?}")?,
    }
    Ok(lines)
}

fn push_article(
    lines: &mut String,
    article: &Article,
    options: LineOptions,
    width: usize,
) -> Result<()> {
    let alloc = *lines.allocator();
    let mut page = Device::new(Vec::new(alloc));
    article.write_html(alloc, &mut page)?;
    let page = page.into_inner();
    let Ok(text) = str::from_utf8(page.as_slice()) else {
        bail!("a page that is no UTF-8");
    };
    push_line(lines, "written", text)?;
    push_laid(lines, article, page.as_slice(), options, width)?;
    lines.push_str(tree_read_back(alloc, page.as_slice())?.as_str())?;
    Ok(())
}

/// The lines of an article, which its page has too, or that the width is too narrow.
fn push_laid(
    lines: &mut String,
    article: &Article,
    page: &[u8],
    options: LineOptions,
    width: usize,
) -> Result<()> {
    let alloc = *lines.allocator();
    let config = config_of(alloc, options)?;
    match article.layout(alloc, &config, width) {
        Ok(laid) => {
            compare(alloc, page, options, width, Some(laid.as_slice()))?;
            for line in laid.iter() {
                push_laid_line(lines, line)?;
            }
        }
        Err(PageError::TooNarrow) => {
            compare(alloc, page, options, width, None)?;
            lines.push_str("TooNarrow\n")?;
        }
        Err(fault) => return Err(fault.into()),
    }
    Ok(())
}

/// Adds a line, after the number of its paragraph or a dash.
fn push_laid_line(lines: &mut String, line: &ArticleLine) -> Result<()> {
    match line.paragraph {
        Some(number) => write!(lines, "{number}\t")?,
        None => lines.push_str("-\t")?,
    }
    Ok(push_elements(lines, "line", &line.line)?)
}

/// The lines on the tree of a page, which is the same however the page comes, and is written as the page.
fn tree_read_back(alloc: Global, page: &[u8]) -> Result<String> {
    let dom = tree_of(alloc, page, page.len(), ParseOpts::default())?;
    let mut again = Device::new(Vec::new(alloc));
    dom.serialize(alloc, &mut again)?;
    if again.into_inner().as_slice() != page {
        bail!("a page that is written again as another");
    }
    let lines = lines_of(alloc, &dom)?;
    if lines_of(alloc, &tree_of(alloc, page, 1, ParseOpts::default())?)? != lines {
        bail!("a page that has another tree, a byte at a time");
    }
    Ok(lines)
}
