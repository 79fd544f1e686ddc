//! The lines of an article where memory is refused.
use crate::articles::{Step, article_of};
use crate::trees::holds;
use html_lexemes::ReferenceTable;
use html2text::{Article, ArticleLine, Config, Error, LayArticle};
use std::alloc::Global;
use text_decorators::PlainDecorator;

/// A paragraph with a link.
static LINKED: [Step; 3] = [Step::Text("Hi"), Step::Link("x\"y"), Step::Paragraph];

// whether a line begins with that text, in the first paragraph or in none
fn is_line(line: &ArticleLine, text: &str, paragraph: Option<usize>) -> bool {
    match line.line.tagged_strings().next() {
        Some(string) => string.s.as_str() == text && line.paragraph == paragraph,
        None => text.is_empty() && line.paragraph == paragraph,
    }
}

fn is_laid(lines: &[ArticleLine]) -> bool {
    match lines {
        [first, second, third] => {
            is_line(first, "[Hi]", Some(0))
                && is_line(second, "", None)
                && is_line(third, "[1]: x\"y", None)
        }
        _ => false,
    }
}

fn plain(alloc: Global) -> Result<Config<PlainDecorator>, Error> {
    Config::plain(alloc, ReferenceTable::basic(alloc)?)
}

// the lines, asked for again where memory was refused, since the article stands
fn lines_of(
    alloc: Global,
    article: &Article,
    config: &Config<PlainDecorator>,
) -> Result<Vec<ArticleLine>, Error> {
    let first = article.layout(alloc, config, 20);
    if matches!(first, Err(Error::Memory)) {
        return article.layout(alloc, config, 20);
    }
    first
}

// whether the article has its lines, or there is no memory for it or for a configuration
fn is_laid_or_refused(alloc: Global) -> bool {
    let Ok(Ok(article)) = article_of(alloc, None, &LINKED) else {
        return true;
    };
    let Ok(config) = plain(alloc) else {
        return true;
    };
    match lines_of(alloc, &article, &config) {
        Ok(lines) => is_laid(&lines),
        Err(_) => false,
    }
}

/// This one holds also where a request for memory is refused, each in turn: `rt try --test --fail-alloc N`.
#[test]
fn an_article_is_laid_out_or_refused(rt: HostRuntime) {
    holds(&rt, is_laid_or_refused(rt.alloc()), 0);
}
