//! Lines of pages by a configuration.
ghost use Rattle.std.specs.Prelude.{IfOk};
ghost use Rattle.lex_base.specs.References.{basic};
ghost use Rattle.page_reading.specs.PageTrees.{IsTreeOfBytes};

use crate::elements::{Named, push_elements};
use crate::options::{PageOption, options_of, parsing_by};
use crate::rules::rule_of;
use anyhow::{Result, bail};
use dom_styles::StyleRule;
use html_lexemes::ReferenceTable;
use html_render_dom::RcDom;
use html_render_tree::{RenderConfig, RenderError};
use html_tree_builder::ParseOpts;
use page_reading::PageReader;
use std::alloc::Global;
use test_fields::unescaped;
use text_decorators::{PlainDecorator, RichDecorator, TextDecorator, TrivialDecorator};
use text_lines::TaggedLine;

/// A page, and how it is rendered, but for its decorator.
#[derive(Drop)]
struct Case {
    /// The width of a line, in columns.
    width: usize,
    options: Vec<PageOption>,
    rules: Vec<StyleRule>,
    text: String,
}

/// The lines of a row's page, or why it has none. A row has a field for the decorator, the width, the options and the
/// page, and then one for each rule of style.
pub fn answer(alloc: Global, row: &str) -> Result<String> {
    let Some((decorator, fields)) = row.split_once('\t') else {
        bail!("a page's row has four fields");
    };
    let case = case_of(alloc, fields)?;
    match decorator {
        "plain" => {
            let config = RenderConfig::with_decorator(alloc, PlainDecorator::new());
            lines_by(alloc, case, config.link_footnotes(true).do_decorate(alloc)?)
        }
        "plain_no_decorate" => {
            let config = RenderConfig::with_decorator(alloc, PlainDecorator::new());
            lines_by(alloc, case, config)
        }
        "rich" => {
            let config = RenderConfig::with_decorator(alloc, RichDecorator::new());
            lines_by(alloc, case, config)
        }
        "trivial" => {
            let config = RenderConfig::with_decorator(alloc, TrivialDecorator::new());
            lines_by(alloc, case, config)
        }
        _ => bail!("no decorator has the name {decorator}"),
    }
}

fn case_of(alloc: Global, fields: &str) -> Result<Case> {
    let mut fields = fields.split('\t');
    let (Some(width), Some(options), Some(text)) = (fields.next(), fields.next(), fields.next())
    else {
        bail!("a page's row has four fields");
    };
    let mut rules = Vec::new(alloc);
    for field in fields {
        rules.push(rule_of(alloc, field)?)?;
    }
    Ok(Case {
        width: width.parse()?,
        options: options_of(alloc, options)?,
        rules,
        text: unescaped(alloc, text)?,
    })
}

/// The lines by a configuration that lacks the options and rules.
fn lines_by<D: TextDecorator + Drop>(
    alloc: Global,
    case: Case,
    config: RenderConfig<D>,
) -> Result<String>
where
    D::Annotation: Named,
{
    let Case {
        width,
        options,
        rules,
        text,
    } = case;
    let mut config = config;
    for option in options.iter() {
        config = option.applied(config);
    }
    let config = config.style_rules(rules)?;
    let parsing = parsing_by(options.as_slice());
    lines_however_read(alloc, &config, &parsing, text.as_bytes(), width)
}

/// The lines of a page, which are the same however its bytes come.
fn lines_however_read<D: TextDecorator + Drop>(
    alloc: Global,
    config: &RenderConfig<D>,
    parsing: &ParseOpts,
    page: &[u8],
    width: usize,
) -> Result<String>
where
    D::Annotation: Named,
{
    let whole = tree_of(alloc, page, page.len(), parsing.try_clone()?)?;
    let lines = lines_shown(alloc, config, &whole, width)?;
    let by_bytes = tree_of(alloc, page, 1, parsing.try_clone()?)?;
    if lines_shown(alloc, config, &by_bytes, width)? != lines {
        bail!("other lines, a byte at a time");
    }
    Ok(lines)
}

/// The tree of a page whose bytes come in pieces of `size` bytes, or of one byte where `size` is zero.
pub fn tree_of(alloc: Global, page: &[u8], size: usize, parsing: ParseOpts) -> Result<RcDom>
    ensures { IfOk result (λ dom. IsTreeOfBytes basic parsing page.now dom.forest dom.quirks) }
{
    let table = ReferenceTable::basic(alloc)?;
    let mut reader = PageReader::new(alloc, table, parsing, page.len())?;
    let mut rest = page;
    'pieces: while !rest.is_empty() {
        let (piece, more) = rest.split_at(rest.len().min(size.max(1)));
        reader.push(piece)?;
        rest = more;
    }
    Ok(reader.finish()?)
}

/// The lines of a page, or why it has none.
fn lines_shown<D: TextDecorator + Drop>(
    alloc: Global,
    config: &RenderConfig<D>,
    dom: &RcDom,
    width: usize,
) -> Result<String>
where
    D::Annotation: Named,
{
    let mut shown = String::new(alloc);
    match lines_of(alloc, config, dom, width) {
        Ok(lines) => {
            for line in lines.iter() {
                push_elements(&mut shown, "line", line)?;
            }
        }
        Err(RenderError::TooNarrow) => shown.push_str("TooNarrow\n")?,
        Err(RenderError::Fail) => shown.push_str("Fail\n")?,
        Err(RenderError::Memory) => bail!("out of memory"),
    }
    Ok(shown)
}

fn lines_of<D: TextDecorator + Drop>(
    alloc: Global,
    config: &RenderConfig<D>,
    dom: &RcDom,
    width: usize,
) -> Result<Vec<TaggedLine<Vec<D::Annotation>>>, RenderError> {
    let tree = config.dom_to_render_tree(alloc, dom)?;
    config.render_to_lines(alloc, tree, width)
}
