//! Pages as text, and what a reader of pages answers.
use crate::devices::Pieces;
use crate::trees::{holds, passes, tree_of};
use html_lexemes::{Device, ReferenceTable};
use html_render_dom::RcDom;
use html_render_tree::{RenderConfig, RenderError};
use html_tree_builder::ParseOpts;
use page_reading::{PageFault, PageReader, ReadFault, read_page};
use std::alloc::Global;
use text_decorators::PlainDecorator;

/// Pages, their width, whether lines may pass it, and their text.
static PAGES: [(&str, usize, bool, Result<&str, RenderError>); 4] = [
    (
        "<p>Hello, world.  Superlongwordreally</p>",
        8,
        false,
        Ok("Hello,\nworld.\nSuperlon\ngwordrea\nlly\n"),
    ),
    (
        "<ol start=\"9\"><li>a</li><li>b</li></ol>",
        20,
        false,
        Ok("9.  a\n10. b\n"),
    ),
    (
        "<blockquote>abcdef</blockquote>",
        4,
        false,
        Err(RenderError::TooNarrow),
    ),
    (
        "<blockquote>abcdef</blockquote>",
        4,
        true,
        Ok("> abc\n> def\n"),
    ),
];

fn config(alloc: Global, overflow: bool) -> Result<RenderConfig<PlainDecorator>, RenderError> {
    let config = RenderConfig::with_decorator(alloc, PlainDecorator::new())
        .link_footnotes(true)
        .min_wrap_width(3)
        .do_decorate(alloc)?;
    if overflow {
        return Ok(config.allow_width_overflow());
    }
    Ok(config)
}

// the text of a page at a width, with marks and with the targets of its links, or why it has none
fn text_of(
    alloc: Global,
    dom: &RcDom,
    width: usize,
    overflow: bool,
) -> Result<String, RenderError> {
    let config = config(alloc, overflow)?;
    let tree = config.dom_to_render_tree(alloc, dom)?;
    config.render_to_string(alloc, tree, width)
}

fn is_text(found: Result<String, RenderError>, wanted: &Result<&str, RenderError>) -> bool {
    match (found, wanted) {
        (Ok(text), Ok(wanted)) => text.as_str() == *wanted,
        (Err(error), Err(wanted)) => error == *wanted,
        _ => false,
    }
}

#[test]
fn pages_have_a_text(rt: HostRuntime) {
    for (row, (page, width, overflow, wanted)) in PAGES.iter().enumerate() {
        let is_so = match tree_of(rt.alloc(), page) {
            Ok(dom) => is_text(text_of(rt.alloc(), &dom, *width, *overflow), wanted),
            Err(_) => false,
        };
        holds(&rt, is_so, row);
    }
}

/// How often a device that has a page of five bytes may be read, how many bytes the page may have, and what it shows,
/// or why it shows nothing.
static READS: [(usize, usize, &str, Option<ReadFault>); 3] = [
    (9, 5, "ab\n", None),
    (9, 4, "", Some(ReadFault::TooLong)),
    (1, 5, "", Some(ReadFault::IoError)),
];

fn tree_read(alloc: Global, reads: usize, most: usize) -> Result<RcDom, ReadFault> {
    let Ok(table) = ReferenceTable::basic(alloc) else {
        return Err(ReadFault::Memory);
    };
    let bytes = b"<p>ab".as_slice();
    let mut input = Device::new(Pieces {
        bytes,
        most: 2,
        reads,
    });
    read_page(alloc, &mut input, table, ParseOpts::default(), most)
}

#[test]
fn devices_give_pages(rt: HostRuntime) {
    for (row, (reads, most, text, fault)) in READS.iter().enumerate() {
        let is_so = match tree_read(rt.alloc(), *reads, *most) {
            Ok(dom) => fault.is_none() && is_text(text_of(rt.alloc(), &dom, 20, false), &Ok(*text)),
            Err(error) => *fault == Some(error),
        };
        holds(&rt, is_so, row);
    }
}

// whether a page that may have four bytes takes no more, and has no tree then
fn is_refused_on(alloc: Global) -> Result<bool, PageFault> {
    let Ok(table) = ReferenceTable::basic(alloc) else {
        return Err(PageFault::Memory);
    };
    let mut page = PageReader::new(alloc, table, ParseOpts::default(), 4)?;
    page.push(b"<p>")?;
    let is_one_left = page.left() == 1;
    let is_too_long = page.push(b"ab") == Err(PageFault::TooLong) && page.has_failed();
    let is_failed = page.push(b"") == Err(PageFault::Failed);
    let end = page.finish().err();
    Ok(is_one_left && is_too_long && is_failed && end == Some(PageFault::Failed))
}

#[test]
fn a_refused_page_goes_no_further(rt: HostRuntime) {
    passes(&rt, is_refused_on(rt.alloc()), 0);
}
