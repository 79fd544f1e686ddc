//! Pages that come piece by piece, through the public calls.
use crate::checks::{holds, passes, plain};
use crate::config_rows::MARKED;
use html2text::{Config, Error, Page, PlainDecorator, RcDom};
use std::alloc::Global;
use std::process::Abort;

/// A piece of a page, and what is answered to it.
type Piece = (&'static [u8], Result<(), Error>);

/// So many bytes may come, the pieces that do, and why there is no tree then.
type Row = (usize, &'static [Piece], Option<Error>);

static ROWS: [Row; 6] = [
    (0, &[(b"", Ok(()))], None),
    (
        0,
        &[(b"", Ok(())), (b"a", Err(Error::TooLong))],
        Some(Error::Fail),
    ),
    (
        4,
        &[
            (b"", Ok(())),
            (b"<", Ok(())),
            (b"p", Ok(())),
            (b">", Ok(())),
            (b"a", Ok(())),
        ],
        None,
    ),
    (
        4,
        &[
            (b"", Ok(())),
            (b"<", Ok(())),
            (b"p", Ok(())),
            (b">", Ok(())),
            (b"a", Ok(())),
            (b"b", Err(Error::TooLong)),
            (b"c", Err(Error::Fail)),
        ],
        Some(Error::Fail),
    ),
    (
        4,
        &[
            (b"<p>", Ok(())),
            (b"ab", Err(Error::TooLong)),
            (b"", Err(Error::Fail)),
        ],
        Some(Error::Fail),
    ),
    (
        MARKED.len(),
        &[
            (MARKED, Ok(())),
            (b"x", Err(Error::TooLong)),
            (b"", Err(Error::Fail)),
        ],
        Some(Error::Fail),
    ),
];

// whether the pieces, and the end of the page, are answered so
fn is_answered(alloc: Global, row: &Row) -> Result<bool, Error> {
    let mut page = Page::new(alloc, &plain(alloc)?.max_bytes(row.0))?;
    for (piece, wanted) in row.1 {
        if page.push(piece) != *wanted {
            return Ok(false);
        }
    }
    Ok(page.finish().err() == row.2)
}

#[test]
fn bytes_are_counted_piece_by_piece(rt: HostRuntime) {
    for row in &ROWS {
        passes(&rt, is_answered(rt.alloc(), row), "so many bytes");
    }
}

/// The tree of a page that comes by single bytes; after a refusal the page takes no more.
pub(crate) fn tree_of<R: Abort>(
    rt: &R,
    alloc: Global,
    config: &Config<PlainDecorator>,
    bytes: &[u8],
) -> Result<RcDom, Error> {
    let mut page = Page::new(alloc, config)?;
    for byte in bytes {
        if let Err(error) = page.push(&[*byte]) {
            let later = page.push(b"");
            holds(rt, later == Err(Error::Fail), "a piece after a refusal");
            let end = page.finish().err();
            holds(rt, end == Some(Error::Fail), "the end after a refusal");
            return Err(error);
        }
    }
    page.finish()
}

fn are_three_lines<R: Abort>(rt: &R, alloc: Global) -> Result<bool, Error> {
    let config = plain(alloc)?.max_bytes(MARKED.len());
    let dom = tree_of(rt, alloc, &config, MARKED)?;
    let tree = config.dom_to_render_tree(alloc, &dom)?;
    let lines = config.render_to_lines(alloc, tree, 20)?;
    match lines.as_slice() {
        [first, _, _] => Ok(first.width() == 12),
        _ => Ok(false),
    }
}

#[test]
fn a_page_comes_piece_by_piece(rt: HostRuntime) {
    passes(&rt, are_three_lines(&rt, rt.alloc()), "three lines");
}
