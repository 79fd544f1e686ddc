use crate::checks::{holds, passes};
use std::alloc::{AllocError, Global};
use std::fmt::Display;
use test_wrapped::wrapped_lines;
use text_block_renderer::{
    BlockError, TaggedLine, TaggedString, TooNarrow, WhiteSpace, WrappedBlock,
};
use text_decorators::{Columns, UnicodeColumns};

/// Widths, texts, and their lines, worked out by hand: word by word, U+200B and U+00A0 by CSS Text, widths by the
/// Unicode Character Database. A piece without columns joins the word after it.
type Row = (usize, &'static str, &'static [&'static str]);

static ROWS: [Row; 14] = [
    (
        8,
        "Hello, world.  Superlongwordreally",
        &["Hello,", "world.", "Superlon", "gwordrea", "lly"],
    ),
    (3, "a\u{a0}b c", &["a\u{a0}b", "c"]),
    (4, "aa\u{200b}bb cc", &["aabb", "cc"]),
    (3, "a \u{200b}b", &["a b"]),
    (3, "a\u{200b} b", &["a b"]),
    (3, "a \u{301} b", &["a \u{301}b"]),
    (4, "a\u{200b}\u{301} b c", &["a \u{301}b", "c"]),
    (5, "ab cd", &["ab cd"]),
    (5, "ab 漢字漢 x", &["ab", "漢字", "漢 x"]),
    (1, "ab", &["a", "b"]),
    (8, "\u{301}", &["\u{301}"]),
    (5, " a \n b ", &["a b"]),
    (5, "a\u{7}b cd", &["ab cd"]),
    (0, " \n\u{200b} ", &[]),
];

// whether a text has its lines, wherever it is cut in two
fn are_wrapped(alloc: Global, row: &Row) -> Result<bool, BlockError> {
    let (width, text, lines) = *row;
    for at in 0..text.len() {
        if let Some((front, back)) = text.split_at_checked(at) {
            let made = wrapped(alloc, width, front, back)?;
            if !are_lines(alloc, &made, lines)? {
                return Ok(false);
            }
        }
    }
    Ok(true)
}

#[test]
fn lines_of_texts(rt: HostRuntime) {
    for row in &ROWS {
        passes(&rt, are_wrapped(rt.alloc(), row), row.1);
    }
}

fn wrapped(
    alloc: Global,
    width: usize,
    front: &str,
    back: &str,
) -> Result<Vec<TaggedLine<()>>, BlockError> {
    let pieces = [
        TaggedString {
            s: String::from_str(alloc, front)?,
            tag: (),
        },
        TaggedString {
            s: String::from_str(alloc, back)?,
            tag: (),
        },
    ];
    wrapped_lines(alloc, &pieces, width, false, ())
}

fn are_lines(alloc: Global, lines: &[TaggedLine<()>], texts: &[&str]) -> Result<bool, AllocError> {
    let mut are_so = lines.len() == texts.len();
    for (line, text) in lines.iter().zip(texts) {
        let text = String::from_str(alloc, text)?;
        are_so = are_so && *line == TaggedLine::from_string(alloc, text, &())?;
    }
    Ok(are_so)
}

static ALPHABET: [char; 8] = ['a', 'b', ' ', '\t', '\n', '\u{200b}', '漢', '\u{301}'];

/// A text of eight characters, made from a number, which changes.
fn made_text(alloc: Global, number: &mut u32) -> Result<String, AllocError> {
    let mut text = String::new(alloc);
    for _at in 0..8 {
        *number = number.wrapping_mul(1_103_515_245).wrapping_add(12_345);
        text.push(ALPHABET[(*number >> 16) as usize % 8])?;
    }
    Ok(text)
}

// the lines of two texts, the second added to a copy of the block that has the first
fn laid(
    alloc: Global,
    mode: WhiteSpace,
    width: usize,
    front: &str,
    back: &str,
) -> Result<Vec<TaggedLine<()>>, BlockError> {
    let mut block = WrappedBlock::new(alloc, width, false, false, ());
    block.add_text(front, mode, &(), &())?;
    let mut block = block.try_clone()?;
    block.add_text(back, mode, &(), &())?;
    block.into_lines()
}

// whether a text has the same lines wherever it is cut in two
fn is_laid_alike(
    alloc: Global,
    mode: WhiteSpace,
    width: usize,
    text: &str,
) -> Result<bool, BlockError> {
    let whole = laid(alloc, mode, width, text, "")?;
    for at in 0..text.len() {
        if let Some((front, back)) = text.split_at_checked(at) {
            if laid(alloc, mode, width, front, back)? != whole {
                return Ok(false);
            }
        }
    }
    Ok(true)
}

fn are_all_alike(alloc: Global) -> Result<bool, BlockError> {
    let mut number = 1;
    for turn in 0..1000 {
        let text = made_text(alloc, &mut number)?;
        let mode = if turn % 2 == 0 {
            WhiteSpace::Pre
        } else {
            WhiteSpace::PreWrap
        };
        if !is_laid_alike(alloc, mode, 2 + turn % 7, text.as_str())? {
            return Ok(false);
        }
    }
    Ok(true)
}

#[test]
fn a_thousand_texts_in_every_cut(rt: HostRuntime) {
    passes(&rt, are_all_alike(rt.alloc()), "a text");
}

// Markers after the last text are taken, and stand in no line then.
fn are_fragments_taken(alloc: Global) -> Result<bool, BlockError> {
    let mut block = WrappedBlock::new(alloc, 9, false, false, ());
    block.add_text("ab ", WhiteSpace::Normal, &(), &())?;
    block.record_frag_start("n")?;
    let names = block.take_trailing_fragments()?;
    let is_taken = names.len() == 1 && names[0].as_str() == "n";
    Ok(is_taken && are_lines(alloc, &block.into_lines()?, &["ab"])?)
}

fn is_narrow(alloc: Global) -> Result<bool, BlockError> {
    let mut block = WrappedBlock::new(alloc, 1, false, false, ());
    block.add_text("漢", WhiteSpace::Pre, &(), &())?;
    let first = block.take_trailing_fragments();
    let second = block.take_trailing_fragments();
    Ok(matches!(first, Err(BlockError::TooNarrow)) && matches!(second, Err(BlockError::Failed)))
}

#[test]
fn trailing_fragments(rt: HostRuntime) {
    passes(&rt, are_fragments_taken(rt.alloc()), "a marker");
    passes(&rt, is_narrow(rt.alloc()), "a narrow block");
}

static ERRORS: [(BlockError, &str); 3] = [
    (BlockError::TooNarrow, "output width not wide enough"),
    (BlockError::Memory, "out of memory"),
    (BlockError::Failed, "refused after an earlier refusal"),
];

fn is_text<T: Display>(alloc: Global, error: &T, wanted: &str) -> Result<bool, AllocError> {
    Ok(error.to_string(alloc)?.as_str() == wanted)
}

#[test]
fn texts_of_errors(rt: HostRuntime) {
    for (error, wanted) in &ERRORS {
        passes(&rt, is_text(rt.alloc(), error, wanted), wanted);
    }
    passes(
        &rt,
        is_text(rt.alloc(), &TooNarrow, ERRORS[0].1),
        "too narrow",
    );
}

/// Modes of white space, whether they wrap, and whether they preserve.
static MODES: [(WhiteSpace, bool, bool); 3] = [
    (WhiteSpace::Normal, true, false),
    (WhiteSpace::Pre, false, true),
    (WhiteSpace::PreWrap, true, true),
];

#[test]
fn modes_of_white_space(rt: HostRuntime) {
    for (mode, wraps, preserves) in &MODES {
        let is_so = mode.do_wrap() == *wraps && mode.preserve_whitespace() == *preserves;
        let is_default = *mode == WhiteSpace::default();
        holds(&rt, is_so && is_default == !*preserves, "a mode");
    }
    holds(&rt, WhiteSpace::Pre != WhiteSpace::PreWrap, "equality");
}

// The widths are those of the Unicode Character Database; `unicode_width` has three columns for U+17D8.
static COLUMNS: [(char, Option<usize>); 9] = [
    ('a', Some(1)),
    (' ', Some(1)),
    ('漢', Some(2)),
    ('\u{301}', Some(0)),
    ('\u{200b}', Some(0)),
    ('\n', None),
    ('\0', None),
    ('─', Some(1)),
    ('\u{17d8}', Some(2)),
];

#[test]
fn columns_of_characters(rt: HostRuntime) {
    for (c, columns) in &COLUMNS {
        holds(&rt, UnicodeColumns::columns(*c) == *columns, "columns");
    }
}
