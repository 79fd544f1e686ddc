//! Pages from outside, through the public calls. Readers and writers are in memory.
use crate::checks::{holds, is_answer, passes, plain};
use crate::devices::{Pieces, Taker, page_by};
use html2text::{Device, Error, PlainLine, ReferenceTable, from_read, run};
use std::alloc::{AllocError, Global};

/// So many bytes come at a time.
static CUTS: [usize; 4] = [1, 2, 7, 8192];

/// The text of a page that may have so many bytes, which come `most` at a time.
fn text_of(
    alloc: Global,
    bytes: &[u8],
    most: usize,
    longest: usize,
    width: usize,
) -> Result<String, Error> {
    let mut input = page_by(bytes, most);
    let config = plain(alloc)?.max_bytes(longest);
    config.string_from_read(alloc, &mut input, width)
}

pub(crate) const FIRST_PAGE: &[u8] = b"<p>Hello, world.  Superlongwordreally</p>";

pub(crate) const FIRST_TEXT: &str = "Hello,\nworld.\nSuperlon\ngwordrea\nlly\n";

static PAGES: [(usize, &[u8], Result<&str, Error>); 48] = [
    (8, FIRST_PAGE, Ok(FIRST_TEXT)),
    (20, b"<p>caf\xC3\xA9</p>", Ok("caf\u{e9}\n")),
    (20, b"<p>a\xFFb</p>", Ok("a\u{fffd}b\n")),
    (20, b"<p>a\r\nb</p>", Ok("a b\n")),
    (20, b"<p>\xF0\x9F\x98</p>", Ok("\u{fffd}\n")),
    (20, b"<p>\xF0\x9F\x98", Ok("\u{fffd}\n")),
    (20, b"<p>\xFF\xFE", Ok("\u{fffd}\u{fffd}\n")),
    (20, b"<p>\xE0\x80</p>", Ok("\u{fffd}\u{fffd}\n")),
    (20, b"<p>\xED\xA0\x80</p>", Ok("\u{fffd}\u{fffd}\u{fffd}\n")),
    (20, b"\xEF\xBB\xBF<p>a</p>", Ok("a\n")),
    (20, b"<p>a</p><p>b</p>", Ok("a\n\nb\n")),
    (
        20,
        b"<p>&lt;script&gt;x&lt;/script&gt;</p>",
        Ok("<script>x</script>\n"),
    ),
    (20, b"<p>&amp;lt; &quot;</p>", Ok("&lt; \"\n")),
    (3, b"<p>a&nbsp;b c</p>", Ok("a\u{a0}b\nc\n")),
    (4, b"<p>aa\xE2\x80\x8Bbb cc</p>", Ok("aabb\ncc\n")),
    (
        5,
        b"<p>ab \xE6\xBC\xA2\xE5\xAD\x97\xE6\xBC\xA2 x</p>",
        Ok("ab\n\u{6f22}\u{5b57}\n\u{6f22} x\n"),
    ),
    (1, b"<p>\xE6\xBC\xA2</p>", Err(Error::TooNarrow)),
    (1, b"<p>ab</p>", Ok("a\nb\n")),
    (20, b"", Ok("")),
    (20, b"Hello", Ok("Hello\n")),
    (20, b"<p>a", Ok("a\n")),
    (20, b"<p>a</p> ", Ok("a\n")),
    (20, b"<p>a&x;</p>", Ok("a&x;\n")),
    (20, b"<p>a\0</p>", Ok("a\n")),
    (0, b"<p>x</p>", Err(Error::TooNarrow)),
    (0, b"", Err(Error::TooNarrow)),
    (0, b"Hello", Err(Error::TooNarrow)),
    (20, b"<p></p><p>x</p><p></p><p>y</p>", Ok("x\n\n\ny\n")),
    (20, b"<p>\xCC\x81</p><p>a</p>", Ok("\u{301}\n\na\n")),
    (
        20,
        b"\xEF\xBB\xBF\xEF\xBB\xBF<p>a</p>",
        Ok("\u{feff}\n\na\n"),
    ),
    (20, b"<p>a\xEF\xBB\xBFb</p>", Ok("a\u{feff}b\n")),
    (20, b"<p>\xF0\x80</p>", Ok("\u{fffd}\u{fffd}\n")),
    (20, b"<p>\xF4\x90</p>", Ok("\u{fffd}\u{fffd}\n")),
    (20, b"<p>a\n b></p><p></p>", Ok("a b>\n\n")),
    (
        20,
        b"<p>&quot;&nbsp;\xC3\xA9&quot;</p>",
        Ok("\"\u{a0}\u{e9}\"\n"),
    ),
    (5, b"<p>a\x07b cd</p>", Ok("ab cd\n")),
    (20, b" ", Ok("")),
    (20, b"<p>a</p></p>", Ok("a\n\n")),
    (20, b"<p>a<b</p>", Ok("a\n")),
    (20, b"<P>a</P>", Ok("a\n")),
    (20, b"<p class=x>a</p>", Ok("a\n")),
    (20, b"<p>&amp</p>", Ok("&amp\n")),
    (20, b"<p>a & b</p>", Ok("a & b\n")),
    (20, b"<p>\0</p>", Ok("")),
    (20, b"<table><tr><td>a</table>", Ok("─\na\n─\n")),
    (0, b"<table><tr><td>a</table>", Err(Error::TooNarrow)),
    (
        20,
        b"<h2>T</h2><p>a <em>b</em> <a href=x>c</a></p>",
        Ok("## T\n\na *b* [c][1]\n\n[1]: x\n"),
    ),
    (
        20,
        b"<!doctype html><title>t</title><ul><li>a<li>b</ul>",
        Ok("* a\n* b\n"),
    ),
];

#[test]
fn pages_have_their_lines_however_cut(rt: HostRuntime) {
    for (width, bytes, wanted) in &PAGES {
        for most in &CUTS {
            let found = text_of(rt.alloc(), bytes, *most, usize::MAX, *width);
            holds(&rt, is_answer(found, *wanted), name_of(bytes));
        }
    }
}

/// What a page is called where its text is not what was wanted.
fn name_of(bytes: &[u8]) -> &str {
    std::str::from_utf8(bytes).unwrap_or("bytes that are no text")
}

/// Pages that may have so many bytes, and their text.
static LENGTHS: [(&[u8], usize, Result<&str, Error>); 6] = [
    (b"<p>ab</p>", 8, Err(Error::TooLong)),
    (b"<p>ab</p>", 9, Ok("ab\n")),
    (b"<p>ab", 4, Err(Error::TooLong)),
    (b"<p>ab", 5, Ok("ab\n")),
    (b"", 0, Ok("")),
    (b"<", 0, Err(Error::TooLong)),
];

#[test]
fn a_page_is_as_long_as_allowed(rt: HostRuntime) {
    for (bytes, longest, wanted) in &LENGTHS {
        for most in &CUTS {
            let found = text_of(rt.alloc(), bytes, *most, *longest, 20);
            holds(&rt, is_answer(found, *wanted), name_of(bytes));
        }
    }
}

fn is_column(line: &PlainLine, text: &str) -> bool {
    let is_text = match line.tagged_strings().next() {
        Some(string) => string.s.as_str() == text,
        None => false,
    };
    is_text && line.width() == 1
}

fn are_columns(alloc: Global) -> Result<bool, Error> {
    let mut input = page_by(b"<p>a b</p>", 8192);
    let lines = plain(alloc)?.lines_from_read(alloc, &mut input, 1)?;
    let [first, second] = lines.as_slice() else {
        return Ok(false);
    };
    Ok(is_column(first, "a") && is_column(second, "b"))
}

#[test]
fn lines_are_given_one_by_one(rt: HostRuntime) {
    passes(&rt, are_columns(rt.alloc()), "two lines");
}

/// What came of a page that was written.
#[derive(Drop)]
struct Written {
    answer: Result<(), Error>,
    taken: Vec<u8>,
}

fn write_page(
    alloc: Global,
    input: Pieces<'_>,
    output: Taker,
    width: usize,
) -> Result<Written, Error> {
    let config = plain(alloc)?;
    let mut input = Device::new(input);
    let mut output = Device::new(output);
    let answer = run(alloc, &mut input, &mut output, config, width);
    let taken = output.into_inner().taken;
    Ok(Written { answer, taken })
}

// whether a page is written that takes five reads, and nothing is where a reader fails before
fn is_read_or_nothing(alloc: Global, reads: usize) -> Result<bool, Error> {
    let input = Pieces {
        bytes: b"<p>a",
        most: 1,
        reads,
    };
    let found = write_page(alloc, input, Taker::new(alloc)?, 20)?;
    if reads == 5 {
        return Ok(found.answer == Ok(()) && found.taken.as_slice() == b"a\n".as_slice());
    }
    Ok(found.answer == Err(Error::IoError) && found.taken.is_empty())
}

// The reader fails at each read of the page, the one at its end among them, up to a run in which it does not.
#[test]
fn a_reader_that_fails_leaves_nothing_written(rt: HostRuntime) {
    for reads in 0..6 {
        passes(
            &rt,
            is_read_or_nothing(rt.alloc(), reads),
            "a reader that fails",
        );
    }
}

fn first_page() -> Pieces<'static> {
    Pieces {
        bytes: FIRST_PAGE,
        most: 8192,
        reads: usize::MAX,
    }
}

fn is_beginning(alloc: Global, case: usize) -> Result<bool, Error> {
    let mut taker = Taker::new(alloc)?;
    taker.takes_none = case % 2 == 0;
    taker.most = [1, 2, 64][case / 2 % 3];
    taker.writes = case / 6;
    let found = write_page(alloc, first_page(), taker, 8)?;
    let taken = found.taken.as_slice();
    let wanted = if taken.len() == FIRST_TEXT.len() {
        Ok(())
    } else {
        Err(Error::IoError)
    };
    let is_beginning = FIRST_TEXT.as_bytes().starts_with(taken) && taken.len() >= case / 6;
    Ok(is_beginning && found.answer == wanted)
}

// The writer fails at each write, or takes none, up to runs in which it does not: as many writes as the text has bytes.
#[test]
fn a_writer_that_fails_has_a_beginning(rt: HostRuntime) {
    for case in 0..6 * 37 {
        passes(&rt, is_beginning(rt.alloc(), case), "a writer that fails");
    }
}

// whether the first page is written whole, or, where allocation fails, nothing is
fn is_written_or_refused(alloc: Global) -> bool {
    let Ok(taker) = Taker::new(alloc) else {
        return true;
    };
    match write_page(alloc, first_page(), taker, 8) {
        Ok(found) => match found.answer {
            Ok(()) => found.taken.as_slice() == FIRST_TEXT.as_bytes(),
            Err(error) => error == Error::Memory && found.taken.is_empty(),
        },
        Err(error) => error == Error::Memory,
    }
}

// whether the first page has its text, or is refused since allocation fails
fn is_read_or_refused(alloc: Global) -> bool {
    let Ok(table) = ReferenceTable::basic(alloc) else {
        return true;
    };
    let mut input = page_by(FIRST_PAGE, 8192);
    match from_read(alloc, &mut input, 8, table) {
        Ok(text) => text.as_str() == FIRST_TEXT,
        Err(error) => error == Error::Memory,
    }
}

/// This one holds also where a request for memory is refused, each in turn: `rt try --test --fail-alloc N`.
#[test]
fn a_refused_growth_is_reported(rt: HostRuntime) {
    holds(&rt, is_read_or_refused(rt.alloc()), "the first page");
    holds(&rt, is_written_or_refused(rt.alloc()), "the text written");
}

static ERRORS: [(Error, &str); 5] = [
    (Error::TooNarrow, "output width not wide enough"),
    (Error::Fail, "nothing to render"),
    (Error::IoError, "read or write failed"),
    (Error::TooLong, "page too long"),
    (Error::Memory, "out of memory"),
];

fn is_text(alloc: Global, error: &Error, text: &str) -> Result<bool, AllocError> {
    Ok(error.to_string(alloc)?.as_str() == text && error.text() == text)
}

#[test]
fn errors_are_reported(rt: HostRuntime) {
    for (error, text) in &ERRORS {
        passes(&rt, is_text(rt.alloc(), error, text), text);
    }
}
