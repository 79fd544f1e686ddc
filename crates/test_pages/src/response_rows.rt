//! Command lines with a page, and what the program answers: its status, and what it writes to which stream.

use crate::checks::{holds, passes};
use crate::devices::{Shelf, Taker, page_by};
use crate::page_rows::{FIRST_PAGE, FIRST_TEXT};
use crate::word_rows::words_of;
use html2text::{Device, Error, Outcome, Request, WordFault, carry_out, request_of, respond};
use std::alloc::{AllocError, Global};
use std::io;
use std::io::ErrorKind;

/// A line of words, or why there is none; a page, the status, and the texts on standard output (none: some text) and on
/// standard error (none: one that begins with the program's name).
type Row = (
    Result<&'static str, ErrorKind>,
    &'static [u8],
    u8,
    Option<&'static str>,
    Option<&'static str>,
);

static ROWS: [Row; 24] = [
    (
        Ok("html2text --width 8"),
        FIRST_PAGE,
        0,
        Some(FIRST_TEXT),
        Some(""),
    ),
    (
        Ok("--help --width=8"),
        FIRST_PAGE,
        0,
        Some(FIRST_TEXT),
        Some(""),
    ),
    (Ok("html2text"), b"<p>a</p>", 0, Some("a\n"), Some("")),
    (
        Ok("html2text --width 0"),
        b"<p>a</p>",
        1,
        Some(""),
        Some("html2text: output width not wide enough\n"),
    ),
    (
        Ok("html2text --width 1"),
        b"<p>\xE6\xBC\xA2</p>",
        1,
        Some(""),
        Some("html2text: output width not wide enough\n"),
    ),
    (
        Ok("html2text"),
        b"<table><tr><td>a</table>",
        0,
        Some("─\na\n─\n"),
        Some(""),
    ),
    (Ok("html2text --help"), FIRST_PAGE, 0, None, Some("")),
    (Ok("html2text --widt 3"), FIRST_PAGE, 2, Some(""), None),
    (
        Err(ErrorKind::InvalidData),
        FIRST_PAGE,
        2,
        Some(""),
        Some("html2text: a word of the command line is not UTF-8\n"),
    ),
    (
        Err(ErrorKind::OutOfMemory),
        FIRST_PAGE,
        2,
        Some(""),
        Some("html2text: out of memory\n"),
    ),
    (
        Ok("html2text page"),
        b"",
        0,
        Some("a &notin; **b** [c][1]\n\n[1]: x\n"),
        Some(""),
    ),
    (
        Ok("html2text --references table page"),
        b"",
        0,
        Some("a \u{2209} **b** [c][1]\n\n[1]: x\n"),
        Some(""),
    ),
    (
        Ok("html2text --no-decorate page"),
        b"",
        0,
        Some("a &notin; b [c]\n"),
        Some(""),
    ),
    (
        Ok("html2text --no-decorate --footnotes page"),
        b"",
        0,
        Some("a &notin; b [c][1]\n\n[1]: x\n"),
        Some(""),
    ),
    (
        Ok("html2text --rich page"),
        b"",
        0,
        Some("a &notin; b c\n"),
        Some(""),
    ),
    (
        Ok("html2text --rich --no-decorate --footnotes page"),
        b"",
        0,
        Some("a &notin; b c[1]\n\n[1]: x\n"),
        Some(""),
    ),
    (
        Ok("html2text --footnotes -- page"),
        b"",
        0,
        Some("a &notin; **b** [c][1]\n\n[1]: x\n"),
        Some(""),
    ),
    (
        Ok("html2text nowhere"),
        FIRST_PAGE,
        1,
        Some(""),
        Some("html2text: read or write failed\n"),
    ),
    (
        Ok("html2text --references none page"),
        b"",
        3,
        Some(""),
        Some("html2text: bad reference table\n"),
    ),
    (
        Ok("html2text --references bytes nowhere"),
        b"",
        3,
        Some(""),
        Some("html2text: bad reference table\n"),
    ),
    (
        Ok("html2text --references nowhere page"),
        b"",
        3,
        Some(""),
        Some("html2text: bad reference table\n"),
    ),
    (
        Ok("html2text --max-bytes 4"),
        b"<p>ab",
        1,
        Some(""),
        Some("html2text: page too long\n"),
    ),
    (
        Ok("html2text --max-bytes 5"),
        b"<p>ab",
        0,
        Some("ab\n"),
        Some(""),
    ),
    (
        Ok("html2text --references nowhere --widt 3"),
        FIRST_PAGE,
        2,
        Some(""),
        None,
    ),
];

fn words_or_fault(
    alloc: Global,
    line: Result<&str, ErrorKind>,
) -> Result<io::Result<Vec<String>>, AllocError> {
    match line {
        Ok(line) => Ok(Ok(words_of(alloc, line)?)),
        Err(kind) => Ok(Err(io::Error::from(kind))),
    }
}

/// A status, and what is written on standard output and on standard error.
#[derive(Drop)]
struct Answer {
    status: u8,
    written: Vec<u8>,
    reported: Vec<u8>,
}

fn answer_to(
    alloc: Global,
    line: Result<&str, ErrorKind>,
    page: &[u8],
    output: Taker,
) -> Result<Answer, AllocError> {
    let words = words_or_fault(alloc, line)?;
    let mut input = page_by(page, 8192);
    let mut output = Device::new(output);
    let mut errors = Device::new(Taker::new(alloc)?);
    let status = respond(alloc, words, &Shelf, &mut input, &mut output, &mut errors);
    let written = output.into_inner().taken;
    let reported = errors.into_inner().taken;
    Ok(Answer {
        status,
        written,
        reported,
    })
}

fn is_answered(alloc: Global, row: &Row) -> Result<bool, AllocError> {
    let (line, page, status, text, complaint) = *row;
    let found = answer_to(alloc, line, page, Taker::new(alloc)?)?;
    let is_written = match text {
        Some(text) => found.written.as_slice() == text.as_bytes(),
        None => !found.written.is_empty(),
    };
    let is_reported = match complaint {
        Some(complaint) => found.reported.as_slice() == complaint.as_bytes(),
        None => found.reported.as_slice().starts_with(b"html2text: "),
    };
    Ok(found.status == status && is_written && is_reported)
}

#[test]
fn lines_are_answered(rt: HostRuntime) {
    for row in &ROWS {
        passes(
            &rt,
            is_answered(rt.alloc(), row),
            row.0.unwrap_or("no words"),
        );
    }
}

static STUCK: [&str; 2] = ["html2text --width 8", "html2text --help"];

fn is_stuck(alloc: Global, line: &str) -> Result<bool, AllocError> {
    let mut taker = Taker::new(alloc)?;
    taker.is_stuck = true;
    let found = answer_to(alloc, Ok(line), FIRST_PAGE, taker)?;
    let complaint = b"html2text: read or write failed\n".as_slice();
    Ok(found.status == 1 && !found.written.is_empty() && found.reported.as_slice() == complaint)
}

#[test]
fn a_refused_flush_is_reported(rt: HostRuntime) {
    for line in &STUCK {
        passes(&rt, is_stuck(rt.alloc(), line), line);
    }
}

// whether a page that is refused is, where standard error takes no more than the program's name
fn is_refused(alloc: Global) -> Result<bool, AllocError> {
    let mut input = page_by(b"<p>\xE6\xBC\xA2", 8192);
    let mut output = Device::new(Taker::new(alloc)?);
    let mut taker = Taker::new(alloc)?;
    taker.most = 4;
    taker.writes = 3;
    let mut errors = Device::new(taker);
    let request = request_of(alloc, Ok(words_of(alloc, "html2text --width 1")?));
    let is_one = matches!(request, Ok(Request { width: 1, .. }));
    let outcome = carry_out(alloc, request, &Shelf, &mut input, &mut output, &mut errors);
    let reported = errors.into_inner().taken;
    let is_begun = reported.as_slice() == b"html2text: ".as_slice();
    Ok(is_one && is_begun && outcome == Outcome::Page(Error::TooNarrow))
}

#[test]
fn a_fault_of_standard_error_changes_nothing_else(rt: HostRuntime) {
    passes(&rt, is_refused(rt.alloc()), "the outcome");
    let text = WordFault::NotUtf8.text();
    let is_so = text == "a word of the command line is not UTF-8";
    holds(&rt, is_so, "a text of words");
}
