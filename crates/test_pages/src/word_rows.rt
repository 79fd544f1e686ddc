//! Command lines and what they ask for.
use crate::checks::holds;
use html2text::{Error, Outcome, Request, WordFault, exit_status, read_words};
use std::alloc::{AllocError, Global};

/// A line of words, cut at spaces, and what it comes to: what is asked for, as `spelt` writes it; `help`; or `words`,
/// where it is refused.
static LINES: [(&str, &str); 62] = [
    ("", "80"),
    ("--", "80"),
    ("--width 8", "8"),
    ("--width=8", "8"),
    ("--width 8 --", "8"),
    ("--width=+8", "8"),
    ("--width 0", "0"),
    ("--width 4294967295", "4294967295"),
    ("--width=-0", "0"),
    ("--width -0", "words"),
    ("--width 4294967296", "words"),
    ("--width x", "words"),
    ("--width -1", "words"),
    ("--width=-1", "words"),
    ("--width=", "words"),
    ("--width", "words"),
    ("--width --", "words"),
    ("--width 1 --width 2", "words"),
    ("--width=1 --width=2", "words"),
    ("--widt 3", "words"),
    ("x", "80 file x"),
    ("-- x", "80 file x"),
    ("-", "80 file -"),
    ("x y", "words"),
    ("x -- y", "words"),
    ("-- x y", "words"),
    ("-x", "words"),
    ("-- -x", "80 file -x"),
    ("-- --rich", "80 file --rich"),
    ("--rich", "80 rich"),
    ("--no-decorate", "80 no-decorate"),
    ("--footnotes", "80 footnotes"),
    ("--shared-footnotes", "80 shared-footnotes"),
    ("--shared-footnotes=true", "words"),
    ("--rich --rich", "words"),
    ("--rich=true", "words"),
    ("--rich true", "80 rich file true"),
    ("--references r", "80 references r"),
    ("--references=r", "80 references r"),
    ("--references=", "80 references "),
    ("--references=-r", "80 references -r"),
    ("--references -r", "words"),
    ("--references -", "80 references -"),
    ("--references", "words"),
    ("--references a --references b", "words"),
    ("--max-bytes 4", "80 max-bytes 4"),
    ("--max-bytes=0", "80 max-bytes 0"),
    ("--max-bytes x", "words"),
    ("--max-bytes 4294967296", "words"),
    (
        "--width 9 --rich --no-decorate --footnotes --references r --max-bytes 4 p",
        "9 rich no-decorate footnotes references r max-bytes 4 file p",
    ),
    (
        "p --max-bytes=4 --references=r --footnotes --no-decorate --rich --width=9",
        "9 rich no-decorate footnotes references r max-bytes 4 file p",
    ),
    (
        "--footnotes p --rich --max-bytes 4 --width 9 --no-decorate --references r --",
        "9 rich no-decorate footnotes references r max-bytes 4 file p",
    ),
    ("--help", "help"),
    ("-h", "help"),
    ("-hx", "help"),
    ("--help x", "help"),
    ("p --rich --width 8 --help", "help"),
    ("--width=8 -h", "help"),
    ("--width x --help", "words"),
    ("--width --help", "words"),
    ("--help=x", "words"),
    ("-- --help", "80 file --help"),
];

/// The words of a line, cut at spaces.
pub(crate) fn words_of(alloc: Global, line: &str) -> Result<Vec<String>, AllocError> {
    let mut words = Vec::new(alloc);
    for word in line.split(' ') {
        if !word.is_empty() {
            words.push(word.to_string(alloc)?)?;
        }
    }
    Ok(words)
}

/// What is asked for: the width, and then what was named, in one order.
fn spelt(alloc: Global, request: &Request) -> Result<String, AllocError> {
    let mut text = request.width.to_string(alloc)?;
    if request.rich {
        text.push_str(" rich")?;
    }
    if !request.decorate {
        text.push_str(" no-decorate")?;
    }
    if request.footnotes {
        text.push_str(" footnotes")?;
    }
    if request.shared_footnotes {
        text.push_str(" shared-footnotes")?;
    }
    if let Some(name) = &request.references {
        write!(&mut text, " references {name}")?;
    }
    if let Some(most) = request.max_bytes {
        write!(&mut text, " max-bytes {most}")?;
    }
    if let Some(name) = &request.file {
        write!(&mut text, " file {name}")?;
    }
    Ok(text)
}

/// Whether a line comes to an answer, or, where memory may lack, is refused for want of it.
fn is_answered(alloc: Global, line: &str, wanted: &str, may_lack: bool) -> bool {
    let Ok(words) = words_of(alloc, line) else {
        return may_lack;
    };
    match read_words(alloc, &words) {
        Ok(request) => match spelt(alloc, &request) {
            Ok(text) => text.as_str() == wanted,
            Err(AllocError) => may_lack,
        },
        Err(WordFault::Help(text)) => wanted == "help" && text.contains("--width <N>"),
        Err(WordFault::Words(text)) => wanted == "words" && !text.is_empty(),
        Err(WordFault::NotUtf8) => false,
        Err(WordFault::Memory) => may_lack,
    }
}

#[test]
fn reads_lines(rt: HostRuntime) {
    for (line, wanted) in &LINES {
        holds(&rt, is_answered(rt.alloc(), line, wanted, false), line);
    }
}

// It holds where memory is refused, too, as under `rt try --test --fail-alloc`.
#[test]
fn reads_lines_or_refuses(rt: HostRuntime) {
    for (line, wanted) in &LINES {
        holds(&rt, is_answered(rt.alloc(), line, wanted, true), line);
    }
}

static STATUSES: [(Outcome, u8); 6] = [
    (Outcome::Done, 0),
    (Outcome::Page(Error::TooNarrow), 1),
    (Outcome::Page(Error::Memory), 1),
    (Outcome::NotOpened, 1),
    (Outcome::Words, 2),
    (Outcome::Table, 3),
];

#[test]
fn gives_each_status(rt: HostRuntime) {
    for (outcome, status) in &STATUSES {
        holds(&rt, exit_status(outcome) == *status, "a status");
    }
}
