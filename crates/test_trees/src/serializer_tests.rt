//! What a serializer writes, with texts written down from the standard (WHATWG HTML, 13.3).
use crate::checks::{holds, passes};
use crate::words::{attributes, html_name};
use html_lexemes::Device;
use std::alloc::Global;
use std::io;
use std::io::{ErrorKind, Write};
use tree_serializer::{HtmlSerializer, SerializeFault, SerializeOpts, Serializer};

/// Takes at most three bytes a write while the count of writes lasts, and then fails.
#[derive(Drop)]
struct Full {
    taken: Vec<u8>,
    writes: usize,
}

impl Write for Full {
    fn write(&mut self, buf: &[u8]) -> io::Result<usize> {
        if self.writes == 0 {
            return Err(io::Error::from(ErrorKind::WriteZero));
        }
        self.writes -= 1;
        let taken = buf.len().min(3);
        self.taken.extend_from_slice(&buf[..taken])?;
        Ok(taken)
    }

    fn flush(&mut self) -> io::Result<()> {
        Ok(())
    }
}

/// What a serializer is called with.
enum Call {
    /// A start tag, and the value of its attribute `x`, if it has one.
    Start(&'static str, Option<&'static str>),
    Text(&'static str),
    End(&'static str),
    Doctype(&'static str),
    Comment(&'static str),
    Instruction(&'static str, &'static str),
}

fn emit<S: Serializer>(
    alloc: Global,
    serializer: &mut S,
    call: &Call,
) -> Result<(), SerializeFault> {
    match *call {
        Call::Start(word, None) => serializer.start_elem(&html_name(alloc, word)?, &[]),
        Call::Start(word, Some(value)) => {
            let attrs = attributes(alloc, &[("x", value)])?;
            serializer.start_elem(&html_name(alloc, word)?, attrs.as_slice())
        }
        Call::Text(text) => serializer.write_text(text),
        Call::End(word) => serializer.end_elem(&html_name(alloc, word)?),
        Call::Doctype(name) => serializer.write_doctype(name),
        Call::Comment(text) => serializer.write_comment(text),
        Call::Instruction(target, text) => serializer.write_processing_instruction(target, text),
    }
}

// how many of these calls are done, how many are refused for this fault, and what is written
fn written(
    alloc: Global,
    writes: usize,
    calls: &[Call],
    fault: SerializeFault,
) -> Result<(usize, usize, Vec<u8>), SerializeFault> {
    let full = Full {
        taken: Vec::new(alloc),
        writes,
    };
    let opts = SerializeOpts::default();
    let mut serializer = HtmlSerializer::new(alloc, Device::new(full), opts)?;
    let (mut done, mut refused) = (0usize, 0usize);
    for call in calls {
        match emit(alloc, &mut serializer, call) {
            Ok(()) => done = done.saturating_add(1),
            Err(found) if found == fault => refused = refused.saturating_add(1),
            Err(_) => {}
        }
    }
    Ok((done, refused, serializer.into_writer().into_inner().taken))
}

// an anchor with a value and a text that are escaped
const ANCHOR: &[Call] = &[
    Call::Start("a", Some("\"<&>")),
    Call::Text("<>\"&\u{a0}"),
    Call::End("a"),
];

const ANCHOR_TEXT: &str = "<a x=\"&quot;&lt;&amp;&gt;\">&lt;&gt;\"&amp;&nbsp;</a>";

const PARTS: &[Call] = &[
    Call::Doctype("html"),
    Call::Comment("a<b"),
    Call::Instruction("t", "c"),
    Call::Start("style", None),
    Call::Text("a<b"),
    Call::End("style"),
    Call::Start("br", None),
    Call::End("br"),
];

const PARTS_TEXT: &str = "<!DOCTYPE html><!--a<b--><?t c><style>a<b</style><br>";

// the one entry that a new serializer has is closed by the first end tag
const ENDS: &[Call] = &[
    Call::End("p"),
    Call::End("p"),
    Call::Text("a"),
    Call::Start("p", None),
];

// whether this is written, and so many calls are done, and each of the others finds no parent
fn is_written(
    alloc: Global,
    calls: &[Call],
    most: usize,
    text: &str,
) -> Result<bool, SerializeFault> {
    let (done, refused, bytes) = written(alloc, usize::MAX, calls, SerializeFault::NoParent)?;
    let is_reported = done == most && done.saturating_add(refused) == calls.len();
    Ok(is_reported && bytes.as_slice() == text.as_bytes())
}

#[test]
fn each_call_writes_its_text(rt: HostRuntime) {
    passes(&rt, is_written(rt.alloc(), ANCHOR, 3, ANCHOR_TEXT), 0);
    passes(&rt, is_written(rt.alloc(), PARTS, 8, PARTS_TEXT), 1);
    passes(&rt, is_written(rt.alloc(), ENDS, 1, "</p>"), 2);
}

// whether a beginning of the text is written where so many writes are done
fn is_begun(alloc: Global, writes: usize) -> Result<bool, SerializeFault> {
    let (done, refused, bytes) = written(alloc, writes, ANCHOR, SerializeFault::Write)?;
    let is_reported = done < ANCHOR.len() && done.saturating_add(refused) == ANCHOR.len();
    let text = ANCHOR_TEXT.as_bytes();
    Ok(is_reported && bytes.len() < text.len() && text.starts_with(bytes.as_slice()))
}

// each write of some, one after another, is the first that fails
#[test]
fn a_writer_that_fails_has_a_beginning(rt: HostRuntime) {
    for writes in 0..12 {
        passes(&rt, is_begun(rt.alloc(), writes), writes);
    }
}

/// This one holds also where a request for memory is refused, each in turn: `rt try --test --fail-alloc N`.
#[test]
fn a_refused_growth_is_reported(rt: HostRuntime) {
    let is_so = match written(rt.alloc(), usize::MAX, ANCHOR, SerializeFault::NoParent) {
        Ok((3, _, bytes)) => bytes.as_slice() == ANCHOR_TEXT.as_bytes(),
        Ok((_, refused, _)) => refused == 0,
        Err(fault) => fault == SerializeFault::Memory,
    };
    holds(&rt, is_so, 0);
}
