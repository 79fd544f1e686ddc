//! Pages as the plain reader and the tokenizer read them, in one piece and in many.
use crate::checks::passes;
use crate::feeding::{fed, fed_plainly, first_answer, later_faults};
use crate::sinks::{ENCODING, SCRIPT_HANDLE, Switching};
use html_lexemes::{BufferQueue, ParseFault, ReferenceTable};
use html_tokenizer::{Tokenizer, TokenizerResult};
use std::alloc::Global;
use test_fields::{characters, halves};
use test_token_sinks::PreformattedText;
use token_grammar::{TokenizerOpts, read_plainly};

// how a page is read of which nothing is dropped
fn options() -> TokenizerOpts {
    TokenizerOpts {
        exact_errors: false,
        discard_bom: false,
        initial_state: None,
        last_start_tag_name: None,
    }
}

/// What a sink has of a page.
enum Held {
    /// The lines of its tokens.
    Log(&'static str),
    /// The line of the last tag, and 0 without one.
    TagLine(u64),
}

static PAGES: [(&str, Held); 11] = [
    (
        "<p><title a>&lt;<b></p></title><script><!--&lt;<p></title></SCRIPT>\
         &lt;<meta><plaintext></plaintext>&lt;<p>",
        Held::Log(
            "start\tp\t-\t-\n\
             start\ttitle\t-\t-\n\
             attribute\ta\t\n\
             text\t<<b></p>\n\
             end\ttitle\t-\t-\n\
             start\tscript\t-\t-\n\
             text\t<!--&lt;<p></title>\n\
             end\tscript\t-\t-\n\
             text\t<\n\
             start\tmeta\t-\t-\n\
             start\tplaintext\t-\t-\n\
             text\t</plaintext>&lt;<p>\n",
        ),
    ),
    // after end tags: the text still ends at the name of the last start tag (13.2.5, "appropriate end tag token")
    (
        "<b></meta>x&lt;</meta></b>&lt;</plaintext>&lt;<p>",
        Held::Log(
            "start\tb\t-\t-\n\
             end\tmeta\t-\t-\n\
             text\tx&lt;</meta>\n\
             end\tb\t-\t-\n\
             text\t<\n\
             end\tplaintext\t-\t-\n\
             text\t&lt;<p>\n",
        ),
    ),
    // a first U+FEFF that isn't dropped (13.2.3)
    ("\u{feff}a", Held::Log("text\t\\u{FEFF}a\n")),
    // a tag stands where its `>` does
    ("", Held::TagLine(0)),
    ("<p>\n", Held::TagLine(1)),
    ("\n<p>", Held::TagLine(2)),
    ("\r<p>", Held::TagLine(2)),
    ("\r\n<p>", Held::TagLine(2)),
    ("\r\r\n\n\n\r<p>", Held::TagLine(6)),
    ("a\r\n&#10;<!--\r\r--><p\nb='\r\n'\r>\n", Held::TagLine(7)),
    ("<p>\r\n</p\n>\r", Held::TagLine(3)),
];

fn has(sink: Switching, held: &Held) -> Result<bool, ParseFault> {
    match *held {
        Held::Log(lines) => Ok(sink.listed.into_text()?.as_str() == lines),
        Held::TagLine(line) => Ok(sink.tag_line == line),
    }
}

// of a page that is read plainly
fn is_read(alloc: Global, page: &str, log: &str) -> Result<bool, ParseFault> {
    let mut sink = Switching::new(alloc, u64::MAX)?;
    let table = ReferenceTable::basic(alloc)?;
    read_plainly(alloc, &mut sink, options(), &table, page)?;
    Ok(sink.listed.into_text()?.as_str() == log)
}

// of a page that is fed in pieces
fn is_fed(alloc: Global, pieces: Vec<String>, held: &Held) -> Result<bool, ParseFault> {
    let sink = Switching::new(alloc, u64::MAX)?;
    let table = ReferenceTable::basic(alloc)?;
    has(fed(alloc, sink, options(), table, pieces)?, held)
}

// the same however the page comes
fn is_tokenized(alloc: Global, page: &str, held: &Held) -> Result<bool, ParseFault> {
    for count in 0..=page.chars().count() {
        if !is_fed(alloc, halves(alloc, page, count)?, held)? {
            return Ok(false);
        }
    }
    let are_fed = is_fed(alloc, characters(alloc, page)?, held)?;
    match *held {
        Held::Log(log) => Ok(are_fed && is_read(alloc, page, log)?),
        // the plain reader counts no lines
        Held::TagLine(_) => Ok(are_fed),
    }
}

#[test]
fn pages_are_tokenized(rt: HostRuntime) {
    for (page, held) in &PAGES {
        passes(&rt, is_tokenized(rt.alloc(), page, held), page);
    }
}

/// Beginnings of pages: why their first feed ends, what it leaves in the queue, whether the state is one of text then,
/// and whether nothing is pending.
type Beginning = (&'static str, &'static str, &'static str, bool, bool);

static BEGINNINGS: [Beginning; 9] = [
    ("<script>a</script >b", "script", "b", true, true),
    ("<meta>&<\r\n", "encoding", "&<\r\n", true, true),
    ("", "done", "", true, true),
    ("a<p>b", "done", "", true, true),
    ("a&amp;", "done", "", true, true),
    ("a&am", "done", "", true, false),
    ("a<", "done", "", false, false),
    ("<p a='", "done", "", false, false),
    ("<!--", "done", "", false, false),
];

fn cause(answer: &TokenizerResult<u32>) -> &'static str {
    match answer {
        TokenizerResult::Script(handle) if *handle == SCRIPT_HANDLE => "script",
        TokenizerResult::EncodingIndicator(word) if word.as_str() == ENCODING => "encoding",
        TokenizerResult::Done => "done",
        _ => "another",
    }
}

fn is_begun(alloc: Global, row: &Beginning) -> Result<bool, ParseFault> {
    let sink = Switching::new(alloc, u64::MAX)?;
    let table = ReferenceTable::basic(alloc)?;
    let (answer, rest, is_text, is_idle) = first_answer(alloc, sink, options(), table, row.0)?;
    let is_state = is_text == row.3 && is_idle == row.4;
    Ok(is_state && cause(&answer) == row.1 && rest.as_str() == row.2)
}

#[test]
fn a_tokenizer_pauses_and_emits_its_state(rt: HostRuntime) {
    for row in &BEGINNINGS {
        passes(&rt, is_begun(rt.alloc(), row), row.0);
    }
}

// whether these are the lines of a page that is plain text from a place on
fn is_plain(alloc: Global, front: &str, rest: &str, log: &str) -> Result<bool, ParseFault> {
    let sink = Switching::new(alloc, u64::MAX)?;
    let table = ReferenceTable::basic(alloc)?;
    let sink = fed_plainly(alloc, sink, options(), table, front, rest)?;
    Ok(sink.listed.into_text()?.as_str() == log)
}

#[test]
fn plain_text_may_be_asked_for(rt: HostRuntime) {
    let log = "start\tp\t-\t-\ntext\ta<b>&lt;\u{fffd}\n";
    passes(
        &rt,
        is_plain(rt.alloc(), "<p>a", "<b>&lt;\0", log),
        "plain text",
    );
}

/// Of a page that is emitted to a sink that takes so many tokens, the faults of a feed and of an end. Both again are
/// refused. The page's tokens are a tag, a text, which is emitted before `feed` answers `Done`, and its end.
type Refusal = (u64, Option<ParseFault>, Option<ParseFault>);

static REFUSALS: [Refusal; 4] = [
    (0, Some(ParseFault::Memory), Some(ParseFault::Failed)),
    (1, Some(ParseFault::Memory), Some(ParseFault::Failed)),
    (2, None, Some(ParseFault::Memory)),
    (3, None, None),
];

fn is_refused(alloc: Global, refusal: &Refusal) -> Result<bool, ParseFault> {
    let table = ReferenceTable::basic(alloc)?;
    let sink = Switching::new(alloc, refusal.0)?;
    let mut tokenizer = Tokenizer::new(alloc, sink, options(), table);
    let mut queue = BufferQueue::new(alloc);
    queue.push_back(String::from_str(alloc, "<p>a")?)?;
    let is_fed = tokenizer.feed(&mut queue).err() == refusal.1;
    let is_ended = tokenizer.end().err() == refusal.2;
    let is_failed = tokenizer.feed(&mut queue).err() == Some(ParseFault::Failed);
    Ok(is_fed && is_ended && is_failed && tokenizer.end() == Err(ParseFault::Failed))
}

// nothing is read after the end
fn is_over(alloc: Global) -> Result<bool, ParseFault> {
    let table = ReferenceTable::basic(alloc)?;
    let sink = Switching::new(alloc, u64::MAX)?;
    let mut tokenizer = Tokenizer::new(alloc, sink, options(), table);
    let mut queue = BufferQueue::new(alloc);
    queue.push_back(String::from_str(alloc, "a")?)?;
    tokenizer.end()?;
    let is_refused = tokenizer.feed(&mut queue).err() == Some(ParseFault::Failed);
    let is_over = tokenizer.end() == Err(ParseFault::Failed);
    Ok(is_refused && is_over && queue.peek() == Some('a'))
}

// of a sink that is ready in some states alone
fn are_none_late(alloc: Global) -> Result<bool, ParseFault> {
    let table = ReferenceTable::basic(alloc)?;
    let sink = PreformattedText::new(alloc)?;
    let faults = later_faults(alloc, sink, options(), table, "<pre>\na")?;
    Ok(faults == [None, None, Some(ParseFault::Failed)])
}

// of a sink that refuses the second token
fn are_all_failed(alloc: Global) -> Result<bool, ParseFault> {
    let table = ReferenceTable::basic(alloc)?;
    let sink = Switching::new(alloc, 1)?;
    let faults = later_faults(alloc, sink, options(), table, "<pre>\na")?;
    Ok(faults == [Some(ParseFault::Failed); 3])
}

#[test]
fn a_refusal_lasts(rt: HostRuntime) {
    for refusal in &REFUSALS {
        passes(&rt, is_refused(rt.alloc(), refusal), "a refusal");
    }
    passes(&rt, is_over(rt.alloc()), "the end");
    passes(&rt, are_none_late(rt.alloc()), "a sink that takes all");
    passes(&rt, are_all_failed(rt.alloc()), "a sink that refuses");
}

/// The text that is after the start tag of `pre` loses its first line feed, but not after an error, as in html5ever:
/// the standard knows no error between two tokens.
static LINE_FEEDS: [(&str, &str); 6] = [
    ("<pre>\n\na", "\na"),
    ("<pre>&#10;a", "a"),
    ("<pre>&#10a", "\na"),
    ("<pre></>\na", "\na"),
    ("<p>\na", "\na"),
    ("<pre><b>\na", "\na"),
];

fn is_left_out(alloc: Global, page: &str, text: &str) -> Result<bool, ParseFault> {
    let mut sink = PreformattedText::new(alloc)?;
    let table = ReferenceTable::basic(alloc)?;
    read_plainly(alloc, &mut sink, options(), &table, page)?;
    Ok(sink.text() == text)
}

fn is_left_out_of_pieces(alloc: Global, page: &str, text: &str) -> Result<bool, ParseFault> {
    let sink = PreformattedText::new(alloc)?;
    let table = ReferenceTable::basic(alloc)?;
    let sink = fed(alloc, sink, options(), table, characters(alloc, page)?)?;
    Ok(sink.text() == text)
}

#[test]
fn a_line_feed_is_left_out(rt: HostRuntime) {
    for (page, text) in &LINE_FEEDS {
        passes(&rt, is_left_out(rt.alloc(), page, text), page);
        passes(&rt, is_left_out_of_pieces(rt.alloc(), page, text), page);
    }
}
