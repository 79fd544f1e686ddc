//! An article that is written where there is room for it, where there is less, and where memory is refused. What is
//! written of others stands in the stored run of articles.
use crate::articles::{Step, article_of};
use crate::trees::holds;
use html_lexemes::Device;
use html2text::{Article, WriteArticle};
use std::alloc::Global;
use std::io::Cursor;
use tree_serializer::SerializeFault;

/// A link with a quote in its target, and texts that look like markup.
static QUOTED: [Step; 7] = [
    Step::Text("dddd    <b>"),
    Step::Link("x\"y&"),
    Step::Text("bb  1bb1"),
    Step::Paragraph,
    Step::Paragraph,
    Step::Text(".ffffffffffff    &#65;"),
    Step::Paragraph,
];

/// What an independent model writes of it.
const PAGE: &str = "<!DOCTYPE html><html><head></head><body><p><a href=\"x&quot;y&amp;\">dddd    \
    &lt;b&gt;</a>bb  1bb1</p><p></p><p>.ffffffffffff    &amp;#65;</p></body></html>";

// room for the page
const ROOM: usize = 256;

/// What came of writing it.
#[derive(Clone, Copy)]
struct Written {
    fault: Option<SerializeFault>,
    length: usize,
    is_beginning: bool,
}

impl Written {
    fn is_whole(&self) -> bool {
        self.fault.is_none() && self.is_beginning && self.length == PAGE.len()
    }
}

// the article, written where there is room for so many bytes
fn written_in(alloc: Global, article: &Article, room: usize) -> Written {
    let mut bytes = [0u8; ROOM];
    let mut writer = Device::new(Cursor::new(&mut bytes[..room.min(ROOM)]));
    let fault = article.write_html(alloc, &mut writer).err();
    let position = writer.into_inner().position();
    let length = usize::try_from(position).unwrap_or(ROOM).min(ROOM);
    Written {
        fault,
        length,
        is_beginning: PAGE.as_bytes().starts_with(&bytes[..length]),
    }
}

// Whether each room that is too small is filled with a beginning: the writer takes a part of the write that it has too
// little room for, and then nothing.
fn is_cut_everywhere(alloc: Global) -> bool {
    let Ok(Ok(article)) = article_of(alloc, None, &QUOTED) else {
        return false;
    };
    for room in 0..PAGE.len() {
        let cut = written_in(alloc, &article, room);
        let is_reported = cut.fault == Some(SerializeFault::Write);
        if !is_reported || !cut.is_beginning || cut.length != room {
            return false;
        }
    }
    written_in(alloc, &article, PAGE.len()).is_whole()
}

#[test]
fn a_writer_that_fails_has_a_beginning(rt: HostRuntime) {
    holds(&rt, is_cut_everywhere(rt.alloc()), 0);
}

// whether a refused growth is reported, and the article stands
fn is_whole_or_refused(alloc: Global) -> bool {
    let Ok(Ok(article)) = article_of(alloc, None, &QUOTED) else {
        return true;
    };
    let first = written_in(alloc, &article, ROOM);
    if first.is_whole() {
        return true;
    }
    let is_reported = first.fault == Some(SerializeFault::Memory) && first.is_beginning;
    is_reported && written_in(alloc, &article, ROOM).is_whole()
}

/// This one holds also where a request for memory is refused, each in turn: `rt try --test --fail-alloc N`.
#[test]
fn a_refused_growth_is_reported(rt: HostRuntime) {
    holds(&rt, is_whole_or_refused(rt.alloc()), 0);
}
