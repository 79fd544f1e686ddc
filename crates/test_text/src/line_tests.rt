use crate::checks::passes;
use example_link_counting::LinkNote;
use std::alloc::{AllocError, Global};
use text_decorators::{EqualCopy, TaggedLine, TaggedLineElement, TaggedString};

const PLAIN: LinkNote = LinkNote::Outside;

const STRONG: LinkNote = LinkNote::Link(1);

/// Whether a line has these texts, each ended by `/`, and so many columns.
fn is_line<T: EqualCopy + Drop>(
    alloc: Global,
    line: &TaggedLine<T>,
    texts: &str,
    width: usize,
) -> Result<bool, AllocError> {
    let mut found = String::new(alloc);
    for string in line.tagged_strings() {
        found.push_str(string.s.as_str())?;
        found.push('/')?;
    }
    Ok(line.width() == width && found.as_str() == texts)
}

/// `a漢b` of one tag, and `c` of another.
fn two_tags(alloc: Global) -> Result<TaggedLine<LinkNote>, AllocError> {
    let mut line = TaggedLine::new(alloc);
    line.push_str("a漢", &PLAIN)?;
    line.push_char('b', &PLAIN)?;
    line.push_str("", &STRONG)?;
    line.push_char('c', &STRONG)?;
    Ok(line)
}

fn do_equal_tags_join(alloc: Global) -> Result<bool, AllocError> {
    let mut line = two_tags(alloc)?;
    let is_so = is_line(alloc, &line, "a漢b/c/", 5)? && !line.is_empty();
    line.clear();
    Ok(is_so && line.is_empty() && line.width() == 0)
}

fn line_of(alloc: Global, text: &str) -> Result<TaggedLine<LinkNote>, AllocError> {
    TaggedLine::from_string(alloc, String::from_str(alloc, text)?, &PLAIN)
}

fn do_lines_join(alloc: Global) -> Result<bool, AllocError> {
    let mut line = line_of(alloc, "ab")?;
    let mut other = line_of(alloc, "cd")?;
    let is_copied = other.try_clone()? == other && line != other;
    line.push_line(&other)?;
    let is_joined = is_line(alloc, &line, "abcd/", 4)?;
    other.push_char('漢', &STRONG)?;
    line.push_line(&other)?;
    line.push_line(&other)?;
    Ok(is_copied && is_joined && is_line(alloc, &line, "abcdcd/漢/cd/漢/", 12)?)
}

fn are_plain(line: &TaggedLine<LinkNote>) -> bool {
    for string in line.tagged_strings() {
        if string.tag != PLAIN {
            return false;
        }
    }
    line.iter().count() == 2
}

fn do_tags_change_alone(alloc: Global) -> Result<bool, AllocError> {
    let plain = two_tags(alloc)?.map_tag(&|_| PLAIN)?;
    let is_so = is_line(alloc, &plain, "a漢b/c/", 5)? && are_plain(&plain);
    Ok(is_so && plain.into_iter().count() == 2)
}

fn is_string(alloc: Global) -> Result<bool, AllocError> {
    let string = TaggedString {
        s: String::from_str(alloc, "漢")?,
        tag: PLAIN,
    };
    let is_copy = string.try_clone()? == string && string.width() == 2;
    Ok(is_copy && string.map_tag(&|_| STRONG).tag == STRONG)
}

fn is_element(alloc: Global) -> Result<bool, AllocError> {
    let element = TaggedLineElement::Str(TaggedString {
        s: String::from_str(alloc, "漢")?,
        tag: PLAIN,
    });
    let is_copy = element.try_clone()? == element && element.width() == 2;
    Ok(is_copy && element.map_tag(&|_| STRONG).as_str() == "漢")
}

fn are_lists_tags(alloc: Global) -> Result<bool, AllocError> {
    let none: Vec<()> = Vec::new(alloc);
    let one = vec![in alloc; ()]?;
    let is_copied = one.copy(alloc)? == one;
    let mut line = TaggedLine::new(alloc);
    line.push_char('a', &none)?;
    line.push_char('b', &none)?;
    line.push_char('c', &one)?;
    Ok(is_copied && is_line(alloc, &line, "ab/c/", 3)? && line.try_clone()? == line)
}

fn do_texts_move(alloc: Global) -> Result<bool, AllocError> {
    let mut line = line_of(alloc, "cd")?;
    line.reserve(8)?;
    line.push_front("ab", &PLAIN)?;
    let is_joined = is_line(alloc, &line, "abcd/", 4)?;
    line.push_front("漢", &STRONG)?;
    let is_apart = is_line(alloc, &line, "漢/abcd/", 6)?;
    line.append_marker(String::from_str(alloc, "m")?)?;
    let mut moved = TaggedLine::new(alloc);
    moved.append(&mut line)?;
    let is_empty = line.is_empty() && line.width() == 0;
    let is_whole = is_line(alloc, &moved, "漢/abcd/", 6)? && moved.iter().count() == 3;
    let kept = moved.into_only_text();
    let taken = line_of(alloc, "ab")?.into_only_text();
    let is_so = is_whole && kept.is_err() && taken.is_ok();
    Ok(is_joined && is_apart && is_empty && is_so)
}

#[test]
fn lines_and_tags(rt: HostRuntime) {
    let alloc = rt.alloc();
    passes(&rt, do_equal_tags_join(alloc), "equal tags");
    passes(&rt, do_lines_join(alloc), "lines that join");
    passes(&rt, do_texts_move(alloc), "texts that move");
    passes(&rt, do_tags_change_alone(alloc), "other tags");
    passes(&rt, is_string(alloc), "a text");
    passes(&rt, is_element(alloc), "an element");
    passes(&rt, are_lists_tags(alloc), "lists of tags");
}
