use crate::checks::{holds, passes};
use example_link_counting::{LinkCounter, LinkNote, counted_links, link, two_links};
use std::alloc::{AllocError, Global};
use text_decorators::{
    Colour, PlainDecorator, RichAnnotation, RichDecorator, TextDecorator, TrivialDecorator,
};

pub(crate) const ORANGE: Colour = Colour {
    r: 0xff,
    g: 0x80,
    b: 0,
};

/// Adds the marks of a part with an `x` between them and a space after it, and its annotation.
fn add<A: Drop>(
    marks: &mut String,
    notes: &mut Vec<A>,
    start: Result<(String, A), AllocError>,
    end: Result<String, AllocError>,
) -> Result<(), AllocError> {
    let (start, note) = start?;
    let end = end?;
    notes.push(note)?;
    marks.push_str(start.as_str())?;
    marks.push('x')?;
    marks.push_str(end.as_str())?;
    marks.push(' ')
}

/// Adds the marks and annotations of a link, of inline parts and of an image.
fn add_marks<D: TextDecorator>(
    alloc: Global,
    decorator: &mut D,
    marks: &mut String,
    notes: &mut Vec<D::Annotation>,
) -> Result<(), AllocError> {
    let start = decorator.decorate_link_start(alloc, "u");
    add(marks, notes, start, decorator.decorate_link_end(alloc))?;
    let start = decorator.decorate_em_start(alloc);
    add(marks, notes, start, decorator.decorate_em_end(alloc))?;
    let start = decorator.decorate_strong_start(alloc);
    add(marks, notes, start, decorator.decorate_strong_end(alloc))?;
    let start = decorator.decorate_strikeout_start(alloc);
    add(marks, notes, start, decorator.decorate_strikeout_end(alloc))?;
    let start = decorator.decorate_code_start(alloc);
    add(marks, notes, start, decorator.decorate_code_end(alloc))?;
    let start = decorator.decorate_superscript_start(alloc);
    add(
        marks,
        notes,
        start,
        decorator.decorate_superscript_end(alloc),
    )?;
    let (text, note) = decorator.decorate_image(alloc, "s", "t")?;
    notes.push(note)?;
    marks.push_str(text.as_str())
}

/// Adds the annotations that have no text.
fn add_notes<D: TextDecorator>(
    alloc: Global,
    decorator: &mut D,
    notes: &mut Vec<D::Annotation>,
) -> Result<(), AllocError> {
    notes.push(decorator.decorate_preformat_first(alloc)?)?;
    notes.push(decorator.decorate_preformat_cont(alloc)?)?;
    if let Some(note) = decorator.push_colour(alloc, ORANGE)? {
        notes.push(note)?;
    }
    if let Some(note) = decorator.push_bgcolour(alloc, ORANGE)? {
        notes.push(note)?;
    }
    Ok(())
}

fn add_prefix(prefixes: &mut String, prefix: Result<String, AllocError>) -> Result<(), AllocError> {
    prefixes.push_str(prefix?.as_str())?;
    prefixes.push('|')
}

/// The prefixes of headings, a quote and items, each ended by `|`.
fn prefixes_of<D: TextDecorator>(alloc: Global, decorator: &D) -> Result<String, AllocError> {
    let mut prefixes = String::new(alloc);
    add_prefix(&mut prefixes, decorator.header_prefix(alloc, 1))?;
    add_prefix(&mut prefixes, decorator.header_prefix(alloc, 3))?;
    add_prefix(&mut prefixes, decorator.quote_prefix(alloc))?;
    add_prefix(&mut prefixes, decorator.unordered_item_prefix(alloc))?;
    add_prefix(&mut prefixes, decorator.ordered_item_prefix(alloc, 10))?;
    add_prefix(&mut prefixes, decorator.ordered_item_prefix(alloc, -7))?;
    Ok(prefixes)
}

/// The lines after a page with two links, each ended by `|`.
fn lines_after<D: TextDecorator>(alloc: Global, decorator: &mut D) -> Result<String, AllocError> {
    let mut urls = Vec::new(alloc);
    urls.push(String::from_str(alloc, "u")?)?;
    urls.push(String::from_str(alloc, "v")?)?;
    let mut text = String::new(alloc);
    for line in &decorator.finalise(alloc, urls)? {
        for string in line.tagged_strings() {
            text.push_str(string.s.as_str())?;
        }
        text.push('|')?;
    }
    Ok(text)
}

// Whether the sub-decorator of a clone gives these marks, prefixes and annotations, and ends its colours.
fn answers_are<D: TextDecorator + Clone + Drop>(
    alloc: Global,
    decorator: &D,
    marks: &str,
    prefixes: &str,
    notes: &[D::Annotation],
    ends_colours: bool,
) -> Result<bool, AllocError> {
    let mut sub = decorator.clone()?.make_subblock_decorator(alloc)?;
    let mut text = String::new(alloc);
    let mut given = Vec::new(alloc);
    add_marks(alloc, &mut sub, &mut text, &mut given)?;
    add_notes(alloc, &mut sub, &mut given)?;
    let is_so = text.as_str() == marks && given.as_slice() == notes;
    let is_so = is_so && prefixes_of(alloc, &sub)?.as_str() == prefixes;
    let is_so = is_so && sub.pop_colour() == ends_colours && sub.pop_bgcolour() == ends_colours;
    Ok(is_so && lines_after(alloc, &mut sub)?.as_str() == "[1]: u|[2]: v|")
}

const PREFIXES: &str = "# |### |> |* |10. |-7. |";

const BARE: &str = "x x x x x ^{x} t";

fn is_rich(alloc: Global) -> Result<bool, AllocError> {
    let notes = rich_notes(alloc)?;
    answers_are(alloc, &RichDecorator::new(), BARE, PREFIXES, &notes, true)
}

fn is_plain(alloc: Global) -> Result<bool, AllocError> {
    let marks = "[x] x x x x ^{x} [t]";
    answers_are(
        alloc,
        &PlainDecorator::new(),
        marks,
        PREFIXES,
        &[(); 9],
        false,
    )
}

fn is_trivial(alloc: Global) -> Result<bool, AllocError> {
    answers_are(
        alloc,
        &TrivialDecorator::new(),
        BARE,
        "||||||",
        &[(); 9],
        false,
    )
}

fn is_counter(alloc: Global) -> Result<bool, AllocError> {
    let marks = "[x][1] x x x x ^{x} [t]";
    let mut notes = [LinkNote::Outside; 9];
    notes[0] = LinkNote::Link(1);
    answers_are(alloc, &LinkCounter::new(), marks, PREFIXES, &notes, false)
}

// The answers of html2text; the counter marks links and notes in its own way, and the rest as plain text does.
#[test]
fn answers_of_each_decorator(rt: HostRuntime) {
    let alloc = rt.alloc();
    passes(&rt, is_plain(alloc), "plain");
    passes(&rt, is_trivial(alloc), "trivial");
    passes(&rt, is_rich(alloc), "rich");
    passes(&rt, is_counter(alloc), "a counter");
}

/// The annotations that rich text gives to a link, inline parts, an image, texts as they are laid out, and colours.
pub(crate) fn rich_notes(alloc: Global) -> Result<Vec<RichAnnotation>, AllocError> {
    let notes = vec![in alloc;
        RichAnnotation::Link(String::from_str(alloc, "u")?),
        RichAnnotation::Emphasis,
        RichAnnotation::Strong,
        RichAnnotation::Strikeout,
        RichAnnotation::Code,
        RichAnnotation::Default,
        RichAnnotation::Image(String::from_str(alloc, "s")?),
        RichAnnotation::Preformat(false),
        RichAnnotation::Preformat(true),
        RichAnnotation::Colour(ORANGE),
        RichAnnotation::BgColour(ORANGE),
    ]?;
    Ok(notes)
}

/// The texts of two links.
type Links = Result<(String, String), AllocError>;

// links by a counter and by its sub-decorator
fn links_of_a_part(alloc: Global) -> Links {
    let mut counter = LinkCounter::new();
    let first = link(alloc, &mut counter, "u", "a")?;
    let mut sub = counter.make_subblock_decorator(alloc)?;
    let second = link(alloc, &mut sub, "v", "b")?;
    Ok((first, second))
}

fn are(links: Links, first: &str, second: &str) -> bool {
    match links {
        Ok((one, other)) => one.as_str() == first && other.as_str() == second,
        Err(_error) => false,
    }
}

#[test]
fn a_second_link(rt: HostRuntime) {
    let alloc = rt.alloc();
    let plain = two_links(alloc, &mut PlainDecorator::new(), "u", "a");
    holds(&rt, are(plain, "[a]", "[a]"), "plain");
    let rich = two_links(alloc, &mut RichDecorator::new(), "u", "a");
    holds(&rt, are(rich, "a", "a"), "rich");
    let counted = counted_links(alloc, "u", "a");
    holds(&rt, are(counted, "[a][1]", "[a][2]"), "a counter");
    let of_a_part = links_of_a_part(alloc);
    holds(&rt, are(of_a_part, "[a][1]", "[b][2]"), "a part's");
}

/// This one holds also where a request for memory is refused, each in turn: `rt try --test --fail-alloc N`.
#[test]
fn a_refused_link_is_not_counted(rt: HostRuntime) {
    let alloc = rt.alloc();
    let mut counter = LinkCounter::new();
    let mut links: usize = 0;
    for _ in 0..3 {
        if counter.decorate_link_start(alloc, "u").is_ok() {
            links = links.saturating_add(1);
        }
        if let Ok(end) = counter.decorate_link_end(alloc) {
            let ends = ["][0]", "][1]", "][2]", "][3]"];
            holds(&rt, ends.get(links) == Some(&end.as_str()), "a link's end");
        }
    }
}
