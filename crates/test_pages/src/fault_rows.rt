//! Which values are articles, and which fault of the others is the first.
use crate::articles::{Step, article_of};
use crate::trees::{holds, passes};
use html2text::{ArticleError, Block};
use std::alloc::{AllocError, Global};

/// A title, the steps that build the blocks, and the first fault.
type Row = (Option<&'static str>, &'static [Step], Option<ArticleError>);

/// Values that take little memory.
static SMALL: [Row; 25] = [
    (
        None,
        &[Step::Text("a"), Step::Text("b"), Step::Paragraph],
        Some(ArticleError::NeighbourTexts),
    ),
    (None, &[Step::NoBullets], Some(ArticleError::EmptyList)),
    (None, &[Step::NoNumbers], Some(ArticleError::EmptyList)),
    (
        None,
        &[Step::Text(""), Step::Paragraph],
        Some(ArticleError::EmptyText),
    ),
    (Some("a\0"), &[], Some(ArticleError::ForbiddenCharacter)),
    (Some("\ra"), &[], Some(ArticleError::ForbiddenCharacter)),
    (
        None,
        &[Step::Text("a\0b"), Step::Paragraph],
        Some(ArticleError::ForbiddenCharacter),
    ),
    (
        None,
        &[Step::Text("a\r"), Step::Code, Step::Heading(2)],
        Some(ArticleError::ForbiddenCharacter),
    ),
    (
        None,
        &[Step::Text("a"), Step::Link("\0"), Step::Paragraph],
        Some(ArticleError::ForbiddenCharacter),
    ),
    (
        None,
        &[Step::Text("a"), Step::Link("b\rc"), Step::Paragraph],
        Some(ArticleError::ForbiddenCharacter),
    ),
    (
        None,
        &[Step::Link("a"), Step::Link("b"), Step::Paragraph],
        Some(ArticleError::LinkInLink),
    ),
    (
        None,
        &[
            Step::Text("a"),
            Step::Link("b"),
            Step::Bolds(1),
            Step::Break,
            Step::Italic,
            Step::Link("c"),
            Step::Paragraph,
        ],
        Some(ArticleError::LinkInLink),
    ),
    (
        None,
        &[Step::Text("a"), Step::Heading(0)],
        Some(ArticleError::BadLevel),
    ),
    (
        None,
        &[Step::Text("a"), Step::Heading(7)],
        Some(ArticleError::BadLevel),
    ),
    (None, &[], None),
    (Some(""), &[], None),
    (
        Some("a <b> \n"),
        &[Step::Text("a <b> \n"), Step::Paragraph],
        None,
    ),
    (None, &[Step::Paragraph], None),
    (None, &[Step::Heading(1), Step::Heading(6)], None),
    (None, &[Step::Divisions(1)], None),
    (None, &[Step::Bullets(1)], None),
    (None, &[Step::Bullets(1), Step::Numbers], None),
    (
        None,
        &[
            Step::Text("a"),
            Step::Break,
            Step::Text("b"),
            Step::Paragraph,
        ],
        None,
    ),
    (
        None,
        &[
            Step::Text("a"),
            Step::Emphasis,
            Step::Text("b"),
            Step::Paragraph,
        ],
        None,
    ),
    (
        None,
        &[
            Step::Text("a"),
            Step::Link(""),
            Step::Text("b"),
            Step::Paragraph,
        ],
        None,
    ),
];

/// Deep values, and values with more faults than one.
static OTHERS: [Row; 26] = [
    (
        None,
        &[Step::NoBullets, Step::Numbers, Step::Divisions(3)],
        Some(ArticleError::EmptyList),
    ),
    (None, &[Step::Divisions(257)], Some(ArticleError::TooDeep)),
    (
        None,
        &[Step::Text("a"), Step::Paragraph, Step::Divisions(255)],
        Some(ArticleError::TooDeep),
    ),
    (
        None,
        &[Step::Break, Step::Paragraph, Step::Divisions(255)],
        Some(ArticleError::TooDeep),
    ),
    (
        None,
        &[
            Step::Text("a"),
            Step::Heading(1),
            Step::Bullets(1),
            Step::Divisions(254),
        ],
        Some(ArticleError::TooDeep),
    ),
    (
        None,
        &[Step::Divisions(1000000)],
        Some(ArticleError::TooDeep),
    ),
    (None, &[Step::Bullets(1000000)], Some(ArticleError::TooDeep)),
    (
        None,
        &[Step::Bolds(1000000), Step::Paragraph],
        Some(ArticleError::TooDeep),
    ),
    (
        Some("\0"),
        &[Step::NoBullets],
        Some(ArticleError::ForbiddenCharacter),
    ),
    (
        None,
        &[Step::Text("a"), Step::Text(""), Step::Paragraph],
        Some(ArticleError::EmptyText),
    ),
    (
        None,
        &[Step::Text("a"), Step::Text("\0"), Step::Paragraph],
        Some(ArticleError::NeighbourTexts),
    ),
    (
        None,
        &[Step::Text("\0"), Step::Text("a"), Step::Paragraph],
        Some(ArticleError::ForbiddenCharacter),
    ),
    (
        None,
        &[
            Step::Text("\0"),
            Step::Break,
            Step::Text(""),
            Step::Paragraph,
        ],
        Some(ArticleError::ForbiddenCharacter),
    ),
    (
        None,
        &[Step::Link("\0"), Step::Link("a"), Step::Paragraph],
        Some(ArticleError::ForbiddenCharacter),
    ),
    (
        None,
        &[Step::Text(""), Step::Heading(9)],
        Some(ArticleError::BadLevel),
    ),
    (
        None,
        &[
            Step::NoBullets,
            Step::Heading(0),
            Step::Divisions(2),
            Step::NoNumbers,
        ],
        Some(ArticleError::EmptyList),
    ),
    (
        None,
        &[Step::Heading(0), Step::NoBullets, Step::Bullets(1)],
        Some(ArticleError::BadLevel),
    ),
    (
        None,
        &[Step::Text(""), Step::Paragraph, Step::Divisions(255)],
        Some(ArticleError::EmptyText),
    ),
    (
        None,
        &[
            Step::Text("a"),
            Step::Text("b"),
            Step::Paragraph,
            Step::Divisions(255),
        ],
        Some(ArticleError::TooDeep),
    ),
    (
        None,
        &[Step::Text("\0"), Step::Paragraph, Step::Divisions(255)],
        Some(ArticleError::ForbiddenCharacter),
    ),
    (
        None,
        &[
            Step::Link("a"),
            Step::Link("b"),
            Step::Paragraph,
            Step::Divisions(254),
        ],
        Some(ArticleError::LinkInLink),
    ),
    (
        None,
        &[Step::Heading(7), Step::Divisions(256)],
        Some(ArticleError::BadLevel),
    ),
    (
        None,
        &[Step::NoNumbers, Step::Bullets(1), Step::Divisions(255)],
        Some(ArticleError::EmptyList),
    ),
    (None, &[Step::Divisions(256)], None),
    (
        None,
        &[Step::Text("a"), Step::Paragraph, Step::Divisions(254)],
        None,
    ),
    (
        None,
        &[
            Step::Text("a"),
            Step::Heading(1),
            Step::Bullets(1),
            Step::Divisions(253),
        ],
        None,
    ),
];

// whether a value has the fault of its row; with `may_lack` also whether there is no memory for it
fn is_answered(alloc: Global, row: &Row, may_lack: bool) -> bool {
    match article_of(alloc, row.0, row.1) {
        Ok(article) => article.err() == row.2,
        Err(AllocError) => may_lack,
    }
}

#[test]
fn a_fault_is_reported(rt: HostRuntime) {
    for (at, row) in SMALL.iter().enumerate() {
        holds(&rt, is_answered(rt.alloc(), row, false), at);
    }
}

#[test]
fn the_first_fault_is_reported(rt: HostRuntime) {
    for (at, row) in OTHERS.iter().enumerate() {
        holds(&rt, is_answered(rt.alloc(), row, false), at);
    }
}

/// This one holds also where a request for memory is refused, each in turn: `rt try --test --fail-alloc N`. An article
/// takes no memory of its own, so that what was built has its own answer.
#[test]
fn a_refused_growth_changes_no_answer(rt: HostRuntime) {
    for (at, row) in SMALL.iter().enumerate() {
        holds(&rt, is_answered(rt.alloc(), row, true), at);
    }
}

static PARTS: [Step; 3] = [Step::Text("b"), Step::Heading(3), Step::Paragraph];

fn is_kept(alloc: Global) -> Result<bool, AllocError> {
    let Ok(article) = article_of(alloc, Some("a"), &PARTS)? else {
        return Ok(false)
    };
    let Ok(nameless) = article_of(alloc, None, &[])? else {
        return Ok(false)
    };
    let [first, second] = article.blocks() else {
        return Ok(false)
    };
    let is_so = matches!(first, Block::Heading(3, _)) && matches!(second, Block::Paragraph(_));
    Ok(
        is_so
            && article.title() == Some("a")
            && nameless.title() == None
            && nameless.blocks().is_empty(),
    )
}

fn has_text(alloc: Global) -> Result<bool, AllocError> {
    let text = ArticleError::BadLevel.to_string(alloc)?;
    Ok(text.as_str() == "a heading's level is not 1 to 6")
}

#[test]
fn articles_have_parts_and_faults_a_text(rt: HostRuntime) {
    passes(&rt, is_kept(rt.alloc()), 0);
    passes(&rt, has_text(rt.alloc()), 1);
}
