//! Each call that finds parse errors. What is found in lexemes and texts stands in the cases `tokens` of stored_rows.
use crate::checks::{holds, passes};
use html_lexemes::states::{RawKind, ScriptEscapeKind, State};
use html_lexemes::{ReferenceTable, TableError, TagKind};
use std::alloc::{AllocError, Global};
use token_errors::{FoundError, ParseErrors};

/// What a row's text is.
#[derive(Clone, Copy)]
enum Lexeme {
    StartTag,
    EndTag,
    Comment,
    Bogus,
    Doctype,
    Reference,
    LastReference,
}

/// A lexeme, its text, and how many errors are found there, in the plain and in the exact wording.
type Row = (Lexeme, &'static str, usize, usize);

static ROWS: [Row; 7] = [
    (Lexeme::StartTag, "a b=c b=d\u{1}>", 1, 2),
    (Lexeme::EndTag, "a b=&xy; b='&#0;'/>", 5, 5),
    (Lexeme::Comment, "\0\u{1}", 2, 3),
    (Lexeme::Bogus, ">", 1, 1),
    (Lexeme::Doctype, ">", 1, 1),
    (Lexeme::Reference, "xy;", 1, 1),
    (Lexeme::LastReference, "#", 1, 1),
];

fn find(
    errors: &mut ParseErrors,
    table: &ReferenceTable,
    lexeme: Lexeme,
    text: &str,
) -> Result<(), AllocError> {
    match lexeme {
        Lexeme::StartTag => errors.in_tag(table, TagKind::StartTag, text, true, 1),
        Lexeme::EndTag => errors.in_tag(table, TagKind::EndTag, text, true, 1),
        Lexeme::Comment => errors.in_comment(text, 1),
        Lexeme::Bogus => errors.in_bogus_comment(State::EndTagOpen, text, 1),
        Lexeme::Doctype => errors.in_doctype(text, 1),
        Lexeme::Reference => errors.in_reference(table, text, 1),
        Lexeme::LastReference => errors.in_last_reference(table, text, 1),
    }
}

// whether so many errors are found in a lexeme, or fewer, where memory is refused
fn are_found(alloc: Global, exact: bool, row: &Row) -> Result<bool, TableError> {
    let table = ReferenceTable::basic(alloc)?;
    let mut errors = ParseErrors::new(alloc, exact);
    let (lexeme, text, plain_count, exact_count) = *row;
    let count = if exact { exact_count } else { plain_count };
    match find(&mut errors, &table, lexeme, text) {
        Ok(()) => Ok(errors.take().len() == count),
        Err(AllocError) => Ok(errors.take().len() < count),
    }
}

/// This one holds also where a request for memory is refused, each in turn: `rt try --test --fail-alloc N`.
#[test]
fn refused_memory_is_reported(rt: HostRuntime) {
    for row in &ROWS {
        let plain = are_found(rt.alloc(), false, row).unwrap_or(true);
        let exact = are_found(rt.alloc(), true, row).unwrap_or(true);
        holds(&rt, plain && exact, row.1);
    }
}

/// What is read in text.
enum Sign {
    /// A `<` that is text, before a character or the end.
    TagOpen(Option<char>),
    /// A `</` at the end.
    EndTagOpen,
    Text(State, char),
    End(State),
}

const ESCAPED: State = State::RawData(RawKind::ScriptDataEscaped(ScriptEscapeKind::Escaped));

const DASH: State = State::ScriptDataEscapedDash(ScriptEscapeKind::DoubleEscaped);

/// Signs, one after the other, and their lines.
static SIGNS: [(Sign, u64); 17] = [
    (Sign::TagOpen(Some('1')), 1),
    (Sign::TagOpen(Some('\n')), 1),
    (Sign::TagOpen(None), 3),
    (Sign::EndTagOpen, 4),
    (Sign::TagOpen(Some('\u{1}')), u64::MAX),
    (Sign::Text(State::Data, '\u{1}'), 5),
    (Sign::Text(State::Data, '\u{1}'), 6),
    (Sign::TagOpen(Some('\0')), 7),
    (Sign::Text(State::Data, '\0'), 7),
    (Sign::Text(ESCAPED, '\0'), 8),
    (Sign::Text(DASH, '\0'), 8),
    (Sign::End(State::Plaintext), 9),
    (Sign::End(State::CdataSectionEnd), 9),
    (Sign::End(ESCAPED), 9),
    (
        Sign::End(State::ScriptDataEscapeStart(ScriptEscapeKind::Escaped)),
        9,
    ),
    (Sign::End(State::ScriptDataDoubleEscapeEnd), 9),
    (Sign::End(DASH), 9),
];

static FOUND: [(u64, &str); 15] = [
    (1, "Saw 1 in state TagOpen"),
    (2, "Saw \n in state TagOpen"),
    (3, "Saw EOF in state TagOpen"),
    (4, "Saw EOF in state EndTagOpen"),
    (u64::MAX, "Bad character \u{1}"),
    (u64::MAX, "Saw \u{1} in state TagOpen"),
    (6, "Bad character \u{1}"),
    (7, "Saw \0 in state TagOpen"),
    (7, "Saw \0 in state Data"),
    (8, "Saw \0 in state RawData(ScriptDataEscaped(Escaped))"),
    (8, "Saw \0 in state ScriptDataEscapedDash(DoubleEscaped)"),
    (9, "Saw EOF in state CdataSection"),
    (9, "Saw EOF in state RawData(ScriptDataEscaped(Escaped))"),
    (
        9,
        "Saw EOF in state RawData(ScriptDataEscaped(DoubleEscaped))",
    ),
    (9, "Saw EOF in state ScriptDataEscapedDash(DoubleEscaped)"),
];

fn find_at(errors: &mut ParseErrors, sign: &Sign, line: u64) -> Result<(), AllocError> {
    match *sign {
        Sign::TagOpen(next) => errors.at_tag_open(next, line),
        Sign::EndTagOpen => errors.at_end_tag_open(line),
        Sign::Text(state, c) => errors.at_text(state, c, line),
        Sign::End(state) => errors.at_end(state, line),
    }
}

fn find_all(errors: &mut ParseErrors, signs: &[(Sign, u64)]) -> Result<bool, AllocError> {
    for (sign, line) in signs {
        find_at(errors, sign, *line)?;
    }
    Ok(!errors.is_empty())
}

// whether these are the lines and the texts of all that was found
fn are_errors(found: &[FoundError], wanted: &[(u64, &str)]) -> bool {
    for (error, (line, message)) in found.iter().zip(wanted) {
        if error.line != *line || error.message.as_str() != *message {
            return false;
        }
    }
    found.len() == wanted.len()
}

// a name that the table lacks is watched up to the lexeme after it
fn is_watched(alloc: Global) -> Result<bool, TableError> {
    let table = ReferenceTable::basic(alloc)?;
    let mut errors = ParseErrors::new(alloc, true);
    errors.in_reference(&table, "x", 1)?;
    let is_heeded = errors.heeds('b');
    errors.in_comment("-->", 1)?;
    Ok(is_heeded && !errors.heeds('b') && errors.is_empty())
}

#[test]
fn errors_of_signs_are_found(rt: HostRuntime) {
    let mut errors = ParseErrors::new(rt.alloc(), true);
    passes(&rt, find_all(&mut errors, &SIGNS), "what was found");
    let is_so = are_errors(errors.take().as_slice(), &FOUND);
    holds(&rt, is_so && errors.is_empty(), "what is reported");
    passes(&rt, is_watched(rt.alloc()), "a name");
}
