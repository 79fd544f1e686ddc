//! Rows that hold also where a request for memory is refused, each in turn: `rt try --test --fail-alloc N`. What stands
//! after a refusal is asked again, where it answers as if there had been none.
use crate::checks::{holds, is_answer, plain};
use crate::devices::page_by;
use crate::piece_rows::tree_of;
use html2text::{Config, Error, PlainDecorator, RcDom, ReferenceTable, TableError};
use std::alloc::Global;

const NAMES: &str = "{\"&not\":{\"codepoints\":[172]},\"&notin;\":{\"codepoints\":[8713]}}";

/// Whether marks are written, whether names of a table are read, the width, a page and its text.
type Row = (bool, bool, usize, &'static [u8], &'static str);

static ROWS: [Row; 4] = [
    (
        true,
        false,
        12,
        b"<table><tr><td>1</td><td>2</td><td>3</td></tr></table>",
        "─┬─┬─\n1│2│3\n─┴─┴─\n",
    ),
    (false, false, 20, b"<p>1<b>2<i>3</b>4</i>5</p>", "12345\n"),
    (
        true,
        true,
        20,
        b"<p>a &notit;&notin; b</p>",
        "a \u{ac}it;\u{2209} b\n",
    ),
    (true, false, 20, SPANNED, SPANNED_TEXT),
];

const SPANNED: &[u8] = b"<table><tr><td rowspan=2>a</td><td>b</td></tr><tr><td>c</td></tr></table>";

const SPANNED_TEXT: &str = "─┬─\na│b\n ├─\n │c\n─┴─\n";

fn table_of(alloc: Global, row: &Row) -> Result<ReferenceTable, Error> {
    if !row.1 {
        return Ok(ReferenceTable::basic(alloc)?);
    }
    match ReferenceTable::from_json(alloc, NAMES) {
        Ok(table) => Ok(table),
        Err(TableError::Memory) => Err(Error::Memory),
        Err(_) => Err(Error::Fail),
    }
}

fn text_of_row(alloc: Global, row: &Row) -> Result<String, Error> {
    let table = table_of(alloc, row)?;
    let config = if row.0 {
        Config::plain(alloc, table)?
    } else {
        Config::plain_no_decorate(alloc, table)
    };
    let mut input = page_by(row.3, 8192);
    config.string_from_read(alloc, &mut input, row.2)
}

// whether a page has its text, or is refused since allocation fails
fn is_answered(alloc: Global, row: &Row) -> bool {
    match text_of_row(alloc, row) {
        Ok(text) => text.as_str() == row.4,
        Err(error) => error == Error::Memory,
    }
}

#[test]
fn pages_are_answered_or_refused(rt: HostRuntime) {
    for row in &ROWS {
        holds(&rt, is_answered(rt.alloc(), row), row.4);
    }
}

/// Texts that are no tables, and what is reported of them.
static TABLES: [(&str, &str); 4] = [
    ("{", "no JSON"),
    ("[]", "no object"),
    ("{\"amp\":{\"codepoints\":[38]}}", "amp"),
    ("{\"&x\":{\"codepoints\":[]}}", "&x"),
];

fn is_fault(error: &TableError, wanted: &str) -> bool {
    match error {
        TableError::NotJson => wanted == "no JSON",
        TableError::NotAnObject => wanted == "no object",
        TableError::BadName(key) => wanted == "amp" && key.as_str() == wanted,
        TableError::BadCodePoints(key) => wanted == "&x" && key.as_str() == wanted,
        TableError::Memory => true,
    }
}

// whether a text has that fault, or there is no memory for it
fn has_fault(alloc: Global, json: &str, wanted: &str) -> bool {
    match ReferenceTable::from_json(alloc, json) {
        Ok(_table) => false,
        Err(error) => is_fault(&error, wanted),
    }
}

#[test]
fn tables_have_their_fault_or_are_refused(rt: HostRuntime) {
    for (json, wanted) in &TABLES {
        holds(&rt, has_fault(rt.alloc(), json, wanted), json);
    }
}

fn text_of(alloc: Global, config: &Config<PlainDecorator>, dom: &RcDom) -> Result<String, Error> {
    let tree = config.dom_to_render_tree(alloc, dom)?;
    config.render_to_string(alloc, tree, 20)
}

#[test]
fn a_refused_page_goes_no_further(rt: HostRuntime) {
    let alloc = rt.alloc();
    let Ok(config) = plain(alloc) else {
        return;
    };
    match tree_of(&rt, alloc, &config, SPANNED) {
        Ok(dom) => {
            let mut text = text_of(alloc, &config, &dom);
            if text == Err(Error::Memory) {
                text = text_of(alloc, &config, &dom);
            }
            holds(&rt, is_answer(text, Ok(SPANNED_TEXT)), "a tree that stands");
        }
        Err(error) => holds(&rt, error == Error::Memory, "a page that is refused"),
    }
}
