//! Tokens and errors of texts.
use crate::cuts::{Reading, has_word, lines_however_cut};
use anyhow::{Result, bail};
use html_lexemes::states::{RawKind, State};
use html_lexemes::{LocalName, ReferenceTable};
use html_tokenizer::{TokenizerOpts, read_pieces, read_plainly};
use std::alloc::Global;
use test_fields::{NO_TEXT, unescaped};
use test_token_lines::{Listed, Listing, lines_of};
use test_token_sinks::KeptTokens;

/// How a text is read, and what of it has lines.
#[derive(Drop)]
struct Tokenizing<'a> {
    /// Whether its tokens, its errors or both.
    listing: Listing,
    opts: TokenizerOpts,
    /// Whether the adjusted current node is foreign.
    is_foreign: bool,
    /// The name of the table of references.
    table: &'a str,
}

/// The lines on a row's text. A row has five fields, after a word where not its tokens alone have lines: the state to
/// begin in, the name of the last start tag or `\N`, `foreign` or `-`, the table of references, and the text. Tokens
/// are also read by the plain reader.
pub fn answer(alloc: Global, row: &str) -> Result<String> {
    let (listing, exact_errors, row) = listing_of(row);
    let mut fields = row.split('\t');
    let (Some(state), Some(last), Some(foreign), Some(table), Some(text), None) = (
        fields.next(),
        fields.next(),
        fields.next(),
        fields.next(),
        fields.next(),
        fields.next(),
    ) else {
        bail!("a text's row has five fields");
    };
    let tokenizing = Tokenizing {
        listing,
        opts: TokenizerOpts {
            exact_errors,
            discard_bom: true,
            initial_state: Some(state_of(state)?),
            last_start_tag_name: name_of(alloc, last)?,
        },
        is_foreign: has_word(foreign, "foreign")?,
        table,
    };
    tokenizing.lines_of_text(alloc, unescaped(alloc, text)?.as_str())
}

impl<'a> Tokenizing<'a> {
    fn lines_of_text(&self, alloc: Global, text: &str) -> Result<String> {
        let lines = lines_however_cut(alloc, self, text, usize::MAX)?;
        if self.listing == Listing::Tokens && self.lines_read_plainly(alloc, text)? != lines {
            bail!("the plain reader has other lines");
        }
        Ok(lines)
    }

    fn lines_read_plainly(&self, alloc: Global, text: &str) -> Result<String> {
        let mut sink = KeptTokens::new(alloc, self.is_foreign);
        let table = table_of(alloc, self.table)?;
        read_plainly(alloc, &mut sink, self.opts.try_clone()?, &table, text)?;
        Ok(lines_of(alloc, sink.tokens())?)
    }
}

/// The sinks ask for no pause.
impl<'a> Reading for Tokenizing<'a> {
    fn lines(&self, alloc: Global, pieces: Vec<String>) -> Result<String> {
        let opts = self.opts.try_clone()?;
        let table = table_of(alloc, self.table)?;
        if self.listing == Listing::Tokens {
            let sink = KeptTokens::new(alloc, self.is_foreign);
            let kept = read_pieces(alloc, sink, opts, table, pieces)?;
            return Ok(lines_of(alloc, kept.tokens())?);
        }
        let sink = Listed::new(alloc, self.listing, self.is_foreign);
        let listed = read_pieces(alloc, sink, opts, table, pieces)?;
        Ok(listed.into_text()?)
    }
}

// what has lines, whether in the exact wording, and the fields after the word that says so
fn listing_of(row: &str) -> (Listing, bool, &str) {
    match row.split_once('\t') {
        Some(("errors", fields)) => (Listing::Errors, false, fields),
        Some(("exact_errors", fields)) => (Listing::Errors, true, fields),
        Some(("tokens_and_errors", fields)) => (Listing::Both, false, fields),
        _ => (Listing::Tokens, false, row),
    }
}

fn state_of(field: &str) -> Result<State> {
    match field {
        "data" => Ok(State::Data),
        "plaintext" => Ok(State::Plaintext),
        "rcdata" => Ok(State::RawData(RawKind::Rcdata)),
        "rawtext" => Ok(State::RawData(RawKind::Rawtext)),
        "script" => Ok(State::RawData(RawKind::ScriptData)),
        _ => bail!("no state has the name {field}"),
    }
}

fn name_of(alloc: Global, field: &str) -> Result<Option<LocalName>> {
    if field == NO_TEXT {
        return Ok(None);
    }
    let name = unescaped(alloc, field)?;
    Ok(Some(LocalName::from_str(alloc, name.as_str())?))
}

/// The basic table, or one with `not`, `notin;`, four ways to write `&`, and more.
fn table_of(alloc: Global, name: &str) -> Result<ReferenceTable> {
    let pairs = [
        ("not", "\u{ac}"),
        ("notin;", "\u{2209}"),
        ("amp;", "&"),
        ("amp", "&"),
        ("AMP", "&"),
        ("a1b;", "x"),
        ("nvlt;", "<\u{20d2}"),
    ];
    match name {
        "basic" => Ok(ReferenceTable::basic(alloc)?),
        "not" => Ok(ReferenceTable::new(alloc, &pairs)?),
        _ => bail!("no table has the name {name}"),
    }
}
