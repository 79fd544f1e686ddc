//! Answers stored rows. Standard input has cases, an empty line after each. The word that a case begins with is its
//! kind, and after a tab comes what is asked: the tree of a page, the tokens of a text, what a reference stands for by
//! the last table before it, the lines of a page or of a script of renderer calls, or an article's page, lines and
//! tree. Standard output has the answers.
#![tactic(auto)]

use anyhow::{Context, Result, bail};
use html_lexemes::ReferenceTable;
use std::alloc::Global;
use std::io;
use std::io::{BufWriter, Write};
use stored_lines::{blocks, pages};
use stored_parses::{references, tokens, trees};

/// Ends with status 0 where each case has an answer, and else 1 with a text on standard error.
fn main(rt: HostRuntime) -> Result<()> {
    let alloc = rt.alloc();
    let text = io::read_to_string(alloc, rt.reader())?;
    let mut output = BufWriter::new(alloc, io::writer(&rt))?;
    let written = write_answers(alloc, text.as_str(), &mut output);
    output.flush()?;
    written
}

/// Writes the answer of each case in turn, up to one that has none.
fn write_answers<W: Write>(alloc: Global, text: &str, output: &mut W) -> Result<()> {
    let mut table = ReferenceTable::basic(alloc)?;
    for (before, case) in text.split_terminator("\n\n").enumerate() {
        let (kind, asked) = case.split_once('\t').unwrap_or((case, ""));
        if kind == "table" {
            table = ReferenceTable::from_json(alloc, asked)?;
            continue;
        }
        let answer = answer_of(alloc, &table, kind, asked);
        let answer = answer.context(format_args!("after {before} cases"))?;
        output.write_all(answer.as_bytes())?;
    }
    Ok(())
}

/// The lines of a case. But for a reference an empty one comes last.
fn answer_of(alloc: Global, table: &ReferenceTable, kind: &str, asked: &str) -> Result<String> {
    let mut lines = match kind {
        "reference" => return Ok(references::answer(alloc, table, asked)?),
        "tree" => trees::answer(alloc, asked)?,
        "tokens" => tokens::answer(alloc, asked)?,
        "page" => pages::answer(alloc, asked)?,
        "blocks" => blocks::answer(alloc, asked)?,
        "article" => stored_articles::answer(alloc, asked)?,
        _ => bail!("no case has the kind {kind}"),
    };
    lines.push('\n')?;
    Ok(lines)
}
