//! Trees of pages and fragments.
use crate::cuts::{Reading, has_word, lines_however_cut};
use anyhow::{Result, bail};
use html_lexemes::{Attributes, LocalName, Namespace, ParseFault, QualName, ReferenceTable};
use html_render_dom::RcDom;
use html_tree_builder::{ParseOpts, parse_fragment_pieces, parse_pieces};
use std::alloc::{AllocError, Global};
use test_fields::{NO_TEXT, unescaped};
use test_tree_lines::{lines_below, lines_of};

// the most bytes of a page that is cut everywhere
const MOST_CUT: usize = 64;

/// How a page or a fragment is parsed.
#[derive(Clone, Copy)]
struct Parsing<'a> {
    /// The name of a fragment's context, after `svg:` or `mathml:` where it is an element of these; `\N` of a page.
    context: &'a str,
    /// Whether scripts would run.
    is_scripting: bool,
}

/// The lines on the tree of a row. It has three fields: the context, `scripting` or `-`, and the text.
pub fn answer(alloc: Global, row: &str) -> Result<String> {
    let mut fields = row.split('\t');
    let (Some(context), Some(scripting), Some(text), None) = (
        fields.next(),
        fields.next(),
        fields.next(),
        fields.next(),
    ) else {
        bail!("a tree's row has three fields");
    };
    let parsing = Parsing {
        context,
        is_scripting: has_word(scripting, "scripting")?,
    };
    lines_however_cut(alloc, &parsing, unescaped(alloc, text)?.as_str(), MOST_CUT)
}

impl<'a> Reading for Parsing<'a> {
    fn lines(&self, alloc: Global, pieces: Vec<String>) -> Result<String> {
        if self.context == NO_TEXT {
            return Ok(lines_of(alloc, &self.page(alloc, pieces)?)?);
        }
        Ok(lines_below(alloc, &self.fragment(alloc, pieces)?)?)
    }
}

impl<'a> Parsing<'a> {
    fn page(&self, alloc: Global, pieces: Vec<String>) -> Result<RcDom, ParseFault> {
        let table = ReferenceTable::basic(alloc)?;
        parse_pieces(alloc, RcDom::new(alloc)?, self.options(), table, pieces)
    }

    fn fragment(&self, alloc: Global, pieces: Vec<String>) -> Result<RcDom, ParseFault> {
        parse_fragment_pieces(
            alloc,
            RcDom::new(alloc)?,
            self.options(),
            ReferenceTable::basic(alloc)?,
            context_name(alloc, self.context)?,
            Attributes::new(alloc),
            self.is_scripting,
            pieces,
        )
    }

    fn options(&self) -> ParseOpts {
        let mut opts = ParseOpts::default();
        opts.tree_builder.scripting_enabled = self.is_scripting;
        opts
    }
}

fn context_name(alloc: Global, context: &str) -> Result<QualName, AllocError> {
    let (namespace, local) = match context.split_once(':') {
        Some(("svg", local)) => (Namespace::Svg, local),
        Some(("mathml", local)) => (Namespace::MathMl, local),
        _ => (Namespace::Html, context),
    };
    Ok(QualName::new(namespace, LocalName::from_str(alloc, local)?))
}
