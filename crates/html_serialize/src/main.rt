//! A small program: parses the page on standard input and writes its tree back as HTML (WHATWG HTML, 13.3), or, with
//! `--fragment NAME`, a fragment in an element of HTML of that name. The page is UTF-8 text; its table of references is
//! the basic one.
#![tactic(auto)]

use anyhow::{Result, bail};
use dom_writing::{SerializableHandle, SerializeDom};
use html_render_dom::{Handle, RcDom};
use html_tree_builder::html_lexemes::{
    Attributes, Device, LocalName, Namespace, ParseFault, QualName, ReferenceTable,
};
use html_tree_builder::{ParseOpts, parse_fragment_pieces, parse_pieces};
use std::alloc::{AllocError, Global};
use std::io::{BufWriter, Write};
use std::rt::Env;
use std::{env, io};
use tree_serializer::{SerializeOpts, TraversalScope, serialize};

/// Ends with status 0 where the whole tree was written, and else 1 with a text on standard error.
fn main(rt: HostRuntime) -> Result<()> {
    let alloc = rt.alloc();
    let context = context_of(&rt)?;
    let page = io::read_to_string(alloc, rt.reader())?;
    let pieces = alone(alloc, page)?;
    let mut output = Device::new(BufWriter::new(alloc, io::writer(&rt))?);
    match context {
        None => write_page(alloc, pieces, &mut output)?,
        Some(name) => write_fragment(alloc, name, pieces, &mut output)?,
    }
    output.into_inner().flush()?;
    Ok(())
}

/// A page that comes in one piece.
fn alone(alloc: Global, page: String) -> Result<Vec<String>, AllocError> {
    Ok(vec![in alloc; page]?)
}

/// The name of the element that a fragment stands in, where the command line has one.
fn context_of<R: Env + AllocGlobal>(rt: &R) -> Result<Option<QualName>> {
    let mut words = env::args(rt)?.skip(1);
    let Some(option) = words.next() else {
        return Ok(None);
    };
    if option.as_str() != "--fragment" {
        bail!("no option has the name {option}");
    }
    let (Some(name), None) = (words.next(), words.next()) else {
        bail!("--fragment has one name after it");
    };
    let local = LocalName::from_str(rt.alloc(), name.as_str())?;
    Ok(Some(QualName::new(Namespace::Html, local)))
}

fn write_page<W: Write>(alloc: Global, pieces: Vec<String>, output: &mut Device<W>) -> Result<()> {
    let table = ReferenceTable::basic(alloc)?;
    let sink = RcDom::new(alloc)?;
    let dom = parse_pieces(alloc, sink, ParseOpts::default(), table, pieces)?;
    dom.serialize(alloc, output)?;
    Ok(())
}

/// Writes what stands in a fragment's root, as within its context.
fn write_fragment<W: Write>(
    alloc: Global,
    name: QualName,
    pieces: Vec<String>,
    output: &mut Device<W>,
) -> Result<()> {
    let mut opts = SerializeOpts::default();
    opts.traversal_scope = TraversalScope::ChildrenOnly(Some(name.try_clone()?));
    let dom = tree_of_fragment(alloc, name, pieces)?;
    let root = SerializableHandle::new(&dom, root_of(&dom));
    serialize(alloc, output, &root, opts)?;
    Ok(())
}

fn tree_of_fragment(
    alloc: Global,
    name: QualName,
    pieces: Vec<String>,
) -> Result<RcDom, ParseFault> {
    let table = ReferenceTable::basic(alloc)?;
    let sink = RcDom::new(alloc)?;
    let attrs = Attributes::new(alloc);
    let opts = ParseOpts::default();
    let scripting = opts.tree_builder.scripting_enabled;
    parse_fragment_pieces(alloc, sink, opts, table, name, attrs, scripting, pieces)
}

/// The root, which is the document's one child.
fn root_of(dom: &RcDom) -> Handle {
    let document = dom.document();
    match dom.children(document).next() {
        Some(root) => root,
        None => document,
    }
}
