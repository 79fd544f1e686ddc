//! Trees of pages, by the calls of a parser.
ghost use Rattle.std.specs.Prelude.{◌≡◌};
ghost use Rattle.tree_forest.specs.Forest.{page_alone};
ghost use Rattle.tree_forest.specs.Orders.{IsForest};

use crate::words::{PLAIN, html_name};
use html_lexemes::{Attributes, ParseFault, QualName, ReferenceTable};
use html_render_dom::RcDom;
use html_tree_builder::{ParseOpts, parse_document, parse_fragment_for_element};
use std::alloc::Global;
use tree_forest::{
    TreeSink, a_page_alone_is_a_forest, elements_stay, making_keeps_a_forest,
    what_was_made_may_be_put,
};

/// The tree of a page, by each call of a parser: a piece, an error from outside, and the last piece or none.
pub(crate) fn tree_of(alloc: Global, first: &str, last: Option<&str>) -> Result<RcDom, ParseFault> {
    a_page_alone_is_a_forest();
    let table = ReferenceTable::basic(alloc)?;
    let first = String::from_str(alloc, first)?;
    let message = String::from_str(alloc, "seen")?;
    let last = match last {
        Some(text) => Some(String::from_str(alloc, text)?),
        None => None,
    };
    parsed(alloc, RcDom::new(alloc)?, table, first, message, last)
}

fn parsed<S: TreeSink + Drop>(
    alloc: Global,
    sink: S,
    table: ReferenceTable,
    first: String,
    message: String,
    last: Option<String>,
) -> Result<S::Output, ParseFault>
    requires { IsForest (S.view.forest sink) }
{
    let mut parser = parse_document(alloc, sink, ParseOpts::default(), table);
    // a refused call is reported by the next one
    let _ = parser.process(first);
    let _ = parser.error(message);
    match last {
        Some(piece) => parser.one(piece),
        None => parser.finish(),
    }
}

/// The tree of a fragment in a context that stands in a form.
pub(crate) fn tree_in_a_form(alloc: Global, piece: &str) -> Result<RcDom, ParseFault> {
    let piece = String::from_str(alloc, piece)?;
    let table = ReferenceTable::basic(alloc)?;
    let form = html_name(alloc, "form")?;
    let context = html_name(alloc, "div")?;
    parsed_in_a_form(alloc, RcDom::new(alloc)?, table, form, context, piece)
}

fn parsed_in_a_form<S: TreeSink + Drop>(
    alloc: Global,
    sink: S,
    table: ReferenceTable,
    form: QualName,
    context: QualName,
    piece: String,
) -> Result<S::Output, ParseFault>
    requires { S.view.forest sink ≡ page_alone }
{
    a_page_alone_is_a_forest();
    making_keeps_a_forest();
    what_was_made_may_be_put();
    elements_stay();
    let mut sink = sink;
    let form = sink.create_element(form, Attributes::new(alloc), PLAIN)?;
    let context = sink.create_element(context, Attributes::new(alloc), PLAIN)?;
    let opts = ParseOpts::default();
    let parser = parse_fragment_for_element(alloc, sink, opts, table, context, true, Some(form))?;
    parser.one(piece)
}
