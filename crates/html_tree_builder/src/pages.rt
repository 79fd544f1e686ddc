//! Whole pages.
ghost use Rattle.std.specs.Prelude.{◌≡◌, ℕ, List, IfErr, IfOk, false};
ghost use Rattle.tree_forest.specs.Orders.{IsForest};
ghost use Rattle.html_lexemes.specs.declared.fault.ParseFault.TheVariants.{Memory};
ghost use Rattle.html_tokenizer.specs.Pieces.{joined};
ghost use Rattle.html_tree_builder.specs.Grown.{IsTreeOfPage, ReadsTo, beginning};
ghost use Rattle.html_tree_builder.specs.Parsers.{Completes, IsFit, has_failed};
ghost use Rattle.rules_table.specs.State.{State};

use crate::builder::TreeBuilder;
use crate::options::ParseOpts;
use crate::parser::Parser;
use html_lexemes::{BufferQueue, ParseFault, ReferenceTable};
use html_tokenizer::Tokenizer;
use std::alloc::Global;
use tree_forest::TreeSink;

/// A parser of a whole page. The sink's nodes are a forest, whose document has no children yet.
#[tactic(auto, unfolding(crate::specs::Parsers::has_failed, crate::specs::Parsers::IsFit, crate::specs::Parsers::Completes))]
pub fn parse_document<S: TreeSink>(
    alloc: Global,
    sink: S,
    opts: ParseOpts,
    table: ReferenceTable,
) -> Parser<S>
    requires { IsForest (S.view.forest sink) }
    ensures fit { IsFit S.view result }
    ensures works { has_failed result ≡ false }
    ensures begins { (page : List ℕ) (final : State) → Completes S.view result page final → ReadsTo S.view.handle
        (beginning table opts (S.view.forest sink) (S.view.quirks sink)) page final }
{
    let ParseOpts {
        tokenizer,
        tree_builder,
    } = opts;
    let builder = TreeBuilder::new(alloc, sink, tree_builder);
    Parser {
        tokenizer: Tokenizer::new(alloc, builder, tokenizer, table),
        input_buffer: BufferQueue::new(alloc),
        is_over: false,
    }
}

/// The tree of a page that comes in pieces: that of the rule table over the reading of the page's whole text, however
/// it is cut. The sink's nodes are a forest, whose document has no children yet. The error is allocation failure.
pub fn parse_pieces<S: TreeSink + Drop>(
    alloc: Global,
    sink: S,
    opts: ParseOpts,
    table: ReferenceTable,
    pieces: Vec<String>,
) -> Result<S::Output, ParseFault>
    requires { IsForest (S.view.forest sink) }
    ensures memory { IfErr result (λ e. e ≡ Memory) }
    ensures grown { IfOk result (λ output. IsTreeOfPage S.view.handle (beginning table opts (S.view.forest sink)
        (S.view.quirks sink)) (joined pieces.items) (S.tree output) (S.tree_quirks output)) }
{
    let mut parser = parse_document(alloc, sink, opts, table);
    match parser.process_all(pieces) {
        Ok(()) => parser.finish(),
        Err(fault) => {
            let _sink = parser.into_sink();
            Err(fault)
        }
    }
}
