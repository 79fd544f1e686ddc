//! Fragments of pages.
ghost use Rattle.std.specs.Prelude.{◌≡◌, ℕ, List, None, IfErr, IfOk, false, option_map};
ghost use Rattle.tree_forest.specs.Forest.{IsElement, nodes};
ghost use Rattle.tree_forest.specs.Orders.{IsForest};
ghost use Rattle.html_lexemes.specs.declared.fault.ParseFault.TheVariants.{Memory};
ghost use Rattle.html_tokenizer.specs.Pieces.{joined};
ghost use Rattle.token_grammar.specs.Items.{Item};
ghost use Rattle.token_grammar.specs.PageText.{page_text};
ghost use Rattle.token_grammar.specs.Reading.{Reading};
ghost use Rattle.html_lexemes.specs.declared.states.State.{State as SeenTextState};
ghost use Rattle.html_tree_builder.specs.Fragments.{FragmentReadsTo, IsTreeOfFragment, made_context, mode_from};
ghost use Rattle.html_tree_builder.specs.Grown.{IsGrown, beginning};
ghost use Rattle.html_tree_builder.specs.Parsers.{Completes, IsFit, has_failed, state_in};
ghost use Rattle.rules_table.specs.Settling.{meaning};
ghost use Rattle.rules_table.specs.State.{State};
ghost use Rattle.rules_table.specs.Welcome.{IsReady, IsWelcome};

use crate::builder::TreeBuilder;
use crate::fragment::context_state;
use crate::options::ParseOpts;
use crate::parser::Parser;
use html_lexemes::states::State as TextState;
use html_lexemes::{Attributes, BufferQueue, ParseFault, QualName, ReferenceTable};
use html_tokenizer::{Tokenizer, TokenizerOpts};
use std::alloc::Global;
use tree_forest::{
    TreeSink, elements_stay, how_many_nodes_there_are, making_keeps_a_forest,
    what_was_made_may_be_put,
};
use tree_predicates::element_flags;

/// A parser of a fragment, for a context that is an element of the sink (WHATWG HTML, 13.4): what is parsed stands in
/// an element `html` in the document. `scripting` says whether scripts would run where the context stands, and `form`
/// is the form that it stands in, if there is one. The sink's nodes are a forest, whose document has no children yet.
/// The error is allocation failure.
pub fn parse_fragment_for_element<S: TreeSink + Drop>(
    alloc: Global,
    sink: S,
    opts: ParseOpts,
    table: ReferenceTable,
    context: S::Handle,
    scripting: bool,
    form: Option<S::Handle>,
) -> Result<Parser<S>, ParseFault>
    requires forest { IsForest (S.view.forest sink) }
    requires context { IsElement (S.view.number context) (S.view.forest sink) }
    ensures memory { IfErr result (λ e. e ≡ Memory) }
    ensures fit { IfOk result (λ parser. IsFit S.view parser) }
    ensures works { IfOk result (λ parser. has_failed parser ≡ false) }
    ensures begins { IfOk result (λ parser. (text : List ℕ) (final : State) →
        Completes S.view parser text final →
        FragmentReadsTo S.view.handle (beginning table opts (S.view.forest sink) (S.view.quirks sink))
        (record { context = S.view.number context; form = option_map S.view.number form; scripting = scripting }) text
        final) }
{
    let ParseOpts {
        tokenizer,
        tree_builder,
    } = opts;
    let first = context_state(sink.elem_name(context), scripting);
    let builder = TreeBuilder::new_for_fragment(alloc, sink, context, form, tree_builder)?;
    Ok(parser_from(alloc, builder, tokenizer, first, table))
}

// a parser whose text begins in a state, whatever state the options name
#[tactic(auto, unfolding(crate::specs::Parsers::has_failed, crate::specs::Parsers::IsFit, crate::specs::Parsers::Completes))]
fn parser_from<S: TreeSink>(
    alloc: Global,
    builder: TreeBuilder<S>,
    opts: TokenizerOpts,
    first: TextState,
    table: ReferenceTable,
) -> Parser<S>
    requires ready { IsReady (state_in S.view builder) }
    requires hears { (item : Item) → IsWelcome (state_in S.view builder) item }
    ensures fit { IsFit S.view result }
    ensures works { has_failed result ≡ false }
    ensures begins { (begun : State) (state : SeenTextState) → state_in S.view builder ≡ begun → first ≡ state
        → (text : List ℕ) (final : State) → Completes S.view result text final → Reading table (meaning S.view.handle)
        (mode_from state opts) begun (page_text opts.discard_bom text) final }
{
    let mut opts = opts;
    opts.initial_state = Some(first);
    Parser {
        tokenizer: Tokenizer::new(alloc, builder, opts, table),
        input_buffer: BufferQueue::new(alloc),
        is_over: false,
    }
}

/// A parser of a fragment, for a context of this name and these attributes, which is made for it and stands in no form
/// (WHATWG HTML, 13.4): what is parsed stands in an element `html` in the document. `scripting` says whether scripts
/// would run where the context stands. The sink's nodes are a forest, whose document has no children yet. The error is
/// allocation failure.
pub fn parse_fragment<S: TreeSink + Drop>(
    alloc: Global,
    sink: S,
    opts: ParseOpts,
    table: ReferenceTable,
    name: QualName,
    attrs: Attributes,
    scripting: bool,
) -> Result<Parser<S>, ParseFault>
    requires forest { IsForest (S.view.forest sink) }
    ensures memory { IfErr result (λ e. e ≡ Memory) }
    ensures fit { IfOk result (λ parser. IsFit S.view parser) }
    ensures works { IfOk result (λ parser. has_failed parser ≡ false) }
    ensures begins { IfOk result (λ parser. (text : List ℕ) (final : State) →
        Completes S.view parser text final →
        FragmentReadsTo S.view.handle (beginning table opts (made_context name attrs (S.view.forest sink))
        (S.view.quirks sink))
        (record { context = nodes (S.view.forest sink); form = None; scripting = scripting }) text final) }
{
    let (sink, context) = with_context(sink, name, attrs)?;
    parse_fragment_for_element(alloc, sink, opts, table, context, scripting, None)
}

/// The tree of a fragment that comes in pieces, for a context as in `parse_fragment`: that of the rule table over the
/// reading of the fragment's whole text, however it is cut. The error is allocation failure.
pub fn parse_fragment_pieces<S: TreeSink + Drop>(
    alloc: Global,
    sink: S,
    opts: ParseOpts,
    table: ReferenceTable,
    name: QualName,
    attrs: Attributes,
    scripting: bool,
    pieces: Vec<String>,
) -> Result<S::Output, ParseFault>
    requires { IsForest (S.view.forest sink) }
    ensures memory { IfErr result (λ e. e ≡ Memory) }
    ensures grown { IfOk result (λ output. IsTreeOfFragment S.view.handle
        (beginning table opts (made_context name attrs (S.view.forest sink)) (S.view.quirks sink))
        (record { context = nodes (S.view.forest sink); form = None; scripting = scripting }) (joined pieces.items)
        (S.tree output) (S.tree_quirks output)) }
{
    let parser = parse_fragment(alloc, sink, opts, table, name, attrs, scripting)?;
    tree_fed(parser, pieces)
}

// the tree of what a parser is fed with
fn tree_fed<S: TreeSink + Drop>(
    parser: Parser<S>,
    pieces: Vec<String>,
) -> Result<S::Output, ParseFault>
    requires fit { IsFit S.view parser }
    requires works { has_failed parser ≡ false }
    ensures memory { IfErr result (λ e. e ≡ Memory) }
    ensures grown { IfOk result (λ output. IsGrown (Completes S.view parser (joined pieces.items)) (S.tree output)
        (S.tree_quirks output)) }
{
    let mut parser = parser;
    match parser.process_all(pieces) {
        Ok(()) => parser.finish(),
        Err(fault) => {
            let _sink = parser.into_sink();
            Err(fault)
        }
    }
}

// a sink with a context more, which stands nowhere
fn with_context<S: TreeSink + Drop>(
    sink: S,
    name: QualName,
    attrs: Attributes,
) -> Result<(S, S::Handle), ParseFault>
    requires { IsForest (S.view.forest sink) }
    ensures memory { IfErr result (λ e. e ≡ Memory) }
    ensures number { IfOk result (λ made. S.view.number made.1 ≡ nodes (S.view.forest sink)) }
    ensures forest { IfOk result (λ made. S.view.forest made.0 ≡ made_context name attrs (S.view.forest sink)) }
    ensures quirks { IfOk result (λ made. S.view.quirks made.0 ≡ S.view.quirks sink) }
    ensures keeps { IfOk result (λ made. IsForest (S.view.forest made.0)) }
    ensures element { IfOk result (λ made. IsElement (S.view.number made.1) (S.view.forest made.0)) }
{
    making_keeps_a_forest();
    elements_stay();
    how_many_nodes_there_are();
    what_was_made_may_be_put();
    let mut sink = sink;
    let flags = element_flags(&name, &attrs);
    let context = sink.create_element(name, attrs, flags)?;
    Ok((sink, context))
}
