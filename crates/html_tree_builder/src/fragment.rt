//! A tree builder of a fragment (WHATWG HTML, 13.4).
ghost use Rattle.std.specs.Prelude.{◌≡◌, IfErr, IfOk, OnOk, option_map};
ghost use Rattle.tree_forest.specs.Forest.{IsElement, name_of};
ghost use Rattle.tree_forest.specs.Orders.{IsForest};
ghost use Rattle.token_grammar.specs.Items.{Item};
ghost use Rattle.html_lexemes.specs.declared.fault.ParseFault.TheVariants.{Memory};
ghost use Rattle.rules_actions.specs.Parsed.{state_of};
ghost use Rattle.html_tree_builder.specs.Begun.{begun_fragment, context_state, root_actions, state_for, with_context};
ghost use Rattle.rules_table.specs.Actions.{act_all};
ghost use Rattle.rules_table.specs.Settling.{Ready};
ghost use Rattle.rules_table.specs.Welcome.{IsReady, IsWelcome};

use crate::builder::TreeBuilder;
use html_lexemes::states::{RawKind, State};
use html_lexemes::{ParseFault, QualName};
use html_tree_state::Construction;
use rules_actions::Parse;
use rules_table::TreeBuilderOpts;
use std::alloc::Global;
use tree_forest::TreeSink;
use tree_names::{has_rawtext_context, has_rcdata_context, is_html};
use tree_predicates::{InsertionMode, is_of_html};

impl<S: TreeSink + Drop> TreeBuilder<S> {
    /// Before the first token of a fragment: its root, an element `html`, is put into the document and opened. The
    /// context is an element of the sink, and `form` the form that it stands in, if there is one. The sink's nodes are
    /// a forest, whose document has no children yet. Any token may be emitted first. The error is allocation failure.
    pub fn new_for_fragment(
        alloc: Global,
        sink: S,
        context: S::Handle,
        form: Option<S::Handle>,
        opts: TreeBuilderOpts,
    ) -> Result<TreeBuilder<S>, ParseFault>
        requires forest { IsForest (S.view.forest sink) }
        requires context { IsElement (S.view.number context) (S.view.forest sink) }
        ensures begun { IfOk result (λ made. state_of S.view made.page ≡ begun_fragment opts (S.view.number context)
            (option_map S.view.number form) (S.view.forest sink) (S.view.quirks sink)) }
        ensures ready { IfOk result (λ made. IsReady (state_of S.view made.page)) }
        ensures hears { IfOk result (λ made. (item : Item) → IsWelcome (state_of S.view made.page) item) }
        ensures memory { IfErr result (λ e. e ≡ Memory) }
    {
        let is_template = is_html(sink.elem_name(context), "template");
        let mut builder = TreeBuilder::new(alloc, sink, opts);
        put_context(&mut builder.page, context, form);
        match open_root(&mut builder.page, is_template) {
            Ok(()) => Ok(builder),
            Err(fault) => {
                let TreeBuilder { page } = builder;
                let Parse { kept: _, tree } = page;
                let Construction { held: _, sink: _ } = tree;
                Err(fault)
            }
        }
    }
}

impl<S: TreeSink> TreeBuilder<S> {
    /// The state in which the text of a fragment begins, by its context; `scripting` says whether scripts would run
    /// where the context stands. Of a whole page it is `Data`.
    pub fn tokenizer_state_for_context_elem(&self, scripting: bool) -> State
        requires { IsReady (state_of S.view self.now.page) }
        ensures { result ≡ state_for scripting (option_map (λ context. name_of (S.view.number context)
            (S.view.forest self.now.page.tree.sink)) self.now.page.kept.context) }
    {
        match self.page.kept.context {
            Some(context) => context_state(self.page.tree.sink.elem_name(context), scripting),
            None => State::Data,
        }
    }
}

/// The state in which the text of a fragment begins whose context has this name; `scripting` says whether scripts would
/// run where the context stands (WHATWG HTML, 13.4).
pub fn context_state(name: &QualName, scripting: bool) -> State
    ensures { result ≡ context_state scripting name.now }
{
    if !is_of_html(&name.ns) {
        return State::Data;
    }
    if has_rcdata_context(&name.local) {
        return State::RawData(RawKind::Rcdata);
    }
    if has_rawtext_context(&name.local) {
        return State::RawData(RawKind::Rawtext);
    }
    if is_html(name, "script") {
        return State::RawData(RawKind::ScriptData);
    }
    if scripting && is_html(name, "noscript") {
        return State::RawData(RawKind::Rawtext);
    }
    if is_html(name, "plaintext") {
        return State::Plaintext;
    }
    State::Data
}

// what is built is a fragment
fn put_context<S: TreeSink>(page: &mut Parse<S>, context: S::Handle, form: Option<S::Handle>)
    requires ready { Ready (state_of S.view page.old) }
    requires element { IsElement (S.view.number context) (S.view.forest page.old.tree.sink) }
    ensures seen { state_of S.view page.new ≡ with_context (S.view.number context) (option_map S.view.number form)
        (state_of S.view page.old) }
    ensures ready { Ready (state_of S.view page.new) }
{
    page.kept.context = Some(context);
    page.kept.form = form;
}

// the root is opened, and the mode is reset
fn open_root<S: TreeSink>(page: &mut Parse<S>, is_template: bool) -> Result<(), ParseFault>
    requires ready { Ready (state_of S.view page.old) }
    ensures seen { OnOk result (state_of S.view page.new ≡ act_all (root_actions is_template)
        (state_of S.view page.old)) }
    ensures ready { OnOk result (Ready (state_of S.view page.new)) }
    ensures memory { IfErr result (λ e. e ≡ Memory) }
{
    page.insert_named("html")?;
    if is_template {
        page.push_template_mode(InsertionMode::InTemplate)?;
        page.reset();
        return Ok(());
    }
    page.reset();
    Ok(())
}
