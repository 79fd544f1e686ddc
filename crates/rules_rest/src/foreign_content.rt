//! Foreign content: by which rules a token is taken (WHATWG HTML, 13.2.6, "tree construction dispatcher"), and the
//! rules for foreign content (13.2.6.5).
ghost use Rattle.std.specs.Prelude.{◌≡◌, if◌then◌else◌, IfErr, IfOk, IfSome, List, OnOk, is_some, option_map, ℕ};
ghost use Rattle.html_lexemes.specs.declared.fault.ParseFault.TheVariants.{Memory};
ghost use Rattle.rules_actions.specs.Follows.{Follows};
ghost use Rattle.rules_actions.specs.Parsed.{state_of};
ghost use Rattle.rules_table.specs.Settling.{Ready};
ghost use Rattle.tree_forest.specs.Forest.{IsElement};
ghost use Rattle.html_lexemes.specs.declared.token.Doctype.{Doctype};
ghost use Rattle.html_lexemes.specs.declared.token.Tag.{Tag as AnyTag};
ghost use Rattle.html_tree_state.specs.Foreign.{named_foreign};
ghost use Rattle.rules_table.specs.Actions.{act, close_foreign, is_text};
ghost use Rattle.rules_table.specs.ForeignContent.{foreign_start, is_by_mode, namespace_at, node_here};
ghost use Rattle.rules_table.specs.State.{character, comment, doctype, finish, null, start};

use html_lexemes::{Namespace, ParseFault, Tag};
use rules_actions::{Flow, Parse};
use rules_table::actions_keep_what_is_ready;
use tree_forest::TreeSink;
use tree_predicates::{InsertionMode, is_of_html, takes_start_as_html, takes_text_as_html};

/// Whether the mode takes text, by the rules for HTML.
pub fn takes_text_here<S: TreeSink>(page: &Parse<S>) -> bool
    requires ready { Ready (state_of S.view page.now) }
    ensures text { (c : ℕ) → result ≡ is_by_mode (character c) (state_of S.view page.now) }
    ensures null { result ≡ is_by_mode null (state_of S.view page.now) }
{
    if is_text(page.kept.mode) {
        return true;
    }
    let Some(node) = node_here(page) else {
        return true;
    };
    let is_point = page
        .tree
        .sink
        .is_mathml_annotation_xml_integration_point(node);
    takes_text_as_html(page.tree.sink.elem_name(node), is_point)
}

/// Whether the mode takes a start tag, by the rules for HTML.
pub fn takes_start_here<S: TreeSink>(page: &Parse<S>, tag: &Tag) -> bool
    requires ready { Ready (state_of S.view page.now) }
    ensures { result ≡ is_by_mode (start tag.now) (state_of S.view page.now) }
{
    if is_text(page.kept.mode) {
        return true;
    }
    let Some(node) = node_here(page) else {
        return true;
    };
    let is_point = page
        .tree
        .sink
        .is_mathml_annotation_xml_integration_point(node);
    takes_start_as_html(page.tree.sink.elem_name(node), is_point, &tag.name)
}

/// Whether the mode takes comments, doctypes and end tags, by the rules for HTML.
pub fn is_html_here<S: TreeSink>(page: &Parse<S>) -> bool
    requires ready { Ready (state_of S.view page.now) }
    ensures comment { (cs : List ℕ) → result ≡ is_by_mode (comment cs) (state_of S.view page.now) }
    ensures doctype { (d : Doctype) → result ≡ is_by_mode (doctype d) (state_of S.view page.now) }
    ensures finish { (t : AnyTag) → result ≡ is_by_mode (finish t) (state_of S.view page.now) }
{
    if is_text(page.kept.mode) {
        return true;
    }
    let Some(node) = node_here(page) else {
        return true;
    };
    is_of_html(&page.tree.sink.elem_name(node).ns)
}

/// A start tag that does not break out: its element is of the adjusted current node's namespace.
pub fn foreign_start<S: TreeSink>(
    page: &mut Parse<S>,
    tag: &Tag,
) -> Result<Flow<S::Handle>, ParseFault>
    requires ready { Ready (state_of S.view page.old) }
    ensures { Follows S.view (foreign_start tag.now (state_of S.view page.old)) page.old page.new result }
{
    let ns = namespace_here(page)?;
    page.insert_foreign(ns, tag)?;
    Ok(Flow::Done)
}

/// An end tag that does not break out: an element of its name is closed, before any element of HTML. Where there is
/// none nothing changes, and the mode takes the tag.
#[tactic(auto, unfolding(rules_table::specs::Actions::act))]
pub fn close_foreign_end<S: TreeSink>(page: &mut Parse<S>, tag: &Tag) -> Result<bool, ParseFault>
    requires ready { Ready (state_of S.view page.old) }
    ensures closed { IfOk result (λ closed. closed
        ≡ is_some (named_foreign tag.now.name (state_of S.view page.old).tree.forest
        (state_of S.view page.old).tree.stack)) }
    ensures seen { IfOk result (λ closed. state_of S.view page.new ≡ (if closed then act (close_foreign tag.now.name)
        (state_of S.view page.old) else state_of S.view page.old)) }
    ensures ready { OnOk result (Ready (state_of S.view page.new)) }
    ensures memory { IfErr result (λ e. e ≡ Memory) }
{
    actions_keep_what_is_ready();
    let closed = page.tree.process_end_tag_in_foreign_content(&tag.name)?;
    Ok(closed)
}

// the namespace of the adjusted current node
fn namespace_here<S: TreeSink>(page: &Parse<S>) -> Result<Namespace, ParseFault>
    requires ready { Ready (state_of S.view page.now) }
    ensures namespace { IfOk result (λ ns. ns ≡ namespace_at (state_of S.view page.now).tree.forest
        (node_here (state_of S.view page.now))) }
    ensures memory { IfErr result (λ e. e ≡ Memory) }
{
    let Some(node) = node_here(page) else {
        return Ok(Namespace::Html);
    };
    let ns = page.tree.sink.elem_name(node).ns.try_clone()?;
    Ok(ns)
}

// the adjusted current node
fn node_here<S: TreeSink>(page: &Parse<S>) -> Option<S::Handle>
    requires ready { Ready (state_of S.view page.now) }
    ensures node { option_map S.view.number result ≡ node_here (state_of S.view page.now) }
    ensures there { IfSome result (λ node. IsElement (S.view.number node) (S.view.forest page.now.tree.sink)) }
{
    page.adjusted_current_node()
}

// in an element whose contents are text alone the current node is an element of HTML
fn is_text(mode: InsertionMode) -> bool
    ensures { result ≡ is_text mode }
{
    match mode {
        InsertionMode::Text => true,
        _ => false,
    }
}
