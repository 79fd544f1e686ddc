//! What is asked of a tree that is being built.
ghost use Rattle.html_tree_state.specs.Building.{seen};
ghost use Rattle.html_tree_state.specs.Sound.{Sound};

use crate::step::set_of;
use crate::words::html_name;
use html_lexemes::ParseFault;
use html_render_dom::RcDom;
use html_tree_state::{Construction, Scope, html_elem};
use std::alloc::Global;
use test_tree_lines::lines_of;
use tree_forest::TreeSink;
use tree_predicates::InsertionMode;

/// What should hold. A node is named by the path that leads to it from the document.
pub(crate) enum Fact {
    /// Whether an element is in scope, in list item scope, in button scope and in table scope.
    Scopes(&'static str, bool, bool, bool, bool),
    /// Whether an element is open.
    IsOpen(&'static str, bool),
    /// The mode that is asked for, where the page has a head and a template's mode is that of a table body.
    Mode(InsertionMode),
    /// The same without a template's mode: a fragment's context, whether there is a head, and the mode.
    RootMode(Option<&'static str>, bool, InsertionMode),
    /// The current node; and the adjusted one, where the document is the context.
    Current(&'static [usize], &'static [usize]),
    /// How many elements are open, and the first of them.
    Root(usize, &'static [usize]),
    /// How many elements are listed after the last marker, and how many entries there are.
    Listed(usize, usize),
    /// The lines of the tree.
    Lines(&'static str),
}

/// Whether it holds.
pub(crate) fn is_so(
    tree: &Construction<RcDom>,
    alloc: Global,
    fact: &Fact,
) -> Result<bool, ParseFault>
    requires { Sound (seen ⟦<RcDom as TreeSink>⟧.view tree.now.held tree.now.sink) }
{
    let dom = &tree.sink;
    match *fact {
        Fact::Current(current, adjusted) => {
            let document = dom.document();
            let is_current = tree.adjusted_current_node(None) == dom.get_node_by_path(current);
            let node = dom.get_node_by_path(adjusted);
            Ok(is_current && tree.adjusted_current_node(Some(document)) == node)
        }
        Fact::Root(count, root) => {
            let open = tree.held.open_elements();
            let is_so = !open.is_empty()
                && open.len() == count
                && Some(*html_elem(open)) == dom.get_node_by_path(root);
            Ok(is_so)
        }
        Fact::Lines(lines) => Ok(lines_of(alloc, dom)?.as_str() == lines),
        _ => is_asked(tree, alloc, fact),
    }
}

// whether what is asked without a path holds
fn is_asked<S: TreeSink>(
    tree: &Construction<S>,
    alloc: Global,
    fact: &Fact,
) -> Result<bool, ParseFault>
    requires { Sound (seen S.view tree.now.held tree.now.sink) }
{
    Ok(match *fact {
        Fact::Scopes(name, default, list_item, button, table) => {
            let set = set_of(name);
            tree.in_scope(Scope::Default, set) == default
                && tree.in_scope(Scope::ListItemScope, set) == list_item
                && tree.in_scope(Scope::ButtonScope, set) == button
                && tree.in_scope(Scope::TableScope, set) == table
        }
        Fact::IsOpen(name, expected) => tree.has_open(set_of(name)) == expected,
        Fact::Mode(expected) => {
            tree.reset_insertion_mode(None, true, Some(InsertionMode::InTableBody)) == expected
        }
        Fact::RootMode(Some(name), has_head, expected) => {
            let context = html_name(alloc, name)?;
            tree.reset_insertion_mode(Some(&context), has_head, None) == expected
        }
        Fact::RootMode(None, has_head, expected) => {
            tree.reset_insertion_mode(None, has_head, None) == expected
        }
        Fact::Listed(trailing, count) => {
            let list = tree.held.formatting();
            list.iter_to_marker().count() == trailing && list.as_slice().len() == count
        }
        _ => false,
    })
}
