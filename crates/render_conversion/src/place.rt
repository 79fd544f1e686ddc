//! Where nodes stand.
ghost use Rattle.std.specs.Prelude.{◌≡◌, IsTrue};
ghost use Rattle.tree_forest.specs.Forest.{kind_at};
ghost use Rattle.html_render_dom.specs.Numbers.{number_of};
ghost use Rattle.tree_names.specs.Sets.{are_ascii, words_of};
ghost use Rattle.render_conversion.specs.Places.{is_element, is_guarded, is_seen, is_shown};

use crate::hiding::is_hidden;
use crate::options::ConversionOptions;
use html_render_dom::{Handle, RcDom};
use tree_names::is_html_one_of;

/// Where a node stands, by what its parent makes of its children.
#[derive(Clone, Copy, Debug, PartialEq, Eq)]
pub enum Place {
    /// Among what isn't looked at.
    Nowhere,
    /// Among values in a row.
    Flow,
    /// In a list: each child is an item.
    Items,
    /// In a table: groups of rows.
    Groups,
    /// In a table: the groups that come last.
    Feet,
    /// In a table: its captions.
    Captions,
    /// In a group of a table: rows.
    Rows,
    /// In a row of a table: cells.
    Cells,
}

/// Whether a node is an element of HTML of one of these names, words of ASCII characters.
pub(crate) fn is_element(dom: &RcDom, node: Handle, words: &[&str]) -> bool
    requires { IsTrue (are_ascii (words_of words.now)) }
    ensures { result ≡ is_element (words_of words.now) (kind_at (number_of node) dom.now.forest) }
{
    match dom.element_name(node) {
        Some(name) => is_html_one_of(name, words),
        None => false,
    }
}

// whether a node is looked at, by its place
fn is_seen(dom: &RcDom, node: Handle, place: Place) -> bool
    ensures { result ≡ is_seen place (kind_at (number_of node) dom.now.forest) }
{
    match place {
        Place::Nowhere => false,
        Place::Flow => true,
        Place::Items => true,
        Place::Groups => is_element(dom, node, &["thead", "tbody"]),
        Place::Feet => is_element(dom, node, &["tfoot"]),
        Place::Captions => is_element(dom, node, &["caption"]),
        Place::Rows => is_element(dom, node, &["tr"]),
        Place::Cells => is_element(dom, node, &["td", "th"]),
    }
}

/// Whether a node at a place is looked at.
pub(crate) fn is_shown(dom: &RcDom, node: Handle, place: Place, options: ConversionOptions) -> bool
    ensures { result ≡ is_shown options place (kind_at (number_of node) dom.now.forest) }
{
    is_seen(dom, node, place) && !(options.skip_hidden && is_hidden(dom, node))
}

/// Whether a node at a place is left out where its value is shallow-empty.
pub(crate) fn is_guarded(dom: &RcDom, node: Handle, place: Place) -> bool
    ensures { result ≡ is_guarded place (kind_at (number_of node) dom.now.forest) }
{
    match place {
        Place::Nowhere => false,
        Place::Flow => false,
        Place::Items => !is_element(dom, node, &["li"]),
        Place::Groups => false,
        Place::Feet => false,
        Place::Captions => false,
        Place::Rows => false,
        Place::Cells => false,
    }
}
