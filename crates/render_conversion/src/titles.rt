//! Titles of drawings.
ghost use Rattle.std.specs.Prelude.{◌≡◌, ◌++◌, IfOk, IsTrue, OnOk, bytes_eq, chars};
ghost use Rattle.tree_forest.specs.Trees.{trees};
ghost use Rattle.tree_forest.specs.Forest.{children_at, kind_at};
ghost use Rattle.tree_forest.specs.Orders.{IsForest};
ghost use Rattle.html_render_dom.specs.Numbers.{number_of};
ghost use Rattle.tree_names.specs.Sets.{is_ascii_word};
ghost use Rattle.render_conversion.specs.Titles.{is_svg, is_title, own_text, text_of, title_of};

use crate::waiting::Waiting;
use html_lexemes::{Namespace, QualName, Text};
use html_render_dom::{Handle, NodeData, RcDom};
use std::alloc::{AllocError, Global};
use tree_forest::{a_tree_goes_one_step_on, trees_stand_in_order};

fn is_word(text: &str, word: &str) -> bool
    requires { IsTrue (is_ascii_word word.now) }
    ensures { result ≡ bytes_eq (chars text.now) word.now }
{
    text == word
}

/// Whether an element is the one of SVG of this name, a word of ASCII characters.
pub(crate) fn is_svg(name: &QualName, word: &str) -> bool
    requires { IsTrue (is_ascii_word word.now) }
    ensures { result ≡ is_svg word.now name.now }
{
    match name.ns {
        Namespace::Svg => is_word(name.local.as_str(), word),
        Namespace::Html => false,
        Namespace::MathMl => false,
        Namespace::Other(_) => false,
    }
}

// whether a node is a title of SVG
fn is_title(dom: &RcDom, node: Handle) -> bool
    ensures { result ≡ is_title (kind_at (number_of node) dom.now.forest) }
{
    match dom.element_name(node) {
        Some(name) => is_svg(name, "title"),
        None => false,
    }
}

// adds the text of a node itself
fn push_own_text(text: &mut Text, dom: &RcDom, node: Handle) -> Result<(), AllocError>
    ensures { OnOk result (text.new ≡ text.old ++ own_text (kind_at (number_of node) dom.now.forest)) }
{
    match dom.data(node) {
        Some(NodeData::Text { contents }) => text.push_str(contents.as_str()),
        Some(NodeData::Document) => Ok(()),
        Some(NodeData::Doctype { .. }) => Ok(()),
        Some(NodeData::Comment { .. }) => Ok(()),
        Some(NodeData::Element { .. }) => Ok(()),
        Some(NodeData::ProcessingInstruction { .. }) => Ok(()),
        None => Ok(()),
    }
}

// all text in a node
fn text_in(alloc: Global, dom: &RcDom, node: Handle) -> Result<Text, AllocError>
    requires { IsForest dom.now.forest }
    ensures { IfOk result (λ text. text
        ≡ text_of (trees dom.now.forest (children_at (number_of node) dom.now.forest))) }
{
    a_tree_goes_one_step_on();
    trees_stand_in_order();
    let mut text = Text::from_str(alloc, "")?;
    let mut waiting = Waiting::new(alloc);
    waiting.push_all(dom.children(node))?;
    'nodes: while let Some(row) = waiting.pop() {
        let next = row.first;
        waiting.push_all(row.others)?;
        push_own_text(&mut text, dom, next)?;
        waiting.push_all(dom.children(next))?;
    }
    Ok(text)
}

/// All text of the first title of SVG among a node's children. The error is allocation failure alone.
pub(crate) fn title_of(alloc: Global, dom: &RcDom, node: Handle) -> Result<Option<Text>, AllocError>
    requires { IsForest dom.now.forest }
    ensures { IfOk result (λ title. title
        ≡ title_of (trees dom.now.forest (children_at (number_of node) dom.now.forest))) }
{
    a_tree_goes_one_step_on();
    let mut children = dom.children(node);
    'children: while let Some(child) = children.next() {
        if is_title(dom, child) {
            return Ok(Some(text_in(alloc, dom, child)?));
        }
    }
    Ok(None)
}
