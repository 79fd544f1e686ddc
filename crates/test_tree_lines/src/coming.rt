//! Nodes whose lines are still to come.
ghost use Rattle.std.specs.Prelude.{◌≡◌, ◌+◌, ◌++◌, OnOk, chars, option_map, string_bytes};
ghost use Rattle.tree_forest.specs.Forest.{Forest, contents_of};
ghost use Rattle.html_render_dom.specs.ChildNodes.{children_left};
ghost use Rattle.html_render_dom.specs.Numbers.{number_of};
ghost use Rattle.test_tree_lines.specs.ToCome.{IsStep, lines_to_come};
ghost use Rattle.test_tree_lines.specs.TreeLines.{held_by, row_lines};

use crate::laws::lines_go_one_step_on;
use crate::lines::{one_deeper, push_node};
use html_render_dom::{ChildNodes, Handle, NodeData, RcDom};
use std::alloc::AllocError;

/// Siblings whose lines are still to come, and how far below the document's children they stand.
#[derive(Drop)]
pub(crate) struct Coming<'a> {
    /// The first of them.
    pub(crate) node: Handle,
    /// Those after it.
    pub(crate) others: ChildNodes<'a>,
    /// How far below the document's children they stand.
    pub(crate) level: usize,
}

// these nodes come next, in one entry
pub(crate) fn push_row<'a>(
    coming: &mut Vec<Coming<'a>>,
    row: ChildNodes<'a>,
    level: usize,
) -> Result<(), AllocError>
    ensures { OnOk result ((f : Forest) → lines_to_come f coming.new.items
        ≡ row_lines f level (children_left row.entry) ++ lines_to_come f coming.old.items) }
{
    let mut others = row;
    let Some(node) = others.next() else {
        return Ok(());
    };
    coming.push(Coming {
        node,
        others,
        level,
    })?;
    Ok(())
}

// Writes the lines of the first of some siblings. What is in it comes next, and then the others.
pub(crate) fn push_first<'a>(
    lines: &mut String,
    coming: &mut Vec<Coming<'a>>,
    dom: &'a RcDom,
    first: Coming<'a>,
) -> Result<(), AllocError>
    ensures { OnOk result (IsStep dom.now.forest first.entry
        (chars (string_bytes lines.old)) coming.old.items (chars (string_bytes lines.new)) coming.new.items) }
{
    // A tree's nodes are a forest.
    dom.document();
    lines_go_one_step_on();
    let node = first.node;
    let level = first.level;
    let below = one_deeper(level)?;
    push_node(lines, dom, node, level)?;
    push_row(coming, first.others, level)?;
    push_row(coming, dom.children(node), below)?;
    push_contents(coming, dom, node, below)
}

// what a template's contents hold comes next, one level further
fn push_contents<'a>(
    coming: &mut Vec<Coming<'a>>,
    dom: &'a RcDom,
    node: Handle,
    level: usize,
) -> Result<(), AllocError>
    ensures { OnOk result (lines_to_come dom.now.forest coming.new.items
        ≡ row_lines dom.now.forest (level + 1) (held_by (contents_of (number_of node) dom.now.forest) dom.now.forest)
        ++ lines_to_come dom.now.forest coming.old.items) }
{
    let Some(contents) = contents_of(dom, node) else {
        return Ok(());
    };
    let below = one_deeper(level)?;
    push_row(coming, dom.children(contents), below)
}

fn contents_of(dom: &RcDom, node: Handle) -> Option<Handle>
    ensures { option_map number_of result ≡ contents_of (number_of node) dom.now.forest }
{
    match dom.data(node)? {
        NodeData::Element {
            template_contents,
            ..
        } => *template_contents,
        _ => None,
    }
}
