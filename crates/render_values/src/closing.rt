//! Values whose children were read.
ghost use Rattle.std.specs.Prelude.{◌≡◌, ◌<◌, OnOk, drop, length};
ghost use Rattle.std.specs.List.{list_any};
ghost use Rattle.render_values.specs.Arena.{IsFlat, values_of};
ghost use Rattle.render_values.specs.Cells.{has_cells, is_cell};
ghost use Rattle.render_values.specs.Closing.{closed, ending_first, fragment_alone, held, raised_node, with_fragment};
ghost use Rattle.render_values.specs.Closing.{with_raised};
ghost use Rattle.render_values.specs.Endings.{ending, is_raised, shows};

use crate::emptiness::{all_shallow_empty, is_shallow_empty, nodes_after};
use crate::info::{Head, RenderInfo};
use crate::node::RenderNode;
use crate::raising::{Raised, is_number, raised_second};
use std::alloc::{AllocError, Global};

/// When an element whose children were read has its value.
#[derive(Clone, Copy, Debug, PartialEq, Eq)]
pub enum Condition {
    /// Never.
    Never,
    /// Always.
    Always,
    /// Where a child has a value that is not shallow-empty.
    AnyShown,
    /// Where a child has a value.
    AnyValue,
    /// Where a cell of a table stands in it.
    AnyCell,
    /// Always; where one text of digits is all that stands in it, that text with raised digits is the value.
    Digits,
}

/// A value whose children are still read.
#[derive(Clone, Copy, Debug)]
pub struct Opened {
    /// Its place among all nodes.
    pub at: usize,
    /// When it stays.
    pub condition: Condition,
    /// Whether it goes where it is shallow-empty.
    pub guarded: bool,
}

/// What becomes of a value whose children were read.
#[derive(Clone, Copy, Debug, PartialEq, Eq)]
pub enum Outcome {
    /// It stays, with all that stands in it.
    Stays,
    /// It becomes the text in it, with raised digits.
    Raised,
    /// Only the fragment that starts in it stays.
    Fragment,
    /// It goes.
    Goes,
}

fn is_cell(info: &RenderInfo) -> bool
    ensures { result ≡ is_cell info.now }
{
    match info {
        RenderInfo::TableCell { .. } => true,
        _ => false,
    }
}

fn any_cell(nodes: &[RenderNode]) -> bool
    ensures { result ≡ list_any (λ node. is_cell node.head.info) nodes.now }
{
    nodes.iter().any(|node| is_cell(&node.head.info))
}

// whether a cell stands in some values, at any depth
fn has_cells(nodes: &[RenderNode]) -> bool
    requires { IsFlat nodes.now }
    ensures { result ≡ has_cells (values_of nodes.now) }
{
    any_cell(nodes)
}

// whether an element has its value, by what stands in it
fn shows(condition: Condition, inside: &[RenderNode]) -> bool
    requires { IsFlat inside.now }
    ensures { result ≡ shows condition (values_of inside.now) }
{
    match condition {
        Condition::Never => false,
        Condition::Always | Condition::Digits => true,
        Condition::AnyShown => !all_shallow_empty(inside),
        Condition::AnyValue => !inside.is_empty(),
        Condition::AnyCell => has_cells(inside),
    }
}

// whether a value is one text of digits that is raised
fn is_raised(condition: Condition, inside: &[RenderNode]) -> bool
    requires { IsFlat inside.now }
    ensures { result ≡ is_raised condition (values_of inside.now) }
{
    match condition {
        Condition::Digits => is_number(inside),
        _ => false,
    }
}

// what becomes of a value, with what stands in it
fn ending(head: &Head, condition: Condition, guarded: bool, inside: &[RenderNode]) -> Outcome
    requires { IsFlat inside.now }
    ensures { result ≡ ending condition guarded head.now (values_of inside.now) }
{
    if !shows(condition, inside) {
        if guarded || head.fragment.is_none() {
            return Outcome::Goes;
        }
        return Outcome::Fragment;
    }
    if is_raised(condition, inside) {
        return Outcome::Raised;
    }
    if guarded && is_shallow_empty(head, inside.is_empty()) {
        return Outcome::Goes;
    }
    Outcome::Stays
}

// what becomes of the value at a place, with all that stands after it
fn ending_at(nodes: &[RenderNode], opened: Opened) -> Outcome
    requires flat { IsFlat nodes.now }
    requires there { opened.at < length nodes.now }
    ensures { result ≡ ending_first opened.condition opened.guarded (drop opened.at nodes.now) }
{
    match nodes_after(nodes, opened.at).split_first() {
        Some((first, inside)) => ending(&first.head, opened.condition, opened.guarded, inside),
        None => Outcome::Goes,
    }
}

// all that stands after a value stands in it
fn hold_rest(nodes: &mut Vec<RenderNode>, at: usize)
    requires { at < length nodes.old.items }
    ensures { nodes.new.items ≡ held at nodes.old.items }
{
    let below = nodes.len() - at - 1;
    nodes[at].below = below;
}

fn to_fragment(node: &mut RenderNode)
    ensures { node.new ≡ fragment_alone node.old }
{
    node.below = 0;
    node.head.info = RenderInfo::Nothing;
}

// of a value only its fragment stays, and nothing after it
fn keep_fragment(nodes: &mut Vec<RenderNode>, at: usize)
    requires { at < length nodes.old.items }
    ensures { nodes.new.items ≡ with_fragment at nodes.old.items }
{
    nodes.truncate(at + 1);
    to_fragment(&mut nodes[at]);
}

fn to_raised(node: &mut RenderNode, raised: Raised)
    ensures { node.new ≡ raised_node raised node.old }
{
    node.below = 0;
    node.head.info = raised.info;
    node.head.style = raised.style;
}

// the digits that stand in a value, raised, are that value
fn raise(alloc: Global, nodes: &mut Vec<RenderNode>, at: usize) -> Result<(), AllocError>
    requires { at < length nodes.old.items }
    ensures { OnOk result (nodes.new.items ≡ with_raised at nodes.old.items) }
{
    let raised = raised_second(alloc, nodes_after(nodes.as_slice(), at))?;
    nodes.truncate(at + 1);
    to_raised(&mut nodes[at], raised);
    Ok(())
}

/// Ends a value: all that stands after it is in it, or it goes with that, or its fragment or its raised digits stay in
/// its place. The error is allocation failure alone.
pub fn close(alloc: Global, nodes: &mut Vec<RenderNode>, opened: Opened) -> Result<(), AllocError>
    requires flat { IsFlat nodes.old.items }
    requires there { opened.at < length nodes.old.items }
    ensures { OnOk result (nodes.new.items ≡ closed opened nodes.old.items) }
{
    match ending_at(nodes.as_slice(), opened) {
        Outcome::Stays => {
            hold_rest(nodes, opened.at);
            Ok(())
        }
        Outcome::Raised => raise(alloc, nodes, opened.at),
        Outcome::Fragment => {
            keep_fragment(nodes, opened.at);
            Ok(())
        }
        Outcome::Goes => {
            nodes.truncate(opened.at);
            Ok(())
        }
    }
}
