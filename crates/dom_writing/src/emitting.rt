//! What is still to be emitted, emitted.
ghost use Rattle.std.specs.Prelude.{◌≡◌, ◌++◌, IfErr, OnOk};
ghost use Rattle.dom_writing.specs.Steps.{IsStep};
ghost use Rattle.dom_writing.specs.Turns.{AreReady, IsReady, calls_of_turn, pending};
ghost use Rattle.tree_forest.specs.Forest.{IsElement, attributes_of, name_of};
ghost use Rattle.tree_forest.specs.Orders.{IsForest};
ghost use Rattle.html_render_dom.specs.Numbers.{number_of};
ghost use Rattle.tree_serializer.specs.Calls.{refused, reply_of};
ghost use Rattle.tree_serializer.specs.Emitted.{IsEmitted};
ghost use Rattle.dom_writing.specs.declared.turn.Turn.TheVariants.{End, Row, Visit};

use crate::inner::inner;
use crate::turn::Turn;
use crate::visits::push_visits;
use html_lexemes::{Attributes, QualName};
use html_render_dom::{ChildNodes, Handle, NodeData, RcDom};
use tree_serializer::{SerializeFault, Serializer, a_walk_goes_one_step_on};

// emits all that is still to be emitted, the last turn first
pub(crate) fn emit_all<'a, S: Serializer>(
    dom: &'a RcDom,
    turns: &mut Vec<Turn<'a>>,
    serializer: &mut S,
) -> Result<(), SerializeFault>
    requires { IsForest dom.now.forest × AreReady dom.now.forest turns.old.items }
    ensures { IsEmitted S.means (S.seen serializer.old) (pending dom.now.forest turns.old.items) (reply_of result)
        (S.seen serializer.new) }
{
    'turns: while let Some(turn) = turns.pop() {
        emit(dom, turn, turns, serializer)?;
    }
    Ok(())
}

// emits a turn, and puts what stands in it before what is still to be emitted
fn emit<'a, S: Serializer>(
    dom: &'a RcDom,
    turn: Turn<'a>,
    turns: &mut Vec<Turn<'a>>,
    serializer: &mut S,
) -> Result<(), SerializeFault>
    requires { IsForest dom.now.forest × (IsReady dom.now.forest turn × AreReady dom.now.forest turns.old.items) }
    ensures ok { OnOk result (IsStep S.means dom.now.forest (S.seen serializer.old)
        (calls_of_turn dom.now.forest turn.entry ++ pending dom.now.forest turns.old.items)
        (S.seen serializer.new) turns.new.items) }
    ensures err { IfErr result (λ fault. IsEmitted S.means (S.seen serializer.old)
        (calls_of_turn dom.now.forest turn.entry ++ pending dom.now.forest turns.old.items)
        (refused fault) (S.seen serializer.new)) }
{
    match turn {
        Turn::Visit(node) => visit(dom, node, turns, serializer),
        Turn::Row(node, others) => visit_first(dom, node, others, turns, serializer),
        Turn::End(node) => end(dom, node, turns, serializer),
    }
}

// emits the first of some nodes, and puts the others before what is still to be emitted
fn visit_first<'a, S: Serializer>(
    dom: &'a RcDom,
    node: Handle,
    others: ChildNodes<'a>,
    turns: &mut Vec<Turn<'a>>,
    serializer: &mut S,
) -> Result<(), SerializeFault>
    requires { IsForest dom.now.forest
        × (IsReady dom.now.forest (Row node others) × AreReady dom.now.forest turns.old.items) }
    ensures ok { OnOk result (IsStep S.means dom.now.forest (S.seen serializer.old)
        (calls_of_turn dom.now.forest (Row node others.entry) ++ pending dom.now.forest turns.old.items)
        (S.seen serializer.new) turns.new.items) }
    ensures err { IfErr result (λ fault. IsEmitted S.means (S.seen serializer.old)
        (calls_of_turn dom.now.forest (Row node others.entry) ++ pending dom.now.forest turns.old.items)
        (refused fault) (S.seen serializer.new)) }
{
    push_visits(turns, others)?;
    visit(dom, node, turns, serializer)
}

// emits the end of an element
fn end<'a, S: Serializer>(
    dom: &'a RcDom,
    node: Handle,
    turns: &mut Vec<Turn<'a>>,
    serializer: &mut S,
) -> Result<(), SerializeFault>
    requires { IsElement (number_of node) dom.now.forest × AreReady dom.now.forest turns.old.items }
    ensures ok { OnOk result (IsStep S.means dom.now.forest (S.seen serializer.old)
        (calls_of_turn dom.now.forest (End node) ++ pending dom.now.forest turns.old.items)
        (S.seen serializer.new) turns.new.items) }
    ensures err { IfErr result (λ fault. IsEmitted S.means (S.seen serializer.old)
        (calls_of_turn dom.now.forest (End node) ++ pending dom.now.forest turns.old.items)
        (refused fault) (S.seen serializer.new)) }
{
    serializer.end_elem(element_name(dom, node))
}

// the name of an element
fn element_name(dom: &RcDom, node: Handle) -> &QualName
    requires { IsElement (number_of node) dom.now.forest }
    ensures { result.now ≡ name_of (number_of node) dom.now.forest }
{
    match dom.data(node) {
        Some(NodeData::Element { name, .. }) => name,
        Some(NodeData::Document) => unreachable!(),
        Some(NodeData::Doctype { .. }) => unreachable!(),
        Some(NodeData::Text { .. }) => unreachable!(),
        Some(NodeData::Comment { .. }) => unreachable!(),
        Some(NodeData::ProcessingInstruction { .. }) => unreachable!(),
        None => unreachable!(),
    }
}

// emits a node, or its beginning, with what stands in it still to be emitted
fn visit<'a, S: Serializer>(
    dom: &'a RcDom,
    node: Handle,
    turns: &mut Vec<Turn<'a>>,
    serializer: &mut S,
) -> Result<(), SerializeFault>
    requires { IsForest dom.now.forest
        × (IsReady dom.now.forest (Visit node) × AreReady dom.now.forest turns.old.items) }
    ensures ok { OnOk result (IsStep S.means dom.now.forest (S.seen serializer.old)
        (calls_of_turn dom.now.forest (Visit node) ++ pending dom.now.forest turns.old.items)
        (S.seen serializer.new) turns.new.items) }
    ensures err { IfErr result (λ fault. IsEmitted S.means (S.seen serializer.old)
        (calls_of_turn dom.now.forest (Visit node) ++ pending dom.now.forest turns.old.items)
        (refused fault) (S.seen serializer.new)) }
{
    a_walk_goes_one_step_on();
    match dom.data(node) {
        Some(NodeData::Element { name, attrs, .. }) => {
            begin(dom, node, name, attrs, turns, serializer)
        }
        Some(NodeData::Text { contents }) => serializer.write_text(contents.as_str()),
        Some(NodeData::Comment { contents }) => serializer.write_comment(contents.as_str()),
        Some(NodeData::Doctype { name, .. }) => serializer.write_doctype(name.as_str()),
        Some(NodeData::ProcessingInstruction { target, contents }) => {
            serializer.write_processing_instruction(target.as_str(), contents.as_str())
        }
        Some(NodeData::Document) => unreachable!(),
        None => unreachable!(),
    }
}

// emits the beginning of an element
fn begin<'a, S: Serializer>(
    dom: &'a RcDom,
    node: Handle,
    name: &QualName,
    attrs: &Attributes,
    turns: &mut Vec<Turn<'a>>,
    serializer: &mut S,
) -> Result<(), SerializeFault>
    requires ready { IsForest dom.now.forest × (IsElement (number_of node) dom.now.forest
        × AreReady dom.now.forest turns.old.items) }
    requires read { (name.now ≡ name_of (number_of node) dom.now.forest)
        × (attrs.now ≡ attributes_of (number_of node) dom.now.forest) }
    ensures ok { OnOk result (IsStep S.means dom.now.forest (S.seen serializer.old)
        (calls_of_turn dom.now.forest (Visit node) ++ pending dom.now.forest turns.old.items)
        (S.seen serializer.new) turns.new.items) }
    ensures err { IfErr result (λ fault. IsEmitted S.means (S.seen serializer.old)
        (calls_of_turn dom.now.forest (Visit node) ++ pending dom.now.forest turns.old.items)
        (refused fault) (S.seen serializer.new)) }
{
    a_walk_goes_one_step_on();
    serializer.start_elem(name, attrs.as_slice())?;
    turns.push(Turn::End(node))?;
    push_visits(turns, inner(dom, node))?;
    Ok(())
}
