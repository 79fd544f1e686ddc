//! Nodes that are moved, in any sink.
ghost use Rattle.std.specs.Prelude.{◌≡◌, OnOk};
ghost use Rattle.tree_forest.specs.Forest.{page_alone};
ghost use Rattle.test_trees.specs.Pages.{fostered, given_page, moved, refilled_page, reparented_page};

use crate::words::PLAIN;
use html_lexemes::{Attributes, ParseFault, QualName};
use std::alloc::Global;
use tree_forest::{NodeOrText, TreeSink};

/// Three elements below the document. The first is moved before its own next sibling, and the second to the end.
pub(crate) fn move_siblings<S: TreeSink>(
    alloc: Global,
    sink: &mut S,
    first: QualName,
    second: QualName,
    third: QualName,
) -> Result<(), ParseFault>
    requires { S.view.forest sink.old ≡ page_alone }
    ensures { OnOk result (S.view.forest sink.new ≡ moved first second third) }
{
    let document = sink.get_document();
    let a = sink.create_element(first, Attributes::new(alloc), PLAIN)?;
    sink.append(document, NodeOrText::AppendNode(a))?;
    let b = sink.create_element(second, Attributes::new(alloc), PLAIN)?;
    sink.append(document, NodeOrText::AppendNode(b))?;
    let c = sink.create_element(third, Attributes::new(alloc), PLAIN)?;
    sink.append(document, NodeOrText::AppendNode(c))?;
    sink.remove_from_parent(a)?;
    sink.append_before_sibling(b, NodeOrText::AppendNode(a))?;
    sink.remove_from_parent(b)?;
    sink.append(document, NodeOrText::AppendNode(b))?;
    Ok(())
}

/// An element that is put before a table, and another, once the table has no parent.
pub(crate) fn foster<S: TreeSink>(
    alloc: Global,
    sink: &mut S,
    table: QualName,
    first: QualName,
    second: QualName,
) -> Result<(), ParseFault>
    requires { S.view.forest sink.old ≡ page_alone }
    ensures { OnOk result (S.view.forest sink.new ≡ fostered table first second) }
{
    let document = sink.get_document();
    let table = sink.create_element(table, Attributes::new(alloc), PLAIN)?;
    sink.append(document, NodeOrText::AppendNode(table))?;
    let a = sink.create_element(first, Attributes::new(alloc), PLAIN)?;
    sink.append_based_on_parent_node(table, document, NodeOrText::AppendNode(a))?;
    sink.remove_from_parent(table)?;
    let b = sink.create_element(second, Attributes::new(alloc), PLAIN)?;
    sink.append_based_on_parent_node(table, a, NodeOrText::AppendNode(b))?;
    Ok(())
}

/// An element with two children, which go to a new element, which is put below it.
pub(crate) fn wrap_children<S: TreeSink>(
    alloc: Global,
    sink: &mut S,
    outer: QualName,
    first: QualName,
    second: QualName,
    inner: QualName,
) -> Result<(), ParseFault>
    requires { S.view.forest sink.old ≡ page_alone }
    ensures { OnOk result (S.view.forest sink.new ≡ reparented_page outer first second inner) }
{
    let document = sink.get_document();
    let outer = sink.create_element(outer, Attributes::new(alloc), PLAIN)?;
    sink.append(document, NodeOrText::AppendNode(outer))?;
    let a = sink.create_element(first, Attributes::new(alloc), PLAIN)?;
    sink.append(outer, NodeOrText::AppendNode(a))?;
    let b = sink.create_element(second, Attributes::new(alloc), PLAIN)?;
    sink.append(outer, NodeOrText::AppendNode(b))?;
    let inner = sink.create_element(inner, Attributes::new(alloc), PLAIN)?;
    sink.reparent_children(outer, inner)?;
    sink.append(outer, NodeOrText::AppendNode(inner))?;
    Ok(())
}

/// An element whose child goes to another one, after the child that stands there.
pub(crate) fn give_children<S: TreeSink>(
    alloc: Global,
    sink: &mut S,
    from: QualName,
    first: QualName,
    to: QualName,
    second: QualName,
) -> Result<(), ParseFault>
    requires { S.view.forest sink.old ≡ page_alone }
    ensures { OnOk result (S.view.forest sink.new ≡ given_page from first to second) }
{
    let document = sink.get_document();
    let from = sink.create_element(from, Attributes::new(alloc), PLAIN)?;
    sink.append(document, NodeOrText::AppendNode(from))?;
    let a = sink.create_element(first, Attributes::new(alloc), PLAIN)?;
    sink.append(from, NodeOrText::AppendNode(a))?;
    let to = sink.create_element(to, Attributes::new(alloc), PLAIN)?;
    sink.append(document, NodeOrText::AppendNode(to))?;
    let b = sink.create_element(second, Attributes::new(alloc), PLAIN)?;
    sink.append(to, NodeOrText::AppendNode(b))?;
    sink.reparent_children(from, to)?;
    Ok(())
}

/// An element whose only child is taken out, and that is given another.
pub(crate) fn refill<S: TreeSink>(
    alloc: Global,
    sink: &mut S,
    outer: QualName,
    first: QualName,
    second: QualName,
) -> Result<(), ParseFault>
    requires { S.view.forest sink.old ≡ page_alone }
    ensures { OnOk result (S.view.forest sink.new ≡ refilled_page outer first second) }
{
    let document = sink.get_document();
    let outer = sink.create_element(outer, Attributes::new(alloc), PLAIN)?;
    sink.append(document, NodeOrText::AppendNode(outer))?;
    let a = sink.create_element(first, Attributes::new(alloc), PLAIN)?;
    sink.append(outer, NodeOrText::AppendNode(a))?;
    sink.remove_from_parent(a)?;
    let b = sink.create_element(second, Attributes::new(alloc), PLAIN)?;
    sink.append(outer, NodeOrText::AppendNode(b))?;
    Ok(())
}
