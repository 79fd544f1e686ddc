//! Texts, in any sink.
ghost use Rattle.std.specs.Prelude.{◌≡◌, IfOk, OnOk, codes};
ghost use Rattle.tree_forest.specs.Forest.{page_alone};
ghost use Rattle.test_trees.specs.Pages.{said_page};

use crate::words::PLAIN;
use html_lexemes::{Attributes, ParseFault, QualName, Text};
use std::alloc::{AllocError, Global};
use tree_forest::{NodeOrText, TreeSink};

fn x(alloc: Global) -> Result<Text, AllocError>
    ensures { IfOk result (λ text. text ≡ codes "x") }
{
    Text::from_str(alloc, "x")
}

fn y(alloc: Global) -> Result<Text, AllocError>
    ensures { IfOk result (λ text. text ≡ codes "y") }
{
    Text::from_str(alloc, "y")
}

/// An element with texts on both sides, each put in two calls; then the element is taken out, and a text follows.
pub(crate) fn say_around<S: TreeSink>(
    alloc: Global,
    sink: &mut S,
    name: QualName,
) -> Result<(), ParseFault>
    requires { S.view.forest sink.old ≡ page_alone }
    ensures { OnOk result (S.view.forest sink.new ≡ said_page name) }
{
    let document = sink.get_document();
    let a = sink.create_element(name, Attributes::new(alloc), PLAIN)?;
    sink.append(document, NodeOrText::AppendNode(a))?;
    let first = x(alloc)?;
    sink.append(document, NodeOrText::AppendText(first))?;
    let second = y(alloc)?;
    sink.append(document, NodeOrText::AppendText(second))?;
    let third = x(alloc)?;
    sink.append_before_sibling(a, NodeOrText::AppendText(third))?;
    let fourth = y(alloc)?;
    sink.append_based_on_parent_node(a, document, NodeOrText::AppendText(fourth))?;
    sink.remove_from_parent(a)?;
    let fifth = x(alloc)?;
    sink.append_based_on_parent_node(a, document, NodeOrText::AppendText(fifth))?;
    Ok(())
}
