//! The outline of a page, built into any sink.
ghost use Rattle.std.specs.Prelude.{◌≡◌, OnOk};
ghost use Rattle.tree_forest.specs.Forest.{page_alone};
ghost use Rattle.test_trees.specs.Pages.{outline, with_remarks};

use crate::words::PLAIN;
use html_lexemes::{Attributes, ParseFault, QualName, Text};
use tree_forest::{NodeOrText, TreeSink};

/// What a doctype says.
#[derive(Drop)]
pub(crate) struct Declared {
    pub(crate) name: Text,
    pub(crate) public_id: Text,
    pub(crate) system_id: Text,
}

/// A doctype and an element below the document, and two below the element.
pub(crate) fn build_outline<S: TreeSink>(
    sink: &mut S,
    doctype: Declared,
    names: (QualName, QualName, QualName),
    attrs: (Attributes, Attributes, Attributes),
) -> Result<(), ParseFault>
    requires { S.view.forest sink.old ≡ page_alone }
    ensures { OnOk result (S.view.forest sink.new ≡ outline doctype.name doctype.public_id doctype.system_id
        (names.0, attrs.0) (names.1, attrs.1) (names.2, attrs.2)) }
{
    let document = sink.get_document();
    sink.append_doctype_to_document(doctype.name, doctype.public_id, doctype.system_id)?;
    let html = sink.create_element(names.0, attrs.0, PLAIN)?;
    sink.append(document, NodeOrText::AppendNode(html))?;
    let head = sink.create_element(names.1, attrs.1, PLAIN)?;
    sink.append(html, NodeOrText::AppendNode(head))?;
    let body = sink.create_element(names.2, attrs.2, PLAIN)?;
    sink.append(html, NodeOrText::AppendNode(body))?;
    Ok(())
}

/// A comment below the document, and an instruction before it.
pub(crate) fn build_remarks<S: TreeSink>(
    sink: &mut S,
    text: Text,
    target: Text,
    said: Text,
) -> Result<(), ParseFault>
    requires { S.view.forest sink.old ≡ page_alone }
    ensures { OnOk result (S.view.forest sink.new ≡ with_remarks text target said) }
{
    let document = sink.get_document();
    let comment = sink.create_comment(text)?;
    sink.append(document, NodeOrText::AppendNode(comment))?;
    let instruction = sink.create_pi(target, said)?;
    sink.append_before_sibling(comment, NodeOrText::AppendNode(instruction))?;
    Ok(())
}
