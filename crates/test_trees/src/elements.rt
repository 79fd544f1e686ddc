//! What elements have, and what changes no tree, in any sink.
ghost use Rattle.std.specs.Prelude.{◌≡◌, IfOk, OnOk, false, true};
ghost use Rattle.tree_forest.specs.Forest.{page_alone};
ghost use Rattle.test_trees.specs.Pages.{one_element, point_page, template_page, with_both};

use crate::words::PLAIN;
use html_lexemes::{Attributes, ErrorMessage, ParseFault, QualName};
use std::alloc::Global;
use tree_forest::{ElementFlags, NodeOrText, QuirksMode, TreeSink};

/// An element below the document, to which attributes are added twice.
pub(crate) fn add_twice<S: TreeSink>(
    sink: &mut S,
    name: QualName,
    attrs: Attributes,
    more: Attributes,
    most: Attributes,
) -> Result<(), ParseFault>
    requires { S.view.forest sink.old ≡ page_alone }
    ensures { OnOk result (S.view.forest sink.new ≡ with_both name attrs more most) }
{
    let document = sink.get_document();
    let html = sink.create_element(name, attrs, PLAIN)?;
    sink.append(document, NodeOrText::AppendNode(html))?;
    sink.add_attrs_if_missing(html, more)?;
    sink.add_attrs_if_missing(html, most)?;
    Ok(())
}

/// A template with an element in its contents, and another among its children.
pub(crate) fn fill_template<S: TreeSink>(
    alloc: Global,
    sink: &mut S,
    template: QualName,
    inside: QualName,
    below: QualName,
) -> Result<(), ParseFault>
    requires { S.view.forest sink.old ≡ page_alone }
    ensures { OnOk result (S.view.forest sink.new ≡ template_page template inside below) }
{
    let flags = ElementFlags {
        template: true,
        mathml_annotation_xml_integration_point: false,
    };
    let document = sink.get_document();
    let template = sink.create_element(template, Attributes::new(alloc), flags)?;
    sink.append(document, NodeOrText::AppendNode(template))?;
    let a = sink.create_element(inside, Attributes::new(alloc), PLAIN)?;
    let contents = sink.get_template_contents(template);
    sink.append(contents, NodeOrText::AppendNode(a))?;
    let b = sink.create_element(below, Attributes::new(alloc), PLAIN)?;
    sink.append(template, NodeOrText::AppendNode(b))?;
    Ok(())
}

/// An element below the document, and all that changes no tree.
pub(crate) fn emit_all<S: TreeSink>(
    alloc: Global,
    sink: &mut S,
    name: QualName,
    message: ErrorMessage,
    mode: QuirksMode,
) -> Result<bool, ParseFault>
    requires { S.view.forest sink.old ≡ page_alone }
    ensures forest { OnOk result (S.view.forest sink.new ≡ one_element name) }
    ensures quirks { OnOk result (S.view.quirks sink.new ≡ mode) }
{
    let document = sink.get_document();
    let html = sink.create_element(name, Attributes::new(alloc), PLAIN)?;
    sink.append(document, NodeOrText::AppendNode(html))?;
    sink.set_quirks_mode(mode)?;
    sink.parse_error(message)?;
    sink.associate_with_form(html, html, document, None)?;
    sink.associate_with_form(html, html, document, Some(html))?;
    sink.mark_script_already_started(html)?;
    sink.pop(html)?;
    sink.set_current_line(3)?;
    sink.maybe_clone_an_option_into_selectedcontent(html)?;
    sink.attach_declarative_shadow(html, html, &[])
}

/// What is said of two elements: whether each is an integration point, whether the first is itself, whether the second
/// is the first, and the name of the first.
pub(crate) fn ask<S: TreeSink>(
    alloc: Global,
    sink: &mut S,
    first: QualName,
    second: QualName,
) -> Result<(bool, bool, bool, bool, QualName), ParseFault>
    requires { S.view.forest sink.old ≡ page_alone }
    ensures forest { OnOk result (S.view.forest sink.new ≡ point_page first second) }
    ensures points { IfOk result (λ found. (found.0 ≡ true) × (found.1 ≡ false)) }
    ensures same { IfOk result (λ found. (found.2 ≡ true) × (found.3 ≡ false)) }
    ensures name { IfOk result (λ found. found.4 ≡ first) }
{
    let flags = ElementFlags {
        template: false,
        mathml_annotation_xml_integration_point: true,
    };
    let a = sink.create_element(first, Attributes::new(alloc), flags)?;
    let b = sink.create_element(second, Attributes::new(alloc), PLAIN)?;
    let name = sink.elem_name(a).try_clone()?;
    let is_point = sink.is_mathml_annotation_xml_integration_point(a);
    let is_other_point = sink.is_mathml_annotation_xml_integration_point(b);
    let is_same = sink.same_node(a, a);
    let is_other = sink.same_node(b, a);
    Ok((is_point, is_other_point, is_same, is_other, name))
}
