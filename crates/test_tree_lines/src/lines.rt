//! The lines of single nodes, each as what it adds to others. The error is allocation failure.
ghost use Rattle.std.specs.Prelude.{◌≡◌, [], ◌+◌, ◌++◌, IfOk, OnOk, chars, codes, option_map, replicate, string_bytes};
ghost use Rattle.tree_forest.specs.Forest.{kind_at};
ghost use Rattle.html_render_dom.specs.Nodes.{kind_of};
ghost use Rattle.html_render_dom.specs.Numbers.{number_of};
ghost use Rattle.test_tree_lines.specs.TreeLines.{attribute_line, attribute_lines, contents_line, element_line, field};
ghost use Rattle.test_tree_lines.specs.TreeLines.{kind_lines, line, namespace_word, node_lines};

use html_lexemes::{Attribute, Attributes, Namespace, QualName, Text};
use html_render_dom::{Handle, NodeData, RcDom};
use std::alloc::AllocError;
use test_fields::{end_line, push_field, push_line, push_word};

pub(crate) fn one_deeper(level: usize) -> Result<usize, AllocError>
    ensures { IfOk result (λ below. below ≡ level + 1) }
{
    level.checked_add(1).ok_or(AllocError)
}

// what a node has by itself, at a level
pub(crate) fn push_node(
    lines: &mut String,
    dom: &RcDom,
    node: Handle,
    level: usize,
) -> Result<(), AllocError>
    ensures { OnOk result (chars (string_bytes lines.new) ≡ chars (string_bytes lines.old)
        ++ node_lines level (kind_at (number_of node) dom.now.forest)) }
{
    push_level(lines, level)?;
    match dom.data(node) {
        Some(content) => push_data(lines, content, level),
        None => push_other(lines),
    }
}

fn push_data(lines: &mut String, content: &NodeData, level: usize) -> Result<(), AllocError>
    ensures { OnOk result (chars (string_bytes lines.new)
        ≡ chars (string_bytes lines.old) ++ kind_lines level (kind_of content.now)) }
{
    match content {
        NodeData::Document => push_other(lines),
        NodeData::Doctype {
            name,
            public_id,
            system_id,
        } => push_doctype(lines, name, public_id, system_id),
        NodeData::Text { contents } => push_text(lines, "text", contents),
        NodeData::Comment { contents } => push_text(lines, "comment", contents),
        NodeData::ProcessingInstruction { target, contents } => {
            push_instruction(lines, target, contents)
        }
        NodeData::Element {
            name,
            attrs,
            template_contents,
            ..
        } => {
            let below = one_deeper(level)?;
            push_name(lines, name)?;
            push_attributes(lines, attrs, below)?;
            push_contents(lines, template_contents, below)
        }
    }
}

fn push_other(lines: &mut String) -> Result<(), AllocError>
    ensures { OnOk result (chars (string_bytes lines.new)
        ≡ chars (string_bytes lines.old) ++ line (codes "another node") []) }
{
    push_word(lines, "another node\n")
}

fn push_doctype(
    lines: &mut String,
    name: &Text,
    public_id: &Text,
    system_id: &Text,
) -> Result<(), AllocError>
    ensures { OnOk result (chars (string_bytes lines.new) ≡ chars (string_bytes lines.old)
        ++ line (codes "doctype") (field name.now ++ (field public_id.now ++ field system_id.now))) }
{
    push_word(lines, "doctype")?;
    push_field(lines, name.as_str())?;
    push_field(lines, public_id.as_str())?;
    push_field(lines, system_id.as_str())?;
    end_line(lines)
}

fn push_text(lines: &mut String, word: &str, text: &Text) -> Result<(), AllocError>
    ensures { OnOk result (chars (string_bytes lines.new)
        ≡ chars (string_bytes lines.old) ++ line (chars word.now) (field text.now)) }
{
    push_line(lines, word, text.as_str())
}

fn push_instruction(lines: &mut String, target: &Text, contents: &Text) -> Result<(), AllocError>
    ensures { OnOk result (chars (string_bytes lines.new) ≡ chars (string_bytes lines.old)
        ++ line (codes "instruction") (field target.now ++ field contents.now)) }
{
    push_word(lines, "instruction")?;
    push_field(lines, target.as_str())?;
    push_field(lines, contents.as_str())?;
    end_line(lines)
}

fn push_name(lines: &mut String, name: &QualName) -> Result<(), AllocError>
    ensures { OnOk result (chars (string_bytes lines.new)
        ≡ chars (string_bytes lines.old) ++ element_line name.now) }
{
    push_word(lines, "element")?;
    push_field(lines, namespace_word(&name.ns))?;
    push_field(lines, name.local.as_str())?;
    end_line(lines)
}

fn namespace_word(namespace: &Namespace) -> &str
    ensures { chars result.now ≡ namespace_word namespace.now }
{
    match namespace {
        Namespace::Html => "html",
        Namespace::MathMl => "mathml",
        Namespace::Svg => "svg",
        Namespace::Other(text) => text.as_str(),
    }
}

fn push_attributes(
    lines: &mut String,
    attributes: &Attributes,
    level: usize,
) -> Result<(), AllocError>
    ensures { OnOk result (chars (string_bytes lines.new)
        ≡ chars (string_bytes lines.old) ++ attribute_lines level attributes.now) }
{
    for attribute in attributes.as_slice() {
        push_level(lines, level)?;
        push_attribute(lines, attribute)?;
    }
    Ok(())
}

fn push_attribute(lines: &mut String, attribute: &Attribute) -> Result<(), AllocError>
    ensures { OnOk result (chars (string_bytes lines.new)
        ≡ chars (string_bytes lines.old) ++ attribute_line attribute.now) }
{
    push_word(lines, "attribute")?;
    push_field(lines, attribute.name.local.as_str())?;
    push_field(lines, attribute.value.as_str())?;
    end_line(lines)
}

fn push_contents(
    lines: &mut String,
    contents: &Option<Handle>,
    level: usize,
) -> Result<(), AllocError>
    ensures { OnOk result (chars (string_bytes lines.new)
        ≡ chars (string_bytes lines.old) ++ contents_line level (option_map number_of contents.now)) }
{
    match contents {
        Some(_) => {
            push_level(lines, level)?;
            push_word(lines, "contents\n")
        }
        None => Ok(()),
    }
}

fn push_level(lines: &mut String, level: usize) -> Result<(), AllocError>
    ensures { OnOk result (chars (string_bytes lines.new)
        ≡ chars (string_bytes lines.old) ++ replicate level 32) }
{
    'spaces: for _ in 0..level {
        push_word(lines, " ")?;
    }
    Ok(())
}
