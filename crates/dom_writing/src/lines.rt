//! The line of a node.
ghost use Rattle.std.specs.Prelude.{◌≡◌, ◌++◌, OnOk, chars, replicate};
ghost use Rattle.dom_writing.specs.Dumps.{kind_text, line_text, shown};
ghost use Rattle.tree_forest.specs.Forest.{kind_at};
ghost use Rattle.html_render_dom.specs.Numbers.{number_of};

use crate::coming::Placed;
use crate::shown::push_shown;
use html_lexemes::Text;
use html_render_dom::{Handle, NodeData, RcDom};
use std::alloc::AllocError;

// adds the line of a node
#[inline(always)]
pub(crate) fn push_line(lines: &mut Text, dom: &RcDom, next: Placed) -> Result<(), AllocError>
    ensures { OnOk result (lines.new
        ≡ lines.old ++ line_text next.level (kind_at (number_of next.node) dom.now.forest)) }
{
    push_spaces(lines, next.level)?;
    push_kind(lines, dom, next.node)?;
    lines.push_str("\n")
}

// adds so many spaces, eight at once where there are as many
#[inline(always)]
fn push_spaces(lines: &mut Text, count: usize) -> Result<(), AllocError>
    ensures { OnOk result (lines.new ≡ lines.old ++ replicate count 0x20) }
{
    'eights: for _ in 0..count / 8 {
        lines.push_str("        ")?;
    }
    'spaces: for _ in 0..count % 8 {
        lines.push_str(" ")?;
    }
    Ok(())
}

// adds what a node is; one that isn't there is shown as a document
#[inline(always)]
fn push_kind(lines: &mut Text, dom: &RcDom, node: Handle) -> Result<(), AllocError>
    ensures { OnOk result (lines.new ≡ lines.old ++ kind_text (kind_at (number_of node) dom.now.forest)) }
{
    match dom.data(node) {
        Some(NodeData::Doctype { name, .. }) => push_words(lines, "Doctype:", name.as_str()),
        Some(NodeData::Text { contents }) => push_text(lines, "Text:", contents.as_str()),
        Some(NodeData::Comment { contents }) => push_text(lines, "Comment:", contents.as_str()),
        Some(NodeData::ProcessingInstruction { target, .. }) => {
            push_words(lines, "PI:", target.as_str())
        }
        Some(NodeData::Element { name, .. }) => {
            push_words(lines, "<", name.local.as_str())?;
            lines.push_str(">")
        }
        Some(NodeData::Document) => lines.push_str("Document"),
        None => lines.push_str("Document"),
    }
}

// adds one word after another
fn push_words(lines: &mut Text, first: &str, second: &str) -> Result<(), AllocError>
    ensures { OnOk result (lines.new ≡ lines.old ++ (chars first.now ++ chars second.now)) }
{
    lines.push_str(first)?;
    lines.push_str(second)
}

// adds a text after a word, as it is shown
fn push_text(lines: &mut Text, word: &str, text: &str) -> Result<(), AllocError>
    ensures { OnOk result (lines.new ≡ lines.old ++ (chars word.now ++ shown (chars text.now))) }
{
    lines.push_str(word)?;
    push_shown(lines, text)
}
