ghost use Rattle.std.specs.Prelude.{◌≡◌, ◌++◌, IfOk, OnOk, chars, string_bytes};
ghost use Rattle.test_tree_lines.specs.TreeLines.{lines_below, lines_of, mode_word};

use crate::coming::{Coming, push_first, push_row};
use html_render_dom::RcDom;
use std::alloc::{AllocError, Global};
use test_fields::push_line;
use tree_forest::QuirksMode;

/// A line for the quirks mode, and the lines below the document. The error is allocation failure.
pub fn lines_of(alloc: Global, dom: &RcDom) -> Result<String, AllocError>
    ensures { IfOk result (λ lines. chars (string_bytes lines) ≡ lines_of dom.now) }
{
    let mut lines = String::new(alloc);
    push_line(&mut lines, "quirks", word_of(dom.quirks_mode()))?;
    push_below(&mut lines, dom)?;
    Ok(lines)
}

/// A line for each node below the document, in order, after one space for each level. Below an element its attributes
/// come first, and then a template's contents. The error is allocation failure.
pub fn lines_below(alloc: Global, dom: &RcDom) -> Result<String, AllocError>
    ensures { IfOk result (λ lines. chars (string_bytes lines) ≡ lines_below dom.now.forest) }
{
    let mut lines = String::new(alloc);
    push_below(&mut lines, dom)?;
    Ok(lines)
}

fn push_below<'a>(lines: &mut String, dom: &'a RcDom) -> Result<(), AllocError>
    ensures { OnOk result (chars (string_bytes lines.new)
        ≡ chars (string_bytes lines.old) ++ lines_below dom.now.forest) }
{
    let mut coming: Vec<Coming<'a>> = Vec::new(*lines.allocator());
    push_row(&mut coming, dom.children(dom.document()), 0)?;
    'nodes: while let Some(first) = coming.pop() {
        push_first(lines, &mut coming, dom, first)?;
    }
    Ok(())
}

fn word_of(mode: QuirksMode) -> &'static str
    ensures { chars result.now ≡ mode_word mode }
{
    match mode {
        QuirksMode::Quirks => "Quirks",
        QuirksMode::LimitedQuirks => "LimitedQuirks",
        QuirksMode::NoQuirks => "NoQuirks",
    }
}
