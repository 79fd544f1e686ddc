use crate::checks::passes;
use crate::parsing::{tree_in_a_form, tree_of};
use crate::words::attribute_name;
use dom_writing::{DomString, SerializeDom};
use html_lexemes::{Device, ParseFault};
use html_render_dom::{NodeData, RcDom};
use std::alloc::{AllocError, Global};
use test_tree_lines::{lines_below, lines_of};

/// How a tree is written.
enum Form {
    /// All of it, and that the one error is there.
    Whole,
    /// What is to be looked at.
    Looked,
    /// The same of the body alone.
    LookedBody,
    Html,
}

const PARAGRAPH: &str = "quirks\tNoQuirks
doctype\thtml\t\t
element\thtml\thtml
 element\thtml\thead
 element\thtml\tbody
  element\thtml\tp
   text\tab
";

// pages, of which the second piece may be missing, and their trees
type Row = (&'static str, Option<&'static str>, Form, &'static str);

static PAGES: [Row; 9] = [
    ("<!DOCTYPE html><p>a", Some("b"), Form::Whole, PARAGRAPH),
    ("<!DOCTYPE html><p>ab", None, Form::Whole, PARAGRAPH),
    (
        "<p>a",
        None,
        Form::Looked,
        "Document\n <html>\n  <head>\n  <body>\n   <p>\n    Text:a\n",
    ),
    // a line end and a backslash
    (
        "<!DOCTYPE html><!--a\\b--><pre>c\nd",
        None,
        Form::Looked,
        "Document\n Doctype:html\n Comment:a\\\\b\n <html>\n  <head>\n  <body>\n   <pre>\n    Text:c\\nd\n",
    ),
    // what a template holds isn't written
    (
        "<template><p>x</p></template>y",
        None,
        Form::Looked,
        "Document\n <html>\n  <head>\n   <template>\n  <body>\n   Text:y\n",
    ),
    // attributes aren't written, nor namespaces
    (
        "<p id=a>b<svg><path/></svg>c",
        None,
        Form::Looked,
        "Document\n <html>\n  <head>\n  <body>\n   <p>\n    Text:b\n    <svg>\n     <path>\n    Text:c\n",
    ),
    (
        "<ul><li>a<li>b</ul>",
        None,
        Form::Looked,
        "Document\n <html>\n  <head>\n  <body>\n   <ul>\n    <li>\n     Text:a\n    <li>\n     Text:b\n",
    ),
    (
        "<p>a<b>c",
        None,
        Form::LookedBody,
        "<body>\n <p>\n  Text:a\n  <b>\n   Text:c\n",
    ),
    (
        "<p title=\"a&quot;b\">x&nbsp;y",
        None,
        Form::Html,
        "<html><head></head><body><p title=\"a&quot;b\">x&nbsp;y</p></body></html>",
    ),
];

fn is_written_so(alloc: Global, dom: &RcDom, form: &Form, text: &str) -> Result<bool, ParseFault> {
    Ok(match form {
        Form::Whole => dom.errors().len() == 1 && lines_of(alloc, dom)?.as_str() == text,
        Form::Looked => dom.as_dom_string(alloc)?.as_str() == text,
        Form::LookedBody => match dom.get_node_by_path(&[0, 1]) {
            Some(body) => dom.node_as_dom_string(alloc, body)?.as_str() == text,
            None => false,
        },
        Form::Html => {
            let mut writer = Device::new(Vec::new(alloc));
            let is_written = dom.serialize(alloc, &mut writer).is_ok();
            is_written && writer.into_inner().as_slice() == text.as_bytes()
        }
    })
}

fn is_row(alloc: Global, row: &Row) -> Result<bool, ParseFault> {
    let dom = tree_of(alloc, row.0, row.1)?;
    is_written_so(alloc, &dom, &row.2, row.3)
}

#[test]
fn trees_are_written(rt: HostRuntime) {
    for (at, row) in PAGES.iter().enumerate() {
        passes(&rt, is_row(rt.alloc(), row), at);
    }
}

// a form in a form is left out, also where the outer one holds the context
fn is_in_a_form(alloc: Global) -> Result<bool, ParseFault> {
    let dom = tree_in_a_form(alloc, "<form>a")?;
    Ok(lines_below(alloc, &dom)?.as_str() == "element\thtml\thtml\n text\ta\n")
}

#[test]
fn a_context_stands_in_a_form(rt: HostRuntime) {
    passes(&rt, is_in_a_form(rt.alloc()), 0);
}

// steps from the document of a page, and the name or the text of the node that they lead to
static PATHS: [(&[usize], Option<&str>); 7] = [
    (&[0], Some("html")),
    (&[0, 0], Some("head")),
    (&[0, 1, 0], Some("x")),
    (&[0, 1, 1], Some("p")),
    (&[0, 1, 1, 0], Some("y")),
    (&[0, 1, 2], None),
    (&[0, 1, 0, 0], None),
];

fn words_at<'a>(dom: &'a RcDom, path: &[usize]) -> Option<&'a str> {
    let node = dom.get_node_by_path(path)?;
    match (dom.element_name(node), dom.data(node)) {
        (Some(name), _) => Some(name.local.as_str()),
        (None, Some(NodeData::Text { contents })) => Some(contents.as_str()),
        _ => None,
    }
}

// attributes of the paragraph in no namespace
static ATTRIBUTES: [(&str, Option<&str>); 3] = [
    ("id", Some("a")),
    ("class", Some("k")),
    ("title", None),
];

fn are_words(dom: &RcDom) -> bool {
    for (path, words) in &PATHS {
        if words_at(dom, path) != *words {
            return false;
        }
    }
    true
}

// a body with a text and a paragraph
fn are_placed(dom: &RcDom) -> bool {
    let (document, body) = (dom.document(), dom.get_node_by_path(&[0, 1]));
    let mut children = dom.children(body.unwrap_or(document));
    let text = children.next().unwrap_or(document);
    let paragraph = children.next().unwrap_or(document);
    let is_over = children.next().is_none() && children.next_back().is_none();
    is_over
        && dom.get_node_by_path(&[]) == Some(document)
        && dom.get_parent(document).is_none()
        && dom.get_parent(text) == body
        && dom.get_parent(paragraph) == body
        && dom.element_name(text).is_none()
}

fn is_attribute(
    alloc: Global,
    dom: &RcDom,
    word: &str,
    value: Option<&str>,
) -> Result<bool, AllocError> {
    let name = attribute_name(alloc, word)?;
    let document = dom.document();
    let paragraph = dom.get_node_by_path(&[0, 1, 1]).unwrap_or(document);
    let text = dom.get_node_by_path(&[0, 1, 0]).unwrap_or(document);
    Ok(dom.attribute(paragraph, &name) == value && dom.attribute(text, &name).is_none())
}

fn are_attributes(alloc: Global, dom: &RcDom) -> Result<bool, AllocError> {
    for (word, value) in &ATTRIBUTES {
        if !is_attribute(alloc, dom, word, *value)? {
            return Ok(false);
        }
    }
    Ok(true)
}

fn are_nodes(alloc: Global) -> Result<bool, ParseFault> {
    let dom = tree_of(alloc, "x<p class=k id=a>y</p>", None)?;
    Ok(are_words(&dom) && are_placed(&dom) && are_attributes(alloc, &dom)?)
}

#[test]
fn nodes_emit_what_they_are(rt: HostRuntime) {
    passes(&rt, are_nodes(rt.alloc()), 0);
}
