//! Trees that are built into a tree in memory, compared with what WHATWG DOM and HTML say of each change.
ghost use Rattle.std.specs.Prelude.{◌≡◌};
ghost use Rattle.tree_forest.specs.Forest.{page_alone};

use crate::checks::passes;
use crate::crowds::crowd;
use crate::elements::{add_twice, ask, emit_all, fill_template};
use crate::finished::finished;
use crate::moves::{foster, give_children, move_siblings, refill, wrap_children};
use crate::outline::{Declared, build_outline, build_remarks};
use crate::texts::say_around;
use crate::words::{attributes, html_name, html_names};
use html_lexemes::{Attributes, ErrorMessage, LocalName, Namespace, ParseFault, QualName, Text};
use html_render_dom::{Handle, NodeData, RcDom};
use std::alloc::Global;
use test_tree_lines::lines_of;
use tree_forest::{QuirksMode, TreeSink};

/// What is built.
enum Page {
    Outline,
    Remarks,
    Moved,
    Fostered,
    Wrapped,
    Given,
    Refilled,
    Added,
    Filled,
    Said,
}

// what is built of which elements, and the lines of the tree
type Row = (Page, [&'static str; 4], &'static str);

static PAGES: [Row; 10] = [
    (
        Page::Outline,
        ["html", "head", "body", ""],
        "quirks\tNoQuirks
doctype\thtml\t\tabout:legacy-compat
element\thtml\thtml
 attribute\tlang\ten
 attribute\tid\t
 element\thtml\thead
 element\thtml\tbody
",
    ),
    // an instruction is inserted before the comment (WHATWG DOM, 4.2.3, "insert")
    (
        Page::Remarks,
        ["", "", "", ""],
        "quirks\tNoQuirks\ninstruction\tgo\ty z\ncomment\tx\n",
    ),
    // before its own next sibling a node stands where it stood; "append" puts it last
    (
        Page::Moved,
        ["a", "b", "c", ""],
        "quirks\tNoQuirks\nelement\thtml\ta\nelement\thtml\tc\nelement\thtml\tb\n",
    ),
    // before the table, and inside the element above it once it has no parent (WHATWG HTML, 13.2.6.1)
    (
        Page::Fostered,
        ["table", "a", "b", ""],
        "quirks\tNoQuirks\nelement\thtml\ta\n element\thtml\tb\n",
    ),
    // all children go to the new element, in order (WHATWG HTML, 13.2.6.4.7, adoption agency)
    (
        Page::Wrapped,
        ["p", "i", "u", "b"],
        "quirks\tNoQuirks
element\thtml\tp
 element\thtml\tb
  element\thtml\ti
  element\thtml\tu
",
    ),
    // children go after those that stand there (WHATWG DOM, 4.2.3, "append")
    (
        Page::Given,
        ["p", "i", "div", "b"],
        "quirks\tNoQuirks
element\thtml\tp
element\thtml\tdiv
 element\thtml\tb
 element\thtml\ti
",
    ),
    // once its only child is removed a parent has none (WHATWG DOM, 4.2.3, "remove")
    (
        Page::Refilled,
        ["p", "i", "b", ""],
        "quirks\tNoQuirks\nelement\thtml\tp\n element\thtml\tb\n",
    ),
    // those that are there keep their values (WHATWG HTML, 13.2.6.4.7, "html")
    (
        Page::Added,
        ["html", "", "", ""],
        "quirks\tNoQuirks\nelement\thtml\thtml\n attribute\ta\t1\n attribute\tb\t2\n attribute\tc\t5\n",
    ),
    // contents are no children (WHATWG HTML, 4.12.3)
    (
        Page::Filled,
        ["template", "a", "b", ""],
        "quirks\tNoQuirks
element\thtml\ttemplate
 contents
  element\thtml\ta
 element\thtml\tb
",
    ),
    // a text joins the text right before it (WHATWG HTML, 13.2.6.1, "insert a character"); a removal joins none
    (
        Page::Said,
        ["b", "", "", ""],
        "quirks\tNoQuirks\ntext\txy\ntext\txyx\n",
    ),
];

// a doctype, and two elements below one that has attributes
fn outline<S: TreeSink>(
    alloc: Global,
    sink: &mut S,
    names: (QualName, QualName, QualName),
) -> Result<(), ParseFault>
    requires { S.view.forest sink.old ≡ page_alone }
{
    let doctype = Declared {
        name: Text::from_str(alloc, "html")?,
        public_id: Text::from_str(alloc, "")?,
        system_id: Text::from_str(alloc, "about:legacy-compat")?,
    };
    let lang = attributes(alloc, &[("lang", "en"), ("id", "")])?;
    let attrs = (lang, Attributes::new(alloc), Attributes::new(alloc));
    build_outline(sink, doctype, names, attrs)
}

fn remarks<S: TreeSink>(alloc: Global, sink: &mut S) -> Result<(), ParseFault>
    requires { S.view.forest sink.old ≡ page_alone }
{
    let text = Text::from_str(alloc, "x")?;
    let target = Text::from_str(alloc, "go")?;
    let said = Text::from_str(alloc, "y z")?;
    build_remarks(sink, text, target, said)
}

fn added<S: TreeSink>(alloc: Global, sink: &mut S, name: QualName) -> Result<(), ParseFault>
    requires { S.view.forest sink.old ≡ page_alone }
{
    let attrs = attributes(alloc, &[("a", "1")])?;
    let more = attributes(alloc, &[("b", "2"), ("a", "3")])?;
    let most = attributes(alloc, &[("a", "4"), ("c", "5"), ("b", "6")])?;
    add_twice(sink, name, attrs, more, most)
}

fn build<S: TreeSink>(
    alloc: Global,
    sink: &mut S,
    page: &Page,
    words: &[&str; 4],
) -> Result<(), ParseFault>
    requires { S.view.forest sink.old ≡ page_alone }
{
    let ((a, b), (c, d)) = html_names(alloc, words)?;
    match page {
        Page::Outline => outline(alloc, sink, (a, b, c)),
        Page::Remarks => remarks(alloc, sink),
        Page::Moved => move_siblings(alloc, sink, a, b, c),
        Page::Fostered => foster(alloc, sink, a, b, c),
        Page::Wrapped => wrap_children(alloc, sink, a, b, c, d),
        Page::Given => give_children(alloc, sink, a, b, c, d),
        Page::Refilled => refill(alloc, sink, a, b, c),
        Page::Added => added(alloc, sink, a),
        Page::Filled => fill_template(alloc, sink, a, b, c),
        Page::Said => say_around(alloc, sink, a),
    }
}

// whether the lines of the tree are those of its row
fn is_built(alloc: Global, row: &Row) -> Result<bool, ParseFault> {
    let mut dom = RcDom::new(alloc)?;
    build(alloc, &mut dom, &row.0, &row.1)?;
    let tree = finished(dom);
    Ok(lines_of(alloc, &tree)?.as_str() == row.2)
}

#[test]
fn trees_are_built(rt: HostRuntime) {
    for (row, page) in PAGES.iter().enumerate() {
        passes(&rt, is_built(rt.alloc(), page), row);
    }
}

// a handle whose number a tree has not has nothing there
fn is_foreign(dom: &RcDom, page: &RcDom) -> bool {
    let document = dom.document();
    let foreign = dom.children(document).next().unwrap_or(document);
    let is_document = matches!(page.data(page.document()), Some(NodeData::Document));
    let is_none = page.data(foreign).is_none() && page.children(foreign).next().is_none();
    is_document && is_none && dom.data(foreign).is_some()
}

// the tree that gets each call that changes none, and whether a shadow root was attached
fn report_all(alloc: Global, mode: QuirksMode) -> Result<(RcDom, bool), ParseFault> {
    let mut dom = RcDom::new(alloc)?;
    let name = html_name(alloc, "html")?;
    let message = ErrorMessage::Fixed("e");
    let is_attached = emit_all(alloc, &mut dom, name, message, mode)?;
    Ok((dom, is_attached))
}

// errors and the mode change no tree
fn is_kept(alloc: Global, mode: QuirksMode, lines: &str) -> Result<bool, ParseFault> {
    let (dom, is_attached) = report_all(alloc, mode)?;
    let is_reported = matches!(dom.errors(), [error] if error.as_str() == "e");
    let is_so = !is_attached && is_reported && dom.quirks_mode() == mode;
    let page = RcDom::new(alloc)?;
    Ok(is_so && is_foreign(&dom, &page) && lines_of(alloc, &dom)?.as_str() == lines)
}

#[test]
fn what_is_reported_is_kept(rt: HostRuntime) {
    let lines = "quirks\tLimitedQuirks\nelement\thtml\thtml\n";
    passes(
        &rt,
        is_kept(rt.alloc(), QuirksMode::LimitedQuirks, lines),
        0,
    );
    let lines = "quirks\tQuirks\nelement\thtml\thtml\n";
    passes(&rt, is_kept(rt.alloc(), QuirksMode::Quirks, lines), 1);
}

// two elements of other namespaces are given as they were made, and stand nowhere
fn are_elements(alloc: Global) -> Result<bool, ParseFault> {
    let local = LocalName::from_str(alloc, "annotation-xml")?;
    let first = QualName::new(Namespace::MathMl, local);
    let copy = first.try_clone()?;
    let second = QualName::new(Namespace::Svg, LocalName::from_str(alloc, "g")?);
    let mut dom = RcDom::new(alloc)?;
    let (is_point, is_other_point, is_same, is_other, name) = ask(alloc, &mut dom, first, second)?;
    let is_so = is_point && !is_other_point && is_same && !is_other && name == copy;
    Ok(is_so && lines_of(alloc, &dom)?.as_str() == "quirks\tNoQuirks\n")
}

#[test]
fn elements_are_asked_for(rt: HostRuntime) {
    passes(&rt, are_elements(rt.alloc()), 0);
}

fn is_remark(dom: &RcDom, node: Option<Handle>, text: &str) -> bool {
    match node {
        Some(node) => match dom.data(node) {
            Some(NodeData::Comment { contents }) => contents.as_str() == text,
            _ => false,
        },
        None => false,
    }
}

// a node is inserted right before the child that is named (WHATWG DOM, 4.2.3, "insert"), however many there are
fn is_crowded(dom: &RcDom, count: usize) -> bool {
    let mut children = dom.children(dom.document());
    let is_first = is_remark(dom, children.next(), "first");
    let is_last = is_remark(dom, children.next_back(), "last");
    let is_after = is_remark(dom, children.next_back(), "after");
    let are_many = children.nth(count.saturating_sub(1)).is_some() && children.next().is_none();
    is_first && is_last && is_after && are_many
}

fn is_crowd_put(alloc: Global, count: u32) -> Result<bool, ParseFault> {
    let mut dom = RcDom::new(alloc)?;
    crowd(alloc, &mut dom, count)?;
    Ok(is_crowded(&dom, count as usize))
}

#[test]
fn a_child_has_many_before_it(rt: HostRuntime) {
    passes(&rt, is_crowd_put(rt.alloc(), 100_000), 0);
}
