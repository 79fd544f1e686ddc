//! Rows of complete pages.
ghost use Rattle.std.specs.Prelude.{◌≡◌, IfOk};
ghost use Rattle.tree_forest.specs.Trees.{trees};
ghost use Rattle.tree_forest.specs.Forest.{children_at};
ghost use Rattle.tree_forest.specs.Orders.{IsForest};
ghost use Rattle.html_render_dom.specs.Numbers.{number_of};
ghost use Rattle.render_conversion.specs.CompleteRows.{complete_row, dialog, drawing, drawn, has_caption, html_row};
ghost use Rattle.render_conversion.specs.CompleteRows.{is_block, is_undrawn, is_unread, part, tabled};
ghost use Rattle.render_conversion.specs.Titles.{is_svg_space};

use crate::inner::Inner;
use crate::kinds::{Meaning, holds, leaf, means, nothing, pictured};
use crate::place::{Place, is_element};
use crate::titles::{is_svg, title_of};
use html_lexemes::{Attributes, Namespace, QualName, Text};
use html_render_dom::{Handle, RcDom};
use render_values::{Condition, RenderInfo};
use std::alloc::{AllocError, Global};
use tree_forest::a_tree_goes_one_step_on;
use tree_names::{is_html, is_html_one_of};
use tree_predicates::value_of;

// what a browser doesn't render, or renders elsewhere
fn is_unread(name: &QualName) -> bool
    ensures { result ≡ is_unread name.now }
{
    is_html_one_of(
        name,
        &["iframe", "noembed", "noframes", "datalist", "title"],
    )
}

fn is_block(name: &QualName) -> bool
    ensures { result ≡ is_block name.now }
{
    is_html_one_of(
        name,
        &[
            "address",
            "article",
            "aside",
            "center",
            "details",
            "fieldset",
            "figcaption",
            "figure",
            "footer",
            "form",
            "header",
            "hgroup",
            "legend",
            "main",
            "nav",
            "optgroup",
            "option",
            "search",
            "section",
            "summary",
        ],
    )
}

fn dialog(attrs: &Attributes) -> Meaning
    ensures { result ≡ dialog attrs.now }
{
    if value_of(attrs, "open").is_some() {
        return holds(RenderInfo::Division);
    }
    nothing()
}

// whether a child is a caption
fn has_caption(dom: &RcDom, node: Handle) -> bool
    requires { IsForest dom.now.forest }
    ensures { result ≡ has_caption (trees dom.now.forest (children_at (number_of node) dom.now.forest)) }
{
    a_tree_goes_one_step_on();
    let mut children = dom.children(node);
    'children: while let Some(child) = children.next() {
        if is_element(dom, child, &["caption"]) {
            return true;
        }
    }
    false
}

// a table, after its captions where it has some
fn tabled(dom: &RcDom, node: Handle) -> Meaning
    requires { IsForest dom.now.forest }
    ensures { result ≡ tabled (trees dom.now.forest (children_at (number_of node) dom.now.forest)) }
{
    if has_caption(dom, node) {
        return means(RenderInfo::Container, Condition::AnyValue, Inner::Captioned);
    }
    means(RenderInfo::Table, Condition::AnyCell, Inner::TableParts)
}

// the row of an element of HTML, where it has one
fn html_row(dom: &RcDom, node: Handle, name: &QualName, attrs: &Attributes) -> Option<Meaning>
    requires { IsForest dom.now.forest }
    ensures { result ≡ html_row name.now attrs.now
        (trees dom.now.forest (children_at (number_of node) dom.now.forest)) }
{
    if is_unread(name) {
        return Some(nothing());
    }
    if is_block(name) {
        return Some(holds(RenderInfo::Division));
    }
    if is_html(name, "dialog") {
        return Some(dialog(attrs));
    }
    if is_html(name, "hr") {
        return Some(leaf(RenderInfo::Rule));
    }
    if is_html_one_of(name, &["menu", "dir"]) {
        let items = Inner::Children(Place::Items);
        return Some(means(RenderInfo::Bullets, Condition::AnyValue, items));
    }
    if is_html_one_of(name, &["listing", "plaintext", "xmp"]) {
        return Some(holds(RenderInfo::Preformatted));
    }
    if is_html(name, "q") {
        return Some(means(RenderInfo::Container, Condition::Always, Inner::Quoted));
    }
    if is_html(name, "table") {
        return Some(tabled(dom, node));
    }
    None
}

// what describes a drawing, or isn't drawn by itself
fn is_undrawn(name: &QualName) -> bool
    ensures { result ≡ is_undrawn name.now }
{
    is_svg(name, "defs")
        || is_svg(name, "desc")
        || is_svg(name, "metadata")
        || is_svg(name, "script")
        || is_svg(name, "style")
        || is_svg(name, "symbol")
        || is_svg(name, "title")
}

// a part of a drawing, where something in it shows
fn part() -> Meaning
    ensures { result ≡ part }
{
    means(
        RenderInfo::Container,
        Condition::AnyShown,
        Inner::Children(Place::Flow),
    )
}

// a drawing: with a title an image
fn drawing(alloc: Global, title: Option<Text>) -> Result<Meaning, AllocError>
    ensures { IfOk result (λ m. m ≡ drawing title) }
{
    match title {
        Some(title) => pictured(alloc, Some(title)),
        None => Ok(part()),
    }
}

// the row of an element of SVG
fn drawn(alloc: Global, dom: &RcDom, node: Handle, name: &QualName) -> Result<Meaning, AllocError>
    requires { IsForest dom.now.forest }
    ensures { IfOk result (λ m. m ≡ drawn name.now
        (trees dom.now.forest (children_at (number_of node) dom.now.forest))) }
{
    if is_undrawn(name) {
        return Ok(nothing());
    }
    if is_svg(name, "svg") {
        let title = title_of(alloc, dom, node)?;
        return drawing(alloc, title);
    }
    if is_svg(name, "text") || is_svg(name, "foreignobject") {
        return Ok(means(RenderInfo::Container, Condition::AnyShown, Inner::Spaced));
    }
    if is_svg(name, "tspan") {
        return Ok(holds(RenderInfo::Container));
    }
    Ok(part())
}

// whether a name is one of SVG
fn is_svg_space(space: &Namespace) -> bool
    ensures { result ≡ is_svg_space space.now }
{
    match space {
        Namespace::Svg => true,
        Namespace::Html => false,
        Namespace::MathMl => false,
        Namespace::Other(_) => false,
    }
}

/// The row of an element that complete pages have before the others, where they have one. The error is allocation
/// failure alone.
pub(crate) fn complete_row(
    alloc: Global,
    dom: &RcDom,
    node: Handle,
    name: &QualName,
    attrs: &Attributes,
) -> Result<Option<Meaning>, AllocError>
    requires { IsForest dom.now.forest }
    ensures { IfOk result (λ row. row ≡ complete_row name.now attrs.now
        (trees dom.now.forest (children_at (number_of node) dom.now.forest))) }
{
    if is_svg_space(&name.ns) {
        return Ok(Some(drawn(alloc, dom, node, name)?));
    }
    Ok(html_row(dom, node, name, attrs))
}
