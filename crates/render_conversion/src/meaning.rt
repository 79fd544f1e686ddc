//! What a node means to a render tree.
ghost use Rattle.std.specs.Prelude.{◌≡◌, [], IfOk, option_map};
ghost use Rattle.tree_forest.specs.Trees.{trees};
ghost use Rattle.tree_forest.specs.Forest.{children_at, kind_at};
ghost use Rattle.tree_forest.specs.Orders.{IsForest};
ghost use Rattle.html_render_dom.specs.Numbers.{number_of};
ghost use Rattle.render_conversion.specs.Kinds.{means};
ghost use Rattle.render_conversion.specs.Meanings.{cell, element_means, imaged, linked, meaning, or_empty, plain_row};
ghost use Rattle.render_conversion.specs.Meanings.{row_of};
ghost use Rattle.render_conversion.specs.declared.element_names.ElementName.TheVariants as elements;
ghost use Rattle.render_conversion.specs.declared.inner.Inner.TheVariants.{Children};
ghost use Rattle.render_conversion.specs.declared.place.Place.TheVariants.{Cells, Flow, Rows};
ghost use Rattle.render_values.specs.declared.closing.Condition.TheVariants.{Always, AnyValue};
ghost use Rattle.render_values.specs.declared.info.RenderInfo.TheVariants.{Container, TableGroup, TableRow};
ghost use Rattle.tree_predicates.specs.Attributes.{value_of};

use crate::complete_rows::complete_row;
use crate::element_names::{ElementName, element_name};
use crate::inner::Inner;
use crate::kinds::{Meaning, copied, holds, leaf, means, nothing, pictured};
use crate::numbers::{span_of, start_of};
use crate::options::Pages;
use crate::place::Place;
use crate::titles::{is_svg, title_of};
use html_lexemes::{Attributes, QualName, Text};
use html_render_dom::{Handle, NodeData, RcDom};
use render_values::{Condition, RenderInfo, Title};
use std::alloc::{AllocError, Global};
use tree_predicates::value_of;

fn linked(target: Option<&Text>) -> Result<Meaning, AllocError>
    ensures { IfOk result (λ m. m ≡ linked (option_map (λ t. t.now) target.entry)) }
{
    match target {
        Some(target) => {
            let info = RenderInfo::Link(target.try_clone()?);
            Ok(means(info, Condition::AnyShown, Inner::Children(Place::Flow)))
        }
        None => Ok(holds(RenderInfo::Container)),
    }
}

fn imaged(
    alloc: Global,
    source: Option<&Text>,
    alternative: Option<&Text>,
) -> Result<Meaning, AllocError>
    ensures { IfOk result (λ m. m ≡ imaged (or_empty (option_map (λ t. t.now) source.entry))
        (option_map (λ t. t.now) alternative.entry)) }
{
    let source = copied(alloc, source)?;
    if source.as_str().is_empty() {
        return Ok(nothing());
    }
    let title = Title::new(alloc, copied(alloc, alternative)?)?;
    Ok(leaf(RenderInfo::Image { source, title }))
}

fn word_break(alloc: Global) -> Result<Meaning, AllocError>
    ensures { IfOk result (λ m. m ≡ row_of elements.WordBreak []) }
{
    Ok(leaf(RenderInfo::Text(Text::from_str(alloc, "\u{200B}")?)))
}

fn numbers(attrs: &Attributes) -> Meaning
    ensures { result ≡ row_of elements.Numbers attrs.now }
{
    let start = start_of(value_of(attrs, "start"));
    means(
        RenderInfo::Numbers(start),
        Condition::AnyValue,
        Inner::Children(Place::Items),
    )
}

// the row of an element of HTML
fn row_of(alloc: Global, name: ElementName, attrs: &Attributes) -> Result<Meaning, AllocError>
    ensures { IfOk result (λ m. m ≡ row_of name attrs.now) }
{
    match name {
        ElementName::Anchor => linked(value_of(attrs, "href")),
        ElementName::Image => imaged(alloc, value_of(attrs, "src"), value_of(attrs, "alt")),
        ElementName::WordBreak => word_break(alloc),
        ElementName::LeftOut => Ok(nothing()),
        ElementName::Emphasis => Ok(holds(RenderInfo::Emphasis)),
        ElementName::Strong => Ok(holds(RenderInfo::Strong)),
        ElementName::Strikeout => Ok(holds(RenderInfo::Strikeout)),
        ElementName::Code => Ok(holds(RenderInfo::Code)),
        ElementName::Superscript => Ok(means(
            RenderInfo::Superscript,
            Condition::Digits,
            Inner::Children(Place::Flow),
        )),
        ElementName::Break => Ok(leaf(RenderInfo::Break)),
        ElementName::Paragraph => Ok(holds(RenderInfo::Block)),
        ElementName::Division => Ok(holds(RenderInfo::Division)),
        ElementName::Heading(level) => Ok(holds(RenderInfo::Heading(level))),
        ElementName::Quote => Ok(holds(RenderInfo::Quote)),
        ElementName::Preformatted => Ok(holds(RenderInfo::Preformatted)),
        ElementName::Bullets => Ok(means(
            RenderInfo::Bullets,
            Condition::AnyValue,
            Inner::Children(Place::Items),
        )),
        ElementName::Numbers => Ok(numbers(attrs)),
        ElementName::Descriptions => Ok(holds(RenderInfo::Descriptions)),
        ElementName::Term => Ok(holds(RenderInfo::Term)),
        ElementName::Details => Ok(holds(RenderInfo::Details)),
        ElementName::Table => Ok(means(
            RenderInfo::Table,
            Condition::AnyCell,
            Inner::Children(Place::Groups),
        )),
        ElementName::Other => Ok(holds(RenderInfo::Container)),
    }
}

fn cell(attrs: &Attributes) -> Meaning
    ensures { result ≡ cell attrs.now }
{
    holds(RenderInfo::TableCell {
        columns: span_of(value_of(attrs, "colspan")),
        rows: span_of(value_of(attrs, "rowspan")),
    })
}

// the rows of elements of HTML, and drawings
fn plain_row(
    alloc: Global,
    dom: &RcDom,
    node: Handle,
    name: &QualName,
    attrs: &Attributes,
) -> Result<Meaning, AllocError>
    requires { IsForest dom.now.forest }
    ensures { IfOk result (λ m. m ≡ plain_row name.now attrs.now
        (trees dom.now.forest (children_at (number_of node) dom.now.forest))) }
{
    if is_svg(name, "svg") {
        let title = title_of(alloc, dom, node)?;
        return pictured(alloc, title);
    }
    row_of(alloc, element_name(name), attrs)
}

// an element where values stand in a row
fn flowing_element(
    alloc: Global,
    dom: &RcDom,
    pages: Pages,
    node: Handle,
    name: &QualName,
    attrs: &Attributes,
) -> Result<Meaning, AllocError>
    requires { IsForest dom.now.forest }
    ensures { IfOk result (λ m. m ≡ element_means pages Flow name.now attrs.now
        (trees dom.now.forest (children_at (number_of node) dom.now.forest))) }
{
    match pages {
        Pages::Plain => plain_row(alloc, dom, node, name, attrs),
        Pages::Complete => match complete_row(alloc, dom, node, name, attrs)? {
            Some(meaning) => Ok(meaning),
            None => plain_row(alloc, dom, node, name, attrs),
        },
    }
}

fn table_group() -> Meaning
    ensures { result ≡ means TableGroup Always (Children Rows) }
{
    means(
        RenderInfo::TableGroup,
        Condition::Always,
        Inner::Children(Place::Rows),
    )
}

fn table_row() -> Meaning
    ensures { result ≡ means TableRow Always (Children Cells) }
{
    means(
        RenderInfo::TableRow,
        Condition::Always,
        Inner::Children(Place::Cells),
    )
}

fn element_means(
    alloc: Global,
    dom: &RcDom,
    pages: Pages,
    node: Handle,
    place: Place,
    name: &QualName,
    attrs: &Attributes,
) -> Result<Meaning, AllocError>
    requires { IsForest dom.now.forest }
    ensures { IfOk result (λ m. m ≡ element_means pages place name.now attrs.now
        (trees dom.now.forest (children_at (number_of node) dom.now.forest))) }
{
    match place {
        Place::Groups => Ok(table_group()),
        Place::Feet => Ok(table_group()),
        Place::Captions => Ok(holds(RenderInfo::Block)),
        Place::Rows => Ok(table_row()),
        Place::Cells => Ok(cell(attrs)),
        Place::Flow => flowing_element(alloc, dom, pages, node, name, attrs),
        Place::Items => flowing_element(alloc, dom, pages, node, name, attrs),
        Place::Nowhere => flowing_element(alloc, dom, pages, node, name, attrs),
    }
}

fn document() -> Meaning
    ensures { result ≡ means Container AnyValue (Children Flow) }
{
    means(
        RenderInfo::Container,
        Condition::AnyValue,
        Inner::Children(Place::Flow),
    )
}

/// What a node that stands at a place means; one that isn't there is taken for a document. The error is allocation
/// failure alone.
pub(crate) fn meaning_of(
    alloc: Global,
    dom: &RcDom,
    pages: Pages,
    node: Handle,
    place: Place,
) -> Result<Meaning, AllocError>
    requires { IsForest dom.now.forest }
    ensures { IfOk result (λ m. m ≡ meaning pages place (kind_at (number_of node) dom.now.forest)
        (trees dom.now.forest (children_at (number_of node) dom.now.forest))) }
{
    match dom.data(node) {
        Some(NodeData::Element { name, attrs, .. }) => {
            element_means(alloc, dom, pages, node, place, name, attrs)
        }
        Some(NodeData::Text { contents }) => Ok(leaf(RenderInfo::Text(contents.try_clone()?))),
        Some(NodeData::Document) => Ok(document()),
        Some(NodeData::Comment { .. }) => Ok(nothing()),
        Some(NodeData::Doctype { .. }) => Ok(nothing()),
        Some(NodeData::ProcessingInstruction { .. }) => Ok(nothing()),
        None => Ok(document()),
    }
}
