//! A page's nodes, one after another.
ghost use Rattle.std.specs.Prelude.{◌≡◌, ◌∷◌, ◌++◌, [], OnOk};
ghost use Rattle.tree_forest.specs.Forest.{children_at, kind_at};
ghost use Rattle.tree_forest.specs.Orders.{IsForest};
ghost use Rattle.html_render_dom.specs.Numbers.{number_of};
ghost use Rattle.render_values.specs.Arena.{IsFlat};
ghost use Rattle.render_conversion.specs.Heads.{head_of};
ghost use Rattle.render_conversion.specs.Styles.{Styles, styles_of};
ghost use Rattle.render_conversion.specs.declared.inner.Inner.TheVariants.{TableParts};
ghost use Rattle.render_conversion.specs.Seen.{seen_part};
ghost use Rattle.render_conversion.specs.Turns.{AreOpen, IsDone, children_turns, closings, later, trailings};
ghost use Rattle.render_conversion.specs.declared.options.ConversionOptions.{ConversionOptions as SeenOptions};
ghost use Rattle.render_conversion.specs.declared.turns.Turn.TheVariants.{After, Row, Table, Visit};

use crate::contents::say;
use crate::fragments::fragment_of;
use crate::inner::{Inner, push_closing, push_opening};
use crate::meaning::meaning_of;
use crate::options::ConversionOptions;
use crate::place::{Place, is_guarded, is_shown};
use crate::styles::{PartStyle, look_of, style_of};
use crate::turns::{Turn, Turns, push_visits};
use dom_styles::StyleRule;
use html_render_dom::{ChildNodes, Handle, RcDom};
use render_values::{Condition, Head, Opened, RenderInfo, RenderNode, RenderStyle, close};
use std::alloc::{AllocError, Global};
use tree_forest::a_tree_goes_one_step_on;

/// Does all that is still to be done. The error is allocation failure alone.
pub(crate) fn read_all<'a>(
    alloc: Global,
    dom: &'a RcDom,
    options: ConversionOptions,
    rules: &[StyleRule],
    nodes: &mut Vec<RenderNode>,
    turns: &mut Turns<'a>,
) -> Result<(), AllocError>
    requires forest { IsForest dom.now.forest }
    requires ordered { AreOpen nodes.old.items turns.old }
    requires flat { IsFlat nodes.old.items }
    ensures all { OnOk result (nodes.new.items
        ≡ later options (styles_of rules.now) dom.now.forest turns.old nodes.old.items) }
    ensures flat { OnOk result (IsFlat nodes.new.items) }
{
    'turns: while let Some(turn) = turns.pop() {
        take(alloc, dom, options, rules, turn, nodes, turns)?;
    }
    Ok(())
}

// does what is to be done first
fn take<'a>(
    alloc: Global,
    dom: &'a RcDom,
    options: ConversionOptions,
    rules: &[StyleRule],
    turn: Turn<'a>,
    nodes: &mut Vec<RenderNode>,
    turns: &mut Turns<'a>,
) -> Result<(), AllocError>
    requires forest { IsForest dom.now.forest }
    requires ordered { AreOpen nodes.old.items (turn ∷ turns.old) }
    requires flat { IsFlat nodes.old.items }
    ensures { OnOk result (IsDone options (styles_of rules.now) dom.now.forest (turn.entry ∷ turns.old)
        nodes.old.items turns.new nodes.new.items) }
{
    match turn {
        Turn::Visit(node, place) => visit(alloc, dom, options, rules, node, place, nodes, turns),
        Turn::Row(node, others, place) => {
            visit_first(
                alloc, dom, options, rules, node, others, place, nodes, turns,
            )
        }
        Turn::After(node, place) => trailing(alloc, dom, rules, node, place, nodes, turns),
        Turn::Closing(inner) => push_closing(alloc, nodes, inner),
        Turn::Table(node) => start_table(dom, node, nodes, turns),
        Turn::Close(opened) => close(alloc, nodes, opened),
    }
}

// visits the first of some nodes; the others are visited before all else that is still to be done
fn visit_first<'a>(
    alloc: Global,
    dom: &'a RcDom,
    options: ConversionOptions,
    rules: &[StyleRule],
    node: Handle,
    others: ChildNodes<'a>,
    place: Place,
    nodes: &mut Vec<RenderNode>,
    turns: &mut Turns<'a>,
) -> Result<(), AllocError>
    requires forest { IsForest dom.now.forest }
    requires ordered { AreOpen nodes.old.items turns.old }
    requires flat { IsFlat nodes.old.items }
    ensures { OnOk result (IsDone options (styles_of rules.now) dom.now.forest (Row node others.entry place
        ∷ turns.old) nodes.old.items turns.new nodes.new.items) }
{
    a_tree_goes_one_step_on();
    push_visits(turns, others, place)?;
    visit(alloc, dom, options, rules, node, place, nodes, turns)
}

// the value of a node begins
fn push_head(
    dom: &RcDom,
    node: Handle,
    info: RenderInfo,
    look: RenderStyle,
    nodes: &mut Vec<RenderNode>,
) -> Result<(), AllocError>
    ensures { OnOk result (nodes.new.items ≡ nodes.old.items
        ++ record { head = head_of info look (kind_at (number_of node) dom.now.forest); below = 0 } ∷ []) }
{
    let style = look_of(&info, look);
    let fragment = fragment_of(dom, node)?;
    nodes.push(RenderNode {
        head: Head {
            info,
            style,
            fragment,
        },
        below: 0,
    })?;
    Ok(())
}

// visits a node: its value begins, and ends after its children's
fn visit<'a>(
    alloc: Global,
    dom: &'a RcDom,
    options: ConversionOptions,
    rules: &[StyleRule],
    node: Handle,
    place: Place,
    nodes: &mut Vec<RenderNode>,
    turns: &mut Turns<'a>,
) -> Result<(), AllocError>
    requires forest { IsForest dom.now.forest }
    requires ordered { AreOpen nodes.old.items turns.old }
    requires flat { IsFlat nodes.old.items }
    ensures { OnOk result (IsDone options (styles_of rules.now) dom.now.forest (Visit node place ∷ turns.old)
        nodes.old.items turns.new nodes.new.items) }
{
    a_tree_goes_one_step_on();
    if !is_shown(dom, node, place, options) {
        return Ok(());
    }
    let style = style_of(dom, node, rules);
    if style.itself.hidden {
        return Ok(());
    }
    let meaning = meaning_of(alloc, dom, options.pages, node, place)?;
    let inner = meaning.inner;
    let opened = Opened {
        at: nodes.len(),
        condition: meaning.condition,
        guarded: is_guarded(dom, node, place),
    };
    push_head(dom, node, meaning.info, style.itself.look, nodes)?;
    push_opening(alloc, nodes, inner)?;
    say(alloc, nodes, inner.place(), style.before)?;
    turns.push(Turn::Close(opened))?;
    push_closings(turns, inner)?;
    push_after(turns, node, inner.place(), style.after)?;
    push_children(turns, dom, node, inner)
}

// a turn for the text after all else in a value, where there is one
fn push_closings<'a>(turns: &mut Turns<'a>, inner: Inner) -> Result<(), AllocError>
    ensures { OnOk result (turns.new ≡ closings inner ++ turns.old) }
{
    if !inner.has_closing() {
        return Ok(());
    }
    turns.push(Turn::Closing(inner))
}

// turns for the children of a node, by what stands in its value
fn push_children<'a>(
    turns: &mut Turns<'a>,
    dom: &'a RcDom,
    node: Handle,
    inner: Inner,
) -> Result<(), AllocError>
    ensures { OnOk result (turns.new
        ≡ children_turns inner node (children_at (number_of node) dom.now.forest) turns.old) }
{
    match inner {
        Inner::Children(place) => push_visits(turns, dom.children(node), place),
        Inner::Quoted => push_visits(turns, dom.children(node), Place::Flow),
        Inner::Spaced => push_visits(turns, dom.children(node), Place::Flow),
        Inner::TableParts => push_table_parts(turns, dom, node),
        Inner::Captioned => {
            turns.push(Turn::Table(node))?;
            push_visits(turns, dom.children(node), Place::Captions)
        }
    }
}

// turns for the groups of a table, and after them for those that come last
fn push_table_parts<'a>(
    turns: &mut Turns<'a>,
    dom: &'a RcDom,
    node: Handle,
) -> Result<(), AllocError>
    ensures { OnOk result (turns.new
        ≡ children_turns TableParts node (children_at (number_of node) dom.now.forest) turns.old) }
{
    push_visits(turns, dom.children(node), Place::Feet)?;
    push_visits(turns, dom.children(node), Place::Groups)
}

// the table of a node begins, without a style and a fragment
fn start_table<'a>(
    dom: &'a RcDom,
    node: Handle,
    nodes: &mut Vec<RenderNode>,
    turns: &mut Turns<'a>,
) -> Result<(), AllocError>
    requires ordered { AreOpen nodes.old.items turns.old }
    requires flat { IsFlat nodes.old.items }
    requires forest { IsForest dom.now.forest }
    ensures { (options : SeenOptions) (styles : Styles) → OnOk result (IsDone options styles dom.now.forest
        (Table node ∷ turns.old) nodes.old.items turns.new nodes.new.items) }
{
    a_tree_goes_one_step_on();
    let at = nodes.len();
    turns.push(Turn::Close(Opened {
        at,
        condition: Condition::AnyCell,
        guarded: false,
    }))?;
    nodes.push(RenderNode {
        head: Head {
            info: RenderInfo::Table,
            style: RenderStyle::plain(),
            fragment: None,
        },
        below: 0,
    })?;
    push_table_parts(turns, dom, node)
}

// a turn for the text that a rule puts after a node's children, where there is one
fn push_after<'a>(
    turns: &mut Turns<'a>,
    node: Handle,
    place: Place,
    after: PartStyle<'_>,
) -> Result<(), AllocError>
    ensures { OnOk result (turns.new ≡ trailings node place (seen_part after.entry).content ++ turns.old) }
{
    if after.content.is_none() {
        return Ok(());
    }
    turns.push(Turn::After(node, place))
}

// puts a text after a node's children
fn trailing<'a>(
    alloc: Global,
    dom: &'a RcDom,
    rules: &[StyleRule],
    node: Handle,
    place: Place,
    nodes: &mut Vec<RenderNode>,
    turns: &mut Turns<'a>,
) -> Result<(), AllocError>
    requires ordered { AreOpen nodes.old.items turns.old }
    requires flat { IsFlat nodes.old.items }
    ensures { (options : SeenOptions) → OnOk result (IsDone options (styles_of rules.now) dom.now.forest
        (After node place ∷ turns.old) nodes.old.items turns.new nodes.new.items) }
{
    let style = style_of(dom, node, rules);
    say(alloc, nodes, place, style.after)
}
