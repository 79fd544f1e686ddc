//! What rules of style say of nodes.
ghost use Rattle.std.specs.Prelude.{◌≡◌, ℕ, List, [], Option, IsTrue, chars, false, is_some, option_map};
ghost use Rattle.tree_forest.specs.Forest.{kind_at};
ghost use Rattle.html_lexemes.specs.declared.names.QualName.{QualName};
ghost use Rattle.html_render_dom.specs.Numbers.{number_of};
ghost use Rattle.html_render_dom.specs.Styled.{IsStyledBy};
ghost use Rattle.dom_styles.specs.Seen.{IsStyled};
ghost use Rattle.dom_styles.specs.Styles.{background_of, colour_of, content_of, declared_at, display_of};
ghost use Rattle.dom_styles.specs.Styles.{white_space_of};
ghost use Rattle.dom_styles.specs.declared.rules.StylePlace.{StylePlace};
ghost use Rattle.dom_styles.specs.declared.rules.StyleRule.{StyleRule};
ghost use Rattle.render_conversion.specs.Heads.{look_of};
ghost use Rattle.render_conversion.specs.Seen.{seen_part, seen_parts};
ghost use Rattle.render_conversion.specs.Styles.{all_unset, declared, part_at, parts_by, parts_of, styles_of, unset};

use dom_styles::{ComputedStyle, Display, PlaceStyle, StyleRule, the_cascade_is_a_function};
use html_lexemes::{LocalName, Text};
use html_render_dom::{Handle, RcDom};
use render_values::{RenderInfo, RenderStyle};
use text_decorators::Colour;
use text_pieces::WhiteSpace;

/// What rules say of a place of an element.
#[derive(Clone, Copy)]
pub(crate) struct PartStyle<'a> {
    /// How it looks.
    pub(crate) look: RenderStyle,
    /// Whether it is hidden.
    pub(crate) hidden: bool,
    /// The text that stands there.
    pub(crate) content: Option<&'a str>,
}

/// What rules say of a node.
#[derive(Clone, Copy)]
pub(crate) struct NodeStyle<'a> {
    /// Of itself.
    pub(crate) itself: PartStyle<'a>,
    /// Of what stands before its children.
    pub(crate) before: PartStyle<'a>,
    /// Of what stands after its children.
    pub(crate) after: PartStyle<'a>,
}

fn colour(style: &PlaceStyle<'_>) -> Option<Colour>
    ensures { (place : StylePlace) (rules : List StyleRule) (name : List ℕ)
        → IsStyled (declared_at name place rules) style.now → result ≡ declared colour_of place rules name }
{
    the_cascade_is_a_function::<Colour>();
    style.colour.val().copied()
}

fn background(style: &PlaceStyle<'_>) -> Option<Colour>
    ensures { (place : StylePlace) (rules : List StyleRule) (name : List ℕ)
        → IsStyled (declared_at name place rules) style.now → result ≡ declared background_of place rules name }
{
    the_cascade_is_a_function::<Colour>();
    style.bg_colour.val().copied()
}

fn white_space(style: &PlaceStyle<'_>) -> Option<WhiteSpace>
    ensures { (place : StylePlace) (rules : List StyleRule) (name : List ℕ)
        → IsStyled (declared_at name place rules) style.now → result ≡ declared white_space_of place rules name }
{
    the_cascade_is_a_function::<WhiteSpace>();
    style.white_space.val().copied()
}

fn hidden(style: &PlaceStyle<'_>) -> bool
    ensures { (place : StylePlace) (rules : List StyleRule) (name : List ℕ)
        → IsStyled (declared_at name place rules) style.now
        → result ≡ is_some (declared display_of place rules name) }
{
    the_cascade_is_a_function::<Display>();
    style.display.val().is_some()
}

fn content<'a>(style: &PlaceStyle<'a>) -> Option<&'a str>
    ensures { (place : StylePlace) (rules : List StyleRule) (name : List ℕ)
        → IsStyled (declared_at name place rules) style.now
        → option_map (λ t. chars t.now) result ≡ declared content_of place rules name }
{
    the_cascade_is_a_function::<Text>();
    style.content.val().copied()
}

fn part<'a>(style: &PlaceStyle<'a>) -> PartStyle<'a>
    ensures { (place : StylePlace) (rules : List StyleRule) (name : List ℕ)
        → IsStyled (declared_at name place rules) style.now → seen_part result ≡ part_at place rules name }
{
    PartStyle {
        look: RenderStyle {
            colour: colour(style),
            background: background(style),
            white_space: white_space(style),
        },
        hidden: hidden(style),
        content: content(style),
    }
}

fn parts<'a>(style: &ComputedStyle<'a>) -> NodeStyle<'a>
    ensures { (rules : List StyleRule) (name : Option QualName) → IsStyledBy name rules style.now
        → seen_parts result ≡ parts_by (styles_of rules) name }
{
    NodeStyle {
        itself: part(&style.itself),
        before: part(&style.before),
        after: part(&style.after),
    }
}

// Whether a rule is for elements of the name.
fn is_named(rules: &[StyleRule], name: &LocalName) -> bool
    ensures { result ≡ false → (place : StylePlace) → declared_at name.now place rules.now ≡ [] }
{
    let mut rest = rules;
    while let Some((rule, others)) = rest.split_first() {
        if rule.element == *name {
            return true;
        }
        rest = others;
    }
    false
}

// Whether rules say nothing of a node.
fn is_unset(dom: &RcDom, node: Handle, rules: &[StyleRule]) -> bool
    ensures { IsTrue result
        → parts_of (styles_of rules.now) (kind_at (number_of node) dom.now.forest) ≡ all_unset }
{
    match dom.element_name(node) {
        Some(name) => !is_named(rules, &name.local),
        None => true,
    }
}

fn unset_part<'a>() -> PartStyle<'a>
    ensures { seen_part result ≡ unset }
{
    PartStyle {
        look: RenderStyle {
            colour: None,
            background: None,
            white_space: None,
        },
        hidden: false,
        content: None,
    }
}

fn all_unset<'a>() -> NodeStyle<'a>
    ensures { seen_parts result ≡ all_unset }
{
    NodeStyle {
        itself: unset_part(),
        before: unset_part(),
        after: unset_part(),
    }
}

/// What rules say of a node.
pub(crate) fn style_of<'a>(dom: &RcDom, node: Handle, rules: &'a [StyleRule]) -> NodeStyle<'a>
    ensures { seen_parts result ≡ parts_of (styles_of rules.now) (kind_at (number_of node) dom.now.forest) }
{
    // The common case makes no styles.
    if is_unset(dom, node, rules) {
        return all_unset();
    }
    parts(&dom.computed_style(node, rules))
}

/// How a kind of value looks: preformatted text keeps its white space unless a rule says other.
pub(crate) fn look_of(info: &RenderInfo, look: RenderStyle) -> RenderStyle
    ensures { result ≡ look_of info.now look }
{
    match info {
        RenderInfo::Preformatted => RenderStyle {
            white_space: look.white_space.or(Some(WhiteSpace::Pre)),
            ..look
        },
        _ => look,
    }
}
