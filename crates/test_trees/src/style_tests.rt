use crate::checks::{holds, passes};
use crate::parsing::tree_of;
use dom_styles::{
    Declared, Display, Importance, Specificity, Style, StyleDecl, StyleOrigin, StylePlace,
    StyleRule, WithSpec,
};
use html_lexemes::{LocalName, ParseFault, Text};
use html_render_dom::RcDom;
use std::alloc::{AllocError, Global};
use text_decorators::Colour;

const RED: Colour = Colour { r: 255, g: 0, b: 0 };

const BLUE: Colour = Colour { r: 0, g: 0, b: 255 };

const NORMAL: Importance = Importance::Default;

const IMPORTANT: Importance = Importance::Important;

// two declarations of a colour, and the one that holds (CSS 2.2, 6.4.1)
type Coloured = (StyleOrigin, Importance, Colour);

static CASCADES: [(Coloured, Coloured, Colour); 8] = [
    // the author's over the program's, the other way round where both are important
    (
        (StyleOrigin::Agent, NORMAL, RED),
        (StyleOrigin::Author, NORMAL, BLUE),
        BLUE,
    ),
    (
        (StyleOrigin::Agent, IMPORTANT, RED),
        (StyleOrigin::Author, IMPORTANT, BLUE),
        RED,
    ),
    // the author's over the reader's, the other way round where both are important
    (
        (StyleOrigin::Author, NORMAL, RED),
        (StyleOrigin::User, NORMAL, BLUE),
        RED,
    ),
    (
        (StyleOrigin::Author, IMPORTANT, RED),
        (StyleOrigin::User, IMPORTANT, BLUE),
        BLUE,
    ),
    // the important one's, wherever it comes from
    (
        (StyleOrigin::User, IMPORTANT, RED),
        (StyleOrigin::Author, NORMAL, BLUE),
        RED,
    ),
    (
        (StyleOrigin::Author, NORMAL, RED),
        (StyleOrigin::Agent, IMPORTANT, BLUE),
        BLUE,
    ),
    // the last among equals
    (
        (StyleOrigin::Author, NORMAL, RED),
        (StyleOrigin::Author, NORMAL, BLUE),
        BLUE,
    ),
    (
        (StyleOrigin::User, IMPORTANT, BLUE),
        (StyleOrigin::User, IMPORTANT, RED),
        RED,
    ),
];

fn rule(
    alloc: Global,
    origin: StyleOrigin,
    place: StylePlace,
    importance: Importance,
    style: Style,
) -> Result<StyleRule, AllocError> {
    Ok(StyleRule {
        origin,
        element: LocalName::from_str(alloc, "p")?,
        place,
        declarations: vec![in alloc; StyleDecl { style, importance }]?,
    })
}

fn coloured(alloc: Global, declared: Coloured) -> Result<StyleRule, AllocError> {
    let (origin, importance, colour) = declared;
    rule(
        alloc,
        origin,
        StylePlace::Itself,
        importance,
        Style::Colour(colour),
    )
}

fn is_cascaded(
    alloc: Global,
    dom: &RcDom,
    rows: &(Coloured, Coloured, Colour),
) -> Result<bool, AllocError> {
    let rules = vec![in alloc; coloured(alloc, rows.0)?, coloured(alloc, rows.1)?]?;
    let paragraph = dom.get_node_by_path(&[0, 1, 0]).unwrap_or(dom.document());
    let style = dom.computed_style(paragraph, rules.as_slice()).itself;
    Ok(style.colour.val() == Some(&rows.2) && style.bg_colour.val().is_none())
}

fn are_cascaded(alloc: Global) -> Result<bool, ParseFault> {
    let dom = tree_of(alloc, "<p>a", None)?;
    for rows in &CASCADES {
        if !is_cascaded(alloc, &dom, rows)? {
            return Ok(false);
        }
    }
    Ok(true)
}

#[test]
fn styles_are_cascaded(rt: HostRuntime) {
    passes(&rt, are_cascaded(rt.alloc()), 0);
}

fn placed_rules(alloc: Global) -> Result<Vec<StyleRule>, AllocError> {
    let star = Style::Content(Text::from_str(alloc, "*")?);
    let none = Style::Display(Display::None);
    let author = StyleOrigin::Author;
    let rules = vec![in alloc;
        rule(alloc, author, StylePlace::Before, NORMAL, star)?,
        rule(alloc, author, StylePlace::Itself, NORMAL, none)?,
    ]?;
    Ok(rules)
}

// each place and each property has its own
fn are_apart(alloc: Global) -> Result<bool, ParseFault> {
    let dom = tree_of(alloc, "<p>a<b>c", None)?;
    let rules = placed_rules(alloc)?;
    let document = dom.document();
    let paragraph = dom.get_node_by_path(&[0, 1, 0]).unwrap_or(document);
    let bold = dom.get_node_by_path(&[0, 1, 0, 1]).unwrap_or(document);
    let style = dom.computed_style(paragraph, rules.as_slice());
    let other = dom.computed_style(bold, rules.as_slice());
    Ok(
        style.before.content.val() == Some(&"*")
            && style.before.display.val().is_none()
            && style.itself.content.val().is_none()
            && style.itself.display.val() == Some(&Display::None)
            && style.itself.white_space.val().is_none()
            && style.after.content.val().is_none()
            && other.itself.display.val().is_none(),
    )
}

#[test]
fn places_and_properties_are_apart(rt: HostRuntime) {
    passes(&rt, are_apart(rt.alloc()), 0);
}

const NAMES: Specificity = Specificity {
    inline: false,
    id: 0,
    class: 0,
    typ: 65_535,
};

const CLASS: Specificity = Specificity {
    inline: false,
    id: 0,
    class: 1,
    typ: 0,
};

// the value after two declarations
fn trailing(first: Specificity, second: Specificity) -> Option<u8> {
    let mut property = WithSpec::default();
    property.maybe_update(of_author(first, 1));
    property.maybe_update(of_author(second, 2));
    property.val().copied()
}

fn of_author(specificity: Specificity, val: u8) -> Declared<u8> {
    Declared {
        importance: NORMAL,
        origin: StyleOrigin::Author,
        specificity,
        val,
    }
}

// a class goes over any names, a count that is full stays, and specificities are in order
#[test]
fn specificities_decide(rt: HostRuntime) {
    holds(&rt, trailing(CLASS, NAMES) == Some(1), 0);
    holds(&rt, trailing(NAMES, CLASS) == Some(2), 1);
    holds(&rt, NAMES + NAMES == NAMES, 2);
    let mut sum = NAMES;
    sum += CLASS;
    holds(&rt, sum > CLASS && CLASS > NAMES, 3);
}
