//! Rules of style.
use anyhow::{Result, bail};
use dom_styles::{Display, Importance, Style, StyleDecl, StyleOrigin, StylePlace, StyleRule};
use html_lexemes::{LocalName, Text};
use std::alloc::Global;
use test_fields::unescaped;
use text_decorators::Colour;
use text_pieces::WhiteSpace;

/// The rule of a field: origin, element, place and declarations, with `|` between them.
pub(crate) fn rule_of(alloc: Global, field: &str) -> Result<StyleRule> {
    let mut parts = field.split('|');
    let (Some(origin), Some(element), Some(place)) = (parts.next(), parts.next(), parts.next())
    else {
        bail!("a rule has three parts");
    };
    let mut declarations = Vec::new(alloc);
    for part in parts {
        declarations.push(declaration_of(alloc, part)?)?;
    }
    Ok(StyleRule {
        origin: origin_of(origin)?,
        element: LocalName::from_str(alloc, element)?,
        place: place_of(place)?,
        declarations,
    })
}

fn origin_of(part: &str) -> Result<StyleOrigin> {
    match part {
        "agent" => Ok(StyleOrigin::Agent),
        "user" => Ok(StyleOrigin::User),
        "author" => Ok(StyleOrigin::Author),
        _ => bail!("no origin has the name {part}"),
    }
}

fn place_of(part: &str) -> Result<StylePlace> {
    match part {
        "itself" => Ok(StylePlace::Itself),
        "before" => Ok(StylePlace::Before),
        "after" => Ok(StylePlace::After),
        _ => bail!("no place has the name {part}"),
    }
}

/// A declaration: a style, with `!` after it where it is important.
fn declaration_of(alloc: Global, part: &str) -> Result<StyleDecl> {
    let (style, importance) = match part.strip_suffix('!') {
        Some(style) => (style, Importance::Important),
        None => (part, Importance::Default),
    };
    Ok(StyleDecl {
        style: style_of(alloc, style)?,
        importance,
    })
}

/// A style. In a content `|`, and `!` at its end, are escaped.
fn style_of(alloc: Global, text: &str) -> Result<Style> {
    match text.split_once('=') {
        Some(("colour", value)) => Ok(Style::Colour(colour_of(value)?)),
        Some(("background", value)) => Ok(Style::BgColour(colour_of(value)?)),
        Some(("display", "none")) => Ok(Style::Display(Display::None)),
        Some(("white_space", value)) => Ok(Style::WhiteSpace(white_space_of(value)?)),
        Some(("content", value)) => Ok(Style::Content(Text::from(unescaped(alloc, value)?))),
        _ => bail!("{text} is no style"),
    }
}

/// A colour: red, green and blue, with commas between them.
fn colour_of(value: &str) -> Result<Colour> {
    let mut parts = value.split(',');
    let (Some(red), Some(green), Some(blue), None) = (
        parts.next(),
        parts.next(),
        parts.next(),
        parts.next(),
    ) else {
        bail!("a colour has three parts");
    };
    Ok(Colour {
        r: red.parse()?,
        g: green.parse()?,
        b: blue.parse()?,
    })
}

fn white_space_of(value: &str) -> Result<WhiteSpace> {
    match value {
        "normal" => Ok(WhiteSpace::Normal),
        "pre" => Ok(WhiteSpace::Pre),
        "pre-wrap" => Ok(WhiteSpace::PreWrap),
        _ => bail!("no mode of white space has the name {value}"),
    }
}
