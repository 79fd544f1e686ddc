//! Rules of styles.

use crate::cascade::{Importance, StyleOrigin};
use html_lexemes::{LocalName, Text};
use text_decorators::Colour;
use text_pieces::WhiteSpace;

/// How an element is displayed.
#[derive(Clone, Copy, Debug, PartialEq, Eq)]
pub enum Display {
    /// Not at all (CSS 2.2, 9.2.4: `none`).
    None,
}

/// A style of one property.
#[derive(Drop)]
pub enum Style {
    /// The colour of text (CSS 2.2, 14.1).
    Colour(Colour),
    /// The colour after text (CSS 2.2, 14.2.1).
    BgColour(Colour),
    /// How the element is displayed (CSS 2.2, 9.2.4).
    Display(Display),
    /// How white space is laid out (CSS Text, `white-space`).
    WhiteSpace(WhiteSpace),
    /// Text that stands at the place (CSS 2.2, 12.2).
    Content(Text),
}

/// A style, and whether it is important.
#[derive(Drop)]
pub struct StyleDecl {
    /// The style.
    pub style: Style,
    /// Whether it is important.
    pub importance: Importance,
}

/// What of an element a style is for (CSS 2.2, 12.1).
#[derive(Clone, Copy, Debug, PartialEq, Eq)]
pub enum StylePlace {
    /// The element itself.
    Itself,
    /// What stands before its children (`:before`).
    Before,
    /// What stands after its children (`:after`).
    After,
}

/// Styles of all elements of a name. Their specificity is that of one name of an element.
#[derive(Drop)]
pub struct StyleRule {
    /// Where the rule comes from.
    pub origin: StyleOrigin,
    /// The local name of the elements, in any namespace.
    pub element: LocalName,
    /// What of them it is for.
    pub place: StylePlace,
    /// The styles, in order.
    pub declarations: Vec<StyleDecl>,
}
