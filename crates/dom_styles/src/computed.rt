//! The styles of an element.
ghost use Rattle.std.specs.Prelude.{◌≡◌, ◌∷◌, ◌++◌, [], List};
ghost use Rattle.dom_styles.specs.declared.cascade.Declared.{Declared};
ghost use Rattle.dom_styles.specs.declared.rules.Style.{Style};
ghost use Rattle.dom_styles.specs.declared.rules.StyleRule.{StyleRule};
ghost use Rattle.dom_styles.specs.Styles.{declared_by, one_name, rule_declares};
ghost use Rattle.dom_styles.specs.Seen.{IsComputed, IsStyled};

use crate::cascade::{Declared, Importance, StyleOrigin, WithSpec};
use crate::rules::{Display, Style, StyleDecl, StylePlace, StyleRule};
use crate::specificity::Specificity;
use html_lexemes::LocalName;
use text_decorators::Colour;
use text_pieces::WhiteSpace;

/// The styles at one place of an element, each unset where no rule declares it.
#[derive(Default, Drop)]
pub struct PlaceStyle<'a> {
    /// The colour of text.
    pub colour: WithSpec<Colour>,
    /// The colour after text.
    pub bg_colour: WithSpec<Colour>,
    /// How the element is displayed.
    pub display: WithSpec<Display>,
    /// How white space is laid out.
    pub white_space: WithSpec<WhiteSpace>,
    /// The text that stands there.
    pub content: WithSpec<&'a str>,
}

impl<'a> PlaceStyle<'a> {
    /// A rule more for the place.
    fn apply(&mut self, rule: &'a StyleRule)
        ensures { (ds : List (Declared Style)) → IsStyled ds self.old
            → IsStyled (ds ++ rule_declares rule.now) self.new }
    {
        for declaration in &rule.declarations {
            self.declare(rule.origin, declaration);
        }
    }

    /// A declaration more for the place, of a rule that comes from `origin`.
    fn declare(&mut self, origin: StyleOrigin, declaration: &'a StyleDecl)
        ensures { (ds : List (Declared Style)) → IsStyled ds self.old
            → IsStyled (ds ++ declared_by origin declaration.now ∷ []) self.new }
    {
        let importance = declaration.importance;
        match &declaration.style {
            Style::Colour(colour) => {
                self.colour
                    .maybe_update(by_name(importance, origin, *colour));
            }
            Style::BgColour(colour) => {
                self.bg_colour
                    .maybe_update(by_name(importance, origin, *colour));
            }
            Style::Display(display) => {
                self.display
                    .maybe_update(by_name(importance, origin, *display));
            }
            Style::WhiteSpace(mode) => {
                self.white_space
                    .maybe_update(by_name(importance, origin, *mode));
            }
            Style::Content(text) => {
                self.content
                    .maybe_update(by_name(importance, origin, text.as_str()));
            }
        }
    }
}

/// A declaration of a rule whose selector is the name of an element.
fn by_name<T>(importance: Importance, origin: StyleOrigin, val: T) -> Declared<T>
    ensures { result ≡ record { importance = importance; origin = origin; specificity = one_name; val = val } }
{
    Declared {
        importance,
        origin,
        specificity: Specificity {
            inline: false,
            id: 0,
            class: 0,
            typ: 1,
        },
        val,
    }
}

/// The styles of an element.
#[derive(Default, Drop)]
pub struct ComputedStyle<'a> {
    /// Of the element itself.
    pub itself: PlaceStyle<'a>,
    /// Of what stands before its children.
    pub before: PlaceStyle<'a>,
    /// Of what stands after its children.
    pub after: PlaceStyle<'a>,
}

impl<'a> ComputedStyle<'a> {
    /// A rule more; it is passed over where it is for elements of another name.
    fn apply(&mut self, name: &LocalName, rule: &'a StyleRule)
        ensures { (rules : List StyleRule) → IsComputed name.now rules self.old
            → IsComputed name.now (rules ++ rule.now ∷ []) self.new }
    {
        if rule.element != *name {
            return;
        }
        match rule.place {
            StylePlace::Itself => self.itself.apply(rule),
            StylePlace::Before => self.before.apply(rule),
            StylePlace::After => self.after.apply(rule),
        }
    }
}

/// The styles that rules give elements of a name: of the declarations of one property at one place the one with the
/// greatest key, the last among equals (CSS 2.2, 6.4.1). It takes no memory: texts are lent.
pub fn computed_style<'a>(name: &LocalName, rules: &'a [StyleRule]) -> ComputedStyle<'a>
    ensures { IsComputed name.now rules.now result }
{
    let mut style = ComputedStyle::default();
    for rule in rules {
        style.apply(name, rule);
    }
    style
}
