//! Rules of the program that mark texts by characters around them.
ghost use Rattle.std.specs.Prelude.{◌≡◌, ◌∷◌, ◌++◌, [], IfOk, IsTrue, OnOk, map};
ghost use Rattle.tree_names.specs.Sets.{is_ascii_word};
ghost use Rattle.render_conversion.specs.Decorating.{content_rule, decorating_rules, seen_rule};
ghost use Rattle.dom_styles.specs.declared.rules.StylePlace.TheVariants.{After, Before};

use dom_styles::{Importance, Style, StyleDecl, StyleOrigin, StylePlace, StyleRule};
use html_lexemes::{LocalName, Text};
use std::alloc::{AllocError, Global};

// a word of ASCII characters as a text
fn word(alloc: Global, word: &str) -> Result<Text, AllocError>
    requires { IsTrue (is_ascii_word word.now) }
    ensures { IfOk result (λ text. text ≡ word.now) }
{
    Text::from_str(alloc, word)
}

// a text at a place of elements of a name, both of ASCII characters
fn content_rule(
    alloc: Global,
    element: &str,
    place: StylePlace,
    mark: &str,
) -> Result<StyleRule, AllocError>
    requires element { IsTrue (is_ascii_word element.now) }
    requires mark { IsTrue (is_ascii_word mark.now) }
    ensures { IfOk result (λ rule. seen_rule rule ≡ content_rule element.now place mark.now) }
{
    let mut declarations = Vec::new(alloc);
    declarations.push(StyleDecl {
        style: Style::Content(word(alloc, mark)?),
        importance: Importance::Default,
    })?;
    Ok(StyleRule {
        origin: StyleOrigin::Agent,
        element: LocalName::from(word(alloc, element)?),
        place,
        declarations,
    })
}

// a mark before and after what elements of a name hold
fn push_marks(
    alloc: Global,
    rules: &mut Vec<StyleRule>,
    element: &str,
    mark: &str,
) -> Result<(), AllocError>
    requires element { IsTrue (is_ascii_word element.now) }
    requires mark { IsTrue (is_ascii_word mark.now) }
    ensures { OnOk result (map seen_rule rules.new.items ≡ map seen_rule rules.old.items
        ++ content_rule element.now Before mark.now ∷ content_rule element.now After mark.now ∷ []) }
{
    rules.push(content_rule(alloc, element, StylePlace::Before, mark)?)?;
    rules.push(content_rule(alloc, element, StylePlace::After, mark)?)?;
    Ok(())
}

/// The rules of the program that put `*` before and after `em` and `dt`, `**` before and after `strong` and `b`, and
/// a backquote before and after `code`. They stand before all other rules, so that each of those can say other. The
/// error is allocation failure alone.
pub fn decorating_rules(alloc: Global) -> Result<Vec<StyleRule>, AllocError>
    ensures { IfOk result (λ rules. map seen_rule rules.items ≡ decorating_rules) }
{
    let mut rules = Vec::new(alloc);
    push_marks(alloc, &mut rules, "em", "*")?;
    push_marks(alloc, &mut rules, "dt", "*")?;
    push_marks(alloc, &mut rules, "strong", "**")?;
    push_marks(alloc, &mut rules, "b", "**")?;
    push_marks(alloc, &mut rules, "code", "`")?;
    Ok(rules)
}
