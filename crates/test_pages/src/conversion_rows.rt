//! Pages as render trees.
use crate::trees::{passes, tree_of};
use dom_styles::{Display, Importance, Style, StyleDecl, StyleOrigin, StylePlace, StyleRule};
use html_lexemes::LocalName;
use html_render_tree::{RenderError, decorating_rules};
use render_conversion::{ConversionOptions, dom_to_render_tree};
use std::alloc::{AllocError, Global};
use text_decorators::Colour;
use text_pieces::WhiteSpace;

/// Pages, and their render trees by the rules that mark texts.
static PAGES: [(&str, &str); 7] = [
    (
        "<p id=f>a<em>b</em><br>",
        "container, 9 below\ncontainer, 8 below\ncontainer, 7 below\n(\"f\") block, 6 below\ntext \"a\", 0 below\n\
         emphasis, 3 below\ntext \"*\", 0 below\ntext \"b\", 0 below\ntext \"*\", 0 below\nbreak, 0 below\n",
    ),
    (
        "<ul> <li>a</li><p></p><b>c</b></ul>",
        "container, 9 below\ncontainer, 8 below\ncontainer, 7 below\nbullets, 6 below\ncontainer, 1 below\n\
         text \"a\", 0 below\nstrong, 3 below\ntext \"**\", 0 below\ntext \"c\", 0 below\ntext \"**\", 0 below\n",
    ),
    (
        "<ol start=-2><li></ol><a href=u><br></a><a href=u>v</a>",
        "container, 6 below\ncontainer, 5 below\ncontainer, 4 below\nnumbers from -2, 1 below\ncontainer, 0 below\n\
         link to \"u\", 1 below\ntext \"v\", 0 below\n",
    ),
    (
        "<sup>42</sup><sup>a</sup><svg><title>t</title></svg><img src=s alt=u>",
        "container, 7 below\ncontainer, 6 below\ncontainer, 5 below\ntext \"\u{2074}\u{B2}\", 0 below\n\
         superscript, 1 below\ntext \"a\", 0 below\nimage \"t\" at \"\", 0 below\nimage \"u\" at \"s\", 0 below\n",
    ),
    (
        "<table><caption>a</caption><tr><td colspan=2>b</table><hr><h3>c</h3>",
        "container, 9 below\ncontainer, 8 below\ncontainer, 7 below\ntable, 4 below\ngroup, 3 below\nrow, 2 below\n\
         cell of 2 by 1, 1 below\ntext \"b\", 0 below\nheading 3, 1 below\ntext \"c\", 0 below\n",
    ),
    (
        "<pre>a</pre><div><s>b</s></div><blockquote>c<wbr></blockquote>",
        "container, 10 below\ncontainer, 9 below\ncontainer, 8 below\npreformatted with Pre, 1 below\n\
         text \"a\", 0 below\ndivision, 2 below\nstrikeout, 1 below\ntext \"b\", 0 below\nquote, 2 below\n\
         text \"c\", 0 below\ntext \"\\u{200b}\", 0 below\n",
    ),
    (
        "<dl><dt>a<dd><code>b</code></dl><script>c</script><table></table>",
        "container, 12 below\ncontainer, 11 below\ncontainer, 10 below\ndescriptions, 9 below\nterm, 3 below\n\
         text \"*\", 0 below\ntext \"a\", 0 below\ntext \"*\", 0 below\ndetails, 4 below\ncode, 3 below\n\
         text \"`\", 0 below\ntext \"b\", 0 below\ntext \"`\", 0 below\n",
    ),
];

// whether a page has that render tree by some rules, and a copy of it is the same
fn is_converted(
    alloc: Global,
    rules: &[StyleRule],
    page: &str,
    lines: &str,
) -> Result<bool, RenderError> {
    let Ok(dom) = tree_of(alloc, page) else {
        return Ok(false);
    };
    let tree = dom_to_render_tree(alloc, &dom, ConversionOptions::default(), rules)?;
    let copy = tree.try_clone()?;
    let is_so = tree.to_string(alloc)?.as_str() == lines;
    Ok(is_so && copy.to_string(alloc)?.as_str() == lines)
}

fn is_marked(alloc: Global, page: &str, lines: &str) -> Result<bool, RenderError> {
    let rules = decorating_rules(alloc)?;
    is_converted(alloc, &rules, page, lines)
}

#[test]
fn pages_have_render_trees(rt: HostRuntime) {
    for (row, (page, lines)) in PAGES.iter().enumerate() {
        passes(&rt, is_marked(rt.alloc(), page, lines), row);
    }
}

fn add_rule(
    alloc: Global,
    rules: &mut Vec<StyleRule>,
    element: &str,
    style: Style,
) -> Result<(), AllocError> {
    let mut declarations = Vec::new(alloc);
    declarations.push(StyleDecl {
        style,
        importance: Importance::Default,
    })?;
    rules.push(StyleRule {
        origin: StyleOrigin::Author,
        element: LocalName::from_str(alloc, element)?,
        place: StylePlace::Itself,
        declarations,
    })?;
    Ok(())
}

const RED: Colour = Colour { r: 255, g: 0, b: 0 };

/// The render tree of a page by rules on its colours, its white space and what is not shown.
const RULED: &str =
    "container, 5 below\ncontainer, 4 below\ncontainer, 3 below\nblock in #ff0000 on #ff0000, 1 below\n\
     text \"a\", 0 below\npreformatted with PreWrap, 0 below\n";

fn are_rules_met(alloc: Global) -> Result<bool, RenderError> {
    let mut rules = Vec::new(alloc);
    add_rule(alloc, &mut rules, "p", Style::Colour(RED))?;
    add_rule(alloc, &mut rules, "p", Style::BgColour(RED))?;
    add_rule(
        alloc,
        &mut rules,
        "pre",
        Style::WhiteSpace(WhiteSpace::PreWrap),
    )?;
    add_rule(alloc, &mut rules, "b", Style::Display(Display::None))?;
    is_converted(alloc, &rules, "<p>a<b id=f>b</b></p><pre></pre>", RULED)
}

#[test]
fn rules_say_how_values_look(rt: HostRuntime) {
    passes(&rt, are_rules_met(rt.alloc()), 0);
}

fn is_hidden(alloc: Global) -> Result<bool, RenderError> {
    let mut rules = Vec::new(alloc);
    add_rule(alloc, &mut rules, "html", Style::Display(Display::None))?;
    Ok(is_converted(alloc, &rules, "<p>a", "") == Err(RenderError::Fail))
}

#[test]
fn a_hidden_page_fails(rt: HostRuntime) {
    passes(&rt, is_hidden(rt.alloc()), 0);
}
