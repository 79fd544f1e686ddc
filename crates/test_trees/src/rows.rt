//! Steps, and what they make, with what WHATWG HTML says of each.
use crate::fact::Fact;
use crate::step::Step;
use tree_forest::QuirksMode;
use tree_predicates::InsertionMode;

const ROOT: &[Step] = &[Step::Open("html")];

// the root, a head that is popped, and a body
const BODY: &[Step] = &[
    Step::Open("html"),
    Step::Open("head"),
    Step::Pop,
    Step::Open("body"),
];

const BOLD: Step = Step::Format("b", &[]);

const FOUR: &[Step] = &[BOLD, BOLD, BOLD, BOLD];

/// Steps that begin a page, those that follow, and what holds then.
pub(crate) static ROWS: [(&[Step], &[Step], &[Fact]); 26] = [
    // a text joins the text right before it (13.2.6.1); an attribute that is there keeps its value
    (
        BODY,
        &[
            Step::Say("x"),
            Step::Say(""),
            Step::Say("y"),
            Step::Open("p"),
            Step::Format("b", &[("id", "i")]),
            Step::Comment("c"),
            Step::Remark("d"),
            Step::Add(&[("id", "j")]),
            Step::Add(&[("lang", "en")]),
            Step::Mode(QuirksMode::LimitedQuirks),
        ],
        &[Fact::Lines(
            "quirks\tLimitedQuirks
element\thtml\thtml
 element\thtml\thead
 element\thtml\tbody
  text\txy
  element\thtml\tp
   element\thtml\tb
    attribute\tid\ti
    attribute\tlang\ten
    comment\tc
comment\td
",
        )],
    ),
    // "close a p element" pops up to it (13.2.6.4.7); a button ends button scope (13.2.4.2)
    (
        BODY,
        &[
            Step::Open("p"),
            Step::Open("i"),
            Step::ClosePInButtonScope,
            Step::Say("x"),
            Step::Open("p"),
            Step::Open("button"),
            Step::ClosePInButtonScope,
            Step::Say("y"),
        ],
        &[Fact::Lines(
            "quirks\tNoQuirks
element\thtml\thtml
 element\thtml\thead
 element\thtml\tbody
  element\thtml\tp
   element\thtml\ti
  text\tx
  element\thtml\tp
   element\thtml\tbutton
    text\ty
",
        )],
    ),
    // with the table current all goes before it, and what is in an `i` into that (13.2.6.1)
    (
        BODY,
        &[
            Step::Open("table"),
            Step::Foster(true),
            Step::Say("x"),
            Step::Open("i"),
            Step::Say("y"),
            Step::Pop,
            Step::Foster(false),
            Step::Say("z"),
            Step::Open("tbody"),
        ],
        &[Fact::Lines(
            "quirks\tNoQuirks
element\thtml\thtml
 element\thtml\thead
 element\thtml\tbody
  text\tx
  element\thtml\ti
   text\ty
  element\thtml\ttable
   text\tz
   element\thtml\ttbody
",
        )],
    ),
    // the end tags of `p` and `li` are implied, that of `ul` isn't (13.2.6.3)
    (
        BODY,
        &[
            Step::Open("ul"),
            Step::Open("li"),
            Step::Open("p"),
            Step::Imply("li"),
            Step::Say("x"),
            Step::Imply(""),
            Step::Say("y"),
            Step::Open("li"),
            Step::PopWith(2),
            Step::Say("z"),
            Step::Open("h1"),
            Step::Open("i"),
            Step::PopDownTo("h1"),
            Step::Say("u"),
            Step::Open("i"),
            Step::PopTo("h1"),
            Step::Say("v"),
        ],
        &[Fact::Lines(
            "quirks\tNoQuirks
element\thtml\thtml
 element\thtml\thead
 element\thtml\tbody
  element\thtml\tul
   element\thtml\tli
    element\thtml\tp
    text\tx
   text\ty
   element\thtml\tli
  text\tz
  element\thtml\th1
   element\thtml\ti
   text\tu
   element\thtml\ti
  text\tv
",
        )],
    ),
    // an end tag closes up to its element, and is ignored where a special one stands before it (13.2.6.4.7)
    (
        BODY,
        &[
            Step::Open("div"),
            Step::Open("em"),
            Step::End("div"),
            Step::Say("x"),
            Step::Open("em"),
            Step::Open("div"),
            Step::End("em"),
            Step::Say("y"),
        ],
        &[Fact::Lines(
            "quirks\tNoQuirks
element\thtml\thtml
 element\thtml\thead
 element\thtml\tbody
  element\thtml\tdiv
   element\thtml\tem
  text\tx
  element\thtml\tem
   element\thtml\tdiv
    text\ty
",
        )],
    ),
    // `desc` is an HTML integration point, `svg` and `g` are popped (13.2.6.5)
    (
        BODY,
        &[
            Step::OpenSvg("svg"),
            Step::OpenSvg("desc"),
            Step::BreakOut,
            Step::Say("x"),
            Step::Pop,
            Step::OpenSvg("g"),
            Step::BreakOut,
            Step::Say("y"),
        ],
        &[Fact::Lines(
            "quirks\tNoQuirks
element\thtml\thtml
 element\thtml\thead
 element\thtml\tbody
  element\tsvg\tsvg
   element\tsvg\tdesc
    text\tx
   element\tsvg\tg
  text\ty
",
        )],
    ),
    // scope, list item scope, button scope and table scope end at other elements (13.2.4.2)
    (
        BODY,
        &[Step::Open("p"), Step::Open("i")],
        &[Fact::Scopes("p", true, true, true, true)],
    ),
    (
        BODY,
        &[Step::Open("p"), Step::Open("table")],
        &[Fact::Scopes("p", false, false, false, false)],
    ),
    (
        BODY,
        &[Step::Open("p"), Step::Open("ul")],
        &[Fact::Scopes("p", true, false, true, true)],
    ),
    (
        BODY,
        &[Step::Open("p"), Step::Open("button")],
        &[Fact::Scopes("p", true, true, false, true)],
    ),
    (
        BODY,
        &[Step::Open("p"), Step::Open("select")],
        &[
            Fact::Scopes("p", false, false, false, true),
            Fact::Scopes("select", true, true, true, true),
            Fact::IsOpen("select", true),
            Fact::IsOpen("p", true),
            Fact::IsOpen("form", false),
        ],
    ),
    (
        BODY,
        &[Step::Open("p"), Step::Open("template")],
        &[Fact::Scopes("p", false, false, false, false)],
    ),
    // "reset the insertion mode appropriately" (13.2.4.1)
    (
        BODY,
        &[Step::Open("td"), Step::Open("i")],
        &[Fact::Mode(InsertionMode::InCell)],
    ),
    (
        BODY,
        &[Step::Open("tr"), Step::Open("i")],
        &[Fact::Mode(InsertionMode::InRow)],
    ),
    (
        BODY,
        &[Step::Open("table"), Step::Open("i")],
        &[Fact::Mode(InsertionMode::InTable)],
    ),
    (
        BODY,
        &[Step::Open("template"), Step::Open("i")],
        &[Fact::Mode(InsertionMode::InTableBody)],
    ),
    (
        BODY,
        &[Step::Open("div"), Step::Open("i")],
        &[Fact::Mode(InsertionMode::InBody)],
    ),
    (
        ROOT,
        &[],
        &[
            Fact::RootMode(None, false, InsertionMode::BeforeHead),
            Fact::RootMode(None, true, InsertionMode::AfterHead),
            Fact::RootMode(Some("td"), false, InsertionMode::InBody),
            Fact::RootMode(Some("tr"), false, InsertionMode::InRow),
            Fact::RootMode(Some("html"), false, InsertionMode::BeforeHead),
        ],
    ),
    // the adjusted current node (13.2.4.2)
    (ROOT, &[], &[Fact::Current(&[0], &[])]),
    (
        ROOT,
        &[Step::Open("body")],
        &[Fact::Current(&[0, 0], &[0, 0])],
    ),
    // an element is taken off from between two
    (
        ROOT,
        &[Step::Open("div"), Step::Open("i"), Step::TakeOff(1)],
        &[Fact::Root(2, &[0]), Fact::Current(&[0, 0, 0], &[0, 0, 0])],
    ),
    // at most three that are alike stand after the last marker (13.2.4.3)
    (FOUR, &[], &[Fact::Listed(3, 3)]),
    (FOUR, &[Step::Mark], &[Fact::Listed(0, 4)]),
    (FOUR, &[Step::Mark, BOLD], &[Fact::Listed(1, 5)]),
    (
        FOUR,
        &[Step::Mark, BOLD, Step::ClearToMarker],
        &[Fact::Listed(3, 3)],
    ),
    (
        &[Step::Mark, BOLD, Step::Mark, BOLD],
        &[Step::Mark, BOLD, Step::Mark, BOLD],
        &[Fact::Listed(1, 8)],
    ),
];
