//! Configurations through the public calls: decorators, options, rules of style, tables of references and rich pages.
use crate::checks::{holds, is_answer, passes, plain};
use crate::devices::page_by;
use html_lexemes::LocalName;
use html2text::{
    Config, Display, Error, ImageRenderMode, Importance, ParseOpts, PlainDecorator, ReferenceTable,
    RichAnnotation, RichDecorator, Style, StyleDecl, StyleOrigin, StylePlace, StyleRule,
    TextDecorator, TrivialDecorator, a_page_has_one_answer, a_page_has_one_text, from_read_rich,
    from_read_with_decorator, parse,
};
use std::alloc::{AllocError, Global};

/// By what a page is shown.
enum Look {
    Plain,
    NoTargets,
    NoMarks,
    Rich,
    /// By the decorator without marks, with those that rules of style make.
    TrivialMarked,
    ReadAsRich,
    /// Text wraps at seven columns, and each line is filled up; with other options beside these.
    Options,
    /// Without paragraphs.
    Hidden,
    /// Without elements that hide themselves.
    SkipHidden,
    /// Completely.
    Complete,
    /// With columns of tables that are fitted.
    Fitted,
    /// With targets that are printable, each once.
    Printable,
    /// By a table of these references.
    Names(&'static [(&'static str, &'static str)]),
    NoScripting,
    /// Lines may pass the width.
    Overflow,
    /// Text may be two columns narrow.
    TwoColumns,
}

pub(crate) const MARKED: &[u8] = b"<p>a <em>b</em> <a href=x>c</a></p>";

const OPTIONAL: &[u8] =
    b"<p><img src='a/b.png'> <s>cd</s> <a href='http://www.example.com/'>x</a></p>\
<table><tr><td>1</td><td>2</td></tr></table>";

// Text wraps at seven columns of ten, and each line is filled up to ten but that of the target, which is whole.
const OPTIONAL_TEXT: &str =
    "[b.png]   \ncd        \n[x][1]    \n          \n```       \n1 2       \n\
```       \n          \n[1]: http://www.example.com/\n";

const NESTED: &[u8] = b"<ul><li><ul><li>x";

const QUOTED: &[u8] = b"<blockquote>aaaa</blockquote>";

/// A look, a width, a page, and its text or why it has none.
type Row = (Look, usize, &'static [u8], Result<&'static str, Error>);

const HIDING: &[u8] =
    b"<body hidden><p hidden>a</p><p style='color: red; Display: none !important'>b</p>\
<p hidden=until-found>c</p><p style='display:block'>d</p><table><tr hidden><td>e<tr><td>f</table>";

const ESCAPES: &[u8] = b"<a href='u%1B'>a</a> <a href='u&#27;'>b</a> <a href='u&#27;'>c</a>";

const WHOLE: &[u8] = b"<p>a</p><hr><p>b <q>c</q></p><noscript><p>d</p></noscript>";

const NAMED: &[u8] = b"<table><tr><td>abcdefgh<td>aa bb cc</table>";

const NAMED_TEXT: &str = "────────┬───\nabcdefgh│aa \n        │bb \n        │cc \n────────┴───\n";

static ROWS: [Row; 20] = [
    (Look::Plain, 20, MARKED, Ok("a *b* [c][1]\n\n[1]: x\n")),
    (Look::NoTargets, 20, MARKED, Ok("a *b* [c]\n")),
    (Look::NoMarks, 20, MARKED, Ok("a b [c]\n")),
    (Look::Rich, 20, MARKED, Ok("a b c\n")),
    (Look::TrivialMarked, 20, MARKED, Ok("a *b* c\n")),
    (Look::ReadAsRich, 20, MARKED, Ok("a b c\n")),
    (Look::Options, 10, OPTIONAL, Ok(OPTIONAL_TEXT)),
    (Look::Hidden, 20, b"<p>a</p>b<em>c", Ok("b*c*\n")),
    (Look::Complete, 3, WHOLE, Ok("a\n\n───\n\nb\n“c”\n\nd\n")),
    (Look::Fitted, 12, NAMED, Ok(NAMED_TEXT)),
    (Look::SkipHidden, 20, HIDING, Ok("c\n\nd\n\n─\nf\n─\n")),
    (
        Look::Printable,
        40,
        ESCAPES,
        Ok("[a][1] [b][2] [c][2]\n\n[1]: u%1B\n[2]: u%1B\n"),
    ),
    (
        Look::Plain,
        20,
        HIDING,
        Ok("a\n\nb\n\nc\n\nd\n\n─\ne\n─\nf\n─\n"),
    ),
    (Look::Names(&[("x;", "y")]), 20, b"&x;&lt;", Ok("y&lt;\n")),
    (
        Look::Names(&[("not", "\u{ac}"), ("notin;", "\u{2209}")]),
        20,
        b"<p>a &notit;&notin; b</p>",
        Ok("a \u{ac}it;\u{2209} b\n"),
    ),
    (
        Look::NoScripting,
        20,
        b"<noscript><p>a</noscript>",
        Ok("a\n"),
    ),
    (Look::Plain, 2, NESTED, Err(Error::TooNarrow)),
    (Look::Overflow, 2, NESTED, Ok("* * x\n")),
    (Look::Plain, 4, QUOTED, Err(Error::TooNarrow)),
    (Look::TwoColumns, 4, QUOTED, Ok("> aa\n> aa\n")),
];

// an author's rule: paragraphs are not shown
fn hidden(alloc: Global) -> Result<Vec<StyleRule>, AllocError> {
    let declaration = StyleDecl {
        style: Style::Display(Display::None),
        importance: Importance::Default,
    };
    let rule = StyleRule {
        origin: StyleOrigin::Author,
        element: LocalName::from_str(alloc, "p")?,
        place: StylePlace::Itself,
        declarations: vec![in alloc; declaration]?,
    };
    Ok(vec![in alloc; rule]?)
}

fn with_options(config: Config<PlainDecorator>) -> Config<PlainDecorator> {
    config
        .max_wrap_width(7)
        .pad_block_width()
        .raw_mode(false)
        .no_table_borders()
        .fence_tables()
        .no_link_wrapping()
        .unicode_strikeout(false)
        .empty_img_mode(ImageRenderMode::Filename)
}

fn without_scripting() -> ParseOpts {
    let mut parsing = ParseOpts::default();
    parsing.tree_builder.scripting_enabled = false;
    parsing
}

// the configuration of a look that is plain text
fn config_of(alloc: Global, look: &Look) -> Result<Config<PlainDecorator>, Error> {
    let config = plain(alloc)?;
    match look {
        Look::NoTargets => Ok(config.link_footnotes(false)),
        Look::Options => Ok(with_options(config)),
        Look::Hidden => {
            let rules = hidden(alloc)?;
            config.style_rules(rules)
        }
        Look::Complete => Ok(config.complete(true)),
        Look::Fitted => Ok(config.fit_columns(true)),
        Look::Printable => Ok(config.shared_footnotes(true).printable_targets(true)),
        Look::SkipHidden => Ok(config.skip_hidden(true)),
        Look::Names(names) => match ReferenceTable::new(alloc, names) {
            Ok(table) => Ok(config.table(table)),
            Err(_error) => Err(Error::Fail),
        },
        Look::NoScripting => Ok(config.parse_opts(without_scripting())),
        Look::Overflow => Ok(config.allow_width_overflow()),
        Look::TwoColumns => Ok(config.min_wrap_width(2)),
        _ => Ok(config),
    }
}

// the text of a page that is parsed from a reader and rendered from its tree
fn rendered<D: TextDecorator + Drop>(
    alloc: Global,
    config: &Config<D>,
    page: &[u8],
    width: usize,
) -> Result<String, Error> {
    let mut input = page_by(page, 8192);
    let dom = config.parse_html(alloc, &mut input)?;
    let tree = config.dom_to_render_tree(alloc, &dom)?;
    config.render_to_string(alloc, tree, width)
}

// the same, which is to be the text of the page that is read by single bytes at once
fn text_by<D: TextDecorator + Drop>(
    alloc: Global,
    config: Config<D>,
    page: &[u8],
    width: usize,
) -> Result<String, Error> {
    let text = rendered(alloc, &config, page, width)?;
    let mut again = page_by(page, 1);
    if config.string_from_read(alloc, &mut again, width)? != text {
        return Err(Error::Fail);
    }
    Ok(text)
}

fn trivial(alloc: Global) -> Result<Config<TrivialDecorator>, Error> {
    let table = ReferenceTable::basic(alloc)?;
    Config::with_decorator(alloc, TrivialDecorator::new(), table).do_decorate(alloc)
}

fn text_of(alloc: Global, look: &Look, page: &[u8], width: usize) -> Result<String, Error> {
    match look {
        Look::NoMarks => {
            let config = Config::plain_no_decorate(alloc, ReferenceTable::basic(alloc)?);
            text_by(alloc, config, page, width)
        }
        Look::Rich => {
            let config = Config::rich(alloc, ReferenceTable::basic(alloc)?);
            text_by(alloc, config, page, width)
        }
        Look::TrivialMarked => text_by(alloc, trivial(alloc)?, page, width),
        Look::ReadAsRich => {
            let table = ReferenceTable::basic(alloc)?;
            let mut input = page_by(page, 8192);
            from_read_with_decorator(alloc, &mut input, width, RichDecorator::new(), table)
        }
        _ => text_by(alloc, config_of(alloc, look)?, page, width),
    }
}

#[test]
fn pages_are_shown_by_configurations(rt: HostRuntime) {
    for (look, width, page, wanted) in &ROWS {
        let found = text_of(rt.alloc(), look, page, *width);
        holds(
            &rt,
            is_answer(found, *wanted),
            (*wanted).unwrap_or("a refused page"),
        );
    }
}

const RICH: &[u8] = b"<p><em>a</em> b</p>";

fn is_emphasised(alloc: Global) -> Result<bool, Error> {
    let mut input = page_by(RICH, 8192);
    let lines = from_read_rich(alloc, &mut input, 20, ReferenceTable::basic(alloc)?)?;
    let [line] = lines.as_slice() else {
        return Ok(false);
    };
    let mut strings = line.tagged_strings();
    let first = strings.next();
    let is_first = matches!(first, Some(string) if string.s.as_str() == "a"
        && matches!(string.tag.as_slice(), [RichAnnotation::Emphasis]));
    let second = strings.next();
    let is_second =
        matches!(second, Some(string) if string.s.as_str() == " b" && string.tag.is_empty());
    Ok(is_first && is_second)
}

fn angled(alloc: Global, text: &str) -> Result<String, AllocError> {
    format!(in alloc; "<{text}>")
}

fn is_coloured(alloc: Global) -> Result<bool, Error> {
    let mut input = page_by(RICH, 8192);
    let tree = parse(alloc, &mut input, ReferenceTable::basic(alloc)?)?;
    let config = Config::rich(alloc, ReferenceTable::basic(alloc)?);
    let found = config.render_coloured(alloc, tree, 20, |_tag, text| angled(alloc, text))?;
    Ok(found.as_str() == "<a>< b>\n")
}

#[test]
fn rich_pages_are_read(rt: HostRuntime) {
    passes(&rt, is_emphasised(rt.alloc()), "a line");
    passes(&rt, is_coloured(rt.alloc()), "render_coloured");
}

#[test]
fn laws_hold_of_a_decorator() {
    a_page_has_one_answer::<RichDecorator>();
    a_page_has_one_text::<RichDecorator>();
}
