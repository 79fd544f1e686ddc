use html2text::{Config, Error, RcDom, RichAnnotation, RichDecorator};
use std::alloc::{AllocError, Global};

/// The columns of a line in the terminal.
const WIDTH: usize = 40;

/// The text of a page with strong text bold, emphasis italic, links underlined, struck text struck and code green, by
/// escape sequences (ECMA-48, SGR).
pub(crate) fn shown(
    alloc: Global,
    config: &Config<RichDecorator>,
    dom: &RcDom,
) -> Result<String, Error> {
    let tree = config.dom_to_render_tree(alloc, dom)?;
    config.render_coloured(alloc, tree, WIDTH, |annotations, text| {
        coloured(alloc, annotations, text)
    })
}

/// A text between the sequences that begin its looks and the one that ends all.
fn coloured(
    alloc: Global,
    annotations: &[RichAnnotation],
    text: &str,
) -> Result<String, AllocError> {
    let mut shown = String::new(alloc);
    for annotation in annotations {
        if let Some(code) = code_of(annotation) {
            write!(&mut shown, "\x1b[{code}m")?;
        }
    }
    let is_plain = shown.is_empty();
    shown.push_str(text)?;
    if !is_plain {
        shown.push_str("\x1b[0m")?;
    }
    Ok(shown)
}

/// The parameter of the sequence that begins a look (ECMA-48, 8.3.117).
fn code_of(annotation: &RichAnnotation) -> Option<u8> {
    match annotation {
        RichAnnotation::Strong => Some(1),
        RichAnnotation::Emphasis => Some(3),
        RichAnnotation::Link(_) => Some(4),
        RichAnnotation::Strikeout => Some(9),
        RichAnnotation::Code => Some(32),
        RichAnnotation::Default
        | RichAnnotation::Image(_)
        | RichAnnotation::Preformat(_)
        | RichAnnotation::Colour(_)
        | RichAnnotation::BgColour(_) => None,
    }
}
