//! Lines that scripts of renderer calls give.
use crate::block::Pieces;
use crate::calls::performed;
use crate::elements::{Named, push_elements};
use anyhow::{Result, bail};
use block_renderer::SubRenderer;
use block_trait::{ImageRenderMode, RenderOptions};
use std::alloc::Global;
use text_borders::RenderLine;
use text_decorators::{PlainDecorator, RichDecorator, TextDecorator};
use text_pieces::BlockError;

/// A block, and the calls that lay it out, a line each.
#[derive(Clone, Copy)]
struct Script<'a> {
    /// The columns of the block.
    width: usize,
    options: RenderOptions,
    calls: &'a str,
}

/// The lines that a script gives. Its first line has the width, the decorator and the options that are on, and each of
/// the others a call. It is performed with its texts whole and a character at a time (white space that a text begins
/// with stays with what follows).
pub fn answer(alloc: Global, script: &str) -> Result<String> {
    let (head, calls) = script.split_once('\n').unwrap_or((script, ""));
    let mut fields = head.split('\t');
    let (Some(width), Some(decorator)) = (fields.next(), fields.next()) else {
        bail!("a script begins with a width and a decorator");
    };
    let mut options = ALL_OFF;
    for field in fields {
        set_option(&mut options, field)?;
    }
    let script = Script {
        width: width.parse()?,
        options,
        calls,
    };
    let lines = lines_by(alloc, script, decorator, Pieces::Whole)?;
    if lines_by(alloc, script, decorator, Pieces::Characters)? != lines {
        bail!("other lines, a character at a time");
    }
    Ok(lines)
}

const ALL_OFF: RenderOptions = RenderOptions {
    wrap_width: None,
    allow_width_overflow: false,
    pad_block_width: false,
    raw: false,
    draw_borders: false,
    fence_tables: false,
    fit_columns: false,
    wrap_links: false,
    include_link_footnotes: false,
    shared_footnotes: false,
    printable_targets: false,
    use_unicode_strikeout: false,
    img_mode: ImageRenderMode::IgnoreEmpty,
};

fn set_option(options: &mut RenderOptions, field: &str) -> Result<()> {
    match field {
        "allow_width_overflow" => options.allow_width_overflow = true,
        "pad_block_width" => options.pad_block_width = true,
        "draw_borders" => options.draw_borders = true,
        "use_unicode_strikeout" => options.use_unicode_strikeout = true,
        _ => match field.strip_prefix("wrap_width=") {
            Some(columns) => options.wrap_width = Some(columns.parse()?),
            None => bail!("no option has the name {field}"),
        },
    }
    Ok(())
}

fn lines_by(alloc: Global, script: Script<'_>, decorator: &str, pieces: Pieces) -> Result<String> {
    match decorator {
        "plain" => lines_or_refusal(alloc, script, PlainDecorator::new(), pieces),
        "rich" => lines_or_refusal(alloc, script, RichDecorator::new(), pieces),
        _ => bail!("no decorator has the name {decorator}"),
    }
}

/// The lines, each with whether it is text or a border, or one that says that the block is too narrow.
fn lines_or_refusal<D: TextDecorator + Drop>(
    alloc: Global,
    script: Script<'_>,
    decorator: D,
    pieces: Pieces,
) -> Result<String>
where
    D::Annotation: Named,
{
    let mut shown = String::new(alloc);
    match lines_of(alloc, script, decorator, pieces)? {
        Ok(lines) => {
            for line in lines {
                let word = match &line {
                    RenderLine::Text(_) => "text",
                    RenderLine::Line(_) => "border",
                };
                push_elements(&mut shown, word, &line.into_tagged_line()?)?;
            }
        }
        Err(BlockError::TooNarrow) => shown.push_str("TooNarrow\n")?,
        Err(error) => return Err(error.into()),
    }
    Ok(shown)
}

fn lines_of<D: TextDecorator + Drop>(
    alloc: Global,
    script: Script<'_>,
    decorator: D,
    pieces: Pieces,
) -> Result<Result<Vec<RenderLine<Vec<D::Annotation>>>, BlockError>> {
    let renderer = SubRenderer::new(alloc, script.width, script.options, decorator);
    Ok(match performed(alloc, renderer, script.calls, pieces)? {
        Ok(renderer) => renderer.into_lines(),
        Err(error) => Err(error),
    })
}
