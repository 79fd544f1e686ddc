use crate::checks::{holds, passes};
use std::alloc::{AllocError, Global};
use text_block_renderer::{
    BlockError, PlainDecorator, RenderOptions, Renderer, SubRenderer, TextRenderer,
};
use text_borders::RenderLine;

fn block(alloc: Global, width: usize, overflow: bool) -> SubRenderer<PlainDecorator> {
    let mut options = RenderOptions::default();
    options.allow_width_overflow = overflow;
    options.include_link_footnotes = true;
    SubRenderer::new(alloc, width, options, PlainDecorator::new())
}

fn is_refused_on(alloc: Global) -> Result<bool, BlockError> {
    let mut block = block(alloc, 1, false);
    block.add_inline_text("漢")?;
    let is_narrow = matches!(block.new_line(), Err(BlockError::TooNarrow));
    let is_failed = matches!(block.start_block(), Err(BlockError::Failed));
    Ok(is_narrow && is_failed && matches!(block.into_lines(), Err(BlockError::Failed)))
}

/// A part of the page of which a call was refused.
fn failed_part(
    page: &mut SubRenderer<PlainDecorator>,
) -> Result<SubRenderer<PlainDecorator>, BlockError> {
    let mut part = page.new_sub_renderer(1)?;
    part.add_inline_text("漢")?;
    match part.new_line() {
        Ok(()) => Err(BlockError::Memory),
        Err(_) => Ok(part),
    }
}

fn are_failed_parts_refused(alloc: Global) -> Result<bool, BlockError> {
    let mut page = block(alloc, 10, false);
    let part = failed_part(&mut page)?;
    let trailing = page.append_subrender(part, "> ", "> ");
    let mut table = block(alloc, 10, false);
    let mut cells = Vec::new(alloc);
    cells.push((table.new_sub_renderer(4)?, 1))?;
    cells.push((failed_part(&mut table)?, 1))?;
    let beside = table.append_columns_with_borders(cells, true);
    let mut rows = block(alloc, 10, false);
    let mut cells = Vec::new(alloc);
    cells.push(failed_part(&mut rows)?)?;
    let below = rows.append_vert_row(cells);
    let are_refused = [trailing, beside, below]
        .iter()
        .all(|answer| matches!(answer, Err(BlockError::Failed)));
    Ok(are_refused && page.new_line().is_err())
}

#[test]
fn room_after_a_prefix(rt: HostRuntime) {
    let narrow = block(rt.alloc(), 2, false).width_minus(2, 1);
    holds(&rt, narrow.is_err(), "no room");
    for prefix in [2, 1] {
        let wide = block(rt.alloc(), 2, true).width_minus(prefix, 1);
        holds(&rt, matches!(wide, Ok(1)), "room");
    }
    let short = block(rt.alloc(), 4, false).width_minus(2, 3);
    holds(&rt, short.is_err(), "two columns of three");
    let past = block(rt.alloc(), 4, true).width_minus(2, 3);
    holds(&rt, matches!(past, Ok(3)), "three columns past the width");
    let short = block(rt.alloc(), 10, false).width_minus(2, 9);
    holds(&rt, short.is_err(), "eight columns of nine");
    let past = block(rt.alloc(), 3, true).width_minus(2, 5);
    holds(&rt, matches!(past, Ok(5)), "five columns past the width");
}

fn quote(page: &mut TextRenderer<PlainDecorator>, text: &str) -> Result<(), BlockError> {
    let part = page.current_mut().new_sub_renderer(4)?;
    page.push(part)?;
    page.current_mut().add_inline_text(text)?;
    if page.depth() > 1 {
        let part = page.pop();
        page.current_mut().append_subrender(part, "> ", "> ")?;
    }
    Ok(())
}

fn are_parts(alloc: Global) -> Result<bool, BlockError> {
    let mut page = TextRenderer::new(alloc, block(alloc, 10, false));
    page.start_link("target")?;
    page.current_mut().add_inline_text("a")?;
    page.end_link()?;
    quote(&mut page, "b c d")?;
    if page.depth() != 1 {
        return Ok(false);
    }
    let (block, links) = page.into_inner();
    Ok(links.into_noted(true)?.len() == 1 && block.into_lines()?.len() == 3)
}

fn targets(alloc: Global) -> Result<Vec<String>, AllocError> {
    Ok(vec![in alloc; String::from_str(alloc, "a")?]?)
}

// lines after a page are cut by characters
fn are_footnotes_cut(alloc: Global) -> Result<bool, BlockError> {
    let mut block = block(alloc, 1, false);
    let lines = block.finalise(targets(alloc)?)?;
    block.fmt_links(lines)?;
    Ok(block.into_string()?.as_str() == "[\n1\n]\n:\n \na\n")
}

// code and the text after it are one string where no annotations are kept
fn is_one_string(alloc: Global) -> Result<bool, BlockError> {
    let options = RenderOptions::default();
    let mut block = SubRenderer::without_annotations(alloc, 20, options, PlainDecorator::new());
    block.start_code()?;
    block.add_inline_text("a")?;
    block.end_code()?;
    block.add_inline_text("b")?;
    let lines = block.into_lines()?;
    match lines.as_slice() {
        [RenderLine::Text(line)] => {
            let mut strings = line.tagged_strings();
            Ok(strings.next().is_some() && strings.next().is_none())
        }
        _ => Ok(false),
    }
}

#[test]
fn renderers_and_pages(rt: HostRuntime) {
    let alloc = rt.alloc();
    passes(&rt, is_refused_on(alloc), "a refused renderer");
    passes(&rt, are_parts(alloc), "parts of a page");
    passes(&rt, are_failed_parts_refused(alloc), "parts that failed");
    passes(&rt, are_footnotes_cut(alloc), "footnotes");
    passes(&rt, is_one_string(alloc), "no annotations");
}
