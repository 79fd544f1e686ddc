//! The text of lines.
ghost use Rattle.std.specs.Prelude.{◌≡◌, ◌++◌, map, chars, string_bytes, IfOk, OnOk};
ghost use Rattle.text_lines.specs.Tagged.{line_items, element_items, characters};
ghost use Rattle.text_borders.specs.Lines.{render_line_of};
ghost use Rattle.block_trait.specs.Texts.{line_text, text_of_lines};

use crate::striking::push_character;
use std::alloc::{AllocError, Global};
use text_borders::RenderLine;
use text_lines::{EqualCopy, TaggedLine, TaggedLineElement};

/// The characters of the lines, a line end after each.
pub fn text_of_lines<T: EqualCopy + Drop>(
    alloc: Global,
    lines: Vec<RenderLine<T>>,
) -> Result<String, AllocError>
    ensures { IfOk result (λ s. chars (string_bytes s) ≡ text_of_lines (map (render_line_of T.seen) lines.items)) }
{
    let mut text = String::new(alloc);
    for line in lines {
        push_line(&mut text, line)?;
    }
    Ok(text)
}

/// Adds the characters of a line, and a line end.
fn push_line<T: EqualCopy + Drop>(text: &mut String, line: RenderLine<T>) -> Result<(), AllocError>
    ensures { OnOk result (chars (string_bytes text.new)
        ≡ chars (string_bytes text.old) ++ line_text (render_line_of T.seen line)) }
{
    let line = line.into_tagged_line()?;
    push_characters(text, &line)?;
    push_character(text, '\n')
}

fn push_characters<T: EqualCopy + Drop>(
    text: &mut String,
    line: &TaggedLine<T>,
) -> Result<(), AllocError>
    ensures { OnOk result (chars (string_bytes text.new)
        ≡ chars (string_bytes text.old) ++ characters (line_items T.seen line.now)) }
{
    for element in line.iter() {
        push_element(text, element)?;
    }
    Ok(())
}

fn push_element<T: EqualCopy + Drop>(
    text: &mut String,
    element: &TaggedLineElement<T>,
) -> Result<(), AllocError>
    ensures { OnOk result (chars (string_bytes text.new)
        ≡ chars (string_bytes text.old) ++ characters (element_items T.seen element.now)) }
{
    text.push_str(element.as_str())?;
    Ok(())
}
