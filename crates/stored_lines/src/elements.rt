//! Lines of tagged text, as fields.
use std::alloc::AllocError;
use test_fields::push_escaped;
use text_decorators::{Colour, RichAnnotation};
use text_lines::{TaggedLine, TaggedLineElement};

/// An annotation that has a name.
pub trait Named {
    /// Adds its name to a line.
    fn push_name(&self, line: &mut String) -> Result<(), AllocError>;
}

impl Named for () {
    fn push_name(&self, line: &mut String) -> Result<(), AllocError> {
        line.push_str("()")
    }
}

impl Named for RichAnnotation {
    fn push_name(&self, line: &mut String) -> Result<(), AllocError> {
        match self {
            RichAnnotation::Default => line.push_str("Default"),
            RichAnnotation::Link(target) => push_with(line, "Link", target.as_str()),
            RichAnnotation::Image(source) => push_with(line, "Image", source.as_str()),
            RichAnnotation::Emphasis => line.push_str("Emphasis"),
            RichAnnotation::Strong => line.push_str("Strong"),
            RichAnnotation::Strikeout => line.push_str("Strikeout"),
            RichAnnotation::Code => line.push_str("Code"),
            RichAnnotation::Preformat(further) => write!(line, "Preformat({further})"),
            RichAnnotation::Colour(colour) => push_colour(line, "Colour", *colour),
            RichAnnotation::BgColour(colour) => push_colour(line, "BgColour", *colour),
        }
    }
}

fn push_with(line: &mut String, name: &str, text: &str) -> Result<(), AllocError> {
    line.push_str(name)?;
    line.push('(')?;
    push_escaped(line, text)?;
    line.push(')')
}

fn push_colour(line: &mut String, name: &str, colour: Colour) -> Result<(), AllocError> {
    let Colour { r, g, b } = colour;
    write!(line, "{name}(({r}, {g}, {b}))")
}

/// Adds a line: a word, and a field for each text with its annotations and for each marker.
pub fn push_elements<A: Named>(
    lines: &mut String,
    word: &str,
    line: &TaggedLine<Vec<A>>,
) -> Result<(), AllocError> {
    lines.push_str(word)?;
    for element in line.iter() {
        lines.push('\t')?;
        match element {
            TaggedLineElement::Str(string) => {
                push_names(lines, string.tag.as_slice())?;
                lines.push('|')?;
                push_escaped(lines, string.s.as_str())?;
            }
            TaggedLineElement::FragmentStart(name) => {
                lines.push('#')?;
                push_escaped(lines, name.as_str())?;
            }
        }
    }
    lines.push('\n')
}

/// Adds the names of annotations, with commas between them.
fn push_names<A: Named>(line: &mut String, annotations: &[A]) -> Result<(), AllocError> {
    let mut is_first = true;
    for annotation in annotations {
        if !is_first {
            line.push(',')?;
        }
        is_first = false;
        annotation.push_name(line)?;
    }
    Ok(())
}
