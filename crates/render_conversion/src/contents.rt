//! Texts that rules put before and after children.
ghost use Rattle.std.specs.Prelude.{◌≡◌, ◌++◌, OnOk, chars};
ghost use Rattle.render_values.specs.Arena.{flat};
ghost use Rattle.render_values.specs.Looks.{plain};
ghost use Rattle.render_conversion.specs.Conversion.{content};
ghost use Rattle.render_conversion.specs.Inner.{text_value};
ghost use Rattle.render_conversion.specs.Seen.{seen_part};

use crate::place::Place;
use crate::styles::PartStyle;
use html_lexemes::Text;
use render_values::{Head, RenderInfo, RenderNode, RenderStyle, is_white_space};
use std::alloc::{AllocError, Global};

// a text that stands by itself
fn push_text(
    alloc: Global,
    nodes: &mut Vec<RenderNode>,
    look: RenderStyle,
    text: &str,
) -> Result<(), AllocError>
    ensures { OnOk result (nodes.new.items ≡ nodes.old.items ++ flat (text_value look (chars text.now))) }
{
    let info = RenderInfo::Text(Text::from_str(alloc, text)?);
    nodes.push(RenderNode {
        head: Head {
            info,
            style: look,
            fragment: None,
        },
        below: 0,
    })?;
    Ok(())
}

/// A text without a style. The error is allocation failure alone.
pub(crate) fn push_plain_text(
    alloc: Global,
    nodes: &mut Vec<RenderNode>,
    text: &str,
) -> Result<(), AllocError>
    ensures { OnOk result (nodes.new.items ≡ nodes.old.items ++ flat (text_value plain (chars text.now))) }
{
    push_text(alloc, nodes, RenderStyle::plain(), text)
}

/// A text that a rule puts among children that stand at a place, where there is one. The error is allocation failure
/// alone.
pub(crate) fn say(
    alloc: Global,
    nodes: &mut Vec<RenderNode>,
    place: Place,
    part: PartStyle<'_>,
) -> Result<(), AllocError>
    ensures { OnOk result (nodes.new.items ≡ nodes.old.items ++ flat (content place (seen_part part.entry))) }
{
    if part.hidden {
        return Ok(());
    }
    let Some(text) = part.content else {
        return Ok(());
    };
    match place {
        Place::Flow => push_text(alloc, nodes, part.look, text),
        Place::Items => {
            if is_white_space(text) {
                return Ok(());
            }
            push_text(alloc, nodes, part.look, text)
        }
        Place::Nowhere => Ok(()),
        Place::Groups => Ok(()),
        Place::Feet => Ok(()),
        Place::Captions => Ok(()),
        Place::Rows => Ok(()),
        Place::Cells => Ok(()),
    }
}
