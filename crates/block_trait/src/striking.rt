//! Struck text.
ghost use Rattle.std.specs.Prelude.{◌≡◌, ◌∷◌, ◌++◌, [], replicate, chars, string_bytes, flat_map, IfOk, OnOk};
ghost use Rattle.block_trait.specs.Renderers.{struck, struck_character, strokes_of};

use std::alloc::{AllocError, Global};
use text_pieces::width_of;

const COMBINING_LONG_STROKE: char = '\u{336}';

/// The text with U+0336 after each character that has columns, so many times.
pub fn struck(alloc: Global, count: usize, text: &str) -> Result<String, AllocError>
    ensures { IfOk result (λ s. chars (string_bytes s) ≡ struck count (chars text.now)) }
{
    if count == 0 {
        return String::from_str(alloc, text);
    }
    strike_all(alloc, count, text)
}

fn strike_all(alloc: Global, count: usize, text: &str) -> Result<String, AllocError>
    ensures { IfOk result (λ s. chars (string_bytes s) ≡ flat_map (struck_character count) (chars text.now)) }
{
    let mut struck = String::new(alloc);
    for c in text.chars() {
        push_struck(&mut struck, count, c)?;
    }
    Ok(struck)
}

/// Adds a character, struck where it has columns.
fn push_struck(struck: &mut String, count: usize, c: char) -> Result<(), AllocError>
    ensures { OnOk result (chars (string_bytes struck.new)
        ≡ chars (string_bytes struck.old) ++ struck_character count c) }
{
    push_character(struck, c)?;
    push_strokes(struck, strokes_of(count, c))
}

/// How often the character is struck.
fn strokes_of(count: usize, c: char) -> usize
    ensures { result ≡ strokes_of count c }
{
    if width_of(c) > 0 { count } else { 0 }
}

fn push_strokes(struck: &mut String, count: usize) -> Result<(), AllocError>
    ensures { OnOk result (chars (string_bytes struck.new) ≡ chars (string_bytes struck.old) ++ replicate count 0x336) }
{
    for _stroke in 0..count {
        push_character(struck, COMBINING_LONG_STROKE)?;
    }
    Ok(())
}

pub(crate) fn push_character(text: &mut String, c: char) -> Result<(), AllocError>
    ensures { OnOk result (chars (string_bytes text.new) ≡ chars (string_bytes text.old) ++ c ∷ []) }
{
    text.push(c)?;
    Ok(())
}
