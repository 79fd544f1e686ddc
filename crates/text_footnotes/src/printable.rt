//! Targets that a terminal shows and doesn't obey.
ghost use Rattle.std.specs.Prelude.{◌≡◌, ◌++◌, IfOk, OnOk, chars, flat_map, string_bytes};
ghost use Rattle.std.specs.List.{list_any};
ghost use Rattle.percent_encoding.specs.Percent.{percent_encode_byte};
ghost use Rattle.text_pieces.specs.Sources.{names};
ghost use Rattle.text_footnotes.specs.Printable.{is_unprintable, printable, printable_character, shown_targets};

use percent_encoding::percent_encode_byte;
use std::alloc::AllocError;

/// The targets as they are asked for: as they stand, or with each unprintable character (a control of C0 or C1, a line
/// or paragraph separator, a mark, embedding, override or isolate of the direction of text) as the bytes of its UTF-8,
/// each as `%` and two upper-case hexadecimal digits (URL Standard, 1.3). The error is allocation failure.
pub fn shown_targets(targets: Vec<String>, prints: bool) -> Result<Vec<String>, AllocError>
    ensures { IfOk result (λ shown. names shown.items ≡ shown_targets prints (names targets.items)) }
{
    if !prints {
        return Ok(targets);
    }
    let mut shown = Vec::with_capacity(*targets.allocator(), targets.len())?;
    'targets: for target in targets {
        shown.push(into_printable(target)?)?;
    }
    Ok(shown)
}

// a target that has no unprintable character is moved
fn into_printable(target: String) -> Result<String, AllocError>
    ensures { IfOk result (λ text. chars (string_bytes text) ≡ printable (chars (string_bytes target))) }
{
    if !has_unprintable(target.as_str()) {
        return Ok(target);
    }
    let mut text = String::with_capacity(*target.allocator(), target.len())?;
    for c in target.chars() {
        push_printable(&mut text, c)?;
    }
    Ok(text)
}

fn push_printable(text: &mut String, c: char) -> Result<(), AllocError>
    ensures { OnOk result (chars (string_bytes text.new) ≡ chars (string_bytes text.old) ++ printable_character c) }
{
    if is_unprintable(c) {
        let mut bytes = [0; 4];
        return push_escapes(text, c.encode_utf8(&mut bytes).as_bytes());
    }
    text.push(c)?;
    Ok(())
}

fn push_escapes(text: &mut String, bytes: &[u8]) -> Result<(), AllocError>
    ensures { OnOk result (chars (string_bytes text.new)
        ≡ chars (string_bytes text.old) ++ flat_map percent_encode_byte bytes.now) }
{
    for byte in bytes {
        text.push_str(percent_encode_byte(*byte))?;
    }
    Ok(())
}

fn has_unprintable(text: &str) -> bool
    ensures { result ≡ list_any is_unprintable (chars text.now) }
{
    text.chars().any(|c| is_unprintable(c))
}

fn is_unprintable(c: char) -> bool
    ensures { result ≡ is_unprintable c }
{
    c.is_control()
        || matches!(
            c,
            '\u{2028}'..='\u{202E}' | '\u{61C}' | '\u{200E}'..='\u{200F}' | '\u{2066}'..='\u{2069}'
        )
}
