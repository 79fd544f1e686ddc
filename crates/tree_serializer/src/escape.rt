//! Escaped text (WHATWG HTML, 13.3, "escaping a string").
ghost use Rattle.std.specs.Prelude.{◌≡◌, ◌++◌, ◌<◌, Bool, true, chars, length, IfSome, MatchOption, OnErr, OnOk};
ghost use Rattle.std.specs.Str.{IsUtf8};
ghost use Rattle.tree_serializer.specs.Escapes.{escaped, escaped_character};
ghost use Rattle.tree_serializer.specs.Marks.{is_mark, marks};
ghost use Rattle.tree_serializer.specs.Writing.{Grows, GrowsPart};

use crate::writes::write_text;
use html_lexemes::{ByteWriter, DeviceFault};

// the characters that are escaped
fn marks(in_value: bool) -> &'static [char]
    ensures { result.now ≡ marks in_value }
{
    if in_value {
        &['&', '\u{a0}', '<', '>', '"']
    } else {
        &['&', '\u{a0}', '<', '>']
    }
}

// how a character that is escaped is written
fn reference(c: char) -> &'static str
    ensures { (in_value : Bool) → is_mark in_value c ≡ true → chars result.now ≡ escaped_character in_value c }
{
    match c {
        '&' => "&amp;",
        '\u{a0}' => "&nbsp;",
        '<' => "&lt;",
        '>' => "&gt;",
        '"' => "&quot;",
        _ => "",
    }
}

// The text before the first character that is escaped, how that is written, and what follows it.
fn next_escaped(text: &str, in_value: bool) -> Option<(&str, &'static str, &str)>
    ensures value { MatchOption result (escaped in_value (chars text.now) ≡ chars text.now)
        (λ r. escaped in_value (chars text.now)
        ≡ chars r.0.now ++ (chars r.1.now ++ escaped in_value (chars r.2.now))) }
    ensures run { IfSome result (λ r. IsUtf8 r.0.now) }
    ensures reference { IfSome result (λ r. IsUtf8 r.1.now) }
    ensures trailing { IfSome result (λ r. IsUtf8 r.2.now) }
    ensures shorter { IfSome result (λ r. length r.2.now < length text.now) }
{
    let at = text.find(marks(in_value))?;
    let (run, rest) = text.split_at(at);
    let mut characters = rest.chars();
    let c = characters.next()?;
    Some((run, reference(c), characters.as_str()))
}

// writes a text escaped; a fault leaves a beginning of that
pub(crate) fn write_escaped<W: ByteWriter>(
    writer: &mut W,
    text: &str,
    in_value: bool,
) -> Result<(), DeviceFault>
    ensures ok { OnOk result
        (Grows (escaped in_value (chars text.now)) (W.contents writer.old) (W.contents writer.new)) }
    ensures part { OnErr result
        (GrowsPart (escaped in_value (chars text.now)) (W.contents writer.old) (W.contents writer.new)) }
    ensures failed { OnErr result (W.has_failed writer.new ≡ true) }
    ensures stays { W.has_failed writer.old ≡ true → W.has_failed writer.new ≡ true }
{
    let mut rest = text;
    'runs: while let Some((run, reference, trailing)) = next_escaped(rest, in_value) {
        write_text(writer, run)?;
        write_text(writer, reference)?;
        rest = trailing;
    }
    write_text(writer, rest)
}
