//! Texts within a line.
ghost use Rattle.std.specs.Prelude.{◌≡◌, ◌++◌, ◌<◌, true, chars, length, IfSome, MatchOption, OnOk};
ghost use Rattle.std.specs.Char.{char_set_contains};
ghost use Rattle.std.specs.Str.{IsUtf8};
ghost use Rattle.dom_writing.specs.Dumps.{shown, shown_character};
ghost use Rattle.dom_writing.specs.Marks.{marks};

use html_lexemes::Text;
use std::alloc::AllocError;

// how a line end and a backslash are written
fn escape(c: char) -> &'static str
    ensures { char_set_contains marks c ≡ true → chars result.now ≡ shown_character c }
{
    match c {
        '\n' => "\\n",
        '\\' => "\\\\",
        _ => "",
    }
}

// The text before the first character that is written otherwise, how that is written, and what follows it.
fn next_escape(text: &str) -> Option<(&str, &'static str, &str)>
    ensures value { MatchOption result (shown (chars text.now) ≡ chars text.now)
        (λ r. shown (chars text.now) ≡ chars r.0.now ++ (chars r.1.now ++ shown (chars r.2.now))) }
    ensures run { IfSome result (λ r. IsUtf8 r.0.now) }
    ensures escape { IfSome result (λ r. IsUtf8 r.1.now) }
    ensures trailing { IfSome result (λ r. IsUtf8 r.2.now) }
    ensures shorter { IfSome result (λ r. length r.2.now < length text.now) }
{
    let at = text.find(['\n', '\\'])?;
    let (run, rest) = text.split_at(at);
    let mut characters = rest.chars();
    let c = characters.next()?;
    Some((run, escape(c), characters.as_str()))
}

// adds a text, with its line ends and backslashes escaped
pub(crate) fn push_shown(lines: &mut Text, text: &str) -> Result<(), AllocError>
    ensures { OnOk result (lines.new ≡ lines.old ++ shown (chars text.now)) }
{
    let mut rest = text;
    'runs: while let Some((run, escape, trailing)) = next_escape(rest) {
        lines.push_str(run)?;
        lines.push_str(escape)?;
        rest = trailing;
    }
    lines.push_str(rest)
}
