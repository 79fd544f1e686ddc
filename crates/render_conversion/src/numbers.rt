//! Numbers in attributes.
ghost use Rattle.std.specs.Prelude.{◌≡◌, chars, option_map};
ghost use Rattle.render_conversion.specs.Numbers.{at_least_one, signed_of, span_of, start_of, unsigned_of};

use html_lexemes::Text;

fn read_signed(text: &str) -> Option<i64>
    ensures { result ≡ signed_of (chars text.now) }
{
    text.parse::<i64>().ok()
}

fn read_unsigned(text: &str) -> Option<usize>
    ensures { result ≡ unsigned_of (chars text.now) }
{
    text.parse::<usize>().ok()
}

/// The first number of an ordered list, by its `start`: 1 where that is none, or is no `i64` as std reads one.
pub(crate) fn start_of(start: Option<&Text>) -> i64
    ensures { result ≡ start_of (option_map (λ text. text.now) start.entry) }
{
    match start {
        Some(text) => read_signed(text.as_str()).unwrap_or(1),
        None => 1,
    }
}

fn at_least_one(span: Option<usize>) -> usize
    ensures { result ≡ at_least_one span }
{
    match span {
        Some(0) | None => 1,
        Some(span) => span,
    }
}

/// How many columns or rows a cell spans, by its `colspan` or `rowspan`: 1 where that is none, is 0, or is no `usize`
/// as std reads one.
pub(crate) fn span_of(span: Option<&Text>) -> usize
    ensures { result ≡ span_of (option_map (λ text. text.now) span.entry) }
{
    match span {
        Some(text) => at_least_one(read_unsigned(text.as_str())),
        None => 1,
    }
}
