ghost use Rattle.std.specs.Prelude.{◌≡◌};
ghost use Rattle.html_tokenizer.specs.Stops.{stops};

use html_lexemes::states::RawKind;
use token_grammar::TextKind;

/// The characters at which a run of text of a kind stops: any other is text by itself, and ends no line.
pub(crate) fn stops_of(text: TextKind) -> &'static [char]
    ensures { result.now ≡ stops text }
{
    match text {
        TextKind::Raw(RawKind::ScriptDataEscaped(_)) => &['<', '&', '\n', '\r', '\0', '-'],
        _ => &['<', '&', '\n', '\r', '\0'],
    }
}
