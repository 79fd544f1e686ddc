ghost use Rattle.std.specs.Prelude.{◌≡◌};
ghost use Rattle.html_tokenizer.specs.Inside.{result_of};

use crate::reader::Pause;
use html_lexemes::Text;

/// Why a `Tokenizer` gave back what it was fed with.
#[derive(Drop)]
pub enum TokenizerResult<H> {
    /// The queue is empty.
    Done,
    /// A pause, for the script element of this handle. What follows its end tag is in the queue.
    Script(H),
    /// A pause, since the page names this encoding. What follows the tag that names it is in the queue.
    EncodingIndicator(Text),
}

/// The result that a pause is.
pub(crate) fn result_of<H>(pause: Pause<H>) -> TokenizerResult<H>
    ensures { result ≡ result_of pause }
{
    match pause {
        Pause::Script(handle) => TokenizerResult::Script(handle),
        Pause::EncodingIndicator(encoding) => TokenizerResult::EncodingIndicator(encoding),
    }
}
