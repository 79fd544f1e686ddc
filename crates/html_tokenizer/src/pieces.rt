ghost use Rattle.std.specs.Prelude.{◌≡◌, IfErr, IfOk};
ghost use Rattle.html_lexemes.specs.declared.fault.ParseFault.TheVariants.{Memory};
ghost use Rattle.token_grammar.specs.FirstMode.{first_mode};
ghost use Rattle.token_grammar.specs.Kinds.{IsReadyFor};
ghost use Rattle.token_grammar.specs.Modes.{text_of_state};
ghost use Rattle.token_grammar.specs.PageText.{page_text};
ghost use Rattle.token_grammar.specs.Reading.{IsClosed, Reading};
ghost use Rattle.html_tokenizer.specs.Pieces.{joined};

use crate::tokenizer::Tokenizer;
use html_lexemes::{BufferQueue, ParseFault, ReferenceTable};
use std::alloc::Global;
use token_grammar::{TokenSink, TokenizerOpts};

/// Emits a page that comes in pieces to a sink, and gives the sink back. It is left as the reading of the whole page
/// leaves it, however the page is cut. Pauses are passed over. The error is allocation failure.
pub fn read_pieces<Sink: TokenSink + Drop>(
    alloc: Global,
    sink: Sink,
    opts: TokenizerOpts,
    table: ReferenceTable,
    pieces: Vec<String>,
) -> Result<Sink, ParseFault>
    requires { IsReadyFor Sink.ready Sink.welcomes (text_of_state opts.initial_state) (Sink.state sink) }
    ensures memory { IfErr result (λ e. e ≡ Memory) }
    ensures emitted { IfOk result (λ emitted. IsClosed Sink.close
        (Reading table Sink.means (first_mode opts) (Sink.state sink)
        (page_text opts.discard_bom (joined pieces.items)))
        (Sink.state emitted)) }
{
    let mut tokenizer = Tokenizer::new(alloc, sink, opts, table);
    'pieces: for piece in pieces {
        let mut queue = BufferQueue::new(alloc);
        queue.push_back(piece)?;
        tokenizer.feed_on(&mut queue)?;
    }
    tokenizer.end()?;
    let Tokenizer { sink, .. } = tokenizer;
    Ok(sink)
}
