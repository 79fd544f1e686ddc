//! Pages fed to a tokenizer, in pieces.
ghost use Rattle.std.specs.Prelude.{◌≡◌, Err, IfErr, IfOk};
ghost use Rattle.html_lexemes.specs.declared.fault.ParseFault.TheVariants.{Failed, Memory};
ghost use Rattle.token_grammar.specs.FirstMode.{first_mode};
ghost use Rattle.token_grammar.specs.Kinds.{IsReadyFor};
ghost use Rattle.token_grammar.specs.Modes.{text_of_state};
ghost use Rattle.token_grammar.specs.PageText.{page_text};
ghost use Rattle.token_grammar.specs.Reading.{IsClosed, Reading};
ghost use Rattle.html_tokenizer.specs.Completes.{IsFit};
ghost use Rattle.html_tokenizer.specs.Pieces.{joined};

use html_lexemes::{BufferQueue, ParseFault, ReferenceTable};
use html_tokenizer::{Tokenizer, TokenizerResult, read_pieces};
use std::alloc::Global;
use token_grammar::{TokenSink, TokenizerOpts};

/// The sink after the end of a page that was fed in pieces. Pauses that it asks for are passed over.
pub(crate) fn fed<S: TokenSink + Drop>(
    alloc: Global,
    sink: S,
    options: TokenizerOpts,
    table: ReferenceTable,
    pieces: Vec<String>,
) -> Result<S, ParseFault>
    requires { IsReadyFor S.ready S.welcomes (text_of_state options.initial_state) (S.state sink) }
    ensures memory { IfErr result (λ e. e ≡ Memory) }
    ensures reads { IfOk result (λ last. IsClosed S.close (Reading table S.means (first_mode options)
        (S.state sink) (page_text options.discard_bom (joined pieces.items))) (S.state last)) }
{
    read_pieces(alloc, sink, options, table, pieces)
}

/// What the first feed of a page answers, what it leaves in the queue, and whether the tokenizer is in a state of text
/// then, and has nothing pending.
pub(crate) fn first_answer<S: TokenSink + Drop>(
    alloc: Global,
    sink: S,
    options: TokenizerOpts,
    table: ReferenceTable,
    page: &str,
) -> Result<(TokenizerResult<S::Handle>, String, bool, bool), ParseFault>
    requires { IsReadyFor S.ready S.welcomes (text_of_state options.initial_state) (S.state sink) }
{
    let mut tokenizer = Tokenizer::new(alloc, sink, options, table);
    let mut queue = BufferQueue::new(alloc);
    queue.push_back(String::from_str(alloc, page)?)?;
    let result = tokenizer.feed(&mut queue)?;
    let (is_text, is_idle) = (tokenizer.is_text_state(), tokenizer.nothing_pending());
    let rest = queue.pop_front().unwrap_or(String::new(alloc));
    Ok((result, rest, is_text, is_idle))
}

/// The sink after a page that is read as plain text from after a front on, where that may be asked for.
pub(crate) fn fed_plainly<S: TokenSink + Drop>(
    alloc: Global,
    sink: S,
    options: TokenizerOpts,
    table: ReferenceTable,
    front: &str,
    rest: &str,
) -> Result<S, ParseFault>
    requires { IsReadyFor S.ready S.welcomes (text_of_state options.initial_state) (S.state sink) }
{
    let mut tokenizer = Tokenizer::new(alloc, sink, options, table);
    let mut queue = BufferQueue::new(alloc);
    queue.push_back(String::from_str(alloc, front)?)?;
    tokenizer.feed_on(&mut queue)?;
    if tokenizer.is_text_state() && tokenizer.nothing_pending() {
        tokenizer.set_plaintext_state();
    }
    queue.push_back(String::from_str(alloc, rest)?)?;
    tokenizer.feed_on(&mut queue)?;
    tokenizer.end()?;
    let Tokenizer { sink, .. } = tokenizer;
    Ok(sink)
}

/// What an end answers after an end.
pub(crate) fn second_end<S: TokenSink>(tokenizer: &mut Tokenizer<S>) -> Result<(), ParseFault>
    requires { IsFit S.state S.ready S.welcomes tokenizer.old }
    ensures { result ≡ Err Failed }
{
    let _first = tokenizer.end();
    tokenizer.end()
}

/// What a feed answers, or where it was refused, what a further feed does.
pub(crate) fn fed_again<S: TokenSink>(
    tokenizer: &mut Tokenizer<S>,
    queue: &mut BufferQueue,
) -> Result<TokenizerResult<S::Handle>, ParseFault>
    requires { IsFit S.state S.ready S.welcomes tokenizer.old }
    ensures fit { IsFit S.state S.ready S.welcomes tokenizer.new }
    ensures failed { IfErr result (λ e. e ≡ Failed) }
{
    match tokenizer.feed(queue) {
        Ok(result) => Ok(result),
        Err(_refused) => tokenizer.feed(queue),
    }
}

/// The same of feeding on.
pub(crate) fn fed_on_again<S: TokenSink>(
    tokenizer: &mut Tokenizer<S>,
    queue: &mut BufferQueue,
) -> Result<(), ParseFault>
    requires { IsFit S.state S.ready S.welcomes tokenizer.old }
    ensures fit { IsFit S.state S.ready S.welcomes tokenizer.new }
    ensures failed { IfErr result (λ e. e ≡ Failed) }
{
    match tokenizer.feed_on(queue) {
        Ok(()) => Ok(()),
        Err(_refused) => tokenizer.feed_on(queue),
    }
}

/// The faults of a page's feed, of feeding on, and of a second end, each once more where it was refused.
pub(crate) fn later_faults<S: TokenSink + Drop>(
    alloc: Global,
    sink: S,
    options: TokenizerOpts,
    table: ReferenceTable,
    page: &str,
) -> Result<[Option<ParseFault>; 3], ParseFault>
    requires { IsReadyFor S.ready S.welcomes (text_of_state options.initial_state) (S.state sink) }
{
    let mut tokenizer = Tokenizer::new(alloc, sink, options, table);
    let mut queue = BufferQueue::new(alloc);
    queue.push_back(String::from_str(alloc, page)?)?;
    let fed = fed_again(&mut tokenizer, &mut queue).err();
    let fed_on = fed_on_again(&mut tokenizer, &mut queue).err();
    Ok([fed, fed_on, second_end(&mut tokenizer).err()])
}
