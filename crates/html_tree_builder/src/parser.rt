//! A parser of pages.
ghost use Rattle.std.specs.Prelude.{◌≡◌, ◌++◌, [], Err, IfErr, IfOk, List, OnOk, chars, false, is_err, string_bytes};
ghost use Rattle.std.specs.Prelude.{true, ℕ};
ghost use Rattle.html_lexemes.specs.declared.fault.ParseFault.TheVariants.{Failed, Memory};
ghost use Rattle.html_tokenizer.specs.Pieces.{joined};
ghost use Rattle.html_tokenizer.specs.OtherSinks.{GoesOnAs};
ghost use Rattle.html_tree_builder.specs.Grown.{IsGrown};
ghost use Rattle.html_tree_builder.specs.Parsers.{state_in};
ghost use Rattle.rules_table.specs.Settling.{meaning};
ghost use Rattle.rules_table.specs.Welcome.{IsReady, IsWelcome};
ghost use Rattle.rules_table.specs.State.{State};

use crate::builder::TreeBuilder;
use crate::laws::a_builder_may_change_but_for_its_state;
use html_lexemes::{BufferQueue, ErrorMessage, ParseFault, Text};
use html_tokenizer::Tokenizer;
use html_tree_state::Construction;
use rules_actions::Parse;
use tree_forest::TreeSink;

/// Parses a page that comes in pieces into a sink of trees (WHATWG HTML, 13.2). Pauses that the page asks for, for a
/// script or a named encoding, are passed over. Where a call is refused since allocation fails, every later one is
/// refused as `Failed`.
pub struct Parser<S: TreeSink> {
    /// What reads the text, and emits it to a tree builder.
    pub tokenizer: Tokenizer<TreeBuilder<S>>,
    /// Text that is to be read before what is processed next.
    pub input_buffer: BufferQueue,
    // a call was refused
    pub(crate) is_over: bool,
}

impl<S: TreeSink + Drop> Drop for Parser<S> {
    // The page isn't ended: nothing more is read, and no memory is asked for.
    fn drop(self) {
        let _sink = self.into_sink();
    }
}

impl<S: TreeSink> Parser<S> {
    ghost use Rattle.html_tree_builder.specs.Parsers.{Completes, IsFit, has_failed};

    /// Reads a piece of the page's text.
    #[tactic(auto, unfolding(crate::specs::Parsers::has_failed, crate::specs::Parsers::IsFit, crate::specs::Parsers::Completes))]
    pub fn process(&mut self, piece: String) -> Result<(), ParseFault>
        requires { IsFit S.view self.old }
        ensures fit { IsFit S.view self.new }
        ensures memory { has_failed self.old ≡ false → IfErr result (λ e. e ≡ Memory) }
        ensures failed { has_failed self.old ≡ true → result ≡ Err Failed }
        ensures works { has_failed self.new ≡ is_err result }
        ensures reads { OnOk result ((rest : List ℕ) (final : State) → Completes S.view self.new rest final → Completes
            S.view self.old (chars (string_bytes piece) ++ rest) final) }
    {
        if self.is_over {
            return Err(ParseFault::Failed);
        }
        // a refused call leaves it so
        self.is_over = true;
        self.input_buffer.push_back(piece)?;
        self.tokenizer.feed_on(&mut self.input_buffer)?;
        self.is_over = false;
        Ok(())
    }

    /// Whether a call was refused. Then every later one is.
    #[tactic(auto, unfolding(crate::specs::Parsers::has_failed))]
    pub fn has_failed(&self) -> bool
        ensures { result ≡ has_failed self.now }
    {
        self.is_over
    }

    /// Reads the pieces of a text, one after another. After a refused call it is refused, even without pieces.
    pub fn process_all(&mut self, pieces: Vec<String>) -> Result<(), ParseFault>
        requires { IsFit S.view self.old }
        ensures fit { IsFit S.view self.new }
        ensures memory { has_failed self.old ≡ false → IfErr result (λ e. e ≡ Memory) }
        ensures failed { has_failed self.old ≡ true → result ≡ Err Failed }
        ensures works { has_failed self.new ≡ is_err result }
        ensures reads { OnOk result ((rest : List ℕ) (final : State) → Completes S.view self.new rest final → Completes
            S.view self.old (joined pieces.items ++ rest) final) }
    {
        if self.has_failed() {
            return Err(ParseFault::Failed);
        }
        'pieces: for piece in pieces {
            self.process(piece)?;
        }
        Ok(())
    }

    /// Emits the sink of trees of an error that the parser did not find. Nothing else changes.
    #[tactic(auto, unfolding(crate::specs::Parsers::has_failed, crate::specs::Parsers::IsFit, crate::specs::Parsers::Completes))]
    pub fn error(&mut self, message: String) -> Result<(), ParseFault>
        ensures fit { IsFit S.view self.old → IsFit S.view self.new }
        ensures memory { has_failed self.old ≡ false → IfErr result (λ e. e ≡ Memory) }
        ensures failed { has_failed self.old ≡ true → result ≡ Err Failed }
        ensures works { has_failed self.new ≡ is_err result }
        ensures reads { OnOk result ((rest : List ℕ) (final : State) → Completes S.view self.new rest final → Completes
            S.view self.old rest final) }
    {
        if self.is_over {
            return Err(ParseFault::Failed);
        }
        self.is_over = true;
        let message = ErrorMessage::Made(Text::from(message));
        emit_error(&mut self.tokenizer, message)?;
        self.is_over = false;
        Ok(())
    }

    // reads what is left, and the end of the page
    #[tactic(auto, unfolding(crate::specs::Parsers::has_failed, crate::specs::Parsers::IsFit, crate::specs::Parsers::Completes))]
    fn end(&mut self) -> Result<(), ParseFault>
        requires { IsFit S.view self.old }
        ensures memory { has_failed self.old ≡ false → IfErr result (λ e. e ≡ Memory) }
        ensures failed { has_failed self.old ≡ true → result ≡ Err Failed }
        ensures grown { OnOk result (IsGrown (Completes S.view self.old [])
            (S.view.forest self.new.tokenizer.sink.page.tree.sink)
            (S.view.quirks self.new.tokenizer.sink.page.tree.sink)) }
    {
        if self.is_over {
            return Err(ParseFault::Failed);
        }
        self.is_over = true;
        self.tokenizer.feed_on(&mut self.input_buffer)?;
        self.tokenizer.end()
    }

    // its sink
    pub(crate) fn into_sink(self) -> S
        ensures { result ≡ self.tokenizer.sink.page.tree.sink }
    {
        let Parser {
            tokenizer,
            input_buffer: _,
            is_over: _,
        } = self;
        let Tokenizer { sink, .. } = tokenizer;
        let TreeBuilder { page } = sink;
        let Parse { kept: _, tree } = page;
        let Construction { held: _, sink } = tree;
        sink
    }
}

impl<S: TreeSink + Drop> Parser<S> {
    ghost use Rattle.html_tree_builder.specs.Parsers.{Completes, IsFit, has_failed};

    /// Reads the end of the page, and gives the finished tree.
    pub fn finish(self) -> Result<S::Output, ParseFault>
        requires { IsFit S.view self }
        ensures memory { has_failed self ≡ false → IfErr result (λ e. e ≡ Memory) }
        ensures failed { has_failed self ≡ true → result ≡ Err Failed }
        ensures grown { IfOk result (λ output. IsGrown (Completes S.view self []) (S.tree output)
            (S.tree_quirks output)) }
    {
        let mut parser = self;
        let ended = parser.end();
        let sink = parser.into_sink();
        match ended {
            Ok(()) => Ok(sink.finish()),
            Err(fault) => Err(fault),
        }
    }

    /// Reads the last piece of the page, or its only one, and the end.
    pub fn one(self, piece: String) -> Result<S::Output, ParseFault>
        requires { IsFit S.view self }
        ensures memory { has_failed self ≡ false → IfErr result (λ e. e ≡ Memory) }
        ensures failed { has_failed self ≡ true → result ≡ Err Failed }
        ensures grown { IfOk result (λ output. IsGrown (Completes S.view self (chars (string_bytes piece)))
            (S.tree output) (S.tree_quirks output)) }
    {
        let mut parser = self;
        match parser.process(piece) {
            Ok(()) => parser.finish(),
            Err(fault) => Err(fault),
        }
    }
}

// an error that the tokenizer did not find
fn emit_error<S: TreeSink>(
    tokenizer: &mut Tokenizer<TreeBuilder<S>>,
    message: ErrorMessage,
) -> Result<(), ParseFault>
    ensures as_before { GoesOnAs (state_in S.view) (meaning S.view.handle) IsReady IsWelcome tokenizer.old
        tokenizer.new }
    ensures memory { IfErr result (λ e. e ≡ Memory) }
{
    a_builder_may_change_but_for_its_state::<S>();
    tokenizer.sink.page.tree.sink.parse_error(message)
}
