//! A law of tokenizers.
ghost use Rattle.std.specs.Prelude.{◌≡◌};
ghost use Rattle.html_tokenizer.specs.OtherSinks.{GoesOnAs, HoldsIn, with_sink};
ghost use Rattle.html_tokenizer.specs.declared.tokenizer.Tokenizer.{Tokenizer};

use token_grammar::TokenSink;

/// Somebody else may change a tokenizer's sink, if its state stays: the tokenizer goes on as it would have.
pub fn a_sink_may_change_but_for_its_state<Sink: TokenSink>()
    ensures { (tokenizer : Tokenizer Sink) (sink : Sink) (holds : HoldsIn tokenizer) →
        Sink.state sink ≡ Sink.state tokenizer.sink →
        GoesOnAs Sink.state Sink.means Sink.ready Sink.welcomes tokenizer (with_sink sink tokenizer holds) }
{}
