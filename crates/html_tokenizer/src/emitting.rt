//! What is emitted to a sink: the text that was read, errors, tags, and a lexeme that is over.
ghost use Rattle.std.specs.Prelude.{◌≡◌, [], ◌++◌, IfErr, IfOk, IfSome, List, None, OnOk, chars, fold, string_bytes, ℕ};
ghost use Rattle.html_lexemes.specs.declared.fault.ParseFault.TheVariants.{Memory};
ghost use Rattle.token_grammar.specs.Items.{null_character, tag as tag_item};
ghost use Rattle.token_grammar.specs.Kinds.{AreWithin, HasMarkup, IsOf, IsReadyFor};
ghost use Rattle.token_grammar.specs.Modes.{next_mode};
ghost use Rattle.token_grammar.specs.PlainRead.{items_of};
ghost use Rattle.token_states.specs.Places.{place_lexeme};
ghost use Rattle.token_states.specs.PlaceKinds.{IsPlaceOf};
ghost use Rattle.html_tokenizer.specs.Emits.{IsPauseOf};
ghost use Rattle.token_states.specs.declared.place.LexemeState.TheVariants.{Text as TextPlace};

use crate::errors::{find_errors, may_follow_error, may_repeat};
use crate::reader::{Pause, Reader};
use html_lexemes::{ParseFault, ReferenceTable, Tag, Text, Token, TokenSinkResult};
use token_grammar::TokenSink;
use token_grammar::lexemes::Lexeme;
use token_grammar::plain::{emit_tokens, last_after, text_after};
use token_states::laws::place_of_a_kind;
use token_states::{LexemeState, lexeme_from};

impl Reader {
    ghost use Rattle.html_tokenizer.specs.Holdings.{HoldsNothing};
    ghost use Rattle.html_tokenizer.specs.Reads.{Leaves, Reads, state_of};
    ghost use Rattle.html_tokenizer.specs.Emits.{AreUnanswered, Asks, IsAlike, EmitsOn};
    ghost use Rattle.token_states.specs.Turns.{IsOver, IsUntagged};

    /// Emits the text that was read.
    pub(crate) fn emit_run<S: TokenSink>(&mut self, sink: &mut S) -> Result<(), ParseFault>
        requires { IsReadyFor S.ready S.welcomes self.old.mode.text (S.state sink.old) }
        ensures memory { IfErr result (λ e. e ≡ Memory) }
        ensures ready { OnOk result (IsReadyFor S.ready S.welcomes self.new.mode.text (S.state sink.new)) }
        ensures emitted { OnOk result (S.state sink.new ≡ state_of S.means self.old (S.state sink.old)) }
        ensures emits { OnOk result (EmitsOn S.means (S.state sink.old) (S.state sink.new)) }
        ensures run { OnOk result (string_bytes self.new.run ≡ []) }
        ensures mode { self.new.mode ≡ self.old.mode }
        ensures pending { self.new.pending ≡ self.old.pending }
    {
        if self.run.is_empty() {
            return Ok(());
        }
        let alloc = *self.run.allocator();
        // a text of just its length, so that the run's room is taken once and not for each text
        let run = Text::from_str(alloc, self.run.as_str())?;
        self.run.clear();
        sink.process_token(Token::CharacterTokens(run), self.line)?;
        Ok(())
    }

    // Emits the errors that were found, after the text that was read.
    #[cold]
    pub(crate) fn emit_errors<S: TokenSink>(&mut self, sink: &mut S) -> Result<(), ParseFault>
        requires { IsReadyFor S.ready S.welcomes self.old.mode.text (S.state sink.old) }
        ensures memory { IfErr result (λ e. e ≡ Memory) }
        ensures ready { OnOk result (IsReadyFor S.ready S.welcomes self.new.mode.text (S.state sink.new)) }
        ensures alike { OnOk result
            (IsAlike S.means (state_of S.means self.old (S.state sink.old)) (S.state sink.new)) }
        ensures emits { OnOk result (EmitsOn S.means (S.state sink.old) (S.state sink.new)) }
        ensures run { OnOk result (string_bytes self.new.run ≡ []) }
        ensures mode { self.new.mode ≡ self.old.mode }
        ensures pending { self.new.pending ≡ self.old.pending }
    {
        self.emit_run(sink)?;
        'errors: for error in self.errors.take() {
            sink.process_token(Token::ParseError(error.message), error.line)?;
        }
        Ok(())
    }

    // Emits some tokens, none of which is a tag, after the errors that were found where they change nothing.
    pub(crate) fn emit_items<S: TokenSink>(
        &mut self,
        sink: &mut S,
        tokens: Vec<Token>,
    ) -> Result<(), ParseFault>
        requires ready { IsReadyFor S.ready S.welcomes self.old.mode.text (S.state sink.old) }
        requires run { string_bytes self.old.run ≡ [] }
        requires untagged { AreUnanswered (items_of tokens.items) }
        requires within { AreWithin self.old.mode.text (items_of tokens.items) }
        ensures memory { IfErr result (λ e. e ≡ Memory) }
        ensures ready { OnOk result (IsReadyFor S.ready S.welcomes self.new.mode.text (S.state sink.new)) }
        ensures emitted { OnOk result (S.state sink.new ≡ fold S.means.step (S.state sink.old) (items_of tokens.items)) }
        ensures emits { OnOk result (EmitsOn S.means (S.state sink.old) (S.state sink.new)) }
        ensures run { OnOk result (string_bytes self.new.run ≡ []) }
        ensures mode { self.new.mode ≡ self.old.mode }
        ensures pending { self.new.pending ≡ self.old.pending }
    {
        if !may_follow_error(tokens.as_slice()) {
            return emit_tokens(sink, tokens, self.line);
        }
        self.emit_errors(sink)?;
        emit_tokens(sink, tokens, self.line)
    }

    // emits a tag, and says what the sink pauses for
    pub(crate) fn emit_tag<S: TokenSink>(
        &mut self,
        sink: &mut S,
        tag: Tag,
    ) -> Result<Option<Pause<S::Handle>>, ParseFault>
        requires ready { IsReadyFor S.ready S.welcomes self.old.mode.text (S.state sink.old) }
        requires kind { IsOf self.old.mode.text (tag_item tag) }
        ensures memory { IfErr result (λ e. e ≡ Memory) }
        ensures ready { OnOk result (IsReadyFor S.ready S.welcomes self.new.mode.text (S.state sink.new)) }
        ensures emitted { OnOk result (S.state sink.new ≡ S.means.step (S.state sink.old) (tag_item tag)) }
        ensures mode { OnOk result
            (self.new.mode ≡ next_mode self.old.mode tag (S.means.reply (S.state sink.old) (tag_item tag))) }
        ensures pause { IfOk result (IsPauseOf (S.means.reply (S.state sink.old) (tag_item tag))) }
        ensures run { self.new.run ≡ self.old.run }
        ensures pending { self.new.pending ≡ self.old.pending }
    {
        let last = self.mode.last_start_tag.take();
        self.mode.last_start_tag = last_after(last, &tag)?;
        let answer = sink.process_token(Token::TagToken(tag), self.line)?;
        self.mode.text = text_after(&answer);
        Ok(pause_of(answer))
    }

    // emits a NUL of ordinary text
    pub(crate) fn emit_null<S: TokenSink>(&mut self, sink: &mut S) -> Result<(), ParseFault>
        requires ready { IsReadyFor S.ready S.welcomes self.old.mode.text (S.state sink.old) }
        requires kind { HasMarkup self.old.mode.text }
        ensures memory { IfErr result (λ e. e ≡ Memory) }
        ensures ready { OnOk result (IsReadyFor S.ready S.welcomes self.new.mode.text (S.state sink.new)) }
        ensures emits { OnOk result (EmitsOn S.means (S.state sink.old) (S.state sink.new)) }
        ensures emitted { OnOk result
            (S.state sink.new ≡ S.means.step (state_of S.means self.old (S.state sink.old)) null_character) }
        ensures run { OnOk result (string_bytes self.new.run ≡ []) }
        ensures mode { self.new.mode ≡ self.old.mode }
        ensures pending { self.new.pending ≡ self.old.pending }
    {
        self.emit_errors(sink)?;
        sink.process_token(Token::NullCharacterToken, self.line)?;
        Ok(())
    }

    // emits a lexeme that is over: what was held at a place, and is to be held in again
    pub(crate) fn end_lexeme<S: TokenSink>(
        &mut self,
        table: &ReferenceTable,
        sink: &mut S,
        place: LexemeState,
        held: String,
    ) -> Result<Option<Pause<S::Handle>>, ParseFault>
        requires ready { IsReadyFor S.ready S.welcomes self.old.mode.text (S.state sink.old) }
        requires place { self.old.pending.place ≡ TextPlace }
        requires placed { IsPlaceOf self.old.mode.text place }
        ensures memory { IfErr result (λ e. e ≡ Memory) }
        ensures ready { OnOk result (IsReadyFor S.ready S.welcomes self.new.mode.text (S.state sink.new)) }
        ensures place { OnOk result (self.new.pending.place ≡ TextPlace) }
        ensures asks { IfOk result (λ pause. Asks S.means pause (S.state sink.old) (S.state sink.new)) }
        ensures untagged { IfOk result
            (λ pause. IsUntagged (place_lexeme table.now
            (S.means.foreign (state_of S.means self.old (S.state sink.old))) self.old.mode place
            (chars (string_bytes held))) → pause ≡ None) }
        ensures paused { IfOk result (λ pause. IfSome pause (λ _. HoldsNothing self.new)) }
        ensures reads { OnOk result ((follow rest : List ℕ) (final : S.Abstract) →
            IsOver table.now (S.means.foreign (state_of S.means self.old (S.state sink.old))) self.old.mode place
            (chars (string_bytes held)) follow →
            Reads table.now S.means self.new (S.state sink.new) (follow ++ rest) final →
            Leaves table.now S.means self.old.mode place (chars (string_bytes held) ++ (follow ++ rest))
            (state_of S.means self.old (S.state sink.old)) final) }
    {
        let pause = self.emit_lexeme(table, sink, place, held.as_str())?;
        self.pending.give_back(held);
        Ok(pause)
    }

    // emits a lexeme that is over: what was held at a place
    fn emit_lexeme<S: TokenSink>(
        &mut self,
        table: &ReferenceTable,
        sink: &mut S,
        place: LexemeState,
        held: &str,
    ) -> Result<Option<Pause<S::Handle>>, ParseFault>
        requires ready { IsReadyFor S.ready S.welcomes self.old.mode.text (S.state sink.old) }
        requires place { self.old.pending.place ≡ TextPlace }
        requires placed { IsPlaceOf self.old.mode.text place }
        ensures memory { IfErr result (λ e. e ≡ Memory) }
        ensures ready { OnOk result (IsReadyFor S.ready S.welcomes self.new.mode.text (S.state sink.new)) }
        ensures place { OnOk result (self.new.pending.place ≡ TextPlace) }
        ensures asks { IfOk result (λ pause. Asks S.means pause (S.state sink.old) (S.state sink.new)) }
        ensures untagged { IfOk result
            (λ pause. IsUntagged (place_lexeme table.now
            (S.means.foreign (state_of S.means self.old (S.state sink.old))) self.old.mode place
            (chars held.now)) → pause ≡ None) }
        ensures paused { IfOk result (λ pause. IfSome pause (λ _. HoldsNothing self.new)) }
        ensures reads { OnOk result ((follow rest : List ℕ) (final : S.Abstract) →
            IsOver table.now (S.means.foreign (state_of S.means self.old (S.state sink.old))) self.old.mode place
            (chars held.now) follow →
            Reads table.now S.means self.new (S.state sink.new) (follow ++ rest) final →
            Leaves table.now S.means self.old.mode place (chars held.now ++ (follow ++ rest))
            (state_of S.means self.old (S.state sink.old)) final) }
    {
        place_of_a_kind();
        self.emit_run(sink)?;
        let foreign = sink.adjusted_current_node_present_but_not_in_html_namespace();
        let alloc = *self.run.allocator();
        let lexeme = lexeme_from(alloc, table, foreign, &self.mode, place, held)?;
        let repeats = may_repeat(&lexeme);
        let errors = &mut self.errors;
        find_errors(errors, table, self.start, place, held, repeats, self.line)?;
        match lexeme {
            Lexeme::Nothing => Ok(None),
            Lexeme::Emitted(tokens, text, left) => {
                self.emit_items(sink, tokens)?;
                self.mode.text = text;
                self.run.push_str(left)?;
                Ok(None)
            }
            Lexeme::Tagged(tag, _) => {
                self.emit_errors(sink)?;
                self.emit_tag(sink, tag)
            }
        }
    }
}

// what a sink's answer asks to pause for
fn pause_of<H: Drop>(answer: TokenSinkResult<H>) -> Option<Pause<H>>
    ensures { IsPauseOf answer result }
{
    match answer {
        TokenSinkResult::Script(handle) => Some(Pause::Script(handle)),
        TokenSinkResult::EncodingIndicator(encoding) => Some(Pause::EncodingIndicator(encoding)),
        _ => None,
    }
}
