//! What the end of the page makes of what a reader holds back.
ghost use Rattle.std.specs.Prelude.{◌≡◌, [], chars, string_bytes, IfErr, OnOk};
ghost use Rattle.html_lexemes.specs.declared.fault.ParseFault.TheVariants.{Memory};
ghost use Rattle.token_grammar.specs.Items.{end_of_file};
ghost use Rattle.token_grammar.specs.Kinds.{IsReadyFor};
ghost use Rattle.token_grammar.specs.Reading.{IsClosed, Reading};
ghost use Rattle.token_states.specs.PlaceKinds.{IsPlaceOf};

use crate::errors::{find_last_errors, last_state};
use crate::reader::Reader;
use html_lexemes::{ParseFault, ReferenceTable, Token};
use std::mem;
use token_grammar::lexemes::Lexeme;
use token_grammar::plain::emit_lexemes;
use token_grammar::{Mode, TextKind, TokenSink};
use token_states::laws::place_of_a_kind;
use token_states::lexeme_from;

impl Reader {
    ghost use Rattle.html_tokenizer.specs.Reads.{Leaves, Reads};

    /// Emits what the end of the text makes of what is held back, and that it ends.
    pub(crate) fn finish<S: TokenSink>(
        &mut self,
        table: &ReferenceTable,
        sink: &mut S,
    ) -> Result<(), ParseFault>
        requires ready { IsReadyFor S.ready S.welcomes self.old.mode.text (S.state sink.old) }
        requires placed { IsPlaceOf self.old.mode.text self.old.pending.place }
        ensures memory { IfErr result (λ e. e ≡ Memory) }
        ensures reads { OnOk result
            (IsClosed S.close (Reads table.now S.means self.old (S.state sink.old) []) (S.state sink.new)) }
    {
        self.line = self.next_line;
        let state = last_state(self.mode.text, self.pending.place());
        self.emit_run(sink)?;
        self.emit_held(table, sink)?;
        self.errors.at_end(state, self.line)?;
        self.emit_errors(sink)?;
        sink.process_token(Token::EOFToken, self.line)?;
        sink.end()
    }

    // emits what stands in what is held back before the end
    fn emit_held<S: TokenSink>(
        &mut self,
        table: &ReferenceTable,
        sink: &mut S,
    ) -> Result<(), ParseFault>
        requires ready { IsReadyFor S.ready S.welcomes self.old.mode.text (S.state sink.old) }
        requires run { string_bytes self.old.run ≡ [] }
        requires placed { IsPlaceOf self.old.mode.text self.old.pending.place }
        ensures memory { IfErr result (λ e. e ≡ Memory) }
        ensures ready { OnOk result (IsReadyFor S.ready S.welcomes self.new.mode.text (S.state sink.new)) }
        ensures run { OnOk result (string_bytes self.new.run ≡ []) }
        ensures emitted { OnOk result
            (Leaves table.now S.means self.old.mode self.old.pending.place (chars (string_bytes self.old.pending.held))
            (S.state sink.old) (S.means.step (S.state sink.new) end_of_file)) }
    {
        place_of_a_kind();
        let foreign = sink.adjusted_current_node_present_but_not_in_html_namespace();
        let alloc = *self.run.allocator();
        let (place, held) = self.pending.take_all();
        let errors = &mut self.errors;
        find_last_errors(errors, table, self.start, place, held.as_str(), self.line)?;
        match lexeme_from(alloc, table, foreign, &self.mode, place, held.as_str())? {
            Lexeme::Nothing => Ok(()),
            Lexeme::Emitted(tokens, text, rest) => {
                self.emit_items(sink, tokens)?;
                self.mode.text = text;
                self.emit_rest(table, sink, rest)
            }
            Lexeme::Tagged(tag, rest) => {
                self.emit_errors(sink)?;
                self.emit_tag(sink, tag)?;
                self.emit_rest(table, sink, rest)
            }
        }
    }

    // emits what stands in a text before its end
    fn emit_rest<S: TokenSink>(
        &mut self,
        table: &ReferenceTable,
        sink: &mut S,
        rest: &str,
    ) -> Result<(), ParseFault>
        requires ready { IsReadyFor S.ready S.welcomes self.old.mode.text (S.state sink.old) }
        ensures memory { IfErr result (λ e. e ≡ Memory) }
        ensures ready { OnOk result (IsReadyFor S.ready S.welcomes self.new.mode.text (S.state sink.new)) }
        ensures run { self.new.run ≡ self.old.run }
        ensures emitted { OnOk result
            (Reading table.now S.means self.old.mode (S.state sink.old) (chars rest.now)
            (S.means.step (S.state sink.new) end_of_file)) }
    {
        let alloc = *self.run.allocator();
        let mode = mem::replace(
            &mut self.mode,
            Mode {
                text: TextKind::Plain,
                last_start_tag: None,
            },
        );
        emit_lexemes(alloc, sink, table, mode, rest, self.line)
    }
}
