ghost use Rattle.std.specs.Prelude.{◌≡◌, ◌≢◌, ◌==◌, ◌&&◌, if◌then◌else◌, [], ◌∷◌, ◌++◌, Bool, IfErr, IfOk, IfSome};
ghost use Rattle.std.specs.Prelude.{IsTrue, List, None, Ok, OnOk, Some, chars, false, fold, length, map, string_bytes};
ghost use Rattle.std.specs.Prelude.{true, ℕ};
ghost use Rattle.std.specs.Char.{IsScalar};
ghost use Rattle.html_lexemes.specs.QueueAnswers.{PopsRun};
ghost use Rattle.lex_base.specs.References.{References};
ghost use Rattle.html_lexemes.specs.declared.fault.ParseFault.TheVariants.{Memory};
ghost use Rattle.token_grammar.specs.Items.{characters};
ghost use Rattle.token_grammar.specs.Kinds.{HasMarkup, IsReadyFor};
ghost use Rattle.token_grammar.specs.Lexemes.{ordinary_item};
ghost use Rattle.token_grammar.specs.Tags.{greater};
ghost use Rattle.token_states.specs.HeldRuns.{held_stops};
ghost use Rattle.token_grammar.specs.declared.modes.TextKind.TheVariants.{Plain as PlainText};
ghost use Rattle.token_states.specs.PlaceKinds.{IsPlaceOf, IsWithinMarkup, is_of_text, is_open};
ghost use Rattle.html_tokenizer.specs.Stops.{stops};
ghost use Rattle.token_states.specs.declared.place.LexemeState.{LexemeState as SeenPlace};
ghost use Rattle.token_states.specs.declared.place.LexemeState.TheVariants.{CdataSection as SectionPlace};
ghost use Rattle.token_states.specs.declared.place.LexemeState.TheVariants.{MarkupDeclarationOpen as DeclarationPlace};
ghost use Rattle.token_states.specs.declared.place.LexemeState.TheVariants.{Text as TextPlace};
ghost use Rattle.token_errors.specs.Found.{found_of, heeds};

use crate::errors::{MarkupStart, find_errors_before, looks_at_text, state_of};
use crate::pending::{Advance, Pending, RawAdvance};
use crate::runs::stops_of;
use html_lexemes::states::State;
use html_lexemes::{BufferQueue, ParseFault, ReferenceTable, Text};
use std::alloc::Global;
use token_errors::ParseErrors;
use token_grammar::{Mode, TextKind, TokenSink};
use token_states::laws::tag_ends_with_its_mark;
use token_states::{First, LexemeState, SectionTurn, first_of};

/// How far a text was read: the mode, the text that was read and is not emitted yet, and the lexeme that is not over.
#[derive(Drop)]
pub(crate) struct Reader {
    pub(crate) mode: Mode,
    pub(crate) run: String,
    pub(crate) pending: Pending,
    // those that were found and are not emitted yet
    pub(crate) errors: ParseErrors,
    // where the markup that is not over began
    pub(crate) start: MarkupStart,
    // the line of the character that was taken last, and that of the next
    pub(crate) line: u64,
    pub(crate) next_line: u64,
}

/// What the tokenizer pauses for.
#[derive(Drop)]
pub(crate) enum Pause<H> {
    /// A script element.
    Script(H),
    /// An encoding that the page names.
    EncodingIndicator(Text),
}

impl Reader {
    ghost use Rattle.html_tokenizer.specs.Holdings.{Holds, HoldsNothing, HoldsRaw};
    ghost use Rattle.html_tokenizer.specs.Reads.{Leaves, Reads, state_of};
    ghost use Rattle.html_tokenizer.specs.Emits.{Asks, EmitsOn};
    ghost use Rattle.html_tokenizer.specs.Advances.{Advances, IsLeft, IsWithinKind};

    /// Before the first character of a text that is read in a mode.
    pub(crate) fn new(alloc: Global, mode: Mode, exact_errors: bool) -> Reader
        ensures mode { result.mode ≡ mode }
        ensures run { string_bytes result.run ≡ [] }
        ensures place { result.pending.place ≡ TextPlace }
    {
        Reader {
            mode,
            run: String::new(alloc),
            pending: Pending::new(alloc),
            errors: ParseErrors::new(alloc, exact_errors),
            start: MarkupStart {
                state: State::TagOpen,
                line: 1,
            },
            line: 1,
            next_line: 1,
        }
    }

    /// Goes to the line of a further character; a LF still stands on the line that it ends.
    pub(crate) fn count_line(&mut self, c: char)
        ensures mode { self.new.mode ≡ self.old.mode }
        ensures run { self.new.run ≡ self.old.run }
        ensures pending { self.new.pending ≡ self.old.pending }
    {
        self.line = self.next_line;
        if c == '\n' {
            self.next_line = self.line.saturating_add(1);
        }
    }

    /// Whether it stands in text, also in a character reference there.
    pub(crate) fn is_in_text(&self) -> bool
        ensures { result ≡ is_of_text self.now.pending.place }
    {
        matches!(
            self.pending.place(),
            LexemeState::Text | LexemeState::CharacterReference(_)
        )
    }

    /// Whether no character is held back, and no text waits to be emitted.
    pub(crate) fn has_nothing_pending(&self) -> bool
        ensures { result ≡ (is_open self.now.pending.place && length (string_bytes self.now.pending.held) == 0
            && length (string_bytes self.now.run) == 0) }
    {
        let is_open = matches!(
            self.pending.place(),
            LexemeState::Text | LexemeState::CdataSection
        );
        is_open && self.pending.is_empty() && self.run.is_empty()
    }

    /// Reads all that follows as text.
    pub(crate) fn set_plaintext(&mut self)
        ensures mode { self.new.mode ≡ record self.old.mode { text = PlainText } }
        ensures run { self.new.run ≡ self.old.run }
        ensures pending { self.new.pending ≡ self.old.pending }
    {
        self.mode.text = TextKind::Plain;
    }

    /// Whether characters that are text by themselves may be taken as one run: no lexeme has begun, no error waits to
    /// be emitted, and at none of them is one looked for.
    #[inline(always)]
    pub(crate) fn takes_runs(&self) -> bool
        ensures place { IsTrue result → self.now.pending.place ≡ TextPlace }
        ensures none_found { IsTrue result → found_of self.now.errors ≡ [] }
        ensures unheeded { IsTrue result → (c : ℕ) → c ≢ 0 → heeds self.now.errors c ≡ false }
    {
        self.pending.is_text() && self.errors.is_empty() && !looks_at_text(&self.errors)
    }

    /// Takes the run of text in front of a queue, perhaps none, each character of which is text by itself.
    pub(crate) fn take_run(&mut self, queue: &mut BufferQueue) -> Result<(), ParseFault>
        ensures memory { IfErr result (λ e. e ≡ Memory) }
        ensures run { OnOk result (PopsRun (stops self.old.mode.text) queue.old (string_bytes self.old.run)
            queue.new (string_bytes self.new.run)) }
        ensures mode { self.new.mode ≡ self.old.mode }
        ensures pending { self.new.pending ≡ self.old.pending }
    {
        self.line = self.next_line;
        queue.pop_run_into(stops_of(self.mode.text), &mut self.run)?;
        Ok(())
    }

    /// Takes the run in front of a queue, perhaps none, which is held where it stands as it is.
    pub(crate) fn hold_run(
        &mut self,
        stops: &[char],
        queue: &mut BufferQueue,
    ) -> Result<(), ParseFault>
        requires { held_stops self.old.pending.place ≡ Some stops.now }
        ensures memory { IfErr result (λ e. e ≡ Memory) }
        ensures held { OnOk result (PopsRun stops.now queue.old (string_bytes self.old.pending.held)
            queue.new (string_bytes self.new.pending.held)) }
        ensures place { self.new.pending.place ≡ self.old.pending.place }
        ensures mode { self.new.mode ≡ self.old.mode }
        ensures run { self.new.run ≡ self.old.run }
    {
        self.line = self.next_line;
        self.pending.hold_run(stops, queue)?;
        Ok(())
    }

    /// Takes a further character of the text, and says what the sink pauses for. After a refusal nothing is known of
    /// the sink.
    pub(crate) fn take<S: TokenSink>(
        &mut self,
        table: &ReferenceTable,
        sink: &mut S,
        c: char,
    ) -> Result<Option<Pause<S::Handle>>, ParseFault>
        requires ready { IsReadyFor S.ready S.welcomes self.old.mode.text (S.state sink.old) }
        requires holds { Holds table.now self.old }
        requires scalar { IsScalar c }
        requires placed { IsPlaceOf self.old.mode.text self.old.pending.place }
        ensures memory { IfErr result (λ e. e ≡ Memory) }
        ensures placed { OnOk result (IsPlaceOf self.new.mode.text self.new.pending.place) }
        ensures ready { OnOk result (IsReadyFor S.ready S.welcomes self.new.mode.text (S.state sink.new)) }
        ensures holds { OnOk result (Holds table.now self.new) }
        ensures asks { IfOk result (λ pause. Asks S.means pause (S.state sink.old) (S.state sink.new)) }
        ensures paused { IfOk result (λ pause. IfSome pause (λ _. HoldsNothing self.new)) }
        ensures greater { IfOk result (λ pause. IfSome pause (λ _. c ≡ greater)) }
        ensures reads { OnOk result ((rest : List ℕ) (final : S.Abstract) →
            Reads table.now S.means self.new (S.state sink.new) rest final →
            Reads table.now S.means self.old (S.state sink.old) (c ∷ rest) final) }
    {
        if self.pending.is_text() {
            self.begin(sink, c)?;
            return Ok(None);
        }
        if self.take_in_raw_text(sink, c)? {
            return Ok(None);
        }
        self.take_in_markup(table, sink, c)
    }

    // takes a further character of markup, or of a CDATA section
    fn take_in_markup<S: TokenSink>(
        &mut self,
        table: &ReferenceTable,
        sink: &mut S,
        c: char,
    ) -> Result<Option<Pause<S::Handle>>, ParseFault>
        requires ready { IsReadyFor S.ready S.welcomes self.old.mode.text (S.state sink.old) }
        requires scalar { IsScalar c }
        requires place { IsWithinMarkup self.old.pending.place }
        requires placed { IsPlaceOf self.old.mode.text self.old.pending.place }
        ensures memory { IfErr result (λ e. e ≡ Memory) }
        ensures placed { OnOk result (IsPlaceOf self.new.mode.text self.new.pending.place) }
        ensures ready { OnOk result (IsReadyFor S.ready S.welcomes self.new.mode.text (S.state sink.new)) }
        ensures holds { OnOk result (Holds table.now self.new) }
        ensures asks { IfOk result (λ pause. Asks S.means pause (S.state sink.old) (S.state sink.new)) }
        ensures paused { IfOk result (λ pause. IfSome pause (λ _. HoldsNothing self.new)) }
        ensures greater { IfOk result (λ pause. IfSome pause (λ _. c ≡ greater)) }
        ensures reads { OnOk result ((rest : List ℕ) (final : S.Abstract) →
            Reads table.now S.means self.new (S.state sink.new) rest final →
            Reads table.now S.means self.old (S.state sink.old) (c ∷ rest) final) }
    {
        self.start = self.start.trailing(self.pending.place(), self.line);
        let foreign = self.is_foreign(sink)?;
        match self.pending.take(table, foreign, c)? {
            Some(advance) => self.advance(table, sink, advance, c),
            None => {
                self.take_in_section(sink, c)?;
                Ok(None)
            }
        }
    }

    // Takes a further character of the text of an element, where some of it is held back. The answer is whether it was
    // taken: it is not elsewhere, nor after the name of an end tag, which is markup then.
    fn take_in_raw_text<S: TokenSink>(&mut self, sink: &mut S, c: char) -> Result<bool, ParseFault>
        requires ready { IsReadyFor S.ready S.welcomes self.old.mode.text (S.state sink.old) }
        requires scalar { IsScalar c }
        requires place { self.old.pending.place ≢ TextPlace }
        requires holds { HoldsRaw self.old }
        requires placed { IsPlaceOf self.old.mode.text self.old.pending.place }
        ensures memory { IfErr result (λ e. e ≡ Memory) }
        ensures placed { OnOk result (IsPlaceOf self.new.mode.text self.new.pending.place) }
        ensures ready { OnOk result (IsReadyFor S.ready S.welcomes self.new.mode.text (S.state sink.new)) }
        ensures holds { (table : References) → result ≡ Ok true → Holds table self.new }
        ensures emits { OnOk result (EmitsOn S.means (S.state sink.old) (S.state sink.new)) }
        ensures place { result ≡ Ok false → IsWithinMarkup self.new.pending.place }
        ensures reads { IfOk result (λ taken. (table : References) (rest : List ℕ) (final : S.Abstract) →
            Reads table S.means self.new (S.state sink.new) (if taken then rest else c ∷ rest) final →
            Reads table S.means self.old (S.state sink.old) (c ∷ rest) final) }
    {
        let LexemeState::RawText(kind, place) = self.pending.place() else {
            return Ok(false);
        };
        let last = &self.mode.last_start_tag;
        match self.pending.take_raw(last, kind, place, c)? {
            RawAdvance::Goes => Ok(true),
            RawAdvance::Before(text, trailing) => {
                self.run.push_str(text.as_str())?;
                self.mode.text = TextKind::Raw(trailing);
                self.begin(sink, c)?;
                Ok(true)
            }
            RawAdvance::Shifts(text, trailing) => {
                self.run.push_str(text)?;
                self.mode.text = TextKind::Raw(trailing);
                Ok(true)
            }
            RawAdvance::EndTag => {
                self.start.line = self.line;
                Ok(false)
            }
        }
    }

    // takes a further character of a CDATA section
    fn take_in_section<S: TokenSink>(&mut self, sink: &mut S, c: char) -> Result<(), ParseFault>
        requires ready { IsReadyFor S.ready S.welcomes self.old.mode.text (S.state sink.old) }
        requires scalar { IsScalar c }
        requires place { self.old.pending.place ≡ SectionPlace }
        requires kind { HasMarkup self.old.mode.text }
        ensures memory { IfErr result (λ e. e ≡ Memory) }
        ensures placed { OnOk result (IsPlaceOf self.new.mode.text self.new.pending.place) }
        ensures ready { OnOk result (IsReadyFor S.ready S.welcomes self.new.mode.text (S.state sink.new)) }
        ensures holds { OnOk result ((table : References) → Holds table self.new) }
        ensures emits { OnOk result (EmitsOn S.means (S.state sink.old) (S.state sink.new)) }
        ensures reads { OnOk result ((table : References) (rest : List ℕ) (final : S.Abstract) →
            Reads table S.means self.new (S.state sink.new) rest final →
            Reads table S.means self.old (S.state sink.old) (c ∷ rest) final) }
    {
        match self.pending.take_in_section(c)? {
            SectionTurn::Goes | SectionTurn::Ends => Ok(()),
            SectionTurn::Shifts => {
                self.run.push(']')?;
                Ok(())
            }
            SectionTurn::Text => self.read_section_text(sink, c),
        }
    }

    // reads what is held of a section, and a character, as text
    fn read_section_text<S: TokenSink>(&mut self, sink: &mut S, c: char) -> Result<(), ParseFault>
        requires ready { IsReadyFor S.ready S.welcomes self.old.mode.text (S.state sink.old) }
        requires scalar { IsScalar c }
        requires place { self.old.pending.place ≡ SectionPlace }
        requires kind { HasMarkup self.old.mode.text }
        ensures memory { IfErr result (λ e. e ≡ Memory) }
        ensures ready { OnOk result (IsReadyFor S.ready S.welcomes self.new.mode.text (S.state sink.new)) }
        ensures emits { OnOk result (EmitsOn S.means (S.state sink.old) (S.state sink.new)) }
        ensures emitted { OnOk result
            (state_of S.means self.new (S.state sink.new) ≡ fold S.means.step
            (state_of S.means self.old (S.state sink.old))
            (map ordinary_item (chars (string_bytes self.old.pending.held) ++ c ∷ []))) }
        ensures mode { OnOk result (self.new.mode ≡ self.old.mode) }
        ensures place { OnOk result (self.new.pending.place ≡ SectionPlace) }
        ensures held { OnOk result (chars (string_bytes self.new.pending.held) ≡ []) }
    {
        self.errors.at_text(State::CdataSection, c, self.line)?;
        let held = self.pending.take_held();
        self.run.push_str(held.as_str())?;
        if c == '\0' {
            return self.emit_null(sink);
        }
        self.read_text(sink, c)
    }

    // goes on after a further character of markup
    fn advance<S: TokenSink>(
        &mut self,
        table: &ReferenceTable,
        sink: &mut S,
        advance: Advance,
        c: char,
    ) -> Result<Option<Pause<S::Handle>>, ParseFault>
        requires ready { IsReadyFor S.ready S.welcomes self.old.mode.text (S.state sink.old) }
        requires scalar { IsScalar c }
        requires left { IsLeft advance self.old.pending.place }
        requires placed { IsWithinKind self.old.mode.text advance self.old.pending.place }
        ensures memory { IfErr result (λ e. e ≡ Memory) }
        ensures placed { OnOk result (IsPlaceOf self.new.mode.text self.new.pending.place) }
        ensures ready { OnOk result (IsReadyFor S.ready S.welcomes self.new.mode.text (S.state sink.new)) }
        ensures holds { OnOk result ((foreign : Bool) (place : SeenPlace) (held : List ℕ) →
            Advances table.now foreign self.old.mode place held c advance self.old.pending.place
            (chars (string_bytes self.old.pending.held)) → Holds table.now self.new) }
        ensures asks { IfOk result (λ pause. (place : SeenPlace) (held : List ℕ) →
            Advances table.now (S.means.foreign (state_of S.means self.old (S.state sink.old))) self.old.mode place held
            c advance self.old.pending.place (chars (string_bytes self.old.pending.held)) →
            Asks S.means pause (S.state sink.old) (S.state sink.new)) }
        ensures paused { IfOk result (λ pause. IfSome pause (λ _. HoldsNothing self.new)) }
        ensures greater { IfOk result (λ pause. (place : SeenPlace) (held : List ℕ) →
            Advances table.now (S.means.foreign (state_of S.means self.old (S.state sink.old))) self.old.mode place held
            c advance self.old.pending.place (chars (string_bytes self.old.pending.held)) →
            IfSome pause (λ _. c ≡ greater)) }
        ensures reads { OnOk result ((place : SeenPlace) (held : List ℕ) →
            Advances table.now (S.means.foreign (state_of S.means self.old (S.state sink.old))) self.old.mode place held
            c advance self.old.pending.place (chars (string_bytes self.old.pending.held)) →
            (rest : List ℕ) (final : S.Abstract) →
            Reads table.now S.means self.new (S.state sink.new) rest final →
            Leaves table.now S.means self.old.mode place (held ++ c ∷ rest)
            (state_of S.means self.old (S.state sink.old)) final) }
    {
        match advance {
            Advance::Goes => Ok(None),
            Advance::Ends(place, held) => {
                tag_ends_with_its_mark();
                self.end_lexeme(table, sink, place, held)
            }
            Advance::EndsBefore(place, held) => {
                find_errors_before(&mut self.errors, place, c, self.line)?;
                self.end_lexeme(table, sink, place, held)?;
                self.begin(sink, c)?;
                Ok(None)
            }
        }
    }

    // whether the adjusted current node is foreign, where that matters: after `<!`, once the text before it is emitted
    fn is_foreign<S: TokenSink>(&mut self, sink: &mut S) -> Result<bool, ParseFault>
        requires { IsReadyFor S.ready S.welcomes self.old.mode.text (S.state sink.old) }
        ensures memory { IfErr result (λ e. e ≡ Memory) }
        ensures ready { OnOk result (IsReadyFor S.ready S.welcomes self.new.mode.text (S.state sink.new)) }
        ensures state { OnOk result
            (state_of S.means self.new (S.state sink.new) ≡ state_of S.means self.old (S.state sink.old)) }
        ensures emits { OnOk result (EmitsOn S.means (S.state sink.old) (S.state sink.new)) }
        ensures foreign { IfOk result (λ f. self.old.pending.place ≡ DeclarationPlace →
            S.means.foreign (state_of S.means self.old (S.state sink.old)) ≡ f) }
        ensures mode { self.new.mode ≡ self.old.mode }
        ensures pending { self.new.pending ≡ self.old.pending }
    {
        let LexemeState::MarkupDeclarationOpen = self.pending.place() else {
            return Ok(false);
        };
        self.emit_run(sink)?;
        Ok(sink.adjusted_current_node_present_but_not_in_html_namespace())
    }

    // takes the first character of a lexeme; always inlined, since most characters come here alone
    #[inline(always)]
    fn begin<S: TokenSink>(&mut self, sink: &mut S, c: char) -> Result<(), ParseFault>
        requires ready { IsReadyFor S.ready S.welcomes self.old.mode.text (S.state sink.old) }
        requires place { self.old.pending.place ≡ TextPlace }
        requires scalar { IsScalar c }
        ensures memory { IfErr result (λ e. e ≡ Memory) }
        ensures placed { OnOk result (IsPlaceOf self.new.mode.text self.new.pending.place) }
        ensures ready { OnOk result (IsReadyFor S.ready S.welcomes self.new.mode.text (S.state sink.new)) }
        ensures holds { OnOk result ((table : References) → Holds table self.new) }
        ensures emits { OnOk result (EmitsOn S.means (S.state sink.old) (S.state sink.new)) }
        ensures reads { OnOk result ((table : References) (rest : List ℕ) (final : S.Abstract) →
            Reads table S.means self.new (S.state sink.new) rest final →
            Reads table S.means self.old (S.state sink.old) (c ∷ rest) final) }
    {
        self.errors.at_text(state_of(self.mode.text), c, self.line)?;
        match first_of(&self.mode.last_start_tag, self.mode.text, c) {
            First::Text(shown) => self.read_text(sink, shown)?,
            First::Null => self.emit_null(sink)?,
            First::Opens(place) => self.pending.open(place),
            First::OpensRaw(kind, place) => self.pending.open_raw(kind, place, c)?,
        }
        Ok(())
    }

    // Reads a character as text. Errors are emitted before it; before a LF, which they could change, they are not.
    #[inline(always)]
    fn read_text<S: TokenSink>(&mut self, sink: &mut S, c: char) -> Result<(), ParseFault>
        requires ready { IsReadyFor S.ready S.welcomes self.old.mode.text (S.state sink.old) }
        requires scalar { IsScalar c }
        ensures memory { IfErr result (λ e. e ≡ Memory) }
        ensures ready { OnOk result (IsReadyFor S.ready S.welcomes self.new.mode.text (S.state sink.new)) }
        ensures emits { OnOk result (EmitsOn S.means (S.state sink.old) (S.state sink.new)) }
        ensures emitted { OnOk result
            (state_of S.means self.new (S.state sink.new) ≡ S.means.step (state_of S.means self.old (S.state sink.old))
            (characters (c ∷ []))) }
        ensures mode { self.new.mode ≡ self.old.mode }
        ensures pending { self.new.pending ≡ self.old.pending }
    {
        if c == '\n' || self.errors.is_empty() {
            self.run.push(c)?;
            return Ok(());
        }
        self.emit_errors(sink)?;
        self.run.push(c)?;
        Ok(())
    }
}
