ghost use Rattle.std.specs.Prelude.{◌≡◌, ◌++◌, ◌∷◌, [], ◌<◌, Err, IfErr, IfOk, IfSome, List, Ok, OnOk, Some, false};
ghost use Rattle.std.specs.Prelude.{is_err, length, true, ℕ};
ghost use Rattle.std.specs.Char.{IsScalar};
ghost use Rattle.html_lexemes.specs.declared.fault.ParseFault.TheVariants.{Failed, Memory};
ghost use Rattle.token_grammar.specs.FirstMode.{first_mode};
ghost use Rattle.token_grammar.specs.Kinds.{IsReadyFor};
ghost use Rattle.token_grammar.specs.Modes.{text_of_state};
ghost use Rattle.token_grammar.specs.PageText.{page_text};
ghost use Rattle.token_grammar.specs.Reading.{IsClosed, Reading};
ghost use Rattle.token_grammar.specs.Tags.{greater};
ghost use Rattle.html_tokenizer.specs.Fits.{IsFitReader};
ghost use Rattle.html_tokenizer.specs.GoingProp.{HoldsUnless-prop};
ghost use Rattle.html_tokenizer.specs.Holdings.{Holds, HoldsUnless};
ghost use Rattle.html_tokenizer.specs.Emits.{Asks};
ghost use Rattle.html_tokenizer.specs.declared.line_ends.LineEnds.TheVariants.{Within as WithinText};
ghost use Rattle.token_states.specs.HeldRuns.{held_stops};
ghost use Rattle.token_states.specs.declared.place.LexemeState.TheVariants.{Text as TextPlace};

use crate::line_ends::LineEnds;
use crate::reader::{Pause, Reader};
use crate::results::{TokenizerResult, result_of};
use html_lexemes::{BufferQueue, ParseFault, ReferenceTable};
use std::alloc::Global;
use token_grammar::plain::text_of_state;
use token_grammar::{Mode, TokenSink, TokenizerOpts};
use token_states::held_stops;
use token_states::laws::{going_is_no_lexeme, held_run_goes_on};

/// Reads the text of a page, in any pieces, and emits its tokens to a sink (WHATWG HTML, 13.2.5). What it emits is what
/// the reading of the whole text by the grammar emits, however the text is cut. Parse errors are emitted before what
/// follows them; they change nothing else.
#[derive(Drop)]
pub struct Tokenizer<Sink> {
    /// What the tokens are emitted to. Nobody else is to change its state before the end.
    pub sink: Sink,
    table: ReferenceTable,
    reader: Reader,
    line_ends: LineEnds,
    // it has come to the end, or a call was refused
    is_over: bool,
    ghost holds: { HoldsUnless is_over table reader } by { HoldsUnless-prop is_over table reader },
}

impl<Sink: TokenSink> Tokenizer<Sink> {
    ghost use Rattle.html_tokenizer.specs.Completes.{Answers, Completes, HasEmitted, IsEmptied, IsFit, IsUndecided};
    ghost use Rattle.html_tokenizer.specs.Completes.{PausesAfter, TakesSome, has_failed, is_text_state};
    ghost use Rattle.html_tokenizer.specs.Completes.{last_start_tag_of, nothing_pending, plain_mode, table_of};
    ghost use Rattle.html_tokenizer.specs.Completes.{text_left};
    ghost use Rattle.html_tokenizer.specs.Inside as inside;
    ghost use Rattle.html_tokenizer.specs.Runs.{TakesFront, TakesRun};

    /// Before the first character of a page. The sink is in the state in which the page is to be emitted to it, and
    /// ready for the kind of text in which the page begins.
    #[tactic(auto, unfolding(crate::specs::Completes::has_failed, crate::specs::Completes::IsFit, crate::specs::Completes::Completes, crate::specs::Completes::HasEmitted, crate::specs::Completes::IsEmptied, crate::specs::Completes::IsUndecided, crate::specs::Completes::table_of, crate::specs::Completes::last_start_tag_of, crate::specs::Completes::text_left))]
    pub fn new(
        alloc: Global,
        sink: Sink,
        opts: TokenizerOpts,
        table: ReferenceTable,
    ) -> Tokenizer<Sink>
        requires { IsReadyFor Sink.ready Sink.welcomes (text_of_state opts.initial_state) (Sink.state sink) }
        ensures sink { result.sink ≡ sink }
        ensures works { has_failed result ≡ false }
        ensures fit { IsFit Sink.state Sink.ready Sink.welcomes result }
        ensures table { table_of result ≡ table }
        ensures last { last_start_tag_of result ≡ opts.last_start_tag_name }
        ensures left { (page : List ℕ) → text_left result page ≡ page_text opts.discard_bom page }
        ensures begins { (page : List ℕ) (final : Sink.Abstract) → Completes Sink.state Sink.means result page final →
            Reading table Sink.means (first_mode opts) (Sink.state sink) (page_text opts.discard_bom page) final }
    {
        let TokenizerOpts {
            exact_errors,
            discard_bom,
            initial_state,
            last_start_tag_name,
        } = opts;
        let mode = Mode {
            text: text_of_state(initial_state),
            last_start_tag: last_start_tag_name,
        };
        Tokenizer {
            sink,
            table,
            reader: Reader::new(alloc, mode, exact_errors),
            line_ends: LineEnds::new(discard_bom),
            is_over: false,
        }
    }

    /// Reads what is in the queue, up to its end or to a pause that the sink asks for, after which the same queue is
    /// fed on. It pauses exactly where the sink asks, right after the tag's `>`, and holds nothing back then. At
    /// `Done` all text that was read is emitted, and what is held back is the beginning of a lexeme that what follows
    /// decides. The error is allocation failure; after it, and after the end, every call is refused as `Failed` and
    /// takes nothing from the queue.
    #[tactic(auto, unfolding(crate::specs::Completes::has_failed, crate::specs::Completes::IsFit, crate::specs::Completes::Completes, crate::specs::Completes::HasEmitted, crate::specs::Completes::IsEmptied, crate::specs::Completes::IsUndecided, crate::specs::Completes::table_of, crate::specs::Completes::is_text_state, crate::specs::Completes::nothing_pending))]
    pub fn feed(
        &mut self,
        queue: &mut BufferQueue,
    ) -> Result<TokenizerResult<Sink::Handle>, ParseFault>
        requires { IsFit Sink.state Sink.ready Sink.welcomes self.old }
        ensures fit { IsFit Sink.state Sink.ready Sink.welcomes self.new }
        ensures ready { OnOk result (Sink.ready (Sink.state self.new.sink)) }
        ensures memory { has_failed self.old ≡ false → IfErr result (λ e. e ≡ Memory) }
        ensures failed { has_failed self.old ≡ true → result ≡ Err Failed }
        ensures kept { has_failed self.old ≡ true → (self.new ≡ self.old) × (queue.new ≡ queue.old) }
        ensures works { has_failed self.new ≡ is_err result }
        ensures table { table_of self.new ≡ table_of self.old }
        ensures takes { OnOk result (TakesSome queue.old queue.new) }
        ensures done { result ≡ Ok TokenizerResult.Done →
            (queue.new.text ≡ []) × (HasEmitted self.new × IsUndecided self.new) }
        ensures pauses { IfOk result (λ r. (r ≡ TokenizerResult.Done → ⊥) →
            (length queue.new.text < length queue.old.text) × (IsEmptied self.new
            × ((is_text_state self.new ≡ true) × (nothing_pending self.new ≡ true)))) }
        ensures trailing { IfOk result (λ r. (r ≡ TokenizerResult.Done → ⊥) → PausesAfter Sink.state Sink.means greater
            (Sink.state self.old.sink) (Completes Sink.state Sink.means self.old) queue.old queue.new) }
        ensures asks { IfOk result (λ r. Answers Sink.means r (Sink.state self.old.sink) (Sink.state self.new.sink)) }
        ensures reads { OnOk result ((rest : List ℕ) (final : Sink.Abstract) →
            Completes Sink.state Sink.means self.new (queue.new.text ++ rest) final →
            Completes Sink.state Sink.means self.old (queue.old.text ++ rest) final) }
    {
        if self.is_over {
            return Err(ParseFault::Failed);
        }
        // a refused call leaves it so
        self.is_over = true;
        let result = self.read(queue);
        self.is_over = result.is_err();
        result
    }

    /// Feeds on, over pauses, until the queue is empty. The errors are those of `feed`.
    pub fn feed_on(&mut self, queue: &mut BufferQueue) -> Result<(), ParseFault>
        requires { IsFit Sink.state Sink.ready Sink.welcomes self.old }
        ensures fit { IsFit Sink.state Sink.ready Sink.welcomes self.new }
        ensures ready { OnOk result (Sink.ready (Sink.state self.new.sink)) }
        ensures memory { has_failed self.old ≡ false → IfErr result (λ e. e ≡ Memory) }
        ensures failed { has_failed self.old ≡ true → result ≡ Err Failed }
        ensures kept { has_failed self.old ≡ true → (self.new ≡ self.old) × (queue.new ≡ queue.old) }
        ensures works { has_failed self.new ≡ is_err result }
        ensures table { table_of self.new ≡ table_of self.old }
        ensures takes { OnOk result (TakesSome queue.old queue.new) }
        ensures done { OnOk result ((queue.new.text ≡ []) × (HasEmitted self.new × IsUndecided self.new)) }
        ensures reads { OnOk result ((rest : List ℕ) (final : Sink.Abstract) →
            Completes Sink.state Sink.means self.new rest final →
            Completes Sink.state Sink.means self.old (queue.old.text ++ rest) final) }
    {
        'feeds: loop {
            if let TokenizerResult::Done = self.feed(queue)? {
                return Ok(());
            }
        }
    }

    // reads on, where no call was refused
    fn read(&mut self, queue: &mut BufferQueue) -> Result<TokenizerResult<Sink::Handle>, ParseFault>
        requires fit { IsFitReader Sink.ready Sink.welcomes self.old.reader (Sink.state self.old.sink) }
        requires over { self.old.is_over ≡ true }
        requires holds { Holds self.old.table self.old.reader }
        ensures memory { IfErr result (λ e. e ≡ Memory) }
        ensures fit { OnOk result (IsFitReader Sink.ready Sink.welcomes self.new.reader (Sink.state self.new.sink)) }
        ensures over { self.new.is_over ≡ true }
        ensures table { self.new.table ≡ self.old.table }
        ensures holds { OnOk result (Holds self.new.table self.new.reader) }
        ensures takes { OnOk result (TakesSome queue.old queue.new) }
        ensures done { result ≡ Ok TokenizerResult.Done →
            (queue.new.text ≡ []) × (inside.HasEmitted self.new × inside.IsUndecided self.new) }
        ensures pauses { IfOk result (λ r. (r ≡ TokenizerResult.Done → ⊥) →
            (length queue.new.text < length queue.old.text) × (inside.IsEmptied self.new
            × ((inside.is_text_state self.new ≡ true) × (inside.nothing_pending self.new ≡ true)))) }
        ensures trailing { IfOk result (λ r. (r ≡ TokenizerResult.Done → ⊥) → PausesAfter Sink.state Sink.means greater
            (Sink.state self.old.sink) (inside.Completes Sink.state Sink.means self.old) queue.old queue.new) }
        ensures asks { IfOk result (λ r. Answers Sink.means r (Sink.state self.old.sink) (Sink.state self.new.sink)) }
        ensures reads { OnOk result ((rest : List ℕ) (final : Sink.Abstract) →
            inside.Completes Sink.state Sink.means self.new (queue.new.text ++ rest) final →
            inside.Completes Sink.state Sink.means self.old (queue.old.text ++ rest) final) }
    {
        'characters: while let Some(c) = self.next_after_run(queue)? {
            if let Some(pause) = self.take(c)? {
                going_is_no_lexeme(&self.table);
                return Ok(result_of(pause));
            }
        }
        self.reader.emit_run(&mut self.sink)?;
        going_is_no_lexeme(&self.table);
        Ok(TokenizerResult::Done)
    }

    // Reads the run that stands in front, of text or of what is held of a lexeme, where one does, and takes the
    // character after it, which is to be read by itself.
    fn next_after_run(&mut self, queue: &mut BufferQueue) -> Result<Option<char>, ParseFault>
        requires fit { IsFitReader Sink.ready Sink.welcomes self.old.reader (Sink.state self.old.sink) }
        requires over { self.old.is_over ≡ true }
        requires holds { Holds self.old.table self.old.reader }
        ensures memory { IfErr result (λ e. e ≡ Memory) }
        ensures fit { OnOk result (IsFitReader Sink.ready Sink.welcomes self.new.reader (Sink.state self.new.sink)) }
        ensures over { self.new.is_over ≡ true }
        ensures table { self.new.table ≡ self.old.table }
        ensures sink { self.new.sink ≡ self.old.sink }
        ensures holds { OnOk result (Holds self.new.table self.new.reader) }
        ensures scalar { IfOk result (λ c. IfSome c IsScalar) }
        ensures takes { IfOk result (λ c. TakesRun (inside.Completes Sink.state Sink.means self.old)
            (inside.Completes Sink.state Sink.means self.new) queue.old c queue.new) }
    {
        if queue.is_empty() {
            return Ok(None);
        }
        if !self.line_ends.is_within() {
            return Ok(queue.next());
        }
        match held_stops(self.reader.pending.place()) {
            Some(stops) => {
                self.hold_run(stops, queue)?;
                Ok(queue.next())
            }
            None if self.reader.takes_runs() => {
                self.take_run(queue)?;
                Ok(queue.next())
            }
            None => Ok(queue.next()),
        }
    }

    // takes the characters in front, perhaps none, each of which is text by itself
    fn take_run(&mut self, queue: &mut BufferQueue) -> Result<(), ParseFault>
        requires ends { self.old.line_ends ≡ WithinText }
        requires place { self.old.reader.pending.place ≡ TextPlace }
        requires over { self.old.is_over ≡ true }
        ensures memory { IfErr result (λ e. e ≡ Memory) }
        ensures over { self.new.is_over ≡ true }
        ensures table { self.new.table ≡ self.old.table }
        ensures sink { self.new.sink ≡ self.old.sink }
        ensures mode { self.new.reader.mode ≡ self.old.reader.mode }
        ensures pending { self.new.reader.pending ≡ self.old.reader.pending }
        ensures takes { OnOk result (TakesFront (inside.Completes Sink.state Sink.means self.old)
            (inside.Completes Sink.state Sink.means self.new) queue.old queue.new) }
    {
        self.reader.take_run(queue)?;
        Ok(())
    }

    // takes the characters in front, perhaps none, that are held of the lexeme as they are
    fn hold_run(&mut self, stops: &[char], queue: &mut BufferQueue) -> Result<(), ParseFault>
        requires ends { self.old.line_ends ≡ WithinText }
        requires stops { held_stops self.old.reader.pending.place ≡ Some stops.now }
        requires over { self.old.is_over ≡ true }
        requires holds { Holds self.old.table self.old.reader }
        ensures memory { IfErr result (λ e. e ≡ Memory) }
        ensures over { self.new.is_over ≡ true }
        ensures table { self.new.table ≡ self.old.table }
        ensures sink { self.new.sink ≡ self.old.sink }
        ensures mode { self.new.reader.mode ≡ self.old.reader.mode }
        ensures place { self.new.reader.pending.place ≡ self.old.reader.pending.place }
        ensures holds { OnOk result (Holds self.new.table self.new.reader) }
        ensures takes { OnOk result (TakesFront (inside.Completes Sink.state Sink.means self.old)
            (inside.Completes Sink.state Sink.means self.new) queue.old queue.new) }
    {
        held_run_goes_on();
        self.reader.hold_run(stops, queue)?;
        Ok(())
    }

    // takes a further character of the page
    fn take(&mut self, c: char) -> Result<Option<Pause<Sink::Handle>>, ParseFault>
        requires fit { IsFitReader Sink.ready Sink.welcomes self.old.reader (Sink.state self.old.sink) }
        requires over { self.old.is_over ≡ true }
        requires holds { Holds self.old.table self.old.reader }
        requires scalar { IsScalar c }
        ensures memory { IfErr result (λ e. e ≡ Memory) }
        ensures fit { OnOk result (IsFitReader Sink.ready Sink.welcomes self.new.reader (Sink.state self.new.sink)) }
        ensures over { self.new.is_over ≡ true }
        ensures table { self.new.table ≡ self.old.table }
        ensures holds { OnOk result (Holds self.new.table self.new.reader) }
        ensures asks { IfOk result
            (λ pause. Asks Sink.means pause (Sink.state self.old.sink) (Sink.state self.new.sink)) }
        ensures paused { IfOk result (λ pause. IfSome pause (λ _. inside.IsEmptied self.new)) }
        ensures greater { IfOk result (λ pause. IfSome pause (λ _. c ≡ greater)) }
        ensures reads { OnOk result ((rest : List ℕ) (final : Sink.Abstract) →
            inside.Completes Sink.state Sink.means self.new rest final →
            inside.Completes Sink.state Sink.means self.old (c ∷ rest) final) }
    {
        let ended = self.line_ends.ended(c);
        self.line_ends = LineEnds::trailing(c);
        match ended {
            Some(c) => {
                self.reader.count_line(c);
                self.reader.take(&self.table, &mut self.sink, c)
            }
            None => Ok(None),
        }
    }

    /// Whether the state is one of text (`Data`, `Plaintext` or `RawData`), and not one within markup. In a character
    /// reference in text it is.
    #[tactic(auto, unfolding(crate::specs::Completes::is_text_state))]
    pub fn is_text_state(&self) -> bool
        ensures { result ≡ is_text_state self.now }
    {
        self.reader.is_in_text()
    }

    /// Whether no character that was read is held back.
    #[tactic(auto, unfolding(crate::specs::Completes::nothing_pending))]
    pub fn nothing_pending(&self) -> bool
        ensures { result ≡ nothing_pending self.now }
    {
        self.reader.has_nothing_pending()
    }

    /// Goes on with all that follows as text (WHATWG HTML, 13.2.5.5). It is asked for in a state of text, with nothing
    /// pending.
    #[tactic(auto, unfolding(crate::specs::Completes::has_failed, crate::specs::Completes::IsFit, crate::specs::Completes::Completes, crate::specs::Completes::HasEmitted, crate::specs::Completes::IsEmptied, crate::specs::Completes::IsUndecided, crate::specs::Completes::table_of, crate::specs::Completes::is_text_state, crate::specs::Completes::nothing_pending))]
    pub fn set_plaintext_state(&mut self)
        requires text { is_text_state self.old ≡ true }
        requires nothing { nothing_pending self.old ≡ true }
        ensures sink { self.new.sink ≡ self.old.sink }
        ensures works { has_failed self.new ≡ has_failed self.old }
        ensures fit { IsFit Sink.state Sink.ready Sink.welcomes self.old →
            IsFit Sink.state Sink.ready Sink.welcomes self.new }
        ensures table { table_of self.new ≡ table_of self.old }
        ensures plain { (rest : List ℕ) (final : Sink.Abstract) → Completes Sink.state Sink.means self.new rest final →
            Reading (table_of self.old) Sink.means (plain_mode (last_start_tag_of self.old)) (Sink.state self.old.sink)
            (text_left self.old rest) final }
    {
        self.reader.set_plaintext();
    }

    /// Tells what the end of the page makes of what is held back, one `EOFToken`, and that nothing more is emitted. The
    /// error is allocation failure. After it every call is refused as `Failed`.
    #[tactic(auto, unfolding(crate::specs::Completes::has_failed, crate::specs::Completes::IsFit, crate::specs::Completes::Completes, crate::specs::Completes::HasEmitted, crate::specs::Completes::IsEmptied, crate::specs::Completes::IsUndecided, crate::specs::Completes::table_of))]
    pub fn end(&mut self) -> Result<(), ParseFault>
        requires { IsFit Sink.state Sink.ready Sink.welcomes self.old }
        ensures fit { IsFit Sink.state Sink.ready Sink.welcomes self.new }
        ensures memory { has_failed self.old ≡ false → IfErr result (λ e. e ≡ Memory) }
        ensures failed { has_failed self.old ≡ true → result ≡ Err Failed }
        ensures kept { has_failed self.old ≡ true → self.new ≡ self.old }
        ensures over { has_failed self.new ≡ true }
        ensures completes { OnOk result
            (IsClosed Sink.close (Completes Sink.state Sink.means self.old []) (Sink.state self.new.sink)) }
    {
        if self.is_over {
            return Err(ParseFault::Failed);
        }
        self.is_over = true;
        self.reader.finish(&self.table, &mut self.sink)
    }
}
