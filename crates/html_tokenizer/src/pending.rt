ghost use Rattle.std.specs.Prelude.{◌≡◌, [], ◌∷◌, ◌==◌, ◌≢◌, Bool, IfOk, IfSome, IsTrue, MatchBool, MatchOption, OnOk};
ghost use Rattle.std.specs.Prelude.{Some, chars, length, string_bytes};
ghost use Rattle.token_states.specs.declared.place.LexemeState.TheVariants.{CdataSection as SectionPlace};
ghost use Rattle.token_states.specs.declared.place.LexemeState.TheVariants.{MarkupDeclarationOpen as DeclarationPlace};
ghost use Rattle.token_states.specs.declared.place.LexemeState.TheVariants.{RawText as RawPlaceOf, Text as TextPlace};
ghost use Rattle.std.specs.Char.{IsScalar};
ghost use Rattle.html_lexemes.specs.QueueAnswers.{PopsRun};
ghost use Rattle.token_states.specs.HeldRuns.{held_stops};
ghost use Rattle.token_states.specs.Sound.{IsSound};
ghost use Rattle.token_states.specs.SoundProp.{IsSound-prop};

use html_lexemes::states::RawKind;
use html_lexemes::{BufferQueue, LocalName, ReferenceTable, TagKind};
use std::alloc::{AllocError, Global};
use std::mem;
use token_states::laws::held_run_goes_on;
use token_states::{
    LexemeState, RawPlace, RawTurn, SectionTurn, TagPlace, Turn, markup_turn, raw_turn,
    section_turn,
};

/// A lexeme that is not over: where in it, and the characters that are held back.
#[derive(Drop)]
pub(crate) struct Pending {
    place: LexemeState,
    // what stands after the opening that the place names
    held: String,
    ghost sound: { IsSound place (chars (string_bytes held)) } by { IsSound-prop place (chars (string_bytes held)) },
}

/// What became of a further character of markup.
#[derive(Drop)]
pub(crate) enum Advance {
    /// It belongs to the lexeme, which goes on.
    Goes,
    /// It belongs to the lexeme, which is over: its place, and what was held.
    Ends(LexemeState, String),
    /// The lexeme was over before it: its place, and what was held.
    EndsBefore(LexemeState, String),
}

/// What became of a further character of the text of an element.
#[derive(Drop)]
pub(crate) enum RawAdvance {
    /// It is held.
    Goes,
    /// What was held is text before it, after which the text is of this kind.
    Before(String, RawKind),
    /// It is held, and this text, which was, is text, after which the text is of this kind.
    Shifts(&'static str, RawKind),
    /// What was held is the name of an end tag before it.
    EndTag,
}

impl Pending {
    ghost use Rattle.token_grammar.specs.declared.modes.Mode.{Mode as SeenMode};
    ghost use Rattle.lex_base.specs.References.{References};
    ghost use Rattle.html_tokenizer.specs.Advances.{Advances, IsLeft, RawAdvances, StaysWithinKind};
    ghost use Rattle.token_states.specs.PlaceKinds.{IsNoMarkup};
    ghost use Rattle.token_states.specs.Goings.{is_raw_going};
    ghost use Rattle.token_states.specs.SectionTurns.{SectionAdvances};

    /// Before a lexeme.
    pub(crate) fn new(alloc: Global) -> Pending
        ensures place { result.place ≡ TextPlace }
        ensures held { string_bytes result.held ≡ [] }
    {
        Pending {
            place: LexemeState::Text,
            held: String::new(alloc),
        }
    }

    /// Where in a lexeme.
    pub(crate) fn place(&self) -> LexemeState
        ensures { result ≡ self.now.place }
    {
        self.place
    }

    /// Whether no lexeme has begun.
    pub(crate) fn is_text(&self) -> bool
        ensures { MatchBool result (self.now.place ≡ TextPlace) (self.now.place ≢ TextPlace) }
    {
        matches!(self.place, LexemeState::Text)
    }

    /// Whether no character is held after the opening that the place names.
    pub(crate) fn is_empty(&self) -> bool
        ensures { result ≡ (length (string_bytes self.now.held) == 0) }
    {
        self.held.is_empty()
    }

    /// Takes out the place and what is held; nothing is pending then.
    pub(crate) fn take_all(&mut self) -> (LexemeState, String)
        ensures place { result.0 ≡ self.old.place }
        ensures held { result.1 ≡ self.old.held }
    {
        let place = mem::replace(&mut self.place, LexemeState::Text);
        (place, take_out(&mut self.held))
    }

    /// Takes a text whose room the next lexeme is held in.
    pub(crate) fn give_back(&mut self, mut text: String)
        requires at { self.old.place ≡ TextPlace }
        ensures place { self.new.place ≡ TextPlace }
        ensures held { chars (string_bytes self.new.held) ≡ [] }
    {
        text.clear();
        self.held = text;
    }

    /// Goes to a place after an opening.
    pub(crate) fn open(&mut self, place: LexemeState)
        requires at { self.old.place ≡ TextPlace }
        requires sound { IsSound place [] }
        ensures place { self.new.place ≡ place }
        ensures held { chars (string_bytes self.new.held) ≡ [] }
    {
        self.place = place;
    }

    /// Goes to a place in an element's text, and holds the character there.
    pub(crate) fn open_raw(
        &mut self,
        kind: RawKind,
        place: RawPlace,
        c: char,
    ) -> Result<(), AllocError>
        requires at { self.old.place ≡ TextPlace }
        requires scalar { IsScalar c }
        requires sound { IsSound (RawPlaceOf kind place) (c ∷ []) }
        ensures place { OnOk result (self.new.place ≡ RawPlaceOf kind place) }
        ensures held { OnOk result (chars (string_bytes self.new.held) ≡ c ∷ []) }
    {
        self.held.push(c)?;
        self.place = LexemeState::RawText(kind, place);
        Ok(())
    }

    /// Takes a further character of markup; `foreign` says that the adjusted current node is foreign, which matters
    /// after
    /// `<!` alone. `None` is a place in text, where nothing is done. After a refusal nothing is held.
    pub(crate) fn take(
        &mut self,
        table: &ReferenceTable,
        foreign: bool,
        c: char,
    ) -> Result<Option<Advance>, AllocError>
        ensures left { IfOk result (λ done. IfSome done (λ advance. IsLeft advance self.new.place)) }
        ensures kind { IfOk
            result (λ done. IfSome done (λ advance. StaysWithinKind self.old.place advance self.new.place)) }
        ensures advance { IfOk result (λ done. MatchOption done (IsNoMarkup self.old.place × (self.new ≡ self.old))
            (λ advance. (asked : Bool) (mode : SeenMode) → (self.old.place ≡ DeclarationPlace → asked ≡ foreign) →
            Advances table.now asked mode self.old.place (chars (string_bytes self.old.held)) c advance self.new.place
            (chars (string_bytes self.new.held)))) }
    {
        let done = match markup_turn(table, foreign, self.place, &mut self.held, c) {
            Ok(done) => done,
            Err(error) => {
                self.place = LexemeState::Text;
                self.held.clear();
                return Err(error);
            }
        };
        let Some(turn) = done else {
            return Ok(None);
        };
        match turn {
            Turn::Goes(next) => {
                self.place = next;
                Ok(Some(Advance::Goes))
            }
            Turn::Ends(last) => {
                self.place = LexemeState::Text;
                Ok(Some(Advance::Ends(last, take_out(&mut self.held))))
            }
            Turn::EndsBefore => {
                let last = mem::replace(&mut self.place, LexemeState::Text);
                Ok(Some(Advance::EndsBefore(last, take_out(&mut self.held))))
            }
        }
    }

    /// Takes the run in front of a queue, perhaps none, that is held at this place as it is. A refusal changes nothing.
    pub(crate) fn hold_run(
        &mut self,
        stops: &[char],
        queue: &mut BufferQueue,
    ) -> Result<(), AllocError>
        requires { held_stops self.old.place ≡ Some stops.now }
        ensures place { self.new.place ≡ self.old.place }
        ensures held { OnOk result (PopsRun stops.now queue.old (string_bytes self.old.held)
            queue.new (string_bytes self.new.held)) }
    {
        held_run_goes_on();
        queue.pop_run_into(stops, &mut self.held)
    }

    /// Takes a further character of the text of an element, some of which is held at this place; `last` is the last
    /// start tag's name. After a refusal nothing is held.
    pub(crate) fn take_raw(
        &mut self,
        last: &Option<LocalName>,
        kind: RawKind,
        place: RawPlace,
        c: char,
    ) -> Result<RawAdvance, AllocError>
        requires place { self.old.place ≡ RawPlaceOf kind place }
        requires going { IsTrue (is_raw_going last.now kind place (chars (string_bytes self.old.held))) }
        ensures { IfOk result (λ advance. (table : References) (foreign : Bool) (mode : SeenMode) →
            mode.last_start_tag ≡ last.now →
            RawAdvances table foreign mode kind (chars (string_bytes self.old.held)) c advance self.new.place
            (chars (string_bytes self.new.held))) }
    {
        let alloc = *self.held.allocator();
        let turn = match raw_turn(alloc, last, kind, place, &mut self.held, c) {
            Ok(turn) => turn,
            Err(error) => {
                self.place = LexemeState::Text;
                self.held.clear();
                return Err(error);
            }
        };
        match turn {
            RawTurn::Goes(next) => {
                self.place = LexemeState::RawText(kind, next);
                Ok(RawAdvance::Goes)
            }
            RawTurn::Before(trailing) => {
                self.place = LexemeState::Text;
                Ok(RawAdvance::Before(take_out(&mut self.held), trailing))
            }
            RawTurn::Shifts(text, trailing, next) => {
                self.place = LexemeState::RawText(trailing, next);
                Ok(RawAdvance::Shifts(text, trailing))
            }
            RawTurn::EndTag => {
                self.place = LexemeState::Tag(TagKind::EndTag, TagPlace::TagName);
                Ok(RawAdvance::EndTag)
            }
        }
    }

    /// Takes a further character of a CDATA section. Where it is text, so is what is held. After a refusal nothing is
    /// held.
    pub(crate) fn take_in_section(&mut self, c: char) -> Result<SectionTurn, AllocError>
        requires { self.old.place ≡ SectionPlace }
        ensures { IfOk result (λ turn. (mode : SeenMode) →
            SectionAdvances mode (chars (string_bytes self.old.held)) c turn self.new.place
            (chars (string_bytes self.new.held))) }
    {
        let turn = match section_turn(&mut self.held, c) {
            Ok(turn) => turn,
            Err(error) => {
                self.place = LexemeState::Text;
                self.held.clear();
                return Err(error);
            }
        };
        if let SectionTurn::Ends = turn {
            self.place = LexemeState::Text;
            self.held.clear();
        }
        Ok(turn)
    }

    /// Takes out what is held of a CDATA section, which goes on.
    pub(crate) fn take_held(&mut self) -> String
        requires { self.old.place ≡ SectionPlace }
        ensures taken { result ≡ self.old.held }
        ensures place { self.new.place ≡ SectionPlace }
        ensures held { chars (string_bytes self.new.held) ≡ [] }
    {
        take_out(&mut self.held)
    }
}

// takes out a text, and leaves an empty one
fn take_out(text: &mut String) -> String
    ensures taken { result ≡ text.old }
    ensures left { string_bytes text.new ≡ [] }
{
    let alloc = *text.allocator();
    mem::replace(text, String::new(alloc))
}
