ghost use Rattle.std.specs.Prelude.{◌≡◌, false, OnOk};
ghost use Rattle.token_errors.specs.Found.{GoesOn, is_watching};

use crate::ParseErrors;
use crate::characters::{is_space, line_after, state_at_end};
use crate::names::AttributeNames;
use crate::plain_parts::{Passing, after_attribute, after_run, first_and_rest};
use html_lexemes::states::{AttrValueKind, State};
use html_lexemes::{ReferenceTable, TagKind};
use std::alloc::AllocError;

impl ParseErrors {
    /// Finds the errors of a tag: the text from its name on, up to and with its `>`, or up to the end of the page.
    /// Where
    /// `may_repeat` is false no two of its attributes have one name. The error is allocation failure alone.
    #[tactic(auto, using(crate::proofs::GoesOnLemmas::goes_on_twice))]
    pub fn in_tag(
        &mut self,
        table: &ReferenceTable,
        kind: TagKind,
        text: &str,
        may_repeat: bool,
        mut line: u64,
    ) -> Result<(), AllocError>
        ensures found { GoesOn self.old self.new }
        ensures unwatched { OnOk result (is_watching self.new ≡ false) }
    {
        self.leave_name();
        let passing = self.passing(may_repeat);
        let mut names = AttributeNames::new(self.alloc(), may_repeat);
        let mut state = State::TagName;
        let mut rest = text;
        'characters: loop {
            let here = after_run(passing, state, rest);
            if let Some(trailing) = after_attribute(passing, state, here) {
                names.pass();
                state = State::AfterAttributeValueQuoted;
                rest = trailing;
                continue;
            }
            let Some((c, trailing)) = first_and_rest(here) else {
                return self.saw_end(state_at_end(state), line);
            };
            rest = trailing;
            line = line_after(line, c);
            let reading = self.read_in_tag(table, state, c, here, line)?;
            let Some(next) = tag_state(reading, c) else {
                let is_self_closing = matches!(reading, State::SelfClosingStartTag);
                return self.at_tag_end(kind, &mut names, is_self_closing, line);
            };
            self.in_attribute_name(&mut names, reading, next, c, line)?;
            state = next;
        }
    }

    // What of a tag is passed over. Every character may be an error where the wording is exact.
    fn passing(&self, may_repeat: bool) -> Passing {
        if self.emits_characters() {
            Passing::Nothing
        } else if may_repeat {
            Passing::AllButNames
        } else {
            Passing::All
        }
    }

    // Takes a character in a state; answers the state that reads it. `here` is the text from the character on.
    #[tactic(auto, using(crate::proofs::GoesOnLemmas::goes_on_twice))]
    fn read_in_tag(
        &mut self,
        table: &ReferenceTable,
        state: State,
        c: char,
        here: &str,
        line: u64,
    ) -> Result<State, AllocError>
        ensures found { GoesOn self.old self.new }
        ensures unwatched { OnOk result (is_watching self.old ≡ false → is_watching self.new ≡ false) }
    {
        let reading = self.read(state, c, line)?;
        if c == '&' && matches!(reading, State::AttributeValue(_)) {
            self.in_value(table, here, line)?;
            return Ok(reading);
        }
        Ok(reading)
    }

    // Takes a character that is read in a state, if it is of an attribute's name, as the next state says; in all states
    // but one it is the first.
    fn in_attribute_name(
        &mut self,
        names: &mut AttributeNames,
        state: State,
        next: State,
        c: char,
        line: u64,
    ) -> Result<(), AllocError>
        ensures found { GoesOn self.old self.new }
        ensures watched { is_watching self.new ≡ is_watching self.old }
    {
        if !matches!(next, State::AttributeName) {
            return Ok(());
        }
        if !matches!(state, State::AttributeName) {
            self.finish_attribute(names, line)?;
        }
        names.push(c)
    }

    fn finish_attribute(&mut self, names: &mut AttributeNames, line: u64) -> Result<(), AllocError>
        ensures found { GoesOn self.old self.new }
        ensures watched { is_watching self.new ≡ is_watching self.old }
    {
        if names.finish()? {
            self.emit("Duplicate attribute", line)?;
        }
        Ok(())
    }

    #[tactic(auto, using(crate::proofs::GoesOnLemmas::goes_on_twice))]
    fn at_tag_end(
        &mut self,
        kind: TagKind,
        names: &mut AttributeNames,
        is_self_closing: bool,
        line: u64,
    ) -> Result<(), AllocError>
        ensures found { GoesOn self.old self.new }
        ensures watched { is_watching self.new ≡ is_watching self.old }
    {
        self.finish_attribute(names, line)?;
        if kind == TagKind::StartTag {
            return Ok(());
        }
        if !names.is_empty() {
            self.emit("Attributes on an end tag", line)?;
        }
        if is_self_closing {
            self.emit("Self-closing end tag", line)?;
        }
        Ok(())
    }
}

// The state after a character that is read in a state. `None` is the end of the tag.
fn tag_state(state: State, c: char) -> Option<State> {
    match state {
        State::AttributeValue(kind) => value_state(kind, c),
        State::BeforeAttributeValue => match c {
            '"' => Some(State::AttributeValue(AttrValueKind::DoubleQuoted)),
            '\'' => Some(State::AttributeValue(AttrValueKind::SingleQuoted)),
            '>' => None,
            _ => Some(State::BeforeAttributeValue),
        },
        _ => match c {
            '>' => None,
            '/' => Some(State::SelfClosingStartTag),
            '=' if matches!(state, State::AttributeName | State::AfterAttributeName) => {
                Some(State::BeforeAttributeValue)
            }
            _ if is_space(c) => Some(state_after_space(state)),
            _ if state == State::TagName => Some(State::TagName),
            _ => Some(State::AttributeName),
        },
    }
}

// The same after white space that is in no value and before none.
fn state_after_space(state: State) -> State {
    match state {
        State::AttributeName | State::AfterAttributeName => State::AfterAttributeName,
        _ => State::BeforeAttributeName,
    }
}

// The same in a value.
fn value_state(kind: AttrValueKind, c: char) -> Option<State> {
    match kind {
        AttrValueKind::Unquoted if c == '>' => None,
        AttrValueKind::Unquoted if is_space(c) => Some(State::BeforeAttributeName),
        AttrValueKind::SingleQuoted if c == '\'' => Some(State::AfterAttributeValueQuoted),
        AttrValueKind::DoubleQuoted if c == '"' => Some(State::AfterAttributeValueQuoted),
        _ => Some(State::AttributeValue(kind)),
    }
}
