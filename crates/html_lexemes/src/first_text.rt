// The first of the texts that wait in a queue, and the place up to which it was taken.
ghost use Rattle.std.specs.Prelude.{◌≡◌, ◌↔◌, ◌<◌, [], ◌∷◌, ◌++◌, IfOk, IfSome, IsTrue, MatchOption, OnErr, OnOk};
ghost use Rattle.std.specs.Prelude.{chars, drop, length, slice_get, string_bytes};
ghost use Rattle.std.specs.Char.{IsScalar};
ghost use Rattle.std.specs.Str.{IsCharBoundary};
ghost use Rattle.html_lexemes.specs.QueueParts.{TakesRun};

use crate::runs::{count_of, run_outside};
use std::alloc::{AllocError, Global};
use std::marker::Model;
use std::mem;

/// Contracts see what is left of the text.
#[derive(Drop)]
pub(crate) struct FirstText {
    // what is left stands from `start` on, in bytes
    text: String,
    start: usize,
}

impl Model for FirstText {
    ghost use Rattle.std.specs.Prelude.{List, ℕ, chars, string_bytes, drop};
    ghost use Rattle.std.specs.Str.{IsCharBoundary};
    ghost use Rattle.std.specs.Coded.{coded_list, coded_ℕ};

    ghost Value = { List ℕ };

    ghost coded = { coded_list coded_ℕ };

    ghost view = { λ t. chars (drop t.start (string_bytes t.text)) };

    ghost invariant = { λ t. IsCharBoundary (string_bytes t.text) t.start };
}

impl FirstText {
    /// A text of which nothing was taken.
    pub(crate) fn new(text: String) -> FirstText
        ensures { result ≡ chars (string_bytes text) }
    {
        FirstText { text, start: 0 }
    }

    pub(crate) fn allocator(&self) -> Global {
        *self.text.allocator()
    }

    /// Whether nothing is left.
    pub(crate) fn is_empty(&self) -> bool
        ensures { IsTrue result ↔ self.now ≡ [] }
    {
        self.start == self.text.len()
    }

    /// What is left.
    pub(crate) fn rest(&self) -> &str
        ensures { chars result.now ≡ self.now }
    {
        let (_, rest) = self.text.as_str().split_at(self.start);
        rest
    }

    /// The first character, which stays.
    pub(crate) fn peek(&self) -> Option<char>
        ensures { result ≡ slice_get self.now 0 }
    {
        self.rest().chars().next()
    }

    /// Takes the first character.
    pub(crate) fn next(&mut self) -> Option<char>
        ensures takes { MatchOption result ((self.old ≡ []) × (self.new ≡ self.old)) (λ c. self.old ≡ c ∷ self.new) }
        ensures scalar { IfSome result IsScalar }
    {
        let c = self.peek()?;
        self.start += c.len_utf8();
        Some(c)
    }

    /// Takes all that is left.
    pub(crate) fn take_all(&mut self) -> String
        ensures all { chars (string_bytes result) ≡ self.old }
        ensures none { self.new ≡ [] }
    {
        take_out_front(&mut self.text, self.start);
        let alloc = *self.text.allocator();
        self.start = 0;
        mem::replace(&mut self.text, String::new(alloc))
    }

    /// Takes a run of characters, none of which is in the set, and adds it after a text; how many they were. There is
    /// one, where the first character is not in the set. The error is allocation failure alone, and changes nothing.
    pub(crate) fn take_run(&mut self, set: &[char], run: &mut String) -> Result<usize, AllocError>
        ensures ok { IfOk result
            (λ n. TakesRun set.now self.old (string_bytes run.old) self.new (string_bytes run.new) n) }
        ensures err { OnErr result ((self.new ≡ self.old) × (string_bytes run.new ≡ string_bytes run.old)) }
    {
        let (_, rest) = self.text.as_str().split_at(self.start);
        let front = run_outside(rest, set);
        run.push_str(front)?;
        self.start += front.len();
        Ok(count_of(front))
    }

    /// Puts a text before what is left. The error is allocation failure alone, and changes nothing. To put back what
    /// was just taken takes no memory, and no time for what is left.
    pub(crate) fn put_back(&mut self, text: String) -> Result<(), AllocError>
        ensures ok { OnOk result (self.new ≡ chars (string_bytes text) ++ self.old) }
        ensures err { OnErr result (self.new ≡ self.old) }
    {
        if self.is_empty() {
            self.text = text;
            self.start = 0;
            return Ok(());
        }
        let (taken, _) = self.text.as_str().split_at(self.start);
        if taken.ends_with(text.as_str()) {
            self.start -= text.len();
            return Ok(());
        }
        self.text.replace_range(..self.start, text.as_str())?;
        self.start = 0;
        Ok(())
    }
}

// takes the first bytes out of a text, which takes no memory
fn take_out_front(text: &mut String, length: usize)
    requires { IsCharBoundary (string_bytes text.old) length }
    ensures { string_bytes text.new ≡ drop length (string_bytes text.old) }
{
    // An empty text fits in place of what is taken out, so nothing grows.
    text.replace_range(..length, "").unwrap();
}
