ghost use Rattle.std.specs.Prelude.{◌≡◌, ◌<◌, ◌↔◌, [], ◌∷◌, ◌++◌, All, IfOk, IfSome, IsTrue, MatchOption, OnErr, OnOk};
ghost use Rattle.std.specs.Prelude.{chars, length, slice_get, string_bytes};
ghost use Rattle.std.specs.Char.{IsScalar};
ghost use Rattle.html_lexemes.specs.Queue.{Takes, Eats};
ghost use Rattle.html_lexemes.specs.QueueParts.{Begins, IsFilled, IsWaiting, joined};

use crate::first_text::FirstText;
use crate::runs::count_of;
use std::alloc::{AllocError, Global};
use std::collections::VecDeque;
use std::marker::Model;

/// What stood at a queue's front: a character of a set, or a run of characters outside it.
#[derive(Drop)]
pub enum SetResult {
    /// A character of the set.
    FromSet(char),
    /// At least one character, and none of the set.
    NotFromSet(String),
}

/// The characters that wait to be read. Contracts see one text, and how many characters were taken from
/// its front, one that was put back and taken again counting again, up to 2^64 - 1; no call says
/// that number.
///
/// A text that comes is kept as it is, after those that wait: none is copied. It stays in memory until all of it is
/// taken and another waits or comes. Taking is constant time for each character.
pub struct BufferQueue {
    // nothing is left of the first only where no other waits, and none of those is empty
    first: FirstText,
    later: VecDeque<String>,
    taken: u64,
}

impl Drop for BufferQueue {
    // One call wherever a queue is dropped.
    fn drop(self) {
        let BufferQueue {
            first: _,
            later: _,
            taken: _,
        } = self;
    }
}

impl Model for BufferQueue {
    ghost use Rattle.std.specs.Prelude.{◌++◌};
    ghost use Rattle.html_lexemes.specs.Queue.{Queue, queue_code};
    ghost use Rattle.html_lexemes.specs.QueueParts.{IsWaiting, joined};

    ghost Value = { Queue };

    ghost coded = { queue_code };

    ghost view = { λ q. record { text = q.first ++ joined q.later.items; taken = q.taken } };

    ghost invariant = { λ q. IsWaiting q.first q.later.items };
}

impl BufferQueue {
    ghost use Rattle.html_lexemes.specs.QueueAnswers.{PopsExcept, PopsRun};

    /// An empty queue, from which nothing was taken. It takes no memory.
    pub fn new(alloc: Global) -> BufferQueue
        ensures { result ≡ record { text = []; taken = 0 } }
    {
        BufferQueue {
            first: FirstText::new(String::new(alloc)),
            later: VecDeque::new(alloc),
            taken: 0,
        }
    }

    /// Whether no character is left.
    pub fn is_empty(&self) -> bool
        ensures { IsTrue result ↔ self.now.text ≡ [] }
    {
        self.first.is_empty()
    }

    /// The first character, which stays. `None` is an empty queue.
    pub fn peek(&self) -> Option<char>
        ensures { result ≡ slice_get self.now.text 0 }
    {
        self.first.peek()
    }

    /// Takes the first character. `None` is an empty queue.
    pub fn next(&mut self) -> Option<char>
        ensures takes { MatchOption result ((self.old.text ≡ []) × (self.new ≡ self.old))
            (λ c. Takes self.old (c ∷ []) self.new) }
        ensures scalar { IfSome result IsScalar }
    {
        let c = self.first.next()?;
        go_on(&mut self.first, &mut self.later);
        self.taken = self.taken.saturating_add(1);
        Some(c)
    }

    /// Takes some beginning of the text, at least one character, as one run. `None` is an empty queue.
    pub fn pop_front(&mut self) -> Option<String>
        ensures { MatchOption result ((self.old.text ≡ []) × (self.new ≡ self.old))
            (λ run. Takes self.old (chars (string_bytes run)) self.new × (0 < length (chars (string_bytes run)))) }
    {
        if self.is_empty() {
            return None;
        }
        let run = self.first.take_all();
        go_on(&mut self.first, &mut self.later);
        let count = count_of(run.as_str());
        self.taken = self.taken.saturating_add(count as u64);
        Some(run)
    }

    /// Adds a text after what is left. The error is allocation failure alone, and leaves the queue as it was.
    pub fn push_back(&mut self, text: String) -> Result<(), AllocError>
        ensures ok { OnOk result (self.new ≡ record {
          text = self.old.text ++ chars (string_bytes text);
          taken = self.old.taken;
        }) }
        ensures err { OnErr result (self.new ≡ self.old) }
    {
        if self.is_empty() {
            self.first = FirstText::new(text);
            return Ok(());
        }
        if !text.is_empty() {
            self.later.push_back(text)?;
        }
        Ok(())
    }

    /// Puts a text before what is left. The error is allocation failure alone, and leaves the queue as it was.
    /// To put back what was just taken takes no memory, and no time for what is left, unless it ended a text that came
    /// and another waits.
    pub fn push_front(&mut self, text: String) -> Result<(), AllocError>
        ensures ok { OnOk result (self.new ≡ record {
          text = chars (string_bytes text) ++ self.old.text;
          taken = self.old.taken;
        }) }
        ensures err { OnErr result (self.new ≡ self.old) }
    {
        self.first.put_back(text)
    }

    /// Takes the first character where it is one of `set`, and else a run of characters, at least one,
    /// none of which is in the set. `None` is an empty queue. The error is allocation failure alone, and
    /// leaves the queue as it was.
    pub fn pop_except_from(&mut self, set: &[char]) -> Result<Option<SetResult>, AllocError>
        ensures ok { IfOk result (λ answer. PopsExcept set.now self.old answer self.new) }
        ensures err { OnErr result (self.new ≡ self.old) }
    {
        let Some(first) = self.peek() else {
            return Ok(None);
        };
        if set.contains(&first) {
            self.next();
            return Ok(Some(SetResult::FromSet(first)));
        }
        let mut run = String::new(self.first.allocator());
        let count = self.first.take_run(set, &mut run)?;
        go_on(&mut self.first, &mut self.later);
        self.taken = self.taken.saturating_add(count as u64);
        Ok(Some(SetResult::NotFromSet(run)))
    }

    /// Takes a run of characters from the front, none of which is in the set, and adds it after a text. It may be
    /// empty. The error is allocation failure alone, and leaves the queue and the text as they were.
    pub fn pop_run_into(&mut self, set: &[char], run: &mut String) -> Result<(), AllocError>
        ensures ok { OnOk result (PopsRun set.now self.old (string_bytes run.old) self.new (string_bytes run.new)) }
        ensures err { OnErr result ((self.new ≡ self.old) × (string_bytes run.new ≡ string_bytes run.old)) }
    {
        let count = self.first.take_run(set, run)?;
        go_on(&mut self.first, &mut self.later);
        self.taken = self.taken.saturating_add(count as u64);
        Ok(())
    }

    /// Takes `text` where the queue begins with it, character by character alike as `eq` answers of a
    /// character of the queue and one of the text: `Some(true)`. Where a character differs the answer is `Some(false)`,
    /// and where the queue ends before one does `None`; then nothing is taken.
    pub fn eat<F: Fn(char, char) -> bool>(&mut self, text: &str, eq: F) -> Option<bool>
        requires { F.IsAlwaysCallable eq }
        ensures { Eats (λ a b r. F.post eq a b r) self.old (chars text.now) result self.new }
    {
        if !begins_with(&self.first, &self.later, text, eq)? {
            return Some(false);
        }
        'eaten: for _ in text.chars() {
            self.next();
        }
        Some(true)
    }
}

// Whether what is left begins with a pattern; `None` where it ends before a character differs.
fn begins_with<F: Fn(char, char) -> bool>(
    first: &FirstText,
    later: &VecDeque<String>,
    pattern: &str,
    eq: F,
) -> Option<bool>
    requires waiting { IsWaiting first.now later.now.items }
    requires callable { F.IsAlwaysCallable eq }
    ensures { Begins (λ a b r. F.post eq a b r) (first.now ++ joined later.now.items) (chars pattern.now) result }
{
    let mut rest = first.rest().chars();
    let mut passed = 0;
    'compared: for wanted in pattern.chars() {
        let found = match rest.next() {
            Some(found) => found,
            None => {
                let Some(text) = later.get(passed) else {
                    return None;
                };
                passed += 1;
                rest = text.as_str().chars();
                // none of the texts that wait is empty
                let Some(found) = rest.next() else {
                    return None;
                };
                found
            }
        };
        if !eq(found, wanted) {
            return Some(false);
        }
    }
    Some(true)
}

// Goes on to the next of the texts that wait, where nothing is left of the first.
fn go_on(first: &mut FirstText, later: &mut VecDeque<String>)
    requires { All IsFilled later.old.items }
    ensures same { first.new ++ joined later.new.items ≡ first.old ++ joined later.old.items }
    ensures waiting { IsWaiting first.new later.new.items }
{
    if first.is_empty() {
        if let Some(text) = later.pop_front() {
            *first = FirstText::new(text);
        }
    }
}
