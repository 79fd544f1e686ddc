//! Queues of characters.
use crate::checks::passes;
use html_lexemes::{BufferQueue, SetResult};
use std::alloc::{AllocError, Global};

/// A step with a queue. What was not there is put back before what is left as well, and so is more than was taken.
enum Step {
    /// A text comes in after what is left.
    Add(&'static str),
    PutBack(&'static str),
    /// This is the next character, which stays.
    Peeks(Option<char>),
    /// These characters are taken.
    Gives(&'static str),
    /// No character is there to be taken.
    GivesNone,
    IsEmpty(bool),
    /// A run is taken up to one of these characters, or one of these; nothing of an empty queue.
    GivesRun(&'static [char], &'static str),
    /// This is taken as one text, and nothing of an empty queue.
    GivesText(&'static str),
    /// A text is eaten whole, whatever its case, or not at all; none says that too little is there.
    Eats(&'static str, Option<bool>),
    /// All that is left is taken.
    Leaves(&'static str),
}

const SPECIAL: &[char] = &['&', '<', '\0'];

static STEPS: [&[Step]; 23] = [
    &[
        Step::IsEmpty(true),
        Step::Peeks(None),
        Step::GivesNone,
        Step::GivesText(""),
        Step::GivesRun(&['a'], ""),
        Step::Add("é"),
        Step::IsEmpty(false),
        Step::Peeks(Some('é')),
    ],
    &[
        Step::Add("DocT"),
        Step::Add(""),
        Step::Eats("doctype", None),
        Step::Leaves("DocT"),
    ],
    &[
        Step::Add("DocT"),
        Step::Add("y"),
        Step::Eats("doctype", None),
        Step::Leaves("DocTy"),
    ],
    &[
        Step::Add("DocType x"),
        Step::Add(""),
        Step::Eats("doctype", Some(true)),
        Step::Leaves(" x"),
    ],
    &[
        Step::Add("D"),
        Step::Add("ocType x"),
        Step::Eats("doctype", Some(true)),
        Step::Leaves(" x"),
    ],
    &[
        Step::Add("docty"),
        Step::Add("pe"),
        Step::Eats("doctype", Some(true)),
        Step::Leaves(""),
    ],
    &[
        Step::Add("Dx"),
        Step::Add(""),
        Step::Eats("doctype", Some(false)),
        Step::Leaves("Dx"),
    ],
    &[
        Step::Add("D"),
        Step::Add("x"),
        Step::Eats("doctype", Some(false)),
        Step::Leaves("Dx"),
    ],
    &[
        Step::Add(""),
        Step::Add(""),
        Step::Eats("doctype", None),
        Step::Leaves(""),
    ],
    &[
        Step::Add(""),
        Step::Add(""),
        Step::Eats("", Some(true)),
        Step::Leaves(""),
    ],
    &[
        Step::Add("a"),
        Step::Add("b"),
        Step::Eats("", Some(true)),
        Step::Leaves("ab"),
    ],
    &[
        Step::Add("doctype"),
        Step::Add(""),
        Step::Eats("DOCTYPE", Some(true)),
        Step::Leaves(""),
    ],
    &[
        Step::Add("Éa"),
        Step::Add(""),
        Step::Eats("éa", Some(false)),
        Step::Leaves("Éa"),
    ],
    &[
        Step::Add("é"),
        Step::Add("A€"),
        Step::Eats("éa", Some(true)),
        Step::Leaves("€"),
    ],
    &[
        Step::Add("a€b"),
        Step::Gives("a€"),
        Step::PutBack("€"),
        Step::Gives("€"),
        Step::PutBack("é"),
        Step::PutBack("xyzé"),
        Step::GivesText("xyzééb"),
        Step::PutBack("b"),
        Step::Leaves("b"),
    ],
    &[
        Step::Add("é€<&ab\u{1F600}"),
        Step::GivesRun(SPECIAL, "é€"),
        Step::GivesRun(SPECIAL, "<"),
        Step::GivesRun(SPECIAL, "&"),
        Step::GivesRun(SPECIAL, "ab\u{1F600}"),
        Step::GivesRun(SPECIAL, ""),
    ],
    // each text that comes in stands after what is left as it is, however much was taken before it
    &[
        Step::Add("abcdef"),
        Step::Add("é"),
        Step::GivesText("abcdef"),
        Step::GivesText("é"),
    ],
    &[
        Step::Add("ab<"),
        Step::Add(""),
        Step::Add("é€"),
        Step::Gives("a"),
        Step::Add("&b"),
        Step::GivesRun(SPECIAL, "b"),
        Step::GivesText("<"),
        Step::GivesRun(SPECIAL, "é€"),
        Step::PutBack("x"),
        Step::Leaves("x&b"),
    ],
    &[
        Step::Add("abcdef"),
        Step::Gives("a"),
        Step::Add("é"),
        Step::Leaves("bcdefé"),
    ],
    &[
        Step::Add("abcdef"),
        Step::Gives("ab"),
        Step::Add("é"),
        Step::Leaves("cdefé"),
    ],
    &[
        Step::Add("abcdef"),
        Step::Gives("abc"),
        Step::Add("é"),
        Step::Leaves("defé"),
    ],
    &[
        Step::Add("abcdef"),
        Step::Gives("abcde"),
        Step::Add("é"),
        Step::Leaves("fé"),
    ],
    &[
        Step::Add("abcdef"),
        Step::Gives("abcdef"),
        Step::Add("é"),
        Step::Leaves("é"),
    ],
];

fn add(alloc: Global, queue: &mut BufferQueue, text: &str) -> Result<bool, AllocError> {
    queue.push_back(String::from_str(alloc, text)?)?;
    Ok(true)
}

fn put_back(alloc: Global, queue: &mut BufferQueue, text: &str) -> Result<bool, AllocError> {
    queue.push_front(String::from_str(alloc, text)?)?;
    Ok(true)
}

// whether this front is taken as one text, and nothing of an empty queue
fn gives_text(queue: &mut BufferQueue, text: &str) -> bool {
    match queue.pop_front() {
        Some(run) => run.as_str() == text,
        None => text.is_empty(),
    }
}

// whether these characters are taken one by one
fn gives(queue: &mut BufferQueue, text: &str) -> bool {
    for wanted in text.chars() {
        if queue.next() != Some(wanted) {
            return false;
        }
    }
    true
}

// whether this is taken: a character of a set, or a run of others
fn gives_run(queue: &mut BufferQueue, set: &[char], run: &str) -> Result<bool, AllocError> {
    match queue.pop_except_from(set)? {
        Some(SetResult::NotFromSet(found)) => Ok(found.as_str() == run),
        Some(SetResult::FromSet(c)) => Ok(set.contains(&c) && run.chars().next() == Some(c)),
        None => Ok(run.is_empty()),
    }
}

fn eaten(queue: &mut BufferQueue, text: &str) -> Option<bool> {
    queue.eat(text, |found, wanted| found.eq_ignore_ascii_case(&wanted))
}

// whether a step goes as it should
fn goes(alloc: Global, queue: &mut BufferQueue, step: &Step) -> Result<bool, AllocError> {
    match *step {
        Step::Add(text) => add(alloc, queue, text),
        Step::PutBack(text) => put_back(alloc, queue, text),
        Step::Peeks(c) => Ok(queue.peek() == c),
        Step::Gives(text) => Ok(gives(queue, text)),
        Step::GivesNone => Ok(queue.next().is_none()),
        Step::IsEmpty(is_empty) => Ok(queue.is_empty() == is_empty),
        Step::GivesRun(set, run) => gives_run(queue, set, run),
        Step::GivesText(text) => Ok(gives_text(queue, text)),
        Step::Eats(text, answer) => Ok(eaten(queue, text) == answer),
        Step::Leaves(text) => Ok(gives(queue, text) && queue.is_empty()),
    }
}

fn all_go(alloc: Global, steps: &[Step]) -> Result<bool, AllocError> {
    let mut queue = BufferQueue::new(alloc);
    for step in steps {
        if !goes(alloc, &mut queue, step)? {
            return Ok(false);
        }
    }
    Ok(true)
}

#[test]
fn what_comes_in_is_taken_and_put_back(rt: HostRuntime) {
    for steps in &STEPS {
        passes(&rt, all_go(rt.alloc(), steps), "some steps");
    }
}
