//! Lines of a block, one of which alone takes no allocation.
ghost use Rattle.std.specs.Prelude.{◌≡◌, ◌++◌, length, option_to_list, None, IsSome, OnOk};

use crate::laid_line::LaidLine;
use crate::line_queue::LineQueue;
use std::alloc::{AllocError, Global};
use std::marker::Model;
use std::mem;

/// Lines in order. Most cells have a single one, so that stands by itself.
#[derive(Drop)]
pub(crate) struct LineVec<T> {
    /// The only line.
    only: Option<LaidLine<T>>,
    /// The lines where none stands by itself.
    rest: Vec<LaidLine<T>>,
}

impl<T> Model for LineVec<T> {
    ghost use Rattle.std.specs.Prelude.{◌≡◌, ◌++◌, IsSome, List, length, option_to_list};
    ghost use Rattle.text_cells.specs.declared.laid_line.LaidLine.{LaidLine};

    ghost Value = { List (LaidLine T) };

    ghost view = { λ lines. option_to_list lines.only ++ lines.rest.items };

    ghost invariant = { λ lines. IsSome lines.only → length lines.rest.items ≡ 0 };
}

impl<T: Drop> LineVec<T> {
    ghost use Rattle.std.specs.Prelude.{[], ◌∷◌, ◌==◌, if◌then◌else◌, IfOk, IfSome, IsNone, is_ok};

    /// No lines.
    pub(crate) fn new(alloc: Global) -> LineVec<T>
        ensures { result ≡ [] }
    {
        LineVec {
            only: None,
            rest: Vec::new(alloc),
        }
    }

    /// These lines.
    pub(crate) fn of_lines(lines: Vec<LaidLine<T>>) -> LineVec<T>
        ensures { result ≡ lines.items }
    {
        LineVec {
            only: None,
            rest: lines,
        }
    }

    /// The lines of a queue.
    pub(crate) fn of_queue(queue: LineQueue<T>) -> LineVec<T>
        ensures { result ≡ queue }
    {
        let (only, rest) = queue.into_parts();
        LineVec { only, rest }
    }

    /// How many there are.
    pub(crate) fn len(&self) -> usize
        ensures { result ≡ length self.now }
    {
        match &self.only {
            Some(_) => 1,
            None => self.rest.len(),
        }
    }

    /// Whether there is none.
    pub(crate) fn is_empty(&self) -> bool
        ensures { result ≡ (length self.now == 0) }
    {
        self.len() == 0
    }

    /// Adds a line at the end. The error is allocation failure, which changes nothing.
    #[inline(always)]
    pub(crate) fn push(&mut self, line: LaidLine<T>) -> Result<(), AllocError>
        ensures { self.new ≡ (if is_ok result then self.old ++ line ∷ [] else self.old) }
    {
        if self.rest.is_empty() {
            return self.push_early(line);
        }
        self.rest.push(line)?;
        Ok(())
    }

    /// Adds one of the first two lines, as `push`.
    fn push_early(&mut self, line: LaidLine<T>) -> Result<(), AllocError>
        ensures { self.new ≡ (if is_ok result then self.old ++ line ∷ [] else self.old) }
    {
        if self.is_empty() {
            self.only = Some(line);
            return Ok(());
        }
        move_only(&mut self.only, &mut self.rest)?;
        self.rest.push(line)?;
        Ok(())
    }

    /// Adds lines at the end. The error is allocation failure, which changes nothing.
    pub(crate) fn append(&mut self, lines: Vec<LaidLine<T>>) -> Result<(), AllocError>
        ensures { self.new ≡ (if is_ok result then self.old ++ lines.items else self.old) }
    {
        if self.is_empty() {
            self.rest = lines;
            return Ok(());
        }
        move_only(&mut self.only, &mut self.rest)?;
        let mut lines = lines;
        self.rest.append(&mut lines)
    }

    /// Takes the last line off.
    pub(crate) fn pop(&mut self) -> Option<LaidLine<T>>
        ensures lines { self.old ≡ self.new ++ option_to_list result }
        ensures none { IsNone result → self.old ≡ [] }
    {
        match self.only.take() {
            Some(line) => Some(line),
            None => self.rest.pop(),
        }
    }

    /// Takes the line off that stands by itself, where one does.
    pub(crate) fn take_only(&mut self) -> Option<LaidLine<T>>
        ensures only { IfSome result (λ l. self.old ≡ l ∷ []) }
        ensures same { IsNone result → self.new ≡ self.old }
    {
        self.only.take()
    }

    /// Takes all lines off, in a vector. The error is allocation failure, which changes nothing.
    pub(crate) fn take_vec(&mut self, alloc: Global) -> Result<Vec<LaidLine<T>>, AllocError>
        ensures lines { IfOk result (λ all. all.items ≡ self.old) }
        ensures rest { self.new ≡ (if is_ok result then [] else self.old) }
    {
        move_only(&mut self.only, &mut self.rest)?;
        Ok(mem::replace(&mut self.rest, Vec::new(alloc)))
    }

    /// The lines in a vector. The error is allocation failure.
    pub(crate) fn into_vec(self) -> Result<Vec<LaidLine<T>>, AllocError>
        ensures { IfOk result (λ all. all.items ≡ self) }
    {
        let mut lines = self;
        move_only(&mut lines.only, &mut lines.rest)?;
        let LineVec { only: _, rest } = lines;
        Ok(rest)
    }

    /// The lines in a queue.
    pub(crate) fn into_queue(self) -> LineQueue<T>
        ensures { result ≡ self }
    {
        let LineVec { only, rest } = self;
        LineQueue::of_parts(only, rest)
    }
}

/// The only line no longer stands by itself. The error is allocation failure, which changes no line.
fn move_only<T: Drop>(
    only: &mut Option<LaidLine<T>>,
    rest: &mut Vec<LaidLine<T>>,
) -> Result<(), AllocError>
    requires { IsSome only.old → length rest.old.items ≡ 0 }
    ensures lines { option_to_list only.new ++ rest.new.items ≡ option_to_list only.old ++ rest.old.items }
    ensures alone { IsSome only.new → length rest.new.items ≡ 0 }
    ensures none { OnOk result (only.new ≡ None) }
{
    let Some(line) = only.take() else {
        return Ok(());
    };
    match rest.push(line) {
        Ok(()) => Ok(()),
        Err(refused) => {
            *only = Some(refused.value);
            Err(AllocError)
        }
    }
}
