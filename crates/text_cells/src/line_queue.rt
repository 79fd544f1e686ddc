//! Lines of a cell, taken off one by one.
ghost use Rattle.std.specs.Prelude.{◌≡◌, ◌++◌, length, option_to_list, None, IsSome, OnOk};

use crate::laid_line::LaidLine;
use std::alloc::AllocError;
use std::collections::VecDeque;
use std::marker::Model;

/// Lines in order, a single one by itself.
#[derive(Drop)]
pub(crate) struct LineQueue<T> {
    /// The only line.
    only: Option<LaidLine<T>>,
    /// The lines where none stands by itself.
    rest: VecDeque<LaidLine<T>>,
}

impl<T> Model for LineQueue<T> {
    ghost use Rattle.std.specs.Prelude.{◌≡◌, ◌++◌, IsSome, List, length, option_to_list};
    ghost use Rattle.text_cells.specs.declared.laid_line.LaidLine.{LaidLine};

    ghost Value = { List (LaidLine T) };

    ghost view = { λ lines. option_to_list lines.only ++ lines.rest.items };

    ghost invariant = { λ lines. IsSome lines.only → length lines.rest.items ≡ 0 };
}

impl<T: Drop> LineQueue<T> {
    ghost use Rattle.std.specs.Prelude.{[], ◌∷◌, IsNone, drop};

    /// A line by itself, or lines in a vector.
    pub(crate) fn of_parts(only: Option<LaidLine<T>>, rest: Vec<LaidLine<T>>) -> LineQueue<T>
        requires { IsSome only → length rest.items ≡ 0 }
        ensures { result ≡ option_to_list only ++ rest.items }
    {
        LineQueue {
            only,
            rest: VecDeque::from_vec(rest),
        }
    }

    /// The line that stands by itself, or the lines in a vector.
    pub(crate) fn into_parts(self) -> (Option<LaidLine<T>>, Vec<LaidLine<T>>)
        ensures lines { option_to_list result.0 ++ result.1.items ≡ self }
        ensures alone { IsSome result.0 → length result.1.items ≡ 0 }
    {
        let LineQueue { only, rest } = self;
        (only, rest.into_vec())
    }

    /// How many there are.
    pub(crate) fn len(&self) -> usize
        ensures { result ≡ length self.now }
    {
        match &self.only {
            Some(_) => 1,
            None => self.rest.len(),
        }
    }

    /// Adds a line at the end. The error is allocation failure.
    pub(crate) fn push_back(&mut self, line: LaidLine<T>) -> Result<(), AllocError>
        ensures { OnOk result (self.new ≡ self.old ++ line ∷ []) }
    {
        if self.len() == 0 {
            self.only = Some(line);
            return Ok(());
        }
        queue_only(&mut self.only, &mut self.rest)?;
        self.rest.push_back(line)?;
        Ok(())
    }

    /// Adds a line before the others. The error is allocation failure.
    pub(crate) fn push_front(&mut self, line: LaidLine<T>) -> Result<(), AllocError>
        ensures { OnOk result (self.new ≡ line ∷ self.old) }
    {
        if self.len() == 0 {
            self.only = Some(line);
            return Ok(());
        }
        queue_only(&mut self.only, &mut self.rest)?;
        self.rest.push_front(line)?;
        Ok(())
    }

    /// Takes the first line off.
    pub(crate) fn pop_front(&mut self) -> Option<LaidLine<T>>
        ensures lines { self.old ≡ option_to_list result ++ self.new }
        ensures rest { self.new ≡ drop 1 self.old }
        ensures none { IsNone result → self.old ≡ [] }
    {
        match self.only.take() {
            Some(line) => Some(line),
            None => self.rest.pop_front(),
        }
    }

    /// Takes the last line off.
    pub(crate) fn pop_back(&mut self) -> Option<LaidLine<T>>
        ensures lines { self.old ≡ self.new ++ option_to_list result }
        ensures none { IsNone result → self.old ≡ [] }
    {
        match self.only.take() {
            Some(line) => Some(line),
            None => self.rest.pop_back(),
        }
    }
}

/// The only line no longer stands by itself. The error is allocation failure, which changes no line.
fn queue_only<T: Drop>(
    only: &mut Option<LaidLine<T>>,
    rest: &mut VecDeque<LaidLine<T>>,
) -> Result<(), AllocError>
    requires { IsSome only.old → length rest.old.items ≡ 0 }
    ensures lines { option_to_list only.new ++ rest.new.items ≡ option_to_list only.old ++ rest.old.items }
    ensures alone { IsSome only.new → length rest.new.items ≡ 0 }
    ensures none { OnOk result (only.new ≡ None) }
{
    let Some(line) = only.take() else {
        return Ok(());
    };
    match rest.push_back(line) {
        Ok(()) => Ok(()),
        Err(refused) => {
            *only = Some(refused.value);
            Err(AllocError)
        }
    }
}
