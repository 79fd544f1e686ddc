//! Texts that are known to be wide.
ghost use Rattle.std.specs.Prelude.{◌≡◌, ◌+◌, ◌++◌, if◌then◌else◌, IfOk};
ghost use Rattle.text_cells.specs.Texts.{AreWide, text_count};

use crate::laid_line::LaidText;
use std::alloc::{AllocError, Global};
use std::collections::VecDeque;
use text_lines::{EqualCopy, TaggedLine};

/// Texts of a block that are known to be at least so wide: in a row of one cell of no more columns each stays as it is,
/// so that tables within one another take no line again.
pub struct WideTexts<T> {
    lines: VecDeque<LaidText<T>>,
    /// None has less.
    columns: usize,
    /// How many have content.
    filled: usize,
    ghost wide: { AreWide columns lines.items },
    ghost counted: { filled ≡ text_count lines.items },
}

impl<T: Drop> Drop for WideTexts<T> {
    // One call wherever they are dropped.
    fn drop(self) {
        let WideTexts {
            lines: _,
            columns: _,
            filled: _,
        } = self;
    }
}

impl<T: EqualCopy + Drop> WideTexts<T> {
    ghost use Rattle.std.specs.Prelude.{[], ◌∷◌, ◌==◌, map, length, OnOk, IfSome, IsNone, IsTrue};
    ghost use Rattle.text_lines.specs.Tagged.{line_items};
    ghost use Rattle.text_borders.specs.Lines.{text};
    ghost use Rattle.text_cells.specs.Texts.{laid_text_of, in_row};
    ghost use Rattle.text_cells.specs.Cells.{texts_of, texts_content, texts_items, HaveTextContent};

    /// No texts.
    pub fn new(alloc: Global) -> WideTexts<T>
        ensures { texts_of T.seen result ≡ [] }
    {
        WideTexts {
            lines: VecDeque::new(alloc),
            columns: usize::MAX,
            filled: 0,
        }
    }

    /// Whether there is none.
    pub(crate) fn is_empty(&self) -> bool
        ensures { result ≡ (length self.now.lines.items == 0) }
    {
        self.lines.is_empty()
    }

    /// How many have content.
    pub fn filled(&self) -> usize
        ensures { result ≡ texts_content self.now }
    {
        self.filled
    }

    /// Adds a text at the end. The error is allocation failure.
    pub fn push(&mut self, line: TaggedLine<T>, content: bool) -> Result<(), AllocError>
        ensures { OnOk result (texts_of T.seen self.new ≡ texts_of T.seen self.old
            ++ record { line = text (line_items T.seen line); content = content } ∷ []) }
    {
        let columns = self.columns.min(line.width());
        let filled = sum(self.filled, weight(content))?;
        self.lines.push_back(LaidText { line, content })?;
        self.columns = columns;
        self.filled = filled;
        Ok(())
    }

    /// These texts and others after them; it takes as many steps as there are of the fewer. The error is allocation
    /// failure.
    pub fn joined(self, others: WideTexts<T>) -> Result<WideTexts<T>, AllocError>
        ensures { IfOk result (λ all. texts_of T.seen all ≡ texts_of T.seen self ++ texts_of T.seen others) }
    {
        let WideTexts {
            lines,
            columns,
            filled,
        } = self;
        let WideTexts {
            lines: more,
            columns: least,
            filled: further,
        } = others;
        let filled = sum(filled, further)?;
        let lines = joined(lines, more)?;
        Ok(WideTexts {
            lines,
            columns: columns.min(least),
            filled,
        })
    }

    /// Takes the first text off.
    pub fn pop_first(&mut self) -> Option<LaidText<T>>
        ensures first { IfSome result (λ t. texts_of T.seen self.old
            ≡ laid_text_of T.seen t ∷ texts_of T.seen self.new) }
        ensures items { IfSome result (λ t. texts_items T.seen self.old
            ≡ line_items T.seen t.line ∷ texts_items T.seen self.new) }
        ensures none { IsNone result → texts_items T.seen self.old ≡ [] }
        ensures content { HaveTextContent T.seen self.old → HaveTextContent T.seen self.new }
    {
        let first = self.lines.pop_front()?;
        self.filled = self.filled.saturating_sub(weight(first.content));
        Some(first)
    }

    /// Whether a row of one cell of so many columns leaves each of the texts as it is.
    pub(crate) fn are_kept(&self, width: usize) -> bool
        ensures { IsTrue result → (tag : T.Seen)
            → map (in_row width tag) (texts_of T.seen self.now) ≡ texts_of T.seen self.now }
    {
        if width == 0 {
            return false;
        }
        if width > self.columns {
            return false;
        }
        self.filled == self.lines.len()
    }

    /// The texts one by one.
    pub fn into_queue(self) -> VecDeque<LaidText<T>>
        ensures texts { map (laid_text_of T.seen) result.items ≡ texts_of T.seen self }
        ensures items { map (λ t. line_items T.seen t.line) result.items ≡ texts_items T.seen self }
    {
        let WideTexts {
            lines,
            columns: _,
            filled: _,
        } = self;
        lines
    }
}

/// One queue and another after it: of the shorter each is moved.
fn joined<X: Drop>(first: VecDeque<X>, second: VecDeque<X>) -> Result<VecDeque<X>, AllocError>
    ensures { IfOk result (λ all. all.items ≡ first.items ++ second.items) }
{
    if first.len() < second.len() {
        return put_before(first, second);
    }
    let mut all = first;
    let mut rest = second;
    while let Some(next) = rest.pop_front() {
        all.push_back(next)?;
    }
    Ok(all)
}

fn put_before<X: Drop>(first: VecDeque<X>, second: VecDeque<X>) -> Result<VecDeque<X>, AllocError>
    ensures { IfOk result (λ all. all.items ≡ first.items ++ second.items) }
{
    let mut all = second;
    let mut rest = first;
    while let Some(last) = rest.pop_back() {
        all.push_front(last)?;
    }
    Ok(all)
}

/// No memory holds more texts than a `usize` counts.
fn sum(count: usize, more: usize) -> Result<usize, AllocError>
    ensures { IfOk result (λ n. n ≡ count + more) }
{
    count.checked_add(more).ok_or(AllocError)
}

fn weight(content: bool) -> usize
    ensures { result ≡ (if content then 1 else 0) }
{
    if content { 1 } else { 0 }
}
