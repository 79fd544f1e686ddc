//! The pass over a source line.
ghost use Rattle.std.specs.Prelude.{◌≡◌, ◌≤◌, ◌+◌, ◌++◌, ◌&&◌, ◌||◌, All, IfErr, IfOk, IsUtf8, OnOk, chars, length};
ghost use Rattle.std.specs.Prelude.{map, nat_lt, not, true};
ghost use Rattle.text_lines.specs.Tagged.{line_items, line_columns, IsJoined};
ghost use Rattle.text_pieces.specs.Sources.{names};
ghost use Rattle.text_preserved.specs.Pass.{begins, closed, finished, left_markers, lettered, new_pass, read_at};
ghost use Rattle.text_preserved.specs.Pass.{read_letter, read_marker, stopped};
ghost use Rattle.text_preserved.specs.Preserved.{white, taken};
ghost use Rattle.text_preserved.specs.Fronts.{all_lettered, words_laid, IsSteady};

use crate::fronts::{fitting_front, has_wider};
use crate::kinds::{CharacterKind, kind_of};
use crate::laying::{Rows, chosen};
use std::alloc::{AllocError, Global};
use text_lines::{EqualCopy, TaggedLine};
use text_pieces::{BlockError, LaidText, first_char, names_before, width_of};

/// A source line of which the front is laid.
#[derive(Drop)]
pub(crate) struct SourceLine<T> {
    pub(crate) width: usize,
    pub(crate) wraps: bool,
    pub(crate) rows: Rows<T>,
    /// The body so far, or the markers that wait for one.
    pub(crate) word: TaggedLine<T>,
    pub(crate) begun: bool,
    /// Whether the source line was wrapped before the body's end.
    pub(crate) goes_on: bool,
    /// Whether a body has a character that is wider than the width.
    pub(crate) wide: bool,
}

impl<T: EqualCopy + Drop> SourceLine<T> {
    ghost use Rattle.text_preserved.specs.Rows.{laying_of, HasJoinedRows};
    ghost use Rattle.text_preserved.specs.SourceLines.{pass_of};

    pub(crate) fn new(alloc: Global, width: usize, wraps: bool) -> SourceLine<T>
        ensures pass { pass_of T.seen result ≡ new_pass width wraps }
        ensures joined { HasJoinedRows T.seen result.rows }
    {
        SourceLine {
            width,
            wraps,
            rows: Rows::new(alloc),
            word: TaggedLine::new(alloc),
            begun: false,
            goes_on: false,
            wide: false,
        }
    }

    pub(crate) fn read_char(
        &mut self,
        c: char,
        main_tag: &T,
        wrap_tag: &T,
    ) -> Result<(), AllocError>
        ensures pass { OnOk result (pass_of T.seen self.new
            ≡ read_letter c (T.seen main_tag.now) (T.seen wrap_tag.now) (pass_of T.seen self.old)) }
        ensures joined { HasJoinedRows T.seen self.old.rows → HasJoinedRows T.seen self.new.rows }
    {
        match kind_of(c, self.width, self.wraps) {
            CharacterKind::Solid => self.read_solid(c, main_tag, wrap_tag),
            CharacterKind::White => self.read_white(c, main_tag, wrap_tag),
            CharacterKind::Tab => self.read_tab(main_tag, wrap_tag),
            CharacterKind::Cut => self.close(),
            CharacterKind::Nothing => Ok(()),
        }
    }

    fn read_solid(&mut self, c: char, main_tag: &T, wrap_tag: &T) -> Result<(), AllocError>
        ensures pass { OnOk result (pass_of T.seen self.new
            ≡ lettered c (T.seen main_tag.now) (T.seen wrap_tag.now) (begins (pass_of T.seen self.old))) }
        ensures joined { HasJoinedRows T.seen self.old.rows → HasJoinedRows T.seen self.new.rows }
    {
        self.begin()?;
        self.add_letter(c, main_tag, wrap_tag)
    }

    /// White space is a body's where one has begun and lines don't break at it; else it waits.
    fn read_white(&mut self, c: char, main_tag: &T, wrap_tag: &T) -> Result<(), AllocError>
        ensures pass { OnOk result (pass_of T.seen self.new ≡ read_at white
            (not self.old.wraps && self.old.begun) c (T.seen main_tag.now) (T.seen wrap_tag.now)
            (pass_of T.seen self.old)) }
        ensures joined { HasJoinedRows T.seen self.old.rows → HasJoinedRows T.seen self.new.rows }
    {
        if !self.wraps && self.begun {
            return self.read_solid(c, main_tag, wrap_tag);
        }
        self.close()?;
        self.rows.hold(width_of(c), main_tag, wrap_tag)
    }

    fn read_tab(&mut self, main_tag: &T, wrap_tag: &T) -> Result<(), AllocError>
        ensures pass { OnOk result (pass_of T.seen self.new
            ≡ stopped (T.seen main_tag.now) (T.seen wrap_tag.now) (closed (pass_of T.seen self.old))) }
        ensures joined { HasJoinedRows T.seen self.old.rows → HasJoinedRows T.seen self.new.rows }
    {
        self.close()?;
        self.rows.lay_stop(self.width, main_tag, wrap_tag)
    }

    /// Begins a body, where none has begun.
    pub(crate) fn begin(&mut self) -> Result<(), AllocError>
        ensures pass { OnOk result (pass_of T.seen self.new ≡ begins (pass_of T.seen self.old)) }
        ensures begun { OnOk result (self.new.begun ≡ true) }
        ensures joined { HasJoinedRows T.seen self.old.rows → HasJoinedRows T.seen self.new.rows }
    {
        if self.begun {
            return Ok(());
        }
        self.rows.make_room(self.width, 0)?;
        self.begun = true;
        self.goes_on = self.rows.goes_on;
        Ok(())
    }

    /// Adds a character to the body.
    fn add_letter(&mut self, c: char, main_tag: &T, wrap_tag: &T) -> Result<(), AllocError>
        ensures pass { OnOk result (pass_of T.seen self.new
            ≡ lettered c (T.seen main_tag.now) (T.seen wrap_tag.now) (pass_of T.seen self.old)) }
        ensures rows { self.new.rows ≡ self.old.rows }
    {
        let columns = width_of(c);
        self.goes_on = self.passes(columns)?;
        let tag = chosen(self.goes_on, main_tag, wrap_tag);
        self.word.push_char(c, tag)?;
        self.wide |= columns > self.width;
        Ok(())
    }

    /// Adds characters to the body, those that leave its tag as it is all at once.
    pub(crate) fn add_text(
        &mut self,
        text: &str,
        main_tag: &T,
        wrap_tag: &T,
    ) -> Result<(), AllocError>
        ensures pass { OnOk result (pass_of T.seen self.new ≡ all_lettered (chars text.now) (T.seen main_tag.now)
            (T.seen wrap_tag.now) (pass_of T.seen self.old)) }
        ensures rows { self.new.rows ≡ self.old.rows }
    {
        let mut rest = self.add_front(text, main_tag, wrap_tag)?;
        while let Some((c, after)) = first_char(rest) {
            self.add_letter(c, main_tag, wrap_tag)?;
            rest = self.add_front(after, main_tag, wrap_tag)?;
        }
        Ok(())
    }

    /// Adds the characters in front that leave the body's tag as it is; what follows them is left.
    fn add_front<'a>(
        &mut self,
        text: &'a str,
        main_tag: &T,
        wrap_tag: &T,
    ) -> Result<&'a str, AllocError>
        ensures pass { IfOk result (λ rest. all_lettered (chars rest.now) (T.seen main_tag.now) (T.seen wrap_tag.now)
            (pass_of T.seen self.new) ≡ all_lettered (chars text.now) (T.seen main_tag.now) (T.seen wrap_tag.now)
            (pass_of T.seen self.old)) }
        ensures rows { self.new.rows ≡ self.old.rows }
        ensures text { IfOk result (λ rest. IsUtf8 rest.now) }
        ensures no_longer { IfOk result (λ rest. length rest.now ≤ length text.now) }
    {
        let (front, rest) = self.steady_front(text)?;
        let tag = chosen(self.goes_on, main_tag, wrap_tag);
        self.word.push_str(front, tag)?;
        self.wide |= has_wider(front, self.width);
        Ok(rest)
    }

    /// The characters in front that leave the body's tag as it is, and what stands after them.
    fn steady_front<'a>(&self, text: &'a str) -> Result<(&'a str, &'a str), AllocError>
        ensures parts { IfOk result (λ parts. chars text.now ≡ chars parts.0.now ++ chars parts.1.now) }
        ensures steady { IfOk result (λ parts. IsSteady (chars parts.0.now) (pass_of T.seen self.now)) }
        ensures no_longer { IfOk result (λ parts. length parts.1.now ≤ length text.now) }
    {
        if self.goes_on || self.wraps {
            return Ok((text, ""));
        }
        Ok(fitting_front(text, self.width, self.body_end()?))
    }

    /// Whether the source line is wrapped before a character of so many columns of the body, or was before.
    fn passes(&self, columns: usize) -> Result<bool, AllocError>
        ensures { IfOk result (λ b. b ≡ (self.now.goes_on || (not self.now.wraps
            && nat_lt self.now.width (taken (laying_of T.seen self.now.rows)
            + line_columns (line_items T.seen self.now.word) + columns)))) }
    {
        if self.goes_on || self.wraps {
            return Ok(self.goes_on);
        }
        let end = self.body_end()?.checked_add(columns).ok_or(AllocError)?;
        Ok(end > self.width)
    }

    /// The column after the body so far. No memory holds a line of more columns than a `usize` counts.
    fn body_end(&self) -> Result<usize, AllocError>
        ensures { IfOk result (λ n. n ≡ taken (laying_of T.seen self.now.rows)
            + line_columns (line_items T.seen self.now.word)) }
    {
        self.rows
            .taken()?
            .checked_add(self.word.width())
            .ok_or(AllocError)
    }

    /// Lays words, with the spaces between them, on the line at hand after the white space that waits.
    pub(crate) fn lay_words(
        &mut self,
        words: &str,
        main_tag: &T,
        wrap_tag: &T,
    ) -> Result<(), AllocError>
        ensures pass { OnOk result (pass_of T.seen self.new
            ≡ words_laid (chars words.now) (T.seen main_tag.now) (T.seen wrap_tag.now) (pass_of T.seen self.old)) }
        ensures joined { HasJoinedRows T.seen self.old.rows → HasJoinedRows T.seen self.new.rows }
    {
        let goes_on = self.rows.goes_on;
        self.rows
            .write_text(words, chosen(goes_on, main_tag, wrap_tag))?;
        self.goes_on = goes_on;
        self.wide |= has_wider(words, self.width);
        Ok(())
    }

    /// Ends the body, where one has begun.
    fn close(&mut self) -> Result<(), AllocError>
        ensures pass { OnOk result (pass_of T.seen self.new ≡ closed (pass_of T.seen self.old)) }
        ensures joined { HasJoinedRows T.seen self.old.rows → HasJoinedRows T.seen self.new.rows }
    {
        if !self.begun {
            return Ok(());
        }
        self.rows.lay_items(self.width, self.wraps, &self.word)?;
        self.rows.goes_on = self.goes_on;
        self.word.clear();
        self.begun = false;
        Ok(())
    }

    pub(crate) fn read_marker(&mut self, name: &str) -> Result<(), AllocError>
        ensures pass { OnOk result (pass_of T.seen self.new ≡ read_marker (chars name.now) (pass_of T.seen self.old)) }
        ensures rows { self.new.rows ≡ self.old.rows }
    {
        self.word.push_marker(name)
    }

    /// Ends the source line.
    pub(crate) fn finish(&mut self) -> Result<(), AllocError>
        ensures pass { OnOk result (pass_of T.seen self.new ≡ finished (pass_of T.seen self.old)) }
        ensures joined { HasJoinedRows T.seen self.old.rows → HasJoinedRows T.seen self.new.rows }
    {
        self.close()?;
        self.rows.end_line()
    }

    /// Whether a body has a character that is wider than the width, where none may be.
    pub(crate) fn is_refused(&self, allow_overflow: bool) -> bool
        ensures { result ≡ ((pass_of T.seen self.now).wide && not allow_overflow) }
    {
        self.wide && !allow_overflow
    }

    /// The lines, and the names of the markers that wait for the next source line.
    pub(crate) fn into_laid(self, alloc: Global) -> Result<LaidText<T>, BlockError>
        ensures lines { IfOk result (λ laid. map (line_items T.seen) laid.lines.items
            ≡ (pass_of T.seen self).rows.done) }
        ensures waiting { IfOk result (λ laid. names laid.waiting.items ≡ left_markers (pass_of T.seen self)) }
        ensures joined { HasJoinedRows T.seen self.rows → IfOk result (λ laid. All (IsJoined T.seen) laid.lines.items) }
        ensures kinds { IfErr result (λ e. e ≡ BlockError.Memory) }
    {
        let SourceLine { rows, word, .. } = self;
        let trailing = names_before(&word, Vec::new(alloc))?;
        let waiting = names_before(&rows.line, trailing)?;
        let Rows { done, .. } = rows;
        Ok(LaidText {
            lines: done,
            waiting,
        })
    }
}
