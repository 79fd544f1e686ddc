//! The reading of a source line from its pieces.
ghost use Rattle.std.specs.Prelude.{◌≡◌, ◌≤◌, [], true, false, length, chars, OnOk, IfOk, IsUtf8};
ghost use Rattle.text_lines.specs.Tagged.{line_items};
ghost use Rattle.text_pieces.specs.Sources.{sourced, piece_sources, sources_of, is_filled};
ghost use Rattle.text_preserved.specs.Preserved.{trimmed, has_solid, is_solid};
ghost use Rattle.text_preserved.specs.Pass.{read_all};
ghost use Rattle.text_preserved.specs.Trimming.{has_solid_text, solid_text, trimmed_each, StayWhole, IsFrontOf};

use crate::fronts::{begins_solid, body_front, words_front};
use crate::kinds::is_solid;
use crate::source_line::SourceLine;
use std::alloc::AllocError;
use text_lines::EqualCopy;
use text_pieces::{Piece, first_char, last_char};

impl<T: EqualCopy + Drop> SourceLine<T> {
    ghost use Rattle.text_preserved.specs.Rows.{HasJoinedRows};
    ghost use Rattle.text_preserved.specs.SourceLines.{pass_of};

    /// Reads a source line without the white space at its end.
    pub(crate) fn read_line(&mut self, pieces: &[Piece<T>]) -> Result<(), AllocError>
        ensures pass { OnOk result (pass_of T.seen self.new ≡ read_all (pass_of T.seen self.old)
            (trimmed self.old.width self.old.wraps (sources_of T.seen pieces.now))) }
        ensures joined { HasJoinedRows T.seen self.old.rows → HasJoinedRows T.seen self.new.rows }
    {
        let whole = whole_pieces(pieces, self.width, self.wraps);
        let (front, back) = pieces.split_at(whole);
        self.read_pieces(front)?;
        self.read_trimmed(back)
    }

    fn read_pieces(&mut self, pieces: &[Piece<T>]) -> Result<(), AllocError>
        ensures pass { OnOk result (pass_of T.seen self.new
            ≡ read_all (pass_of T.seen self.old) (sources_of T.seen pieces.now)) }
        ensures joined { HasJoinedRows T.seen self.old.rows → HasJoinedRows T.seen self.new.rows }
    {
        let mut rest = pieces;
        while let Some((first, others)) = rest.split_first() {
            self.read_piece(first)?;
            rest = others;
        }
        Ok(())
    }

    fn read_piece(&mut self, piece: &Piece<T>) -> Result<(), AllocError>
        ensures pass { OnOk result (pass_of T.seen self.new
            ≡ read_all (pass_of T.seen self.old) (piece_sources T.seen piece.now)) }
        ensures joined { HasJoinedRows T.seen self.old.rows → HasJoinedRows T.seen self.new.rows }
    {
        match piece {
            Piece::Text(piece) => self.read_text(
                piece.text.as_str(),
                &piece.main_tag,
                piece.wrap_tag_or_main(),
            ),
            Piece::Fragment(name) => self.read_marker(name.as_str()),
        }
    }

    /// Reads the pieces, each without the white space at its end.
    fn read_trimmed(&mut self, pieces: &[Piece<T>]) -> Result<(), AllocError>
        ensures pass { OnOk result (pass_of T.seen self.new ≡ read_all (pass_of T.seen self.old)
            (trimmed_each T.seen self.old.width self.old.wraps pieces.now)) }
        ensures joined { HasJoinedRows T.seen self.old.rows → HasJoinedRows T.seen self.new.rows }
    {
        let mut rest = pieces;
        while let Some((first, others)) = rest.split_first() {
            self.read_trimmed_piece(first)?;
            rest = others;
        }
        Ok(())
    }

    fn read_trimmed_piece(&mut self, piece: &Piece<T>) -> Result<(), AllocError>
        ensures pass { OnOk result (pass_of T.seen self.new ≡ read_all (pass_of T.seen self.old)
            (trimmed self.old.width self.old.wraps (piece_sources T.seen piece.now))) }
        ensures joined { HasJoinedRows T.seen self.old.rows → HasJoinedRows T.seen self.new.rows }
    {
        match piece {
            Piece::Text(piece) => {
                self.read_trimmed_text(
                    piece.text.as_str(),
                    &piece.main_tag,
                    piece.wrap_tag_or_main(),
                )
            }
            Piece::Fragment(name) => self.read_marker(name.as_str()),
        }
    }

    fn read_trimmed_text(
        &mut self,
        text: &str,
        main_tag: &T,
        wrap_tag: &T,
    ) -> Result<(), AllocError>
        ensures pass { OnOk result (pass_of T.seen self.new ≡ read_all (pass_of T.seen self.old)
            (trimmed self.old.width self.old.wraps
            (sourced (chars text.now) (T.seen main_tag.now) (T.seen wrap_tag.now)))) }
        ensures joined { HasJoinedRows T.seen self.old.rows → HasJoinedRows T.seen self.new.rows }
    {
        self.read_text(
            solid_front(text, self.width, self.wraps),
            main_tag,
            wrap_tag,
        )
    }

    fn read_text(&mut self, text: &str, main_tag: &T, wrap_tag: &T) -> Result<(), AllocError>
        ensures pass { OnOk result (pass_of T.seen self.new ≡ read_all (pass_of T.seen self.old)
            (sourced (chars text.now) (T.seen main_tag.now) (T.seen wrap_tag.now))) }
        ensures joined { HasJoinedRows T.seen self.old.rows → HasJoinedRows T.seen self.new.rows }
    {
        let mut rest = self.read_front(text, main_tag, wrap_tag)?;
        while let Some((c, after)) = first_char(rest) {
            self.read_char(c, main_tag, wrap_tag)?;
            rest = self.read_front(after, main_tag, wrap_tag)?;
        }
        Ok(())
    }

    /// Reads characters in front all at once: those that the body at hand goes on with, or words and spaces that go on
    /// the line; what follows them is left.
    fn read_front<'a>(
        &mut self,
        text: &'a str,
        main_tag: &T,
        wrap_tag: &T,
    ) -> Result<&'a str, AllocError>
        ensures pass { IfOk result (λ rest. read_all (pass_of T.seen self.new)
            (sourced (chars rest.now) (T.seen main_tag.now) (T.seen wrap_tag.now))
            ≡ read_all (pass_of T.seen self.old)
            (sourced (chars text.now) (T.seen main_tag.now) (T.seen wrap_tag.now))) }
        ensures joined { HasJoinedRows T.seen self.old.rows → HasJoinedRows T.seen self.new.rows }
        ensures text { IfOk result (λ rest. IsUtf8 rest.now) }
        ensures no_longer { IfOk result (λ rest. length rest.now ≤ length text.now) }
    {
        if self.begun {
            return self.read_body(text, main_tag, wrap_tag);
        }
        if self.wraps && self.word.is_empty() {
            let rest = self.read_words(text, main_tag, wrap_tag)?;
            return self.read_word(rest, main_tag, wrap_tag);
        }
        self.read_word(text, main_tag, wrap_tag)
    }

    /// Reads a body that begins with the text, as far as the text has it; what follows it is left.
    fn read_word<'a>(
        &mut self,
        text: &'a str,
        main_tag: &T,
        wrap_tag: &T,
    ) -> Result<&'a str, AllocError>
        ensures pass { IfOk result (λ rest. read_all (pass_of T.seen self.new)
            (sourced (chars rest.now) (T.seen main_tag.now) (T.seen wrap_tag.now))
            ≡ read_all (pass_of T.seen self.old)
            (sourced (chars text.now) (T.seen main_tag.now) (T.seen wrap_tag.now))) }
        ensures joined { HasJoinedRows T.seen self.old.rows → HasJoinedRows T.seen self.new.rows }
        ensures text { IfOk result (λ rest. IsUtf8 rest.now) }
        ensures no_longer { IfOk result (λ rest. length rest.now ≤ length text.now) }
    {
        if !begins_solid(text, self.width, self.wraps) {
            return Ok(text);
        }
        self.begin()?;
        self.read_body(text, main_tag, wrap_tag)
    }

    /// Reads the characters in front that the body at hand goes on with; what follows them is left.
    fn read_body<'a>(
        &mut self,
        text: &'a str,
        main_tag: &T,
        wrap_tag: &T,
    ) -> Result<&'a str, AllocError>
        requires begun { self.old.begun ≡ true }
        ensures pass { IfOk result (λ rest. read_all (pass_of T.seen self.new)
            (sourced (chars rest.now) (T.seen main_tag.now) (T.seen wrap_tag.now))
            ≡ read_all (pass_of T.seen self.old)
            (sourced (chars text.now) (T.seen main_tag.now) (T.seen wrap_tag.now))) }
        ensures joined { HasJoinedRows T.seen self.old.rows → HasJoinedRows T.seen self.new.rows }
        ensures text { IfOk result (λ rest. IsUtf8 rest.now) }
        ensures no_longer { IfOk result (λ rest. length rest.now ≤ length text.now) }
    {
        let (body, rest) = body_front(text, self.width, self.wraps);
        self.add_text(body, main_tag, wrap_tag)?;
        Ok(rest)
    }

    /// Reads words and spaces in front that go on the line; what follows them is left.
    fn read_words<'a>(
        &mut self,
        text: &'a str,
        main_tag: &T,
        wrap_tag: &T,
    ) -> Result<&'a str, AllocError>
        requires wraps { self.old.wraps ≡ true }
        requires no_body { self.old.begun ≡ false }
        requires no_word { line_items T.seen self.old.word ≡ [] }
        ensures pass { IfOk result (λ rest. read_all (pass_of T.seen self.new)
            (sourced (chars rest.now) (T.seen main_tag.now) (T.seen wrap_tag.now))
            ≡ read_all (pass_of T.seen self.old)
            (sourced (chars text.now) (T.seen main_tag.now) (T.seen wrap_tag.now))) }
        ensures joined { HasJoinedRows T.seen self.old.rows → HasJoinedRows T.seen self.new.rows }
        ensures text { IfOk result (λ rest. IsUtf8 rest.now) }
        ensures no_longer { IfOk result (λ rest. length rest.now ≤ length text.now) }
    {
        let (words, rest) = words_front(text, self.width, self.rows.taken()?);
        if words.is_empty() {
            return Ok(text);
        }
        self.lay_words(words, main_tag, wrap_tag)?;
        Ok(rest)
    }
}

/// How many pieces of a source line stay whole: all before the last that has a character that is shown.
fn whole_pieces<T: EqualCopy>(pieces: &[Piece<T>], width: usize, wraps: bool) -> usize
    ensures { StayWhole T.seen width wraps pieces.now result }
{
    let mut rest = pieces;
    while let Some((last, front)) = rest.split_last() {
        if has_solid(last, width, wraps) {
            return front.len();
        }
        rest = front;
    }
    0
}

/// Whether the piece has a character that is shown.
fn has_solid<T: EqualCopy>(piece: &Piece<T>, width: usize, wraps: bool) -> bool
    ensures { result ≡ has_solid width wraps (piece_sources T.seen piece.now) }
{
    match piece {
        Piece::Text(piece) => !solid_front(piece.text.as_str(), width, wraps).is_empty(),
        Piece::Fragment(_) => false,
    }
}

/// The text without the characters at its end that are not shown.
pub(crate) fn solid_front(text: &str, width: usize, wraps: bool) -> &str
    ensures front { chars result.now ≡ solid_text width wraps (chars text.now) }
    ensures some { is_filled result.now ≡ has_solid_text width wraps (chars text.now) }
    ensures front_of { IsFrontOf text.now result.now }
{
    let mut rest = text;
    while let Some((before, c)) = last_char(rest) {
        if is_solid(c, width, wraps) {
            return rest;
        }
        rest = before;
    }
    rest
}
