ghost use Rattle.std.specs.Prelude.{◌≡◌, ◌≢◌, ◌⊎◌, ◌||◌, [], ◌∷◌, ◌++◌, ◌<◌, ◌≤◌, All, Bool, IfErr, IfOk, IfSome};
ghost use Rattle.std.specs.Prelude.{IsTrue, IsUtf8, List, OnOk, chars, encode_utf8, false, length, map, nat_le};
ghost use Rattle.std.specs.Prelude.{string_bytes, true, ℕ};
ghost use Rattle.std.specs.Char.{IsScalar};
ghost use Rattle.text_lines.specs.Columns.{text_columns};
ghost use Rattle.text_lines.specs.Tagged.{line_items, IsJoined};
ghost use Rattle.text_normal.specs.Units.{is_break_point};

use crate::filling::Filling;
use crate::spaced_words::{
    ended, is_visible_ascii, line_before_space, words_before_space, words_in_front,
};
use std::alloc::{AllocError, Global};
use text_lines::{Columns, EqualCopy, TaggedLine, UnicodeColumns, columns_of};
use text_pieces::{BlockError, first_char, is_break_point, split_before};

/// A stretch of normal text that is wrapped into lines of at most `width` columns (characters that have no
/// width are left out). A word that fits the rest of the line with its gap stays on it, else it starts a
/// fresh line; one wider than a line is cut there, each line as full as it goes.
#[derive(Drop)]
pub(crate) struct NormalText<T> {
    width: usize,
    lines: Filling<T>,
    /// The tag of the first white space since the last word that was laid.
    space: Option<T>,
    /// What was read since the last break point after a character of some column.
    word: TaggedLine<T>,
}

impl<T: EqualCopy + Drop> NormalText<T> {
    ghost use Rattle.text_normal.specs.Units.{Letter, lettered, units};
    ghost use Rattle.text_normal.specs.Layout.{marks_items};
    ghost use Rattle.text_normal.specs.Greedy.{all_lines, add_units};
    ghost use Rattle.text_normal.specs.NormalStates.{AwaitsWord, EndsAs, EndsWord, FillsLine, FillsOn, HasRead};
    ghost use Rattle.text_normal.specs.NormalStates.{HasWider, JoinsWord, LaysWord, MeetsWider, Moves, Reads};
    ghost use Rattle.text_normal.specs.NormalStates.{ReadsFront, ReadsRun, RunsTo, end_read, lay_read, space_read};
    ghost use Rattle.text_normal.specs.NormalStates.{word_read};

    /// No text yet. With `allow_overflow` a character wider than the width stands alone on a line.
    pub(crate) fn new(alloc: Global, width: usize, allow_overflow: bool) -> NormalText<T>
        ensures { HasRead T.seen width allow_overflow [] result }
    {
        NormalText {
            width,
            lines: Filling::new(alloc, width, allow_overflow),
            space: None,
            word: TaggedLine::new(alloc),
        }
    }

    /// Adds text after what was added before. What was refused is to be thrown away.
    pub(crate) fn add_text(&mut self, text: &str, tag: &T) -> Result<(), BlockError>
        ensures kinds { IfErr result (λ e. (e ≡ BlockError.TooNarrow) ⊎ (e ≡ BlockError.Memory)) }
        ensures read { OnOk result ((width : ℕ) (overflow : Bool) (read : List (Letter T.Seen))
            → HasRead T.seen width overflow read self.old
            → HasRead T.seen width overflow (read ++ lettered (chars text.now) (T.seen tag.now)) self.new) }
        ensures narrow { result ≡ Err BlockError.TooNarrow → (width : ℕ) (overflow : Bool) (read : List (Letter T.Seen))
            → HasRead T.seen width overflow read self.old
            → HasWider width overflow (lettered (chars text.now) (T.seen tag.now)) }
    {
        self.add_normal(text, tag)
    }

    /// Adds text as `add_text` does; where all of it joins the word at hand, or is words that go on the line, it is
    /// moved there.
    pub(crate) fn add_string(&mut self, text: String, tag: T) -> Result<(), BlockError>
        ensures kinds { IfErr result (λ e. (e ≡ BlockError.TooNarrow) ⊎ (e ≡ BlockError.Memory)) }
        ensures read { OnOk result ((width : ℕ) (overflow : Bool) (read : List (Letter T.Seen))
            → HasRead T.seen width overflow read self.old
            → HasRead T.seen width overflow (read ++ lettered (chars (string_bytes text)) (T.seen tag)) self.new) }
        ensures narrow { result ≡ Err BlockError.TooNarrow → (width : ℕ) (overflow : Bool) (read : List (Letter T.Seen))
            → HasRead T.seen width overflow read self.old
            → HasWider width overflow (lettered (chars (string_bytes text)) (T.seen tag)) }
    {
        self.add_own(text, tag)
    }

    fn add_own(&mut self, text: String, tag: T) -> Result<(), BlockError>
        ensures kinds { IfErr result (λ e. (e ≡ BlockError.TooNarrow) ⊎ (e ≡ BlockError.Memory)) }
        ensures read { OnOk result (Reads T.seen self.old self.new
            (lettered (chars (string_bytes text)) (T.seen tag))) }
        ensures narrow { result ≡ Err BlockError.TooNarrow
            → MeetsWider T.seen self.old (lettered (chars (string_bytes text)) (T.seen tag)) }
    {
        if let Some(columns) = self.whole_line(text.as_str()) {
            return Ok(self.begin_line(text, columns, tag)?);
        }
        let after = self.after_run(text.as_str());
        if after.is_empty() {
            return Ok(self.add_part(text, tag)?);
        }
        if text.as_str().starts_with(' ') {
            return self.add_spaced(text, tag);
        }
        self.add_after(text.as_str(), after, &tag)
    }

    /// The columns of a text but for the space at its end, where it is a line's words and that space, and no word is at
    /// hand and nothing on the line.
    fn whole_line(&self, text: &str) -> Option<usize>
        ensures { IfSome result (λ columns. FillsLine T.seen self.now (chars text.now) columns) }
    {
        if self.word.is_empty() && self.lines.is_fresh() {
            line_before_space(text, self.width)
        } else {
            None
        }
    }

    /// Moves words onto the line, which has none, and reads the space after them.
    fn begin_line(&mut self, text: String, columns: usize, tag: T) -> Result<(), AllocError>
        requires { FillsLine T.seen self.old (chars (string_bytes text)) columns }
        ensures { OnOk result (Reads T.seen self.old self.new
            (lettered (chars (string_bytes text)) (T.seen tag))) }
    {
        let space = self.lines.copy_tag(&tag)?;
        self.lines.move_words(text, columns, tag)?;
        self.space = Some(space);
        Ok(())
    }

    /// Adds the first character; where the text is words that then go on the line, and a space after them, it is moved
    /// there.
    fn add_spaced(&mut self, text: String, tag: T) -> Result<(), BlockError>
        ensures kinds { IfErr result (λ e. (e ≡ BlockError.TooNarrow) ⊎ (e ≡ BlockError.Memory)) }
        ensures read { OnOk result (Reads T.seen self.old self.new
            (lettered (chars (string_bytes text)) (T.seen tag))) }
        ensures narrow { result ≡ Err BlockError.TooNarrow
            → MeetsWider T.seen self.old (lettered (chars (string_bytes text)) (T.seen tag)) }
    {
        let Some((c, after)) = first_char(text.as_str()) else {
            return Ok(());
        };
        self.add_char(c, &tag)?;
        if let Some(columns) = self.more_of_line(text.as_str(), &tag) {
            return Ok(self.move_more(text, columns, tag)?);
        }
        let rest = self.add_words(c, text.as_str(), after, &tag)?;
        self.add_normal(rest, &tag)
    }

    /// The columns of a text but for the space at its end, where it is words that go on the line, each after a space,
    /// and that space.
    fn more_of_line(&self, text: &str, tag: &T) -> Option<usize>
        ensures { IfSome result (λ columns. FillsOn T.seen self.now (chars text.now) columns (T.seen tag.now)) }
    {
        if self.awaits_word(tag) {
            words_before_space(text, self.lines.room())
        } else {
            None
        }
    }

    /// Moves words, each after a space, onto the line, and reads the space after them; the first space was read.
    fn move_more(&mut self, text: String, columns: usize, tag: T) -> Result<(), AllocError>
        requires { FillsOn T.seen self.old (chars (string_bytes text)) columns (T.seen tag) }
        ensures { OnOk result ((first : ℕ) (after : List ℕ) → chars (string_bytes text) ≡ first ∷ after
            → Reads T.seen self.old self.new (lettered after (T.seen tag))) }
    {
        self.lines.move_words(text, columns, tag)
    }

    /// Adds a text in which `after` follows the characters in front that join the word at hand.
    fn add_after(&mut self, text: &str, after: &str, tag: &T) -> Result<(), BlockError>
        requires { RunsTo self.old text.now after.now }
        ensures kinds { IfErr result (λ e. (e ≡ BlockError.TooNarrow) ⊎ (e ≡ BlockError.Memory)) }
        ensures read { OnOk result (Reads T.seen self.old self.new (lettered (chars text.now) (T.seen tag.now))) }
        ensures narrow { result ≡ Err BlockError.TooNarrow
            → MeetsWider T.seen self.old (lettered (chars text.now) (T.seen tag.now)) }
    {
        let rest = self.add_front_to(text, after, tag)?;
        self.add_normal(rest, tag)
    }

    /// Moves a text whose characters join the word at hand after it.
    fn add_part(&mut self, text: String, tag: T) -> Result<(), AllocError>
        requires { All (JoinsWord self.old) (chars (string_bytes text)) }
        ensures { OnOk result (Reads T.seen self.old self.new (lettered (chars (string_bytes text)) (T.seen tag))) }
    {
        let columns = columns_of(text.as_str());
        self.word.push_string(text, columns, tag)
    }

    fn add_normal(&mut self, text: &str, tag: &T) -> Result<(), BlockError>
        ensures kinds { IfErr result (λ e. (e ≡ BlockError.TooNarrow) ⊎ (e ≡ BlockError.Memory)) }
        ensures read { OnOk result (Reads T.seen self.old self.new (lettered (chars text.now) (T.seen tag.now))) }
        ensures narrow { result ≡ Err BlockError.TooNarrow
            → MeetsWider T.seen self.old (lettered (chars text.now) (T.seen tag.now)) }
    {
        let mut rest = text;
        while !rest.is_empty() {
            rest = self.add_front(rest, tag)?;
        }
        Ok(())
    }

    /// Adds the characters in front that join the word at hand, all at once, or the first character where it joins
    /// none; what follows is left.
    fn add_front<'a>(&mut self, text: &'a str, tag: &T) -> Result<&'a str, BlockError>
        ensures kinds { IfErr result (λ e. (e ≡ BlockError.TooNarrow) ⊎ (e ≡ BlockError.Memory)) }
        ensures read { IfOk result (λ rest. ReadsFront T.seen self.old self.new text.now rest.now (T.seen tag.now)) }
        ensures narrow { result ≡ Err BlockError.TooNarrow
            → MeetsWider T.seen self.old (lettered (chars text.now) (T.seen tag.now)) }
        ensures text { IfOk result (λ rest. IsUtf8 rest.now) }
        ensures shorter { IfOk result (λ rest. text.now ≢ [] → length rest.now < length text.now) }
    {
        let after = self.after_run(text);
        self.add_front_to(text, after, tag)
    }

    /// Adds characters as `add_front` does, which knows what follows them.
    fn add_front_to<'a>(
        &mut self,
        text: &'a str,
        after: &str,
        tag: &T,
    ) -> Result<&'a str, BlockError>
        requires { RunsTo self.old text.now after.now }
        ensures kinds { IfErr result (λ e. (e ≡ BlockError.TooNarrow) ⊎ (e ≡ BlockError.Memory)) }
        ensures read { IfOk result (λ rest. ReadsFront T.seen self.old self.new text.now rest.now (T.seen tag.now)) }
        ensures narrow { result ≡ Err BlockError.TooNarrow
            → MeetsWider T.seen self.old (lettered (chars text.now) (T.seen tag.now)) }
        ensures text { IfOk result (λ rest. IsUtf8 rest.now) }
        ensures shorter { IfOk result (λ rest. text.now ≢ [] → length rest.now < length text.now) }
    {
        let (run, rest) = split_before(text, after);
        if run.is_empty() {
            return self.add_first(text, tag);
        }
        self.add_run(run, rest, tag)
    }

    /// Adds the first character, and after a space the words that go on the line; what follows is left.
    fn add_first<'a>(&mut self, text: &'a str, tag: &T) -> Result<&'a str, BlockError>
        ensures kinds { IfErr result (λ e. (e ≡ BlockError.TooNarrow) ⊎ (e ≡ BlockError.Memory)) }
        ensures read { IfOk result (λ rest. ReadsFront T.seen self.old self.new text.now rest.now (T.seen tag.now)) }
        ensures narrow { result ≡ Err BlockError.TooNarrow
            → MeetsWider T.seen self.old (lettered (chars text.now) (T.seen tag.now)) }
        ensures text { IfOk result (λ rest. IsUtf8 rest.now) }
        ensures shorter { IfOk result (λ rest. text.now ≢ [] → length rest.now < length text.now) }
    {
        let Some((c, after)) = first_char(text) else {
            return Ok(text);
        };
        self.add_char(c, tag)?;
        Ok(self.add_words(c, text, after, tag)?)
    }

    /// Adds the words that stand after a space, which was read, where they are parted by single spaces and go on the
    /// line, and the space after them; what follows is left. The error is allocation failure alone.
    fn add_words<'a>(
        &mut self,
        read: char,
        text: &'a str,
        after: &'a str,
        tag: &T,
    ) -> Result<&'a str, AllocError>
        requires { text.now ≡ encode_utf8 read ++ after.now }
        ensures read { IfOk result (λ left. ReadsFront T.seen self.old self.new after.now left.now (T.seen tag.now)) }
        ensures text { IfOk result (λ left. IsUtf8 left.now) }
        ensures no_longer { IfOk result (λ left. length left.now ≤ length after.now) }
    {
        if read != ' ' || !self.awaits_word(tag) {
            return Ok(after);
        }
        let (columns, rest) = words_in_front(text, self.lines.room());
        let (words, rest) = split_before(text, rest);
        let Some((c, trailing)) = first_char(rest) else {
            return Ok(after);
        };
        if columns == 0 || c != ' ' {
            return Ok(after);
        }
        self.lines.push_words(words, columns, tag)?;
        Ok(trailing)
    }

    /// Whether no word is at hand, and a space with that tag is to stand before the next.
    fn awaits_word(&self, tag: &T) -> bool
        ensures { IsTrue result → AwaitsWord T.seen self.now (T.seen tag.now) }
    {
        match &self.space {
            Some(space) => *space == *tag && self.word.is_empty(),
            None => false,
        }
    }

    /// Adds characters that join the word at hand. Where they are a whole word, it is laid without being held, and the
    /// break point after it is added too, with the words after that go on the line; what follows is left.
    fn add_run<'a>(&mut self, run: &str, rest: &'a str, tag: &T) -> Result<&'a str, BlockError>
        requires { All (JoinsWord self.old) (chars run.now) }
        ensures kinds { IfErr result (λ e. e ≡ BlockError.Memory) }
        ensures read { IfOk result (λ left. ReadsRun T.seen self.old self.new (chars run.now) (chars rest.now)
            (chars left.now) (T.seen tag.now)) }
        ensures text { IfOk result (λ left. IsUtf8 left.now) }
        ensures no_longer { IfOk result (λ left. length left.now ≤ length rest.now) }
    {
        let columns = columns_of(run);
        match self.end_of_word(columns, rest) {
            Some((c, trailing)) => {
                self.add_word(run, columns, c, tag)?;
                Ok(self.add_words(c, rest, trailing, tag)?)
            }
            None => {
                self.word.push_counted(run, columns, tag)?;
                Ok(rest)
            }
        }
    }

    /// The break point after characters of so many columns, and what follows it, where the characters are a whole
    /// word.
    fn end_of_word<'a>(&self, columns: usize, rest: &'a str) -> Option<(char, &'a str)>
        ensures ends { IfSome result (λ parts. EndsWord T.seen self.now columns rest.now parts.0 parts.1.now) }
        ensures texts { IfSome result (λ parts. IsScalar parts.0 × IsUtf8 parts.1.now) }
    {
        if columns == 0 || !self.word.is_empty() {
            return None;
        }
        let (c, trailing) = first_char(rest)?;
        if is_break_point(c) {
            Some((c, trailing))
        } else {
            None
        }
    }

    /// Lays a whole word, and adds the break point after it.
    fn add_word(&mut self, run: &str, columns: usize, c: char, tag: &T) -> Result<(), BlockError>
        requires { columns ≡ text_columns (chars run.now) }
        ensures kinds { IfErr result (λ e. e ≡ BlockError.Memory) }
        ensures laid { OnOk result (LaysWord T.seen self.old self.new (chars run.now) c (T.seen tag.now)) }
    {
        let space = self.space.take();
        self.lines.add_run(space.as_ref(), run, columns, tag)?;
        self.add_space(c, tag)?;
        Ok(())
    }

    /// What follows the characters in front that join the word at hand.
    fn after_run<'a>(&self, text: &'a str) -> &'a str
        ensures { RunsTo self.now text.now result.now }
    {
        let mut rest = text;
        while let Some((c, after)) = first_char(rest) {
            if !self.joins_word(c) {
                return rest;
            }
            rest = after;
        }
        rest
    }

    /// Whether the character has a width and is no break point, and some line can hold it.
    fn joins_word(&self, c: char) -> bool
        ensures { IsTrue result → JoinsWord self.now c }
    {
        // The common case.
        if is_visible_ascii(c) {
            return self.lines.has_room_for(1);
        }
        match UnicodeColumns::columns(c) {
            Some(columns) => !is_break_point(c) && self.lines.has_room_for(columns),
            None => false,
        }
    }

    fn add_char(&mut self, c: char, tag: &T) -> Result<(), BlockError>
        ensures kinds { IfErr result (λ e. (e ≡ BlockError.TooNarrow) ⊎ (e ≡ BlockError.Memory)) }
        ensures read { OnOk result (Reads T.seen self.old self.new (lettered (c ∷ []) (T.seen tag.now))) }
        ensures narrow { result ≡ Err BlockError.TooNarrow
            → MeetsWider T.seen self.old (lettered (c ∷ []) (T.seen tag.now)) }
    {
        if is_break_point(c) {
            self.end_word()?;
            self.add_space(c, tag)?;
            return Ok(());
        }
        match UnicodeColumns::columns(c) {
            Some(columns) => self.add_to_word(c, columns, tag),
            None => Ok(()),
        }
    }

    fn add_to_word(&mut self, c: char, columns: usize, tag: &T) -> Result<(), BlockError>
        ensures kinds { IfErr result (λ e. (e ≡ BlockError.TooNarrow) ⊎ (e ≡ BlockError.Memory)) }
        ensures read { OnOk result (Moves T.seen self.old self.new (word_read c (T.seen tag.now))) }
        ensures room { OnOk result ((self.old.lines.allow_overflow || nat_le columns self.old.lines.width) ≡ true) }
        ensures narrow { result ≡ Err BlockError.TooNarrow
            → (self.old.lines.allow_overflow || nat_le columns self.old.lines.width) ≡ false }
    {
        if !self.lines.has_room_for(columns) {
            return Err(BlockError::TooNarrow);
        }
        self.word.push_char(c, tag)?;
        Ok(())
    }

    /// Keeps the tag of a white space, where it is the first.
    fn add_space(&mut self, c: char, tag: &T) -> Result<(), AllocError>
        ensures read { OnOk result (IsTrue (is_break_point c)
            → Moves T.seen self.old self.new (space_read c (T.seen tag.now))) }
    {
        if c != ZERO_WIDTH_SPACE && self.space.is_none() {
            self.space = Some(self.lines.copy_tag(tag)?);
        }
        Ok(())
    }

    /// Lays the word, where it has columns; a word without columns joins the next.
    fn end_word(&mut self) -> Result<(), BlockError>
        ensures kinds { IfErr result (λ e. e ≡ BlockError.Memory) }
        ensures read { OnOk result (Moves T.seen self.old self.new end_read) }
    {
        if self.word.width() == 0 {
            Ok(())
        } else {
            self.lay_word()
        }
    }

    /// Lays the word, where it has characters.
    fn lay_word(&mut self) -> Result<(), BlockError>
        ensures kinds { IfErr result (λ e. e ≡ BlockError.Memory) }
        ensures read { OnOk result (Moves T.seen self.old self.new lay_read) }
    {
        if self.word.is_empty() {
            return Ok(());
        }
        let space = self.space.take();
        self.lines.add_word(space.as_ref(), &mut self.word)?;
        self.word.clear();
        Ok(())
    }

    /// The lines of the text with one more after it, which is moved where it can be.
    pub(crate) fn into_lines_after(
        mut self,
        text: String,
        tag: T,
    ) -> Result<Vec<TaggedLine<T>>, BlockError>
        ensures kinds { IfErr result (λ e. (e ≡ BlockError.TooNarrow) ⊎ (e ≡ BlockError.Memory)) }
        ensures ends { IfOk result (λ lines. EndsAs T.seen self
            (lettered (chars (string_bytes text)) (T.seen tag)) lines.items) }
        ensures narrow { result ≡ Err BlockError.TooNarrow → (width : ℕ) (overflow : Bool) (read : List (Letter T.Seen))
            → HasRead T.seen width overflow read self
            → HasWider width overflow (lettered (chars (string_bytes text)) (T.seen tag)) }
    {
        // A space after the last word is never shown, and ends it.
        let text = ended(text)?;
        self.add_string(text, tag)?;
        self.into_lines()
    }

    /// The lines of the text.
    pub(crate) fn into_lines(mut self) -> Result<Vec<TaggedLine<T>>, BlockError>
        ensures kinds { IfErr result (λ e. e ≡ BlockError.Memory) }
        ensures laid { IfOk result (λ lines. (width : ℕ) (overflow : Bool) (read : List (Letter T.Seen))
            → HasRead T.seen width overflow read self
            → map (line_items T.seen) lines.items ≡ map marks_items (all_lines (add_units width (units read)))) }
        ensures joined { IfOk result (λ lines. (width : ℕ) (overflow : Bool) (read : List (Letter T.Seen))
            → HasRead T.seen width overflow read self → All (IsJoined T.seen) lines.items) }
    {
        self.lay_word()?;
        let NormalText { lines, .. } = self;
        lines.into_lines()
    }
}

const ZERO_WIDTH_SPACE: char = '\u{200b}';
