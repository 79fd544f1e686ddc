ghost use Rattle.std.specs.Prelude.{◌≡◌, ◌≢◌, ◌≤◌, ◌+◌, ◌||◌, [], ◌∷◌, ◌++◌, All, Bool, IfErr, IfOk, IsTrue, List};
ghost use Rattle.std.specs.Prelude.{OnOk, chars, map, nat_le, option_copied, string_bytes, ℕ};
ghost use Rattle.std.specs.Option.{option_map};
ghost use Rattle.text_lines.specs.Columns.{text_columns};
ghost use Rattle.text_lines.specs.Tagged.{line_items, element_items, line_columns, tagged, IsJoined};
ghost use Rattle.text_normal.specs.SpacedWords.{EndsInSpace};
ghost use Rattle.text_normal.specs.NormalStates.{space_after, space_columns};

use crate::spaced_words::without_last;
use std::alloc::{AllocError, Global};
use text_lines::{Columns, EqualCopy, TaggedLine, TaggedLineElement, UnicodeColumns};
use text_pieces::BlockError;

/// Lines of at most `width` columns that are filled from the front, each with as many characters as go.
#[derive(Drop)]
pub(crate) struct Filling<T> {
    width: usize,
    allow_overflow: bool,
    done: Vec<TaggedLine<T>>,
    line: TaggedLine<T>,
}

impl<T: EqualCopy + Drop> Filling<T> {
    ghost use Rattle.text_normal.specs.Layout.{marks_items};
    ghost use Rattle.text_normal.specs.Greedy.{Filled, filled, all_lines};
    ghost use Rattle.text_normal.specs.NormalStates.{Cuts, GoesOnWith, HoldsLines, Lays, LaysCut, LaysUnit, LaysWhole};
    ghost use Rattle.text_normal.specs.NormalStates.{LaysWords, TakesMore, with_room};

    pub(crate) fn new(alloc: Global, width: usize, allow_overflow: bool) -> Filling<T>
        ensures { HoldsLines T.seen width allow_overflow result (filled [] []) }
    {
        Filling {
            width,
            allow_overflow,
            done: Vec::new(alloc),
            line: TaggedLine::new(alloc),
        }
    }

    /// An equal tag, in the memory of the lines.
    pub(crate) fn copy_tag(&self, tag: &T) -> Result<T, AllocError>
        ensures { IfOk result (λ copy. T.seen copy ≡ T.seen tag.now) }
    {
        tag.copy(*self.done.allocator())
    }

    /// Whether some line can hold so many columns.
    pub(crate) fn has_room_for(&self, columns: usize) -> bool
        ensures { result ≡ (self.now.allow_overflow || nat_le columns self.now.width) }
    {
        self.allow_overflow || columns <= self.width
    }

    /// Whether the line can take so many columns more, and so many after them.
    fn fits(&self, gap: usize, columns: usize) -> bool
        ensures { result ≡ nat_le (line_columns (line_items T.seen self.now.line) + (gap + columns)) self.now.width }
    {
        let taken = self.line.width();
        taken <= self.width && gap <= self.width - taken && columns <= self.width - taken - gap
    }

    /// The columns that are left on a line that has some.
    pub(crate) fn room(&self) -> usize
        ensures { (columns : ℕ) → columns ≢ 0 → columns ≤ result → TakesMore T.seen self.now columns }
    {
        let taken = self.line.width();
        if taken == 0 {
            return 0;
        }
        self.width.saturating_sub(taken)
    }

    /// Adds words, each after a space, which have that many columns and go on the line, where it has some.
    pub(crate) fn push_words(
        &mut self,
        words: &str,
        columns: usize,
        tag: &T,
    ) -> Result<(), AllocError>
        requires { columns ≡ text_columns (chars words.now) }
        ensures { OnOk result (LaysWords T.seen self.old self.new (chars words.now) (T.seen tag.now)) }
    {
        self.line.push_counted(words, columns, tag)
    }

    /// Whether the line has nothing on it.
    pub(crate) fn is_fresh(&self) -> bool
        ensures { IsTrue result → line_items T.seen self.now.line ≡ [] }
    {
        self.line.is_empty()
    }

    /// Moves a text, but for the space at its end, to the line's end; what is moved has that many columns.
    pub(crate) fn move_words(
        &mut self,
        text: String,
        columns: usize,
        tag: T,
    ) -> Result<(), AllocError>
        requires { EndsInSpace (chars (string_bytes text)) columns }
        ensures { OnOk result ((front : List ℕ) → chars (string_bytes text) ≡ front ++ 0x20 ∷ []
            → GoesOnWith T.seen self.old self.new front (T.seen tag)) }
    {
        self.line.push_string(without_last(text), columns, tag)
    }

    /// Adds a word after the line's text, with a space of the given tag between them, where both go on
    /// it; else on a fresh line. A word wider than a line is cut there. What is left of the word is of no use.
    pub(crate) fn add_word(
        &mut self,
        space: Option<&T>,
        word: &mut TaggedLine<T>,
    ) -> Result<(), BlockError>
        ensures laid { OnOk result (LaysUnit T.seen self.old self.new
            (option_map T.seen (option_copied space.entry)) (line_items T.seen word.old)) }
        ensures kinds { IfErr result (λ e. e ≡ BlockError.Memory) }
    {
        if word.width() > self.width {
            self.add_cut(word)
        } else {
            self.add_whole(space, word)
        }
    }

    /// Adds a word that is a text of one tag, and has that many columns, as `add_word` does.
    pub(crate) fn add_run(
        &mut self,
        space: Option<&T>,
        run: &str,
        columns: usize,
        tag: &T,
    ) -> Result<(), BlockError>
        requires { columns ≡ text_columns (chars run.now) }
        ensures laid { OnOk result (LaysUnit T.seen self.old self.new (option_map T.seen (option_copied space.entry))
            (tagged (chars run.now) (T.seen tag.now))) }
        ensures kinds { IfErr result (λ e. e ≡ BlockError.Memory) }
    {
        if columns > self.width {
            self.add_cut_run(run, tag)
        } else {
            self.add_whole_run(space, run, columns, tag)
        }
    }

    fn add_whole_run(
        &mut self,
        space: Option<&T>,
        run: &str,
        columns: usize,
        tag: &T,
    ) -> Result<(), BlockError>
        requires { columns ≡ text_columns (chars run.now) }
        ensures laid { OnOk result (LaysWhole T.seen self.old self.new (option_map T.seen (option_copied space.entry))
            (tagged (chars run.now) (T.seen tag.now))) }
        ensures kinds { IfErr result (λ e. e ≡ BlockError.Memory) }
    {
        self.make_room(space_columns(space), columns)?;
        push_run_after(&mut self.line, space, run, columns, tag)?;
        Ok(())
    }

    fn add_cut_run(&mut self, run: &str, tag: &T) -> Result<(), BlockError>
        ensures laid { OnOk result (LaysCut T.seen self.old self.new (tagged (chars run.now) (T.seen tag.now))) }
        ensures kinds { IfErr result (λ e. e ≡ BlockError.Memory) }
    {
        self.end_line()?;
        self.cut_text(run, tag)
    }

    fn add_whole(&mut self, space: Option<&T>, word: &mut TaggedLine<T>) -> Result<(), BlockError>
        ensures laid { OnOk result (LaysWhole T.seen self.old self.new
            (option_map T.seen (option_copied space.entry)) (line_items T.seen word.old)) }
        ensures kinds { IfErr result (λ e. e ≡ BlockError.Memory) }
    {
        self.make_room(space_columns(space), word.width())?;
        push_after(&mut self.line, space, word)?;
        Ok(())
    }

    fn add_cut(&mut self, word: &TaggedLine<T>) -> Result<(), BlockError>
        ensures laid { OnOk result (LaysCut T.seen self.old self.new (line_items T.seen word.now)) }
        ensures kinds { IfErr result (λ e. e ≡ BlockError.Memory) }
    {
        self.end_line()?;
        self.cut_word(word)
    }

    fn cut_word(&mut self, word: &TaggedLine<T>) -> Result<(), BlockError>
        ensures laid { OnOk result (Cuts T.seen self.old self.new (line_items T.seen word.now)) }
        ensures kinds { IfErr result (λ e. e ≡ BlockError.Memory) }
    {
        for element in word.iter() {
            self.cut_element(element)?;
        }
        Ok(())
    }

    fn cut_element(&mut self, element: &TaggedLineElement<T>) -> Result<(), BlockError>
        ensures laid { OnOk result (Cuts T.seen self.old self.new (element_items T.seen element.now)) }
        ensures kinds { IfErr result (λ e. e ≡ BlockError.Memory) }
    {
        match element {
            TaggedLineElement::Str(string) => self.cut_text(string.s.as_str(), &string.tag),
            TaggedLineElement::FragmentStart(_) => Ok(()),
        }
    }

    fn cut_text(&mut self, text: &str, tag: &T) -> Result<(), BlockError>
        ensures laid { OnOk result (Cuts T.seen self.old self.new (tagged (chars text.now) (T.seen tag.now))) }
        ensures kinds { IfErr result (λ e. e ≡ BlockError.Memory) }
    {
        for c in text.chars() {
            self.add_char(c, tag)?;
        }
        Ok(())
    }

    /// Adds a character of a cut word: on a fresh line, where it doesn't go on the line.
    fn add_char(&mut self, c: char, tag: &T) -> Result<(), BlockError>
        ensures laid { OnOk result (Cuts T.seen self.old self.new (tagged (c ∷ []) (T.seen tag.now))) }
        ensures kinds { IfErr result (λ e. e ≡ BlockError.Memory) }
    {
        let columns = UnicodeColumns::columns(c).unwrap_or(0);
        self.make_room(0, columns)?;
        self.line.push_char(c, tag)?;
        Ok(())
    }

    /// Ends the line, where it doesn't take so many columns more.
    fn make_room(&mut self, gap: usize, columns: usize) -> Result<(), BlockError>
        ensures laid { OnOk result (Lays T.seen self.old self.new (with_room (gap + columns))) }
        ensures kinds { IfErr result (λ e. e ≡ BlockError.Memory) }
    {
        if self.fits(gap, columns) {
            Ok(())
        } else {
            self.end_line()
        }
    }

    /// Ends the line, where it has text.
    fn end_line(&mut self) -> Result<(), BlockError>
        ensures laid { OnOk result (Lays T.seen self.old self.new (λ width f. filled (all_lines f) [])) }
        ensures kinds { IfErr result (λ e. e ≡ BlockError.Memory) }
    {
        if self.line.is_empty() {
            return Ok(());
        }
        let fresh = TaggedLine::new(*self.done.allocator());
        let line = std::mem::replace(&mut self.line, fresh);
        self.done.push(line)?;
        Ok(())
    }

    /// The lines, the last one too.
    pub(crate) fn into_lines(mut self) -> Result<Vec<TaggedLine<T>>, BlockError>
        ensures lines { IfOk result (λ lines. (width : ℕ) (overflow : Bool) (f : Filled T.Seen)
            → HoldsLines T.seen width overflow self f
            → map (line_items T.seen) lines.items ≡ map marks_items (all_lines f)) }
        ensures joined { IfOk result (λ lines. (width : ℕ) (overflow : Bool) (f : Filled T.Seen)
            → HoldsLines T.seen width overflow self f → All (IsJoined T.seen) lines.items) }
        ensures kinds { IfErr result (λ e. e ≡ BlockError.Memory) }
    {
        self.end_line()?;
        let Filling { done, .. } = self;
        Ok(done)
    }
}

/// The columns of a space, where there is one.
fn space_columns<T: EqualCopy>(space: Option<&T>) -> usize
    ensures { result ≡ space_columns (option_map T.seen (option_copied space.entry)) }
{
    match space {
        Some(_) => 1,
        None => 0,
    }
}

/// Moves a word to a line's end, after a space of the given tag where the line has text.
fn push_after<T: EqualCopy + Drop>(
    line: &mut TaggedLine<T>,
    space: Option<&T>,
    word: &mut TaggedLine<T>,
) -> Result<(), AllocError>
    ensures pushed { OnOk result (line_items T.seen line.new ≡ line_items T.seen line.old
        ++ space_after (line_items T.seen line.old) (option_map T.seen (option_copied space.entry))
        ++ line_items T.seen word.old) }
    ensures joined { IsJoined T.seen line.old → IsJoined T.seen line.new }
{
    push_space(line, space)?;
    line.append(word)
}

/// Adds a text, which has that many columns, at a line's end, after a space of the given tag where the line has text.
fn push_run_after<T: EqualCopy + Drop>(
    line: &mut TaggedLine<T>,
    space: Option<&T>,
    run: &str,
    columns: usize,
    tag: &T,
) -> Result<(), AllocError>
    requires { columns ≡ text_columns (chars run.now) }
    ensures pushed { OnOk result (line_items T.seen line.new ≡ line_items T.seen line.old
        ++ space_after (line_items T.seen line.old) (option_map T.seen (option_copied space.entry))
        ++ tagged (chars run.now) (T.seen tag.now)) }
    ensures joined { IsJoined T.seen line.old → IsJoined T.seen line.new }
{
    push_space(line, space)?;
    line.push_counted(run, columns, tag)
}

/// Adds a space of the given tag at a line's end, where the line has text.
fn push_space<T: EqualCopy + Drop>(
    line: &mut TaggedLine<T>,
    space: Option<&T>,
) -> Result<(), AllocError>
    ensures pushed { OnOk result (line_items T.seen line.new ≡ line_items T.seen line.old
        ++ space_after (line_items T.seen line.old) (option_map T.seen (option_copied space.entry))) }
    ensures joined { IsJoined T.seen line.old → IsJoined T.seen line.new }
{
    if line.is_empty() {
        return Ok(());
    }
    match space {
        Some(tag) => line.push_char(' ', tag),
        None => Ok(()),
    }
}
